// What holds of the collections that a run loads.
ghost use Rattle.oe_steps.specs.Laws.{AreMounted};

/// Does nothing. Its contract says that a graph that was checked over the rows of a catalogue has its collections
/// mounted there, as each read of them asks.
pub fn loads_are_mounted()
    ensures { AreMounted }
{}
