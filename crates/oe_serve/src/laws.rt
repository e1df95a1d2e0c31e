// What holds of every connection that is served.
ghost use Rattle.oe_serve.specs.Laws.{ServingIsComplete};

/// Does nothing. Its contract says that a connection which is served while no fault counter rises, over a spool whose
/// bytes are visible, is answered whole: with the reply that the definitions give, with that of a result's damaged
/// position, or with that of out of memory.
pub fn serving_is_complete()
    ensures { ServingIsComplete }
{}
