// What holds of every translated graph.
ghost use Rattle.oe_translate.specs.Laws.{KeepsMeanings, LeavesRoom, StaysAcyclic, StaysFaultless, StaysSmall};

/// Does nothing. Its contract says that in the translation of a graph without a fault no references lead from a node
/// back to itself, where no node of the graph has the name that is given to the aggregation of running sums.
#[tactic(auto, using(crate::proofs::MeaningLemmas::stays_acyclic))]
pub fn translations_are_acyclic()
    ensures { StaysAcyclic }
{}

/// Does nothing. Its contract says that each node of such a graph means in the translated graph what it means in the
/// graph itself, over collections of cells that are in lowest terms and in range wherever running sums work on them.
#[tactic(auto, using(crate::proofs::MeaningLemmas::keeps_meanings))]
pub fn meanings_are_kept()
    ensures { KeepsMeanings }
{}

/// Does nothing. Its contract says that no node of a graph that was read and whose calls were replaced has the name that
/// is given to the aggregation of running sums.
#[tactic(auto, using(crate::proofs::RoomLemmas::leaves_room))]
pub fn names_leave_room()
    ensures { LeavesRoom }
{}

/// Does nothing. Its contract says that a graph in which no fault stood as it was read, and whose calls were replaced,
/// has few enough nodes for its translation: 256 at most, of which each becomes two at most.
#[tactic(auto, using(crate::proofs::RoomLemmas::stays_small))]
pub fn translations_are_small()
    ensures { StaysSmall }
{}

/// Does nothing. Its contract says that the translation of a graph without a fault is resolved and has no fault either,
/// over the same collections: the check of it refuses nothing but for want of memory.
#[tactic(auto, using(crate::proofs::FaultlessLemmas::stays_faultless))]
pub fn translations_are_faultless()
    ensures { StaysFaultless }
{}
