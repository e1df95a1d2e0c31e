// What holds of every meaning.
ghost use Rattle.oe_meanings.specs.Brings.{BringValidLabels};
ghost use Rattle.oe_meanings.specs.CellKinds.{GiveCellsOfKind};
ghost use Rattle.oe_meanings.specs.Laws.{AggregateByPeriods, AreFoundWithoutCells, AreInOneAtLeast, KeepAllLabels};
ghost use Rattle.oe_meanings.specs.Scopes.{GiveScopes};
ghost use Rattle.oe_meanings.specs.SoundNodes.{AreSound, UnfoldAtNodes};
ghost use Rattle.oe_meanings.specs.ValidShapes.{GiveValidShapes};

/// Does nothing. Its contract says that the shape and the kind of every cube are found without cells.
#[tactic(auto, using(crate::proofs::OutlineLemmas::found_without_cells))]
pub fn shapes_need_no_cells()
    ensures { AreFoundWithoutCells }
{}

/// Does nothing. Its contract says that no label is lost where labels are put in order, or those of two cubes
/// together, and that each tuple of a merge is in one of its cubes at least.
#[tactic(auto, using(crate::proofs::LabelLemmas::keep_all_labels, crate::proofs::MergeLemmas::are_in_one))]
pub fn labels_are_kept()
    ensures labels { KeepAllLabels }
    ensures tuples { AreInOneAtLeast }
{}

/// Does nothing. Its contract says that an operation without a fault gives cells of its kind.
#[tactic(auto, using(crate::proofs::SoundLemmas::gives_cells_of_kind))]
pub fn cells_are_of_their_kind()
    ensures { GiveCellsOfKind }
{}

/// Does nothing. Its contract says that an operation without a fault gives a valid shape, and that the labels that it
/// brings with it are valid by the readers of its parameters.
#[tactic(auto, using(crate::proofs::ValidLemmas::gives_valid_shapes, crate::proofs::BringsLemmas::bring_valid_labels))]
pub fn shapes_are_valid()
    ensures shapes { GiveValidShapes }
    ensures labels { BringValidLabels }
{}

/// Does nothing. Its contract says that what an operation gives its callback to see is a scope, and which labels each
/// of its lists has.
#[tactic(auto, using(crate::proofs::ScopeLemmas::gives_scopes))]
pub fn callbacks_have_scopes()
    ensures { GiveScopes }
{}

/// Does nothing. Its contract says that in a graph without a cycle the meaning of each node is its operation on the
/// meanings of the nodes that it refers to, and that cubes of nodes without a fault are valid: in their shapes, and in
/// their cells, each of which is null, Over or of the cube's kind.
#[tactic(auto, using(crate::proofs::GraphLemmas::unfold_at_nodes, crate::proofs::GraphLemmas::are_sound))]
pub fn meanings_are_sound()
    ensures unfold { UnfoldAtNodes }
    ensures sound { AreSound }
{}

/// Does nothing. Its contract says that an aggregation over the calendar periods of a cube's labels of t, each from its
/// start to that of the next, gives each period the value of the reducer on the cells whose labels lie in it.
#[tactic(auto, using(crate::proofs::PeriodLemmas::aggregate_by_periods))]
pub fn periods_are_aggregations()
    ensures { AggregateByPeriods }
{}
