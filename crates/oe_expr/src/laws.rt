// What holds of every callback in which no fault stands.
ghost use Rattle.oe_expr.specs.Laws.{UnfoldAtNodes};

/// Does nothing. Its contract says that in a resolved callback in which no fault stands each node asks for an operation
/// and refers to nodes that are there, so that its value is this operation on their values, and its kind that of the
/// operation on their kinds; and that no other values of the nodes are so.
#[tactic(auto, using(crate::proofs::UnfoldLemmas::unfold_at_nodes))]
pub fn values_unfold()
    ensures { UnfoldAtNodes }
{}
