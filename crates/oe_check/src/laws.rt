// What holds of every checked graph.
ghost use denote.Param.Send.{IsSend, IsSync};
ghost use Rattle.oe_check.specs.contracts.checked.Checked as checked;
ghost use Rattle.oe_check.specs.Held.{AskWhereHeld};
ghost use Rattle.oe_meanings.specs.Laws.{NeedResolvers};
ghost use Rattle.oe_check.specs.Laws.{GiveCubes, ReferToCubes};
ghost use Rattle.oe_check.specs.Reach.{FoldDateByDate};
ghost use Rattle.oe_meanings.specs.Stands.{HasNoneAtOrBelow};
ghost use Rattle.oe_check.specs.Tables.{AreTied};
ghost use Rattle.oe_dims.specs.declared.dims.DimsRow.{DimsRow};
ghost use Rattle.oe_graph.specs.Tree.{Nodes};
ghost use Rattle.std.specs.Prelude.{List};

/// Does nothing. Its contract says that a merge needs a resolver exactly where a tuple of labels is in both of its
/// cubes.
#[tactic(auto, using(crate::proofs::SharedLemmas::need_resolvers))]
pub fn resolvers_are_needed()
    ensures { NeedResolvers }
{}

/// Does nothing. Its contract says that a node's arguments are refused exactly where one is not what the table of
/// processes says of it, or where the labels of intervals are not as many as these, or none are given and an interval
/// has no start.
#[tactic(auto, using(crate::proofs::HeldLemmas::ask_where_held))]
pub fn arguments_are_held()
    ensures { AskWhereHeld }
{}

/// Does nothing. Its contract says that the table of processes has the processes that the code tells apart, with the
/// kinds of cells that they take, and that the rows of faults at a node stand by their numbers.
#[tactic(auto, using(crate::proofs::TableLemmas::are_tied))]
pub fn tables_are_tied()
    ensures { AreTied }
{}

/// Does nothing. Its contract says that no fault stands at a node that has none at or below it.
#[tactic(auto, using(crate::proofs::StandsLemmas::none_at_or_below))]
pub fn faults_stand_lowest()
    ensures { (rows : List DimsRow) (nodes : Nodes) → HasNoneAtOrBelow rows nodes }
{}

/// Does nothing. Its contract says that a node of a resolved graph refers to the nodes whose cubes its request works on
/// and to no others, in their order.
#[tactic(auto, using(crate::proofs::CheckedLemmas::refer_to_cubes))]
pub fn references_are_cubes()
    ensures { ReferToCubes }
{}

/// Does nothing. Its contract says that each node of a graph without a fault means a valid cube of the shape and the
/// kind that were found for it, and that this is its operation on the collection that it loads, or on the cubes of the
/// nodes that it refers to; and that by its links it loads a collection exactly where it has one.
#[tactic(auto, using(crate::proofs::CheckedLemmas::give_cubes))]
pub fn nodes_give_cubes()
    ensures { GiveCubes }
{}

/// Does nothing. Its contract says that a reduction of t that goes date by date has the value of its reducer.
#[tactic(auto, using(crate::proofs::ReachLemmas::fold_date_by_date))]
pub fn folds_are_reductions()
    ensures { FoldDateByDate }
{}

/// Does nothing. Its contract says that threads may share checked graphs and hand them on.
#[tactic(auto, using(crate::proofs::CrossLemmas::checked_send, crate::proofs::CrossLemmas::checked_sync))]
pub fn graphs_cross_threads()
    ensures send { IsSend checked.the_row }
    ensures sync { IsSync checked.the_row }
{}
