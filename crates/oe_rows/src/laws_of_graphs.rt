//! What callers conclude from the laws of graphs: each contract here follows from clauses of the calls in the body alone,
//! named above it.
ghost use Rattle.std.specs.Prelude.{◌≡◌, [], ◌∷◌, true, Contains, OnOk, codes, is_some};
ghost use Rattle.oe_graph.specs.Plain.{plain_graph};
ghost use Rattle.oe_graph.specs.References.{each_node};
ghost use Rattle.oe_graph.specs.Resolved.{IsResolvedObject};
ghost use Rattle.oe_graph.specs.Tree.{PlainNode};
ghost use Rattle.oe_requests.specs.RunningSums.{running_sum_at};

use oe_graph::{Graph, Refusal};
use oe_requests::running_sum_in;
use std::alloc::Global;

/// In a resolved callback of `apply_dimension` in which no fault stands each node is a running sum (`faultless` of
/// `running_sum_in`): its references lead in no circle, so below a node that is something else a fault would stand.
pub fn running_sums_alone(alloc: Global, process: &Graph, id: &str) -> Result<bool, Refusal>
    requires { IsResolvedObject true (codes "data" ∷ codes "context" ∷ [])
        (plain_graph process.now).nodes (plain_graph process.now).result }
    ensures { OnOk result ((n : PlainNode) → Contains (each_node (plain_graph process.now).nodes) n
        → is_some (running_sum_at n) ≡ true) }
{
    running_sum_in(alloc, process, id)
}
