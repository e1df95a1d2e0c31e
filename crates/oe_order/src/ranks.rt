// A test by which a caller may know that a graph has no cycle.
ghost use Rattle.std.specs.Prelude.{◌<◌, ◌↔◌, ℕ, IsTrue, length, slice_index};
ghost use Rattle.oe_order.specs.Graph.{graph_of, RefersWithin, IsAcyclic};
ghost use Rattle.oe_order.specs.Order.{contains};
ghost use Rattle.oe_order.specs.Ranks.{IsRanking};

use crate::Links;

/// Whether there is a rank for each node, and the ranks fall along each reference. Then each reference names a node and
/// none leads back to its own, as [`order`](crate::order) demands.
pub fn is_ranked(nodes: &[Links], ranks: &[u32]) -> bool
    ensures exact { IsTrue result ↔ IsRanking (graph_of nodes.now) ranks.now }
    // What that says of the graph.
    ensures named { IsTrue result → RefersWithin (graph_of nodes.now) }
    ensures acyclic { IsTrue result → IsAcyclic (graph_of nodes.now) }
{
    if ranks.len() != nodes.len() {
        return false;
    }
    for node in 0..nodes.len() {
        if !all_below(nodes[node].arguments.as_slice(), ranks, ranks[node]) {
            return false;
        }
    }
    true
}

/// Whether each of these nodes has a rank below this one.
fn all_below(arguments: &[u32], ranks: &[u32], rank: u32) -> bool
    ensures { IsTrue result ↔ ((a : ℕ) → IsTrue (contains arguments.now a) →
        (a < length ranks.now) × (slice_index ranks.now a < rank)) }
{
    for argument in arguments {
        if *argument as usize >= ranks.len() || ranks[*argument as usize] >= rank {
            return false;
        }
    }
    true
}
