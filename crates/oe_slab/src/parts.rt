// The part of a run behind a node, whose cube counts as loaded.
ghost use Rattle.std.specs.Prelude.{◌≡◌, ◌<◌, ◌↔◌, ◌^◌, ℕ, false, IfOk, IsTrue, length, slice_index};
ghost use Rattle.oe_order.specs.Graph.{IsAcyclic, RefersWithin, graph_of, is_load};
ghost use Rattle.oe_order.specs.Live.{width_of};
ghost use Rattle.oe_order.specs.Order.{order_of};
ghost use Rattle.oe_plan.specs.Schedules.{as_load};
ghost use Rattle.oe_slab.specs.Schedules.{IsOrderAlong};

use crate::links::with_load_at;
use oe_memory::OutOfMemory;
use oe_order::{Links, NodeOrder, order};
use std::alloc::Global;

/// The order of the nodes that `last` needs, where the node counts as one that loads, and takes nothing.
///
/// Refuses: where an allocation was refused, and nowhere else.
pub(crate) fn order_behind(
    alloc: Global,
    links: &[Links],
    node: u32,
    last: u32,
) -> Result<NodeOrder, OutOfMemory>
    requires few { length links.now < 2 ^ 32 }
    requires node_named { node < length links.now }
    requires last_named { last < length links.now }
    requires named { RefersWithin (graph_of links.now) }
    requires acyclic { IsAcyclic (graph_of links.now) }
    ensures steps { IfOk result (λ o. o.steps ≡ order_of (as_load (graph_of links.now) node) last) }
    ensures along { IfOk result (IsOrderAlong (as_load (graph_of links.now) node) last) }
    ensures width { IfOk result
        (λ o. o.width ≡ width_of (as_load (graph_of links.now) node) last o.steps) }
    ensures within { IfOk result
        (λ o. (i : ℕ) → i < length o.steps → slice_index o.steps i < length links.now) }
{
    let behind = with_load_at(alloc, links, node)?;
    order(alloc, behind.as_slice(), last)
}

/// No node of these steps loads a cube.
pub(crate) fn loads_nothing(links: &[Links], steps: &[u32]) -> bool
    requires { (i : ℕ) → i < length steps.now → slice_index steps.now i < length links.now }
    ensures { IsTrue result ↔ ((i : ℕ) → i < length steps.now
        → is_load (graph_of links.now) (slice_index steps.now i) ≡ false) }
{
    for node in steps {
        if links[*node as usize].load {
            return false;
        }
    }
    true
}
