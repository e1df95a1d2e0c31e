// Which nodes of a graph object references lead back to.
ghost use Rattle.std.specs.Prelude.{◌≡◌, ◌<◌, ◌^◌, ◌↔◌, ℕ, true, IfOk, IsTrue, length};
ghost use Rattle.oe_dims.specs.Names.{names_rise};
ghost use Rattle.oe_graph.specs.Indices.{reference_graph};
ghost use Rattle.oe_graph.specs.Plain.{plain_nodes};
ghost use Rattle.oe_graph.specs.Printed.{ids_of};
ghost use Rattle.oe_order.specs.Graph.{RefersWithin, IsAcyclic, arguments, graph_of};
ghost use Rattle.oe_order.specs.Order.{contains};
ghost use Rattle.oe_order.specs.Sorted.{AreNoLoads};
ghost use Rattle.oe_resolve.specs.NameFaults.{AreMarks};

use oe_graph::Node;
use oe_memory::OutOfMemory;
use oe_order::{Links, is_acyclic, leads_back};
use std::alloc::Global;

/// For each node of a graph object, whether references lead from it back to itself.
pub fn cyclic_marks(
    alloc: Global,
    nodes: &Vec<Node>,
    links: &[Links],
) -> Result<Vec<bool>, OutOfMemory>
    requires few { length nodes.now.items < 2 ^ 32 }
    requires graph { graph_of links.now ≡ reference_graph (plain_nodes nodes.now.items) }
    ensures len { IfOk result (λ marks. length marks.items ≡ length nodes.now.items) }
    ensures exact { IfOk result (λ marks. names_rise (ids_of (plain_nodes nodes.now.items)) ≡ true
        → AreMarks true (plain_nodes nodes.now.items) marks.items) }
{
    if has_no_cycle(alloc, links)? {
        return Ok(vec![in alloc; false; nodes.len()]?);
    }
    let mut marks = Vec::with_capacity(alloc, nodes.len())?;
    for index in 0..nodes.len() {
        marks.push(leads_back(alloc, links, index as u32)?)?;
    }
    Ok(marks)
}

/// Whether no references lead from a node back to itself. Nothing is sorted where each leads to a node of lesser index, as
/// in a callback of one node.
fn has_no_cycle(alloc: Global, links: &[Links]) -> Result<bool, OutOfMemory>
    requires few { length links.now < 2 ^ 32 }
    requires named { RefersWithin (graph_of links.now) }
    requires no_loads { AreNoLoads (graph_of links.now) }
    ensures { IfOk result (λ none. none ≡ true ↔ IsAcyclic (graph_of links.now)) }
{
    if lead_down(links) {
        return Ok(true);
    }
    is_acyclic(alloc, links)
}

/// Whether each reference leads to a node of lesser index.
fn lead_down(links: &[Links]) -> bool
    ensures { IsTrue result ↔ ((n a : ℕ)
        → IsTrue (contains (arguments (graph_of links.now) n) a) → a < n) }
{
    for node in 0..links.len() {
        if !all_below(links[node].arguments.as_slice(), node) {
            return false;
        }
    }
    true
}

/// Whether each of these nodes has an index below this one.
fn all_below(arguments: &[u32], node: usize) -> bool
    ensures { IsTrue result ↔ ((a : ℕ) → IsTrue (contains arguments.now a) → a < node) }
{
    for argument in arguments {
        if *argument as usize >= node {
            return false;
        }
    }
    true
}
