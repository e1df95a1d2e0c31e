// Nodes in byte order of their ids.
ghost use Rattle.std.specs.Prelude.{◌≡◌, ◌≤◌, OnOk, length};
ghost use Rattle.oe_graph.specs.Plain.{plain_node, plain_nodes};
ghost use Rattle.oe_graph.specs.Printed.{ids_of};
ghost use Rattle.oe_calls.specs.Rounds as spec;

use oe_dims::{is_name_before, same_text};
use oe_graph::Node;
use oe_memory::OutOfMemory;

/// Puts a node at the index that its id has in byte order.
pub(crate) fn put_node(found: &mut Vec<Node>, node: Node) -> Result<(), OutOfMemory>
    ensures { OnOk result (plain_nodes found.new.items
        ≡ spec.put_node (plain_node node) (plain_nodes found.old.items)) }
{
    let index = index_among(found, node.id.as_str());
    found.insert(index, node)?;
    Ok(())
}

/// The index that an id has in byte order among the ids of nodes.
fn index_among(nodes: &Vec<Node>, id: &str) -> usize
    ensures within { result ≤ length nodes.now.items }
    ensures is { result ≡ spec.index_among id.now (ids_of (plain_nodes nodes.now.items)) }
{
    for index in 0..nodes.len() {
        if !is_name_before(nodes[index].id.as_str(), id) {
            return index;
        }
    }
    nodes.len()
}

/// The index of the first node of an id, or as many as there are where no node has it.
pub(crate) fn index_of(nodes: &Vec<Node>, id: &str) -> usize
    ensures { result ≡ spec.index_of id.now (plain_nodes nodes.now.items) }
{
    for index in 0..nodes.len() {
        if same_text(nodes[index].id.as_str(), id) {
            return index;
        }
    }
    nodes.len()
}
