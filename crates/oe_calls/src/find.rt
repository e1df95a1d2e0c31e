// Nodes by their ids.
ghost use Rattle.std.specs.Prelude.{◌≡◌};
ghost use Rattle.oe_graph.specs.Indices.{NotesRise};
ghost use Rattle.oe_graph.specs.Plain.{plain_graph, plain_nodes};
ghost use Rattle.oe_calls.specs.Rounds as spec;

use oe_graph::{Beside, Graph, Node, find_index, index_in};

/// The index of the first node of an id, or as many as there are where no node has it.
pub fn index_beside(beside: &Beside, id: &str) -> usize
    requires rise { NotesRise beside.now }
    ensures { result ≡ spec.index_of id.now (plain_nodes beside.now.nodes.now.items) }
{
    find_index(beside, id).unwrap_or(beside.nodes.len())
}

/// The same of nodes that are looked at once.
pub fn index_of(nodes: &Vec<Node>, id: &str) -> usize
    ensures { result ≡ spec.index_of id.now (plain_nodes nodes.now.items) }
{
    index_in(nodes, id).unwrap_or(nodes.len())
}

/// The id of the result node.
pub fn id_at(graph: &Graph) -> &str
    ensures { result.now ≡ spec.id_at (plain_graph graph.now).nodes (plain_graph graph.now).result }
{
    let index = graph.result as usize;
    if index < graph.nodes.len() {
        graph.nodes[index].id.as_str()
    } else {
        ""
    }
}
