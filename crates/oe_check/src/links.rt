// The nodes that each node refers to, by their indices.
ghost use Rattle.std.specs.Prelude.{◌≡◌, ◌<◌, ◌≤◌, true, codes, length, Contains, IfOk};
ghost use Rattle.oe_dims.specs.Names.{names_rise, same_name};
ghost use Rattle.oe_graph.specs.Indices.{reference_graph};
ghost use Rattle.oe_graph.specs.Plain.{plain_node, plain_nodes};
ghost use Rattle.oe_graph.specs.Printed.{ids_of};
ghost use Rattle.oe_order.specs.Graph.{graph_of};
ghost use Rattle.oe_check.specs.Links.{index_referred, links_of};
ghost use Rattle.oe_check.specs.Walked.{AreResolved};

use oe_graph::Node;
use oe_memory::OutOfMemory;
use oe_order::Links;
use std::alloc::Global;

/// For each node whether it loads a collection, and the nodes that it refers to.
pub(crate) fn links_between(
    alloc: Global,
    nodes: &Vec<Node>,
    references: &Vec<Links>,
) -> Result<Vec<Links>, OutOfMemory>
    requires resolved { AreResolved (plain_nodes nodes.now.items) }
    requires graph { graph_of references.now.items
        ≡ reference_graph (plain_nodes nodes.now.items) }
    ensures { IfOk result (λ links. graph_of links.items ≡ links_of (plain_nodes nodes.now.items)) }
{
    let mut links = Vec::with_capacity(alloc, nodes.len())?;
    for index in 0..nodes.len() {
        let link = link_at(alloc, &references[index], &nodes[index])?;
        links.push(link)?;
    }
    Ok(links)
}

/// The references of a node, with whether it loads a collection.
fn link_at(alloc: Global, references: &Links, node: &Node) -> Result<Links, OutOfMemory>
    ensures load { IfOk result (λ link. link.load
        ≡ same_name (plain_node node.now).process_id (codes "load_collection")) }
    ensures arguments { IfOk result
        (λ link. link.arguments.items ≡ references.now.arguments.items) }
{
    Ok(Links {
        load: node.process_id.as_str() == "load_collection",
        arguments: Vec::from_slice(alloc, references.arguments.as_slice())?,
    })
}

/// The index of the node of an id, among nodes in byte order of their ids.
pub(crate) fn index_of(nodes: &[Node], id: &str) -> usize
    requires rise { names_rise (ids_of (plain_nodes nodes.now)) ≡ true }
    requires named { Contains (ids_of (plain_nodes nodes.now)) id.now }
    ensures index { result ≡ index_referred (plain_nodes nodes.now) id.now }
    ensures within { result < length nodes.now }
{
    index_or_first(nodes, id)
}

/// The same, or that of the first node where none has the id.
fn index_or_first(nodes: &[Node], id: &str) -> usize
    requires rise { names_rise (ids_of (plain_nodes nodes.now)) ≡ true }
    ensures index { result ≡ index_referred (plain_nodes nodes.now) id.now }
    ensures most { result ≤ length nodes.now }
{
    match nodes.binary_search_by(|node| node.id.as_str().cmp(id)) {
        Ok(index) => index,
        Err(_) => 0,
    }
}
