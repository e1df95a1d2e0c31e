// What the nodes of a graph object refer to, by their indices.
ghost use Rattle.std.specs.Prelude.{◌≡◌, ◌<◌, ◌^◌, ◌++◌, ℕ, List, [], ◌∷◌, IfOk, OnOk, length, map};
ghost use Rattle.oe_graph.specs.Indices.{AreNodesSorted, NotesRise, are_known, indices_named, reference_graph};
ghost use Rattle.oe_graph.specs.Plain.{plain_arg, plain_args, plain_named, plain_node, plain_nodes};
ghost use Rattle.oe_graph.specs.References.{Leads, references_each, references_in, references_named};
ghost use Rattle.oe_order.specs.Graph.{graph_of};

use crate::search::{Beside, find_index, guesses_of};
use crate::tree::{Arg, Node};
use oe_dims::Text;
use oe_memory::OutOfMemory;
use oe_order::{Links, sort};
use std::alloc::Global;

/// What each node of a graph object refers to: the nodes, by index, and whether each of its references names one.
#[derive(Drop)]
pub struct References {
    pub links: Vec<Links>,
    pub known: Vec<bool>,
}

/// What each node of a graph object refers to, by index, and the indices of the nodes, each behind those that it refers
/// to.
#[derive(Drop)]
pub struct SortedNodes {
    pub links: Vec<Links>,
    pub indices: Vec<u32>,
}

/// The nodes of a graph object in an order in which each stands behind those that it refers to, where no references lead
/// from a node back to itself.
///
/// Refuses: out of memory, also where there are 2^32 nodes or more.
pub fn sort_nodes(alloc: Global, nodes: &Vec<Node>) -> Result<SortedNodes, OutOfMemory>
    requires acyclic { (id : List ℕ) → ¬ Leads (plain_nodes nodes.now.items) id id }
    ensures graph { IfOk result
        (λ s. graph_of s.links.items ≡ reference_graph (plain_nodes nodes.now.items)) }
    ensures sorted { IfOk result
        (λ s. AreNodesSorted (plain_nodes nodes.now.items) s.indices.items) }
{
    let references = read_references(alloc, nodes)?;
    let indices = sort(alloc, references.links.as_slice())?;
    Ok(SortedNodes {
        links: references.links,
        indices,
    })
}

/// The references of each node, each searched once among the ids. References in a callback are its own.
///
/// Refuses: out of memory, also where there are 2^32 nodes or more.
pub fn read_references(alloc: Global, nodes: &Vec<Node>) -> Result<References, OutOfMemory>
    ensures few { OnOk result (length nodes.now.items < 2 ^ 32) }
    ensures graph { IfOk result
        (λ r. graph_of r.links.items ≡ reference_graph (plain_nodes nodes.now.items)) }
    ensures known { IfOk result (λ r. r.known.items
        ≡ map (λ n. are_known (plain_nodes nodes.now.items)
        (references_named (plain_node n).arguments)) nodes.now.items) }
{
    // As many nodes as do not fit this type do not fit the memory either.
    if nodes.len() > u32::MAX as usize {
        return Err(OutOfMemory);
    }
    let guesses = guesses_of(alloc, nodes)?;
    let beside = Beside {
        nodes,
        guesses: &guesses,
    };
    references_beside(alloc, &beside)
}

fn references_beside(alloc: Global, beside: &Beside) -> Result<References, OutOfMemory>
    requires few { length beside.now.nodes.now.items < 2 ^ 32 }
    requires rise { NotesRise beside.now }
    ensures graph { IfOk result
        (λ r. graph_of r.links.items ≡ reference_graph (plain_nodes beside.now.nodes.now.items)) }
    ensures known { IfOk result (λ r. r.known.items
        ≡ map (λ n. are_known (plain_nodes beside.now.nodes.now.items)
        (references_named (plain_node n).arguments)) beside.now.nodes.now.items) }
{
    let mut links = Vec::with_capacity(alloc, beside.nodes.len())?;
    let mut known = Vec::with_capacity(alloc, beside.nodes.len())?;
    for node in beside.nodes {
        let mut arguments = Vec::new(alloc);
        known.push(add_named(beside, &node.arguments, &mut arguments)?)?;
        links.push(Links {
            load: false,
            arguments,
        })?;
    }
    Ok(References { links, known })
}

/// Adds the indices of the nodes that arguments refer to, and answers whether each reference names one.
#[cycle(references)]
fn add_named(
    beside: &Beside,
    members: &Vec<(Text, Arg)>,
    found: &mut Vec<u32>,
) -> Result<bool, OutOfMemory>
    requires few { length beside.now.nodes.now.items < 2 ^ 32 }
    requires rise { NotesRise beside.now }
    ensures found { OnOk result (found.new.items ≡ found.old.items
        ++ indices_named (plain_nodes beside.now.nodes.now.items)
        (references_named (plain_named members.now.items))) }
    ensures known { IfOk result (λ known. known
        ≡ are_known (plain_nodes beside.now.nodes.now.items)
        (references_named (plain_named members.now.items))) }
{
    let mut known = true;
    for member in members {
        known = add_arg(beside, &member.1, found)? && known;
    }
    Ok(known)
}

#[cycle(references)]
fn add_args(beside: &Beside, items: &Vec<Arg>, found: &mut Vec<u32>) -> Result<bool, OutOfMemory>
    requires few { length beside.now.nodes.now.items < 2 ^ 32 }
    requires rise { NotesRise beside.now }
    ensures found { OnOk result (found.new.items ≡ found.old.items
        ++ indices_named (plain_nodes beside.now.nodes.now.items)
        (references_each (plain_args items.now.items))) }
    ensures known { IfOk result (λ known. known
        ≡ are_known (plain_nodes beside.now.nodes.now.items)
        (references_each (plain_args items.now.items))) }
{
    let mut known = true;
    for item in items {
        known = add_arg(beside, item, found)? && known;
    }
    Ok(known)
}

#[cycle(references)]
fn add_arg(beside: &Beside, arg: &Arg, found: &mut Vec<u32>) -> Result<bool, OutOfMemory>
    requires few { length beside.now.nodes.now.items < 2 ^ 32 }
    requires rise { NotesRise beside.now }
    ensures found { OnOk result (found.new.items ≡ found.old.items
        ++ indices_named (plain_nodes beside.now.nodes.now.items)
        (references_in (plain_arg arg.now))) }
    ensures known { IfOk result (λ known. known
        ≡ are_known (plain_nodes beside.now.nodes.now.items) (references_in (plain_arg arg.now))) }
{
    match arg {
        Arg::List(items) => add_args(beside, items, found),
        Arg::Object(members) => add_named(beside, members, found),
        Arg::FromNode(id) => add_reference(beside, id.as_str(), found),
        _ => Ok(true),
    }
}

fn add_reference(beside: &Beside, id: &str, found: &mut Vec<u32>) -> Result<bool, OutOfMemory>
    requires few { length beside.now.nodes.now.items < 2 ^ 32 }
    requires rise { NotesRise beside.now }
    ensures found { OnOk result (found.new.items ≡ found.old.items
        ++ indices_named (plain_nodes beside.now.nodes.now.items) (id.now ∷ [])) }
    ensures known { IfOk result (λ known. known
        ≡ are_known (plain_nodes beside.now.nodes.now.items) (id.now ∷ [])) }
{
    match find_index(beside, id) {
        Some(index) => {
            found.push(index as u32)?;
            Ok(true)
        }
        None => Ok(false),
    }
}
