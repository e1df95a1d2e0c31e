// References that dangle as they were written: they name no node beside them, and refer to none for good.
ghost use Rattle.std.specs.Prelude.{◌≡◌, IfOk, map};
ghost use Rattle.std.specs.List.{list_any};
ghost use Rattle.oe_dims.specs.Names.{same_name};
ghost use Rattle.oe_graph.specs.Indices.{NotesRise};
ghost use Rattle.oe_graph.specs.Plain.{plain_arg, plain_args, plain_named, plain_nodes, plain_node, plain_graph};
ghost use Rattle.oe_graph.specs.Printed.{ids_of};
ghost use Rattle.oe_calls.specs.Rounds as spec;

use oe_dims::{Text, copy_text};
use oe_graph::{Arg, Beside, Graph, Node, copy_arg, find_index, guesses_of};
use oe_memory::OutOfMemory;
use std::alloc::Global;

/// A copy of a graph in which the references that dangle have the empty id, which no node has.
#[cycle(dangling)]
pub fn clear_graph(alloc: Global, graph: &Graph) -> Result<Graph, OutOfMemory>
    ensures { IfOk result (λ g. plain_graph g ≡ spec.cleared_graph (plain_graph graph.now)) }
{
    let guesses = guesses_of(alloc, &graph.nodes)?;
    let beside = Beside {
        nodes: &graph.nodes,
        guesses: &guesses,
    };
    let nodes = clear_nodes(alloc, &graph.nodes, &beside)?;
    Ok(Graph {
        nodes,
        result: graph.result,
    })
}

#[cycle(dangling)]
fn clear_nodes(alloc: Global, nodes: &Vec<Node>, beside: &Beside) -> Result<Vec<Node>, OutOfMemory>
    requires rise { NotesRise beside.now }
    ensures { IfOk result (λ v. plain_nodes v.items
        ≡ spec.cleared_nodes (ids_of (plain_nodes beside.now.nodes.now.items))
        (plain_nodes nodes.now.items)) }
{
    let mut copy = Vec::with_capacity(alloc, nodes.len())?;
    for node in nodes {
        copy.push(clear_node(alloc, node, beside)?)?;
    }
    Ok(copy)
}

#[cycle(dangling)]
fn clear_node(alloc: Global, node: &Node, beside: &Beside) -> Result<Node, OutOfMemory>
    requires rise { NotesRise beside.now }
    ensures { IfOk result (λ n. plain_node n
        ≡ spec.cleared_node (ids_of (plain_nodes beside.now.nodes.now.items)) (plain_node node.now)) }
{
    Ok(Node {
        id: node.id.copy()?,
        process_id: node.process_id.copy()?,
        namespace: copy_text(&node.namespace)?,
        arguments: clear_named(alloc, &node.arguments, beside)?,
    })
}

#[cycle(dangling)]
fn clear_named(
    alloc: Global,
    members: &Vec<(Text, Arg)>,
    beside: &Beside,
) -> Result<Vec<(Text, Arg)>, OutOfMemory>
    requires rise { NotesRise beside.now }
    ensures { IfOk result (λ v. plain_named v.items
        ≡ spec.cleared_named (ids_of (plain_nodes beside.now.nodes.now.items))
        (plain_named members.now.items)) }
{
    let mut copy = Vec::with_capacity(alloc, members.len())?;
    for member in members {
        let name = member.0.copy()?;
        copy.push((name, clear_arg(alloc, &member.1, beside)?))?;
    }
    Ok(copy)
}

#[cycle(dangling)]
fn clear_args(alloc: Global, items: &Vec<Arg>, beside: &Beside) -> Result<Vec<Arg>, OutOfMemory>
    requires rise { NotesRise beside.now }
    ensures { IfOk result (λ v. plain_args v.items
        ≡ spec.cleared_each (ids_of (plain_nodes beside.now.nodes.now.items))
        (plain_args items.now.items)) }
{
    let mut copy = Vec::with_capacity(alloc, items.len())?;
    for item in items {
        copy.push(clear_arg(alloc, item, beside)?)?;
    }
    Ok(copy)
}

#[cycle(dangling)]
fn clear_arg(alloc: Global, arg: &Arg, beside: &Beside) -> Result<Arg, OutOfMemory>
    requires rise { NotesRise beside.now }
    ensures { IfOk result (λ a. plain_arg a
        ≡ spec.cleared (ids_of (plain_nodes beside.now.nodes.now.items)) (plain_arg arg.now)) }
{
    match arg {
        Arg::List(items) => Ok(Arg::List(clear_args(alloc, items, beside)?)),
        Arg::Object(members) => Ok(Arg::Object(clear_named(alloc, members, beside)?)),
        Arg::FromNode(id) => Ok(Arg::FromNode(clear_id(alloc, beside, id)?)),
        Arg::Callback(graph) => Ok(Arg::Callback(clear_graph(alloc, graph)?)),
        _ => copy_arg(alloc, arg),
    }
}

/// Whether a node has this id.
fn has_id(beside: &Beside, id: &str) -> bool
    requires rise { NotesRise beside.now }
    ensures { result
        ≡ list_any (same_name id.now) (ids_of (plain_nodes beside.now.nodes.now.items)) }
{
    find_index(beside, id).is_some()
}

fn clear_id(alloc: Global, beside: &Beside, id: &Text) -> Result<Text, OutOfMemory>
    requires rise { NotesRise beside.now }
    ensures { IfOk result (λ text. text
        ≡ spec.cleared_id (ids_of (plain_nodes beside.now.nodes.now.items)) id.now) }
{
    if has_id(beside, id.as_str()) {
        id.copy()
    } else {
        Text::of(alloc, "")
    }
}
