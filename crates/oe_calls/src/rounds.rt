// One round: each call of a stored process is replaced by the graph of that process.
ghost use Rattle.std.specs.Prelude.{◌≡◌, ◌≤◌, IfOk, OnOk, Some, length, map};
ghost use Rattle.oe_graph.specs.Indices.{NotesRise};
ghost use Rattle.oe_graph.specs.Plain.{plain_arg, plain_args, plain_named, plain_nodes, plain_node, plain_graph, plain_stored};
ghost use Rattle.oe_graph.specs.Printed.{ids_of};
ghost use Rattle.oe_graph.specs.Tree.{PlainNode, no_nodes};
ghost use Rattle.oe_calls.specs.Calls.{callee};
ghost use Rattle.oe_calls.specs.Renamed.{renamed_nodes};
ghost use Rattle.oe_calls.specs.Substituted.{substituted_nodes};
ghost use Rattle.oe_calls.specs.Rounds as spec;

use crate::calls::{callee, is_call};
use crate::find::{id_at, index_beside, index_of};
use crate::inline::{inline_nodes, under_id};
use crate::values::{Values, values_given};
use oe_dims::{Text, copy_text};
use oe_graph::{Arg, Beside, Graph, Node, StoredProcess, copy_arg, guesses_of, is_name_before};
use oe_memory::OutOfMemory;
use std::alloc::Global;

/// The graph after a round: the graph of its process stands in place of each call of a stored process (openEO API,
/// process graphs and user-defined processes). Refuses: out of memory.
pub fn round(alloc: Global, stored: &[StoredProcess], graph: &Graph) -> Result<Graph, OutOfMemory>
    ensures { IfOk result (λ g. plain_graph g
        ≡ spec.round (map plain_stored stored.now) (plain_graph graph.now)) }
{
    round_graph(alloc, graph, stored)
}

// In each of these the tree that is walked stands first: by its depth they end.
#[cycle(round)]
fn round_graph(alloc: Global, graph: &Graph, stored: &[StoredProcess]) -> Result<Graph, OutOfMemory>
    ensures { IfOk result (λ g. plain_graph g
        ≡ spec.round (map plain_stored stored.now) (plain_graph graph.now)) }
{
    let nodes = round_nodes(alloc, &graph.nodes, stored)?;
    let target = id_at(graph);
    let index = index_of(&graph.nodes, target);
    let id = landing_id(alloc, stored, &graph.nodes, index, target)?;
    let result = index_of(&nodes, id.as_str());
    // As many nodes as do not fit this type do not fit the memory either.
    match u32::try_from(result) {
        Ok(result) => Ok(Graph { nodes, result }),
        Err(_) => Err(OutOfMemory),
    }
}

#[cycle(round)]
fn round_nodes(
    alloc: Global,
    all: &Vec<Node>,
    stored: &[StoredProcess],
) -> Result<Vec<Node>, OutOfMemory>
    ensures { IfOk result (λ v. let all = plain_nodes all.now.items in plain_nodes v.items
        ≡ spec.round_nodes (map plain_stored stored.now) all all no_nodes) }
{
    let guesses = guesses_of(alloc, all)?;
    let beside = Beside {
        nodes: all,
        guesses: &guesses,
    };
    let mut found = Vec::with_capacity(alloc, all.len())?;
    for node in all {
        let waits = is_call(stored, node);
        let arguments = round_named(alloc, &node.arguments, stored, waits, &beside)?;
        let more = expand_node(alloc, stored, node, arguments)?;
        put_nodes(&mut found, more)?;
    }
    Ok(found)
}

/// A node, or in place of a call the nodes of the process that it calls.
fn expand_node(
    alloc: Global,
    stored: &[StoredProcess],
    node: &Node,
    arguments: Vec<(Text, Arg)>,
) -> Result<Vec<Node>, OutOfMemory>
    ensures { IfOk result (λ v. plain_nodes v.items ≡ spec.opened (map plain_stored stored.now)
        record (plain_node node.now) { arguments = plain_named arguments.items }
        (callee (map plain_stored stored.now) node.now.namespace node.now.process_id)) }
{
    match callee(stored, node) {
        Some(process) => inline_call(alloc, stored, node, &arguments, process),
        None => {
            let mut one = Vec::with_capacity(alloc, 1)?;
            one.push(Node {
                id: node.id.copy()?,
                process_id: node.process_id.copy()?,
                namespace: copy_text(&node.namespace)?,
                arguments,
            })?;
            Ok(one)
        }
    }
}

/// The nodes of the process that a node calls.
fn inline_call(
    alloc: Global,
    stored: &[StoredProcess],
    node: &Node,
    arguments: &Vec<(Text, Arg)>,
    process: &StoredProcess,
) -> Result<Vec<Node>, OutOfMemory>
    ensures { IfOk result (λ v. plain_nodes v.items ≡ spec.opened (map plain_stored stored.now)
        record (plain_node node.now) { arguments = plain_named arguments.now.items }
        (Some (plain_stored process.now))) }
{
    let given = values_given(alloc, &process.parameters, arguments)?;
    let nodes = inline_given(
        alloc,
        stored,
        node.id.as_str(),
        &given,
        &process.graph.nodes,
    )?;
    Ok(nodes)
}

/// The nodes of a process in place of the call of an id that hands it these values.
fn inline_given(
    alloc: Global,
    stored: &[StoredProcess],
    call: &str,
    given: &Vec<(Text, Arg)>,
    nodes: &Vec<Node>,
) -> Result<Vec<Node>, OutOfMemory>
    ensures { IfOk result (λ v. plain_nodes v.items
        ≡ substituted_nodes (map plain_stored stored.now) (plain_named given.now.items)
        (renamed_nodes (spec.under_id call.now) (plain_nodes nodes.now.items))) }
{
    let values = Values {
        call,
        given,
        hidden: Vec::new(alloc),
        in_callback: false,
    };
    inline_nodes(alloc, nodes, stored, &values)
}

/// Puts nodes at the indices that their ids have in byte order.
fn put_nodes(found: &mut Vec<Node>, more: Vec<Node>) -> Result<(), OutOfMemory>
    ensures { OnOk result (plain_nodes found.new.items
        ≡ spec.put_nodes (plain_nodes more.items) (plain_nodes found.old.items)) }
{
    for node in more {
        put_node(found, node)?;
    }
    Ok(())
}

fn put_node(found: &mut Vec<Node>, node: Node) -> Result<(), OutOfMemory>
    ensures { OnOk result (plain_nodes found.new.items
        ≡ spec.put_node (plain_node node) (plain_nodes found.old.items)) }
{
    let index = index_among(found, node.id.as_str());
    found.insert(index, node)?;
    Ok(())
}

/// The index that an id has in byte order among the ids of nodes.
fn index_among(nodes: &Vec<Node>, id: &str) -> usize
    ensures within { result ≤ length nodes.now.items }
    ensures is { result ≡ spec.index_among id.now (ids_of (plain_nodes nodes.now.items)) }
{
    for index in 0..nodes.len() {
        if !is_name_before(nodes[index].id.as_str(), id) {
            return index;
        }
    }
    nodes.len()
}

/// What the id of a node at this index means after the round: the result node of a call's graph in place of the call.
fn landing_id(
    alloc: Global,
    stored: &[StoredProcess],
    all: &Vec<Node>,
    index: usize,
    id: &str,
) -> Result<Text, OutOfMemory>
    requires { index ≡ spec.index_of id.now (plain_nodes all.now.items) }
    ensures { IfOk result (λ text. text
        ≡ spec.landed (map plain_stored stored.now) (plain_nodes all.now.items) id.now) }
{
    if index == all.len() {
        return Text::of(alloc, id);
    }
    match callee(stored, &all[index]) {
        Some(process) => under_id(alloc, id, id_at(&process.graph)),
        None => Text::of(alloc, id),
    }
}

/// What a reference means after the round.
fn landing_beside(
    alloc: Global,
    stored: &[StoredProcess],
    beside: &Beside,
    id: &str,
) -> Result<Text, OutOfMemory>
    requires rise { NotesRise beside.now }
    ensures { IfOk result (λ text. text
        ≡ spec.landed (map plain_stored stored.now) (plain_nodes beside.now.nodes.now.items)
        id.now) }
{
    landing_id(alloc, stored, beside.nodes, index_beside(beside, id), id)
}

/// The arguments of a node after a round. Those of a call have callbacks that wait.
#[cycle(round)]
fn round_named(
    alloc: Global,
    members: &Vec<(Text, Arg)>,
    stored: &[StoredProcess],
    waits: bool,
    beside: &Beside,
) -> Result<Vec<(Text, Arg)>, OutOfMemory>
    requires rise { NotesRise beside.now }
    ensures { IfOk result (λ v. plain_named v.items
        ≡ spec.round_named (map plain_stored stored.now) waits
        (plain_nodes beside.now.nodes.now.items) (plain_named members.now.items)) }
{
    let mut copy = Vec::with_capacity(alloc, members.len())?;
    for member in members {
        let name = member.0.copy()?;
        copy.push((name, round_arg(alloc, &member.1, stored, waits, beside)?))?;
    }
    Ok(copy)
}

#[cycle(round)]
fn round_args(
    alloc: Global,
    items: &Vec<Arg>,
    stored: &[StoredProcess],
    waits: bool,
    beside: &Beside,
) -> Result<Vec<Arg>, OutOfMemory>
    requires rise { NotesRise beside.now }
    ensures { IfOk result (λ v. plain_args v.items
        ≡ spec.round_each (map plain_stored stored.now) waits
        (plain_nodes beside.now.nodes.now.items) (plain_args items.now.items)) }
{
    let mut copy = Vec::with_capacity(alloc, items.len())?;
    for item in items {
        copy.push(round_arg(alloc, item, stored, waits, beside)?)?;
    }
    Ok(copy)
}

#[cycle(round)]
fn round_arg(
    alloc: Global,
    arg: &Arg,
    stored: &[StoredProcess],
    waits: bool,
    beside: &Beside,
) -> Result<Arg, OutOfMemory>
    requires rise { NotesRise beside.now }
    ensures { IfOk result (λ a. plain_arg a
        ≡ spec.round_argument (map plain_stored stored.now) waits
        (plain_nodes beside.now.nodes.now.items) (plain_arg arg.now)) }
{
    match arg {
        Arg::List(items) => Ok(Arg::List(round_args(alloc, items, stored, waits, beside)?)),
        Arg::Object(members) => Ok(Arg::Object(round_named(
            alloc, members, stored, waits, beside,
        )?)),
        Arg::FromNode(id) => Ok(Arg::FromNode(landing_beside(alloc, stored, beside, id.as_str())?)),
        Arg::Callback(graph) if !waits => Ok(Arg::Callback(round_graph(alloc, graph, stored)?)),
        _ => copy_arg(alloc, arg),
    }
}
