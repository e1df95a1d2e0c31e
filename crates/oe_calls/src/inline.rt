// Calls inlined: the nodes of the process that is called, under the call and with its values.
ghost use Rattle.std.specs.Prelude.{◌≡◌, true, IfOk, map};
ghost use Rattle.oe_graph.specs.Plain.{plain_arg, plain_args, plain_named, plain_nodes, plain_node, plain_graph, plain_stored};
ghost use Rattle.oe_calls.specs.Renamed.{renamed, renamed_each, renamed_named, renamed_node, renamed_nodes};
ghost use Rattle.oe_calls.specs.Substituted as spec;
ghost use Rattle.oe_calls.specs.Rounds.{under_id};
ghost use Rattle.oe_calls.specs.PlainValues.{names_behind, rename_by, seen};

use crate::calls::callback_parameters;
use crate::values::{Values, inside, value_named};
use oe_dims::{Text, copy_text};
use oe_graph::{Arg, Graph, Node, StoredProcess, copy_arg};
use oe_memory::OutOfMemory;
use std::alloc::Global;

/// The id of a node in a call; the empty id stays empty.
pub fn under_id(alloc: Global, call: &str, id: &str) -> Result<Text, OutOfMemory>
    ensures { IfOk result (λ text. text ≡ under_id call.now id.now) }
{
    if id.is_empty() {
        return Text::of(alloc, "");
    }
    let mut text = String::from_str(alloc, call)?;
    text.push_str("/")?;
    text.push_str(id)?;
    Text::of(alloc, text.as_str())
}

/// The nodes of a process in place of a call of it: their ids and references are under the call, and values stand for
/// parameters. In a callback ids and references stay.
#[cycle(inline)]
pub fn inline_nodes(
    alloc: Global,
    nodes: &Vec<Node>,
    stored: &[StoredProcess],
    values: &Values,
) -> Result<Vec<Node>, OutOfMemory>
    ensures nodes { IfOk result (λ v. plain_nodes v.items
        ≡ spec.substituted_nodes (map plain_stored stored.now) (seen values.now)
        (renamed_nodes (rename_by values.now) (plain_nodes nodes.now.items))) }
    // in a callback ids and references stay
    ensures kept { values.now.in_callback ≡ true → IfOk result (λ v. plain_nodes v.items
        ≡ spec.substituted_nodes (map plain_stored stored.now) (seen values.now)
        (plain_nodes nodes.now.items)) }
{
    let mut copy = Vec::with_capacity(alloc, nodes.len())?;
    for node in nodes {
        copy.push(inline_node(alloc, node, stored, values)?)?;
    }
    Ok(copy)
}

#[cycle(inline)]
fn inline_node(
    alloc: Global,
    node: &Node,
    stored: &[StoredProcess],
    values: &Values,
) -> Result<Node, OutOfMemory>
    ensures { IfOk result (λ n. plain_node n
        ≡ spec.substituted_node (map plain_stored stored.now) (seen values.now)
        (renamed_node (rename_by values.now) (plain_node node.now))) }
{
    let own = callback_parameters(stored, node);
    let arguments = inline_named(alloc, &node.arguments, stored, own, values)?;
    Ok(Node {
        id: rename_id(alloc, values, &node.id)?,
        process_id: node.process_id.copy()?,
        namespace: copy_text(&node.namespace)?,
        arguments,
    })
}

#[cycle(inline)]
fn inline_named(
    alloc: Global,
    members: &Vec<(Text, Arg)>,
    stored: &[StoredProcess],
    own: &'static [&'static str],
    values: &Values,
) -> Result<Vec<(Text, Arg)>, OutOfMemory>
    ensures { IfOk result (λ v. plain_named v.items
        ≡ spec.substituted_named (map plain_stored stored.now) (names_behind own.now)
        (seen values.now) (renamed_named (rename_by values.now) (plain_named members.now.items))) }
{
    let mut copy = Vec::with_capacity(alloc, members.len())?;
    for member in members {
        let name = member.0.copy()?;
        copy.push((name, inline_arg(alloc, &member.1, stored, own, values)?))?;
    }
    Ok(copy)
}

#[cycle(inline)]
fn inline_args(
    alloc: Global,
    items: &Vec<Arg>,
    stored: &[StoredProcess],
    own: &'static [&'static str],
    values: &Values,
) -> Result<Vec<Arg>, OutOfMemory>
    ensures { IfOk result (λ v. plain_args v.items
        ≡ spec.substituted_each (map plain_stored stored.now) (names_behind own.now)
        (seen values.now) (renamed_each (rename_by values.now) (plain_args items.now.items))) }
{
    let mut copy = Vec::with_capacity(alloc, items.len())?;
    for item in items {
        copy.push(inline_arg(alloc, item, stored, own, values)?)?;
    }
    Ok(copy)
}

#[cycle(inline)]
fn inline_arg(
    alloc: Global,
    arg: &Arg,
    stored: &[StoredProcess],
    own: &'static [&'static str],
    values: &Values,
) -> Result<Arg, OutOfMemory>
    ensures { IfOk result (λ a. plain_arg a
        ≡ spec.substituted (map plain_stored stored.now) (names_behind own.now) (seen values.now)
        (renamed (rename_by values.now) (plain_arg arg.now))) }
{
    match arg {
        Arg::List(items) => { Ok(Arg::List(inline_args(alloc, items, stored, own, values)?)) }
        Arg::Object(members) => {
            Ok(Arg::Object(inline_named(alloc, members, stored, own, values)?))
        }
        Arg::FromNode(id) => Ok(Arg::FromNode(rename_id(alloc, values, id)?)),
        Arg::FromParameter(name) => value_named(alloc, values, name),
        Arg::Callback(graph) => {
            let inner = inside(alloc, own, values)?;
            Ok(Arg::Callback(inline_graph(alloc, graph, stored, &inner)?))
        }
        _ => copy_arg(alloc, arg),
    }
}

/// A callback of one of these nodes, with values for parameters.
#[cycle(inline)]
fn inline_graph(
    alloc: Global,
    graph: &Graph,
    stored: &[StoredProcess],
    values: &Values,
) -> Result<Graph, OutOfMemory>
    requires { values.now.in_callback ≡ true }
    ensures nodes { IfOk result (λ g. (plain_graph g).nodes
        ≡ spec.substituted_nodes (map plain_stored stored.now) (seen values.now)
        (plain_graph graph.now).nodes) }
    ensures result { IfOk result
        (λ g. (plain_graph g).result ≡ (plain_graph graph.now).result) }
{
    let nodes = inline_nodes(alloc, &graph.nodes, stored, values)?;
    Ok(Graph {
        nodes,
        result: graph.result,
    })
}

/// The id of a node, or of one that is referred to: under the call, but in a callback as it is.
fn rename_id(alloc: Global, values: &Values, id: &Text) -> Result<Text, OutOfMemory>
    ensures { IfOk result (λ text. text ≡ rename_by values.now id.now) }
{
    if values.in_callback {
        id.copy()
    } else {
        under_id(alloc, values.call, id.as_str())
    }
}
