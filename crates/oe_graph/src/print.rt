// The JSON text of a graph.
ghost use Rattle.std.specs.Prelude.{◌≡◌, ◌≤◌, IfOk, OnOk, length};
ghost use Rattle.serde_json.specs.Data.{depth, string, no_members};
ghost use Rattle.serde_json.specs.Read.{max_depth};
ghost use Rattle.serde_json.specs.View.{view, items_view, members_view};
ghost use Rattle.serde_json.specs.Written.{compact_text};
ghost use Rattle.oe_graph.specs.Plain.{plain_arg, plain_args, plain_named, plain_nodes, plain_node, plain_graph};
ghost use Rattle.oe_graph.specs.Printed as spec;
ghost use Rattle.oe_graph.specs.Form.{most_input};
ghost use Rattle.oe_graph.specs.Read.{Reads};

use crate::texts::{put_str, str_json};
use crate::tree::{Arg, Graph, Node};
use oe_dims::Text;
use oe_memory::OutOfMemory;
use serde_json::{Map, Value, put};
use std::alloc::Global;

/// The compact JSON text of a graph, members in byte order. A number that is no literal is written as 2^63.
///
/// Reading the text gives the graph again, where the graph keeps the rules of its form and the text those of an input.
pub fn print_graph(alloc: Global, graph: &Graph) -> Result<Text, OutOfMemory>
    ensures text { IfOk result
        (λ text. text ≡ compact_text (spec.graph_data (plain_graph graph.now))) }
    ensures reads_back { IfOk result (λ text. spec.IsPrintable (plain_graph graph.now)
        → length text ≤ most_input → depth (spec.graph_data (plain_graph graph.now)) ≤ max_depth
        → Reads text (plain_graph graph.now)) }
{
    let value = graph_json(alloc, graph)?;
    let text = value.to_string(alloc)?;
    Text::of(alloc, text.as_str())
}

#[cycle(print)]
fn graph_json(alloc: Global, graph: &Graph) -> Result<Value, OutOfMemory>
    ensures { IfOk result (λ v. view v ≡ spec.graph_data (plain_graph graph.now)) }
{
    let nodes = nodes_json(alloc, &graph.nodes, graph.result)?;
    let mut object = Map::new(alloc);
    put(&mut object, alloc, "process_graph", Value::Object(nodes))?;
    Ok(Value::Object(object))
}

#[cycle(print)]
fn nodes_json(
    alloc: Global,
    nodes: &Vec<Node>,
    result_index: u32,
) -> Result<Map<String, Value>, OutOfMemory>
    ensures { IfOk result (λ m. members_view m.entries
        ≡ spec.nodes_data 0 result_index (plain_nodes nodes.now.items) no_members) }
{
    let mut map = Map::new(alloc);
    for (index, node) in nodes.iter().enumerate() {
        let value = node_json(alloc, node, index == result_index as usize)?;
        put(&mut map, alloc, node.id.as_str(), value)?;
    }
    Ok(map)
}

#[cycle(print)]
fn node_json(alloc: Global, node: &Node, is_result: bool) -> Result<Value, OutOfMemory>
    ensures { IfOk result (λ v. let n = plain_node node.now in view v ≡ spec.node_data
        (spec.named_data n.arguments no_members) n.namespace n.process_id is_result) }
{
    let arguments = named_json(alloc, &node.arguments)?;
    node_object(alloc, arguments, node, is_result)
}

#[cycle(print)]
fn arg_json(alloc: Global, arg: &Arg) -> Result<Value, OutOfMemory>
    ensures { IfOk result (λ v. view v ≡ spec.argument_data (plain_arg arg.now)) }
{
    match arg {
        Arg::Null => Ok(Value::Null),
        Arg::Flag(flag) => Ok(Value::Bool(*flag)),
        Arg::Whole(whole) => Ok(Value::from(*whole)),
        Arg::Inexact => Ok(Value::from(9223372036854775808u64)),
        Arg::Str(text) => str_json(alloc, text.as_str()),
        Arg::List(items) => Ok(Value::Array(items_json(alloc, items)?)),
        Arg::Object(members) => Ok(Value::Object(named_json(alloc, members)?)),
        Arg::FromNode(name) => reference_json(alloc, "from_node", name),
        Arg::FromParameter(name) => reference_json(alloc, "from_parameter", name),
        Arg::Callback(graph) => graph_json(alloc, graph),
    }
}

#[cycle(print)]
fn items_json(alloc: Global, items: &Vec<Arg>) -> Result<Vec<Value>, OutOfMemory>
    ensures { IfOk result
        (λ v. items_view v.items ≡ spec.arguments_data (plain_args items.now.items)) }
{
    let mut values = Vec::with_capacity(alloc, items.len())?;
    for item in items {
        values.push(arg_json(alloc, item)?)?;
    }
    Ok(values)
}

#[cycle(print)]
fn named_json(alloc: Global, members: &Vec<(Text, Arg)>) -> Result<Map<String, Value>, OutOfMemory>
    ensures { IfOk result (λ m. members_view m.entries
        ≡ spec.named_data (plain_named members.now.items) no_members) }
{
    let mut map = Map::new(alloc);
    for member in members {
        let value = arg_json(alloc, &member.1)?;
        put(&mut map, alloc, member.0.as_str(), value)?;
    }
    Ok(map)
}

/// A node with these arguments.
fn node_object(
    alloc: Global,
    arguments: Map<String, Value>,
    node: &Node,
    is_result: bool,
) -> Result<Value, OutOfMemory>
    ensures { IfOk result (λ v. view v ≡ spec.node_data
        (members_view arguments.entries) node.now.namespace node.now.process_id is_result) }
{
    let mut object = Map::new(alloc);
    put(&mut object, alloc, "arguments", Value::Object(arguments))?;
    put_str(&mut object, alloc, "process_id", node.process_id.as_str())?;
    put_namespace(&mut object, alloc, &node.namespace)?;
    put_result(&mut object, alloc, is_result)?;
    Ok(Value::Object(object))
}

fn put_namespace(
    object: &mut Map<String, Value>,
    alloc: Global,
    namespace: &Option<Text>,
) -> Result<(), OutOfMemory>
    ensures { OnOk result (members_view object.new.entries
        ≡ spec.put_namespace namespace.now (members_view object.old.entries)) }
{
    match namespace {
        Some(namespace) => put_str(object, alloc, "namespace", namespace.as_str())?,
        None => {}
    }
    Ok(())
}

fn put_result(
    object: &mut Map<String, Value>,
    alloc: Global,
    is_result: bool,
) -> Result<(), OutOfMemory>
    ensures { OnOk result (members_view object.new.entries
        ≡ spec.put_result is_result (members_view object.old.entries)) }
{
    if is_result {
        put(object, alloc, "result", Value::Bool(true))?;
    }
    Ok(())
}

/// An object whose only member is a text.
fn reference_json(alloc: Global, key: &str, name: &Text) -> Result<Value, OutOfMemory>
    ensures { IfOk result (λ v. view v ≡ spec.single key.now (string name.now)) }
{
    let mut object = Map::new(alloc);
    put_str(&mut object, alloc, key, name.as_str())?;
    Ok(Value::Object(object))
}
