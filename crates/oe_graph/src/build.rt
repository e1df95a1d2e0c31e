// The tree of a graph, built in one pass from the JSON value.
ghost use Rattle.std.specs.Prelude.{◌≡◌, IfOk, option_map, string_bytes};
ghost use Rattle.serde_json.specs.Data.{object};
ghost use Rattle.serde_json.specs.View.{view, number_view, items_view, members_view};
ghost use Rattle.oe_graph.specs.Built as spec;
ghost use Rattle.oe_graph.specs.Plain.{plain_arg, plain_args, plain_named, plain_nodes, plain_node, plain_graph};

use crate::form::{arguments_in, is_result, nodes_in};
use crate::tree::{Arg, Graph, Node};
use oe_dims::Text;
use oe_memory::OutOfMemory;
use serde_json::{Map, Number, Value};
use std::alloc::Global;

/// The graph of an object of nodes.
#[cycle(graphs)]
pub(crate) fn build_graph(alloc: Global, nodes: &Map<String, Value>) -> Result<Graph, OutOfMemory>
    ensures { IfOk result
        (λ g. plain_graph g ≡ spec.graph_of (members_view nodes.now.entries)) }
{
    let result = result_index(nodes)?;
    let nodes = build_nodes(alloc, nodes)?;
    Ok(Graph { nodes, result })
}

#[cycle(graphs)]
fn build_nodes(alloc: Global, nodes: &Map<String, Value>) -> Result<Vec<Node>, OutOfMemory>
    ensures { IfOk result
        (λ v. plain_nodes v.items ≡ spec.nodes_from_data (members_view nodes.now.entries)) }
{
    let mut built = Vec::with_capacity(alloc, nodes.len())?;
    for (id, node) in nodes.iter() {
        built.push(build_node(alloc, id.as_str(), node)?)?;
    }
    Ok(built)
}

#[cycle(graphs)]
fn build_node(alloc: Global, id: &str, node: &Value) -> Result<Node, OutOfMemory>
    ensures id { IfOk result (λ n. n.id ≡ id.now) }
    ensures process { IfOk result (λ n. n.process_id ≡ spec.process_id_of (view node.now)) }
    ensures namespace { IfOk result (λ n. n.namespace ≡ spec.namespace_of (view node.now)) }
    ensures arguments { IfOk result
        (λ n. plain_named n.arguments.items ≡ spec.arguments_from_data (view node.now)) }
{
    let arguments = node_arguments(alloc, node)?;
    Ok(Node {
        id: Text::of(alloc, id)?,
        process_id: Text::of(alloc, text_at(node, "process_id").unwrap_or(""))?,
        namespace: copy_text(alloc, text_at(node, "namespace"))?,
        arguments,
    })
}

/// The arguments of a node.
#[cycle(graphs)]
fn node_arguments(alloc: Global, node: &Value) -> Result<Vec<(Text, Arg)>, OutOfMemory>
    ensures { IfOk result (λ v. plain_named v.items ≡ spec.arguments_from_data (view node.now)) }
{
    match arguments_in(node) {
        Some(members) => build_arguments(alloc, members),
        None => Ok(Vec::new(alloc)),
    }
}

#[cycle(graphs)]
fn build_arguments(
    alloc: Global,
    members: &Map<String, Value>,
) -> Result<Vec<(Text, Arg)>, OutOfMemory>
    ensures { IfOk result
        (λ v. plain_named v.items ≡ spec.each_argument (members_view members.now.entries)) }
{
    let mut built = Vec::with_capacity(alloc, members.len())?;
    for (key, member) in members.iter() {
        let name = Text::of(alloc, key.as_str())?;
        built.push((name, build_argument(alloc, member)?))?;
    }
    Ok(built)
}

/// A whole argument, which may be a callback.
#[cycle(graphs)]
fn build_argument(alloc: Global, value: &Value) -> Result<Arg, OutOfMemory>
    ensures { IfOk result (λ a. plain_arg a ≡ spec.argument_of (view value.now)) }
{
    match nodes_in(value) {
        Some(nodes) => Ok(Arg::Callback(build_graph(alloc, nodes)?)),
        None => build_value(alloc, value, false),
    }
}

/// The index of the first node that is marked as the result.
fn result_index(nodes: &Map<String, Value>) -> Result<u32, OutOfMemory>
    ensures { IfOk result (λ i. i ≡ spec.result_index (members_view nodes.now.entries)) }
{
    let mut index: u32 = 0;
    for (_, node) in nodes.iter() {
        if is_result(node) {
            return Ok(index);
        }
        // As many nodes as do not fit this type do not fit the memory either.
        if index == u32::MAX {
            return Err(OutOfMemory);
        }
        index += 1;
    }
    Ok(index)
}

/// A value inside an argument, or one that is read as plain, in which no object is a reference.
#[cycle(values)]
pub(crate) fn build_value(alloc: Global, value: &Value, plain: bool) -> Result<Arg, OutOfMemory>
    ensures { IfOk result (λ a. plain_arg a ≡ spec.value_of plain (view value.now)) }
{
    match value {
        Value::Null => Ok(Arg::Null),
        Value::Bool(flag) => Ok(Arg::Flag(*flag)),
        Value::Number(number) => Ok(number_arg(number)),
        Value::String(text) => Ok(Arg::Str(Text::of(alloc, text.as_str())?)),
        Value::Array(items) => Ok(Arg::List(build_items(alloc, items, plain)?)),
        Value::Object(members) => build_object(alloc, members, plain),
    }
}

#[cycle(values)]
fn build_object(
    alloc: Global,
    members: &Map<String, Value>,
    plain: bool,
) -> Result<Arg, OutOfMemory>
    ensures { IfOk result
        (λ a. plain_arg a ≡ spec.value_of plain (object (members_view members.now.entries))) }
{
    match reference(members, plain) {
        Some(Referred::Node(id)) => Ok(Arg::FromNode(Text::of(alloc, id)?)),
        Some(Referred::Parameter(name)) => Ok(Arg::FromParameter(Text::of(alloc, name)?)),
        None => Ok(Arg::Object(build_members(alloc, members, plain)?)),
    }
}

#[cycle(values)]
fn build_items(alloc: Global, items: &Vec<Value>, plain: bool) -> Result<Vec<Arg>, OutOfMemory>
    ensures { IfOk result
        (λ v. plain_args v.items ≡ spec.values_of plain (items_view items.now.items)) }
{
    let mut built = Vec::with_capacity(alloc, items.len())?;
    for item in items {
        built.push(build_value(alloc, item, plain)?)?;
    }
    Ok(built)
}

#[cycle(values)]
fn build_members(
    alloc: Global,
    members: &Map<String, Value>,
    plain: bool,
) -> Result<Vec<(Text, Arg)>, OutOfMemory>
    ensures { IfOk result
        (λ v. plain_named v.items ≡ spec.members_of plain (members_view members.now.entries)) }
{
    let mut built = Vec::with_capacity(alloc, members.len())?;
    for (key, member) in members.iter() {
        let name = Text::of(alloc, key.as_str())?;
        built.push((name, build_value(alloc, member, plain)?))?;
    }
    Ok(built)
}

/// A literal, or a number that is none.
fn number_arg(number: &Number) -> Arg
    ensures { plain_arg result ≡ spec.number_argument (number_view number.now) }
{
    match number.as_i64() {
        Some(whole) if whole != i64::MIN => Arg::Whole(whole),
        _ => Arg::Inexact,
    }
}

/// What an object refers to.
#[derive(Drop)]
enum Referred<'a> {
    Node(&'a str),
    Parameter(&'a str),
}

/// The reference that an object is, unless it is read as plain.
fn reference<'a>(members: &'a Map<String, Value>, plain: bool) -> Option<Referred<'a>>
    ensures { option_map spec.referred_value result
        ≡ spec.reference_unless plain (members_view members.now.entries) }
{
    if plain {
        return None;
    }
    let (name, member) = only_member(members)?;
    if name == "from_node" {
        Some(Referred::Node(member.as_str()?))
    } else if name == "from_parameter" {
        Some(Referred::Parameter(member.as_str()?))
    } else {
        None
    }
}

/// The name and the value of the member of an object that has just one.
fn only_member(members: &Map<String, Value>) -> Option<(&str, &Value)>
    ensures { option_map (λ m. (m.0.now, view m.1.now)) result
        ≡ spec.the_member (members_view members.now.entries) }
{
    if members.len() != 1 {
        return None;
    }
    let (name, member) = members.first_key_value()?;
    Some((name.as_str(), member))
}

/// The text that is the member of a name.
pub(crate) fn text_at<'a>(value: &'a Value, name: &str) -> Option<&'a str>
    ensures { option_map (λ s. s.now) result ≡ spec.text_at name.now (view value.now) }
{
    value.get(name)?.as_str()
}

fn copy_text(alloc: Global, text: Option<&str>) -> Result<Option<Text>, OutOfMemory>
    ensures { IfOk result (λ t. t ≡ option_map (λ s. s.now) text.entry) }
{
    match text {
        Some(text) => Ok(Some(Text::of(alloc, text)?)),
        None => Ok(None),
    }
}
