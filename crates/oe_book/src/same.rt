// Whether two trees of the code have the same plain value.
ghost use Rattle.std.specs.Prelude.{◌≡◌, ◌↔◌, IsTrue, map};
ghost use Rattle.std.specs.Option.{option_map};
ghost use Rattle.oe_graph.specs.Plain.{plain_arg, plain_args, plain_graph, plain_named, plain_node, plain_nodes, plain_pair, plain_parameter, plain_stored};
ghost use Rattle.oe_graph.specs.Tree as tree;

use crate::leaves::{
    is_flag, is_from_node, is_from_parameter, is_inexact, is_null, is_string, is_whole,
};
use oe_dims::Text;
use oe_graph::{Arg, Graph, Node, ParameterRow, StoredProcess};

/// Whether two stored processes are the same, with their ids and texts.
pub(crate) fn is_same_process(process: &StoredProcess, other: &StoredProcess) -> bool
    ensures { IsTrue result ↔ plain_stored process.now ≡ plain_stored other.now }
{
    process.id == other.id
        && process.text == other.text
        && are_same_parameters(&process.parameters, &other.parameters)
        && is_same_graph(&process.graph, &other.graph)
}

fn are_same_parameters(parameters: &Vec<ParameterRow>, others: &Vec<ParameterRow>) -> bool
    ensures { IsTrue result
        ↔ map plain_parameter parameters.now.items ≡ map plain_parameter others.now.items }
{
    for (index, parameter) in parameters.iter().enumerate() {
        let Some(other) = others.get(index) else {
            return false;
        };
        if !is_same_parameter(parameter, other) {
            return false;
        }
    }
    parameters.len() == others.len()
}

fn is_same_parameter(parameter: &ParameterRow, other: &ParameterRow) -> bool
    ensures { IsTrue result ↔ plain_parameter parameter.now ≡ plain_parameter other.now }
{
    parameter.name == other.name
        && parameter.optional == other.optional
        && is_same_default(&parameter.default, &other.default)
}

fn is_same_default(default: &Option<Arg>, other: &Option<Arg>) -> bool
    ensures { IsTrue result ↔ option_map plain_arg default.now ≡ option_map plain_arg other.now }
{
    match (default, other) {
        (Some(default), Some(other)) => is_same_arg(default, other),
        (None, None) => true,
        (Some(_), None) | (None, Some(_)) => false,
    }
}

/// Whether two arguments are the same.
#[cycle(same)]
pub(crate) fn is_same_arg(a: &Arg, b: &Arg) -> bool
    ensures { IsTrue result ↔ plain_arg a.now ≡ plain_arg b.now }
{
    match a {
        Arg::Null => is_null(b),
        Arg::Flag(flag) => is_flag(*flag, b),
        Arg::Whole(whole) => is_whole(*whole, b),
        Arg::Inexact => is_inexact(b),
        Arg::Str(text) => is_string(text, b),
        Arg::List(items) => is_list(items, b),
        Arg::Object(members) => is_object(members, b),
        Arg::FromNode(name) => is_from_node(name, b),
        Arg::FromParameter(name) => is_from_parameter(name, b),
        Arg::Callback(graph) => is_callback(graph, b),
    }
}

#[cycle(same)]
fn is_list(items: &Vec<Arg>, b: &Arg) -> bool
    ensures { IsTrue result ↔ tree.list (plain_args items.now.items) ≡ plain_arg b.now }
{
    match b {
        Arg::List(others) => are_same_args(items, others),
        _ => false,
    }
}

#[cycle(same)]
fn is_object(members: &Vec<(Text, Arg)>, b: &Arg) -> bool
    ensures { IsTrue result ↔ tree.object (plain_named members.now.items) ≡ plain_arg b.now }
{
    match b {
        Arg::Object(others) => are_same_named(members, others),
        _ => false,
    }
}

#[cycle(same)]
fn is_callback(graph: &Graph, b: &Arg) -> bool
    ensures { IsTrue result ↔ tree.callback (plain_graph graph.now).nodes
        (plain_graph graph.now).result ≡ plain_arg b.now }
{
    match b {
        Arg::Callback(other) => is_same_graph(graph, other),
        _ => false,
    }
}

#[cycle(same)]
fn are_same_args(items: &Vec<Arg>, others: &Vec<Arg>) -> bool
    ensures { IsTrue result
        ↔ map plain_arg items.now.items ≡ map plain_arg others.now.items }
{
    for (index, item) in items.iter().enumerate() {
        let Some(other) = others.get(index) else {
            return false;
        };
        if !is_same_arg(item, other) {
            return false;
        }
    }
    items.len() == others.len()
}

#[cycle(same)]
fn are_same_named(members: &Vec<(Text, Arg)>, others: &Vec<(Text, Arg)>) -> bool
    ensures { IsTrue result
        ↔ map plain_pair members.now.items ≡ map plain_pair others.now.items }
{
    for (index, member) in members.iter().enumerate() {
        let Some(other) = others.get(index) else {
            return false;
        };
        if !is_same_member(&member.1, &member.0, other) {
            return false;
        }
    }
    members.len() == others.len()
}

#[cycle(same)]
fn is_same_member(arg: &Arg, name: &Text, other: &(Text, Arg)) -> bool
    ensures { IsTrue result ↔ (name.now, plain_arg arg.now) ≡ plain_pair other.now }
{
    *name == other.0 && is_same_arg(arg, &other.1)
}

/// Whether two graphs are the same.
#[cycle(same)]
pub(crate) fn is_same_graph(graph: &Graph, other: &Graph) -> bool
    ensures { IsTrue result ↔ plain_graph graph.now ≡ plain_graph other.now }
{
    graph.result == other.result && are_same_nodes(&graph.nodes, &other.nodes)
}

#[cycle(same)]
fn are_same_nodes(nodes: &Vec<Node>, others: &Vec<Node>) -> bool
    ensures { IsTrue result
        ↔ map plain_node nodes.now.items ≡ map plain_node others.now.items }
{
    for (index, node) in nodes.iter().enumerate() {
        let Some(other) = others.get(index) else {
            return false;
        };
        if !is_same_node(node, other) {
            return false;
        }
    }
    nodes.len() == others.len()
}

#[cycle(same)]
fn is_same_node(node: &Node, other: &Node) -> bool
    ensures { IsTrue result ↔ plain_node node.now ≡ plain_node other.now }
{
    if !is_same_head(node, other) {
        return false;
    }
    are_same_named(&node.arguments, &other.arguments)
}

/// Whether two nodes are the same but for their arguments.
fn is_same_head(node: &Node, other: &Node) -> bool
    ensures { IsTrue result ↔ (node.now.id ≡ other.now.id)
        × (node.now.process_id ≡ other.now.process_id)
        × (node.now.namespace ≡ other.now.namespace) }
{
    node.id == other.id && node.process_id == other.process_id && node.namespace == other.namespace
}
