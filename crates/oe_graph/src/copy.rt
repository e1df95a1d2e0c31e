// Copies of trees.
ghost use Rattle.std.specs.Prelude.{◌≡◌, IfOk, map};
ghost use Rattle.oe_graph.specs.Plain.{plain_arg, plain_args, plain_named, plain_nodes, plain_graph, plain_node, plain_parameter, plain_stored};

use crate::catalogue::ParameterRow;
use crate::stored::StoredProcess;
use crate::tree::{Arg, Graph, Node};
use oe_dims::Text;
use oe_memory::OutOfMemory;
use std::alloc::Global;

impl Graph {
    /// A copy with equal contents.
    pub fn copy(&self) -> Result<Graph, OutOfMemory>
        ensures { IfOk result (λ graph. plain_graph graph ≡ plain_graph self.now) }
    {
        copy_graph(*self.nodes.allocator(), self)
    }
}

impl StoredProcess {
    /// A copy with equal contents.
    pub fn copy(&self) -> Result<StoredProcess, OutOfMemory>
        ensures { IfOk result (λ process. plain_stored process ≡ plain_stored self.now) }
    {
        let alloc = *self.parameters.allocator();
        Ok(StoredProcess {
            id: self.id.copy()?,
            parameters: copy_parameters(alloc, &self.parameters)?,
            graph: self.graph.copy()?,
            text: self.text.copy()?,
        })
    }
}

fn copy_parameters(
    alloc: Global,
    parameters: &Vec<ParameterRow>,
) -> Result<Vec<ParameterRow>, OutOfMemory>
    ensures { IfOk result
        (λ v. map plain_parameter v.items ≡ map plain_parameter parameters.now.items) }
{
    let mut copy = Vec::with_capacity(alloc, parameters.len())?;
    for parameter in parameters {
        copy.push(copy_parameter(alloc, parameter)?)?;
    }
    Ok(copy)
}

fn copy_parameter(alloc: Global, parameter: &ParameterRow) -> Result<ParameterRow, OutOfMemory>
    ensures { IfOk result (λ row. plain_parameter row ≡ plain_parameter parameter.now) }
{
    Ok(ParameterRow {
        name: parameter.name.copy()?,
        optional: parameter.optional,
        default: match &parameter.default {
            Some(default) => Some(copy_arg(alloc, default)?),
            None => None,
        },
    })
}

/// A copy of an argument.
#[cycle(copies)]
pub fn copy_arg(alloc: Global, arg: &Arg) -> Result<Arg, OutOfMemory>
    ensures { IfOk result (λ a. plain_arg a ≡ plain_arg arg.now) }
{
    match arg {
        Arg::Null => Ok(Arg::Null),
        Arg::Flag(flag) => Ok(Arg::Flag(*flag)),
        Arg::Whole(whole) => Ok(Arg::Whole(*whole)),
        Arg::Inexact => Ok(Arg::Inexact),
        Arg::Str(text) => Ok(Arg::Str(text.copy()?)),
        Arg::List(items) => Ok(Arg::List(copy_args(alloc, items)?)),
        Arg::Object(members) => Ok(Arg::Object(copy_named(alloc, members)?)),
        Arg::FromNode(name) => Ok(Arg::FromNode(name.copy()?)),
        Arg::FromParameter(name) => Ok(Arg::FromParameter(name.copy()?)),
        Arg::Callback(graph) => Ok(Arg::Callback(copy_graph(alloc, graph)?)),
    }
}

#[cycle(copies)]
fn copy_args(alloc: Global, items: &Vec<Arg>) -> Result<Vec<Arg>, OutOfMemory>
    ensures { IfOk result (λ v. plain_args v.items ≡ plain_args items.now.items) }
{
    let mut copy = Vec::with_capacity(alloc, items.len())?;
    for item in items {
        copy.push(copy_arg(alloc, item)?)?;
    }
    Ok(copy)
}

#[cycle(copies)]
fn copy_named(alloc: Global, members: &Vec<(Text, Arg)>) -> Result<Vec<(Text, Arg)>, OutOfMemory>
    ensures { IfOk result (λ v. plain_named v.items ≡ plain_named members.now.items) }
{
    let mut copy = Vec::with_capacity(alloc, members.len())?;
    for member in members {
        let name = member.0.copy()?;
        copy.push((name, copy_arg(alloc, &member.1)?))?;
    }
    Ok(copy)
}

#[cycle(copies)]
fn copy_graph(alloc: Global, graph: &Graph) -> Result<Graph, OutOfMemory>
    ensures { IfOk result (λ g. plain_graph g ≡ plain_graph graph.now) }
{
    let nodes = copy_nodes(alloc, &graph.nodes)?;
    Ok(Graph {
        nodes,
        result: graph.result,
    })
}

#[cycle(copies)]
fn copy_nodes(alloc: Global, nodes: &Vec<Node>) -> Result<Vec<Node>, OutOfMemory>
    ensures { IfOk result (λ v. plain_nodes v.items ≡ plain_nodes nodes.now.items) }
{
    let mut copy = Vec::with_capacity(alloc, nodes.len())?;
    for node in nodes {
        copy.push(copy_node(alloc, node)?)?;
    }
    Ok(copy)
}

#[cycle(copies)]
fn copy_node(alloc: Global, node: &Node) -> Result<Node, OutOfMemory>
    ensures { IfOk result (λ n. plain_node n ≡ plain_node node.now) }
{
    Ok(Node {
        id: node.id.copy()?,
        process_id: node.process_id.copy()?,
        namespace: match &node.namespace {
            Some(namespace) => Some(namespace.copy()?),
            None => None,
        },
        arguments: copy_named(alloc, &node.arguments)?,
    })
}
