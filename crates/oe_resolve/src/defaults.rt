// Defaults of arguments that are not given.
ghost use Rattle.std.specs.Prelude.{◌≡◌, ◌≤◌, IfOk, OnOk, length, map};
ghost use Rattle.oe_graph.specs.Plain.{plain_arg, plain_args, plain_named, plain_nodes, plain_node, plain_graph, plain_parameter};
ghost use Rattle.oe_graph.specs.Printed.{names_of};
ghost use Rattle.oe_graph.specs.References as named;
ghost use Rattle.oe_resolve.specs.Defaults as spec;
ghost use Rattle.oe_calls.specs.Substituted.{default_of};
ghost use Rattle.oe_calls.specs.Rounds.{index_among};

use oe_calls::default_of;
use oe_dims::{Text, copy_text};
use oe_graph::{Arg, Graph, Node, ParameterRow, argument_named, copy_arg, is_name_before, process};
use oe_memory::OutOfMemory;
use std::alloc::Global;

/// A copy of a graph with all defaults, at any depth of callbacks.
#[cycle(defaults)]
pub fn graph_with_defaults(alloc: Global, graph: &Graph) -> Result<Graph, OutOfMemory>
    ensures { IfOk result (λ g. plain_graph g ≡ spec.graph_with_defaults (plain_graph graph.now)) }
{
    let nodes = nodes_with_defaults(alloc, &graph.nodes)?;
    Ok(Graph {
        nodes,
        result: graph.result,
    })
}

#[cycle(defaults)]
fn nodes_with_defaults(alloc: Global, nodes: &Vec<Node>) -> Result<Vec<Node>, OutOfMemory>
    ensures { IfOk result
        (λ v. plain_nodes v.items ≡ spec.nodes_with_defaults (plain_nodes nodes.now.items)) }
{
    let mut copy = Vec::with_capacity(alloc, nodes.len())?;
    for node in nodes {
        copy.push(node_with_defaults(alloc, node)?)?;
    }
    Ok(copy)
}

#[cycle(defaults)]
fn node_with_defaults(alloc: Global, node: &Node) -> Result<Node, OutOfMemory>
    ensures { IfOk result (λ n. plain_node n ≡ spec.node_with_defaults (plain_node node.now)) }
{
    let mut arguments = named_with_defaults(alloc, &node.arguments)?;
    put_defaults_of(alloc, node.process_id.as_str(), &mut arguments)?;
    Ok(Node {
        id: node.id.copy()?,
        process_id: node.process_id.copy()?,
        namespace: copy_text(&node.namespace)?,
        arguments,
    })
}

#[cycle(defaults)]
fn named_with_defaults(
    alloc: Global,
    members: &Vec<(Text, Arg)>,
) -> Result<Vec<(Text, Arg)>, OutOfMemory>
    ensures { IfOk result
        (λ v. plain_named v.items ≡ spec.named_with_defaults (plain_named members.now.items)) }
{
    let mut copy = Vec::with_capacity(alloc, members.len())?;
    for member in members {
        let name = member.0.copy()?;
        copy.push((name, arg_with_defaults(alloc, &member.1)?))?;
    }
    Ok(copy)
}

#[cycle(defaults)]
fn args_with_defaults(alloc: Global, items: &Vec<Arg>) -> Result<Vec<Arg>, OutOfMemory>
    ensures { IfOk result
        (λ v. plain_args v.items ≡ spec.each_with_defaults (plain_args items.now.items)) }
{
    let mut copy = Vec::with_capacity(alloc, items.len())?;
    for item in items {
        copy.push(arg_with_defaults(alloc, item)?)?;
    }
    Ok(copy)
}

#[cycle(defaults)]
fn arg_with_defaults(alloc: Global, arg: &Arg) -> Result<Arg, OutOfMemory>
    ensures { IfOk result (λ a. plain_arg a ≡ spec.with_defaults (plain_arg arg.now)) }
{
    match arg {
        Arg::List(items) => Ok(Arg::List(args_with_defaults(alloc, items)?)),
        Arg::Object(members) => Ok(Arg::Object(named_with_defaults(alloc, members)?)),
        Arg::Callback(graph) => Ok(Arg::Callback(graph_with_defaults(alloc, graph)?)),
        _ => copy_arg(alloc, arg),
    }
}

/// Puts the defaults of a process of the catalogue where no argument is given.
fn put_defaults_of(
    alloc: Global,
    process_id: &str,
    arguments: &mut Vec<(Text, Arg)>,
) -> Result<(), OutOfMemory>
    ensures { OnOk result (plain_named arguments.new.items
        ≡ spec.put_defaults (spec.parameters_named process_id.now)
        (plain_named arguments.old.items)) }
{
    match process(alloc, process_id)? {
        Some(row) => put_defaults(alloc, &row.parameters, arguments),
        None => Ok(()),
    }
}

fn put_defaults(
    alloc: Global,
    parameters: &Vec<ParameterRow>,
    arguments: &mut Vec<(Text, Arg)>,
) -> Result<(), OutOfMemory>
    ensures { OnOk result (plain_named arguments.new.items
        ≡ spec.put_defaults (map plain_parameter parameters.now.items)
        (plain_named arguments.old.items)) }
{
    for parameter in parameters {
        put_default(alloc, parameter, arguments)?;
    }
    Ok(())
}

/// Puts the default of a parameter, where it has one and no argument is given.
fn put_default(
    alloc: Global,
    parameter: &ParameterRow,
    arguments: &mut Vec<(Text, Arg)>,
) -> Result<(), OutOfMemory>
    ensures { OnOk result (plain_named arguments.new.items ≡ spec.put_default parameter.now.name
        (named.argument_named parameter.now.name (plain_named arguments.old.items))
        (default_of (plain_parameter parameter.now)) (plain_named arguments.old.items)) }
{
    if argument_named(arguments, parameter.name.as_str()).is_some() {
        return Ok(());
    }
    match default_of(alloc, parameter)? {
        Some(default) => put_argument(arguments, parameter.name.copy()?, default),
        None => Ok(()),
    }
}

/// Puts an argument at the index that its name has in byte order.
fn put_argument(arguments: &mut Vec<(Text, Arg)>, name: Text, arg: Arg) -> Result<(), OutOfMemory>
    ensures { OnOk result (plain_named arguments.new.items
        ≡ spec.put_argument name (plain_arg arg) (plain_named arguments.old.items)) }
{
    let index = index_among(arguments, name.as_str());
    arguments.insert(index, (name, arg))?;
    Ok(())
}

/// The index that a name has in byte order among the names of arguments.
fn index_among(arguments: &Vec<(Text, Arg)>, name: &str) -> usize
    ensures within { result ≤ length arguments.now.items }
    ensures is { result ≡ index_among name.now (names_of (plain_named arguments.now.items)) }
{
    for index in 0..arguments.len() {
        if !is_name_before(arguments[index].0.as_str(), name) {
            return index;
        }
    }
    arguments.len()
}
