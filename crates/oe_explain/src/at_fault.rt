// Which argument of a graph a fault is of.
ghost use Rattle.std.specs.Prelude.{◌≡◌, IfOk, codes, find, is_none, map, option_and_then, option_map};
ghost use Rattle.oe_graph.specs.Catalogue.{parameter_of};
ghost use Rattle.oe_graph.specs.Plain.{plain_graph, plain_named, plain_node, plain_nodes};
ghost use Rattle.oe_graph.specs.Printed.{names_of};
ghost use Rattle.oe_graph.specs.References.{argument_named};
ghost use Rattle.oe_expr.specs.Nodes.{node_named};
ghost use Rattle.oe_requests.specs.Parameters.{callback_in};
ghost use Rattle.oe_explain.specs.AtFault as spec;

use crate::held::may_hold;
use oe_dims::Text;
use oe_graph::{
    Arg, ArgumentKind, Code, Fault, Graph, Node, ParameterEntry, argument_named, process_entry,
};
use oe_memory::OutOfMemory;
use std::alloc::Global;

/// An argument by its name, and what it must hold where that is known.
pub(crate) type AtFault<'a> = (&'a str, Option<ArgumentKind>);

/// The argument that a fault of a graph is of, if it is of one. Refuses: out of memory.
pub(crate) fn at_fault<'a>(
    alloc: Global,
    graph: &'a Graph,
    fault: &Fault,
) -> Result<Option<AtFault<'a>>, OutOfMemory>
    ensures { IfOk result (λ r. option_map spec.plain_at_fault r
        ≡ spec.at_fault (plain_graph graph.now) fault.now) }
{
    let Some(node) = node_of(graph, fault.node.as_str()) else {
        return Ok(None);
    };
    match process_entry(node.process_id.as_str()) {
        Some(entry) => argument_at(alloc, fault.code, entry.2, &node.arguments),
        None => Ok(None),
    }
}

// ---- the node

/// What stands before the first slash of a name, and what stands behind it where it has one.
fn at_slash(name: &str) -> (&str, Option<&str>)
    ensures { (result.0.now, option_map (λ s. s.now) result.1) ≡ spec.at_slash name.now }
{
    match name.split_once('/') {
        Some((front, back)) => (front, Some(back)),
        None => (name, None),
    }
}

/// The node of a fault: `n` in the main graph, or `p/a/n` in a callback of it.
fn node_of<'a>(graph: &'a Graph, name: &str) -> Option<&'a Node>
    ensures { option_map (λ n. plain_node n.now) result
        ≡ spec.node_of (plain_graph graph.now) name.now }
{
    let (id, rest) = at_slash(name);
    let node = node_named(&graph.nodes, id)?;
    match rest {
        Some(rest) => node_in_callback(node, rest),
        None => Some(node),
    }
}

/// The node of a callback, by the name of the argument that it is, a slash and the node's id.
fn node_in_callback<'a>(node: &'a Node, name: &str) -> Option<&'a Node>
    ensures { option_map (λ n. plain_node n.now) result
        ≡ spec.node_in_callback (plain_node node.now) (spec.at_slash name.now) }
{
    let (argument, id) = at_slash(name);
    let id = id?;
    let callback = callback_at(&node.arguments, argument)?;
    node_named(&callback.nodes, id)
}

/// The node of an id.
fn node_named<'a>(nodes: &'a Vec<Node>, id: &str) -> Option<&'a Node>
    ensures { option_map (λ n. plain_node n.now) result
        ≡ node_named id.now (plain_nodes nodes.now.items) }
{
    for node in nodes {
        if node.id.as_str() == id {
            return Some(node);
        }
    }
    None
}

/// The argument of a name, where it is a callback.
fn callback_at<'a>(arguments: &'a Vec<(Text, Arg)>, name: &str) -> Option<&'a Graph>
    ensures { option_map (λ g. plain_graph g.now) result
        ≡ option_and_then callback_in (argument_named name.now (plain_named arguments.now.items)) }
{
    match argument_named(arguments, name)? {
        Arg::Callback(graph) => Some(graph),
        _ => None,
    }
}

// ---- the argument

/// The argument at which a code stands, of a node whose process has these parameters.
fn argument_at<'a>(
    alloc: Global,
    code: Code,
    parameters: &'static [ParameterEntry],
    arguments: &'a Vec<(Text, Arg)>,
) -> Result<Option<AtFault<'a>>, OutOfMemory>
    ensures { IfOk result (λ r. option_map spec.plain_at_fault r
        ≡ spec.argument_at code (map parameter_of parameters.now)
        (plain_named arguments.now.items)) }
{
    match code {
        Code::ArgumentUnknown => Ok(of_no_parameter(first_unknown(parameters, arguments))),
        Code::ProcessParameterMissing => Ok(of_parameter(first_missing(parameters, arguments))),
        Code::ProcessParameterInvalid => {
            Ok(of_parameter(refused_or_labels(alloc, parameters, arguments)?))
        }
        _ => Ok(None),
    }
}

/// An argument that is none of the parameters.
fn of_no_parameter(name: Option<&str>) -> Option<AtFault<'_>>
    ensures { option_map spec.plain_at_fault result
        ≡ option_map spec.of_no_parameter (option_map (λ s. s.now) name.entry) }
{
    match name {
        Some(name) => Some((name, None)),
        None => None,
    }
}

/// The argument of a parameter.
fn of_parameter(found: Option<&'static ParameterEntry>) -> Option<AtFault<'static>>
    ensures { option_map spec.plain_at_fault result
        ≡ option_map spec.of_parameter (option_map (λ e. parameter_of e.now) found.entry) }
{
    match found {
        Some(entry) => Some((entry.0, Some(entry.1))),
        None => None,
    }
}

/// The parameter of a name.
fn parameter_named(
    parameters: &'static [ParameterEntry],
    name: &str,
) -> Option<&'static ParameterEntry>
    ensures { option_map (λ e. parameter_of e.now) result
        ≡ spec.parameter_named name.now (map parameter_of parameters.now) }
{
    for entry in parameters {
        if entry.0 == name {
            return Some(entry);
        }
    }
    None
}

/// The name of the first argument that is no parameter.
fn first_unknown<'a>(
    parameters: &'static [ParameterEntry],
    arguments: &'a Vec<(Text, Arg)>,
) -> Option<&'a str>
    ensures { option_map (λ s. s.now) result
        ≡ find (λ name. is_none (spec.parameter_named name (map parameter_of parameters.now)))
        (names_of (plain_named arguments.now.items)) }
{
    for entry in arguments {
        if parameter_named(parameters, entry.0.as_str()).is_none() {
            return Some(entry.0.as_str());
        }
    }
    None
}

/// The first parameter that has no default and no argument.
fn first_missing(
    parameters: &'static [ParameterEntry],
    arguments: &Vec<(Text, Arg)>,
) -> Option<&'static ParameterEntry>
    ensures { option_map (λ e. parameter_of e.now) result
        ≡ find (spec.is_missing (plain_named arguments.now.items))
        (map parameter_of parameters.now) }
{
    for entry in parameters {
        if is_missing(entry, arguments) {
            return Some(entry);
        }
    }
    None
}

/// The parameter has no default and no argument.
fn is_missing(entry: &ParameterEntry, arguments: &Vec<(Text, Arg)>) -> bool
    ensures { result
        ≡ spec.is_missing (plain_named arguments.now.items) (parameter_of entry.now) }
{
    entry.2.is_none() && argument_named(arguments, entry.0).is_none()
}

/// The first parameter whose argument is not what its row says; without one the labels of intervals.
fn refused_or_labels(
    alloc: Global,
    parameters: &'static [ParameterEntry],
    arguments: &Vec<(Text, Arg)>,
) -> Result<Option<&'static ParameterEntry>, OutOfMemory>
    ensures { IfOk result (λ r. option_map (λ e. parameter_of e.now) r ≡ spec.or_labels
        (map parameter_of parameters.now) (find (spec.is_refused (plain_named arguments.now.items))
        (map parameter_of parameters.now))) }
{
    match first_refused(alloc, parameters, arguments)? {
        Some(entry) => Ok(Some(entry)),
        None => Ok(parameter_named(parameters, "labels")),
    }
}

/// The first parameter whose argument is not what its row says.
fn first_refused(
    alloc: Global,
    parameters: &'static [ParameterEntry],
    arguments: &Vec<(Text, Arg)>,
) -> Result<Option<&'static ParameterEntry>, OutOfMemory>
    ensures { IfOk result (λ r. option_map (λ e. parameter_of e.now) r
        ≡ find (spec.is_refused (plain_named arguments.now.items))
        (map parameter_of parameters.now)) }
{
    for entry in parameters {
        if is_refused(alloc, entry, arguments)? {
            return Ok(Some(entry));
        }
    }
    Ok(None)
}

/// The argument of the parameter is not what its row says.
fn is_refused(
    alloc: Global,
    entry: &ParameterEntry,
    arguments: &Vec<(Text, Arg)>,
) -> Result<bool, OutOfMemory>
    ensures { IfOk result (λ b. b
        ≡ spec.is_refused (plain_named arguments.now.items) (parameter_of entry.now)) }
{
    match argument_named(arguments, entry.0) {
        Some(arg) => {
            let held = may_hold(alloc, entry.1, arg)?;
            Ok(!held)
        }
        None => Ok(false),
    }
}
