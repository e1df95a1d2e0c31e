// The least fault of the form of a graph, found in one pass.
ghost use Rattle.std.specs.Prelude.{◌≡◌, ◌==◌, IfOk, None, string_bytes};
ghost use Rattle.serde_json.specs.View.{view, members_view};
ghost use Rattle.oe_graph.specs.Form as form;
ghost use Rattle.oe_graph.specs.Walked as spec;

use crate::code::Code;
use crate::fault::{Fault, least};
use crate::form::{arguments_in, is_node, is_result, nodes_in};
use oe_dims::{Text, is_name};
use oe_memory::OutOfMemory;
use serde_json::{Map, Value};
use std::alloc::Global;

/// A fault at a node.
pub(crate) fn fault_at(alloc: Global, code: Code, node: &str) -> Result<Fault, OutOfMemory>
    ensures { IfOk result (λ f. f ≡ record { code = code; node = node.now }) }
{
    Ok(Fault {
        code,
        node: Text::of(alloc, node)?,
    })
}

/// The least fault of a graph object of this name, and of the callbacks in it.
#[cycle(faults)]
pub(crate) fn graph_fault(
    alloc: Global,
    name: &str,
    nodes: &Map<String, Value>,
) -> Result<Option<Fault>, OutOfMemory>
    ensures { IfOk result
        (λ f. f ≡ spec.graph_fault name.now (members_view nodes.now.entries)) }
{
    let mut fault = count_fault(alloc, name, nodes)?;
    for (id, node) in nodes.iter() {
        let found = node_fault(alloc, name, id.as_str(), node)?;
        fault = least(fault, found);
    }
    Ok(fault)
}

/// The least fault of a node and its callbacks.
#[cycle(faults)]
fn node_fault(
    alloc: Global,
    name: &str,
    id: &str,
    node: &Value,
) -> Result<Option<Fault>, OutOfMemory>
    ensures { IfOk result (λ f. f ≡ spec.node_fault name.now id.now (view node.now)
        (spec.inside_fault (form.node_name name.now id.now) (view node.now))) }
{
    if !is_name(id) {
        return Ok(Some(fault_at(alloc, Code::NodeInvalid, name)?));
    }
    let own = own_fault(alloc, name, id, node)?;
    match arguments_in(node) {
        Some(arguments) => {
            let inside = callbacks_fault(alloc, name, id, arguments)?;
            Ok(least(own, inside))
        }
        None => Ok(own),
    }
}

/// The least fault of the callbacks among the arguments of a node.
#[cycle(faults)]
fn callbacks_fault(
    alloc: Global,
    name: &str,
    id: &str,
    arguments: &Map<String, Value>,
) -> Result<Option<Fault>, OutOfMemory>
    ensures { IfOk result (λ f. f ≡ spec.callbacks_fault (form.node_name name.now id.now) None
        (members_view arguments.now.entries)) }
{
    let mut fault = None;
    for (argument, value) in arguments.iter() {
        if let Some(nodes) = nodes_in(value) {
            let node = node_name(alloc, name, id)?;
            let inner = callback_name(alloc, node.as_str(), argument.as_str())?;
            let found = graph_fault(alloc, inner.as_str(), nodes)?;
            fault = least(fault, found);
        }
    }
    Ok(fault)
}

/// The fault of a graph object that has not exactly one result node.
fn count_fault(
    alloc: Global,
    name: &str,
    nodes: &Map<String, Value>,
) -> Result<Option<Fault>, OutOfMemory>
    ensures { IfOk result
        (λ f. f ≡ spec.count_fault name.now (members_view nodes.now.entries)) }
{
    if has_one_result(nodes) {
        Ok(None)
    } else {
        Ok(Some(fault_at(alloc, Code::ResultNodeCount, name)?))
    }
}

/// Whether exactly one node is marked as the result.
fn has_one_result(nodes: &Map<String, Value>) -> bool
    ensures { result ≡ (form.result_count (members_view nodes.now.entries) == 1) }
{
    let mut count: usize = 0;
    for (_, node) in nodes.iter() {
        if is_result(node) {
            if count == 1 {
                return false;
            }
            count = 1;
        }
    }
    count == 1
}

/// The fault of a node that is not in form.
fn own_fault(
    alloc: Global,
    name: &str,
    id: &str,
    node: &Value,
) -> Result<Option<Fault>, OutOfMemory>
    ensures { IfOk result (λ f. f
        ≡ spec.own_fault (form.node_name name.now id.now) (view node.now)) }
{
    if is_node(node) {
        return Ok(None);
    }
    Ok(Some(fault_at_node(alloc, Code::NodeInvalid, name, id)?))
}

/// A fault at the node of an id in the graph object of a name: `n` in the main graph, whose name is empty, and
/// `p/a/n` in the callback `a` of the node `p`.
pub fn fault_at_node(alloc: Global, code: Code, name: &str, id: &str) -> Result<Fault, OutOfMemory>
    ensures { IfOk result
        (λ f. f ≡ record { code = code; node = form.node_name name.now id.now }) }
{
    let path = node_name(alloc, name, id)?;
    fault_at(alloc, code, path.as_str())
}

/// The name of a node in the graph object of a name; in the main graph, whose name is empty, its id.
///
/// Refuses: out of memory.
pub fn node_name(alloc: Global, name: &str, id: &str) -> Result<String, OutOfMemory>
    ensures { IfOk result (λ s. string_bytes s ≡ form.node_name name.now id.now) }
{
    let mut path = String::from_str(alloc, name)?;
    if !name.is_empty() {
        path.push('/')?;
    }
    path.push_str(id)?;
    Ok(path)
}

/// The name of the callback in an argument of the node of a name. Refuses: out of memory.
pub fn callback_name(alloc: Global, node: &str, argument: &str) -> Result<String, OutOfMemory>
    ensures { IfOk result (λ s. string_bytes s ≡ form.callback_name node.now argument.now) }
{
    let mut path = String::from_str(alloc, node)?;
    path.push('/')?;
    path.push_str(argument)?;
    Ok(path)
}
