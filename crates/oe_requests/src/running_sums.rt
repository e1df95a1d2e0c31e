// The callback of `apply_dimension`, whose nodes are running sums of the list that it sees.
ghost use Rattle.std.specs.Prelude.{◌≡◌, ◌<◌, ℕ, true, false, Some, IfOk, IfErr, OnOk, codes, is_none, is_some, length, map, option_and_then, slice_get};
ghost use Rattle.oe_dims.specs.Names.{names_rise, same_name};
ghost use Rattle.oe_expr.specs.Requests.{passes};
ghost use Rattle.oe_graph.specs.Indices.{are_known, reference_graph};
ghost use Rattle.oe_graph.specs.Plain.{plain_arg, plain_graph, plain_named, plain_node, plain_nodes};
ghost use Rattle.oe_graph.specs.Printed.{ids_of};
ghost use Rattle.oe_graph.specs.Read.{IsFault};
ghost use Rattle.oe_graph.specs.References.{each_node, references_named};
ghost use Rattle.oe_order.specs.Graph.{graph_of};
ghost use Rattle.oe_requests.specs.RunningSums as spec;

use oe_dims::Text;
use oe_expr::flag_at;
use oe_graph::{
    Arg, Code, Fault, Graph, Node, References, Refusal, argument_named, callback_name,
    fault_at_node, read_references,
};
use oe_memory::OutOfMemory;
use std::alloc::Global;

/// Whether a node of the callback ignores nulls: `cumsum` of the list that it sees, with a flag that is written as
/// such; `None` of every other node.
fn running_sum_at(node: &Node) -> Option<bool>
    ensures { result ≡ spec.running_sum_at (plain_node node.now) }
{
    if !is_cumsum(node.process_id.as_str()) {
        return None;
    }
    if !has_data(&node.arguments) {
        return None;
    }
    flag_at(&node.arguments, "ignore_nodata")
}

/// The process of running sums.
fn is_cumsum(id: &str) -> bool
    ensures { result ≡ same_name id.now (codes "cumsum") }
{
    id == "cumsum"
}

/// The name of the list that the callback sees.
fn is_data_name(name: &str) -> bool
    ensures { result ≡ same_name name.now (codes "data") }
{
    name == "data"
}

/// Whether an argument is a reference to the list that a callback sees.
pub fn is_data(arg: &Arg) -> bool
    ensures { result ≡ spec.is_data (plain_arg arg.now) }
{
    match arg {
        Arg::FromParameter(name) => is_data_name(name.as_str()),
        _ => false,
    }
}

/// Whether the argument `data` is one.
#[tactic(auto, using(crate::proofs::ReadingLemmas::passes_by))]
fn has_data(arguments: &Vec<(Text, Arg)>) -> bool
    ensures { result ≡ passes spec.is_data (codes "data") (plain_named arguments.now.items) }
{
    match argument_named(arguments, "data") {
        Some(arg) => is_data(arg),
        None => false,
    }
}

/// Whether the running sum of a callback, in the argument `process` of the node `id`, ignores nulls.
///
/// Refuses: the least fault of the callback, exactly where one stands: at a node that is no running sum, where those that
/// it refers to are; out of memory.
pub fn running_sum_in(alloc: Global, process: &Graph, id: &str) -> Result<bool, Refusal>
    requires { spec.IsWellFormed (plain_graph process.now) }
    ensures value { IfOk result (λ ignore. ignore ≡ spec.ignores_nulls (plain_graph process.now)) }
    ensures faultless { OnOk result (spec.AreSums (plain_graph process.now)) }
    ensures refused { IfErr result (IsFault (spec.StandsInSums (plain_graph process.now) id.now)) }
{
    match sums_fault(alloc, &process.nodes, id)? {
        Some(fault) => Err(Refusal::Fault(fault)),
        None => Ok(ignores_nulls(process)),
    }
}

/// Whether the result node of a callback ignores nulls.
fn ignores_nulls(process: &Graph) -> bool
    ensures { result ≡ spec.ignores_nulls (plain_graph process.now) }
{
    match process.nodes.get(process.result as usize) {
        Some(node) => running_sum_at(node).unwrap_or(true),
        None => true,
    }
}

/// Whether a node is no running sum.
fn is_other(node: &Node) -> bool
    ensures { result ≡ is_none (spec.running_sum_at (plain_node node.now)) }
{
    running_sum_at(node).is_none()
}

/// Whether the nodes at these indices are running sums.
fn are_sums(nodes: &Vec<Node>, indices: &[u32]) -> bool
    ensures { result ≡ spec.are_sums_at (plain_nodes nodes.now.items) indices.now }
{
    for index in indices {
        if !is_sum_at(nodes, *index) {
            return false;
        }
    }
    true
}

/// Whether there is a node at an index, and it is a running sum.
fn is_sum_at(nodes: &Vec<Node>, index: u32) -> bool
    ensures { result ≡ is_some (option_and_then spec.running_sum_at
        (slice_get (each_node (plain_nodes nodes.now.items)) index)) }
{
    match nodes.get(index as usize) {
        Some(node) => running_sum_at(node).is_some(),
        None => false,
    }
}

/// Whether a fault stands at the node of an index: it is no running sum, and all nodes that it refers to are.
fn fault_stands_at(nodes: &Vec<Node>, references: &References, index: usize) -> bool
    requires within { index < length nodes.now.items }
    requires graph { graph_of references.now.links.items
        ≡ reference_graph (plain_nodes nodes.now.items) }
    requires known { references.now.known.items
        ≡ map (λ n. are_known (plain_nodes nodes.now.items)
        (references_named (plain_node n).arguments)) nodes.now.items }
    ensures { (n : Node) → slice_get nodes.now.items index ≡ Some n
        → result ≡ spec.fault_stands_at (plain_nodes nodes.now.items) (plain_node n) }
{
    if !is_other(&nodes[index]) {
        return false;
    }
    if !references.known[index] {
        return false;
    }
    are_sums(nodes, references.links[index].arguments.as_slice())
}

/// The fault of the first node at which one stands.
fn sums_fault(alloc: Global, nodes: &Vec<Node>, id: &str) -> Result<Option<Fault>, OutOfMemory>
    requires { names_rise (ids_of (plain_nodes nodes.now.items)) ≡ true }
    ensures { (index : ℕ) → IfOk result (spec.IsSumsFault
        (record { nodes = plain_nodes nodes.now.items; result = index }) id.now) }
{
    let references = read_references(alloc, nodes)?;
    for index in 0..nodes.len() {
        if fault_stands_at(nodes, &references, index) {
            let callback = callback_name(alloc, id, "process")?;
            let fault = fault_at_node(
                alloc,
                Code::ProcessParameterInvalid,
                callback.as_str(),
                nodes[index].id.as_str(),
            )?;
            return Ok(Some(fault));
        }
    }
    Ok(None)
}
