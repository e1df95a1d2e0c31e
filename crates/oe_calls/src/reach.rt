// What the calls of nodes reach: faults of the processes that a graph calls.
ghost use Rattle.std.specs.Prelude.{◌≡◌, ◌↔◌, ◌<◌, ◌^◌, ◌∷◌, ℕ, true, false, [], IfOk, OnOk, IsTrue, Contains, length, map, slice_index_or};
ghost use Rattle.std.specs.List.{list_all};
ghost use Rattle.oe_dims.specs.Names.{names_rise};
ghost use Rattle.oe_graph.specs.Printed.{ids_of};
ghost use Rattle.oe_graph.specs.Plain.{plain_arg, plain_args, plain_graph, plain_named, plain_node, plain_nodes, plain_stored};
ghost use Rattle.oe_order.specs.Graph.{graph_of, RefersWithin};
ghost use Rattle.oe_order.specs.Order.{contains};
ghost use Rattle.oe_calls.specs.HasCall as spec;
ghost use Rattle.oe_graph.specs.Faults.{IsLeastFault};
ghost use Rattle.oe_calls.specs.Reached as reached;
ghost use Rattle.oe_graph.specs.Valid.{AreValidStored};

use crate::calls::{callee_index, is_call, may_stand};
use oe_dims::Text;
use oe_graph::{Arg, Code, Fault, Graph, Node, StoredProcess};
use oe_memory::OutOfMemory;
use oe_order::{Links, leads_back, mark_new};
use std::alloc::Global;

/// The stored processes of a graph where they stand in the main graph and where they stand in a callback: the index of
/// each is twice that of the process, and one more in a callback.
pub struct CallGraph {
    pub links: Vec<Links>,
    /// Whether all nodes that stand in the process itself may stand there.
    pub supported: Vec<bool>,
}

/// Written out, so that such a value that ends is one call wherever it does.
impl Drop for CallGraph {
    fn drop(self) {
        let CallGraph {
            links: _,
            supported: _,
        } = self;
    }
}

/// Which stored processes each stored process calls, where it stands in the main graph and where in a callback.
///
/// Refuses: out of memory.
pub fn read_calls(alloc: Global, stored: &[StoredProcess]) -> Result<CallGraph, OutOfMemory>
    ensures { IfOk result (λ c. reached.IsCallGraph (map plain_stored stored.now)
        (graph_of c.links.items) c.supported.items) }
{
    let mut links = Vec::new(alloc);
    let mut supported = Vec::new(alloc);
    for process in stored {
        links.push(links_of(alloc, stored, process, false)?)?;
        links.push(links_of(alloc, stored, process, true)?)?;
        supported.push(is_graph_supported(stored, &process.graph, false))?;
        supported.push(is_graph_supported(stored, &process.graph, true))?;
    }
    Ok(CallGraph { links, supported })
}

fn links_of(
    alloc: Global,
    stored: &[StoredProcess],
    process: &StoredProcess,
    in_callback: bool,
) -> Result<Links, OutOfMemory>
    ensures { IfOk result (λ links. reached.IsCalledBehind (map plain_stored stored.now)
        (reached.held_nodes in_callback (plain_stored process.now).graph.nodes) []
        links.arguments.items) }
{
    let mut arguments = Vec::new(alloc);
    add_nodes(stored, &process.graph.nodes, in_callback, &mut arguments)?;
    Ok(Links {
        load: false,
        arguments,
    })
}

#[cycle(calls)]
fn add_nodes(
    stored: &[StoredProcess],
    nodes: &Vec<Node>,
    in_callback: bool,
    found: &mut Vec<u32>,
) -> Result<(), OutOfMemory>
    ensures { OnOk result (reached.IsCalledBehind (map plain_stored stored.now)
        (reached.held_nodes in_callback (plain_nodes nodes.now.items))
        found.old.items found.new.items) }
{
    for node in nodes {
        add_node(stored, node, in_callback, found)?;
    }
    Ok(())
}

/// Adds the calls of a node and of its callbacks; without stored processes there are none.
#[cycle(calls)]
pub fn add_node(
    stored: &[StoredProcess],
    node: &Node,
    in_callback: bool,
    found: &mut Vec<u32>,
) -> Result<(), OutOfMemory>
    ensures { OnOk result (reached.IsCalledBehind (map plain_stored stored.now)
        (reached.held_by in_callback (plain_node node.now))
        found.old.items found.new.items) }
{
    if stored.is_empty() {
        return Ok(());
    }
    add_call(stored, node, in_callback, found)?;
    add_named(stored, &node.arguments, found)
}

/// Adds the call of a node itself.
fn add_call(
    stored: &[StoredProcess],
    node: &Node,
    in_callback: bool,
    found: &mut Vec<u32>,
) -> Result<(), OutOfMemory>
    ensures { OnOk result (reached.IsCalledBehind (map plain_stored stored.now)
        ((in_callback, plain_node node.now) ∷ []) found.old.items found.new.items) }
{
    if let Some(index) = callee_index(stored, node) {
        // More stored processes than an index tells apart do not fit the memory.
        if index >= 2147483648 {
            return Err(OutOfMemory);
        }
        found.push(index_at(index as u32, in_callback))?;
    }
    Ok(())
}

fn index_at(place: u32, in_callback: bool) -> u32
    requires { place < 2 ^ 31 }
    ensures { result ≡ reached.index_at place in_callback }
{
    if in_callback {
        2 * place + 1
    } else {
        2 * place
    }
}

#[cycle(calls)]
fn add_named(
    stored: &[StoredProcess],
    members: &Vec<(Text, Arg)>,
    found: &mut Vec<u32>,
) -> Result<(), OutOfMemory>
    ensures { OnOk result (reached.IsCalledBehind (map plain_stored stored.now)
        (reached.held_named (plain_named members.now.items)) found.old.items found.new.items) }
{
    for member in members {
        add_arg(stored, &member.1, found)?;
    }
    Ok(())
}

#[cycle(calls)]
fn add_args(
    stored: &[StoredProcess],
    items: &Vec<Arg>,
    found: &mut Vec<u32>,
) -> Result<(), OutOfMemory>
    ensures { OnOk result (reached.IsCalledBehind (map plain_stored stored.now)
        (reached.held_each (plain_args items.now.items)) found.old.items found.new.items) }
{
    for item in items {
        add_arg(stored, item, found)?;
    }
    Ok(())
}

#[cycle(calls)]
fn add_arg(stored: &[StoredProcess], arg: &Arg, found: &mut Vec<u32>) -> Result<(), OutOfMemory>
    ensures { OnOk result (reached.IsCalledBehind (map plain_stored stored.now)
        (reached.held_in (plain_arg arg.now)) found.old.items found.new.items) }
{
    match arg {
        Arg::List(items) => add_args(stored, items, found),
        Arg::Object(members) => add_named(stored, members, found),
        Arg::Callback(graph) => add_nodes(stored, &graph.nodes, true, found),
        _ => Ok(()),
    }
}

/// Whether all nodes of a graph and of its callbacks may stand where they do.
fn is_graph_supported(stored: &[StoredProcess], graph: &Graph, in_callback: bool) -> bool
    ensures { result ≡ reached.support_nodes (map plain_stored stored.now) in_callback
        (plain_graph graph.now).nodes }
{
    are_supported(stored, &graph.nodes, in_callback)
}

#[cycle(supports)]
fn are_supported(stored: &[StoredProcess], nodes: &Vec<Node>, in_callback: bool) -> bool
    ensures { result ≡ reached.support_nodes (map plain_stored stored.now) in_callback
        (plain_nodes nodes.now.items) }
{
    for node in nodes {
        if !is_supported(stored, node, in_callback) {
            return false;
        }
    }
    true
}

/// Whether a node and the nodes of its callbacks may stand where they do.
#[cycle(supports)]
fn is_supported(stored: &[StoredProcess], node: &Node, in_callback: bool) -> bool
    ensures { result ≡ reached.supports_node (map plain_stored stored.now) in_callback
        (plain_node node.now) }
{
    may_stand(stored, in_callback, node) && are_supported_named(stored, &node.arguments)
}

#[cycle(supports)]
fn are_supported_named(stored: &[StoredProcess], members: &Vec<(Text, Arg)>) -> bool
    ensures { result
        ≡ reached.support_named (map plain_stored stored.now) (plain_named members.now.items) }
{
    for member in members {
        if !is_supported_arg(stored, &member.1) {
            return false;
        }
    }
    true
}

#[cycle(supports)]
fn are_supported_args(stored: &[StoredProcess], items: &Vec<Arg>) -> bool
    ensures { result
        ≡ reached.support_each (map plain_stored stored.now) (plain_args items.now.items) }
{
    for item in items {
        if !is_supported_arg(stored, item) {
            return false;
        }
    }
    true
}

#[cycle(supports)]
fn is_supported_arg(stored: &[StoredProcess], arg: &Arg) -> bool
    ensures { result ≡ reached.supports (map plain_stored stored.now) (plain_arg arg.now) }
{
    match arg {
        Arg::List(items) => are_supported_args(stored, items),
        Arg::Object(members) => are_supported_named(stored, members),
        Arg::Callback(graph) => are_supported(stored, &graph.nodes, true),
        _ => true,
    }
}

/// The stored processes that the calls of a node of the main graph reach.
pub fn reach(
    alloc: Global,
    stored: &[StoredProcess],
    calls: &CallGraph,
    node: &Node,
) -> Result<Vec<u32>, OutOfMemory>
    requires stored_valid { AreValidStored (map plain_stored stored.now) }
    requires calls { reached.IsCallGraph (map plain_stored stored.now)
        (graph_of calls.now.links.items) calls.now.supported.items }
    ensures { IfOk result (λ found.
        reached.AreReached (map plain_stored stored.now) (plain_node node.now) found.items) }
{
    let mut first = Vec::new(alloc);
    add_node(stored, node, false, &mut first)?;
    let mut marks = vec![in alloc; false; calls.links.len()]?;
    let mut found = Vec::new(alloc);
    mark_new(first.as_slice(), &mut marks, &mut found)?;
    let mut done = 0;
    while done < found.len() {
        let next = &calls.links[found[done] as usize];
        mark_new(next.arguments.as_slice(), &mut marks, &mut found)?;
        done += 1;
    }
    Ok(found)
}

/// The least fault of the processes that a graph calls, with the calls of these stored processes; none where none stands.
///
/// Refuses: out of memory.
pub fn call_fault(
    alloc: Global,
    stored: &[StoredProcess],
    calls: &CallGraph,
    graph: &Graph,
) -> Result<Option<Fault>, OutOfMemory>
    requires stored_valid { AreValidStored (map plain_stored stored.now) }
    requires rise { names_rise (ids_of (plain_graph graph.now).nodes) ≡ true }
    requires calls { reached.IsCallGraph (map plain_stored stored.now)
        (graph_of calls.now.links.items) calls.now.supported.items }
    ensures { IfOk result (IsLeastFault
        (reached.IsCallFault (map plain_stored stored.now) (plain_graph graph.now))) }
{
    for node in &graph.nodes {
        if let Some(code) = node_code(alloc, stored, calls, node)? {
            return Ok(Some(Fault {
                code,
                node: node.id.copy()?,
            }));
        }
    }
    Ok(None)
}

fn node_code(
    alloc: Global,
    stored: &[StoredProcess],
    calls: &CallGraph,
    node: &Node,
) -> Result<Option<Code>, OutOfMemory>
    requires stored_valid { AreValidStored (map plain_stored stored.now) }
    requires calls { reached.IsCallGraph (map plain_stored stored.now)
        (graph_of calls.now.links.items) calls.now.supported.items }
    ensures { IfOk result
        (reached.IsCodeOf (map plain_stored stored.now) (plain_node node.now)) }
{
    let found = reach(alloc, stored, calls, node)?;
    if !is_supported(stored, node, false) || !are_marked(found.as_slice(), &calls.supported) {
        return Ok(Some(Code::ProcessUnsupported));
    }
    if recur(alloc, calls, found.as_slice())? {
        return Ok(Some(Code::ProcessRecursive));
    }
    Ok(None)
}

/// Whether one of these processes reaches itself.
fn recur(alloc: Global, calls: &CallGraph, found: &[u32]) -> Result<bool, OutOfMemory>
    requires within { RefersWithin (graph_of calls.now.links.items) }
    requires pairs { (n : ℕ) → Contains found.now n
        → reached.back_from n < length calls.now.links.items }
    ensures { IfOk result (λ b. b ≡ true
        ↔ reached.AnyRecurs (graph_of calls.now.links.items) found.now) }
{
    for index in found {
        // A process that reaches itself from the main graph or a callback does so from a callback.
        if leads_back(alloc, calls.links.as_slice(), 2 * (*index / 2) + 1)? {
            return Ok(true);
        }
    }
    Ok(false)
}

fn are_marked(found: &[u32], marks: &Vec<bool>) -> bool
    requires within { (n : ℕ) → IsTrue (contains found.now n) → n < length marks.now.items }
    ensures { result ≡ list_all (λ n. slice_index_or marks.now.items n false) found.now }
{
    for index in found {
        if !marks[*index as usize] {
            return false;
        }
    }
    true
}

/// Whether a node of a graph calls a stored process, at any depth of callbacks; without stored processes none does.
pub fn has_call(stored: &[StoredProcess], graph: &Graph) -> bool
    ensures { result
        ≡ spec.nodes_call (map plain_stored stored.now) (plain_graph graph.now).nodes }
{
    !stored.is_empty() && nodes_call(stored, &graph.nodes)
}

#[cycle(called)]
fn nodes_call(stored: &[StoredProcess], nodes: &Vec<Node>) -> bool
    ensures { result
        ≡ spec.nodes_call (map plain_stored stored.now) (plain_nodes nodes.now.items) }
{
    for node in nodes {
        if node_calls(stored, node) {
            return true;
        }
    }
    false
}

#[cycle(called)]
fn node_calls(stored: &[StoredProcess], node: &Node) -> bool
    ensures { result
        ≡ spec.node_calls (map plain_stored stored.now) (plain_node node.now) }
{
    is_call(stored, node) || named_call(stored, &node.arguments)
}

#[cycle(called)]
fn named_call(stored: &[StoredProcess], members: &Vec<(Text, Arg)>) -> bool
    ensures { result
        ≡ spec.named_call (map plain_stored stored.now) (plain_named members.now.items) }
{
    for member in members {
        if arg_calls(stored, &member.1) {
            return true;
        }
    }
    false
}

#[cycle(called)]
fn args_call(stored: &[StoredProcess], items: &Vec<Arg>) -> bool
    ensures { result ≡ spec.each_call (map plain_stored stored.now) (plain_args items.now.items) }
{
    for item in items {
        if arg_calls(stored, item) {
            return true;
        }
    }
    false
}

#[cycle(called)]
fn arg_calls(stored: &[StoredProcess], arg: &Arg) -> bool
    ensures { result ≡ spec.calls (map plain_stored stored.now) (plain_arg arg.now) }
{
    match arg {
        Arg::List(items) => args_call(stored, items),
        Arg::Object(members) => named_call(stored, members),
        Arg::Callback(graph) => nodes_call(stored, &graph.nodes),
        _ => false,
    }
}
