// What a node calls.
ghost use Rattle.std.specs.Prelude.{◌≡◌, ◌<◌, ℕ, false, not, if◌then◌else◌, is_some, IfSome, [], length, option_and_then, option_map, map, slice_get};
ghost use Rattle.std.specs.List.{list_all};
ghost use Rattle.std.specs.Option.{option_map_or};
ghost use Rattle.oe_dims.specs.Names.{same_name};
ghost use Rattle.oe_graph.specs.Catalogue.{process_named};
ghost use Rattle.oe_graph.specs.Plain.{plain_arg, plain_args, plain_named, plain_node, plain_nodes, plain_stored};
ghost use Rattle.oe_graph.specs.References.{callbacks_each, callbacks_in, callbacks_named};
ghost use Rattle.oe_calls.specs.Calls as spec;

use oe_dims::{Text, same_text};
use oe_graph::{Arg, Node, StoredProcess, process_entry};

const NO_NAMES: &[&str] = &[];

fn is_text(text: &Option<Text>, word: &str) -> bool
    ensures { result ≡ option_map_or (λ t. same_name t word.now) text.now false }
{
    match text {
        Some(text) => same_text(text.as_str(), word),
        None => false,
    }
}

/// Whether a namespace means the stored processes.
pub fn means_stored(namespace: &Option<Text>) -> bool
    ensures { result ≡ spec.means_stored namespace.now }
{
    !is_text(namespace, "backend")
}

/// Whether a namespace means the catalogue.
pub fn means_catalogue(namespace: &Option<Text>) -> bool
    ensures { result ≡ spec.means_catalogue namespace.now }
{
    !is_text(namespace, "user")
}

/// The index of a stored process.
fn stored_index(stored: &[StoredProcess], id: &str) -> Option<usize>
    ensures within { IfSome result (λ index. index < length stored.now) }
    ensures is { option_and_then (λ index. slice_get (map plain_stored stored.now) index) result
        ≡ spec.stored_named id.now (map plain_stored stored.now) }
{
    for index in 0..stored.len() {
        if same_text(stored[index].id.as_str(), id) {
            return Some(index);
        }
    }
    None
}

/// The index of the stored process that a node calls.
pub fn callee_index(stored: &[StoredProcess], node: &Node) -> Option<usize>
    ensures within { IfSome result (λ index. index < length stored.now) }
    ensures is { option_and_then (λ index. slice_get (map plain_stored stored.now) index) result
        ≡ spec.callee (map plain_stored stored.now) node.now.namespace node.now.process_id }
{
    if means_stored(&node.namespace) {
        stored_index(stored, node.process_id.as_str())
    } else {
        None
    }
}

/// The stored process that a node calls.
pub fn callee<'a>(stored: &'a [StoredProcess], node: &Node) -> Option<&'a StoredProcess>
    ensures { option_map (λ s. plain_stored s.now) result
        ≡ spec.callee (map plain_stored stored.now) node.now.namespace node.now.process_id }
{
    match callee_index(stored, node) {
        Some(index) => Some(&stored[index]),
        None => None,
    }
}

/// Whether a node calls a stored process.
pub fn is_call(stored: &[StoredProcess], node: &Node) -> bool
    ensures { result ≡ is_some
        (spec.callee (map plain_stored stored.now) node.now.namespace node.now.process_id) }
{
    callee_index(stored, node).is_some()
}

/// Whether a node may stand in the main graph, or in a callback, with the nodes of its callbacks and of what it calls.
pub fn may_stand(stored: &[StoredProcess], in_callback: bool, node: &Node) -> bool
    ensures { result
        ≡ spec.may_stand (map plain_stored stored.now) in_callback (plain_node node.now) }
{
    stands_in(stored, in_callback, node)
        && holds_fitting(stored, node)
        && calls_fitting(stored, node)
}

/// Whether the process of a node stands in the main graph, or in callbacks.
fn stands_in(stored: &[StoredProcess], in_callback: bool, node: &Node) -> bool
    ensures { result
        ≡ spec.stands_in (map plain_stored stored.now) in_callback (plain_node node.now) }
{
    is_call(stored, node) || row_may_stand(in_callback, node)
}

/// Whether a node calls no stored process and means this row of the catalogue.
fn means_row(id: &str, stored: &[StoredProcess], node: &Node) -> bool
    ensures { result
        ≡ spec.means_row id.now (map plain_stored stored.now) (plain_node node.now) }
{
    !is_call(stored, node)
        && means_catalogue(&node.namespace)
        && same_text(node.process_id.as_str(), id)
}

/// Whether running sums stand in the callbacks of a node alone, where it is `apply_dimension`, and else not at all.
fn holds_fitting(stored: &[StoredProcess], node: &Node) -> bool
    ensures { result ≡ spec.holds_fitting (map plain_stored stored.now) (plain_node node.now) }
{
    let of_dimension = means_row("apply_dimension", stored, node);
    named_fit(stored, of_dimension, &node.arguments)
}

/// Whether no running sum stands among the nodes of the stored process that a node calls.
fn calls_fitting(stored: &[StoredProcess], node: &Node) -> bool
    ensures { result ≡ spec.calls_fitting (map plain_stored stored.now) (plain_node node.now) }
{
    match callee(stored, node) {
        Some(process) => nodes_fit(stored, false, &process.graph.nodes),
        None => true,
    }
}

/// Whether all of these are running sums, or else none of them.
fn nodes_fit(stored: &[StoredProcess], of_dimension: bool, nodes: &Vec<Node>) -> bool
    ensures { (index : ℕ) → result ≡ spec.fits_callback (map plain_stored stored.now) of_dimension
        (record { nodes = plain_nodes nodes.now.items; result = index }) }
{
    for node in nodes {
        if !node_fits(stored, of_dimension, node) {
            return false;
        }
    }
    true
}

/// Whether a node is a running sum, or else is none.
fn node_fits(stored: &[StoredProcess], of_dimension: bool, node: &Node) -> bool
    ensures { result ≡ (if of_dimension
        then spec.is_running_sum (map plain_stored stored.now) (plain_node node.now)
        else not (spec.is_running_sum (map plain_stored stored.now) (plain_node node.now))) }
{
    let is_sum = means_row("cumsum", stored, node);
    if of_dimension { is_sum } else { !is_sum }
}

#[cycle(fits)]
fn named_fit(stored: &[StoredProcess], of_dimension: bool, members: &Vec<(Text, Arg)>) -> bool
    ensures { result ≡ list_all (spec.fits_callback (map plain_stored stored.now) of_dimension)
        (callbacks_named (plain_named members.now.items)) }
{
    for member in members {
        if !arg_fits(stored, of_dimension, &member.1) {
            return false;
        }
    }
    true
}

#[cycle(fits)]
fn args_fit(stored: &[StoredProcess], of_dimension: bool, items: &Vec<Arg>) -> bool
    ensures { result ≡ list_all (spec.fits_callback (map plain_stored stored.now) of_dimension)
        (callbacks_each (plain_args items.now.items)) }
{
    for item in items {
        if !arg_fits(stored, of_dimension, item) {
            return false;
        }
    }
    true
}

#[cycle(fits)]
fn arg_fits(stored: &[StoredProcess], of_dimension: bool, arg: &Arg) -> bool
    ensures { result ≡ list_all (spec.fits_callback (map plain_stored stored.now) of_dimension)
        (callbacks_in (plain_arg arg.now)) }
{
    match arg {
        Arg::List(items) => args_fit(stored, of_dimension, items),
        Arg::Object(members) => named_fit(stored, of_dimension, members),
        Arg::Callback(graph) => nodes_fit(stored, of_dimension, &graph.nodes),
        _ => true,
    }
}

/// Whether the row of the catalogue that a node means may stand in the main graph, or in callbacks.
fn row_may_stand(in_callback: bool, node: &Node) -> bool
    ensures { result ≡ option_map_or (λ p. if in_callback then p.in_callback else not p.in_callback)
        (spec.row_meant node.now.namespace node.now.process_id) false }
{
    if !means_catalogue(&node.namespace) {
        return false;
    }
    match process_entry(node.process_id.as_str()) {
        Some(entry) => { if in_callback { entry.1 } else { !entry.1 } }
        None => false,
    }
}

/// The parameters that the callbacks of a node see.
pub fn callback_parameters(stored: &[StoredProcess], node: &Node) -> &'static [&'static str]
    ensures { map (λ name. name.now) result.now
        ≡ spec.callback_parameters (map plain_stored stored.now) node.now.namespace
        node.now.process_id }
{
    if is_call(stored, node) {
        return NO_NAMES;
    }
    row_parameters(node.process_id.as_str())
}

fn row_parameters(process_id: &str) -> &'static [&'static str]
    ensures { map (λ name. name.now) result.now
        ≡ option_map_or (λ p. p.callback_parameters) (process_named process_id.now) [] }
{
    let Some(entry) = process_entry(process_id) else {
        return NO_NAMES;
    };
    entry.3
}
