// How much the arguments of a graph hold, as it is and after a round, counted before the round is built: a parameter
// that is used twice at each of a few calls would make them grow without bound where the nodes do not. In each cycle the
// tree that is walked stands first, or behind the allocator: by its depth they end.
ghost use Rattle.std.specs.Prelude.{◌≡◌, ◌+◌, false, if◌then◌else◌, IfOk, map, option_map};
ghost use Rattle.std.specs.List.{list_any};
ghost use Rattle.oe_dims.specs.Names.{same_name};
ghost use Rattle.oe_graph.specs.Plain.{plain_arg, plain_args, plain_graph, plain_named, plain_node, plain_nodes, plain_parameter, plain_stored};
ghost use Rattle.oe_graph.specs.Tree.{Nodes, from_parameter};
ghost use Rattle.oe_calls.specs.Calls.{callee};
ghost use Rattle.oe_calls.specs.Renamed.{renamed_nodes};
ghost use Rattle.oe_calls.specs.Substituted as substituted;
ghost use Rattle.oe_calls.specs.Rounds as rounds;
ghost use Rattle.oe_calls.specs.PlainValues.{IsLeftOf, names_behind, plain_sizes};
ghost use Rattle.oe_calls.specs.Sizes as spec;

use crate::calls::{callback_parameters, callee};
use crate::inline::under_id;
use crate::names::{is_among, join_names};
use oe_dims::{Text, same_text};
use oe_graph::{Arg, Graph, Node, ParameterRow, StoredProcess, argument_named};
use oe_memory::OutOfMemory;
use std::alloc::Global;

/// Most values in the arguments of a graph.
const MOST_VALUES: u64 = 1048576;

/// Most bytes of the texts among them, and of the names in them.
const MOST_BYTES: u64 = 16777216;

/// What is counted.
#[derive(Clone, Copy)]
pub enum Measure {
    /// The values in arguments, each with those inside it, of which a node of a callback is one.
    Values,
    /// The bytes of the texts among them.
    TextBytes,
    /// The bytes of the names of arguments, of members of objects, of parameters that are referred to, and in callbacks
    /// of the ids of nodes and of their processes.
    NameBytes,
}

/// The size of the value of a parameter, where it has one.
#[derive(Drop)]
pub struct ParameterSize {
    pub name: Text,
    pub size: Option<u64>,
}

/// The sizes of the values of the parameters of a call.
#[derive(Drop)]
pub struct Sizes {
    pub measure: Measure,
    pub each: Vec<ParameterSize>,
}

/// Whether a graph holds no more than it may. Refuses: out of memory, where it holds more.
pub fn keep_limits(graph: &Graph) -> Result<(), OutOfMemory>
    ensures { IfOk result (λ u. spec.IsWithinLimits (plain_graph graph.now)) }
{
    nodes_left(&graph.nodes, Measure::Values, MOST_VALUES)?;
    nodes_left(&graph.nodes, Measure::TextBytes, MOST_BYTES)?;
    nodes_left(&graph.nodes, Measure::NameBytes, MOST_BYTES)?;
    Ok(())
}

/// Whether a graph will hold no more than it may after a round. Refuses: out of memory, where it would hold more.
pub fn keep_limits_in_round(
    alloc: Global,
    stored: &[StoredProcess],
    graph: &Graph,
) -> Result<(), OutOfMemory>
    ensures { IfOk result (λ u. spec.IsWithinLimits
        (rounds.round (map plain_stored stored.now) (plain_graph graph.now))) }
{
    round_nodes_left(alloc, &graph.nodes, stored, Measure::Values, MOST_VALUES)?;
    round_nodes_left(alloc, &graph.nodes, stored, Measure::TextBytes, MOST_BYTES)?;
    round_nodes_left(alloc, &graph.nodes, stored, Measure::NameBytes, MOST_BYTES)?;
    Ok(())
}

/// What is left of a budget from which so much is taken. Refuses: out of memory, where it is less.
fn left_after(budget: u64, size: u64) -> Result<u64, OutOfMemory>
    ensures { IfOk result (λ left. budget ≡ left + size) }
{
    if size > budget {
        return Err(OutOfMemory);
    }
    Ok(budget - size)
}

fn value_size(measure: Measure) -> u64
    ensures { result ≡ spec.value_size measure }
{
    match measure {
        Measure::Values => 1,
        Measure::TextBytes => 0,
        Measure::NameBytes => 0,
    }
}

fn text_size(measure: Measure, text: &str) -> u64
    ensures { result ≡ spec.text_size measure text.now }
{
    match measure {
        Measure::Values => 0,
        Measure::TextBytes => text.len() as u64,
        Measure::NameBytes => 0,
    }
}

fn name_size(measure: Measure, name: &str) -> u64
    ensures { result ≡ spec.name_size measure name.now }
{
    match measure {
        Measure::Values => 0,
        Measure::TextBytes => 0,
        Measure::NameBytes => name.len() as u64,
    }
}

/// The size of a reference to a parameter.
fn reference_size(measure: Measure, name: &str) -> u64
    ensures { result ≡ spec.size_in measure (from_parameter name.now) }
{
    match measure {
        Measure::Values => 1,
        Measure::TextBytes => 0,
        Measure::NameBytes => name.len() as u64,
    }
}

// ---- the nodes of a callback without their arguments: what is left of a budget from which they are taken

fn bare_left(
    id: &Text,
    process_id: &Text,
    measure: Measure,
    budget: u64,
) -> Result<u64, OutOfMemory>
    ensures { IfOk result
        (λ left. budget ≡ left + spec.size_bare measure id.now process_id.now) }
{
    let left = left_after(budget, value_size(measure))?;
    let left = left_after(left, name_size(measure, id.as_str()))?;
    left_after(left, name_size(measure, process_id.as_str()))
}

/// Of a node in a call.
fn under_left(
    alloc: Global,
    call: &Text,
    node: &Node,
    measure: Measure,
    budget: u64,
) -> Result<u64, OutOfMemory>
    ensures { IfOk result (λ left. budget ≡ left
        + spec.size_bare measure (rounds.under_id call.now node.now.id) node.now.process_id) }
{
    let id = under_id(alloc, call.as_str(), node.id.as_str())?;
    bare_left(&id, &node.process_id, measure, budget)
}

fn bare_nodes_left(nodes: &Vec<Node>, measure: Measure, budget: u64) -> Result<u64, OutOfMemory>
    ensures { IfOk result
        (λ left. budget ≡ left + spec.size_bare_nodes measure (plain_nodes nodes.now.items)) }
{
    let mut left = budget;
    for node in nodes {
        left = bare_left(&node.id, &node.process_id, measure, left)?;
    }
    Ok(left)
}

fn under_nodes_left(
    alloc: Global,
    call: &Text,
    nodes: &Vec<Node>,
    measure: Measure,
    budget: u64,
) -> Result<u64, OutOfMemory>
    ensures { IfOk result (λ left. budget ≡ left + spec.size_bare_nodes measure
        (renamed_nodes (rounds.under_id call.now) (plain_nodes nodes.now.items))) }
{
    let mut left = budget;
    for node in nodes {
        left = under_left(alloc, call, node, measure, left)?;
    }
    Ok(left)
}

/// Of what stands in place of a node after a round.
fn opened_bare_left(
    alloc: Global,
    node: &Node,
    stored: &[StoredProcess],
    measure: Measure,
    budget: u64,
) -> Result<u64, OutOfMemory>
    ensures { IfOk result (λ left. budget
        ≡ left + spec.opened_bare measure node.now.id node.now.process_id
        (callee (map plain_stored stored.now) node.now.namespace node.now.process_id)) }
{
    let Some(process) = callee(stored, node) else {
        return bare_left(&node.id, &node.process_id, measure, budget);
    };
    under_nodes_left(alloc, &node.id, &process.graph.nodes, measure, budget)
}

fn round_bare_left(
    alloc: Global,
    nodes: &Vec<Node>,
    stored: &[StoredProcess],
    measure: Measure,
    budget: u64,
) -> Result<u64, OutOfMemory>
    ensures { IfOk result (λ left. budget ≡ left
        + spec.round_bare measure (map plain_stored stored.now) (plain_nodes nodes.now.items)) }
{
    let mut left = budget;
    for node in nodes {
        left = opened_bare_left(alloc, node, stored, measure, left)?;
    }
    Ok(left)
}

// ---- a graph as it is: what is left of a budget from which its arguments are taken

#[cycle(plain)]
fn nodes_left(nodes: &Vec<Node>, measure: Measure, budget: u64) -> Result<u64, OutOfMemory>
    ensures { IfOk result
        (λ left. budget ≡ left + spec.size_nodes measure (plain_nodes nodes.now.items)) }
{
    let mut left = budget;
    for node in nodes {
        left = node_left(node, measure, left)?;
    }
    Ok(left)
}

#[cycle(plain)]
fn node_left(node: &Node, measure: Measure, budget: u64) -> Result<u64, OutOfMemory>
    ensures { IfOk result
        (λ left. budget ≡ left + spec.size_named measure (plain_node node.now).arguments) }
{
    named_left(&node.arguments, measure, budget)
}

#[cycle(plain)]
fn named_left(members: &Vec<(Text, Arg)>, measure: Measure, budget: u64) -> Result<u64, OutOfMemory>
    ensures { IfOk result
        (λ left. budget ≡ left + spec.size_named measure (plain_named members.now.items)) }
{
    let mut left = budget;
    for member in members {
        left = left_after(left, name_size(measure, member.0.as_str()))?;
        left = arg_left(&member.1, measure, left)?;
    }
    Ok(left)
}

#[cycle(plain)]
fn args_left(items: &Vec<Arg>, measure: Measure, budget: u64) -> Result<u64, OutOfMemory>
    ensures { IfOk result
        (λ left. budget ≡ left + spec.size_each measure (plain_args items.now.items)) }
{
    let mut left = budget;
    for item in items {
        left = arg_left(item, measure, left)?;
    }
    Ok(left)
}

#[cycle(plain)]
fn arg_left(arg: &Arg, measure: Measure, budget: u64) -> Result<u64, OutOfMemory>
    ensures { IfOk result (λ left. budget ≡ left + spec.size_in measure (plain_arg arg.now)) }
{
    let left = left_after(budget, value_size(measure))?;
    match arg {
        Arg::Str(text) => left_after(left, text_size(measure, text.as_str())),
        Arg::List(items) => args_left(items, measure, left),
        Arg::Object(members) => named_left(members, measure, left),
        Arg::FromParameter(name) => left_after(left, name_size(measure, name.as_str())),
        Arg::Callback(graph) => {
            let inner = bare_nodes_left(&graph.nodes, measure, left)?;
            nodes_left(&graph.nodes, measure, inner)
        }
        _ => Ok(left),
    }
}

// ---- a graph after a round

#[cycle(rounds)]
fn round_nodes_left(
    alloc: Global,
    nodes: &Vec<Node>,
    stored: &[StoredProcess],
    measure: Measure,
    budget: u64,
) -> Result<u64, OutOfMemory>
    ensures { IfOk result (λ left. (all : Nodes) → budget
        ≡ left + spec.round_size measure (map plain_stored stored.now) all
        (plain_nodes nodes.now.items)) }
{
    let mut left = budget;
    for node in nodes {
        left = round_node_left(alloc, node, stored, measure, left)?;
    }
    Ok(left)
}

#[cycle(rounds)]
fn round_node_left(
    alloc: Global,
    node: &Node,
    stored: &[StoredProcess],
    measure: Measure,
    budget: u64,
) -> Result<u64, OutOfMemory>
    ensures { IfOk result (λ left. (all : Nodes) → budget ≡ left + spec.size_nodes measure
        (rounds.round_node (map plain_stored stored.now) all (plain_node node.now)
        (callee (map plain_stored stored.now) node.now.namespace node.now.process_id))) }
{
    let Some(process) = callee(stored, node) else {
        return round_named_left(alloc, &node.arguments, stored, measure, budget);
    };
    let mut each = Vec::with_capacity(alloc, process.parameters.len())?;
    for parameter in &process.parameters {
        let size = given_size(&node.arguments, measure, parameter)?;
        each.push(ParameterSize {
            name: parameter.name.copy()?,
            size,
        })?;
    }
    let sizes = Sizes { measure, each };
    opened_nodes_left(alloc, &process.graph.nodes, stored, &sizes, &[], budget)
}

#[cycle(rounds)]
fn round_named_left(
    alloc: Global,
    members: &Vec<(Text, Arg)>,
    stored: &[StoredProcess],
    measure: Measure,
    budget: u64,
) -> Result<u64, OutOfMemory>
    ensures { IfOk result (λ left. (all : Nodes) → budget
        ≡ left + spec.size_named measure (rounds.round_named (map plain_stored stored.now) false all
        (plain_named members.now.items))) }
{
    let mut left = budget;
    for member in members {
        left = left_after(left, name_size(measure, member.0.as_str()))?;
        left = round_arg_left(alloc, &member.1, stored, measure, left)?;
    }
    Ok(left)
}

#[cycle(rounds)]
fn round_args_left(
    alloc: Global,
    items: &Vec<Arg>,
    stored: &[StoredProcess],
    measure: Measure,
    budget: u64,
) -> Result<u64, OutOfMemory>
    ensures { IfOk result (λ left. (all : Nodes) → budget
        ≡ left + spec.size_each measure (rounds.round_each (map plain_stored stored.now) false all
        (plain_args items.now.items))) }
{
    let mut left = budget;
    for item in items {
        left = round_arg_left(alloc, item, stored, measure, left)?;
    }
    Ok(left)
}

#[cycle(rounds)]
fn round_arg_left(
    alloc: Global,
    arg: &Arg,
    stored: &[StoredProcess],
    measure: Measure,
    budget: u64,
) -> Result<u64, OutOfMemory>
    ensures { IfOk result (λ left. (all : Nodes) → budget
        ≡ left + spec.size_in measure (rounds.round_argument (map plain_stored stored.now) false all
        (plain_arg arg.now))) }
{
    let left = left_after(budget, value_size(measure))?;
    match arg {
        Arg::Str(text) => left_after(left, text_size(measure, text.as_str())),
        Arg::List(items) => round_args_left(alloc, items, stored, measure, left),
        Arg::Object(members) => round_named_left(alloc, members, stored, measure, left),
        Arg::FromParameter(name) => left_after(left, name_size(measure, name.as_str())),
        Arg::Callback(graph) => {
            let inner = round_bare_left(alloc, &graph.nodes, stored, measure, left)?;
            round_nodes_left(alloc, &graph.nodes, stored, measure, inner)
        }
        _ => Ok(left),
    }
}

/// The size of the value of a parameter of a call with these arguments. Refuses: out of memory, where it is more than a
/// graph may hold.
fn given_size(
    arguments: &Vec<(Text, Arg)>,
    measure: Measure,
    parameter: &ParameterRow,
) -> Result<Option<u64>, OutOfMemory>
    ensures { IfOk result (λ size. size ≡ spec.given_size measure
        (plain_named arguments.now.items) (plain_parameter parameter.now)) }
{
    match argument_named(arguments, parameter.name.as_str()) {
        Some(argument) => {
            let left = arg_left(argument, measure, MOST_BYTES)?;
            Ok(Some(MOST_BYTES - left))
        }
        None => default_size(parameter, measure),
    }
}

/// The size of what a parameter has where no argument is given.
fn default_size(parameter: &ParameterRow, measure: Measure) -> Result<Option<u64>, OutOfMemory>
    ensures { IfOk result (λ size. size ≡ option_map (spec.size_in measure)
        (substituted.default_of (plain_parameter parameter.now))) }
{
    match &parameter.default {
        Some(default) => {
            let left = arg_left(default, measure, MOST_BYTES)?;
            Ok(Some(MOST_BYTES - left))
        }
        None if parameter.optional => Ok(Some(value_size(measure))),
        None => Ok(None),
    }
}

// ---- the graph of a call, whose parameters have values of these sizes, where they are not hidden

#[cycle(opened)]
fn opened_nodes_left(
    alloc: Global,
    nodes: &Vec<Node>,
    stored: &[StoredProcess],
    sizes: &Sizes,
    hidden: &[&'static str],
    budget: u64,
) -> Result<u64, OutOfMemory>
    ensures { IfOk result (IsLeftOf budget sizes.now hidden.now (λ values. spec.size_nodes
        sizes.now.measure (substituted.substituted_nodes (map plain_stored stored.now) values
        (plain_nodes nodes.now.items)))) }
{
    let mut left = budget;
    for node in nodes {
        left = opened_node_left(alloc, node, stored, sizes, hidden, left)?;
    }
    Ok(left)
}

#[cycle(opened)]
fn opened_node_left(
    alloc: Global,
    node: &Node,
    stored: &[StoredProcess],
    sizes: &Sizes,
    hidden: &[&'static str],
    budget: u64,
) -> Result<u64, OutOfMemory>
    ensures { IfOk result (IsLeftOf budget sizes.now hidden.now (λ values. spec.size_named
        sizes.now.measure (substituted.substituted_node (map plain_stored stored.now) values
        (plain_node node.now)).arguments)) }
{
    let own = callback_parameters(stored, node);
    opened_named_left(alloc, &node.arguments, stored, own, sizes, hidden, budget)
}

#[cycle(opened)]
fn opened_named_left(
    alloc: Global,
    members: &Vec<(Text, Arg)>,
    stored: &[StoredProcess],
    own: &'static [&'static str],
    sizes: &Sizes,
    hidden: &[&'static str],
    budget: u64,
) -> Result<u64, OutOfMemory>
    ensures { IfOk result (IsLeftOf budget sizes.now hidden.now (λ values. spec.size_named
        sizes.now.measure (substituted.substituted_named (map plain_stored stored.now)
        (names_behind own.now) values (plain_named members.now.items)))) }
{
    let mut left = budget;
    for member in members {
        left = left_after(left, name_size(sizes.measure, member.0.as_str()))?;
        left = opened_arg_left(alloc, &member.1, stored, own, sizes, hidden, left)?;
    }
    Ok(left)
}

#[cycle(opened)]
fn opened_args_left(
    alloc: Global,
    items: &Vec<Arg>,
    stored: &[StoredProcess],
    own: &'static [&'static str],
    sizes: &Sizes,
    hidden: &[&'static str],
    budget: u64,
) -> Result<u64, OutOfMemory>
    ensures { IfOk result (IsLeftOf budget sizes.now hidden.now (λ values. spec.size_each
        sizes.now.measure (substituted.substituted_each (map plain_stored stored.now)
        (names_behind own.now) values (plain_args items.now.items)))) }
{
    let mut left = budget;
    for item in items {
        left = opened_arg_left(alloc, item, stored, own, sizes, hidden, left)?;
    }
    Ok(left)
}

/// Of an argument whose callbacks have these parameters of their own.
#[cycle(opened)]
fn opened_arg_left(
    alloc: Global,
    arg: &Arg,
    stored: &[StoredProcess],
    own: &'static [&'static str],
    sizes: &Sizes,
    hidden: &[&'static str],
    budget: u64,
) -> Result<u64, OutOfMemory>
    ensures { IfOk result (IsLeftOf budget sizes.now hidden.now (λ values. spec.size_in
        sizes.now.measure (substituted.substituted (map plain_stored stored.now)
        (names_behind own.now) values (plain_arg arg.now)))) }
{
    let size = value_size(sizes.measure);
    match arg {
        Arg::FromParameter(name) => {
            left_after(budget, parameter_size(sizes, hidden, name.as_str()))
        }
        Arg::Str(text) => {
            let left = left_after(budget, size)?;
            left_after(left, text_size(sizes.measure, text.as_str()))
        }
        Arg::List(items) => {
            let left = left_after(budget, size)?;
            opened_args_left(alloc, items, stored, own, sizes, hidden, left)
        }
        Arg::Object(members) => {
            let left = left_after(budget, size)?;
            opened_named_left(alloc, members, stored, own, sizes, hidden, left)
        }
        Arg::Callback(graph) => {
            let left = left_after(budget, size)?;
            let room = bare_nodes_left(&graph.nodes, sizes.measure, left)?;
            let inner = join_names(alloc, own, hidden)?;
            opened_nodes_left(alloc, &graph.nodes, stored, sizes, inner.as_slice(), room)
        }
        _ => left_after(budget, size),
    }
}

/// The size of what stands for a parameter.
fn parameter_size(sizes: &Sizes, hidden: &[&'static str], name: &str) -> u64
    ensures { result ≡ (if list_any (same_name name.now) (names_behind hidden.now)
        then spec.size_in sizes.now.measure (from_parameter name.now)
        else spec.size_for sizes.now.measure (plain_sizes sizes.now.each.items) name.now) }
{
    if is_among(hidden, name) {
        reference_size(sizes.measure, name)
    } else {
        size_for(sizes, name)
    }
}

fn size_for(sizes: &Sizes, name: &str) -> u64
    ensures { result
        ≡ spec.size_for sizes.now.measure (plain_sizes sizes.now.each.items) name.now }
{
    for parameter in &sizes.each {
        if let Some(size) = parameter.size {
            if same_text(parameter.name.as_str(), name) {
                return size;
            }
        }
    }
    reference_size(sizes.measure, name)
}
