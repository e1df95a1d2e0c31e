// Arguments that are written: instants, intervals and callbacks.
ghost use Rattle.std.specs.Prelude.{◌≡◌, ◌<◌, ◌+◌, ◌++◌, ◌∷◌, [], pos, IfOk, IfSome, OnOk, All, None, Some, codes, length, map, slice_get, slice_index_or};
ghost use Rattle.oe_dims.specs.Instant.{IsInstant};
ghost use Rattle.oe_graph.specs.Plain.{plain_arg, plain_args, plain_named, plain_node, plain_nodes, plain_pair};
ghost use Rattle.oe_graph.specs.Tree.{callback, from_node, from_parameter, list, named, no_named};
ghost use Rattle.oe_requests.specs.Parameters.{extent_from, labelled_interval};
ghost use Rattle.oe_translate.specs.Written as spec;
ghost use Rattle.oe_translate.specs.Written.{IsWritable};

use oe_dims::{Text, print_instant};
use oe_graph::{Arg, Graph, Node, argument_named, copy_arg};
use oe_memory::OutOfMemory;
use oe_requests::{Interval, TemporalExtent};
use std::alloc::Global;

/// A copy of the argument of a name, null where there is none.
pub(crate) fn given(
    alloc: Global,
    arguments: &Vec<(Text, Arg)>,
    name: &str,
) -> Result<Arg, OutOfMemory>
    ensures { IfOk result
        (λ a. plain_arg a ≡ spec.given name.now (plain_named arguments.now.items)) }
{
    match argument_named(arguments, name) {
        Some(arg) => copy_arg(alloc, arg),
        None => Ok(Arg::Null),
    }
}

/// Puts an argument behind the others.
pub(crate) fn push_argument(
    arguments: &mut Vec<(Text, Arg)>,
    alloc: Global,
    name: &str,
    arg: Arg,
) -> Result<(), OutOfMemory>
    ensures { OnOk result (map plain_pair arguments.new.items
        ≡ map plain_pair arguments.old.items ++ (name.now, plain_arg arg) ∷ []) }
{
    let name = Text::of(alloc, name)?;
    arguments.push((name, arg))?;
    Ok(())
}

/// Puts a copy of the argument of a name among these behind the others, null where there is none.
pub(crate) fn push_given(
    found: &mut Vec<(Text, Arg)>,
    alloc: Global,
    name: &str,
    arguments: &Vec<(Text, Arg)>,
    given_as: &str,
) -> Result<(), OutOfMemory>
    ensures { OnOk result (map plain_pair found.new.items ≡ map plain_pair found.old.items
        ++ (name.now, spec.given given_as.now (plain_named arguments.now.items)) ∷ []) }
{
    let arg = given(alloc, arguments, given_as)?;
    push_argument(found, alloc, name, arg)
}

// ---- values of several parts

fn list_arg(items: Vec<Arg>) -> Arg
    ensures { plain_arg result ≡ list (plain_args items.items) }
{
    Arg::List(items)
}

/// The callback of these nodes, whose result is the first.
fn callback_arg(nodes: Vec<Node>) -> Arg
    ensures { plain_arg result ≡ callback (plain_nodes nodes.items) 0 }
{
    Arg::Callback(Graph { nodes, result: 0 })
}

// ---- intervals

fn instant_arg(alloc: Global, seconds: i64) -> Result<Arg, OutOfMemory>
    requires { IsInstant seconds }
    ensures { IfOk result (λ a. plain_arg a ≡ spec.instant_argument seconds) }
{
    let bytes = print_instant(seconds);
    match str::from_utf8(&bytes) {
        Ok(text) => Ok(Arg::Str(Text::of(alloc, text)?)),
        Err(_) => unreachable!(),
    }
}

fn end_arg(alloc: Global, end: Option<i64>) -> Result<Arg, OutOfMemory>
    requires { IfSome end IsInstant }
    ensures { IfOk result (λ a. plain_arg a ≡ spec.end_argument end) }
{
    match end {
        Some(seconds) => instant_arg(alloc, seconds),
        None => Ok(Arg::Null),
    }
}

fn extent_arg(alloc: Global, interval: Interval) -> Result<Arg, OutOfMemory>
    requires { IsWritable interval }
    ensures { IfOk result (λ a. plain_arg a ≡ spec.extent_argument interval) }
{
    let mut pair = Vec::with_capacity(alloc, 2)?;
    pair.push(end_arg(alloc, interval.extent.start)?)?;
    pair.push(end_arg(alloc, interval.extent.end)?)?;
    Ok(list_arg(pair))
}

/// The pairs of the ends of intervals.
pub(crate) fn extents_arg(alloc: Global, intervals: &[Interval]) -> Result<Arg, OutOfMemory>
    requires { All IsWritable intervals.now }
    ensures { IfOk result
        (λ a. plain_arg a ≡ spec.list_of spec.extent_argument intervals.now) }
{
    let mut items = Vec::with_capacity(alloc, intervals.len())?;
    for interval in intervals {
        items.push(extent_arg(alloc, *interval)?)?;
    }
    Ok(list_arg(items))
}

/// The labels of intervals.
pub(crate) fn labels_arg(alloc: Global, intervals: &[Interval]) -> Result<Arg, OutOfMemory>
    requires { All IsWritable intervals.now }
    ensures { IfOk result
        (λ a. plain_arg a ≡ spec.list_of spec.label_argument intervals.now) }
{
    let mut items = Vec::with_capacity(alloc, intervals.len())?;
    for interval in intervals {
        items.push(instant_arg(alloc, interval.label)?)?;
    }
    Ok(list_arg(items))
}

/// For each label the interval from the first label to the next one; the last has no end.
pub(crate) fn growing_intervals(alloc: Global, labels: &[i64]) -> Result<Vec<Interval>, OutOfMemory>
    requires { All IsInstant labels.now }
    ensures value { IfOk result (λ v. v.items ≡ spec.growing_intervals labels.now) }
    ensures writable { IfOk result (λ v. All IsWritable v.items) }
{
    let mut intervals = Vec::with_capacity(alloc, labels.len())?;
    for index in 0..labels.len() {
        intervals.push(interval_up_to(labels, index))?;
    }
    Ok(intervals)
}

/// The interval of the label at an index.
fn interval_up_to(labels: &[i64], index: usize) -> Interval
    requires { index < length labels.now }
    ensures { result ≡ labelled_interval (extent_from (Some (slice_index_or labels.now 0 (pos 0)))
        (slice_get labels.now (index + 1))) (slice_index_or labels.now index (pos 0)) }
{
    Interval {
        extent: TemporalExtent {
            start: Some(labels[0]),
            end: labels.get(index + 1).copied(),
        },
        label: labels[index],
    }
}

// ---- callbacks

/// The node of a callback, which is named as its process is.
fn callback_node(
    alloc: Global,
    process_id: &str,
    arguments: Vec<(Text, Arg)>,
) -> Result<Node, OutOfMemory>
    ensures { IfOk result (λ n. plain_node n ≡ record {
      id = process_id.now;
      process_id = process_id.now;
      namespace = None;
      arguments = plain_named arguments.items;
    }) }
{
    Ok(Node {
        id: Text::of(alloc, process_id)?,
        process_id: Text::of(alloc, process_id)?,
        namespace: None,
        arguments,
    })
}

fn parameter_arg(alloc: Global, name: &str) -> Result<Arg, OutOfMemory>
    ensures { IfOk result (λ a. plain_arg a ≡ from_parameter name.now) }
{
    Ok(Arg::FromParameter(Text::of(alloc, name)?))
}

fn node_arg(alloc: Global, id: &str) -> Result<Arg, OutOfMemory>
    ensures { IfOk result (λ a. plain_arg a ≡ from_node id.now) }
{
    Ok(Arg::FromNode(Text::of(alloc, id)?))
}

/// The callback of one node, `sum` of the list.
pub(crate) fn sum_callback(alloc: Global, ignore: bool) -> Result<Arg, OutOfMemory>
    ensures { IfOk result (λ a. plain_arg a ≡ spec.sum_callback ignore) }
{
    let mut arguments = Vec::with_capacity(alloc, 2)?;
    push_argument(&mut arguments, alloc, "data", parameter_arg(alloc, "data")?)?;
    push_argument(&mut arguments, alloc, "ignore_nodata", Arg::Flag(ignore))?;
    let mut nodes = Vec::with_capacity(alloc, 1)?;
    nodes.push(callback_node(alloc, "sum", arguments)?)?;
    Ok(callback_arg(nodes))
}

/// The arguments of a process of two numbers.
fn two_numbers(alloc: Global, x: Arg, y: Arg) -> Result<Vec<(Text, Arg)>, OutOfMemory>
    ensures { IfOk result (λ v. plain_named v.items
        ≡ named (codes "x") (plain_arg x) (named (codes "y") (plain_arg y) no_named)) }
{
    let mut arguments = Vec::with_capacity(alloc, 2)?;
    push_argument(&mut arguments, alloc, "x", x)?;
    push_argument(&mut arguments, alloc, "y", y)?;
    Ok(arguments)
}

/// The node of a process of two numbers in a callback.
fn number_node(alloc: Global, process_id: &str, x: Arg, y: Arg) -> Result<Node, OutOfMemory>
    ensures { IfOk result (λ n. plain_node n ≡ record {
      id = process_id.now;
      process_id = process_id.now;
      namespace = None;
      arguments = named (codes "x") (plain_arg x) (named (codes "y") (plain_arg y) no_named);
    }) }
{
    let arguments = two_numbers(alloc, x, y)?;
    callback_node(alloc, process_id, arguments)
}

/// `add(x, multiply)`, where `multiply` is a node.
fn add_node(alloc: Global) -> Result<Node, OutOfMemory>
    ensures { IfOk result (λ n. plain_node n ≡ spec.add_node) }
{
    let x = parameter_arg(alloc, "x")?;
    let y = node_arg(alloc, "multiply")?;
    number_node(alloc, "add", x, y)
}

/// `multiply(y, 0)`.
fn multiply_node(alloc: Global) -> Result<Node, OutOfMemory>
    ensures { IfOk result (λ n. plain_node n ≡ spec.multiply_node) }
{
    let x = parameter_arg(alloc, "y")?;
    number_node(alloc, "multiply", x, Arg::Whole(0))
}

/// The callback `add(x, multiply(y, 0))`.
pub(crate) fn sum_where_number(alloc: Global) -> Result<Arg, OutOfMemory>
    ensures { IfOk result (λ a. plain_arg a ≡ spec.sum_where_number) }
{
    let mut nodes = Vec::with_capacity(alloc, 2)?;
    nodes.push(add_node(alloc)?)?;
    nodes.push(multiply_node(alloc)?)?;
    Ok(callback_arg(nodes))
}
