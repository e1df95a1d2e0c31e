// What the arguments of a node ask for.
ghost use Rattle.std.specs.Prelude.{◌≡◌, IfOk, codes, option_map, option_and_then};
ghost use Rattle.oe_graph.specs.Plain.{plain_arg, plain_args, plain_named, plain_node};
ghost use Rattle.oe_graph.specs.Tree as tree;
ghost use Rattle.oe_expr.specs.Requests as spec;
ghost use Rattle.oe_expr.specs.PlainRequests.{literal_cell, plain_scalar, plain_scalars, plain_items, plain_label, plain_cell_request};

use crate::operation::{Binary, Operation, Unary, operation_of};
use oe_cell::{Cell, whole_cell};
use oe_dims::Text;
use oe_fold::Reducer;
use oe_graph::{Arg, Node, argument_named};
use oe_memory::OutOfMemory;
use std::alloc::Global;

/// A scalar argument; a whole number is a literal.
#[derive(Clone, Copy)]
pub(crate) enum Scalar<'a> {
    Null,
    Flag(bool),
    Whole(i64),
    Node(&'a str),
    X,
    Y,
    Context,
}

/// A list argument.
#[derive(Drop)]
pub(crate) enum Items<'a> {
    Data,
    Written(Vec<Scalar<'a>>),
}

/// A label as an argument writes it.
#[derive(Clone, Copy)]
pub(crate) enum Label<'a> {
    Text(&'a str),
    Whole(i64),
}

/// What a node asks for.
#[derive(Drop)]
pub(crate) enum Request<'a> {
    Unary(Unary, Scalar<'a>),
    Binary(Binary, Scalar<'a>, Scalar<'a>),
    Choice(Scalar<'a>, Scalar<'a>, Scalar<'a>),
    Reduction(Reducer, bool, Items<'a>),
    Element(Items<'a>, Option<u64>, Option<Label<'a>>, bool),
}

/// Most elements of a list that is written in a callback.
pub(crate) const MOST_ELEMENTS: usize = 64;

/// What a node asks for, where its arguments are what they may be.
pub(crate) fn request_at(alloc: Global, node: &Node) -> Result<Option<Request<'_>>, OutOfMemory>
    ensures { IfOk result
        (λ r. option_map plain_cell_request r ≡ spec.cell_request_at (plain_node node.now)) }
{
    match operation_of(node.process_id.as_str()) {
        Some(operation) => request_of(alloc, operation, &node.arguments),
        None => Ok(None),
    }
}

/// What an operation asks for.
fn request_of(
    alloc: Global,
    operation: Operation,
    arguments: &Vec<(Text, Arg)>,
) -> Result<Option<Request<'_>>, OutOfMemory>
    ensures { IfOk result (λ r. option_map plain_cell_request r
        ≡ spec.cell_request_of operation (plain_named arguments.now.items)) }
{
    match operation {
        Operation::OfOne(f) => Ok(unary_request(f, arguments)),
        Operation::OfTwo(f) => Ok(binary_request(f, arguments)),
        Operation::Choice => Ok(choice_request(arguments)),
        Operation::Reduction(reducer) => reduction_request(alloc, reducer, arguments),
        Operation::Counting => counting_request(alloc, arguments),
        Operation::Element => element_request(alloc, arguments),
    }
}

fn unary_request(f: Unary, arguments: &Vec<(Text, Arg)>) -> Option<Request<'_>>
    ensures { option_map plain_cell_request result
        ≡ spec.cell_request_of (Operation.OfOne f) (plain_named arguments.now.items) }
{
    let x = scalar_at(arguments, "x")?;
    Some(Request::Unary(f, x))
}

fn binary_request(f: Binary, arguments: &Vec<(Text, Arg)>) -> Option<Request<'_>>
    ensures { option_map plain_cell_request result
        ≡ spec.binary_request f (plain_named arguments.now.items) }
{
    match f {
        Binary::Equal | Binary::NotEqual => {
            if !has_plain_equality(arguments) {
                return None;
            }
            two_cells(f, arguments)
        }
        _ => two_cells(f, arguments),
    }
}

fn two_cells(f: Binary, arguments: &Vec<(Text, Arg)>) -> Option<Request<'_>>
    ensures { option_map plain_cell_request result
        ≡ spec.two_cells f (plain_named arguments.now.items) }
{
    let x = scalar_at(arguments, "x")?;
    let y = scalar_at(arguments, "y")?;
    Some(Request::Binary(f, x, y))
}

/// Whether `delta` is null and `case_sensitive` a flag.
fn has_plain_equality(arguments: &Vec<(Text, Arg)>) -> bool
    ensures { result ≡ spec.has_plain_equality (plain_named arguments.now.items) }
{
    let is_plain = match argument_named(arguments, "delta") {
        Some(delta) => matches!(delta, Arg::Null),
        None => false,
    };
    let is_flag = match argument_named(arguments, "case_sensitive") {
        Some(flag) => matches!(flag, Arg::Flag(_)),
        None => false,
    };
    is_plain && is_flag
}

fn choice_request(arguments: &Vec<(Text, Arg)>) -> Option<Request<'_>>
    ensures { option_map plain_cell_request result
        ≡ spec.choice_request (plain_named arguments.now.items) }
{
    let value = scalar_at(arguments, "value")?;
    let accept = scalar_at(arguments, "accept")?;
    let reject = scalar_at(arguments, "reject")?;
    Some(Request::Choice(value, accept, reject))
}

fn reduction_request(
    alloc: Global,
    reducer: Reducer,
    arguments: &Vec<(Text, Arg)>,
) -> Result<Option<Request<'_>>, OutOfMemory>
    ensures { IfOk result (λ r. option_map plain_cell_request r
        ≡ spec.reduction_request reducer (plain_named arguments.now.items)) }
{
    let Some(ignore) = flag_at(arguments, "ignore_nodata") else {
        return Ok(None);
    };
    match items_at(alloc, arguments)? {
        Some(items) => Ok(Some(Request::Reduction(reducer, ignore, items))),
        None => Ok(None),
    }
}

fn counting_request(
    alloc: Global,
    arguments: &Vec<(Text, Arg)>,
) -> Result<Option<Request<'_>>, OutOfMemory>
    ensures { IfOk result (λ r. option_map plain_cell_request r
        ≡ spec.counting_request (plain_named arguments.now.items)) }
{
    if !has_literal(arguments, "context") {
        return Ok(None);
    }
    let Some(counter) = counter_at(arguments) else {
        return Ok(None);
    };
    match items_at(alloc, arguments)? {
        Some(items) => Ok(Some(Request::Reduction(counter, true, items))),
        None => Ok(None),
    }
}

fn element_request(
    alloc: Global,
    arguments: &Vec<(Text, Arg)>,
) -> Result<Option<Request<'_>>, OutOfMemory>
    ensures { IfOk result (λ r. option_map plain_cell_request r
        ≡ spec.element_request (plain_named arguments.now.items)) }
{
    let Some(items) = items_at(alloc, arguments)? else {
        return Ok(None);
    };
    let Some(index) = index_at(arguments) else {
        return Ok(None);
    };
    let Some(label) = label_at(arguments) else {
        return Ok(None);
    };
    match flag_at(arguments, "return_nodata") {
        Some(flag) => Ok(Some(Request::Element(items, index, label, flag))),
        None => Ok(None),
    }
}

// ---- single arguments

/// The scalar of a name.
fn scalar_at<'a>(arguments: &'a Vec<(Text, Arg)>, name: &str) -> Option<Scalar<'a>>
    ensures { option_map plain_scalar result
        ≡ spec.read spec.scalar_in name.now (plain_named arguments.now.items) }
{
    match argument_named(arguments, name) {
        Some(arg) => scalar_in(arg),
        None => None,
    }
}

/// A scalar.
fn scalar_in(arg: &Arg) -> Option<Scalar<'_>>
    ensures { option_map plain_scalar result ≡ spec.scalar_in (plain_arg arg.now) }
{
    match arg {
        Arg::Null => Some(Scalar::Null),
        Arg::Flag(flag) => Some(Scalar::Flag(*flag)),
        Arg::Whole(whole) => literal_of(*whole),
        Arg::FromNode(id) => Some(Scalar::Node(id.as_str())),
        Arg::FromParameter(name) => parameter(name.as_str()),
        _ => None,
    }
}

/// A whole number that is a literal.
fn literal_of(whole: i64) -> Option<Scalar<'static>>
    ensures { option_map plain_scalar result ≡ spec.whole_scalar whole }
{
    if whole == i64::MIN {
        return None;
    }
    Some(Scalar::Whole(whole))
}

/// The cell of a whole number that is a literal, and null of −2^63, which is none.
pub(crate) fn literal_cell(whole: i64) -> Cell
    ensures { result ≡ literal_cell whole }
{
    if whole == i64::MIN {
        return Cell::Empty;
    }
    whole_cell(whole)
}

/// A parameter that is a scalar.
fn parameter(name: &str) -> Option<Scalar<'static>>
    ensures { option_map plain_scalar result ≡ spec.scalar_parameter name.now }
{
    if name == "x" {
        Some(Scalar::X)
    } else if name == "y" {
        Some(Scalar::Y)
    } else if name == "context" {
        Some(Scalar::Context)
    } else {
        None
    }
}

/// The list `data` of a process.
fn items_at(alloc: Global, arguments: &Vec<(Text, Arg)>) -> Result<Option<Items<'_>>, OutOfMemory>
    ensures { IfOk result (λ r. option_map plain_items r
        ≡ spec.read spec.items_in (codes "data") (plain_named arguments.now.items)) }
{
    match argument_named(arguments, "data") {
        Some(arg) => items_in(alloc, arg),
        None => Ok(None),
    }
}

/// A list.
fn items_in(alloc: Global, arg: &Arg) -> Result<Option<Items<'_>>, OutOfMemory>
    ensures { IfOk result
        (λ r. option_map plain_items r ≡ spec.items_in (plain_arg arg.now)) }
{
    match arg {
        Arg::List(args) => written_items(alloc, args),
        Arg::FromParameter(name) => Ok(list_parameter(name.as_str())),
        _ => Ok(None),
    }
}

/// A parameter that is a list.
fn list_parameter(name: &str) -> Option<Items<'static>>
    ensures { option_map plain_items result ≡ spec.items_in (tree.from_parameter name.now) }
{
    if name == "data" {
        Some(Items::Data)
    } else {
        None
    }
}

/// A list that is written with at most so many scalars as may be.
fn written_items(alloc: Global, args: &Vec<Arg>) -> Result<Option<Items<'_>>, OutOfMemory>
    ensures { IfOk result (λ r. option_map plain_items r
        ≡ option_and_then spec.written_list (spec.scalars_in (plain_args args.now.items))) }
{
    if args.len() > MOST_ELEMENTS {
        return Ok(None);
    }
    let mut scalars = Vec::with_capacity(alloc, args.len())?;
    for arg in args {
        match scalar_in(arg) {
            Some(scalar) => scalars.push(scalar)?,
            None => return Ok(None),
        }
    }
    Ok(Some(Items::Written(scalars)))
}

/// The flag that is written as the argument of a name.
pub fn flag_at(arguments: &Vec<(Text, Arg)>, name: &str) -> Option<bool>
    ensures { result ≡ spec.read spec.flag_in name.now (plain_named arguments.now.items) }
{
    match argument_named(arguments, name)? {
        Arg::Flag(flag) => Some(*flag),
        _ => None,
    }
}

/// Whether null, a flag or a whole number is written.
fn has_literal(arguments: &Vec<(Text, Arg)>, name: &str) -> bool
    ensures { result
        ≡ spec.passes spec.is_scalar_literal name.now (plain_named arguments.now.items) }
{
    match argument_named(arguments, name) {
        Some(Arg::Null) => true,
        Some(Arg::Flag(_)) => true,
        Some(Arg::Whole(whole)) => *whole != i64::MIN,
        _ => false,
    }
}

/// What `condition` asks `count` to count: null the cells that are not null, and true all.
fn counter_at(arguments: &Vec<(Text, Arg)>) -> Option<Reducer>
    ensures { result ≡ spec.read spec.counter_in (codes "condition")
        (plain_named arguments.now.items) }
{
    match argument_named(arguments, "condition")? {
        Arg::Null => Some(Reducer::Count),
        Arg::Flag(true) => Some(Reducer::CountAll),
        _ => None,
    }
}

/// Null, or a whole number not below 0.
fn index_at(arguments: &Vec<(Text, Arg)>) -> Option<Option<u64>>
    ensures { result ≡ spec.read spec.list_index_in (codes "index")
        (plain_named arguments.now.items) }
{
    match argument_named(arguments, "index")? {
        Arg::Null => Some(None),
        Arg::Whole(whole) if *whole >= 0 => Some(Some(*whole as u64)),
        _ => None,
    }
}

/// Null, a text or a whole number.
fn label_at(arguments: &Vec<(Text, Arg)>) -> Option<Option<Label<'_>>>
    ensures { option_map (option_map plain_label) result
        ≡ spec.read spec.label_in (codes "label") (plain_named arguments.now.items) }
{
    match argument_named(arguments, "label")? {
        Arg::Null => Some(None),
        Arg::Str(text) => Some(Some(Label::Text(text.as_str()))),
        Arg::Whole(whole) if *whole != i64::MIN => Some(Some(Label::Whole(*whole))),
        _ => None,
    }
}
