// What an argument may hold, by the kind of its parameter.
ghost use Rattle.std.specs.Prelude.{◌≡◌, ◌&&◌, ◌||◌, IfOk, is_some, not};
ghost use Rattle.std.specs.List.{list_all};
ghost use Rattle.std.specs.Option.{option_and_then};
ghost use Rattle.oe_graph.specs.Built as built;
ghost use Rattle.oe_graph.specs.Plain.{plain_arg, plain_args};
ghost use Rattle.oe_graph.specs.Tree as tree;
ghost use Rattle.oe_expr.specs.Requests as cell;
ghost use Rattle.oe_check.specs.Held as held;
ghost use Rattle.oe_requests.specs.Parameters as cube;

use crate::asked::{are_bands, is_box, is_kernel};
use oe_dims::read_instant;
use oe_graph::{Arg, ArgumentKind};
use oe_memory::OutOfMemory;
use oe_periods::period_named;
use oe_requests::{
    is_data, is_empty_list, is_empty_object, is_null, is_null_or_empty_object, is_time_name,
};
use std::alloc::Global;

/// Most elements of a list that is written in a callback.
const MOST_ELEMENTS: usize = 64;

/// Whether an argument is what a parameter of a kind may hold. Refuses: out of memory.
pub(crate) fn may_hold(alloc: Global, kind: ArgumentKind, arg: &Arg) -> Result<bool, OutOfMemory>
    ensures { IfOk result (λ b. b ≡ held.may_hold kind (plain_arg arg.now)) }
{
    match kind {
        ArgumentKind::SpatialExtent => is_box(alloc, arg),
        ArgumentKind::SpatialExtentOrNull => is_box_or_null(alloc, arg),
        ArgumentKind::Bands => are_bands(alloc, arg),
        ArgumentKind::BandsOrNull => are_bands_or_null(alloc, arg),
        ArgumentKind::KernelRows => is_kernel(alloc, arg),
        ArgumentKind::Cube => Ok(is_cube(arg)),
        ArgumentKind::Callback => Ok(is_callback(arg)),
        ArgumentKind::CallbackOrNull => Ok(is_callback_or_null(arg)),
        ArgumentKind::Text => Ok(is_text(arg)),
        ArgumentKind::TextOrNull => Ok(is_text_or_null(arg)),
        ArgumentKind::TemporalExtent => Ok(is_extent(arg)),
        ArgumentKind::TemporalExtentOrNull => Ok(is_extent_or_null(arg)),
        ArgumentKind::Intervals => Ok(are_extents(arg)),
        ArgumentKind::IntervalLabels => Ok(are_instants(arg)),
        ArgumentKind::Whole => Ok(is_whole(arg)),
        ArgumentKind::Border => Ok(is_border(arg)),
        ArgumentKind::ScalarLiteral => Ok(is_scalar_literal(arg)),
        ArgumentKind::EmptyList => Ok(is_empty_list(arg)),
        ArgumentKind::EmptyObject => Ok(is_empty_object(arg)),
        ArgumentKind::EmptyObjectOrNull => Ok(is_null_or_empty_object(arg)),
        ArgumentKind::Number | ArgumentKind::Flag | ArgumentKind::Cell => Ok(is_scalar(arg)),
        ArgumentKind::Numbers | ArgumentKind::Flags | ArgumentKind::Cells => Ok(are_items(arg)),
        ArgumentKind::FlagLiteral => Ok(is_flag(arg)),
        ArgumentKind::Null => Ok(is_null(arg)),
        ArgumentKind::TrueOrNull => Ok(is_true_or_null(arg)),
        ArgumentKind::IndexOrNull => Ok(is_index_or_null(arg)),
        ArgumentKind::LabelOrNull => Ok(is_label_or_null(arg)),
        ArgumentKind::Period => Ok(is_period(arg)),
        ArgumentKind::TimeName => Ok(is_time_name(arg)),
        ArgumentKind::Data => Ok(is_data(arg)),
    }
}

// ---- null, and what may be null

/// A box or null.
#[tactic(auto, using(crate::proofs::Tests::or_null))]
fn is_box_or_null(alloc: Global, arg: &Arg) -> Result<bool, OutOfMemory>
    ensures { IfOk result (λ b. b ≡ is_some (cube.null_or cube.box_in (plain_arg arg.now))) }
{
    let held = is_box(alloc, arg)?;
    Ok(is_null(arg) || held)
}

/// A list of bands, not empty, or null.
#[tactic(auto, using(crate::proofs::Tests::or_null, crate::proofs::Tests::some_bands))]
fn are_bands_or_null(alloc: Global, arg: &Arg) -> Result<bool, OutOfMemory>
    ensures { IfOk result
        (λ b. b ≡ is_some (cube.null_or cube.some_bands_in (plain_arg arg.now))) }
{
    let held = are_bands(alloc, arg)?;
    Ok(is_null(arg) || held && !is_empty_list(arg))
}

/// A callback or null.
#[tactic(auto, using(crate::proofs::Tests::or_null))]
fn is_callback_or_null(arg: &Arg) -> bool
    ensures { result ≡ is_some (cube.null_or cube.callback_in (plain_arg arg.now)) }
{
    is_null(arg) || is_callback(arg)
}

/// A text or null.
#[tactic(auto, using(crate::proofs::Tests::or_null))]
fn is_text_or_null(arg: &Arg) -> bool
    ensures { result ≡ is_some (cube.null_or cube.text_in (plain_arg arg.now)) }
{
    is_null(arg) || is_text(arg)
}

/// A pair or null.
#[tactic(auto, using(crate::proofs::Tests::or_null))]
fn is_extent_or_null(arg: &Arg) -> bool
    ensures { result ≡ is_some (cube.null_or cube.extent_in (plain_arg arg.now)) }
{
    is_null(arg) || is_extent(arg)
}

// ---- names of periods, of t and of the list of a callback

/// The name of a calendar period.
fn is_period(arg: &Arg) -> bool
    ensures { result ≡ is_some (cube.period_in (plain_arg arg.now)) }
{
    match arg {
        Arg::Str(name) => period_named(name.as_str()).is_some(),
        _ => false,
    }
}

// ---- references, texts, numbers and literals

/// A reference to a node.
fn is_cube(arg: &Arg) -> bool
    ensures { result ≡ is_some (cube.cube_in (plain_arg arg.now)) }
{
    matches!(arg, Arg::FromNode(_))
}

/// A callback.
fn is_callback(arg: &Arg) -> bool
    ensures { result ≡ is_some (cube.callback_in (plain_arg arg.now)) }
{
    matches!(arg, Arg::Callback(_))
}

/// A text.
fn is_text(arg: &Arg) -> bool
    ensures { result ≡ is_some (cube.text_in (plain_arg arg.now)) }
{
    matches!(arg, Arg::Str(_))
}

/// A whole number that a cell may hold.
fn is_literal(whole: i64) -> bool
    ensures { result ≡ built.is_literal whole }
{
    whole != i64::MIN
}

/// A whole number.
#[tactic(auto, using(crate::proofs::Tests::where_some))]
fn is_whole(arg: &Arg) -> bool
    ensures { result ≡ is_some (cube.whole_in (plain_arg arg.now)) }
{
    match arg {
        Arg::Whole(whole) => is_literal(*whole),
        _ => false,
    }
}

/// The name of a border rule.
fn is_border_name(name: &str) -> bool
    ensures { result ≡ is_some (cube.border_named name.now) }
{
    if name == "replicate" {
        true
    } else if name == "reflect" {
        true
    } else if name == "reflect_pixel" {
        true
    } else {
        name == "wrap"
    }
}

/// A number, or the name of a border rule.
#[tactic(auto, using(crate::proofs::Tests::border_some))]
fn is_border(arg: &Arg) -> bool
    ensures { result ≡ is_some (cube.border_in (plain_arg arg.now)) }
{
    match arg {
        Arg::Str(name) => is_border_name(name.as_str()),
        Arg::Whole(whole) => is_literal(*whole),
        _ => false,
    }
}

/// Null, a flag or a whole number.
fn is_scalar_literal(arg: &Arg) -> bool
    ensures { result ≡ cell.is_scalar_literal (plain_arg arg.now) }
{
    match arg {
        Arg::Null => true,
        Arg::Flag(_) => true,
        Arg::Whole(whole) => is_literal(*whole),
        _ => false,
    }
}

/// A flag that is written as such.
fn is_flag(arg: &Arg) -> bool
    ensures { result ≡ is_some (cell.flag_in (plain_arg arg.now)) }
{
    matches!(arg, Arg::Flag(_))
}

/// Null or true.
fn is_true_or_null(arg: &Arg) -> bool
    ensures { result ≡ is_some (cell.counter_in (plain_arg arg.now)) }
{
    match arg {
        Arg::Null => true,
        Arg::Flag(true) => true,
        _ => false,
    }
}

/// Null, or a whole number not below 0.
fn is_index_or_null(arg: &Arg) -> bool
    ensures { result ≡ is_some (cell.list_index_in (plain_arg arg.now)) }
{
    match arg {
        Arg::Null => true,
        Arg::Whole(whole) if *whole >= 0 => true,
        _ => false,
    }
}

/// Null, a text or a whole number.
fn is_label_or_null(arg: &Arg) -> bool
    ensures { result ≡ is_some (cell.label_in (plain_arg arg.now)) }
{
    match arg {
        Arg::Null => true,
        Arg::Str(_) => true,
        Arg::Whole(whole) => is_literal(*whole),
        _ => false,
    }
}

// ---- instants and extents

/// An instant.
fn is_instant(arg: &Arg) -> bool
    ensures { result ≡ is_some (cube.instant_in (plain_arg arg.now)) }
{
    match arg {
        Arg::Str(text) => spells_instant(text.as_str()),
        _ => false,
    }
}

/// The text spells an instant.
fn spells_instant(text: &str) -> bool
    ensures { result ≡ is_some (cube.instant_in (tree.text text.now)) }
{
    read_instant(text).is_ok()
}

/// An instant or null.
#[tactic(auto, using(crate::proofs::Tests::or_null))]
fn is_end(arg: &Arg) -> bool
    ensures { result ≡ is_some (cube.null_or cube.instant_in (plain_arg arg.now)) }
{
    is_null(arg) || is_instant(arg)
}

/// Two ends, not both null.
#[tactic(auto, using(crate::proofs::Tests::extent_some))]
fn are_ends(start: &Arg, end: &Arg) -> bool
    ensures { result ≡ is_some (cube.extent_of (plain_arg start.now) (plain_arg end.now)) }
{
    is_end(start) && is_end(end) && !(is_null(start) && is_null(end))
}

/// The list is a pair of ends.
#[tactic(auto, using(crate::proofs::Tests::no_pair))]
fn is_pair(ends: &Vec<Arg>) -> bool
    ensures { result ≡ is_some (cube.extent_in (tree.list (plain_args ends.now.items))) }
{
    if ends.len() != 2 {
        return false;
    }
    are_ends(&ends[0], &ends[1])
}

/// A pair: a list of two ends.
fn is_extent(arg: &Arg) -> bool
    ensures { result ≡ is_some (cube.extent_in (plain_arg arg.now)) }
{
    match arg {
        Arg::List(ends) => is_pair(ends),
        _ => false,
    }
}

/// Each of the list is a pair.
fn are_all_pairs(args: &[Arg]) -> bool
    ensures { result ≡ list_all (λ a. is_some (cube.extent_in (plain_arg a))) args.now }
{
    args.iter().all(|arg| is_extent(arg))
}

/// The same, as lists are read.
fn are_pairs(args: &[Arg]) -> bool
    ensures { result ≡ is_some (cube.each_in cube.extent_in (plain_args args.now)) }
{
    are_all_pairs(args)
}

/// A list of pairs.
fn are_extents(arg: &Arg) -> bool
    ensures { result ≡ is_some (cube.list_in cube.extent_in (plain_arg arg.now)) }
{
    match arg {
        Arg::List(args) => are_pairs(args),
        _ => false,
    }
}

/// Each of the list is an instant.
fn are_all_instants(args: &[Arg]) -> bool
    ensures { result ≡ list_all (λ a. is_some (cube.instant_in (plain_arg a))) args.now }
{
    args.iter().all(|arg| is_instant(arg))
}

/// The same, as lists are read.
fn are_labels(args: &[Arg]) -> bool
    ensures { result ≡ is_some (cube.each_in cube.instant_in (plain_args args.now)) }
{
    are_all_instants(args)
}

/// A list of instants.
fn are_instants(arg: &Arg) -> bool
    ensures { result ≡ is_some (cube.list_in cube.instant_in (plain_arg arg.now)) }
{
    match arg {
        Arg::List(args) => are_labels(args),
        _ => false,
    }
}

// ---- cells of callbacks

/// A parameter that is a cell.
#[tactic(auto, using(crate::proofs::Tests::scalar_names))]
fn is_scalar_parameter(name: &str) -> bool
    ensures { result ≡ is_some (cell.scalar_parameter name.now) }
{
    name == "x" || name == "y" || name == "context"
}

/// A cell.
#[tactic(auto, using(crate::proofs::Tests::whole_some))]
fn is_scalar(arg: &Arg) -> bool
    ensures { result ≡ is_some (cell.scalar_in (plain_arg arg.now)) }
{
    match arg {
        Arg::Null => true,
        Arg::Flag(_) => true,
        Arg::Whole(whole) => is_literal(*whole),
        Arg::FromNode(_) => true,
        Arg::FromParameter(name) => is_scalar_parameter(name.as_str()),
        _ => false,
    }
}

/// Each of the list is a cell.
fn are_scalars(args: &[Arg]) -> bool
    ensures { result ≡ list_all (λ a. is_some (cell.scalar_in (plain_arg a))) args.now }
{
    args.iter().all(|arg| is_scalar(arg))
}

/// Cells, as many as a list may have that is written.
#[tactic(auto, using(crate::proofs::Tests::written_few, crate::proofs::Tests::written_many))]
fn are_written(args: &[Arg]) -> bool
    ensures { result
        ≡ is_some (option_and_then cell.written_list (cell.scalars_in (plain_args args.now))) }
{
    if args.len() > MOST_ELEMENTS {
        return false;
    }
    are_scalars(args)
}

/// The parameter that is a list of cells.
fn is_list_parameter(name: &str) -> bool
    ensures { result ≡ is_some (cell.items_in (tree.from_parameter name.now)) }
{
    name == "data"
}

/// A list of cells.
fn are_items(arg: &Arg) -> bool
    ensures { result ≡ is_some (cell.items_in (plain_arg arg.now)) }
{
    match arg {
        Arg::List(args) => are_written(args),
        Arg::FromParameter(name) => is_list_parameter(name.as_str()),
        _ => false,
    }
}
