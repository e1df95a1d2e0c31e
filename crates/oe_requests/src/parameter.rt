// What the parameters of the processes on cubes may hold, one reader for each kind of parameter.
ghost use Rattle.std.specs.Prelude.{◌≡◌, codes, map};
ghost use Rattle.std.specs.List.{list_all};
ghost use Rattle.std.specs.Option.{option_map, option_and_then};
ghost use Rattle.oe_dims.specs.Names.{same_name};
ghost use Rattle.oe_graph.specs.Plain.{plain_arg, plain_args, plain_graph, plain_named};
ghost use Rattle.oe_graph.specs.Tree as tree;
ghost use Rattle.oe_expr.specs.Requests as requests;
ghost use Rattle.oe_expr.specs.Requests.{passes, read};
ghost use Rattle.oe_requests.specs.Parameters as spec;

use crate::extent::TemporalExtent;
use oe_cell::{Cell, Frac, whole_cell};
use oe_dims::{Text, is_name, read_instant};
use oe_graph::{Arg, Graph, argument_named};
use oe_kernel::Border;
use oe_periods::{Period, period_named};

// ---- references, texts, numbers and literals

/// A cube, by the node that it is the result of.
pub(crate) fn cube_at<'a>(arguments: &'a Vec<(Text, Arg)>, name: &str) -> Option<&'a str>
    ensures { option_map (λ s. s.now) result
        ≡ read spec.cube_in name.now (plain_named arguments.now.items) }
{
    match argument_named(arguments, name)? {
        Arg::FromNode(id) => Some(id.as_str()),
        _ => None,
    }
}

/// A callback.
pub(crate) fn callback_at<'a>(arguments: &'a Vec<(Text, Arg)>, name: &str) -> Option<&'a Graph>
    ensures { option_map (λ g. plain_graph g.now) result
        ≡ read spec.callback_in name.now (plain_named arguments.now.items) }
{
    match argument_named(arguments, name)? {
        Arg::Callback(graph) => Some(graph),
        _ => None,
    }
}

/// A callback or null.
pub(crate) fn callback_or_null_at<'a>(
    arguments: &'a Vec<(Text, Arg)>,
    name: &str,
) -> Option<Option<&'a Graph>>
    ensures { option_map (option_map (λ g. plain_graph g.now)) result
        ≡ read (spec.null_or spec.callback_in) name.now (plain_named arguments.now.items) }
{
    match argument_named(arguments, name)? {
        Arg::Null => Some(None),
        Arg::Callback(graph) => Some(Some(graph)),
        _ => None,
    }
}

/// A text.
pub(crate) fn text_at<'a>(arguments: &'a Vec<(Text, Arg)>, name: &str) -> Option<&'a str>
    ensures { option_map (λ s. s.now) result
        ≡ read spec.text_in name.now (plain_named arguments.now.items) }
{
    match argument_named(arguments, name)? {
        Arg::Str(text) => Some(text.as_str()),
        _ => None,
    }
}

/// A text or null.
pub(crate) fn text_or_null_at<'a>(
    arguments: &'a Vec<(Text, Arg)>,
    name: &str,
) -> Option<Option<&'a str>>
    ensures { option_map (option_map (λ s. s.now)) result
        ≡ read (spec.null_or spec.text_in) name.now (plain_named arguments.now.items) }
{
    match argument_named(arguments, name)? {
        Arg::Null => Some(None),
        Arg::Str(text) => Some(Some(text.as_str())),
        _ => None,
    }
}

/// The name of a calendar period.
pub(crate) fn period_at(arguments: &Vec<(Text, Arg)>, name: &str) -> Option<Period>
    ensures { result ≡ read spec.period_in name.now (plain_named arguments.now.items) }
{
    period_in(argument_named(arguments, name)?)
}

/// A calendar period by its name.
fn period_in(arg: &Arg) -> Option<Period>
    ensures { result ≡ spec.period_in (plain_arg arg.now) }
{
    match arg {
        Arg::Str(name) => period_named(name.as_str()),
        _ => None,
    }
}

/// The name of t.
fn names_time(name: &str) -> bool
    ensures { result ≡ same_name name.now (codes "t") }
{
    name == "t"
}

/// Whether an argument is the name of t.
pub fn is_time_name(arg: &Arg) -> bool
    ensures { result ≡ spec.is_time_name (plain_arg arg.now) }
{
    match arg {
        Arg::Str(name) => names_time(name.as_str()),
        _ => false,
    }
}

/// Whether the argument of a name is the name of t.
#[tactic(auto, using(crate::proofs::ReadingLemmas::passes_by))]
pub(crate) fn has_time_name(arguments: &Vec<(Text, Arg)>, name: &str) -> bool
    ensures { result ≡ passes spec.is_time_name name.now (plain_named arguments.now.items) }
{
    match argument_named(arguments, name) {
        Some(arg) => is_time_name(arg),
        None => false,
    }
}

/// Whether an argument is null.
pub fn is_null(arg: &Arg) -> bool
    ensures { result ≡ requests.is_null (plain_arg arg.now) }
{
    matches!(arg, Arg::Null)
}

/// Whether the argument of a name is null.
#[tactic(auto, using(crate::proofs::ReadingLemmas::passes_by))]
pub(crate) fn has_null(arguments: &Vec<(Text, Arg)>, name: &str) -> bool
    ensures { result ≡ passes requests.is_null name.now (plain_named arguments.now.items) }
{
    match argument_named(arguments, name) {
        Some(arg) => is_null(arg),
        None => false,
    }
}

/// A whole number that a cell may hold.
pub(crate) fn whole_in(arg: &Arg) -> Option<i64>
    ensures { result ≡ spec.whole_in (plain_arg arg.now) }
{
    match arg {
        Arg::Whole(whole) => literal_of(*whole),
        _ => None,
    }
}

/// A number that a cell may hold.
fn literal_of(whole: i64) -> Option<i64>
    ensures { result ≡ spec.whole_in (tree.whole whole) }
{
    if whole == i64::MIN {
        return None;
    }
    Some(whole)
}

/// A whole number, as a number of a cell.
pub(crate) fn number_in(arg: &Arg) -> Option<Frac>
    ensures { result ≡ spec.number_in (plain_arg arg.now) }
{
    match arg {
        Arg::Whole(whole) => number_of(*whole),
        _ => None,
    }
}

/// The number of a cell that is a whole number.
fn number_of(whole: i64) -> Option<Frac>
    ensures { result ≡ spec.number_in (tree.whole whole) }
{
    if whole == i64::MIN {
        return None;
    }
    Some(Frac::whole(whole))
}

pub(crate) fn number_at(arguments: &Vec<(Text, Arg)>, name: &str) -> Option<Frac>
    ensures { result ≡ read spec.number_in name.now (plain_named arguments.now.items) }
{
    number_in(argument_named(arguments, name)?)
}

/// A scalar literal: null, a flag or a whole number.
pub(crate) fn literal_at(arguments: &Vec<(Text, Arg)>, name: &str) -> Option<Cell>
    ensures { result ≡ read spec.literal_in name.now (plain_named arguments.now.items) }
{
    match argument_named(arguments, name)? {
        Arg::Null => Some(Cell::Empty),
        Arg::Flag(flag) => Some(Cell::Flag(*flag)),
        Arg::Whole(whole) => cell_of(*whole),
        _ => None,
    }
}

/// The cell of a whole number.
fn cell_of(whole: i64) -> Option<Cell>
    ensures { result ≡ spec.literal_in (tree.whole whole) }
{
    if whole == i64::MIN {
        return None;
    }
    Some(whole_cell(whole))
}

/// The list is empty.
fn lacks_arguments(args: &[Arg]) -> bool
    ensures { result ≡ spec.is_empty_list (tree.list (plain_args args.now)) }
{
    args.is_empty()
}

/// The object is empty.
fn lacks_members(members: &Vec<(Text, Arg)>) -> bool
    ensures { result ≡ spec.is_empty_object (tree.object (plain_named members.now.items)) }
{
    members.as_slice().is_empty()
}

/// Whether an argument is the empty list.
pub fn is_empty_list(arg: &Arg) -> bool
    ensures { result ≡ spec.is_empty_list (plain_arg arg.now) }
{
    match arg {
        Arg::List(args) => lacks_arguments(args),
        _ => false,
    }
}

/// Whether an argument is the empty object.
pub fn is_empty_object(arg: &Arg) -> bool
    ensures { result ≡ spec.is_empty_object (plain_arg arg.now) }
{
    match arg {
        Arg::Object(members) => lacks_members(members),
        _ => false,
    }
}

/// Whether an argument is null or the empty object.
pub fn is_null_or_empty_object(arg: &Arg) -> bool
    ensures { result ≡ spec.is_null_or_empty_object (plain_arg arg.now) }
{
    match arg {
        Arg::Null => true,
        Arg::Object(members) => lacks_members(members),
        _ => false,
    }
}

/// Whether the argument of a name is the empty list.
#[tactic(auto, using(crate::proofs::ReadingLemmas::passes_by))]
pub(crate) fn has_empty_list(arguments: &Vec<(Text, Arg)>, name: &str) -> bool
    ensures { result ≡ passes spec.is_empty_list name.now (plain_named arguments.now.items) }
{
    match argument_named(arguments, name) {
        Some(arg) => is_empty_list(arg),
        None => false,
    }
}

/// Whether the argument of a name is the empty object.
#[tactic(auto, using(crate::proofs::ReadingLemmas::passes_by))]
pub(crate) fn has_empty_object(arguments: &Vec<(Text, Arg)>, name: &str) -> bool
    ensures { result ≡ passes spec.is_empty_object name.now (plain_named arguments.now.items) }
{
    match argument_named(arguments, name) {
        Some(arg) => is_empty_object(arg),
        None => false,
    }
}

/// Whether the argument of a name is null or the empty object.
#[tactic(auto, using(crate::proofs::ReadingLemmas::passes_by))]
pub(crate) fn has_null_or_empty_object(arguments: &Vec<(Text, Arg)>, name: &str) -> bool
    ensures { result
        ≡ passes spec.is_null_or_empty_object name.now (plain_named arguments.now.items) }
{
    match argument_named(arguments, name) {
        Some(arg) => is_null_or_empty_object(arg),
        None => false,
    }
}

// ---- names, instants and extents

/// A valid name.
pub(crate) fn name_in(arg: &Arg) -> Option<&Text>
    ensures { option_map (λ t. t.now) result ≡ spec.name_in (plain_arg arg.now) }
{
    match arg {
        Arg::Str(text) => valid_name(text),
        _ => None,
    }
}

/// A text that is a valid name.
fn valid_name(text: &Text) -> Option<&Text>
    ensures { option_map (λ t. t.now) result ≡ spec.name_in (tree.text text.now) }
{
    if is_name(text.as_str()) {
        Some(text)
    } else {
        None
    }
}

/// An instant, in either spelling.
pub(crate) fn instant_in(arg: &Arg) -> Option<i64>
    ensures { result ≡ spec.instant_in (plain_arg arg.now) }
{
    match arg {
        Arg::Str(text) => instant_of(text.as_str()),
        _ => None,
    }
}

/// The instant that a text spells.
fn instant_of(text: &str) -> Option<i64>
    ensures { result ≡ spec.instant_in (tree.text text.now) }
{
    match read_instant(text) {
        Ok(seconds) => Some(seconds),
        Err(_) => None,
    }
}

/// An instant or null.
fn instant_or_null(arg: &Arg) -> Option<Option<i64>>
    ensures { result ≡ spec.null_or spec.instant_in (plain_arg arg.now) }
{
    match arg {
        Arg::Null => Some(None),
        Arg::Str(text) => Some(Some(instant_of(text.as_str())?)),
        _ => None,
    }
}

/// A pair: a list of two, each an instant or null, not both null.
pub(crate) fn extent_in(arg: &Arg) -> Option<TemporalExtent>
    ensures { result ≡ spec.extent_in (plain_arg arg.now) }
{
    match arg {
        Arg::List(ends) => pair_of(ends),
        _ => None,
    }
}

/// The extent of a list of two ends.
#[tactic(auto, using(crate::proofs::ReadingLemmas::no_pair))]
fn pair_of(ends: &Vec<Arg>) -> Option<TemporalExtent>
    ensures { result ≡ spec.extent_in (tree.list (plain_args ends.now.items)) }
{
    if ends.len() != 2 {
        return None;
    }
    extent_of(&ends[0], &ends[1])
}

/// The extent of two ends.
fn extent_of(start: &Arg, end: &Arg) -> Option<TemporalExtent>
    ensures { result ≡ spec.extent_of (plain_arg start.now) (plain_arg end.now) }
{
    let start = instant_or_null(start)?;
    let end = instant_or_null(end)?;
    if start.is_none() && end.is_none() {
        return None;
    }
    Some(TemporalExtent { start, end })
}

pub(crate) fn extent_at(arguments: &Vec<(Text, Arg)>, name: &str) -> Option<TemporalExtent>
    ensures { result ≡ read spec.extent_in name.now (plain_named arguments.now.items) }
{
    extent_in(argument_named(arguments, name)?)
}

/// An extent or null.
pub(crate) fn extent_or_null_at(
    arguments: &Vec<(Text, Arg)>,
    name: &str,
) -> Option<Option<TemporalExtent>>
    ensures { result
        ≡ read (spec.null_or spec.extent_in) name.now (plain_named arguments.now.items) }
{
    match argument_named(arguments, name)? {
        Arg::Null => Some(None),
        Arg::List(ends) => Some(Some(pair_of(ends)?)),
        _ => None,
    }
}

// ---- borders

/// The border rule of a name.
fn border_named(name: &str) -> Option<Border>
    ensures { result ≡ spec.border_named name.now }
{
    if name == "replicate" {
        Some(Border::Replicate)
    } else if name == "reflect" {
        Some(Border::Reflect)
    } else if name == "reflect_pixel" {
        Some(Border::ReflectPixel)
    } else if name == "wrap" {
        Some(Border::Wrap)
    } else {
        None
    }
}

/// A number, or the name of a border rule.
pub(crate) fn border_at(arguments: &Vec<(Text, Arg)>, name: &str) -> Option<Border>
    ensures { result ≡ read spec.border_in name.now (plain_named arguments.now.items) }
{
    match argument_named(arguments, name)? {
        Arg::Str(text) => border_named(text.as_str()),
        Arg::Whole(whole) => Some(Border::Value(number_of(*whole)?)),
        _ => None,
    }
}
