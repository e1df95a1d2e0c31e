// Lists, as arguments give them: bands, intervals and kernels.
ghost use Rattle.std.specs.Prelude.{◌≡◌, IfOk, codes, map, length, ◌==◌};
ghost use Rattle.std.specs.List.{list_all, flat_map};
ghost use Rattle.std.specs.Option.{option_map, option_and_then};
ghost use Rattle.oe_dims.specs.Dimensions.{all_differ};
ghost use Rattle.oe_dims.specs.Names.{names_rise};
ghost use Rattle.oe_graph.specs.Plain.{plain_arg, plain_args, plain_named};
ghost use Rattle.oe_graph.specs.Tree as tree;
ghost use Rattle.oe_expr.specs.Requests.{read};
ghost use Rattle.oe_requests.specs.Parameters as spec;
ghost use Rattle.oe_requests.specs.PlainRequests.{plain_kernel};
ghost use Rattle.oe_requests.specs.Requests.{intervals_in};

use crate::extent::{Interval, TemporalExtent};
use crate::parameter::{extent_in, instant_in, name_in, number_in};
use crate::request::KernelRows;
use oe_cell::Frac;
use oe_dims::{Text, is_name_before};
use oe_graph::{Arg, argument_named};
use oe_memory::OutOfMemory;
use std::alloc::Global;

// ---- bands

/// A list of valid names.
fn names_of(alloc: Global, args: &Vec<Arg>) -> Result<Option<Vec<&Text>>, OutOfMemory>
    ensures { IfOk result (λ r. option_map (λ names. map (λ n. n.now) names.items) r
        ≡ spec.each_in spec.name_in (plain_args args.now.items)) }
{
    let mut names = Vec::with_capacity(alloc, args.len())?;
    for arg in args {
        match name_in(arg) {
            Some(name) => names.push(name)?,
            None => return Ok(None),
        }
    }
    Ok(Some(names))
}

/// Each name stands before the next.
fn rise(names: &[&Text]) -> bool
    ensures { result ≡ names_rise (map (λ n. n.now) names.now) }
{
    for index in 1..names.len() {
        if !is_name_before(names[index - 1].as_str(), names[index].as_str()) {
            return false;
        }
    }
    true
}

/// No name occurs twice, by putting them into order.
fn all_differ(alloc: Global, names: &Vec<&Text>) -> Result<bool, OutOfMemory>
    ensures { IfOk result (λ b. b ≡ all_differ (map (λ n. n.now) names.now.items)) }
{
    let mut sorted = Vec::with_capacity(alloc, names.len())?;
    sorted.extend_from_slice(names)?;
    sorted.sort_unstable_by(|a, b| a.as_str().cmp(b.as_str()));
    Ok(rise(&sorted))
}

/// A list of valid names, none of them twice.
fn bands_of(alloc: Global, args: &Vec<Arg>) -> Result<Option<Vec<&Text>>, OutOfMemory>
    ensures { IfOk result (λ r. option_map (λ names. map (λ n. n.now) names.items) r
        ≡ spec.bands_in (tree.list (plain_args args.now.items))) }
{
    let Some(names) = names_of(alloc, args)? else {
        return Ok(None);
    };
    if all_differ(alloc, &names)? {
        Ok(Some(names))
    } else {
        Ok(None)
    }
}

/// The bands of a name: a list of valid names, none of them twice.
pub(crate) fn bands_at<'a>(
    alloc: Global,
    arguments: &'a Vec<(Text, Arg)>,
    name: &str,
) -> Result<Option<Vec<&'a Text>>, OutOfMemory>
    ensures { IfOk result (λ r. option_map (λ names. map (λ n. n.now) names.items) r
        ≡ read spec.bands_in name.now (plain_named arguments.now.items)) }
{
    match argument_named(arguments, name) {
        Some(Arg::List(args)) => bands_of(alloc, args),
        _ => Ok(None),
    }
}

/// The same, but not empty.
fn some_bands_of(alloc: Global, args: &Vec<Arg>) -> Result<Option<Vec<&Text>>, OutOfMemory>
    ensures { IfOk result (λ r. option_map (λ names. map (λ n. n.now) names.items) r
        ≡ spec.some_bands_in (tree.list (plain_args args.now.items))) }
{
    match bands_of(alloc, args)? {
        Some(names) if !names.is_empty() => Ok(Some(names)),
        _ => Ok(None),
    }
}

/// The bands of a name, of which there is one at least, or null.
pub(crate) fn some_bands_or_null_at<'a>(
    alloc: Global,
    arguments: &'a Vec<(Text, Arg)>,
    name: &str,
) -> Result<Option<Option<Vec<&'a Text>>>, OutOfMemory>
    ensures { IfOk result (λ r.
        option_map (option_map (λ names. map (λ n. n.now) names.items)) r
        ≡ read (spec.null_or spec.some_bands_in) name.now (plain_named arguments.now.items)) }
{
    match argument_named(arguments, name) {
        Some(Arg::Null) => Ok(Some(None)),
        Some(Arg::List(args)) => match some_bands_of(alloc, args)? {
            Some(names) => Ok(Some(Some(names))),
            None => Ok(None),
        },
        _ => Ok(None),
    }
}

// ---- intervals

/// A list of extents.
fn extents_of(alloc: Global, args: &Vec<Arg>) -> Result<Option<Vec<TemporalExtent>>, OutOfMemory>
    ensures { IfOk result (λ r. option_map (λ extents. extents.items) r
        ≡ spec.each_in spec.extent_in (plain_args args.now.items)) }
{
    let mut extents = Vec::with_capacity(alloc, args.len())?;
    for arg in args {
        match extent_in(arg) {
            Some(extent) => extents.push(extent)?,
            None => return Ok(None),
        }
    }
    Ok(Some(extents))
}

/// A list of instants.
fn instants_of(alloc: Global, args: &Vec<Arg>) -> Result<Option<Vec<i64>>, OutOfMemory>
    ensures { IfOk result (λ r. option_map (λ instants. instants.items) r
        ≡ spec.each_in spec.instant_in (plain_args args.now.items)) }
{
    let mut instants = Vec::with_capacity(alloc, args.len())?;
    for arg in args {
        match instant_in(arg) {
            Some(instant) => instants.push(instant)?,
            None => return Ok(None),
        }
    }
    Ok(Some(instants))
}

/// Each extent with its start, which is to be given.
fn by_starts(
    alloc: Global,
    extents: &Vec<TemporalExtent>,
) -> Result<Option<Vec<Interval>>, OutOfMemory>
    ensures { IfOk result (λ r. option_map (λ intervals. intervals.items) r
        ≡ spec.by_starts extents.now.items) }
{
    let mut intervals = Vec::with_capacity(alloc, extents.len())?;
    for extent in extents {
        match extent.start {
            Some(label) => intervals.push(Interval {
                extent: *extent,
                label,
            })?,
            None => return Ok(None),
        }
    }
    Ok(Some(intervals))
}

/// Each extent with the label at its index, of as many.
fn by_labels(
    alloc: Global,
    extents: &[TemporalExtent],
    labels: &[i64],
) -> Result<Option<Vec<Interval>>, OutOfMemory>
    ensures { IfOk result (λ r. option_map (λ intervals. intervals.items) r
        ≡ spec.by_labels extents.now labels.now) }
{
    if extents.len() != labels.len() {
        return Ok(None);
    }
    let mut intervals = Vec::with_capacity(alloc, extents.len())?;
    for index in 0..extents.len() {
        intervals.push(Interval {
            extent: extents[index],
            label: labels[index],
        })?;
    }
    Ok(Some(intervals))
}

/// The intervals of extents by their labels, or by their starts where there are no labels.
fn intervals_of(
    alloc: Global,
    extents: &Vec<TemporalExtent>,
    labels: &Vec<i64>,
) -> Result<Option<Vec<Interval>>, OutOfMemory>
    ensures { IfOk result (λ r. option_map (λ intervals. intervals.items) r
        ≡ spec.intervals_of extents.now.items labels.now.items) }
{
    if labels.is_empty() {
        by_starts(alloc, extents)
    } else {
        by_labels(alloc, extents, labels)
    }
}

/// The extents of a name.
fn extents_at(
    alloc: Global,
    arguments: &Vec<(Text, Arg)>,
    name: &str,
) -> Result<Option<Vec<TemporalExtent>>, OutOfMemory>
    ensures { IfOk result (λ r. option_map (λ extents. extents.items) r
        ≡ read (spec.list_in spec.extent_in) name.now (plain_named arguments.now.items)) }
{
    match argument_named(arguments, name) {
        Some(Arg::List(args)) => extents_of(alloc, args),
        _ => Ok(None),
    }
}

/// The instants of a name.
fn instants_at(
    alloc: Global,
    arguments: &Vec<(Text, Arg)>,
    name: &str,
) -> Result<Option<Vec<i64>>, OutOfMemory>
    ensures { IfOk result (λ r. option_map (λ instants. instants.items) r
        ≡ read (spec.list_in spec.instant_in) name.now (plain_named arguments.now.items)) }
{
    match argument_named(arguments, name) {
        Some(Arg::List(args)) => instants_of(alloc, args),
        _ => Ok(None),
    }
}

/// The intervals of `aggregate_temporal` with their labels.
pub(crate) fn intervals_in(
    alloc: Global,
    arguments: &Vec<(Text, Arg)>,
) -> Result<Option<Vec<Interval>>, OutOfMemory>
    ensures { IfOk result (λ r. option_map (λ intervals. intervals.items) r
        ≡ intervals_in (plain_named arguments.now.items)) }
{
    let Some(extents) = extents_at(alloc, arguments, "intervals")? else {
        return Ok(None);
    };
    let Some(labels) = instants_at(alloc, arguments, "labels")? else {
        return Ok(None);
    };
    intervals_of(alloc, &extents, &labels)
}

// ---- kernels

/// A list of numbers.
fn numbers_of(alloc: Global, args: &Vec<Arg>) -> Result<Option<Vec<Frac>>, OutOfMemory>
    ensures { IfOk result (λ r. option_map (λ numbers. numbers.items) r
        ≡ spec.each_in spec.number_in (plain_args args.now.items)) }
{
    let mut numbers = Vec::with_capacity(alloc, args.len())?;
    for arg in args {
        match number_in(arg) {
            Some(number) => numbers.push(number)?,
            None => return Ok(None),
        }
    }
    Ok(Some(numbers))
}

/// A row of numbers.
fn numbers_in(alloc: Global, arg: &Arg) -> Result<Option<Vec<Frac>>, OutOfMemory>
    ensures { IfOk result (λ r. option_map (λ numbers. numbers.items) r
        ≡ spec.list_in spec.number_in (plain_arg arg.now)) }
{
    match arg {
        Arg::List(args) => numbers_of(alloc, args),
        _ => Ok(None),
    }
}

/// A list of rows.
fn rows_of(alloc: Global, args: &Vec<Arg>) -> Result<Option<Vec<Vec<Frac>>>, OutOfMemory>
    ensures { IfOk result (λ r. option_map (λ rows. map (λ row. row.items) rows.items) r
        ≡ spec.each_in (spec.list_in spec.number_in) (plain_args args.now.items)) }
{
    let mut rows = Vec::with_capacity(alloc, args.len())?;
    for arg in args {
        match numbers_in(alloc, arg)? {
            Some(row) => rows.push(row)?,
            None => return Ok(None),
        }
    }
    Ok(Some(rows))
}

/// The values of rows, one row after the other.
fn values_of(alloc: Global, rows: &[Vec<Frac>]) -> Result<Vec<Frac>, OutOfMemory>
    ensures { IfOk result (λ v. v.items
        ≡ flat_map (λ values. values) (map (λ row. row.items) rows.now)) }
{
    let mut values = Vec::with_capacity(alloc, rows.len())?;
    for row in rows {
        values.extend_from_slice(row)?;
    }
    Ok(values)
}

/// How many values a row has.
fn width_of(row: &Vec<Frac>) -> usize
    ensures { result ≡ length row.now.items }
{
    row.as_slice().len()
}

/// The row has so many values.
fn is_of_width(row: &Vec<Frac>, width: usize) -> bool
    ensures { result ≡ (length row.now.items == width) }
{
    width_of(row) == width
}

/// Each row has so many values.
fn are_of_width(rows: &[Vec<Frac>], width: usize) -> bool
    ensures { result ≡ list_all (λ row. length row.items == width) rows.now }
{
    rows.iter().all(|row| is_of_width(row, width))
}

/// The kernel of rows that have as many values each as the first, one at least.
fn kernel_of(alloc: Global, rows: &[Vec<Frac>]) -> Result<Option<KernelRows>, OutOfMemory>
    ensures { IfOk result (λ r. option_map plain_kernel r
        ≡ spec.kernel_of (map (λ row. row.items) rows.now)) }
{
    let Some((first, others)) = rows.split_first() else {
        return Ok(None);
    };
    let width = width_of(first);
    if width == 0 || !are_of_width(others, width) {
        return Ok(None);
    }
    Ok(Some(KernelRows {
        width,
        height: rows.len(),
        values: values_of(alloc, rows)?,
    }))
}

/// The kernel of a list of rows.
fn kernel_from(alloc: Global, args: &Vec<Arg>) -> Result<Option<KernelRows>, OutOfMemory>
    ensures { IfOk result (λ r. option_map plain_kernel r
        ≡ spec.kernel_in (tree.list (plain_args args.now.items))) }
{
    match rows_of(alloc, args)? {
        Some(rows) => kernel_of(alloc, &rows),
        None => Ok(None),
    }
}

/// The kernel of a name: a list of rows, each a list of whole numbers.
pub(crate) fn kernel_at(
    alloc: Global,
    arguments: &Vec<(Text, Arg)>,
    name: &str,
) -> Result<Option<KernelRows>, OutOfMemory>
    ensures { IfOk result (λ r. option_map plain_kernel r
        ≡ read spec.kernel_in name.now (plain_named arguments.now.items)) }
{
    match argument_named(arguments, name) {
        Some(Arg::List(args)) => kernel_from(alloc, args),
        _ => Ok(None),
    }
}
