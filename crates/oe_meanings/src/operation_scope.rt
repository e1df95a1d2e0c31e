// What an operation gives its callback to see.
ghost use Rattle.std.specs.Prelude.{◌≡◌, ◌≤◌, true, not, IfOk, length, map, count_by};
ghost use Rattle.oe_dims.specs.Dimensions.{IsShape, most_labels, rises};
ghost use Rattle.oe_dims.specs.Plain.{plain_labels};
ghost use Rattle.oe_expr.specs.Scope.{IsScope, count_labels, plain_scope};
ghost use Rattle.oe_meanings.specs.Callbacks.{AreIntervals};
ghost use Rattle.oe_requests.specs.Extents as extent;
ghost use Rattle.oe_requests.specs.Operations as spec;

use oe_dims::{CellKind, Kind, Labels, Shape, copy_texts};
use oe_expr::{ListPart, Scope};
use oe_memory::OutOfMemory;
use oe_requests::{Interval, TemporalExtent};
use std::alloc::Global;

/// The labels along a dimension.
fn labels_along(alloc: Global, along: Kind, shape: &Shape) -> Result<Labels, OutOfMemory>
    ensures { IfOk result (λ labels. plain_labels labels ≡ spec.labels_along along shape.now) }
{
    match along {
        Kind::Time => Ok(Labels::Instants(Vec::from_slice(alloc, shape.labels(Kind::Time))?)),
        Kind::Bands => Ok(Labels::Names(copy_texts(alloc, shape.bands())?)),
        Kind::Y => Ok(Labels::Places(Vec::from_slice(alloc, shape.labels(Kind::Y))?)),
        Kind::X => Ok(Labels::Places(Vec::from_slice(alloc, shape.labels(Kind::X))?)),
    }
}

/// How many labels a dimension has.
fn label_count(along: Kind, shape: &Shape) -> u32
    ensures count { result ≡ count_labels (spec.labels_along along shape.now) }
    ensures valid { IsShape shape.now }
{
    match along {
        Kind::Time => shape.labels(Kind::Time).len() as u32,
        Kind::Bands => shape.bands().len() as u32,
        Kind::Y => shape.labels(Kind::Y).len() as u32,
        Kind::X => shape.labels(Kind::X).len() as u32,
    }
}

/// One list, with all labels of a dimension.
pub(crate) fn reduction_scope(
    alloc: Global,
    along: Kind,
    shape: &Shape,
    kind: CellKind,
) -> Result<Scope, OutOfMemory>
    ensures value { IfOk result (λ scope. plain_scope scope
        ≡ spec.reduction_scope along (record { shape = shape.now; kind = kind })) }
    ensures valid { IfOk result (λ scope. IsScope (plain_scope scope)) }
{
    let count = label_count(along, shape);
    let mut lists = Vec::with_capacity(alloc, 1)?;
    lists.push(ListPart { from: 0, to: count })?;
    Ok(Scope::Reduce {
        cells: kind,
        labels: labels_along(alloc, along, shape)?,
        lists,
    })
}

/// The instant is not before the start of an extent.
fn has_begun(time: &TemporalExtent, label: i64) -> bool
    ensures { result ≡ extent.has_begun time.now label }
{
    match time.start {
        Some(start) => start <= label,
        None => true,
    }
}

/// The instant is before the end of an extent.
fn has_not_ended(time: &TemporalExtent, label: i64) -> bool
    ensures { result ≡ extent.has_not_ended time.now label }
{
    match time.end {
        Some(end) => label < end,
        None => true,
    }
}

/// How many labels are before the start of an extent, among labels that rise.
fn count_before(time: &TemporalExtent, labels: &[i64]) -> usize
    requires { rises labels.now ≡ true }
    ensures within { result ≤ length labels.now }
    ensures count { result ≡ count_by (λ l. not (extent.has_begun time.now l)) labels.now }
{
    labels.partition_point(|label| !has_begun(time, *label))
}

/// How many labels are before the end of an extent, among labels that rise.
fn count_until(time: &TemporalExtent, labels: &[i64]) -> usize
    requires { rises labels.now ≡ true }
    ensures within { result ≤ length labels.now }
    ensures count { result ≡ count_by (extent.has_not_ended time.now) labels.now }
{
    labels.partition_point(|label| has_not_ended(time, *label))
}

/// The indices of the labels inside an extent, among labels that rise.
pub fn part_in_time(time: &TemporalExtent, labels: &[i64]) -> ListPart
    requires rise { rises labels.now ≡ true }
    requires most { length labels.now ≤ most_labels }
    ensures { result ≡ extent.part_in_time time.now labels.now }
{
    ListPart {
        from: count_before(time, labels) as u32,
        to: count_until(time, labels) as u32,
    }
}

/// The lists of intervals, among labels that rise.
fn parts_in_time(
    alloc: Global,
    intervals: &[Interval],
    labels: &[i64],
) -> Result<Vec<ListPart>, OutOfMemory>
    requires rise { rises labels.now ≡ true }
    requires most { length labels.now ≤ most_labels }
    ensures { IfOk result (λ v. v.items
        ≡ map (λ i. extent.part_in_time i.extent labels.now) intervals.now) }
{
    let mut lists = Vec::with_capacity(alloc, intervals.len())?;
    for interval in intervals {
        lists.push(part_in_time(&interval.extent, labels))?;
    }
    Ok(lists)
}

/// One list for each interval, with the labels inside.
pub(crate) fn interval_scope(
    alloc: Global,
    intervals: &[Interval],
    shape: &Shape,
    kind: CellKind,
) -> Result<Scope, OutOfMemory>
    requires { AreIntervals intervals.now }
    ensures value { IfOk result (λ scope. plain_scope scope
        ≡ spec.interval_scope intervals.now (record { shape = shape.now; kind = kind })) }
    ensures valid { IfOk result (λ scope. IsScope (plain_scope scope)) }
{
    let labels = shape.labels(Kind::Time);
    let lists = parts_in_time(alloc, intervals, labels)?;
    Ok(Scope::Reduce {
        cells: kind,
        labels: Labels::Instants(Vec::from_slice(alloc, labels)?),
        lists,
    })
}
