// `aggregate_temporal`: the lists of cells inside each interval by a callback.
ghost use Rattle.std.specs.Prelude.{◌≡◌, true, ◌+◌, ◌*◌, ◌<◌, ◌≤◌, Some, length, slice_get};
ghost use Rattle.std.specs.List.{All};
ghost use Rattle.oe_cell.specs.declared.cell.Cell.{Cell};
ghost use Rattle.oe_cell.specs.declared.cell.Cell.TheVariants.{Empty};
ghost use Rattle.oe_cube.specs.Kinds.{IsOfKind};
ghost use Rattle.oe_dims.specs.Indices.{same_number};
ghost use Rattle.oe_dims.specs.declared.kind.Kind.{Kind};
ghost use Rattle.oe_expr.specs.Callback.{callback_kind};
ghost use Rattle.oe_requests.specs.Labels.{are_distinct};
ghost use Rattle.oe_meanings.specs.Meaning.{aggregated};
ghost use Rattle.oe_meanings.specs.ValidShapes.{labels_of};
ghost use Rattle.oe_requests.specs.declared.extent.Interval.{Interval};
ghost use Rattle.oe_window.specs.Cells.{cells_on};
ghost use Rattle.oe_window.specs.Windows.{IsAlong, extent_along};
ghost use Rattle.oe_ops.specs.Calls.{ForEachCube, HasRoomOn, IsAggregation, IsSliceFor};
ghost use Rattle.oe_ops.specs.Lists.{interval_labelled, is_labelled_at};
ghost use Rattle.oe_ops.specs.Needs.{HasLabelsBeside, part_at_time};

use crate::list::{ListRows, stride_along};
use crate::needs::span_at;
use crate::rows::{fill, index_after};
use crate::slice::{Slice, indices};
use oe_cell::Cell;
use oe_dims::{Kind, Shape};
use oe_expr::Expr;
use oe_meanings::part_in_time;
use oe_requests::{Interval, Intervals, TemporalExtent};
use oe_window::Window;

/// The interval has a label.
fn has_label(interval: &Interval, label: i64) -> bool
    ensures { result ≡ same_number interval.now.label label }
{
    interval.label == label
}

/// There is an interval of the number, and it has the label.
fn has_label_at(intervals: &[Interval], number: usize, label: i64) -> bool
    ensures { result ≡ is_labelled_at intervals.now number label }
{
    match intervals.get(number) {
        Some(interval) => has_label(interval, label),
        None => false,
    }
}

/// The number of the first interval with a label; how many there are, where none has it.
fn first_interval_of(intervals: &[Interval], label: i64) -> usize
    ensures { slice_get intervals.now result ≡ interval_labelled intervals.now label }
{
    for number in 0..intervals.len() {
        if has_label(&intervals[number], label) {
            return number;
        }
    }
    intervals.len()
}

/// The same, where no two intervals have one label. The number `near` is looked at first.
fn interval_near(intervals: &[Interval], label: i64, near: usize) -> usize
    requires differ { are_distinct same_number (labels_of intervals.now) ≡ true }
    ensures { slice_get intervals.now result ≡ interval_labelled intervals.now label }
{
    if has_label_at(intervals, near, label) {
        near
    } else {
        first_interval_of(intervals, label)
    }
}

/// The same for the label of an index of the result, whose labels are those of the intervals in their order.
fn interval_of(intervals: &Intervals, label: i64, index: u32) -> usize
    requires differ { are_distinct same_number (labels_of intervals.now) ≡ true }
    ensures { slice_get intervals.now result ≡ interval_labelled intervals.now label }
{
    interval_near(intervals.as_slice(), label, intervals.near(index))
}

/// The extent of an interval.
fn extent_at(intervals: &Intervals, number: usize) -> TemporalExtent
    requires { number < length intervals.now }
    ensures { (i : Interval) → slice_get intervals.now number ≡ Some i
        → result ≡ i.extent }
{
    intervals.as_slice()[number].extent
}

/// The values of the callback on a window with one index along `t`: the lists are those inside the interval of its
/// label.
fn eval_interval(
    intervals: &Intervals,
    expr: &Expr,
    shape: &Shape,
    argument: &Shape,
    slice: Slice,
    window: &Window,
    out: &mut [Cell],
    scratch: &mut [Cell],
)
    requires aggregation { IsAggregation intervals.now expr.now shape.now argument.now slice }
    requires slice { IsSliceFor (HasLabelsBeside Kind.Time shape.now argument.now)
        window.now argument.now slice }
    requires out { HasRoomOn shape.now window.now out.old }
    requires one { window.now.t.to ≡ window.now.t.from + 1 }
    requires some { 0 < length out.old }
    requires room { 192 + 2 * extent_along argument.now Kind.Time ≤ length scratch.old }
    ensures value { ForEachCube argument.now slice.entry
        (λ cube. out.new ≡ cells_on Empty (aggregated intervals.now expr.now cube) window.now) }
    ensures kinds { All (IsOfKind (callback_kind expr.now)) out.new }
{
    let label = shape.label_at(Kind::Time, window.t.from);
    let list = interval_of(intervals, label, window.t.from);
    let part = part_in_time(&extent_at(intervals, list), argument.labels(Kind::Time));
    let rows = ListRows {
        expr,
        slice,
        along: Kind::Time,
        from: part.from,
        count: part.to.saturating_sub(part.from) as usize,
        list: list as u32,
    };
    fill(&rows, window, out, scratch);
}

/// The part of a window at an index along `t`.
fn window_at(window: &Window, t: u32) -> Window
    requires { IsAlong window.now.t t }
    ensures { result ≡ part_at_time window.now t }
{
    Window {
        t: span_at(window.t, t),
        bands: window.bands,
        y: window.y,
        x: window.x,
    }
}

/// The values of a callback on the lists inside each interval of a cube of the shape `argument`, on a window of the
/// result, which has the shape `shape`, from a slice of the cube (`aggregate_temporal` of openEO Processes). `scratch`
/// has 192 cells at least and two more for each label of `t`.
pub fn eval_aggregate(
    intervals: &Intervals,
    expr: &Expr,
    shape: &Shape,
    argument: &Shape,
    slice: Slice,
    window: &Window,
    out: &mut [Cell],
    scratch: &mut [Cell],
)
    requires aggregation { IsAggregation intervals.now expr.now shape.now argument.now slice }
    requires slice { IsSliceFor (HasLabelsBeside Kind.Time shape.now argument.now)
        window.now argument.now slice }
    requires out { HasRoomOn shape.now window.now out.old }
    requires room { 192 + 2 * extent_along argument.now Kind.Time ≤ length scratch.old }
    ensures value { ForEachCube argument.now slice.entry
        (λ cube. out.new ≡ cells_on Empty (aggregated intervals.now expr.now cube) window.now) }
    ensures kinds { All (IsOfKind (callback_kind expr.now)) out.new }
{
    if out.is_empty() {
        return;
    }
    eval_intervals(
        intervals, expr, shape, argument, slice, window, out, scratch,
    );
}

/// The same, where there is a position.
fn eval_intervals(
    intervals: &Intervals,
    expr: &Expr,
    shape: &Shape,
    argument: &Shape,
    slice: Slice,
    window: &Window,
    out: &mut [Cell],
    scratch: &mut [Cell],
)
    requires aggregation { IsAggregation intervals.now expr.now shape.now argument.now slice }
    requires slice { IsSliceFor (HasLabelsBeside Kind.Time shape.now argument.now)
        window.now argument.now slice }
    requires out { HasRoomOn shape.now window.now out.old }
    requires some { 0 < length out.old }
    requires room { 192 + 2 * extent_along argument.now Kind.Time ≤ length scratch.old }
    ensures value { ForEachCube argument.now slice.entry
        (λ cube. out.new ≡ cells_on Empty (aggregated intervals.now expr.now cube) window.now) }
    ensures kinds { All (IsOfKind (callback_kind expr.now)) out.new }
{
    let area = stride_along(window, Kind::Time);
    for number in 0..indices(window.t) {
        let part = window_at(window, index_after(window.t, number));
        let first = number * area;
        eval_interval(
            intervals,
            expr,
            shape,
            argument,
            slice,
            &part,
            &mut out[first..first + area],
            scratch,
        );
    }
}
