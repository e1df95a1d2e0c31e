// The calendar periods of a cube's labels of t, as intervals and as labels of a result.
ghost use Rattle.std.specs.Prelude.{◌≡◌, ◌<◌, ◌+◌, IfOk, map};
ghost use Rattle.oe_dims.specs.Dimensions.{IsShape, number_labels};
ghost use Rattle.oe_dims.specs.declared.kind.Kind.TheVariants.{Time};
ghost use Rattle.oe_periods.specs.Calendar.{period_start};
ghost use Rattle.oe_periods.specs.Periods.{ArePeriodsOf, series_numbers};
ghost use Rattle.oe_meanings.specs.Callbacks.{AreIntervals};
ghost use Rattle.oe_requests.specs.Operations.{shape_of_aggregation};
ghost use Rattle.oe_requests.specs.Periods as spec;
ghost use Rattle.oe_meanings.specs.Results.{where_within_limits};

use crate::shape_parts::shape_within;
use oe_dims::{Kind, Shape, copy_bands, copy_numbers};
use oe_memory::OutOfMemory;
use oe_periods::{Period, Periods};
use oe_requests::{Interval, TemporalExtent};
use std::alloc::Global;

/// Most labels of a dimension.
const MOST_LABELS: u32 = 65536;

/// The periods from the one of the first label of t to the one of the last.
fn periods_over(period: Period, shape: &Shape) -> Periods
    ensures value { ArePeriodsOf period (number_labels shape.now Time) result }
    ensures valid { IsShape shape.now }
{
    Periods::over(period, shape.labels(Kind::Time))
}

/// The periods as intervals, each labelled by its start.
pub(crate) fn period_intervals(
    alloc: Global,
    period: Period,
    shape: &Shape,
) -> Result<Vec<Interval>, OutOfMemory>
    ensures value { IfOk result (λ intervals. intervals.items
        ≡ spec.period_intervals period (number_labels shape.now Time)) }
    ensures stand { IfOk result (λ intervals. AreIntervals intervals.items) }
{
    let periods = periods_over(period, shape);
    let mut intervals = Vec::with_capacity(alloc, periods.count() as usize)?;
    for index in 0..periods.count() {
        intervals.push(interval_of(&periods, index))?;
    }
    Ok(intervals)
}

/// One of the periods as an interval.
fn interval_of(periods: &Periods, index: u32) -> Interval
    requires { index < periods.now.count }
    ensures { result ≡ spec.period_interval periods.now.period (periods.now.first + index) }
{
    let start = periods.start(index);
    Interval {
        extent: TemporalExtent {
            start: Some(start),
            end: periods.end(index),
        },
        label: start,
    }
}

/// The shape with one label of t for each period, `None` where it has over 65536 labels of t or over 2^40 cells. So
/// many labels are counted before they are made. Refuses: out of memory.
pub(crate) fn period_shape(
    alloc: Global,
    period: Period,
    shape: &Shape,
) -> Result<Option<Shape>, OutOfMemory>
    ensures { IfOk result (λ found. found ≡ where_within_limits (shape_of_aggregation
        (spec.period_intervals period (number_labels shape.now Time)) shape.now)) }
{
    let periods = periods_over(period, shape);
    if periods.count() > MOST_LABELS {
        return Ok(None);
    }
    let t = period_starts(alloc, &periods)?;
    let bands = copy_bands(alloc, shape)?;
    let y = copy_numbers(alloc, shape, Kind::Y)?;
    let x = copy_numbers(alloc, shape, Kind::X)?;
    Ok(shape_within(shape.epsg(), Some(t), bands, y, x))
}

/// The first instants of periods.
fn period_starts(alloc: Global, periods: &Periods) -> Result<Vec<i64>, OutOfMemory>
    ensures { IfOk result (λ starts. starts.items
        ≡ map (period_start periods.now.period) (series_numbers periods.now)) }
{
    let mut starts = Vec::with_capacity(alloc, periods.count() as usize)?;
    for index in 0..periods.count() {
        starts.push(periods.start(index))?;
    }
    Ok(starts)
}
