// The shape of a cube with one label of t for each interval, and labels put into their order.
ghost use Rattle.std.specs.Prelude.{◌≡◌, true, IfOk};
ghost use Rattle.oe_dims.specs.Indices.{same_number};
ghost use Rattle.oe_requests.specs.Labels.{is_below, is_above, sorted_labels, are_distinct};
ghost use Rattle.oe_requests.specs.Operations.{shape_of_aggregation};
ghost use Rattle.oe_meanings.specs.Results.{where_within_limits};
ghost use Rattle.oe_meanings.specs.ValidShapes.{AreIntervalLabels, labels_of};

use crate::shape_parts::shape_within;
use oe_dims::{Kind, Shape, copy_bands, copy_numbers};
use oe_memory::OutOfMemory;
use oe_requests::Interval;
use std::alloc::Global;

/// Sorts labels that differ, so that they rise.
pub fn sort_rising(labels: &mut [i64])
    requires differ { are_distinct same_number labels.old ≡ true }
    ensures { labels.new ≡ sorted_labels is_below labels.old }
{
    labels.sort_unstable_by(|a, b| a.cmp(b));
}

/// Sorts labels that differ, so that they fall.
pub fn sort_falling(labels: &mut [i64])
    requires differ { are_distinct same_number labels.old ≡ true }
    ensures { labels.new ≡ sorted_labels is_above labels.old }
{
    labels.sort_unstable_by(|a, b| b.cmp(a));
}

/// The labels of intervals, in the order of these.
pub fn interval_labels(alloc: Global, intervals: &[Interval]) -> Result<Vec<i64>, OutOfMemory>
    ensures { IfOk result (λ labels. labels.items ≡ labels_of intervals.now) }
{
    let mut labels = Vec::with_capacity(alloc, intervals.len())?;
    for index in 0..intervals.len() {
        labels.push(intervals[index].label)?;
    }
    Ok(labels)
}

/// The labels of intervals, which differ, in the order of time.
fn labels_in_order(alloc: Global, intervals: &[Interval]) -> Result<Vec<i64>, OutOfMemory>
    requires differ { are_distinct same_number (labels_of intervals.now) ≡ true }
    ensures { IfOk result (λ labels. labels.items ≡ sorted_labels is_below
        (labels_of intervals.now)) }
{
    let mut labels = interval_labels(alloc, intervals)?;
    sort_rising(labels.as_mut_slice());
    Ok(labels)
}

/// The shape with one label of t for each interval (`aggregate_temporal` of openEO Processes), `None` where it has over
/// 65536 labels of t or over 2^40 cells. Refuses: out of memory.
pub fn shape_of_aggregation(
    alloc: Global,
    intervals: &[Interval],
    shape: &Shape,
) -> Result<Option<Shape>, OutOfMemory>
    requires labels { AreIntervalLabels (labels_of intervals.now) }
    ensures { IfOk result (λ found. found
        ≡ where_within_limits (shape_of_aggregation intervals.now shape.now)) }
{
    let t = labels_in_order(alloc, intervals)?;
    let bands = copy_bands(alloc, shape)?;
    let y = copy_numbers(alloc, shape, Kind::Y)?;
    let x = copy_numbers(alloc, shape, Kind::X)?;
    Ok(shape_within(shape.epsg(), Some(t), bands, y, x))
}
