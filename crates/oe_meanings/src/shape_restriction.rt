// The shape of a cube of which a part is kept.
ghost use Rattle.std.specs.Prelude.{◌≡◌, IfOk, IfSome, filter};
ghost use Rattle.std.specs.Option.{option_map};
ghost use Rattle.oe_dims.specs.Lists.{items_of};
ghost use Rattle.oe_requests.specs.Extents as spec;
ghost use Rattle.oe_requests.specs.PlainRequests.{plain_restriction};
ghost use Rattle.oe_meanings.specs.Results.{where_within_limits};
ghost use Rattle.oe_meanings.specs.ValidShapes.{AreBands};

use crate::extents::is_in_time;
use crate::shape_parts::shape_within;
use oe_dims::{Kind, Shape, Text, copy_bands, copy_numbers, copy_texts};
use oe_memory::OutOfMemory;
use oe_requests::{BoundingBox, Restriction, TemporalExtent};
use std::alloc::Global;

/// The labels inside a temporal extent, in their order.
fn labels_in_time(
    alloc: Global,
    extent: TemporalExtent,
    labels: &[i64],
) -> Result<Vec<i64>, OutOfMemory>
    ensures { IfOk result (λ kept. kept.items ≡ filter (spec.is_in_time extent) labels.now) }
{
    let mut kept = Vec::with_capacity(alloc, labels.len())?;
    for index in 0..labels.len() {
        let label = labels[index];
        if is_in_time(extent, label) {
            kept.push(label)?;
        }
    }
    Ok(kept)
}

/// The labels of t inside a temporal extent, all where there is none.
fn kept_instants(
    alloc: Global,
    time: Option<TemporalExtent>,
    shape: &Shape,
) -> Result<Option<Vec<i64>>, OutOfMemory>
    ensures { IfOk result (λ kept. option_map items_of kept
        ≡ spec.kept_labels spec.is_in_time time shape.now.t) }
{
    match time {
        None => copy_numbers(alloc, shape, Kind::Time),
        Some(extent) => match shape.count(Kind::Time) {
            None => Ok(None),
            Some(_) => Ok(Some(labels_in_time(alloc, extent, shape.labels(Kind::Time))?)),
        },
    }
}

/// The labels of y inside a box, all where there is none.
fn kept_up(
    alloc: Global,
    area: Option<BoundingBox>,
    shape: &Shape,
) -> Result<Option<Vec<i64>>, OutOfMemory>
    ensures { IfOk result (λ kept. option_map items_of kept
        ≡ spec.kept_labels spec.is_up area shape.now.y) }
{
    match area {
        None => copy_numbers(alloc, shape, Kind::Y),
        Some(area) => match shape.count(Kind::Y) {
            None => Ok(None),
            Some(_) => {
                let (first, end) = shape.range_of(Kind::Y, area.south, area.north);
                let labels = shape.labels(Kind::Y);
                Ok(Some(Vec::from_slice(alloc, &labels[first as usize..end as usize])?))
            }
        },
    }
}

/// The labels of x inside a box, all where there is none.
fn kept_across(
    alloc: Global,
    area: Option<BoundingBox>,
    shape: &Shape,
) -> Result<Option<Vec<i64>>, OutOfMemory>
    ensures { IfOk result (λ kept. option_map items_of kept
        ≡ spec.kept_labels spec.is_across area shape.now.x) }
{
    match area {
        None => copy_numbers(alloc, shape, Kind::X),
        Some(area) => match shape.count(Kind::X) {
            None => Ok(None),
            Some(_) => {
                let (first, end) = shape.range_of(Kind::X, area.west, area.east);
                let labels = shape.labels(Kind::X);
                Ok(Some(Vec::from_slice(alloc, &labels[first as usize..end as usize])?))
            }
        },
    }
}

/// The given bands, all where none are given, `None` where the shape has no bands.
fn kept_bands(
    alloc: Global,
    given: &Option<Vec<Text>>,
    shape: &Shape,
) -> Result<Option<Vec<Text>>, OutOfMemory>
    ensures { IfOk result (λ kept. option_map items_of kept
        ≡ spec.kept_bands (option_map items_of given.now) shape.now.bands) }
{
    match given {
        None => copy_bands(alloc, shape),
        Some(names) => match shape.count(Kind::Bands) {
            None => Ok(None),
            Some(_) => Ok(Some(copy_texts(alloc, names.as_slice())?)),
        },
    }
}

/// The shape of what is kept of a cube (`load_collection` and the filters of openEO Processes), `None` where it has
/// over 65536 bands or over 2^40 cells. Refuses: out of memory.
pub fn shape_of_restriction(
    alloc: Global,
    restriction: &Restriction,
    shape: &Shape,
) -> Result<Option<Shape>, OutOfMemory>
    requires bands { IfSome (plain_restriction restriction.now).bands AreBands }
    ensures { IfOk result (λ found. found ≡ where_within_limits
        (spec.shape_of_restriction (plain_restriction restriction.now) shape.now)) }
{
    let t = kept_instants(alloc, restriction.time, shape)?;
    let bands = kept_bands(alloc, &restriction.bands, shape)?;
    let y = kept_up(alloc, restriction.area, shape)?;
    let x = kept_across(alloc, restriction.area, shape)?;
    Ok(shape_within(shape.epsg(), t, bands, y, x))
}
