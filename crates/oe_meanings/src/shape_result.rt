// The shape of what a request gives.
ghost use Rattle.std.specs.Prelude.{◌≡◌, Some, None, map, IfOk, IfSome};
ghost use Rattle.std.specs.Option.{option_map};
ghost use Rattle.oe_requests.specs.Extents as extents;
ghost use Rattle.oe_requests.specs.PlainRequests.{plain_cube_request};
ghost use Rattle.oe_meanings.specs.Results.{HasValidLabels, IsResultShape, where_within_limits};
ghost use Rattle.oe_meanings.specs.ValidShapes.{AreBands};

use crate::operation_request::{copy_bands, kept_part};
use crate::shape_aggregation::shape_of_aggregation;
use crate::shape_merge::shape_of_merge;
use crate::shape_periods::period_shape;
use crate::shape_restriction::shape_of_restriction;
use crate::shape_without::without;
use crate::words::dimension_named;
use oe_dims::{Shape, Text};
use oe_memory::OutOfMemory;
use oe_requests::{BoundingBox, Request, Restriction, TemporalExtent};
use std::alloc::Global;

/// The shape of what a load keeps of its collection.
fn loaded_shape(
    alloc: Global,
    area: Option<BoundingBox>,
    time: Option<TemporalExtent>,
    bands: &Option<Vec<&Text>>,
    shape: &Shape,
) -> Result<Option<Shape>, OutOfMemory>
    requires bands { IfSome (option_map (λ names. map (λ name. name.now) names.items) bands.now)
        AreBands }
    ensures { IfOk result (λ found. found ≡ where_within_limits (extents.shape_of_restriction
        (record {
          box = area;
          time = time;
          bands = option_map (λ names. map (λ name. name.now) names.items) bands.now;
        }) shape.now)) }
{
    let part = kept_part(alloc, area, time, bands)?;
    shape_of_restriction(alloc, &part, shape)
}

/// The shape inside a box.
fn shape_in_box(
    alloc: Global,
    area: BoundingBox,
    shape: &Shape,
) -> Result<Option<Shape>, OutOfMemory>
    ensures { IfOk result (λ found. found ≡ where_within_limits (extents.shape_of_restriction
        (record { box = Some area; time = None; bands = None }) shape.now)) }
{
    let part = Restriction {
        area: Some(area),
        time: None,
        bands: None,
    };
    shape_of_restriction(alloc, &part, shape)
}

/// The shape inside a temporal extent.
fn shape_in_time(
    alloc: Global,
    time: TemporalExtent,
    shape: &Shape,
) -> Result<Option<Shape>, OutOfMemory>
    ensures { IfOk result (λ found. found ≡ where_within_limits (extents.shape_of_restriction
        (record { box = None; time = Some time; bands = None }) shape.now)) }
{
    let part = Restriction {
        area: None,
        time: Some(time),
        bands: None,
    };
    shape_of_restriction(alloc, &part, shape)
}

/// The shape with the given bands.
fn shape_of_bands(
    alloc: Global,
    bands: &Vec<&Text>,
    shape: &Shape,
) -> Result<Option<Shape>, OutOfMemory>
    requires bands { AreBands (map (λ name. name.now) bands.now.items) }
    ensures { IfOk result (λ found. found ≡ where_within_limits (extents.shape_of_restriction
        (record { box = None; time = None; bands = Some (map (λ name. name.now) bands.now.items) })
        shape.now)) }
{
    let part = Restriction {
        area: None,
        time: None,
        bands: Some(copy_bands(alloc, bands)?),
    };
    shape_of_restriction(alloc, &part, shape)
}

/// The shape as it is.
#[tactic(auto, using(crate::proofs::ResultLemmas::valid_within))]
fn same_shape(shape: &Shape) -> Result<Option<Shape>, OutOfMemory>
    ensures { IfOk result (λ found. found ≡ where_within_limits shape.now) }
{
    Ok(Some(shape.copy()?))
}

/// The shape of what a request gives, `None` where it has over 65536 labels along a dimension or over 2^40 cells. `two`
/// is the shape of the second cube of a merge; another request does not look at it.
///
/// Refuses: out of memory.
pub fn result_shape(
    alloc: Global,
    request: &Request<'_>,
    one: &Shape,
    two: &Shape,
) -> Result<Option<Shape>, OutOfMemory>
    requires labels { HasValidLabels (plain_cube_request request.now) }
    ensures { IfOk result (IsResultShape (plain_cube_request request.now) one.now two.now) }
{
    match request {
        Request::LoadCollection {
            area,
            time,
            bands,
            ..
        } => loaded_shape(alloc, *area, *time, bands, one),
        Request::FilterBbox { area, .. } => shape_in_box(alloc, *area, one),
        Request::FilterTemporal { time, .. } => shape_in_time(alloc, *time, one),
        Request::FilterBands { bands, .. } => shape_of_bands(alloc, bands, one),
        Request::ReduceDimension { dimension, .. } => match dimension_named(dimension) {
            Some(kind) => without(alloc, kind, one),
            None => Ok(None),
        },
        Request::AggregateTemporal { intervals, .. } => {
            shape_of_aggregation(alloc, intervals.as_slice(), one)
        }
        Request::AggregateTemporalPeriod { period, .. } => period_shape(alloc, *period, one),
        Request::MergeCubes { .. } => shape_of_merge(alloc, one, two),
        Request::Apply { .. } => same_shape(one),
        Request::ApplyDimension { .. } => same_shape(one),
        Request::ApplyKernel { .. } => same_shape(one),
        Request::Mask { .. } => same_shape(one),
        Request::SaveResult { .. } => same_shape(one),
    }
}
