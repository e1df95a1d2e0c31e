// The first fault of a node that the faults of its callback wait for.
ghost use Rattle.std.specs.Prelude.{◌≡◌, ◌&&◌, ◌||◌, not, false, ℕ, List, Option, map, is_some, IfOk};
ghost use Rattle.std.specs.Option.{option_copied, option_map, option_map_or};
ghost use Rattle.oe_cell.specs.Fraction.{Fraction};
ghost use Rattle.oe_cell.specs.declared.cell.Cell.{Cell};
ghost use Rattle.oe_dims.specs.Dimensions.{Dimensions};
ghost use Rattle.oe_dims.specs.declared.kind.Kind.TheVariants.{Time, Bands};
ghost use Rattle.oe_graph.specs.Tree.{PlainGraph};
ghost use Rattle.oe_kernel.specs.declared.border.Border.{Border};
ghost use Rattle.oe_periods.specs.declared.calendar.Period.{Period};
ghost use Rattle.oe_check.specs.Early.{IsEarlyFault};
ghost use Rattle.oe_requests.specs.Extents as extents;
ghost use Rattle.oe_requests.specs.PlainRequests.{plain_kernel, plain_cube_request};
ghost use Rattle.oe_requests.specs.Requests as request;
ghost use Rattle.oe_meanings.specs.Rows as row;
ghost use Rattle.oe_meanings.specs.Words as word;

use crate::faults_of_labels::{
    differ_in_dimensions, differs_from_data, have_distinct_labels, is_even, is_over_largest,
    lacks_a_band, share_tuple,
};
use oe_dims::{Kind, Shape, Text};
use oe_graph::Code;
use oe_meanings::{
    has_empty_interval, is_empty_extent, is_in_another, lacks, lacks_named, lacks_plane,
    names_other,
};
use oe_memory::OutOfMemory;
use oe_requests::{BoundingBox, Called, Interval, KernelRows, Request, TemporalExtent};
use std::alloc::Global;

/// The box is in another reference system than the cube.
fn is_box_in_another(area: Option<BoundingBox>, shape: &Shape) -> bool
    ensures { result ≡ option_map_or (row.is_in_another shape.now) area false }
{
    match area {
        None => false,
        Some(area) => is_in_another(shape, area),
    }
}

/// The temporal extent is empty.
fn is_time_empty(time: Option<TemporalExtent>) -> bool
    ensures { result ≡ option_map_or extents.is_empty_extent time false }
{
    match time {
        None => false,
        Some(time) => is_empty_extent(time),
    }
}

/// A band is given that the cube lacks.
fn lacks_given_band(
    alloc: Global,
    bands: &Option<Vec<&Text>>,
    shape: &Shape,
) -> Result<bool, OutOfMemory>
    ensures { IfOk result (λ lacks. lacks
        ≡ option_map_or (row.lacks_a_band shape.now)
        (option_map (λ names. map (λ name. name.now) names.items) bands.now) false) }
{
    match bands {
        None => Ok(false),
        Some(names) => lacks_a_band(alloc, shape, names.as_slice()),
    }
}

/// The cube lacks a dimension that the parts of a load need.
fn lacks_needed(
    area: Option<BoundingBox>,
    time: Option<TemporalExtent>,
    bands: &Option<Vec<&Text>>,
    shape: &Shape,
) -> bool
    ensures { result ≡ ((is_some area && word.lacks_plane shape.now)
        || (is_some time && word.lacks_dimension Time shape.now)
        || (is_some bands.now && word.lacks_dimension Bands shape.now)) }
{
    (area.is_some() && lacks_plane(shape))
        || (time.is_some() && lacks(Kind::Time, shape))
        || (bands.is_some() && lacks(Kind::Bands, shape))
}

/// `load_collection`, where there is a collection of the id.
fn load_fault(
    alloc: Global,
    area: Option<BoundingBox>,
    time: Option<TemporalExtent>,
    bands: &Option<Vec<&Text>>,
    shape: &Shape,
) -> Result<Option<Code>, OutOfMemory>
    ensures { (id : List ℕ) (two : Dimensions) → IfOk result (IsEarlyFault
        (request.load_collection id area time
        (option_map (λ names. map (λ name. name.now) names.items) bands.now)) shape.now two) }
{
    let lacks_band = lacks_given_band(alloc, bands, shape)?;
    Ok(if is_box_in_another(area, shape) {
        Some(Code::CrsUnsupported)
    } else if lacks_needed(area, time, bands, shape) {
        Some(Code::DimensionNotAvailable)
    } else if is_time_empty(time) {
        Some(Code::TemporalExtentEmpty)
    } else if lacks_band {
        Some(Code::BandNotAvailable)
    } else {
        None
    })
}

/// `filter_bbox`.
fn filter_bbox_fault(area: BoundingBox, shape: &Shape) -> Option<Code>
    ensures { (id : List ℕ) (two : Dimensions)
        → IsEarlyFault (request.filter_bbox id area)
        shape.now two result }
{
    if is_in_another(shape, area) {
        Some(Code::CrsUnsupported)
    } else if lacks_plane(shape) {
        Some(Code::DimensionNotAvailable)
    } else {
        None
    }
}

/// `filter_temporal`.
fn filter_temporal_fault(
    time: TemporalExtent,
    dimension: Option<&str>,
    shape: &Shape,
) -> Option<Code>
    ensures { (id : List ℕ) (two : Dimensions) → IsEarlyFault
        (request.filter_temporal id time (option_copied dimension.entry)) shape.now two result }
{
    if lacks(Kind::Time, shape) || names_other(dimension) {
        Some(Code::DimensionNotAvailable)
    } else if is_empty_extent(time) {
        Some(Code::TemporalExtentEmpty)
    } else {
        None
    }
}

/// `filter_bands`.
fn filter_bands_fault(
    alloc: Global,
    bands: &[&Text],
    shape: &Shape,
) -> Result<Option<Code>, OutOfMemory>
    ensures { (id : List ℕ) (two : Dimensions)
        → IfOk result (IsEarlyFault (request.filter_bands id (map (λ name. name.now) bands.now))
        shape.now two) }
{
    let lacks_band = lacks_a_band(alloc, shape, bands)?;
    let is_given = !bands.is_empty();
    Ok(if is_given && lacks(Kind::Bands, shape) {
        Some(Code::DimensionNotAvailable)
    } else if !is_given {
        Some(Code::BandFilterParameterMissing)
    } else if lacks_band {
        Some(Code::BandNotAvailable)
    } else {
        None
    })
}

/// `apply_kernel`.
fn kernel_fault(kernel: &KernelRows, shape: &Shape) -> Option<Code>
    ensures { (id : List ℕ) (factor replace : Fraction) (border : Border) (two : Dimensions)
        → IsEarlyFault (request.apply_kernel id (plain_kernel kernel.now) factor border replace)
        shape.now two result }
{
    if lacks_plane(shape) {
        Some(Code::DimensionNotAvailable)
    } else if is_even(kernel.width) || is_even(kernel.height) {
        Some(Code::KernelDimensionsUneven)
    } else if is_over_largest(kernel.width) || is_over_largest(kernel.height) {
        Some(Code::KernelTooLarge)
    } else {
        None
    }
}

/// `reduce_dimension`.
fn reduce_fault(dimension: &str, shape: &Shape) -> Option<Code>
    ensures { (id : List ℕ) (c : request.Called) (two : Dimensions)
        → IsEarlyFault (request.reduce_dimension id dimension.now c)
        shape.now two result }
{
    if lacks_named(dimension, shape) {
        Some(Code::DimensionNotAvailable)
    } else {
        None
    }
}

/// `aggregate_temporal`.
fn aggregate_fault(
    alloc: Global,
    intervals: &[Interval],
    dimension: Option<&str>,
    shape: &Shape,
) -> Result<Option<Code>, OutOfMemory>
    ensures { (id : List ℕ) (c : request.Called) (two : Dimensions)
        → IfOk result (IsEarlyFault (request.aggregate_temporal id intervals.now
        (option_copied dimension.entry) c) shape.now two) }
{
    let differ = have_distinct_labels(alloc, intervals)?;
    Ok(if lacks(Kind::Time, shape) || names_other(dimension) {
        Some(Code::DimensionNotAvailable)
    } else if has_empty_interval(intervals) {
        Some(Code::TemporalExtentEmpty)
    } else if !differ {
        Some(Code::DistinctDimensionLabelsRequired)
    } else {
        None
    })
}

/// `aggregate_temporal_period`.
fn period_fault(dimension: Option<&str>, shape: &Shape) -> Option<Code>
    ensures { (id : List ℕ) (period : Period) (c : request.Called) (two : Dimensions)
        → IsEarlyFault (request.aggregate_temporal_period id period
        (option_copied dimension.entry) c) shape.now two result }
{
    if lacks(Kind::Time, shape) || names_other(dimension) {
        Some(Code::DimensionNotAvailable)
    } else {
        None
    }
}

/// `apply_dimension`.
fn apply_dimension_fault(shape: &Shape) -> Option<Code>
    ensures { (id : List ℕ) (process : PlainGraph) (two : Dimensions)
        → IsEarlyFault (request.apply_dimension id process) shape.now two result }
{
    if lacks(Kind::Time, shape) {
        Some(Code::DimensionNotAvailable)
    } else {
        None
    }
}

/// A merge has no resolver and needs one. Where it has one, no label is looked at.
fn lacks_resolver(
    alloc: Global,
    has_resolver: bool,
    one: &Shape,
    two: &Shape,
) -> Result<bool, OutOfMemory>
    ensures { IfOk result (λ lacks. lacks
        ≡ (not has_resolver && word.share_tuple one.now two.now)) }
{
    if has_resolver {
        return Ok(false);
    }
    share_tuple(alloc, one, two)
}

/// `merge_cubes`.
fn merge_fault(
    alloc: Global,
    has_resolver: bool,
    one: &Shape,
    two: &Shape,
) -> Result<Option<Code>, OutOfMemory>
    ensures { (id other : List ℕ) (resolver : Option request.Called)
        → has_resolver ≡ is_some resolver
        → IfOk result (IsEarlyFault (request.merge_cubes id other resolver) one.now two.now) }
{
    let differ = differ_in_dimensions(alloc, one, two)?;
    let lacks = lacks_resolver(alloc, has_resolver, one, two)?;
    Ok(if differ {
        Some(Code::MergeDimensionsDiffer)
    } else if lacks {
        Some(Code::OverlapResolverMissing)
    } else {
        None
    })
}

/// `mask`.
fn mask_fault(alloc: Global, shape: &Shape, mask: &Shape) -> Result<Option<Code>, OutOfMemory>
    ensures { (id other : List ℕ) (replacement : Cell)
        → IfOk result (IsEarlyFault (request.mask id other replacement)
        shape.now mask.now) }
{
    let differs = differs_from_data(alloc, shape, mask)?;
    Ok(if differs {
        Some(Code::MaskDimensionsDiffer)
    } else {
        None
    })
}

/// `save_result`.
fn save_fault(format: &str) -> Option<Code>
    ensures { (id : List ℕ) (one two : Dimensions)
        → IsEarlyFault (request.save_result id format.now) one two result }
{
    if format.eq_ignore_ascii_case("FJSON") {
        None
    } else {
        Some(Code::FormatUnsupported)
    }
}

/// The first fault of a request but that its collection is not found, without those of its callback and of kinds and
/// sizes. `two` is the second cube of a merge and the mask of a mask; another request does not look at it.
///
/// Refuses: out of memory.
pub fn early_fault(
    alloc: Global,
    request: &Request<'_>,
    one: &Shape,
    two: &Shape,
) -> Result<Option<Code>, OutOfMemory>
    ensures { IfOk result
        (IsEarlyFault (plain_cube_request request.now) one.now two.now) }
{
    match request {
        Request::LoadCollection {
            area,
            time,
            bands,
            ..
        } => load_fault(alloc, *area, *time, bands, one),
        Request::FilterBbox { area, .. } => Ok(filter_bbox_fault(*area, one)),
        Request::FilterTemporal {
            time,
            dimension,
            ..
        } => Ok(filter_temporal_fault(*time, *dimension, one)),
        Request::FilterBands { bands, .. } => filter_bands_fault(alloc, bands.as_slice(), one),
        Request::Apply { .. } => Ok(None),
        Request::ApplyKernel { kernel, .. } => Ok(kernel_fault(kernel, one)),
        Request::ReduceDimension { dimension, .. } => Ok(reduce_fault(dimension, one)),
        Request::AggregateTemporal {
            intervals,
            dimension,
            ..
        } => aggregate_fault(alloc, intervals.as_slice(), *dimension, one),
        Request::AggregateTemporalPeriod { dimension, .. } => Ok(period_fault(*dimension, one)),
        Request::ApplyDimension { .. } => Ok(apply_dimension_fault(one)),
        Request::MergeCubes { resolver, .. } => { merge_fault(alloc, resolver.is_some(), one, two) }
        Request::Mask { .. } => mask_fault(alloc, one, two),
        Request::SaveResult { format, .. } => Ok(save_fault(format)),
    }
}
