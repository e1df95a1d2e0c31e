// From requests to operations.
ghost use Rattle.std.specs.Prelude.{◌≡◌, ℕ, IfOk, IfErr, IfSome, Option, Some, None, List, [], ◌∷◌, map, codes};
ghost use Rattle.std.specs.Option.{option_map};
ghost use Rattle.oe_dims.specs.Dimensions.{Dimensions};
ghost use Rattle.oe_graph.specs.Form.{callback_name};
ghost use Rattle.oe_graph.specs.Plain.{plain_graph};
ghost use Rattle.oe_graph.specs.Read.{IsFault};
ghost use Rattle.oe_expr.specs.Callback.{IsFaultlessCallback, StandsInCallbackAt};
ghost use Rattle.oe_expr.specs.Scope.{IsScope, scope_parameters, plain_scope};
ghost use Rattle.oe_kernel.specs.Kernels.{IsKernel};
ghost use Rattle.oe_meanings.specs.Callbacks.{AreIntervals, IsBuildable, IsBuilt, IsResolvedCallback, StandsInCallback};
ghost use Rattle.oe_requests.specs.Operations as spec;
ghost use Rattle.oe_requests.specs.Operations.{Outline};
ghost use Rattle.oe_requests.specs.PlainRequests.{plain_called, plain_kernel, plain_operation, plain_cube_request, plain_restriction};
ghost use Rattle.oe_requests.specs.Requests as request;
ghost use Rattle.oe_requests.specs.RunningSums.{IsWellFormed};
ghost use Rattle.oe_meanings.specs.Stands.{HasFaultlessCallbackOn};

use crate::operation_scope::{interval_scope, reduction_scope};
use crate::shape_periods::period_intervals;
use crate::words::dimension_named;
use oe_dims::{CellKind, Kind, Shape, Text};
use oe_expr::{Expr, Scope, build};
use oe_graph::{Graph, Refusal, callback_name};
use oe_kernel::Kernel;
use oe_memory::OutOfMemory;
use oe_periods::Period;
use oe_requests::{
    BoundingBox, Called, Interval, Intervals, KernelRows, Operation, Request, Restriction,
    TemporalExtent, running_sum_in,
};
use std::alloc::Global;

/// A callback under a scope, in an argument of a node.
fn callback_under(
    alloc: Global,
    called: &Called<'_>,
    scope: &Scope,
    id: &str,
    argument: &str,
) -> Result<Expr, Refusal>
    requires scope { IsScope (plain_scope scope.now) }
    requires resolved { IsResolvedCallback (scope_parameters (plain_scope scope.now))
        (plain_called called.now) }
    ensures built { IfOk result (λ callback. callback
        ≡ spec.callback_under (plain_scope scope.now) (plain_called called.now)) }
    ensures faultless { IfOk result IsFaultlessCallback }
    ensures refused { IfErr result (IsFault (StandsInCallbackAt
        (spec.callback_under (plain_scope scope.now) (plain_called called.now))
        (callback_name id.now argument.now))) }
{
    let name = callback_name(alloc, id, argument)?;
    build(alloc, called.graph, scope, called.context, name.as_str())
}

/// The operation that a request of the node `id` asks for, where the first of its cubes has this shape and kind; of a
/// load that is its collection. There is none for a dimension of another name than the four.
///
/// Refuses: the least fault of the callback, exactly where one stands; out of memory.
pub fn operation_for(
    alloc: Global,
    request: &Request<'_>,
    shape: &Shape,
    kind: CellKind,
    id: &str,
) -> Result<Option<Operation>, Refusal>
    requires { IsBuildable (plain_cube_request request.now) }
    ensures built { IfOk result (λ r. (others : List Outline) → option_map plain_operation r
        ≡ spec.operation_of (plain_cube_request request.now)
        (record { shape = shape.now; kind = kind } ∷ others)) }
    // no fault stands in its callback
    ensures faultless { IfOk result (λ r. (others : List Outline) → HasFaultlessCallbackOn
        (plain_cube_request request.now)
        (record { shape = shape.now; kind = kind } ∷ others)) }
    // or the least of those that stand there
    ensures refused { IfErr result (IsFault (StandsInCallback id.now
        (plain_cube_request request.now)
        (record { shape = shape.now; kind = kind }))) }
{
    match request {
        Request::LoadCollection {
            area,
            time,
            bands,
            ..
        } => Ok(Some(Operation::Keep(kept_part(alloc, *area, *time, bands)?))),
        Request::FilterBbox { area, .. } => Ok(Some(Operation::Keep(kept_area(*area)))),
        Request::FilterTemporal { time, .. } => Ok(Some(Operation::Keep(kept_time(*time)))),
        Request::FilterBands { bands, .. } => {
            Ok(Some(Operation::Keep(kept_bands(alloc, bands)?)))
        }
        Request::Apply { process, .. } => apply_for(alloc, process, kind, id),
        Request::ApplyKernel {
            kernel,
            factor,
            border,
            replace_invalid,
            ..
        } => Ok(Some(Operation::Convolve {
            kernel: kernel_of(alloc, kernel)?,
            factor: *factor,
            border: *border,
            replace_invalid: *replace_invalid,
        })),
        Request::ReduceDimension {
            dimension,
            reducer,
            ..
        } => reduction_for(alloc, dimension, reducer, shape, kind, id),
        Request::AggregateTemporal {
            intervals,
            reducer,
            ..
        } => aggregation_for(alloc, intervals, reducer, shape, kind, id),
        Request::AggregateTemporalPeriod {
            period,
            reducer,
            ..
        } => period_for(alloc, *period, reducer, shape, kind, id),
        Request::ApplyDimension { process, .. } => sums_for(alloc, process, id),
        Request::MergeCubes { resolver, .. } => merge_for(alloc, resolver, kind, id),
        Request::Mask { replacement, .. } => Ok(Some(Operation::Cover(*replacement))),
        Request::SaveResult { .. } => Ok(Some(Operation::GiveBack)),
    }
}

/// Each cell by a callback.
fn apply_for(
    alloc: Global,
    process: &Called<'_>,
    kind: CellKind,
    id: &str,
) -> Result<Option<Operation>, Refusal>
    requires { IsResolvedCallback (codes "x" ∷ codes "context" ∷ []) (plain_called process.now) }
    ensures { (data_id : List ℕ) (shape : Dimensions) → IsBuilt id.now
        (request.apply data_id (plain_called process.now))
        (record { shape = shape; kind = kind }) result }
{
    let scope = Scope::Apply { x: kind };
    let callback = callback_under(alloc, process, &scope, id, "process")?;
    Ok(Some(Operation::EachCell(callback)))
}

/// A reduction along the dimension of a name, `None` where no dimension has the name.
fn reduction_for(
    alloc: Global,
    dimension: &str,
    reducer: &Called<'_>,
    shape: &Shape,
    kind: CellKind,
    id: &str,
) -> Result<Option<Operation>, Refusal>
    requires { IsResolvedCallback (codes "data" ∷ codes "context" ∷ []) (plain_called reducer.now) }
    ensures { (data_id : List ℕ) → IsBuilt id.now
        (request.reduce_dimension data_id dimension.now (plain_called reducer.now))
        (record { shape = shape.now; kind = kind }) result }
{
    match dimension_named(dimension) {
        Some(along) => {
            let scope = reduction_scope(alloc, along, shape, kind)?;
            let callback = callback_under(alloc, reducer, &scope, id, "reducer")?;
            Ok(Some(Operation::Reduce(along, callback)))
        }
        None => Ok(None),
    }
}

/// An aggregation over intervals.
fn aggregation_for(
    alloc: Global,
    intervals: &Vec<Interval>,
    reducer: &Called<'_>,
    shape: &Shape,
    kind: CellKind,
    id: &str,
) -> Result<Option<Operation>, Refusal>
    requires intervals { AreIntervals intervals.now.items }
    requires callback { IsResolvedCallback (codes "data" ∷ codes "context" ∷ [])
        (plain_called reducer.now) }
    ensures { (data_id : List ℕ) (name : Option (List ℕ)) → IsBuilt id.now
        (request.aggregate_temporal data_id intervals.now.items name (plain_called reducer.now))
        (record { shape = shape.now; kind = kind }) result }
{
    let scope = interval_scope(alloc, intervals, shape, kind)?;
    let copies = copy_intervals(alloc, intervals)?;
    let intervals = Intervals::of(alloc, copies)?;
    let callback = callback_under(alloc, reducer, &scope, id, "reducer")?;
    Ok(Some(Operation::Aggregate(intervals, callback)))
}

/// An aggregation over the calendar periods of the cube's labels of t.
fn period_for(
    alloc: Global,
    period: Period,
    reducer: &Called<'_>,
    shape: &Shape,
    kind: CellKind,
    id: &str,
) -> Result<Option<Operation>, Refusal>
    requires callback { IsResolvedCallback (codes "data" ∷ codes "context" ∷ [])
        (plain_called reducer.now) }
    ensures { (data_id : List ℕ) (name : Option (List ℕ)) → IsBuilt id.now
        (request.aggregate_temporal_period data_id period name (plain_called reducer.now))
        (record { shape = shape.now; kind = kind }) result }
{
    let periods = period_intervals(alloc, period, shape)?;
    let scope = interval_scope(alloc, &periods, shape, kind)?;
    let intervals = Intervals::of(alloc, periods)?;
    let callback = callback_under(alloc, reducer, &scope, id, "reducer")?;
    Ok(Some(Operation::Aggregate(intervals, callback)))
}

/// The running sums of a callback.
fn sums_for(alloc: Global, process: &Graph, id: &str) -> Result<Option<Operation>, Refusal>
    requires { IsWellFormed (plain_graph process.now) }
    ensures { (data_id : List ℕ) (one : Outline) → IsBuilt id.now
        (request.apply_dimension data_id (plain_graph process.now)) one result }
{
    let ignore = running_sum_in(alloc, process, id)?;
    Ok(Some(Operation::Accumulate(ignore)))
}

/// A merge by a resolver, where there is one.
fn merge_for(
    alloc: Global,
    resolver: &Option<Called<'_>>,
    kind: CellKind,
    id: &str,
) -> Result<Option<Operation>, Refusal>
    requires { IfSome (option_map plain_called resolver.now)
        (IsResolvedCallback (codes "x" ∷ codes "y" ∷ codes "context" ∷ [])) }
    ensures { (one two : List ℕ) (shape : Dimensions) → IsBuilt id.now
        (request.merge_cubes one two (option_map plain_called resolver.now))
        (record { shape = shape; kind = kind }) result }
{
    match resolver {
        Some(called) => {
            let scope = Scope::Merge { cells: kind };
            let callback = callback_under(alloc, called, &scope, id, "overlap_resolver")?;
            Ok(Some(Operation::Merge(Some(callback))))
        }
        None => Ok(Some(Operation::Merge(None))),
    }
}

/// A copy of names.
pub(crate) fn copy_bands(alloc: Global, bands: &Vec<&Text>) -> Result<Vec<Text>, OutOfMemory>
    ensures { IfOk result (λ v. v.items ≡ map (λ n. n.now) bands.now.items) }
{
    let mut names = Vec::with_capacity(alloc, bands.len())?;
    for band in bands {
        names.push(band.copy()?)?;
    }
    Ok(names)
}

/// A copy of intervals.
fn copy_intervals(alloc: Global, intervals: &Vec<Interval>) -> Result<Vec<Interval>, OutOfMemory>
    ensures { IfOk result (λ v. v.items ≡ intervals.now.items) }
{
    Ok(Vec::from_slice(alloc, intervals)?)
}

/// What is kept inside a box.
fn kept_area(area: BoundingBox) -> Restriction
    ensures { plain_restriction result ≡ record { box = Some area; time = None; bands = None } }
{
    Restriction {
        area: Some(area),
        time: None,
        bands: None,
    }
}

/// What is kept inside a temporal extent.
fn kept_time(time: TemporalExtent) -> Restriction
    ensures { plain_restriction result ≡ record { box = None; time = Some time; bands = None } }
{
    Restriction {
        area: None,
        time: Some(time),
        bands: None,
    }
}

/// The bands that are kept.
fn kept_bands(alloc: Global, bands: &Vec<&Text>) -> Result<Restriction, OutOfMemory>
    ensures { IfOk result (λ r. plain_restriction r ≡ record {
      box = None;
      time = None;
      bands = Some (map (λ n. n.now) bands.now.items);
    }) }
{
    Ok(Restriction {
        area: None,
        time: None,
        bands: Some(copy_bands(alloc, bands)?),
    })
}

/// What a load keeps of its collection.
pub(crate) fn kept_part(
    alloc: Global,
    area: Option<BoundingBox>,
    time: Option<TemporalExtent>,
    bands: &Option<Vec<&Text>>,
) -> Result<Restriction, OutOfMemory>
    ensures { IfOk result (λ r. plain_restriction r ≡ record {
      box = area;
      time = time;
      bands = option_map (λ names. map (λ n. n.now) names.items) bands.now;
    }) }
{
    let bands = match bands {
        Some(bands) => Some(copy_bands(alloc, bands)?),
        None => None,
    };
    Ok(Restriction { area, time, bands })
}

/// The kernel of rows that are one.
fn kernel_of(alloc: Global, rows: &KernelRows) -> Result<Kernel, OutOfMemory>
    requires { IsKernel (plain_kernel rows.now) }
    ensures { IfOk result (λ k. k ≡ plain_kernel rows.now) }
{
    let values = Vec::from_slice(alloc, &rows.values)?;
    match Kernel::new(rows.width as u32, rows.height as u32, values) {
        Ok(kernel) => Ok(kernel),
        Err(_) => unreachable!(),
    }
}
