// What the arguments of a node of the main graph ask for.
ghost use Rattle.std.specs.Prelude.{◌≡◌, IfOk, codes};
ghost use Rattle.std.specs.Option.{option_map};
ghost use Rattle.oe_graph.specs.Plain.{plain_named, plain_node};
ghost use Rattle.oe_requests.specs.PlainRequests.{plain_called, plain_kernel, plain_cube_request};
ghost use Rattle.oe_requests.specs.Requests as spec;

use crate::extent::{BoundingBox, Interval, TemporalExtent};
use crate::parameter::{
    border_at, callback_at, callback_or_null_at, cube_at, extent_at, extent_or_null_at,
    has_empty_list, has_empty_object, has_null, has_null_or_empty_object, has_time_name,
    literal_at, number_at, period_at, text_at, text_or_null_at,
};
use crate::parameter_box::{box_at, box_or_null_at};
use crate::parameter_list::{bands_at, intervals_in, kernel_at, some_bands_or_null_at};
use crate::process::{CubeProcess, process_of};
use oe_cell::{Cell, Frac};
use oe_dims::Text;
use oe_graph::{Arg, Graph, Node};
use oe_kernel::Border;
use oe_memory::OutOfMemory;
use oe_periods::Period;
use std::alloc::Global;

/// A callback with the literal `context` that it sees.
#[derive(Clone, Copy)]
pub struct Called<'a> {
    pub graph: &'a Graph,
    pub context: Cell,
}

/// The values of a kernel row by row, all rows of one length, at least one in each. Their numbers are not limited here.
pub struct KernelRows {
    pub width: usize,
    pub height: usize,
    pub values: Vec<Frac>,
}

/// Written out, so that such a value that ends is one call wherever it does.
impl Drop for KernelRows {
    fn drop(self) {
        let KernelRows {
            width: _,
            height: _,
            values: _,
        } = self;
    }
}

/// What a node asks for (openEO Processes). Cubes are named by the nodes that they are results of.
#[derive(Drop)]
pub enum Request<'a> {
    /// A collection by its id.
    LoadCollection {
        id: &'a str,
        area: Option<BoundingBox>,
        time: Option<TemporalExtent>,
        bands: Option<Vec<&'a Text>>,
    },
    FilterBbox {
        cube: &'a str,
        area: BoundingBox,
    },
    /// Perhaps with the name of the dimension.
    FilterTemporal {
        cube: &'a str,
        time: TemporalExtent,
        dimension: Option<&'a str>,
    },
    FilterBands {
        cube: &'a str,
        bands: Vec<&'a Text>,
    },
    Apply {
        cube: &'a str,
        process: Called<'a>,
    },
    /// A pixel that is null counts for `replace_invalid`.
    ApplyKernel {
        cube: &'a str,
        kernel: KernelRows,
        factor: Frac,
        border: Border,
        replace_invalid: Frac,
    },
    /// By the name of the dimension.
    ReduceDimension {
        cube: &'a str,
        dimension: &'a str,
        reducer: Called<'a>,
    },
    /// Perhaps with the name of the dimension.
    AggregateTemporal {
        cube: &'a str,
        intervals: Vec<Interval>,
        dimension: Option<&'a str>,
        reducer: Called<'a>,
    },
    /// Perhaps with the name of the dimension.
    AggregateTemporalPeriod {
        cube: &'a str,
        period: Period,
        dimension: Option<&'a str>,
        reducer: Called<'a>,
    },
    /// Along `t`, by a callback of running sums.
    ApplyDimension {
        cube: &'a str,
        process: &'a Graph,
    },
    /// Perhaps with a resolver.
    MergeCubes {
        one: &'a str,
        two: &'a str,
        resolver: Option<Called<'a>>,
    },
    Mask {
        cube: &'a str,
        mask: &'a str,
        replacement: Cell,
    },
    SaveResult {
        cube: &'a str,
        format: &'a str,
    },
}

/// What a node of the main graph asks for (openEO Processes); none where an argument is not what its parameter may
/// hold, or where no such process stands in the main graph. Refuses: out of memory.
pub fn read_request(alloc: Global, node: &Node) -> Result<Option<Request<'_>>, OutOfMemory>
    ensures { IfOk result
        (λ r. option_map plain_cube_request r ≡ spec.cube_request_at (plain_node node.now)) }
{
    match process_of(node.process_id.as_str()) {
        Some(process) => request_of(alloc, process, &node.arguments),
        None => Ok(None),
    }
}

/// What a process asks for.
fn request_of(
    alloc: Global,
    process: CubeProcess,
    arguments: &Vec<(Text, Arg)>,
) -> Result<Option<Request<'_>>, OutOfMemory>
    ensures { IfOk result (λ r. option_map plain_cube_request r
        ≡ spec.cube_request_of process (plain_named arguments.now.items)) }
{
    match process {
        CubeProcess::AggregateTemporal => aggregate_request(alloc, arguments),
        CubeProcess::AggregateTemporalPeriod => Ok(period_request(arguments)),
        CubeProcess::Apply => Ok(apply_request(arguments)),
        CubeProcess::ApplyDimension => Ok(apply_dimension_request(arguments)),
        CubeProcess::ApplyKernel => apply_kernel_request(alloc, arguments),
        CubeProcess::FilterBands => filter_bands_request(alloc, arguments),
        CubeProcess::FilterBbox => Ok(filter_bbox_request(arguments)),
        CubeProcess::FilterTemporal => Ok(filter_temporal_request(arguments)),
        CubeProcess::LoadCollection => load_request(alloc, arguments),
        CubeProcess::Mask => Ok(mask_request(arguments)),
        CubeProcess::MergeCubes => Ok(merge_request(arguments)),
        CubeProcess::ReduceDimension => Ok(reduce_request(arguments)),
        CubeProcess::SaveResult => Ok(save_request(arguments)),
    }
}

/// `properties` is null or empty.
fn load_request(
    alloc: Global,
    arguments: &Vec<(Text, Arg)>,
) -> Result<Option<Request<'_>>, OutOfMemory>
    ensures { IfOk result (λ r. option_map plain_cube_request r
        ≡ spec.load_request (plain_named arguments.now.items)) }
{
    if !has_null_or_empty_object(arguments, "properties") {
        return Ok(None);
    }
    let Some(id) = text_at(arguments, "id") else {
        return Ok(None);
    };
    let Some(area) = box_or_null_at(arguments, "spatial_extent") else {
        return Ok(None);
    };
    let Some(time) = extent_or_null_at(arguments, "temporal_extent") else {
        return Ok(None);
    };
    match some_bands_or_null_at(alloc, arguments, "bands")? {
        Some(bands) => Ok(Some(Request::LoadCollection {
            id,
            area,
            time,
            bands,
        })),
        None => Ok(None),
    }
}

fn filter_bbox_request(arguments: &Vec<(Text, Arg)>) -> Option<Request<'_>>
    ensures { option_map plain_cube_request result
        ≡ spec.filter_bbox_request (plain_named arguments.now.items) }
{
    let cube = cube_at(arguments, "data")?;
    let area = box_at(arguments, "extent")?;
    Some(Request::FilterBbox { cube, area })
}

fn filter_temporal_request(arguments: &Vec<(Text, Arg)>) -> Option<Request<'_>>
    ensures { option_map plain_cube_request result
        ≡ spec.filter_temporal_request (plain_named arguments.now.items) }
{
    let cube = cube_at(arguments, "data")?;
    let time = extent_at(arguments, "extent")?;
    let dimension = text_or_null_at(arguments, "dimension")?;
    Some(Request::FilterTemporal {
        cube,
        time,
        dimension,
    })
}

/// `wavelengths` is the empty list.
fn filter_bands_request(
    alloc: Global,
    arguments: &Vec<(Text, Arg)>,
) -> Result<Option<Request<'_>>, OutOfMemory>
    ensures { IfOk result (λ r. option_map plain_cube_request r
        ≡ spec.filter_bands_request (plain_named arguments.now.items)) }
{
    if !has_empty_list(arguments, "wavelengths") {
        return Ok(None);
    }
    let Some(cube) = cube_at(arguments, "data") else {
        return Ok(None);
    };
    match bands_at(alloc, arguments, "bands")? {
        Some(bands) => Ok(Some(Request::FilterBands { cube, bands })),
        None => Ok(None),
    }
}

/// A callback of a name, with `context`.
fn called_at<'a>(arguments: &'a Vec<(Text, Arg)>, name: &str) -> Option<Called<'a>>
    ensures { option_map plain_called result
        ≡ spec.called_in name.now (plain_named arguments.now.items) }
{
    let graph = callback_at(arguments, name)?;
    let context = literal_at(arguments, "context")?;
    Some(Called { graph, context })
}

fn apply_request(arguments: &Vec<(Text, Arg)>) -> Option<Request<'_>>
    ensures { option_map plain_cube_request result
        ≡ spec.apply_request (plain_named arguments.now.items) }
{
    let cube = cube_at(arguments, "data")?;
    let Some(process) = called_at(arguments, "process") else {
        return None;
    };
    Some(Request::Apply { cube, process })
}

fn apply_kernel_request(
    alloc: Global,
    arguments: &Vec<(Text, Arg)>,
) -> Result<Option<Request<'_>>, OutOfMemory>
    ensures { IfOk result (λ r. option_map plain_cube_request r
        ≡ spec.apply_kernel_request (plain_named arguments.now.items)) }
{
    let Some(cube) = cube_at(arguments, "data") else {
        return Ok(None);
    };
    let Some(kernel) = kernel_at(alloc, arguments, "kernel")? else {
        return Ok(None);
    };
    Ok(convolution_request(cube, kernel, arguments))
}

/// `apply_kernel` with a kernel.
fn convolution_request<'a>(
    cube: &'a str,
    kernel: KernelRows,
    arguments: &'a Vec<(Text, Arg)>,
) -> Option<Request<'a>>
    ensures { option_map plain_cube_request result ≡ spec.convolution_request cube.now
        (plain_kernel kernel) (plain_named arguments.now.items) }
{
    let factor = number_at(arguments, "factor")?;
    let border = border_at(arguments, "border")?;
    let replace_invalid = number_at(arguments, "replace_invalid")?;
    Some(Request::ApplyKernel {
        cube,
        kernel,
        factor,
        border,
        replace_invalid,
    })
}

fn reduce_request(arguments: &Vec<(Text, Arg)>) -> Option<Request<'_>>
    ensures { option_map plain_cube_request result
        ≡ spec.reduce_request (plain_named arguments.now.items) }
{
    let cube = cube_at(arguments, "data")?;
    let dimension = text_at(arguments, "dimension")?;
    let Some(reducer) = called_at(arguments, "reducer") else {
        return None;
    };
    Some(Request::ReduceDimension {
        cube,
        dimension,
        reducer,
    })
}

fn aggregate_request(
    alloc: Global,
    arguments: &Vec<(Text, Arg)>,
) -> Result<Option<Request<'_>>, OutOfMemory>
    ensures { IfOk result (λ r. option_map plain_cube_request r
        ≡ spec.aggregate_request (plain_named arguments.now.items)) }
{
    let Some(cube) = cube_at(arguments, "data") else {
        return Ok(None);
    };
    let Some(dimension) = text_or_null_at(arguments, "dimension") else {
        return Ok(None);
    };
    let Some(reducer) = called_at(arguments, "reducer") else {
        return Ok(None);
    };
    match intervals_in(alloc, arguments)? {
        Some(intervals) => Ok(Some(Request::AggregateTemporal {
            cube,
            intervals,
            dimension,
            reducer,
        })),
        None => Ok(None),
    }
}

fn period_request(arguments: &Vec<(Text, Arg)>) -> Option<Request<'_>>
    ensures { option_map plain_cube_request result
        ≡ spec.period_request (plain_named arguments.now.items) }
{
    let cube = cube_at(arguments, "data")?;
    let period = period_at(arguments, "period")?;
    let dimension = text_or_null_at(arguments, "dimension")?;
    let Some(reducer) = called_at(arguments, "reducer") else {
        return None;
    };
    Some(Request::AggregateTemporalPeriod {
        cube,
        period,
        dimension,
        reducer,
    })
}

/// `dimension` is t, `target_dimension` null and `context` a literal.
fn apply_dimension_request(arguments: &Vec<(Text, Arg)>) -> Option<Request<'_>>
    ensures { option_map plain_cube_request result
        ≡ spec.apply_dimension_request (plain_named arguments.now.items) }
{
    if !has_time_name(arguments, "dimension") {
        return None;
    }
    if !has_null(arguments, "target_dimension") {
        return None;
    }
    literal_at(arguments, "context")?;
    let cube = cube_at(arguments, "data")?;
    let process = callback_at(arguments, "process")?;
    Some(Request::ApplyDimension { cube, process })
}

/// A resolver or null, with `context`.
fn resolver_at(arguments: &Vec<(Text, Arg)>) -> Option<Option<Called<'_>>>
    ensures { option_map (option_map plain_called) result
        ≡ spec.resolver_in (plain_named arguments.now.items) }
{
    let resolver = callback_or_null_at(arguments, "overlap_resolver")?;
    let context = literal_at(arguments, "context")?;
    match resolver {
        Some(graph) => Some(Some(Called { graph, context })),
        None => Some(None),
    }
}

fn merge_request(arguments: &Vec<(Text, Arg)>) -> Option<Request<'_>>
    ensures { option_map plain_cube_request result
        ≡ spec.merge_request (plain_named arguments.now.items) }
{
    let one = cube_at(arguments, "cube1")?;
    let two = cube_at(arguments, "cube2")?;
    let Some(resolver) = resolver_at(arguments) else {
        return None;
    };
    Some(Request::MergeCubes { one, two, resolver })
}

fn mask_request(arguments: &Vec<(Text, Arg)>) -> Option<Request<'_>>
    ensures { option_map plain_cube_request result
        ≡ spec.mask_request (plain_named arguments.now.items) }
{
    let cube = cube_at(arguments, "data")?;
    let mask = cube_at(arguments, "mask")?;
    let replacement = literal_at(arguments, "replacement")?;
    Some(Request::Mask {
        cube,
        mask,
        replacement,
    })
}

/// `options` is the empty object.
fn save_request(arguments: &Vec<(Text, Arg)>) -> Option<Request<'_>>
    ensures { option_map plain_cube_request result
        ≡ spec.save_request (plain_named arguments.now.items) }
{
    if !has_empty_object(arguments, "options") {
        return None;
    }
    let cube = cube_at(arguments, "data")?;
    let format = text_at(arguments, "format")?;
    Some(Request::SaveResult { cube, format })
}
