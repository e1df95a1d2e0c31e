// How large the windows of a run can be, and how many cells it holds at once.
ghost use Rattle.std.specs.Prelude.{◌≡◌, ◌<◌, ◌≤◌, ◌*◌, ◌+◌, ℕ, min, if◌then◌else◌, IfOk, length, slice_index};
ghost use Rattle.oe_dims.specs.declared.kind.Kind.TheVariants.{Time, Bands, Y, X};
ghost use Rattle.oe_graph.specs.Printed.{node_count};
ghost use Rattle.oe_order.specs.Evaluation.{IsEvaluationOrder};
ghost use Rattle.oe_order.specs.Live as live;
ghost use Rattle.oe_order.specs.Live.{IsSlotted};
ghost use Rattle.oe_order.specs.Order.{IsListing};
ghost use Rattle.oe_check.specs.Links.{links_of};
ghost use Rattle.oe_plan.specs.Figures as spec;
ghost use Rattle.oe_plan.specs.Figures.{side_along};
ghost use Rattle.oe_plan.specs.Ranges.{AreStepsOf, IsWithinRanges, most_reach};

use crate::turns::turns_of;
use crate::widths::width_of;
use oe_check::Checked;
use oe_dims::Kind;
use oe_memory::OutOfMemory;
use oe_order::{NodeOrder, order_by};
use oe_window::{ChunkSize, Grid, extent_of};
use std::alloc::Global;

/// What a run of a checked graph takes.
#[derive(Clone, Copy, PartialEq, Eq)]
pub struct PlanFigures {
    /// How many cells it holds at once at most, in all buffers of all workers.
    pub bound: u128,
    /// In how many chunks the result is worked off.
    pub chunks: u64,
}

/// How many cells the buffers of a run have.
#[derive(Clone, Copy)]
pub(crate) struct Sizes {
    /// The most cells of a window of a node.
    pub largest: u128,
    /// How many cells an evaluation needs besides.
    pub scratch: u64,
}

/// How far a run reaches beyond the labels of a chunk along a dimension.
#[derive(Clone, Copy)]
struct Reach {
    /// A node needs the whole side.
    whole: bool,
    /// So many labels at most to both sides, and no more than a dimension can have.
    halo: u64,
}

/// The most indices that a window of a node has along each dimension.
#[derive(Clone, Copy, PartialEq, Eq)]
pub struct Sides {
    pub t: u32,
    pub bands: u32,
    pub y: u32,
    pub x: u32,
}

/// The order in which the nodes that a last one needs are worked off: loads first, and of the nodes that are ready the one
/// of least id, where `/sum` stands behind that of a node of running sums.
///
/// Refuses: where an allocation was refused, and nowhere else.
pub fn order_to(alloc: Global, checked: &Checked, last: u32) -> Result<NodeOrder, OutOfMemory>
    requires { last < node_count checked.now.nodes }
    ensures steps { IfOk result (λ o. o.steps ≡ spec.steps_of (record checked.now { result = last })) }
    ensures within { IfOk result (λ o. AreStepsOf (record checked.now { result = last }) o.steps) }
    ensures listing { IfOk result (λ o. IsListing (links_of checked.now.nodes) last o.steps) }
    ensures evaluation { IfOk result
        (λ o. IsEvaluationOrder (links_of checked.now.nodes) last o.steps) }
    ensures width { IfOk result
        (λ o. o.width ≡ live.width_of (links_of checked.now.nodes) last o.steps) }
    ensures slots { IfOk result (λ o. IsSlotted (links_of checked.now.nodes) last o) }
{
    // There are fewer than 2^32 nodes, since their number is a u32.
    let _count = checked.nodes();
    let turns = turns_of(alloc, checked)?;
    order_by(alloc, checked.links(), last, turns.as_slice())
}

/// The same up to the result.
///
/// Refuses: where an allocation was refused, and nowhere else.
pub fn order_of(alloc: Global, checked: &Checked) -> Result<NodeOrder, OutOfMemory>
    ensures steps { IfOk result (λ o. o.steps ≡ spec.steps_of checked.now) }
    ensures within { IfOk result (λ o. AreStepsOf checked.now o.steps) }
    ensures listing { IfOk result
        (λ o. IsListing (links_of checked.now.nodes) checked.now.result o.steps) }
    ensures evaluation { IfOk result
        (λ o. IsEvaluationOrder (links_of checked.now.nodes) checked.now.result o.steps) }
    ensures width { IfOk result
        (λ o. o.width ≡ live.width_of (links_of checked.now.nodes) checked.now.result o.steps) }
    ensures slots { IfOk result
        (λ o. IsSlotted (links_of checked.now.nodes) checked.now.result o) }
{
    order_to(alloc, checked, checked.result())
}

/// The largest number of labels along a dimension among the cubes of a run of these steps, and at least 1.
pub fn most_along(checked: &Checked, steps: &[u32], along: Kind) -> u32
    requires { AreStepsOf checked.now steps.now }
    ensures value { result ≡ spec.most_along checked.now along }
    ensures most { result ≤ 65536 }
{
    let mut most: u32 = 1;
    for node in steps {
        most = most.max(extent_of(checked.shape(*node), along));
    }
    most
}

/// By how many pixels the kernels of these nodes reach to each side along x and along y. More than the labels that a
/// dimension can have are as good as these.
fn halos(checked: &Checked, steps: &[u32]) -> (u64, u64)
    requires { AreStepsOf checked.now steps.now }
    ensures x { result.0 ≡ min most_reach (spec.halo_along checked.now X) }
    ensures y { result.1 ≡ min most_reach (spec.halo_along checked.now Y) }
{
    let mut along_x: u64 = 0;
    let mut along_y: u64 = 0;
    for node in steps {
        let (x, y) = checked.halo(*node);
        along_x = (along_x + u64::from(x)).min(65536);
        along_y = (along_y + u64::from(y)).min(65536);
    }
    (along_x, along_y)
}

/// Whether one of these nodes needs the whole side along a dimension.
fn is_whole_along(checked: &Checked, steps: &[u32], along: Kind) -> bool
    requires { AreStepsOf checked.now steps.now }
    ensures { result ≡ spec.is_whole_along checked.now along }
{
    for node in steps {
        if checked.whole(*node, along) {
            return true;
        }
    }
    false
}

/// How many labels a window can have along a dimension with so many, for chunks of this side.
fn side_with_reach(most: u32, side: u32, reach: Reach) -> u32
    requires most_in { most ≤ 65536 }
    requires side_in { side ≤ 4096 }
    requires halo_in { reach.halo ≤ 65536 }
    ensures value { result ≡ if reach.whole then most else min most (side + 2 * reach.halo) }
    ensures most { result ≤ 65536 }
{
    if reach.whole {
        return most;
    }
    u64::from(most).min(u64::from(side) + 2 * reach.halo) as u32
}

/// How many cells a window of these sides has.
fn product(t: u32, bands: u32, y: u32, x: u32) -> u128
    requires t_in { t ≤ 65536 }
    requires bands_in { bands ≤ 65536 }
    requires y_in { y ≤ 65536 }
    requires x_in { x ≤ 65536 }
    ensures value { result ≡ t * bands * y * x }
    ensures most { result ≤ 18446744073709551616 }
{
    u128::from(t) * u128::from(bands) * u128::from(y) * u128::from(x)
}

/// The most indices that a window has along each dimension in a run of these steps with chunks of this size: all labels
/// where a node of the run needs the whole side, and else the chunk's, widened by what all kernels reach.
pub fn sides_of(checked: &Checked, steps: &[u32], size: ChunkSize) -> Sides
    requires steps { AreStepsOf checked.now steps.now }
    requires x { size.x ≤ 4096 }
    requires y { size.y ≤ 4096 }
    requires t { size.t ≤ 4096 }
    ensures t { result.t ≡ side_along checked.now size Time }
    ensures bands { result.bands ≡ side_along checked.now size Bands }
    ensures y { result.y ≡ side_along checked.now size Y }
    ensures x { result.x ≡ side_along checked.now size X }
    ensures t_most { result.t ≤ 65536 }
    ensures bands_most { result.bands ≤ 65536 }
    ensures y_most { result.y ≤ 65536 }
    ensures x_most { result.x ≤ 65536 }
{
    let (halo_x, halo_y) = halos(checked, steps);
    let whole_t = is_whole_along(checked, steps, Kind::Time);
    let whole_y = is_whole_along(checked, steps, Kind::Y);
    let whole_x = is_whole_along(checked, steps, Kind::X);
    let reach_t = Reach {
        whole: whole_t,
        halo: 0,
    };
    let reach_y = Reach {
        whole: whole_y,
        halo: halo_y,
    };
    let reach_x = Reach {
        whole: whole_x,
        halo: halo_x,
    };
    Sides {
        t: side_with_reach(most_along(checked, steps, Kind::Time), size.t, reach_t),
        bands: most_along(checked, steps, Kind::Bands),
        y: side_with_reach(most_along(checked, steps, Kind::Y), size.y, reach_y),
        x: side_with_reach(most_along(checked, steps, Kind::X), size.x, reach_x),
    }
}

/// How many cells an evaluation of a node needs besides its windows in a run of these steps.
pub fn scratch_of(checked: &Checked, steps: &[u32]) -> u64
    requires { AreStepsOf checked.now steps.now }
    ensures value { result ≡ spec.scratch_of checked.now }
    ensures most { result ≤ 131264 }
{
    let t = most_along(checked, steps, Kind::Time);
    let bands = most_along(checked, steps, Kind::Bands);
    let y = most_along(checked, steps, Kind::Y);
    let x = most_along(checked, steps, Kind::X);
    2 * u64::from(t.max(bands).max(y.max(x))) + 192
}

/// How many cells the buffers have in a run of these steps with chunks of this size.
pub(crate) fn sizes_of(checked: &Checked, steps: &[u32], size: ChunkSize) -> Sizes
    requires steps { AreStepsOf checked.now steps.now }
    requires x { size.x ≤ 4096 }
    requires y { size.y ≤ 4096 }
    requires t { size.t ≤ 4096 }
    ensures largest { result.largest ≡ spec.largest_window checked.now size }
    ensures largest_most { result.largest ≤ 18446744073709551616 }
    ensures scratch { result.scratch ≡ spec.scratch_of checked.now }
    ensures scratch_most { result.scratch ≤ 131264 }
{
    let sides = sides_of(checked, steps, size);
    Sizes {
        largest: product(sides.t, sides.bands, sides.y, sides.x),
        scratch: scratch_of(checked, steps),
    }
}

/// How many cells so many workers hold at once, with two chunks each and so many windows a chunk.
pub(crate) fn bound_of(sizes: Sizes, width: u64, workers: u32) -> u128
    requires largest_in { sizes.largest ≤ 18446744073709551616 }
    requires scratch_in { sizes.scratch ≤ 131264 }
    requires width_in { width ≤ 4294967296 }
    requires workers_in { workers ≤ 64 }
    ensures { result ≡ 2 * workers * (width * sizes.largest + sizes.scratch) }
{
    let each = u128::from(width) * sizes.largest + u128::from(sizes.scratch);
    2 * u128::from(workers) * each
}

/// How many cells a run of the graph holds at once at most, in chunks of at most this size and with so many workers,
/// 1 to 64, and in how many chunks it goes. It may be more than a [`Plan`](crate::Plan) allows.
///
/// Refuses: where an allocation was refused, and nowhere else.
pub fn figures(
    alloc: Global,
    checked: &Checked,
    size: ChunkSize,
    workers: u32,
) -> Result<PlanFigures, OutOfMemory>
    requires { IsWithinRanges size workers }
    ensures bound { IfOk result (λ f. f.bound ≡ spec.bound_of checked.now size workers) }
    ensures chunks { IfOk result (λ f. f.chunks ≡ spec.chunks_of checked.now size) }
{
    let order = order_of(alloc, checked)?;
    let sizes = sizes_of(checked, order.steps(), size);
    let width = width_of(checked, order.steps(), order.width());
    let grid = Grid::new(checked.shape(checked.result()), size);
    Ok(PlanFigures {
        bound: bound_of(sizes, width, workers),
        chunks: grid.count(),
    })
}
