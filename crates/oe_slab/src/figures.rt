// How many cells a run holds that is folded slab by slab.
ghost use Rattle.std.specs.Prelude.{◌≡◌, ◌≤◌, ◌*◌, ◌+◌, ◌^◌, IfOk, IsErrOf, min};
ghost use Rattle.oe_plan.specs.Figures as plan;
ghost use Rattle.oe_plan.specs.Ranges.{AreStepsOf};
ghost use Rattle.oe_slab.specs.Cuts.{HasNoTimeCut};
ghost use Rattle.oe_slab.specs.Figures.{AreSlabFigures, AreSlabSides, largest_plane, largest_slab, slab_bound, width_before, width_behind};
ghost use Rattle.oe_slab.specs.declared.figures.SlabNumbersFail.{SlabNumbersFail};

use crate::cut::{TimeCut, time_cut};
use oe_check::Checked;
use oe_dims::Kind;
use oe_memory::OutOfMemory;
use oe_plan::{Sides, most_along, order_of, scratch_of, sides_of};
use oe_window::{ChunkSize, Grid};
use std::alloc::Global;

/// What a run takes that is folded slab by slab.
#[derive(Clone, Copy, PartialEq, Eq)]
pub struct SlabNumbers {
    /// How many cells it holds at once at most.
    pub bound: u128,
    /// In how many chunks the result is worked off.
    pub chunks: u64,
}

/// Why there are no such numbers.
#[derive(Clone, Copy, PartialEq, Eq)]
pub enum SlabNumbersFail {
    /// The run has no time cut.
    NoTimeFold,
    OutOfMemory,
}

impl From<OutOfMemory> for SlabNumbersFail {
    ghost use Rattle.oe_slab.specs.declared.figures.SlabNumbersFail.TheVariants.{OutOfMemory as out_of_memory};

    ghost from_gives = { λ _ fail. fail ≡ out_of_memory };

    fn from(_error: OutOfMemory) -> SlabNumbersFail {
        SlabNumbersFail::OutOfMemory
    }
}

/// How many cells the windows of a run have that is folded slab by slab.
#[derive(Clone, Copy)]
pub(crate) struct SlabSizes {
    /// The most cells of a window without t.
    pub plane: u128,
    /// The most cells of a window of a slab.
    pub slab: u128,
    /// How many cells an evaluation needs besides.
    pub scratch: u64,
}

/// How many cells a window without t has.
fn plane_of(sides: Sides) -> u128
    requires bands { sides.bands ≤ 65536 }
    requires y { sides.y ≤ 65536 }
    requires x { sides.x ≤ 65536 }
    ensures value { result ≡ sides.bands * sides.y * sides.x }
    ensures most { result ≤ 281474976710656 }
{
    u128::from(sides.bands) * u128::from(sides.y) * u128::from(sides.x)
}

/// How many cells so many planes have.
fn slab_of(plane: u128, dates: u32) -> u128
    requires plane_in { plane ≤ 281474976710656 }
    requires dates_in { dates ≤ 4096 }
    ensures value { result ≡ plane * dates }
    ensures most { result ≤ 1152921504606846976 }
{
    plane * u128::from(dates)
}

/// How many cells the windows of a run of these steps have.
pub(crate) fn sizes_of(checked: &Checked, steps: &[u32], size: ChunkSize) -> SlabSizes
    requires steps { AreStepsOf checked.now steps.now }
    requires sides { AreSlabSides size }
    ensures plane { result.plane ≡ largest_plane checked.now size }
    ensures slab { result.slab ≡ largest_slab checked.now size }
    ensures scratch { result.scratch ≡ plan.scratch_of checked.now }
    ensures plane_most { result.plane ≤ 281474976710656 }
    ensures slab_most { result.slab ≤ 1152921504606846976 }
    ensures scratch_most { result.scratch ≤ 131264 }
{
    let plane = plane_of(sides_of(checked, steps, size));
    let dates = most_along(checked, steps, Kind::Time).min(size.t);
    SlabSizes {
        plane,
        slab: slab_of(plane, dates),
        scratch: scratch_of(checked, steps),
    }
}

/// How many cells a run holds at once: the slabs before its cut, two cells for each fold of a plane, the planes behind
/// the cut, and what an evaluation needs besides.
fn bound_of(sizes: SlabSizes, cut: TimeCut) -> u128
    requires plane { sizes.plane ≤ 281474976710656 }
    requires slab { sizes.slab ≤ 1152921504606846976 }
    requires scratch { sizes.scratch ≤ 131264 }
    ensures { result ≡ cut.width_before * sizes.slab + 2 * sizes.plane
        + cut.width_behind * sizes.plane + sizes.scratch }
{
    let before = u128::from(cut.width_before) * sizes.slab;
    let behind = u128::from(cut.width_behind) * sizes.plane;
    before + 2 * sizes.plane + behind + u128::from(sizes.scratch)
}

/// How many cells a run of these steps holds at once that is cut there.
pub(crate) fn bound_at(checked: &Checked, steps: &[u32], size: ChunkSize, cut: TimeCut) -> u128
    requires steps { AreStepsOf checked.now steps.now }
    requires sides { AreSlabSides size }
    requires before { cut.width_before ≡ width_before checked.now cut.fold }
    requires behind { cut.width_behind ≡ width_behind checked.now cut.fold }
    ensures { result ≡ slab_bound checked.now size cut.fold }
{
    bound_of(sizes_of(checked, steps, size), cut)
}

/// How many chunks the result has.
pub(crate) fn chunks_of(checked: &Checked, size: ChunkSize) -> u64
    requires { AreSlabSides size }
    ensures { result ≡ plan.chunks_of checked.now size }
{
    Grid::new(checked.shape(checked.result()), size).count()
}

/// How many cells a run of the graph holds at once at most that folds slabs of so many dates one after the other, and in
/// how many chunks along x and y it goes. It may be more than a plan allows.
///
/// Refuses: `NoTimeFold` exactly where the run has no time cut, unless an allocation was refused.
pub fn slab_figures(
    alloc: Global,
    checked: &Checked,
    size: ChunkSize,
) -> Result<SlabNumbers, SlabNumbersFail>
    requires { AreSlabSides size }
    ensures figures { IfOk result (λ n. AreSlabFigures checked.now size n.bound n.chunks) }
    ensures none { IsErrOf result SlabNumbersFail.NoTimeFold → HasNoTimeCut checked.now }
{
    let order = order_of(alloc, checked)?;
    match time_cut(alloc, checked, order.steps())? {
        Some(cut) => Ok(SlabNumbers {
            bound: bound_at(checked, order.steps(), size, cut),
            chunks: chunks_of(checked, size),
        }),
        None => Err(SlabNumbersFail::NoTimeFold),
    }
}
