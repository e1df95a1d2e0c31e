// A plan of a run that is folded slab by slab.
ghost use Rattle.std.specs.Prelude.{◌≡◌, ◌<◌, ◌≤◌, ◌^◌, ℕ, IfOk, IsErrOf, Some};
ghost use Rattle.oe_plan.specs.Figures as plan;
ghost use Rattle.oe_slab.specs.Cuts.{HasNoTimeCut};
ghost use Rattle.oe_slab.specs.Figures.{AreSlabSides, largest_plane, largest_slab, slab_bound, width_before, width_behind};
ghost use Rattle.oe_plan.specs.Figures.{shape_of_node};
ghost use Rattle.oe_check.specs.Reach.{time_fold_of_node};
ghost use Rattle.oe_dims.specs.Positions.{Position};
ghost use Rattle.oe_window.specs.Chunks.{FitsSides, chunk_window, tiling_of};
ghost use Rattle.oe_window.specs.Windows.{Holds, IsIn, whole_window};
ghost use Rattle.oe_slab.specs.Plans.{IsSlabPlan, IsTooLarge};
ghost use Rattle.oe_slab.specs.Slabs.{dates_of_fold};
ghost use Rattle.oe_slab.specs.declared.plan.SlabPlanFail.{SlabPlanFail};

use crate::cut::{TimeCut, time_cut};
use crate::figures::{SlabSizes, bound_at, sizes_of};
use crate::schedules::{Schedules, schedules_of};
use oe_check::Checked;
use oe_dims::{Kind, Shape};
use oe_fold::Reducer;
use oe_memory::OutOfMemory;
use oe_plan::{Schedule, order_of};
use oe_window::{ChunkSize, Grid, Window};
use std::alloc::Global;
use std::marker::Model;

/// Why a graph was not planned.
#[derive(Clone, Copy, PartialEq, Eq)]
pub enum SlabPlanFail {
    /// The run has no time cut.
    NoTimeFold,
    /// The run would hold so many cells at once, which are more than 67108864.
    TooLarge(u128),
    OutOfMemory,
}

impl From<OutOfMemory> for SlabPlanFail {
    ghost use Rattle.oe_slab.specs.declared.plan.SlabPlanFail.TheVariants.{OutOfMemory as out_of_memory};

    ghost from_gives = { λ _ fail. fail ≡ out_of_memory };

    fn from(_error: OutOfMemory) -> SlabPlanFail {
        SlabPlanFail::OutOfMemory
    }
}

/// A plan of the run of a checked graph that folds slabs of some dates one after the other. It holds no cell.
pub struct SlabPlan {
    checked: Checked,
    size: ChunkSize,
    cut: TimeCut,
    sizes: SlabSizes,
    bound: u128,
    grid: Grid,
    schedules: Schedules,
}

impl Model for SlabPlan {
    ghost use Rattle.oe_expr.specs.Codes.{nodes_code};
    ghost use Rattle.oe_slab.specs.Plans.{IsKeptSlabPlan, SlabPlanOf};
    ghost use Rattle.std.specs.Coded.{codes};

    ghost Value = { SlabPlanOf };

    ghost coded = { Prim.hlevel (codes, nodes_code (Prim.hlevel codes)) };

    ghost view = { λ p. record {
      graph = p.checked;
      size = p.size;
      fold = p.cut.fold;
      whole = p.schedules.whole;
      before = p.schedules.before;
      behind = p.schedules.behind;
    } };

    ghost invariant = { λ p. IsKeptSlabPlan
        (record {
          graph = p.checked;
          size = p.size;
          fold = p.cut.fold;
          whole = p.schedules.whole;
          before = p.schedules.before;
          behind = p.schedules.behind;
        })
        p.cut p.sizes p.bound p.grid };
}

/// Written out, so that a plan that ends is one call wherever it does.
impl Drop for SlabPlan {
    fn drop(self) {
        let SlabPlan {
            checked: _,
            size: _,
            cut: _,
            sizes: _,
            bound: _,
            grid: _,
            schedules: _,
        } = self;
    }
}

impl SlabPlan {
    /// The plan of a run in chunks of at most this size along x and y, which folds slabs of at most so many dates.
    ///
    /// Refuses: `NoTimeFold` exactly where the run has no time cut, and `TooLarge` exactly where it has one and would
    /// hold more than 67108864 cells at once, with their number, unless an allocation was refused. A refusal drops the
    /// graph.
    pub fn new(alloc: Global, checked: Checked, size: ChunkSize) -> Result<SlabPlan, SlabPlanFail>
        requires { AreSlabSides size }
        ensures graph { IfOk result (λ p. p.graph ≡ checked) }
        ensures size { IfOk result (λ p. p.size ≡ size) }
        // That it is a plan has that the run has a time cut and is not too large.
        ensures valid { IfOk result IsSlabPlan }
        ensures none { IsErrOf result SlabPlanFail.NoTimeFold → HasNoTimeCut checked }
        ensures too_large { (cells : ℕ) → IsErrOf result (SlabPlanFail.TooLarge cells)
            → IsTooLarge checked size cells }
    {
        let order = order_of(alloc, &checked)?;
        let cut = match time_cut(alloc, &checked, order.steps())? {
            Some(cut) => cut,
            None => return Err(SlabPlanFail::NoTimeFold),
        };
        let sizes = sizes_of(&checked, order.steps(), size);
        let bound = bound_at(&checked, order.steps(), size, cut);
        if bound > 67108864 {
            return Err(SlabPlanFail::TooLarge(bound));
        }
        // A checked graph is without a fault, as the number of its nodes says.
        let _count = checked.nodes();
        let grid = Grid::new(checked.shape(checked.result()), size);
        let schedules = schedules_of(alloc, &checked, order, cut.fold, sizes)?;
        Ok(SlabPlan {
            checked,
            size,
            cut,
            sizes,
            bound,
            grid,
            schedules,
        })
    }

    /// The graph that is run.
    pub fn checked(&self) -> &Checked
        ensures value { result.now ≡ self.now.graph }
        ensures valid { IsSlabPlan self.now }
    {
        &self.checked
    }

    /// How many cells the run holds at once at most.
    pub fn bound(&self) -> u128
        ensures value { result ≡ slab_bound self.now.graph self.now.size self.now.fold }
        ensures valid { IsSlabPlan self.now }
    {
        self.bound
    }

    /// How many chunks the result has.
    pub fn chunks(&self) -> u64
        ensures value { result ≡ plan.chunks_of self.now.graph self.now.size }
        ensures most { result ≤ 2 ^ 48 }
        ensures valid { IsSlabPlan self.now }
    {
        self.grid.count()
    }

    /// The chunk of a number.
    pub(crate) fn chunk(&self, k: u64) -> Window
        requires { k < plan.chunks_of self.now.graph self.now.size }
        ensures value { result ≡ chunk_window
            (tiling_of (shape_of_node self.now.graph self.now.graph.result) self.now.size) k }
        ensures sides { FitsSides
            (tiling_of (shape_of_node self.now.graph self.now.graph.result) self.now.size) result }
        ensures inside { Holds
            (whole_window (shape_of_node self.now.graph self.now.graph.result)) result }
        ensures filled { (p : Position) × IsIn result p }
        ensures valid { IsSlabPlan self.now }
    {
        self.grid.chunk(k)
    }

    /// The shape of the result's cube.
    pub(crate) fn shape(&self) -> &Shape
        ensures { result.now ≡ shape_of_node self.now.graph self.now.graph.result }
    {
        self.checked.shape(self.checked.result())
    }

    /// The node at which the run is cut.
    pub(crate) fn fold(&self) -> u32
        ensures { result ≡ self.now.fold }
    {
        self.cut.fold
    }

    /// The reducer of the cut, and whether it ignores nulls.
    pub(crate) fn reducer(&self) -> (Reducer, bool)
        ensures { time_fold_of_node self.now.graph self.now.fold ≡ Some (result.0, result.1) }
    {
        match self.checked.time_fold(self.cut.fold) {
            Some(folds) => folds,
            None => unreachable!(),
        }
    }

    /// The shape of the cube that is folded.
    pub(crate) fn taken_shape(&self) -> &Shape
        ensures value { result.now ≡ shape_of_node self.now.graph self.now.before.last }
        ensures valid { IsSlabPlan self.now }
    {
        self.checked.shape(self.schedules.before.last())
    }

    /// How many dates it has.
    pub(crate) fn dates(&self) -> u32
        ensures value { result ≡ dates_of_fold self.now.graph self.now.fold }
        ensures valid { IsSlabPlan self.now }
    {
        self.taken_shape().count(Kind::Time).unwrap_or(0)
    }

    /// How many dates a slab has at most.
    pub(crate) fn slab_dates(&self) -> u32
        ensures { result ≡ self.now.size.t }
    {
        self.size.t
    }

    /// The schedule of the whole run, without slots.
    pub(crate) fn whole(&self) -> &Schedule
        ensures value { result.now ≡ self.now.whole }
        ensures valid { IsSlabPlan self.now }
    {
        &self.schedules.whole
    }

    /// The schedule of the cube that is folded.
    pub(crate) fn before(&self) -> &Schedule
        ensures value { result.now ≡ self.now.before }
        ensures valid { IsSlabPlan self.now }
    {
        &self.schedules.before
    }

    /// The schedule of the result, where the folded cube is given.
    pub(crate) fn behind(&self) -> &Schedule
        ensures value { result.now ≡ self.now.behind }
        ensures valid { IsSlabPlan self.now }
    {
        &self.schedules.behind
    }

    /// How many slabs are kept at once before the cut.
    pub(crate) fn width_before(&self) -> usize
        ensures { result ≡ width_before self.now.graph self.now.fold }
    {
        self.cut.width_before as usize
    }

    /// How many planes are kept at once behind the cut.
    pub(crate) fn width_behind(&self) -> usize
        ensures { result ≡ width_behind self.now.graph self.now.fold }
    {
        self.cut.width_behind as usize
    }

    /// The most cells of a slab.
    pub(crate) fn slab(&self) -> usize
        ensures { result ≡ largest_slab self.now.graph self.now.size }
    {
        self.sizes.slab as usize
    }

    /// The most cells of a plane.
    pub(crate) fn plane(&self) -> usize
        ensures { result ≡ largest_plane self.now.graph self.now.size }
    {
        self.sizes.plane as usize
    }

    /// How many cells an evaluation needs besides.
    pub(crate) fn scratch(&self) -> usize
        ensures { result ≡ plan.scratch_of self.now.graph }
    {
        self.sizes.scratch as usize
    }
}
