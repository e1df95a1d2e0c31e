// A plan: what a run of a checked graph asks for again and again.
ghost use Rattle.std.specs.Prelude.{◌≡◌, ◌<◌, ◌≤◌, ◌↔◌, ◌^◌, ℕ, Some, IfOk, IsErrOf, length, slice_index};
ghost use Rattle.oe_dims.specs.Positions.{Position};
ghost use Rattle.oe_graph.specs.Printed.{node_count};
ghost use Rattle.oe_order.specs.Order.{IsListing};
ghost use Rattle.oe_check.specs.Links.{links_of};
ghost use Rattle.oe_window.specs.Chunks.{FitsSides, chunk_window, tiling_of};
ghost use Rattle.oe_window.specs.Windows.{Holds, IsIn, whole_window};
ghost use Rattle.oe_plan.specs.Figures as spec;
ghost use Rattle.oe_plan.specs.Figures.{shape_of_node};
ghost use Rattle.oe_plan.specs.Plans.{IsPlan, schedule_of};
ghost use Rattle.oe_plan.specs.Ranges.{AreStepsOf, IsWithinRanges};
ghost use Rattle.oe_plan.specs.Schedules.{IsSchedule};
ghost use Rattle.oe_plan.specs.Steps.{Takes, argument_at};
ghost use Rattle.oe_plan.specs.Windows.{AreWindows};
ghost use Rattle.oe_plan.specs.declared.plan.PlanFail.{PlanFail};

use crate::bound::{bound_of, order_of, sizes_of};
use crate::schedule::Schedule;
use crate::widths::width_of;
use crate::windows::windows_of;
use oe_check::Checked;
use oe_dims::Shape;
use oe_memory::OutOfMemory;
use oe_order::{Links, NodeOrder};
use oe_window::{ChunkSize, Grid, Window};
use std::alloc::Global;
use std::marker::Model;

/// Why a graph was not planned.
#[derive(Clone, Copy, PartialEq, Eq)]
pub enum PlanFail {
    /// The run would hold so many cells at once, which are more than 67108864.
    TooLarge(u128),
    OutOfMemory,
}

impl From<OutOfMemory> for PlanFail {
    ghost use Rattle.oe_plan.specs.declared.plan.PlanFail.TheVariants.{OutOfMemory as out_of_memory};

    ghost from_gives = { λ _ fail. fail ≡ out_of_memory };

    fn from(_error: OutOfMemory) -> PlanFail {
        PlanFail::OutOfMemory
    }
}

/// A plan of the run of a checked graph: its steps, one for each node that the result needs, the slots in which their
/// windows are kept, and the chunks of the result. It holds no cell.
pub struct Plan {
    checked: Checked,
    schedule: Schedule,
    size: ChunkSize,
    workers: u32,
    grid: Grid,
    scratch: u64,
}

impl Model for Plan {
    ghost use Rattle.oe_expr.specs.Codes.{nodes_code};
    ghost use Rattle.oe_plan.specs.Plans.{PlanOf, IsKeptPlan};
    ghost use Rattle.std.specs.Coded.{codes};

    ghost Value = { PlanOf };

    ghost coded = { Prim.hlevel (codes, nodes_code (Prim.hlevel codes)) };

    ghost view = { λ p. record {
      graph = p.checked;
      size = p.size;
      workers = p.workers;
      order = p.schedule.order;
    } };

    ghost invariant = { λ p. IsKeptPlan
        (record {
          graph = p.checked;
          size = p.size;
          workers = p.workers;
          order = p.schedule.order;
        })
        p.schedule p.grid p.scratch };
}

/// Written out, so that a plan that ends is one call wherever it does.
impl Drop for Plan {
    fn drop(self) {
        let Plan {
            checked: _,
            schedule: _,
            size: _,
            workers: _,
            grid: _,
            scratch: _,
        } = self;
    }
}

impl Plan {
    /// The plan of a run in chunks of at most this size, by so many workers, 1 to 64.
    ///
    /// Refuses: `TooLarge` exactly where the run would hold more than 67108864 cells at once, with their number, unless
    /// an allocation was refused. A refusal drops the graph.
    pub fn new(
        alloc: Global,
        checked: Checked,
        size: ChunkSize,
        workers: u32,
    ) -> Result<Plan, PlanFail>
        requires { IsWithinRanges size workers }
        ensures graph { IfOk result (λ p. p.graph ≡ checked) }
        ensures size { IfOk result (λ p. p.size ≡ size) }
        ensures workers { IfOk result (λ p. p.workers ≡ workers) }
        // That it is a plan has that it is not too large.
        ensures valid { IfOk result (λ p. IsPlan p) }
        ensures too_large { (cells : ℕ) → IsErrOf result (PlanFail.TooLarge cells)
            → (cells ≡ spec.bound_of checked size workers) × (spec.most_held_cells < cells) }
    {
        let order = order_of(alloc, &checked)?;
        let sizes = sizes_of(&checked, order.steps(), size);
        let width = width_of(&checked, order.steps(), order.width());
        let bound = bound_of(sizes, width, workers);
        if bound > 67108864 {
            return Err(PlanFail::TooLarge(bound));
        }
        let grid = Grid::new(checked.shape(checked.result()), size);
        let last = checked.result();
        let schedule = Schedule::with_width(order, width as u32, last, None, sizes.largest as u64);
        Ok(Plan {
            checked,
            schedule,
            size,
            workers,
            grid,
            scratch: sizes.scratch,
        })
    }

    /// The graph that is run.
    pub fn checked(&self) -> &Checked
        ensures value { result.now ≡ self.now.graph }
        ensures valid { IsPlan self.now }
    {
        &self.checked
    }

    /// The shape of the result's cube.
    pub fn shape(&self) -> &Shape
        ensures value { result.now ≡ shape_of_node self.now.graph self.now.graph.result }
        ensures valid { IsPlan self.now }
    {
        self.checked.shape(self.checked.result())
    }

    /// The most labels that a chunk takes along x, y and t.
    pub fn size(&self) -> ChunkSize
        ensures value { result ≡ self.now.size }
        ensures valid { IsPlan self.now }
    {
        self.size
    }

    /// How many workers the run has, 1 to 64.
    pub fn workers(&self) -> u32
        ensures value { result ≡ self.now.workers }
        ensures valid { IsPlan self.now }
    {
        self.workers
    }

    /// The schedule of the run: its steps with their slots, up to the result.
    pub fn schedule(&self) -> &Schedule
        ensures value { result.now ≡ schedule_of self.now }
        ensures schedule { IsSchedule self.now.graph result.now }
        ensures valid { IsPlan self.now }
    {
        &self.schedule
    }

    /// The node of each step, in the order in which they are worked off.
    pub fn steps(&self) -> &[u32]
        ensures value { result.now ≡ self.now.order.steps }
        ensures valid { IsPlan self.now }
    {
        self.schedule.steps()
    }

    /// The node of a step.
    pub fn node(&self, step: u32) -> u32
        requires { step < length self.now.order.steps }
        ensures value { result ≡ slice_index self.now.order.steps step }
        ensures within { result < node_count self.now.graph.nodes }
        ensures valid { IsPlan self.now }
    {
        self.schedule.steps()[step as usize]
    }

    /// The slot in which the window of a step is kept, below `width`.
    pub fn slot(&self, step: u32) -> u32
        requires { step < length self.now.order.steps }
        ensures value { result ≡ slice_index self.now.order.slots step }
        ensures below { result < self.now.order.width }
        ensures valid { IsPlan self.now }
    {
        self.schedule.slot(step)
    }

    /// How many windows are kept at once for a chunk.
    pub fn width(&self) -> u32
        ensures value { result ≡ self.now.order.width }
        ensures valid { IsPlan self.now }
    {
        self.schedule.width()
    }

    /// The most cells of a window.
    pub fn largest(&self) -> u64
        ensures value { result ≡ spec.largest_window self.now.graph self.now.size }
        ensures valid { IsPlan self.now }
    {
        self.schedule.largest()
    }

    /// How many cells an evaluation needs besides.
    pub fn scratch(&self) -> u64
        ensures value { result ≡ spec.scratch_of self.now.graph }
        ensures valid { IsPlan self.now }
    {
        self.scratch
    }

    /// How many chunks the result has.
    pub fn chunks(&self) -> u64
        ensures value { result ≡ spec.chunks_of self.now.graph self.now.size }
        ensures most { result ≤ 2 ^ 48 }
        ensures valid { IsPlan self.now }
    {
        self.grid.count()
    }

    /// The chunk of a number.
    pub fn chunk(&self, k: u64) -> Window
        requires { k < spec.chunks_of self.now.graph self.now.size }
        ensures value { result ≡ chunk_window
            (tiling_of (shape_of_node self.now.graph self.now.graph.result) self.now.size) k }
        ensures sides { FitsSides
            (tiling_of (shape_of_node self.now.graph self.now.graph.result) self.now.size) result }
        ensures inside { Holds
            (whole_window (shape_of_node self.now.graph self.now.graph.result)) result }
        ensures filled { (p : Position) × IsIn result p }
        ensures valid { IsPlan self.now }
    {
        self.grid.chunk(k)
    }

    /// The step of the node whose cube the node of a step takes as its argument of a number, counted from 0. `None`
    /// where it takes none of that number, as a node that loads.
    pub fn argument(&self, step: u32, number: u32) -> Option<u32>
        requires { step < length self.now.order.steps }
        ensures exact { (r : ℕ) → (result ≡ Some r) ↔ Takes self.now.graph step number r }
        ensures valid { IsPlan self.now }
    {
        argument_of(&self.checked, self.schedule.order(), step, number)
    }

    /// The windows of all steps for a chunk, one for each step: the chunk itself at the step of the result, and at each
    /// other step the least box that has what the windows of all steps that take its cube need of it.
    pub fn windows_of(&self, chunk: &Window, windows: &mut [Window])
        requires each { length windows.old ≡ length self.now.order.steps }
        requires sides { FitsSides
            (tiling_of (shape_of_node self.now.graph self.now.graph.result) self.now.size)
            chunk.now }
        requires inside { Holds
            (whole_window (shape_of_node self.now.graph self.now.graph.result)) chunk.now }
        requires filled { (p : Position) × IsIn chunk.now p }
        ensures windows { AreWindows self.now.graph self.now.size chunk.now windows.new }
        ensures valid { IsPlan self.now }
    {
        windows_of(&self.checked, &self.schedule, chunk, windows);
    }
}

/// The node that a node takes as its argument of a number; a node that loads takes none.
fn argument_at(links: &Links, number: u32) -> Option<u32>
    ensures { result ≡ argument_at links.now number }
{
    let arguments = links.arguments.as_slice();
    if links.load || number as usize >= arguments.len() {
        return None;
    }
    Some(arguments[number as usize])
}

/// The step of the node whose cube the node of a step takes as its argument of a number.
fn argument_of(checked: &Checked, order: &NodeOrder, step: u32, number: u32) -> Option<u32>
    requires within { step < length order.now.steps }
    requires steps { AreStepsOf checked.now order.now.steps }
    requires listing { IsListing (links_of checked.now.nodes) checked.now.result order.now.steps }
    ensures { (r : ℕ) → (result ≡ Some r) ↔ Takes checked.now step number r }
{
    let node = order.steps()[step as usize];
    match argument_at(&checked.links()[node as usize], number) {
        Some(taken) => order.step_of(taken),
        None => None,
    }
}
