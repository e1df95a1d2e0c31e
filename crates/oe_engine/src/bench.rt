// A bench: what one chunk of a run is evaluated in.
ghost use Rattle.std.specs.Prelude.{◌≡◌, ◌<◌, ◌+◌, ◌*◌, ℕ, IfOk, length, ◌≤◌, ◌^◌, OnOk, IfErr, List, take, true};
ghost use Rattle.oe_meanings.specs.Graphs.{Collections};
ghost use Rattle.oe_check.specs.Laws.{AreCollectionsOf};
ghost use Rattle.oe_plan.specs.Fits.{bench_cells};
ghost use Rattle.oe_engine.specs.Benches.{IsBenchFor, IsDone, IsLoaded, cells_of_largest_window, chunk_of, held_cells, IsAtChunk, is_load_at, node_at};
ghost use Rattle.oe_steps.specs.Steps.{node_cells};
ghost use Rattle.oe_steps.specs.Buffers.{lists_of};
ghost use Rattle.oe_engine.specs.Chunks.{AreResultOf};
ghost use Rattle.oe_engine.specs.declared.bench.State.TheVariants.{Idle, Loaded, Done};
ghost use Rattle.oe_dims.specs.Dimensions.{cell_count};
ghost use Rattle.oe_render.specs.Rendered.{HasSinkCause, HasSpoolCause, RendersCube};
ghost use Rattle.oe_render.specs.Stored.{HasCells};
ghost use Rattle.oe_sources.specs.CatalogueRows.{rows_of, seal_of};
ghost use Rattle.oe_sources.specs.Permits.{MayLook, SpendsAtMost};
ghost use Rattle.oe_steps.specs.Collections.{HasCollections};
ghost use Rattle.oe_steps.specs.Loads.{AreLoaded};
ghost use Rattle.oe_engine.specs.Loads.{IsRowToLoad, LoadsBench, TellsWhyAt};
ghost use Rattle.oe_engine.specs.Rendered.{IsRefusalOf};
ghost use Rattle.oe_engine.specs.Runs.{chunk_total, result_shape};
ghost use Rattle.oe_engine.specs.Hulls.{BenchTakesRow, HasLoadedSteps, IsBegun, IsStripped, LoadsFirst};
ghost use Rattle.oe_plan.specs.Plans.{IsPlan, PlanOf};
ghost use Rattle.oe_plan.specs.Windows.{window_at};
ghost use Rattle.oe_sources.specs.Catalogue.{Row};
ghost use Rattle.oe_window.specs.Parts.{row_count};
ghost use Rattle.oe_window.specs.Windows.{span_length};

use crate::steps::{evaluate_steps, front, look_front, look_slot, step_of_result, take_part};
use oe_cell::Cell;
use oe_memory::OutOfMemory;
use oe_outside::{Pending, Sink, Store};
use oe_plan::Plan;
use oe_render::{RenderFail, render};
use oe_sources::{Catalogue, LookFail, Looker};
use oe_steps::{buffers_of, empty_window};
use oe_window::Window;
use std::alloc::Global;
use std::marker::Model;

/// How far the chunk of a bench is.
#[derive(Clone, Copy, PartialEq, Eq)]
pub enum State {
    /// It has no chunk.
    Idle,
    /// It is loaded for the chunk of this number.
    Loaded(u64),
    /// The chunk of this number is evaluated.
    Done(u64),
}

/// What a chunk is evaluated in: a window for each step of a plan, a buffer for each slot, and cells to work with.
pub struct Bench {
    state: State,
    windows: Vec<Window>,
    buffers: Vec<Vec<Cell>>,
    scratch: Vec<Cell>,
}

impl Model for Bench {
    ghost use Rattle.oe_engine.specs.Benches.{BenchOf};
    ghost use Rattle.oe_steps.specs.Buffers.{lists_of};

    ghost Value = { BenchOf };

    ghost view = { λ b. record {
      state = b.state;
      windows = b.windows.items;
      buffers = lists_of b.buffers.items;
      scratch = b.scratch.items;
    } };
}

/// Written out, so that a bench that ends is one call wherever it does.
impl Drop for Bench {
    fn drop(self) {
        let Bench {
            state: _,
            windows: _,
            buffers: _,
            scratch: _,
        } = self;
    }
}

impl Bench {
    /// An idle bench with room for each chunk of a plan. All its memory is taken here.
    pub fn new(alloc: Global, plan: &Plan) -> Result<Bench, OutOfMemory>
        ensures idle { IfOk result (λ b. b.state ≡ Idle) }
        ensures room { IfOk result (λ b. IsBenchFor plan.now b) }
        ensures cells { IfOk result (λ b. held_cells b ≡ bench_cells plan.now) }
    {
        Ok(Bench {
            state: State::Idle,
            windows: vec![in alloc; empty_window(); plan.steps().len()]?,
            buffers: buffers_of(alloc, plan.width() as usize, plan.largest() as usize)?,
            scratch: vec![in alloc; Cell::Empty; plan.scratch() as usize]?,
        })
    }

    /// How many cells it holds, which no call changes.
    pub fn cells(&self, plan: &Plan) -> u64
        requires { IsBenchFor plan.now self.now }
        ensures { result ≡ held_cells self.now }
    {
        u64::from(plan.width()) * plan.largest() + plan.scratch()
    }

    /// Whether it has a chunk, and how far that is.
    pub fn state(&self) -> State
        ensures { result ≡ self.now.state }
    {
        self.state
    }

    /// Gives it the windows of a chunk. It is idle until all is loaded.
    pub(crate) fn begin(&mut self, plan: &Plan, chunk: u64)
        requires bench { IsBenchFor plan.now self.old }
        requires chunk { chunk < chunk_total plan.now }
        ensures begun { IsBegun plan.now self.new }
        ensures chunk { IsAtChunk plan.now chunk self.new }
    {
        self.state = State::Idle;
        plan.windows_of(&plan.chunk(chunk), &mut self.windows);
    }

    /// Says that it is loaded for its chunk, which has this number.
    pub(crate) fn end(&mut self, chunk: u64)
        ensures loaded { (p : PlanOf) (rows : List Row) (count : ℕ) → IsPlan p → LoadsFirst p count
            → IsBegun p self.old → HasLoadedSteps p rows count chunk self.old
            → LoadsBench p rows chunk self.new }
    {
        self.state = State::Loaded(chunk);
    }

    /// The window of a step.
    pub(crate) fn window(&self, step: u32) -> Window
        requires { step < length self.now.windows }
        ensures { result ≡ window_at self.now.windows step }
    {
        self.windows[step as usize]
    }

    /// So many of the cells that it works with.
    pub(crate) fn scratch(&self, count: usize) -> &[Cell]
        requires { count ≤ length self.now.scratch }
        ensures { result.now ≡ take count self.now.scratch }
    {
        &self.scratch[..count]
    }

    /// Looks at the cells of a step that loads a collection.
    ///
    /// Refuses: where a look at a collection is refused.
    pub(crate) fn load_step(
        &mut self,
        plan: &Plan,
        catalogue: &Catalogue,
        step: u32,
        looker: &mut Looker,
    ) -> Result<(), LookFail>
        requires step { step < length plan.now.order.steps }
        requires load { is_load_at plan.now step ≡ true }
        requires mounted { HasCollections plan.now.graph (rows_of seen catalogue.now) }
        requires begun { IsBegun plan.now self.old }
        requires asked { MayLook (seal_of catalogue.now)
            (cells_of_largest_window plan.now) looker.old }
        ensures begun { IsBegun plan.now self.new }
        ensures loaded { (k : ℕ)
            → HasLoadedSteps plan.now (rows_of seen catalogue.now) step k self.old → OnOk result
            (HasLoadedSteps plan.now (rows_of seen catalogue.now) (step + 1) k self.new) }
        ensures spent { SpendsAtMost (cells_of_largest_window plan.now) looker.old looker.new }
        ensures refused { TellsWhyAt plan.now (rows_of seen catalogue.now) step result }
    {
        look_slot(
            plan,
            catalogue,
            step,
            &self.windows,
            &mut self.buffers,
            looker,
        )
    }

    /// Looks at a row of a hull, in the collection of a row of the catalogue, and puts it into the cells to work with.
    ///
    /// Refuses: where the look is refused.
    pub(crate) fn look_row(
        &mut self,
        plan: &Plan,
        catalogue: &Catalogue,
        step: u32,
        place: u32,
        row: &Window,
        looker: &mut Looker,
    ) -> Result<(), LookFail>
        requires row { IsRowToLoad plan.now (rows_of seen catalogue.now) step place row.now }
        requires room { span_length row.now.x ≤ length self.old.scratch }
        requires asked { MayLook (seal_of catalogue.now) (span_length row.now.x) looker.old }
        ensures loaded { OnOk result (AreLoaded plan.now.graph (rows_of seen catalogue.now)
            (node_at plan.now step) row.now (take (span_length row.now.x) self.new.scratch)) }
        ensures others { (record self.new { scratch = self.old.scratch }) ≡ self.old }
        ensures scratch { length self.new.scratch ≡ length self.old.scratch }
        ensures spent { SpendsAtMost (span_length row.now.x) looker.old looker.new }
        ensures refused { TellsWhyAt plan.now (rows_of seen catalogue.now) step result }
    {
        look_front(plan, catalogue, step, place, row, looker, &mut self.scratch)
    }

    /// Takes its part of a row that it read itself.
    pub(crate) fn take_own_row(&mut self, plan: &Plan, step: u32, hull: &Window, number: u64)
        requires step { step < length plan.now.order.steps }
        requires stripped { IsStripped plan.now hull.now step self.old }
        requires number { number < row_count hull.now }
        requires room { span_length hull.now.x ≤ length self.old.scratch }
        ensures stripped { IsStripped plan.now hull.now step self.new }
        ensures scratch { self.new.scratch ≡ self.old.scratch }
        ensures loaded { BenchTakesRow plan.now step hull.now number
            (take (span_length hull.now.x) self.old.scratch) self.old self.new }
    {
        let count = (hull.x.to - hull.x.from) as usize;
        let row = &self.scratch[..count];
        take_part(
            plan,
            step,
            hull,
            number,
            row,
            &self.windows,
            &mut self.buffers,
        );
    }

    /// Takes its part of a hull's row of a number.
    pub(crate) fn take_row(
        &mut self,
        plan: &Plan,
        step: u32,
        hull: &Window,
        number: u64,
        row: &[Cell],
    )
        requires step { step < length plan.now.order.steps }
        requires stripped { IsStripped plan.now hull.now step self.old }
        requires number { number < row_count hull.now }
        requires row { length row.now ≡ span_length hull.now.x }
        ensures stripped { IsStripped plan.now hull.now step self.new }
        ensures loaded { BenchTakesRow plan.now step hull.now number row.now self.old self.new }
    {
        take_part(
            plan,
            step,
            hull,
            number,
            row,
            &self.windows,
            &mut self.buffers,
        );
    }

    /// Writes the result text from records in a spool, with the cells to work with as its buffer.
    ///
    /// Refuses: as [`oe_render::render`] does.
    pub(crate) fn render<P: Store, O: Sink>(
        &mut self,
        plan: &Plan,
        spool: &mut P,
        base: u64,
        out: &mut O,
        pending: &mut Pending,
    ) -> Result<(), RenderFail>
        requires bench { IsBenchFor plan.now self.old }
        requires base { base ≤ 2 ^ 62 }
        requires stored { HasCells (P.bytes spool.old) base (cell_count (result_shape plan.now)) }
        ensures bench { IsBenchFor plan.now self.new }
        ensures rendered { RendersCube base (result_shape plan.now) O.written O.size
            out.old out.new P.bytes spool.old result }
        ensures spool_cause { HasSpoolCause P.faults spool.old spool.new result }
        ensures sink_cause { HasSinkCause O.faults out.old out.new result }
        ensures damage { IfErr result (IsRefusalOf plan.now (P.bytes spool.old)) }
        ensures same { P.bytes spool.new ≡ P.bytes spool.old }
    {
        render(plan.shape(), spool, base, out, &mut self.scratch, pending)
    }

    /// Evaluates the chunk that it is loaded for, once; a bench that is idle or done stays as it is. Takes no memory.
    pub fn evaluate(&mut self, plan: &Plan)
        requires { IsBenchFor plan.now self.old }
        ensures bench { IsBenchFor plan.now self.new }
        ensures idle { self.old.state ≡ Idle → self.new ≡ self.old }
        ensures done { (k : ℕ) → self.old.state ≡ Done k → self.new ≡ self.old }
        ensures evaluated { (k : ℕ) → self.old.state ≡ Loaded k → self.new.state ≡ Done k }
        // Over whatever collections it was loaded, it is done over the same ones.
        ensures value { (collections : Collections) (k : ℕ)
            → AreCollectionsOf plan.now.graph collections
            → IsLoaded plan.now collections k self.old → IsDone plan.now collections k self.new }
    {
        if let State::Loaded(chunk) = self.state {
            evaluate_steps(plan, &self.windows, &mut self.buffers, &mut self.scratch);
            self.state = State::Done(chunk);
        }
    }

    /// The cells of the result on the chunk of a bench that is done, in row-major order: none of another bench.
    pub fn result_cells<'a>(&'a self, plan: &Plan) -> &'a [Cell]
        requires { IsBenchFor plan.now self.now }
        ensures value { (collections : Collections) (k : ℕ) → IsDone plan.now collections k self.now
            → result.now ≡ node_cells collections plan.now.graph plan.now.graph.result
            (chunk_of plan.now k) }
        ensures none { ((k : ℕ) → ¬ (self.now.state ≡ Done k)) → length result.now ≡ 0 }
        ensures done { (k : ℕ) → self.now.state ≡ Done k
            → AreResultOf plan.now self.now result.now }
    {
        match self.state {
            State::Done(_) => front(plan, step_of_result(plan), &self.windows, &self.buffers),
            _ => &[],
        }
    }
}
