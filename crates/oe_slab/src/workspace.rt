// What a run is evaluated in that is folded slab by slab.
ghost use Rattle.std.specs.Prelude.{◌≡◌, ◌≤◌, ◌^◌, IfErr, IfOk, List, OnOk, length};
ghost use Rattle.oe_cell.specs.declared.cell.Cell.{Cell};
ghost use Rattle.oe_dims.specs.Dimensions.{cell_count};
ghost use Rattle.oe_plan.specs.Windows.{AreWindows};
ghost use Rattle.oe_render.specs.Rendered.{HasSinkCause, HasSpoolCause, RendersCube};
ghost use Rattle.oe_render.specs.Stored.{HasCells};
ghost use Rattle.oe_sources.specs.CatalogueRows.{rows_of};
ghost use Rattle.oe_steps.specs.Buffers.{lists_of};
ghost use Rattle.oe_steps.specs.Collections.{HasCollections};
ghost use Rattle.oe_steps.specs.Loads.{HasRead};
ghost use Rattle.oe_window.specs.Windows.{position_count};
ghost use Rattle.oe_window.specs.declared.window.Window.{Window};
ghost use Rattle.oe_slab.specs.Figures.{slab_bound};
ghost use Rattle.oe_slab.specs.Planes.{AreFolded, ForEachFolded, ForEachVisible, HasPlane, plane_folds};
ghost use Rattle.oe_slab.specs.Plans.{most_asked};
ghost use Rattle.oe_slab.specs.Rendered.{IsRefusalOf};
ghost use Rattle.oe_slab.specs.Results.{AreResultOf, HasCellsOn, HasResultOn, IsChunkOf, answer_of};
ghost use Rattle.oe_slab.specs.Runs.{result_shape};
ghost use Rattle.oe_slab.specs.Slabs.{HaveFoldedKind};
ghost use Rattle.oe_slab.specs.Workspaces.{IsWorkspaceFor, held_cells};

use crate::chunk::{fold_all, plane_of, put_plane};
use crate::evaluate::pick_windows;
use crate::plan::SlabPlan;
use oe_cell::Cell;
use oe_fold::{Pass, Reducer};
use oe_memory::OutOfMemory;
use oe_outside::{Pending, Sink, Store};
use oe_render::{RenderFail, render};
use oe_sources::Catalogue;
use oe_steps::{RunFail, buffers_of, empty_window, evaluate_steps, front, step_of_last};
use oe_window::Window;
use std::alloc::Global;
use std::marker::Model;

/// What a run is evaluated in: buffers for the slabs before its cut, the folds of a plane, buffers for the planes behind
/// the cut, cells to work with, and windows.
pub struct SlabWorkspace {
    before: Vec<Vec<Cell>>,
    folds: Vec<Pass>,
    behind: Vec<Vec<Cell>>,
    scratch: Vec<Cell>,
    windows: Vec<Window>,
    windows_before: Vec<Window>,
    windows_behind: Vec<Window>,
    cells: u64,
}

impl Model for SlabWorkspace {
    ghost use Rattle.std.specs.Prelude.{◌≡◌};
    ghost use Rattle.oe_slab.specs.Workspaces.{SlabWorkspaceOf, held_cells};
    ghost use Rattle.oe_steps.specs.Buffers.{lists_of};

    ghost Value = { SlabWorkspaceOf };

    ghost view = { λ w. record {
      before = lists_of w.before.items;
      folds = w.folds.items;
      behind = lists_of w.behind.items;
      scratch = w.scratch.items;
      windows = w.windows.items;
      windows_before = w.windows_before.items;
      windows_behind = w.windows_behind.items;
    } };

    ghost invariant = { λ w. w.cells ≡ held_cells (record {
      before = lists_of w.before.items;
      folds = w.folds.items;
      behind = lists_of w.behind.items;
      scratch = w.scratch.items;
      windows = w.windows.items;
      windows_before = w.windows_before.items;
      windows_behind = w.windows_behind.items;
    }) };
}

/// Written out, so that a workspace that ends is one call wherever it does.
impl Drop for SlabWorkspace {
    fn drop(self) {
        let SlabWorkspace {
            before: _,
            folds: _,
            behind: _,
            scratch: _,
            windows: _,
            windows_before: _,
            windows_behind: _,
            cells: _,
        } = self;
    }
}

/// So many copies of a value.
fn copies_of<T: Copy>(alloc: Global, value: T, count: usize) -> Result<Vec<T>, OutOfMemory>
    ensures { IfOk result (λ copies. length copies.items ≡ count) }
{
    Ok(vec![in alloc; value; count]?)
}

/// So many folds before their first cell.
fn folds_of(alloc: Global, count: usize) -> Result<Vec<Pass>, OutOfMemory>
    ensures { IfOk result (λ folds. length folds.items ≡ count) }
{
    copies_of(alloc, Pass::start(Reducer::First, false), count)
}

impl SlabWorkspace {
    /// What a plan is run in. All memory of the run is taken here.
    ///
    /// Refuses: where an allocation was refused, and nowhere else.
    pub fn new(alloc: Global, plan: &SlabPlan) -> Result<SlabWorkspace, OutOfMemory>
        ensures room { IfOk result (IsWorkspaceFor plan.now) }
        // It holds as many cells as the bound of the plan.
        ensures cells { IfOk result (λ w. held_cells w
            ≡ slab_bound plan.now.graph plan.now.size plan.now.fold) }
    {
        let plane = plan.plane();
        let cells = plan.bound() as u64;
        Ok(SlabWorkspace {
            before: buffers_of(alloc, plan.width_before(), plan.slab())?,
            behind: buffers_of(alloc, plan.width_behind(), plane)?,
            scratch: vec![in alloc; Cell::Empty; plan.scratch()]?,
            windows: vec![in alloc; empty_window(); plan.whole().steps().len()]?,
            windows_before: vec![in alloc; empty_window(); plan.before().steps().len()]?,
            windows_behind: vec![in alloc; empty_window(); plan.behind().steps().len()]?,
            cells,
            folds: folds_of(alloc, plane)?,
        })
    }

    /// How many cells it holds: a fold counts as two.
    pub fn cells(&self) -> u64
        ensures { result ≡ held_cells self.now }
    {
        self.cells
    }

    /// Evaluates the result on a chunk: its cells are those of `result_cells` then. Takes no memory.
    ///
    /// Refuses: where a read of a collection is refused.
    pub(crate) fn evaluate(
        &mut self,
        plan: &SlabPlan,
        catalogue: &mut Catalogue,
        chunk: &Window,
    ) -> Result<(), RunFail>
        requires room { IsWorkspaceFor plan.now self.old }
        requires mounted { HasCollections plan.now.graph (rows_of seen catalogue.old) }
        requires chunk { IsChunkOf plan.now chunk.now }
        ensures room { IsWorkspaceFor plan.now self.new }
        ensures result { OnOk result (HasResultOn plan.now chunk.now self.new) }
        ensures value { OnOk result (ForEachVisible plan.now.graph (rows_of seen catalogue.old)
            (HasCellsOn plan.now self.new chunk.now)) }
        ensures read { HasRead plan.now.graph (most_asked plan.now)
            (rows_of seen catalogue.old) (rows_of seen catalogue.new) result }
    {
        let plane = self.fold(plan, catalogue, chunk)?;
        self.evaluate_behind(plan, &plane);
        Ok(())
    }

    /// Finds the windows of the whole run for a chunk, and folds all dates of that of the cut. Answers this one.
    ///
    /// Refuses: where a read of a collection is refused.
    fn fold(
        &mut self,
        plan: &SlabPlan,
        catalogue: &mut Catalogue,
        chunk: &Window,
    ) -> Result<Window, RunFail>
        requires room { IsWorkspaceFor plan.now self.old }
        requires mounted { HasCollections plan.now.graph (rows_of seen catalogue.old) }
        requires chunk { IsChunkOf plan.now chunk.now }
        ensures room { IsWorkspaceFor plan.now self.new }
        ensures plane { IfOk result (HasPlane plan.now chunk.now self.new.windows) }
        ensures folded { IfOk result (λ plane. AreFolded plan.now (rows_of seen catalogue.old) plane
            (plane_folds plane self.new.folds)) }
        ensures read { HasRead plan.now.graph (most_asked plan.now)
            (rows_of seen catalogue.old) (rows_of seen catalogue.new) (answer_of result) }
    {
        let plane = plane_of(plan, chunk, &mut self.windows);
        fold_all(
            plan,
            catalogue,
            &self.windows,
            &plane,
            &mut self.windows_before,
            &mut self.before,
            &mut self.scratch,
            &mut self.folds,
        )?;
        Ok(plane)
    }

    /// Evaluates the part behind the cut, from the folds of a plane of the whole run's windows.
    fn evaluate_behind(&mut self, plan: &SlabPlan, plane: &Window)
        requires room { IsWorkspaceFor plan.now self.old }
        requires plane { (chunk : Window) × HasPlane plan.now chunk self.old.windows plane.now }
        requires kind { HaveFoldedKind plan.now.graph plan.now.fold
            (plane_folds plane.now self.old.folds) }
        ensures room { IsWorkspaceFor plan.now self.new }
        ensures result { (chunk : Window)
            → AreWindows plan.now.graph plan.now.size chunk self.old.windows
            → HasResultOn plan.now chunk self.new }
        ensures value { ForEachFolded plan.now plane.now (plane_folds plane.now self.old.folds)
            (λ collections. (chunk : Window) → AreWindows plan.now.graph plan.now.size chunk
            self.old.windows → HasCellsOn plan.now self.new chunk collections) }
    {
        let behind = plan.behind();
        pick_windows(plan, &self.windows, &mut self.windows_behind);
        put_plane(
            plan,
            plane,
            &self.folds,
            &self.windows_behind,
            &mut self.behind,
        );
        evaluate_steps(
            plan.checked(),
            behind,
            &self.windows_behind,
            &mut self.behind,
            &mut self.scratch,
        );
    }

    /// The cells of the result on the chunk that was evaluated, in row-major order.
    #[tactic(auto, using(crate::proofs::ResultLemmas::room_behind, crate::proofs::ResultLemmas::are_result, crate::proofs::ResultLemmas::only_result, crate::proofs::ResultLemmas::as_many))]
    pub(crate) fn result_cells<'a>(&'a self, plan: &SlabPlan) -> &'a [Cell]
        requires room { IsWorkspaceFor plan.now self.now }
        requires result { (chunk : Window) × HasResultOn plan.now chunk self.now }
        ensures are { AreResultOf plan.now self.now result.now }
        ensures counted { (chunk : Window) → HasResultOn plan.now chunk self.now
            → length result.now ≡ position_count chunk }
        ensures only { (cells : List Cell) → AreResultOf plan.now self.now cells
            → cells ≡ result.now }
    {
        front(
            plan.checked(),
            plan.behind(),
            step_of_last(plan.checked(), plan.behind()),
            &self.windows_behind,
            &self.behind,
        )
    }

    /// Writes the result text from records in a spool, with the cells to work with as its buffer.
    ///
    /// Refuses: as [`oe_render::render`] does.
    pub(crate) fn render<P: Store, O: Sink>(
        &mut self,
        plan: &SlabPlan,
        spool: &mut P,
        base: u64,
        out: &mut O,
        pending: &mut Pending,
    ) -> Result<(), RenderFail>
        requires room { IsWorkspaceFor plan.now self.old }
        requires base { base ≤ 2 ^ 62 }
        requires stored { HasCells (P.bytes spool.old) base (cell_count (result_shape plan.now)) }
        ensures room { IsWorkspaceFor plan.now self.new }
        ensures rendered { RendersCube base (result_shape plan.now) O.written O.size
            out.old out.new P.bytes spool.old result }
        ensures spool_cause { HasSpoolCause P.faults spool.old spool.new result }
        ensures sink_cause { HasSinkCause O.faults out.old out.new result }
        ensures damage { IfErr result (IsRefusalOf plan.now (P.bytes spool.old)) }
        ensures same { P.bytes spool.new ≡ P.bytes spool.old }
    {
        render(plan.shape(), spool, base, out, &mut self.scratch, pending)
    }
}
