// The steps of a plan: those of its schedule.
ghost use Rattle.std.specs.Prelude.{◌≡◌, ◌<◌, ◌≤◌, ◌+◌, ◌^◌, ℕ, List, false, true, Ok, Some, OnOk, length, take};
ghost use Rattle.oe_engine.specs.Benches.{AreCells, AreOfChunk, AreOfKind, EachLoad, HaveRoomFor, OfResult, buffer_cells_at, cells_of_largest_window, is_load_at, node_at};
ghost use Rattle.oe_engine.specs.Hulls.{TakesRow};
ghost use Rattle.oe_engine.specs.Loads.{IsRowToLoad, LoadsOver, TellsWhyAt};
ghost use Rattle.oe_plan.specs.Figures.{scratch_of};
ghost use Rattle.oe_plan.specs.Plans.{IsPlan};
ghost use Rattle.oe_plan.specs.Windows.{window_at};
ghost use Rattle.oe_check.specs.Checked.{collection_of_node};
ghost use Rattle.oe_meanings.specs.Graphs.{Collections};
ghost use Rattle.oe_check.specs.Laws.{AreCollectionsOf};
ghost use Rattle.oe_sources.specs.CatalogueRows.{rows_of, seal_of};
ghost use Rattle.oe_sources.specs.Permits.{MayLook, SpendsAtMost, permit_raised};
ghost use Rattle.oe_sources.specs.Source.{answer_of};
ghost use Rattle.oe_steps.specs.Buffers.{lists_of};
ghost use Rattle.oe_steps.specs.Collections.{HasCollections, IsMountedAt};
ghost use Rattle.oe_steps.specs.Loads.{AreLoaded, HasRead, TellsWhy, refusal_for};
ghost use Rattle.oe_steps.specs.Strips.{IsStripOf};
ghost use Rattle.oe_window.specs.Parts.{row_count};
ghost use Rattle.oe_window.specs.Windows.{span_length};

use oe_cell::Cell;
use oe_plan::Plan;
use oe_sources::{Catalogue, LookFail, Looker, Permit};
use oe_steps::RunFail;
use oe_window::Window;

/// The cells of a step: the front of the buffer of its slot.
pub(crate) fn front<'a>(
    plan: &Plan,
    step: u32,
    windows: &[Window],
    buffers: &'a [Vec<Cell>],
) -> &'a [Cell]
    requires step { step < length plan.now.order.steps }
    requires windows { AreOfChunk plan.now windows.now }
    requires room { HaveRoomFor plan.now (lists_of buffers.now) }
    ensures { result.now ≡ buffer_cells_at plan.now windows.now (lists_of buffers.now) step }
{
    oe_steps::front(plan.checked(), plan.schedule(), step, windows, buffers)
}

/// The step of the result.
pub(crate) fn step_of_result(plan: &Plan) -> u32
    ensures within { result < length plan.now.order.steps }
    ensures is { node_at plan.now result ≡ plan.now.graph.result }
    ensures valid { IsPlan plan.now }
{
    oe_steps::step_of_last(plan.checked(), plan.schedule())
}

/// How many steps load a collection: they are the first ones.
pub(crate) fn loads(plan: &Plan) -> u32
    ensures most { result ≤ length plan.now.order.steps }
    ensures load { (step : ℕ) → step < result → is_load_at plan.now step ≡ true }
    ensures work { (step : ℕ) → result ≤ step → step < length plan.now.order.steps
        → is_load_at plan.now step ≡ false }
    ensures valid { IsPlan plan.now }
{
    oe_steps::loads(plan.checked(), plan.schedule())
}

/// Evaluates each step that loads no collection, in order.
pub(crate) fn evaluate_steps(
    plan: &Plan,
    windows: &[Window],
    buffers: &mut [Vec<Cell>],
    scratch: &mut [Cell],
)
    requires windows { AreOfChunk plan.now windows.now }
    requires room { HaveRoomFor plan.now (lists_of buffers.old) }
    requires scratch { length scratch.old ≡ scratch_of plan.now.graph }
    requires kinds { EachLoad plan.now (AreOfKind plan.now windows.now (lists_of buffers.old)) }
    ensures plan { IsPlan plan.now }
    ensures room { HaveRoomFor plan.now (lists_of buffers.new) }
    ensures kinds { OfResult plan.now (AreOfKind plan.now windows.now (lists_of buffers.new)) }
    ensures value { (collections : Collections) → AreCollectionsOf plan.now.graph collections
        → EachLoad plan.now (AreCells collections plan.now windows.now (lists_of buffers.old))
        → OfResult plan.now (AreCells collections plan.now windows.now (lists_of buffers.new)) }
{
    oe_steps::evaluate_steps(plan.checked(), plan.schedule(), windows, buffers, scratch);
}

/// Puts the cells of a step that loads a collection, on its window, into the buffer of its slot.
///
/// Refuses: where a look at a collection is refused.
pub(crate) fn look_slot(
    plan: &Plan,
    catalogue: &Catalogue,
    step: u32,
    windows: &[Window],
    buffers: &mut [Vec<Cell>],
    looker: &mut Looker,
) -> Result<(), LookFail>
    requires step { step < length plan.now.order.steps }
    requires load { is_load_at plan.now step ≡ true }
    requires mounted { HasCollections plan.now.graph (rows_of seen catalogue.now) }
    requires windows { AreOfChunk plan.now windows.now }
    requires room { HaveRoomFor plan.now (lists_of buffers.old) }
    requires asked { MayLook (seal_of catalogue.now) (cells_of_largest_window plan.now) looker.old }
    ensures room { HaveRoomFor plan.now (lists_of buffers.new) }
    ensures loaded { LoadsOver plan.now (rows_of seen catalogue.now) step windows.now
        (lists_of buffers.old) (lists_of buffers.new) result }
    ensures spent { SpendsAtMost (cells_of_largest_window plan.now) looker.old looker.new }
    ensures refused { TellsWhyAt plan.now (rows_of seen catalogue.now) step result }
{
    oe_steps::look_slot(
        plan.checked(),
        plan.schedule(),
        catalogue,
        step,
        windows,
        buffers,
        looker,
    )
}

/// Asks for so many cells of the collection that a step loads, which then may be looked at with the permit.
pub(crate) fn ask(
    plan: &Plan,
    catalogue: &mut Catalogue,
    step: u32,
    cells: u64,
    permit: &mut Permit,
)
    requires step { step < length plan.now.order.steps }
    requires load { is_load_at plan.now step ≡ true }
    requires mounted { HasCollections plan.now.graph (rows_of seen catalogue.old) }
    requires own { permit.old.seal ≡ seal_of catalogue.old }
    requires few { permit.old.left + cells < 2 ^ 64 }
    ensures asked { HasRead plan.now.graph cells (rows_of seen catalogue.old)
        (rows_of seen catalogue.new) (Ok tt) }
    ensures permit { permit.new ≡ permit_raised cells permit.old }
    ensures seal { seal_of catalogue.new ≡ seal_of catalogue.old }
{
    oe_steps::ask(
        plan.checked(),
        plan.schedule(),
        catalogue,
        step,
        cells,
        permit,
    );
}

/// Counts the fault that a look for a step met, if it met one.
///
/// Refuses: as the look was refused.
pub(crate) fn settle(
    plan: &Plan,
    catalogue: &mut Catalogue,
    step: u32,
    looked: Result<(), LookFail>,
) -> Result<(), RunFail>
    requires step { step < length plan.now.order.steps }
    requires load { is_load_at plan.now step ≡ true }
    requires mounted { HasCollections plan.now.graph (rows_of seen catalogue.old) }
    requires refused { TellsWhy plan.now.graph (rows_of seen catalogue.old)
        (node_at plan.now step) looked }
    ensures answer { result ≡ refusal_for (node_at plan.now step) (answer_of looked) }
    ensures read { HasRead plan.now.graph 0 (rows_of seen catalogue.old)
        (rows_of seen catalogue.new) result }
{
    oe_steps::settle(plan.checked(), plan.schedule(), catalogue, step, looked)
}

/// The row of the collection that the node of a step loads.
pub(crate) fn place_of(plan: &Plan, catalogue: &Catalogue, step: u32) -> u32
    requires step { step < length plan.now.order.steps }
    requires load { is_load_at plan.now step ≡ true }
    requires mounted { HasCollections plan.now.graph (rows_of seen catalogue.now) }
    ensures { (id : List ℕ) × (collection_of_node plan.now.graph (node_at plan.now step) ≡ Some id)
        × IsMountedAt plan.now.graph (rows_of seen catalogue.now) id result }
{
    oe_steps::place_of(plan.checked(), plan.schedule(), catalogue, step)
}

/// Puts the cells of the node of a step on one row of a window into the front of some cells.
pub(crate) fn look_front(
    plan: &Plan,
    catalogue: &Catalogue,
    step: u32,
    place: u32,
    row: &Window,
    looker: &mut Looker,
    cells: &mut [Cell],
) -> Result<(), LookFail>
    requires row { IsRowToLoad plan.now (rows_of seen catalogue.now) step place row.now }
    requires room { span_length row.now.x ≤ length cells.old }
    requires asked { MayLook (seal_of catalogue.now) (span_length row.now.x) looker.old }
    ensures loaded { OnOk result (AreLoaded plan.now.graph (rows_of seen catalogue.now)
        (node_at plan.now step) row.now (take (span_length row.now.x) cells.new)) }
    ensures spent { SpendsAtMost (span_length row.now.x) looker.old looker.new }
    ensures refused { TellsWhyAt plan.now (rows_of seen catalogue.now) step result }
{
    oe_steps::look_front(
        plan.checked(),
        plan.schedule(),
        catalogue,
        step,
        place,
        row,
        looker,
        cells,
    )
}

/// Writes what the window of a step takes of a hull's row behind the rows before it, into the buffer of the step's
/// slot.
pub(crate) fn take_part(
    plan: &Plan,
    step: u32,
    hull: &Window,
    number: u64,
    row: &[Cell],
    windows: &[Window],
    buffers: &mut [Vec<Cell>],
)
    requires step { step < length plan.now.order.steps }
    requires windows { AreOfChunk plan.now windows.now }
    requires room { HaveRoomFor plan.now (lists_of buffers.old) }
    requires strip { IsStripOf hull.now (window_at windows.now step) }
    requires number { number < row_count hull.now }
    requires row { length row.now ≡ span_length hull.now.x }
    ensures room { HaveRoomFor plan.now (lists_of buffers.new) }
    ensures loaded { TakesRow plan.now step hull.now number row.now windows.now
        (lists_of buffers.old) (lists_of buffers.new) }
{
    oe_steps::take_part(
        plan.checked(),
        plan.schedule(),
        step,
        hull,
        number,
        row,
        windows,
        buffers,
    );
}
