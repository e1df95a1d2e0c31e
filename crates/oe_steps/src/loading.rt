// The cells of collections that windows need: asked for, and put into buffers by looks.
ghost use Rattle.std.specs.Prelude.{◌≡◌, ◌<◌, ◌≤◌, ◌+◌, ◌^◌, ℕ, List, true, Ok, Some, IfSome, OnOk, length, replicate, take};
ghost use Rattle.oe_cell.specs.declared.cell.Cell.TheVariants.{Empty};
ghost use Rattle.oe_cube.specs.Collections.{IsCollection};
ghost use Rattle.oe_dims.specs.Dimensions.{IsShape};
ghost use Rattle.oe_steps.specs.Steps.{HaveRoomFor, IsReadySchedule, KeepsOthers, loads_at};
ghost use Rattle.oe_steps.specs.Buffers.{lists_of};
ghost use Rattle.oe_steps.specs.Collections.{HasCollections, IsMountedAt};
ghost use Rattle.oe_steps.specs.Loads.{AreLoaded, CountsLoad, HasRead, TellsWhy, refusal_for};
ghost use Rattle.oe_steps.specs.Looks.{IsLoadStep, IsPlaneToLoad, IsRowToLoad, IsWindowToLoad, LoadsNext, size_at};
ghost use Rattle.oe_plan.specs.Schedules.{AreWindowsFor, IsSchedule, node_at};
ghost use Rattle.oe_check.specs.Checked.{collection_of_node};
ghost use Rattle.oe_sources.specs.Catalogue.{source_at};
ghost use Rattle.oe_sources.specs.CatalogueRows.{rows_of, seal_of};
ghost use Rattle.oe_sources.specs.Permits.{MayLook, SpendsAtMost, permit_raised};
ghost use Rattle.oe_sources.specs.Source.{answer_of, collection_of};
ghost use Rattle.oe_window.specs.Windows.{position_count, span_length};

use crate::fail::RunFail;
use oe_cell::Cell;
use oe_check::Checked;
use oe_dims::{Kind, Shape};
use oe_ops::source_window;
use oe_plan::Schedule;
use oe_sources::{Catalogue, LookFail, Looker, Permit, SourceFail, split_fault};
use oe_window::{Window, size};

/// Reads the cells of a step that loads a collection, on its window, into the buffer of its slot. The buffers of the
/// other slots stay as they are.
///
/// Refuses: where a read of a collection is refused.
pub fn load_slot(
    checked: &Checked,
    schedule: &Schedule,
    catalogue: &mut Catalogue,
    step: u32,
    windows: &[Window],
    buffers: &mut [Vec<Cell>],
) -> Result<(), RunFail>
    requires schedule { IsSchedule checked.now schedule.now }
    requires step { step < length schedule.now.order.steps }
    requires load { loads_at checked.now schedule.now step ≡ true }
    requires mounted { HasCollections checked.now (rows_of seen catalogue.old) }
    requires windows { AreWindowsFor checked.now schedule.now windows.now }
    requires room { HaveRoomFor schedule.now (lists_of buffers.old) }
    ensures room { HaveRoomFor schedule.now (lists_of buffers.new) }
    ensures others { KeepsOthers schedule.now step (lists_of buffers.old) (lists_of buffers.new) }
    ensures loaded { LoadsNext checked.now schedule.now (rows_of seen catalogue.old) step
        windows.now (lists_of buffers.old) (lists_of buffers.new) result }
    ensures read { HasRead checked.now schedule.now.largest
        (rows_of seen catalogue.old) (rows_of seen catalogue.new) result }
{
    let mut permit = catalogue.permit();
    let cells = size(&windows[step as usize]);
    ask(checked, schedule, catalogue, step, cells, &mut permit);
    let mut looker = Looker::new(permit);
    let looked = look_slot(
        checked,
        schedule,
        catalogue,
        step,
        windows,
        buffers,
        &mut looker,
    );
    settle(checked, schedule, catalogue, step, looked)
}

/// Puts the cells of a step that loads a collection, on its window, into the buffer of its slot, by looks, for which
/// they were asked. The buffers of the other slots stay as they are.
///
/// Refuses: where a look at a collection is refused.
pub fn look_slot(
    checked: &Checked,
    schedule: &Schedule,
    catalogue: &Catalogue,
    step: u32,
    windows: &[Window],
    buffers: &mut [Vec<Cell>],
    looker: &mut Looker,
) -> Result<(), LookFail>
    requires ready { IsReadySchedule checked.now schedule.now windows.now (lists_of buffers.old) }
    requires load { IsLoadStep checked.now schedule.now step }
    requires mounted { HasCollections checked.now (rows_of seen catalogue.now) }
    requires asked { MayLook (seal_of catalogue.now) (size_at windows.now step) looker.old }
    ensures room { HaveRoomFor schedule.now (lists_of buffers.new) }
    ensures others { KeepsOthers schedule.now step (lists_of buffers.old) (lists_of buffers.new) }
    ensures loaded { LoadsNext checked.now schedule.now (rows_of seen catalogue.now) step
        windows.now (lists_of buffers.old) (lists_of buffers.new) result }
    ensures spent { SpendsAtMost (size_at windows.now step) looker.old looker.new }
    ensures refused { TellsWhy checked.now (rows_of seen catalogue.now)
        (node_at schedule.now step) result }
{
    let slot = schedule.slot(step);
    let window = windows[step as usize];
    let buffer = buffers[slot as usize].as_mut_slice();
    look_step(checked, schedule, catalogue, step, &window, looker, buffer)
}

/// Asks for so many cells of the collection that a step loads, which then may be looked at with the permit, one of this
/// catalogue.
pub fn ask(
    checked: &Checked,
    schedule: &Schedule,
    catalogue: &mut Catalogue,
    step: u32,
    cells: u64,
    permit: &mut Permit,
)
    requires schedule { IsSchedule checked.now schedule.now }
    requires step { step < length schedule.now.order.steps }
    requires load { loads_at checked.now schedule.now step ≡ true }
    requires mounted { HasCollections checked.now (rows_of seen catalogue.old) }
    requires own { permit.old.seal ≡ seal_of catalogue.old }
    requires few { permit.old.left + cells < 2 ^ 64 }
    ensures asked { HasRead checked.now cells (rows_of seen catalogue.old)
        (rows_of seen catalogue.new) (Ok tt) }
    ensures counted { CountsLoad checked.now (node_at schedule.now step) cells
        (rows_of seen catalogue.old) (rows_of seen catalogue.new) }
    ensures permit { permit.new ≡ permit_raised cells permit.old }
    ensures seal { seal_of catalogue.new ≡ seal_of catalogue.old }
{
    let place = place_of(checked, schedule, catalogue, step);
    catalogue.ask(place, cells, permit);
}

/// Counts the fault that a look for a step met, if it met one: of that look, and of the collection that the step loads.
///
/// Refuses: as the look was refused.
pub fn settle(
    checked: &Checked,
    schedule: &Schedule,
    catalogue: &mut Catalogue,
    step: u32,
    looked: Result<(), LookFail>,
) -> Result<(), RunFail>
    requires schedule { IsSchedule checked.now schedule.now }
    requires step { step < length schedule.now.order.steps }
    requires load { loads_at checked.now schedule.now step ≡ true }
    requires mounted { HasCollections checked.now (rows_of seen catalogue.old) }
    requires refused { TellsWhy checked.now (rows_of seen catalogue.old)
        (node_at schedule.now step) looked }
    ensures answer { result ≡ refusal_for (node_at schedule.now step) (answer_of looked) }
    ensures read { HasRead checked.now 0 (rows_of seen catalogue.old)
        (rows_of seen catalogue.new) result }
{
    let place = place_of(checked, schedule, catalogue, step);
    let (answer, fault) = split_fault(looked);
    catalogue.count_fault(place, fault);
    run_answer(schedule.node(step), answer)
}

/// The answer of a run to that of a look for a node.
fn run_answer(node: u32, answer: Result<(), SourceFail>) -> Result<(), RunFail>
    ensures { result ≡ refusal_for node answer }
{
    match answer {
        Ok(()) => Ok(()),
        Err(SourceFail::Failed) => Err(RunFail::SourceFailed),
        Err(SourceFail::Damaged(number)) => Err(RunFail::SourceDamaged { load: node, number }),
    }
}

/// Puts the cells of the node of a step on its window into the front of a buffer, plane by plane.
fn look_step(
    checked: &Checked,
    schedule: &Schedule,
    catalogue: &Catalogue,
    step: u32,
    window: &Window,
    looker: &mut Looker,
    buffer: &mut [Cell],
) -> Result<(), LookFail>
    requires schedule { IsSchedule checked.now schedule.now }
    requires window { IsWindowToLoad checked.now schedule.now step window.now }
    requires mounted { HasCollections checked.now (rows_of seen catalogue.now) }
    requires room { position_count window.now ≤ length buffer.old }
    requires asked { MayLook (seal_of catalogue.now) (position_count window.now) looker.old }
    ensures loaded { OnOk result (AreLoaded checked.now (rows_of seen catalogue.now)
        (node_at schedule.now step) window.now (take (position_count window.now) buffer.new)) }
    ensures spent { SpendsAtMost (position_count window.now) looker.old looker.new }
    ensures refused { TellsWhy checked.now (rows_of seen catalogue.now)
        (node_at schedule.now step) result }
{
    let place = place_of(checked, schedule, catalogue, step);
    let mut done = 0;
    for number in 0..window.planes() {
        let plane = window.plane(number);
        let count = size(&plane) as usize;
        let piece = &mut buffer[done..done + count];
        look_plane(
            checked, schedule, catalogue, step, place, &plane, looker, piece,
        )?;
        done += count;
    }
    Ok(())
}

/// The row of the collection that the node of a step loads.
pub fn place_of(checked: &Checked, schedule: &Schedule, catalogue: &Catalogue, step: u32) -> u32
    requires schedule { IsSchedule checked.now schedule.now }
    requires step { step < length schedule.now.order.steps }
    requires load { loads_at checked.now schedule.now step ≡ true }
    requires mounted { HasCollections checked.now (rows_of seen catalogue.now) }
    ensures { (id : List ℕ) × (collection_of_node checked.now (node_at schedule.now step) ≡ Some id)
        × IsMountedAt checked.now (rows_of seen catalogue.now) id result }
{
    let node = schedule.node(step);
    match checked.collection(node) {
        Some(id) => match catalogue.place(id.as_str()) {
            Some(place) => place,
            None => unreachable!(),
        },
        None => unreachable!(),
    }
}

/// Makes each cell null.
fn clear(cells: &mut [Cell])
    ensures { cells.new ≡ replicate (length cells.old) Empty }
{
    cells.fill(Cell::Empty);
}

/// Puts the cells of the node of a step on one plane into some cells, from the collection of a row.
fn look_plane(
    checked: &Checked,
    schedule: &Schedule,
    catalogue: &Catalogue,
    step: u32,
    place: u32,
    plane: &Window,
    looker: &mut Looker,
    into: &mut [Cell],
) -> Result<(), LookFail>
    requires schedule { IsSchedule checked.now schedule.now }
    requires plane { IsPlaneToLoad checked.now schedule.now (rows_of seen catalogue.now) step place
        plane.now }
    requires room { length into.old ≡ position_count plane.now }
    requires asked { MayLook (seal_of catalogue.now) (position_count plane.now) looker.old }
    ensures loaded { OnOk result (AreLoaded checked.now (rows_of seen catalogue.now)
        (node_at schedule.now step) plane.now into.new) }
    ensures spent { SpendsAtMost (position_count plane.now) looker.old looker.new }
    ensures refused { TellsWhy checked.now (rows_of seen catalogue.now)
        (node_at schedule.now step) result }
{
    let node = schedule.node(step);
    let shape = checked.shape(node);
    let source = source_window(
        shape,
        shape_of(catalogue, place),
        plane.t.from,
        plane.bands.from,
        plane,
    );
    if source.is_empty() {
        clear(into);
        return Ok(());
    }
    catalogue.look(place, looker, &source, into)
}

/// Puts the cells of the node of a step on one row of a window into the front of some cells, by a look, for which they
/// were asked.
///
/// Refuses: where the look at the collection is refused.
pub fn look_front(
    checked: &Checked,
    schedule: &Schedule,
    catalogue: &Catalogue,
    step: u32,
    place: u32,
    row: &Window,
    looker: &mut Looker,
    cells: &mut [Cell],
) -> Result<(), LookFail>
    requires schedule { IsSchedule checked.now schedule.now }
    requires row { IsRowToLoad checked.now schedule.now (rows_of seen catalogue.now) step place
        row.now }
    requires room { span_length row.now.x ≤ length cells.old }
    requires asked { MayLook (seal_of catalogue.now) (span_length row.now.x) looker.old }
    ensures loaded { OnOk result (AreLoaded checked.now (rows_of seen catalogue.now)
        (node_at schedule.now step) row.now (take (span_length row.now.x) cells.new)) }
    ensures spent { SpendsAtMost (span_length row.now.x) looker.old looker.new }
    ensures refused { TellsWhy checked.now (rows_of seen catalogue.now)
        (node_at schedule.now step) result }
{
    let count = row.x.to.saturating_sub(row.x.from) as usize;
    look_plane(
        checked,
        schedule,
        catalogue,
        step,
        place,
        row,
        looker,
        &mut cells[..count],
    )
}

/// The shape of the collection of a row, of which the reading of a dimension says that it is valid.
fn shape_of(catalogue: &Catalogue, place: u32) -> &Shape
    requires { place < length (rows_of seen catalogue.now) }
    ensures value { result.now ≡ (source_at (rows_of seen catalogue.now) place).shape }
    ensures valid { IsShape result.now }
    ensures sound { IfSome (collection_of (source_at (rows_of seen catalogue.now) place))
        IsCollection }
{
    let shape = catalogue.shape(place);
    let _count = shape.count(Kind::Time);
    shape
}
