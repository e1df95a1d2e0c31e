// The part of a run before its time cut: the slabs of a plane, which are evaluated and folded one after the other.
ghost use Rattle.std.specs.Prelude.{◌≡◌, ◌+◌, ◌*◌, ◌-◌, ◌<◌, ℕ, Bool, OnOk, Some, Contains, length, slice_index};
ghost use Rattle.oe_fold.specs.declared.reducer.Reducer.{Reducer};
ghost use Rattle.oe_plan.specs.Figures.{scratch_of, shape_of_node, steps_of};
ghost use Rattle.oe_plan.specs.Laws.{ArePicked};
ghost use Rattle.oe_plan.specs.Schedules.{AreWindowsFor, node_at, part_of};
ghost use Rattle.oe_plan.specs.Windows.{AreWindows, window_at};
ghost use Rattle.oe_sources.specs.CatalogueRows.{rows_of};
ghost use Rattle.oe_steps.specs.Buffers.{lists_of};
ghost use Rattle.oe_steps.specs.Collections.{HasCollections};
ghost use Rattle.oe_steps.specs.Loads.{HasRead};
ghost use Rattle.oe_steps.specs.Steps.{AreCells, AreOfKind, EachLoad, HaveRoomFor, OfLast};
ghost use Rattle.oe_window.specs.Chunks.{FitsSides, tiling_of};
ghost use Rattle.oe_window.specs.Windows.{Holds, IsEmpty, position_count, whole_window};
ghost use Rattle.oe_window.specs.declared.grid.ChunkSize.{ChunkSize};
ghost use Rattle.oe_window.specs.declared.window.Window.{Window};
ghost use Rattle.oe_slab.specs.Folds.{HaveRoom, HaveSeenKind};
ghost use Rattle.oe_slab.specs.Planes.{AddDates, AreFolded, ForEachVisible, HasPlane, HasRoomBefore, HaveRoomForDates, IsEvaluatedOn, IsReadyPart};
ghost use Rattle.oe_slab.specs.Plans.{most_asked, most_in_slab};
ghost use Rattle.oe_slab.specs.Schedules.{AreMet, IsSlabOf, load_count};
ghost use Rattle.oe_slab.specs.Slabs.{kind_taken, slab_window};

use crate::fold::{begin_folds, fold_slab};
use crate::plan::SlabPlan;
use oe_cell::Cell;
use oe_check::Checked;
use oe_dims::Shape;
use oe_fold::Pass;
use oe_plan::{Schedule, windows_of};
use oe_sources::Catalogue;
use oe_steps::{RunFail, evaluate_steps, front, load_slot, loads, step_of_last};
use oe_window::{Span, Window, meet, whole};

/// The slab of a plane at the dates from one to before another.
fn slab_of(plane: &Window, from: u32, to: u32) -> Window
    ensures { result ≡ slab_window plane.now from to }
{
    Window {
        t: Span { from, to },
        bands: plane.bands,
        y: plane.y,
        x: plane.x,
    }
}

/// The same slab with all bands of a cube of this shape.
fn with_all_bands(slab: &Window, shape: &Shape) -> Window
    ensures { result ≡ record slab.now { bands = (whole_window shape.now).bands } }
{
    Window {
        t: slab.t,
        bands: whole(shape).bands,
        y: slab.y,
        x: slab.x,
    }
}

/// The step of the whole run at which a node stands.
fn step_in_whole(plan: &SlabPlan, node: u32) -> usize
    requires { Contains (steps_of plan.now.graph) node }
    ensures within { result < length (steps_of plan.now.graph) }
    ensures only { (i : ℕ) → i < length (steps_of plan.now.graph)
        → slice_index (steps_of plan.now.graph) i ≡ node → i ≡ result }
{
    match plan.whole().step_of(node) {
        Some(step) => step as usize,
        None => unreachable!(),
    }
}

/// Leaves of the window of each step before the cut what lies in that of its node in the whole run.
fn meet_whole(plan: &SlabPlan, all: &[Window], windows: &mut [Window])
    requires all { length all.now ≡ length (steps_of plan.now.graph) }
    requires each { length windows.old ≡ length plan.now.before.order.steps }
    ensures { AreMet plan.now.graph plan.now.before all.now windows.old windows.new }
{
    let nodes = plan.before().steps();
    for step in 0..nodes.len() {
        let window = windows[step];
        let own = all[step_in_whole(plan, nodes[step])];
        windows[step] = meet(&window, &own);
    }
}

/// Takes for each step behind the cut the window that its node has in the whole run.
pub(crate) fn pick_windows(plan: &SlabPlan, all: &[Window], picked: &mut [Window])
    requires windows { (chunk : Window) × AreWindows plan.now.graph plan.now.size chunk all.now }
    requires picked { length picked.old ≡ length plan.now.behind.order.steps }
    ensures serve { AreWindowsFor plan.now.graph plan.now.behind picked.new }
    ensures picked { ArePicked plan.now.graph plan.now.behind all.now picked.new }
{
    let nodes = plan.behind().steps();
    for step in 0..nodes.len() {
        picked[step] = all[step_in_whole(plan, nodes[step])];
    }
}

/// The windows of the steps before the cut for a window of the cube that is folded.
fn windows_before(plan: &SlabPlan, chunk: &Window, windows: &mut [Window])
    requires each { length windows.old ≡ length plan.now.before.order.steps }
    requires within { Holds (whole_window (shape_of_node plan.now.graph plan.now.before.last))
        chunk.now }
    requires some { ¬ IsEmpty chunk.now }
    ensures { (size : ChunkSize)
        → FitsSides (tiling_of (shape_of_node plan.now.graph plan.now.before.last) size) chunk.now
        → AreWindows (part_of plan.now.graph plan.now.before) size chunk.now windows.new }
{
    windows_of(plan.checked(), plan.before(), chunk, windows);
}

/// The step of the cube that is folded.
fn last_before(plan: &SlabPlan) -> u32
    ensures within { result < length plan.now.before.order.steps }
    ensures is { node_at plan.now.before result ≡ plan.now.before.last }
{
    step_of_last(plan.checked(), plan.before())
}

/// The windows of the steps before the cut for a slab. They are found for the slab with all bands, and lie in those of
/// the whole run.
fn slab_windows(plan: &SlabPlan, all: &[Window], slab: &Window, windows: &mut [Window])
    requires slab { IsSlabOf plan.now.graph plan.now.size plan.now.fold all.now slab.now }
    requires windows { length windows.old ≡ length plan.now.before.order.steps }
    ensures windows { AreWindowsFor plan.now.graph plan.now.before windows.new }
    ensures last { OfLast plan.now.before (λ step. window_at windows.new step ≡ slab.now) }
{
    let wide = with_all_bands(slab, plan.taken_shape());
    windows_before(plan, &wide, windows);
    meet_whole(plan, all, windows);
    windows[last_before(plan) as usize] = *slab;
}

/// Loads the cells of each step that loads a collection.
///
/// Refuses: where a read of a collection is refused.
fn load_all(
    checked: &Checked,
    schedule: &Schedule,
    catalogue: &mut Catalogue,
    windows: &[Window],
    buffers: &mut [Vec<Cell>],
) -> Result<(), RunFail>
    requires ready { IsReadyPart checked.now schedule.now (rows_of seen catalogue.old)
        windows.now (lists_of buffers.old) }
    ensures room { HaveRoomFor schedule.now (lists_of buffers.new) }
    ensures kinds { OnOk result (EachLoad checked.now schedule.now
        (AreOfKind checked.now schedule.now windows.now (lists_of buffers.new))) }
    ensures value { OnOk result (ForEachVisible checked.now (rows_of seen catalogue.old)
        (λ collections. EachLoad checked.now schedule.now
        (AreCells collections checked.now schedule.now windows.now (lists_of buffers.new)))) }
    ensures read { HasRead checked.now (load_count checked.now schedule.now * schedule.now.largest)
        (rows_of seen catalogue.old) (rows_of seen catalogue.new) result }
{
    for step in 0..loads(checked, schedule) {
        load_slot(checked, schedule, catalogue, step, windows, buffers)?;
    }
    Ok(())
}

/// Evaluates the nodes of a schedule of which no cube is given: the cells of the last one are the front of its slot then.
///
/// Refuses: where a read of a collection is refused.
fn evaluate_part(
    checked: &Checked,
    schedule: &Schedule,
    catalogue: &mut Catalogue,
    windows: &[Window],
    buffers: &mut [Vec<Cell>],
    scratch: &mut [Cell],
) -> Result<(), RunFail>
    requires ready { IsReadyPart checked.now schedule.now (rows_of seen catalogue.old)
        windows.now (lists_of buffers.old) }
    requires scratch { length scratch.old ≡ scratch_of checked.now }
    ensures room { HaveRoomFor schedule.now (lists_of buffers.new) }
    ensures kinds { OnOk result (OfLast schedule.now
        (AreOfKind checked.now schedule.now windows.now (lists_of buffers.new))) }
    ensures value { OnOk result (ForEachVisible checked.now (rows_of seen catalogue.old)
        (λ collections. OfLast schedule.now
        (AreCells collections checked.now schedule.now windows.now (lists_of buffers.new)))) }
    ensures read { HasRead checked.now (load_count checked.now schedule.now * schedule.now.largest)
        (rows_of seen catalogue.old) (rows_of seen catalogue.new) result }
{
    load_all(checked, schedule, catalogue, windows, buffers)?;
    evaluate_steps(checked, schedule, windows, buffers, scratch);
    Ok(())
}

/// Evaluates the cube that is folded on a slab: its cells are the front of the slot of the last step then.
///
/// Refuses: where a read of a collection is refused.
fn evaluate_slab(
    plan: &SlabPlan,
    catalogue: &mut Catalogue,
    all: &[Window],
    slab: &Window,
    windows: &mut [Window],
    buffers: &mut [Vec<Cell>],
    scratch: &mut [Cell],
) -> Result<(), RunFail>
    requires mounted { HasCollections plan.now.graph (rows_of seen catalogue.old) }
    requires slab { IsSlabOf plan.now.graph plan.now.size plan.now.fold all.now slab.now }
    requires room { HasRoomBefore plan.now windows.old (lists_of buffers.old) scratch.old }
    ensures room { HaveRoomFor plan.now.before (lists_of buffers.new) }
    ensures evaluated { OnOk result (IsEvaluatedOn plan.now.graph plan.now.before windows.new
        (lists_of buffers.new) slab.now) }
    ensures value { OnOk result (ForEachVisible plan.now.graph (rows_of seen catalogue.old)
        (λ collections. OfLast plan.now.before
        (AreCells collections plan.now.graph plan.now.before windows.new (lists_of buffers.new)))) }
    ensures read { HasRead plan.now.graph (most_in_slab plan.now)
        (rows_of seen catalogue.old) (rows_of seen catalogue.new) result }
{
    slab_windows(plan, all, slab, windows);
    evaluate_part(
        plan.checked(),
        plan.before(),
        catalogue,
        windows,
        buffers,
        scratch,
    )
}

/// Folds the cells of a slab of a plane at the dates from one to before another into the folds of the plane.
fn fold_dates(
    plan: &SlabPlan,
    windows: &[Window],
    buffers: &[Vec<Cell>],
    plane: &Window,
    from: u32,
    to: u32,
    folds: &mut [Pass],
)
    requires evaluated { IsEvaluatedOn plan.now.graph plan.now.before windows.now
        (lists_of buffers.now) (slab_window plane.now from to) }
    requires folds { HaveRoomForDates plane.now from to folds.old }
    ensures seen { AddDates plan.now windows.now (lists_of buffers.now) plane.now from to
        folds.old folds.new }
    ensures kinds { (reducer : Reducer) (ignores_nulls : Bool)
        → HaveSeenKind (kind_taken plan.now.graph plan.now.fold) from folds.old reducer ignores_nulls
        → HaveSeenKind (kind_taken plan.now.graph plan.now.fold) to folds.new reducer ignores_nulls }
    ensures room { (more : ℕ) → HaveRoom folds.old (more + (to - from)) → HaveRoom folds.new more }
{
    let last = last_before(plan);
    let cells = front(plan.checked(), plan.before(), last, windows, buffers);
    fold_slab(cells, (to - from) as usize, folds);
}

/// Folds all dates of a plane, slab after slab, into folds of which there is one for each of its positions.
///
/// Refuses: where a read of a collection is refused.
pub(crate) fn fold_plane(
    plan: &SlabPlan,
    catalogue: &mut Catalogue,
    all: &[Window],
    plane: &Window,
    windows: &mut [Window],
    buffers: &mut [Vec<Cell>],
    scratch: &mut [Cell],
    folds: &mut [Pass],
) -> Result<(), RunFail>
    requires mounted { HasCollections plan.now.graph (rows_of seen catalogue.old) }
    requires plane { (chunk : Window) × HasPlane plan.now chunk all.now plane.now }
    requires filled { ¬ IsEmpty plane.now }
    requires room { HasRoomBefore plan.now windows.old (lists_of buffers.old) scratch.old }
    requires folds { length folds.old ≡ position_count plane.now }
    ensures room { HaveRoomFor plan.now.before (lists_of buffers.new) }
    ensures folded { OnOk result
        (AreFolded plan.now (rows_of seen catalogue.old) plane.now folds.new) }
    ensures read { HasRead plan.now.graph (most_asked plan.now)
        (rows_of seen catalogue.old) (rows_of seen catalogue.new) result }
{
    let (reducer, ignores_nulls) = plan.reducer();
    begin_folds(reducer, ignores_nulls, folds);
    let dates = plan.dates();
    let mut from = 0;
    while from < dates {
        let to = from.saturating_add(plan.slab_dates()).min(dates);
        let slab = slab_of(plane, from, to);
        evaluate_slab(plan, catalogue, all, &slab, windows, buffers, scratch)?;
        fold_dates(plan, windows, buffers, plane, from, to, folds);
        from = to;
    }
    Ok(())
}
