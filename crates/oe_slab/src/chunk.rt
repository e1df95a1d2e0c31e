// One chunk of a run that is folded slab by slab: the plane of its cut, folded and put into the part behind.
ghost use Rattle.std.specs.Prelude.{◌≡◌, ◌<◌, ◌≤◌, ℕ, Contains, OnOk, length, take};
ghost use Rattle.oe_plan.specs.Schedules.{AreWindowsFor, node_at};
ghost use Rattle.oe_plan.specs.Windows.{window_at};
ghost use Rattle.oe_sources.specs.CatalogueRows.{rows_of};
ghost use Rattle.oe_steps.specs.Buffers.{lists_of};
ghost use Rattle.oe_steps.specs.Collections.{HasCollections};
ghost use Rattle.oe_steps.specs.Loads.{HasRead};
ghost use Rattle.oe_steps.specs.Steps.{AreCells, AreOfKind, EachLoad, HaveRoomFor};
ghost use Rattle.oe_window.specs.Windows.{position_count};
ghost use Rattle.oe_window.specs.declared.window.Window.{Window};
ghost use Rattle.oe_slab.specs.Figures.{largest_plane};
ghost use Rattle.oe_slab.specs.Folds.{AreNoMedians, HaveRoom, Settles};
ghost use Rattle.oe_slab.specs.Planes.{AreFolded, ForEachFolded, HasPlane, HasRoomBefore, plane_folds};
ghost use Rattle.oe_slab.specs.Plans.{IsSlabPlan, most_asked};
ghost use Rattle.oe_slab.specs.Results.{IsChunkOf};
ghost use Rattle.oe_slab.specs.Slabs.{HaveFoldedKind};

use crate::evaluate::fold_plane;
use crate::fold::settle;
use crate::plan::SlabPlan;
use oe_cell::Cell;
use oe_fold::Pass;
use oe_plan::{Schedule, windows_of};
use oe_sources::Catalogue;
use oe_steps::RunFail;
use oe_window::{Window, size};

/// Finds the windows of all steps of the whole run for a chunk. Answers that of the cut: a plane, or no position.
#[tactic(auto, using(crate::proofs::BehindLemmas::whole_order, crate::proofs::BehindLemmas::whole_windows, crate::proofs::BehindLemmas::fold_in_whole, crate::proofs::BehindLemmas::cut_few))]
pub(crate) fn plane_of(plan: &SlabPlan, chunk: &Window, windows: &mut [Window]) -> Window
    requires windows { length windows.old ≡ length plan.now.whole.order.steps }
    requires chunk { IsChunkOf plan.now chunk.now }
    ensures plane { HasPlane plan.now chunk.now windows.new result }
    ensures few { position_count result ≤ largest_plane plan.now.graph plan.now.size }
    ensures valid { IsSlabPlan plan.now }
{
    windows_of(plan.checked(), plan.whole(), chunk, windows);
    windows[step_in(plan.whole(), plan.fold()) as usize]
}

/// Folds all dates of a plane of the whole run's windows into the first folds, one for each of its positions.
///
/// Refuses: where a read of a collection is refused.
pub(crate) fn fold_all(
    plan: &SlabPlan,
    catalogue: &mut Catalogue,
    whole: &[Window],
    plane: &Window,
    windows: &mut [Window],
    buffers: &mut [Vec<Cell>],
    scratch: &mut [Cell],
    folds: &mut [Pass],
) -> Result<(), RunFail>
    requires mounted { HasCollections plan.now.graph (rows_of seen catalogue.old) }
    requires plane { (chunk : Window) × HasPlane plan.now chunk whole.now plane.now }
    requires room { HasRoomBefore plan.now windows.old (lists_of buffers.old) scratch.old }
    requires folds { position_count plane.now ≤ length folds.old }
    ensures room { HaveRoomFor plan.now.before (lists_of buffers.new) }
    ensures folded { OnOk result (AreFolded plan.now (rows_of seen catalogue.old) plane.now
        (plane_folds plane.now folds.new)) }
    ensures read { HasRead plan.now.graph (most_asked plan.now)
        (rows_of seen catalogue.old) (rows_of seen catalogue.new) result }
{
    let count = size(plane) as usize;
    if count == 0 {
        // That it is a plan, as its graph says, has that its cut folds.
        let _graph = plan.checked();
        return Ok(());
    }
    let folds = &mut folds[..count];
    fold_plane(
        plan, catalogue, whole, plane, windows, buffers, scratch, folds,
    )
}

/// Puts the values of the first folds, one for each position of a plane, into the slot of the cut in the part behind it.
#[tactic(auto, using(crate::proofs::BehindLemmas::fold_in_behind, crate::proofs::PutLemmas::no_median))]
pub(crate) fn put_plane(
    plan: &SlabPlan,
    plane: &Window,
    folds: &[Pass],
    windows: &[Window],
    buffers: &mut [Vec<Cell>],
)
    requires windows { AreWindowsFor plan.now.graph plan.now.behind windows.now }
    requires plane { (step : ℕ) → step < length plan.now.behind.order.steps
        → node_at plan.now.behind step ≡ plan.now.fold → window_at windows.now step ≡ plane.now }
    requires room { HaveRoomFor plan.now.behind (lists_of buffers.old) }
    requires folds { position_count plane.now ≤ length folds.now }
    requires kind { HaveFoldedKind plan.now.graph plan.now.fold (plane_folds plane.now folds.now) }
    ensures room { HaveRoomFor plan.now.behind (lists_of buffers.new) }
    ensures kinds { EachLoad plan.now.graph plan.now.behind
        (AreOfKind plan.now.graph plan.now.behind windows.now (lists_of buffers.new)) }
    ensures value { ForEachFolded plan.now plane.now (plane_folds plane.now folds.now)
        (λ collections. EachLoad plan.now.graph plan.now.behind
        (AreCells collections plan.now.graph plan.now.behind windows.now (lists_of buffers.new))) }
{
    let count = size(plane) as usize;
    let slot = plan.behind().slot(step_in(plan.behind(), plan.fold()));
    let buffer = buffers[slot as usize].as_mut_slice();
    settle_front(folds, count, buffer);
}

/// Writes the values of so many folds to the front of a buffer.
fn settle_front(folds: &[Pass], count: usize, buffer: &mut [Cell])
    requires folds { count ≤ length folds.now }
    requires few { count ≤ length buffer.old }
    requires room { HaveRoom (take count folds.now) 0 }
    requires other { AreNoMedians (take count folds.now) }
    ensures { Settles (take count folds.now) (take count buffer.new) }
{
    settle(&folds[..count], &mut buffer[..count]);
}

/// The step of a node of a schedule.
fn step_in(schedule: &Schedule, node: u32) -> u32
    requires { Contains schedule.now.order.steps node }
    ensures within { result < length schedule.now.order.steps }
    ensures is { node_at schedule.now result ≡ node }
{
    match schedule.step_of(node) {
        Some(step) => step,
        None => unreachable!(),
    }
}
