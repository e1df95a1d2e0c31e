// The schedules of a run that is folded slab by slab.
ghost use Rattle.std.specs.Prelude.{◌≡◌, ◌*◌, ◌≤◌, IfOk};
ghost use Rattle.oe_plan.specs.Figures.{most_held_cells, steps_of};
ghost use Rattle.oe_check.specs.Links.{links_of};
ghost use Rattle.oe_window.specs.declared.grid.ChunkSize.{ChunkSize};
ghost use Rattle.oe_slab.specs.Cuts.{IsTimeCut};
ghost use Rattle.oe_slab.specs.Figures.{largest_plane, largest_slab, width_before};
ghost use Rattle.oe_slab.specs.Schedules.{AreSchedules, IsOrderAlong};

use crate::cut::order_before;
use crate::figures::SlabSizes;
use crate::parts::order_behind;
use oe_check::Checked;
use oe_memory::OutOfMemory;
use oe_order::NodeOrder;
use oe_plan::{Schedule, argument_of};
use std::alloc::Global;

/// The schedules of a run that is cut at a node: of the whole run, whose windows are found first; of the cube that the
/// node takes; and of the result, where the cube of the node is given.
pub(crate) struct Schedules {
    pub whole: Schedule,
    pub before: Schedule,
    pub behind: Schedule,
}

/// Written out, so that such a value ends by one call wherever it does.
impl Drop for Schedules {
    fn drop(self) {
        let Schedules {
            whole: _,
            before: _,
            behind: _,
        } = self;
    }
}

/// The schedules of a run in this order that is cut at a node, with slots for slabs and for planes.
///
/// Refuses: where an allocation was refused, and nowhere else.
pub(crate) fn schedules_of(
    alloc: Global,
    checked: &Checked,
    whole: NodeOrder,
    fold: u32,
    sizes: SlabSizes,
) -> Result<Schedules, OutOfMemory>
    requires cut { IsTimeCut checked.now fold }
    requires slab { width_before checked.now fold * sizes.slab ≤ most_held_cells }
    requires plane { sizes.plane ≤ most_held_cells }
    requires order { whole.steps ≡ steps_of checked.now }
    requires along { IsOrderAlong (links_of checked.now.nodes) checked.now.result whole }
    ensures { (size : ChunkSize) → sizes.slab ≡ largest_slab checked.now size
        → sizes.plane ≡ largest_plane checked.now size → IfOk result
        (λ s. AreSchedules checked.now size fold s.whole s.before s.behind) }
{
    // A checked graph is without a fault, as the number of its nodes says.
    let _count = checked.nodes();
    let last = checked.result();
    let taken = argument_of(checked, fold, 0);
    let before = order_before(alloc, checked, fold)?;
    let behind = order_behind(alloc, checked.links(), fold, last)?;
    Ok(Schedules {
        // None of its cells is kept.
        whole: Schedule::new(whole, last, None, 0),
        before: Schedule::new(before, taken, None, sizes.slab as u64),
        behind: Schedule::new(behind, last, Some(fold), sizes.plane as u64),
    })
}
