// What a round asks of the collections before its chunks are loaded, and what it counts afterwards.
ghost use Rattle.std.specs.Prelude.{◌≡◌, ◌≤◌, ◌*◌, Ok, OnOk, IfErr};
ghost use Rattle.oe_engine.specs.Benches.{cells_of_largest_window};
ghost use Rattle.oe_engine.specs.Evaluations.{most_asked};
ghost use Rattle.oe_engine.specs.Hulls.{IsNote};
ghost use Rattle.oe_plan.specs.Plans.{IsPlan};
ghost use Rattle.oe_sources.specs.CatalogueRows.{rows_of, seal_of};
ghost use Rattle.oe_sources.specs.Permits.{MayLook};
ghost use Rattle.oe_steps.specs.Collections.{HasCollections};
ghost use Rattle.oe_steps.specs.Loads.{HasRead};

use crate::hulls::Note;
use crate::steps::{ask, loads, settle};
use oe_plan::Plan;
use oe_sources::{Catalogue, Permit};
use oe_steps::RunFail;

/// Asks for the cells of so many chunks, which then may be looked at with the permit, in this catalogue.
pub(crate) fn ask_for_chunks(plan: &Plan, catalogue: &mut Catalogue, count: usize) -> Permit
    requires few { count ≤ 2 * plan.now.workers }
    requires mounted { HasCollections plan.now.graph (rows_of seen catalogue.old) }
    ensures asked { HasRead plan.now.graph (count * most_asked plan.now)
        (rows_of seen catalogue.old) (rows_of seen catalogue.new) (Ok tt) }
    ensures permit { MayLook (seal_of catalogue.new) (count * most_asked plan.now) result }
{
    let cells = cells_at_step(plan, count);
    let mut permit = catalogue.permit();
    for step in 0..loads(plan) {
        ask(plan, catalogue, step, cells, &mut permit);
    }
    permit
}

/// How many cells the windows of a step for so many chunks have at most.
fn cells_at_step(plan: &Plan, count: usize) -> u64
    requires { count ≤ 2 * plan.now.workers }
    ensures value { result ≡ count * cells_of_largest_window plan.now }
    ensures few { result ≤ 67108864 }
    ensures valid { IsPlan plan.now }
{
    count as u64 * plan.largest()
}

/// Counts the fault that the loading met, if it met one.
///
/// Refuses: as the loading was refused.
pub(crate) fn settle_chunks(
    plan: &Plan,
    catalogue: &mut Catalogue,
    loaded: Result<(), Note>,
) -> Result<(), RunFail>
    requires mounted { HasCollections plan.now.graph (rows_of seen catalogue.old) }
    requires noted { IfErr loaded (IsNote plan.now (rows_of seen catalogue.old)) }
    ensures answer { OnOk result (loaded ≡ Ok tt) }
    ensures read { HasRead plan.now.graph 0 (rows_of seen catalogue.old)
        (rows_of seen catalogue.new) result }
{
    match loaded {
        Ok(()) => Ok(()),
        Err(note) => settle(plan, catalogue, note.step, Err(note.fail)),
    }
}
