// Graphs that are evaluated chunk by chunk into a spool, slabs of dates of which are folded one after the other.
ghost use Rattle.std.specs.Prelude.{◌≡◌, ℕ, IfOk, IsErrOf};
ghost use Rattle.oe_slab.specs.Cuts.{HasNoTimeCut};
ghost use Rattle.oe_slab.specs.Figures.{AreSlabSides};
ghost use Rattle.oe_slab.specs.Plans.{IsTooLarge};
ghost use Rattle.oe_slab.specs.declared.plan.SlabPlanFail.{SlabPlanFail};
ghost use Rattle.oe_sources.specs.CatalogueRows.{rows_of};
ghost use Rattle.oe_steps.specs.Collections.{HasCollections};
ghost use Rattle.oe_top.specs.SlabEvaluated.{CompletesSlabs, FoldsThrough, IsSlabBegun, IsSlabPlanOf};

use crate::laws;
use oe_check::Checked;
use oe_engine::RunFail;
use oe_outside::{Gate, Store};
use oe_slab::{SlabPlan, SlabPlanFail, SlabRun, SlabWorkspace};
use oe_sources::Catalogue;
use oe_window::ChunkSize;
use std::alloc::Global;

/// A run of a graph before its first round, with its records at the front of a spool.
///
/// Refuses: `NoTimeFold` only where it has no time cut; `TooLarge` only where it has one and would hold more cells than
/// are allowed, with their number; out of memory.
pub(crate) fn begin_slabs(
    alloc: Global,
    checked: Checked,
    size: ChunkSize,
) -> Result<SlabRun, SlabPlanFail>
    requires { AreSlabSides size }
    ensures begun { IfOk result IsSlabBegun }
    ensures plan { IfOk result (λ r. IsSlabPlanOf checked size r.plan) }
    ensures front { IfOk result (λ r. r.base ≡ 0) }
    ensures none { IsErrOf result SlabPlanFail.NoTimeFold → HasNoTimeCut checked }
    ensures too_large { (cells : ℕ) → IsErrOf result (SlabPlanFail.TooLarge cells)
        → IsTooLarge checked size cells }
{
    let plan = match SlabPlan::new(alloc, checked, size) {
        Ok(plan) => plan,
        Err(fail) => return Err(fail),
    };
    let workspace = SlabWorkspace::new(alloc, &plan)?;
    Ok(SlabRun::start(plan, workspace, 0))
}

/// All rounds of a run, and whether no cell of its result is out of the range of numbers.
///
/// Refuses: as a round does; `Overflow` exactly where all rounds were made and such a cell was found, with the first
/// one.
pub(crate) fn complete_slabs<P: Store, G: Gate>(
    run: &mut SlabRun,
    catalogue: &mut Catalogue,
    spool: &mut P,
    gate: &G,
) -> Result<(), RunFail>
    requires begun { IsSlabBegun run.old }
    requires mounted { HasCollections run.old.plan.graph (rows_of seen catalogue.old) }
    ensures { CompletesSlabs run.old run.new (rows_of seen catalogue.old)
        (rows_of seen catalogue.new) (P.bytes spool.old) (P.bytes spool.new) (P.faults spool.old)
        (P.faults spool.new) result }
{
    gate.open(run.chunks());
    let end = finish_slabs(run, catalogue, spool, gate);
    gate.close();
    end
}

/// All rounds of a run, and whether no cell of its result is out of the range of numbers, at a gate that is open.
fn finish_slabs<P: Store, G: Gate>(
    run: &mut SlabRun,
    catalogue: &mut Catalogue,
    spool: &mut P,
    gate: &G,
) -> Result<(), RunFail>
    requires begun { IsSlabBegun run.old }
    requires mounted { HasCollections run.old.plan.graph (rows_of seen catalogue.old) }
    ensures { CompletesSlabs run.old run.new (rows_of seen catalogue.old)
        (rows_of seen catalogue.new) (P.bytes spool.old) (P.bytes spool.new) (P.faults spool.old)
        (P.faults spool.new) result }
{
    match fold_through(run, catalogue, spool, gate) {
        Ok(()) => run.finish(),
        Err(fail) => Err(fail),
    }
}

/// All rounds of a run: one for each of its chunks.
fn fold_through<P: Store, G: Gate>(
    run: &mut SlabRun,
    catalogue: &mut Catalogue,
    spool: &mut P,
    gate: &G,
) -> Result<(), RunFail>
    requires begun { IsSlabBegun run.old }
    requires mounted { HasCollections run.old.plan.graph (rows_of seen catalogue.old) }
    ensures through { FoldsThrough run.old run.new (rows_of seen catalogue.old)
        (rows_of seen catalogue.new) (P.bytes spool.old) (P.bytes spool.new) (P.faults spool.old)
        (P.faults spool.new) result }
    ensures no_overflow { (number : ℕ) → ¬ IsErrOf result (RunFail.Overflow number) }
{
    // Laws that the proof rests on; they do nothing.
    laws::reads_change_nothing();
    laws::slab_over_is_of_the_result();
    let chunks = run.chunks();
    for chunk in 0..chunks {
        gate.enter(chunk);
        match run.round(catalogue, spool) {
            Ok(_) => {}
            Err(fail) => return Err(fail),
        }
    }
    Ok(())
}
