// All rounds of a run.
ghost use Rattle.std.specs.Prelude.{ℕ, IsErrOf};
ghost use Rattle.oe_plan.specs.Plans.{IsPlan};
ghost use Rattle.oe_sources.specs.CatalogueRows.{rows_of};
ghost use Rattle.oe_steps.specs.Collections.{HasCollections};
ghost use Rattle.oe_engine.specs.Evaluations.{Evaluates, GoesThrough, IsFirst};

use crate::run::{Progress, Run};
use oe_outside::{Gate, Store};
use oe_sources::Catalogue;
use oe_steps::RunFail;
use std::thread::Threads;

/// All rounds of a run, and whether no cell of its result is out of the range of numbers.
///
/// Refuses: as a round does; `Overflow` only where all rounds were made and such a cell was found, with the first one.
pub fn evaluate<R: Threads + Sync, P: Store, G: Gate>(
    rt: &R,
    run: &mut Run,
    catalogue: &mut Catalogue,
    spool: &mut P,
    gate: &G,
) -> Result<(), RunFail>
    requires first { IsFirst run.old }
    requires planned { IsPlan run.old.plan }
    requires mounted { HasCollections run.old.plan.graph (rows_of seen catalogue.old) }
    ensures { Evaluates run.old run.new (rows_of seen catalogue.old) (rows_of seen catalogue.new)
        (P.bytes spool.old) (P.bytes spool.new) (P.faults spool.old) (P.faults spool.new) result }
{
    match go_through(rt, run, catalogue, spool, gate) {
        Ok(()) => run.finish(),
        Err(fail) => Err(fail),
    }
}

/// All rounds of a run.
fn go_through<R: Threads + Sync, P: Store, G: Gate>(
    rt: &R,
    run: &mut Run,
    catalogue: &mut Catalogue,
    spool: &mut P,
    gate: &G,
) -> Result<(), RunFail>
    requires first { IsFirst run.old }
    requires planned { IsPlan run.old.plan }
    requires mounted { HasCollections run.old.plan.graph (rows_of seen catalogue.old) }
    ensures through { GoesThrough run.old run.new (rows_of seen catalogue.old)
        (rows_of seen catalogue.new) (P.bytes spool.old) (P.bytes spool.new) (P.faults spool.old)
        (P.faults spool.new) result }
    ensures no_overflow { (number : ℕ) → ¬ IsErrOf result (RunFail.Overflow number) }
{
    let chunks = run.chunks();
    for _ in 0..chunks {
        match run.round(rt, catalogue, spool, gate) {
            Ok(Progress::Complete) => return Ok(()),
            Ok(Progress::More) => {}
            Err(fail) => return Err(fail),
        }
    }
    Ok(())
}
