// The run of a graph that is answered at once.
ghost use Rattle.std.specs.Prelude.{◌≡◌, ◌≤◌, ◌^◌, ℕ, IfErr, IfOk, IsErrOf, None, length};
ghost use Rattle.oe_dims.specs.Dimensions.{cell_count};
ghost use Rattle.oe_engine.specs.Evaluations.{IsFirst};
ghost use Rattle.oe_engine.specs.Going.{IsGoing};
ghost use Rattle.oe_engine.specs.Runs.{HasRunRecords, OfRun, chunk_total, result_shape};
ghost use Rattle.oe_outside.specs.Faults.{NeverFalls};
ghost use Rattle.oe_plan.specs.Plans.{IsPlan};
ghost use Rattle.oe_plan.specs.Ranges.{IsWithinRanges};
ghost use Rattle.oe_render.specs.Text.{cube_text};
ghost use Rattle.oe_sources.specs.CatalogueRows.{rows_of};
ghost use Rattle.oe_serve.specs.Evaluations as spec;
ghost use Rattle.oe_serve.specs.Results.{IsTooLarge};

use crate::refusal::ResultRefusal;
use oe_check::Checked;
use oe_engine::{Run, Workspace, evaluate};
use oe_outside::{CountSink, Gate, Pending, Store};
use oe_plan::{Plan, PlanFail};
use oe_render::RenderFail;
use oe_sources::Catalogue;
use oe_window::ChunkSize;
use std::alloc::Global;
use std::thread::Threads;

/// A run of a graph before its first round, in chunks of a size with so many workers, whose records are to stand in a
/// spool from a byte on; and the bytes that its text goes through. From here on nothing takes memory.
///
/// Refuses: `TooLarge` exactly where it would hold more cells than are allowed; out of memory.
pub(crate) fn begin<R: Threads + Sync>(
    rt: &R,
    alloc: Global,
    checked: Checked,
    sizes: (ChunkSize, u32),
    base: u64,
) -> Result<(Run, Pending), PlanFail>
    requires ranges { IsWithinRanges sizes.0 sizes.1 }
    requires base { base ≤ 2 ^ 62 }
    ensures begun { IfOk result (λ r. spec.IsBegun checked sizes.0 sizes.1 base r.0) }
    ensures too_large { (cells : ℕ) → IsErrOf result (PlanFail.TooLarge cells)
        → IsTooLarge checked sizes.0 sizes.1 cells }
{
    let plan = Plan::new(alloc, checked, sizes.0, sizes.1)?;
    let workspace = Workspace::new(rt, alloc, &plan)?;
    let pending = Pending::new(alloc)?;
    Ok((Run::start(plan, workspace, base), pending))
}

/// All rounds of a run, and how many bytes the text of its result has.
///
/// Refuses: as a round does; `NumberOverflow` exactly where all rounds were made and a cell of the result is no number
/// in range; as reading the records back does.
pub(crate) fn complete<R: Threads + Sync, P: Store, G: Gate>(
    rt: &R,
    run: &mut Run,
    pending: &mut Pending,
    catalogue: &mut Catalogue,
    spool: &mut P,
    gate: &G,
) -> Result<u64, ResultRefusal>
    requires first { IsFirst run.old }
    requires going { IsGoing run.old (rows_of seen catalogue.old) (P.bytes spool.old) }
    ensures { spec.Completes run.old run.new (rows_of seen catalogue.old)
        (rows_of seen catalogue.new) (P.bytes spool.old) (P.bytes spool.new)
        (P.faults spool.old) (P.faults spool.new) result }
{
    match evaluate(rt, run, catalogue, spool, gate) {
        Ok(()) => count_text(run, pending, spool),
        Err(fail) => Err(ResultRefusal::of_run(fail)),
    }
}

/// How many bytes the text of a run has all of whose chunks are done.
fn count_text<P: Store>(
    run: &mut Run,
    pending: &mut Pending,
    spool: &mut P,
) -> Result<u64, ResultRefusal>
    requires planned { IsPlan run.old.plan }
    requires complete { run.old.done ≡ chunk_total run.old.plan }
    requires numbers { run.old.over ≡ None }
    requires records { HasRunRecords run.old (P.bytes spool.old) }
    ensures counted { IfOk result (λ count. OfRun run.old (P.bytes spool.old)
        (λ cube. count ≡ length (cube_text cube))) }
    ensures refused { IfErr result (spec.TextRefused (P.bytes spool.old)
        (cell_count (result_shape run.old.plan)) (P.faults spool.old) (P.faults spool.new)) }
    ensures run { run.new ≡ run.old }
    ensures same { P.bytes spool.new ≡ P.bytes spool.old }
    ensures count { NeverFalls (P.faults spool.old) (P.faults spool.new) }
{
    let mut count = CountSink::new();
    match run.render(spool, &mut count, pending) {
        Ok(()) => Ok(count.count()),
        Err(RenderFail::SpoolFailed) => Err(ResultRefusal::SpoolFault),
        Err(RenderFail::SpoolDamaged(number)) => Err(ResultRefusal::SpoolDamaged(number)),
        Err(RenderFail::SinkFailed) => unreachable!(),
    }
}
