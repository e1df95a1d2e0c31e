// Graphs that are evaluated chunk by chunk into a spool.
ghost use Rattle.std.specs.Prelude.{◌≡◌, ◌<◌, ℕ, IfOk, IsErrOf};
ghost use Rattle.oe_steps.specs.Collections.{HasCollections};
ghost use Rattle.oe_engine.specs.Runs.{chunk_total};
ghost use Rattle.oe_engine.specs.Evaluations.{Evaluates, IsPlanOf};
ghost use Rattle.oe_plan.specs.Figures.{bound_of, most_held_cells};
ghost use Rattle.oe_plan.specs.Ranges.{IsWithinRanges};
ghost use Rattle.oe_sources.specs.CatalogueRows.{rows_of};
ghost use Rattle.oe_top.specs.Evaluated.{CanBeNamed, IsBegun, IsFailOfRun};
ghost use Rattle.oe_top.specs.Evaluated as spec;

use crate::short_name::ShortName;
use oe_check::Checked;
use oe_engine::{Run, RunFail, Workspace, evaluate};
use oe_outside::{Gate, Store};
use oe_plan::{Plan, PlanFail};
use oe_render::RenderFail;
use oe_sources::Catalogue;
use oe_window::ChunkSize;
use std::alloc::Global;
use std::thread::Threads;

/// Why the evaluation of a graph stopped.
#[derive(Drop)]
pub enum EvaluationFail {
    /// A cell of the result is out of the range of numbers, at this row-major number at first.
    Overflow(u64),
    /// A collection could not be read.
    ReadFault,
    /// A node keeps this position of its collection, by its row-major number, which is damaged.
    Damaged { id: ShortName, number: u64 },
    /// The spool could not be read or written.
    SpoolFault,
    /// The output could not be written.
    WriteFault,
    /// What the spool gave back for this position of the result, by its row-major number, is no record.
    SpoolDamaged(u64),
}

/// A run of a graph before its first round, with its records at the front of a spool, and how many chunks it has.
///
/// Refuses: `TooLarge` only where it would hold more cells than are allowed, with their number; out of memory.
pub(crate) fn begin<R: Threads + Sync>(
    rt: &R,
    alloc: Global,
    checked: Checked,
    size: ChunkSize,
    workers: u32,
) -> Result<(Run, u64), PlanFail>
    requires { IsWithinRanges size workers }
    ensures begun { IfOk result (λ r. IsBegun r.0) }
    ensures plan { IfOk result (λ r. IsPlanOf checked size workers r.0.plan) }
    ensures chunks { IfOk result (λ r. r.1 ≡ chunk_total r.0.plan) }
    ensures front { IfOk result (λ r. r.0.base ≡ 0) }
    ensures too_large { (cells : ℕ) → IsErrOf result (PlanFail.TooLarge cells)
        → (cells ≡ bound_of checked size workers) × (most_held_cells < cells) }
{
    let plan = Plan::new(alloc, checked, size, workers)?;
    let chunks = plan.chunks();
    let workspace = Workspace::new(rt, alloc, &plan)?;
    Ok((Run::start(plan, workspace, 0), chunks))
}

/// All rounds of a run, which has so many chunks, and whether no cell of its result is out of the range of numbers.
///
/// Refuses: as a round does; `Overflow` exactly where all rounds were made and such a cell was found, with the first
/// one.
pub(crate) fn complete<R: Threads + Sync, P: Store, G: Gate>(
    rt: &R,
    run: &mut Run,
    chunks: u64,
    catalogue: &mut Catalogue,
    spool: &mut P,
    gate: &G,
) -> Result<(), RunFail>
    requires begun { IsBegun run.old }
    requires chunks { chunks ≡ chunk_total run.old.plan }
    requires mounted { HasCollections run.old.plan.graph (rows_of seen catalogue.old) }
    ensures { Evaluates run.old run.new (rows_of seen catalogue.old) (rows_of seen catalogue.new)
        (P.bytes spool.old) (P.bytes spool.new) (P.faults spool.old) (P.faults spool.new) result }
{
    gate.open(chunks);
    let end = evaluate(rt, run, catalogue, spool, gate);
    gate.close();
    end
}

/// Why the rounds of a graph stopped.
pub(crate) fn fail_of_run(checked: &Checked, fail: RunFail) -> EvaluationFail
    requires { CanBeNamed checked.now fail }
    ensures { IsFailOfRun checked.now fail result }
{
    match fail {
        RunFail::SourceFailed => EvaluationFail::ReadFault,
        RunFail::SourceDamaged { load, number } => match checked.collection(load) {
            Some(id) => EvaluationFail::Damaged {
                id: ShortName::of(id),
                number,
            },
            None => unreachable!(),
        },
        RunFail::SpoolFailed => EvaluationFail::SpoolFault,
        RunFail::Overflow(number) => EvaluationFail::Overflow(number),
    }
}

/// Why the writing of what was evaluated stopped.
pub(crate) fn fail_of_text(fail: RenderFail) -> EvaluationFail
    ensures { result ≡ spec.fail_of_text fail }
{
    match fail {
        RenderFail::SpoolFailed => EvaluationFail::SpoolFault,
        RenderFail::SpoolDamaged(number) => EvaluationFail::SpoolDamaged(number),
        RenderFail::SinkFailed => EvaluationFail::WriteFault,
    }
}
