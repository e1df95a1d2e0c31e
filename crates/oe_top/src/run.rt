// The command `run`: from the input to the text of what its graph means.
ghost use Rattle.std.specs.Prelude.{◌≡◌};
ghost use Rattle.oe_engine.specs.Laws.{IsCheckedOver};
ghost use Rattle.oe_engine.specs.Runs.{chunk_total};
ghost use Rattle.oe_plan.specs.Ranges.{IsWithinRanges};
ghost use Rattle.oe_sources.specs.CatalogueRows.{rows_of};
ghost use Rattle.oe_top.specs.Evaluated.{IsBegun};
ghost use Rattle.oe_top.specs.Objects.{ForEachInput, lends};
ghost use Rattle.oe_top.specs.RunAnswer.{Evaluates, RunAnswers};

use crate::evaluation::{EvaluationFail, begin, complete, fail_of_run, fail_of_text};
use crate::judge::{InputRefusal, judge_input};
use crate::laws;
use crate::setup::Setup;
use oe_engine::Run;
use oe_memory::OutOfMemory;
use oe_outside::{Gate, Pending, Sink, Source, Store};
use oe_plan::PlanFail;
use oe_sources::Catalogue;
use oe_window::ChunkSize;
use std::thread::Threads;

/// Why `run` did not finish.
#[derive(Drop)]
pub enum RunRefusal {
    /// The input is no graph without a fault.
    Input(InputRefusal),
    /// The run would hold so many cells, which are more than are allowed.
    TooLarge(u128),
    /// An allocation was refused.
    OutOfMemory,
    /// The evaluation of the graph stopped.
    Stopped(EvaluationFail),
}

impl From<OutOfMemory> for RunRefusal {
    ghost use Rattle.std.specs.Prelude.{◌≡◌};
    ghost use Rattle.oe_top.specs.declared.run.RunRefusal.TheVariants.{OutOfMemory as no_memory};

    ghost from_gives = { λ _ e. e ≡ no_memory };

    fn from(_error: OutOfMemory) -> RunRefusal {
        RunRefusal::OutOfMemory
    }
}

/// Writes the text of what the graph of the input means over the collections of the catalogue. It is evaluated in
/// chunks of a size, with so many workers; neither has any effect on the text.
pub(crate) fn run<R: Threads + Sync, I: Source, O: Sink, P: Store, G: Gate>(
    setup: &Setup<'_, R, G>,
    sizes: (ChunkSize, u32),
    input: &mut I,
    out: &mut O,
    catalogue: &mut Catalogue,
    spool: &mut P,
) -> Result<(), RunRefusal>
    requires { IsWithinRanges sizes.0 sizes.1 }
    ensures { let lent = lends I.left I.faults O.written O.faults P.bytes P.faults in
        RunAnswers sizes.0 sizes.1 (lent input.old out.old spool.old (rows_of seen catalogue.old))
        (lent input.new out.new spool.new (rows_of seen catalogue.new)) result }
{
    let alloc = setup.alloc;
    let checked = match judge_input(alloc, input, catalogue) {
        Ok(checked) => checked,
        Err(refusal) => return Err(RunRefusal::Input(refusal)),
    };
    let mut pending = Pending::new(alloc)?;
    match begin(setup.rt, alloc, checked, sizes.0, sizes.1) {
        Ok((run, chunks)) => {
            match write_result(
                setup.rt,
                run,
                chunks,
                &mut pending,
                out,
                catalogue,
                spool,
                setup.gate,
            ) {
                Ok(()) => Ok(()),
                Err(fail) => Err(RunRefusal::Stopped(fail)),
            }
        }
        Err(PlanFail::TooLarge(cells)) => Err(RunRefusal::TooLarge(cells)),
        Err(PlanFail::OutOfMemory) => Err(RunRefusal::OutOfMemory),
    }
}

/// Evaluates the graph of a run before its first round, which has so many chunks, and writes its text.
fn write_result<R: Threads + Sync, O: Sink, P: Store, G: Gate>(
    rt: &R,
    mut run: Run,
    chunks: u64,
    pending: &mut Pending,
    out: &mut O,
    catalogue: &mut Catalogue,
    spool: &mut P,
    gate: &G,
) -> Result<(), EvaluationFail>
    requires begun { IsBegun run }
    requires chunks { chunks ≡ chunk_total run.plan }
    requires collections { IsCheckedOver (rows_of seen catalogue.old) run.plan.graph }
    ensures { ForEachInput O.written O.faults P.bytes P.faults out.old spool.old out.new spool.new
        (rows_of seen catalogue.old) (rows_of seen catalogue.new)
        (λ before after. Evaluates run.plan.graph run.plan.size before after result) }
{
    // Laws that the proof rests on; they do nothing.
    laws::collections_are_mounted();
    laws::ids_are_valid(catalogue);
    match complete(rt, &mut run, chunks, catalogue, spool, gate) {
        Ok(()) => match run.render(spool, out, pending) {
            Ok(()) => Ok(()),
            Err(fail) => Err(fail_of_text(fail)),
        },
        Err(fail) => Err(fail_of_run(run.checked(), fail)),
    }
}
