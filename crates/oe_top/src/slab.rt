// The command `slab`: from the input to the text of what its graph means, where slabs of dates are folded one after the
// other.
ghost use Rattle.oe_engine.specs.Laws.{IsCheckedOver};
ghost use Rattle.oe_slab.specs.Figures.{AreSlabSides};
ghost use Rattle.oe_sources.specs.CatalogueRows.{rows_of};
ghost use Rattle.oe_top.specs.Objects.{ForEachInput, lends};
ghost use Rattle.oe_top.specs.SlabAnswer.{FoldsSlabs, SlabAnswers};
ghost use Rattle.oe_top.specs.SlabEvaluated.{IsSlabBegun};

use crate::evaluation::{EvaluationFail, fail_of_run, fail_of_text};
use crate::judge::{InputRefusal, judge_input};
use crate::laws;
use crate::setup::Setup;
use crate::slab_evaluation::{begin_slabs, complete_slabs};
use oe_memory::OutOfMemory;
use oe_outside::{Gate, Pending, Sink, Source, Store};
use oe_slab::{SlabPlanFail, SlabRun};
use oe_sources::Catalogue;
use oe_window::ChunkSize;
use std::thread::Threads;

/// Why `slab` did not finish.
#[derive(Drop)]
pub enum SlabRefusal {
    /// The input is no graph without a fault.
    Input(InputRefusal),
    /// The run has no reduction of t at which it can be cut.
    NoTimeFold,
    /// The run would hold so many cells, which are more than are allowed.
    TooLarge(u128),
    /// An allocation was refused.
    OutOfMemory,
    /// The evaluation of the graph stopped.
    Stopped(EvaluationFail),
}

impl From<OutOfMemory> for SlabRefusal {
    ghost use Rattle.std.specs.Prelude.{◌≡◌};
    ghost use Rattle.oe_top.specs.declared.slab.SlabRefusal.TheVariants.{OutOfMemory as no_memory};

    ghost from_gives = { λ _ e. e ≡ no_memory };

    fn from(_error: OutOfMemory) -> SlabRefusal {
        SlabRefusal::OutOfMemory
    }
}

/// Writes the text of what the graph of the input means over the collections of the catalogue. It is evaluated in
/// chunks of a size, of which slabs of so many dates at most are folded one after the other; the size has no effect on
/// the text.
pub(crate) fn slab<R: Threads + Sync, I: Source, O: Sink, P: Store, G: Gate>(
    setup: &Setup<'_, R, G>,
    size: ChunkSize,
    input: &mut I,
    out: &mut O,
    catalogue: &mut Catalogue,
    spool: &mut P,
) -> Result<(), SlabRefusal>
    requires { AreSlabSides size }
    ensures { let lent = lends I.left I.faults O.written O.faults P.bytes P.faults in
        SlabAnswers size (lent input.old out.old spool.old (rows_of seen catalogue.old))
        (lent input.new out.new spool.new (rows_of seen catalogue.new)) result }
{
    let alloc = setup.alloc;
    let checked = match judge_input(alloc, input, catalogue) {
        Ok(checked) => checked,
        Err(refusal) => return Err(SlabRefusal::Input(refusal)),
    };
    let mut pending = Pending::new(alloc)?;
    match begin_slabs(alloc, checked, size) {
        Ok(run) => match write_folded(run, &mut pending, out, catalogue, spool, setup.gate) {
            Ok(()) => Ok(()),
            Err(fail) => Err(SlabRefusal::Stopped(fail)),
        },
        Err(SlabPlanFail::NoTimeFold) => Err(SlabRefusal::NoTimeFold),
        Err(SlabPlanFail::TooLarge(cells)) => Err(SlabRefusal::TooLarge(cells)),
        Err(SlabPlanFail::OutOfMemory) => Err(SlabRefusal::OutOfMemory),
    }
}

/// Evaluates the graph of a run before its first round, and writes its text.
fn write_folded<O: Sink, P: Store, G: Gate>(
    mut run: SlabRun,
    pending: &mut Pending,
    out: &mut O,
    catalogue: &mut Catalogue,
    spool: &mut P,
    gate: &G,
) -> Result<(), EvaluationFail>
    requires begun { IsSlabBegun run }
    requires collections { IsCheckedOver (rows_of seen catalogue.old) run.plan.graph }
    ensures { ForEachInput O.written O.faults P.bytes P.faults out.old spool.old out.new spool.new
        (rows_of seen catalogue.old) (rows_of seen catalogue.new)
        (λ before after. FoldsSlabs run.plan.graph run.plan.size run.plan.fold before after result) }
{
    // Laws that the proof rests on; they do nothing.
    laws::loads_are_mounted();
    laws::slab_over_is_of_the_result();
    laws::ids_are_valid(catalogue);
    match complete_slabs(&mut run, catalogue, spool, gate) {
        Ok(()) => match run.render(spool, out, pending) {
            Ok(()) => Ok(()),
            Err(fail) => Err(fail_of_text(fail)),
        },
        Err(fail) => Err(fail_of_run(run.checked(), fail)),
    }
}
