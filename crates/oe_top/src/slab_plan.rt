// The command `slabplan`: from the input to the figures of a run that is folded slab by slab.
ghost use Rattle.std.specs.Prelude.{IfOk, IsErrOf};
ghost use Rattle.oe_slab.specs.Cuts.{HasNoTimeCut};
ghost use Rattle.oe_slab.specs.Figures.{AreSlabSides};
ghost use Rattle.oe_slab.specs.declared.figures.SlabNumbersFail.{SlabNumbersFail};
ghost use Rattle.oe_sources.specs.CatalogueRows.{rows_of};
ghost use Rattle.oe_top.specs.Objects.{ForEachSpool};
ghost use Rattle.oe_top.specs.SlabPlanAnswer.{IsSlabLine, SlabPlanAnswers};

use crate::judge::{InputRefusal, judge_input};
use crate::plan::spell_figures;
use oe_check::Checked;
use oe_outside::{Sink, Source};
use oe_slab::{SlabNumbersFail, slab_figures};
use oe_sources::Catalogue;
use oe_window::ChunkSize;
use std::alloc::Global;

/// Why `slabplan` did not finish.
#[derive(Drop)]
pub enum SlabPlanRefusal {
    /// The input is no graph without a fault.
    Input(InputRefusal),
    /// The run has no reduction of t at which it can be cut.
    NoTimeFold,
    /// The output could not be written.
    WriteFault,
    /// An allocation was refused.
    OutOfMemory,
}

/// Writes how many cells a run of the graph of the input holds at most that folds slabs of so many dates one after the
/// other, and how many chunks it has; also where it holds too many to be run. No collection is read.
pub(crate) fn slab_plan<I: Source, O: Sink>(
    alloc: Global,
    size: ChunkSize,
    input: &mut I,
    out: &mut O,
    catalogue: &Catalogue,
) -> Result<(), SlabPlanRefusal>
    requires { AreSlabSides size }
    ensures { ForEachSpool I.left I.faults O.written O.faults input.old out.old input.new out.new
        (rows_of seen catalogue.now) (λ before after. SlabPlanAnswers size before after result) }
{
    let checked = match judge_input(alloc, input, catalogue) {
        Ok(checked) => checked,
        Err(refusal) => return Err(SlabPlanRefusal::Input(refusal)),
    };
    match line_of(alloc, &checked, size) {
        Ok(line) => match out.write(&line) {
            Ok(()) => Ok(()),
            Err(_) => Err(SlabPlanRefusal::WriteFault),
        },
        Err(SlabNumbersFail::NoTimeFold) => Err(SlabPlanRefusal::NoTimeFold),
        Err(SlabNumbersFail::OutOfMemory) => Err(SlabPlanRefusal::OutOfMemory),
    }
}

/// The line of a checked graph.
fn line_of(alloc: Global, checked: &Checked, size: ChunkSize) -> Result<Vec<u8>, SlabNumbersFail>
    requires { AreSlabSides size }
    ensures line { IfOk result (λ line. IsSlabLine checked.now size line.items) }
    ensures none { IsErrOf result SlabNumbersFail.NoTimeFold → HasNoTimeCut checked.now }
{
    let numbers = match slab_figures(alloc, checked, size) {
        Ok(numbers) => numbers,
        Err(SlabNumbersFail::NoTimeFold) => return Err(SlabNumbersFail::NoTimeFold),
        Err(SlabNumbersFail::OutOfMemory) => return Err(SlabNumbersFail::OutOfMemory),
    };
    match spell_figures(alloc, numbers.bound, numbers.chunks) {
        Ok(line) => Ok(line),
        Err(_) => Err(SlabNumbersFail::OutOfMemory),
    }
}
