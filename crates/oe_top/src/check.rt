// The command `check`: from the input to the least fault of its graph.
ghost use Rattle.oe_sources.specs.CatalogueRows.{rows_of};
ghost use Rattle.oe_top.specs.CheckAnswer.{CheckAnswers};
ghost use Rattle.oe_top.specs.Objects.{ForEachSpool};

use crate::judge::{InputRefusal, judge_input};
use oe_outside::{Sink, Source};
use oe_sources::Catalogue;
use std::alloc::Global;

/// Why `check` or `plan` did not finish.
#[derive(Drop)]
pub enum CheckRefusal {
    /// The input is no graph without a fault.
    Input(InputRefusal),
    /// The output could not be written.
    WriteFault,
    /// An allocation was refused.
    OutOfMemory,
}

/// Writes `valid` where no fault stands in the graph of the input. No collection is read.
pub(crate) fn check<I: Source, O: Sink>(
    alloc: Global,
    input: &mut I,
    out: &mut O,
    catalogue: &Catalogue,
) -> Result<(), CheckRefusal>
    ensures { ForEachSpool I.left I.faults O.written O.faults input.old out.old input.new out.new
        (rows_of seen catalogue.now) (λ before after. CheckAnswers before after result) }
{
    match judge_input(alloc, input, catalogue) {
        Ok(_checked) => match out.write(b"valid\n") {
            Ok(()) => Ok(()),
            Err(_) => Err(CheckRefusal::WriteFault),
        },
        Err(refusal) => Err(CheckRefusal::Input(refusal)),
    }
}
