// The command `explain`: from the input to the lines that explain its least fault.
ghost use Rattle.std.specs.Prelude.{◌+◌};
ghost use Rattle.oe_graph.specs.Form.{most_input};
ghost use Rattle.oe_outside.specs.Faults.{NeverFalls};
ghost use Rattle.oe_outside.specs.Input.{TakesAtMost};
ghost use Rattle.oe_sources.specs.CatalogueDims.{dims_of};
ghost use Rattle.oe_sources.specs.CatalogueRows.{rows_of};
ghost use Rattle.oe_top.specs.ExplainAnswer.{ExplainAnswers, FindsFault};
ghost use Rattle.oe_top.specs.Objects.{ForEachSpool};

use crate::check::CheckRefusal;
use crate::input::read_input;
use crate::judge::{InputRefusal, judge_bytes};
use oe_explain::explain as explanation;
use oe_graph::Fault;
use oe_outside::{ReadRefusal, Sink, Source};
use oe_sources::Catalogue;
use std::alloc::Global;

/// Writes `valid` where no fault stands in the graph of the input, and else the lines that explain the least one. No
/// collection is read.
pub(crate) fn explain<I: Source, O: Sink>(
    alloc: Global,
    input: &mut I,
    out: &mut O,
    catalogue: &Catalogue,
) -> Result<(), CheckRefusal>
    ensures { ForEachSpool I.left I.faults O.written O.faults input.old out.old input.new out.new
        (rows_of seen catalogue.now) (λ before after. ExplainAnswers before after result) }
{
    match find_fault(alloc, input, catalogue) {
        Ok(Some((fault, text))) => match out.write(&text) {
            Ok(()) => Err(CheckRefusal::Input(InputRefusal::Graph(fault))),
            Err(_) => Err(CheckRefusal::WriteFault),
        },
        Ok(None) => match out.write(b"valid\n") {
            Ok(()) => Ok(()),
            Err(_) => Err(CheckRefusal::WriteFault),
        },
        Err(refusal) => Err(CheckRefusal::Input(refusal)),
    }
}

/// The least fault that stands in the input, with the lines that explain it; none where none stands there.
///
/// Refuses: where the input could not be read; out of memory.
fn find_fault<I: Source>(
    alloc: Global,
    input: &mut I,
    catalogue: &Catalogue,
) -> Result<Option<(Fault, Vec<u8>)>, InputRefusal>
    ensures found { FindsFault (λ text. text.items) (dims_of (rows_of seen catalogue.now))
        (I.left input.old) (I.faults input.old) (I.left input.new) (I.faults input.new) result }
    ensures taken { TakesAtMost (I.left input.old) (most_input + 1) (I.left input.new) }
    ensures count { NeverFalls (I.faults input.old) (I.faults input.new) }
{
    let bytes = match read_input(alloc, input) {
        Ok(bytes) => bytes,
        Err(ReadRefusal::Failed) => return Err(InputRefusal::ReadFault),
        Err(ReadRefusal::OutOfMemory) => return Err(InputRefusal::OutOfMemory),
    };
    let dims = match catalogue.dims() {
        Ok(dims) => dims,
        Err(_) => return Err(InputRefusal::OutOfMemory),
    };
    match judge_bytes(alloc, &bytes, &dims) {
        Ok(_) => Ok(None),
        Err(InputRefusal::Graph(fault)) => match explanation(alloc, &bytes, &fault) {
            Ok(text) => Ok(Some((fault, text))),
            Err(_) => Err(InputRefusal::OutOfMemory),
        },
        Err(InputRefusal::ReadFault) => Err(InputRefusal::ReadFault),
        Err(InputRefusal::OutOfMemory) => Err(InputRefusal::OutOfMemory),
    }
}
