// The command `plan`: from the input to the figures of its plan.
ghost use Rattle.std.specs.Prelude.{◌≡◌, IfOk};
ghost use Rattle.oe_plan.specs.Ranges.{IsWithinRanges};
ghost use Rattle.oe_sources.specs.CatalogueRows.{rows_of};
ghost use Rattle.oe_top.specs.Objects.{ForEachSpool};
ghost use Rattle.oe_top.specs.PlanAnswer.{PlanAnswers, figures_text, plan_text};

use crate::check::CheckRefusal;
use crate::judge::judge_input;
use itoa::Buffer;
use oe_check::Checked;
use oe_memory::OutOfMemory;
use oe_outside::{Sink, Source};
use oe_plan::figures;
use oe_sources::Catalogue;
use oe_window::ChunkSize;
use std::alloc::Global;

/// Writes how many cells a run of the graph of the input holds at most, in chunks of this size and with so many
/// workers, and how many chunks it has; also where it holds too many to be run. No collection is read.
pub(crate) fn plan<I: Source, O: Sink>(
    alloc: Global,
    size: ChunkSize,
    workers: u32,
    input: &mut I,
    out: &mut O,
    catalogue: &Catalogue,
) -> Result<(), CheckRefusal>
    requires { IsWithinRanges size workers }
    ensures { ForEachSpool I.left I.faults O.written O.faults input.old out.old input.new out.new
        (rows_of seen catalogue.now) (λ before after. PlanAnswers size workers before after result) }
{
    let checked = match judge_input(alloc, input, catalogue) {
        Ok(checked) => checked,
        Err(refusal) => return Err(CheckRefusal::Input(refusal)),
    };
    match line_of(alloc, &checked, size, workers) {
        Ok(line) => match out.write(&line) {
            Ok(()) => Ok(()),
            Err(_) => Err(CheckRefusal::WriteFault),
        },
        Err(_) => Err(CheckRefusal::OutOfMemory),
    }
}

/// The line of a checked graph.
fn line_of(
    alloc: Global,
    checked: &Checked,
    size: ChunkSize,
    workers: u32,
) -> Result<Vec<u8>, OutOfMemory>
    requires { IsWithinRanges size workers }
    ensures { IfOk result (λ line. line.items ≡ plan_text checked.now size workers) }
{
    let figures = figures(alloc, checked, size, workers)?;
    spell_figures(alloc, figures.bound, figures.chunks)
}

/// The line of two figures.
pub(crate) fn spell_figures(alloc: Global, bound: u128, chunks: u64) -> Result<Vec<u8>, OutOfMemory>
    ensures { IfOk result (λ line. line.items ≡ figures_text bound chunks) }
{
    let mut line = Vec::with_capacity(alloc, 128)?;
    line.extend_from_slice(b"bound ")?;
    line.extend_from_slice(Buffer::new().format(bound).as_bytes())?;
    line.extend_from_slice(b" chunks ")?;
    line.extend_from_slice(Buffer::new().format(chunks).as_bytes())?;
    line.push(b'\n')?;
    Ok(line)
}
