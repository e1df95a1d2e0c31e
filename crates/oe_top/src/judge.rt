// The graph of an input, judged over the collections of a catalogue.
ghost use Rattle.std.specs.Prelude.{◌+◌, IfOk, IfErr, OnOk};
ghost use Rattle.oe_dims.specs.Plain.{plain_rows};
ghost use Rattle.oe_graph.specs.Form.{most_input};
ghost use Rattle.oe_graph.specs.Read.{IsFault};
ghost use Rattle.oe_outside.specs.Faults.{NeverFalls};
ghost use Rattle.oe_outside.specs.Input.{TakesAtMost};
ghost use Rattle.oe_top.specs.Faults.{StandsOver};
ghost use Rattle.oe_top.specs.Judged.{IsCheckedText, IsTextOfInput, JudgesBytes, JudgesInput, RefusesInput};
ghost use Rattle.oe_engine.specs.Laws.{GivesCollections};
ghost use Rattle.oe_sources.specs.CatalogueDims.{AreDimsOf, dims_of};
ghost use Rattle.oe_sources.specs.CatalogueRows.{rows_of};

use crate::input::read_input;
use crate::laws;
use oe_check::Checked;
use oe_dims::Dims;
use oe_graph::{Fault, read_graph};
use oe_judge::judge;
use oe_outside::{ReadRefusal, Source};
use oe_sources::Catalogue;
use std::alloc::Global;

/// Why an input is no graph that can be worked on.
#[derive(Drop)]
pub enum InputRefusal {
    /// Faults stand in it, of which this is the least one.
    Graph(Fault),
    /// The input could not be read.
    ReadFault,
    /// An allocation was refused.
    OutOfMemory,
}

/// The graph of the input, expanded and checked over the collections of the catalogue, of which no cell is read.
///
/// Refuses: with the least fault, exactly where one stands in the whole input; where the input could not be
/// read; out of memory.
pub(crate) fn judge_input<I: Source>(
    alloc: Global,
    input: &mut I,
    catalogue: &Catalogue,
) -> Result<Checked, InputRefusal>
    ensures judged { JudgesInput (I.left input.old) (I.faults input.old)
        (dims_of (rows_of seen catalogue.now)) (I.left input.new) (I.faults input.new) result }
    ensures collections { OnOk result (GivesCollections (rows_of seen catalogue.now)) }
    ensures found { IfOk result (λ c. AreDimsOf (rows_of seen catalogue.now) c.rows) }
{
    match judge_and_keep(alloc, input, catalogue) {
        Ok((checked, _bytes)) => Ok(checked),
        Err(refusal) => Err(refusal),
    }
}

/// The same, with the bytes of the input, of which nothing is left.
pub(crate) fn judge_and_keep<I: Source>(
    alloc: Global,
    input: &mut I,
    catalogue: &Catalogue,
) -> Result<(Checked, Vec<u8>), InputRefusal>
    ensures text { IfOk result (λ kept. IsTextOfInput (dims_of (rows_of seen catalogue.now))
        (I.left input.old) (I.left input.new) kept.1.items kept.0) }
    ensures refused { IfErr result (RefusesInput (dims_of (rows_of seen catalogue.now))
        (I.left input.old) (I.faults input.old) (I.left input.new) (I.faults input.new)) }
    ensures taken { TakesAtMost (I.left input.old) (most_input + 1) (I.left input.new) }
    ensures count { NeverFalls (I.faults input.old) (I.faults input.new) }
    ensures collections { OnOk result (GivesCollections (rows_of seen catalogue.now)) }
    ensures found { IfOk result (λ kept. AreDimsOf (rows_of seen catalogue.now) kept.0.rows) }
{
    let bytes = match read_input(alloc, input) {
        Ok(bytes) => bytes,
        Err(ReadRefusal::Failed) => return Err(InputRefusal::ReadFault),
        Err(ReadRefusal::OutOfMemory) => return Err(InputRefusal::OutOfMemory),
    };
    match judge_in(alloc, &bytes, catalogue) {
        Ok(checked) => Ok((checked, bytes)),
        Err(refusal) => Err(refusal),
    }
}

/// The graph that the bytes are, expanded and checked over the collections of the catalogue.
///
/// Refuses: the least fault, exactly where one stands; out of memory.
fn judge_in(alloc: Global, bytes: &[u8], catalogue: &Catalogue) -> Result<Checked, InputRefusal>
    ensures judged { JudgesBytes (dims_of (rows_of seen catalogue.now)) bytes.now result }
    ensures collections { OnOk result (GivesCollections (rows_of seen catalogue.now)) }
    ensures found { IfOk result (λ c. AreDimsOf (rows_of seen catalogue.now) c.rows) }
{
    match checked_in(alloc, bytes, catalogue) {
        Ok(checked) => Ok(checked),
        Err(oe_graph::Refusal::Fault(fault)) => Err(InputRefusal::Graph(fault)),
        Err(oe_graph::Refusal::OutOfMemory) => Err(InputRefusal::OutOfMemory),
    }
}

/// The same, by what the crates below answer. The labels of all collections are copied only for bytes that are a graph.
fn checked_in(
    alloc: Global,
    bytes: &[u8],
    catalogue: &Catalogue,
) -> Result<Checked, oe_graph::Refusal>
    ensures checked { IfOk result (IsCheckedText (dims_of (rows_of seen catalogue.now)) bytes.now) }
    ensures refused { IfErr result
        (IsFault (StandsOver (dims_of (rows_of seen catalogue.now)) bytes.now)) }
    ensures collections { OnOk result (GivesCollections (rows_of seen catalogue.now)) }
    ensures found { IfOk result (λ c. AreDimsOf (rows_of seen catalogue.now) c.rows) }
{
    let graph = match read_graph(alloc, bytes) {
        Ok(graph) => graph,
        Err(refusal) => return Err(refusal),
    };
    let dims = match catalogue.dims() {
        Ok(dims) => dims,
        Err(_) => return Err(oe_graph::Refusal::OutOfMemory),
    };
    // A law that the proof rests on: its loop only looks.
    laws::collections_are_valid(catalogue, &dims);
    judge(alloc, &graph, &[], &dims)
}

/// The graph that the bytes are, expanded and checked over collections.
///
/// Refuses: the least fault, exactly where one stands; out of memory.
pub(crate) fn judge_bytes(alloc: Global, bytes: &[u8], dims: &Dims) -> Result<Checked, InputRefusal>
    ensures { JudgesBytes (plain_rows dims.now) bytes.now result }
{
    match checked_graph(alloc, bytes, dims) {
        Ok(checked) => Ok(checked),
        Err(oe_graph::Refusal::Fault(fault)) => Err(InputRefusal::Graph(fault)),
        Err(oe_graph::Refusal::OutOfMemory) => Err(InputRefusal::OutOfMemory),
    }
}

/// The same, by what the crates below answer.
fn checked_graph(alloc: Global, bytes: &[u8], dims: &Dims) -> Result<Checked, oe_graph::Refusal>
    ensures checked { IfOk result (IsCheckedText (plain_rows dims.now) bytes.now) }
    ensures refused { IfErr result (IsFault (StandsOver (plain_rows dims.now) bytes.now)) }
{
    let graph = match read_graph(alloc, bytes) {
        Ok(graph) => graph,
        Err(refusal) => return Err(refusal),
    };
    judge(alloc, &graph, &[], dims)
}
