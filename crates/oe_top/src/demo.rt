// The command `demo`: the figures of a graph over a generated collection.
ghost use Rattle.std.specs.Prelude.{◌≡◌, ◌≢◌, ◌-◌, ◌+◌, ◌++◌, ◌≤◌, ◌<◌, [], IfErr, IfOk, IfSome, OnOk, Some, length};
ghost use Rattle.oe_cell.specs.Cells.{IsCell};
ghost use Rattle.oe_cell.specs.Record.{record_of};
ghost use Rattle.oe_cell.specs.Spelling.{cell_text};
ghost use Rattle.oe_cell.specs.declared.cell.Cell.{Cell};
ghost use Rattle.oe_cell.specs.declared.cell.Cell.TheVariants.{Over};
ghost use Rattle.oe_dims.specs.Dimensions.{most_cells};
ghost use Rattle.oe_engine.specs.Laws.{GivesCollections, IsCheckedOver};
ghost use Rattle.oe_engine.specs.Runs.{chunk_total};
ghost use Rattle.oe_plan.specs.Ranges.{IsWithinRanges};
ghost use Rattle.oe_render.specs.Rendered.{HasSpoolCause, IsRefusalWithin};
ghost use Rattle.oe_sources.specs.CatalogueDims.{AreDimsOf, dims_of};
ghost use Rattle.oe_sources.specs.CatalogueRows.{rows_of};
ghost use Rattle.oe_top.specs.DemoAnswer.{DemoAnswers, Demonstrates, IsDemonstration};
ghost use Rattle.oe_top.specs.Demonstration.{HasSpooled, IsSpooled, demo_graph, figures_text};
ghost use Rattle.oe_top.specs.Evaluated.{IsBegun};
ghost use Rattle.oe_top.specs.Judged.{IsCheckedText};
ghost use Rattle.oe_top.specs.Objects.{ForEachInputAndRows};

use crate::evaluation::{EvaluationFail, begin, complete, fail_of_run, fail_of_text};
use crate::judge::{InputRefusal, judge_bytes};
use crate::laws;
use crate::line::Line;
use crate::setup::Setup;
use oe_cell::{Cell, TextBuf, print_cell, read_record};
use oe_check::Checked;
use oe_engine::Run;
use oe_memory::OutOfMemory;
use oe_outside::{Gate, Sink, Store, fill_at};
use oe_plan::PlanFail;
use oe_render::RenderFail;
use oe_sources::Catalogue;
use oe_window::ChunkSize;
use std::alloc::Global;
use std::thread::Threads;

/// The collection `demo` whole, then a kernel of 3 × 3 ones whose border repeats the nearest pixel, then the greatest
/// cell of the bands.
const GRAPH: &str = "{\"process_graph\":{\
\"load\":{\"process_id\":\"load_collection\",\"arguments\":{\"id\":\"demo\",\"spatial_extent\":null,\"temporal_extent\":null}},\
\"sum\":{\"process_id\":\"apply_kernel\",\"arguments\":{\"data\":{\"from_node\":\"load\"},\"kernel\":[[1,1,1],[1,1,1],[1,1,1]],\"border\":\"replicate\"}},\
\"top\":{\"process_id\":\"reduce_dimension\",\"arguments\":{\"data\":{\"from_node\":\"sum\"},\"dimension\":\"bands\",\"reducer\":{\"process_graph\":\
{\"max\":{\"process_id\":\"max\",\"arguments\":{\"data\":{\"from_parameter\":\"data\"}},\"result\":true}}}},\"result\":true}}}";

/// Why `demo` did not finish.
#[derive(Drop)]
pub enum DemoRefusal {
    /// The run would hold so many cells, which are more than are allowed.
    TooLarge(u128),
    /// An allocation was refused.
    OutOfMemory,
    /// The evaluation of the graph stopped.
    Stopped(EvaluationFail),
}

impl From<OutOfMemory> for DemoRefusal {
    ghost use Rattle.std.specs.Prelude.{◌≡◌};
    ghost use Rattle.oe_top.specs.declared.demo.DemoRefusal.TheVariants.{OutOfMemory as no_memory};

    ghost from_gives = { λ _ e. e ≡ no_memory };

    fn from(_error: OutOfMemory) -> DemoRefusal {
        DemoRefusal::OutOfMemory
    }
}

/// Evaluates the graph of the demonstration, in which no fault stands, over the generated collection of a seed and a
/// side, and writes how many cells its result has, and the first and the last of them.
pub(crate) fn demo<R: Threads + Sync, O: Sink, P: Store, G: Gate>(
    setup: &Setup<'_, R, G>,
    source: (u32, u32),
    sizes: (ChunkSize, u32),
    out: &mut O,
    spool: &mut P,
) -> Result<(), DemoRefusal>
    requires seed { source.0 ≤ 1000000000 }
    requires side { (1 ≤ source.1) × (source.1 ≤ 1024) }
    requires sizes { IsWithinRanges sizes.0 sizes.1 }
    ensures { ForEachInputAndRows O.written O.faults P.bytes P.faults out.old spool.old out.new
        spool.new (λ before after. DemoAnswers source.0 source.1 sizes.0 sizes.1
        before after result) }
{
    let alloc = setup.alloc;
    let mut catalogue = Catalogue::generated(alloc, source.0, source.1)?;
    let checked = checked_graph(alloc, &catalogue)?;
    let line = Line::new(alloc)?;
    match begin(setup.rt, alloc, checked, sizes.0, sizes.1) {
        Ok((run, chunks)) => {
            match write_figures(
                setup.rt,
                run,
                chunks,
                line,
                out,
                &mut catalogue,
                spool,
                setup.gate,
            ) {
                Ok(()) => Ok(()),
                Err(fail) => Err(DemoRefusal::Stopped(fail)),
            }
        }
        Err(PlanFail::TooLarge(cells)) => Err(DemoRefusal::TooLarge(cells)),
        Err(PlanFail::OutOfMemory) => Err(DemoRefusal::OutOfMemory),
    }
}

/// The graph of the demonstration, expanded and checked over a generated collection. Refuses: out of memory.
fn checked_graph(alloc: Global, catalogue: &Catalogue) -> Result<Checked, OutOfMemory>
    requires { IsDemonstration (rows_of seen catalogue.now) }
    ensures checked { IfOk result (IsCheckedText (dims_of (rows_of seen catalogue.now)) demo_graph) }
    ensures collections { OnOk result (GivesCollections (rows_of seen catalogue.now)) }
    ensures found { IfOk result (λ c. AreDimsOf (rows_of seen catalogue.now) c.rows) }
{
    let dims = catalogue.dims()?;
    // A law that the proof rests on: its loop only looks.
    laws::collections_are_valid(catalogue, &dims);
    match judge_bytes(alloc, GRAPH.as_bytes(), &dims) {
        Ok(checked) => Ok(checked),
        // No fault stands in this graph.
        Err(InputRefusal::Graph(_)) => unreachable!(),
        Err(InputRefusal::ReadFault) => unreachable!(),
        Err(InputRefusal::OutOfMemory) => Err(OutOfMemory),
    }
}

/// Evaluates the graph of a run before its first round, which has so many chunks, and writes its figures.
fn write_figures<R: Threads + Sync, O: Sink, P: Store, G: Gate>(
    rt: &R,
    mut run: Run,
    chunks: u64,
    mut line: Line,
    out: &mut O,
    catalogue: &mut Catalogue,
    spool: &mut P,
    gate: &G,
) -> Result<(), EvaluationFail>
    requires begun { IsBegun run }
    requires front { run.base ≡ 0 }
    requires chunks { chunks ≡ chunk_total run.plan }
    requires empty { line ≡ [] }
    requires demonstration { IsDemonstration (rows_of seen catalogue.old) }
    requires collections { IsCheckedOver (rows_of seen catalogue.old) run.plan.graph }
    ensures { ForEachInputAndRows O.written O.faults P.bytes P.faults out.old spool.old out.new
        spool.new (λ before after. Demonstrates (rows_of seen catalogue.old) run.plan.graph
        before after result) }
{
    // Laws that the proof rests on; they do nothing.
    laws::collections_are_mounted();
    if let Err(fail) = complete(rt, &mut run, chunks, catalogue, spool, gate) {
        // A law: no read of a generated collection has failed.
        catalogue.generated_never_failed(0);
        return Err(fail_of_run(run.checked(), fail));
    }
    let count = run.shape().cells();
    match read_ends(spool, count) {
        Ok((first, last)) => {
            spell_figures(count, first, last, &mut line);
            match out.write(line.as_slice()) {
                Ok(()) => Ok(()),
                Err(_) => Err(EvaluationFail::WriteFault),
            }
        }
        Err(fail) => Err(fail_of_text(fail)),
    }
}

/// The figures of so many cells, of which these are the first and the last, in an empty line.
fn spell_figures(count: u64, first: Cell, last: Cell, line: &mut Line)
    requires empty { line.old ≡ [] }
    requires first { first ≢ Over }
    requires last { last ≢ Over }
    ensures { line.new ≡ figures_text count first last }
{
    line.push(b"cells ");
    line.push_number(u128::from(count));
    line.push(b" first ");
    push_cell(first, line);
    line.push(b" last ");
    push_cell(last, line);
    line.push(b"\n");
}

/// Appends the spelling of a cell.
fn push_cell(cell: Cell, line: &mut Line)
    requires numbered { cell ≢ Over }
    requires room { length line.old ≤ 200 }
    ensures appended { line.new ≡ line.old ++ cell_text cell }
    ensures short { length line.new ≤ length line.old + 48 }
{
    let mut text = TextBuf::new();
    print_cell(cell, &mut text);
    line.push(text.bytes());
}

/// The first and the last of so many cells whose records stand in the spool. Refuses: as [`cell_at`] does.
fn read_ends<P: Store>(spool: &mut P, count: u64) -> Result<(Cell, Cell), RenderFail>
    requires few { count ≤ most_cells }
    requires first { HasSpooled (P.bytes spool.old) count 0 }
    requires last { HasSpooled (P.bytes spool.old) count (count - 1) }
    ensures first { IfOk result (λ ends. IsSpooled (P.bytes spool.old) count 0 ends.0) }
    ensures last { IfOk result (λ ends. IsSpooled (P.bytes spool.old) count (count - 1) ends.1) }
    ensures cause { HasSpoolCause P.faults spool.old spool.new result }
    ensures damage { IfErr result (IsRefusalWithin (P.bytes spool.old) 0 count) }
    ensures only { IfErr result (λ e. e ≢ RenderFail.SinkFailed) }
    ensures same { P.bytes spool.new ≡ P.bytes spool.old }
{
    let first = cell_at(spool, count, 0)?;
    let last = cell_at(spool, count, count.saturating_sub(1))?;
    Ok((first, last))
}

/// The cell of a number among so many whose records stand in the spool, null where there are not so many.
///
/// Refuses: `SpoolFailed` only where the fault counter of the spool rose; `SpoolDamaged` only where what was read is no
/// record, or that of `Over`, and so never of a spool whose bytes are visible, nor at a number that no cell has.
fn cell_at<P: Store>(spool: &mut P, count: u64, number: u64) -> Result<Cell, RenderFail>
    requires few { count ≤ most_cells }
    requires stored { HasSpooled (P.bytes spool.old) count number }
    ensures cell { IfOk result (IsSpooled (P.bytes spool.old) count number) }
    ensures cause { HasSpoolCause P.faults spool.old spool.new result }
    ensures damage { IfErr result (IsRefusalWithin (P.bytes spool.old) number count) }
    ensures only { IfErr result (λ e. e ≢ RenderFail.SinkFailed) }
    ensures same { P.bytes spool.new ≡ P.bytes spool.old }
{
    if number >= count {
        return Ok(Cell::Empty);
    }
    let mut record = [0u8; 17];
    match fill_at(spool, 17 * number, &mut record) {
        Ok(true) => match numbered_cell(&record) {
            Some(cell) => Ok(cell),
            None => Err(RenderFail::SpoolDamaged(number)),
        },
        Ok(false) => Err(RenderFail::SpoolDamaged(number)),
        Err(_) => Err(RenderFail::SpoolFailed),
    }
}

/// The cell of a record, none where the bytes are no record, or that of `Over`.
fn numbered_cell(bytes: &[u8; 17]) -> Option<Cell>
    ensures cell { IfSome result (λ c. IsCell c × (c ≢ Over) × (record_of c ≡ bytes.now)) }
    ensures round_trip { (c : Cell) → IsCell c → c ≢ Over → record_of c ≡ bytes.now
        → result ≡ Some c }
{
    match read_record(bytes) {
        Some(cell) => { if cell.is_over() { None } else { Some(cell) } }
        None => None,
    }
}
