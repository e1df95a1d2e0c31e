// The command `part`: from the input to the records of some chunks of its run.
ghost use Rattle.std.specs.Prelude.{◌≡◌, ◌<◌, ◌+◌, ◌↔◌, ℕ, [], List, IfOk, IsErrOf, IsTrue};
ghost use Rattle.oe_dims.specs.declared.dims.DimsRow.{DimsRow};
ghost use Rattle.oe_engine.specs.Evaluations.{IsPlanOf};
ghost use Rattle.oe_engine.specs.Laws.{IsCheckedOver};
ghost use Rattle.oe_parts.specs.Head.{AreSides, IsPartHead, front_bytes};
ghost use Rattle.oe_plan.specs.Figures.{bound_of, most_held_cells};
ghost use Rattle.oe_plan.specs.Ranges.{IsWithinRanges};
ghost use Rattle.oe_sources.specs.CatalogueRows.{rows_of};
ghost use Rattle.oe_steps.specs.Collections.{HasCollections};
ghost use Rattle.oe_top.specs.Judged.{IsCheckedText};
ghost use Rattle.oe_top.specs.Objects.{ForEachInput, lends};
ghost use Rattle.oe_top.specs.PartAnswer.{AreChunksOf, EvaluatesPart, PartAnswersBy, head_for, head_of_part};
ghost use Rattle.oe_top.specs.PartEvaluated.{GoesThroughPart, IsPartBegun};

use crate::evaluation::{EvaluationFail, fail_of_run, fail_of_text};
use crate::judge::{InputRefusal, judge_and_keep};
use crate::laws;
use crate::setup::Setup;
use oe_check::Checked;
use oe_dims::text_of;
use oe_engine::{PartRun, Progress, RunFail, Workspace};
use oe_memory::OutOfMemory;
use oe_outside::{Gate, Pending, Sink, Source, Store};
use oe_parts::{PartHead, write_part};
use oe_plan::{Plan, PlanFail};
use oe_sources::Catalogue;
use oe_window::{ChunkSize, Grid};
use std::alloc::Global;
use std::thread::Threads;

/// Why `part` did not finish.
#[derive(Drop)]
pub enum PartRefusal {
    /// The input is no graph without a fault.
    Input(InputRefusal),
    /// The chunks are none of those that the run has, or there is none among them.
    ChunkRange,
    /// The run would hold so many cells, which are more than are allowed.
    TooLarge(u128),
    /// An allocation was refused.
    OutOfMemory,
    /// The evaluation of the chunks stopped.
    Stopped(EvaluationFail),
}

impl From<OutOfMemory> for PartRefusal {
    ghost use Rattle.std.specs.Prelude.{◌≡◌};
    ghost use Rattle.oe_top.specs.declared.part.PartRefusal.TheVariants.{OutOfMemory as no_memory};

    ghost from_gives = { λ _ e. e ≡ no_memory };

    fn from(_error: OutOfMemory) -> PartRefusal {
        PartRefusal::OutOfMemory
    }
}

/// Writes the part file of the chunks from a first one on and before an end, of the run of the graph of the input in
/// chunks of a size. The number of workers has no effect on the file.
pub(crate) fn part<R: Threads + Sync, I: Source, O: Sink, P: Store, G: Gate>(
    setup: &Setup<'_, R, G>,
    sizes: (ChunkSize, u32),
    chunks: (u64, u64),
    input: &mut I,
    out: &mut O,
    catalogue: &mut Catalogue,
    spool: &mut P,
) -> Result<(), PartRefusal>
    requires { IsWithinRanges sizes.0 sizes.1 }
    ensures { let lent = lends I.left I.faults O.written O.faults P.bytes P.faults in PartAnswersBy
        sizes chunks (lent input.old out.old spool.old (rows_of seen catalogue.old))
        (lent input.new out.new spool.new (rows_of seen catalogue.new)) result }
{
    let alloc = setup.alloc;
    let (checked, graph) = match judge_and_keep(alloc, input, catalogue) {
        Ok(judged) => judged,
        Err(refusal) => return Err(PartRefusal::Input(refusal)),
    };
    if !are_chunks_of(&checked, sizes.0, chunks) {
        return Err(PartRefusal::ChunkRange);
    }
    let head = head_of(alloc, &graph, &checked, sizes.0, chunks)?;
    let front = head.front(alloc)?;
    let mut pending = Pending::new(alloc)?;
    match begin_part(setup.rt, alloc, checked, sizes, chunks) {
        Ok(run) => {
            match write_chunks(
                setup,
                run,
                &head,
                &front,
                &mut pending,
                out,
                catalogue,
                spool,
            ) {
                Ok(()) => Ok(()),
                Err(fail) => Err(PartRefusal::Stopped(fail)),
            }
        }
        Err(PlanFail::TooLarge(cells)) => Err(PartRefusal::TooLarge(cells)),
        Err(PlanFail::OutOfMemory) => Err(PartRefusal::OutOfMemory),
    }
}

/// Whether these are chunks of the run of a graph, and one of them at least.
fn are_chunks_of(checked: &Checked, size: ChunkSize, chunks: (u64, u64)) -> bool
    requires { AreSides size }
    ensures { IsTrue result ↔ AreChunksOf checked.now size chunks.0 chunks.1 }
{
    let grid = Grid::new(checked.shape(checked.result()), size);
    chunks.0 < chunks.1 && chunks.1 <= grid.count()
}

/// What the part of some chunks of a graph, whose text this is, says before its records. Refuses: out of memory.
fn head_of(
    alloc: Global,
    graph: &[u8],
    checked: &Checked,
    size: ChunkSize,
    chunks: (u64, u64),
) -> Result<PartHead, OutOfMemory>
    requires text { (rows : List DimsRow) × IsCheckedText rows graph.now checked.now }
    requires sides { AreSides size }
    requires chunks { AreChunksOf checked.now size chunks.0 chunks.1 }
    ensures head { IfOk result (λ head. head
        ≡ head_for graph.now checked.now size chunks.0 chunks.1) }
    ensures valid { IfOk result IsPartHead }
{
    let node = checked.result();
    let shape = checked.shape(node);
    // A shape is valid.
    let _epsg = shape.epsg();
    let graph = text_of(alloc, graph)?;
    let kind = checked.kind(node);
    let shape = shape.copy()?;
    Ok(PartHead {
        graph,
        sides: size,
        first: chunks.0,
        end: chunks.1,
        kind,
        shape,
    })
}

/// The run of these chunks of a graph before its first round, with its records at the front of a spool.
///
/// Refuses: `TooLarge` only where it would hold more cells than are allowed, with their number; out of memory.
fn begin_part<R: Threads + Sync>(
    rt: &R,
    alloc: Global,
    checked: Checked,
    sizes: (ChunkSize, u32),
    chunks: (u64, u64),
) -> Result<PartRun, PlanFail>
    requires sizes { IsWithinRanges sizes.0 sizes.1 }
    requires chunks { AreChunksOf checked sizes.0 chunks.0 chunks.1 }
    ensures begun { IfOk result IsPartBegun }
    ensures plan { IfOk result (λ r. IsPlanOf checked sizes.0 sizes.1 r.plan) }
    ensures front { IfOk result (λ r. r.base ≡ 0) }
    ensures first { IfOk result (λ r. r.first ≡ chunks.0) }
    ensures end { IfOk result (λ r. r.first + r.count ≡ chunks.1) }
    ensures too_large { (cells : ℕ) → IsErrOf result (PlanFail.TooLarge cells)
        → (cells ≡ bound_of checked sizes.0 sizes.1) × (most_held_cells < cells) }
{
    let plan = Plan::new(alloc, checked, sizes.0, sizes.1)?;
    let workspace = Workspace::new(rt, alloc, &plan)?;
    Ok(PartRun::start(plan, workspace, 0, chunks.0, chunks.1 - chunks.0))
}

/// Evaluates the chunks of a part of a run before its first round, and writes its part file, of which this is the
/// head and the front.
fn write_chunks<R: Threads + Sync, O: Sink, P: Store, G: Gate>(
    setup: &Setup<'_, R, G>,
    mut run: PartRun,
    head: &PartHead,
    front: &[u8],
    pending: &mut Pending,
    out: &mut O,
    catalogue: &mut Catalogue,
    spool: &mut P,
) -> Result<(), EvaluationFail>
    requires begun { IsPartBegun run }
    requires base { run.base ≡ 0 }
    requires head { head.now ≡ head_of_part head.now.graph run }
    requires valid { IsPartHead head.now }
    requires front { front.now ≡ front_bytes head.now }
    requires empty { pending.old ≡ [] }
    requires collections { IsCheckedOver (rows_of seen catalogue.old) run.plan.graph }
    ensures { ForEachInput O.written O.faults P.bytes P.faults out.old spool.old out.new spool.new
        (rows_of seen catalogue.old) (rows_of seen catalogue.new)
        (λ before after. EvaluatesPart head.now.graph run before after result) }
{
    // Laws that the proof rests on; they do nothing.
    laws::collections_are_mounted();
    laws::ids_are_valid(catalogue);
    match complete_part(setup.rt, &mut run, catalogue, spool, setup.gate) {
        Ok(()) => match write_part(head, front, spool, 0, out, pending) {
            Ok(()) => Ok(()),
            Err(fail) => Err(fail_of_text(fail)),
        },
        Err(fail) => Err(fail_of_run(run.plan().checked(), fail)),
    }
}

/// All rounds of a part of a run, at a gate that is open while they last.
///
/// Refuses: as a round does.
fn complete_part<R: Threads + Sync, P: Store, G: Gate>(
    rt: &R,
    run: &mut PartRun,
    catalogue: &mut Catalogue,
    spool: &mut P,
    gate: &G,
) -> Result<(), RunFail>
    requires begun { IsPartBegun run.old }
    requires mounted { HasCollections run.old.plan.graph (rows_of seen catalogue.old) }
    ensures through { GoesThroughPart run.old run.new (rows_of seen catalogue.old)
        (rows_of seen catalogue.new) (P.bytes spool.old) (P.bytes spool.new) (P.faults spool.old)
        (P.faults spool.new) result }
    ensures no_overflow { (number : ℕ) → ¬ IsErrOf result (RunFail.Overflow number) }
{
    let chunks = run.count();
    gate.open(chunks);
    let end = go_through_part(rt, run, chunks, catalogue, spool, gate);
    gate.close();
    end
}

/// All rounds of a part of a run, which has so many chunks.
fn go_through_part<R: Threads + Sync, P: Store, G: Gate>(
    rt: &R,
    run: &mut PartRun,
    chunks: u64,
    catalogue: &mut Catalogue,
    spool: &mut P,
    gate: &G,
) -> Result<(), RunFail>
    requires begun { IsPartBegun run.old }
    requires chunks { chunks ≡ run.old.count }
    requires mounted { HasCollections run.old.plan.graph (rows_of seen catalogue.old) }
    ensures through { GoesThroughPart run.old run.new (rows_of seen catalogue.old)
        (rows_of seen catalogue.new) (P.bytes spool.old) (P.bytes spool.new) (P.faults spool.old)
        (P.faults spool.new) result }
    ensures no_overflow { (number : ℕ) → ¬ IsErrOf result (RunFail.Overflow number) }
{
    // A law that the proof rests on; it does nothing.
    laws::reads_change_nothing();
    for _ in 0..chunks {
        match run.round(rt, catalogue, spool, gate) {
            Ok(Progress::Complete) => return Ok(()),
            Ok(Progress::More) => {}
            Err(fail) => return Err(fail),
        }
    }
    Ok(())
}
