// A run that is taken up again after each refusal.
ghost use Rattle.std.specs.Prelude.{◌≡◌, IfOk, IsTrue, None, Ok, Some};
ghost use Rattle.oe_steps.specs.Collections.{HasCollections};
ghost use Rattle.oe_engine.specs.Runs.{HasRunRecords, chunk_total};
ghost use Rattle.oe_plan.specs.Ranges.{IsWithinRanges};
ghost use Rattle.oe_sources.specs.CatalogueRows.{rows_of};

use crate::checked::{Sizes, checked_of};
use crate::cubes::named_cube;
use crate::gate::CountGate;
use oe_engine::{
    Progress, Run, RunFail, Workspace, collections_are_mounted, over_is_of_the_result,
    reads_change_nothing,
};
use oe_lines::{Answers, Fault, first_word, push_digits};
use oe_outside::{MemorySink, MemoryStore, Pending};
use oe_plan::Plan;
use oe_render::RenderFail;
use oe_sources::Catalogue;
use std::alloc::Global;
use std::thread::Threads;

/// What stands in the spool before a run, whose records follow it.
const FRONT: &[u8] = b"front";

/// How many bytes these are.
const BASE: u64 = 5;

/// How many bytes the spool and the output of a run have room for.
const ROOM: usize = 65536;

/// How many rounds a run has at most, with those that are refused.
const MOST_ROUNDS: u32 = 10000;

/// The numbers of the calls that fail, of each object from 0 on.
#[derive(Clone, Copy)]
pub(crate) struct Failing<'a> {
    /// The reads of the input.
    pub(crate) input: &'a [u64],
    /// Of each collection its reads.
    pub(crate) reads: &'a [u64],
    /// The calls of the spool.
    pub(crate) spool: &'a [u64],
    /// The writes of the output.
    pub(crate) writes: &'a [u64],
    /// Of each part its reads, once it is opened.
    pub(crate) parts: &'a [u64],
}

/// The counts of a run.
#[derive(Clone, Copy)]
pub(crate) struct Counts {
    /// How many chunks it has, and how many were evaluated.
    pub(crate) chunks: u64,
    pub(crate) evaluations: u64,
    /// How often it was refused.
    pub(crate) refusals: u64,
}

/// Evaluates a graph over collections, and takes it up again after each refusal. Appends the text and, behind a blank,
/// the bytes of the spool in hexadecimal digits.
pub(crate) fn attempt<R: Threads + Sync>(
    rt: &R,
    alloc: Global,
    cubes: &[&str],
    sizes: Sizes,
    graph: &str,
    failing: Failing<'_>,
    gate: &CountGate,
    left: &mut Answers,
) -> Result<Counts, Fault>
    requires { IsWithinRanges sizes.0 sizes.1 }
{
    // The boxes of collections stay in this function, which drops them.
    let mut catalogue = Catalogue::new(alloc);
    for line in cubes {
        let (verb, rest) = first_word(line);
        let (id, cube) = named_cube(alloc, verb, rest, failing.reads)?;
        if catalogue.mount(id, Box::new(alloc, cube)?).is_err() {
            return Err(Fault::Line);
        }
    }
    carry_out(rt, alloc, &mut catalogue, sizes, graph, failing, gate, left)
}

/// Evaluates a graph over the collections of a catalogue, likewise.
fn carry_out<R: Threads + Sync>(
    rt: &R,
    alloc: Global,
    catalogue: &mut Catalogue,
    sizes: Sizes,
    graph: &str,
    failing: Failing<'_>,
    gate: &CountGate,
    left: &mut Answers,
) -> Result<Counts, Fault>
    requires { IsWithinRanges sizes.0 sizes.1 }
{
    let mut spool = spool_of(alloc, failing.spool)?;
    let mut run = begin(rt, alloc, catalogue, sizes, graph)?;
    evaluate(
        rt,
        alloc,
        &mut run,
        catalogue,
        &mut spool,
        failing.writes,
        gate,
        left,
    )
}

/// A spool with its front, of which these calls fail.
fn spool_of(alloc: Global, failing: &[u64]) -> Result<MemoryStore, Fault> {
    let front = FRONT.to_vec(alloc)?;
    Ok(MemoryStore::new(front, ROOM, failing.to_vec(alloc)?)?)
}

/// Carries out a run of which no chunk is done.
fn evaluate<R: Threads + Sync>(
    rt: &R,
    alloc: Global,
    run: &mut Run,
    catalogue: &mut Catalogue,
    spool: &mut MemoryStore,
    failing: &[u64],
    gate: &CountGate,
    left: &mut Answers,
) -> Result<Counts, Fault>
    requires mounted { HasCollections run.old.plan.graph (rows_of seen catalogue.old) }
    requires none_done { run.old.done ≡ 0 }
{
    over_is_of_the_result();
    let stopped = complete(rt, run, catalogue, spool, gate)?;
    let evaluations = run.evaluations();
    if run.finish().is_err() {
        return Err(Fault::Line);
    }
    let unwritten = push_text(alloc, run, spool, failing, left)?;
    push_digits(alloc, " ", spool.bytes(), left);
    if let Some(fault) = left.fault() {
        return Err(fault);
    }
    Ok(Counts {
        chunks: run.chunks(),
        evaluations,
        refusals: stopped.saturating_add(unwritten),
    })
}

/// A run of a graph before its first round, whose records are to follow the front of a spool.
fn begin<R: Threads + Sync>(
    rt: &R,
    alloc: Global,
    catalogue: &Catalogue,
    sizes: Sizes,
    graph: &str,
) -> Result<Run, Fault>
    requires { IsWithinRanges sizes.0 sizes.1 }
    ensures mounted { IfOk result (λ r. HasCollections r.plan.graph (rows_of seen catalogue.now)) }
    ensures none_done { IfOk result (λ r. r.done ≡ 0) }
    ensures none_over { IfOk result (λ r. r.over ≡ None) }
{
    let dims = catalogue.dims()?;
    let checked = checked_of(alloc, graph, &dims)?;
    let (size, workers) = sizes;
    let Ok(plan) = Plan::new(alloc, checked, size, workers) else {
        return Err(Fault::Line);
    };
    let workspace = Workspace::new(rt, alloc, &plan)?;
    collections_are_mounted();
    Ok(Run::start(plan, workspace, BASE))
}

/// Makes rounds until no chunk is left. Answers how many were refused.
fn complete<R: Threads + Sync>(
    rt: &R,
    run: &mut Run,
    catalogue: &mut Catalogue,
    spool: &mut MemoryStore,
    gate: &CountGate,
) -> Result<u64, Fault>
    requires mounted { HasCollections run.old.plan.graph (rows_of seen catalogue.old) }
    requires records { HasRunRecords run.old (Some spool.old.bytes) }
    ensures complete { IfOk result (λ count. run.new.done ≡ chunk_total run.new.plan) }
    ensures records { HasRunRecords run.new (Some spool.new.bytes) }
{
    reads_change_nothing();
    let mut refused: u64 = 0;
    for _ in 0..MOST_ROUNDS {
        let answer = run.round(rt, catalogue, spool, gate);
        if is_complete(&answer) {
            return Ok(refused);
        }
        refused = refused.saturating_add(refusals_of(&answer)?);
    }
    Err(Fault::Line)
}

fn is_complete(answer: &Result<Progress, RunFail>) -> bool
    ensures { IsTrue result → answer.now ≡ Ok Progress.Complete }
{
    match answer {
        Ok(Progress::Complete) => true,
        _ => false,
    }
}

/// 1 for a refusal by a script, and 0 for none.
fn refusals_of(answer: &Result<Progress, RunFail>) -> Result<u64, Fault> {
    match answer {
        Ok(_) => Ok(0),
        Err(RunFail::SourceFailed | RunFail::SpoolFailed) => Ok(1),
        Err(_) => Err(Fault::Line),
    }
}

/// Appends the text of a run that is complete, written again where that was refused. Answers how often it was.
fn push_text(
    alloc: Global,
    run: &mut Run,
    spool: &mut MemoryStore,
    failing: &[u64],
    left: &mut Answers,
) -> Result<u64, Fault>
    requires complete { run.old.done ≡ chunk_total run.old.plan }
    requires numbers { run.old.over ≡ None }
    requires records { HasRunRecords run.old (Some spool.old.bytes) }
{
    if push_written(alloc, run, spool, failing, left)? {
        return Ok(0);
    }
    if push_written(alloc, run, spool, &[], left)? {
        return Ok(1);
    }
    Err(Fault::Line)
}

/// Appends the text of a run that is complete, and answers whether no call failed.
fn push_written(
    alloc: Global,
    run: &mut Run,
    spool: &mut MemoryStore,
    failing: &[u64],
    left: &mut Answers,
) -> Result<bool, Fault>
    requires complete { run.old.done ≡ chunk_total run.old.plan }
    requires numbers { run.old.over ≡ None }
    requires records { HasRunRecords run.old (Some spool.old.bytes) }
    ensures run { IfOk result (λ written. run.new ≡ run.old) }
    ensures same { IfOk result (λ written. spool.new.bytes ≡ spool.old.bytes) }
{
    let mut out = MemorySink::new(alloc, ROOM, failing.to_vec(alloc)?)?;
    let written = write_text(alloc, run, spool, &mut out)?;
    if written {
        left.extend(out.bytes());
    }
    Ok(written)
}

/// Writes the text of a run that is complete, and answers whether no call failed.
fn write_text(
    alloc: Global,
    run: &mut Run,
    spool: &mut MemoryStore,
    out: &mut MemorySink,
) -> Result<bool, Fault>
    requires complete { run.old.done ≡ chunk_total run.old.plan }
    requires numbers { run.old.over ≡ None }
    requires records { HasRunRecords run.old (Some spool.old.bytes) }
    ensures run { IfOk result (λ written. run.new ≡ run.old) }
    ensures same { IfOk result (λ written. spool.new.bytes ≡ spool.old.bytes) }
{
    let mut pending = Pending::new(alloc)?;
    match run.render(spool, out, &mut pending) {
        Ok(()) => Ok(true),
        Err(RenderFail::SpoolDamaged(_)) => Err(Fault::Line),
        Err(_) => Ok(false),
    }
}
