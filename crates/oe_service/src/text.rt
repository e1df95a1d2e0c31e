// The text of an asset.
ghost use Rattle.std.specs.Prelude.{◌≡◌, ◌≤◌, List, IfErr, IfOk, None, length};
ghost use Rattle.oe_engine.specs.Going.{IsGoing};
ghost use Rattle.oe_engine.specs.Runs.{HasRunRecords, chunk_total};
ghost use Rattle.oe_outside.specs.Faults.{NeverFalls};
ghost use Rattle.oe_service.specs.Causes.{HasNoText, IsAssetText, TextRefused};
ghost use Rattle.oe_sources.specs.Catalogue.{Row};

use crate::refusal::RunRefusal;
use oe_dims::Text;
use oe_engine::Run;
use oe_memory::OutOfMemory;
use oe_outside::{BoundedSink, Pending, Store};
use std::alloc::Global;

/// The text of a run all of whose chunks are done.
///
/// Refuses: `NumberOverflow` exactly where a cell of its result is no number in range; `AssetTooLarge` exactly where the
/// text has more than 1048576 bytes; `SpoolFault` only where the spool's fault counter rose; `SpoolDamaged` only over a
/// spool whose bytes are hidden; out of memory.
pub(crate) fn text_of_run<P: Store>(
    alloc: Global,
    run: &mut Run,
    spool: &mut P,
) -> Result<Text, RunRefusal>
    requires complete { run.old.done ≡ chunk_total run.old.plan }
    requires records { HasRunRecords run.old (P.bytes spool.old) }
    ensures text { IfOk result (λ text. (rows : List Row) → IsGoing run.old rows (P.bytes spool.old)
        → IsAssetText run.old.plan.graph rows (P.bytes spool.old) text) }
    ensures short { IfOk result (λ text. length text ≤ 1048576) }
    ensures refused { IfErr result (λ reason. (rows : List Row)
        → IsGoing run.old rows (P.bytes spool.old) → TextRefused run.old.plan.graph rows
        (P.bytes spool.old) (P.faults spool.old) (P.faults spool.new) reason) }
    ensures run { run.new ≡ run.old }
    ensures same { P.bytes spool.new ≡ P.bytes spool.old }
    ensures count { NeverFalls (P.faults spool.old) (P.faults spool.new) }
{
    match run.finish() {
        Ok(()) => write_text(alloc, run, spool),
        Err(fail) => Err(RunRefusal::of_round(fail)),
    }
}

fn write_text<P: Store>(alloc: Global, run: &mut Run, spool: &mut P) -> Result<Text, RunRefusal>
    requires complete { run.old.done ≡ chunk_total run.old.plan }
    requires numbers { run.old.over ≡ None }
    requires records { HasRunRecords run.old (P.bytes spool.old) }
    ensures text { IfOk result (λ text. (rows : List Row) → IsGoing run.old rows (P.bytes spool.old)
        → IsAssetText run.old.plan.graph rows (P.bytes spool.old) text) }
    ensures short { IfOk result (λ text. length text ≤ 1048576) }
    ensures refused { IfErr result (λ reason. (rows : List Row)
        → IsGoing run.old rows (P.bytes spool.old) → TextRefused run.old.plan.graph rows
        (P.bytes spool.old) (P.faults spool.old) (P.faults spool.new) reason) }
    ensures run { run.new ≡ run.old }
    ensures same { P.bytes spool.new ≡ P.bytes spool.old }
    ensures count { NeverFalls (P.faults spool.old) (P.faults spool.new) }
{
    let mut sink = BoundedSink::new(alloc)?;
    let mut pending = Pending::new(alloc)?;
    match run.render(spool, &mut sink, &mut pending) {
        Ok(()) => text_in_sink(alloc, sink),
        Err(fail) => {
            // A sink that has failed is full.
            let _full = sink.is_full();
            Err(RunRefusal::of_text(fail))
        }
    }
}

/// What stands in a sink, as a text. A sink that is full holds more than an asset may have.
fn text_in_sink(alloc: Global, sink: BoundedSink) -> Result<Text, RunRefusal>
    ensures text { IfOk result (λ text. text ≡ sink.written) }
    ensures short { IfOk result (λ text. length text ≤ 1048576) }
    ensures refused { IfErr result (HasNoText sink.written) }
{
    if sink.is_full() {
        return Err(RunRefusal::AssetTooLarge);
    }
    text_of_bytes(alloc, &sink.into_bytes())
}

/// The text that the bytes are, in as much room as it needs.
fn text_of_bytes(alloc: Global, bytes: &[u8]) -> Result<Text, RunRefusal>
    requires { length bytes.now ≤ 1048576 }
    ensures text { IfOk result (λ text. text ≡ bytes.now) }
    ensures refused { IfErr result (HasNoText bytes.now) }
{
    match str::from_utf8(bytes) {
        Ok(text) => Ok(Text::of(alloc, text)?),
        Err(_) => Err(RunRefusal::SpoolDamaged),
    }
}
