// The chunks of one round, each in a bench of its own.
ghost use Rattle.std.specs.Prelude.{◌≡◌, ◌+◌, ◌^◌, ◌≤◌, length, IfErr, OnOk};
ghost use Rattle.oe_outside.specs.Faults.{HasCauseOf};
ghost use Rattle.oe_plan.specs.Figures.{shape_of_node};
ghost use Rattle.oe_spool.specs.Spooled.{ChangesOnly, IsInSome};
ghost use Rattle.oe_engine.specs.Chunks.{EachBench, HasRecordsOf, HasValidCells, IsAtDone, IsLeastOf};
ghost use Rattle.oe_engine.specs.Runs.{chunk_total, chunks_from};
ghost use Rattle.oe_steps.specs.declared.fail.RunFail.{RunFail};

use crate::bench::Bench;
use oe_outside::Store;
use oe_plan::Plan;
use oe_spool::{least_over, lesser, write_window};
use oe_steps::{RunFail, recall_numbers};

/// Writes the records of the chunks from a first one on, of benches that are done.
///
/// Refuses: `SpoolFailed` only where the fault counter of the spool rose.
pub(crate) fn write_chunks<P: Store>(
    plan: &Plan,
    benches: &[Bench],
    spool: &mut P,
    base: u64,
    first: u64,
) -> Result<(), RunFail>
    requires done { EachBench first (IsAtDone plan.now) benches.now }
    requires chunks { first + length benches.now ≤ chunk_total plan.now }
    requires base { base ≤ 2 ^ 62 }
    ensures written { OnOk result
        (EachBench first (HasRecordsOf plan.now (P.bytes spool.new) base) benches.now) }
    ensures valid { OnOk result (EachBench first (HasValidCells plan.now) benches.now) }
    ensures changes { ChangesOnly base (shape_of_node plan.now.graph plan.now.graph.result)
        (IsInSome (chunks_from plan.now first (length benches.now))) (P.bytes spool.old)
        (P.bytes spool.new) }
    ensures cause { HasCauseOf RunFail.SpoolFailed (P.faults spool.old) (P.faults spool.new)
        result }
    ensures only { IfErr result (λ refusal. refusal ≡ RunFail.SpoolFailed) }
{
    // A plan has at most 2^48 chunks, so that their numbers fit 64 bits.
    let _chunks = plan.chunks();
    for index in 0..benches.len() {
        let window = plan.chunk(first + index as u64);
        let cells = benches[index].result_cells(plan);
        recall_numbers(cells);
        if write_window(spool, base, plan.shape(), &window, cells).is_err() {
            return Err(RunFail::SpoolFailed);
        }
    }
    Ok(())
}

/// The least number of a cell that is `Over`, in the chunks from a first one on, of benches that are done.
pub(crate) fn least_of_chunks(plan: &Plan, benches: &[Bench], first: u64) -> Option<u64>
    requires done { EachBench first (IsAtDone plan.now) benches.now }
    requires chunks { first + length benches.now ≤ chunk_total plan.now }
    ensures { IsLeastOf plan.now first benches.now result }
{
    // A plan has at most 2^48 chunks, so that their numbers fit 64 bits.
    let _chunks = plan.chunks();
    let mut least = None;
    for index in 0..benches.len() {
        let window = plan.chunk(first + index as u64);
        let cells = benches[index].result_cells(plan);
        least = lesser(least, least_over(plan.shape(), &window, cells));
    }
    least
}
