// The benches that a round takes: the first so many of a run. The others stay as they are.
ghost use Rattle.std.specs.Prelude.{◌≡◌, ◌+◌, ◌*◌, ◌≤◌, OnOk, length, take};
ghost use Rattle.std.specs.List.{All};
ghost use Rattle.oe_sources.specs.CatalogueRows.{rows_of};
ghost use Rattle.oe_engine.specs.Benches.{IsBenchFor};
ghost use Rattle.oe_engine.specs.Chunks.{EachBench, EvaluatesFirst, IsAtDone, IsAtLoaded};
ghost use Rattle.oe_engine.specs.Evaluations.{most_asked};
ghost use Rattle.oe_steps.specs.Collections.{HasCollections};
ghost use Rattle.oe_steps.specs.Loads.{HasRead};
ghost use Rattle.oe_engine.specs.Loads.{LoadsBench};
ghost use Rattle.oe_engine.specs.Runs.{chunk_total, evaluated_after};
ghost use Rattle.oe_engine.specs.Workspaces.{AreBenchesFor};

use crate::asking::{ask_for_chunks, settle_chunks};
use crate::bench::Bench;
use crate::loading::load_in_threads;
use crate::round_table::Crew;
use oe_outside::Gate;
use oe_plan::Plan;
use oe_sources::Catalogue;
use oe_steps::RunFail;
use std::thread::Threads;

/// Asks for the cells of the chunks from a first one on, and loads these into the first so many benches, at once in a
/// thread for each worker.
///
/// Refuses: where a read of a collection is refused.
pub(crate) fn load_taken<R: Threads + Sync>(
    rt: &R,
    plan: &Plan,
    benches: &mut [Bench],
    count: usize,
    catalogue: &mut Catalogue,
    first: u64,
) -> Result<(), RunFail>
    requires count { count ≤ length benches.old }
    requires few { count ≤ 2 * plan.now.workers }
    requires benches { All (IsBenchFor plan.now) benches.old }
    requires chunks { first + count ≤ chunk_total plan.now }
    requires mounted { HasCollections plan.now.graph (rows_of seen catalogue.old) }
    ensures loaded { OnOk result (EachBench first
        (LoadsBench plan.now (rows_of seen catalogue.old)) (take count benches.new)) }
    ensures benches { All (IsBenchFor plan.now) benches.new }
    ensures many { length benches.new ≡ length benches.old }
    ensures read { HasRead plan.now.graph (count * most_asked plan.now)
        (rows_of seen catalogue.old) (rows_of seen catalogue.new) result }
{
    let mut permit = ask_for_chunks(plan, catalogue, count);
    // No more threads than chunks: one that has none is not worth it.
    let threads = count.min(plan.workers() as usize);
    let taken = &mut benches[..count];
    let loaded = load_in_threads(rt, plan, catalogue, first, threads, taken, &mut permit);
    settle_chunks(plan, catalogue, loaded)
}

/// Has the workers evaluate the first so many benches, each once behind the gate. Answers the number of evaluations,
/// before which there were so many.
pub(crate) fn evaluate_taken<R: Threads + Sync, G: Gate>(
    rt: &R,
    crew: &mut Crew,
    plan: &Plan,
    benches: &mut Vec<Bench>,
    count: usize,
    gate: &G,
    first: u64,
    evaluations: u64,
) -> u64
    requires crew { crew.old ≡ plan.now.workers }
    requires made { AreBenchesFor plan.now benches.old.items }
    requires count { count ≤ length benches.old.items }
    requires loaded { EachBench first (IsAtLoaded plan.now) (take count benches.old.items) }
    requires chunks { first + count ≤ chunk_total plan.now }
    ensures crew { crew.new ≡ crew.old }
    ensures done { EachBench first (IsAtDone plan.now) (take count benches.new.items) }
    ensures value { EvaluatesFirst plan.now first count benches.old.items benches.new.items }
    ensures made { AreBenchesFor plan.now benches.new.items }
    ensures evaluations { result ≡ evaluated_after evaluations count }
{
    // A plan has at most 2^48 chunks, so that their numbers fit 64 bits, and at most 64 workers.
    let _chunks = plan.chunks();
    let _workers = plan.workers();
    // No more threads than chunks: a worker that finds none is not worth one.
    crew.evaluate(rt, plan, benches, gate, first, count.max(1));
    evaluations.saturating_add(count as u64)
}
