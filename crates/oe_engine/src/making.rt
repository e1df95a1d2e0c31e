// The benches of a run, made by several threads at once: most of the time goes into the first use of their memory.
ghost use Rattle.std.specs.Prelude.{◌≡◌, ◌+◌, ◌<◌, ℕ, IfOk, OnOk, Option, length, slice_index_or};
ghost use Rattle.std.specs.List.{All};
ghost use Rattle.oe_engine.specs.Benches.{BenchOf, IsBenchFor};
ghost use Rattle.oe_engine.specs.Workspaces.{IsIdle, IsPlaceFor};
ghost use Rattle.oe_plan.specs.Plans.{PlanOf};

use crate::bench::Bench;
use oe_memory::OutOfMemory;
use oe_plan::Plan;
use std::alloc::{AllocError, Global};
use std::thread;
use std::thread::Threads;

/// Places for so many benches, an idle bench for a plan in each, or none where memory ran out. They are made in so many
/// threads at most, this one among them. Where a thread cannot be had, this one does its work. Refuses: out of memory.
pub(crate) fn make_benches<R: Threads + Sync>(
    rt: &R,
    alloc: Global,
    plan: &Plan,
    count: usize,
    threads: usize,
) -> Result<Vec<Option<Bench>>, AllocError>
    requires threads { 0 < threads }
    ensures many { IfOk result (λ places. length places.items ≡ count) }
    ensures made { IfOk result (λ places. All (IsPlaceFor plan.now) places.items) }
{
    let mut places: Vec<Option<Bench>> = Vec::new(alloc);
    places.resize_with(count, || None)?;
    make_all(rt, alloc, plan, &mut places, threads);
    Ok(places)
}

/// Makes a bench for a plan in each of these places, in so many threads at most.
fn make_all<R: Threads + Sync>(
    rt: &R,
    alloc: Global,
    plan: &Plan,
    places: &mut [Option<Bench>],
    threads: usize,
)
    requires threads { 0 < threads }
    ensures many { length places.new ≡ length places.old }
    ensures made { (i : ℕ) (d : Option BenchOf) → i < length places.old
        → IsPlaceFor plan.now (slice_index_or places.new i d) }
{
    thread::for_each_mut(
        rt,
        places,
        threads,
        &|_index: usize, place: &mut Option<Bench>|
            ensures { IsPlaceFor plan.entry.now place.new }
        {
            *place = bench_or_none(alloc, plan);
        },
    );
}

/// An idle bench for a plan, or none where memory ran out.
fn bench_or_none(alloc: Global, plan: &Plan) -> Option<Bench>
    ensures { IsPlaceFor plan.now result }
{
    match Bench::new(alloc, plan) {
        Ok(bench) => Some(bench),
        Err(_) => None,
    }
}

/// Takes the bench out of the last place. Refuses: out of memory, where none could be made for it.
pub(crate) fn take_bench(places: &mut Vec<Option<Bench>>) -> Result<Bench, OutOfMemory>
    requires { 0 < length places.old.items }
    ensures bench { (p : PlanOf) → All (IsPlaceFor p) places.old.items
        → IfOk result (IsBenchFor p) }
    ensures idle { (p : PlanOf) → All (IsPlaceFor p) places.old.items → IfOk result IsIdle }
    ensures others { (p : PlanOf) → All (IsPlaceFor p) places.old.items
        → All (IsPlaceFor p) places.new.items }
    ensures fewer { OnOk result (length places.new.items + 1 ≡ length places.old.items) }
{
    places.pop().flatten().ok_or(OutOfMemory)
}
