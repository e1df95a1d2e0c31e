// The chunks of a round, loaded by several threads at once, each of which looks for benches that are neighbours.
ghost use Rattle.std.specs.Prelude.{◌≡◌, ◌+◌, ◌*◌, ◌≤◌, ◌<◌, length};
ghost use Rattle.std.specs.List.{All};
ghost use Rattle.std.specs.Thread.{IsSync};
ghost use Rattle.oe_engine.specs.Benches.{IsBenchFor};
ghost use Rattle.oe_engine.specs.Evaluations.{most_asked};
ghost use Rattle.oe_engine.specs.Hulls.{LoadsBy, LoadsChunks, MayLoad};
ghost use Rattle.oe_engine.specs.Runs.{chunk_total};
ghost use Rattle.oe_sources.specs.CatalogueRows.{rows_of, seal_of};
ghost use Rattle.oe_sources.specs.Permits.{MayLook, SpendsAtMost};
ghost use Rattle.oe_steps.specs.Collections.{HasCollections};

use crate::bench::Bench;
use crate::hulls::{Note, load_chunks};
use crate::steps::loads;
use oe_plan::Plan;
use oe_sources::{Catalogue, Looker, Permit};
use std::thread;
use std::thread::Threads;

/// Loads the chunks from a first one on, each into a bench, in so many threads at most. Where a thread cannot be had,
/// this one does its work. Their cells were asked for, with this permit.
///
/// Refuses: where a look at a collection is refused.
pub(crate) fn load_in_threads<R: Threads + Sync>(
    rt: &R,
    plan: &Plan,
    catalogue: &Catalogue,
    first: u64,
    threads: usize,
    benches: &mut [Bench],
    permit: &mut Permit,
) -> Result<(), Note>
    requires benches { All (IsBenchFor plan.now) benches.old }
    requires chunks { first + length benches.old ≤ chunk_total plan.now }
    requires mounted { HasCollections plan.now.graph (rows_of seen catalogue.now) }
    requires asked { MayLook (seal_of catalogue.now) (length benches.old * most_asked plan.now)
        permit.old }
    ensures { LoadsChunks plan.now (rows_of seen catalogue.now) first benches.old benches.new
        result }
{
    let load = |from: u64, own: Permit, piece: &mut [Bench]| -> Result<(), Note>
        requires { All (IsBenchFor plan.now) piece.old
            × (from + length piece.old ≤ chunk_total plan.now)
            × MayLook (seal_of catalogue.now) (length piece.old * most_asked plan.now) own
            × HasCollections plan.now.graph (rows_of seen catalogue.now) }
        ensures { LoadsChunks plan.entry.now (rows_of seen catalogue.entry.now) from
            piece.old piece.new result }
    { load_here(plan, catalogue, from, own, piece) };
    load_pieces(rt, plan, &load, first, threads, benches, permit)
}

/// Loads the chunks from a first one on, each into a bench, in this thread.
///
/// Refuses: where a look at a collection is refused.
fn load_here(
    plan: &Plan,
    catalogue: &Catalogue,
    first: u64,
    permit: Permit,
    benches: &mut [Bench],
) -> Result<(), Note>
    requires benches { All (IsBenchFor plan.now) benches.old }
    requires chunks { first + length benches.old ≤ chunk_total plan.now }
    requires mounted { HasCollections plan.now.graph (rows_of seen catalogue.now) }
    requires asked { MayLook (seal_of catalogue.now) (length benches.old * most_asked plan.now)
        permit }
    ensures { LoadsChunks plan.now (rows_of seen catalogue.now) first benches.old benches.new
        result }
{
    let mut looker = Looker::new(permit);
    load_chunks(plan, benches, catalogue, first, &mut looker)
}

/// Has the chunks from a first one on loaded, each into a bench, by a call for each of so many pieces of the benches,
/// or by one call where that is none. Each call has a thread of its own where one can be had, and the cells of its
/// chunks from the permit.
///
/// Refuses: as a call does; of several refusals that of the first piece.
#[cycle(halves)]
fn load_pieces<R: Threads + Sync, F: Fn(u64, Permit, &mut [Bench]) -> Result<(), Note> + Sync>(
    rt: &R,
    plan: &Plan,
    load: &F,
    first: u64,
    pieces: usize,
    benches: &mut [Bench],
    permit: &mut Permit,
) -> Result<(), Note>
    requires load { MayLoad F.Fn load.now plan.now permit.old.seal }
    requires benches { All (IsBenchFor plan.now) benches.old }
    requires chunks { first + length benches.old ≤ chunk_total plan.now }
    requires asked { length benches.old * most_asked plan.now ≤ permit.old.left }
    ensures { LoadsBy F.Fn load.now plan.now first benches.old benches.new result }
{
    if pieces < 2 {
        let own = cells_for(plan, benches.len(), permit);
        return load(first, own, benches);
    }
    let middle = share_of(benches.len(), pieces);
    let (one, others) = benches.split_at_mut(middle);
    let (answer, other_answer) = load_both(rt, plan, load, first, one, others, pieces, permit);
    answer.and(other_answer)
}

/// How many of so many benches the first half of so many pieces takes.
fn share_of(benches: usize, pieces: usize) -> usize
    requires { 0 < pieces }
    ensures { result ≤ benches }
{
    (benches.saturating_mul(pieces / 2) / pieces).min(benches)
}

/// Takes the cells of so many chunks out of a permit.
fn cells_for(plan: &Plan, count: usize, permit: &mut Permit) -> Permit
    requires { count * most_asked plan.now ≤ permit.old.left }
    ensures taken { MayLook permit.old.seal (count * most_asked plan.now) result }
    ensures rest { SpendsAtMost (count * most_asked plan.now) permit.old permit.new }
{
    let each = u64::from(loads(plan)) * plan.largest();
    let cells = (count as u64).saturating_mul(each).min(permit.left());
    permit.split(cells)
}

/// Has the chunks from a first one on loaded into some benches, and the next ones into others, at once, each by half of
/// so many pieces. Answers for both.
#[cycle(halves)]
fn load_both<R: Threads + Sync, F: Fn(u64, Permit, &mut [Bench]) -> Result<(), Note> + Sync>(
    rt: &R,
    plan: &Plan,
    load: &F,
    first: u64,
    one: &mut [Bench],
    others: &mut [Bench],
    pieces: usize,
    permit: &mut Permit,
) -> (Result<(), Note>, Result<(), Note>)
    requires load { MayLoad F.Fn load.now plan.now permit.old.seal }
    requires one { All (IsBenchFor plan.now) one.old }
    requires others { All (IsBenchFor plan.now) others.old }
    requires chunks { first + length one.old + length others.old ≤ chunk_total plan.now }
    requires some { 1 < pieces }
    requires asked { length one.old * most_asked plan.now + length others.old * most_asked plan.now
        ≤ permit.old.left }
    ensures one { LoadsBy F.Fn load.now plan.now first one.old one.new result.0 }
    ensures others { LoadsBy F.Fn load.now plan.now (first + length one.old) others.old others.new
        result.1 }
{
    // A plan has at most 2^48 chunks, so that their numbers fit 64 bits.
    let _chunks = plan.chunks();
    let second = first + one.len() as u64;
    let mut share = cells_for(plan, one.len(), permit);
    let own = &mut share;
    let low = pieces / 2;
    let high = pieces - low;
    let mut front = || -> Result<(), Note>
        requires { IsSync R.row × IsSync F.row × MayLoad F.Fn load.now plan.now own.now.seal
            × All (IsBenchFor plan.now) one.now
            × (first + length one.now ≤ chunk_total plan.now)
            × (length one.now * most_asked plan.now ≤ own.now.left) }
        ensures { LoadsBy F.Fn load.entry.now plan.entry.now first one.entry.now one.exit.now
            result }
    { load_pieces(rt, plan, load, first, low, one, own) };
    let mut back = || -> Result<(), Note>
        requires { IsSync R.row × IsSync F.row × MayLoad F.Fn load.now plan.now permit.now.seal
            × All (IsBenchFor plan.now) others.now
            × (second + length others.now ≤ chunk_total plan.now)
            × (length others.now * most_asked plan.now ≤ permit.now.left) }
        ensures { LoadsBy F.Fn load.entry.now plan.entry.now second others.entry.now
            others.exit.now result }
    { load_pieces(rt, plan, load, second, high, others, permit) };
    thread::join_mut(rt, &mut front, &mut back)
}
