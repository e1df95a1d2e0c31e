// A round over the table: the coordinator lays the benches into the slots, makes workers and has them work, takes them in,
// and takes the benches back.
ghost use Rattle.std.specs.Prelude.{◌≡◌, ◌+◌, ◌*◌, ◌<◌, ◌≤◌, ◌^◌, ◌++◌, ◌∷◌, ℕ, [], List, length, vec_capacity, IfOk, IfSome};
ghost use Rattle.std.specs.List.{All};
ghost use Rattle.oe_engine.specs.Benches.{IsBenchFor};
ghost use Rattle.oe_engine.specs.Views.{AreEvaluations, AreFull, AreLaid, AreTakenBack, Content, EndsAll, HasNothing, IsReady, IsSpareAt, Stands};

use crate::bench::Bench;
use crate::hands::work_all;
use crate::lead::{give, join, split, start, take};
use crate::table::{Board, Hand, Lent, Place, Shelf, Task};
use crate::work::finish;
use atomic_table::Table;
use oe_outside::Gate;
use oe_plan::Plan;
use std::alloc::{AllocError, Global};
use std::marker::Model;
use std::snapshot::Snapshot;
use std::thread::Threads;

/// The workers of a run with the table over which they are handed benches. The coordinator's seat holds all slots
/// between two rounds.
#[derive(Drop)]
pub(crate) struct Crew {
    board: Board,
    seat: Place,
    hands: Vec<Hand>,
    workers: u32,
}

impl Model for Crew {
    ghost use Rattle.std.specs.Prelude.{◌≡◌, ◌*◌, ◌<◌, ◌≤◌, ℕ, [], vec_capacity};
    ghost use Rattle.oe_engine.specs.Views.{IsReady};

    ghost Value = { ℕ };

    ghost view = { λ c. c.workers };

    ghost invariant = { λ c. (c.seat.table_id ≡ c.board.shared.table_id)
        × (c.board.shared.table_id.words ≡ 1)
        × (c.board.shared.table_id.slots ≡ 2 * c.workers)
        × (c.board.shared.key.slots ≡ 2 * c.workers)
        × IsReady c.board.shared.key c.seat.me
        × (0 < c.workers) × (c.workers ≤ 64)
        × (c.workers ≤ vec_capacity c.hands) × (c.hands.items ≡ []) };
}

/// Takes all slots of a new table.
fn hold(shelf: &Shelf, seat: &mut Place, slots: u64)
    requires table { seat.old.table_id ≡ shelf.now.table_id }
    requires words { 0 < shelf.now.table_id.words }
    requires slots { shelf.now.key.slots ≡ slots }
    requires none { Stands shelf.now.key 0 0 0 0 [] seat.old.me }
    ensures table { seat.new.table_id ≡ seat.old.table_id }
    ensures ready { IsReady shelf.now.key seat.new.me }
{
    for slot in 0..slots {
        let _none = take(shelf, seat, slot);
    }
}

/// Opens the round of a first chunk and lays all benches into the slots, the last one first.
fn lay(shelf: &Shelf, seat: &mut Place, plan: &Plan, benches: &mut Vec<Bench>, first: u64)
    requires table { seat.old.table_id ≡ shelf.now.table_id }
    requires words { 0 < shelf.now.table_id.words }
    requires slots { shelf.now.table_id.slots ≡ shelf.now.key.slots }
    requires ready { IsReady shelf.now.key seat.old.me }
    requires room { first + shelf.now.key.slots + shelf.now.key.slots + 1 < 2 ^ 64 }
    requires many { length benches.old.items ≡ shelf.now.key.slots }
    ensures table { seat.new.table_id ≡ seat.old.table_id }
    ensures laid { (laid : List Content) × AreLaid plan.now benches.old.items laid
        × Stands shelf.now.key first 0 0 0 laid seat.new.me }
    ensures none { benches.new.items ≡ [] }
    ensures capacity { vec_capacity benches.new ≡ vec_capacity benches.old }
{
    start(shelf, seat, first);
    while let Some(bench) = benches.pop() {
        let plan = Snapshot::of(plan);
        let _none = give(
            shelf,
            seat,
            benches.len() as u64,
            Some(Lent { bench, plan }),
        );
    }
}

/// Makes so many workers.
fn split_all(shelf: &Shelf, seat: &mut Place, hands: &mut Vec<Hand>, workers: u64)
    requires table { seat.old.table_id ≡ shelf.now.table_id }
    requires words { 0 < shelf.now.table_id.words }
    requires workers { workers ≤ shelf.now.key.slots }
    requires room { workers ≤ vec_capacity hands.old }
    requires none { hands.old.items ≡ [] }
    requires stands { (first : ℕ) × (laid : List Content)
        × Stands shelf.now.key first 0 0 0 laid seat.old.me }
    ensures table { seat.new.table_id ≡ seat.old.table_id }
    ensures many { length hands.new.items ≡ workers }
    ensures capacity { vec_capacity hands.new ≡ vec_capacity hands.old }
    ensures made { (first : ℕ) (laid : List Content)
        → Stands shelf.now.key first 0 0 0 laid seat.old.me
        → Stands shelf.now.key first workers 0 0 laid seat.new.me }
    ensures seats { (first : ℕ) (laid : List Content)
        → Stands shelf.now.key first 0 0 0 laid seat.old.me
        → All (IsSpareAt shelf.now.key shelf.now.table_id first laid) hands.new.items }
{
    for number in 0..workers {
        let place = split(shelf, seat);
        hands.push_reserved(Hand {
            seat: place,
            number,
        });
    }
}

/// Takes all workers in.
fn join_all(shelf: &Shelf, seat: &mut Place, hands: &mut Vec<Hand>)
    requires table { seat.old.table_id ≡ shelf.now.table_id }
    requires words { 0 < shelf.now.table_id.words }
    requires stands { (first : ℕ) × (laid : List Content)
        × Stands shelf.now.key first (length hands.old.items) 0 0 laid seat.old.me }
    requires hands { All (HasNothing shelf.now.table_id) hands.old.items }
    ensures table { seat.new.table_id ≡ seat.old.table_id }
    ensures ended { EndsAll shelf.now.key (length hands.old.items) seat.old.me seat.new.me }
    ensures none { hands.new.items ≡ [] }
    ensures capacity { vec_capacity hands.new ≡ vec_capacity hands.old }
{
    while let Some(hand) = hands.pop() {
        let Hand {
            seat: other,
            number: _,
        } = hand;
        join(shelf, seat, other);
    }
}

/// Puts a bench that came back behind the others.
fn put_behind(benches: &mut Vec<Bench>, content: Option<Lent>)
    requires { length benches.old.items < vec_capacity benches.old }
    ensures bench { IfSome content (λ lent. benches.new.items
        ≡ benches.old.items ++ lent.bench ∷ []) }
    ensures capacity { vec_capacity benches.new ≡ vec_capacity benches.old }
{
    if let Some(lent) = content {
        let Lent { bench, plan: _ } = lent;
        benches.push_reserved(bench);
    }
}

/// Takes all benches back, each evaluated.
fn take_all<G: Gate>(
    shelf: &Shelf,
    seat: &mut Place,
    plan: &Plan,
    benches: &mut Vec<Bench>,
    gate: &G,
    slots: u64,
)
    requires table { seat.old.table_id ≡ shelf.now.table_id }
    requires words { 0 < shelf.now.table_id.words }
    requires slots { shelf.now.key.slots ≡ slots }
    requires none { benches.old.items ≡ [] }
    requires room { slots ≤ vec_capacity benches.old }
    requires stands { (first : ℕ) × (made : ℕ) × (laid : List Content)
        × Stands shelf.now.key first made made 0 laid seat.old.me × AreFull plan.now slots laid }
    ensures table { seat.new.table_id ≡ seat.old.table_id }
    ensures ready { IsReady shelf.now.key seat.new.me }
    ensures many { length benches.new.items ≡ slots }
    ensures evaluated { AreTakenBack plan.now shelf.now.key slots seat.old.me benches.new.items }
{
    for slot in 0..slots {
        let taken = take(shelf, seat, slot);
        let done = finish(taken, plan, gate);
        put_behind(benches, done);
    }
}

impl Crew {
    /// So many workers, and the table for two benches each. Refuses: out of memory.
    pub(crate) fn new(alloc: Global, workers: u32) -> Result<Crew, AllocError>
        requires some { 0 < workers }
        requires most { workers ≤ 64 }
        ensures { IfOk result (λ crew. crew ≡ workers) }
    {
        let hands = Vec::with_capacity(alloc, workers as usize)?;
        let slots = 2 * u64::from(workers);
        let (board, mut seat) = Table::vacant(alloc, &[0], slots as usize, &Task { slots })?;
        hold(&board.shared, &mut seat, slots);
        Ok(Crew {
            board,
            seat,
            hands,
            workers,
        })
    }

    /// Has the workers evaluate the benches of the round of a first chunk, in so many threads at most, each that is loaded
    /// once behind the gate. An idle bench and one that is done stay as they are.
    pub(crate) fn evaluate<R: Threads + Sync, G: Gate>(
        &mut self,
        rt: &R,
        plan: &Plan,
        benches: &mut Vec<Bench>,
        gate: &G,
        first: u64,
        threads: usize,
    )
        requires threads { 0 < threads }
        requires many { length benches.old.items ≡ 2 * self.old }
        requires benches { All (IsBenchFor plan.now) benches.old.items }
        requires room { first + 4 * self.old + 1 < 2 ^ 64 }
        ensures crew { self.new ≡ self.old }
        ensures many { length benches.new.items ≡ length benches.old.items }
        ensures evaluated { AreEvaluations plan.now benches.old.items benches.new.items }
    {
        let board = &self.board;
        let shelf = &board.shared;
        let workers = u64::from(self.workers);
        let slots = 2 * workers;
        lay(shelf, &mut self.seat, plan, benches, first);
        split_all(shelf, &mut self.seat, &mut self.hands, workers);
        work_all(
            rt,
            shelf,
            &mut self.hands,
            plan,
            gate,
            first,
            slots,
            threads,
        );
        join_all(shelf, &mut self.seat, &mut self.hands);
        take_all(shelf, &mut self.seat, plan, benches, gate, slots);
    }
}
