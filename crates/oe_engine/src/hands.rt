// The workers of a round, each with a seat of its own.
ghost use Rattle.std.specs.Prelude.{◌≡◌, ◌+◌, ◌<◌, ◌^◌, ℕ, length, slice_index_or};
ghost use Rattle.std.specs.List.{All};
ghost use Rattle.oe_engine.specs.Views.{HasWorked, MayWork};
ghost use Rattle.oe_engine.specs.declared.table.Hand.{Hand};

use crate::table::{Hand, Shelf};
use crate::work::work;
use oe_outside::Gate;
use oe_plan::Plan;
use std::thread;
use std::thread::Threads;

/// Has each worker draw slots, all at once in so many threads at most, this one among them. Where a thread cannot be had,
/// this one does its work.
pub(crate) fn work_all<R: Threads + Sync, G: Gate>(
    rt: &R,
    shelf: &Shelf,
    hands: &mut [Hand],
    plan: &Plan,
    gate: &G,
    first: u64,
    slots: u64,
    threads: usize,
)
    requires threads { 0 < threads }
    requires words { 0 < shelf.now.table_id.words }
    requires slots { (shelf.now.table_id.slots ≡ slots) × (shelf.now.key.slots ≡ slots) }
    requires room { first + slots < 2 ^ 64 }
    requires idle { All (MayWork shelf.now.key shelf.now.table_id plan.now first) hands.old }
    ensures many { length hands.new ≡ length hands.old }
    ensures worked { (i : ℕ) (d : Hand) → i < length hands.old → HasWorked shelf.now.key first
        (slice_index_or hands.old i d) (slice_index_or hands.new i d) }
{
    thread::for_each_mut(
        rt,
        hands,
        threads,
        &|_index: usize, hand: &mut Hand|
            requires { MayWork shelf.now.key shelf.now.table_id plan.now first hand.old
                × (0 < shelf.now.table_id.words) × (shelf.now.table_id.slots ≡ slots)
                × (shelf.now.key.slots ≡ slots) × (first + slots < 2 ^ 64) }
            ensures { HasWorked shelf.entry.now.key first hand.old hand.new }
        {
            work(shelf, &mut hand.seat, plan, gate, first, slots);
        },
    );
}
