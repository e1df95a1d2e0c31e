// What a worker does: it draws slots and evaluates their benches until none is left.
ghost use Rattle.std.specs.Prelude.{◌≡◌, ◌+◌, ◌<◌, ◌≤◌, ◌^◌, ℕ, [], IfSome, IsTrue, IsFalse};
ghost use Rattle.oe_engine.specs.Views.{AreFor, HasSlot, IsFinished, IsIdle, IsLentFor, laid_by, spare, with_hand};
ghost use Rattle.oe_engine.specs.declared.table.View.TheVariants.{Works};
ghost use Rattle.oe_engine.specs.declared.table.Worker.{Worker};

use crate::bench::State;
use crate::table::{Draw, Lent, Place, Put, Shelf};
use oe_outside::Gate;
use oe_plan::Plan;

/// Evaluates a bench that was taken, behind the gate where it is loaded.
pub(crate) fn finish<G: Gate>(taken: Option<Lent>, plan: &Plan, gate: &G) -> Option<Lent>
    requires lent { IfSome taken (IsLentFor plan.now) }
    ensures { IsFinished plan.now taken result }
{
    match taken {
        Some(mut lent) => {
            if let State::Loaded(chunk) = lent.bench.state() {
                gate.enter(chunk);
            }
            lent.bench.evaluate(plan);
            Some(lent)
        }
        None => None,
    }
}

/// Takes the bench of a slot that was drawn, evaluates it and puts it back.
fn evaluate_slot<G: Gate>(shelf: &Shelf, seat: &mut Place, slot: u64, plan: &Plan, gate: &G)
    requires table { seat.old.table_id ≡ shelf.now.table_id }
    requires words { 0 < shelf.now.table_id.words }
    requires slots { shelf.now.table_id.slots ≡ shelf.now.key.slots }
    requires has { HasSlot shelf.now.key slot seat.old.me }
    requires benches { AreFor plan.now (laid_by seat.old.me.0) }
    ensures table { seat.new.table_id ≡ seat.old.table_id }
    ensures back { (w : Worker) → seat.old.me.0 ≡ Works w
        → seat.new.me ≡ (Works (with_hand w 0), []) }
{
    let taken = shelf.exchange(seat, slot as usize, None);
    let now = finish(taken, plan, gate);
    let _none = shelf.exchange(seat, slot as usize, now);
    shelf.load::<Put>(seat, 0);
}

/// Draws a slot and evaluates its bench. Answers whether there was one.
fn draw<G: Gate>(
    shelf: &Shelf,
    seat: &mut Place,
    plan: &Plan,
    gate: &G,
    first: u64,
    slots: u64,
) -> bool
    requires table { seat.old.table_id ≡ shelf.now.table_id }
    requires words { 0 < shelf.now.table_id.words }
    requires slots { (shelf.now.table_id.slots ≡ slots) × (shelf.now.key.slots ≡ slots) }
    requires room { first + slots < 2 ^ 64 }
    requires idle { IsIdle shelf.now.key first seat.old.me }
    requires benches { AreFor plan.now (laid_by seat.old.me.0) }
    ensures table { seat.new.table_id ≡ seat.old.table_id }
    ensures again { IsTrue result → seat.new.me ≡ seat.old.me }
    ensures past { IsFalse result
        → seat.new.me ≡ spare shelf.now.key first (laid_by seat.old.me.0) 1 }
{
    let drawn = shelf.fetch_add::<Draw>(seat, 0, 1);
    let slot = drawn - first;
    if slot >= slots {
        return false;
    }
    evaluate_slot(shelf, seat, slot, plan, gate);
    true
}

/// Draws slots until none is left, and evaluates their benches.
pub(crate) fn work<G: Gate>(
    shelf: &Shelf,
    seat: &mut Place,
    plan: &Plan,
    gate: &G,
    first: u64,
    slots: u64,
)
    requires table { seat.old.table_id ≡ shelf.now.table_id }
    requires words { 0 < shelf.now.table_id.words }
    requires slots { (shelf.now.table_id.slots ≡ slots) × (shelf.now.key.slots ≡ slots) }
    requires room { first + slots < 2 ^ 64 }
    requires idle { IsIdle shelf.now.key first seat.old.me }
    requires benches { AreFor plan.now (laid_by seat.old.me.0) }
    ensures table { seat.new.table_id ≡ seat.old.table_id }
    ensures spare { (past : ℕ) × (past ≤ 1)
        × (seat.new.me ≡ spare shelf.now.key first (laid_by seat.old.me.0) past) }
{
    for _ in 0..slots {
        if !draw(shelf, seat, plan, gate, first, slots) {
            return;
        }
    }
}
