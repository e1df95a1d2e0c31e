// The steps of the coordinator.
ghost use Rattle.std.specs.Prelude.{◌≡◌, ◌+◌, ◌*◌, ◌<◌, ◌≤◌, ◌^◌, ◌∷◌, ℕ, [], List, Option};
ghost use Rattle.oe_engine.specs.Views.{Became, Content, HasTop, HoldsNone, HoldsSome, given, laid_at, started, taken, with_ended, with_made, worker_of};
ghost use Rattle.oe_engine.specs.declared.table.View.TheVariants.{Leads, Works};
ghost use Rattle.oe_engine.specs.declared.table.Lead.{Lead};
ghost use Rattle.oe_engine.specs.declared.table.Worker.{Worker};

use crate::table::{Fork, Give, Lent, Merge, Place, Shelf, Start, Take};

/// Opens a round at its first chunk.
pub(crate) fn start(shelf: &Shelf, seat: &mut Place, first: u64)
    requires table { seat.old.table_id ≡ shelf.now.table_id }
    requires words { 0 < shelf.now.table_id.words }
    requires holds { HoldsSome shelf.now.key shelf.now.key.slots seat.old.me }
    requires room { first + shelf.now.key.slots + shelf.now.key.slots + 1 < 2 ^ 64 }
    ensures table { seat.new.table_id ≡ seat.old.table_id }
    ensures started { (l : Lead) → seat.old.me.0 ≡ Leads l
        → seat.new.me ≡ (Leads (started l first), seat.old.me.1) }
{
    shelf.store::<Start>(seat, 0, first);
}

/// Lays a bench into the slot on top and gives it up. Answers what was there.
pub(crate) fn give(shelf: &Shelf, seat: &mut Place, slot: u64, bench: Option<Lent>) -> Option<Lent>
    requires table { seat.old.table_id ≡ shelf.now.table_id }
    requires words { 0 < shelf.now.table_id.words }
    requires slots { shelf.now.table_id.slots ≡ shelf.now.key.slots }
    requires top { HasTop shelf.now.key slot seat.old.me }
    ensures table { seat.new.table_id ≡ seat.old.table_id }
    ensures given { (l : Lead) (now : Content) (others : List (ℕ × Content))
        → seat.old.me ≡ (Leads l, (slot, now) ∷ others)
        → seat.new.me ≡ (Leads (given l slot bench), others) }
{
    let there = shelf.exchange(seat, slot as usize, bench);
    shelf.load::<Give>(seat, 0);
    there
}

/// Takes the next slot back with what stands in it.
pub(crate) fn take(shelf: &Shelf, seat: &mut Place, slot: u64) -> Option<Lent>
    requires table { seat.old.table_id ≡ shelf.now.table_id }
    requires words { 0 < shelf.now.table_id.words }
    requires holds { HoldsSome shelf.now.key slot seat.old.me }
    requires left { slot < shelf.now.key.slots }
    ensures table { seat.new.table_id ≡ seat.old.table_id }
    ensures taken { (l : Lead) → seat.old.me.0 ≡ Leads l → (empty : Content)
        × (seat.new.me ≡ (Leads (taken l), (slot, empty) ∷ seat.old.me.1))
        × Became (laid_at l.laid 0) result }
{
    shelf.load::<Take>(seat, 0);
    shelf.exchange(seat, slot as usize, None)
}

/// Makes the seat of a worker.
pub(crate) fn split(shelf: &Shelf, seat: &mut Place) -> Place
    requires table { seat.old.table_id ≡ shelf.now.table_id }
    requires words { 0 < shelf.now.table_id.words }
    requires none { (made ended : ℕ) × HoldsNone shelf.now.key made ended seat.old.me
        × (made < shelf.now.key.slots) }
    ensures table { (seat.new.table_id ≡ seat.old.table_id)
        × (result.table_id ≡ seat.old.table_id) }
    ensures made { (l : Lead) → seat.old.me ≡ (Leads l, [])
        → seat.new.me ≡ (Leads (with_made l), []) }
    ensures worker { (l : Lead) → seat.old.me ≡ (Leads l, [])
        → result.me ≡ (Works (worker_of l), []) }
{
    shelf.split_seat::<Fork>(seat)
}

/// Takes the seat of a worker in.
pub(crate) fn join(shelf: &Shelf, seat: &mut Place, other: Place)
    requires table { (seat.old.table_id ≡ shelf.now.table_id)
        × (other.table_id ≡ shelf.now.table_id) }
    requires words { 0 < shelf.now.table_id.words }
    requires none { (l : Lead) × (seat.old.me ≡ (Leads l, [])) }
    requires worker { (w : Worker) × (other.me ≡ (Works w, [])) × (w.hand ≡ 0) }
    ensures table { seat.new.table_id ≡ seat.old.table_id }
    ensures ended { (l : Lead) → seat.old.me ≡ (Leads l, [])
        → seat.new.me ≡ (Leads (with_ended l), []) }
{
    shelf.join_seat::<Merge>(seat, other);
}
