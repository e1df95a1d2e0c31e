// What one pass knows of the cells that it saw, one cell more, and what a reducer makes of it in the end.
ghost use Rattle.std.specs.Prelude.{◌≡◌, ◌≢◌, ◌+◌, ◌<◌, ◌^◌, ◌||◌, Bool, false, List, All};
ghost use Rattle.std.specs.List.{list_any};
ghost use Rattle.oe_cell.specs.Cells.{IsCell};
ghost use Rattle.oe_cell.specs.Kinds.{is_over};
ghost use Rattle.oe_cell.specs.declared.cell.Cell.{Cell};
ghost use Rattle.oe_fold.specs.Counted.{counted_cells, whole_cell};
ghost use Rattle.oe_fold.specs.Value.{reduction_of};
ghost use Rattle.oe_fold.specs.Progress.{skips_nulls, join_of, join_to_of, step_of, no_cells, IsTallyOf};
ghost use Rattle.oe_fold.specs.Reduction.{makes_null, IsResultOfCounted};

use crate::Reducer;
use crate::order::{keep_greatest, keep_least};
use oe_cell::{Cell, add, and, divide, multiply, or};

/// What a pass knows of the cells that it saw: whether one was Over, and of those that count whether one makes the
/// result null, how many there are, and what they come to.
#[derive(Clone, Copy)]
pub(crate) struct Tally {
    pub over: bool,
    pub null: bool,
    pub count: usize,
    pub value: Cell,
}

/// The tally before the first cell.
pub(crate) fn start() -> Tally
    ensures { result ≡ no_cells }
{
    Tally {
        over: false,
        null: false,
        count: 0,
        value: Cell::Empty,
    }
}

/// Whether nulls are left out. The two counts have their own rule.
pub(crate) fn skips_nulls(reducer: Reducer, ignore: bool) -> bool
    ensures { result ≡ skips_nulls reducer ignore }
{
    match reducer {
        Reducer::Count => true,
        Reducer::CountAll => false,
        _ => ignore,
    }
}

/// Whether a cell that counts makes the result null.
#[inline(always)]
fn makes_null(reducer: Reducer, cell: &Cell) -> bool
    ensures { result ≡ makes_null reducer cell.now }
{
    match reducer {
        Reducer::Sum | Reducer::Product | Reducer::Mean => matches!(cell, Cell::Empty),
        Reducer::Min | Reducer::Max | Reducer::Median => {
            matches!(cell, Cell::Empty | Cell::Flag(_))
        }
        Reducer::Any | Reducer::All => matches!(cell, Cell::Number(_)),
        Reducer::First | Reducer::Last | Reducer::Count | Reducer::CountAll => false,
    }
}

/// Takes a cell into the one that stands for all before it.
#[inline(always)]
fn join(reducer: Reducer, value: &mut Cell, cell: &Cell)
    ensures { value.new ≡ join_of reducer value.old cell.now }
{
    match reducer {
        Reducer::Sum | Reducer::Mean => *value = add(*value, *cell),
        Reducer::Product => *value = multiply(*value, *cell),
        Reducer::Min => keep_least(value, cell),
        Reducer::Max => keep_greatest(value, cell),
        Reducer::Any => *value = or(*value, *cell),
        Reducer::All => *value = and(*value, *cell),
        Reducer::Last => *value = *cell,
        Reducer::First | Reducer::Median | Reducer::Count | Reducer::CountAll => (),
    }
}

/// The same, where there may be none before.
#[inline(always)]
fn join_to(reducer: Reducer, before: usize, value: &mut Cell, cell: &Cell)
    ensures { value.new ≡ join_to_of reducer before value.old cell.now }
{
    if before == 0 {
        *value = *cell;
    } else {
        join(reducer, value, cell);
    }
}

/// Says of a cell that was read what its type keeps.
#[inline(always)]
fn keep_known(_cell: Cell)
    ensures { IsCell _cell }
{}

/// Takes one more cell into the tally: a number before all else, since most cells are.
#[inline(always)]
pub(crate) fn step(reducer: Reducer, skips: bool, tally: &mut Tally, cell: &Cell)
    requires { tally.old.count + 1 < 2 ^ 64 }
    ensures value { tally.new ≡ step_of reducer skips tally.old cell.now }
    ensures cell { IsCell cell.now }
{
    keep_known(*cell);
    if matches!(cell, Cell::Number(_)) {
        count_in(reducer, tally, cell);
    } else {
        step_other(reducer, skips, tally, cell);
    }
}

/// Takes one more cell into the tally, whatever it is.
fn step_other(reducer: Reducer, skips: bool, tally: &mut Tally, cell: &Cell)
    requires { tally.old.count + 1 < 2 ^ 64 }
    ensures { tally.new ≡ step_of reducer skips tally.old cell.now }
{
    if matches!(cell, Cell::Over) {
        tally.over = true;
    }
    if !(skips && matches!(cell, Cell::Empty)) {
        count_in(reducer, tally, cell);
    }
}

/// Takes one more cell that counts into the tally.
#[inline(always)]
fn count_in(reducer: Reducer, tally: &mut Tally, cell: &Cell)
    requires { tally.old.count + 1 < 2 ^ 64 }
    ensures over { tally.new.over ≡ tally.old.over }
    ensures null { tally.new.null ≡ (tally.old.null || makes_null reducer cell.now) }
    ensures count { tally.new.count ≡ tally.old.count + 1 }
    ensures value { tally.new.value ≡ join_to_of reducer tally.old.count tally.old.value cell.now }
{
    if makes_null(reducer, cell) {
        tally.null = true;
    }
    join_to(reducer, tally.count, &mut tally.value, cell);
    tally.count += 1;
}

/// A number of cells as a cell.
pub(crate) fn whole(n: usize) -> Cell
    requires { n < 2 ^ 63 }
    ensures { result ≡ whole_cell n }
{
    oe_cell::whole_cell(n as i64)
}

/// What a reducer makes of the cells that a tally is of. The median needs the cells themselves.
pub(crate) fn settle(reducer: Reducer, tally: Tally) -> Cell
    requires few { tally.count < 2 ^ 63 }
    requires other { reducer ≢ Reducer.Median }
    ensures { (ignore : Bool) → (cells : List Cell)
        → IsTallyOf reducer (skips_nulls reducer ignore) cells tally → All IsCell cells
        → result ≡ reduction_of reducer ignore cells }
{
    if tally.over {
        return Cell::Over;
    }
    match reducer {
        Reducer::Count => whole(tally.count),
        Reducer::CountAll => whole(tally.count),
        _ => settle_counted(reducer, tally),
    }
}

/// The same, where no cell is Over and the reducer is no count.
fn settle_counted(reducer: Reducer, tally: Tally) -> Cell
    requires few { tally.count < 2 ^ 63 }
    requires median { reducer ≢ Reducer.Median }
    requires count { reducer ≢ Reducer.Count }
    requires count_all { reducer ≢ Reducer.CountAll }
    ensures { (skips : Bool) → (cells : List Cell)
        → IsTallyOf reducer skips cells tally → All IsCell cells → list_any is_over cells ≡ false
        → IsResultOfCounted reducer (counted_cells skips cells) result }
{
    if tally.null {
        return Cell::Empty;
    }
    match reducer {
        Reducer::Mean => divide(tally.value, whole(tally.count)),
        _ => tally.value,
    }
}
