// The order of cells, by which the least and the greatest are found and the median's cells are sorted.
ghost use Rattle.std.specs.Prelude.{◌≡◌, cond};
ghost use Rattle.std.specs.Ordering.{is_lt};
ghost use Rattle.oe_cell.specs.Fraction.{IsNumber};
ghost use Rattle.oe_cell.specs.Order.{compare_of};
ghost use Rattle.oe_fold.specs.Order.{is_before};

use oe_cell::{Cell, Frac, compare};
use std::cmp::Ordering;

/// How two numbers compare. Those with one denominator, as whole numbers, take no multiplication.
#[inline(always)]
fn compare_numbers(p: Frac, q: Frac) -> Ordering
    ensures value { result ≡ compare_of p q }
    ensures operands { IsNumber p × IsNumber q }
{
    if p.den() == q.den() {
        p.num().cmp(&q.num())
    } else {
        compare(p, q)
    }
}

/// Numbers by value, and every other cell before them.
#[inline(always)]
pub(crate) fn order(x: Cell, y: Cell) -> Ordering
    ensures { is_lt result ≡ is_before x y }
{
    match x {
        Cell::Number(p) => match y {
            Cell::Number(q) => compare_numbers(p, q),
            _ => Ordering::Greater,
        },
        _ => match y {
            Cell::Number(_) => Ordering::Less,
            _ => Ordering::Equal,
        },
    }
}

/// Whether the first stands before the second in that order.
#[inline(always)]
fn is_before(x: &Cell, y: &Cell) -> bool
    ensures { result ≡ is_before x.now y.now }
{
    order(*x, *y).is_lt()
}

/// Takes the cell where it stands before the least so far.
#[inline(always)]
pub(crate) fn keep_least(least: &mut Cell, cell: &Cell)
    ensures { least.new ≡ cond (is_before cell.now least.old) cell.now least.old }
{
    if is_before(cell, least) {
        *least = *cell;
    }
}

/// Takes the cell where it stands after the greatest so far.
#[inline(always)]
pub(crate) fn keep_greatest(greatest: &mut Cell, cell: &Cell)
    ensures { greatest.new ≡ cond (is_before greatest.old cell.now) cell.now greatest.old }
{
    if is_before(greatest, cell) {
        *greatest = *cell;
    }
}
