// The order of cells: compare, and the comparisons of openEO Processes.
ghost use Rattle.std.specs.Prelude.{◌≡◌, ◌↔◌, IsTrue, true};
ghost use Rattle.std.specs.Ordering.{is_eq};
ghost use Rattle.oe_cell.specs.Cells.{IsCell, IfNumbers};
ghost use Rattle.oe_cell.specs.Fraction.{Fraction, IsNumber};
ghost use Rattle.oe_cell.specs.Kinds.{IsLogical};
ghost use Rattle.oe_cell.specs.Operations.{eq_of, neq_of, gt_of, gte_of, lt_of, lte_of};
ghost use Rattle.oe_cell.specs.Order.{compare_of};

use crate::operands::{Operands, operands_of};
use crate::wide::scale;
use crate::{Cell, Frac, not};
use std::cmp::Ordering;

/// How two numbers stand to one another as rational numbers. They are equal exactly where their parts are.
#[inline(always)]
pub fn compare(x: Frac, y: Frac) -> Ordering
    ensures value { result ≡ compare_of x y }
    ensures same { (result ≡ Ordering.Equal) ↔ (x ≡ y) }
    ensures operands { IsNumber x × IsNumber y }
{
    let (a, b) = x.parts();
    let (c, d) = y.parts();
    if b == 1 && d == 1 {
        return a.cmp(&c);
    }
    scale(a, d).cmp(&scale(c, b))
}

/// Two numbers are the same rational exactly where they are the same pair.
fn is_equal(x: Frac, y: Frac) -> bool
    ensures value { result ≡ is_eq (compare_of x y) }
    ensures same { IsTrue result ↔ (x ≡ y) }
{
    is_same(x, y)
}

fn is_same(x: Frac, y: Frac) -> bool
    ensures { IsTrue result ↔ (x ≡ y) }
{
    x == y
}

/// `eq` of openEO Processes, of two flags or of two numbers. Over in an operand gives Over; otherwise a flag beside a
/// number gives null, and so does a null.
pub fn eq(x: Cell, y: Cell) -> Cell
    ensures value { result ≡ eq_of x y }
    ensures same { IfNumbers x y (λ p q. (result ≡ Cell.Flag true) ↔ (p ≡ q)) }
    ensures kind { IsLogical result }
{
    match x {
        Cell::Over => Cell::Over,
        Cell::Empty => match y {
            Cell::Over => Cell::Over,
            _ => Cell::Empty,
        },
        Cell::Flag(a) => match y {
            Cell::Over => Cell::Over,
            Cell::Flag(b) => Cell::Flag(a == b),
            _ => Cell::Empty,
        },
        Cell::Number(p) => match y {
            Cell::Over => Cell::Over,
            Cell::Number(q) => Cell::Flag(is_equal(p, q)),
            _ => Cell::Empty,
        },
    }
}

/// `neq` of openEO Processes: the opposite of `eq`.
pub fn neq(x: Cell, y: Cell) -> Cell
    ensures value { result ≡ neq_of x y }
    ensures kind { IsLogical result }
{
    not(eq(x, y))
}

/// `gt` of openEO Processes: whether x is greater than y.
/// Over in an operand gives Over; otherwise an operand that is no number gives null.
#[inline(always)]
pub fn gt(x: Cell, y: Cell) -> Cell
    ensures value { result ≡ gt_of x y }
    ensures kind { IsLogical result }
{
    match operands_of(x, y) {
        Operands::Numbers(p, q) => Cell::Flag(compare(p, q).is_gt()),
        Operands::Neither(lack) => lack.cell(),
    }
}

/// `gte` of openEO Processes: whether x is greater than y or equal to it.
/// Over in an operand gives Over; otherwise an operand that is no number gives null.
#[inline(always)]
pub fn gte(x: Cell, y: Cell) -> Cell
    ensures value { result ≡ gte_of x y }
    ensures kind { IsLogical result }
{
    match operands_of(x, y) {
        Operands::Numbers(p, q) => Cell::Flag(compare(p, q).is_ge()),
        Operands::Neither(lack) => lack.cell(),
    }
}

/// `lt` of openEO Processes: whether x is less than y.
/// Over in an operand gives Over; otherwise an operand that is no number gives null.
#[inline(always)]
pub fn lt(x: Cell, y: Cell) -> Cell
    ensures value { result ≡ lt_of x y }
    ensures kind { IsLogical result }
{
    match operands_of(x, y) {
        Operands::Numbers(p, q) => Cell::Flag(compare(p, q).is_lt()),
        Operands::Neither(lack) => lack.cell(),
    }
}

/// `lte` of openEO Processes: whether x is less than y or equal to it.
/// Over in an operand gives Over; otherwise an operand that is no number gives null.
#[inline(always)]
pub fn lte(x: Cell, y: Cell) -> Cell
    ensures value { result ≡ lte_of x y }
    ensures kind { IsLogical result }
{
    match operands_of(x, y) {
        Operands::Numbers(p, q) => Cell::Flag(compare(p, q).is_le()),
        Operands::Neither(lack) => lack.cell(),
    }
}
