// Operations on one number: floor, ceil, int, absolute, sgn.
ghost use Rattle.std.specs.Prelude.{◌≡◌, ◌<◌, ◌≤◌, ◌^◌, ℤ, pos, neg_ℤ, unsigned_abs};
ghost use Rattle.std.specs.Int.{int_signum};
ghost use Rattle.oe_cell.specs.Cells.{IsCell, IfNumber};
ghost use Rattle.oe_cell.specs.Fraction.{Fraction, IsNumber};
ghost use Rattle.oe_cell.specs.Kinds.{IsNumeric};
ghost use Rattle.oe_cell.specs.Operations.{floor_of, ceil_of, int_of, absolute_of, sgn_of, IsWhole};
ghost use Rattle.oe_cell.specs.Rational.{whole_of, floor_int, ceil_int, truncated_int, IsFloor, IsCeil, IsTruncated};

use crate::operands::{Operand, operand_of};
use crate::{Cell, Frac};

/// `floor` of openEO Processes: the greatest whole number that is not above the operand. Over gives Over, null and a
/// flag give null.
pub fn floor(x: Cell) -> Cell
    ensures value { result ≡ floor_of x }
    ensures meaning { IfNumber x (λ q. IsWhole IsFloor q result) }
    ensures cell { IsCell result }
    ensures kind { IsNumeric result }
{
    match operand_of(x) {
        Operand::Number(q) => Cell::Number(round_down(q)),
        Operand::Neither(lack) => lack.cell(),
    }
}

/// `ceil` of openEO Processes: the least whole number that is not below the operand. Over gives Over, null and a flag
/// give null.
pub fn ceil(x: Cell) -> Cell
    ensures value { result ≡ ceil_of x }
    ensures meaning { IfNumber x (λ q. IsWhole IsCeil q result) }
    ensures cell { IsCell result }
    ensures kind { IsNumeric result }
{
    match operand_of(x) {
        Operand::Number(q) => Cell::Number(round_up(q)),
        Operand::Neither(lack) => lack.cell(),
    }
}

/// `int` of openEO Processes: the operand without its fractional part, so it is cut towards 0. Over gives Over, null
/// and a flag give null.
pub fn int(x: Cell) -> Cell
    ensures value { result ≡ int_of x }
    ensures meaning { IfNumber x (λ q. IsWhole IsTruncated q result) }
    ensures cell { IsCell result }
    ensures kind { IsNumeric result }
{
    match operand_of(x) {
        Operand::Number(q) => Cell::Number(truncate(q)),
        Operand::Neither(lack) => lack.cell(),
    }
}

/// `absolute` of openEO Processes: the operand without its sign. Over gives Over, null and a flag give null.
pub fn absolute(x: Cell) -> Cell
    ensures value { result ≡ absolute_of x }
    ensures cell { IsCell result }
    ensures kind { IsNumeric result }
{
    match operand_of(x) {
        Operand::Number(q) => Cell::Number(drop_sign(q)),
        Operand::Neither(lack) => lack.cell(),
    }
}

/// `sgn` of openEO Processes: −1, 0 or 1, as the operand is below 0, 0 or above it. Over gives Over, null and a flag
/// give null.
pub fn sgn(x: Cell) -> Cell
    ensures value { result ≡ sgn_of x }
    ensures cell { IsCell result }
    ensures kind { IsNumeric result }
{
    match operand_of(x) {
        Operand::Number(q) => Cell::Number(Frac::whole(q.num().signum())),
        Operand::Neither(lack) => lack.cell(),
    }
}

fn round_down(q: Frac) -> Frac
    ensures value { result ≡ whole_of (floor_int q) }
    ensures meaning { IsFloor q (floor_int q) }
{
    let (num, den) = q.parts();
    if den == 1 {
        return Frac::whole(num);
    }
    Frac::whole(num.div_euclid(den as i64))
}

fn round_up(q: Frac) -> Frac
    ensures value { result ≡ whole_of (ceil_int q) }
    ensures meaning { IsCeil q (ceil_int q) }
{
    let (num, den) = q.parts();
    if den == 1 {
        return Frac::whole(num);
    }
    Frac::whole(-(-num).div_euclid(den as i64))
}

fn truncate(q: Frac) -> Frac
    ensures value { result ≡ whole_of (truncated_int q) }
    ensures meaning { IsTruncated q (truncated_int q) }
{
    let (num, den) = q.parts();
    if den == 1 {
        return Frac::whole(num);
    }
    Frac::whole(num / den as i64)
}

fn drop_sign(q: Frac) -> Frac
    ensures { result ≡ record { num = pos (unsigned_abs q.num); den = q.den } }
{
    let (num, den) = q.parts();
    Frac::from_parts(num.abs(), den)
}
