// Arithmetic on cells: add, subtract, multiply, divide, modulo.
ghost use Rattle.std.specs.Prelude.{◌≡◌, IsTrue, ◌≢◌, ◌+◌, ◌*◌, ◌^◌, ◌<◌, pos, if◌then◌else◌, ◌==◌, neg_ℤ, ◌+ℤ◌, ◌-ℤ◌, ◌*ℤ◌, unsigned_abs};
ghost use Rattle.std.specs.Int.{int_signum};
ghost use Rattle.oe_cell.specs.Cells.{IsCell, IfNumber, IfNumbers, IfDivided};
ghost use Rattle.oe_cell.specs.Exact.{exact, exact_value, IsExactValue};
ghost use Rattle.oe_cell.specs.Fraction.{Fraction, IsNumber, IsCoprime};
ghost use Rattle.oe_cell.specs.Kinds.{IsNumeric};
ghost use Rattle.oe_cell.specs.Operations.{add_of, subtract_of, multiply_of, divide_of, modulo_of};
ghost use Rattle.oe_cell.specs.Rational.{sum_of, difference_of, product_of, quotient_of, remainder_of, floor_int, IsFloor, HasSignOf};
ghost use Rattle.oe_cell.specs.LowestTerms.{floor_quotient};

use crate::frac::lowest;
use crate::gcd::{cancel, gcd, share};
use crate::operands::{Operands, operands_of};
use crate::wide::{floor_rest, product, scale, wide_product, wide_quotient};
use crate::{Cell, Frac};

/// `add` of openEO Processes: the exact sum, and Over where it does not fit. Over in an operand gives Over; otherwise
/// an operand that is no number gives null.
#[inline(always)]
pub fn add(x: Cell, y: Cell) -> Cell
    ensures value { result ≡ add_of x y }
    ensures exact { IfNumbers x y (λ p q. IsExactValue (sum_of p q) result) }
    ensures zero_right { IfNumbers x y (λ p q. q.num ≡ pos 0 → result ≡ x) }
    ensures zero_left { IfNumbers x y (λ p q. p.num ≡ pos 0 → result ≡ y) }
    ensures operands { IfNumbers x y (λ p q. IsNumber p × IsNumber q) }
    ensures cell { IsCell result }
    ensures kind { IsNumeric result }
{
    match operands_of(x, y) {
        Operands::Numbers(p, q) => sum(p, q),
        Operands::Neither(lack) => lack.cell(),
    }
}

/// `subtract` of openEO Processes: the exact difference, and Over where it does not fit. Over in an operand gives Over;
/// otherwise an operand that is no number gives null.
#[inline(always)]
pub fn subtract(x: Cell, y: Cell) -> Cell
    ensures value { result ≡ subtract_of x y }
    ensures exact { IfNumbers x y (λ p q. IsExactValue (difference_of p q) result) }
    ensures operands { IfNumbers x y (λ p q. IsNumber p × IsNumber q) }
    ensures cell { IsCell result }
    ensures kind { IsNumeric result }
{
    match operands_of(x, y) {
        Operands::Numbers(p, q) => difference(p, q),
        Operands::Neither(lack) => lack.cell(),
    }
}

/// `multiply` of openEO Processes: the exact product, and Over where it does not fit. Over in an operand gives Over;
/// otherwise an operand that is no number gives null.
#[inline(always)]
pub fn multiply(x: Cell, y: Cell) -> Cell
    ensures value { result ≡ multiply_of x y }
    ensures exact { IfNumbers x y (λ p q. IsExactValue (product_of p q) result) }
    ensures operands { IfNumbers x y (λ p q. IsNumber p × IsNumber q) }
    ensures cell { IsCell result }
    ensures kind { IsNumeric result }
{
    match operands_of(x, y) {
        Operands::Numbers(p, q) => exact_product(p, q),
        Operands::Neither(lack) => lack.cell(),
    }
}

/// `divide` of openEO Processes: the exact quotient, and Over where it does not fit. Over in an operand gives Over;
/// otherwise an operand that is no number gives null, and so does a divisor of 0.
#[inline(always)]
pub fn divide(x: Cell, y: Cell) -> Cell
    ensures value { result ≡ divide_of x y }
    ensures exact { IfDivided x y (λ p q. IsExactValue (quotient_of p q) result) }
    ensures operands { IfNumbers x y (λ p q. IsNumber p × IsNumber q) }
    ensures cell { IsCell result }
    ensures kind { IsNumeric result }
{
    match operands_of(x, y) {
        Operands::Numbers(p, q) => quotient_or_null(p, q),
        Operands::Neither(lack) => lack.cell(),
    }
}

/// `mod` of openEO Processes: x − y·floor(x / y), which has the sign of y, and Over where it does not fit. Over in an
/// operand gives Over; otherwise an operand that is no number gives null, and so does a divisor of 0.
pub fn modulo(x: Cell, y: Cell) -> Cell
    ensures value { result ≡ modulo_of x y }
    ensures exact { IfDivided x y (λ p q. IsExactValue (remainder_of p q) result) }
    ensures floor { IfDivided x y (λ p q. IsFloor (quotient_of p q) (floor_int (quotient_of p q))) }
    ensures sign { IfDivided x y (λ p q. IfNumber result (λ r. HasSignOf q r)) }
    ensures operands { IfNumbers x y (λ p q. IsNumber p × IsNumber q) }
    ensures cell { IsCell result }
    ensures kind { IsNumeric result }
{
    match operands_of(x, y) {
        Operands::Numbers(p, q) => remainder_or_null(p, q),
        Operands::Neither(lack) => lack.cell(),
    }
}

#[inline(always)]
fn sum(p: Frac, q: Frac) -> Cell
    ensures value { result ≡ exact_value (sum_of p q) }
    ensures exact { IsExactValue (sum_of p q) result }
    ensures zero_right { q.num ≡ pos 0 → result ≡ Cell.Number p }
    ensures zero_left { p.num ≡ pos 0 → result ≡ Cell.Number q }
    ensures operands { IsNumber p × IsNumber q }
    ensures cell { IsCell result }
{
    let (a, b) = p.parts();
    let (c, d) = q.parts();
    if b == 1 && d == 1 {
        return whole_sum(a, c);
    }
    fraction_sum(p, q)
}

/// Over the least common denominator, where only the common part may have a divisor in common with the numerator.
#[inline(never)]
fn fraction_sum(p: Frac, q: Frac) -> Cell
    ensures { result ≡ exact_value (sum_of p q) }
{
    let (a, b) = p.parts();
    let (c, d) = q.parts();
    let shared = share(b, d);
    let total = crossed_sum(a, shared.right, c, shared.left);
    reduce(
        total,
        wide_product(shared.left, shared.right),
        shared.common,
    )
}

fn crossed_sum(a: i64, d: u64, c: i64, b: u64) -> i128
    requires a_fits { unsigned_abs a < 2 ^ 63 }
    requires c_fits { unsigned_abs c < 2 ^ 63 }
    requires d_fits { d < 2 ^ 63 }
    requires b_fits { b < 2 ^ 63 }
    ensures { result ≡ a *ℤ pos d +ℤ c *ℤ pos b }
{
    scale(a, d) + scale(c, b)
}

#[inline(always)]
fn whole_sum(a: i64, c: i64) -> Cell
    ensures { result ≡ exact (a +ℤ c) 1 }
{
    lowest(i128::from(a) + i128::from(c), 1)
}

/// The exact value of num / (rest · part), where only the part may have a divisor in common with the numerator.
fn reduce(num: i128, rest: u128, part: u64) -> Cell
    requires den_fits { rest * part < 2 ^ 128 }
    requires rest_some { 0 < rest }
    requires part_some { 0 < part }
    requires coprime { IsCoprime (unsigned_abs num) rest }
    ensures { result ≡ exact num (rest * part) }
{
    if part == 1 {
        return lowest(num, rest);
    }
    let common = gcd(part, (num.unsigned_abs() % u128::from(part)) as u64);
    lowest(wide_quotient(num, common), rest * u128::from(part / common))
}

#[inline(always)]
fn difference(p: Frac, q: Frac) -> Cell
    ensures value { result ≡ exact_value (difference_of p q) }
    ensures exact { IsExactValue (difference_of p q) result }
    ensures operands { IsNumber p × IsNumber q }
    ensures cell { IsCell result }
{
    sum(p, negative(q))
}

fn negative(p: Frac) -> Frac
    ensures value { result ≡ record { num = neg_ℤ p.num; den = p.den } }
    ensures number { IsNumber p }
{
    let (num, den) = p.parts();
    Frac::from_parts(-num, den)
}

/// The product is the first number, since it is 0 or the second one is 1.
fn is_first(p: Frac, q: Frac) -> bool
    ensures value { IsTrue result → exact_value (product_of p q) ≡ Cell.Number p }
    ensures operands { IsNumber p × IsNumber q }
{
    let (a, _) = p.parts();
    let (c, d) = q.parts();
    a == 0 || (c == 1 && d == 1)
}

#[inline(always)]
fn exact_product(p: Frac, q: Frac) -> Cell
    ensures value { result ≡ exact_value (product_of p q) }
    ensures exact { IsExactValue (product_of p q) result }
    ensures operands { IsNumber p × IsNumber q }
    ensures cell { IsCell result }
{
    let (a, b) = p.parts();
    let (c, d) = q.parts();
    if b == 1 && d == 1 {
        return whole_product(a, c);
    }
    fraction_product(p, q)
}

#[inline(always)]
fn whole_product(a: i64, c: i64) -> Cell
    requires a_fits { unsigned_abs a < 2 ^ 63 }
    requires c_fits { unsigned_abs c < 2 ^ 63 }
    ensures { result ≡ exact (a *ℤ c) 1 }
{
    lowest(product(a, c), 1)
}

/// A factor of 0 or 1 takes no multiplication.
#[inline(never)]
fn fraction_product(p: Frac, q: Frac) -> Cell
    ensures { result ≡ exact_value (product_of p q) }
{
    if is_first(p, q) {
        return Cell::Number(p);
    }
    if is_first(q, p) {
        return Cell::Number(q);
    }
    times(p, q)
}

/// Cancelled crosswise first, so that the product is in lowest terms.
#[inline(never)]
fn times(p: Frac, q: Frac) -> Cell
    ensures value { result ≡ exact_value (product_of p q) }
    ensures exact { IsExactValue (product_of p q) result }
    ensures operands { IsNumber p × IsNumber q }
    ensures cell { IsCell result }
{
    let (a, b) = p.parts();
    let (c, d) = q.parts();
    let first = cancel(a, d);
    let second = cancel(c, b);
    lowest(
        product(first.num, second.num),
        wide_product(second.den, first.den),
    )
}

#[inline(always)]
fn quotient_or_null(p: Frac, q: Frac) -> Cell
    ensures value { result
        ≡ (if unsigned_abs q.num == 0 then Cell.Empty else exact_value (quotient_of p q)) }
    ensures exact { 0 < unsigned_abs q.num → IsExactValue (quotient_of p q) result }
    ensures operands { IsNumber p × IsNumber q }
    ensures cell { IsCell result }
{
    if q.num() == 0 {
        Cell::Empty
    } else {
        quotient(p, q)
    }
}

#[inline(always)]
fn quotient(p: Frac, q: Frac) -> Cell
    requires { 0 < unsigned_abs q.num }
    ensures value { result ≡ exact_value (quotient_of p q) }
    ensures exact { IsExactValue (quotient_of p q) result }
    ensures operands { IsNumber p × IsNumber q }
    ensures cell { IsCell result }
{
    let (a, b) = p.parts();
    let (c, d) = q.parts();
    if b == 1 && d == 1 {
        return whole_quotient(a, c);
    }
    fraction_quotient(p, q)
}

/// A whole number over another: neither part is larger than its operand, so the quotient is never Over.
#[inline(always)]
fn whole_quotient(a: i64, c: i64) -> Cell
    requires a_fits { unsigned_abs a < 2 ^ 63 }
    requires c_fits { unsigned_abs c < 2 ^ 63 }
    requires some { 0 < unsigned_abs c }
    ensures { result ≡ exact (a *ℤ int_signum c) (unsigned_abs c) }
{
    let parts = cancel(turn(a, c), c.unsigned_abs());
    Cell::Number(Frac::from_parts(parts.num, parts.den))
}

/// The number, or its opposite where the other is below 0.
#[inline(always)]
fn turn(a: i64, by: i64) -> i64
    requires fits { unsigned_abs a < 2 ^ 63 }
    requires some { 0 < unsigned_abs by }
    ensures value { result ≡ a *ℤ int_signum by }
    ensures size { unsigned_abs result ≡ unsigned_abs a }
{
    if by < 0 { -a } else { a }
}

#[inline(never)]
fn fraction_quotient(p: Frac, q: Frac) -> Cell
    requires { 0 < unsigned_abs q.num }
    ensures { result ≡ exact_value (quotient_of p q) }
{
    times(p, reciprocal(q))
}

fn reciprocal(p: Frac) -> Frac
    requires { 0 < unsigned_abs p.num }
    ensures value { result
        ≡ record { num = int_signum p.num *ℤ pos p.den; den = unsigned_abs p.num } }
    ensures number { IsNumber p }
{
    let (num, den) = p.parts();
    Frac::from_parts(num.signum() * den as i64, num.unsigned_abs())
}

fn remainder_or_null(p: Frac, q: Frac) -> Cell
    ensures value { result
        ≡ (if unsigned_abs q.num == 0 then Cell.Empty else exact_value (remainder_of p q)) }
    ensures exact { 0 < unsigned_abs q.num → IsExactValue (remainder_of p q) result }
    ensures floor { 0 < unsigned_abs q.num
        → IsFloor (quotient_of p q) (floor_int (quotient_of p q)) }
    ensures sign { 0 < unsigned_abs q.num → IfNumber result (λ r. HasSignOf q r) }
    ensures operands { IsNumber p × IsNumber q }
    ensures cell { IsCell result }
{
    if q.num() == 0 {
        Cell::Empty
    } else {
        remainder(p, q)
    }
}

/// Over the least common denominator, where only the second one may have a divisor in common with the numerator.
fn remainder(p: Frac, q: Frac) -> Cell
    requires { 0 < unsigned_abs q.num }
    ensures value { result ≡ exact_value (remainder_of p q) }
    ensures exact { IsExactValue (remainder_of p q) result }
    ensures floor { IsFloor (quotient_of p q) (floor_int (quotient_of p q)) }
    ensures sign { IfNumber result (λ r. HasSignOf q r) }
    ensures operands { IsNumber p × IsNumber q }
    ensures cell { IsCell result }
{
    let (a, b) = p.parts();
    let (c, d) = q.parts();
    let shared = share(b, d);
    let rest = crossed_rest(a, shared.right, c, shared.left);
    reduce(rest, u128::from(shared.left), d)
}

fn crossed_rest(a: i64, d: u64, c: i64, b: u64) -> i128
    requires a_fits { unsigned_abs a < 2 ^ 63 }
    requires c_fits { unsigned_abs c < 2 ^ 63 }
    requires d_fits { d < 2 ^ 63 }
    requires b_fits { b < 2 ^ 63 }
    requires some { 0 < unsigned_abs c * b }
    ensures { result ≡ a *ℤ pos d -ℤ floor_quotient (a *ℤ pos d) (c *ℤ pos b) *ℤ (c *ℤ pos b) }
{
    floor_rest(scale(a, d), scale(c, b))
}
