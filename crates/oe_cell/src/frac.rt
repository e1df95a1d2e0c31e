// A number of a cell: a fraction in lowest terms.
ghost use Rattle.std.specs.Prelude.{◌≡◌, ◌↔◌, ◌<◌, IsTrue, IsSome, IfSome, unsigned_abs, ◌^◌};
ghost use Rattle.oe_cell.specs.Fraction.{Fraction, IsNumber, IsCoprime};
ghost use Rattle.oe_cell.specs.Exact.{cell_of_lowest};
ghost use Rattle.oe_cell.specs.Rational.{whole_of};
ghost use Rattle.oe_cell.specs.declared.cell.Cell.TheVariants.{Number};

use crate::Cell;
use crate::gcd::gcd;
use std::marker::Model;

/// The largest numerator and denominator.
const LARGEST: u64 = 9223372036854775807;

/// An exact fraction in lowest terms. Its numerator is in −(2^63−1) to 2^63−1, its denominator in 1 to 2^63−1.
#[derive(Clone, Copy, PartialEq, Eq)]
pub struct Frac {
    num: i64,
    den: u64,
}

impl Model for Frac {
    ghost use Rattle.oe_cell.specs.Fraction.{Fraction};

    ghost Value = { Fraction };

    ghost use Rattle.oe_cell.specs.Fraction.{IsNumber};

    ghost view = { λ f. record { num = f.num; den = f.den } };

    ghost invariant = { λ f. IsNumber (record { num = f.num; den = f.den }) };

    ghost inverse = { λ q. record { num = q.num; den = q.den } };
}

impl Frac {
    /// The fraction of a numerator and a denominator.
    ///
    /// Refuses: exactly a pair that is not in lowest terms or is out of range.
    #[inline(always)]
    pub fn new(num: i64, den: u64) -> Option<Frac>
        ensures number { IsSome result ↔ IsNumber (record { num = num; den = den }) }
        ensures value { IfSome result (λ q. q ≡ record { num = num; den = den }) }
    {
        if is_number(num, den) {
            Some(Frac { num, den })
        } else {
            None
        }
    }

    /// A whole number, from −(2^63−1) to 2^63−1.
    pub fn whole(num: i64) -> Frac
        requires { unsigned_abs num < 2 ^ 63 }
        ensures { result ≡ whole_of num }
    {
        Frac { num, den: 1 }
    }

    /// The numerator, whose sign is the fraction's.
    pub fn num(self) -> i64
        ensures value { result ≡ self.num }
        ensures number { IsNumber self }
    {
        self.num
    }

    /// The denominator, which is at least 1.
    pub fn den(self) -> u64
        ensures value { result ≡ self.den }
        ensures number { IsNumber self }
    {
        self.den
    }

    /// Both parts, with what is known of them.
    pub(crate) fn parts(self) -> (i64, u64)
        ensures number { IsNumber self }
        ensures num { result.0 ≡ self.num }
        ensures den { result.1 ≡ self.den }
    {
        (self.num, self.den)
    }

    /// A fraction from parts that are known to be a number of a cell.
    pub(crate) fn from_parts(num: i64, den: u64) -> Frac
        requires { IsNumber (record { num = num; den = den }) }
        ensures { result ≡ record { num = num; den = den } }
    {
        Frac { num, den }
    }
}

/// The cell of a fraction in lowest terms.
#[inline(always)]
pub(crate) fn lowest(num: i128, den: u128) -> Cell
    requires some { 0 < den }
    requires coprime { IsCoprime (unsigned_abs num) den }
    ensures { result ≡ cell_of_lowest num den }
{
    if num.unsigned_abs() > u128::from(LARGEST) || den > u128::from(LARGEST) {
        return Cell::Over;
    }
    Cell::Number(Frac {
        num: num as i64,
        den: den as u64,
    })
}

#[inline(always)]
fn is_number(num: i64, den: u64) -> bool
    ensures { IsTrue result ↔ IsNumber (record { num = num; den = den }) }
{
    let size = num.unsigned_abs();
    if size > LARGEST || den == 0 || den > LARGEST {
        return false;
    }
    if den == 1 {
        return true;
    }
    gcd(size, den) == 1
}

/// A whole number, from −(2^63−1) to 2^63−1, as a cell.
pub fn whole_cell(num: i64) -> Cell
    requires { unsigned_abs num < 2 ^ 63 }
    ensures { result ≡ Number (whole_of num) }
{
    Cell::Number(Frac::whole(num))
}
