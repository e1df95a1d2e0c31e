// A running total, which stays a machine number as long as it is whole.
ghost use Rattle.std.specs.Prelude.{◌≡◌, ◌<◌, ◌^◌, unsigned_abs, IfSome};
ghost use Rattle.oe_cell.specs.Exact.{cell_of_lowest};
ghost use Rattle.oe_cell.specs.Operations.{add_of, multiply_of};
ghost use Rattle.oe_cell.specs.Rational.{whole_of};
ghost use Rattle.oe_cell.specs.declared.cell.Cell.TheVariants.{Number};
ghost use Rattle.oe_kernel.specs.Totals.{total_of};

use oe_cell::{Cell, Frac, add, multiply};

/// A sum so far.
pub(crate) enum Total {
    /// The exact value of a whole number, which is Over for −2^63.
    Whole(i64),
    /// Any cell.
    Other(Cell),
}

/// A whole number as a cell.
pub(crate) fn whole(number: i64) -> Cell
    requires { unsigned_abs number < 2 ^ 63 }
    ensures { result ≡ Number (whole_of number) }
{
    match Frac::new(number, 1) {
        Some(number) => Cell::Number(number),
        None => Cell::Over,
    }
}

/// A whole number as a cell, which is Over for −2^63.
fn whole_or_over(number: i64) -> Cell
    ensures { result ≡ cell_of_lowest number 1 }
{
    if number == i64::MIN {
        return Cell::Over;
    }
    whole(number)
}

/// The cell of a total.
pub(crate) fn cell_of(total: Total) -> Cell
    ensures { result ≡ total_of total }
{
    match total {
        Total::Whole(number) => whole_or_over(number),
        Total::Other(cell) => cell,
    }
}

/// The total and one product more.
pub(crate) fn with_product(total: Total, value: Frac, pixel: Cell) -> Total
    ensures { total_of result ≡ add_of (total_of total) (multiply_of (Number value) pixel) }
{
    match total {
        Total::Whole(sum) => match whole_sum(sum, value, &pixel) {
            Some(next) => Total::Whole(next),
            None => Total::Other(cell_sum(cell_of(Total::Whole(sum)), value, pixel)),
        },
        Total::Other(sum) => Total::Other(cell_sum(sum, value, pixel)),
    }
}

/// The sum and one product more, as cells.
fn cell_sum(sum: Cell, value: Frac, pixel: Cell) -> Cell
    ensures { result ≡ add_of sum (multiply_of (Number value) pixel) }
{
    add(sum, multiply(Cell::Number(value), pixel))
}

/// The sum and one product more, where the value is 0, which leaves the sum beside a number, or where all of them are
/// whole and fit: no divisor is looked for.
pub(crate) fn whole_sum(sum: i64, value: Frac, pixel: &Cell) -> Option<i64>
    ensures { IfSome result (λ next. cell_of_lowest next 1
        ≡ add_of (cell_of_lowest sum 1) (multiply_of (Number value) pixel.now)) }
{
    let Cell::Number(number) = pixel else {
        return None;
    };
    let den = number.den();
    if value.num() == 0 {
        return Some(sum);
    }
    if value.den() != 1 || den != 1 || sum == i64::MIN {
        return None;
    }
    let product = value.num().checked_mul(number.num())?;
    let next = sum.checked_add(product)?;
    if product == i64::MIN || next == i64::MIN {
        return None;
    }
    Some(next)
}
