//! What callers conclude from the laws of cells, reducers and kernels: each contract here follows from clauses of the
//! calls in the body alone, named above it.
ghost use Rattle.std.specs.Prelude.{◌≡◌, ◌≢◌, ◌<◌, ◌≤◌, ◌^◌, ℕ, false, [], ◌∷◌, length, drop, take, unsigned_abs};
ghost use Rattle.std.specs.List.{All};
ghost use Rattle.oe_cell.specs.Cells.{IfNumber, IsCell};
ghost use Rattle.oe_cell.specs.Kinds.{IsNumeric};
ghost use Rattle.oe_cell.specs.Rational.{HasSignOf, IsFloor, floor_int, quotient_of};
ghost use Rattle.oe_cell.specs.Record.{record_of};
ghost use Rattle.oe_cell.specs.Spelling.{cell_text};
ghost use Rattle.oe_cell.specs.declared.cell.Cell.{Cell};
ghost use Rattle.oe_cell.specs.declared.cell.Cell.TheVariants.{Number, Over};
ghost use Rattle.oe_fold.specs.Value.{reduction_of};
ghost use Rattle.oe_fold.specs.declared.reducer.Reducer.{Reducer};
ghost use Rattle.oe_kernel.specs.Convolution.{CoversWindow, longest_side};

use oe_cell::{Cell, Frac, TextBuf, add, modulo, print_cell, whole_cell, write_records};
use oe_fold::{Pass, Reducer, fold};
use oe_kernel::{Border, Kernel};

/// A number and 0 add up to the number (`zero_right` of `add`).
pub fn plus_nothing(number: Frac) -> Cell
    ensures { result ≡ Number number }
{
    add(Cell::Number(number), whole_cell(0))
}

/// A remainder is 0 or has the divisor's sign, and it is made with the floor of the quotient (`sign` and `floor` of
/// `modulo`).
pub fn remainder(number: Frac, divisor: Frac) -> Cell
    requires { 0 < unsigned_abs divisor.num }
    ensures sign { IfNumber result (HasSignOf divisor) }
    ensures floor { IsFloor (quotient_of number divisor)
        (floor_int (quotient_of number divisor)) }
{
    modulo(Cell::Number(number), Cell::Number(divisor))
}

/// A spelling takes 48 bytes at most, and no two cells have one (`room` of `TextBuf::bytes`, `one_spelling` of
/// `print_cell`).
pub fn spelling_length(cell: Cell) -> usize
    requires { cell ≢ Over }
    ensures value { result ≡ length (cell_text cell) }
    ensures most { result ≤ 48 }
    ensures alone { (other : Cell) → IsCell other → other ≢ Over → cell_text other ≡ cell_text cell
        → other ≡ cell }
{
    let mut text = TextBuf::new();
    print_cell(cell, &mut text);
    text.bytes().len()
}

/// The record of the second of two cells stands from byte 17 on (`each` of `write_records`).
pub fn two_records(first: Cell, second: Cell) -> [u8; 34]
    ensures { take 17 (drop 17 result) ≡ record_of second }
{
    let mut bytes = [0; 34];
    write_records(&[first, second], &mut bytes);
    bytes
}

/// Cells that were pushed one by one are reduced as a list of them is (`seen` of `Pass::start` and `Pass::push`,
/// `reduced` of `Pass::value`).
pub fn sum_of_two(first: Cell, second: Cell) -> Cell
    ensures { result ≡ reduction_of Reducer.Sum false (first ∷ second ∷ []) }
{
    let mut pass = Pass::start(Reducer::Sum, false);
    pass.push(first);
    pass.push(second);
    pass.value()
}

/// The greatest of numbers and nulls is a cell, and a number, null or out of range (`cell` and `numeric` of `fold`).
pub fn greatest(cells: &[Cell]) -> Cell
    requires { All IsNumeric cells.now }
    ensures cell { IsCell result }
    ensures numeric { IsNumeric result }
{
    fold(Reducer::Max, true, cells, &mut [])
}

/// The columns that a row of pixels needs hold the window around each of them (`covers` of `Kernel::need_x`).
pub fn columns_of(kernel: &Kernel, border: Border, side: u32) -> (u32, u32)
    requires most { side ≤ longest_side }
    requires some { 0 < side }
    ensures { (at : ℕ) → at < side
        → CoversWindow border at kernel.now.width side result.0 result.1 }
{
    kernel.need_x(border, side, 0, side)
}
