// The spellings of cells, written into a buffer from its end towards its front, so that digits need no second copy.
ghost use Rattle.std.specs.Prelude.{◌+◌, ◌*◌, ◌^◌, ◌≡◌, ◌≢◌, ◌<◌, ◌≤◌, ◌++◌, length, map, drop, All};
ghost use Rattle.std.specs.Fmt.{signed_decimal};
ghost use Rattle.oe_cell.specs.Spelling.{cell_text, number_text};
ghost use Rattle.oe_cell.specs.declared.cell.Cell.TheVariants.{Over};
ghost use Rattle.oe_render.specs.Backwards.{EndsAt};
ghost use Rattle.oe_render.specs.Text as spec;

use itoa::write_digits;
use oe_cell::{Cell, Frac};

/// How many cells are spelled at once, at most.
pub(crate) const CELLS: usize = 64;

/// How many bytes their spellings may take: two quotes, a sign, a slash, a comma and twice 19 digits are 43.
pub(crate) const ROOM: usize = 44 * CELLS;

/// Spells the cells after so many others, each behind its comma, at the end of the bytes. Answers where they start.
pub(crate) fn spell_cells(cells: &[Cell], before: u64, into: &mut [u8; ROOM]) -> usize
    requires numbered { All (λ c. c ≢ Over) cells.now }
    requires some { length cells.now ≤ 64 }
    requires few { before + length cells.now < 2 ^ 64 }
    ensures within { result ≤ 2816 }
    ensures text { drop result into.new ≡ spec.more_text before (map cell_text cells.now) }
{
    let mut start = ROOM;
    let mut left = cells.len();
    while left > 0 {
        left -= 1;
        start = put_cell(cells[left], before + left as u64, into, start);
    }
    start
}

/// A cell behind its comma.
#[inline(always)]
fn put_cell(cell: Cell, index: u64, into: &mut [u8], end: usize) -> usize
    requires numbered { cell ≢ Over }
    requires room { 44 ≤ end }
    requires within { end ≤ length into.old }
    ensures text { EndsAt end (spec.separator index ++ cell_text cell) into.old result into.new }
    ensures short { end ≤ result + 44 }
{
    let start = put_spelled(cell, into, end);
    if index == 0 {
        start
    } else {
        put_text(b",", into, start)
    }
}

#[inline(always)]
fn put_spelled(cell: Cell, into: &mut [u8], end: usize) -> usize
    requires numbered { cell ≢ Over }
    requires room { 43 ≤ end }
    requires within { end ≤ length into.old }
    ensures text { EndsAt end (cell_text cell) into.old result into.new }
    ensures short { end ≤ result + 43 }
{
    match cell {
        Cell::Number(number) => put_number(number, into, end),
        Cell::Empty => put_text(b"null", into, end),
        Cell::Flag(true) => put_text(b"true", into, end),
        Cell::Flag(false) => put_text(b"false", into, end),
        Cell::Over => unreachable!(),
    }
}

/// A number: in decimal where its denominator is 1, else in quotes.
#[inline(always)]
fn put_number(number: Frac, into: &mut [u8], end: usize) -> usize
    requires room { 43 ≤ end }
    requires within { end ≤ length into.old }
    ensures text { EndsAt end (number_text number) into.old result into.new }
    ensures short { end ≤ result + 43 }
{
    if number.den() == 1 {
        put_signed(number.num(), into, end)
    } else {
        put_fraction(number, into, end)
    }
}

/// A number with another denominator than 1, in quotes.
#[inline(never)]
fn put_fraction(number: Frac, into: &mut [u8], end: usize) -> usize
    requires other { number.den ≢ 1 }
    requires room { 43 ≤ end }
    requires within { end ≤ length into.old }
    ensures text { EndsAt end (number_text number) into.old result into.new }
    ensures short { end ≤ result + 43 }
{
    let start = put_text(b"\"", into, end);
    let start = write_digits(number.den(), into, start);
    let start = put_text(b"/", into, start);
    let start = put_signed(number.num(), into, start);
    put_text(b"\"", into, start)
}

/// A whole number in decimal.
#[inline(always)]
fn put_signed(number: i64, into: &mut [u8], end: usize) -> usize
    requires room { 20 ≤ end }
    requires within { end ≤ length into.old }
    ensures text { EndsAt end (signed_decimal number) into.old result into.new }
    ensures short { end ≤ result + 20 }
{
    let start = write_digits(number.unsigned_abs(), into, end);
    if number >= 0 {
        start
    } else {
        put_text(b"-", into, start)
    }
}

#[inline(always)]
fn put_text(text: &[u8], into: &mut [u8], end: usize) -> usize
    requires room { length text.now ≤ end }
    requires within { end ≤ length into.old }
    ensures { EndsAt end text.now into.old result into.new }
{
    let start = end - text.len();
    into[start..end].copy_from_slice(text);
    start
}
