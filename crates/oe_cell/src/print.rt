// The spelling of a cell, in a buffer of fixed size.
ghost use Rattle.std.specs.Prelude.{◌≡◌, ◌≢◌, ◌+◌, ◌≤◌, ℕ, List, [], ◌++◌, length, take};
ghost use Rattle.oe_cell.specs.Fraction.{IsNumber};
ghost use Rattle.oe_cell.specs.Spelling.{cell_text, number_text};
ghost use Rattle.oe_cell.specs.Cells.{IsCell};
ghost use Rattle.oe_cell.specs.declared.cell.Cell.{Cell};
ghost use Rattle.oe_cell.specs.declared.cell.Cell.TheVariants.{Over};

use crate::{Cell, Frac};
use itoa::Buffer;
use std::marker::Model;

/// How many bytes the longest spelling may take: two quotes, a sign, twice 19 digits and a slash are 42.
const ROOM: usize = 48;

/// A text of at most 48 bytes, which keeps the spelling of one cell. Contracts see it as its bytes.
#[derive(Drop)]
pub struct TextBuf {
    bytes: [u8; ROOM],
    len: usize,
}

impl Model for TextBuf {
    ghost Value = { List ℕ };

    ghost view = { λ b. take b.len b.bytes };

    ghost invariant = { λ b. b.len ≤ 48 };
}

impl TextBuf {
    /// An empty text.
    pub fn new() -> TextBuf
        ensures { result ≡ [] }
    {
        TextBuf {
            bytes: [0; ROOM],
            len: 0,
        }
    }

    /// The bytes of the text.
    pub fn bytes(&self) -> &[u8]
        ensures value { result.now ≡ self.now }
        ensures room { length result.now ≤ 48 }
    {
        &self.bytes[..self.len]
    }

    fn clear(&mut self)
        ensures { self.new ≡ [] }
    {
        self.len = 0;
    }

    /// Appends a piece that fits.
    fn push(&mut self, piece: &[u8])
        requires { length self.old + length piece.now ≤ 48 }
        ensures { self.new ≡ self.old ++ piece.now }
    {
        let end = self.len + piece.len();
        self.bytes[self.len..end].copy_from_slice(piece);
        self.len = end;
    }
}

/// Replaces what the buffer held by the spelling of the cell, as the result text has it: `null`, `true`, `false`, a
/// whole number in decimal, any other number as `"n/d"` in quotes.
pub fn print_cell(cell: Cell, into: &mut TextBuf)
    requires { cell ≢ Over }
    ensures text { into.new ≡ cell_text cell }
    ensures one_spelling { (other : Cell) → IsCell other → other ≢ Over
        → cell_text other ≡ into.new → other ≡ cell }
{
    into.clear();
    match cell {
        Cell::Empty => into.push(b"null"),
        Cell::Flag(true) => into.push(b"true"),
        Cell::Flag(false) => into.push(b"false"),
        Cell::Number(number) => push_number(number, into),
        Cell::Over => unreachable!(),
    }
}

fn push_number(number: Frac, into: &mut TextBuf)
    requires { into.old ≡ [] }
    ensures text { into.new ≡ number_text number }
    ensures number { IsNumber number }
{
    let num = number.num();
    let mut digits = Buffer::new();
    if number.den() == 1 {
        into.push(digits.format(num).as_bytes());
    } else {
        into.push(b"\"");
        into.push(digits.format(num).as_bytes());
        into.push(b"/");
        into.push(digits.format(number.den()).as_bytes());
        into.push(b"\"");
    }
}
