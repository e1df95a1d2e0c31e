// The cells of a datacube.
ghost use Rattle.std.specs.Prelude.{◌≡◌};
ghost use Rattle.oe_cell.specs.Kinds.{is_over, is_empty, is_number};

use crate::Frac;

/// One cell of a datacube.
#[derive(Clone, Copy, PartialEq, Eq)]
pub enum Cell {
    /// No value: `null` in openEO Processes.
    Empty,
    /// A truth value.
    Flag(bool),
    /// An exact number.
    Number(Frac),
    /// An exact value that no number of a cell equals. It is never stored in a collection and never printed.
    Over,
}

impl Cell {
    /// Whether the cell is `Over`.
    pub fn is_over(&self) -> bool
        ensures { result ≡ is_over self.now }
    {
        matches!(self, Cell::Over)
    }

    /// Whether the cell is null.
    pub fn is_empty(&self) -> bool
        ensures { result ≡ is_empty self.now }
    {
        matches!(self, Cell::Empty)
    }

    /// Whether the cell is a number.
    pub fn is_number(&self) -> bool
        ensures { result ≡ is_number self.now }
    {
        matches!(self, Cell::Number(_))
    }
}
