// The cases that all operations on numbers share.
ghost use Rattle.std.specs.Prelude.{◌≡◌};
ghost use Rattle.oe_cell.specs.Operands.{IsSorted, IsSortedOne, lack_of};

use crate::{Cell, Frac};

/// What every operation on numbers gives, where its operands are not all numbers.
#[derive(Clone, Copy)]
pub(crate) enum Lack {
    Null,
    Over,
}

impl Lack {
    #[inline(always)]
    pub(crate) fn cell(self) -> Cell
        ensures { result ≡ lack_of self }
    {
        match self {
            Lack::Null => Cell::Empty,
            Lack::Over => Cell::Over,
        }
    }
}

/// Two cells as the operands of an operation on numbers.
#[derive(Clone, Copy)]
pub(crate) enum Operands {
    Numbers(Frac, Frac),
    Neither(Lack),
}

/// Over comes first, and then null unless both are numbers.
#[inline(always)]
pub(crate) fn operands_of(x: Cell, y: Cell) -> Operands
    ensures { IsSorted x y result }
{
    match x {
        Cell::Over => Operands::Neither(Lack::Over),
        Cell::Number(p) => match y {
            Cell::Over => Operands::Neither(Lack::Over),
            Cell::Number(q) => Operands::Numbers(p, q),
            _ => Operands::Neither(Lack::Null),
        },
        _ => match y {
            Cell::Over => Operands::Neither(Lack::Over),
            _ => Operands::Neither(Lack::Null),
        },
    }
}

/// A cell as the operand of an operation on one number.
#[derive(Clone, Copy)]
pub(crate) enum Operand {
    Number(Frac),
    Neither(Lack),
}

/// Over stays, and what is no number becomes null.
#[inline(always)]
pub(crate) fn operand_of(x: Cell) -> Operand
    ensures { IsSortedOne x result }
{
    match x {
        Cell::Over => Operand::Neither(Lack::Over),
        Cell::Number(p) => Operand::Number(p),
        _ => Operand::Neither(Lack::Null),
    }
}
