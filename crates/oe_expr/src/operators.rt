// Each operation as a type, so that a loop over cells is compiled for each and asks at no cell which one it is.
ghost use Rattle.std.specs.Prelude.{◌≡◌};
ghost use Rattle.oe_expr.specs.Operations.{unary_of, binary_of};
ghost use Rattle.oe_expr.specs.declared.operation.Unary.{Unary};
ghost use Rattle.oe_expr.specs.declared.operation.Binary.{Binary};

use oe_cell::{
    Cell, absolute, add, and, ceil, divide, eq, floor, gt, gte, int, lt, lte, modulo, multiply,
    neq, not, or, sgn, subtract, xor,
};

/// An operation on one cell.
pub(crate) trait OnOne {
    // which one it is
    ghost operation: { Unary };

    fn on(x: Cell) -> Cell
        ensures { result ≡ unary_of operation x };
}

/// An operation on two cells.
pub(crate) trait OnTwo {
    // which one it is
    ghost operation: { Binary };

    fn on(x: Cell, y: Cell) -> Cell
        ensures { result ≡ binary_of operation x y };
}

/// Copies a cell, a number by its parts: these stay in registers, where a cell would go through memory.
#[inline(always)]
pub(crate) fn store(from: &Cell, to: &mut Cell)
    ensures { to.new ≡ from.now }
{
    match from {
        Cell::Number(number) => *to = Cell::Number(*number),
        _ => *to = *from,
    }
}

pub(crate) struct Absolute;

impl OnOne for Absolute {
    ghost use Rattle.oe_expr.specs.declared.operation.Unary.TheVariants as unary;

    ghost operation = { unary.Absolute };

    #[inline(always)]
    fn on(x: Cell) -> Cell {
        absolute(x)
    }
}

pub(crate) struct Sgn;

impl OnOne for Sgn {
    ghost use Rattle.oe_expr.specs.declared.operation.Unary.TheVariants as unary;

    ghost operation = { unary.Sgn };

    #[inline(always)]
    fn on(x: Cell) -> Cell {
        sgn(x)
    }
}

pub(crate) struct Floor;

impl OnOne for Floor {
    ghost use Rattle.oe_expr.specs.declared.operation.Unary.TheVariants as unary;

    ghost operation = { unary.Floor };

    #[inline(always)]
    fn on(x: Cell) -> Cell {
        floor(x)
    }
}

pub(crate) struct Ceil;

impl OnOne for Ceil {
    ghost use Rattle.oe_expr.specs.declared.operation.Unary.TheVariants as unary;

    ghost operation = { unary.Ceil };

    #[inline(always)]
    fn on(x: Cell) -> Cell {
        ceil(x)
    }
}

pub(crate) struct Int;

impl OnOne for Int {
    ghost use Rattle.oe_expr.specs.declared.operation.Unary.TheVariants as unary;

    ghost operation = { unary.Int };

    #[inline(always)]
    fn on(x: Cell) -> Cell {
        int(x)
    }
}

pub(crate) struct Not;

impl OnOne for Not {
    ghost use Rattle.oe_expr.specs.declared.operation.Unary.TheVariants as unary;

    ghost operation = { unary.Not };

    #[inline(always)]
    fn on(x: Cell) -> Cell {
        not(x)
    }
}

pub(crate) struct Add;

impl OnTwo for Add {
    ghost use Rattle.oe_expr.specs.declared.operation.Binary.TheVariants as binary;

    ghost operation = { binary.Add };

    #[inline(always)]
    fn on(x: Cell, y: Cell) -> Cell {
        add(x, y)
    }
}

pub(crate) struct Subtract;

impl OnTwo for Subtract {
    ghost use Rattle.oe_expr.specs.declared.operation.Binary.TheVariants as binary;

    ghost operation = { binary.Subtract };

    #[inline(always)]
    fn on(x: Cell, y: Cell) -> Cell {
        subtract(x, y)
    }
}

pub(crate) struct Multiply;

impl OnTwo for Multiply {
    ghost use Rattle.oe_expr.specs.declared.operation.Binary.TheVariants as binary;

    ghost operation = { binary.Multiply };

    #[inline(always)]
    fn on(x: Cell, y: Cell) -> Cell {
        multiply(x, y)
    }
}

pub(crate) struct Divide;

impl OnTwo for Divide {
    ghost use Rattle.oe_expr.specs.declared.operation.Binary.TheVariants as binary;

    ghost operation = { binary.Divide };

    #[inline(always)]
    fn on(x: Cell, y: Cell) -> Cell {
        divide(x, y)
    }
}

pub(crate) struct Modulo;

impl OnTwo for Modulo {
    ghost use Rattle.oe_expr.specs.declared.operation.Binary.TheVariants as binary;

    ghost operation = { binary.Modulo };

    #[inline(always)]
    fn on(x: Cell, y: Cell) -> Cell {
        modulo(x, y)
    }
}

pub(crate) struct Equal;

impl OnTwo for Equal {
    ghost use Rattle.oe_expr.specs.declared.operation.Binary.TheVariants as binary;

    ghost operation = { binary.Equal };

    #[inline(always)]
    fn on(x: Cell, y: Cell) -> Cell {
        eq(x, y)
    }
}

pub(crate) struct NotEqual;

impl OnTwo for NotEqual {
    ghost use Rattle.oe_expr.specs.declared.operation.Binary.TheVariants as binary;

    ghost operation = { binary.NotEqual };

    #[inline(always)]
    fn on(x: Cell, y: Cell) -> Cell {
        neq(x, y)
    }
}

pub(crate) struct Greater;

impl OnTwo for Greater {
    ghost use Rattle.oe_expr.specs.declared.operation.Binary.TheVariants as binary;

    ghost operation = { binary.Greater };

    #[inline(always)]
    fn on(x: Cell, y: Cell) -> Cell {
        gt(x, y)
    }
}

pub(crate) struct GreaterOrEqual;

impl OnTwo for GreaterOrEqual {
    ghost use Rattle.oe_expr.specs.declared.operation.Binary.TheVariants as binary;

    ghost operation = { binary.GreaterOrEqual };

    #[inline(always)]
    fn on(x: Cell, y: Cell) -> Cell {
        gte(x, y)
    }
}

pub(crate) struct Less;

impl OnTwo for Less {
    ghost use Rattle.oe_expr.specs.declared.operation.Binary.TheVariants as binary;

    ghost operation = { binary.Less };

    #[inline(always)]
    fn on(x: Cell, y: Cell) -> Cell {
        lt(x, y)
    }
}

pub(crate) struct LessOrEqual;

impl OnTwo for LessOrEqual {
    ghost use Rattle.oe_expr.specs.declared.operation.Binary.TheVariants as binary;

    ghost operation = { binary.LessOrEqual };

    #[inline(always)]
    fn on(x: Cell, y: Cell) -> Cell {
        lte(x, y)
    }
}

pub(crate) struct And;

impl OnTwo for And {
    ghost use Rattle.oe_expr.specs.declared.operation.Binary.TheVariants as binary;

    ghost operation = { binary.And };

    #[inline(always)]
    fn on(x: Cell, y: Cell) -> Cell {
        and(x, y)
    }
}

pub(crate) struct Or;

impl OnTwo for Or {
    ghost use Rattle.oe_expr.specs.declared.operation.Binary.TheVariants as binary;

    ghost operation = { binary.Or };

    #[inline(always)]
    fn on(x: Cell, y: Cell) -> Cell {
        or(x, y)
    }
}

pub(crate) struct Xor;

impl OnTwo for Xor {
    ghost use Rattle.oe_expr.specs.declared.operation.Binary.TheVariants as binary;

    ghost operation = { binary.Xor };

    #[inline(always)]
    fn on(x: Cell, y: Cell) -> Cell {
        xor(x, y)
    }
}
