// The processes that stand in callbacks, as operations on cells.
ghost use Rattle.std.specs.Prelude.{◌≡◌, map};
ghost use Rattle.oe_cell.specs.Cells.{IsCell};
ghost use Rattle.oe_expr.specs.Operations as spec;

use oe_cell::{
    Cell, absolute, add, and, ceil, divide, eq, floor, gt, gte, int, lt, lte, modulo, multiply,
    neq, not, or, sgn, subtract, xor,
};
use oe_dims::CellKind;
use oe_fold::Reducer;

/// An operation on one cell.
#[derive(Clone, Copy, PartialEq, Eq)]
pub enum Unary {
    Absolute,
    Sgn,
    Floor,
    Ceil,
    Int,
    Not,
}

/// An operation on two cells.
#[derive(Clone, Copy, PartialEq, Eq)]
pub enum Binary {
    Add,
    Subtract,
    Multiply,
    Divide,
    Modulo,
    Equal,
    NotEqual,
    Greater,
    GreaterOrEqual,
    Less,
    LessOrEqual,
    And,
    Or,
    Xor,
}

/// What a process of a callback does.
#[derive(Clone, Copy, PartialEq, Eq)]
pub enum Operation {
    /// An operation on the cell `x`.
    OfOne(Unary),
    /// An operation on the cells `x` and `y`.
    OfTwo(Binary),
    /// `if`: one of two cells.
    Choice,
    /// A reduction of the list `data`, which may ignore nulls.
    Reduction(Reducer),
    /// The number of cells of the list `data`.
    Counting,
    /// One element of the list `data`.
    Element,
}

/// The number of processes that stand in callbacks.
const OPERATION_COUNT: usize = 33;

/// A process by its id.
type OperationEntry = (&'static str, Operation);

/// The processes, by their ids.
static OPERATIONS: [OperationEntry; OPERATION_COUNT] = [
    ("absolute", Operation::OfOne(Unary::Absolute)),
    ("add", Operation::OfTwo(Binary::Add)),
    ("all", Operation::Reduction(Reducer::All)),
    ("and", Operation::OfTwo(Binary::And)),
    ("any", Operation::Reduction(Reducer::Any)),
    ("array_element", Operation::Element),
    ("ceil", Operation::OfOne(Unary::Ceil)),
    ("count", Operation::Counting),
    ("divide", Operation::OfTwo(Binary::Divide)),
    ("eq", Operation::OfTwo(Binary::Equal)),
    ("first", Operation::Reduction(Reducer::First)),
    ("floor", Operation::OfOne(Unary::Floor)),
    ("gt", Operation::OfTwo(Binary::Greater)),
    ("gte", Operation::OfTwo(Binary::GreaterOrEqual)),
    ("if", Operation::Choice),
    ("int", Operation::OfOne(Unary::Int)),
    ("last", Operation::Reduction(Reducer::Last)),
    ("lt", Operation::OfTwo(Binary::Less)),
    ("lte", Operation::OfTwo(Binary::LessOrEqual)),
    ("max", Operation::Reduction(Reducer::Max)),
    ("mean", Operation::Reduction(Reducer::Mean)),
    ("median", Operation::Reduction(Reducer::Median)),
    ("min", Operation::Reduction(Reducer::Min)),
    ("mod", Operation::OfTwo(Binary::Modulo)),
    ("multiply", Operation::OfTwo(Binary::Multiply)),
    ("neq", Operation::OfTwo(Binary::NotEqual)),
    ("not", Operation::OfOne(Unary::Not)),
    ("or", Operation::OfTwo(Binary::Or)),
    ("product", Operation::Reduction(Reducer::Product)),
    ("sgn", Operation::OfOne(Unary::Sgn)),
    ("subtract", Operation::OfTwo(Binary::Subtract)),
    ("sum", Operation::Reduction(Reducer::Sum)),
    ("xor", Operation::OfTwo(Binary::Xor)),
];

/// What a process does, where it stands in callbacks.
pub(crate) fn operation_of(id: &str) -> Option<Operation>
    ensures { result ≡ spec.operation_named id.now }
{
    operation_in(&OPERATIONS, id)
}

/// The operation of the first entry with this id.
fn operation_in(entries: &[OperationEntry], id: &str) -> Option<Operation>
    ensures { result ≡ spec.operation_among id.now (map (λ e. (e.0.now, e.1)) entries.now) }
{
    for entry in entries {
        if entry.0 == id {
            return Some(entry.1);
        }
    }
    None
}

/// The operation on one cell.
#[inline(always)]
pub(crate) fn on_one(f: Unary, x: Cell) -> Cell
    ensures { result ≡ spec.unary_of f x }
{
    match f {
        Unary::Absolute => absolute(x),
        Unary::Sgn => sgn(x),
        Unary::Floor => floor(x),
        Unary::Ceil => ceil(x),
        Unary::Int => int(x),
        Unary::Not => not(x),
    }
}

/// The operation on two cells.
#[inline(always)]
pub(crate) fn on_two(f: Binary, x: Cell, y: Cell) -> Cell
    ensures { result ≡ spec.binary_of f x y }
{
    match f {
        Binary::Add => add(x, y),
        Binary::Subtract => subtract(x, y),
        Binary::Multiply => multiply(x, y),
        Binary::Divide => divide(x, y),
        Binary::Modulo => modulo(x, y),
        Binary::Equal => eq(x, y),
        Binary::NotEqual => neq(x, y),
        Binary::Greater => gt(x, y),
        Binary::GreaterOrEqual => gte(x, y),
        Binary::Less => lt(x, y),
        Binary::LessOrEqual => lte(x, y),
        Binary::And => and(x, y),
        Binary::Or => or(x, y),
        Binary::Xor => xor(x, y),
    }
}

/// The kind of cells that it takes.
pub(crate) fn unary_takes(f: Unary) -> Option<CellKind>
    ensures { result ≡ spec.unary_takes f }
{
    match f {
        Unary::Not => Some(CellKind::Flags),
        _ => Some(CellKind::Numbers),
    }
}

/// The kind of cells that it gives.
pub(crate) fn unary_gives(f: Unary) -> CellKind
    ensures { result ≡ spec.unary_gives f }
{
    match f {
        Unary::Not => CellKind::Flags,
        _ => CellKind::Numbers,
    }
}

/// The kind of cells that it takes; none where they may be of either kind.
pub(crate) fn binary_takes(f: Binary) -> Option<CellKind>
    ensures { result ≡ spec.binary_takes f }
{
    match f {
        Binary::Equal | Binary::NotEqual => None,
        Binary::And | Binary::Or | Binary::Xor => Some(CellKind::Flags),
        _ => Some(CellKind::Numbers),
    }
}

/// The kind of cells that it gives.
pub(crate) fn binary_gives(f: Binary) -> CellKind
    ensures { result ≡ spec.binary_gives f }
{
    match f {
        Binary::Add | Binary::Subtract | Binary::Multiply | Binary::Divide | Binary::Modulo => {
            CellKind::Numbers
        }
        _ => CellKind::Flags,
    }
}

/// The kind of cells that it takes; none where they may be of either kind.
pub(crate) fn reducer_takes(reducer: Reducer) -> Option<CellKind>
    ensures { result ≡ spec.reducer_takes reducer }
{
    match reducer {
        Reducer::First | Reducer::Last | Reducer::Count | Reducer::CountAll => None,
        Reducer::Any | Reducer::All => Some(CellKind::Flags),
        _ => Some(CellKind::Numbers),
    }
}

/// The kind of cells that it gives; none where it gives cells of the list.
pub(crate) fn reducer_gives(reducer: Reducer) -> Option<CellKind>
    ensures { result ≡ spec.reducer_gives reducer }
{
    match reducer {
        Reducer::First | Reducer::Last => None,
        Reducer::Any | Reducer::All => Some(CellKind::Flags),
        _ => Some(CellKind::Numbers),
    }
}
