// The kinds of the cells that an operation takes and gives.
ghost use Rattle.std.specs.Prelude.{◌≡◌, List, ◌∷◌};
ghost use Rattle.oe_dims.specs.declared.kind.CellKind.{CellKind};
ghost use Rattle.oe_requests.specs.Operations as operations;
ghost use Rattle.oe_requests.specs.PlainRequests.{plain_operation};
ghost use Rattle.oe_meanings.specs.Results.{gives_another_kind, takes_other_kinds};
ghost use Rattle.oe_meanings.specs.Rows as row;

use oe_cell::Cell;
use oe_dims::CellKind;
use oe_expr::Expr;
use oe_meanings::same_cell_kind;
use oe_requests::Operation;

/// A literal is of another kind; null is of each.
fn is_of_another(kind: CellKind, literal: Cell) -> bool
    ensures { result ≡ row.is_of_another kind literal }
{
    match literal {
        Cell::Flag(_) => !same_cell_kind(CellKind::Flags, kind),
        Cell::Number(_) => !same_cell_kind(CellKind::Numbers, kind),
        _ => false,
    }
}

/// The resolver gives cells of another kind than the cells that it sees.
fn gives_another_kind(kind: CellKind, resolver: &Option<Expr>) -> bool
    ensures { result ≡ gives_another_kind kind resolver.now }
{
    match resolver {
        None => false,
        Some(resolver) => !same_cell_kind(resolver.kind(), kind),
    }
}

/// An operation takes cells of other kinds than those of its cubes, `second` that of the second cube of a merge;
/// another operation does not look at it.
pub fn takes_other_kinds(operation: &Operation, first: CellKind, second: CellKind) -> bool
    ensures { result ≡ takes_other_kinds (plain_operation operation.now) first second }
{
    match operation {
        Operation::Merge(resolver) => {
            !same_cell_kind(first, second) || gives_another_kind(first, resolver)
        }
        Operation::Accumulate(_) => !same_cell_kind(first, CellKind::Numbers),
        Operation::Cover(replacement) => is_of_another(first, *replacement),
        _ => false,
    }
}

/// The kind of the cells that an operation gives on a cube of this kind: that of its callback, numbers for a kernel,
/// and else that of the cube.
pub fn kind_given(operation: &Operation, kind: CellKind) -> CellKind
    ensures { (others : List CellKind)
        → result ≡ operations.operation_kind (plain_operation operation.now) (kind ∷ others) }
{
    match operation {
        Operation::EachCell(callback) => callback.kind(),
        Operation::Convolve { .. } => CellKind::Numbers,
        Operation::Reduce(_, callback) => callback.kind(),
        Operation::Aggregate(_, callback) => callback.kind(),
        _ => kind,
    }
}
