// What a cube of a kind may hold.
ghost use Rattle.std.specs.Prelude.{◌≡◌, true};
ghost use Rattle.oe_cube.specs.Kinds as spec;

use oe_cell::Cell;
use oe_dims::CellKind;

/// Whether a cell is null or of the kind, and so never `Over`: what a collection of the kind may hold.
pub fn is_null_or_of(kind: CellKind, cell: Cell) -> bool
    ensures { result ≡ spec.is_null_or_of kind cell }
{
    match (kind, cell) {
        (_, Cell::Empty) => true,
        (CellKind::Numbers, Cell::Number(_)) => true,
        (CellKind::Flags, Cell::Flag(_)) => true,
        _ => false,
    }
}
