// `save_result`: a cube as it is.
ghost use Rattle.std.specs.Prelude.{◌≡◌};
ghost use Rattle.std.specs.List.{All};
ghost use Rattle.oe_cell.specs.declared.cell.Cell.{Cell};
ghost use Rattle.oe_cell.specs.declared.cell.Cell.TheVariants.{Empty};
ghost use Rattle.oe_cube.specs.Kinds.{IsOfKind};
ghost use Rattle.oe_dims.specs.declared.kind.CellKind.{CellKind};
ghost use Rattle.oe_window.specs.Cells.{cells_on};
ghost use Rattle.oe_ops.specs.Calls.{ForEachCube, HasRoomOn, IsSliceFor};
ghost use Rattle.oe_ops.specs.Needs.{HasLabelsOf};
ghost use Rattle.oe_ops.specs.Slices.{IsCounted};

use crate::rows::{Rows, fill};
use crate::slice::{Slice, row_of};
use oe_cell::Cell;
use oe_dims::Shape;
use oe_window::Window;

/// The cells of a slice.
#[derive(Clone, Copy)]
struct SliceRows<'a> {
    slice: Slice<'a>,
}

impl Rows for SliceRows<'_> {
    ghost use Rattle.oe_window.specs.Windows.{IsIn};
    ghost use Rattle.oe_ops.specs.Slices.{IsCounted, cell_of};

    ghost serves = { λ s p. IsCounted s.slice × IsIn s.slice.window p };

    ghost room = { λ s. 0 };

    ghost cell = { λ s p. cell_of s.slice p };

    fn row(&self, t: u32, band: u32, y: u32, x: u32, out: &mut [Cell], _scratch: &mut [Cell]) {
        let count = out.len();
        out.copy_from_slice(row_of(&self.slice, t, band, y, x, count));
    }
}

/// The cells of a cube of this shape on a window, from a slice of the cube (`save_result` of openEO Processes).
pub fn eval_give_back(
    shape: &Shape,
    slice: Slice,
    window: &Window,
    out: &mut [Cell],
    scratch: &mut [Cell],
)
    requires slice { IsSliceFor (HasLabelsOf shape.now shape.now) window.now shape.now slice }
    requires out { HasRoomOn shape.now window.now out.old }
    ensures value { ForEachCube shape.now slice.entry
        (λ cube. out.new ≡ cells_on Empty cube window.now) }
    ensures kinds { (kind : CellKind) → All (IsOfKind kind) slice.entry.cells.now
        → All (IsOfKind kind) out.new }
{
    let _shape = shape;
    fill(&SliceRows { slice }, window, out, scratch);
}
