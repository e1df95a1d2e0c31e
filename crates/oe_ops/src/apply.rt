// `apply`: each cell by a callback.
ghost use Rattle.std.specs.Prelude.{◌≡◌, ◌≤◌, length};
ghost use Rattle.std.specs.List.{All};
ghost use Rattle.oe_cell.specs.declared.cell.Cell.{Cell};
ghost use Rattle.oe_cell.specs.declared.cell.Cell.TheVariants.{Empty};
ghost use Rattle.oe_cube.specs.Kinds.{IsOfKind};
ghost use Rattle.oe_expr.specs.Callback.{KeepsKind, callback_kind};
ghost use Rattle.oe_meanings.specs.Meaning.{applied};
ghost use Rattle.oe_window.specs.Cells.{cells_on};
ghost use Rattle.oe_ops.specs.Calls.{ForEachCube, HasRoomOn, IsSliceFor};
ghost use Rattle.oe_ops.specs.Needs.{HasLabelsOf};
ghost use Rattle.oe_ops.specs.Slices.{IsCounted, TakesCells};

use crate::rows::{Rows, fill};
use crate::slice::{Slice, row_of};
use oe_cell::Cell;
use oe_dims::Shape;
use oe_expr::{EnvRow, Expr, eval_row};
use oe_window::Window;

/// The values of a callback on the cells of a slice.
#[derive(Clone, Copy)]
struct AppliedRows<'a> {
    expr: &'a Expr,
    slice: Slice<'a>,
}

impl Rows for AppliedRows<'_> {
    ghost use Rattle.oe_cell.specs.declared.cell.Cell.TheVariants.{Empty};
    ghost use Rattle.oe_meanings.specs.Meaning.{value_on_cells};
    ghost use Rattle.oe_window.specs.Windows.{IsIn};
    ghost use Rattle.oe_ops.specs.Slices.{IsCounted, TakesCell, cell_of};

    ghost serves = { λ s p. IsCounted s.slice × IsIn s.slice.window p
        × TakesCell s.expr.now (cell_of s.slice p) };

    ghost room = { λ s. 192 };

    ghost cell = { λ s p. value_on_cells s.expr.now (cell_of s.slice p) Empty };

    fn row(&self, t: u32, band: u32, y: u32, x: u32, out: &mut [Cell], scratch: &mut [Cell]) {
        let cells = row_of(&self.slice, t, band, y, x, out.len());
        let row = EnvRow {
            x: cells,
            y: &[],
            cells: &[],
            stride: 1,
            count: 0,
            list: 0,
        };
        eval_row(self.expr, &row, out, scratch);
    }
}

/// The values of a callback on the cells of a cube of this shape, on a window, from a slice of the cube (`apply` of
/// openEO Processes). `scratch` has 192 cells at least.
pub fn eval_apply(
    expr: &Expr,
    shape: &Shape,
    slice: Slice,
    window: &Window,
    out: &mut [Cell],
    scratch: &mut [Cell],
)
    requires keeps { KeepsKind expr.now }
    requires takes { TakesCells expr.now slice.cells.now }
    requires slice { IsSliceFor (HasLabelsOf shape.now shape.now) window.now shape.now slice }
    requires out { HasRoomOn shape.now window.now out.old }
    requires room { 192 ≤ length scratch.old }
    ensures value { ForEachCube shape.now slice.entry
        (λ cube. out.new ≡ cells_on Empty (applied expr.now cube) window.now) }
    ensures kinds { All (IsOfKind (callback_kind expr.now)) out.new }
{
    let _shape = shape;
    fill(&AppliedRows { expr, slice }, window, out, scratch);
}
