// `mask`: cells under those of another cube.
ghost use Rattle.std.specs.Prelude.{◌≡◌, ◌<◌, ◌≤◌, ℕ, length, slice_index_or};
ghost use Rattle.oe_cell.specs.declared.cell.Cell.{Cell};
ghost use Rattle.oe_cell.specs.declared.cell.Cell.TheVariants.{Empty};
ghost use Rattle.std.specs.List.{All};
ghost use Rattle.oe_cube.specs.Kinds.{IsOfKind};
ghost use Rattle.oe_dims.specs.declared.kind.CellKind.{CellKind};
ghost use Rattle.oe_dims.specs.Dimensions.{IsShape};
ghost use Rattle.oe_meanings.specs.Meaning.{covered, covered_by};
ghost use Rattle.oe_window.specs.Cells.{cells_on};
ghost use Rattle.oe_ops.specs.Calls.{ForEachTwo, HasRoomOn, IsSliceFor};
ghost use Rattle.oe_ops.specs.Needs.{HasLabelsOf};
ghost use Rattle.oe_ops.specs.Slices.{IsCounted};

use crate::rows::{Planes, Rows, fill, fill_planes};
use crate::slice::{Slice, row_of};
use crate::source::{PlaneIndices, Source, found_row, plane_indices};
use oe_cell::Cell;
use oe_dims::Shape;
use oe_window::Window;

/// The cells of a slice under those of a mask.
#[derive(Clone, Copy)]
struct CoveredPlanes<'a> {
    replacement: &'a Cell,
    slice: Slice<'a>,
    mask: Source<'a>,
}

/// The same on a plane.
#[derive(Clone, Copy)]
struct CoveredRows<'a> {
    cubes: CoveredPlanes<'a>,
    plane: PlaneIndices,
}

/// Copies a cell, a number by its parts: these stay in registers, where a cell would go through memory.
#[inline(always)]
fn store(from: &Cell, to: &mut Cell)
    ensures { to.new ≡ from.now }
{
    match from {
        Cell::Number(number) => *to = Cell::Number(*number),
        _ => *to = *from,
    }
}

/// A cell under the cell of a mask, which becomes the result. It writes what changes alone, where a cell that is
/// answered would be made first and then copied.
#[inline(always)]
fn cover_cell(replacement: &Cell, cell: &Cell, mask: &mut Cell)
    ensures { mask.new ≡ covered_by replacement.now mask.old cell.now }
{
    match mask {
        Cell::Over => {}
        Cell::Empty => store(cell, mask),
        Cell::Flag(flag) => {
            if *flag {
                store(replacement, mask);
            } else {
                store(cell, mask);
            }
        }
        Cell::Number(number) => {
            if number.num() == 0 {
                store(cell, mask);
            } else {
                store(replacement, mask);
            }
        }
    }
}

/// A row of cells under the row of a mask, which becomes the result.
fn cover_row(replacement: &Cell, cells: &[Cell], out: &mut [Cell])
    requires { length out.old ≤ length cells.now }
    ensures { (k : ℕ) → k < length out.old → slice_index_or out.new k Empty
        ≡ covered_by replacement.now (slice_index_or out.old k Empty)
        (slice_index_or cells.now k Empty) }
{
    for k in 0..out.len() {
        cover_cell(replacement, &cells[k], &mut out[k]);
    }
}

impl Rows for CoveredRows<'_> {
    ghost use Rattle.std.specs.Prelude.{unwrap_or};
    ghost use Rattle.oe_cell.specs.declared.cell.Cell.TheVariants.{Empty};
    ghost use Rattle.oe_dims.specs.Dimensions.{IsShape};
    ghost use Rattle.oe_dims.specs.Positions.{IsPosition};
    ghost use Rattle.oe_meanings.specs.Meaning.{covered_by};
    ghost use Rattle.oe_window.specs.Windows.{IsIn};
    ghost use Rattle.oe_ops.specs.Indices.{AreIndicesAt, IsHeld, found_in};
    ghost use Rattle.oe_ops.specs.Slices.{IsCounted, cell_of};

    ghost serves = { λ s p. IsCounted s.cubes.slice × IsIn s.cubes.slice.window p
        × IsCounted s.cubes.mask.slice
        × IsShape s.cubes.mask.shape.now × IsShape s.cubes.mask.argument.now
        × IsPosition s.cubes.mask.shape.now p
        × AreIndicesAt s.cubes.mask.shape.now s.cubes.mask.argument.now s.plane p
        × IsHeld s.cubes.mask.shape.now s.cubes.mask.argument.now s.cubes.mask.slice p };

    ghost room = { λ s. 0 };

    ghost cell = { λ s p. covered_by s.cubes.replacement.now
        (unwrap_or (found_in s.cubes.mask.shape.now s.cubes.mask.argument.now
        s.cubes.mask.slice p) Empty)
        (cell_of s.cubes.slice p) };

    fn row(&self, t: u32, band: u32, y: u32, x: u32, out: &mut [Cell], _scratch: &mut [Cell]) {
        found_row(&self.cubes.mask, &self.plane, t, band, y, x, out);
        let cells = row_of(&self.cubes.slice, t, band, y, x, out.len());
        cover_row(self.cubes.replacement, cells, out);
    }
}

impl Planes for CoveredPlanes<'_> {
    ghost use Rattle.std.specs.Prelude.{unwrap_or};
    ghost use Rattle.oe_cell.specs.declared.cell.Cell.TheVariants.{Empty};
    ghost use Rattle.oe_dims.specs.Dimensions.{IsShape};
    ghost use Rattle.oe_dims.specs.Positions.{IsPosition};
    ghost use Rattle.oe_meanings.specs.Meaning.{covered_by};
    ghost use Rattle.oe_window.specs.Windows.{IsIn};
    ghost use Rattle.oe_ops.specs.Indices.{IsHeld, found_in};
    ghost use Rattle.oe_ops.specs.Slices.{IsCounted, cell_of};

    ghost serves = { λ s p. IsCounted s.slice × IsIn s.slice.window p × IsCounted s.mask.slice
        × IsShape s.mask.argument.now × IsPosition s.mask.shape.now p
        × IsHeld s.mask.shape.now s.mask.argument.now s.mask.slice p };

    ghost room = { λ s. 0 };

    ghost cell = { λ s p. covered_by s.replacement.now
        (unwrap_or (found_in s.mask.shape.now s.mask.argument.now s.mask.slice p) Empty)
        (cell_of s.slice p) };

    fn plane(&self, window: &Window, out: &mut [Cell], scratch: &mut [Cell]) {
        let rows = CoveredRows {
            cubes: *self,
            plane: plane_indices(self.mask.shape, self.mask.argument, window),
        };
        fill(&rows, window, out, scratch);
    }
}

/// The cells of a cube of this shape under a mask, on a window, from slices of both; the mask has the shape
/// `mask_shape` (`mask` of openEO Processes).
pub fn eval_cover(
    replacement: Cell,
    shape: &Shape,
    mask_shape: &Shape,
    slice: Slice,
    mask: Slice,
    window: &Window,
    out: &mut [Cell],
    scratch: &mut [Cell],
)
    requires slice { IsSliceFor (HasLabelsOf shape.now shape.now) window.now shape.now slice }
    requires mask { IsSliceFor (HasLabelsOf shape.now mask_shape.now)
        window.now mask_shape.now mask }
    requires out { HasRoomOn shape.now window.now out.old }
    ensures value { ForEachTwo shape.now slice.entry mask_shape.now mask.entry
        (λ cube mask. out.new ≡ cells_on Empty (covered replacement cube mask) window.now) }
    ensures kinds { (kind : CellKind) → All (IsOfKind kind) slice.entry.cells.now
        → IsOfKind kind replacement → All (IsOfKind kind) out.new }
{
    let mask = Source {
        shape,
        argument: mask_shape,
        slice: mask,
    };
    let planes = CoveredPlanes {
        replacement: &replacement,
        slice,
        mask,
    };
    fill_planes(&planes, window, out, scratch);
}
