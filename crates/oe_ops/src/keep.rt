// Filters, loads and results that are saved: cells by their labels.
ghost use Rattle.std.specs.Prelude.{◌≡◌};
ghost use Rattle.oe_cell.specs.declared.cell.Cell.{Cell};
ghost use Rattle.oe_cell.specs.declared.cell.Cell.TheVariants.{Empty};
ghost use Rattle.std.specs.List.{All};
ghost use Rattle.oe_cube.specs.Kinds.{IsOfKind};
ghost use Rattle.oe_dims.specs.Cube.{Cube, IsCube};
ghost use Rattle.oe_dims.specs.declared.kind.CellKind.{CellKind};
ghost use Rattle.oe_dims.specs.Dimensions.{IsShape};
ghost use Rattle.oe_requests.specs.Extents.{Restriction, shape_of_restriction};
ghost use Rattle.oe_meanings.specs.Meaning.{restricted_cube};
ghost use Rattle.oe_window.specs.Cells.{cells_on};
ghost use Rattle.oe_ops.specs.Calls.{HasRoomOn, IsSliceFor};
ghost use Rattle.oe_ops.specs.Needs.{HasLabelsOf};
ghost use Rattle.oe_ops.specs.Slices.{IsCounted, IsOn};

use crate::rows::{Planes, Rows, fill, fill_planes};
use crate::slice::Slice;
use crate::source::{PlaneIndices, Source, found_row, plane_indices};
use oe_cell::Cell;
use oe_dims::Shape;
use oe_window::Window;

/// The cells of an argument at the labels of a result, on a plane.
#[derive(Clone, Copy)]
struct KeptRows<'a> {
    source: Source<'a>,
    plane: PlaneIndices,
}

impl Rows for KeptRows<'_> {
    ghost use Rattle.std.specs.Prelude.{unwrap_or};
    ghost use Rattle.oe_cell.specs.declared.cell.Cell.TheVariants.{Empty};
    ghost use Rattle.oe_dims.specs.Dimensions.{IsShape};
    ghost use Rattle.oe_dims.specs.Positions.{IsPosition};
    ghost use Rattle.oe_ops.specs.Indices.{AreIndicesAt, IsHeld, found_in};
    ghost use Rattle.oe_ops.specs.Slices.{IsCounted};

    ghost serves = { λ s p. IsCounted s.source.slice
        × IsShape s.source.shape.now × IsShape s.source.argument.now
        × IsPosition s.source.shape.now p
        × AreIndicesAt s.source.shape.now s.source.argument.now s.plane p
        × IsHeld s.source.shape.now s.source.argument.now s.source.slice p };

    ghost room = { λ s. 0 };

    ghost cell = { λ s p. unwrap_or
        (found_in s.source.shape.now s.source.argument.now s.source.slice p) Empty };

    fn row(&self, t: u32, band: u32, y: u32, x: u32, out: &mut [Cell], _scratch: &mut [Cell]) {
        found_row(&self.source, &self.plane, t, band, y, x, out);
    }
}

impl Planes for Source<'_> {
    ghost use Rattle.std.specs.Prelude.{unwrap_or};
    ghost use Rattle.oe_cell.specs.declared.cell.Cell.TheVariants.{Empty};
    ghost use Rattle.oe_dims.specs.Dimensions.{IsShape};
    ghost use Rattle.oe_dims.specs.Positions.{IsPosition};
    ghost use Rattle.oe_ops.specs.Indices.{IsHeld, found_in};
    ghost use Rattle.oe_ops.specs.Slices.{IsCounted};

    ghost serves = { λ s p. IsCounted s.slice × IsShape s.argument.now
        × IsPosition s.shape.now p
        × IsHeld s.shape.now s.argument.now s.slice p };

    ghost room = { λ s. 0 };

    ghost cell = { λ s p. unwrap_or
        (found_in s.shape.now s.argument.now s.slice p) Empty };

    fn plane(&self, window: &Window, out: &mut [Cell], scratch: &mut [Cell]) {
        let rows = KeptRows {
            source: *self,
            plane: plane_indices(self.shape, self.argument, window),
        };
        fill(&rows, window, out, scratch);
    }
}

/// The cells of what is kept of a cube, on a window of a result of this shape, from a slice of the cube, which has the
/// shape `argument` (`load_collection`, `filter_bbox`, `filter_temporal`, `filter_bands` of openEO Processes).
pub fn eval_keep(
    shape: &Shape,
    argument: &Shape,
    slice: Slice,
    window: &Window,
    out: &mut [Cell],
    scratch: &mut [Cell],
)
    requires slice { IsSliceFor (HasLabelsOf shape.now argument.now) window.now argument.now slice }
    requires out { HasRoomOn shape.now window.now out.old }
    ensures value { (cube : Cube Cell) (r : Restriction) → IsCube cube → cube.shape ≡ argument.now
        → shape_of_restriction r argument.now ≡ shape.now → IsOn cube slice.entry
        → out.new ≡ cells_on Empty (restricted_cube r cube) window.now }
    ensures kinds { (kind : CellKind) → All (IsOfKind kind) slice.entry.cells.now
        → All (IsOfKind kind) out.new }
{
    let source = Source {
        shape,
        argument,
        slice,
    };
    fill_planes(&source, window, out, scratch);
}
