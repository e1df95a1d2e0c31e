// The cells of an argument at the labels of a result.
ghost use Rattle.std.specs.Prelude.{◌≡◌, ℕ, ◌+◌, ◌<◌, IsTrue, true, is_some, Some};
ghost use Rattle.std.specs.Prelude.{length, slice_index_or, unwrap_or};
ghost use Rattle.oe_cell.specs.declared.cell.Cell.TheVariants.{Empty};
ghost use Rattle.oe_dims.specs.declared.kind.Kind.{Kind};
ghost use Rattle.oe_dims.specs.Dimensions.{IsShape};
ghost use Rattle.oe_dims.specs.Positions.{IsPosition, Position};
ghost use Rattle.oe_window.specs.Windows.{IsIn, extent_along, position_count};
ghost use Rattle.oe_ops.specs.Indices.{AreIndicesAt, HasRow, HasRowOnRun, IsFindable, IsOnRun, IsRowOfPlane};
ghost use Rattle.oe_ops.specs.Indices.{cell_on_row, found_in, index_in_argument, position_on};
ghost use Rattle.oe_ops.specs.Needs.{plane_window};
ghost use Rattle.oe_ops.specs.Slices.{IsCounted, along_x, at_indices};

use crate::run::{Run, index_by, run_of};
use crate::slice::{Slice, cell_of, row_of};
use oe_cell::Cell;
use oe_dims::{Kind, Shape};
use oe_window::Window;

/// The indices of a row along `t`, bands and `y`.
#[derive(Clone, Copy)]
pub(crate) struct RowIndices {
    pub t: u32,
    pub band: u32,
    pub y: u32,
}

/// The index in the argument of the label at an index of a result of this shape.
pub(crate) fn index_in(shape: &Shape, argument: &Shape, kind: Kind, index: u32) -> Option<u32>
    requires { index < extent_along shape.now kind }
    ensures value { result ≡ index_in_argument kind shape.now argument.now index }
    ensures valid { IsShape shape.now }
{
    let count = shape.count(kind);
    if argument.count(kind).is_none() {
        return Some(0);
    }
    if count.is_none() {
        return None;
    }
    match kind {
        Kind::Bands => argument.band_position(shape.band_at(index)),
        _ => argument.position_of(kind, shape.label_at(kind, index)),
    }
}

/// The indices in an argument of the labels of a plane of a result, found once for all its rows.
#[derive(Clone, Copy)]
pub(crate) struct PlaneIndices {
    pub t: Option<u32>,
    pub band: Option<u32>,
    pub y: Run,
    pub x: Run,
}

/// The indices in an argument of the labels of a plane.
pub(crate) fn plane_indices(shape: &Shape, argument: &Shape, window: &Window) -> PlaneIndices
    requires one { window.now ≡ plane_window window.now window.now.t.from window.now.bands.from }
    requires some { 0 < position_count window.now }
    requires inside { (p : Position) → IsIn window.now p → IsPosition shape.now p }
    ensures value { (p : Position) → IsIn window.now p
        → AreIndicesAt shape.now argument.now result p }
    ensures valid { IsShape shape.now }
{
    PlaneIndices {
        t: index_in(shape, argument, Kind::Time, window.t.from),
        band: index_in(shape, argument, Kind::Bands, window.bands.from),
        y: run_of(shape, argument, Kind::Y, window.y),
        x: run_of(shape, argument, Kind::X, window.x),
    }
}

/// A slice of an argument, for the rows of a result.
#[derive(Clone, Copy)]
pub(crate) struct Source<'a> {
    /// The shape of the result.
    pub shape: &'a Shape,
    /// That of the argument.
    pub argument: &'a Shape,
    pub slice: Slice<'a>,
}

/// The row in the argument of the labels of a row of a plane.
pub(crate) fn row_in(source: &Source, plane: &PlaneIndices, y: u32) -> Option<RowIndices>
    requires valid { IsShape source.now.argument.now }
    requires inside { y < extent_along source.now.shape.now Kind.Y }
    requires on_run { IsOnRun Kind.Y source.now.shape.now source.now.argument.now plane.now.y y }
    ensures { IsRowOfPlane source.now.shape.now source.now.argument.now plane.now y result }
{
    let t = plane.t?;
    let band = plane.band?;
    let y = index_by(source.shape, source.argument, Kind::Y, plane.y, y)?;
    Some(RowIndices { t, band, y })
}

/// The cell of a row at the label at an index along `x`: null where the argument has no such label.
fn found_at(source: &Source, row: RowIndices, x: u32) -> Cell
    requires counted { IsCounted source.now.slice }
    requires inside { x < extent_along source.now.shape.now Kind.X }
    requires held { (i : ℕ)
        → index_in_argument Kind.X source.now.shape.now source.now.argument.now x ≡ Some i
        → IsIn source.now.slice.window (position_on row i) }
    ensures { result ≡ unwrap_or (cell_on_row source.now.shape.now source.now.argument.now
        source.now.slice row x) Empty }
{
    match index_in(source.shape, source.argument, Kind::X, x) {
        None => Cell::Empty,
        Some(i) => cell_of(&source.slice, row.t, row.band, row.y, i),
    }
}

/// The cells of a row, one label after the other.
fn found_each(source: &Source, row: RowIndices, x: u32, out: &mut [Cell])
    requires labels { HasRow source.now.shape.now source.now.argument.now source.now.slice
        row x (length out.old) }
    ensures { (k : ℕ) → k < length out.old → slice_index_or out.new k Empty
        ≡ unwrap_or (cell_on_row source.now.shape.now source.now.argument.now source.now.slice
        row (x + k)) Empty }
{
    for k in 0..out.len() {
        out[k] = found_at(source, row, x + k as u32);
    }
}

/// The cells of a row, and whether each label along `x` is sure to be found: one cell where the argument has no
/// dimension `x`, one piece of the slice where the labels are a run of the argument's, and else each by itself.
pub(crate) fn found_on(source: &Source, run: Run, row: RowIndices, x: u32, out: &mut [Cell]) -> bool
    requires labels { HasRowOnRun source.now.shape.now source.now.argument.now source.now.slice
        run row x (length out.old) }
    ensures value { (k : ℕ) → k < length out.old → slice_index_or out.new k Empty
        ≡ unwrap_or (cell_on_row source.now.shape.now source.now.argument.now source.now.slice
        row (x + k)) Empty }
    ensures all { IsTrue result → (k : ℕ) → k < length out.old
        → is_some (index_in_argument Kind.X source.now.shape.now source.now.argument.now (x + k))
        ≡ true }
{
    if source.argument.count(Kind::X).is_none() {
        out.fill(cell_of(&source.slice, row.t, row.band, row.y, 0));
        return true;
    }
    match run.first {
        None => {
            found_each(source, row, x, out);
            false
        }
        Some(first) => {
            let first = first + (x - run.from);
            let count = out.len();
            out.copy_from_slice(row_of(&source.slice, row.t, row.band, row.y, first, count));
            true
        }
    }
}

/// Null cells, where the argument has no such row.
fn null_row(out: &mut [Cell])
    ensures { (k : ℕ) → k < length out.old → slice_index_or out.new k Empty ≡ Empty }
{
    out.fill(Cell::Empty);
}

/// The cells at the labels of a row of the result, from a position on along `x`.
pub(crate) fn found_row(
    source: &Source,
    plane: &PlaneIndices,
    t: u32,
    band: u32,
    y: u32,
    x: u32,
    out: &mut [Cell],
)
    requires some { 0 < length out.old }
    requires valid { IsShape source.now.shape.now }
    requires argument_valid { IsShape source.now.argument.now }
    requires counted { IsCounted source.now.slice }
    requires each { (k : ℕ) → k < length out.old → IsFindable source.now.shape.now
        source.now.argument.now source.now.slice plane.now (along_x (at_indices t band y x) k) }
    ensures { (k : ℕ) → k < length out.old → slice_index_or out.new k Empty
        ≡ unwrap_or (found_in source.now.shape.now source.now.argument.now source.now.slice
        (along_x (at_indices t band y x) k)) Empty }
{
    let _plane = (t, band);
    match row_in(source, plane, y) {
        None => null_row(out),
        Some(row) => {
            found_on(source, plane.x, row, x, out);
        }
    }
}
