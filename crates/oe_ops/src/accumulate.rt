// `apply_dimension` by `cumsum`: running sums along t.
ghost use Rattle.std.specs.Prelude.{◌≡◌, ◌≢◌, ◌⊎◌, ◌+◌, ◌*◌, ◌<◌, ◌≤◌, ℕ, length, map};
ghost use Rattle.std.specs.List.{All};
ghost use Rattle.oe_cell.specs.declared.cell.Cell.{Cell};
ghost use Rattle.oe_cell.specs.declared.cell.Cell.TheVariants.{Empty};
ghost use Rattle.oe_cube.specs.Kinds.{IsOfKind};
ghost use Rattle.oe_dims.specs.Positions.{Position};
ghost use Rattle.oe_dims.specs.declared.kind.CellKind.{CellKind};
ghost use Rattle.oe_dims.specs.declared.kind.Kind.TheVariants.{Time, X};
ghost use Rattle.oe_window.specs.Cells.{cells_on};
ghost use Rattle.oe_window.specs.Windows.{IsIn, extent_along, position_count, positions, span_length};
ghost use Rattle.oe_ops.specs.Calls.{ForEachCube, HasRoomOn, IsSliceFor};
ghost use Rattle.oe_ops.specs.Needs.{HasLabelsBeside};
ghost use Rattle.oe_ops.specs.Slices.{IsCounted, along_x, at_indices};
ghost use Rattle.oe_meanings.specs.Meaning.{accumulated};
ghost use Rattle.oe_ops.specs.Sums.{AreRunningSums, HoldsAllBefore, IsRowOf, KeepsWhere, cell_on, sum_at};

use crate::slice::{Slice, indices, number_on, row_of};
use oe_cell::Cell;
use oe_dims::Shape;
use oe_periods::{add_cells, begin_sums, write_sums};
use oe_window::Window;

/// The running sums along t of a cube of this shape on a window, from a slice of the cube (`cumsum` of openEO
/// Processes). `scratch` has two cells at least for each label of `x`.
pub fn eval_accumulate(
    ignore: bool,
    shape: &Shape,
    slice: Slice,
    window: &Window,
    out: &mut [Cell],
    scratch: &mut [Cell],
)
    requires slice { IsSliceFor (HasLabelsBeside Time shape.now shape.now)
        window.now shape.now slice }
    requires out { HasRoomOn shape.now window.now out.old }
    requires room { 2 * extent_along shape.now X ≤ length scratch.old }
    ensures value { ForEachCube shape.now slice.entry
        (λ cube. out.new ≡ cells_on Empty (accumulated ignore cube) window.now) }
    ensures kinds { (kind : CellKind) → All (IsOfKind kind) slice.entry.cells.now
        → All (IsOfKind kind) out.new }
{
    let _shape = shape;
    if out.is_empty() {
        return;
    }
    sum_bands(ignore, &slice, window, out, scratch);
}

/// The same, where there is a position.
fn sum_bands(ignore: bool, slice: &Slice, window: &Window, out: &mut [Cell], scratch: &mut [Cell])
    requires some { 0 < length out.old }
    requires counted { IsCounted slice.now }
    requires dates { HoldsAllBefore window.now slice.now }
    requires length { length out.old ≡ position_count window.now }
    requires room { 2 * span_length window.now.x ≤ length scratch.old }
    ensures { out.new ≡ map (sum_at ignore slice.now) (positions window.now) }
{
    for band in window.bands.from..window.bands.to {
        sum_lines(ignore, slice, window, band, out, scratch);
    }
}

/// The running sums at one index of bands.
fn sum_lines(
    ignore: bool,
    slice: &Slice,
    window: &Window,
    band: u32,
    out: &mut [Cell],
    scratch: &mut [Cell],
)
    requires some { 0 < length out.old }
    requires counted { IsCounted slice.now }
    requires dates { HoldsAllBefore window.now slice.now }
    requires band { window.now.bands.from ≤ band × band < window.now.bands.to }
    requires length { length out.old ≡ position_count window.now }
    requires room { 2 * span_length window.now.x ≤ length scratch.old }
    ensures sums { (p : Position) → IsIn window.now p → p.band ≡ band
        → cell_on window.now out.new p ≡ sum_at ignore slice.now p }
    ensures others { KeepsWhere (λ p. p.band ≢ band) window.now out.old out.new }
{
    for y in window.y.from..window.y.to {
        sum_line(ignore, slice, window, band, y, out, scratch);
    }
}

/// The running sums at one index of bands and one of y, from the first label of t on to the last of the window.
fn sum_line(
    ignore: bool,
    slice: &Slice,
    window: &Window,
    band: u32,
    y: u32,
    out: &mut [Cell],
    scratch: &mut [Cell],
)
    requires some { 0 < length out.old }
    requires counted { IsCounted slice.now }
    requires dates { HoldsAllBefore window.now slice.now }
    requires band { window.now.bands.from ≤ band × band < window.now.bands.to }
    requires y { window.now.y.from ≤ y × y < window.now.y.to }
    requires length { length out.old ≡ position_count window.now }
    requires room { 2 * span_length window.now.x ≤ length scratch.old }
    ensures sums { (p : Position) → IsIn window.now p → p.band ≡ band → p.y ≡ y
        → cell_on window.now out.new p ≡ sum_at ignore slice.now p }
    ensures others { KeepsWhere (λ p. (p.band ≢ band) ⊎ (p.y ≢ y)) window.now out.old out.new }
{
    let width = indices(window.x);
    let (sums, rest) = scratch.split_at_mut(width);
    let marks = &mut rest[..width];
    begin_sums(sums, marks);
    for t in 0..window.t.to {
        let cells = row_of(slice, t, band, y, window.x.from, width);
        add_cells(ignore, cells, sums, marks);
        write_row(cells, sums, marks, window, t, band, y, out);
    }
}

/// Writes the running sums of a row of pixels at the cells that were added last, where the window has the index of t.
fn write_row(
    cells: &[Cell],
    sums: &[Cell],
    marks: &[Cell],
    window: &Window,
    t: u32,
    band: u32,
    y: u32,
    out: &mut [Cell],
)
    requires row { IsRowOf window.now cells.now sums.now marks.now }
    requires inside { window.now.t.from ≤ t → (k : ℕ) → k < length cells.now
        → IsIn window.now (along_x (at_indices t band y window.now.x.from) k) }
    requires length { length out.old ≡ position_count window.now }
    ensures written { window.now.t.from ≤ t → AreRunningSums cells.now sums.now marks.now
        (λ k. cell_on window.now out.new (along_x (at_indices t band y window.now.x.from) k)) }
    ensures others { KeepsWhere (λ p. (p.t ≢ t) ⊎ ((p.band ≢ band) ⊎ (p.y ≢ y)))
        window.now out.old out.new }
{
    if t >= window.t.from {
        put_row(cells, sums, marks, window, t, band, y, out);
    }
}

/// Puts the running sums of a row of pixels, at the cells that were added last, to their positions in a window.
fn put_row(
    cells: &[Cell],
    sums: &[Cell],
    marks: &[Cell],
    window: &Window,
    t: u32,
    band: u32,
    y: u32,
    out: &mut [Cell],
)
    requires row { IsRowOf window.now cells.now sums.now marks.now }
    requires inside { (k : ℕ) → k < length cells.now
        → IsIn window.now (along_x (at_indices t band y window.now.x.from) k) }
    requires length { length out.old ≡ position_count window.now }
    ensures written { AreRunningSums cells.now sums.now marks.now
        (λ k. cell_on window.now out.new (along_x (at_indices t band y window.now.x.from) k)) }
    ensures others { KeepsWhere (λ p. (p.t ≢ t) ⊎ ((p.band ≢ band) ⊎ (p.y ≢ y)))
        window.now out.old out.new }
{
    let first = number_on(window, t, band, y, window.x.from);
    let part = &mut out[first..first + cells.len()];
    write_sums(cells, sums, marks, part);
}
