// One loop over the rows of a window, for all operations.
ghost use Rattle.std.specs.Prelude.{◌≡◌, ◌+◌, ◌<◌, ◌≤◌, ℕ, length, map, slice_index_or};
ghost use Rattle.oe_cell.specs.declared.cell.Cell.{Cell};
ghost use Rattle.oe_cell.specs.declared.cell.Cell.TheVariants.{Empty};
ghost use Rattle.oe_dims.specs.Positions.{Position};
ghost use Rattle.oe_window.specs.Windows.{IsIn, positions, position_count};
ghost use Rattle.oe_ops.specs.Needs.{plane_window};
ghost use Rattle.oe_ops.specs.Slices.{along_x, at_indices};

use crate::slice::indices;
use oe_cell::Cell;
use oe_window::{Span, Window, size};

/// What gives the cells of a result row by row.
pub(crate) trait Rows {
    // a position whose cell can be given
    ghost serves: { Self → Position → Type 0 };

    // how many cells of scratch that takes
    ghost room: { Self → ℕ };

    // the cell of a position
    ghost cell: { Self → Position → Cell };

    /// The cells of a row, from a position on along `x`.
    fn row(&self, t: u32, band: u32, y: u32, x: u32, out: &mut [Cell], scratch: &mut [Cell])
        requires some { 0 < length out.old }
        requires serves { (k : ℕ) → k < length out.old
            → serves self.now (along_x (at_indices t band y x) k) }
        requires room { room self.now ≤ length scratch.old }
        ensures { (k : ℕ) → k < length out.old → slice_index_or out.new k Empty
            ≡ cell self.now (along_x (at_indices t band y x) k) };
}

/// The index so many steps along a span.
pub(crate) fn index_after(span: Span, steps: usize) -> u32
    requires { span.from + steps < span.to }
    ensures { result ≡ span.from + steps }
{
    span.from + steps as u32
}

/// The cells at all positions of a window.
pub(crate) fn fill<R: Rows>(rows: &R, window: &Window, out: &mut [Cell], scratch: &mut [Cell])
    requires counted { length out.old ≡ position_count window.now }
    requires serves { (p : Position) → IsIn window.now p → R.serves rows.now p }
    requires room { R.room rows.now ≤ length scratch.old }
    ensures { out.new ≡ map (R.cell rows.now) (positions window.now) }
{
    if out.is_empty() {
        return;
    }
    fill_rows(rows, window, out, scratch);
}

/// The same, where there is a position.
fn fill_rows<R: Rows>(rows: &R, window: &Window, out: &mut [Cell], scratch: &mut [Cell])
    requires some { 0 < length out.old }
    requires counted { length out.old ≡ position_count window.now }
    requires serves { (p : Position) → IsIn window.now p → R.serves rows.now p }
    requires room { R.room rows.now ≤ length scratch.old }
    ensures { out.new ≡ map (R.cell rows.now) (positions window.now) }
{
    let width = indices(window.x);
    let bands = indices(window.bands);
    let lines = indices(window.y);
    for number in 0..out.len() / width {
        let t = index_after(window.t, number / lines / bands);
        let band = index_after(window.bands, number / lines % bands);
        let y = index_after(window.y, number % lines);
        let first = number * width;
        rows.row(
            t,
            band,
            y,
            window.x.from,
            &mut out[first..first + width],
            scratch,
        );
    }
}

/// What gives the cells of a result plane by plane, where something is found once for all rows of a plane.
pub(crate) trait Planes {
    // a position whose cell can be given
    ghost serves: { Self → Position → Type 0 };

    // how many cells of scratch that takes
    ghost room: { Self → ℕ };

    // the cell of a position
    ghost cell: { Self → Position → Cell };

    /// The cells of a window with one index along `t` and one along bands.
    fn plane(&self, window: &Window, out: &mut [Cell], scratch: &mut [Cell])
        requires one { window.now
            ≡ plane_window window.now window.now.t.from window.now.bands.from }
        requires some { 0 < length out.old }
        requires counted { length out.old ≡ position_count window.now }
        requires serves { (p : Position) → IsIn window.now p → serves self.now p }
        requires room { room self.now ≤ length scratch.old }
        ensures { out.new ≡ map (cell self.now) (positions window.now) };
}

/// The cells at all positions of a window, plane by plane.
pub(crate) fn fill_planes<P: Planes>(
    planes: &P,
    window: &Window,
    out: &mut [Cell],
    scratch: &mut [Cell],
)
    requires counted { length out.old ≡ position_count window.now }
    requires serves { (p : Position) → IsIn window.now p → P.serves planes.now p }
    requires room { P.room planes.now ≤ length scratch.old }
    ensures { out.new ≡ map (P.cell planes.now) (positions window.now) }
{
    let mut done = 0;
    for number in 0..window.planes() {
        let plane = window.plane(number);
        let count = size(&plane) as usize;
        planes.plane(&plane, &mut out[done..done + count], scratch);
        done += count;
    }
}
