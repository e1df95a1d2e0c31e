// The cells of a cube on a window.
ghost use Rattle.std.specs.Prelude.{◌≡◌, ℕ, ◌+◌, ◌^◌, ◌<◌, ◌≤◌, length, slice_index_or};
ghost use Rattle.oe_cell.specs.declared.cell.Cell.TheVariants.{Empty};
ghost use Rattle.oe_window.specs.Windows.{IsIn, number_in, position_count, span_length};
ghost use Rattle.oe_ops.specs.Slices.{IsCounted, along_x, cell_of, at_indices};

use oe_cell::Cell;
use oe_window::{Span, Window};

/// The cells at the positions of a window, in row-major order.
#[derive(Clone, Copy)]
pub struct Slice<'a> {
    pub window: Window,
    pub cells: &'a [Cell],
}

/// How many indices a span has.
pub(crate) fn indices(span: Span) -> usize
    ensures { result ≡ span_length span }
{
    span.to.saturating_sub(span.from) as usize
}

/// The number of a position among those of a window.
pub(crate) fn number_on(window: &Window, t: u32, band: u32, y: u32, x: u32) -> usize
    requires most { position_count window.now < 2 ^ 64 }
    requires inside { IsIn window.now (at_indices t band y x) }
    ensures value { result ≡ number_in window.now (at_indices t band y x) }
    ensures within { result < position_count window.now }
{
    let plane = (t - window.t.from) as usize * indices(window.bands)
        + (band - window.bands.from) as usize;
    let row = plane * indices(window.y) + (y - window.y.from) as usize;
    row * indices(window.x) + (x - window.x.from) as usize
}

/// The number of a position among those of a slice.
pub(crate) fn number(slice: &Slice, t: u32, band: u32, y: u32, x: u32) -> usize
    requires counted { IsCounted slice.now }
    requires inside { IsIn slice.now.window (at_indices t band y x) }
    ensures value { result ≡ number_in slice.now.window (at_indices t band y x) }
    ensures within { result < length slice.now.cells.now }
{
    number_on(&slice.window, t, band, y, x)
}

/// The cell at a position.
pub(crate) fn cell_of(slice: &Slice, t: u32, band: u32, y: u32, x: u32) -> Cell
    requires counted { IsCounted slice.now }
    requires inside { IsIn slice.now.window (at_indices t band y x) }
    ensures { result ≡ cell_of slice.now (at_indices t band y x) }
{
    slice.cells[number(slice, t, band, y, x)]
}

/// So many cells of a row of a slice, from a position on along `x`.
pub(crate) fn row_of<'a>(
    slice: &Slice<'a>,
    t: u32,
    band: u32,
    y: u32,
    x: u32,
    count: usize,
) -> &'a [Cell]
    requires some { 0 < count }
    requires counted { IsCounted slice.now }
    requires inside { (k : ℕ) → k < count
        → IsIn slice.now.window (along_x (at_indices t band y x) k) }
    ensures length { length result.now ≡ count }
    ensures value { (k : ℕ) → k < count → slice_index_or result.now k Empty
        ≡ cell_of slice.now (along_x (at_indices t band y x) k) }
{
    let first = number(slice, t, band, y, x);
    &slice.cells[first..first + count]
}
