// The least row-major number at which a cell is `Over`.
ghost use Rattle.std.specs.Prelude.{◌≡◌, ◌<◌, length, slice_get, Some};
ghost use Rattle.oe_cell.specs.Kinds.{is_over};
ghost use Rattle.oe_cell.specs.declared.cell.Cell.{Cell};
ghost use Rattle.oe_cell.specs.declared.cell.Cell.TheVariants.{Empty};
ghost use Rattle.oe_dims.specs.Cube.{Cube};
ghost use Rattle.oe_spool.specs.Least.{IsLeastOver, least_over_of, lesser_of};
ghost use Rattle.oe_window.specs.Cells.{cells_on};
ghost use Rattle.oe_window.specs.Runs.{AreRising, window_numbers};
ghost use Rattle.oe_window.specs.Windows.{Holds, IsIn, position_count, whole_window};

use oe_cell::Cell;
use oe_dims::Shape;
use oe_window::{Window, runs};

/// The index of the first cell that is `Over`.
fn first_over(cells: &[Cell]) -> Option<usize>
    ensures { result ≡ least_over_of cells.now }
{
    for (index, cell) in cells.iter().enumerate() {
        if cell.is_over() {
            return Some(index);
        }
    }
    None
}

/// The row-major number of the position with an index among those of the window.
fn number_at(shape: &Shape, window: &Window, index: usize) -> u64
    requires within { Holds (whole_window shape.now) window.now }
    requires index { index < position_count window.now }
    ensures number { slice_get (window_numbers shape.now window.now) index ≡ Some result }
    ensures rising { AreRising (window_numbers shape.now window.now) }
{
    let end = shape.cells();
    let mut done = 0;
    for (first, count) in runs(window, shape) {
        if index - done < count as usize {
            return first + (index - done) as u64;
        }
        done += count as usize;
    }
    end
}

/// The least row-major number, in a cube of this shape, of a position of the window whose cell is `Over`; `None`
/// exactly where no cell is. The cells are those on the window in row-major order.
pub fn least_over(shape: &Shape, window: &Window, cells: &[Cell]) -> Option<u64>
    requires within { Holds (whole_window shape.now) window.now }
    requires counted { length cells.now ≡ position_count window.now }
    ensures { (cube : Cube Cell) → cube.shape ≡ shape.now →
        cells_on Empty cube window.now ≡ cells.now → IsLeastOver cube (IsIn window.now) result }
{
    match first_over(cells) {
        None => None,
        Some(index) => Some(number_at(shape, window, index)),
    }
}

/// The lesser of two numbers, of which either may be missing.
pub fn lesser(a: Option<u64>, b: Option<u64>) -> Option<u64>
    ensures { result ≡ lesser_of a b }
{
    match (a, b) {
        (None, _) => b,
        (_, None) => a,
        (Some(a), Some(b)) => Some(a.min(b)),
    }
}
