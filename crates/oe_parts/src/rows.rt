// The rows of a window.
ghost use Rattle.std.specs.Prelude.{◌≡◌, ◌+◌, ◌<◌, ◌≤◌};
ghost use Rattle.oe_dims.specs.Dimensions.{cell_count};
ghost use Rattle.oe_window.specs.Parts.{row_count, row_of};
ghost use Rattle.oe_window.specs.Windows.{Holds, position_count, whole_window};
ghost use Rattle.oe_parts.specs.Rows.{HasNumbersFrom};

use oe_dims::Shape;
use oe_window::{Window, runs};

/// The row of a number, and the row-major number of its first position, which those of the others follow.
pub(crate) fn row_at(shape: &Shape, window: &Window, number: u64) -> (Window, u64)
    requires within { Holds (whole_window shape.now) window.now }
    requires number { number < row_count window.now }
    ensures row { result.0 ≡ row_of window.now number }
    ensures numbers { HasNumbersFrom shape.now result.0 result.1 }
    ensures end { result.1 + position_count result.0 ≤ cell_count shape.now }
{
    let row = window.row(number);
    let first = match runs(&row, shape).next() {
        Some(begun) => begun.0,
        None => 0,
    };
    (row, first)
}
