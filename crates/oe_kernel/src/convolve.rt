// The window over one pixel of a plane.
ghost use Rattle.std.specs.Prelude.{◌≡◌, ◌<◌};
ghost use Rattle.oe_cell.specs.Cells.{IsCell};
ghost use Rattle.oe_kernel.specs.Blocks.{HasWindow};
ghost use Rattle.oe_kernel.specs.Convolution.{WholePlane, IsPartOf, convolved, weighted, row_added, IsAmount};
ghost use Rattle.oe_kernel.specs.Rows.{whole_plane_of};
ghost use Rattle.oe_kernel.specs.Totals.{total_of};

use crate::border::index_of;
use crate::plane::box_row;
use crate::rows::{reach, with_border, with_row};
use crate::total::{Total, cell_of};
use crate::{Border, Kernel, Plane};
use oe_cell::{Cell, Frac, multiply};

/// The cell that `apply_kernel` of openEO Processes gives for the pixel at column `x` and row `y` of a plane, of which
/// `plane` is a box that holds each position that the border rule gives.
///
/// The kernel's middle lies on the pixel, and the kernel is not flipped. Each value is multiplied with its pixel, the
/// products are added row by row from 0 on, and the total is multiplied with `factor`. A null counts as `replace`, true
/// as 1 and false as 0. The border rule applies where the window leaves the whole plane, not where it leaves the box. A
/// product or a sum that is no number of a cell makes the cell Over. Takes no memory.
pub fn convolve_at(
    kernel: &Kernel,
    factor: Frac,
    border: Border,
    replace: Frac,
    plane: &Plane,
    x: u32,
    y: u32,
) -> Cell
    // the box holds each position that the border rule gives
    requires window { HasWindow kernel.now border plane.now x y }
    // the cell of the definition, for every whole plane that the box is a part of
    ensures value { (whole : WholePlane) → IsPartOf plane.now whole
        → result ≡ convolved kernel.now factor border replace whole y x }
    // a number or Over
    ensures amount { IsAmount result }
    ensures cell { IsCell result }
{
    let mut total = Total::Whole(0);
    for i in 0..kernel.height() {
        total = with_kernel_row(total, kernel, i, &border, replace, plane, x, y);
    }
    multiply(cell_of(total), Cell::Number(factor))
}

/// The total and the products of the kernel's row `i`, added from the left.
fn with_kernel_row(
    total: Total,
    kernel: &Kernel,
    i: u32,
    border: &Border,
    replace: Frac,
    plane: &Plane,
    x: u32,
    y: u32,
) -> Total
    requires window { HasWindow kernel.now border.now plane.now x y }
    requires i_in { i < kernel.now.height }
    ensures { total_of result
        ≡ row_added (weighted kernel.now border.now replace (whole_plane_of plane.now) y x i)
        kernel.now.width (total_of total) }
{
    let values = kernel.row(i);
    let at = reach(y, i as usize, kernel.height() as usize);
    match index_of(border, at, plane.side_y) {
        None => with_border(total, values, border),
        Some(row) => with_row(
            total,
            values,
            border,
            replace,
            box_row(plane, row),
            plane.from_x,
            plane.side_x,
            x,
        ),
    }
}
