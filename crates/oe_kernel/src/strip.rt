// Cells of a row at once: by machine numbers where the pixels are whole and small, else one by one.
ghost use Rattle.std.specs.Prelude.{◌≡◌, ◌<◌, ◌≤◌, ◌+◌, ℕ, length, IsTrue, IfSome};
ghost use Rattle.oe_cell.specs.Exact.{cell_of_lowest};
ghost use Rattle.oe_kernel.specs.Blocks.{cell_at, cells_from, HasRowOfWindows, IsConvolvedRow, IsStrip, KeepsBefore};
ghost use Rattle.oe_kernel.specs.Convolution.{IsAmount};
ghost use Rattle.oe_kernel.specs.Rows.{box_sum};
ghost use Rattle.oe_kernel.specs.declared.strip.TheConstants.{STRIP_PIXELS};
ghost use Rattle.oe_kernel.specs.Strips.{at, AreInRange, IsBoundFor};

use crate::pixels::unpack_row;
use crate::sums::{add_values, bound_of, clear, write_cells};
use crate::{Border, Kernel, Plane, convolve_at};
use oe_cell::{Cell, Frac};

/// How many cells of a row are convolved at once.
pub(crate) const STRIP: usize = 64;

/// How many pixels lie under their windows, at most: those of the widest kernel.
const STRIP_PIXELS: usize = 94;

/// The sums of the windows around row `y` and the columns from `x` on. False comes where a pixel is no whole number of
/// at most a size.
fn sum_strip(
    kernel: &Kernel,
    border: &Border,
    replace: Frac,
    bound: u64,
    plane: &Plane,
    x: u32,
    y: u32,
    pixels: &mut [i64],
    sums: &mut [i64],
) -> bool
    requires windows { HasRowOfWindows kernel.now border.now plane.now x y (length sums.old) }
    requires any { 0 < length sums.old }
    requires few { length pixels.old ≤ STRIP_PIXELS }
    requires same { length pixels.old + 1 ≡ length sums.old + kernel.now.width }
    requires bound { IsBoundFor kernel.now.values bound }
    ensures value { IsTrue result → (k : ℕ) → k < length sums.old → cell_of_lowest (at sums.new k) 1
        ≡ box_sum kernel.now border.now replace plane.now y (x + k) }
    ensures size { IsTrue result → AreInRange sums.new }
{
    clear(sums);
    let count = pixels.len();
    for i in 0..kernel.height() {
        let row = i as usize;
        if !unpack_row(
            kernel, border, replace, bound, plane, x, y, row, pixels, 0, count,
        ) {
            return false;
        }
        add_values(sums, pixels, kernel.row(i), bound);
    }
    true
}

/// The cells of [`convolve_at`] for `count` pixels of row `y` from column `x` on, one by one, from the index `start` of
/// `out` on.
fn convolve_each(
    kernel: &Kernel,
    factor: Frac,
    border: &Border,
    replace: Frac,
    plane: &Plane,
    x: u32,
    y: u32,
    start: usize,
    count: usize,
    out: &mut [Cell],
)
    requires windows { HasRowOfWindows kernel.now border.now plane.now x y count }
    requires end { start + count ≤ length out.old }
    ensures value { IsConvolvedRow kernel.now factor border.now replace plane.now
        x y count (cells_from out.new start) }
    ensures before { KeepsBefore start out.old out.new }
{
    for k in 0..count {
        out[start + k] = convolve_at(kernel, factor, *border, replace, plane, x + k as u32, y);
    }
}

/// The same by machine numbers, for a strip of pixels. False comes where a pixel is no whole number of at most a size.
fn fast_strip(
    kernel: &Kernel,
    factor: Frac,
    border: &Border,
    replace: Frac,
    bound: u64,
    plane: &Plane,
    x: u32,
    y: u32,
    start: usize,
    count: usize,
    out: &mut [Cell],
) -> bool
    requires strip { IsStrip kernel.now border.now plane.now x y count start out.old }
    requires bound { IsBoundFor kernel.now.values bound }
    ensures value { IsTrue result → IsConvolvedRow kernel.now factor border.now replace plane.now
        x y count (cells_from out.new start) }
    ensures before { KeepsBefore start out.old out.new }
{
    let mut pixels = [0i64; STRIP_PIXELS];
    let mut sums = [0i64; STRIP];
    let under = count + kernel.width() as usize - 1;
    let strip = &mut sums[..count];
    if !sum_strip(
        kernel,
        border,
        replace,
        bound,
        plane,
        x,
        y,
        &mut pixels[..under],
        strip,
    ) {
        return false;
    }
    write_cells(strip, factor, start, out);
    true
}

/// The same for a strip of pixels, by machine numbers where they are whole and small.
fn convolve_strip(
    kernel: &Kernel,
    factor: Frac,
    border: &Border,
    replace: Frac,
    plane: &Plane,
    bound: Option<u64>,
    x: u32,
    y: u32,
    start: usize,
    count: usize,
    out: &mut [Cell],
)
    requires strip { IsStrip kernel.now border.now plane.now x y count start out.old }
    requires bound { IfSome bound (IsBoundFor kernel.now.values) }
    ensures value { IsConvolvedRow kernel.now factor border.now replace plane.now
        x y count (cells_from out.new start) }
    ensures before { KeepsBefore start out.old out.new }
{
    if let Some(bound) = bound {
        if fast_strip(
            kernel, factor, border, replace, bound, plane, x, y, start, count, out,
        ) {
            return;
        }
    }
    convolve_each(
        kernel, factor, border, replace, plane, x, y, start, count, out,
    );
}

/// The same for any number of pixels, in strips.
pub(crate) fn convolve_strips(
    kernel: &Kernel,
    factor: Frac,
    border: &Border,
    replace: Frac,
    plane: &Plane,
    bound: Option<u64>,
    x: u32,
    y: u32,
    start: usize,
    count: usize,
    out: &mut [Cell],
)
    requires windows { HasRowOfWindows kernel.now border.now plane.now x y count }
    requires end { start + count ≤ length out.old }
    requires bound { IfSome bound (IsBoundFor kernel.now.values) }
    ensures value { IsConvolvedRow kernel.now factor border.now replace plane.now
        x y count (cells_from out.new start) }
    ensures before { KeepsBefore start out.old out.new }
{
    for strip in 0..(count + STRIP - 1) / STRIP {
        let first = strip * STRIP;
        let most = count - first;
        let some = if most < STRIP { most } else { STRIP };
        let column = x + first as u32;
        let index = start + first;
        convolve_strip(
            kernel, factor, border, replace, plane, bound, column, y, index, some, out,
        );
    }
}

/// The cells of [`convolve_at`] for the pixels of row `y` from column `from` on, as many as `out` has.
pub fn convolve_row(
    kernel: &Kernel,
    factor: Frac,
    border: Border,
    replace: Frac,
    plane: &Plane,
    from: u32,
    y: u32,
    out: &mut [Cell],
)
    // the box holds each position that the border rule gives
    requires windows { HasRowOfWindows kernel.now border plane.now from y (length out.old) }
    // each cell is that of the definition, for every whole plane that the box is a part of
    ensures value { IsConvolvedRow kernel.now factor border replace plane.now
        from y (length out.old) (cell_at out.new) }
    ensures amounts { (k : ℕ) → k < length out.old → IsAmount (cell_at out.new k) }
{
    let bound = bound_of(kernel);
    let count = out.len();
    convolve_strips(
        kernel, factor, &border, replace, plane, bound, from, y, 0, count, out,
    );
}
