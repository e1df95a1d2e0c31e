// Cells of several rows at once: each pixel is unpacked once for all rows of the kernel.
ghost use Rattle.std.specs.Prelude.{◌≡◌, ◌<◌, ◌≤◌, ◌+◌, ◌*◌, ℕ, length, IsTrue, IfSome};
ghost use Rattle.oe_cell.specs.Exact.{cell_of_lowest};
ghost use Rattle.oe_kernel.specs.Blocks.{cell_at, cells_from, HasBlockOfWindows, IsConvolvedBlock, IsPiece, KeepsBefore};
ghost use Rattle.oe_kernel.specs.Convolution.{IsAmount};
ghost use Rattle.oe_kernel.specs.declared.block.TheConstants.{BLOCK_PIXELS};
ghost use Rattle.oe_kernel.specs.declared.strip.TheConstants.{STRIP};
ghost use Rattle.oe_kernel.specs.Strips.{at, unpacked_sum, unpacked_cell, pixels_under, IsBoundFor, AreInRange, ArePixelsFor, HoldWindows, IsUnpackedBlock};

use crate::pixels::unpack_rows;
use crate::strip::{STRIP, convolve_strips};
use crate::sums::{add_values, bound_of, clear, write_cells};
use crate::{Border, Kernel, Plane};
use oe_cell::{Cell, Frac};

/// How many pixels are unpacked at once.
const BLOCK_PIXELS: usize = 6144;

/// The sums of windows one after the other, whose first pixels are those from `first` on, in rows of `stride` pixels.
fn sum_windows(
    kernel: &Kernel,
    bound: u64,
    pixels: &[i64],
    stride: usize,
    first: usize,
    sums: &mut [i64],
)
    requires some { 0 < length sums.old }
    requires room { HoldWindows kernel.now pixels.now stride first (length sums.old) }
    requires pixels { ArePixelsFor kernel.now.values bound pixels.now }
    ensures value { (k : ℕ) → k < length sums.old
        → cell_of_lowest (at sums.new k) 1 ≡ unpacked_sum kernel.now pixels.now stride (first + k) }
    ensures size { AreInRange sums.new }
{
    clear(sums);
    let under = sums.len() + kernel.width() as usize - 1;
    for i in 0..kernel.height() {
        let start = first + i as usize * stride;
        add_values(sums, &pixels[start..start + under], kernel.row(i), bound);
    }
}

/// The cells of a strip of windows, from the index `start` of `out` on.
fn write_strip(
    kernel: &Kernel,
    factor: Frac,
    bound: u64,
    pixels: &[i64],
    stride: usize,
    first: usize,
    start: usize,
    count: usize,
    out: &mut [Cell],
)
    requires some { 0 < count }
    requires most { count ≤ STRIP }
    requires room { HoldWindows kernel.now pixels.now stride first count }
    requires pixels { ArePixelsFor kernel.now.values bound pixels.now }
    requires end { start + count ≤ length out.old }
    ensures value { (k : ℕ) → k < count → cell_at out.new (start + k)
        ≡ unpacked_cell kernel.now factor pixels.now stride (first + k) }
    ensures before { KeepsBefore start out.old out.new }
{
    let mut sums = [0i64; STRIP];
    let strip = &mut sums[..count];
    sum_windows(kernel, bound, pixels, stride, first, strip);
    write_cells(strip, factor, start, out);
}

/// The cells of any number of windows of a row, from the index `start` of `out` on.
fn write_row(
    kernel: &Kernel,
    factor: Frac,
    bound: u64,
    pixels: &[i64],
    stride: usize,
    first: usize,
    start: usize,
    count: usize,
    out: &mut [Cell],
)
    requires room { HoldWindows kernel.now pixels.now stride first count }
    requires pixels { ArePixelsFor kernel.now.values bound pixels.now }
    requires end { start + count ≤ length out.old }
    ensures value { (k : ℕ) → k < count → cell_at out.new (start + k)
        ≡ unpacked_cell kernel.now factor pixels.now stride (first + k) }
    ensures before { KeepsBefore start out.old out.new }
{
    for strip in 0..(count + STRIP - 1) / STRIP {
        let past = strip * STRIP;
        let most = count - past;
        let some = if most < STRIP { most } else { STRIP };
        let pixel = first + past;
        let index = start + past;
        write_strip(
            kernel, factor, bound, pixels, stride, pixel, index, some, out,
        );
    }
}

/// The cells of rows of windows, `columns` of each, from the index `start` of `out` on.
fn write_rows(
    kernel: &Kernel,
    factor: Frac,
    bound: u64,
    pixels: &[i64],
    rows: usize,
    columns: usize,
    start: usize,
    out: &mut [Cell],
)
    requires room { pixels_under kernel.now rows columns ≡ length pixels.now }
    requires few_columns { columns ≤ 65536 }
    requires pixels { ArePixelsFor kernel.now.values bound pixels.now }
    requires end { start + rows * columns ≤ length out.old }
    ensures value { IsUnpackedBlock kernel.now factor pixels.now rows columns
        (cells_from out.new start) }
    ensures before { KeepsBefore start out.old out.new }
{
    let stride = columns + kernel.width() as usize - 1;
    for row in 0..rows {
        let first = row * stride;
        let index = start + row * columns;
        write_row(
            kernel, factor, bound, pixels, stride, first, index, columns, out,
        );
    }
}

/// The cells of `convolve_at` for rows from `y` on and columns from `x` on, by machine numbers, from the index `start`
/// of `out` on. False comes where a pixel is no whole number of at most a size.
fn fast_band(
    kernel: &Kernel,
    factor: Frac,
    border: &Border,
    replace: Frac,
    bound: u64,
    plane: &Plane,
    x: u32,
    y: u32,
    rows: usize,
    columns: usize,
    start: usize,
    out: &mut [Cell],
) -> bool
    requires piece { IsPiece kernel.now border.now plane.now x y rows columns start out.old }
    requires room { pixels_under kernel.now rows columns ≤ BLOCK_PIXELS }
    requires bound { IsBoundFor kernel.now.values bound }
    ensures value { IsTrue result → IsConvolvedBlock kernel.now factor border.now replace plane.now
        x y rows columns (cells_from out.new start) }
    ensures before { KeepsBefore start out.old out.new }
{
    let mut pixels = [0i64; BLOCK_PIXELS];
    let stride = columns + kernel.width() as usize - 1;
    let under = rows + kernel.height() as usize - 1;
    if !unpack_rows(
        kernel,
        border,
        replace,
        bound,
        plane,
        x,
        y,
        under,
        stride,
        &mut pixels,
    ) {
        return false;
    }
    write_rows(
        kernel,
        factor,
        bound,
        &pixels[..under * stride],
        rows,
        columns,
        start,
        out,
    );
    true
}

/// The same row by row.
fn slow_band(
    kernel: &Kernel,
    factor: Frac,
    border: &Border,
    replace: Frac,
    plane: &Plane,
    bound: Option<u64>,
    x: u32,
    y: u32,
    rows: usize,
    columns: usize,
    start: usize,
    out: &mut [Cell],
)
    requires windows { HasBlockOfWindows kernel.now border.now plane.now x y rows columns }
    requires end { start + rows * columns ≤ length out.old }
    requires bound { IfSome bound (IsBoundFor kernel.now.values) }
    ensures value { IsConvolvedBlock kernel.now factor border.now replace plane.now
        x y rows columns (cells_from out.new start) }
    ensures before { KeepsBefore start out.old out.new }
{
    for row in 0..rows {
        let index = start + row * columns;
        let at = y + row as u32;
        convolve_strips(
            kernel, factor, border, replace, plane, bound, x, at, index, columns, out,
        );
    }
}

/// The same, by machine numbers where the pixels are whole and small.
fn convolve_band(
    kernel: &Kernel,
    factor: Frac,
    border: &Border,
    replace: Frac,
    plane: &Plane,
    bound: Option<u64>,
    x: u32,
    y: u32,
    rows: usize,
    columns: usize,
    start: usize,
    out: &mut [Cell],
)
    requires piece { IsPiece kernel.now border.now plane.now x y rows columns start out.old }
    requires bound { IfSome bound (IsBoundFor kernel.now.values) }
    ensures value { IsConvolvedBlock kernel.now factor border.now replace plane.now
        x y rows columns (cells_from out.new start) }
    ensures before { KeepsBefore start out.old out.new }
{
    let stride = columns + kernel.width() as usize - 1;
    let under = rows + kernel.height() as usize - 1;
    if let Some(most) = bound {
        if under * stride <= BLOCK_PIXELS
            && fast_band(
                kernel, factor, border, replace, most, plane, x, y, rows, columns, start, out,
            )
        {
            return;
        }
    }
    slow_band(
        kernel, factor, border, replace, plane, bound, x, y, rows, columns, start, out,
    );
}

/// How many rows of cells are convolved at once, at least 1.
fn band_rows(kernel: &Kernel, columns: usize) -> usize
    requires { columns ≤ 65536 }
    ensures some { 0 < result }
{
    let stride = columns + kernel.width() as usize;
    let rows = (BLOCK_PIXELS / stride).saturating_sub(kernel.height() as usize);
    rows.max(1)
}

/// The cells of [`convolve_at`] for the pixels of `rows` rows from `y` on and `columns` columns from `x` on, row by
/// row.
pub fn convolve_block(
    kernel: &Kernel,
    factor: Frac,
    border: Border,
    replace: Frac,
    plane: &Plane,
    x: u32,
    y: u32,
    rows: u32,
    columns: u32,
    out: &mut [Cell],
)
    // the box holds each position that the border rule gives
    requires windows { HasBlockOfWindows kernel.now border plane.now x y rows columns }
    requires counted { rows * columns ≡ length out.old }
    // each cell is that of the definition, for every whole plane that the box is a part of
    ensures value { IsConvolvedBlock kernel.now factor border replace plane.now
        x y rows columns (cell_at out.new) }
    ensures amounts { (row k : ℕ) → row < rows → k < columns
        → IsAmount (cell_at out.new (row * columns + k)) }
{
    if columns == 0 {
        return;
    }
    let bound = bound_of(kernel);
    let width = columns as usize;
    let most = band_rows(kernel, width);
    let all = rows as usize;
    let mut row = 0usize;
    while row < all {
        let left = all - row;
        let band = if left < most { left } else { most };
        let at = y + row as u32;
        let start = row * width;
        convolve_band(
            kernel, factor, &border, replace, plane, bound, x, at, band, width, start, out,
        );
        row += band;
    }
}
