// Pixels of a plane as whole machine numbers.
ghost use Rattle.std.specs.Prelude.{◌≡◌, ◌<◌, ◌≤◌, ◌+◌, ◌*◌, ℕ, length, unsigned_abs, IsTrue, IfSome};
ghost use Rattle.oe_cell.specs.Rational.{whole_of};
ghost use Rattle.oe_cell.specs.declared.cell.Cell.TheVariants.{Number};
ghost use Rattle.oe_kernel.specs.Blocks.{cell_at};
ghost use Rattle.oe_kernel.specs.Convolution.{pixel_number, border_number};
ghost use Rattle.oe_kernel.specs.Rows.{pixel_along};
ghost use Rattle.oe_kernel.specs.Strips.{at, pixel_from, AreNumbersOf, AreWithinFrom, HasPixels, HasRowOfPixels};

use crate::border::index_of;
use crate::plane::box_row;
use crate::rows::{as_number, border_cell, pixel_at, reach};
use crate::{Border, Kernel, Plane};
use oe_cell::{Cell, Frac};

/// The number, where it is whole and of at most a size.
fn whole_number(number: Frac, bound: u64) -> Option<i64>
    ensures value { IfSome result (λ whole. number ≡ whole_of whole) }
    ensures within { IfSome result (λ whole. unsigned_abs whole ≤ bound) }
{
    if number.den() != 1 || number.num().unsigned_abs() > bound {
        return None;
    }
    Some(number.num())
}

/// The number of a cell, where it is whole and of at most a size.
fn whole_in(cell: &Cell, bound: u64) -> Option<i64>
    ensures value { IfSome result (λ whole. cell.now ≡ Number (whole_of whole)) }
    ensures within { IfSome result (λ whole. unsigned_abs whole ≤ bound) }
{
    match cell {
        Cell::Number(number) => whole_number(*number, bound),
        _ => None,
    }
}

/// What a null or a flag counts as, where that is a whole number of at most a size.
#[cold]
#[inline(never)]
fn other_pixel(pixel: &Cell, replace: Frac, bound: u64) -> Option<i64>
    ensures value { IfSome result
        (λ whole. pixel_number replace pixel.now ≡ Number (whole_of whole)) }
    ensures within { IfSome result (λ whole. unsigned_abs whole ≤ bound) }
{
    let cell = as_number(*pixel, replace);
    whole_in(&cell, bound)
}

/// What a pixel counts as, where that is a whole number of at most a size.
fn whole_pixel(pixel: &Cell, replace: Frac, bound: u64) -> Option<i64>
    ensures value { IfSome result
        (λ whole. pixel_number replace pixel.now ≡ Number (whole_of whole)) }
    ensures within { IfSome result (λ whole. unsigned_abs whole ≤ bound) }
{
    match pixel {
        Cell::Number(number) => whole_number(*number, bound),
        _ => other_pixel(pixel, replace, bound),
    }
}

/// Takes the cells as whole numbers of at most a size, from the index `start` of `pixels` on. False comes where one is
/// none.
fn unpack(cells: &[Cell], replace: Frac, bound: u64, pixels: &mut [i64], start: usize) -> bool
    requires room { start + length cells.now ≤ length pixels.old }
    ensures value { IsTrue result → AreNumbersOf (λ t. pixel_number replace (cell_at cells.now t))
        start (length cells.now) pixels.new }
    ensures within { IsTrue result → AreWithinFrom bound start (length cells.now) pixels.new }
    ensures before { (n : ℕ) → n < start → at pixels.new n ≡ at pixels.old n }
{
    for t in 0..cells.len() {
        match whole_pixel(&cells[t], replace, bound) {
            Some(number) => pixels[start + t] = number,
            None => return false,
        }
    }
    true
}

/// Takes the border's number for each of `count` pixels, where it is a whole number of at most a size.
fn unpack_border(
    border: &Border,
    bound: u64,
    pixels: &mut [i64],
    start: usize,
    count: usize,
) -> bool
    requires room { start + count ≤ length pixels.old }
    ensures value { IsTrue result → AreNumbersOf (λ t. border_number border.now) start count
        pixels.new }
    ensures within { IsTrue result → AreWithinFrom bound start count pixels.new }
    ensures before { (n : ℕ) → n < start → at pixels.new n ≡ at pixels.old n }
{
    let cell = border_cell(border);
    match whole_in(&cell, bound) {
        Some(number) => {
            for t in 0..count {
                pixels[start + t] = number;
            }
            true
        }
        None => false,
    }
}

/// Takes `count` pixels of a row of the box, each by the border rule, from the first of the window around column `x`
/// on. False comes where one is no whole number of at most a size.
fn unpack_each(
    border: &Border,
    replace: Frac,
    bound: u64,
    cells: &[Cell],
    from: u32,
    side: u32,
    x: u32,
    size: usize,
    pixels: &mut [i64],
    start: usize,
    count: usize,
) -> bool
    requires pixels { HasPixels border.now side x size count from (from + length cells.now) }
    requires room { start + count ≤ length pixels.old }
    ensures value { IsTrue result → AreNumbersOf
        (pixel_along border.now replace cells.now from side x size) start count pixels.new }
    ensures within { IsTrue result → AreWithinFrom bound start count pixels.new }
    ensures before { (n : ℕ) → n < start → at pixels.new n ≡ at pixels.old n }
{
    for t in 0..count {
        let at = reach(x, t, size);
        let pixel = pixel_at(border, replace, cells, from, index_of(border, at, side));
        match whole_in(&pixel, bound) {
            Some(number) => pixels[start + t] = number,
            None => return false,
        }
    }
    true
}

/// Takes `count` pixels of a row of the box, from the first of the window around column `x` on: as they stand where
/// none of them is outside the side.
fn unpack_columns(
    border: &Border,
    replace: Frac,
    bound: u64,
    cells: &[Cell],
    from: u32,
    side: u32,
    x: u32,
    size: usize,
    pixels: &mut [i64],
    start: usize,
    count: usize,
) -> bool
    requires pixels { HasPixels border.now side x size count from (from + length cells.now) }
    requires some { 0 < count }
    requires room { start + count ≤ length pixels.old }
    ensures value { IsTrue result → AreNumbersOf
        (pixel_along border.now replace cells.now from side x size) start count pixels.new }
    ensures within { IsTrue result → AreWithinFrom bound start count pixels.new }
    ensures before { (n : ℕ) → n < start → at pixels.new n ≡ at pixels.old n }
{
    let radius = (size - 1) / 2;
    let column = x as usize;
    if column < radius || side as usize + radius < column + count {
        return unpack_each(
            border, replace, bound, cells, from, side, x, size, pixels, start, count,
        );
    }
    let first = column - radius - from as usize;
    unpack(&cells[first..first + count], replace, bound, pixels, start)
}

/// Takes `count` pixels of the plane from the first of the window around column `x` on, in the row that lies `row`
/// rows after the first of the window around row `y`. False comes where one is no whole number of at most a size.
pub(crate) fn unpack_row(
    kernel: &Kernel,
    border: &Border,
    replace: Frac,
    bound: u64,
    plane: &Plane,
    x: u32,
    y: u32,
    row: usize,
    pixels: &mut [i64],
    start: usize,
    count: usize,
) -> bool
    requires pixels { HasRowOfPixels kernel.now border.now plane.now x y row count }
    requires room { start + count ≤ length pixels.old }
    ensures value { IsTrue result → AreNumbersOf
        (pixel_from kernel.now border.now replace plane.now y x row) start count pixels.new }
    ensures within { IsTrue result → AreWithinFrom bound start count pixels.new }
    ensures before { (n : ℕ) → n < start → at pixels.new n ≡ at pixels.old n }
{
    let at = reach(y, row, kernel.height() as usize);
    match index_of(border, at, plane.side_y) {
        None => unpack_border(border, bound, pixels, start, count),
        Some(index) => unpack_columns(
            border,
            replace,
            bound,
            box_row(plane, index),
            plane.from_x,
            plane.side_x,
            x,
            kernel.width() as usize,
            pixels,
            start,
            count,
        ),
    }
}

/// Takes the pixels of `rows` rows of the plane, `stride` of each, from the first of the window around row `y` and
/// column `x` on. False comes where one is no whole number of at most a size.
pub(crate) fn unpack_rows(
    kernel: &Kernel,
    border: &Border,
    replace: Frac,
    bound: u64,
    plane: &Plane,
    x: u32,
    y: u32,
    rows: usize,
    stride: usize,
    pixels: &mut [i64],
) -> bool
    requires pixels { (row : ℕ) → row < rows
        → HasRowOfPixels kernel.now border.now plane.now x y row stride }
    requires room { rows * stride ≤ length pixels.old }
    ensures value { IsTrue result → (row t : ℕ) → row < rows → t < stride
        → pixel_from kernel.now border.now replace plane.now y x row t
        ≡ Number (whole_of (at pixels.new (row * stride + t))) }
    ensures within { IsTrue result → (n : ℕ) → n < rows * stride → unsigned_abs (at pixels.new n)
        ≤ bound }
{
    for row in 0..rows {
        let start = row * stride;
        if !unpack_row(
            kernel, border, replace, bound, plane, x, y, row, pixels, start, stride,
        ) {
            return false;
        }
    }
    true
}
