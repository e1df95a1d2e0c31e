// Sums of whole pixels, in machine numbers that have room for them.
ghost use Rattle.std.specs.Prelude.{◌≡◌, ◌<◌, ◌≤◌, ◌+◌, ◌*◌, ◌^◌, ℕ, pos, ◌+ℤ◌, ◌*ℤ◌, length, unsigned_abs, IfSome};
ghost use Rattle.oe_cell.specs.Exact.{cell_of_lowest};
ghost use Rattle.oe_cell.specs.Operations.{multiply_of};
ghost use Rattle.oe_cell.specs.declared.cell.Cell.TheVariants.{Number};
ghost use Rattle.oe_kernel.specs.Blocks.{cell_at, KeepsBefore};
ghost use Rattle.oe_kernel.specs.Convolution.{row_added};
ghost use Rattle.oe_kernel.specs.Strips.{at, weight_of, times_pixel, AreInRange, AreWhole, AreWithin, IsBoundFor};

use crate::Kernel;
use oe_cell::{Cell, Frac, multiply, whole_cell};

/// The largest number of a cell, 2^63 − 1.
const LARGEST_NUMBER: u64 = 9223372036854775807;

/// How large whole pixels may be, so that no sum of their products with the kernel's values passes 63 bits. None comes
/// where a value is not whole, or their sizes add up to more.
pub(crate) fn bound_of(kernel: &Kernel) -> Option<u64>
    ensures { IfSome result (IsBoundFor kernel.now.values) }
{
    let values = kernel.values();
    let mut weight = 0u64;
    for j in 0..values.len() {
        if values[j].den() != 1 {
            return None;
        }
        weight = weight.checked_add(values[j].num().unsigned_abs())?;
    }
    if weight == 0 {
        return Some(LARGEST_NUMBER);
    }
    Some(LARGEST_NUMBER / weight)
}

/// Sets each sum to 0.
pub(crate) fn clear(sums: &mut [i64])
    ensures { (k : ℕ) → k < length sums.old → at sums.new k ≡ pos 0 }
{
    for k in 0..sums.len() {
        sums[k] = 0;
    }
}

/// Adds each pixel to the sum at its index.
fn add_pixels(sums: &mut [i64], pixels: &[i64])
    requires same { length sums.old ≡ length pixels.now }
    requires fits { (k : ℕ) → k < length sums.old
        → unsigned_abs (at sums.old k) + unsigned_abs (at pixels.now k) < 2 ^ 63 }
    ensures { (k : ℕ) → k < length sums.old → at sums.new k ≡ at sums.old k +ℤ at pixels.now k }
{
    for k in 0..sums.len() {
        sums[k] += pixels[k];
    }
}

/// Adds a weight times each pixel to the sum at its index.
fn add_products(sums: &mut [i64], pixels: &[i64], weight: i64)
    requires same { length sums.old ≡ length pixels.now }
    requires fits { (k : ℕ) → k < length sums.old
        → unsigned_abs (at sums.old k) + unsigned_abs weight * unsigned_abs (at pixels.now k)
        < 2 ^ 63 }
    ensures { (k : ℕ) → k < length sums.old → at sums.new k
        ≡ at sums.old k +ℤ weight *ℤ at pixels.now k }
{
    for k in 0..sums.len() {
        sums[k] += weight * pixels[k];
    }
}

/// Adds a weight times each pixel: nothing for a weight of 0, and without a product for a weight of 1.
fn add_weighted(sums: &mut [i64], pixels: &[i64], weight: i64)
    requires same { length sums.old ≡ length pixels.now }
    requires fits { (k : ℕ) → k < length sums.old
        → unsigned_abs (at sums.old k) + unsigned_abs weight * unsigned_abs (at pixels.now k)
        < 2 ^ 63 }
    ensures { (k : ℕ) → k < length sums.old → at sums.new k
        ≡ at sums.old k +ℤ weight *ℤ at pixels.now k }
{
    if weight == 0 {
        return;
    }
    if weight == 1 {
        add_pixels(sums, pixels);
        return;
    }
    add_products(sums, pixels, weight);
}

/// Adds the products of a kernel's row: to the sum at `k` each value times the pixel as many columns after `k`.
pub(crate) fn add_values(sums: &mut [i64], pixels: &[i64], values: &[Frac], bound: u64)
    requires same { length pixels.now + 1 ≡ length sums.old + length values.now }
    requires whole { AreWhole values.now }
    requires within { AreWithin pixels.now bound }
    requires fits { (k : ℕ) → k < length sums.old
        → unsigned_abs (at sums.old k) + weight_of values.now 0 (length values.now) * bound
        < 2 ^ 63 }
    ensures value { (k : ℕ) → k < length sums.old → cell_of_lowest (at sums.new k) 1
        ≡ row_added (times_pixel values.now pixels.now k) (length values.now)
        (cell_of_lowest (at sums.old k) 1) }
    ensures size { (k : ℕ) → k < length sums.old
        → unsigned_abs (at sums.new k)
        ≤ unsigned_abs (at sums.old k) + weight_of values.now 0 (length values.now) * bound }
{
    let _bound = bound;
    for j in 0..values.len() {
        add_weighted(sums, &pixels[j..j + sums.len()], values[j].num());
    }
}

/// The cell of a sum, times the factor, which is left out where it is 1.
fn scale(sum: i64, factor: Frac) -> Cell
    requires { unsigned_abs sum < 2 ^ 63 }
    ensures { result ≡ multiply_of (cell_of_lowest sum 1) (Number factor) }
{
    let cell = whole_cell(sum);
    if factor.den() == 1 && factor.num() == 1 {
        return cell;
    }
    multiply(cell, Cell::Number(factor))
}

/// Writes the cell of each sum times the factor, from the index `start` of `out` on.
pub(crate) fn write_cells(sums: &[i64], factor: Frac, start: usize, out: &mut [Cell])
    requires end { start + length sums.now ≤ length out.old }
    requires size { AreInRange sums.now }
    ensures value { (k : ℕ) → k < length sums.now → cell_at out.new (start + k)
        ≡ multiply_of (cell_of_lowest (at sums.now k) 1) (Number factor) }
    ensures before { KeepsBefore start out.old out.new }
{
    for k in 0..sums.len() {
        out[start + k] = scale(sums[k], factor);
    }
}
