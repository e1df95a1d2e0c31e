// One row of the window: its products, added from the left.
ghost use Rattle.std.specs.Prelude.{◌≡◌, ◌<◌, ◌≤◌, ◌+◌, length, IfSome};
ghost use Rattle.oe_cell.specs.Exact.{cell_of_lowest};
ghost use Rattle.oe_cell.specs.declared.cell.Cell.{Cell};
ghost use Rattle.oe_kernel.specs.Kernels.{largest_size};
ghost use Rattle.oe_kernel.specs.Convolution.{pixel_number, border_number, row_added, reach, CoversWindow, IsPositionIn};
ghost use Rattle.oe_kernel.specs.Rows.{beside, bordered, in_row, pixel_in, IsWindowOn};
ghost use Rattle.oe_kernel.specs.Totals.{total_of};

use crate::Border;
use crate::border::index_of;
use crate::total::{Total, whole, whole_sum, with_product};
use oe_cell::{Cell, Frac};

/// The position that lies so many after the first of a window of this size, whose middle is at a position.
pub(crate) fn reach(at: u32, after: usize, size: usize) -> i64
    requires most { after ≤ 65536 }
    requires some { 0 < size }
    requires size_most { size ≤ largest_size }
    ensures { result ≡ reach at after size }
{
    i64::from(at) + after as i64 - ((size - 1) / 2) as i64
}

/// What a pixel counts as: a null as the replacement, true as 1 and false as 0.
pub(crate) fn as_number(pixel: Cell, replace: Frac) -> Cell
    ensures { result ≡ pixel_number replace pixel }
{
    match pixel {
        Cell::Empty => Cell::Number(replace),
        Cell::Flag(flag) => whole(i64::from(flag)),
        _ => pixel,
    }
}

/// The sum of the products from the first on, as long as it is whole, and how many of them it has.
fn whole_run(sum: i64, values: &[Frac], pixels: &[Cell], replace: Frac) -> (i64, usize)
    requires { length values.now ≡ length pixels.now }
    ensures within { result.1 ≤ length values.now }
    ensures value { cell_of_lowest result.0 1
        ≡ row_added (beside values.now pixels.now replace) result.1 (cell_of_lowest sum 1) }
{
    let mut total = sum;
    for i in 0..values.len() {
        match whole_sum(total, values[i], &as_number(pixels[i], replace)) {
            Some(next) => total = next,
            None => return (total, i),
        }
    }
    (total, values.len())
}

/// The total of the products before an index, and those from there on.
fn with_rest(total: Total, values: &[Frac], pixels: &[Cell], replace: Frac, index: usize) -> Total
    requires same_length { length values.now ≡ length pixels.now }
    requires within { index ≤ length values.now }
    ensures { (start : Cell) → total_of total
        ≡ row_added (beside values.now pixels.now replace) index start → total_of result
        ≡ row_added (beside values.now pixels.now replace) (length values.now) start }
{
    let mut sum = total;
    for i in index..values.len() {
        sum = with_product(sum, values[i], as_number(pixels[i], replace));
    }
    sum
}

/// The pixels that stand beside the values: as machine numbers as long as they and their sum are whole.
fn with_slice(total: Total, values: &[Frac], pixels: &[Cell], replace: Frac) -> Total
    requires { length values.now ≡ length pixels.now }
    ensures { total_of result
        ≡ row_added (beside values.now pixels.now replace) (length values.now) (total_of total) }
{
    match total {
        Total::Whole(sum) => {
            let (sum, index) = whole_run(sum, values, pixels, replace);
            with_rest(Total::Whole(sum), values, pixels, replace, index)
        }
        Total::Other(sum) => with_rest(Total::Other(sum), values, pixels, replace, 0),
    }
}

/// Every pixel of the row is outside.
pub(crate) fn with_border(total: Total, values: &[Frac], border: &Border) -> Total
    ensures { total_of result
        ≡ row_added (bordered values.now border.now) (length values.now) (total_of total) }
{
    let mut sum = total;
    for i in 0..values.len() {
        sum = with_product(sum, values[i], border_cell(border));
    }
    sum
}

/// Each pixel by the border rule.
fn with_positions(
    total: Total,
    values: &[Frac],
    border: &Border,
    replace: Frac,
    pixels: &[Cell],
    from: u32,
    side: u32,
    x: u32,
) -> Total
    requires window { IsWindowOn side x (length values.now) }
    requires held { CoversWindow border.now x (length values.now) side from
        (from + length pixels.now) }
    ensures { total_of result
        ≡ row_added (in_row values.now border.now replace pixels.now from side x)
        (length values.now) (total_of total) }
{
    let mut sum = total;
    for i in 0..values.len() {
        let at = reach(x, i, values.len());
        let pixel = pixel_at(border, replace, pixels, from, index_of(border, at, side));
        sum = with_product(sum, values[i], pixel);
    }
    sum
}

/// The pixel of the column that a border rule gave, or what stands outside where it gave none.
pub(crate) fn pixel_at(
    border: &Border,
    replace: Frac,
    pixels: &[Cell],
    from: u32,
    column: Option<u32>,
) -> Cell
    requires { IfSome column (IsPositionIn from (from + length pixels.now)) }
    ensures { result ≡ pixel_in border.now replace pixels.now from column }
{
    match column {
        Some(column) => as_number(pixels[(column - from) as usize], replace),
        None => border_cell(border),
    }
}

/// The number that stands for each pixel outside. The rules that give a position for each have none.
pub(crate) fn border_cell(border: &Border) -> Cell
    ensures { result ≡ border_number border.now }
{
    match border {
        Border::Value(number) => Cell::Number(*number),
        _ => Cell::Empty,
    }
}

/// A row of the box, which begins at a column: as a slice where the window lies within the side.
pub(crate) fn with_row(
    total: Total,
    values: &[Frac],
    border: &Border,
    replace: Frac,
    pixels: &[Cell],
    from: u32,
    side: u32,
    x: u32,
) -> Total
    requires window { IsWindowOn side x (length values.now) }
    requires held { CoversWindow border.now x (length values.now) side from
        (from + length pixels.now) }
    ensures { total_of result
        ≡ row_added (in_row values.now border.now replace pixels.now from side x)
        (length values.now) (total_of total) }
{
    let radius = (values.len() as u32 - 1) / 2;
    if x < radius || side - x < values.len() as u32 - radius {
        return with_positions(total, values, border, replace, pixels, from, side, x);
    }
    let first = (x - radius - from) as usize;
    with_slice(total, values, &pixels[first..first + values.len()], replace)
}
