// Reductions of many columns at once, row by row.
ghost use Rattle.std.specs.Prelude.{true, false, ◌≡◌, ◌≢◌, ◌≤◌, ◌<◌, ◌+◌, ◌*◌, ◌^◌, ℕ, Bool, List, length, All};
ghost use Rattle.std.specs.List.{slice_index_or};
ghost use Rattle.oe_cell.specs.Cells.{IsCell};
ghost use Rattle.oe_cell.specs.Kinds.{IsNumeric, IsLogical};
ghost use Rattle.oe_cell.specs.declared.cell.Cell.{Cell};
ghost use Rattle.oe_cell.specs.declared.cell.Cell.TheVariants.{Empty};
ghost use Rattle.oe_fold.specs.Columns.{AreReduced, HasColumns, KeepsKind, column};
ghost use Rattle.oe_fold.specs.Value.{reduction_of};
ghost use Rattle.oe_fold.specs.Progress.{skips_nulls, step_of, no_cells, IsTallyOf};
ghost use Rattle.oe_fold.specs.Reduction.{is_count};

use crate::tally::{Tally, settle, skips_nulls, start, step};
use crate::{Reducer, fold};
use oe_cell::Cell;

/// How many columns are reduced at once.
const BLOCK: usize = 64;

/// The reductions of columns, as [`fold`] gives them: `out[k]` is the one of the `count` cells `cells[k]`,
/// `cells[k + stride]`, `cells[k + 2 * stride]` and so on, which stand in label order.
///
/// A row's cells stand one behind the other, and each row begins `stride` cells, at least one, after the one before it.
/// The last of the `count` rows, where there is one, has a cell for each column. `scratch` is used by the median alone,
/// which needs twice `count` cells.
pub fn fold_columns(
    reducer: Reducer,
    ignore: bool,
    cells: &[Cell],
    stride: usize,
    count: usize,
    out: &mut [Cell],
    scratch: &mut [Cell],
)
    requires columns { HasColumns cells.now stride count (length out.old) }
    requires room { reducer ≡ Reducer.Median → 2 * count ≤ length scratch.old }
    // the reduction of each column
    ensures reduced { AreReduced reducer ignore cells.now stride count (length out.old) out.new }
    // its kind: that of the column, if it has one, and for the two counts a number
    ensures cell { (k : ℕ) → k < length out.old → IsCell (slice_index_or out.new k Empty) }
    ensures numeric { KeepsKind IsNumeric cells.now stride count (length out.old) out.new }
    ensures logical { is_count reducer ≡ false
        → KeepsKind IsLogical cells.now stride count (length out.old) out.new }
    ensures counts { is_count reducer ≡ true → (k : ℕ) → k < length out.old
        → IsNumeric (slice_index_or out.new k Empty) }
{
    reduce_columns(reducer, ignore, cells, stride, count, out, scratch);
}

/// The reductions, one column after the other or row by row.
fn reduce_columns(
    reducer: Reducer,
    ignore: bool,
    cells: &[Cell],
    stride: usize,
    count: usize,
    out: &mut [Cell],
    scratch: &mut [Cell],
)
    requires columns { HasColumns cells.now stride count (length out.old) }
    requires room { reducer ≡ Reducer.Median → 2 * count ≤ length scratch.old }
    ensures reduced { AreReduced reducer ignore cells.now stride count (length out.old) out.new }
    ensures cell { (k : ℕ) → k < length out.old → IsCell (slice_index_or out.new k Empty) }
{
    match reducer {
        Reducer::Median => fold_each(reducer, ignore, cells, stride, count, out, scratch),
        _ => fold_blocks(reducer, ignore, cells, stride, count, out),
    }
}

/// Copies a column.
fn copy_column(cells: &[Cell], stride: usize, k: usize, list: &mut [Cell])
    requires { 0 < length list.old → length list.old * stride + k < length cells.now + stride }
    ensures { list.new ≡ column cells.now stride (length list.old) k }
{
    for t in 0..list.len() {
        list[t] = cells[t * stride + k];
    }
}

/// One column after the other.
fn fold_each(
    reducer: Reducer,
    ignore: bool,
    cells: &[Cell],
    stride: usize,
    count: usize,
    out: &mut [Cell],
    scratch: &mut [Cell],
)
    requires rows { 0 < count → count * stride + length out.old ≤ length cells.now + stride }
    requires room { 2 * count ≤ length scratch.old }
    ensures reduced { AreReduced reducer ignore cells.now stride count (length out.old) out.new }
    ensures cell { (k : ℕ) → k < length out.old → IsCell (slice_index_or out.new k Empty) }
{
    let (list, rest) = scratch.split_at_mut(count);
    for k in 0..out.len() {
        copy_column(cells, stride, k, list);
        out[k] = fold(reducer, ignore, list, rest);
    }
}

/// Row by row, a block of columns at once.
fn fold_blocks(
    reducer: Reducer,
    ignore: bool,
    cells: &[Cell],
    stride: usize,
    count: usize,
    out: &mut [Cell],
)
    requires other { reducer ≢ Reducer.Median }
    requires columns { HasColumns cells.now stride count (length out.old) }
    ensures reduced { AreReduced reducer ignore cells.now stride count (length out.old) out.new }
    ensures cell { (k : ℕ) → k < length out.old → IsCell (slice_index_or out.new k Empty) }
{
    let mut from = 0;
    while from < out.len() {
        let n = BLOCK.min(out.len() - from);
        fold_block(reducer, ignore, cells, stride, count, from, n, out);
        from += n;
    }
}

/// The `n` columns from `from` on.
fn fold_block(
    reducer: Reducer,
    ignore: bool,
    cells: &[Cell],
    stride: usize,
    count: usize,
    from: usize,
    n: usize,
    out: &mut [Cell],
)
    requires other { reducer ≢ Reducer.Median }
    requires few { n ≤ 64 }
    requires within { from + n ≤ length out.old }
    requires columns { HasColumns cells.now stride count (from + n) }
    ensures reduced { (k : ℕ) → k < n → slice_index_or out.new (from + k) Empty
        ≡ reduction_of reducer ignore (column cells.now stride count (from + k)) }
    ensures cell { (k : ℕ) → k < n → IsCell (slice_index_or out.new (from + k) Empty) }
    ensures before { (k : ℕ) → k < from
        → slice_index_or out.new k Empty ≡ slice_index_or out.old k Empty }
{
    let mut tallies = [start(); BLOCK];
    scan_rows(reducer, ignore, cells, stride, count, from, n, &mut tallies);
    settle_row(reducer, &tallies, from, n, out);
}

/// Takes each row into the tallies of its columns.
fn scan_rows(
    reducer: Reducer,
    ignore: bool,
    cells: &[Cell],
    stride: usize,
    count: usize,
    from: usize,
    n: usize,
    tallies: &mut [Tally],
)
    requires within { n ≤ length tallies.old }
    requires none { (k : ℕ) → k < n → slice_index_or tallies.old k no_cells ≡ no_cells }
    requires columns { HasColumns cells.now stride count (from + n) }
    ensures tally { (k : ℕ) → k < n
        → IsTallyOf reducer (skips_nulls reducer ignore) (column cells.now stride count (from + k))
        (slice_index_or tallies.new k no_cells) }
    ensures known { (k : ℕ) → k < n → All IsCell (column cells.now stride count (from + k)) }
    ensures few { (k : ℕ) → k < n → (slice_index_or tallies.new k no_cells).count ≤ count }
{
    let skips = skips_nulls(reducer, ignore);
    for t in 0..count {
        let first = t * stride + from;
        push_row(reducer, skips, &cells[first..first + n], tallies);
    }
}

/// Takes one more cell into each tally, by a loop of its own for each reducer.
fn push_row(reducer: Reducer, skips: bool, row: &[Cell], tallies: &mut [Tally])
    requires within { length row.now ≤ length tallies.old }
    requires room { (k : ℕ) → k < length row.now
        → (slice_index_or tallies.old k no_cells).count + 1 < 2 ^ 64 }
    ensures value { (k : ℕ) → k < length row.now → slice_index_or tallies.new k no_cells
        ≡ step_of reducer skips
        (slice_index_or tallies.old k no_cells) (slice_index_or row.now k Empty) }
    ensures known { All IsCell row.now }
{
    match reducer {
        Reducer::Sum => push_each(Reducer::Sum, skips, row, tallies),
        Reducer::Product => push_each(Reducer::Product, skips, row, tallies),
        Reducer::Mean => push_each(Reducer::Mean, skips, row, tallies),
        Reducer::Min => push_each(Reducer::Min, skips, row, tallies),
        Reducer::Max => push_each(Reducer::Max, skips, row, tallies),
        Reducer::Median => push_each(Reducer::Median, skips, row, tallies),
        Reducer::First => push_each(Reducer::First, skips, row, tallies),
        Reducer::Last => push_each(Reducer::Last, skips, row, tallies),
        Reducer::Any => push_each(Reducer::Any, skips, row, tallies),
        Reducer::All => push_each(Reducer::All, skips, row, tallies),
        Reducer::Count => push_each(Reducer::Count, skips, row, tallies),
        Reducer::CountAll => push_each(Reducer::CountAll, skips, row, tallies),
    }
}

/// Takes one more cell into each tally. It stands inline in its callers, which each name one reducer.
#[inline(always)]
fn push_each(reducer: Reducer, skips: bool, row: &[Cell], tallies: &mut [Tally])
    requires within { length row.now ≤ length tallies.old }
    requires room { (k : ℕ) → k < length row.now
        → (slice_index_or tallies.old k no_cells).count + 1 < 2 ^ 64 }
    ensures value { (k : ℕ) → k < length row.now → slice_index_or tallies.new k no_cells
        ≡ step_of reducer skips
        (slice_index_or tallies.old k no_cells) (slice_index_or row.now k Empty) }
    ensures known { All IsCell row.now }
{
    for k in 0..row.len() {
        step(reducer, skips, &mut tallies[k], &row[k]);
    }
}

/// Writes what the reducer makes of each tally.
fn settle_row(reducer: Reducer, tallies: &[Tally], from: usize, n: usize, out: &mut [Cell])
    requires other { reducer ≢ Reducer.Median }
    requires within { n ≤ length tallies.now }
    requires room { from + n ≤ length out.old }
    requires few { (k : ℕ) → k < n → (slice_index_or tallies.now k no_cells).count < 2 ^ 63 }
    ensures value { (k : ℕ) → k < n → (ignore : Bool) → (cells : List Cell)
        → IsTallyOf reducer (skips_nulls reducer ignore) cells
        (slice_index_or tallies.now k no_cells)
        → All IsCell cells
        → slice_index_or out.new (from + k) Empty ≡ reduction_of reducer ignore cells }
    ensures cell { (k : ℕ) → k < n → IsCell (slice_index_or out.new (from + k) Empty) }
    ensures before { (k : ℕ) → k < from
        → slice_index_or out.new k Empty ≡ slice_index_or out.old k Empty }
{
    for k in 0..n {
        out[from + k] = settle(reducer, tallies[k]);
    }
}
