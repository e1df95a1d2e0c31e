// The median: the cells that count are put in order in a slice that is lent.
ghost use Rattle.std.specs.Prelude.{◌≡◌, ◌≤◌, ◌<◌, List, length, take, All, IsPermutation};
ghost use Rattle.std.specs.List.Sorted.{IsSortedBy};
ghost use Rattle.oe_cell.specs.Cells.{IsCell};
ghost use Rattle.oe_cell.specs.declared.cell.Cell.{Cell};
ghost use Rattle.oe_fold.specs.Counted.{is_counted, counted_cells};
ghost use Rattle.oe_fold.specs.Value.{reduction_of};
ghost use Rattle.oe_fold.specs.Order.{is_before};
ghost use Rattle.oe_fold.specs.Progress.{IsTallyOf};
ghost use Rattle.oe_fold.specs.Reduction.{middle_of};

use crate::Reducer;
use crate::order::order;
use crate::tally::{Tally, whole};
use oe_cell::{Cell, add, divide};

/// Whether a cell counts.
fn is_counted(ignore: bool, cell: Cell) -> bool
    ensures { result ≡ is_counted ignore cell }
{
    !(ignore && matches!(cell, Cell::Empty))
}

/// Copies the cells that count to the front of the slice, and says how many they are.
fn gather(ignore: bool, cells: &[Cell], scratch: &mut [Cell]) -> usize
    requires { length cells.now ≤ length scratch.old }
    ensures within { result ≤ length scratch.new }
    ensures front { take result scratch.new ≡ counted_cells ignore cells.now }
{
    let mut n = 0;
    for cell in cells {
        if is_counted(ignore, *cell) {
            scratch[n] = *cell;
            n += 1;
        }
    }
    n
}

/// The middle of a list in order.
fn middle(cells: &[Cell]) -> Cell
    requires { 0 < length cells.now }
    ensures { result ≡ middle_of cells.now }
{
    let half = cells.len() / 2;
    if cells.len() % 2 == 1 {
        return cells[half];
    }
    divide(add(cells[half - 1], cells[half]), whole(2))
}

/// Puts the cells in order.
fn sort(cells: &mut [Cell])
    ensures same { IsPermutation cells.old cells.new }
    ensures sorted { IsSortedBy is_before cells.new }
{
    cells.sort_unstable_by(|x, y| order(*x, *y));
}

/// The middle of the cells, after they are put in order.
fn middle_in_order(cells: &mut [Cell]) -> Cell
    requires { 0 < length cells.old }
    ensures same { IsPermutation cells.old cells.new }
    ensures sorted { IsSortedBy is_before cells.new }
    ensures middle { result ≡ middle_of cells.new }
{
    sort(cells);
    middle(cells)
}

/// The middle of the cells that count, of which there is one.
fn middle_of_counted(ignore: bool, cells: &[Cell], scratch: &mut [Cell]) -> Cell
    requires some { 0 < length (counted_cells ignore cells.now) }
    requires room { length cells.now ≤ length scratch.old }
    ensures { (ordered : List Cell) × IsPermutation (counted_cells ignore cells.now) ordered
        × IsSortedBy is_before ordered × (result ≡ middle_of ordered) }
{
    let n = gather(ignore, cells, scratch);
    middle_in_order(&mut scratch[..n])
}

/// The median of the cells that a tally is of.
pub(crate) fn median(ignore: bool, tally: Tally, cells: &[Cell], scratch: &mut [Cell]) -> Cell
    requires tally { IsTallyOf Reducer.Median ignore cells.now tally }
    requires known { All IsCell cells.now }
    requires room { length cells.now ≤ length scratch.old }
    ensures { result ≡ reduction_of Reducer.Median ignore cells.now }
{
    if tally.over {
        return Cell::Over;
    }
    if tally.null {
        return Cell::Empty;
    }
    if tally.count == 0 {
        return Cell::Empty;
    }
    middle_of_counted(ignore, cells, scratch)
}
