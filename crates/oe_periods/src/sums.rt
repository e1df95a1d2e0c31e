// Running sums of a row of pixels.
ghost use Rattle.std.specs.Prelude.{◌≡◌, ◌<◌, ◌++◌, ◌∷◌, [], ℕ, Bool, List, if◌then◌else◌, length, slice_index_or, true};
ghost use Rattle.oe_cell.specs.declared.cell.Cell.{Cell};
ghost use Rattle.oe_cell.specs.Kinds.{is_empty};
ghost use Rattle.oe_cell.specs.declared.cell.Cell.TheVariants.{Empty, Flag};
ghost use Rattle.oe_periods.specs.Sums.{HasSummed, HasSummedAt, IsSumOf, running_sum};

use oe_cell::{Cell, add};

// Two cells keep what is known of a pixel's cells so far. The first is the left fold of `add` over those that are not
// null, and null where there is none. The second says whether the fold decides at all: Over where a cell was Over, a
// flag where the running sum stays null (a null counts, or flags were added), else null.

/// Before the first cell of each pixel.
pub fn begin_sums(sums: &mut [Cell], marks: &mut [Cell])
    requires { length marks.old ≡ length sums.old }
    ensures { (k : ℕ) → k < length sums.new → (ignore : Bool)
        → HasSummedAt ignore [] sums.new marks.new k }
{
    sums.fill(Cell::Empty);
    marks.fill(Cell::Empty);
}

/// Takes one more cell of each pixel, which stands behind those before it in the order of `t`.
pub fn add_cells(ignore: bool, cells: &[Cell], sums: &mut [Cell], marks: &mut [Cell])
    requires sums { length sums.old ≡ length cells.now }
    requires marks { length marks.old ≡ length cells.now }
    ensures { (k : ℕ) → k < length cells.now → (before : List Cell)
        → HasSummedAt ignore before sums.old marks.old k → HasSummedAt ignore
        (before ++ slice_index_or cells.now k Empty ∷ []) sums.new marks.new k }
{
    for index in 0..cells.len() {
        let (sum, mark) = next(ignore, cells[index], sums[index], marks[index]);
        sums[index] = sum;
        marks[index] = mark;
    }
}

/// The two cells of a pixel with one more of its cells.
fn next(ignore: bool, cell: Cell, sum: Cell, mark: Cell) -> (Cell, Cell)
    ensures { (before : List Cell) → HasSummed ignore before sum mark
        → HasSummed ignore (before ++ cell ∷ []) result.0 result.1 }
{
    match mark {
        Cell::Empty => sum_next(ignore, cell, sum),
        _ => match cell {
            Cell::Over => (sum, cell),
            _ => (sum, mark),
        },
    }
}

/// The same, where nothing but the sum decides so far.
fn sum_next(ignore: bool, cell: Cell, sum: Cell) -> (Cell, Cell)
    ensures { (before : List Cell) → IsSumOf ignore before sum
        → HasSummed ignore (before ++ cell ∷ []) result.0 result.1 }
{
    match cell {
        Cell::Over => (sum, Cell::Over),
        Cell::Empty => (sum, null_mark(ignore)),
        _ => match sum {
            Cell::Empty => (cell, Cell::Empty),
            _ => with_mark(add(sum, cell)),
        },
    }
}

/// The mark behind a null: where nulls count, the running sum stays null.
fn null_mark(ignore: bool) -> Cell
    ensures { result ≡ (if ignore then Empty else Flag true) }
{
    if ignore {
        Cell::Empty
    } else {
        Cell::Flag(true)
    }
}

/// A sum that a cell was added to, with its mark.
fn with_mark(sum: Cell) -> (Cell, Cell)
    ensures sum { result.0 ≡ sum }
    ensures mark { result.1 ≡ (if is_empty sum then Flag true else Empty) }
{
    match sum {
        Cell::Empty => (sum, Cell::Flag(true)),
        _ => (sum, Cell::Empty),
    }
}

/// The running sum of each pixel at the cell that was taken last (openEO Processes, `cumsum`).
pub fn write_sums(cells: &[Cell], sums: &[Cell], marks: &[Cell], out: &mut [Cell])
    requires sums { length sums.now ≡ length cells.now }
    requires marks { length marks.now ≡ length cells.now }
    requires out { length out.old ≡ length cells.now }
    ensures { (k : ℕ) → k < length cells.now → (ignore : Bool) (before : List Cell)
        → HasSummedAt ignore (before ++ slice_index_or cells.now k Empty ∷ []) sums.now marks.now k
        → slice_index_or out.new k Empty
        ≡ running_sum ignore before (slice_index_or cells.now k Empty) }
{
    for index in 0..cells.len() {
        out[index] = value_at(cells[index], sums[index], marks[index]);
    }
}

/// The running sum at a cell, from the two cells of its pixel.
fn value_at(cell: Cell, sum: Cell, mark: Cell) -> Cell
    ensures { (ignore : Bool) (before : List Cell) → HasSummed ignore (before ++ cell ∷ []) sum mark
        → result ≡ running_sum ignore before cell }
{
    match mark {
        Cell::Over => Cell::Over,
        Cell::Empty => match sum {
            Cell::Over => Cell::Over,
            _ => match cell {
                Cell::Empty => Cell::Empty,
                _ => sum,
            },
        },
        _ => Cell::Empty,
    }
}
