// Cells and fractions.
ghost use Rattle.std.specs.Prelude.{◌≡◌, IfOk, true};
ghost use Rattle.std.specs.List.{list_all};
ghost use Rattle.oe_cube.specs.Kinds.{is_null_or_of};

use crate::Fault;
use crate::words::{number_of, parts_of};
use oe_cell::{Cell, Frac, whole_cell};
use oe_cube::is_null_or_of;
use oe_dims::CellKind;
use std::alloc::Global;

/// The cell that a word spells.
pub fn cell_of(word: &str) -> Result<Cell, Fault> {
    match word {
        "null" => Ok(Cell::Empty),
        "false" => Ok(Cell::Flag(false)),
        "true" => Ok(Cell::Flag(true)),
        "over" => Ok(Cell::Over),
        _ => Ok(Cell::Number(frac_of(word)?)),
    }
}

/// A whole number, or a fraction in lowest terms. Refuses: a pair that is no number.
pub fn frac_of(word: &str) -> Result<Frac, Fault> {
    match fraction_of(word)? {
        Some(number) => Ok(number),
        None => Err(Fault::Line),
    }
}

/// The number of a numerator and a denominator, `None` where they are refused.
pub fn fraction_of(word: &str) -> Result<Option<Frac>, Fault> {
    let (num, den) = word.split_once('/').unwrap_or((word, "1"));
    Ok(Frac::new(number_of(num)?, number_of(den)?))
}

/// Cells of items with commas between them, or none for `-`.
pub fn cells_of(alloc: Global, list: &str) -> Result<Vec<Cell>, Fault> {
    let mut cells = Vec::new(alloc);
    if list != "-" {
        for item in list.split(',') {
            push_item(item, &mut cells)?;
        }
    }
    Ok(cells)
}

/// Appends the cells of an item: one cell, one cell so many times, or whole numbers.
fn push_item(item: &str, cells: &mut Vec<Cell>) -> Result<(), Fault> {
    if item.contains('*') {
        let (times, word) = parts_of(item, "*")?;
        return push_times(number_of(times)?, &cell_of(word)?, cells);
    }
    if item.contains("..") {
        let (from, to) = parts_of(item, "..")?;
        return push_range(number_of(from)?, number_of(to)?, cells);
    }
    cells.push(cell_of(item)?)?;
    Ok(())
}

fn push_times(times: u32, cell: &Cell, cells: &mut Vec<Cell>) -> Result<(), Fault> {
    for _index in 0..times {
        cells.push(*cell)?;
    }
    Ok(())
}

/// Appends the whole numbers from one on to before another, upwards, or downwards where that is less.
fn push_range(from: i64, to: i64, cells: &mut Vec<Cell>) -> Result<(), Fault> {
    let step = if from < to { 1 } else { -1 };
    let mut number = from;
    for _index in 0..from.abs_diff(to) {
        cells.push(number_cell(number)?)?;
        number = number.wrapping_add(step);
    }
    Ok(())
}

/// A whole number as a cell. Refuses: -2^63, which is out of range.
fn number_cell(number: i64) -> Result<Cell, Fault> {
    if number == i64::MIN {
        Err(Fault::Line)
    } else {
        Ok(whole_cell(number))
    }
}

/// A copy of cells, of which each is null or of the kind. Refuses: cells of which one is neither.
pub fn cells_of_kind(alloc: Global, kind: CellKind, cells: &[Cell]) -> Result<Vec<Cell>, Fault>
    ensures { IfOk result (λ cells. list_all (is_null_or_of kind) cells.items ≡ true) }
{
    let mut kept = Vec::new(alloc);
    for cell in cells {
        kept.push(cell_of_kind(kind, cell)?)?;
    }
    Ok(kept)
}

fn cell_of_kind(kind: CellKind, cell: &Cell) -> Result<Cell, Fault>
    ensures { IfOk result (λ cell. is_null_or_of kind cell ≡ true) }
{
    if is_null_or_of(kind, *cell) {
        Ok(*cell)
    } else {
        Err(Fault::Line)
    }
}
