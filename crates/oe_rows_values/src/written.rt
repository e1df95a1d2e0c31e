// Cells that are written to stores as records, window by window.
ghost use Rattle.oe_window.specs.Chunks.{IsSide};

use crate::store::{plain_store, push_bytes};
use crate::windows::sides_of;
use oe_cell::Cell;
use oe_dims::Shape;
use oe_lines::{Answers, Fault, Line, push, push_number};
use oe_outside::MemoryStore;
use oe_spool::{least_over, lesser, write_window};
use oe_window::{ChunkSize, Grid, Window, copy_window, holds, size, whole};
use std::alloc::Global;

/// The most cells of a shape that is written to a store.
const MOST_CELLS: u64 = 1000000;

/// Writes the cells of a line to a window.
pub(crate) fn write_row(line: &mut Line, shape: &Shape, answers: &mut Answers) {
    let base = line.number();
    let room = line.number();
    let calls = line.numbers();
    let cells = line.cells();
    line.pass("|");
    let window = line.window();
    let outcome = write_plain(
        line.alloc(),
        room,
        calls,
        base,
        shape,
        &window,
        &cells,
        answers,
    );
    line.settle(outcome);
}

/// Writes cells to a window of a store of so many bytes 9, of which these calls fail.
fn write_plain(
    alloc: Global,
    room: usize,
    calls: Vec<u64>,
    base: u16,
    shape: &Shape,
    window: &Window,
    cells: &[Cell],
    answers: &mut Answers,
) -> Result<(), Fault> {
    let mut store = plain_store(alloc, room, calls)?;
    let (done, over) = write_cells(&mut store, base, shape, window, cells)?;
    push(if done { "written" } else { "failed" }, answers);
    spell_store(alloc, &store, over, answers);
    Ok(())
}

/// Writes cells to a window that lies in the shape and has so many positions. Answers whether they were written, and
/// the least number of a cell that is `Over`.
fn write_cells(
    store: &mut MemoryStore,
    base: u16,
    shape: &Shape,
    window: &Window,
    cells: &[Cell],
) -> Result<(bool, Option<u64>), Fault> {
    if !holds(&whole(shape), window) {
        return Err(Fault::Line);
    }
    if shape.cells() > MOST_CELLS || size(window) != cells.len() as u64 {
        return Err(Fault::Line);
    }
    let over = least_over(shape, window, cells);
    let outcome = write_window(store, u64::from(base), shape, window, cells);
    Ok((outcome.is_ok(), over))
}

/// Spells how many calls of a store failed, the least number of a cell that is `Over`, and the bytes of the store.
fn spell_store(alloc: Global, store: &MemoryStore, over: Option<u64>, answers: &mut Answers) {
    push_number(" ", store.faults(), answers);
    push_found(over, answers);
    push_bytes(alloc, store.bytes(), false, answers);
}

/// Writes the cells of a line chunk by chunk.
pub(crate) fn chunks_row(line: &mut Line, shape: &Shape, answers: &mut Answers) {
    let base = line.number();
    let room = line.number();
    let sides = sides_of(line);
    let cells = line.cells();
    let outcome = write_sides(line.alloc(), room, base, shape, sides, &cells, answers);
    line.settle(outcome);
}

/// Writes cells in chunks of these sides to a store of so many bytes 9.
fn write_sides(
    alloc: Global,
    room: usize,
    base: u16,
    shape: &Shape,
    sides: ChunkSize,
    cells: &[Cell],
    answers: &mut Answers,
) -> Result<(), Fault>
    requires x { IsSide sides.x }
    requires y { IsSide sides.y }
    requires t { IsSide sides.t }
{
    let mut store = plain_store(alloc, room, Vec::new(alloc))?;
    let over = write_chunks(alloc, &mut store, base, shape, sides, cells)?;
    push("written", answers);
    spell_store(alloc, &store, over, answers);
    Ok(())
}

/// Writes all cells of a shape in chunks of these sides. Answers the least number of one that is `Over`.
fn write_chunks(
    alloc: Global,
    store: &mut MemoryStore,
    base: u16,
    shape: &Shape,
    sides: ChunkSize,
    cells: &[Cell],
) -> Result<Option<u64>, Fault>
    requires x { IsSide sides.x }
    requires y { IsSide sides.y }
    requires t { IsSide sides.t }
{
    let grid = Grid::new(shape, sides);
    let mut over = None;
    for number in 0..grid.count() {
        let chunk = grid.chunk(number);
        let part = cells_on(alloc, cells, shape, &chunk)?;
        let (done, least) = write_cells(store, base, shape, &chunk, &part)?;
        if !done {
            return Err(Fault::Line);
        }
        over = lesser(over, least);
    }
    Ok(over)
}

/// The cells on a window, of all cells of a shape.
fn cells_on(
    alloc: Global,
    cells: &[Cell],
    shape: &Shape,
    window: &Window,
) -> Result<Vec<Cell>, Fault> {
    if !holds(&whole(shape), window) {
        return Err(Fault::Line);
    }
    let count = shape.cells();
    if count > MOST_CELLS || count != cells.len() as u64 {
        return Err(Fault::Line);
    }
    let mut part = vec![in alloc; Cell::Empty; size(window) as usize]?;
    copy_window(cells, shape, window, &mut part);
    Ok(part)
}

/// Answers the lesser of two numbers, of which either may be missing.
pub(crate) fn lesser_row(line: &mut Line, answers: &mut Answers) {
    let a = found_of(line);
    let b = found_of(line);
    push("lesser", answers);
    push_found(lesser(a, b), answers);
}

/// Appends a number or `none`.
fn push_found(found: Option<u64>, answers: &mut Answers) {
    match found {
        Some(number) => push_number(" ", number, answers),
        None => push(" none", answers),
    }
}

fn found_of(line: &mut Line) -> Option<u64> {
    if line.takes("-") {
        None
    } else {
        Some(line.number())
    }
}
