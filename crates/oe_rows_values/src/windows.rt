// Windows, chunks and runs of the shape.
ghost use Rattle.std.specs.Prelude.{◌<◌, ◌^◌, IsTrue};
ghost use Rattle.oe_window.specs.Chunks.{IsSide};
ghost use Rattle.oe_window.specs.Windows.{Holds, position_count, whole_window};

use itoa::Integer;
use oe_dims::Shape;
use oe_lines::{Answers, Fault, Line, push, push_flag, push_number, push_window};
use oe_window::{ChunkSize, Grid, Window, copy_window, holds, hull, meet, runs, size, whole};
use std::alloc::Global;

/// How many cells the shape has whose windows are listed.
const CELLS: u64 = 48;

/// The sides of chunks along t, y and x.
pub(crate) fn sides_of(line: &mut Line) -> ChunkSize
    ensures x { IsSide result.x }
    ensures y { IsSide result.y }
    ensures t { IsSide result.t }
{
    let t = line.side();
    let y = line.side();
    let x = line.side();
    ChunkSize { x, y, t }
}

/// Appends how many chunks the shape has, and the one of a number.
pub(crate) fn chunk(line: &mut Line, shape: &Shape, answers: &mut Answers) {
    let size = sides_of(line);
    answer_chunk(chunk_of(shape, size, line.number()), answers);
}

fn answer_chunk(found: (u64, Option<Window>), answers: &mut Answers) {
    push_number("", found.0, answers);
    match found.1 {
        Some(window) => push_window(" ", &window, answers),
        None => push(" none", answers),
    }
}

/// How many chunks of these sides a shape has, and the one of a number, if there is one.
fn chunk_of(shape: &Shape, size: ChunkSize, number: u64) -> (u64, Option<Window>)
    requires x { IsSide size.x }
    requires y { IsSide size.y }
    requires t { IsSide size.t }
{
    let grid = Grid::new(shape, size);
    let count = grid.count();
    (
        count,
        if number < count {
            Some(grid.chunk(number))
        } else {
            None
        },
    )
}

/// Appends the runs of a window: the first number of each and how many follow one another.
pub(crate) fn list_runs(line: &mut Line, shape: &Shape, answers: &mut Answers) {
    answer_runs(shape, &line.window(), answers);
}

fn answer_runs(shape: &Shape, window: &Window, answers: &mut Answers) {
    if !holds(&whole(shape), window) {
        return push("outside", answers);
    }
    for (first, length) in runs(window, shape) {
        push_number("", first, answers);
        push_number("+", length, answers);
        push(" ", answers);
    }
}

/// Appends the numbers of the positions of a window, copied out of a cube whose cells are their own numbers.
pub(crate) fn cells(line: &mut Line, shape: &Shape, answers: &mut Answers) {
    let window = line.window();
    let Some(found) = counts(shape, &window) else {
        return push("outside", answers);
    };
    let outcome = answer_cells(line.alloc(), found[0], shape, &window, answers);
    line.settle(outcome);
}

fn answer_cells(
    alloc: Global,
    count: u64,
    shape: &Shape,
    window: &Window,
    answers: &mut Answers,
) -> Result<(), Fault> {
    let mut into = numbers(alloc, count)?;
    copy_cells(alloc, shape, window, into.as_mut_slice())?;
    push_list(into.as_slice(), answers);
    Ok(())
}

fn copy_cells(
    alloc: Global,
    shape: &Shape,
    window: &Window,
    into: &mut [u64],
) -> Result<(), Fault> {
    let all = numbers(alloc, CELLS)?;
    if is_copied(all.as_slice(), shape, window, into) {
        Ok(())
    } else {
        Err(Fault::Line)
    }
}

/// The numbers below a count.
fn numbers(alloc: Global, count: u64) -> Result<Vec<u64>, Fault> {
    let mut numbers = Vec::new(alloc);
    for number in 0..count {
        numbers.push(number)?;
    }
    Ok(numbers)
}

/// Whether the cells of the window could be copied out of those of the cube.
fn is_copied(all: &[u64], shape: &Shape, window: &Window, into: &mut [u64]) -> bool {
    if !lies_within(shape, window) {
        return false;
    }
    if all.len() as u64 != shape.cells() || into.len() as u64 != size(window) {
        return false;
    }
    copy_window(all, shape, window, into);
    true
}

/// Whether a window lies in a shape of so many cells.
fn lies_within(shape: &Shape, window: &Window) -> bool
    ensures inside { IsTrue result → Holds (whole_window shape.now) window.now }
    ensures few { IsTrue result → position_count window.now < 2 ^ 64 }
{
    if shape.cells() != CELLS {
        return false;
    }
    holds(&whole(shape), window)
}

/// Appends how many positions, planes and rows a window has, and the plane and the row of two numbers.
pub(crate) fn parts(line: &mut Line, shape: &Shape, answers: &mut Answers) {
    let window = line.window();
    let plane = plane_at(shape, &window, line.number());
    let row = row_at(shape, &window, line.number());
    match counts(shape, &window) {
        Some(found) => answer_parts(found, plane, row, answers),
        None => push("outside", answers),
    }
}

fn answer_parts(
    counts: [u64; 3],
    plane: Option<Window>,
    row: Option<Window>,
    answers: &mut Answers,
) {
    push_number("", counts[0], answers);
    push_number(" ", counts[1], answers);
    push_number(" ", counts[2], answers);
    match (plane, row) {
        (Some(plane), Some(row)) => {
            push_window(" | ", &plane, answers);
            push_window(" | ", &row, answers)
        }
        _ => push(" none", answers),
    }
}

/// How many positions, planes and rows the window has, if it lies in a shape of so many cells.
fn counts(shape: &Shape, window: &Window) -> Option<[u64; 3]> {
    if !lies_within(shape, window) {
        return None;
    }
    Some([size(window), window.planes(), window.rows()])
}

/// The plane of a number, if the window lies in a shape of so many cells and has it.
fn plane_at(shape: &Shape, window: &Window, number: u64) -> Option<Window> {
    if !lies_within(shape, window) {
        return None;
    }
    if number < window.planes() {
        Some(window.plane(number))
    } else {
        None
    }
}

/// The row of a number, if the window lies in a shape of so many cells and has it.
fn row_at(shape: &Shape, window: &Window, number: u64) -> Option<Window> {
    if !lies_within(shape, window) {
        return None;
    }
    if number < window.rows() {
        Some(window.row(number))
    } else {
        None
    }
}

/// Appends the hull and the meet of two windows, and whether the first holds the second and the second the first.
pub(crate) fn two(line: &mut Line, answers: &mut Answers) {
    let one = &line.window();
    line.pass("|");
    let two = &line.window();
    push_window("", &hull(one, two), answers);
    push_meet(&meet(one, two), answers);
    push(" |", answers);
    push_flag(holds(one, two), answers);
    push_flag(holds(two, one), answers);
}

fn push_meet(window: &Window, answers: &mut Answers) {
    if window.is_empty() {
        push(" | nothing", answers)
    } else {
        push_window(" | ", window, answers)
    }
}

/// Appends numbers in brackets, with commas between them.
pub(crate) fn push_list<N: Integer>(numbers: &[N], answers: &mut Answers) {
    let mut before = "[";
    for number in numbers {
        push_number(before, *number, answers);
        before = ", ";
    }
    push(if numbers.is_empty() { "[]" } else { "]" }, answers);
}
