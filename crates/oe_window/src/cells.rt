// The cells of a cube on a window.
ghost use Rattle.std.specs.Prelude.{◌≡◌, ◌+◌, ◌*◌, ◌<◌, ◌≤◌, ◌++◌, length, slice_get, take};
ghost use Rattle.std.specs.List.{slice_range};
ghost use Rattle.oe_dims.specs.Cube.{Cube};
ghost use Rattle.oe_dims.specs.Dimensions.{cell_count};
ghost use Rattle.oe_dims.specs.Positions.{Position, number_of};
ghost use Rattle.oe_window.specs.Cells.{cells_on};
ghost use Rattle.oe_window.specs.Parts.{plane_count, plane_of, row_count, row_of};
ghost use Rattle.oe_window.specs.Windows.{Holds, IsIn, number_in, position_count, span_length, whole_window};

use crate::{Span, Window, runs};
use oe_dims::Shape;

/// Copies one run, from its first number on, behind what is done.
fn copy_run<C: Copy>(cells: &[C], into: &mut [C], first: usize, count: usize, done: usize)
    requires from { first + count ≤ length cells.now }
    requires to { done + count ≤ length into.old }
    ensures copied { take (done + count) into.new ≡
        take done into.old ++ slice_range cells.now first (first + count) }
    ensures len { length into.new ≡ length into.old }
{
    into[done..done + count].copy_from_slice(&cells[first..first + count]);
}

/// Copies the cells of a window, in row-major order, out of all cells of a cube of this shape.
pub fn copy_window<C: Copy>(cells: &[C], shape: &Shape, window: &Window, into: &mut [C])
    requires inside { Holds (whole_window shape.now) window.now }
    requires whole { length cells.now ≡ cell_count shape.now }
    requires room { length into.old ≡ position_count window.now }
    // As a list, and cell by cell.
    ensures value { (other : C) →
        into.new ≡ cells_on other (record { shape = shape.now; cells = cells.now }) window.now }
    ensures each { (p : Position) → IsIn window.now p →
        slice_get into.new (number_in window.now p) ≡ slice_get cells.now (number_of shape.now p) }
{
    let mut done = 0;
    for (first, count) in runs(window, shape) {
        copy_run(cells, into, first as usize, count as usize, done);
        done += count as usize;
    }
}

/// All cells of a cube of this shape, which are those on its whole window.
pub fn whole_cells<'a, C>(cells: &'a [C], shape: &Shape) -> &'a [C]
    requires whole { length cells.now ≡ cell_count shape.now }
    ensures same { result.now ≡ cells.now }
    ensures value { (other : C) →
        result.now ≡ cells_on other (record { shape = shape.now; cells = cells.now })
        (whole_window shape.now) }
{
    let _shape = shape;
    cells
}

/// The cells on the plane of a number, out of the cells on a window.
pub fn plane_cells<'a, C>(cells: &'a [C], window: &Window, number: u64) -> &'a [C]
    requires counted { length cells.now ≡ position_count window.now }
    requires number { number < plane_count window.now }
    ensures { (other : C) (cube : Cube C) → cells.now ≡ cells_on other cube window.now →
        result.now ≡ cells_on other cube (plane_of window.now number) }
{
    piece(cells, number, area(window.y, window.x))
}

/// The cells on the row of a number, out of the cells on a window.
pub fn row_cells<'a, C>(cells: &'a [C], window: &Window, number: u64) -> &'a [C]
    requires counted { length cells.now ≡ position_count window.now }
    requires number { number < row_count window.now }
    ensures { (other : C) (cube : Cube C) → cells.now ≡ cells_on other cube window.now →
        result.now ≡ cells_on other cube (row_of window.now number) }
{
    piece(cells, number, window.x.length())
}

fn area(y: Span, x: Span) -> u64
    ensures { result ≡ span_length y * span_length x }
{
    u64::from(y.count()) * u64::from(x.count())
}

/// The piece of a number, all of one size.
fn piece<'a, C>(cells: &'a [C], number: u64, size: u64) -> &'a [C]
    requires { number * size + size ≤ length cells.now }
    ensures { result.now ≡ slice_range cells.now (number * size) (number * size + size) }
{
    let _count = cells.len();
    let first = number * size;
    &cells[first as usize..(first + size) as usize]
}
