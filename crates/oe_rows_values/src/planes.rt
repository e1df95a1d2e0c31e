// Kernels over planes: cell by cell, row by row, and as a block.
ghost use Rattle.std.specs.Prelude.{◌≡◌, ◌<◌, ◌≤◌, ℕ, IsTrue};
ghost use Rattle.oe_kernel.specs.Convolution.{CoversWindow, IsPlane, IsPositionIn};

use crate::kernels::{border_of, kernel_of};
use oe_cell::{Cell, Frac};
use oe_kernel::{Border, Kernel, Plane, convolve_at, convolve_block, convolve_row};
use oe_lines::{Answers, Fault, Line, push_cells, push_word};
use std::alloc::Global;

/// The longest side of a plane.
const LONGEST_SIDE: u32 = 65536;

/// What a plane is weighed with. A null counts as `replace`.
struct Weights {
    kernel: Kernel,
    border: Border,
    factor: Frac,
    replace: Frac,
}

/// Written out, so that such a value ends by one call wherever it does.
impl Drop for Weights {
    fn drop(self) {
        let Weights {
            kernel: _,
            border: _,
            factor: _,
            replace: _,
        } = self;
    }
}

/// The part that a word as `2..6,1..4` names, or the whole plane for `-`: its columns, from a first one to before an
/// end, and its rows.
fn part_of(line: &mut Line, side_x: u32, side_y: u32) -> [u32; 4] {
    if line.takes("-") {
        return [0, side_x, 0, side_y];
    }
    let from_x = line.number_before("..");
    let to_x = line.number_before(",");
    let from_y = line.number_before("..");
    let to_y = line.number();
    [from_x, to_x, from_y, to_y]
}

/// The cells of a part of a plane, by each of the three calls.
pub(crate) fn convolution(line: &mut Line, answers: &mut Answers) {
    match kernel_of(line) {
        Ok(kernel) => weigh(kernel, line, answers),
        Err(_) => line.note(Fault::Line),
    }
}

fn weigh(kernel: Kernel, line: &mut Line, answers: &mut Answers) {
    let border = border_of(line);
    let factor = line.frac();
    let replace = Frac::whole(5);
    let weights = Weights {
        kernel,
        border,
        factor,
        replace,
    };
    weigh_plane(&weights, line, answers);
}

fn weigh_plane(weights: &Weights, line: &mut Line, answers: &mut Answers) {
    let side_x = line.number_before("x");
    let side_y = line.number();
    let held = part_of(line, side_x, side_y);
    let part = part_of(line, side_x, side_y);
    let cells = line.cells();
    let plane = Plane {
        cells: &cells,
        from_x: held[0],
        to_x: held[1],
        from_y: held[2],
        to_y: held[3],
        side_x,
        side_y,
    };
    let outcome = push_part(
        line.alloc(),
        weights,
        &plane,
        part[0],
        part[1],
        part[2],
        part[3],
        answers,
    );
    line.settle(outcome);
}

fn push_part(
    alloc: Global,
    weights: &Weights,
    plane: &Plane,
    from_x: u32,
    to_x: u32,
    from_y: u32,
    to_y: u32,
    answers: &mut Answers,
) -> Result<(), Fault> {
    push_cells(
        &by_cell(alloc, weights, plane, from_x, to_x, from_y, to_y)?,
        answers,
    );
    push_word("|", answers);
    push_rows(alloc, weights, plane, from_x, to_x, from_y, to_y, answers)?;
    push_word("|", answers);
    push_cells(
        &at_once(alloc, weights, plane, from_x, to_x, from_y, to_y)?,
        answers,
    );
    Ok(())
}

/// Whether the plane holds the columns that the kernel needs for some.
fn has_columns(kernel: &Kernel, border: &Border, plane: &Plane, from: u32, to: u32) -> bool
    ensures some { IsTrue result → from < to }
    ensures side { IsTrue result → to ≤ plane.now.side_x }
    ensures covers { IsTrue result → (at : ℕ) → IsPositionIn from to at
        → CoversWindow border.now at kernel.now.width plane.now.side_x plane.now.from_x
        plane.now.to_x }
{
    if to <= from || plane.side_x < to || LONGEST_SIDE < plane.side_x {
        return false;
    }
    let (first, end) = kernel.need_x(*border, plane.side_x, from, to);
    plane.from_x <= first && end <= plane.to_x
}

/// Whether the plane holds the rows that the kernel needs for some.
fn has_rows(kernel: &Kernel, border: &Border, plane: &Plane, from: u32, to: u32) -> bool
    ensures some { IsTrue result → from < to }
    ensures side { IsTrue result → to ≤ plane.now.side_y }
    ensures covers { IsTrue result → (at : ℕ) → IsPositionIn from to at
        → CoversWindow border.now at kernel.now.height plane.now.side_y plane.now.from_y
        plane.now.to_y }
{
    if to <= from || plane.side_y < to || LONGEST_SIDE < plane.side_y {
        return false;
    }
    let (first, end) = kernel.need_y(*border, plane.side_y, from, to);
    plane.from_y <= first && end <= plane.to_y
}

fn by_cell(
    alloc: Global,
    weights: &Weights,
    plane: &Plane,
    from_x: u32,
    to_x: u32,
    from_y: u32,
    to_y: u32,
) -> Result<Vec<Cell>, Fault> {
    let (kernel, border) = (&weights.kernel, &weights.border);
    if !plane.is_valid()
        || !has_columns(kernel, border, plane, from_x, to_x)
        || !has_rows(kernel, border, plane, from_y, to_y)
    {
        return Err(Fault::Line);
    }
    let mut cells = Vec::new(alloc);
    for y in from_y..to_y {
        for x in from_x..to_x {
            cells.push(convolve_at(
                kernel,
                weights.factor,
                *border,
                weights.replace,
                plane,
                x,
                y,
            ))?;
        }
    }
    Ok(cells)
}

fn push_rows(
    alloc: Global,
    weights: &Weights,
    plane: &Plane,
    from_x: u32,
    to_x: u32,
    from_y: u32,
    to_y: u32,
    answers: &mut Answers,
) -> Result<(), Fault> {
    let (kernel, border) = (&weights.kernel, &weights.border);
    if !plane.is_valid()
        || !has_columns(kernel, border, plane, from_x, to_x)
        || !has_rows(kernel, border, plane, from_y, to_y)
    {
        return Err(Fault::Line);
    }
    for y in from_y..to_y {
        let mut row = vec![in alloc; Cell::Empty; (to_x - from_x) as usize]?;
        convolve_row(
            kernel,
            weights.factor,
            *border,
            weights.replace,
            plane,
            from_x,
            y,
            &mut row,
        );
        push_cells(&row, answers);
    }
    Ok(())
}

fn at_once(
    alloc: Global,
    weights: &Weights,
    plane: &Plane,
    from_x: u32,
    to_x: u32,
    from_y: u32,
    to_y: u32,
) -> Result<Vec<Cell>, Fault> {
    let (kernel, border) = (&weights.kernel, &weights.border);
    if !plane.is_valid()
        || !has_columns(kernel, border, plane, from_x, to_x)
        || !has_rows(kernel, border, plane, from_y, to_y)
    {
        return Err(Fault::Line);
    }
    let (wide, high) = (to_x - from_x, to_y - from_y);
    let mut block = vec![in alloc; Cell::Empty; high as usize * wide as usize]?;
    convolve_block(
        kernel,
        weights.factor,
        *border,
        weights.replace,
        plane,
        from_x,
        from_y,
        high,
        wide,
        &mut block,
    );
    Ok(block)
}
