// Shapes, texts, grids, references and kernels, which threads share and take for their own.
use oe_cell::Frac;
use oe_dims::{BandIndex, Shape, Text};
use oe_kernel::Kernel;
use oe_lines::{Answers, Fault, Line, end_line, push_all, push_flag, push_number, valid_shape_of};
use oe_order::{Links, is_ranked};
use oe_window::{ChunkSize, Grid};
use std::thread::{self, Threads};

/// Appends what two threads answer that share a value, or take one for their own.
pub(crate) fn shared<R: Threads>(rt: &R, line: &mut Line, answers: &mut Answers) {
    let outcome = match line.word() {
        "shape" => share_shape(rt, line, answers),
        "bands" => share_bands(rt, line, answers),
        "taken" => take_shape(rt, line, answers),
        "grid" => share_grid(rt, line, answers),
        "references" => share_references(rt, line, answers),
        "kernels" => share_kernels(rt, line, answers),
        _ => Err(Fault::Line),
    };
    line.settle(outcome);
    end_line(answers);
}

fn name_and_shape(line: &mut Line) -> Result<(Text, Shape), Fault> {
    let name = Text::of(line.alloc(), line.word())?;
    Ok((name, valid_shape_of(line.alloc(), line.rest())?))
}

/// How many cells a shape has and how many bytes a name, as threads find that share both.
fn share_shape<R: Threads>(rt: &R, line: &mut Line, answers: &mut Answers) -> Result<(), Fault> {
    let (name, shape) = name_and_shape(line)?;
    let (cells, length) = thread::join(rt, || shape.cells(), || name.as_str().len());
    push_number("", cells, answers);
    push_number(" ", length, answers);
    Ok(())
}

/// Where the band of a name stands, as a thread finds by an index of the bands, and another by a walk.
fn share_bands<R: Threads>(rt: &R, line: &mut Line, answers: &mut Answers) -> Result<(), Fault> {
    let (name, shape) = name_and_shape(line)?;
    let index = BandIndex::of(line.alloc(), &shape)?;
    let (there, here) = thread::join(
        rt,
        || index.find(&shape, &name),
        || shape.band_position(&name),
    );
    push_position("", there, answers);
    push_position(" ", here, answers);
    Ok(())
}

fn push_position(mark: &str, position: Option<u32>, answers: &mut Answers) {
    match position {
        Some(index) => push_number(mark, index, answers),
        None => push_all(&[mark, "none"], answers),
    }
}

/// Where the band of a name stands, as a thread finds that takes both for its own.
fn take_shape<R: Threads>(rt: &R, line: &mut Line, answers: &mut Answers) -> Result<(), Fault> {
    let (name, shape) = name_and_shape(line)?;
    let (index, length) = thread::join(rt, move || shape.band_position(&name), || "B03".len());
    push_position("", index, answers);
    push_number(" ", length, answers);
    Ok(())
}

/// How many chunks of one position a shape has, and whether their sides are 1, as threads find that share both.
fn share_grid<R: Threads>(rt: &R, line: &mut Line, answers: &mut Answers) -> Result<(), Fault> {
    let shape = valid_shape_of(line.alloc(), line.rest())?;
    let size = ChunkSize { x: 1, y: 1, t: 1 };
    let grid = Grid::new(&shape, size);
    let (count, same) = thread::join(
        rt,
        || grid.count(),
        || size == ChunkSize { x: 1, y: 1, t: 1 },
    );
    push_number("", count, answers);
    push_flag(same, answers);
    Ok(())
}

/// Whether a graph of one load has the order 0, and none, as threads find that share its references.
fn share_references<R: Threads>(
    rt: &R,
    line: &mut Line,
    answers: &mut Answers,
) -> Result<(), Fault> {
    let arguments = Vec::new(line.alloc());
    let load = true;
    let nodes = vec![in line.alloc(); Links { load, arguments }]?;
    let (left, right) = thread::join(
        rt,
        || is_ranked(nodes.as_slice(), &[0]),
        || is_ranked(nodes.as_slice(), &[]),
    );
    push_flag(left, answers);
    push_flag(right, answers);
    Ok(())
}

/// The sides of a kernel that threads share, and then of two kernels that each takes one of for its own.
fn share_kernels<R: Threads>(rt: &R, line: &mut Line, answers: &mut Answers) -> Result<(), Fault> {
    let wide = kernel_of_ones(line, 3, 1)?;
    let (width, height) = thread::join(rt, || wide.width(), || wide.height());
    push_number("", width, answers);
    push_number(" ", height, answers);
    let high = kernel_of_ones(line, 1, 3)?;
    let (width, height) = thread::join(rt, move || wide.width(), move || high.height());
    push_number(" ", width, answers);
    push_number(" ", height, answers);
    Ok(())
}

fn kernel_of_ones(line: &mut Line, width: u32, height: u32) -> Result<Kernel, Fault> {
    let values = vec![in line.alloc(); Frac::whole(1); 3]?;
    match Kernel::new(width, height, values) {
        Ok(kernel) => Ok(kernel),
        Err(_) => Err(Fault::Line),
    }
}
