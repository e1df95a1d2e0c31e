// Kernels, their borders, and what they need of a side.
use oe_cell::{Cell, Frac};
use oe_kernel::{Border, Kernel, KernelFault, border_index};
use oe_lines::{Answers, Fault, Line, frac_of, push_cell, push_number, push_word};
use std::alloc::Global;

/// The kernel of a word as `3x1:1,10,100`: its width and height, and its values row by row.
pub(crate) fn kernel_of(line: &mut Line) -> Result<Kernel, KernelFault> {
    let width = line.number_before("x");
    let height = line.number_before(":");
    let values = numbers_of(line.alloc(), &line.cells());
    let values = line.value_or(values, Vec::new(line.alloc()));
    Kernel::new(width, height, values)
}

fn numbers_of(alloc: Global, cells: &[Cell]) -> Result<Vec<Frac>, Fault> {
    let mut numbers = Vec::new(alloc);
    for cell in cells {
        match *cell {
            Cell::Number(number) => numbers.push(number)?,
            _ => return Err(Fault::Line),
        }
    }
    Ok(numbers)
}

pub(crate) fn border_of(line: &mut Line) -> Border {
    match line.word() {
        "replicate" => Border::Replicate,
        "reflect" => Border::Reflect,
        "reflect_pixel" => Border::ReflectPixel,
        "wrap" => Border::Wrap,
        word => Border::Value(line.value_or(frac_of(word), Frac::whole(0))),
    }
}

/// The sizes, the radii and the values of a kernel, or its fault.
pub(crate) fn kernel(line: &mut Line, answers: &mut Answers) {
    match kernel_of(line) {
        Ok(kernel) => push_kernel(&kernel, answers),
        Err(KernelFault::LengthDiffers) => push_word("LengthDiffers", answers),
        Err(KernelFault::Uneven) => push_word("Uneven", answers),
        Err(KernelFault::TooLarge) => push_word("TooLarge", answers),
    }
}

fn push_kernel(kernel: &Kernel, answers: &mut Answers) {
    push_number("", kernel.width(), answers);
    push_number(" ", kernel.height(), answers);
    push_number(" ", kernel.radius_x(), answers);
    push_number(" ", kernel.radius_y(), answers);
    for row in 0..kernel.height() {
        push_values(kernel, row, answers);
    }
}

fn push_values(kernel: &Kernel, row: u32, answers: &mut Answers) {
    if row >= kernel.height() {
        return answers.note(Fault::Line);
    }
    for column in 0..kernel.width() {
        push_cell(Cell::Number(kernel.value(row, column)), answers);
    }
}

/// The position on a side that a border puts in place of one.
pub(crate) fn index(line: &mut Line, answers: &mut Answers) {
    let border = border_of(line);
    let at = line.number::<i64>();
    let side = line.number::<u32>();
    if side == 0 || at < -1048576 || 1048576 < at {
        return line.note(Fault::Line);
    }
    match border_index(border, at, side) {
        Some(index) => push_number("", index, answers),
        None => push_word("none", answers),
    }
}

/// What a kernel needs of the columns and of the rows of a side for some of its positions.
pub(crate) fn need(line: &mut Line, answers: &mut Answers) {
    match kernel_of(line) {
        Ok(kernel) => answer_need(&kernel, line, answers),
        Err(_) => line.note(Fault::Line),
    }
}

fn answer_need(kernel: &Kernel, line: &mut Line, answers: &mut Answers) {
    let border = &border_of(line);
    let side = line.number();
    let from = line.number_before("..");
    let to = line.number();
    if to <= from || side < to || 65536 < side {
        return line.note(Fault::Line);
    }
    push_pair("", kernel.need_x(*border, side, from, to), answers);
    push_pair(" ", kernel.need_y(*border, side, from, to), answers);
}

fn push_pair(mark: &str, pair: (u32, u32), answers: &mut Answers) {
    push_number(mark, pair.0, answers);
    push_number(" ", pair.1, answers);
}
