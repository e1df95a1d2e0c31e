// The windows that operations need of their arguments.
use oe_cell::Frac;
use oe_dims::{Kind, Shape};
use oe_kernel::{Border, Kernel};
use oe_lines::{Answers, Fault, Line, push, push_window, valid_shape_of};
use oe_ops::{need_beside, need_labels, need_pixels};
use oe_window::{Window, holds, whole};

/// Appends the window that one of a result needs: `labels` or `bands` of the words `WINDOW | SHAPE | ARGUMENT`, or a
/// border and `WINDOW | SHAPE`, for a kernel of 3 × 3 ones.
pub(crate) fn answer_need(line: &mut Line, answers: &mut Answers) {
    let word = line.word();
    let of = line.window();
    line.pass("|");
    let need = match word {
        "labels" | "bands" => needed(word == "labels", line, &of),
        _ => needed_pixels(border_of(word), line, &of),
    };
    match line.value_or(need, None) {
        Some(window) => push_window("", &window, answers),
        None => push("none", answers),
    }
}

/// What it needs of an argument by its labels, or with all bands.
fn needed(labels: bool, line: &mut Line, of: &Window) -> Result<Option<Window>, Fault> {
    let shape = valid_shape_of(line.alloc(), line.before(" | "))?;
    let argument = valid_shape_of(line.alloc(), line.rest())?;
    if labels {
        Ok(by_labels(&shape, &argument, of))
    } else {
        Ok(with_bands(&shape, &argument, of))
    }
}

/// What it needs with the pixels around, for a kernel of ones.
fn needed_pixels(
    border: Option<Border>,
    line: &mut Line,
    of: &Window,
) -> Result<Option<Window>, Fault> {
    let shape = valid_shape_of(line.alloc(), line.rest())?;
    let ones = vec![in line.alloc(); Frac::whole(1); 9]?;
    match (Kernel::new(3, 3, ones), border) {
        (Ok(kernel), Some(border)) => Ok(with_pixels(&kernel, border, &shape, of)),
        _ => Err(Fault::Line),
    }
}

fn border_of(word: &str) -> Option<Border> {
    match word {
        "replicate" => Some(Border::Replicate),
        "reflect" => Some(Border::Reflect),
        "wrap" => Some(Border::Wrap),
        _ => None,
    }
}

/// What a window of the result needs by its labels, `None` where it is none.
fn by_labels(shape: &Shape, argument: &Shape, of: &Window) -> Option<Window> {
    let _epsg = argument.epsg();
    if holds(&whole(shape), of) {
        Some(need_labels(shape, argument, of))
    } else {
        None
    }
}

/// The same with all bands.
fn with_bands(shape: &Shape, argument: &Shape, of: &Window) -> Option<Window> {
    let _epsg = argument.epsg();
    if holds(&whole(shape), of) {
        Some(need_beside(Kind::Bands, shape, argument, of))
    } else {
        None
    }
}

/// The same with the pixels around.
fn with_pixels(kernel: &Kernel, border: Border, shape: &Shape, of: &Window) -> Option<Window> {
    if holds(&whole(shape), of) {
        Some(need_pixels(kernel, border, shape, of))
    } else {
        None
    }
}
