//! Worked values of cells, reducers, kernels, shapes, instants, windows and the order of a run, of result texts, and of
//! records in stores, and what threads share of them, taken from outside: those of the examples in openEO Processes,
//! those of the public texts, and others by hand or by short programs, which share no code with these crates: of exact
//! fractions, and one that spells the bytes of stores and outputs where they are over 4096.
//!
//! The input has a line for each call, the output a line for each answer. A line that begins with `#` says what the
//! next ones show, and has no answer, nor has `given`. `oe_lines` says how words are spelled.
//!
//! | Line | What it answers |
//! |---|---|
//! | `kinds X` | whether a cell is null, a number and `over`, and the cell |
//! | `arithmetic X Y` | `add`, `subtract`, `multiply`, `divide` and `mod` |
//! | `rounding X` | `floor`, `ceil`, `int`, `absolute` and `sgn` |
//! | `comparison X Y` | `eq`, `neq`, `gt`, `gte`, `lt` and `lte` |
//! | `logic X Y` | `and`, `or` and `xor`, and `not` of the first |
//! | `choice X Y Z` | `if` |
//! | `compare X Y` | how two numbers stand to one another |
//! | `fraction N/D` | the number of this numerator and denominator, or `none` |
//! | `whole N` | a whole number as a number and as a cell |
//! | `record X`, `records X,Y,Z` | the bytes of one record, and of three |
//! | `of_record BYTES` | the cell of a record, or `none` |
//! | `of_records BYTES` | how many of three cells that are `over` are replaced by those of records, and all three |
//! | `list REDUCER NULLS CELLS` | the reduction of a list, of the middle one of three columns, and, but for the median, cell by cell; nulls are to `ignore` or to `keep` |
//! | `columns REDUCER NULLS STRIDE,ROWS,COLUMNS CELLS` | the reductions of columns whose rows begin so many cells apart |
//! | `kernel KERNEL` | its width, height and two radii, and its values, or its fault; a kernel is `3x1:1,10,100` |
//! | `index BORDER POSITION SIDE` | the position on the side that stands for one, or `none`; a border is a number or its name |
//! | `need KERNEL BORDER SIDE FROM..TO` | the columns and the rows that it needs of a side for these positions |
//! | `convolution KERNEL BORDER FACTOR SIDES BOX PART CELLS` | the cells of a part of a plane, of which a box is loaded: cell by cell, row by row, and at once, with bars between them; a null counts as 5; sides are `7x5`, a box and a part `2..6,1..4`, or `-` for the whole plane |
//! | `given SHAPE` | nothing: the lines below refer to this shape from then on |
//! | `shape SHAPE` | how many cells it has, or its fault; the lines below refer to it from then on, the one before it being the other |
//! | `bands NAMES` | how many bands a shape of these names alone has, or its fault; no shape is kept |
//! | `label KIND LABEL` | the index of a label and the label there, or `none` |
//! | `range KIND FROM TO` | the indices of the labels from one to another |
//! | `band NAME` | the index of a band by a walk and by an index of the bands, and the name there, or `none` |
//! | `counts` | the reference system, and how many labels each dimension has |
//! | `same` | along which dimensions the other shape has the same labels, and a copy |
//! | `cube COUNT` | whether so many cells make a cube |
//! | `row ID` | the row of a collection with the shape, copied |
//! | `texts A B` | how the bytes of two texts compare |
//! | `instant TEXT`, `print SECONDS` | an instant that is read, and printed |
//! | `chunk T Y X K` | how many chunks of these sides the shape has, and the one of a number |
//! | `runs WINDOW`, `cells WINDOW`, `parts WINDOW PLANE ROW` | the runs of a window, the numbers of its positions, and how many positions, planes and rows it has, with one of each |
//! | `two WINDOW \| WINDOW` | the hull and the meet of two windows, and whether each holds the other |
//! | `order LAST NODES RANKS` | the order of the nodes that a result needs, how many slots it takes, and the step of each node; a node is `load`, or its arguments with commas between them, and `;` stands between nodes |
//! | `text TEXT`, `bytes BYTES`, `pad SIZE TEXT` | a result text that is read, of these bytes, or with blanks behind it up to so many bytes: the kind of its cells and the rendering of its cube, or `invalid` |
//! | `render BASE READ WRITE ROOM CELLS BYTES` | the rendering of the cube of the shape whose records stand in a store from byte BASE on, while cells are lent with this room: the store has so many bytes 9, the records of the cells, and these bytes; the calls READ of the store and the writes WRITE of the output fail |
//! | `write BASE SIZE CALLS CELLS \| WINDOW` | cells that are written to a window, from byte BASE on of a store of SIZE bytes 9 whose calls of these numbers fail |
//! | `chunks BASE SIZE T Y X CELLS` | all cells of the shape likewise, in chunks of these sides |
//! | `lesser A B` | the lesser of two numbers, of which either may be missing, or `none` |
//! | `threads shape NAME SHAPE` | what two threads find that share a shape and a name: how many cells, and how many bytes |
//! | `threads bands NAME SHAPE` | where the band of the name stands, as a thread finds by an index of the bands, and another by a walk, or `none` |
//! | `threads taken NAME SHAPE` | the same, as a thread finds that takes both for its own, and how many bytes another finds `B03` to have |
//! | `threads grid SHAPE` | how many chunks of one position a shape has, and whether their sides are 1 |
//! | `threads references` | whether the references of a graph of one load give it the order 0, and none |
//! | `threads kernels` | width and height of a row of three ones that threads share, and then the width of it and the height of a column of three that each takes one of |
//!
//! Answers spell a cell as result texts do, and over 16 equal ones side by side as `N*X`, in each row by itself where
//! they are found row by row. A rendering is answered by `written` or why it was refused, and the bytes on the output;
//! a window or chunks by `written` or `failed`, how many calls of the store failed, the least number of a cell that is
//! out of range, and the bytes of the store in hexadecimal digits. Of over 4096 bytes the answer has their number and
//! their MD5 digest. All renderings are lent the same cells and the same pending bytes, as those before left them.
#![tactic(auto)]

mod kernels;
mod operations;
mod orders;
mod planes;
mod records;
mod reducers;
mod rendering;
mod shapes;
mod shared;
mod store;
mod windows;
mod written;

use oe_dims::Shape;
use oe_lines::{Answers, Fault, Line, end_line};
use rendering::Lent;
use std::alloc::Global;
use std::io::{Read, Write};
use std::process::ExitCode;
use std::thread::Threads;

/// What lines refer to: the shapes so far and what renderings are lent.
struct Kept {
    shapes: Vec<Shape>,
    lent: Lent,
}

/// Written out, so that such a value ends by one call wherever it does.
impl Drop for Kept {
    fn drop(self) {
        let Kept { shapes: _, lent: _ } = self;
    }
}

impl Kept {
    fn new(alloc: Global) -> Result<Kept, Fault> {
        let lent = Lent::new(alloc)?;
        let shapes = Vec::new(alloc);
        Ok(Kept { shapes, lent })
    }
}

fn main(rt: HostRuntime) -> ExitCode {
    let alloc = rt.alloc();
    let mut text = String::new(alloc);
    if rt.stdin().read_to_string(&mut text).is_err() {
        return ExitCode::from(5);
    }
    let mut answers = Answers::new(alloc);
    match Kept::new(alloc) {
        Ok(mut kept) => answer_lines(&rt, alloc, &text, &mut kept, &mut answers),
        Err(fault) => answers.note(fault),
    }
    if let Some(fault) = answers.fault() {
        return ExitCode::from(fault.status());
    }
    match rt.stdout().write_all(answers.bytes()) {
        Ok(()) => ExitCode::from(0),
        Err(_) => ExitCode::from(8),
    }
}

/// Appends the answers to all lines, of which the first ones refer to no shape.
fn answer_lines<R: Threads>(
    rt: &R,
    alloc: Global,
    text: &str,
    kept: &mut Kept,
    answers: &mut Answers,
) {
    for line in text.lines() {
        let mut line = Line::new(alloc, line);
        if line.takes("threads") {
            shared::shared(rt, &mut line, answers);
        } else {
            answer_line(&mut line, kept, answers);
        }
        line.report(answers);
    }
}

/// Appends the answer to a line.
fn answer_line(line: &mut Line, kept: &mut Kept, answers: &mut Answers) {
    match line.word() {
        "#" => return,
        "given" => return shapes::given(line, &mut kept.shapes, answers),
        "shape" => shapes::shape(line, &mut kept.shapes, answers),
        "same" => shapes::same(&kept.shapes, answers),
        "text" => rendering::text(line, &mut kept.lent, answers),
        "bytes" => rendering::bytes(line, &mut kept.lent, answers),
        "pad" => rendering::padded(line, &mut kept.lent, answers),
        verb => match kept.shapes.last() {
            Some(shape) => answer_of(verb, line, shape, &mut kept.lent, answers),
            None => answer_to(verb, line, answers),
        },
    }
    end_line(answers);
}

/// Appends what a shape answers to a line that begins with this verb.
fn answer_of(verb: &str, line: &mut Line, shape: &Shape, lent: &mut Lent, answers: &mut Answers) {
    match verb {
        "render" => rendering::render_row(line, shape, lent, answers),
        "write" => written::write_row(line, shape, answers),
        "chunks" => written::chunks_row(line, shape, answers),
        "chunk" => windows::chunk(line, shape, answers),
        "runs" => windows::list_runs(line, shape, answers),
        "cells" => windows::cells(line, shape, answers),
        "parts" => windows::parts(line, shape, answers),
        _ => answer_labels(verb, line, shape, answers),
    }
}

/// Appends what the labels of a shape answer.
fn answer_labels(verb: &str, line: &mut Line, shape: &Shape, answers: &mut Answers) {
    match verb {
        "label" => shapes::label(line, shape, answers),
        "range" => shapes::range(line, shape, answers),
        "band" => shapes::band(line, shape, answers),
        "counts" => shapes::counts(shape, answers),
        "cube" => shapes::cube(line, shape, answers),
        "row" => shapes::row(line, shape, answers),
        _ => answer_to(verb, line, answers),
    }
}

/// Appends the answer to a line that refers to no shape.
fn answer_to(verb: &str, line: &mut Line, answers: &mut Answers) {
    match verb {
        "list" => reducers::list(line, answers),
        "convolution" => planes::convolution(line, answers),
        "bands" => shapes::bands(line, answers),
        "texts" => shapes::texts(line, answers),
        "instant" => shapes::instant(line, answers),
        "print" => shapes::print(line, answers),
        "two" => windows::two(line, answers),
        "order" => orders::order(line, answers),
        "lesser" => written::lesser_row(line, answers),
        _ => answer_cells(verb, line, answers),
    }
}

/// Appends the answer to a line about reducers, kernels or records.
fn answer_cells(verb: &str, line: &mut Line, answers: &mut Answers) {
    match verb {
        "columns" => reducers::columns(line, answers),
        "kernel" => kernels::kernel(line, answers),
        "index" => kernels::index(line, answers),
        "need" => kernels::need(line, answers),
        "record" => records::write_one(line, answers),
        "records" => records::write_three(line, answers),
        "of_record" => records::read_one(line, answers),
        "of_records" => records::read_three(line, answers),
        _ => answer_operations(verb, line, answers),
    }
}

/// Appends the answer to a line about operations.
fn answer_operations(verb: &str, line: &mut Line, answers: &mut Answers) {
    match verb {
        "kinds" => operations::kinds(line, answers),
        "arithmetic" => operations::arithmetic(line, answers),
        "rounding" => operations::rounding(line, answers),
        "comparison" => operations::comparison(line, answers),
        "logic" => operations::logic(line, answers),
        "choice" => operations::choice(line, answers),
        "compare" => operations::order(line, answers),
        "fraction" => operations::fraction(line, answers),
        "whole" => operations::whole(line, answers),
        _ => line.note(Fault::Line),
    }
}
