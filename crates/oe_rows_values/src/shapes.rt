// Shapes, their labels and their cells, and instants.
use oe_dims::{
    BandIndex, CellKind, Dims, DimsRow, InstantFault, Kind, Shape, ShapeFault, Text, print_instant,
    read_instant,
};
use oe_lines::{
    Answers, Fault, Line, names_of, push, push_all, push_number, shape_of, valid_shape_of,
};
use std::alloc::Global;

/// The first and the last instant: the years 1 to 9999.
const FIRST: i64 = -62135596800;

const LAST: i64 = 253402300799;

/// Appends how many cells a shape has, which is kept, or its fault.
pub(crate) fn shape(line: &mut Line, shapes: &mut Vec<Shape>, answers: &mut Answers) {
    match shape_of(line.alloc(), line.rest()) {
        Ok(Ok(shape)) => {
            push_number("", shape.cells(), answers);
            keep(shape, shapes, answers);
        }
        Ok(Err(fault)) => push_fault(fault, answers),
        Err(fault) => line.note(fault),
    }
}

/// Appends nothing, and keeps a shape.
pub(crate) fn given(line: &mut Line, shapes: &mut Vec<Shape>, answers: &mut Answers) {
    match valid_shape_of(line.alloc(), line.rest()) {
        Ok(shape) => keep(shape, shapes, answers),
        Err(fault) => line.note(fault),
    }
}

fn keep(shape: Shape, shapes: &mut Vec<Shape>, answers: &mut Answers) {
    if shapes.push(shape).is_err() {
        answers.note(Fault::OutOfMemory);
    }
}

/// Appends how many bands a shape of these names alone has, or its fault.
pub(crate) fn bands(line: &mut Line, answers: &mut Answers) {
    let names = names_of(line.alloc(), line.rest());
    match Shape::new(0, None, line.value_or(names, None), None, None) {
        Ok(shape) => push_number("", shape.bands().len(), answers),
        Err(fault) => push_fault(fault, answers),
    }
}

/// Appends the index of a label, and the label that stands there.
pub(crate) fn label(line: &mut Line, shape: &Shape, answers: &mut Answers) {
    let kind = kind_of(line);
    answer_label(kind, line.number(), shape, answers);
}

fn answer_label(kind: Kind, label: i64, shape: &Shape, answers: &mut Answers) {
    match shape.position_of(kind, label) {
        Some(index) => {
            push_number("", index, answers);
            push_number(" ", shape.label_at(kind, index), answers)
        }
        None => push("none", answers),
    }
}

pub(crate) fn range(line: &mut Line, shape: &Shape, answers: &mut Answers) {
    let kind = kind_of(line);
    let from = line.number();
    let to = line.number();
    let (first, end) = shape.range_of(kind, from, to);
    push_number("", first, answers);
    push_number("..", end, answers);
}

/// Appends the index of a band by a walk, by an index of the bands, and the name that stands there.
pub(crate) fn band(line: &mut Line, shape: &Shape, answers: &mut Answers) {
    let outcome = find_band(line.alloc(), line.rest(), shape, answers);
    line.settle(outcome);
}

fn find_band(alloc: Global, name: &str, shape: &Shape, answers: &mut Answers) -> Result<(), Fault> {
    let name = Text::of(alloc, name)?;
    answer_band(shape, &name, index_of(alloc, shape, &name)?, answers);
    Ok(())
}

/// The index of a band by an index of the bands.
fn index_of(alloc: Global, shape: &Shape, name: &Text) -> Result<Option<u32>, Fault> {
    let index = BandIndex::of(alloc, shape)?;
    Ok(index.find(shape, name))
}

fn answer_band(shape: &Shape, name: &Text, found: Option<u32>, answers: &mut Answers) {
    match shape.band_position(name) {
        Some(index) => {
            push_number("", index, answers);
            push_option(" ", found, answers);
            push_all(&[" ", shape.band_at(index).as_str()], answers)
        }
        None => push_option("none ", found, answers),
    }
}

/// Appends the reference system and how many labels each dimension has.
pub(crate) fn counts(shape: &Shape, answers: &mut Answers) {
    push_number("", shape.epsg(), answers);
    for kind in [Kind::Time, Kind::Bands, Kind::Y, Kind::X] {
        push_option(" ", shape.count(kind), answers);
    }
}

/// Appends along which dimensions the last two shapes have the same labels, and that a copy has all of the last.
pub(crate) fn same(shapes: &[Shape], answers: &mut Answers) {
    let count = shapes.len();
    if count < 2 {
        return answers.note(Fault::Line);
    }
    let shape = &shapes[count - 1];
    match shape.copy() {
        Ok(copy) => answer_same(shape, &shapes[count - 2], &copy, answers),
        Err(_) => answers.note(Fault::OutOfMemory),
    }
}

fn answer_same(shape: &Shape, other: &Shape, copy: &Shape, answers: &mut Answers) {
    for kind in [Kind::Time, Kind::Bands, Kind::Y, Kind::X] {
        let with_other = flag_word(shape.has_same_labels(other, kind));
        let with_copy = flag_word(shape.has_same_labels(copy, kind));
        push_all(&[with_other, " ", with_copy, " "], answers);
    }
}

/// Appends whether so many cells make a cube of the shape.
pub(crate) fn cube(line: &mut Line, shape: &Shape, answers: &mut Answers) {
    let count = usize::from(line.number::<u16>());
    match vec![in line.alloc(); 0u8; count] {
        Ok(cells) => push(flag_word(shape.is_cube(&cells)), answers),
        Err(_) => line.note(Fault::OutOfMemory),
    }
}

pub(crate) fn texts(line: &mut Line, answers: &mut Answers) {
    let one = Text::of(line.alloc(), line.word());
    let two = Text::of(line.alloc(), line.rest());
    match (one, two) {
        (Ok(one), Ok(two)) => push(sign_of(&one, &two), answers),
        _ => line.note(Fault::OutOfMemory),
    }
}

fn sign_of(one: &Text, two: &Text) -> &'static str {
    if one == two {
        "="
    } else if one < two {
        "<"
    } else {
        ">"
    }
}

/// Appends the row of a collection of this id and the shape, copied: how many rows there are, its id and its kind.
pub(crate) fn row(line: &mut Line, shape: &Shape, answers: &mut Answers) {
    match copied_row(line.alloc(), line.rest(), shape) {
        Ok(copy) => answer_rows(&copy.rows, answers),
        Err(fault) => line.note(fault),
    }
}

fn copied_row(alloc: Global, id: &str, shape: &Shape) -> Result<Dims, Fault> {
    rows_of(alloc, row_of(alloc, id, shape)?)
}

fn row_of(alloc: Global, id: &str, shape: &Shape) -> Result<DimsRow, Fault> {
    let id = Text::of(alloc, id)?;
    let shape = shape.copy()?;
    let kind = CellKind::Numbers;
    Ok(DimsRow { id, shape, kind })
}

/// A copy of one row alone.
fn rows_of(alloc: Global, row: DimsRow) -> Result<Dims, Fault> {
    let mut rows = Vec::new(alloc);
    rows.push(row)?;
    Ok(Dims { rows }.copy()?)
}

fn answer_rows(rows: &[DimsRow], answers: &mut Answers) {
    push_number("", rows.len(), answers);
    for row in rows {
        push_all(&[" ", row.id.as_str()], answers);
        push_number(cell_word(row.kind), row.shape.epsg(), answers);
    }
}

/// Appends words and a number, where there is one.
fn push_option(words: &str, number: Option<u32>, answers: &mut Answers) {
    push(words, answers);
    match number {
        Some(number) => {
            push_number("Some(", number, answers);
            push(")", answers)
        }
        None => push("None", answers),
    }
}

pub(crate) fn flag_word(flag: bool) -> &'static str {
    if flag { "true" } else { "false" }
}

fn kind_of(line: &mut Line) -> Kind {
    match line.word() {
        "t" => Kind::Time,
        "bands" => Kind::Bands,
        "y" => Kind::Y,
        "x" => Kind::X,
        _ => {
            line.note(Fault::Line);
            Kind::X
        }
    }
}

fn push_fault(fault: ShapeFault, answers: &mut Answers) {
    match fault {
        ShapeFault::OrderWrong(kind) => push_all(&["OrderWrong", kind_word(kind)], answers),
        ShapeFault::OutOfRange(kind) => push_all(&["OutOfRange", kind_word(kind)], answers),
        ShapeFault::TooMany(kind) => push_all(&["TooMany", kind_word(kind)], answers),
        ShapeFault::EpsgWrong => push("EpsgWrong", answers),
        ShapeFault::TooManyCells => push("TooManyCells", answers),
    }
}

fn kind_word(kind: Kind) -> &'static str {
    match kind {
        Kind::Time => "(Time)",
        Kind::Bands => "(Bands)",
        Kind::Y => "(Y)",
        Kind::X => "(X)",
    }
}

fn cell_word(kind: CellKind) -> &'static str {
    match kind {
        CellKind::Numbers => " Numbers ",
        CellKind::Flags => " Flags ",
    }
}

/// Appends the seconds of an instant that is read, or its fault.
pub(crate) fn instant(line: &mut Line, answers: &mut Answers) {
    match read_instant(line.rest()) {
        Ok(seconds) => push_number("", seconds, answers),
        Err(InstantFault::Spelling) => push("Spelling", answers),
        Err(InstantFault::NoSuchDay) => push("NoSuchDay", answers),
    }
}

/// Appends the long spelling of an instant.
pub(crate) fn print(line: &mut Line, answers: &mut Answers) {
    let seconds = line.number();
    if seconds < FIRST || seconds > LAST {
        return line.note(Fault::Line);
    }
    answers.extend(&print_instant(seconds));
}
