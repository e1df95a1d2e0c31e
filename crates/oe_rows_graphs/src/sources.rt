// Collections that are mounted, replaced, detached, read and written as cube files.
ghost use Rattle.std.specs.Prelude.{◌≡◌, ◌<◌, IfOk, length};
ghost use Rattle.oe_dims.specs.Dimensions.{cell_count};
ghost use Rattle.oe_sources.specs.CatalogueRows.{rows_of};

use crate::cubes::source_of;
use oe_cell::Cell;
use oe_dims::{Shape, Text, is_name};
use oe_lines::{
    Answers, Fault, end_line, first_word, numbers_of, parts_of, push, push_all, push_cell,
    push_digits, push_number,
};
use oe_outside::{MemorySink, NoGate};
use oe_sources::{Catalogue, CubeSource, MountFail, RepackFail, SharedSource, SourceFail, repack};
use oe_window::whole;
use std::alloc::Global;

/// The most cells of a collection that is read.
const MOST_CELLS: u64 = 1000;

/// How many bytes a file has room for.
const ROOM: usize = 400;

/// The id of a file that is written.
const ID: &str = "Z";

// Boxes are made here and taken out of the catalogue, which is handed to no function that does either.
/// Appends the answers to lines about collections.
pub(crate) fn answer_sources(
    alloc: Global,
    text: &str,
    answers: &mut Answers,
) -> Result<(), Fault> {
    let mut catalogue = Catalogue::new(alloc);
    for line in text.lines() {
        let (verb, rest) = first_word(line);
        match verb {
            "#" => {}
            "catalogue" => catalogue = Catalogue::new(alloc),
            "demo" => catalogue = Catalogue::generated(alloc, 0, 2)?,
            "mount" => {
                let (id, cube) = source_of(alloc, rest)?;
                spell_mounted(catalogue.mount(id, Box::new(alloc, cube)?), answers);
            }
            "replace" => {
                let (id, cube) = source_of(alloc, rest)?;
                spell_replaced(catalogue.replace(id, Box::new(alloc, cube)?), answers);
            }
            "detach" => spell_detached(catalogue.detach(rest), answers),
            _ => answer_to(alloc, verb, rest, &mut catalogue, answers)?,
        }
    }
    Ok(())
}

fn answer_to(
    alloc: Global,
    verb: &str,
    rest: &str,
    catalogue: &mut Catalogue,
    answers: &mut Answers,
) -> Result<(), Fault> {
    match verb {
        "read" => read(alloc, rest, catalogue, answers),
        "list" => list(catalogue, answers),
        "repack" => write_file(alloc, rest, catalogue, answers),
        _ => Err(Fault::Line),
    }
}

/// The row of an id and its cells.
fn read(
    alloc: Global,
    id: &str,
    catalogue: &mut Catalogue,
    answers: &mut Answers,
) -> Result<(), Fault> {
    let Some(place) = catalogue.place(id) else {
        push("none\n", answers);
        return Ok(());
    };
    push_number("", place, answers);
    read_row(alloc, place, catalogue, answers)
}

fn read_row(
    alloc: Global,
    place: u32,
    catalogue: &mut Catalogue,
    answers: &mut Answers,
) -> Result<(), Fault>
    requires { place < length (rows_of seen catalogue.old) }
{
    let mut cells = room_for(alloc, catalogue.shape(place))?;
    let window = whole(catalogue.shape(place));
    let answer = catalogue.read(place, &window, &mut cells);
    spell_read(answer, &cells, answers);
    Ok(())
}

/// Room for the cells of a shape.
pub(crate) fn room_for(alloc: Global, shape: &Shape) -> Result<Vec<Cell>, Fault>
    ensures { IfOk result (λ cells. length cells.items ≡ cell_count shape.now) }
{
    let count = shape.cells();
    if count > MOST_CELLS {
        return Err(Fault::Line);
    }
    Ok(vec![in alloc; Cell::Empty; count as usize]?)
}

/// The ids of the rows for graphs.
fn list(catalogue: &Catalogue, answers: &mut Answers) -> Result<(), Fault> {
    let dims = catalogue.dims()?;
    push("ids", answers);
    for row in &dims.rows {
        push_all(&[" ", row.id.as_str()], answers);
    }
    end_line(answers);
    Ok(())
}

/// The end of a file that is written while these writes fail, and its bytes in hexadecimal digits.
fn write_file(
    alloc: Global,
    line: &str,
    catalogue: &mut Catalogue,
    answers: &mut Answers,
) -> Result<(), Fault> {
    let (calls, id) = parts_of(line, " ")?;
    let Some(place) = catalogue.place(id) else {
        return Err(Fault::Line);
    };
    let mut out = MemorySink::new(alloc, ROOM, numbers_of(alloc, calls)?)?;
    let word = write_row(alloc, place, catalogue, &mut out)?;
    push_digits(alloc, word, out.bytes(), answers);
    end_line(answers);
    Ok(())
}

fn write_row(
    alloc: Global,
    place: u32,
    catalogue: &mut Catalogue,
    out: &mut MemorySink,
) -> Result<&'static str, Fault>
    requires { place < length (rows_of seen catalogue.old) }
{
    let id = Text::of(alloc, ID)?;
    if !is_name(id.as_str()) {
        return Err(Fault::Line);
    }
    word_of(repack(alloc, catalogue, place, &id, out, &NoGate))
}

fn word_of(answer: Result<(), RepackFail>) -> Result<&'static str, Fault> {
    match answer {
        Ok(()) => Ok("written:"),
        Err(RepackFail::SourceFailed) => Ok("source failed:"),
        Err(RepackFail::SinkFailed) => Ok("sink failed:"),
        Err(RepackFail::SourceDamaged(_)) => Err(Fault::Line),
        Err(RepackFail::OutOfMemory) => Err(Fault::OutOfMemory),
    }
}

/// What a mount answered, with the box of a refusal.
fn spell_mounted(answer: Result<(), MountFail>, answers: &mut Answers) {
    match answer {
        Ok(()) => push("mounted\n", answers),
        Err(MountFail::IdInvalid(cube)) => spell_box("invalid", cube, answers),
        Err(MountFail::IdTaken(cube)) => spell_box("taken", cube, answers),
        Err(MountFail::Full(cube)) => spell_box("full", cube, answers),
        Err(MountFail::OutOfMemory(_)) => answers.note(Fault::OutOfMemory),
    }
}

/// The old box of an id, or the given one where none was replaced.
fn spell_replaced(
    answer: Result<Box<dyn SharedSource>, Box<dyn SharedSource>>,
    answers: &mut Answers,
) {
    match answer {
        Ok(cube) => spell_box("replaced", cube, answers),
        Err(cube) => spell_box("none", cube, answers),
    }
}

/// The box of an id that was taken out, if there was one.
fn spell_detached(answer: Option<Box<dyn SharedSource>>, answers: &mut Answers) {
    match answer {
        Some(cube) => spell_box("detached", cube, answers),
        None => push("none\n", answers),
    }
}

/// A word, and the one cell of a box.
fn spell_box(word: &str, mut cube: Box<dyn SharedSource>, answers: &mut Answers) {
    push(word, answers);
    let shape = cube.shape();
    if shape.cells() != 1 {
        return answers.note(Fault::Line);
    }
    let window = whole(shape);
    let mut cells = [Cell::Over; 1];
    let answer = cube.read(&window, &mut cells);
    spell_read(answer, &cells, answers);
}

/// The cells of a read, or that it failed.
fn spell_read(answer: Result<(), SourceFail>, cells: &[Cell], answers: &mut Answers) {
    match answer {
        Ok(()) => spell_cells(cells, answers),
        Err(SourceFail::Failed) => push(" failed\n", answers),
        Err(SourceFail::Damaged(_)) => answers.note(Fault::Line),
    }
}

fn spell_cells(cells: &[Cell], answers: &mut Answers) {
    for cell in cells {
        push_cell(*cell, answers);
    }
    end_line(answers);
}
