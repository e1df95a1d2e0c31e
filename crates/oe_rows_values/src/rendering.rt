// Texts that are read, and texts that are rendered from stores.
use crate::store::{HiddenStore, hidden_store, push_bytes, record_bytes, stored_bytes};
use oe_cell::Cell;
use oe_dims::{CellKind, Shape};
use oe_lines::{Answers, Fault, Line, push, push_number};
use oe_outside::{MemorySink, Pending};
use oe_render::{CubeText, CubeTextFail, RenderFail, read_cube_text, render};
use std::alloc::Global;

/// How many bytes an output has room for.
const OUT_ROOM: usize = 1048576;

/// How many cells are lent at most.
const CELL_ROOM: usize = 30000;

/// How many cells are lent while a text that was read is rendered.
const READ_ROOM: usize = 16;

/// What is lent to each rendering.
pub(crate) struct Lent {
    cells: Vec<Cell>,
    pending: Pending,
}

/// Written out, so that such a value ends by one call wherever it does.
impl Drop for Lent {
    fn drop(self) {
        let Lent {
            cells: _,
            pending: _,
        } = self;
    }
}

impl Lent {
    pub(crate) fn new(alloc: Global) -> Result<Lent, Fault> {
        let cells = vec![in alloc; Cell::Empty; CELL_ROOM]?;
        Ok(Lent {
            cells,
            pending: Pending::new(alloc)?,
        })
    }
}

/// Reads a text, and answers what it says.
pub(crate) fn text(line: &mut Line, lent: &mut Lent, answers: &mut Answers) {
    let text = line.rest();
    read_text(line.alloc(), text.as_bytes(), lent, answers);
}

/// Reads the bytes of a line likewise.
pub(crate) fn bytes(line: &mut Line, lent: &mut Lent, answers: &mut Answers) {
    read_text(line.alloc(), &line.bytes(), lent, answers);
}

/// Reads a text with blanks behind it up to a size likewise.
pub(crate) fn padded(line: &mut Line, lent: &mut Lent, answers: &mut Answers) {
    let size = line.number();
    match padded_bytes(line.alloc(), line.rest(), size) {
        Ok(bytes) => read_text(line.alloc(), &bytes, lent, answers),
        Err(fault) => line.note(fault),
    }
}

fn read_text(alloc: Global, bytes: &[u8], lent: &mut Lent, answers: &mut Answers) {
    match read_cube_text(alloc, bytes) {
        Ok(cube) => {
            let outcome = answer_cube(alloc, &cube, lent, answers);
            answers.settle(outcome);
        }
        Err(CubeTextFail::Invalid) => push("invalid", answers),
        Err(CubeTextFail::OutOfMemory) => answers.note(Fault::OutOfMemory),
    }
}

/// Answers the kind of the cells, and the cube as it is rendered from their records.
fn answer_cube(
    alloc: Global,
    cube: &CubeText,
    lent: &mut Lent,
    answers: &mut Answers,
) -> Result<(), Fault> {
    push(kind_word(cube.kind), answers);
    let bytes = record_bytes(alloc, 0, &cube.cells)?;
    let mut store = hidden_store(bytes, Vec::new(alloc))?;
    let out = MemorySink::new(alloc, OUT_ROOM, Vec::new(alloc))?;
    render_store(
        alloc,
        &cube.shape,
        &mut store,
        0,
        READ_ROOM,
        out,
        lent,
        answers,
    );
    Ok(())
}

fn kind_word(kind: CellKind) -> &'static str {
    match kind {
        CellKind::Numbers => "numbers ",
        CellKind::Flags => "flags ",
    }
}

/// Renders what a line says, and answers the outcome.
pub(crate) fn render_row(line: &mut Line, shape: &Shape, lent: &mut Lent, answers: &mut Answers) {
    let base = line.number();
    let read = line.numbers();
    let write = line.numbers();
    let room = line.number();
    let bytes = stored_bytes(line.alloc(), base, &line.cells(), &line.bytes());
    let bytes = line.value_or(bytes, Vec::new(line.alloc()));
    let outcome = render_bytes(
        line.alloc(),
        shape,
        (bytes, read, write),
        (base, room),
        lent,
        answers,
    );
    line.settle(outcome);
}

/// Renders what a store of these bytes has from a base on, through so many cells, while these reads of the store and
/// these writes of the output fail.
fn render_bytes(
    alloc: Global,
    shape: &Shape,
    (bytes, read, write): (Vec<u8>, Vec<u64>, Vec<u64>),
    (base, room): (u16, usize),
    lent: &mut Lent,
    answers: &mut Answers,
) -> Result<(), Fault> {
    let mut store = hidden_store(bytes, read)?;
    let out = MemorySink::new(alloc, OUT_ROOM, write)?;
    render_store(alloc, shape, &mut store, base, room, out, lent, answers);
    Ok(())
}

/// Renders what a store has from a base on, through so many cells, and answers the outcome.
fn render_store(
    alloc: Global,
    shape: &Shape,
    store: &mut HiddenStore,
    base: u16,
    room: usize,
    mut out: MemorySink,
    lent: &mut Lent,
    answers: &mut Answers,
) {
    if room == 0 || room > lent.cells.len() {
        return answers.note(Fault::Line);
    }
    let outcome = render(
        shape,
        store,
        u64::from(base),
        &mut out,
        &mut lent.cells[..room],
        &mut lent.pending,
    );
    spell_outcome(outcome, answers);
    push_bytes(alloc, out.bytes(), true, answers);
}

fn spell_outcome(outcome: Result<(), RenderFail>, answers: &mut Answers) {
    match outcome {
        Ok(()) => push("written", answers),
        Err(RenderFail::SpoolFailed) => push("SpoolFailed", answers),
        Err(RenderFail::SinkFailed) => push("SinkFailed", answers),
        Err(RenderFail::SpoolDamaged(number)) => push_number("SpoolDamaged ", number, answers),
    }
}

/// The bytes of a text, with blanks behind it up to a size.
fn padded_bytes(alloc: Global, text: &str, size: usize) -> Result<Vec<u8>, Fault> {
    let mut bytes = text.as_bytes().to_vec(alloc)?;
    for _index in bytes.len()..size {
        bytes.push(b' ')?;
    }
    Ok(bytes)
}
