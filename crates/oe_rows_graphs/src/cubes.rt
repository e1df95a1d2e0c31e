// Collections in memory, and cube files, from lines.
use oe_cell::Cell;
use oe_dims::{CellKind, Shape, Text};
use oe_lines::{
    Fault, bytes_of, cells_of, cells_of_kind, first_word, numbers_of, parts_of, valid_shape_of,
    words_of,
};
use oe_outside::MemoryStore;
use oe_render::{CubeText, CubeTextFail, read_cube_text};
use oe_sources::{FileSource, MemoryCube, OpenFail};
use std::alloc::Global;

/// The id and the collection of a line: of the words `ID TEXT` behind `cube`, and behind another verb of
/// `ID KIND SHAPE CELLS`. These reads of it fail.
pub(crate) fn named_cube<'a>(
    alloc: Global,
    verb: &str,
    line: &'a str,
    failing: &[u64],
) -> Result<(&'a str, MemoryCube), Fault> {
    if verb != "cube" {
        return collection_of(alloc, line, failing);
    }
    let (id, text) = first_word(line);
    Ok((id, cube_of_text(alloc, text, failing)?))
}

/// The id of the words `ID KIND SHAPE`, and the collection of nulls, or of the cells behind them.
fn collection_of<'a>(
    alloc: Global,
    line: &'a str,
    failing: &[u64],
) -> Result<(&'a str, MemoryCube), Fault> {
    let (id, rest) = first_word(line);
    let (kind, rest) = first_word(rest);
    let [_, _, _, _, _, cells, ..] = words_of(rest);
    let shape = valid_shape_of(alloc, rest)?;
    let cells = if cells.is_empty() {
        nulls(alloc, shape.cells())?
    } else {
        cells_of(alloc, cells)?
    };
    let failing = failing.to_vec(alloc)?;
    Ok((id, cube_of(alloc, shape, kind_of(kind)?, &cells, failing)?))
}

/// The id of the words `CELLS CALLS ID`, and the collection of these numbers, of which these reads fail.
pub(crate) fn source_of(alloc: Global, line: &str) -> Result<(&str, MemoryCube), Fault> {
    let (cells, rest) = parts_of(line, " ")?;
    let (calls, id) = parts_of(rest, " ")?;
    let cells = cells_of(alloc, cells)?;
    let words = if cells.len() == 1 {
        "0 - - - -"
    } else {
        "4326 0,60 - - 0,10"
    };
    let shape = valid_shape_of(alloc, words)?;
    let failing = numbers_of(alloc, calls)?;
    Ok((
        id,
        cube_of(alloc, shape, CellKind::Numbers, &cells, failing)?,
    ))
}

/// The collection of a cube text, of which the reads of these numbers fail.
pub(crate) fn cube_of_text(
    alloc: Global,
    text: &str,
    failing: &[u64],
) -> Result<MemoryCube, Fault> {
    match read_cube_text(alloc, text.as_bytes()) {
        Ok(cube) => {
            let CubeText { shape, kind, cells } = cube;
            cube_of(alloc, shape, kind, &cells, failing.to_vec(alloc)?)
        }
        Err(CubeTextFail::Invalid) => Err(Fault::Line),
        Err(CubeTextFail::OutOfMemory) => Err(Fault::OutOfMemory),
    }
}

pub(crate) fn cube_of(
    alloc: Global,
    shape: Shape,
    kind: CellKind,
    cells: &[Cell],
    failing: Vec<u64>,
) -> Result<MemoryCube, Fault> {
    let cells = cells_of_kind(alloc, kind, cells)?;
    if cells.len() as u64 != shape.cells() {
        return Err(Fault::Line);
    }
    Ok(MemoryCube::new(shape, kind, cells, failing))
}

fn nulls(alloc: Global, count: u64) -> Result<Vec<Cell>, Fault> {
    let mut cells = Vec::new(alloc);
    for _index in 0..count {
        cells.push(Cell::Empty)?;
    }
    Ok(cells)
}

pub(crate) fn kind_of(word: &str) -> Result<CellKind, Fault> {
    match word {
        "number" => Ok(CellKind::Numbers),
        "boolean" => Ok(CellKind::Flags),
        _ => Err(Fault::Line),
    }
}

/// The id and the collection of a cube file of the bytes of these digits; or, where they are no cube file, whether they
/// stand in the store that is handed back.
pub(crate) fn named_file(
    alloc: Global,
    digits: &str,
) -> Result<Result<(Text, FileSource<MemoryStore>), &'static str>, Fault> {
    let bytes = bytes_of(alloc, digits)?;
    let length = bytes.len();
    let store = MemoryStore::new(bytes, length, Vec::new(alloc))?;
    match FileSource::open(alloc, store) {
        Ok(source) => Ok(Ok((source.id().copy()?, source))),
        Err(OpenFail::Invalid(store)) => Ok(Err(refused_word(alloc, store.bytes(), digits)?)),
        Err(_) => Err(Fault::OutOfMemory),
    }
}

fn refused_word(alloc: Global, bytes: &[u8], digits: &str) -> Result<&'static str, Fault> {
    if hex::encode(alloc, bytes)?.as_str() == digits {
        Ok("invalid\n")
    } else {
        Ok("changed\n")
    }
}
