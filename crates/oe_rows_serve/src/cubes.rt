// Collections from lines.
use oe_lines::{Fault, bytes_of, cells_of_kind, first_word, numbers_of};
use oe_outside::MemoryStore;
use oe_render::{CubeText, CubeTextFail, read_cube_text};
use oe_sources::{FileSource, MemoryCube};
use std::alloc::Global;

/// The collection of the words `CALLS TEXT`: of this cube text, and these reads of it fail.
pub(crate) fn cube_of(alloc: Global, line: &str) -> Result<MemoryCube, Fault> {
    let (calls, text) = first_word(line);
    let CubeText { shape, kind, cells } = cube_text_of(alloc, text)?;
    let cells = cells_of_kind(alloc, kind, &cells)?;
    if cells.len() as u64 != shape.cells() {
        return Err(Fault::Line);
    }
    Ok(MemoryCube::new(shape, kind, cells, numbers_of(alloc, calls)?))
}

fn cube_text_of(alloc: Global, text: &str) -> Result<CubeText, Fault> {
    match read_cube_text(alloc, text.as_bytes()) {
        Ok(cube) => Ok(cube),
        Err(CubeTextFail::Invalid) => Err(Fault::Line),
        Err(CubeTextFail::OutOfMemory) => Err(Fault::OutOfMemory),
    }
}

/// The collection of a cube file of the bytes of these digits.
pub(crate) fn file_of(alloc: Global, digits: &str) -> Result<FileSource<MemoryStore>, Fault> {
    let bytes = bytes_of(alloc, digits)?;
    let length = bytes.len();
    let store = MemoryStore::new(bytes, length, Vec::new(alloc))?;
    match FileSource::open(alloc, store) {
        Ok(source) => Ok(source),
        Err(_) => Err(Fault::Line),
    }
}
