// Mosaics of two collections in memory, from lines.
use crate::cubes::cube_of_text;
use oe_lines::{Fault, first_word, parts_of};
use oe_mosaic::{Mosaic, Parts};
use oe_sources::MemoryCube;
use std::alloc::Global;

/// The id of the words `ID TEXT | TEXT`, and the mosaic of the collections of these cube texts; behind the verb
/// `remainder` the first of them is taken out again. These reads of the second fail.
pub(crate) fn named_mosaic<'a>(
    alloc: Global,
    verb: &str,
    line: &'a str,
    failing: &[u64],
) -> Result<(&'a str, Mosaic<MemoryCube>), Fault> {
    let (id, texts) = first_word(line);
    let (first, second) = parts_of(texts, " | ")?;
    let mut parts = Parts::new(alloc);
    push_part(alloc, first, &[], &mut parts)?;
    push_part(alloc, second, failing, &mut parts)?;
    if verb == "remainder" {
        take_first(&mut parts);
    }
    match Mosaic::of(alloc, parts) {
        Ok(mosaic) => Ok((id, mosaic)),
        Err(_) => Err(Fault::Line),
    }
}

/// Adds the collection of a cube text, of which these reads fail.
fn push_part(
    alloc: Global,
    text: &str,
    failing: &[u64],
    parts: &mut Parts<MemoryCube>,
) -> Result<(), Fault> {
    let cube = cube_of_text(alloc, text, failing)?;
    match parts.push(cube) {
        Ok(()) => Ok(()),
        Err(_) => Err(Fault::Line),
    }
}

fn take_first(parts: &mut Parts<MemoryCube>) {
    let _first = parts.remove(0);
}
