// What the lines so far have made: collections, users, and a job book at a moment.
use crate::events::change_of;
use oe_dims::{CellKind, Dims, DimsRow, Text};
use oe_jobs::{Book, Change};
use oe_lines::{Fault, first_word, number_of, valid_shape_of};
use oe_routes::{Site, Tokens};
use serde_json::Value;
use std::alloc::Global;

pub(crate) struct Known {
    pub(crate) dims: Dims,
    pub(crate) site: Site,
    pub(crate) book: Book,
    pub(crate) now: i64,
}

/// Written out, so that what was made is one call wherever it ends.
impl Drop for Known {
    fn drop(self) {
        let Known {
            dims: _,
            site: _,
            book: _,
            now: _,
        } = self;
    }
}

/// Nothing yet: no collections, users and jobs.
pub(crate) fn nothing(alloc: Global) -> Result<Known, Fault> {
    Ok(Known {
        dims: Dims {
            rows: Vec::new(alloc),
        },
        site: site_of(alloc, b"")?,
        book: Book::empty(alloc),
        now: 0,
    })
}

fn site_of(alloc: Global, tokens: &[u8]) -> Result<Site, Fault> {
    match Tokens::read(alloc, tokens) {
        Ok(tokens) => Ok(Site {
            base: Text::of(alloc, "http://127.0.0.1:12345/")?,
            tokens,
        }),
        Err(_) => Err(Fault::Line),
    }
}

/// Takes away all that was made.
pub(crate) fn clear(alloc: Global, known: &mut Known) -> Result<(), Fault> {
    *known = nothing(alloc)?;
    Ok(())
}

/// Sets the file of tokens, a JSON text.
pub(crate) fn set_tokens(alloc: Global, text: &str, known: &mut Known) -> Result<(), Fault> {
    match Value::from_str(alloc, text) {
        Ok(Value::String(file)) => known.site = site_of(alloc, file.as_bytes())?,
        _ => return Err(Fault::Line),
    }
    Ok(())
}

/// Sets where the service stands.
pub(crate) fn set_base(alloc: Global, text: &str, known: &mut Known) -> Result<(), Fault> {
    known.site.base = Text::of(alloc, text)?;
    Ok(())
}

/// Sets the moment.
pub(crate) fn set_now(text: &str, known: &mut Known) -> Result<(), Fault> {
    known.now = number_of(text)?;
    Ok(())
}

/// Mounts a collection of an id, a kind and a shape.
pub(crate) fn add_collection(alloc: Global, line: &str, known: &mut Known) -> Result<(), Fault> {
    let (id, line) = first_word(line);
    let (kind, line) = first_word(line);
    known.dims.rows.push(row_of(alloc, id, kind, line)?)?;
    Ok(())
}

fn row_of(alloc: Global, id: &str, kind: &str, shape: &str) -> Result<DimsRow, Fault> {
    Ok(DimsRow {
        id: Text::of(alloc, id)?,
        shape: valid_shape_of(alloc, shape)?,
        kind: if kind == "boolean" {
            CellKind::Flags
        } else {
            CellKind::Numbers
        },
    })
}

/// Makes the change of an event, where it may come.
pub(crate) fn add_event(alloc: Global, line: &str, known: &mut Known) -> Result<(), Fault> {
    match change_of(alloc, line, &known.book, known.now)? {
        Some(change) => make(known, change),
        None => Err(Fault::Line),
    }
}

/// Makes a change in the book.
pub(crate) fn make(known: &mut Known, change: Change) -> Result<(), Fault> {
    known.book.ready(&change)?;
    known.book.install(change);
    Ok(())
}
