// The dimensions of several collections.
ghost use Rattle.std.specs.Prelude.{◌≡◌, IfOk};

use crate::{CellKind, Shape, Text};
use oe_memory::OutOfMemory;

/// A collection by its id, with its shape and the kind of its cells.
pub struct DimsRow {
    /// The id of the collection.
    pub id: Text,
    /// Its dimensions.
    pub shape: Shape,
    /// What its cells are, besides null.
    pub kind: CellKind,
}

/// Written out, so that a row that ends is one call wherever it does.
impl Drop for DimsRow {
    fn drop(self) {
        let DimsRow {
            id: _,
            shape: _,
            kind: _,
        } = self;
    }
}

impl DimsRow {
    /// A copy with equal contents. Refuses: out of memory.
    pub fn copy(&self) -> Result<DimsRow, OutOfMemory>
        ensures { IfOk result (λ r. r ≡ self.now) }
    {
        Ok(DimsRow {
            id: self.id.copy()?,
            shape: self.shape.copy()?,
            kind: self.kind,
        })
    }
}

/// The dimensions of several collections, a row each. Whoever takes them asks that the ids rise in byte order
/// (`HaveRisingIds`).
pub struct Dims {
    /// A row for each collection.
    pub rows: Vec<DimsRow>,
}

/// Written out, so that a table of rows that ends is one call wherever it does.
impl Drop for Dims {
    fn drop(self) {
        let Dims { rows: _ } = self;
    }
}

impl Dims {
    ghost use Rattle.oe_dims.specs.Plain.{plain_rows};

    /// A copy with equal contents. Refuses: out of memory.
    pub fn copy(&self) -> Result<Dims, OutOfMemory>
        ensures { IfOk result (λ d. plain_rows d ≡ plain_rows self.now) }
    {
        let mut rows = Vec::with_capacity(*self.rows.allocator(), self.rows.len())?;
        for row in &self.rows {
            rows.push(row.copy()?)?;
        }
        Ok(Dims { rows })
    }
}
