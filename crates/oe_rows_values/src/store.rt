// Stores of records.
ghost use Rattle.std.specs.Prelude.{None};

use md5::{Digest, Md5};
use oe_cell::{Cell, write_records};
use oe_lines::{Answers, Fault, push, push_digits, push_number};
use oe_outside::{Failed, MemoryStore, Store};
use std::alloc::Global;

/// The most cells of a store.
const MOST_CELLS: usize = 1000000;

/// How many bytes are spelled one by one at most.
const MOST_SPELLED: usize = 4096;

/// A store whose bytes are hidden to contracts, so that it may hold records that are none.
#[derive(Drop)]
pub(crate) struct HiddenStore {
    store: MemoryStore,
}

impl Store for HiddenStore {
    ghost bytes = { λ _. None };

    ghost faults = { λ s. s.store.faults };

    fn length(&mut self) -> Result<u64, Failed> {
        self.store.length()
    }

    fn read_at(&mut self, at: u64, into: &mut [u8]) -> Result<usize, Failed> {
        self.store.read_at(at, into)
    }

    fn write_at(&mut self, at: u64, piece: &[u8]) -> Result<(), Failed> {
        self.store.write_at(at, piece)
    }
}

/// A store of these bytes, of which these calls fail.
pub(crate) fn hidden_store(bytes: Vec<u8>, calls: Vec<u64>) -> Result<HiddenStore, Fault> {
    let capacity = bytes.len();
    Ok(HiddenStore {
        store: MemoryStore::new(bytes, capacity, calls)?,
    })
}

/// A store of so many bytes 9, of which these calls fail.
pub(crate) fn plain_store(
    alloc: Global,
    count: usize,
    calls: Vec<u64>,
) -> Result<MemoryStore, Fault> {
    let bytes = vec![in alloc; 9; count]?;
    Ok(MemoryStore::new(bytes, count, calls)?)
}

/// So many bytes 9, the records of cells, and bytes behind them.
pub(crate) fn stored_bytes(
    alloc: Global,
    base: u16,
    cells: &[Cell],
    behind: &[u8],
) -> Result<Vec<u8>, Fault> {
    let mut bytes = record_bytes(alloc, base, cells)?;
    bytes.extend_from_slice(behind)?;
    Ok(bytes)
}

/// So many bytes 9, and the records of cells.
pub(crate) fn record_bytes(alloc: Global, base: u16, cells: &[Cell]) -> Result<Vec<u8>, Fault> {
    if cells.len() > MOST_CELLS {
        return Err(Fault::Line);
    }
    let base = usize::from(base);
    let mut bytes = vec![in alloc; 9; base + 17 * cells.len()]?;
    write_records(cells, &mut bytes[base..]);
    Ok(bytes)
}

/// Appends bytes behind a blank, as a text or in hexadecimal digits; of many their number and their digest.
pub(crate) fn push_bytes(alloc: Global, bytes: &[u8], text: bool, answers: &mut Answers) {
    if bytes.len() > MOST_SPELLED {
        let digest = Md5::digest(bytes);
        push_number(" ", bytes.len(), answers);
        return push_digits(alloc, " ", &digest[..], answers);
    }
    if text {
        push(" ", answers);
        answers.extend(bytes);
        return;
    }
    push_digits(alloc, " ", bytes, answers);
}
