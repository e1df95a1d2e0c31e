// Records that are read from a store.
ghost use Rattle.std.specs.Prelude.{◌≡◌, ◌+◌, ◌*◌, ◌≤◌, ◌<◌, IfErr, IfNone, IfOk, IfSome, None, OnOk, Some, drop, length, take};
ghost use Rattle.oe_cell.specs.Cells.{IsCell};
ghost use Rattle.oe_cell.specs.Record.{IsRecord, record_of};
ghost use Rattle.oe_outside.specs.Faults.{HasCauseOf};
ghost use Rattle.oe_outside.specs.Stored.{StoreHolds};
ghost use Rattle.oe_parts.specs.Rows.{AreRecords, TellsDamage};

use oe_cell::{Cell, read_record};
use oe_outside::Store;

/// How many bytes the records of a row of the longest chunk have, which has 4096 cells.
pub(crate) const BYTES: usize = 17 * 4096;

/// Why records were not read.
#[derive(Clone, Copy)]
pub(crate) enum ReadFail {
    /// The store's fault counter rose.
    Failed,
    /// What stands for the cell with this index is no record.
    Damaged(usize),
}

/// Reads the records of so many cells, which stand from an offset on, and answers the index of the first of these cells
/// that is `Over`.
///
/// Refuses: `Failed` only where the store's fault counter rose; `Damaged` only with the first cell for which no record
/// stands there.
pub(crate) fn read_cells<S: Store>(
    store: &mut S,
    at: u64,
    bytes: &mut [u8],
    count: usize,
) -> Result<Option<usize>, ReadFail>
    requires { length bytes.old ≡ 17 * count }
    ensures cells { IfOk result (AreRecords count bytes.new) }
    ensures held { OnOk result (StoreHolds (S.bytes store.old) at bytes.new) }
    ensures damage { IfErr result (TellsDamage (S.bytes store.old) at count) }
    ensures cause { HasCauseOf ReadFail.Failed (S.faults store.old) (S.faults store.new) result }
    ensures same { S.bytes store.new ≡ S.bytes store.old }
{
    let Ok(given) = store.read_at(at, bytes) else {
        return Err(ReadFail::Failed);
    };
    match judge(&bytes[..given], count) {
        Ok(over) => Ok(over),
        Err(index) => Err(ReadFail::Damaged(index)),
    }
}

/// The index of the first cell that is `Over`, of so many whose records the bytes begin with.
///
/// Refuses: with the index of the first cell for which no record stands there.
fn judge(bytes: &[u8], count: usize) -> Result<Option<usize>, usize>
    ensures cells { IfOk result (λ over. (17 * count ≤ length bytes.now)
        × AreRecords count (take (17 * count) bytes.now) over) }
    ensures none { IfErr result (λ index. (index < count)
        × ¬ IsRecord (take 17 (drop (17 * index) bytes.now))) }
{
    let whole = (bytes.len() / 17).min(count);
    for index in 0..whole {
        match cell_at(bytes, 17 * index) {
            Some(cell) => {
                if cell.is_over() {
                    return judge_rest(bytes, count, index);
                }
            }
            None => return Err(index),
        }
    }
    if whole < count { Err(whole) } else { Ok(None) }
}

/// The same where the cell with an index is the first that is `Over`: those behind it are only to have records.
fn judge_rest(bytes: &[u8], count: usize, over: usize) -> Result<Option<usize>, usize>
    requires room { 17 * (over + 1) ≤ length bytes.now }
    requires within { over < count }
    requires cells { AreRecords (over + 1) (take (17 * (over + 1)) bytes.now) (Some over) }
    ensures cells { IfOk result (λ over. (17 * count ≤ length bytes.now)
        × AreRecords count (take (17 * count) bytes.now) over) }
    ensures none { IfErr result (λ index. (index < count)
        × ¬ IsRecord (take 17 (drop (17 * index) bytes.now))) }
{
    let whole = (bytes.len() / 17).min(count);
    for index in over + 1..whole {
        match cell_at(bytes, 17 * index) {
            Some(_cell) => {}
            None => return Err(index),
        }
    }
    if whole < count {
        Err(whole)
    } else {
        Ok(Some(over))
    }
}

/// The cell whose record stands at an offset.
#[inline(always)]
fn cell_at(bytes: &[u8], at: usize) -> Option<Cell>
    requires { at + 17 ≤ length bytes.now }
    ensures cell { IfSome result (λ c. IsCell c × (record_of c ≡ take 17 (drop at bytes.now))) }
    ensures none { IfNone result (¬ IsRecord (take 17 (drop at bytes.now))) }
{
    let record = record_at(bytes, at);
    read_record(&record)
}

#[inline(always)]
fn record_at(bytes: &[u8], at: usize) -> [u8; 17]
    requires { at + 17 ≤ length bytes.now }
    ensures { result ≡ take 17 (drop at bytes.now) }
{
    let mut record = [0; 17];
    record.copy_from_slice(&bytes[at..at + 17]);
    record
}
