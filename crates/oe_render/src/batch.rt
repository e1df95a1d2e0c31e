// Records of a store, read many at a time.
ghost use Rattle.std.specs.Prelude.{◌≡◌, ◌≢◌, ◌+◌, ◌*◌, ◌<◌, ◌≤◌, ◌^◌, ⊤, length, take, IfOk, IfErr, IfSome, OnOk, slice_get, Some};
ghost use Rattle.std.specs.List.{All};
ghost use Rattle.oe_cell.specs.declared.cell.Cell.TheVariants.{Over};
ghost use Rattle.oe_outside.specs.Faults.{HasCause};
ghost use Rattle.oe_render.specs.Rendered.{HasSpoolCause, IsRefusalWithin};
ghost use Rattle.oe_render.specs.Stored.{AreReadFrom, AreStored, HasCells};

use crate::RenderFail;
use oe_cell::{Cell, read_records};
use oe_outside::{Failed, Store};

/// Reads the cells whose records stand at an offset, as many as there is room for. The first has the given index in
/// its cube.
pub(crate) fn read_batch<P: Store>(
    spool: &mut P,
    at: u64,
    index: u64,
    bytes: &mut [u8],
    cells: &mut [Cell],
) -> Result<(), RenderFail>
    requires some { 0 < length cells.old }
    requires room { length bytes.old ≡ 17 * length cells.old }
    requires few { index + length cells.old ≤ 2 ^ 40 }
    requires stored { HasCells (P.bytes spool.old) at (length cells.old) }
    ensures read { OnOk result
        (AreStored (P.bytes spool.old) at (length cells.old) cells.new) }
    ensures cause { HasSpoolCause P.faults spool.old spool.new result }
    ensures damage { IfErr result (IsRefusalWithin (P.bytes spool.old) index
        (index + length cells.old)) }
    ensures only { IfErr result (λ e. e ≢ RenderFail.SinkFailed) }
    ensures same { P.bytes spool.new ≡ P.bytes spool.old }
{
    let count = match read_cells(spool, at, bytes, cells) {
        Ok(count) => count,
        Err(_) => return Err(RenderFail::SpoolFailed),
    };
    let valid = numbered_count(&cells[..count]);
    if valid < cells.len() {
        return Err(RenderFail::SpoolDamaged(index + valid as u64));
    }
    Ok(())
}

/// Reads the cells whose records stand at an offset up to the first that is no record, and answers how many they are.
fn read_cells<P: Store>(
    spool: &mut P,
    at: u64,
    bytes: &mut [u8],
    cells: &mut [Cell],
) -> Result<usize, Failed>
    requires some { 0 < length cells.old }
    requires room { length bytes.old ≡ 17 * length cells.old }
    requires stored { HasCells (P.bytes spool.old) at (length cells.old) }
    ensures within { IfOk result (λ n. n ≤ length cells.old) }
    ensures read { IfOk result (λ n. AreReadFrom (P.bytes spool.old) at (take n cells.new)) }
    // of a store whose bytes are visible all are read
    ensures whole { IfOk result (λ n. IfSome (P.bytes spool.old)
        (λ _. AreStored (P.bytes spool.old) at (length cells.old) (take n cells.new))) }
    ensures same { P.bytes spool.new ≡ P.bytes spool.old }
    ensures cause { HasCause (P.faults spool.old) (P.faults spool.new) result }
{
    let count = spool.read_at(at, bytes)?;
    Ok(read_records(&bytes[..count], cells))
}

/// How many cells stand before the first `Over`.
fn numbered_count(cells: &[Cell]) -> usize
    ensures within { result ≤ length cells.now }
    ensures before { All (λ c. c ≢ Over) (take result cells.now) }
    ensures first { result < length cells.now → slice_get cells.now result ≡ Some Over }
{
    for (index, cell) in cells.iter().enumerate() {
        if cell.is_over() {
            return index;
        }
    }
    cells.len()
}
