// The records of the cells on a window, written run by run.
ghost use Rattle.std.specs.Prelude.{◌≡◌, ◌+◌, ◌*◌, ◌^◌, ◌≤◌, length, OnOk, OnErr};
ghost use Rattle.std.specs.List.{slice_range};
ghost use Rattle.oe_cell.specs.Record.{records_of};
ghost use Rattle.oe_cell.specs.declared.cell.Cell.{Cell};
ghost use Rattle.oe_cell.specs.declared.cell.Cell.TheVariants.{Empty};
ghost use Rattle.oe_dims.specs.Cube.{Cube};
ghost use Rattle.oe_outside.specs.Faults.{HasCause};
ghost use Rattle.oe_outside.specs.Stored.{Puts, StaysOutside, StoreHolds};
ghost use Rattle.oe_spool.specs.Spooled.{ChangesOnly, HoldsWindow};
ghost use Rattle.oe_window.specs.Cells.{cells_on};
ghost use Rattle.oe_window.specs.Windows.{Holds, IsIn, position_count, whole_window};

use oe_cell::{Cell, write_records};
use oe_dims::Shape;
use oe_outside::{Failed, Store};
use oe_window::{Window, runs};

/// The most records that are written at once.
const BATCH: usize = 4096;

/// The bytes of so many records.
const ROOM: usize = 17 * BATCH;

/// Writes the records of at most 4096 cells at an offset, in one write.
fn write_piece<P: Store>(
    spool: &mut P,
    at: u64,
    cells: &[Cell],
    bytes: &mut [u8],
) -> Result<(), Failed>
    requires { length bytes.old ≡ 17 * length cells.now }
    ensures len { length bytes.new ≡ length bytes.old }
    ensures written { OnOk result
        (Puts (P.bytes spool.old) at (records_of cells.now) (P.bytes spool.new)) }
    ensures outside { OnErr result
        (StaysOutside (P.bytes spool.old) at (17 * length cells.now) (P.bytes spool.new)) }
    ensures cause { HasCause (P.faults spool.old) (P.faults spool.new) result }
{
    write_records(cells, bytes);
    spool.write_at(at, bytes)
}

/// Writes the records of cells one behind the other from an offset on, through a buffer for 4096 of them.
fn write_cells<P: Store>(
    spool: &mut P,
    at: u64,
    cells: &[Cell],
    bytes: &mut [u8],
) -> Result<(), Failed>
    requires low { at ≤ 2 ^ 63 }
    requires few { length cells.now ≤ 2 ^ 40 }
    requires room { length bytes.old ≡ 69632 }
    ensures len { length bytes.new ≡ length bytes.old }
    ensures written { OnOk result (StoreHolds (P.bytes spool.new) at (records_of cells.now)) }
    ensures outside { StaysOutside (P.bytes spool.old) at (17 * length cells.now)
        (P.bytes spool.new) }
    ensures cause { HasCause (P.faults spool.old) (P.faults spool.new) result }
{
    let mut done = 0;
    while done < cells.len() {
        let count = (cells.len() - done).min(BATCH);
        let piece = &cells[done..done + count];
        write_piece(
            spool,
            at + 17 * done as u64,
            piece,
            &mut bytes[..17 * count],
        )?;
        done += count;
    }
    Ok(())
}

/// Writes the records of so many cells, from the one with the index `done` on.
fn write_run<P: Store>(
    spool: &mut P,
    at: u64,
    cells: &[Cell],
    done: usize,
    count: usize,
    bytes: &mut [u8],
) -> Result<(), Failed>
    requires low { at ≤ 2 ^ 63 }
    requires few { count ≤ 2 ^ 40 }
    requires part { done + count ≤ length cells.now }
    requires room { length bytes.old ≡ 69632 }
    ensures len { length bytes.new ≡ length bytes.old }
    ensures written { OnOk result (StoreHolds (P.bytes spool.new) at
        (records_of (slice_range cells.now done (done + count)))) }
    ensures outside { StaysOutside (P.bytes spool.old) at (17 * count) (P.bytes spool.new) }
    ensures cause { HasCause (P.faults spool.old) (P.faults spool.new) result }
{
    write_cells(spool, at, &cells[done..done + count], bytes)
}

/// Writes the records of the cells on a window, given in row-major order, each to its number in a cube of this shape
/// from the offset `base` on. Every other byte stays as it was, whatever the call answers.
///
/// Refuses: only where the store's fault counter rose. Then the records of the window may be any bytes.
pub fn write_window<P: Store>(
    spool: &mut P,
    base: u64,
    shape: &Shape,
    window: &Window,
    cells: &[Cell],
) -> Result<(), Failed>
    requires base { base ≤ 2 ^ 62 }
    requires within { Holds (whole_window shape.now) window.now }
    requires counted { length cells.now ≡ position_count window.now }
    // Of each cube with these cells on the window, each record stands at its number.
    ensures written { OnOk result ((cube : Cube Cell) → cube.shape ≡ shape.now →
        cells_on Empty cube window.now ≡ cells.now →
        HoldsWindow (P.bytes spool.new) base cube window.now) }
    // No byte is changed but of the records of the window.
    ensures kept { ChangesOnly base shape.now (IsIn window.now) (P.bytes spool.old)
        (P.bytes spool.new) }
    ensures cause { HasCause (P.faults spool.old) (P.faults spool.new) result }
{
    // A shape has at most 2^40 cells, so that each offset fits 64 bits.
    let _cells = shape.cells();
    let mut bytes = [0; ROOM];
    let mut done = 0;
    for (first, count) in runs(window, shape) {
        write_run(
            spool,
            base + 17 * first,
            cells,
            done,
            count as usize,
            &mut bytes,
        )?;
        done += count as usize;
    }
    Ok(())
}
