// Rendering: the result text of the cube whose records stand in a store.
ghost use Rattle.std.specs.Prelude.{◌≡◌, ◌+◌, ◌*◌, ◌≤◌, ◌<◌, ◌^◌, [], length, IfErr};
ghost use Rattle.oe_dims.specs.Dimensions.{cell_count};
ghost use Rattle.oe_render.specs.Rendered.{BeginsCube, CountsPrefix, CountsText, HasSentStored, HasSinkCause, HasSpoolCause, IsRefusalWithin, WritesCube, sink_answer};
ghost use Rattle.oe_render.specs.Stored.{HasCells};

use crate::batch::read_batch;
use crate::text::{send_cells, send_end, send_front};
use oe_cell::Cell;
use oe_dims::Shape;
use oe_outside::{CountSink, Failed, Pending, Sink, Store, flush};

/// How many records are read at once, at most.
const RECORDS: usize = 4096;

/// How many bytes they have.
const ROOM: usize = 17 * RECORDS;

/// Why a cube was not rendered.
#[derive(Clone, Copy, PartialEq, Eq)]
pub enum RenderFail {
    /// A read of the store failed, and the store's fault counter rose.
    SpoolFailed,
    /// What was read for the cell with this row-major number, from 0, is no record, or that of `Over`.
    SpoolDamaged(u64),
    /// A write failed, and the output's fault counter rose.
    SinkFailed,
}

/// Writes the result text of the cube with this shape whose records stand in the store from byte `base` on, 17 bytes a
/// cell in row-major order. It takes no memory: it reads as many records at once as the lent cells have room for, 4096
/// at most, and writes through the lent bytes; what waited there is dropped. All up to the first cell goes out before
/// it, in writes of its own. No byte of the store changes.
///
/// Refuses: `SpoolFailed` and `SinkFailed` only where the fault counter of the store or of the output rose;
/// `SpoolDamaged` only where what was read for that cell is no record, or that of `Over`, and so never of a store whose
/// bytes are visible. Then a prefix of the text was written.
pub fn render<P: Store, O: Sink>(
    shape: &Shape,
    spool: &mut P,
    base: u64,
    out: &mut O,
    buffer: &mut [Cell],
    pending: &mut Pending,
) -> Result<(), RenderFail>
    requires room { 0 < length buffer.old }
    requires base { base ≤ 2 ^ 62 }
    requires stored { HasCells (P.bytes spool.old) base (cell_count shape.now) }
    ensures text { WritesCube O.written out.old out.new P.bytes spool.old base shape.now result }
    ensures prefix { BeginsCube O.written out.old out.new P.bytes spool.old base shape.now result }
    ensures counted { CountsText O.size out.old out.new P.bytes spool.old base shape.now result }
    ensures counted_prefix { CountsPrefix O.size out.old out.new P.bytes spool.old base
        shape.now result }
    ensures spool_cause { HasSpoolCause P.faults spool.old spool.new result }
    ensures sink_cause { HasSinkCause O.faults out.old out.new result }
    ensures damage { IfErr result (IsRefusalWithin (P.bytes spool.old) 0 (cell_count shape.now)) }
    ensures same { P.bytes spool.new ≡ P.bytes spool.old }
{
    discard(pending);
    of_sink(send_front(out, pending, shape))?;
    send_stored(out, pending, spool, base, shape.cells(), buffer)?;
    of_sink(send_end(out, pending))
}

/// Drops what is pending: it goes to a sink that keeps nothing.
fn discard(pending: &mut Pending)
    ensures { pending.new ≡ [] }
{
    let mut nowhere = CountSink::new();
    let _ = flush(&mut nowhere, pending);
}

fn of_sink(answer: Result<(), Failed>) -> Result<(), RenderFail>
    ensures { result ≡ sink_answer answer }
{
    match answer {
        Ok(()) => Ok(()),
        Err(_) => Err(RenderFail::SinkFailed),
    }
}

/// The stored cells, from the first to the last.
fn send_stored<P: Store, O: Sink>(
    out: &mut O,
    pending: &mut Pending,
    spool: &mut P,
    base: u64,
    count: u64,
    buffer: &mut [Cell],
) -> Result<(), RenderFail>
    requires room { 0 < length buffer.old }
    requires base { base ≤ 2 ^ 62 }
    requires few { count ≤ 2 ^ 40 }
    requires stored { HasCells (P.bytes spool.old) base count }
    ensures sent { HasSentStored (P.bytes spool.old) base count 0 O.written O.size O.faults out.old
        pending.old out.new pending.new result }
    ensures cause { HasSpoolCause P.faults spool.old spool.new result }
    ensures damage { IfErr result (IsRefusalWithin (P.bytes spool.old) 0 count) }
    ensures same { P.bytes spool.new ≡ P.bytes spool.old }
{
    let mut bytes = [0; ROOM];
    let most = buffer.len().min(RECORDS);
    let mut index = 0;
    while index < count {
        let size = most.min((count - index) as usize);
        send_batch(
            out,
            pending,
            spool,
            base,
            index,
            &mut bytes[..17 * size],
            &mut buffer[..size],
        )?;
        index += size as u64;
    }
    Ok(())
}

/// The stored cells from an index on, as many as fit the buffer.
fn send_batch<P: Store, O: Sink>(
    out: &mut O,
    pending: &mut Pending,
    spool: &mut P,
    base: u64,
    index: u64,
    bytes: &mut [u8],
    cells: &mut [Cell],
) -> Result<(), RenderFail>
    requires some { 0 < length cells.old }
    requires room { length bytes.old ≡ 17 * length cells.old }
    requires base { base ≤ 2 ^ 62 }
    requires few { index + length cells.old ≤ 2 ^ 40 }
    requires stored { HasCells (P.bytes spool.old) (base + 17 * index) (length cells.old) }
    ensures sent { HasSentStored (P.bytes spool.old) (base + 17 * index) (length cells.old) index
        O.written O.size O.faults out.old pending.old out.new pending.new result }
    ensures cause { HasSpoolCause P.faults spool.old spool.new result }
    ensures damage { IfErr result (IsRefusalWithin (P.bytes spool.old) index
        (index + length cells.old)) }
    ensures same { P.bytes spool.new ≡ P.bytes spool.old }
{
    read_batch(spool, base + 17 * index, index, bytes, cells)?;
    of_sink(send_cells(out, pending, cells, index))
}
