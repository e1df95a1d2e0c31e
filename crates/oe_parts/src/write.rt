// A part file written from the records in a spool.
ghost use Rattle.std.specs.Prelude.{◌≡◌, ◌≢◌, ◌≤◌, ◌+◌, ◌*◌, ◌^◌, ℕ, Option, [], IfErr, OnErr, OnOk};
ghost use Rattle.oe_cell.specs.Record.{records_of};
ghost use Rattle.oe_cell.specs.declared.cell.Cell.{Cell};
ghost use Rattle.oe_cell.specs.declared.cell.Cell.TheVariants.{Empty};
ghost use Rattle.oe_dims.specs.Cube.{Cube};
ghost use Rattle.oe_outside.specs.Faults.{HasCauseOf};
ghost use Rattle.oe_render.specs.Rendered.{HasRendered, sink_answer};
ghost use Rattle.oe_window.specs.Cells.{cells_on};
ghost use Rattle.oe_window.specs.Windows.{IsIn, position_count};
ghost use Rattle.oe_parts.specs.Head.{IsPartHead, front_bytes};
ghost use Rattle.oe_parts.specs.PartFile.{cells_on_all, chunks_of, part_cells};
ghost use Rattle.oe_parts.specs.Rows.{AreRecords, ForEachShown, HasRoomForRow, HasRoomForRows, IsShortWindow};
ghost use Rattle.oe_parts.specs.Sent.{AppendsPart, AppendsPartPrefix, AppendsRecords, ReadsAndSends, SendsRecords};
ghost use Rattle.oe_parts.specs.Spooled.{ForEachCubeShown, ShowsPart, TellsNoRecord, TellsNoRecordFrom, TellsNoRecordOf};

use crate::head::PartHead;
use crate::read::{BYTES, ReadFail, read_cells};
use crate::rows::row_at;
use oe_dims::Shape;
use oe_outside::{Failed, Pending, Sink, Store, flush, send};
use oe_render::RenderFail;
use oe_window::{Window, size};

/// Writes a part file: its front, and then the records of its chunks, which stand in a spool from byte `base` on,
/// each at its number in the whole result. It takes no memory, and changes no byte of the spool.
///
/// What ends well is a part file with records of valid cells, whatever the spool gave back.
///
/// Refuses: `SpoolFailed` and `SinkFailed` only where the fault counter of the spool or of the output rose;
/// `SpoolDamaged` only where what stands for that cell is no record. Then a prefix of the file was written.
pub fn write_part<P: Store, O: Sink>(
    head: &PartHead,
    front: &[u8],
    spool: &mut P,
    base: u64,
    out: &mut O,
    pending: &mut Pending,
) -> Result<(), RenderFail>
    requires valid { IsPartHead head.now }
    requires front { front.now ≡ front_bytes head.now }
    requires base { base ≤ 2 ^ 62 }
    requires empty { pending.old ≡ [] }
    ensures file { OnOk result (AppendsPart (P.bytes spool.old) base head.now (O.written out.old)
        (O.written out.new)) }
    ensures records { OnOk result (AppendsRecords (O.written out.old) head.now (O.written out.new)) }
    ensures prefix { OnErr result (AppendsPartPrefix (P.bytes spool.old) base head.now
        (O.written out.old) (O.written out.new)) }
    ensures left { ReadsAndSends P.bytes P.faults spool.old spool.new O.faults out.old out.new
        result }
    ensures damage { IfErr result (TellsNoRecordOf (P.bytes spool.old) base head.now) }
{
    match send(out, pending, front) {
        Ok(()) => {}
        Err(_) => return Err(RenderFail::SinkFailed),
    }
    match write_chunks(head, spool, base, out, pending) {
        Ok(()) => of_sink(flush(out, pending)),
        Err(fail) => Err(fail),
    }
}

fn of_sink(answer: Result<(), Failed>) -> Result<(), RenderFail>
    ensures { result ≡ sink_answer answer }
{
    match answer {
        Ok(()) => Ok(()),
        Err(_) => Err(RenderFail::SinkFailed),
    }
}

/// The records of all chunks.
fn write_chunks<P: Store, O: Sink>(
    head: &PartHead,
    spool: &mut P,
    base: u64,
    out: &mut O,
    pending: &mut Pending,
) -> Result<(), RenderFail>
    requires valid { IsPartHead head.now }
    requires base { base ≤ 2 ^ 62 }
    ensures sent { (cube : Cube Cell) → ShowsPart (P.bytes spool.old) base head.now cube →
        HasRendered O.written O.size O.faults out.old pending.old
        (records_of (cells_on_all cube (chunks_of head.now))) out.new pending.new result }
    ensures records { OnOk result (SendsRecords (O.written out.old) (O.size out.old) pending.old
        (part_cells head.now) (O.written out.new) (O.size out.new) pending.new) }
    ensures left { ReadsAndSends P.bytes P.faults spool.old spool.new O.faults out.old out.new
        result }
    ensures damage { IfErr result (TellsNoRecordOf (P.bytes spool.old) base head.now) }
{
    let mut bytes = [0; BYTES];
    let grid = head.grid();
    for chunk in head.first..head.end {
        let window = grid.chunk(chunk);
        match write_chunk(&head.shape, &window, spool, base, out, pending, &mut bytes) {
            Ok(()) => {}
            Err(fail) => return Err(fail),
        }
    }
    Ok(())
}

/// The records of a chunk, row by row.
fn write_chunk<P: Store, O: Sink>(
    shape: &Shape,
    window: &Window,
    spool: &mut P,
    base: u64,
    out: &mut O,
    pending: &mut Pending,
    bytes: &mut [u8],
) -> Result<(), RenderFail>
    requires window { IsShortWindow shape.now window.now }
    requires room { HasRoomForRows base bytes.old }
    ensures sent { ForEachCubeShown (P.bytes spool.old) base shape.now (IsIn window.now) (λ cube.
        HasRendered O.written O.size O.faults out.old pending.old
        (records_of (cells_on Empty cube window.now)) out.new pending.new result) }
    ensures records { OnOk result (SendsRecords (O.written out.old) (O.size out.old) pending.old
        (position_count window.now) (O.written out.new) (O.size out.new) pending.new) }
    ensures left { ReadsAndSends P.bytes P.faults spool.old spool.new O.faults out.old out.new
        result }
    ensures damage { IfErr result (TellsNoRecord (P.bytes spool.old) base shape.now
        (IsIn window.now)) }
{
    // A shape has at most 2^40 cells, so that each offset fits 64 bits.
    let _cells = shape.cells();
    for number in 0..window.rows() {
        let (row, first) = row_at(shape, window, number);
        let count = size(&row) as usize;
        let room = &mut bytes[..17 * count];
        match write_row(spool, base, first, out, pending, room, count) {
            Ok(()) => {}
            Err(fail) => return Err(fail),
        }
    }
    Ok(())
}

/// The records of so many cells of a row, which stand from that of its first number on.
fn write_row<P: Store, O: Sink>(
    spool: &mut P,
    base: u64,
    first: u64,
    out: &mut O,
    pending: &mut Pending,
    bytes: &mut [u8],
    count: usize,
) -> Result<(), RenderFail>
    requires room { HasRoomForRow base first count bytes.old }
    ensures sent { ForEachShown (P.bytes spool.old) (base + 17 * first) count (λ shown.
        HasRendered O.written O.size O.faults out.old pending.old (records_of shown)
        out.new pending.new result) }
    ensures records { OnOk result (SendsRecords (O.written out.old) (O.size out.old) pending.old
        count (O.written out.new) (O.size out.new) pending.new) }
    ensures left { ReadsAndSends P.bytes P.faults spool.old spool.new O.faults out.old out.new
        result }
    ensures damage { IfErr result (TellsNoRecordFrom (P.bytes spool.old) base first
        (first + count)) }
{
    match read_row(spool, base, first, bytes, count) {
        Ok(()) => of_sink(send(out, pending, bytes)),
        Err(fail) => Err(fail),
    }
}

/// Reads the records of so many cells of a row.
fn read_row<P: Store>(
    spool: &mut P,
    base: u64,
    first: u64,
    bytes: &mut [u8],
    count: usize,
) -> Result<(), RenderFail>
    requires room { HasRoomForRow base first count bytes.old }
    ensures shown { ForEachShown (P.bytes spool.old) (base + 17 * first) count (λ shown.
        OnOk result (bytes.new ≡ records_of shown)) }
    ensures cells { OnOk result ((over : Option ℕ) × AreRecords count bytes.new over) }
    ensures cause { HasCauseOf RenderFail.SpoolFailed (P.faults spool.old)
        (P.faults spool.new) result }
    ensures damage { IfErr result (TellsNoRecordFrom (P.bytes spool.old) base first
        (first + count)) }
    ensures only { IfErr result (λ e. e ≢ RenderFail.SinkFailed) }
    ensures same { P.bytes spool.new ≡ P.bytes spool.old }
{
    match read_cells(spool, base + 17 * first, bytes, count) {
        Ok(_over) => Ok(()),
        Err(ReadFail::Failed) => Err(RenderFail::SpoolFailed),
        Err(ReadFail::Damaged(index)) => Err(RenderFail::SpoolDamaged(first + index as u64)),
    }
}
