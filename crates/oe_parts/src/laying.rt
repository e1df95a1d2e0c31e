// The records of parts laid into a spool, each at its number in the whole result.
ghost use Rattle.std.specs.Prelude.{◌≡◌, ◌≤◌, ◌<◌, ◌+◌, ◌*◌, ◌^◌, IfErr, IfOk, IfSome, OnOk};
ghost use Rattle.std.specs.Option.{option_map};
ghost use Rattle.oe_cell.specs.declared.cell.Cell.{Cell};
ghost use Rattle.oe_dims.specs.Cube.{Cube};
ghost use Rattle.oe_dims.specs.Positions.{IsPosition};
ghost use Rattle.oe_outside.specs.Faults.{NeverFalls};
ghost use Rattle.oe_outside.specs.Stored.{StaysOutside};
ghost use Rattle.oe_spool.specs.Spooled.{ChangesOnly};
ghost use Rattle.oe_window.specs.Runs.{window_numbers};
ghost use Rattle.oe_window.specs.Windows.{IsIn};
ghost use Rattle.oe_parts.specs.Head.{IsPartHead};
ghost use Rattle.oe_parts.specs.Laid.{AreLaid, HaveRecords, IsInPart, IsUndamaged, LayStops, Lays, LaysChunks, LaysRow, LaysWindow, PartStops, ReadsAndWrites, TellsPiece, TellsRow, fail_at};
ghost use Rattle.oe_parts.specs.PartFile.{part_numbers};
ghost use Rattle.oe_parts.specs.Parts.{ArePartsRead, IsPartRead, ShowsPartOf, heads_of};
ghost use Rattle.oe_parts.specs.Rows.{HasRoomForRow, HasRoomForRows, IsShortWindow};
ghost use Rattle.oe_parts.specs.Whole.{AreWhole};

use crate::head::PartHead;
use crate::part::RunPart;
use crate::parts::RunParts;
use crate::read::{BYTES, ReadFail, read_cells};
use crate::rows::row_at;
use oe_dims::Shape;
use oe_outside::Store;
use oe_spool::lesser;
use oe_window::{Window, size};

/// Why the records of parts were not laid out.
#[derive(Clone, Copy, PartialEq, Eq)]
pub enum LayFail {
    /// The part at an index could not be read: its fault counter rose.
    PartFailed(usize),
    /// What the part at an index has for the position of this row-major number of the result is no record.
    PartDamaged { part: usize, number: u64 },
    /// The spool could not be written: its fault counter rose.
    SpoolFailed,
}

/// The same within one part.
#[derive(Clone, Copy)]
enum PieceFail {
    Failed,
    Damaged(u64),
    SpoolFailed,
}

/// Lays the records of parts that are a whole into a spool, from byte `base` on, and answers the least row-major
/// number of a cell that is `Over`. It takes no memory; the parts keep their bytes.
///
/// Refuses: `PartFailed` and `SpoolFailed` only where the fault counter of that part or of the spool rose;
/// `PartDamaged` only with a position for which that part has no record.
pub fn lay<S: Store + Drop, P: Store>(
    parts: &mut RunParts<S>,
    shape: &Shape,
    spool: &mut P,
    base: u64,
) -> Result<Option<u64>, LayFail>
    requires whole { (run : _) × (run.shape ≡ shape.now) × AreWhole run (heads_of parts.old) }
    requires base { base ≤ 2 ^ 62 }
    ensures laid { IfOk result (Lays base shape.now parts.old (P.bytes spool.new)) }
    ensures stops { IfErr result (LayStops parts.old parts.new (P.faults spool.old)
        (P.faults spool.new)) }
    ensures read { ArePartsRead parts.old parts.new }
    ensures changes { ChangesOnly base shape.now (IsPosition shape.now) (P.bytes spool.old)
        (P.bytes spool.new) }
    ensures count { NeverFalls (P.faults spool.old) (P.faults spool.new) }
{
    lay_all(parts.items.as_mut_slice(), shape, spool, base)
}

/// Lays out the records of all parts, one part behind the other.
fn lay_all<S: Store + Drop, P: Store>(
    parts: &mut [RunPart<S>],
    shape: &Shape,
    spool: &mut P,
    base: u64,
) -> Result<Option<u64>, LayFail>
    requires whole { (run : _) × (run.shape ≡ shape.now) × AreWhole run (heads_of parts.old) }
    requires base { base ≤ 2 ^ 62 }
    ensures laid { IfOk result (Lays base shape.now parts.old (P.bytes spool.new)) }
    ensures stops { IfErr result (LayStops parts.old parts.new (P.faults spool.old)
        (P.faults spool.new)) }
    ensures read { ArePartsRead parts.old parts.new }
    ensures changes { ChangesOnly base shape.now (IsPosition shape.now) (P.bytes spool.old)
        (P.bytes spool.new) }
    ensures count { NeverFalls (P.faults spool.old) (P.faults spool.new) }
{
    // A shape is valid, so that each of its positions lies in a chunk.
    let _cells = shape.cells();
    let mut bytes = [0; BYTES];
    let mut least = None;
    for index in 0..parts.len() {
        match lay_one(&mut parts[index], spool, base, &mut bytes) {
            Ok(number) => least = lesser(least, number),
            Err(fail) => return Err(fail_at(index, fail)),
        }
    }
    Ok(least)
}

/// What stops all where the part at an index stops.
fn fail_at(index: usize, fail: PieceFail) -> LayFail
    ensures { result ≡ fail_at index fail }
{
    match fail {
        PieceFail::Failed => LayFail::PartFailed(index),
        PieceFail::Damaged(number) => LayFail::PartDamaged {
            part: index,
            number,
        },
        PieceFail::SpoolFailed => LayFail::SpoolFailed,
    }
}

/// Lays out the records of one part, through a buffer of the caller.
fn lay_one<S: Store + Drop, P: Store>(
    part: &mut RunPart<S>,
    spool: &mut P,
    base: u64,
    bytes: &mut [u8],
) -> Result<Option<u64>, PieceFail>
    requires room { HasRoomForRows base bytes.old }
    ensures cube { IfOk result (λ least. (cube : Cube Cell) → ShowsPartOf cube part.old →
        AreLaid (P.bytes spool.new) base cube (IsInPart part.old.head) least) }
    ensures some { IfOk result (HaveRecords (P.bytes spool.new) base part.old.head.shape
        (IsInPart part.old.head)) }
    ensures sound { OnOk result (IsUndamaged part.old) }
    ensures stops { IfErr result (PartStops part.old part.new (P.faults spool.old)
        (P.faults spool.new)) }
    ensures changes { ChangesOnly base part.old.head.shape (IsInPart part.old.head)
        (P.bytes spool.old) (P.bytes spool.new) }
    ensures read { IsPartRead part.old part.new }
    ensures count { NeverFalls (P.faults spool.old) (P.faults spool.new) }
{
    lay_part(&mut part.store, &part.head, part.base, spool, base, bytes)
}

/// Lays out the records of one part, which stand from an offset on, chunk by chunk.
fn lay_part<S: Store, P: Store>(
    store: &mut S,
    head: &PartHead,
    at: u64,
    spool: &mut P,
    base: u64,
    bytes: &mut [u8],
) -> Result<Option<u64>, PieceFail>
    requires valid { IsPartHead head.now }
    requires at { at ≤ 2 ^ 32 }
    requires room { HasRoomForRows base bytes.old }
    ensures laid { IfOk result (LaysChunks head.now (S.bytes store.old) at (P.bytes spool.new) base) }
    ensures damage { IfErr result (TellsPiece (S.bytes store.old) at (part_numbers head.now)) }
    ensures changes { ChangesOnly base head.now.shape (IsInPart head.now) (P.bytes spool.old)
        (P.bytes spool.new) }
    ensures left { ReadsAndWrites S.bytes S.faults store.old store.new P.faults spool.old spool.new
        result }
{
    let grid = head.grid();
    let mut least = None;
    let mut done = 0;
    for chunk in head.first..head.end {
        let window = grid.chunk(chunk);
        let offset = at + 17 * done;
        match lay_chunk(store, offset, &head.shape, &window, spool, base, bytes) {
            Ok(found) => least = lesser(least, found),
            Err(fail) => return Err(fail),
        }
        done += size(&window);
    }
    Ok(least)
}

/// Lays out the records of a chunk, which stand from an offset on, row by row.
fn lay_chunk<S: Store, P: Store>(
    store: &mut S,
    at: u64,
    shape: &Shape,
    window: &Window,
    spool: &mut P,
    base: u64,
    bytes: &mut [u8],
) -> Result<Option<u64>, PieceFail>
    requires at { at ≤ 2 ^ 62 }
    requires window { IsShortWindow shape.now window.now }
    requires room { HasRoomForRows base bytes.old }
    ensures laid { IfOk result (LaysWindow shape.now window.now (S.bytes store.old) at
        (P.bytes spool.new) base) }
    ensures damage { IfErr result (TellsPiece (S.bytes store.old) at
        (window_numbers shape.now window.now)) }
    ensures changes { ChangesOnly base shape.now (IsIn window.now) (P.bytes spool.old)
        (P.bytes spool.new) }
    ensures left { ReadsAndWrites S.bytes S.faults store.old store.new P.faults spool.old spool.new
        result }
{
    // A shape has at most 2^40 cells, so that each offset fits 64 bits.
    let _cells = shape.cells();
    let mut least = None;
    for number in 0..window.rows() {
        let (row, first) = row_at(shape, window, number);
        let count = size(&row) as usize;
        let done = number * count as u64;
        let start = at + 17 * done;
        let room = &mut bytes[..17 * count];
        match lay_row(store, start, spool, base, first, room, count) {
            Ok(over) => least = lesser(least, over),
            Err(fail) => return Err(fail),
        }
    }
    Ok(least)
}

/// Lays out the records of so many cells of a row, which stand from an offset on, from that of its first number on.
fn lay_row<S: Store, P: Store>(
    store: &mut S,
    at: u64,
    spool: &mut P,
    base: u64,
    first: u64,
    bytes: &mut [u8],
    count: usize,
) -> Result<Option<u64>, PieceFail>
    requires room { HasRoomForRow base first count bytes.old }
    ensures laid { IfOk result (LaysRow (S.bytes store.old) at (P.bytes spool.new) base first
        count) }
    ensures damage { IfErr result (TellsRow (S.bytes store.old) at first count) }
    ensures outside { StaysOutside (P.bytes spool.old) (base + 17 * first) (17 * count)
        (P.bytes spool.new) }
    ensures left { ReadsAndWrites S.bytes S.faults store.old store.new P.faults spool.old spool.new
        result }
{
    let over = match read_cells(store, at, bytes, count) {
        Ok(over) => over,
        Err(ReadFail::Failed) => return Err(PieceFail::Failed),
        Err(ReadFail::Damaged(index)) => return Err(PieceFail::Damaged(first + index as u64)),
    };
    match spool.write_at(base + 17 * first, bytes) {
        Ok(()) => Ok(number_at(first, over)),
        Err(_) => Err(PieceFail::SpoolFailed),
    }
}

/// The number of a cell with an index among those from a first one on.
fn number_at(first: u64, index: Option<usize>) -> Option<u64>
    requires { IfSome index (λ i. first + i ≤ 2 ^ 40) }
    ensures { result ≡ option_map (λ i. first + i) index }
{
    match index {
        Some(index) => Some(first + index as u64),
        None => None,
    }
}
