// Records of any width, one at a time and in rows.
ghost use Rattle.std.specs.Prelude.{◌≡◌, ◌+◌, ◌*◌, ◌<◌, ◌≤◌, ◌++◌, length, take, drop, Some, IfSome, IfNone};
ghost use Rattle.std.specs.List.{All};
ghost use Rattle.oe_cell.specs.Cells.{IsCell};
ghost use Rattle.oe_cell.specs.Kinds.{IsNumeric};
ghost use Rattle.oe_cell.specs.declared.cell.Cell.{Cell};
ghost use Rattle.oe_wide.specs.Wide.{AllFitIn, FitsIn, HaveRecords, IsRecordIn, byte_count, part_at, record_bytes, record_in, records_in};

use crate::Width;
use crate::narrow::{nine_at, nine_record, number_at, of_tag, tag_of};
use oe_cell::{Cell, read_record, read_records, write_record, write_records};

/// Writes the record of a cell in a width: in 1 byte the tag 0 of null, 1 of `false` or 2 of `true`; in 9 bytes the
/// same with zeros, or tag 5 with a whole number in two's complement, the highest byte first; in 17 bytes the record of
/// any cell.
#[inline(always)]
pub fn write_wide(cell: Cell, width: Width, into: &mut [u8])
    requires fits { FitsIn width cell }
    requires room { length into.old ≡ byte_count width }
    ensures { record_in width cell ≡ Some into.new }
{
    match width {
        Width::One => into[0] = tag_of(cell),
        Width::Nine => into.copy_from_slice(&nine_record(cell)),
        Width::Seventeen => into.copy_from_slice(&write_record(cell)),
    }
}

/// The cell whose record in the width the bytes are.
///
/// Refuses: exactly bytes that are no record of that width, as one of another width is none: a tag that it does not
/// have, a byte that should be 0 and is not, −2^63 in 9 bytes, or in 17 a fraction that is not in lowest terms or out
/// of range.
pub fn read_wide(bytes: &[u8], width: Width) -> Option<Cell>
    requires { length bytes.now ≡ byte_count width }
    ensures round_trip { (c : Cell) → IsCell c → record_in width c ≡ Some bytes.now
        → result ≡ Some c }
    ensures found { IfSome result (IsRecordIn width bytes.now) }
    ensures none { IfNone result ((c : Cell) → ¬ IsRecordIn width bytes.now c) }
{
    match width {
        Width::One => of_tag(bytes[0]),
        Width::Nine => nine_at(bytes, 0),
        Width::Seventeen => seventeen(bytes),
    }
}

fn seventeen(bytes: &[u8]) -> Option<Cell>
    requires { length bytes.now ≡ 17 }
    ensures found { IfSome result (IsRecordIn Width.Seventeen bytes.now) }
    ensures complete { (c : Cell) → IsRecordIn Width.Seventeen bytes.now c → result ≡ Some c }
{
    let mut record = [0; 17];
    record.copy_from_slice(bytes);
    read_record(&record)
}

/// Writes the record of each cell in a width, one behind the other.
pub fn write_row(cells: &[Cell], width: Width, into: &mut [u8])
    requires fit { AllFitIn width cells.now }
    requires room { length into.old ≡ byte_count width * length cells.now }
    ensures records { into.new ≡ records_in width cells.now }
    ensures each { All IsCell cells.now → HaveRecords width into.new cells.now }
{
    match width {
        Width::One => write_ones(cells, into),
        Width::Nine => write_nines(cells, into),
        Width::Seventeen => write_records(cells, into),
    }
}

fn write_ones(cells: &[Cell], into: &mut [u8])
    requires fit { AllFitIn Width.One cells.now }
    requires room { length into.old ≡ length cells.now }
    ensures { into.new ≡ records_in Width.One cells.now }
{
    for k in 0..cells.len() {
        into[k] = tag_of(cells[k]);
    }
}

fn write_nines(cells: &[Cell], into: &mut [u8])
    requires fit { AllFitIn Width.Nine cells.now }
    requires room { length into.old ≡ 9 * length cells.now }
    ensures { into.new ≡ records_in Width.Nine cells.now }
{
    for k in 0..cells.len() {
        put_nine(cells[k], into, 9 * k);
    }
}

#[inline(always)]
fn put_nine(cell: Cell, into: &mut [u8], at: usize)
    requires fits { FitsIn Width.Nine cell }
    requires room { at + 9 ≤ length into.old }
    ensures { into.new ≡ take at into.old
        ++ record_bytes Width.Nine cell ++ drop (at + 9) into.old }
{
    let record = nine_record(cell);
    into[at..at + 9].copy_from_slice(&record);
}

/// Reads records of one width into cells, from the front on, and answers how many: fewer than there are cells exactly
/// where the next bytes are no record, or fewer are left than a record has. The other cells stay as they were.
pub fn read_row(bytes: &[u8], width: Width, into: &mut [Cell]) -> usize
    ensures room { result ≤ length into.old }
    ensures within { byte_count width * result ≤ length bytes.now }
    ensures read { HaveRecords width bytes.now (take result into.new) }
    ensures others { drop result into.new ≡ drop result into.old }
    ensures stop { result < length into.old
        → (c : Cell) → ¬ IsRecordIn width (part_at width bytes.now result) c }
{
    match width {
        Width::One => read_ones(bytes, into),
        Width::Nine => read_nines(bytes, into),
        Width::Seventeen => read_records(bytes, into),
    }
}

/// Reads records of 9 bytes that hold null or a whole number into cells, from the front on, and answers how many: fewer
/// than there are cells exactly where the next bytes are no such record, as those of a flag are none, or fewer are left
/// than a record has. The other cells stay as they were.
pub fn read_numbers(bytes: &[u8], into: &mut [Cell]) -> usize
    ensures room { result ≤ length into.old }
    ensures within { 9 * result ≤ length bytes.now }
    ensures read { HaveRecords Width.Nine bytes.now (take result into.new) }
    ensures numeric { All IsNumeric (take result into.new) }
    ensures others { drop result into.new ≡ drop result into.old }
    ensures stop { result < length into.old → (c : Cell)
        → IsRecordIn Width.Nine (part_at Width.Nine bytes.now result) c → ¬ IsNumeric c }
{
    let count = (bytes.len() / 9).min(into.len());
    for k in 0..count {
        match number_at(bytes, 9 * k) {
            Some(cell) => into[k] = cell,
            None => return k,
        }
    }
    count
}

fn read_ones(bytes: &[u8], into: &mut [Cell]) -> usize
    ensures room { result ≤ length into.old }
    ensures within { result ≤ length bytes.now }
    ensures read { HaveRecords Width.One bytes.now (take result into.new) }
    ensures others { drop result into.new ≡ drop result into.old }
    ensures stop { result < length into.old
        → (c : Cell) → ¬ IsRecordIn Width.One (part_at Width.One bytes.now result) c }
{
    let count = bytes.len().min(into.len());
    for k in 0..count {
        match of_tag(bytes[k]) {
            Some(cell) => into[k] = cell,
            None => return k,
        }
    }
    count
}

fn read_nines(bytes: &[u8], into: &mut [Cell]) -> usize
    ensures room { result ≤ length into.old }
    ensures within { 9 * result ≤ length bytes.now }
    ensures read { HaveRecords Width.Nine bytes.now (take result into.new) }
    ensures others { drop result into.new ≡ drop result into.old }
    ensures stop { result < length into.old
        → (c : Cell) → ¬ IsRecordIn Width.Nine (part_at Width.Nine bytes.now result) c }
{
    let count = (bytes.len() / 9).min(into.len());
    let first = read_numbers(bytes, into);
    for k in first..count {
        match nine_at(bytes, 9 * k) {
            Some(cell) => into[k] = cell,
            None => return k,
        }
    }
    count
}
