// Cells as records of 17 bytes.
ghost use Rattle.std.specs.Prelude.{◌≡◌, ◌+◌, ◌*◌, ◌<◌, ◌≤◌, ℕ, IfSome, IfNone, Some, List, ◌++◌, length, get_or, take, drop};
ghost use Rattle.std.specs.List.{All};
ghost use Rattle.oe_cell.specs.Cells.{IsCell};
ghost use Rattle.oe_cell.specs.Fraction.{Fraction, IsNumber};
ghost use Rattle.oe_cell.specs.Record.{bytes_of, record_of, records_of, IsRecord};
ghost use Rattle.oe_cell.specs.declared.cell.Cell.{Cell};

use crate::{Cell, Frac};

/// The record of a cell: a tag, the numerator in two's complement as 8 bytes and the denominator as 8 bytes, both with
/// the highest byte first. Tag 0 is null, 1 `false`, 2 `true`, 3 a number and 4 `Over`; after each but 3 stand zeros.
pub fn write_record(cell: Cell) -> [u8; 17]
    ensures record { result ≡ record_of cell }
    ensures cell { IsCell cell }
{
    match cell {
        Cell::Empty => pack(0, 0, 0),
        Cell::Flag(false) => pack(1, 0, 0),
        Cell::Flag(true) => pack(2, 0, 0),
        Cell::Number(number) => number_record(number),
        Cell::Over => pack(4, 0, 0),
    }
}

fn number_record(number: Frac) -> [u8; 17]
    ensures record { result ≡ bytes_of 3 number.num number.den }
    ensures number { IsNumber number }
{
    let (num, den) = number.parts();
    pack(3, num, den)
}

fn pack(tag: u8, num: i64, den: u64) -> [u8; 17]
    ensures { result ≡ bytes_of tag num den }
{
    let mut bytes = [0; 17];
    bytes[0] = tag;
    bytes[1..9].copy_from_slice(&num.to_be_bytes());
    bytes[9..].copy_from_slice(&den.to_be_bytes());
    bytes
}

/// Writes the record of each cell, one behind the other, so that of cell k stands from byte 17·k on.
pub fn write_records(cells: &[Cell], into: &mut [u8])
    requires { length into.old ≡ 17 * length cells.now }
    ensures records { into.new ≡ records_of cells.now }
    ensures each { (k : ℕ) → k < length cells.now → take 17 (drop (17 * k) into.new)
        ≡ record_of (get_or cells.now k Cell.Empty) }
{
    for k in 0..cells.len() {
        put_record(cells[k], into, 17 * k);
    }
}

#[inline(always)]
fn put_record(cell: Cell, into: &mut [u8], at: usize)
    requires { at + 17 ≤ length into.old }
    ensures { into.new ≡ take at into.old ++ record_of cell ++ drop (at + 17) into.old }
{
    let record = write_record(cell);
    into[at..at + 17].copy_from_slice(&record);
}

/// The cell whose record the bytes are.
///
/// Refuses: exactly bytes that are no record: an unknown tag, a number that is not in lowest terms or out of range, or
/// a byte that should be 0 and is not.
pub fn read_record(bytes: &[u8; 17]) -> Option<Cell>
    ensures round_trip { (c : Cell) → IsCell c → record_of c ≡ bytes.now → result ≡ Some c }
    ensures record { IfSome result (λ c. IsCell c × (record_of c ≡ bytes.now)) }
    ensures none { IfNone result (¬ (IsRecord bytes.now)) }
{
    read_at(bytes, 0)
}

/// Reads records into cells, from the front on, and answers how many: fewer than there are cells exactly where the next
/// 17 bytes are no record, or fewer are left. The other cells stay as they were.
pub fn read_records(bytes: &[u8], into: &mut [Cell]) -> usize
    ensures room { result ≤ length into.old }
    ensures within { 17 * result ≤ length bytes.now }
    ensures read { records_of (take result into.new) ≡ take (17 * result) bytes.now }
    ensures cells { All IsCell (take result into.new) }
    ensures others { drop result into.new ≡ drop result into.old }
    ensures stop { result < length into.old
        → ¬ (IsRecord (take 17 (drop (17 * result) bytes.now))) }
    ensures round_trip { (cells : List Cell) → All IsCell cells → length cells ≤ length into.old →
        records_of cells ≡ take (17 * length cells) bytes.now →
        (length cells ≤ result) × (take (length cells) into.new ≡ cells) }
{
    let count = (bytes.len() / 17).min(into.len());
    for k in 0..count {
        match read_at(bytes, 17 * k) {
            Some(cell) => into[k] = cell,
            None => return k,
        }
    }
    count
}

/// The cell whose record stands at an offset.
#[inline(always)]
fn read_at(bytes: &[u8], at: usize) -> Option<Cell>
    requires { at + 17 ≤ length bytes.now }
    ensures round_trip { (c : Cell) → IsCell c → record_of c ≡ take 17 (drop at bytes.now)
        → result ≡ Some c }
    ensures record { IfSome result (λ c. IsCell c × (record_of c ≡ take 17 (drop at bytes.now))) }
    ensures none { IfNone result (¬ (IsRecord (take 17 (drop at bytes.now)))) }
{
    let num = i64::from_be_bytes(eight(bytes, at + 1));
    let den = u64::from_be_bytes(eight(bytes, at + 9));
    unpack(bytes[at], num, den)
}

#[inline(always)]
fn eight(bytes: &[u8], at: usize) -> [u8; 8]
    requires { at + 8 ≤ length bytes.now }
    ensures { result ≡ take 8 (drop at bytes.now) }
{
    let mut part = [0; 8];
    part.copy_from_slice(&bytes[at..at + 8]);
    part
}

#[inline(always)]
fn unpack(tag: u8, num: i64, den: u64) -> Option<Cell>
    ensures round_trip { (c : Cell) → IsCell c → record_of c ≡ bytes_of tag num den
        → result ≡ Some c }
    ensures record { IfSome result (λ c. IsCell c × (record_of c ≡ bytes_of tag num den)) }
{
    if tag == 3 {
        return match Frac::new(num, den) {
            Some(number) => Some(Cell::Number(number)),
            None => None,
        };
    }
    if num != 0 || den != 0 {
        return None;
    }
    match tag {
        0 => Some(Cell::Empty),
        1 => Some(Cell::Flag(false)),
        2 => Some(Cell::Flag(true)),
        4 => Some(Cell::Over),
        _ => None,
    }
}
