// Records of 1 and of 9 bytes.
ghost use Rattle.std.specs.Prelude.{◌≡◌, ◌+◌, ◌≤◌, [], ◌∷◌, length, take, drop, IfSome};
ghost use Rattle.oe_cell.specs.Kinds.{IsNumeric};
ghost use Rattle.oe_cell.specs.declared.cell.Cell.{Cell};
ghost use Rattle.oe_wide.specs.Wide.{FitsIn, IsRecordIn, nine_bytes, record_in};

use crate::Width;
use oe_cell::{Cell, whole_cell};

/// The tag of a null or a flag, which is its record of 1 byte.
#[inline(always)]
pub(crate) fn tag_of(cell: Cell) -> u8
    requires { FitsIn Width.One cell }
    ensures { record_in Width.One cell ≡ Some (result ∷ []) }
{
    match cell {
        Cell::Empty => 0,
        Cell::Flag(false) => 1,
        Cell::Flag(true) => 2,
        Cell::Number(_) | Cell::Over => unreachable!(),
    }
}

/// The cell of a tag of 0 to 2.
#[inline(always)]
pub(crate) fn of_tag(tag: u8) -> Option<Cell>
    ensures found { IfSome result (IsRecordIn Width.One (tag ∷ [])) }
    ensures complete { (c : Cell) → IsRecordIn Width.One (tag ∷ []) c → result ≡ Some c }
{
    match tag {
        0 => Some(Cell::Empty),
        1 => Some(Cell::Flag(false)),
        2 => Some(Cell::Flag(true)),
        _ => None,
    }
}

/// The record of 9 bytes of a null, a flag or a whole number.
#[inline(always)]
pub(crate) fn nine_record(cell: Cell) -> [u8; 9]
    requires { FitsIn Width.Nine cell }
    ensures { record_in Width.Nine cell ≡ Some result }
{
    match cell {
        Cell::Empty => pack(0, 0),
        Cell::Flag(false) => pack(1, 0),
        Cell::Flag(true) => pack(2, 0),
        Cell::Number(number) => pack(5, number.num()),
        Cell::Over => unreachable!(),
    }
}

#[inline(always)]
fn pack(tag: u8, num: i64) -> [u8; 9]
    ensures { result ≡ nine_bytes tag num }
{
    let mut bytes = [0; 9];
    bytes[0] = tag;
    bytes[1..].copy_from_slice(&num.to_be_bytes());
    bytes
}

/// The cell whose record of 9 bytes stands at an offset.
#[inline(always)]
pub(crate) fn nine_at(bytes: &[u8], at: usize) -> Option<Cell>
    requires { at + 9 ≤ length bytes.now }
    ensures found { IfSome result (IsRecordIn Width.Nine (take 9 (drop at bytes.now))) }
    ensures complete { (c : Cell) → IsRecordIn Width.Nine (take 9 (drop at bytes.now)) c
        → result ≡ Some c }
{
    unpack(bytes[at], i64::from_be_bytes(eight(bytes, at + 1)))
}

/// The null or the whole number whose record of 9 bytes stands at an offset.
#[inline(always)]
pub(crate) fn number_at(bytes: &[u8], at: usize) -> Option<Cell>
    requires { at + 9 ≤ length bytes.now }
    ensures found { IfSome result (IsRecordIn Width.Nine (take 9 (drop at bytes.now))) }
    ensures numeric { IfSome result IsNumeric }
    ensures complete { (c : Cell) → IsRecordIn Width.Nine (take 9 (drop at bytes.now)) c
        → IsNumeric c → result ≡ Some c }
{
    unpack_number(bytes[at], i64::from_be_bytes(eight(bytes, at + 1)))
}

#[inline(always)]
fn eight(bytes: &[u8], at: usize) -> [u8; 8]
    requires { at + 8 ≤ length bytes.now }
    ensures { result ≡ take 8 (drop at bytes.now) }
{
    let mut part = [0; 8];
    part.copy_from_slice(&bytes[at..at + 8]);
    part
}

#[inline(always)]
fn unpack(tag: u8, num: i64) -> Option<Cell>
    ensures found { IfSome result (IsRecordIn Width.Nine (nine_bytes tag num)) }
    ensures complete { (c : Cell) → IsRecordIn Width.Nine (nine_bytes tag num) c
        → result ≡ Some c }
{
    if tag == 5 {
        return whole(num);
    }
    if num != 0 { None } else { of_tag(tag) }
}

/// The same without flags, so that a loop over numbers mostly tests one tag a record.
#[inline(always)]
fn unpack_number(tag: u8, num: i64) -> Option<Cell>
    ensures found { IfSome result (IsRecordIn Width.Nine (nine_bytes tag num)) }
    ensures numeric { IfSome result IsNumeric }
    ensures complete { (c : Cell) → IsRecordIn Width.Nine (nine_bytes tag num) c → IsNumeric c
        → result ≡ Some c }
{
    if tag == 5 {
        return whole(num);
    }
    if num != 0 {
        return None;
    }
    if tag == 0 { Some(Cell::Empty) } else { None }
}

/// A whole number as a cell, none where it is −2^63.
#[inline(always)]
fn whole(num: i64) -> Option<Cell>
    ensures found { IfSome result (IsRecordIn Width.Nine (nine_bytes 5 num)) }
    ensures numeric { IfSome result IsNumeric }
    ensures complete { (c : Cell) → IsRecordIn Width.Nine (nine_bytes 5 num) c
        → result ≡ Some c }
{
    if num == i64::MIN {
        None
    } else {
        Some(whole_cell(num))
    }
}
