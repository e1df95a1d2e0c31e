// Records as the cells of a collection.
ghost use Rattle.std.specs.Prelude.{◌≡◌, ◌<◌, ◌≤◌, ◌*◌, true, false, length, take, drop, slice_get, Some, ℕ, None};
ghost use Rattle.std.specs.List.{list_all};
ghost use Rattle.oe_cell.specs.declared.cell.Cell.{Cell};
ghost use Rattle.oe_cube.specs.Kinds as kinds;
ghost use Rattle.oe_sources.specs.StoredCell.{stored_cell};
ghost use Rattle.oe_wide.specs.Wide.{byte_count, part_at};

use oe_cell::Cell;
use oe_cube::is_null_or_of;
use oe_dims::CellKind;
use oe_wide::{Width, read_numbers, read_row};

/// Reads records of one width as cells of a collection of the kind, and answers how many: all, or as many as stand
/// before the first that is none.
pub(crate) fn read_stored(bytes: &[u8], width: Width, kind: CellKind, into: &mut [Cell]) -> usize
    requires { length bytes.now ≡ byte_count width * length into.old }
    ensures within { result ≤ length into.old }
    ensures read { (k : ℕ) → k < result →
        stored_cell kind width (part_at width bytes.now k) ≡ slice_get into.new k }
    ensures of_kind { list_all (kinds.is_null_or_of kind) (take result into.new) ≡ true }
    ensures stop { result < length into.old →
        stored_cell kind width (part_at width bytes.now result) ≡ None }
{
    match width {
        Width::Nine => read_nines(bytes, kind, into),
        _ => read_of_kind(bytes, width, kind, into),
    }
}

/// The same of records of 9 bytes, of which those of numbers are read and judged in one loop.
fn read_nines(bytes: &[u8], kind: CellKind, into: &mut [Cell]) -> usize
    ensures within { result ≤ length into.old }
    ensures read { (k : ℕ) → k < result →
        stored_cell kind Width.Nine (part_at Width.Nine bytes.now k) ≡ slice_get into.new k }
    ensures of_kind { list_all (kinds.is_null_or_of kind) (take result into.new) ≡ true }
    ensures stop { result < length into.old →
        stored_cell kind Width.Nine (part_at Width.Nine bytes.now result) ≡ None }
{
    match kind {
        CellKind::Numbers => read_numbers(bytes, into),
        CellKind::Flags => read_of_kind(bytes, Width::Nine, kind, into),
    }
}

/// The same in two loops: the cells of a row, and then how many of them are of the kind.
fn read_of_kind(bytes: &[u8], width: Width, kind: CellKind, into: &mut [Cell]) -> usize
    ensures within { result ≤ length into.old }
    ensures read { (k : ℕ) → k < result →
        stored_cell kind width (part_at width bytes.now k) ≡ slice_get into.new k }
    ensures of_kind { list_all (kinds.is_null_or_of kind) (take result into.new) ≡ true }
    ensures stop { result < length into.old →
        stored_cell kind width (part_at width bytes.now result) ≡ None }
{
    let count = read_row(bytes, width, into);
    count_of_kind(kind, &into[..count])
}

/// How many cells stand before the first that is not null or of the kind.
fn count_of_kind(kind: CellKind, cells: &[Cell]) -> usize
    ensures within { result ≤ length cells.now }
    ensures before { list_all (kinds.is_null_or_of kind) (take result cells.now) ≡ true }
    ensures first { (cell : Cell) → slice_get cells.now result ≡ Some cell
        → kinds.is_null_or_of kind cell ≡ false }
{
    for (index, cell) in cells.iter().enumerate() {
        if !is_null_or_of(kind, *cell) {
            return index;
        }
    }
    cells.len()
}
