// The values of a callback on lists of cells along a dimension.
ghost use Rattle.std.specs.Prelude.{◌≡◌, [], ℕ, ◌+◌, ◌*◌, ◌^◌, ◌<◌, ◌≤◌, length, slice_index_or};
ghost use Rattle.oe_cell.specs.declared.cell.Cell.TheVariants.{Empty};
ghost use Rattle.oe_dims.specs.declared.kind.Kind.{Kind};
ghost use Rattle.oe_window.specs.Windows.{IsIn, number_in, position_count};
ghost use Rattle.oe_ops.specs.Lists.{HasListsInside, IsFullList, TakesList, list_from, stride_along, value_of_list, with_index};
ghost use Rattle.oe_ops.specs.Slices.{IsCounted, along_x, at_indices};

use crate::rows::Rows;
use crate::slice::{Slice, indices, number};
use oe_cell::Cell;
use oe_dims::Kind;
use oe_expr::{EnvRow, Expr, eval_row};
use oe_window::Window;

/// The values of a callback on the lists along a dimension: the `count` cells from the index `from` on, which are the
/// list of the number `list` of the callback.
#[derive(Clone, Copy)]
pub(crate) struct ListRows<'a> {
    pub expr: &'a Expr,
    pub slice: Slice<'a>,
    pub along: Kind,
    pub from: u32,
    pub count: usize,
    pub list: u32,
}

/// How far apart neighbours along a dimension stand in a slice.
pub(crate) fn stride_along(window: &Window, along: Kind) -> usize
    requires most { position_count window.now < 2 ^ 64 }
    requires some { 0 < position_count window.now }
    ensures { result ≡ stride_along along window.now }
{
    match along {
        Kind::Time => indices(window.bands) * indices(window.y) * indices(window.x),
        Kind::Bands => indices(window.y) * indices(window.x),
        Kind::Y => indices(window.x),
        Kind::X => 1,
    }
}

/// The number of a position with another index along a dimension.
fn number_with(slice: &Slice, along: Kind, index: u32, t: u32, band: u32, y: u32, x: u32) -> usize
    requires counted { IsCounted slice.now }
    requires inside { IsIn slice.now.window (with_index along (at_indices t band y x) index) }
    ensures value { result
        ≡ number_in slice.now.window (with_index along (at_indices t band y x) index) }
    ensures within { result < length slice.now.cells.now }
{
    match along {
        Kind::Time => number(slice, index, band, y, x),
        Kind::Bands => number(slice, t, index, y, x),
        Kind::Y => number(slice, t, band, index, x),
        Kind::X => number(slice, t, band, y, index),
    }
}

/// The values on lists that have no cell.
fn empty_lists(rows: &ListRows, out: &mut [Cell], scratch: &mut [Cell])
    requires some { 0 < length out.old }
    requires empty { rows.now.count ≡ 0 }
    requires takes { TakesList rows.now.expr.now rows.now.list 0 rows.now.slice.cells.now }
    requires room { 192 ≤ length scratch.old }
    ensures { (k : ℕ) → k < length out.old → slice_index_or out.new k Empty
        ≡ value_of_list rows.now.expr.now rows.now.list [] }
{
    let row = EnvRow {
        x: &[],
        y: &[],
        cells: &[],
        stride: out.len(),
        count: 0,
        list: rows.list,
    };
    eval_row(rows.expr, &row, out, scratch);
}

/// The values on lists that have a cell, at the positions of a row.
fn full_lists(
    rows: &ListRows,
    t: u32,
    band: u32,
    y: u32,
    x: u32,
    out: &mut [Cell],
    scratch: &mut [Cell],
)
    requires some { 0 < length out.old }
    requires list { IsFullList rows.now.slice rows.now.expr.now rows.now.list rows.now.count }
    requires single { rows.now.along ≡ Kind.X → length out.old ≡ 1 }
    requires inside { HasListsInside rows.now.slice rows.now.along rows.now.from rows.now.count
        (at_indices t band y x) (length out.old) }
    requires room { 192 + 2 * rows.now.count ≤ length scratch.old }
    ensures { (k : ℕ) → k < length out.old → slice_index_or out.new k Empty
        ≡ value_of_list rows.now.expr.now rows.now.list (list_from rows.now.slice
        rows.now.along rows.now.from rows.now.count (along_x (at_indices t band y x) k)) }
{
    let first = number_with(&rows.slice, rows.along, rows.from, t, band, y, x);
    let stride = stride_along(&rows.slice.window, rows.along);
    let row = EnvRow {
        x: &[],
        y: &[],
        cells: &rows.slice.cells[first..],
        stride,
        count: rows.count,
        list: rows.list,
    };
    eval_row(rows.expr, &row, out, scratch);
}

impl Rows for ListRows<'_> {
    ghost use Rattle.oe_dims.specs.declared.kind.Kind.TheVariants.{X};
    ghost use Rattle.oe_window.specs.Windows.{IsIn};
    ghost use Rattle.oe_ops.specs.Lists.{TakesList, list_from, value_of_list, with_index};
    ghost use Rattle.oe_ops.specs.Slices.{IsCounted};

    ghost serves = { λ s p. IsCounted s.slice
        × TakesList s.expr.now s.list s.count s.slice.cells.now
        × (s.along ≡ X → p.x ≡ 0)
        × ((i : ℕ) → i < s.count → IsIn s.slice.window (with_index s.along p (s.from + i))) };

    ghost room = { λ s. 192 + 2 * s.count };

    ghost cell = { λ s p. value_of_list s.expr.now s.list
        (list_from s.slice s.along s.from s.count p) };

    fn row(&self, t: u32, band: u32, y: u32, x: u32, out: &mut [Cell], scratch: &mut [Cell]) {
        if self.count == 0 {
            empty_lists(self, out, scratch);
        } else {
            full_lists(self, t, band, y, x, out, scratch);
        }
    }
}
