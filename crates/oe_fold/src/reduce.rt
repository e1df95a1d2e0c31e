// The fold of a list of cells by a reducer.
ghost use Rattle.std.specs.Prelude.{◌≡◌, ◌≤◌, ◌<◌, ◌^◌, true, false, length, All};
ghost use Rattle.oe_cell.specs.Cells.{IsCell};
ghost use Rattle.oe_cell.specs.Kinds.{IsNumeric, IsLogical};
ghost use Rattle.oe_cell.specs.declared.cell.Cell.{Cell};
ghost use Rattle.oe_fold.specs.Value.{reduction_of};
ghost use Rattle.oe_fold.specs.Progress.{HasSeen};
ghost use Rattle.oe_fold.specs.Reduction.{is_count, IsReduction};

use crate::median::median;
use crate::{Pass, Reducer};
use oe_cell::Cell;

/// The cell that a reducer of openEO Processes makes of the cells, which stand in label order.
///
/// An Over among the cells gives Over. `Count` and `CountAll` are the number of cells that are not null and the number
/// of all. For the other reducers nulls are left out where `ignore` is true, and no cell that is left gives Empty.
/// Otherwise a null gives Empty, but for `First`, `Last`, `Any` and `All`. The definition allows this one cell and no
/// other. `scratch` is used by the median alone, which needs as many cells as there are.
pub fn fold(reducer: Reducer, ignore: bool, cells: &[Cell], scratch: &mut [Cell]) -> Cell
    requires { reducer ≡ Reducer.Median → length cells.now ≤ length scratch.old }
    // the one cell of the definition
    ensures value { IsReduction reducer ignore cells.now result }
    ensures reduced { result ≡ reduction_of reducer ignore cells.now }
    ensures only { (c : Cell) → IsReduction reducer ignore cells.now c → c ≡ result }
    // its kind: that of the list, if it has one, and for the two counts a number
    ensures cell { IsCell result }
    ensures numeric { All IsNumeric cells.now → IsNumeric result }
    ensures logical { is_count reducer ≡ false → All IsLogical cells.now → IsLogical result }
    ensures counts { is_count reducer ≡ true → IsNumeric result }
{
    reduce(reducer, ignore, cells, scratch)
}

/// The reduction, with what is known of the cells.
fn reduce(reducer: Reducer, ignore: bool, cells: &[Cell], scratch: &mut [Cell]) -> Cell
    requires { reducer ≡ Reducer.Median → length cells.now ≤ length scratch.old }
    ensures reduced { result ≡ reduction_of reducer ignore cells.now }
    ensures known { All IsCell cells.now }
{
    let pass = scan(reducer, ignore, cells);
    match reducer {
        Reducer::Median => median(ignore, pass.tally(), cells, scratch),
        _ => pass.value(),
    }
}

/// The pass over all cells.
fn scan(reducer: Reducer, ignore: bool, cells: &[Cell]) -> Pass
    ensures seen { HasSeen result reducer ignore cells.now }
    ensures few { length cells.now < 2 ^ 62 }
{
    let mut pass = Pass::start(reducer, ignore);
    for cell in cells {
        pass.push(*cell);
    }
    pass
}
