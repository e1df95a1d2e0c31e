// A reduction cell by cell.
ghost use Rattle.std.specs.Prelude.{◌≡◌, ◌≢◌, ◌+◌, ◌<◌, ◌≤◌, ◌^◌, [], ◌∷◌, ◌++◌, Bool, true, false, List, length, All};
ghost use Rattle.oe_cell.specs.Cells.{IsCell};
ghost use Rattle.oe_cell.specs.Kinds.{IsNumeric, IsLogical};
ghost use Rattle.oe_cell.specs.declared.cell.Cell.{Cell};
ghost use Rattle.oe_fold.specs.Value.{reduction_of};
ghost use Rattle.oe_fold.specs.Progress.{HasSeen, count_of, reducer_of};
ghost use Rattle.oe_fold.specs.Reduction.{is_count};
ghost use Rattle.oe_fold.specs.declared.reducer.Reducer.{Reducer};

use crate::Reducer;
use crate::tally::{Tally, settle, skips_nulls, start, step};
use oe_cell::Cell;

/// A reduction that takes its cells one by one, and keeps none of them. It serves every reducer but the median.
#[derive(Clone, Copy)]
pub struct Pass {
    reducer: Reducer,
    skips: bool,
    tally: Tally,
}

impl Pass {
    /// The pass before the first cell.
    pub fn start(reducer: Reducer, ignore: bool) -> Pass
        ensures seen { HasSeen result reducer ignore [] }
        ensures reducer { reducer_of result ≡ reducer }
        ensures count { count_of result ≡ 0 }
    {
        Pass {
            reducer,
            skips: skips_nulls(reducer, ignore),
            tally: start(),
        }
    }

    /// Takes one more cell, which stands after those before it in label order. Fewer than 2^63 cells may count.
    pub fn push(&mut self, cell: Cell)
        requires { count_of self.old + 1 < 2 ^ 63 }
        ensures seen { (reducer : Reducer) → (ignore : Bool) → (cells : List Cell)
            → HasSeen self.old reducer ignore cells
            → HasSeen self.new reducer ignore (cells ++ cell ∷ []) }
        ensures reducer { reducer_of self.new ≡ reducer_of self.old }
        ensures count { count_of self.new ≤ count_of self.old + 1 }
    {
        step(self.reducer, self.skips, &mut self.tally, &cell);
    }

    /// The reduction of the cells that were pushed, as [`fold`](crate::fold) gives it, by any reducer but the median.
    pub fn value(&self) -> Cell
        requires few { count_of self.now < 2 ^ 63 }
        requires other { reducer_of self.now ≢ Reducer.Median }
        // the reduction of the cells
        ensures reduced { (reducer : Reducer) → (ignore : Bool) → (cells : List Cell)
            → HasSeen self.now reducer ignore cells → result ≡ reduction_of reducer ignore cells }
        // its kind: that of the cells, if they have one, and for the two counts a number
        ensures cell { IsCell result }
        ensures numeric { (reducer : Reducer) → (ignore : Bool) → (cells : List Cell)
            → HasSeen self.now reducer ignore cells
            → All IsNumeric cells → IsNumeric result }
        ensures logical { (reducer : Reducer) → (ignore : Bool) → (cells : List Cell)
            → HasSeen self.now reducer ignore cells → is_count reducer ≡ false
            → All IsLogical cells → IsLogical result }
        ensures counts { (reducer : Reducer) → (ignore : Bool) → (cells : List Cell)
            → HasSeen self.now reducer ignore cells → is_count reducer ≡ true → IsNumeric result }
    {
        self.reduction()
    }

    /// The reduction of the cells that were pushed.
    fn reduction(&self) -> Cell
        requires few { count_of self.now < 2 ^ 63 }
        requires other { reducer_of self.now ≢ Reducer.Median }
        ensures { (reducer : Reducer) → (ignore : Bool) → (cells : List Cell)
            → HasSeen self.now reducer ignore cells → result ≡ reduction_of reducer ignore cells }
    {
        settle(self.reducer, self.tally)
    }

    /// What the pass knows of its cells.
    pub(crate) fn tally(&self) -> Tally
        ensures { result ≡ self.now.tally }
    {
        self.tally
    }
}
