// The running folds of a plane, one for each of its positions, which take the cells of one slab after the other.
ghost use Rattle.std.specs.Prelude.{◌≡◌, ℕ, ◌+◌, ◌*◌, ◌<◌, ◌^◌, [], ◌∷◌, ◌++◌, Bool, true, false, List, length, slice_index_or, All};
ghost use Rattle.oe_cell.specs.Kinds.{IsLogical, IsNumeric};
ghost use Rattle.oe_cell.specs.declared.cell.Cell.{Cell};
ghost use Rattle.oe_cell.specs.declared.cell.Cell.TheVariants.{Empty};
ghost use Rattle.oe_fold.specs.Columns.{column};
ghost use Rattle.oe_fold.specs.Reduction.{is_count};
ghost use Rattle.oe_fold.specs.Value.{reduction_of};
ghost use Rattle.oe_fold.specs.declared.reducer.Reducer.{Reducer};
ghost use Rattle.oe_slab.specs.Folds.{AreNoMedians, ForEachSeen, HaveRoom, HaveSeen};

use oe_cell::Cell;
use oe_fold::{Pass, Reducer};

/// Begins each fold.
pub(crate) fn begin_folds(reducer: Reducer, ignores_nulls: bool, folds: &mut [Pass])
    ensures seen { HaveSeen folds.new reducer ignores_nulls (λ k. []) }
    ensures room { (more : ℕ) → more < 2 ^ 63 → HaveRoom folds.new more }
{
    folds.fill(Pass::start(reducer, ignores_nulls));
}

/// Takes one more cell into each fold: those of one date of a plane.
fn push_date(cells: &[Cell], folds: &mut [Pass])
    requires as_many { length cells.now ≡ length folds.old }
    requires room { HaveRoom folds.old 1 }
    ensures seen { (reducer : Reducer) → (ignores_nulls : Bool) → (seen : ℕ → List Cell)
        → HaveSeen folds.old reducer ignores_nulls seen → HaveSeen folds.new reducer ignores_nulls
        (λ k. seen k ++ slice_index_or cells.now k Empty ∷ []) }
    ensures room { (more : ℕ) → HaveRoom folds.old (more + 1) → HaveRoom folds.new more }
{
    for k in 0..folds.len() {
        folds[k].push(cells[k]);
    }
}

/// Takes the cells of a slab of so many dates into the folds: the cells of the first date, one for each fold, then those
/// of the next.
pub(crate) fn fold_slab(cells: &[Cell], dates: usize, folds: &mut [Pass])
    requires as_many { length cells.now ≡ dates * length folds.old }
    requires room { HaveRoom folds.old dates }
    ensures seen { (reducer : Reducer) → (ignores_nulls : Bool) → (seen : ℕ → List Cell)
        → HaveSeen folds.old reducer ignores_nulls seen → HaveSeen folds.new reducer ignores_nulls
        (λ k. seen k ++ column cells.now (length folds.old) dates k) }
    ensures room { (more : ℕ) → HaveRoom folds.old (more + dates) → HaveRoom folds.new more }
{
    let plane = folds.len();
    for date in 0..dates {
        let first = date * plane;
        push_date(&cells[first..first + plane], folds);
    }
}

/// Writes the value of each fold.
pub(crate) fn settle(folds: &[Pass], out: &mut [Cell])
    requires as_many { length folds.now ≡ length out.old }
    requires room { HaveRoom folds.now 0 }
    requires other { AreNoMedians folds.now }
    ensures value { ForEachSeen folds.now (λ reducer ignores_nulls seen. (k : ℕ) → k < length out.old
        → slice_index_or out.new k Empty ≡ reduction_of reducer ignores_nulls (seen k)) }
    // its kind: that of the cells, if they have one, and for the two counts a number
    ensures numeric { ForEachSeen folds.now (λ reducer ignores_nulls seen. (k : ℕ)
        → k < length out.old → All IsNumeric (seen k) → IsNumeric (slice_index_or out.new k Empty)) }
    ensures logical { ForEachSeen folds.now (λ reducer ignores_nulls seen. is_count reducer ≡ false
        → (k : ℕ) → k < length out.old
        → All IsLogical (seen k) → IsLogical (slice_index_or out.new k Empty)) }
    ensures counts { ForEachSeen folds.now (λ reducer ignores_nulls seen. is_count reducer ≡ true
        → (k : ℕ) → k < length out.old → IsNumeric (slice_index_or out.new k Empty)) }
{
    for k in 0..folds.len() {
        out[k] = folds[k].value();
    }
}
