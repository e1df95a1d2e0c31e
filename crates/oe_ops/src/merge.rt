// `merge_cubes`: the cells of two cubes.
ghost use Rattle.std.specs.Prelude.{◌≡◌, ℕ, ◌+◌, ◌*◌, ◌<◌, ◌≤◌, IfSome, IsTrue, Some, length, slice_index_or};
ghost use Rattle.std.specs.List.{All};
ghost use Rattle.oe_cell.specs.declared.cell.Cell.{Cell};
ghost use Rattle.oe_cell.specs.declared.cell.Cell.TheVariants.{Empty};
ghost use Rattle.oe_cube.specs.Kinds.{IsOfKind};
ghost use Rattle.oe_dims.specs.declared.kind.CellKind.{CellKind};
ghost use Rattle.oe_dims.specs.declared.kind.Kind.{Kind};
ghost use Rattle.oe_dims.specs.Dimensions.{IsShape};
ghost use Rattle.oe_expr.specs.Callback.{callback_kind};
ghost use Rattle.oe_requests.specs.Labels.{shape_of_merge};
ghost use Rattle.oe_meanings.specs.Meaning.{joined, merged};
ghost use Rattle.oe_window.specs.Cells.{cells_on};
ghost use Rattle.oe_window.specs.Windows.{extent_along, span_length};
ghost use Rattle.oe_ops.specs.Calls.{ForEachTwoInputs, HasRoomOn, IsInputFor, IsResolverOf};
ghost use Rattle.oe_ops.specs.Indices.{HasRowOnRun, cell_on_row, index_in_argument};
ghost use Rattle.oe_ops.specs.Joins.{AreBothFound, AreWhereFound, where_found_at};
ghost use Rattle.oe_ops.specs.Needs.{HasLabelsOf};
ghost use Rattle.oe_ops.specs.Slices.{TakesPairs};

use crate::rows::{Planes, Rows, fill, fill_planes};
use crate::run::Run;
use crate::slice::{Slice, indices};
use crate::source::{
    PlaneIndices, RowIndices, Source, found_on, found_row, index_in, plane_indices, row_in,
};
use oe_cell::Cell;
use oe_dims::{Kind, Shape};
use oe_expr::{EnvRow, Expr, eval_row};
use oe_window::Window;

/// A cube that an operation works on: its shape, and its cells on a window.
#[derive(Clone, Copy)]
pub struct Input<'a> {
    pub shape: &'a Shape,
    pub slice: Slice<'a>,
}

/// The cells of a slice of the first cube at the labels of a result, and of one of the second, `other`, in rows of at
/// most `width` cells from the index `from` on.
#[derive(Clone, Copy)]
struct MergedPlanes<'a> {
    resolver: &'a Option<Expr>,
    one: Source<'a>,
    other: &'a Shape,
    other_slice: Slice<'a>,
    from: u32,
    width: usize,
}

/// The same on a plane.
#[derive(Clone, Copy)]
struct MergedRows<'a> {
    cubes: MergedPlanes<'a>,
    plane: PlaneIndices,
    other_plane: PlaneIndices,
}

/// The values of the resolver on two rows of cells; null where there is none.
fn resolve_row(
    resolver: &Option<Expr>,
    x: &[Cell],
    y: &[Cell],
    out: &mut [Cell],
    scratch: &mut [Cell],
)
    requires some { 0 < length out.old }
    requires x_as_many { length x.now ≡ length out.old }
    requires y_as_many { length y.now ≡ length out.old }
    requires takes { IfSome resolver.now (λ c. TakesPairs c x.now y.now) }
    requires room { 192 ≤ length scratch.old }
    ensures { (k : ℕ) → k < length out.old → slice_index_or out.new k Empty
        ≡ joined resolver.now (Some (slice_index_or x.now k Empty))
        (Some (slice_index_or y.now k Empty)) }
{
    match resolver {
        None => out.fill(Cell::Empty),
        Some(expr) => {
            let row = EnvRow {
                x,
                y,
                cells: &[],
                stride: 1,
                count: 0,
                list: 0,
            };
            eval_row(expr, &row, out, scratch);
        }
    }
}

/// Of the cells of both cubes at an index along `x`, and a third where both have its label: the one of the cube that
/// has it.
fn cell_where(one: &Source, two: &Source, x: u32, a: Cell, b: Cell, both: Cell) -> Cell
    requires { x < extent_along one.now.shape.now Kind.X }
    ensures { result ≡ where_found_at one.now.shape.now one.now.argument.now two.now.argument.now
        x a b both }
{
    let first = index_in(one.shape, one.argument, Kind::X, x);
    let second = index_in(one.shape, two.argument, Kind::X, x);
    match (first, second) {
        (_, None) => a,
        (None, Some(_)) => b,
        (Some(_), Some(_)) => both,
    }
}

/// Puts the cell of the cube that has the label where only one has it; `all` says that both have each of them.
fn mend_row(
    all: bool,
    one: &Source,
    two: &Source,
    x: u32,
    ones: &[Cell],
    twos: &[Cell],
    out: &mut [Cell],
)
    requires valid { IsShape one.now.shape.now }
    requires inside { x + length out.old ≤ extent_along one.now.shape.now Kind.X }
    requires ones_as_many { length ones.now ≡ length out.old }
    requires twos_as_many { length twos.now ≡ length out.old }
    requires all { IsTrue all → (k : ℕ) → k < length out.old → AreBothFound
        (index_in_argument Kind.X one.now.shape.now one.now.argument.now (x + k))
        (index_in_argument Kind.X one.now.shape.now two.now.argument.now (x + k)) }
    ensures { AreWhereFound one.now.shape.now one.now.argument.now two.now.argument.now x
        ones.now twos.now out.old out.new }
{
    if all {
        return;
    }
    for k in 0..out.len() {
        out[k] = cell_where(one, two, x + k as u32, ones[k], twos[k], out[k]);
    }
}

/// The cells of a row that both cubes have.
fn join_row(
    resolver: &Option<Expr>,
    one: &Source,
    two: &Source,
    rows: (RowIndices, RowIndices),
    runs: (Run, Run),
    x: u32,
    out: &mut [Cell],
    scratch: &mut [Cell],
)
    requires takes { IfSome resolver.now
        (λ c. TakesPairs c one.now.slice.cells.now two.now.slice.cells.now) }
    requires one { HasRowOnRun one.now.shape.now one.now.argument.now one.now.slice
        runs.0 rows.0 x (length out.old) }
    requires two { HasRowOnRun one.now.shape.now two.now.argument.now two.now.slice
        runs.1 rows.1 x (length out.old) }
    requires room { 2 * length out.old + 192 ≤ length scratch.old }
    ensures { (k : ℕ) → k < length out.old → slice_index_or out.new k Empty ≡ joined resolver.now
        (cell_on_row one.now.shape.now one.now.argument.now one.now.slice rows.0 (x + k))
        (cell_on_row one.now.shape.now two.now.argument.now two.now.slice rows.1 (x + k)) }
{
    let two = Source {
        shape: one.shape,
        argument: two.argument,
        slice: two.slice,
    };
    let (ones, rest) = scratch.split_at_mut(out.len());
    let (twos, rest) = rest.split_at_mut(out.len());
    let has_ones = found_on(one, runs.0, rows.0, x, ones);
    let has_twos = found_on(&two, runs.1, rows.1, x, twos);
    resolve_row(resolver, ones, twos, out, rest);
    mend_row(has_ones & has_twos, one, &two, x, ones, twos, out);
}

impl Rows for MergedRows<'_> {
    ghost use Rattle.std.specs.Prelude.{IfSome};
    ghost use Rattle.oe_dims.specs.Dimensions.{IsShape};
    ghost use Rattle.oe_dims.specs.Positions.{IsPosition};
    ghost use Rattle.oe_meanings.specs.Meaning.{joined};
    ghost use Rattle.oe_ops.specs.Indices.{AreIndicesAt, IsHeld, found_in};
    ghost use Rattle.oe_ops.specs.Slices.{IsCounted, TakesPairs};

    ghost serves = { λ s p. IsCounted s.cubes.one.slice × IsCounted s.cubes.other_slice
        × IsShape s.cubes.one.shape.now × IsShape s.cubes.one.argument.now
        × IsShape s.cubes.other.now
        × IfSome s.cubes.resolver.now
        (λ c. TakesPairs c s.cubes.one.slice.cells.now s.cubes.other_slice.cells.now)
        × (s.cubes.from ≤ p.x) × (p.x < s.cubes.from + s.cubes.width)
        × IsPosition s.cubes.one.shape.now p
        × AreIndicesAt s.cubes.one.shape.now s.cubes.one.argument.now s.plane p
        × AreIndicesAt s.cubes.one.shape.now s.cubes.other.now s.other_plane p
        × IsHeld s.cubes.one.shape.now s.cubes.one.argument.now s.cubes.one.slice p
        × IsHeld s.cubes.one.shape.now s.cubes.other.now s.cubes.other_slice p };

    ghost room = { λ s. 2 * s.cubes.width + 192 };

    ghost cell = { λ s p. joined s.cubes.resolver.now
        (found_in s.cubes.one.shape.now s.cubes.one.argument.now s.cubes.one.slice p)
        (found_in s.cubes.one.shape.now s.cubes.other.now s.cubes.other_slice p) };

    fn row(&self, t: u32, band: u32, y: u32, x: u32, out: &mut [Cell], scratch: &mut [Cell]) {
        let cubes = &self.cubes;
        let two = Source {
            shape: cubes.one.shape,
            argument: cubes.other,
            slice: cubes.other_slice,
        };
        let first = row_in(&cubes.one, &self.plane, y);
        let second = row_in(&two, &self.other_plane, y);
        match (first, second) {
            (_, None) => found_row(&cubes.one, &self.plane, t, band, y, x, out),
            (None, Some(_)) => found_row(&two, &self.other_plane, t, band, y, x, out),
            (Some(first), Some(second)) => {
                let rows = (first, second);
                let runs = (self.plane.x, self.other_plane.x);
                join_row(
                    cubes.resolver,
                    &cubes.one,
                    &two,
                    rows,
                    runs,
                    x,
                    out,
                    scratch,
                );
            }
        }
    }
}

impl Planes for MergedPlanes<'_> {
    ghost use Rattle.std.specs.Prelude.{IfSome};
    ghost use Rattle.oe_dims.specs.Dimensions.{IsShape};
    ghost use Rattle.oe_dims.specs.Positions.{IsPosition};
    ghost use Rattle.oe_meanings.specs.Meaning.{joined};
    ghost use Rattle.oe_ops.specs.Indices.{IsHeld, found_in};
    ghost use Rattle.oe_ops.specs.Slices.{IsCounted, TakesPairs};

    ghost serves = { λ s p. IsCounted s.one.slice × IsCounted s.other_slice
        × IsShape s.one.argument.now × IsShape s.other.now
        × IfSome s.resolver.now (λ c. TakesPairs c s.one.slice.cells.now s.other_slice.cells.now)
        × (s.from ≤ p.x) × (p.x < s.from + s.width) × IsPosition s.one.shape.now p
        × IsHeld s.one.shape.now s.one.argument.now s.one.slice p
        × IsHeld s.one.shape.now s.other.now s.other_slice p };

    ghost room = { λ s. 2 * s.width + 192 };

    ghost cell = { λ s p. joined s.resolver.now
        (found_in s.one.shape.now s.one.argument.now s.one.slice p)
        (found_in s.one.shape.now s.other.now s.other_slice p) };

    fn plane(&self, window: &Window, out: &mut [Cell], scratch: &mut [Cell]) {
        let rows = MergedRows {
            cubes: *self,
            plane: plane_indices(self.one.shape, self.one.argument, window),
            other_plane: plane_indices(self.one.shape, self.other, window),
        };
        fill(&rows, window, out, scratch);
    }
}

/// The cells of a merge, which has this shape, on a window, from slices of both cubes (`merge_cubes` of openEO
/// Processes). `scratch` has 192 cells at least and two more for each index of the window along `x`.
pub fn eval_merge(
    resolver: &Option<Expr>,
    shape: &Shape,
    one: Input,
    two: Input,
    window: &Window,
    out: &mut [Cell],
    scratch: &mut [Cell],
)
    requires merged { shape.now ≡ shape_of_merge one.shape.now two.shape.now }
    requires resolver { IfSome resolver.now (IsResolverOf one.slice two.slice) }
    requires one { IsInputFor (HasLabelsOf shape.now one.shape.now) window.now one }
    requires two { IsInputFor (HasLabelsOf shape.now two.shape.now) window.now two }
    requires out { HasRoomOn shape.now window.now out.old }
    requires room { 2 * span_length window.now.x + 192 ≤ length scratch.old }
    ensures value { ForEachTwoInputs one.entry two.entry
        (λ first second. out.new ≡ cells_on Empty (merged resolver.now first second) window.now) }
    ensures kinds { (kind : CellKind) → All (IsOfKind kind) one.entry.slice.cells.now
        → All (IsOfKind kind) two.entry.slice.cells.now
        → IfSome resolver.now (λ c. callback_kind c ≡ kind) → All (IsOfKind kind) out.new }
{
    let one = Source {
        shape,
        argument: one.shape,
        slice: one.slice,
    };
    let planes = MergedPlanes {
        resolver,
        one,
        other: two.shape,
        other_slice: two.slice,
        from: window.x.from,
        width: indices(window.x),
    };
    fill_planes(&planes, window, out, scratch);
}
