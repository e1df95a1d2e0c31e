// `reduce_dimension`: the lists of cells along a dimension by a callback.
ghost use Rattle.std.specs.Prelude.{◌≡◌, ◌+◌, ◌*◌, ◌≤◌, length};
ghost use Rattle.std.specs.List.{All};
ghost use Rattle.oe_cell.specs.declared.cell.Cell.{Cell};
ghost use Rattle.oe_cell.specs.declared.cell.Cell.TheVariants.{Empty};
ghost use Rattle.oe_cube.specs.Kinds.{IsOfKind};
ghost use Rattle.oe_expr.specs.Callback.{KeepsKind, callback_kind};
ghost use Rattle.oe_expr.specs.Scope.{count_labels};
ghost use Rattle.oe_meanings.specs.Meaning.{reduced};
ghost use Rattle.oe_requests.specs.Operations.{labels_along, without_dimension};
ghost use Rattle.oe_window.specs.Cells.{cells_on};
ghost use Rattle.oe_ops.specs.Calls.{ForEachCube, HasRoomOn, IsSliceFor};
ghost use Rattle.oe_ops.specs.Lists.{TakesLists};
ghost use Rattle.oe_ops.specs.Needs.{HasLabelsBeside};

use crate::list::ListRows;
use crate::rows::fill;
use crate::slice::Slice;
use oe_cell::Cell;
use oe_dims::{Kind, Shape};
use oe_expr::Expr;
use oe_window::Window;

/// How many labels there are along a dimension.
fn labels_count(shape: &Shape, along: Kind) -> u32
    ensures { result ≡ count_labels (labels_along along shape.now) }
{
    match shape.count(along) {
        None => 0,
        Some(count) => count,
    }
}

/// The values of a callback on the lists along a dimension of a cube of the shape `argument`, on a window of the
/// result, which has the shape `shape`, from a slice of the cube (`reduce_dimension` of openEO Processes). `scratch`
/// has 192 cells at least and two more for each label of the dimension.
pub fn eval_reduce(
    along: Kind,
    expr: &Expr,
    shape: &Shape,
    argument: &Shape,
    slice: Slice,
    window: &Window,
    out: &mut [Cell],
    scratch: &mut [Cell],
)
    requires without { shape.now ≡ without_dimension along argument.now }
    requires keeps { KeepsKind expr.now }
    requires takes { TakesLists expr.now along argument.now slice.cells.now }
    requires slice { IsSliceFor (HasLabelsBeside along shape.now argument.now)
        window.now argument.now slice }
    requires out { HasRoomOn shape.now window.now out.old }
    requires room { 192 + 2 * count_labels (labels_along along argument.now) ≤ length scratch.old }
    ensures value { ForEachCube argument.now slice.entry
        (λ cube. out.new ≡ cells_on Empty (reduced along expr.now cube) window.now) }
    ensures kinds { All (IsOfKind (callback_kind expr.now)) out.new }
{
    let _shape = shape;
    let rows = ListRows {
        expr,
        slice,
        along,
        from: 0,
        count: labels_count(argument, along) as usize,
        list: 0,
    };
    fill(&rows, window, out, scratch);
}
