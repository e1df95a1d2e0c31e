// One operation on a window, and what it needs of a window of its arguments.
ghost use Rattle.std.specs.Prelude.{◌≡◌, ◌∷◌, [], ℕ, List, length};
ghost use Rattle.std.specs.List.{All};
ghost use Rattle.oe_cell.specs.declared.cell.Cell.{Cell};
ghost use Rattle.oe_cell.specs.declared.cell.Cell.TheVariants.{Empty};
ghost use Rattle.oe_cube.specs.Kinds.{IsOfKind};
ghost use Rattle.oe_dims.specs.Dimensions.{Dimensions, IsShape};
ghost use Rattle.oe_dims.specs.declared.kind.CellKind.{CellKind};
ghost use Rattle.oe_meanings.specs.Meaning.{cube_of};
ghost use Rattle.oe_requests.specs.Operations.{operation_kind, shape_of};
ghost use Rattle.oe_requests.specs.PlainRequests.{plain_operation};
ghost use Rattle.oe_window.specs.Cells.{cells_on};
ghost use Rattle.oe_window.specs.Windows.{Holds, whole_window};
ghost use Rattle.oe_ops.specs.Calls.{AreInputsFor, ForEachTwoInputs, HasRoomOn, IsOperationOn};
ghost use Rattle.oe_ops.specs.Needs.{IsNeed, Needs, argument_shape};
ghost use Rattle.oe_ops.specs.Nodes.{FitsFirstKind, HasScratch, IsConvolution};

use crate::accumulate::eval_accumulate;
use crate::aggregate::eval_aggregate;
use crate::apply::eval_apply;
use crate::convolve::eval_convolve;
use crate::cover::eval_cover;
use crate::give_back::eval_give_back;
use crate::keep::eval_keep;
use crate::merge::{Input, eval_merge};
use crate::needs::{need_beside, need_labels, need_pixels};
use crate::reduce::eval_reduce;
use oe_cell::Cell;
use oe_dims::{Kind, Shape};
use oe_requests::Operation;
use oe_window::Window;

/// The least window of an argument of the shape `argument` that an operation needs for a window of its result, which
/// has the shape `shape`: the zero window where nothing is needed.
pub fn need(operation: &Operation, shape: &Shape, argument: &Shape, window: &Window) -> Window
    requires valid { IsShape argument.now }
    requires within { Holds (whole_window shape.now) window.now }
    requires argument_within { IsConvolution (plain_operation operation.now)
        → Holds (whole_window argument.now) window.now }
    ensures { (shapes : List Dimensions) (number : ℕ) → shape.now ≡ shape_of
        (plain_operation operation.now) shapes → argument.now ≡ argument_shape shapes number
        → IsNeed (Needs (plain_operation operation.now) shapes number) window.now result }
{
    match operation {
        Operation::Convolve { kernel, border, .. } => need_pixels(
            kernel, *border, argument, window,
        ),
        Operation::Reduce(along, _) => need_beside(*along, shape, argument, window),
        Operation::Aggregate(_, _) => need_beside(Kind::Time, shape, argument, window),
        Operation::Accumulate(_) => need_beside(Kind::Time, shape, argument, window),
        _ => need_labels(shape, argument, window),
    }
}

/// The cells of the result of an operation on a window, where the result has the shape `shape`, from slices of the
/// cubes that it works on. An operation on one cube does not look at the second, which may be the first again.
/// `scratch` has 192 cells at least and two more for each label of the longest dimension of the cubes.
pub fn eval_node(
    operation: &Operation,
    shape: &Shape,
    one: Input,
    two: Input,
    window: &Window,
    out: &mut [Cell],
    scratch: &mut [Cell],
)
    requires works { IsOperationOn (plain_operation operation.now) shape.now one two }
    requires inputs { AreInputsFor (plain_operation operation.now) window.now one two }
    requires inside { Holds (whole_window one.shape.now) one.slice.window }
    requires out { HasRoomOn shape.now window.now out.old }
    requires room { HasScratch one.shape.now (length scratch.old) }
    requires shape_room { HasScratch shape.now (length scratch.old) }
    ensures value { ForEachTwoInputs one.entry two.entry (λ first second. out.new ≡ cells_on Empty
        (cube_of (plain_operation operation.now) (first ∷ second ∷ [])) window.now) }
    ensures kinds { (kind : CellKind) → All (IsOfKind kind) one.entry.slice.cells.now
        → FitsFirstKind (plain_operation operation.now) kind two.entry.slice.cells.now
        → All (IsOfKind (operation_kind (plain_operation operation.now) (kind ∷ []))) out.new }
{
    if out.is_empty() {
        return;
    }
    match operation {
        Operation::Keep(_) => eval_keep(shape, one.shape, one.slice, window, out, scratch),
        Operation::EachCell(expr) => eval_apply(expr, shape, one.slice, window, out, scratch),
        Operation::Convolve {
            kernel,
            factor,
            border,
            replace_invalid,
        } => {
            let factor = *factor;
            eval_convolve(
                kernel,
                factor,
                *border,
                *replace_invalid,
                shape,
                one.slice,
                window,
                out,
            );
        }
        Operation::Reduce(along, expr) => eval_reduce(
            *along, expr, shape, one.shape, one.slice, window, out, scratch,
        ),
        Operation::Aggregate(intervals, expr) => eval_aggregate(
            intervals, expr, shape, one.shape, one.slice, window, out, scratch,
        ),
        Operation::Accumulate(ignore) => {
            eval_accumulate(*ignore, shape, one.slice, window, out, scratch);
        }
        Operation::Merge(resolver) => eval_merge(resolver, shape, one, two, window, out, scratch),
        Operation::Cover(replacement) => eval_cover(
            *replacement,
            shape,
            two.shape,
            one.slice,
            two.slice,
            window,
            out,
            scratch,
        ),
        Operation::GiveBack => eval_give_back(shape, one.slice, window, out, scratch),
    }
}
