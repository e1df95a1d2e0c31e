// One step: the cells of its node on its window, from the buffers of the steps whose cubes it takes.
ghost use Rattle.std.specs.Prelude.{◌≡◌, ◌≢◌, ◌<◌, ◌≤◌, ◌+◌, ◌^◌, ℕ, false, length, slice_index, take};
ghost use Rattle.std.specs.List.{All};
ghost use Rattle.oe_cube.specs.Kinds.{IsOfKind};
ghost use Rattle.oe_dims.specs.Dimensions.{IsShape};
ghost use Rattle.oe_window.specs.Windows.{position_count};
ghost use Rattle.oe_plan.specs.Figures.{scratch_of, shape_of_node};
ghost use Rattle.oe_plan.specs.Schedules.{AreWindowsFor, IsSchedule, TakesAt, is_load_at, node_at};
ghost use Rattle.oe_plan.specs.Steps.{arguments_of_node};
ghost use Rattle.oe_plan.specs.Windows.{window_at};
ghost use Rattle.oe_steps.specs.Steps.{AreArguments, AreOfKind, HaveRoomFor, IsReadySchedule, KeepsOthers, buffer_cells_at, cell_kind_at};
ghost use Rattle.oe_steps.specs.Buffers.{buffer_beside, lists_of};
ghost use Rattle.oe_steps.specs.Inputs.{EvaluatesStep, GivesNodeCells, WorksOnCells, cells_of_step};

use oe_cell::Cell;
use oe_check::Checked;
use oe_dims::{Kind, Shape};
use oe_ops::{Input, Slice, eval_node};
use oe_plan::{Schedule, argument_count, argument_of};
use oe_window::{Window, size};

/// The steps of one evaluation: the step whose cells are evaluated, and those whose cubes it takes. One that takes one
/// cube has that one twice.
#[derive(Clone, Copy)]
struct Operands {
    step: u32,
    first: u32,
    second: u32,
}

/// The cells of a step: the front of the buffer of its slot.
pub fn front<'a>(
    checked: &Checked,
    schedule: &Schedule,
    step: u32,
    windows: &[Window],
    buffers: &'a [Vec<Cell>],
) -> &'a [Cell]
    requires schedule { IsSchedule checked.now schedule.now }
    requires step { step < length schedule.now.order.steps }
    requires windows { AreWindowsFor checked.now schedule.now windows.now }
    requires room { HaveRoomFor schedule.now (lists_of buffers.now) }
    ensures { result.now ≡ buffer_cells_at schedule.now windows.now (lists_of buffers.now) step }
{
    let slot = schedule.slot(step) as usize;
    let count = size(&windows[step as usize]) as usize;
    &buffers[slot].as_slice()[..count]
}

/// The buffer of a slot, beside the one that is taken out between those before it and those after it.
fn beside<'a>(before: &'a [Vec<Cell>], after: &'a [Vec<Cell>], slot: usize) -> &'a [Cell]
    requires other { slot ≢ length before.now }
    requires within { slot < length before.now + 1 + length after.now }
    ensures { result.now ≡ buffer_beside (lists_of before.now) (lists_of after.now) slot }
{
    if slot < before.len() {
        before[slot].as_slice()
    } else {
        after[slot - before.len() - 1].as_slice()
    }
}

/// The cells of a step, which stand beside the buffer that is taken out.
fn front_beside<'a>(
    checked: &Checked,
    schedule: &Schedule,
    step: u32,
    windows: &[Window],
    before: &'a [Vec<Cell>],
    after: &'a [Vec<Cell>],
) -> &'a [Cell]
    requires schedule { IsSchedule checked.now schedule.now }
    requires step { step < length schedule.now.order.steps }
    requires windows { AreWindowsFor checked.now schedule.now windows.now }
    requires slots { schedule.now.order.width ≡ length before.now + 1 + length after.now }
    requires other { slice_index schedule.now.order.slots step ≢ length before.now }
    requires room { schedule.now.largest
        ≤ length (buffer_beside (lists_of before.now) (lists_of after.now)
        (slice_index schedule.now.order.slots step)) }
    ensures { result.now ≡ take (position_count (window_at windows.now step))
        (buffer_beside (lists_of before.now) (lists_of after.now)
        (slice_index schedule.now.order.slots step)) }
{
    let slot = schedule.slot(step) as usize;
    let count = size(&windows[step as usize]) as usize;
    &beside(before, after, slot)[..count]
}

/// The step of the cube that a step takes as its argument of a number.
fn step_of_argument(checked: &Checked, schedule: &Schedule, step: u32, number: usize) -> u32
    requires schedule { IsSchedule checked.now schedule.now }
    requires step { step < length schedule.now.order.steps }
    requires works { is_load_at checked.now schedule.now step ≡ false }
    requires number { number < length (arguments_of_node checked.now (node_at schedule.now step)) }
    ensures { TakesAt checked.now schedule.now step number result }
{
    let argument = argument_of(checked, schedule.node(step), number);
    match schedule.step_of(argument) {
        Some(found) => found,
        None => unreachable!(),
    }
}

/// The steps of the two cubes that a step works on. One that works on one cube has that one twice.
fn inputs_of(checked: &Checked, schedule: &Schedule, step: u32) -> (u32, u32)
    requires schedule { IsSchedule checked.now schedule.now }
    requires step { step < length schedule.now.order.steps }
    requires works { is_load_at checked.now schedule.now step ≡ false }
    ensures { AreArguments checked.now schedule.now step result.0 result.1 }
{
    let node = schedule.node(step);
    // A node that loads no collection has an operation on one cube at least.
    let _operation = checked.operation(node);
    let first = step_of_argument(checked, schedule, step, 0);
    if argument_count(checked, node) < 2 {
        return (first, first);
    }
    (first, step_of_argument(checked, schedule, step, 1))
}

/// The shape of the cube of a step's node.
fn shape_of<'a>(checked: &'a Checked, schedule: &Schedule, step: u32) -> &'a Shape
    requires schedule { IsSchedule checked.now schedule.now }
    requires step { step < length schedule.now.order.steps }
    ensures value { result.now ≡ shape_of_node checked.now (node_at schedule.now step) }
    ensures valid { IsShape result.now }
{
    let shape = checked.shape(schedule.node(step));
    // The reading of a dimension says that the shape is valid.
    let _count = shape.count(Kind::Time);
    shape
}

/// Writes the cells of a step that loads no collection, from those of the two steps whose cubes it works on.
fn evaluate_from(
    checked: &Checked,
    schedule: &Schedule,
    operands: Operands,
    windows: &[Window],
    first: &[Cell],
    second: &[Cell],
    out: &mut [Cell],
    scratch: &mut [Cell],
)
    requires works { WorksOnCells checked.now schedule.now windows.now operands.step
        operands.first operands.second first.now second.now }
    requires out { length out.old ≡ position_count (window_at windows.now operands.step) }
    requires scratch { length scratch.old ≡ scratch_of checked.now }
    ensures kinds { All (IsOfKind (cell_kind_at checked.now schedule.now operands.step)) out.new }
    ensures value { GivesNodeCells checked.now schedule.now windows.now operands.step
        operands.first operands.second first.now second.now out.new }
{
    let one = Input {
        shape: shape_of(checked, schedule, operands.first),
        slice: Slice {
            window: windows[operands.first as usize],
            cells: first,
        },
    };
    let two = Input {
        shape: shape_of(checked, schedule, operands.second),
        slice: Slice {
            window: windows[operands.second as usize],
            cells: second,
        },
    };
    let operation = checked.operation(schedule.node(operands.step));
    let window = windows[operands.step as usize];
    eval_node(
        operation,
        shape_of(checked, schedule, operands.step),
        one,
        two,
        &window,
        out,
        scratch,
    );
}

/// The same at the front of a buffer.
fn evaluate_into(
    checked: &Checked,
    schedule: &Schedule,
    operands: Operands,
    windows: &[Window],
    first: &[Cell],
    second: &[Cell],
    buffer: &mut [Cell],
    scratch: &mut [Cell],
)
    requires works { WorksOnCells checked.now schedule.now windows.now operands.step
        operands.first operands.second first.now second.now }
    requires few { position_count (window_at windows.now operands.step) < 2 ^ 64 }
    requires room { position_count (window_at windows.now operands.step) ≤ length buffer.old }
    requires within { operands.step < length windows.now }
    requires scratch { length scratch.old ≡ scratch_of checked.now }
    ensures kinds { All (IsOfKind (cell_kind_at checked.now schedule.now operands.step))
        (cells_of_step windows.now operands.step buffer.new) }
    ensures value { GivesNodeCells checked.now schedule.now windows.now operands.step operands.first
        operands.second first.now second.now (cells_of_step windows.now operands.step buffer.new) }
{
    let count = size(&windows[operands.step as usize]) as usize;
    let out = &mut buffer[..count];
    evaluate_from(
        checked, schedule, operands, windows, first, second, out, scratch,
    );
}

/// Writes the cells of a step that loads no collection into the buffer of its slot. The buffers of the other slots stay
/// as they are.
pub fn evaluate_step(
    checked: &Checked,
    schedule: &Schedule,
    step: u32,
    windows: &[Window],
    buffers: &mut [Vec<Cell>],
    scratch: &mut [Cell],
)
    requires ready { IsReadySchedule checked.now schedule.now windows.now (lists_of buffers.old) }
    requires step { step < length schedule.now.order.steps }
    requires works { is_load_at checked.now schedule.now step ≡ false }
    requires scratch { length scratch.old ≡ scratch_of checked.now }
    requires kinds { (number r : ℕ) → TakesAt checked.now schedule.now step number r
        → AreOfKind checked.now schedule.now windows.now (lists_of buffers.old) r }
    ensures room { HaveRoomFor schedule.now (lists_of buffers.new) }
    ensures scratch { length scratch.new ≡ length scratch.old }
    ensures others { KeepsOthers schedule.now step (lists_of buffers.old) (lists_of buffers.new) }
    ensures kinds { AreOfKind checked.now schedule.now windows.now (lists_of buffers.new) step }
    ensures value { EvaluatesStep checked.now schedule.now step windows.now (lists_of buffers.old)
        (lists_of buffers.new) }
{
    let (first, second) = inputs_of(checked, schedule, step);
    let (before, rest) = buffers.split_at_mut(schedule.slot(step) as usize);
    let (own, after) = rest.split_at_mut(1);
    let one = front_beside(checked, schedule, first, windows, before, after);
    let two = front_beside(checked, schedule, second, windows, before, after);
    let buffer = own[0].as_mut_slice();
    evaluate_into(
        checked,
        schedule,
        Operands {
            step,
            first,
            second,
        },
        windows,
        one,
        two,
        buffer,
        scratch,
    );
}
