// The windows of all steps of a run, from the last step to the first.
ghost use Rattle.std.specs.Prelude.{◌≡◌, ℕ, ◌+◌, ◌<◌, true, false, Some, Contains, length, slice_get, slice_index};
ghost use Rattle.oe_dims.specs.Dimensions.{IsShape};
ghost use Rattle.oe_graph.specs.Printed.{node_count};
ghost use Rattle.oe_ops.specs.Needs.{IsNeed, zero_window};
ghost use Rattle.oe_order.specs.Graph.{IsAcyclic, is_load};
ghost use Rattle.oe_check.specs.Checked.{AreFaultless};
ghost use Rattle.oe_check.specs.Links.{links_of};
ghost use Rattle.oe_window.specs.Chunks.{FitsSides, tiling_of};
ghost use Rattle.oe_window.specs.Windows.{Holds, IsEmpty, whole_window};
ghost use Rattle.oe_window.specs.declared.grid.ChunkSize.{ChunkSize};
ghost use Rattle.oe_window.specs.declared.window.Window.{Window};
ghost use Rattle.oe_plan.specs.Figures.{shape_of_node};
ghost use Rattle.oe_plan.specs.Schedules.{part_of, steps_to_last};
ghost use Rattle.oe_plan.specs.Steps.{NeedsOfNode, arguments_of_node};
ghost use Rattle.oe_plan.specs.Widening.{AreWidened, IsWidenedBy};
ghost use Rattle.oe_plan.specs.Windows.{AreWindows, IsOrderOf, window_at};

use crate::schedule::Schedule;
use oe_check::Checked;
use oe_dims::{Kind, Shape};
use oe_ops::need;
use oe_window::{Span, Window, hull};

const NO_INDEX: Span = Span { from: 0, to: 0 };

/// The window without a position.
const ZERO: Window = Window {
    t: NO_INDEX,
    bands: NO_INDEX,
    y: NO_INDEX,
    x: NO_INDEX,
};

/// Makes each window the zero window.
fn clear(windows: &mut [Window])
    ensures length { length windows.new ≡ length windows.old }
    ensures zero { (k : ℕ) → window_at windows.new k ≡ zero_window }
{
    windows.fill(ZERO);
}

/// The shape of a node's cube, of which the reading of a dimension says that it is valid.
fn shape_of(checked: &Checked, node: u32) -> &Shape
    requires { node < node_count checked.now.nodes }
    ensures value { result.now ≡ shape_of_node checked.now node }
    ensures valid { IsShape result.now }
{
    let shape = checked.shape(node);
    let _count = shape.count(Kind::Time);
    shape
}

/// How many arguments a node works on: none where it loads a collection.
pub fn argument_count(checked: &Checked, node: u32) -> usize
    requires { node < node_count checked.now.nodes }
    ensures none { is_load (links_of checked.now.nodes) node ≡ true → result ≡ 0 }
    ensures all { is_load (links_of checked.now.nodes) node ≡ false
        → result ≡ length (arguments_of_node checked.now node) }
    ensures acyclic { IsAcyclic (links_of checked.now.nodes) }
{
    let links = &checked.links()[node as usize];
    if links.load {
        return 0;
    }
    links.arguments.len()
}

/// The node whose cube a node takes as its argument of a number, counted from 0.
pub fn argument_of(checked: &Checked, node: u32, number: usize) -> u32
    requires node { node < node_count checked.now.nodes }
    requires number { number < length (arguments_of_node checked.now node) }
    ensures value { slice_get (arguments_of_node checked.now node) number ≡ Some result }
    ensures within { result < node_count checked.now.nodes }
{
    checked.links()[node as usize].arguments[number]
}

/// The step of a node that a step takes, which is an earlier one.
fn step_of_argument(checked: &Checked, schedule: &Schedule, step: usize, argument: u32) -> usize
    requires order { IsOrderOf (part_of checked.now schedule.now) schedule.now.order }
    requires step { step < length (steps_to_last checked.now schedule.now) }
    requires works { is_load (links_of checked.now.nodes)
        (slice_index (steps_to_last checked.now schedule.now) step) ≡ false }
    requires has { Contains (arguments_of_node checked.now
        (slice_index (steps_to_last checked.now schedule.now) step)) argument }
    ensures earlier { result < step }
    ensures value { slice_index (steps_to_last checked.now schedule.now) result ≡ argument }
{
    match schedule.step_of(argument) {
        Some(found) => found as usize,
        None => unreachable!(),
    }
}

/// What a window of a node needs of its argument of a number, which is this node.
fn need_of_argument(
    checked: &Checked,
    node: u32,
    number: usize,
    argument: u32,
    window: &Window,
) -> Window
    requires faultless { AreFaultless checked.now }
    requires node { node < node_count checked.now.nodes }
    requires works { is_load (links_of checked.now.nodes) node ≡ false }
    requires number { slice_get (arguments_of_node checked.now node) number ≡ Some argument }
    requires argument { argument < node_count checked.now.nodes }
    requires inside { Holds (whole_window (shape_of_node checked.now node)) window.now }
    ensures { IsNeed (NeedsOfNode checked.now node number) window.now result }
{
    let shape = shape_of(checked, node);
    need(
        checked.operation(node),
        shape,
        shape_of(checked, argument),
        window,
    )
}

/// Widens the window of the argument of a number of a step to hold what the window of the step needs.
fn widen(checked: &Checked, schedule: &Schedule, step: usize, number: usize, windows: &mut [Window])
    requires faultless { AreFaultless checked.now }
    requires order { IsOrderOf (part_of checked.now schedule.now) schedule.now.order }
    requires last { schedule.now.last < node_count checked.now.nodes }
    requires each { length windows.old ≡ length (steps_to_last checked.now schedule.now) }
    requires step { step < length (steps_to_last checked.now schedule.now) }
    requires works { is_load (links_of checked.now.nodes)
        (slice_index (steps_to_last checked.now schedule.now) step) ≡ false }
    requires number { number < length (arguments_of_node checked.now
        (slice_index (steps_to_last checked.now schedule.now) step)) }
    requires inside { Holds (whole_window (shape_of_node checked.now
        (slice_index (steps_to_last checked.now schedule.now) step))) (window_at windows.old step) }
    ensures { IsWidenedBy (part_of checked.now schedule.now) step number windows.old windows.new }
{
    let node = schedule.steps()[step];
    let argument = argument_of(checked, node, number);
    let earlier = step_of_argument(checked, schedule, step, argument);
    let window = windows[step];
    let needed = need_of_argument(checked, node, number, argument, &window);
    windows[earlier] = hull(&windows[earlier], &needed);
}

/// Widens the windows of all arguments of a step.
fn widen_arguments(checked: &Checked, schedule: &Schedule, step: usize, windows: &mut [Window])
    requires faultless { AreFaultless checked.now }
    requires order { IsOrderOf (part_of checked.now schedule.now) schedule.now.order }
    requires last { schedule.now.last < node_count checked.now.nodes }
    requires each { length windows.old ≡ length (steps_to_last checked.now schedule.now) }
    requires step { step < length (steps_to_last checked.now schedule.now) }
    requires inside { Holds (whole_window (shape_of_node checked.now
        (slice_index (steps_to_last checked.now schedule.now) step))) (window_at windows.old step) }
    ensures widened { (chunk : Window)
        → AreWidened (part_of checked.now schedule.now) chunk windows.old (step + 1) 0
        → AreWidened (part_of checked.now schedule.now) chunk windows.new step 0 }
    ensures valid { IsShape (shape_of_node checked.now
        (slice_index (steps_to_last checked.now schedule.now) step)) }
{
    let node = schedule.steps()[step];
    let _shape = shape_of(checked, node);
    for number in 0..argument_count(checked, node) {
        widen(checked, schedule, step, number, windows);
    }
}

/// The step of the last node.
fn step_of_last(checked: &Checked, schedule: &Schedule) -> usize
    requires { IsOrderOf (part_of checked.now schedule.now) schedule.now.order }
    ensures within { result < length (steps_to_last checked.now schedule.now) }
    ensures only { (i : ℕ) → i < length (steps_to_last checked.now schedule.now)
        → slice_index (steps_to_last checked.now schedule.now) i ≡ schedule.now.last → i ≡ result }
    ensures value { slice_index (steps_to_last checked.now schedule.now) result ≡ schedule.now.last }
    ensures faultless { AreFaultless checked.now }
{
    // A checked graph is without a fault, as the number of its nodes says.
    let _count = checked.nodes();
    match schedule.step_of(schedule.last()) {
        Some(found) => found as usize,
        None => unreachable!(),
    }
}

/// The windows of all steps of a schedule of which no cube is given, for a chunk of its last node's cube, one for each
/// step: the chunk itself at the step of the last node, and at each other step the least box that has what the windows
/// of all steps that take its cube need of it. They are those of a run of the graph whose result is the last node.
pub fn windows_of(checked: &Checked, schedule: &Schedule, chunk: &Window, windows: &mut [Window])
    requires order { IsOrderOf (part_of checked.now schedule.now) schedule.now.order }
    requires last { schedule.now.last < node_count checked.now.nodes }
    requires each { length windows.old ≡ length schedule.now.order.steps }
    requires within { Holds (whole_window (shape_of_node checked.now schedule.now.last))
        chunk.now }
    requires some { ¬ IsEmpty chunk.now }
    ensures { (size : ChunkSize)
        → FitsSides (tiling_of (shape_of_node checked.now schedule.now.last) size) chunk.now
        → AreWindows (part_of checked.now schedule.now) size chunk.now windows.new }
{
    clear(windows);
    windows[step_of_last(checked, schedule)] = *chunk;
    let mut left = windows.len();
    while left > 0 {
        left -= 1;
        widen_arguments(checked, schedule, left, windows);
    }
}
