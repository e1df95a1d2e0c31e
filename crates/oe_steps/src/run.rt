// The steps of a schedule, one by one, over windows and buffers.
ghost use Rattle.std.specs.Prelude.{◌≡◌, ◌<◌, ◌≤◌, ℕ, false, true, length};
ghost use Rattle.oe_graph.specs.Printed.{node_count};
ghost use Rattle.oe_order.specs.Graph.{is_load};
ghost use Rattle.oe_check.specs.Links.{links_of};
ghost use Rattle.oe_plan.specs.Figures.{scratch_of};
ghost use Rattle.oe_plan.specs.Schedules.{AreWindowsFor, IsSchedule, is_load_at, links_along, node_at};
ghost use Rattle.oe_steps.specs.Inputs.{EvaluatesLast};
ghost use Rattle.oe_steps.specs.Steps.{AreOfKind, EachLoad, HaveRoomFor, OfLast};
ghost use Rattle.oe_steps.specs.Buffers.{lists_of};

use crate::step::evaluate_step;
use oe_cell::Cell;
use oe_check::Checked;
use oe_plan::Schedule;
use oe_window::Window;

/// The step of the last node.
pub fn step_of_last(checked: &Checked, schedule: &Schedule) -> u32
    requires { IsSchedule checked.now schedule.now }
    ensures within { result < length schedule.now.order.steps }
    ensures is { node_at schedule.now result ≡ schedule.now.last }
{
    match schedule.step_of(schedule.last()) {
        Some(step) => step,
        None => unreachable!(),
    }
}

/// Whether a node loads a collection.
fn loads_collection(checked: &Checked, node: u32) -> bool
    requires { node < node_count checked.now.nodes }
    ensures { result ≡ is_load (links_of checked.now.nodes) node }
{
    checked.links()[node as usize].load
}

/// Whether the cube of a node is loaded or given.
fn counts_as_load(checked: &Checked, schedule: &Schedule, node: u32) -> bool
    requires { node < node_count checked.now.nodes }
    ensures { result ≡ is_load (links_along checked.now schedule.now) node }
{
    match schedule.given() {
        Some(given) => given == node || loads_collection(checked, node),
        None => loads_collection(checked, node),
    }
}

/// How many steps have a cube that is loaded or given: they are the first ones.
pub fn loads(checked: &Checked, schedule: &Schedule) -> u32
    requires { IsSchedule checked.now schedule.now }
    ensures most { result ≤ length schedule.now.order.steps }
    ensures load { (step : ℕ) → step < result → is_load_at checked.now schedule.now step ≡ true }
    ensures work { (step : ℕ) → result ≤ step → step < length schedule.now.order.steps
        → is_load_at checked.now schedule.now step ≡ false }
{
    let mut count = 0;
    for node in schedule.steps() {
        if counts_as_load(checked, schedule, *node) {
            count += 1;
        } else {
            return count;
        }
    }
    count
}

/// Evaluates each step whose cube is neither loaded nor given, in order. Where the buffers have the cells of those that
/// are, they have those of the last node after it.
pub fn evaluate_steps(
    checked: &Checked,
    schedule: &Schedule,
    windows: &[Window],
    buffers: &mut [Vec<Cell>],
    scratch: &mut [Cell],
)
    requires schedule { IsSchedule checked.now schedule.now }
    requires windows { AreWindowsFor checked.now schedule.now windows.now }
    requires room { HaveRoomFor schedule.now (lists_of buffers.old) }
    requires scratch { length scratch.old ≡ scratch_of checked.now }
    requires kinds { EachLoad checked.now schedule.now
        (AreOfKind checked.now schedule.now windows.now (lists_of buffers.old)) }
    ensures room { HaveRoomFor schedule.now (lists_of buffers.new) }
    ensures kinds { OfLast schedule.now
        (AreOfKind checked.now schedule.now windows.now (lists_of buffers.new)) }
    ensures value { EvaluatesLast checked.now schedule.now windows.now (lists_of buffers.old)
        (lists_of buffers.new) }
{
    let count = schedule.steps().len() as u32;
    for step in loads(checked, schedule)..count {
        evaluate_step(checked, schedule, step, windows, buffers, scratch);
    }
}
