// How many windows a run keeps at once for a chunk.
ghost use Rattle.std.specs.Prelude.{◌≡◌, ◌<◌, ◌≤◌, ℕ, length, slice_index};
ghost use Rattle.oe_order.specs.Graph.{graph_of};
ghost use Rattle.oe_order.specs.Live as live;
ghost use Rattle.oe_order.specs.Order.{IsListing, contains};
ghost use Rattle.oe_check.specs.Links.{links_of};
ghost use Rattle.oe_plan.specs.Figures as spec;
ghost use Rattle.oe_plan.specs.Ranges.{AreStepsOf};

use crate::turns::takes_sums;
use oe_check::Checked;
use oe_order::Links;

/// Whether a node of these links takes the node.
fn takes(links: &Links, node: u32) -> bool
    ensures { result ≡ contains links.now.arguments.items node }
{
    let arguments = links.arguments.as_slice();
    for argument in arguments {
        if *argument == node {
            return true;
        }
    }
    false
}

/// Whether the node of a step, from this one on, takes the node.
fn is_taken_from(links: &[Links], steps: &[u32], step: usize, node: u32) -> bool
    requires { (i : ℕ) → i < length steps.now → slice_index steps.now i < length links.now }
    ensures { result ≡ live.taken_from (graph_of links.now) steps.now step node }
{
    for later in step..steps.len() {
        if takes(&links[steps[later] as usize], node) {
            return true;
        }
    }
    false
}

/// Whether the node that stands at `at` is live at a step.
fn is_live(links: &[Links], last: u32, steps: &[u32], step: usize, at: usize) -> bool
    requires within { (i : ℕ) → i < length steps.now → slice_index steps.now i < length links.now }
    requires at { at < length steps.now }
    ensures { result ≡ live.is_live (graph_of links.now) last steps.now step at }
{
    if at >= step {
        return at == step;
    }
    steps[at] == last || is_taken_from(links, steps, step, steps[at])
}

/// How many nodes are live at a step.
fn live_count(links: &[Links], last: u32, steps: &[u32], step: usize) -> u64
    requires { (i : ℕ) → i < length steps.now → slice_index steps.now i < length links.now }
    ensures value { result ≡ live.live_count (graph_of links.now) last steps.now step }
    ensures most { result ≤ length steps.now }
{
    let mut count: u64 = 0;
    for at in 0..steps.len() {
        if is_live(links, last, steps, step, at) {
            count += 1;
        }
    }
    count
}

/// The same in a run of these steps.
fn live_in_run(checked: &Checked, steps: &[u32], step: usize) -> u64
    requires { AreStepsOf checked.now steps.now }
    ensures value { result ≡ live.live_count (links_of checked.now.nodes) checked.now.result
        (spec.steps_of checked.now) step }
    ensures most { result ≤ length steps.now }
{
    live_count(checked.links(), checked.result(), steps, step)
}

/// How many windows a run of these steps keeps at once for a chunk, where so many nodes are live at one step at most: at a
/// step of running sums one more than are live there, since the sums count as a node of their own.
pub(crate) fn width_of(checked: &Checked, steps: &[u32], most_live: u32) -> u64
    requires steps { AreStepsOf checked.now steps.now }
    requires listing { IsListing (links_of checked.now.nodes) checked.now.result steps.now }
    requires width { most_live
        ≡ live.width_of (links_of checked.now.nodes) checked.now.result steps.now }
    ensures value { result ≡ spec.width_of_run checked.now }
    ensures least { most_live ≤ result }
    ensures most { result ≤ 4294967296 }
{
    // There are fewer than 2^32 nodes, since their number is a u32.
    let _count = checked.nodes();
    let mut width = u64::from(most_live);
    for (step, node) in steps.iter().enumerate() {
        if takes_sums(checked, *node) {
            width = width.max(live_in_run(checked, steps, step) + 1);
        }
    }
    width
}
