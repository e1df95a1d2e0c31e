// The time cut of a run: the one node that needs all dates, where it reduces them date by date.
ghost use Rattle.std.specs.Prelude.{◌≡◌, ◌<◌, ◌↔◌, ℕ, true, false, IfNone, IfOk, IfSome, IsTrue, length, slice_index};
ghost use Rattle.oe_dims.specs.declared.kind.Kind.TheVariants.{Time};
ghost use Rattle.oe_graph.specs.Printed.{node_count};
ghost use Rattle.oe_order.specs.Order.{IsListing};
ghost use Rattle.oe_check.specs.Links.{links_of};
ghost use Rattle.oe_check.specs.Reach.{whole_of_node};
ghost use Rattle.oe_plan.specs.Figures.{steps_of};
ghost use Rattle.oe_plan.specs.Ranges.{AreStepsOf};
ghost use Rattle.oe_slab.specs.Cuts.{HasNoTimeCut, IsLoneFold, IsTimeCut};
ghost use Rattle.oe_slab.specs.Figures.{taken_by, width_before, width_behind};
ghost use Rattle.oe_slab.specs.Schedules.{IsOrderAlong};

use crate::parts::{loads_nothing, order_behind};
use oe_check::Checked;
use oe_dims::Kind;
use oe_memory::OutOfMemory;
use oe_order::NodeOrder;
use oe_plan::{argument_of, order_to};
use std::alloc::Global;

/// A time cut, and how many windows are kept at once before it and behind it.
#[derive(Clone, Copy)]
pub(crate) struct TimeCut {
    pub fold: u32,
    pub width_before: u32,
    pub width_behind: u32,
}

/// The time cut of a run of these steps, `None` exactly where it has none.
///
/// Refuses: where an allocation was refused, and nowhere else.
pub(crate) fn time_cut(
    alloc: Global,
    checked: &Checked,
    steps: &[u32],
) -> Result<Option<TimeCut>, OutOfMemory>
    requires steps { AreStepsOf checked.now steps.now }
    requires listing { IsListing (links_of checked.now.nodes) checked.now.result steps.now }
    ensures some { IfOk result (λ found. IfSome found (λ cut. IsTimeCut checked.now cut.fold)) }
    ensures before { IfOk result (λ found. IfSome found
        (λ cut. cut.width_before ≡ width_before checked.now cut.fold)) }
    ensures behind { IfOk result (λ found. IfSome found
        (λ cut. cut.width_behind ≡ width_behind checked.now cut.fold)) }
    ensures none { IfOk result (λ found. IfNone found (HasNoTimeCut checked.now)) }
{
    match lone_fold(checked, steps) {
        Some(fold) => cut_at(alloc, checked, fold),
        None => Ok(None),
    }
}

/// The node of a run of these steps that alone needs all dates, where it reduces them date by date.
fn lone_fold(checked: &Checked, steps: &[u32]) -> Option<u32>
    requires steps { AreStepsOf checked.now steps.now }
    requires listing { IsListing (links_of checked.now.nodes) checked.now.result steps.now }
    ensures some { IfSome result (IsLoneFold checked.now) }
    ensures none { IfNone result (HasNoTimeCut checked.now) }
{
    match first_whole(checked, steps) {
        Some(node) => {
            if folds_alone(checked, steps, node) {
                Some(node)
            } else {
                None
            }
        }
        None => None,
    }
}

/// The node, which is one of these steps and needs all dates, reduces them date by date, and no other needs them all.
fn folds_alone(checked: &Checked, steps: &[u32], node: u32) -> bool
    requires steps { AreStepsOf checked.now steps.now }
    requires listing { IsListing (links_of checked.now.nodes) checked.now.result steps.now }
    requires one { (i : ℕ) × (i < length steps.now) × (slice_index steps.now i ≡ node) }
    requires whole { whole_of_node checked.now node Time ≡ Some true }
    ensures lone { result ≡ true → IsLoneFold checked.now node }
    ensures none { result ≡ false → HasNoTimeCut checked.now }
{
    match checked.time_fold(node) {
        Some(_) => is_alone(checked, steps, node),
        None => false,
    }
}

/// The first of these nodes that needs all dates.
fn first_whole(checked: &Checked, steps: &[u32]) -> Option<u32>
    requires { (i : ℕ) → i < length steps.now
        → slice_index steps.now i < node_count checked.now.nodes }
    ensures one { IfSome result (λ node. (i : ℕ) × (i < length steps.now)
        × (slice_index steps.now i ≡ node)) }
    ensures whole { IfSome result (λ node. whole_of_node checked.now node Time ≡ Some true) }
    ensures none { IfNone result ((i : ℕ) → i < length steps.now
        → whole_of_node checked.now (slice_index steps.now i) Time ≡ Some false) }
{
    for node in steps {
        if checked.whole(*node, Kind::Time) {
            return Some(*node);
        }
    }
    None
}

/// None of these nodes but this one needs all dates.
fn is_alone(checked: &Checked, steps: &[u32], node: u32) -> bool
    requires { (i : ℕ) → i < length steps.now
        → slice_index steps.now i < node_count checked.now.nodes }
    ensures { IsTrue result ↔ ((i : ℕ) → i < length steps.now
        → whole_of_node checked.now (slice_index steps.now i) Time ≡ Some true
        → slice_index steps.now i ≡ node) }
{
    for other in steps {
        if !is_same_or_cut(checked, *other, node) {
            return false;
        }
    }
    true
}

/// The node is this one, or needs no more dates than its result has.
fn is_same_or_cut(checked: &Checked, other: u32, node: u32) -> bool
    requires { other < node_count checked.now.nodes }
    ensures { IsTrue result ↔ (whole_of_node checked.now other Time ≡ Some true → other ≡ node) }
{
    other == node || !checked.whole(other, Kind::Time)
}

/// The cut at a node, where no cube goes round it.
fn cut_at(alloc: Global, checked: &Checked, fold: u32) -> Result<Option<TimeCut>, OutOfMemory>
    requires lone { IsLoneFold checked.now fold }
    ensures some { IfOk result (λ found. IfSome found (λ cut. IsTimeCut checked.now cut.fold)) }
    ensures before { IfOk result (λ found. IfSome found
        (λ cut. cut.width_before ≡ width_before checked.now cut.fold)) }
    ensures behind { IfOk result (λ found. IfSome found
        (λ cut. cut.width_behind ≡ width_behind checked.now cut.fold)) }
    ensures none { IfOk result (λ found. IfNone found (HasNoTimeCut checked.now)) }
{
    match width_of_behind(alloc, checked, fold)? {
        Some(width_behind) => {
            let before = order_before(alloc, checked, fold)?;
            Ok(Some(TimeCut {
                fold,
                width_before: before.width(),
                width_behind,
            }))
        }
        None => Ok(None),
    }
}

/// How many windows of the part behind a node are kept at once, `None` where it loads something.
fn width_of_behind(alloc: Global, checked: &Checked, fold: u32) -> Result<Option<u32>, OutOfMemory>
    requires lone { IsLoneFold checked.now fold }
    ensures cut { IfOk result (λ found. IfSome found (λ width. IsTimeCut checked.now fold)) }
    ensures width { IfOk result (λ found. IfSome found
        (λ width. width ≡ width_behind checked.now fold)) }
    ensures none { IfOk result (λ found. IfNone found (HasNoTimeCut checked.now)) }
{
    // There are fewer than 2^32 nodes, since their number is a u32.
    let _count = checked.nodes();
    let links = checked.links();
    let behind = order_behind(alloc, links, fold, checked.result())?;
    if !loads_nothing(links, behind.steps()) {
        return Ok(None);
    }
    Ok(Some(behind.width()))
}

/// The order of the run of the cube that a reduction takes.
pub(crate) fn order_before(
    alloc: Global,
    checked: &Checked,
    fold: u32,
) -> Result<NodeOrder, OutOfMemory>
    requires { IsLoneFold checked.now fold }
    ensures steps { IfOk result
        (λ o. o.steps ≡ steps_of (record checked.now { result = taken_by checked.now fold })) }
    ensures along { IfOk result
        (IsOrderAlong (links_of checked.now.nodes) (taken_by checked.now fold)) }
    ensures width { IfOk result (λ o. o.width ≡ width_before checked.now fold) }
{
    // A checked graph is without a fault, as the number of its nodes says.
    let _count = checked.nodes();
    let taken = argument_of(checked, fold, 0);
    order_to(alloc, checked, taken)
}
