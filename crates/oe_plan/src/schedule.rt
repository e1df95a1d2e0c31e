// A schedule: an order to evaluate nodes by, with a slot for the cells of each.
ghost use Rattle.std.specs.Prelude.{◌≡◌, ◌<◌, ◌≤◌, ◌↔◌, ℕ, Some, Contains, IfSome, IsNone, length, slice_index};

use oe_order::NodeOrder;
use std::marker::Model;

/// The nodes that a last node needs, in an order to evaluate them by, with a slot for the cells of each. The cube of
/// one node may be given: it counts as one that loads, and what it takes is not needed for it.
pub struct Schedule {
    order: NodeOrder,
    /// How many slots there are, no fewer than the order needs.
    width: u32,
    last: u32,
    given: Option<u32>,
    largest: u64,
}

impl Model for Schedule {
    ghost use Rattle.oe_plan.specs.Schedules.{ScheduleOf};
    ghost use Rattle.std.specs.Prelude.{◌≤◌};

    ghost Value = { ScheduleOf };

    ghost view = { λ s. record {
      last = s.last;
      given = s.given;
      order = record s.order { width = s.width };
      largest = s.largest;
    } };

    ghost invariant = { λ s. s.order.width ≤ s.width };
}

/// Written out, so that a schedule that ends is one call wherever it does.
impl Drop for Schedule {
    fn drop(self) {
        let Schedule {
            order: _,
            width: _,
            last: _,
            given: _,
            largest: _,
        } = self;
    }
}

impl Schedule {
    /// The schedule of an order up to a last node, where the cube of a node may be given, with slots of so many cells.
    pub fn new(order: NodeOrder, last: u32, given: Option<u32>, largest: u64) -> Schedule
        ensures { result ≡ record { last = last; given = given; order = order; largest = largest } }
    {
        let width = order.width();
        Schedule::with_width(order, width, last, given, largest)
    }

    /// The same with so many slots, no fewer than the order needs.
    pub(crate) fn with_width(
        order: NodeOrder,
        width: u32,
        last: u32,
        given: Option<u32>,
        largest: u64,
    ) -> Schedule
        requires { order.width ≤ width }
        ensures { result ≡ record {
          last = last;
          given = given;
          order = record order { width = width };
          largest = largest;
        } }
    {
        Schedule {
            order,
            width,
            last,
            given,
            largest,
        }
    }

    /// The last node.
    pub fn last(&self) -> u32
        ensures { result ≡ self.now.last }
    {
        self.last
    }

    /// The node whose cube is given.
    pub fn given(&self) -> Option<u32>
        ensures { result ≡ self.now.given }
    {
        self.given
    }

    /// The node of each step.
    pub fn steps(&self) -> &[u32]
        ensures { result.now ≡ self.now.order.steps }
    {
        self.order.steps()
    }

    /// The node of a step.
    pub fn node(&self, step: u32) -> u32
        requires { step < length self.now.order.steps }
        ensures { result ≡ slice_index self.now.order.steps step }
    {
        self.order.steps()[step as usize]
    }

    /// The step of a node, which is the only one that it stands at. None exactly where it is not in the schedule.
    pub fn step_of(&self, node: u32) -> Option<u32>
        ensures within { IfSome result (λ step. step < length self.now.order.steps) }
        ensures found { IfSome result (λ step. slice_index self.now.order.steps step ≡ node) }
        ensures only { (i : ℕ) → i < length self.now.order.steps
            → slice_index self.now.order.steps i ≡ node → result ≡ Some i }
        ensures none { IsNone result ↔ (Contains self.now.order.steps node → ⊥) }
    {
        self.order.step_of(node)
    }

    /// The slot in which the cells of a step are kept, below `width`.
    pub fn slot(&self, step: u32) -> u32
        requires { step < length self.now.order.steps }
        ensures value { result ≡ slice_index self.now.order.slots step }
        ensures below { result < self.now.order.width }
    {
        self.order.slot(step)
    }

    /// How many slots there are.
    pub fn width(&self) -> u32
        ensures { result ≡ self.now.order.width }
    {
        self.width
    }

    /// How many cells a slot has.
    pub fn largest(&self) -> u64
        ensures { result ≡ self.now.largest }
    {
        self.largest
    }

    /// The order.
    pub(crate) fn order(&self) -> &NodeOrder
        ensures { result.now.steps ≡ self.now.order.steps }
    {
        &self.order
    }
}
