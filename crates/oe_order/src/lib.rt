//! The order in which a run works off the nodes of a process graph, and the slots that their results take.
//!
//! `order` reads the references of the nodes and gives a `NodeOrder`: the nodes that the result needs, the load nodes
//! first and every other behind its arguments, and for each a slot that no other node has while it is live. The number
//! of slots is the largest number of nodes that are live at one step, so the layer above keeps so many results and no
//! more. The contract of `order` says which list it is, that it lists the run, what an evaluation step by step rests
//! on, and that live nodes are apart; [`order_by`] lets a caller say which of the nodes that are ready comes next.
//! [`sort`] lists all nodes of a graph, each behind those that it refers to; [`is_acyclic`], [`is_ranked`] and
//! [`leads_back`] tell a caller whether references lead back to a node, and [`mark_new`] is the step of a search along
//! them.
#![tactic(auto)]

mod listing;
mod pool;
mod ranks;
mod run;
mod turns;

ghost use Rattle.std.specs.Prelude.{◌≡◌, ◌<◌, ◌^◌, ◌↔◌, ℕ, Some, Contains, IfOk, IfSome, IsNone, length, slice_index};
ghost use Rattle.oe_order.specs.Graph.{graph_of, RefersWithin, IsAcyclic};
ghost use Rattle.oe_order.specs.Order.{order_of, IsListing};
ghost use Rattle.oe_order.specs.Live.{width_of, IsSlotted};
ghost use Rattle.oe_order.specs.Evaluation.{IsEvaluationOrder, LoadsFirst};
ghost use Rattle.oe_order.specs.Turns.{AreTurns, order_by_turns};

pub use listing::{is_acyclic, sort};
use oe_memory::OutOfMemory;
pub use ranks::is_ranked;
pub use run::{leads_back, mark_new};
use std::alloc::Global;
use std::marker::Model;

/// What one node of a graph refers to. Nodes are named by their index in the byte order of their names.
pub struct Links {
    /// Whether the node loads a cube. Such a node stands before every other, whatever it refers to.
    pub load: bool,
    /// The nodes whose results it takes. A node that is taken twice is named twice.
    pub arguments: Vec<u32>,
}

/// Written out, so that such a value ends by one call wherever it does.
impl Drop for Links {
    fn drop(self) {
        let Links {
            load: _,
            arguments: _,
        } = self;
    }
}

/// The nodes of a run in the order in which they are worked off, with a slot for the result of each.
pub struct NodeOrder {
    steps: Vec<u32>,
    slots: Vec<u32>,
    width: u32,
    // The step of each node of the run, by the node; of any other node, any number.
    by_node: Vec<u32>,
}

impl Model for NodeOrder {
    ghost use Rattle.oe_order.specs.Evaluation.{IsKeptOrder};
    ghost use Rattle.oe_order.specs.Live.{Steps};

    ghost Value = { Steps };

    ghost view = { λ o. record { steps = o.steps.items; slots = o.slots.items; width = o.width } };

    ghost invariant = { λ o. IsKeptOrder o.steps.items o.slots.items o.by_node.items o.width };
}

/// Written out, so that an order that ends is one call wherever it does.
impl Drop for NodeOrder {
    fn drop(self) {
        let NodeOrder {
            steps: _,
            slots: _,
            width: _,
            by_node: _,
        } = self;
    }
}

impl NodeOrder {
    /// The node of each step.
    pub fn steps(&self) -> &[u32]
        ensures { result.now ≡ self.now.steps }
    {
        self.steps.as_slice()
    }

    /// The step of a node, which is the only one that it stands at. None exactly where it is not in the run.
    pub fn step_of(&self, node: u32) -> Option<u32>
        ensures within { IfSome result (λ step. step < length self.now.steps) }
        ensures found { IfSome result (λ step. slice_index self.now.steps step ≡ node) }
        ensures only { (i : ℕ) → i < length self.now.steps → slice_index self.now.steps i ≡ node
            → result ≡ Some i }
        ensures none { IsNone result ↔ (Contains self.now.steps node → ⊥) }
    {
        if node as usize >= self.by_node.len() {
            return None;
        }
        let step = self.by_node[node as usize];
        if step as usize >= self.steps.len() || self.steps[step as usize] != node {
            return None;
        }
        Some(step)
    }

    /// How many slots the nodes of the run take in all.
    pub fn slots(&self) -> u32
        ensures { result ≡ self.now.width }
    {
        self.width
    }

    /// The slot of the node of a step, below `slots`.
    pub fn slot(&self, step: u32) -> u32
        requires { step < length self.now.steps }
        ensures is { result ≡ slice_index self.now.slots step }
        ensures below { result < self.now.width }
    {
        self.slots[step as usize]
    }

    /// The largest number of nodes that are live at one step.
    pub fn width(&self) -> u32
        ensures { result ≡ self.now.width }
    {
        self.width
    }
}

/// The order of the nodes that `last` needs, and their slots. Memory is taken before the work.
///
/// Refuses: where an allocation was refused, and nowhere else.
pub fn order(alloc: Global, nodes: &[Links], last: u32) -> Result<NodeOrder, OutOfMemory>
    requires few { length nodes.now < 2 ^ 32 }
    requires last_named { last < length nodes.now }
    requires named { RefersWithin (graph_of nodes.now) }
    requires acyclic { IsAcyclic (graph_of nodes.now) }
    // Which order it is, and that it is one to evaluate by.
    ensures steps { IfOk result (λ o. o.steps ≡ order_of (graph_of nodes.now) last) }
    ensures listing { IfOk result (λ o. IsListing (graph_of nodes.now) last o.steps) }
    ensures evaluation { IfOk result (λ o. IsEvaluationOrder (graph_of nodes.now) last o.steps) }
    // The slots.
    ensures width { IfOk result (λ o. o.width ≡ width_of (graph_of nodes.now) last o.steps) }
    ensures slots { IfOk result (λ o. IsSlotted (graph_of nodes.now) last o) }
{
    let steps = listing::steps_of(alloc, nodes, last)?;
    with_slots(alloc, nodes, last, steps)
}

/// The same by turns: of the nodes that are ready the one comes next that stands first in `turns`, a list of all nodes.
///
/// Refuses: where an allocation was refused, and nowhere else.
pub fn order_by(
    alloc: Global,
    nodes: &[Links],
    last: u32,
    turns: &[u32],
) -> Result<NodeOrder, OutOfMemory>
    requires few { length nodes.now < 2 ^ 32 }
    requires last_named { last < length nodes.now }
    requires named { RefersWithin (graph_of nodes.now) }
    requires acyclic { IsAcyclic (graph_of nodes.now) }
    requires turns { AreTurns (length nodes.now) turns.now }
    ensures steps { IfOk result
        (λ o. o.steps ≡ order_by_turns (graph_of nodes.now) turns.now last) }
    ensures listing { IfOk result (λ o. IsListing (graph_of nodes.now) last o.steps) }
    ensures evaluation { IfOk result (λ o. IsEvaluationOrder (graph_of nodes.now) last o.steps) }
    ensures width { IfOk result (λ o. o.width ≡ width_of (graph_of nodes.now) last o.steps) }
    ensures slots { IfOk result (λ o. IsSlotted (graph_of nodes.now) last o) }
{
    let steps = turns::steps_by_turns(alloc, nodes, last, turns)?;
    with_slots(alloc, nodes, last, steps)
}

/// These steps with a slot for each, and the step of each node.
fn with_slots(
    alloc: Global,
    nodes: &[Links],
    last: u32,
    steps: Vec<u32>,
) -> Result<NodeOrder, OutOfMemory>
    requires few { length steps.items < 2 ^ 32 }
    requires last_named { last < length nodes.now }
    requires named { RefersWithin (graph_of nodes.now) }
    requires loads_first { LoadsFirst (graph_of nodes.now) steps.items }
    requires listing { IsListing (graph_of nodes.now) last steps.items }
    ensures steps { IfOk result (λ o. o.steps ≡ steps.items) }
    ensures listing { IfOk result (λ o. IsListing (graph_of nodes.now) last o.steps) }
    ensures evaluation { IfOk result (λ o. IsEvaluationOrder (graph_of nodes.now) last o.steps) }
    ensures width { IfOk result (λ o. o.width ≡ width_of (graph_of nodes.now) last o.steps) }
    ensures slots { IfOk result (λ o. IsSlotted (graph_of nodes.now) last o) }
{
    let slotting = pool::assign(alloc, nodes, last, steps.as_slice())?;
    let pool::Slotting {
        slots,
        width,
        by_node,
    } = slotting;
    Ok(NodeOrder {
        steps,
        slots,
        width,
        by_node,
    })
}
