// The slots of the nodes of an order, found from its last step back to its first.
ghost use Rattle.std.specs.Prelude.{◌≡◌, ◌≢◌, ◌<◌, ◌≤◌, ◌^◌, ◌||◌, ◌&&◌, ℕ, true, false, IfOk, IsTrue, OnOk, length, nat_lt, max, count_by, slice_index, slice_index_or, slice_set};
ghost use Rattle.oe_order.specs.Graph.{graph_of, RefersWithin};
ghost use Rattle.oe_order.specs.Order.{contains, IsListing};
ghost use Rattle.oe_order.specs.Live.{width_of, IsSlotted};
ghost use Rattle.oe_order.specs.Pool.{IsPool, is_step_of};

use crate::Links;
use oe_memory::OutOfMemory;
use std::alloc::Global;

/// The slot of each step, how many slots there are, and the step of each node that stands.
#[derive(Drop)]
pub struct Slotting {
    pub slots: Vec<u32>,
    pub width: u32,
    pub by_node: Vec<u32>,
}

/// Which steps hold a slot, the slot of each, and the slots that none holds.
#[derive(Drop)]
struct Pool {
    held: Vec<bool>,
    slots: Vec<u32>,
    free: Vec<u32>,
    count: u32,
}

impl Pool {
    fn new(alloc: Global, steps: usize) -> Result<Pool, OutOfMemory>
        ensures pool { IfOk result (λ p. IsPool p.held.items p.slots.items p.free.items p.count) }
        ensures none { IfOk result (λ p. (i : ℕ) → slice_index_or p.held.items i false ≡ false) }
        ensures len { IfOk result (λ p. length p.held.items ≡ steps) }
        ensures count { IfOk result (λ p. p.count ≡ 0) }
    {
        Ok(Pool {
            held: vec![in alloc; false; steps]?,
            slots: vec![in alloc; 0; steps]?,
            free: Vec::with_capacity(alloc, steps)?,
            count: 0,
        })
    }

    /// Gives the step a slot, a free one where there is one, unless it holds one.
    fn hold(&mut self, step: usize)
        requires pool { IsPool self.old.held.items self.old.slots.items self.old.free.items
            self.old.count }
        requires step { step < length self.old.held.items }
        requires few { length self.old.held.items < 2 ^ 32 }
        ensures pool { IsPool self.new.held.items self.new.slots.items self.new.free.items
            self.new.count }
        ensures held { self.new.held.items ≡ slice_set self.old.held.items step true }
        ensures kept { (i : ℕ) → slice_index_or self.old.held.items i false ≡ true →
            slice_index self.new.slots.items i ≡ slice_index self.old.slots.items i }
        ensures others { (i : ℕ) → i ≢ step →
            slice_index self.new.slots.items i ≡ slice_index self.old.slots.items i }
        ensures count { self.new.count
            ≡ max self.old.count (count_by (λ b. b) self.new.held.items) }
    {
        if self.held[step] {
            return;
        }
        self.held[step] = true;
        match self.free.pop() {
            Some(slot) => self.slots[step] = slot,
            None => {
                self.slots[step] = self.count;
                self.count += 1;
            }
        }
    }

    /// Gives a slot to each step before this one whose node is an argument.
    fn hold_arguments(&mut self, arguments: &[u32], by_node: &[u32], step: usize)
        requires pool { IsPool self.old.held.items self.old.slots.items self.old.free.items
            self.old.count }
        requires step { step < length self.old.held.items }
        requires few { length self.old.held.items < 2 ^ 32 }
        requires within { (n : ℕ) → IsTrue (contains arguments.now n) → n < length by_node.now }
        ensures pool { IsPool self.new.held.items self.new.slots.items self.new.free.items
            self.new.count }
        ensures len { length self.new.held.items ≡ length self.old.held.items }
        ensures held { (i : ℕ) → slice_index_or self.new.held.items i false
            ≡ slice_index_or self.old.held.items i false
            || (nat_lt i step && is_step_of arguments.now by_node.now i) }
        ensures kept { (i : ℕ) → slice_index_or self.old.held.items i false ≡ true →
            slice_index self.new.slots.items i ≡ slice_index self.old.slots.items i }
        ensures later { (i : ℕ) → step ≤ i →
            slice_index self.new.slots.items i ≡ slice_index self.old.slots.items i }
        ensures count { self.new.count
            ≡ max self.old.count (count_by (λ b. b) self.new.held.items) }
    {
        for argument in arguments {
            let earlier = by_node[*argument as usize] as usize;
            if earlier < step {
                self.hold(earlier);
            }
        }
    }

    /// Takes back the slot of a step that holds one.
    fn give_up(&mut self, step: usize) -> Result<(), OutOfMemory>
        requires pool { IsPool self.old.held.items self.old.slots.items self.old.free.items
            self.old.count }
        requires held { slice_index_or self.old.held.items step false ≡ true }
        ensures pool { OnOk result
            (IsPool self.new.held.items self.new.slots.items self.new.free.items self.new.count) }
        ensures held { OnOk result
            (self.new.held.items ≡ slice_set self.old.held.items step false) }
        ensures slots { OnOk result (self.new.slots.items ≡ self.old.slots.items) }
        ensures count { OnOk result (self.new.count ≡ self.old.count) }
    {
        self.held[step] = false;
        self.free.push(self.slots[step])?;
        Ok(())
    }
}

/// The step of each node that stands, for so many nodes.
pub fn steps_by_node(alloc: Global, nodes: usize, steps: &[u32]) -> Result<Vec<u32>, OutOfMemory>
    requires few { length steps.now < 2 ^ 32 }
    requires within { (n : ℕ) → IsTrue (contains steps.now n) → n < nodes }
    requires once { (i j : ℕ) → i < j → j < length steps.now →
        slice_index steps.now i ≢ slice_index steps.now j }
    ensures len { IfOk result (λ by_node. length by_node.items ≡ nodes) }
    ensures by_node { IfOk result
        (λ by_node. (i : ℕ) → i < length steps.now →
        slice_index by_node.items (slice_index steps.now i) ≡ i) }
{
    let mut by_node = vec![in alloc; 0; nodes]?;
    for (step, node) in steps.iter().enumerate() {
        by_node[*node as usize] = step as u32;
    }
    Ok(by_node)
}

/// From the last step back to the first, a node takes a slot where it is first met, at its last consumer, and gives it
/// up once its own step is done.
pub fn assign(
    alloc: Global,
    nodes: &[Links],
    last: u32,
    steps: &[u32],
) -> Result<Slotting, OutOfMemory>
    requires few { length steps.now < 2 ^ 32 }
    requires last_named { last < length nodes.now }
    requires named { RefersWithin (graph_of nodes.now) }
    requires listing { IsListing (graph_of nodes.now) last steps.now }
    ensures width { IfOk result (λ s. s.width ≡ width_of (graph_of nodes.now) last steps.now) }
    ensures slots { IfOk result (λ s. IsSlotted (graph_of nodes.now) last
        (record { steps = steps.now; slots = s.slots.items; width = s.width })) }
    ensures len { IfOk result (λ s. length s.by_node.items ≡ length nodes.now) }
    ensures by_node { IfOk result
        (λ s. (i : ℕ) → i < length steps.now →
        slice_index s.by_node.items (slice_index steps.now i) ≡ i) }
{
    let by_node = steps_by_node(alloc, nodes.len(), steps)?;
    let mut pool = Pool::new(alloc, steps.len())?;
    pool.hold(by_node[last as usize] as usize);
    for later in 0..steps.len() {
        let step = steps.len() - 1 - later;
        let node = &nodes[steps[step] as usize];
        pool.hold(step);
        pool.hold_arguments(node.arguments.as_slice(), by_node.as_slice(), step);
        pool.give_up(step)?;
    }
    let Pool {
        held: _,
        slots,
        free: _,
        count,
    } = pool;
    Ok(Slotting {
        slots,
        width: count,
        by_node,
    })
}
