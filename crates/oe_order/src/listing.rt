// The order of a run's nodes: a heap of the nodes that are ready, and for each other node a chain to wait in.
ghost use Rattle.std.specs.Prelude.{◌≡◌, ◌<◌, ◌≤◌, ◌^◌, ◌↔◌, ◌∷◌, ◌++◌, [], ℕ, Some, None, true, false, Contains, IfOk, IsTrue, OnOk, length, slice_index, slice_index_or, slice_set, slice_get, filter};
ghost use Rattle.oe_order.specs.Graph.{graph_of, is_load, RefersWithin, IsAcyclic};
ghost use Rattle.oe_order.specs.Order.{contains, order_of, next_of, IsListing};
ghost use Rattle.oe_order.specs.Queue.{ComesNext, IsBetweenSteps, IsNewQueue, IsQueueOf, IsReleasing, KeepsOneMore, KeepsOtherChains, order_behind, run_in};
ghost use Rattle.oe_order.specs.Sorted.{AreNoLoads, AreAllSorted};
ghost use Rattle.oe_order.specs.Waiting.{IsPartial};

use crate::{Links, run};
use oe_memory::OutOfMemory;
use std::alloc::Global;
use std::cmp::Reverse;
use std::collections::BinaryHeap;

/// The steps so far, and the nodes that are to come.
#[derive(Drop)]
struct Queue {
    members: Vec<bool>,
    steps: Vec<u32>,
    standing: Vec<bool>,
    /// The first node that waits for a node, and the one that waits for the same node behind it.
    first: Vec<Option<u32>>,
    next: Vec<Option<u32>>,
    /// How many arguments of a node, from the front, are known to stand.
    passed: Vec<usize>,
    ready: BinaryHeap<Reverse<u32>>,
}

impl Queue {
    /// Takes all memory that the work needs.
    fn new(alloc: Global, members: Vec<bool>) -> Result<Queue, OutOfMemory>
        ensures members { IfOk result (λ q. q.members.items ≡ members.items) }
        ensures none { IfOk result (λ q. q.steps.items ≡ []) }
        ensures queue { IfOk result IsNewQueue }
    {
        let count = members.len();
        Ok(Queue {
            members,
            steps: Vec::with_capacity(alloc, count)?,
            standing: vec![in alloc; false; count]?,
            first: vec![in alloc; None; count]?,
            next: vec![in alloc; None; count]?,
            passed: vec![in alloc; 0; count]?,
            ready: BinaryHeap::with_capacity(alloc, count)?,
        })
    }

    /// The node waits for the argument that it lacks, ahead of the others that do, or is ready if it lacks none.
    fn park(&mut self, node: u32, named: &[u32]) -> Result<(), OutOfMemory>
        requires passes { node < length self.old.passed.items }
        requires nexts { node < length self.old.next.items }
        requires within { (n : ℕ) → IsTrue (contains named.now n) →
            n < length self.old.first.items }
        ensures kept { OnOk result (KeepsOneMore self.old self.new node named.now) }
        ensures others { OnOk result (KeepsOtherChains self.old self.new node named.now) }
        ensures members { OnOk result (self.new.members.items ≡ self.old.members.items) }
        ensures steps { OnOk result (self.new.steps.items ≡ self.old.steps.items) }
        ensures standing { OnOk result (self.new.standing.items ≡ self.old.standing.items) }
        ensures passed { OnOk result (self.new.passed.items ≡ self.old.passed.items) }
    {
        match named.get(self.passed[node as usize]) {
            Some(argument) => {
                self.next[node as usize] = self.first[*argument as usize];
                self.first[*argument as usize] = Some(node);
            }
            None => self.ready.push(Reverse(node))?,
        }
        Ok(())
    }

    /// Each node that waits for this one, which stands, goes on to wait for another or is ready.
    fn release(&mut self, nodes: &[Links], node: u32) -> Result<(), OutOfMemory>
        requires few { length nodes.now < 2 ^ 32 }
        requires named { RefersWithin (graph_of nodes.now) }
        requires releasing { IsReleasing (graph_of nodes.now) node self.old }
        ensures between { OnOk result (IsBetweenSteps (graph_of nodes.now) self.new) }
        ensures members { OnOk result (self.new.members.items ≡ self.old.members.items) }
        ensures steps { OnOk result (self.new.steps.items ≡ self.old.steps.items) }
        ensures standing { OnOk result (self.new.standing.items ≡ self.old.standing.items) }
    {
        while let Some(waiting) = self.first[node as usize] {
            self.first[node as usize] = self.next[waiting as usize];
            let arguments = nodes[waiting as usize].arguments.as_slice();
            let passed = self.passed[waiting as usize];
            self.passed[waiting as usize] = first_missing(
                arguments,
                self.standing.as_slice(),
                passed,
            );
            self.park(waiting, arguments)?;
        }
        Ok(())
    }

    /// Puts the node behind those that stand.
    fn append(&mut self, nodes: &[Links], node: u32) -> Result<(), OutOfMemory>
        requires few { length nodes.now < 2 ^ 32 }
        requires named { RefersWithin (graph_of nodes.now) }
        requires next { ComesNext (graph_of nodes.now) node self.old }
        ensures between { OnOk result (IsBetweenSteps (graph_of nodes.now) self.new) }
        ensures members { OnOk result (self.new.members.items ≡ self.old.members.items) }
        ensures steps { OnOk result (self.new.steps.items ≡ self.old.steps.items ++ node ∷ []) }
        ensures standing { OnOk result
            (self.new.standing.items ≡ slice_set self.old.standing.items node true) }
    {
        self.steps.push(node)?;
        self.standing[node as usize] = true;
        self.release(nodes, node)
    }

    /// Parks each node of the run that is no load.
    fn park_all(&mut self, nodes: &[Links]) -> Result<(), OutOfMemory>
        requires few { length nodes.now < 2 ^ 32 }
        requires named { RefersWithin (graph_of nodes.now) }
        requires none { self.old.steps.items ≡ [] }
        requires queue { IsQueueOf (graph_of nodes.now) (λ _. false) self.old }
        ensures between { OnOk result (IsBetweenSteps (graph_of nodes.now) self.new) }
        ensures members { OnOk result (self.new.members.items ≡ self.old.members.items) }
        ensures none { OnOk result (self.new.steps.items ≡ []) }
    {
        for node in 0..nodes.len() {
            if self.members[node] && !nodes[node].load {
                self.park(node as u32, nodes[node].arguments.as_slice())?;
            }
        }
        Ok(())
    }

    /// Puts the load nodes of the run behind those that stand, by index.
    fn append_loads(&mut self, nodes: &[Links]) -> Result<(), OutOfMemory>
        requires few { length nodes.now < 2 ^ 32 }
        requires named { RefersWithin (graph_of nodes.now) }
        requires none { self.old.steps.items ≡ [] }
        requires between { IsBetweenSteps (graph_of nodes.now) self.old }
        ensures between { OnOk result (IsBetweenSteps (graph_of nodes.now) self.new) }
        ensures members { OnOk result (self.new.members.items ≡ self.old.members.items) }
        ensures loads { OnOk result (self.new.steps.items
            ≡ filter (is_load (graph_of nodes.now)) (run_in (graph_of nodes.now) self.old)) }
    {
        for node in 0..nodes.len() {
            if self.members[node] && nodes[node].load {
                self.append(nodes, node as u32)?;
            }
        }
        Ok(())
    }

    /// Appends the least ready node until none is ready.
    fn append_ready(&mut self, nodes: &[Links]) -> Result<(), OutOfMemory>
        requires few { length nodes.now < 2 ^ 32 }
        requires named { RefersWithin (graph_of nodes.now) }
        requires between { IsBetweenSteps (graph_of nodes.now) self.old }
        requires loads { (n : ℕ) → slice_index_or self.old.members.items n false ≡ true →
            is_load (graph_of nodes.now) n ≡ true → contains self.old.steps.items n ≡ true }
        ensures partial { OnOk result
            (IsPartial (graph_of nodes.now) self.old.members.items self.new.steps.items) }
        ensures room { OnOk result (length self.new.steps.items ≤ length nodes.now) }
        ensures extended { OnOk result
            (self.new.steps.items ≡ order_behind (graph_of nodes.now) self.old) }
        ensures none { OnOk result (next_of (graph_of nodes.now)
            (run_in (graph_of nodes.now) self.old) self.new.steps.items ≡ None) }
    {
        while let Some(least) = self.ready.pop() {
            self.append(nodes, least.0)?;
        }
        Ok(())
    }
}

/// The index of the first argument that does not stand, from this index on; the number of arguments if all do.
fn first_missing(arguments: &[u32], standing: &[bool], passed: usize) -> usize
    requires within { (n : ℕ) → contains arguments.now n ≡ true → n < length standing.now }
    ensures onwards { passed ≤ result }
    ensures stand { (k : ℕ) → passed ≤ k → k < result → k < length arguments.now →
        slice_index_or standing.now (slice_index arguments.now k) false ≡ true }
    ensures lacks { (a : ℕ) → slice_get arguments.now result ≡ Some a →
        slice_index_or standing.now a false ≡ false }
{
    let mut at = passed;
    while at < arguments.len() && standing[arguments[at] as usize] {
        at += 1;
    }
    at
}

/// The order of the run of `last`.
pub fn steps_of(alloc: Global, nodes: &[Links], last: u32) -> Result<Vec<u32>, OutOfMemory>
    requires few { length nodes.now < 2 ^ 32 }
    requires last_named { last < length nodes.now }
    requires named { RefersWithin (graph_of nodes.now) }
    requires acyclic { IsAcyclic (graph_of nodes.now) }
    ensures room { IfOk result (λ steps. length steps.items ≤ length nodes.now) }
    ensures steps { IfOk result (λ steps. steps.items ≡ order_of (graph_of nodes.now) last) }
    ensures listing { IfOk result (λ steps. IsListing (graph_of nodes.now) last steps.items) }
{
    let members = run::members(alloc, nodes, last)?;
    let mut queue = Queue::new(alloc, members)?;
    queue.park_all(nodes)?;
    queue.append_loads(nodes)?;
    queue.append_ready(nodes)?;
    Ok(queue.steps)
}

/// The nodes, each behind those that it refers to: all of them where no references lead from a node back to itself, and
/// else those from which none lead to such a node.
///
/// Refuses: where an allocation was refused, and nowhere else.
pub fn sort(alloc: Global, nodes: &[Links]) -> Result<Vec<u32>, OutOfMemory>
    requires few { length nodes.now < 2 ^ 32 }
    requires named { RefersWithin (graph_of nodes.now) }
    requires no_loads { AreNoLoads (graph_of nodes.now) }
    ensures sorted { IfOk result (λ steps. AreAllSorted (graph_of nodes.now) steps.items) }
    ensures all { IfOk result (λ steps. IsAcyclic (graph_of nodes.now)
        → (n : ℕ) → n < length nodes.now → Contains steps.items n) }
{
    let members = vec![in alloc; true; nodes.len()]?;
    let mut queue = Queue::new(alloc, members)?;
    queue.park_all(nodes)?;
    queue.append_ready(nodes)?;
    Ok(queue.steps)
}

/// Whether no references lead from a node back to itself.
///
/// Refuses: where an allocation was refused, and nowhere else.
pub fn is_acyclic(alloc: Global, nodes: &[Links]) -> Result<bool, OutOfMemory>
    requires few { length nodes.now < 2 ^ 32 }
    requires named { RefersWithin (graph_of nodes.now) }
    requires no_loads { AreNoLoads (graph_of nodes.now) }
    ensures { IfOk result (λ acyclic. acyclic ≡ true ↔ IsAcyclic (graph_of nodes.now)) }
{
    let steps = sort(alloc, nodes)?;
    Ok(steps.len() == nodes.len())
}
