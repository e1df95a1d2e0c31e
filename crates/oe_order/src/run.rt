// Which nodes a run has: the result, and all that it reaches by references.
ghost use Rattle.std.specs.Prelude.{◌≡◌, ◌<◌, ◌||◌, ◌↔◌, ℕ, true, false, IfOk, IsTrue, OnOk, length, slice_index_or, take};
ghost use Rattle.oe_order.specs.Graph.{graph_of, in_run, Reaches, RefersWithin, IsAcyclic};
ghost use Rattle.oe_order.specs.Order.{contains};
ghost use Rattle.oe_order.specs.Marks.{IsMarked};

use crate::Links;
use oe_memory::OutOfMemory;
use std::alloc::Global;

/// The mark of each node is whether it belongs to the run of `last`.
pub fn members(alloc: Global, nodes: &[Links], last: u32) -> Result<Vec<bool>, OutOfMemory>
    requires last_named { last < length nodes.now }
    requires named { RefersWithin (graph_of nodes.now) }
    requires acyclic { IsAcyclic (graph_of nodes.now) }
    ensures len { IfOk result (λ marks. length marks.items ≡ length nodes.now) }
    ensures marks { IfOk result
        (λ marks. (n : ℕ) → slice_index_or marks.items n false
        ≡ in_run (graph_of nodes.now) last n) }
{
    let mut marks = vec![in alloc; false; nodes.len()]?;
    let mut found = Vec::with_capacity(alloc, nodes.len())?;
    mark_new(&[last], &mut marks, &mut found)?;
    let mut done = 0;
    while done < found.len() {
        let node = &nodes[found[done] as usize];
        mark_new(node.arguments.as_slice(), &mut marks, &mut found)?;
        done += 1;
    }
    Ok(marks)
}

/// Marks the nodes that have no mark yet, and puts them behind those found before.
///
/// Refuses: where an allocation was refused, and nowhere else.
pub fn mark_new(
    named: &[u32],
    marks: &mut Vec<bool>,
    found: &mut Vec<u32>,
) -> Result<(), OutOfMemory>
    requires within { (n : ℕ) → IsTrue (contains named.now n) → n < length marks.old.items }
    requires marked { IsMarked marks.old.items found.old.items }
    ensures len { OnOk result (length marks.new.items ≡ length marks.old.items) }
    ensures marked { OnOk result (IsMarked marks.new.items found.new.items) }
    ensures found { OnOk result
        ((n : ℕ) → contains found.new.items n ≡ contains found.old.items n
        || contains named.now n) }
    ensures kept { OnOk result (take (length found.old.items) found.new.items ≡ found.old.items) }
{
    for node in named {
        if !marks[*node as usize] {
            marks[*node as usize] = true;
            found.push(*node)?;
        }
    }
    Ok(())
}

/// Whether references lead from the node back to itself. The graph may have cycles.
///
/// Refuses: where an allocation was refused, and nowhere else.
pub fn leads_back(alloc: Global, nodes: &[Links], node: u32) -> Result<bool, OutOfMemory>
    requires node_named { node < length nodes.now }
    requires named { RefersWithin (graph_of nodes.now) }
    ensures { IfOk result (λ back. back ≡ true ↔ Reaches (graph_of nodes.now) node node) }
{
    let mut marks = vec![in alloc; false; nodes.len()]?;
    let mut found = Vec::with_capacity(alloc, nodes.len())?;
    let first = &nodes[node as usize];
    mark_new(first.arguments.as_slice(), &mut marks, &mut found)?;
    let mut done = 0;
    while done < found.len() {
        let node = &nodes[found[done] as usize];
        mark_new(node.arguments.as_slice(), &mut marks, &mut found)?;
        done += 1;
    }
    Ok(marks[node as usize])
}
