// The steps of a run by turns: those of the graph whose nodes are numbered by their turns.
ghost use Rattle.std.specs.Prelude.{◌≡◌, ◌<◌, ◌≤◌, ◌^◌, ℕ, IfOk, length, map, slice_index};
ghost use Rattle.oe_order.specs.Graph.{RefersWithin, IsAcyclic, graph_of};
ghost use Rattle.oe_order.specs.Order.{IsListing};
ghost use Rattle.oe_order.specs.Evaluation.{LoadsFirst};
ghost use Rattle.oe_order.specs.Turns.{AreTurns, by_turns, order_by_turns, turn_of};

use crate::{Links, listing, pool};
use oe_memory::OutOfMemory;
use std::alloc::Global;

/// The numbers at these indices.
fn numbers_at(alloc: Global, indices: &[u32], numbers: &[u32]) -> Result<Vec<u32>, OutOfMemory>
    requires { (i : ℕ) → i < length indices.now → slice_index indices.now i < length numbers.now }
    ensures { IfOk result (λ r. r.items ≡ map (λ n. slice_index numbers.now n) indices.now) }
{
    let mut found = Vec::with_capacity(alloc, indices.len())?;
    for index in indices {
        found.push(numbers[*index as usize])?;
    }
    Ok(found)
}

/// The graph whose nodes are numbered by their turns; `by_node` has the turn of each node.
fn graph_by_turns(
    alloc: Global,
    nodes: &[Links],
    turns: &[u32],
    by_node: &[u32],
) -> Result<Vec<Links>, OutOfMemory>
    requires named { RefersWithin (graph_of nodes.now) }
    requires turns { AreTurns (length nodes.now) turns.now }
    requires each { length by_node.now ≡ length nodes.now }
    requires by_node { (n : ℕ) → n < length nodes.now →
        slice_index by_node.now n ≡ turn_of turns.now n }
    ensures { IfOk result (λ r. graph_of r.items ≡ by_turns (graph_of nodes.now) turns.now) }
{
    let mut links = Vec::with_capacity(alloc, turns.len())?;
    for node in turns {
        let link = &nodes[*node as usize];
        let arguments = numbers_at(alloc, link.arguments.as_slice(), by_node)?;
        links.push(Links {
            load: link.load,
            arguments,
        })?;
    }
    Ok(links)
}

/// The order of the run of `last` by turns.
pub fn steps_by_turns(
    alloc: Global,
    nodes: &[Links],
    last: u32,
    turns: &[u32],
) -> Result<Vec<u32>, OutOfMemory>
    requires few { length nodes.now < 2 ^ 32 }
    requires last_named { last < length nodes.now }
    requires named { RefersWithin (graph_of nodes.now) }
    requires acyclic { IsAcyclic (graph_of nodes.now) }
    requires turns { AreTurns (length nodes.now) turns.now }
    ensures room { IfOk result (λ steps. length steps.items ≤ length nodes.now) }
    ensures steps { IfOk result
        (λ steps. steps.items ≡ order_by_turns (graph_of nodes.now) turns.now last) }
    ensures loads_first { IfOk result (λ steps. LoadsFirst (graph_of nodes.now) steps.items) }
    ensures listing { IfOk result (λ steps. IsListing (graph_of nodes.now) last steps.items) }
{
    let by_node = pool::steps_by_node(alloc, nodes.len(), turns)?;
    let graph = graph_by_turns(alloc, nodes, turns, by_node.as_slice())?;
    let order = listing::steps_of(alloc, graph.as_slice(), by_node[last as usize])?;
    numbers_at(alloc, order.as_slice(), turns)
}
