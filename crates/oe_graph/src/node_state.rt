// What a walk over the nodes of a graph object knows of each.
ghost use Rattle.std.specs.Prelude.{◌≡◌, ◌<◌, ℕ, length, replicate, IfOk, slice_index_or};
ghost use Rattle.oe_graph.specs.States as spec;
ghost use Rattle.oe_graph.specs.declared.node_state.NodeState.TheVariants.{Unseen};

use oe_memory::OutOfMemory;
use std::alloc::Global;

/// What a walk over the nodes of a graph object, each behind those that it refers to, knows of one of them.
#[derive(Clone, Copy, Drop)]
pub enum NodeState<T> {
    /// Not yet judged.
    Unseen,
    /// There is a fault at or below it.
    Faulty,
    /// There is none, and this is kept of it.
    Sound(T),
}

/// The states of so many nodes before the first is judged.
///
/// Refuses: out of memory.
pub fn unseen_states<T: Drop>(alloc: Global, count: usize) -> Result<Vec<NodeState<T>>, OutOfMemory>
    ensures { IfOk result (λ states. states.items ≡ replicate count Unseen) }
{
    let mut states = Vec::with_capacity(alloc, count)?;
    for _index in 0..count {
        states.push(NodeState::Unseen)?;
    }
    Ok(states)
}

/// Whether the nodes at these indices were judged and are sound.
pub fn are_sound<T>(indices: &[u32], states: &[NodeState<T>]) -> bool
    requires { (k : ℕ) → k < length indices.now
        → slice_index_or indices.now k 0 < length states.now }
    ensures { result ≡ spec.are_sound states.now indices.now }
{
    for index in indices {
        if !is_sound(&states[*index as usize]) {
            return false;
        }
    }
    true
}

/// Whether there is no fault at or below a node that was judged.
fn is_sound<T>(state: &NodeState<T>) -> bool
    ensures { result ≡ spec.is_sound state.now }
{
    matches!(state, NodeState::Sound(_))
}
