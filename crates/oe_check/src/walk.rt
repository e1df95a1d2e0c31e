// The walk over the nodes of a graph: those that a node refers to before the node itself.
ghost use Rattle.std.specs.Prelude.{◌≡◌, ◌<◌, length, IfOk, OnOk, slice_set};
ghost use Rattle.oe_dims.specs.Plain.{plain_rows};
ghost use Rattle.oe_graph.specs.Indices.{AreNodesSorted, reference_graph};
ghost use Rattle.oe_graph.specs.Plain.{plain_nodes};
ghost use Rattle.oe_graph.specs.States.{AreSeenBelow, IsStep, state_at};
ghost use Rattle.oe_graph.specs.declared.node_state.NodeState.TheVariants.{Unseen};
ghost use Rattle.oe_order.specs.Graph.{graph_of};
ghost use Rattle.oe_check.specs.Walked.{AreResolved, IsChecked, IsWalked};

use crate::checked::{CheckedNode, State};
use crate::judge::judge_node;
use oe_dims::Dims;
use oe_graph::{Fault, Node, NodeState, are_sound, note_fault, unseen_states};
use oe_memory::OutOfMemory;
use oe_order::Links;
use std::alloc::Global;

/// How far the walk has come: the state of each node, and the least fault.
#[derive(Drop)]
pub(crate) struct Walk {
    pub states: Vec<State>,
    pub found: Option<Fault>,
}

/// What a node is whose references are sound.
#[derive(Drop)]
pub(crate) enum Verdict {
    /// The least fault at it or in its callback.
    Stands(Fault),
    Sound(CheckedNode),
}

/// The walk over all nodes, each behind those that it refers to, as they are sorted.
pub(crate) fn walk_nodes(
    alloc: Global,
    nodes: &Vec<Node>,
    links: &Vec<Links>,
    sorted: &[u32],
    dims: &Dims,
) -> Result<Walk, OutOfMemory>
    requires resolved { AreResolved (plain_nodes nodes.now.items) }
    requires links { graph_of links.now.items ≡ reference_graph (plain_nodes nodes.now.items) }
    requires sorted { AreNodesSorted (plain_nodes nodes.now.items) sorted.now }
    ensures states { IfOk result (λ walk. length walk.states.items ≡ length nodes.now.items) }
    ensures checked { IfOk result (λ walk. IsChecked (plain_rows dims.now)
        (plain_nodes nodes.now.items) walk.states.items walk.found) }
{
    let mut walk = Walk {
        states: unseen_states(alloc, nodes.len())?,
        found: None,
    };
    for index in sorted {
        visit(alloc, nodes, links, dims, *index as usize, &mut walk)?;
    }
    Ok(walk)
}

/// Judges a node, where those that it refers to were judged.
fn visit(
    alloc: Global,
    nodes: &Vec<Node>,
    links: &Vec<Links>,
    dims: &Dims,
    index: usize,
    walk: &mut Walk,
) -> Result<(), OutOfMemory>
    requires resolved { AreResolved (plain_nodes nodes.now.items) }
    requires links { graph_of links.now.items ≡ reference_graph (plain_nodes nodes.now.items) }
    requires within { index < length nodes.now.items }
    requires states { length walk.old.states.items ≡ length nodes.now.items }
    requires unseen { state_at walk.old.states.items index ≡ Unseen }
    requires below { AreSeenBelow (plain_nodes nodes.now.items) walk.old.states.items index }
    requires walked { IsWalked (plain_rows dims.now) (plain_nodes nodes.now.items)
        walk.old.states.items walk.old.found }
    ensures states { OnOk result (length walk.new.states.items ≡ length nodes.now.items) }
    ensures walked { OnOk result (IsWalked (plain_rows dims.now) (plain_nodes nodes.now.items)
        walk.new.states.items walk.new.found) }
    ensures step { OnOk result (IsStep index walk.old.states.items walk.new.states.items) }
{
    if !are_sound(&links[index].arguments, &walk.states) {
        set_state(&mut walk.states, index, NodeState::Faulty);
        return Ok(());
    }
    let verdict = judge_node(alloc, nodes, &walk.states, dims, &nodes[index])?;
    match verdict {
        Verdict::Stands(fault) => {
            set_state(&mut walk.states, index, NodeState::Faulty);
            note_fault(&mut walk.found, fault);
        }
        Verdict::Sound(node) => set_state(&mut walk.states, index, NodeState::Sound(node)),
    }
    Ok(())
}

/// Keeps what a node is.
fn set_state(states: &mut Vec<State>, index: usize, state: State)
    requires { index < length states.old.items }
    ensures { states.new.items ≡ slice_set states.old.items index state }
{
    states[index] = state;
}
