// The walk over the nodes of a callback: those that a node refers to before the node itself.
ghost use Rattle.std.specs.Prelude.{◌≡◌, ℕ, [], length, IfOk, OnOk, None};
ghost use Rattle.oe_graph.specs.Indices.{reference_graph};
ghost use Rattle.oe_graph.specs.Plain.{plain_node, plain_nodes};
ghost use Rattle.oe_graph.specs.States.{IsStep, state_at};
ghost use Rattle.oe_graph.specs.declared.node_state.NodeState.TheVariants.{Unseen};
ghost use Rattle.oe_order.specs.Graph.{graph_of};
ghost use Rattle.oe_expr.specs.Scope.{IsScope, plain_scope};
ghost use Rattle.oe_expr.specs.Walked.{AreResolved, IsChecked, IsNext, IsVerdict, IsWalked};

use crate::judge::judge;
use crate::request::{Request, request_at};
use crate::scope::Scope;
use crate::state::State;
use oe_cell::Cell;
use oe_dims::CellKind;
use oe_graph::{
    Code, Fault, Node, NodeState, are_sound, fault_at_node, note_fault, sort_nodes, unseen_states,
};
use oe_memory::OutOfMemory;
use oe_order::Links;
use std::alloc::Global;

/// A node without a fault at or below it, by its index, and what it asks for.
#[derive(Drop)]
pub(crate) struct Judged<'a> {
    pub node: usize,
    pub request: Request<'a>,
}

/// How far the walk has come: the state of each node, the sound ones in the order in which they were found, and the
/// least fault.
#[derive(Drop)]
pub(crate) struct Walk<'a> {
    pub states: Vec<State>,
    pub order: Vec<Judged<'a>>,
    pub found: Option<Fault>,
}

/// What a node is whose references are sound.
#[derive(Drop)]
enum Verdict<'a> {
    /// This fault stands at it.
    Stands(Code),
    Sound(Option<CellKind>, Request<'a>),
}

/// The walk over all nodes, each behind those that it refers to.
pub(crate) fn walk_nodes<'a>(
    alloc: Global,
    scope: &Scope,
    context: &Cell,
    nodes: &'a Vec<Node>,
    path: &str,
) -> Result<Walk<'a>, OutOfMemory>
    requires resolved { AreResolved (plain_scope scope.now) nodes.now.items }
    requires scope { IsScope (plain_scope scope.now) }
    ensures { IfOk result (λ walk. IsChecked (plain_scope scope.now) context.now
        nodes.now.items path.now
        walk.states.items walk.order.items walk.found) }
{
    let sorted = sort_nodes(alloc, nodes)?;
    let links = &sorted.links;
    let indices = sorted.indices.as_slice();
    let mut walk = first_walk(alloc, nodes)?;
    for index in indices {
        visit(
            alloc,
            scope,
            context,
            nodes,
            path,
            links,
            *index as usize,
            &mut walk,
        )?;
    }
    Ok(walk)
}

/// The walk before its first step.
fn first_walk<'a>(alloc: Global, nodes: &Vec<Node>) -> Result<Walk<'a>, OutOfMemory>
    ensures states { IfOk result (λ walk. length walk.states.items ≡ length nodes.now.items) }
    ensures unseen { IfOk result (λ walk. (k : ℕ) → state_at walk.states.items k ≡ Unseen) }
    ensures order { IfOk result (λ walk. walk.order.items ≡ []) }
    ensures found { IfOk result (λ walk. walk.found ≡ None) }
{
    Ok(Walk {
        states: unseen_states(alloc, nodes.len())?,
        order: Vec::with_capacity(alloc, nodes.len())?,
        found: None,
    })
}

/// Judges a node, where those that it refers to were judged.
fn visit<'a>(
    alloc: Global,
    scope: &Scope,
    context: &Cell,
    nodes: &'a Vec<Node>,
    path: &str,
    links: &Vec<Links>,
    index: usize,
    walk: &mut Walk<'a>,
) -> Result<(), OutOfMemory>
    requires resolved { AreResolved (plain_scope scope.now) nodes.now.items }
    requires scope { IsScope (plain_scope scope.now) }
    requires links { graph_of links.now.items ≡ reference_graph (plain_nodes nodes.now.items) }
    requires next { IsNext nodes.now.items walk.old.states.items index }
    requires walked { IsWalked (plain_scope scope.now) context.now nodes.now.items path.now
        walk.old.states.items walk.old.order.items walk.old.found }
    ensures states { OnOk result (length walk.new.states.items ≡ length nodes.now.items) }
    ensures walked { OnOk result (IsWalked (plain_scope scope.now) context.now nodes.now.items
        path.now walk.new.states.items walk.new.order.items walk.new.found) }
    ensures step { OnOk result (IsStep index walk.old.states.items walk.new.states.items) }
{
    if !are_sound(&links[index].arguments, &walk.states) {
        walk.states[index] = NodeState::Faulty;
        return Ok(());
    }
    let node = &nodes[index];
    match judge_node(alloc, scope, context, nodes, &walk.states, node)? {
        Verdict::Stands(code) => {
            let fault = fault_at_node(alloc, code, path, node.id.as_str())?;
            walk.states[index] = NodeState::Faulty;
            note_fault(&mut walk.found, fault);
            Ok(())
        }
        Verdict::Sound(kind, request) => {
            walk.states[index] = NodeState::Sound(kind);
            walk.order.push(Judged {
                node: index,
                request,
            })?;
            Ok(())
        }
    }
}

/// What a node is whose references are sound.
fn judge_node<'a>(
    alloc: Global,
    scope: &Scope,
    context: &Cell,
    nodes: &[Node],
    states: &[State],
    node: &'a Node,
) -> Result<Verdict<'a>, OutOfMemory>
    requires scope { IsScope (plain_scope scope.now) }
    requires states { length states.now ≡ length nodes.now }
    ensures { IfOk result (IsVerdict (plain_scope scope.now) context.now nodes.now states.now
        (plain_node node.now)) }
{
    let Some(request) = request_at(alloc, node)? else {
        return Ok(Verdict::Stands(Code::ProcessParameterInvalid));
    };
    match judge(scope, context, nodes, states, &request) {
        Ok(kind) => Ok(Verdict::Sound(kind, request)),
        Err(code) => Ok(Verdict::Stands(code)),
    }
}
