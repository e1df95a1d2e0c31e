// What the walk over the nodes of a callback keeps of each.
ghost use Rattle.std.specs.Prelude.{◌≡◌, length};
ghost use Rattle.oe_expr.specs.States.{index_named, state_named, kind_named};

use oe_dims::CellKind;
use oe_graph::{Node, NodeState};

/// What is known of a node: of a sound one, the kind that it gives.
pub(crate) type State = NodeState<Option<CellKind>>;

/// The index of the node of an id.
pub(crate) fn node_index(nodes: &[Node], id: &str) -> Option<usize>
    ensures { result ≡ index_named nodes.now id.now }
{
    for index in 0..nodes.len() {
        if nodes[index].id.as_str() == id {
            return Some(index);
        }
    }
    None
}

/// What the walk knows of the node of an id.
pub(crate) fn state_of(nodes: &[Node], states: &[State], id: &str) -> State
    requires { length states.now ≡ length nodes.now }
    ensures { result ≡ state_named nodes.now states.now id.now }
{
    match node_index(nodes, id) {
        Some(index) => states[index],
        None => NodeState::Unseen,
    }
}

/// The kind of the node of an id.
pub(crate) fn kind_of(nodes: &[Node], states: &[State], id: &str) -> Option<CellKind>
    requires { length states.now ≡ length nodes.now }
    ensures { result ≡ kind_named nodes.now states.now id.now }
{
    match state_of(nodes, states, id) {
        NodeState::Sound(kind) => kind,
        _ => None,
    }
}
