// The cubes that a request works on, among the collections and the nodes that were judged.
ghost use Rattle.std.specs.Prelude.{◌≡◌, List, ℕ, Contains, find, length, option_map};
ghost use Rattle.oe_dims.specs.Names.{same_name};
ghost use Rattle.oe_dims.specs.Plain.{plain_rows};
ghost use Rattle.oe_dims.specs.declared.dims.DimsRow.{DimsRow};
ghost use Rattle.oe_graph.specs.Plain.{plain_nodes};
ghost use Rattle.oe_graph.specs.Printed.{ids_of};
ghost use Rattle.oe_graph.specs.States.{state_at};
ghost use Rattle.oe_meanings.specs.Graphs.{row_outline};
ghost use Rattle.oe_check.specs.Inputs.{AreInputs, AreNamed, both_outlines, outline_in, outline_sound};
ghost use Rattle.oe_check.specs.Links.{index_referred};
ghost use Rattle.oe_requests.specs.Operations.{Outline};
ghost use Rattle.oe_requests.specs.PlainRequests.{plain_cube_request};
ghost use Rattle.oe_requests.specs.Requests.{cube_ids};
ghost use Rattle.oe_check.specs.Walked.{AreNamesKnown, AreResolved};
ghost use Rattle.oe_expr.specs.Requests.{with_both};

use crate::checked::State;
use crate::input::Input;
use crate::links::index_of;
use oe_dims::Dims;
use oe_graph::{Node, NodeState};
use oe_requests::Request;

/// The cubes that a request works on, the one twice where it takes one alone: of a load the collection, `None` where
/// there is none of the id.
pub(crate) fn inputs_of<'a>(
    nodes: &[Node],
    states: &'a [State],
    dims: &'a Dims,
    request: &Request<'_>,
) -> Option<(Input<'a>, Input<'a>)>
    requires resolved { AreResolved (plain_nodes nodes.now) }
    requires states { length states.now ≡ length nodes.now }
    requires named { AreNamed (plain_nodes nodes.now) (cube_ids (plain_cube_request request.now)) }
    ensures { (at : List ℕ → Outline) → AreNamesKnown (plain_nodes nodes.now) states.now at
        (cube_ids (plain_cube_request request.now)) → AreInputs (plain_rows dims.now) at
        (plain_cube_request request.now) (option_map both_outlines result) }
{
    match request {
        Request::LoadCollection { id, .. } => once(collection_named(dims, id)),
        Request::FilterBbox { cube, .. } => once(input_named(nodes, states, cube)),
        Request::FilterTemporal { cube, .. } => once(input_named(nodes, states, cube)),
        Request::FilterBands { cube, .. } => once(input_named(nodes, states, cube)),
        Request::Apply { cube, .. } => once(input_named(nodes, states, cube)),
        Request::ApplyKernel { cube, .. } => once(input_named(nodes, states, cube)),
        Request::ReduceDimension { cube, .. } => once(input_named(nodes, states, cube)),
        Request::AggregateTemporal { cube, .. } => once(input_named(nodes, states, cube)),
        Request::AggregateTemporalPeriod { cube, .. } => once(input_named(nodes, states, cube)),
        Request::ApplyDimension { cube, .. } => once(input_named(nodes, states, cube)),
        Request::MergeCubes { one, two, .. } => both(
            input_named(nodes, states, one),
            input_named(nodes, states, two),
        ),
        Request::Mask { cube, mask, .. } => both(
            input_named(nodes, states, cube),
            input_named(nodes, states, mask),
        ),
        Request::SaveResult { cube, .. } => once(input_named(nodes, states, cube)),
    }
}

/// One cube for both.
fn once(input: Option<Input<'_>>) -> Option<(Input<'_>, Input<'_>)>
    ensures { option_map both_outlines result
        ≡ option_map (λ (o : Outline). (o, o)) (option_map outline_in input.entry) }
{
    match input {
        Some(input) => Some((input, input)),
        None => None,
    }
}

/// Two cubes.
fn both<'a>(one: Option<Input<'a>>, two: Option<Input<'a>>) -> Option<(Input<'a>, Input<'a>)>
    ensures { option_map both_outlines result
        ≡ with_both (λ a b. (a, b)) (option_map outline_in one.entry)
        (option_map outline_in two.entry) }
{
    match (one, two) {
        (Some(one), Some(two)) => Some((one, two)),
        _ => None,
    }
}

/// The collection of an id.
fn collection_named<'a>(dims: &'a Dims, id: &str) -> Option<Input<'a>>
    ensures { option_map outline_in result ≡ option_map row_outline
        (find (λ (row : DimsRow). same_name row.id id.now) (plain_rows dims.now)) }
{
    for row in &dims.rows {
        if row.id.as_str() == id {
            return Some(Input {
                shape: &row.shape,
                kind: row.kind,
                kept: None,
            });
        }
    }
    None
}

/// The cube of the node of an id, where there is no fault at or below it.
fn input_named<'a>(nodes: &[Node], states: &'a [State], id: &str) -> Option<Input<'a>>
    requires resolved { AreResolved (plain_nodes nodes.now) }
    requires states { length states.now ≡ length nodes.now }
    requires named { Contains (ids_of (plain_nodes nodes.now)) id.now }
    ensures { option_map outline_in result ≡ outline_sound
        (state_at states.now (index_referred (plain_nodes nodes.now) id.now)) }
{
    input_of(&states[index_of(nodes, id)])
}

/// The cube of a node without a fault at or below it.
fn input_of(state: &State) -> Option<Input<'_>>
    ensures { option_map outline_in result ≡ outline_sound state.now }
{
    match state {
        NodeState::Sound(kept) => Some(Input {
            shape: &*kept.shape,
            kind: kept.kind,
            kept: Some(&kept.shape),
        }),
        _ => None,
    }
}
