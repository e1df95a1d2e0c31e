// The shape of what a request gives, kept once for all nodes that have it.
ghost use Rattle.std.specs.Prelude.{◌≡◌, true, Some, IfOk, IfSome};
ghost use Rattle.std.specs.Arc.{arc_value};
ghost use Rattle.std.specs.Option.{option_map};
ghost use Rattle.oe_dims.specs.Dimensions.{IsShape};
ghost use Rattle.oe_requests.specs.PlainRequests.{plain_cube_request};
ghost use Rattle.oe_meanings.specs.Results.{HasValidLabels, IsResultShape, where_within_limits};

use crate::checked::State;
use crate::input::Input;
use oe_dims::{Kind, Shape};
use oe_graph::NodeState;
use oe_meanings::{adds_nothing, recall_rules, result_shape};
use oe_memory::OutOfMemory;
use oe_requests::Request;
use std::alloc::Global;
use std::sync::Arc;

/// The shape of what a request gives, `None` where it has over 65536 labels along a dimension or over 2^40 cells. It is
/// that of the first cube where the request leaves the labels of a node, and else that of a node with an equal one.
///
/// Refuses: out of memory.
pub(crate) fn shape_shared(
    alloc: Global,
    states: &[State],
    request: &Request<'_>,
    one: Input<'_>,
    two: Input<'_>,
) -> Result<Option<Arc<Shape>>, OutOfMemory>
    requires labels { HasValidLabels (plain_cube_request request.now) }
    ensures { IfOk result (λ found. IsResultShape (plain_cube_request request.now)
        one.entry.shape.now two.entry.shape.now (option_map arc_value found)) }
{
    match shape_left(states, request, one, two) {
        Some(kept) => Ok(Some(kept.clone()?)),
        None => match result_shape(alloc, request, one.shape, two.shape)? {
            Some(shape) => Ok(Some(shared(alloc, states, beside(shape, one.shape))?)),
            None => Ok(None),
        },
    }
}

/// The shape of the first cube as it is kept, where the request leaves its labels.
fn shape_left<'a>(
    states: &'a [State],
    request: &Request<'_>,
    one: Input<'a>,
    two: Input<'_>,
) -> Option<&'a Arc<Shape>>
    ensures { IfSome result (λ kept. IsResultShape (plain_cube_request request.now)
        one.entry.shape.now two.entry.shape.now (Some (arc_value kept.now))) }
{
    if leaves_labels(request, one.shape, two.shape) {
        kept_of(states, one)
    } else {
        None
    }
}

/// The shape of a cube as it is kept of its node, and of a collection as it is kept of a node with an equal one.
fn kept_of<'a>(states: &'a [State], cube: Input<'a>) -> Option<&'a Arc<Shape>>
    ensures { IfSome result (λ kept. arc_value kept.now ≡ cube.entry.shape.now) }
{
    match cube.kept {
        Some(kept) => Some(kept),
        None => equal_among(states, cube.shape),
    }
}

/// Whether what a request gives has the labels of its first cube, of a merge by one pass over them.
fn leaves_labels(request: &Request<'_>, one: &Shape, two: &Shape) -> bool
    ensures left { result ≡ true → IsResultShape (plain_cube_request request.now)
        one.now two.now (where_within_limits one.now) }
    ensures valid { IsShape one.now }
{
    recall_rules(one);
    match request {
        Request::LoadCollection {
            area: None,
            time: None,
            bands: None,
            ..
        } => true,
        Request::Apply { .. } => true,
        Request::ApplyDimension { .. } => true,
        Request::ApplyKernel { .. } => true,
        Request::MergeCubes { .. } => adds_nothing(one, two),
        Request::Mask { .. } => true,
        Request::SaveResult { .. } => true,
        _ => false,
    }
}

/// The shape with the labels of each dimension that its cube has too in the memory of those, and all to be taken over.
fn beside(shape: Shape, cube: &Shape) -> Shape
    ensures { result ≡ shape }
{
    let mut shape = shape;
    shape.take_labels(cube);
    shape.share_labels();
    shape
}

/// The shape, as it is kept of a node that has an equal one, or by itself.
fn shared(alloc: Global, states: &[State], shape: Shape) -> Result<Arc<Shape>, OutOfMemory>
    ensures { IfOk result (λ kept. arc_value kept ≡ shape) }
{
    match equal_among(states, &shape) {
        Some(kept) => Ok(kept.clone()?),
        None => match Arc::new(alloc, shape) {
            Ok(kept) => Ok(kept),
            Err(_) => Err(OutOfMemory),
        },
    }
}

/// A shape that is kept of a node and equal to this one.
fn equal_among<'a>(states: &'a [State], shape: &Shape) -> Option<&'a Arc<Shape>>
    ensures { IfSome result (λ kept. arc_value kept.now ≡ shape.now) }
{
    for state in states {
        if let NodeState::Sound(node) = state {
            if are_equal(&node.shape, shape) {
                return Some(&node.shape);
            }
        }
    }
    None
}

/// Whether the shapes are equal. Most that are not differ in a count or in a first or last label, so these come first.
fn are_equal(one: &Shape, two: &Shape) -> bool
    ensures { result ≡ true → one.now ≡ two.now }
{
    one.epsg() == two.epsg()
        && have_equal_ends(one, two, Kind::Time)
        && have_equal_ends(one, two, Kind::Y)
        && have_equal_ends(one, two, Kind::X)
        && one.has_same_labels(two, Kind::Time)
        && one.has_same_labels(two, Kind::Y)
        && one.has_same_labels(two, Kind::X)
        && one.has_same_labels(two, Kind::Bands)
}

/// Whether the shapes have as many labels along t, y or x, with one first and one last among them.
fn have_equal_ends(one: &Shape, two: &Shape, kind: Kind) -> bool {
    let labels = one.labels(kind);
    let others = two.labels(kind);
    labels.len() == others.len()
        && labels.first() == others.first()
        && labels.last() == others.last()
}
