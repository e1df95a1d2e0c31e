// The shape and the kind of a cube that a request works on.
ghost use Rattle.std.specs.Prelude.{◌≡◌};
ghost use Rattle.std.specs.Arc.{arc_value};
ghost use Rattle.std.specs.Option.{ForSome};

use oe_dims::{CellKind, Shape};
use std::sync::Arc;

/// The shape and the kind of a cube that a request works on.
#[derive(Clone, Copy)]
pub(crate) struct Input<'a> {
    pub shape: &'a Shape,
    pub kind: CellKind,
    /// The shape as it is kept of a node, `None` of a collection.
    pub kept: Option<&'a Arc<Shape>>,
    ghost same: { ForSome kept (λ kept. arc_value kept.now ≡ shape.now) },
}
