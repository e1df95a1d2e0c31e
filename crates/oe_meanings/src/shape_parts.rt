// A shape of labels where it is within the limits.
ghost use Rattle.std.specs.Prelude.{◌≡◌, true};
ghost use Rattle.oe_dims.specs.Dimensions.{IsShape};
ghost use Rattle.oe_dims.specs.Lists.{dimensions_with};
ghost use Rattle.oe_meanings.specs.Results.{where_within_limits};
ghost use Rattle.oe_meanings.specs.ValidShapes.{is_within_limits};

use oe_dims::{Shape, Text};

/// The shape of these labels, which keep every rule of a shape but its limits, `None` where there are over 65536 along
/// a dimension or over 2^40 cells.
pub fn shape_within(
    epsg: u32,
    t: Option<Vec<i64>>,
    bands: Option<Vec<Text>>,
    y: Option<Vec<i64>>,
    x: Option<Vec<i64>>,
) -> Option<Shape>
    requires valid { is_within_limits (dimensions_with epsg t bands y x) ≡ true
        → IsShape (dimensions_with epsg t bands y x) }
    ensures { result ≡ where_within_limits (dimensions_with epsg t bands y x) }
{
    match Shape::new(epsg, t, bands, y, x) {
        Ok(shape) => Some(shape),
        Err(_) => None,
    }
}

/// A shape keeps its rules, as its functions say.
pub fn recall_rules(shape: &Shape)
    ensures { IsShape shape.now }
{
    let _epsg = shape.epsg();
}
