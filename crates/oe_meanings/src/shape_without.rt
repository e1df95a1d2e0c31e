// The shape of a cube of which a dimension is reduced.
ghost use Rattle.std.specs.Prelude.{◌≡◌, IfOk};
ghost use Rattle.std.specs.Option.{option_map};
ghost use Rattle.oe_dims.specs.Dimensions.{IsShape, numbers_along};
ghost use Rattle.oe_dims.specs.Lists.{items_of};
ghost use Rattle.oe_requests.specs.Operations.{without_dimension};
ghost use Rattle.oe_meanings.specs.Results.{where_within_limits};

use crate::shape_parts::shape_within;
use oe_dims::{Kind, Shape, Text, copy_bands, copy_numbers};
use oe_memory::OutOfMemory;
use std::alloc::Global;

/// A copy of the labels along t, y or x, `None` where the shape lacks the dimension or it is the one reduced.
fn other_numbers(
    alloc: Global,
    shape: &Shape,
    kind: Kind,
    reduced: Kind,
) -> Result<Option<Vec<i64>>, OutOfMemory>
    ensures { IfOk result (λ copy. option_map items_of copy
        ≡ numbers_along kind (without_dimension reduced shape.now)) }
{
    if kind == reduced {
        Ok(None)
    } else {
        copy_numbers(alloc, shape, kind)
    }
}

/// A copy of the names of the bands, `None` where the shape has no bands or these are reduced.
fn other_bands(
    alloc: Global,
    shape: &Shape,
    reduced: Kind,
) -> Result<Option<Vec<Text>>, OutOfMemory>
    ensures { IfOk result (λ copy. option_map items_of copy
        ≡ (without_dimension reduced shape.now).bands) }
{
    if reduced == Kind::Bands {
        Ok(None)
    } else {
        copy_bands(alloc, shape)
    }
}

/// The EPSG code of what is left, 0 where neither y nor x is.
fn other_epsg(shape: &Shape, reduced: Kind) -> u32
    ensures value { result ≡ (without_dimension reduced shape.now).epsg }
    ensures valid { IsShape shape.now }
{
    let epsg = shape.epsg();
    let has_side = match reduced {
        Kind::Time => true,
        Kind::Bands => true,
        Kind::Y => shape.count(Kind::X).is_some(),
        Kind::X => shape.count(Kind::Y).is_some(),
    };
    if has_side { epsg } else { 0 }
}

/// The shape without a dimension (`reduce_dimension` of openEO Processes), `None` where it has over 2^40 cells, as one
/// may that had a dimension without labels. Refuses: out of memory.
pub fn without(alloc: Global, kind: Kind, shape: &Shape) -> Result<Option<Shape>, OutOfMemory>
    ensures { IfOk result (λ found. found ≡ where_within_limits
        (without_dimension kind shape.now)) }
{
    let t = other_numbers(alloc, shape, Kind::Time, kind)?;
    let bands = other_bands(alloc, shape, kind)?;
    let y = other_numbers(alloc, shape, Kind::Y, kind)?;
    let x = other_numbers(alloc, shape, Kind::X, kind)?;
    Ok(shape_within(other_epsg(shape, kind), t, bands, y, x))
}
