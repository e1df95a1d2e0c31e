// How the dimensions of one cube and of two compare, and the kinds of their cells.
ghost use Rattle.std.specs.Prelude.{◌≡◌, ◌&&◌, not};
ghost use Rattle.std.specs.Option.{option_map};
ghost use Rattle.oe_requests.specs.Operations as operations;
ghost use Rattle.oe_meanings.specs.Words as spec;

use oe_dims::{CellKind, Kind, Shape};

/// The dimension of a name, `None` where it is not that of a dimension.
pub fn dimension_named(name: &str) -> Option<Kind>
    ensures { result ≡ operations.dimension_named name.now }
{
    if name == "t" {
        Some(Kind::Time)
    } else if name == "bands" {
        Some(Kind::Bands)
    } else if name == "y" {
        Some(Kind::Y)
    } else if name == "x" {
        Some(Kind::X)
    } else {
        None
    }
}

/// The cube lacks the dimension.
pub fn lacks(kind: Kind, shape: &Shape) -> bool
    ensures { result ≡ spec.lacks_dimension kind shape.now }
{
    shape.count(kind).is_none()
}

/// The cube lacks x or y.
pub fn lacks_plane(shape: &Shape) -> bool
    ensures { result ≡ spec.lacks_plane shape.now }
{
    lacks(Kind::Y, shape) || lacks(Kind::X, shape)
}

/// The cube lacks the dimension of a name, as every cube does where no dimension has the name.
pub fn lacks_named(name: &str, shape: &Shape) -> bool
    ensures { result ≡ spec.lacks_named name.now shape.now }
{
    match dimension_named(name) {
        None => true,
        Some(kind) => lacks(kind, shape),
    }
}

/// A name is given, and is not that of t.
pub fn names_other(name: Option<&str>) -> bool
    ensures { result ≡ spec.names_other (option_map (λ bytes. bytes.now) name.entry) }
{
    match name {
        None => false,
        Some(name) => name != "t",
    }
}

/// The first cube has this dimension, and the second lacks it.
fn has_alone(kind: Kind, one: &Shape, two: &Shape) -> bool
    ensures { result
        ≡ (not (spec.lacks_dimension kind one.now) && spec.lacks_dimension kind two.now) }
{
    !lacks(kind, one) && lacks(kind, two)
}

/// The first cube has a dimension that the second lacks.
pub fn has_another(one: &Shape, two: &Shape) -> bool
    ensures { result ≡ spec.has_another one.now two.now }
{
    has_alone(Kind::Time, one, two)
        || has_alone(Kind::Bands, one, two)
        || has_alone(Kind::Y, one, two)
        || has_alone(Kind::X, one, two)
}

/// Both cubes have an EPSG code, and these differ.
pub fn codes_differ(one: &Shape, two: &Shape) -> bool
    ensures { result ≡ spec.codes_differ one.now two.now }
{
    one.epsg() != 0 && two.epsg() != 0 && one.epsg() != two.epsg()
}

/// The cells of both are of one kind.
pub fn same_cell_kind(one: CellKind, two: CellKind) -> bool
    ensures { result ≡ spec.same_cell_kind one two }
{
    match (one, two) {
        (CellKind::Numbers, CellKind::Numbers) => true,
        (CellKind::Flags, CellKind::Flags) => true,
        _ => false,
    }
}
