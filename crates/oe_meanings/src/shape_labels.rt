// Whether a label is one of a cube's.
ghost use Rattle.std.specs.Prelude.{◌≡◌};
ghost use Rattle.std.specs.List.{list_any};
ghost use Rattle.oe_dims.specs.Dimensions.{number_labels, band_names};
ghost use Rattle.oe_dims.specs.Indices.{same_number};
ghost use Rattle.oe_dims.specs.Names.{same_name, OrdersNames};

use oe_dims::{BandIndex, Kind, Shape, Text};

/// The cube has the label along t, y or x.
#[tactic(auto, using(crate::proofs::AmongLemmas::index_any))]
pub fn has_number(shape: &Shape, kind: Kind, label: i64) -> bool
    ensures { result ≡ list_any (same_number label) (number_labels shape.now kind) }
{
    shape.position_of(kind, label).is_some()
}

/// The cube of this index has a band of the name.
#[tactic(auto, using(crate::proofs::AmongLemmas::found_any))]
pub fn has_band(bands: &BandIndex, shape: &Shape, name: &Text) -> bool
    requires { OrdersNames (band_names shape.now) bands.now }
    ensures { result ≡ list_any (same_name name.now) (band_names shape.now) }
{
    bands.find(shape, name).is_some()
}
