// Which labels of its inputs an operation needs beyond those of the part of the result at hand.
ghost use Rattle.std.specs.Prelude.{◌≡◌, unwrap_or};
ghost use Rattle.oe_dims.specs.Dimensions.{label_count};
ghost use Rattle.oe_requests.specs.Labels as labels;
ghost use Rattle.oe_requests.specs.Labels.{shape_of_merge};
ghost use Rattle.oe_requests.specs.PlainRequests.{plain_operation};
ghost use Rattle.oe_check.specs.Reach as spec;

use oe_dims::{Kind, Shape};
use oe_fold::Reducer;
use oe_kernel::Border;
use oe_requests::Operation;

/// The border takes pixels from the other end of the side.
pub fn is_wrap(border: Border) -> bool
    ensures { result ≡ spec.is_wrap border }
{
    matches!(border, Border::Wrap)
}

/// The dimension is y or x.
pub fn is_spatial(along: Kind) -> bool
    ensures { result ≡ spec.is_spatial along }
{
    matches!(along, Kind::Y | Kind::X)
}

/// Both are the same dimension.
pub fn same_kind(kind: Kind, along: Kind) -> bool
    ensures { result ≡ spec.same_kind kind along }
{
    kind == along
}

/// How many labels the cube has along a dimension, 0 where it lacks it.
fn count_along(along: Kind, shape: &Shape) -> u32
    ensures { result ≡ unwrap_or (label_count shape.now along) 0 }
{
    match shape.count(along) {
        Some(count) => count,
        None => 0,
    }
}

/// Both cubes have the dimension, and there is a label that only one of them has. How many labels each of them and
/// their merge have tells it, since the merge has one more for each label of the second that the first lacks.
pub fn differ_along(along: Kind, one: &Shape, two: &Shape, merged: &Shape) -> bool
    requires { merged.now ≡ shape_of_merge one.now two.now }
    ensures { result ≡ labels.differ_along along one.now two.now }
{
    match (one.count(along), two.count(along)) {
        (Some(first), Some(second)) => first != second || count_along(along, merged) != first,
        _ => false,
    }
}

/// The reducer of a reduction of t date by date, and whether it ignores nulls.
pub fn time_fold(operation: &Operation) -> Option<(Reducer, bool)>
    ensures { result ≡ spec.time_fold (plain_operation operation.now) }
{
    match operation {
        Operation::Reduce(Kind::Time, callback) => callback.reducer(),
        _ => None,
    }
}
