// Where a window is cut that lies across several parts. Any cut gives the same cells; one at a seam gives few pieces.
ghost use Rattle.std.specs.Prelude.{◌≡◌, ◌≤◌, ◌<◌, length};
ghost use Rattle.oe_dims.specs.Dimensions.{extent, numbers_along};
ghost use Rattle.oe_mosaic.specs.Places.{IsOfNumbers};
ghost use Rattle.oe_window.specs.Windows.{Holds, IsEmpty, whole_window};

use crate::halves::length;
use oe_dims::{Kind, Shape};
use oe_window::{Span, Window};

/// How many labels at the front of the two lists are alike.
fn alike_count(labels: &[i64], own: &[i64]) -> usize
    ensures { result ≤ length labels.now }
{
    for index in 0..labels.len() {
        if index >= own.len() || labels[index] != own[index] {
            return index;
        }
    }
    labels.len()
}

/// How many labels stand before this one, all of them where it is not among them.
fn count_before(labels: &[i64], label: i64) -> usize
    ensures { result ≤ length labels.now }
{
    for index in 0..labels.len() {
        if labels[index] == label {
            return index;
        }
    }
    labels.len()
}

/// How many labels at the front are those of a part, one behind the other, or, where the first is not, are no labels
/// of it. `own` are the labels of the part from the first one on that is among them.
fn front_count(labels: &[i64], own: &[i64]) -> usize
    requires { 0 < length own.now }
    ensures { result ≤ length labels.now }
{
    let alike = alike_count(labels, own);
    if alike > 0 {
        alike
    } else {
        count_before(labels, own[0])
    }
}

/// The same of labels of t, y or x among those of a part, 0 where it has none of them.
fn seam_among(labels: &[i64], part: &Shape, kind: Kind) -> usize
    requires some { 0 < length labels.now }
{
    let first = labels[0];
    let last = labels[labels.len() - 1];
    let (begin, end) = part.range_of(kind, first.min(last), first.max(last));
    if begin == end {
        return 0;
    }
    front_count(labels, &part.labels(kind)[begin as usize..])
}

/// The same of those at the indices of a span, 0 where one of the cubes lacks the dimension.
fn seam_along(shape: &Shape, part: &Shape, kind: Kind, span: Span) -> usize
    requires numbers { IsOfNumbers kind }
    requires some { span.from < span.to }
    requires within { span.to ≤ extent (numbers_along kind shape.now) }
{
    match (shape.count(kind), part.count(kind)) {
        (Some(_), Some(_)) => {
            let labels = shape.labels(kind);
            seam_among(&labels[span.from as usize..span.to as usize], part, kind)
        }
        _ => 0,
    }
}

/// How many indices of the outermost dimension with several lie together in a part or beside it, 0 where it has none of
/// them.
pub fn seam(shape: &Shape, part: &Shape, window: &Window) -> usize
    requires inside { Holds (whole_window shape.now) window.now }
    requires filled { ¬ IsEmpty window.now }
{
    if length(window.t) > 1 {
        return seam_along(shape, part, Kind::Time, window.t);
    }
    if length(window.bands) > 1 {
        return 0;
    }
    if length(window.y) > 1 {
        return seam_along(shape, part, Kind::Y, window.y);
    }
    seam_along(shape, part, Kind::X, window.x)
}
