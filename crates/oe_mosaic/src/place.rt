// How a window lies in a part.
ghost use Rattle.std.specs.Prelude.{◌≡◌, ◌+◌, ◌<◌, ◌≤◌, ℕ, true, length, slice_get, IfSome};
ghost use Rattle.std.specs.List.{Contains, slice_range};
ghost use Rattle.oe_dims.specs.Dimensions.{band_names, extent, number_labels, numbers_along};
ghost use Rattle.oe_dims.specs.Indices.{is_inside, same_number};
ghost use Rattle.oe_dims.specs.Names.{same_name};
ghost use Rattle.oe_dims.specs.Rules.{IsInOrder};
ghost use Rattle.oe_mosaic.specs.Places.{HasNoTupleOf, HasNumbersOf, HaveAllBetween, IsOfNumbers, LieAlong, LieAmong, LiesAlong, LiesIn, first_index, has_across, has_apart, is_across, is_apart, span_in_part};
ghost use Rattle.oe_window.specs.Windows.{Holds, IsEmpty, span_length, whole_window};

use oe_dims::{Kind, Shape, Text};
use oe_window::{Span, Window};

/// How the labels of a span lie in a part, along one dimension.
#[derive(Clone, Copy, PartialEq, Eq)]
pub enum Along {
    /// The part has none of them.
    Apart,
    /// The part has all of them in the same order, one behind the other from this index on.
    From(u32),
    /// Anything else.
    Across,
}

/// How the tuples of a window lie in a part.
#[derive(Clone, Copy, PartialEq, Eq)]
pub enum Place {
    /// The part has none of them.
    Apart,
    /// They are those of this box of the part, in the same order.
    Box(Window),
    /// Anything else.
    Across,
}

/// How the four spans of a window lie in a part.
#[derive(Clone, Copy, PartialEq, Eq)]
pub struct Sides {
    pub t: Along,
    pub bands: Along,
    pub y: Along,
    pub x: Along,
}

/// The names stand among those of a part from an index on, in the same order and one behind the other.
fn names_stand_from(names: &[Text], own: &[Text], first: usize) -> bool
    ensures { result ≡ true → slice_range own.now first (first + length names.now) ≡ names.now }
{
    first <= own.len()
        && names.len() <= own.len() - first
        && &own[first..first + names.len()] == names
}

/// The least and the greatest of labels that stand in order.
#[tactic(auto, using(crate::proofs::PlaceLemmas::ends_rising, crate::proofs::PlaceLemmas::ends_falling))]
fn ends_of(kind: Kind, labels: &[i64]) -> (i64, i64)
    requires order { IsInOrder kind labels.now }
    requires some { 0 < length labels.now }
    ensures inside { (k : ℕ) → k < length labels.now →
        IfSome (slice_get labels.now k) (λ label. is_inside result.0 result.1 label ≡ true) }
    ensures least { Contains labels.now result.0 }
    ensures greatest { Contains labels.now result.1 }
{
    let first = labels[0];
    let last = labels[labels.len() - 1];
    match kind {
        Kind::Time => (first, last),
        Kind::Bands => (first, last),
        Kind::Y => (last, first),
        Kind::X => (first, last),
    }
}

/// Labels of t, y or x all stand before those of a part, or all behind them.
fn stand_beside(labels: &[i64], part: &Shape, kind: Kind) -> bool
    requires some { 0 < length labels.now }
    requires order { IsInOrder kind labels.now }
    ensures { result ≡ true
        → LieAmong same_number labels.now (number_labels part.now kind) Along.Apart }
{
    let own = part.labels(kind);
    if own.is_empty() {
        return false;
    }
    let (least, greatest) = ends_of(kind, labels);
    let (own_least, own_greatest) = ends_of(kind, own);
    greatest < own_least || own_greatest < least
}

/// The same of the labels at the indices of a span, where both cubes have the dimension.
#[tactic(auto, using(crate::proofs::PlaceLemmas::order_piece))]
fn is_beside_along(shape: &Shape, part: &Shape, kind: Kind, span: Span) -> bool
    requires numbers { IsOfNumbers kind }
    requires some { span.from < span.to }
    requires within { span.to ≤ extent (numbers_along kind shape.now) }
    ensures { result ≡ true → LiesAlong same_number (numbers_along kind shape.now)
        (numbers_along kind part.now) span Along.Apart }
{
    match (shape.count(kind), part.count(kind)) {
        (Some(_), Some(_)) => {
            let labels = shape.labels(kind);
            stand_beside(&labels[span.from as usize..span.to as usize], part, kind)
        }
        _ => false,
    }
}

/// How labels of t, y or x lie among those of a part. Each label of the part between the ends of these is one of them,
/// so that as many as these are these, and none is compared.
#[tactic(auto, using(crate::proofs::PlaceLemmas::single_from, crate::proofs::PlaceLemmas::single_apart, crate::proofs::PlaceLemmas::range_apart))]
fn numbers_among(labels: &[i64], part: &Shape, kind: Kind) -> Along
    requires some { 0 < length labels.now }
    requires order { IsInOrder kind labels.now }
    requires all { HaveAllBetween labels.now (number_labels part.now kind) }
    ensures { LieAmong same_number labels.now (number_labels part.now kind) result }
{
    if labels.len() == 1 {
        return match part.position_of(kind, labels[0]) {
            Some(first) => Along::From(first),
            None => Along::Apart,
        };
    }
    let (least, greatest) = ends_of(kind, labels);
    let (first, end) = part.range_of(kind, least, greatest);
    if first == end {
        Along::Apart
    } else if (end - first) as usize == labels.len() {
        Along::From(first)
    } else {
        Along::Across
    }
}

/// How labels of t, y or x at the indices of a span lie in a part.
#[tactic(auto, using(crate::proofs::PlaceLemmas::numbers_missing, crate::proofs::PlaceLemmas::numbers_both, crate::proofs::PlaceLemmas::numbers_left, crate::proofs::PlaceLemmas::numbers_right, crate::proofs::PlaceLemmas::order_piece))]
fn numbers_along(shape: &Shape, part: &Shape, kind: Kind, span: Span) -> Along
    requires numbers { IsOfNumbers kind }
    requires some { span.from < span.to }
    requires within { span.to ≤ extent (numbers_along kind shape.now) }
    requires all { HasNumbersOf shape.now part.now }
    ensures { LiesAlong same_number (numbers_along kind shape.now) (numbers_along kind part.now)
        span result }
{
    match (shape.count(kind), part.count(kind)) {
        (None, None) => Along::From(0),
        (None, Some(_)) => Along::Apart,
        (Some(_), None) => Along::Apart,
        (Some(_), Some(_)) => {
            let labels = shape.labels(kind);
            numbers_among(&labels[span.from as usize..span.to as usize], part, kind)
        }
    }
}

/// The part has none of these bands.
#[tactic(auto, using(crate::proofs::PlaceLemmas::none_of))]
fn has_none(names: &[Text], part: &Shape) -> bool
    ensures { result ≡ true → LieAmong same_name names.now (band_names part.now) Along.Apart }
{
    for index in 0..names.len() {
        if part.band_position(&names[index]).is_some() {
            return false;
        }
    }
    true
}

/// How names lie among the bands of a part.
#[tactic(auto, using(crate::proofs::PlaceLemmas::single_from, crate::proofs::PlaceLemmas::single_apart))]
fn names_among(names: &[Text], part: &Shape) -> Along
    requires some { 0 < length names.now }
    ensures { LieAmong same_name names.now (band_names part.now) result }
{
    if names.len() == 1 {
        return match part.band_position(&names[0]) {
            Some(first) => Along::From(first),
            None => Along::Apart,
        };
    }
    match part.band_position(&names[0]) {
        Some(first) => {
            if names_stand_from(names, part.bands(), first as usize) {
                Along::From(first)
            } else {
                Along::Across
            }
        }
        None => {
            if has_none(names, part) {
                Along::Apart
            } else {
                Along::Across
            }
        }
    }
}

/// How the bands at the indices of a span lie in a part.
#[tactic(auto, using(crate::proofs::PlaceLemmas::bands_missing, crate::proofs::PlaceLemmas::bands_both, crate::proofs::PlaceLemmas::bands_left, crate::proofs::PlaceLemmas::bands_right))]
fn bands_along(shape: &Shape, part: &Shape, span: Span) -> Along
    requires some { span.from < span.to }
    requires within { span.to ≤ extent shape.now.bands }
    ensures { LiesAlong same_name shape.now.bands part.now.bands span result }
{
    match (shape.count(Kind::Bands), part.count(Kind::Bands)) {
        (None, None) => Along::From(0),
        (None, Some(_)) => Along::Apart,
        (Some(_), None) => Along::Apart,
        (Some(_), Some(_)) => {
            let names = shape.bands();
            names_among(&names[span.from as usize..span.to as usize], part)
        }
    }
}

/// How the spans of a window of a cube lie in a part.
fn sides_of(shape: &Shape, part: &Shape, window: &Window) -> Sides
    requires inside { Holds (whole_window shape.now) window.now }
    requires filled { ¬ IsEmpty window.now }
    requires all { HasNumbersOf shape.now part.now }
    ensures { LieAlong shape.now part.now window.now result }
{
    Sides {
        t: numbers_along(shape, part, Kind::Time, window.t),
        bands: bands_along(shape, part, window.bands),
        y: numbers_along(shape, part, Kind::Y, window.y),
        x: numbers_along(shape, part, Kind::X, window.x),
    }
}

fn is_apart(along: Along) -> bool
    ensures { result ≡ is_apart along }
{
    match along {
        Along::Apart => true,
        Along::From(_) => false,
        Along::Across => false,
    }
}

fn is_across(along: Along) -> bool
    ensures { result ≡ is_across along }
{
    match along {
        Along::Apart => false,
        Along::From(_) => false,
        Along::Across => true,
    }
}

/// The part has no label of one of the spans.
fn has_apart(sides: Sides) -> bool
    ensures { result ≡ has_apart sides }
{
    is_apart(sides.t) || is_apart(sides.bands) || is_apart(sides.y) || is_apart(sides.x)
}

/// The labels of one of the spans do not stand one behind the other in the part.
fn has_across(sides: Sides) -> bool
    ensures { result ≡ has_across sides }
{
    is_across(sides.t) || is_across(sides.bands) || is_across(sides.y) || is_across(sides.x)
}

/// The indices of a part where those of a span stand.
fn span_in_part(along: Along, span: Span) -> Span
    requires { first_index along + span_length span ≤ 65536 }
    ensures { result ≡ span_in_part along span }
{
    let first = match along {
        Along::From(first) => first,
        _ => 0,
    };
    Span {
        from: first,
        to: first + span.to.saturating_sub(span.from),
    }
}

/// The part has none of the tuples of a window, by the ends of its labels alone. This is looked at first: most tiles of a
/// mosaic lie beside a window.
#[tactic(auto, using(crate::proofs::PlaceLemmas::apart_along_y, crate::proofs::PlaceLemmas::apart_along_x, crate::proofs::PlaceLemmas::apart_along_t))]
fn is_beside(shape: &Shape, part: &Shape, window: &Window) -> bool
    requires inside { Holds (whole_window shape.now) window.now }
    requires filled { ¬ IsEmpty window.now }
    ensures { result ≡ true → HasNoTupleOf shape.now part.now window.now }
{
    is_beside_along(shape, part, Kind::Y, window.y)
        || is_beside_along(shape, part, Kind::X, window.x)
        || is_beside_along(shape, part, Kind::Time, window.t)
}

/// How a window of a cube, which has all labels of the part, lies in the part.
#[tactic(auto, using(crate::proofs::PlaceLemmas::across_lies, crate::proofs::PlaceLemmas::box_lies))]
pub fn place_of(shape: &Shape, part: &Shape, window: &Window) -> Place
    requires inside { Holds (whole_window shape.now) window.now }
    requires filled { ¬ IsEmpty window.now }
    requires all { HasNumbersOf shape.now part.now }
    ensures { LiesIn shape.now part.now window.now result }
{
    if is_beside(shape, part, window) {
        return Place::Apart;
    }
    let sides = sides_of(shape, part, window);
    if has_apart(sides) {
        return Place::Apart;
    }
    if has_across(sides) {
        return Place::Across;
    }
    let _epsg = part.epsg();
    Place::Box(Window {
        t: span_in_part(sides.t, window.t),
        bands: span_in_part(sides.bands, window.bands),
        y: span_in_part(sides.y, window.y),
        x: span_in_part(sides.x, window.x),
    })
}
