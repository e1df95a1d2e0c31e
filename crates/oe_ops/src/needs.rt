// The least window of an argument that a window of a result needs.
ghost use Rattle.std.specs.Prelude.{◌≡◌, ◌∷◌, [], ◌+◌, ◌^◌, ◌<◌, ◌≤◌, IfSome};
ghost use Rattle.oe_cell.specs.Fraction.{Fraction};
ghost use Rattle.oe_dims.specs.Dimensions.{IsShape};
ghost use Rattle.oe_dims.specs.declared.kind.Kind.{Kind};
ghost use Rattle.oe_requests.specs.Extents.{Restriction, shape_of_restriction};
ghost use Rattle.oe_requests.specs.Operations.{convolve};
ghost use Rattle.oe_check.specs.Reach.{is_wrap, same_kind};
ghost use Rattle.oe_window.specs.Windows.{Holds, IsAlong, IsEmpty, extent_along, span_at, span_below, whole_window};
ghost use Rattle.oe_ops.specs.Indices.{index_in_argument};
ghost use Rattle.oe_ops.specs.Loads.{GivesPlane};
ghost use Rattle.oe_ops.specs.Needs.{HasLabelsBeside, HasLabelsOf, IsNeed, Needs, plane_window, zero_window};
ghost use Rattle.oe_ops.specs.Spans.{IsAnyOf, IsBeside, IsLabelAt, IsReached, IsSpanOf};
ghost use Rattle.oe_ops.specs.Spans.{product, with_found, with_index};

use crate::source::index_in;
use oe_dims::{Kind, Shape};
use oe_kernel::{Border, Kernel};
use oe_window::{Span, Window};

/// No index.
fn no_index() -> Span
    ensures { result ≡ span_below 0 }
{
    Span { from: 0, to: 0 }
}

/// The window without a position, which stands where nothing is needed.
fn zero() -> Window
    ensures { result ≡ zero_window }
{
    Window {
        t: no_index(),
        bands: no_index(),
        y: no_index(),
        x: no_index(),
    }
}

/// The window of four spans; the zero window where one has no index.
fn window_of(t: Span, bands: Span, y: Span, x: Span) -> Window
    ensures filled { ¬ IsEmpty (product t bands y x) → result ≡ product t bands y x }
    ensures empty { IsEmpty (product t bands y x) → result ≡ zero_window }
{
    let window = Window { t, bands, y, x };
    if window.is_empty() { zero() } else { window }
}

/// A span with one more index.
fn with_index(span: Span, index: u32) -> Span
    requires { index + 1 < 2 ^ 32 }
    ensures { result ≡ with_index span index }
{
    if span.from >= span.to {
        return Span {
            from: index,
            to: index + 1,
        };
    }
    Span {
        from: span.from.min(index),
        to: span.to.max(index + 1),
    }
}

/// How many indices a cube has along a dimension.
pub(crate) fn extent(shape: &Shape, along: Kind) -> u32
    ensures value { result ≡ extent_along shape.now along }
    ensures most { result ≤ 65536 }
    ensures valid { IsShape shape.now }
{
    match shape.count(along) {
        None => 1,
        Some(count) => count,
    }
}

/// A span with the index in the argument of one more label, where it has that label.
fn with_label(found: Span, shape: &Shape, argument: &Shape, along: Kind, index: u32) -> Span
    requires valid { IsShape argument.now }
    requires within { index < extent_along shape.now along }
    ensures { result ≡ with_found (index_in_argument along shape.now argument.now index) found }
{
    match index_in(shape, argument, along, index) {
        None => found,
        Some(other) => with_index(found, other),
    }
}

/// The least span of the argument with the index of each label at a span of the result.
fn labels_in(shape: &Shape, argument: &Shape, along: Kind, span: Span) -> Span
    requires valid { IsShape argument.now }
    requires some { span.from < span.to }
    requires within { span.to ≤ extent_along shape.now along }
    ensures { IsSpanOf (IsLabelAt along shape.now argument.now) span result }
{
    match labels_between(shape, argument, along, span) {
        Some(found) => found,
        None => each_label_in(shape, argument, along, span),
    }
}

/// The same by the first and the last label, where the argument has both and labels stand in order: along `t`, `y` and
/// `x` those between are found between.
fn labels_between(shape: &Shape, argument: &Shape, along: Kind, span: Span) -> Option<Span>
    requires valid { IsShape argument.now }
    requires some { span.from < span.to }
    requires within { span.to ≤ extent_along shape.now along }
    ensures { IfSome result (IsSpanOf (IsLabelAt along shape.now argument.now) span) }
{
    if is_same(along, Kind::Bands) {
        return None;
    }
    let first = index_in(shape, argument, along, span.from)?;
    let last = index_in(shape, argument, along, span.to - 1)?;
    Some(Span {
        from: first,
        to: last + 1,
    })
}

/// The same by each label.
fn each_label_in(shape: &Shape, argument: &Shape, along: Kind, span: Span) -> Span
    requires valid { IsShape argument.now }
    requires some { span.from < span.to }
    requires within { span.to ≤ extent_along shape.now along }
    ensures { IsSpanOf (IsLabelAt along shape.now argument.now) span result }
{
    let mut found = no_index();
    for index in span.from..span.to {
        found = with_label(found, shape, argument, along, index);
    }
    found
}

/// All indices of the argument.
fn all_of(argument: &Shape, along: Kind, span: Span) -> Span
    requires { span.from < span.to }
    ensures { IsSpanOf (IsAnyOf (extent_along argument.now along)) span result }
{
    let _span = span;
    Span {
        from: 0,
        to: extent(argument, along),
    }
}

/// Whether two dimensions are one.
fn is_same(one: Kind, two: Kind) -> bool
    ensures { result ≡ same_kind one two }
{
    match one {
        Kind::Time => match two {
            Kind::Time => true,
            _ => false,
        },
        Kind::Bands => match two {
            Kind::Bands => true,
            _ => false,
        },
        Kind::Y => match two {
            Kind::Y => true,
            _ => false,
        },
        Kind::X => match two {
            Kind::X => true,
            _ => false,
        },
    }
}

/// The least span with the index of each label, and with all indices along the dimension that is reduced.
fn beside_in(reduced: Kind, shape: &Shape, argument: &Shape, along: Kind, span: Span) -> Span
    requires valid { IsShape argument.now }
    requires within { span.to ≤ extent_along shape.now along }
    requires some { span.from < span.to }
    ensures { IsSpanOf (IsBeside (same_kind reduced along) along shape.now argument.now) span
        result }
{
    if is_same(reduced, along) {
        all_of(argument, along, span)
    } else {
        labels_in(shape, argument, along, span)
    }
}

/// The least span with the indices of a side that are needed for those of a span: all of them, or those at most so far
/// away.
fn near_in(whole: bool, reach: u32, side: u32, span: Span) -> Span
    requires within { span.to ≤ side }
    requires some { span.from < span.to }
    requires most { side ≤ 65536 }
    requires reach_most { reach ≤ 65536 }
    ensures { IsSpanOf (IsReached whole reach side) span result }
{
    if whole {
        Span { from: 0, to: side }
    } else {
        Span {
            from: span.from.saturating_sub(reach),
            to: side.min(span.to + reach),
        }
    }
}

/// Whether the pixels of the other end stand for those outside.
fn is_wrap(border: Border) -> bool
    ensures { result ≡ is_wrap border }
{
    match border {
        Border::Wrap => true,
        _ => false,
    }
}

/// What a window of a result of this shape needs of an argument by its labels (filters, `apply`, `merge_cubes`, `mask`,
/// `save_result` of openEO Processes): the zero window where that is nothing.
pub fn need_labels(shape: &Shape, argument: &Shape, window: &Window) -> Window
    requires valid { IsShape argument.now }
    requires within { Holds (whole_window shape.now) window.now }
    ensures { IsNeed (HasLabelsOf shape.now argument.now) window.now result }
{
    if window.is_empty() {
        return zero();
    }
    window_of(
        labels_in(shape, argument, Kind::Time, window.t),
        labels_in(shape, argument, Kind::Bands, window.bands),
        labels_in(shape, argument, Kind::Y, window.y),
        labels_in(shape, argument, Kind::X, window.x),
    )
}

/// The same with all labels of one dimension (`reduce_dimension`, and `aggregate_temporal` along `t`).
pub fn need_beside(reduced: Kind, shape: &Shape, argument: &Shape, window: &Window) -> Window
    requires valid { IsShape argument.now }
    requires within { Holds (whole_window shape.now) window.now }
    ensures { IsNeed (HasLabelsBeside reduced shape.now argument.now) window.now result }
{
    if window.is_empty() {
        return zero();
    }
    window_of(
        beside_in(reduced, shape, argument, Kind::Time, window.t),
        beside_in(reduced, shape, argument, Kind::Bands, window.bands),
        beside_in(reduced, shape, argument, Kind::Y, window.y),
        beside_in(reduced, shape, argument, Kind::X, window.x),
    )
}

/// What a window of the result of a kernel needs of a cube of this shape (`apply_kernel`): its pixels with those that
/// the kernel reaches, and the whole sides where the border wraps.
pub fn need_pixels(kernel: &Kernel, border: Border, shape: &Shape, window: &Window) -> Window
    requires within { Holds (whole_window shape.now) window.now }
    ensures { (factor replace : Fraction) → IsNeed
        (Needs (convolve kernel.now factor border replace) (shape.now ∷ []) 0) window.now result }
{
    if window.is_empty() {
        return zero();
    }
    let wraps = is_wrap(border);
    window_of(
        near_in(false, 0, extent(shape, Kind::Time), window.t),
        near_in(false, 0, extent(shape, Kind::Bands), window.bands),
        near_in(wraps, kernel.radius_y(), extent(shape, Kind::Y), window.y),
        near_in(wraps, kernel.radius_x(), extent(shape, Kind::X), window.x),
    )
}

/// An index of a span by itself.
pub(crate) fn span_at(span: Span, index: u32) -> Span
    requires { IsAlong span index }
    ensures { result ≡ span_at index }
{
    let _end = span.to;
    Span {
        from: index,
        to: index + 1,
    }
}

/// What one plane of a window of a load's result, at the indices `t` and `band`, needs of the collection
/// (`load_collection`): a plane that lists the same cells, and the zero window where that is nothing, as of a band that
/// the collection lacks; then the cells are null.
pub fn source_window(
    shape: &Shape,
    collection: &Shape,
    t: u32,
    band: u32,
    window: &Window,
) -> Window
    requires valid { IsShape collection.now }
    requires within { Holds (whole_window shape.now) window.now }
    requires t_in { IsAlong window.now.t t }
    requires band_in { IsAlong window.now.bands band }
    ensures need { IsNeed (HasLabelsOf shape.now collection.now) (plane_window window.now t band)
        result }
    ensures plane { (r : Restriction) → shape_of_restriction r collection.now ≡ shape.now
        → GivesPlane collection.now shape.now r (plane_window window.now t band) result }
{
    let plane = Window {
        t: span_at(window.t, t),
        bands: span_at(window.bands, band),
        y: window.y,
        x: window.x,
    };
    need_labels(shape, collection, &plane)
}
