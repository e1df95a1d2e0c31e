// Windows as sets of positions.
ghost use Rattle.std.specs.Prelude.{◌≡◌, ◌↔◌, ℕ, ◌^◌, ◌<◌, ◌≤◌, min, max, length, slice_get, Some, IsTrue};
ghost use Rattle.oe_dims.specs.Dimensions.{IsShape, cell_count, most_labels};
ghost use Rattle.oe_dims.specs.Positions.{Position, IsPosition, number_of};
ghost use Rattle.oe_window.specs.Windows.{IsIn, IsEmpty, Holds, extent_along, whole_window, span_length};
ghost use Rattle.oe_window.specs.Windows.{positions, position_count, number_in};

use oe_dims::{Kind, Shape};

/// Indices along one dimension: from the index `from` on, and before `to`.
#[derive(Clone, Copy, PartialEq, Eq)]
pub struct Span {
    pub from: u32,
    pub to: u32,
}

impl Span {
    fn is_empty(self) -> bool
        ensures { IsTrue result ↔ (self.to ≤ self.from) }
    {
        self.to <= self.from
    }

    pub(crate) fn count(self) -> u32
        ensures { result ≡ span_length self }
    {
        self.to.saturating_sub(self.from)
    }

    pub(crate) fn length(self) -> u64
        ensures { result ≡ span_length self }
    {
        u64::from(self.count())
    }

    fn is_within(self, other: Span) -> bool
        ensures { IsTrue result ↔ ((other.from ≤ self.from) × (self.to ≤ other.to)) }
    {
        other.from <= self.from && self.to <= other.to
    }
}

/// The positions whose indices lie in the four spans. A missing dimension has the span 0 to 1.
#[derive(Clone, Copy, PartialEq, Eq)]
pub struct Window {
    pub t: Span,
    pub bands: Span,
    pub y: Span,
    pub x: Span,
}

impl Window {
    /// Whether no position lies in it.
    pub fn is_empty(&self) -> bool
        ensures { IsTrue result ↔ IsEmpty self.now }
    {
        self.t.is_empty() | self.bands.is_empty() | self.y.is_empty() | self.x.is_empty()
    }
}

/// How many indices a cube has along a dimension: one for each label, and 1 where it lacks the dimension.
pub fn extent_of(shape: &Shape, kind: Kind) -> u32
    ensures value { result ≡ extent_along shape.now kind }
    ensures most { result ≤ most_labels }
    ensures valid { IsShape shape.now }
{
    match shape.count(kind) {
        None => 1,
        Some(count) => count,
    }
}

fn span_of(shape: &Shape, kind: Kind) -> Span
    ensures first { result.from ≡ 0 }
    ensures end { result.to ≡ extent_along shape.now kind }
{
    Span {
        from: 0,
        to: extent_of(shape, kind),
    }
}

/// All positions of a cube of this shape.
pub fn whole(shape: &Shape) -> Window
    // Its positions are those of the shape, by the same numbers.
    ensures value { result ≡ whole_window shape.now }
    ensures positions { (p : Position) → IsIn result p ↔ IsPosition shape.now p }
    ensures numbers { (p : Position) → number_in result p ≡ number_of shape.now p }
    ensures count { position_count result ≡ cell_count shape.now }
{
    Window {
        t: span_of(shape, Kind::Time),
        bands: span_of(shape, Kind::Bands),
        y: span_of(shape, Kind::Y),
        x: span_of(shape, Kind::X),
    }
}

fn span_hull(a: Span, b: Span) -> Span
    ensures first { result.from ≡ min a.from b.from }
    ensures end { result.to ≡ max a.to b.to }
{
    Span {
        from: a.from.min(b.from),
        to: a.to.max(b.to),
    }
}

fn span_meet(a: Span, b: Span) -> Span
    ensures first { result.from ≡ max a.from b.from }
    ensures end { result.to ≡ min a.to b.to }
{
    Span {
        from: a.from.max(b.from),
        to: a.to.min(b.to),
    }
}

/// The least window that holds both. Where one is empty it is the other one, and where both are, the second.
pub fn hull(a: &Window, b: &Window) -> Window
    // One that is empty adds nothing.
    ensures first_empty { IsEmpty a.now → result ≡ b.now }
    ensures second_empty { ¬ IsEmpty a.now → IsEmpty b.now → result ≡ a.now }
    // It is the least of those that hold both.
    ensures holds_first { Holds result a.now }
    ensures holds_second { Holds result b.now }
    ensures least { (window : _) → Holds window a.now → Holds window b.now → Holds window result }
{
    if a.is_empty() {
        return *b;
    }
    if b.is_empty() {
        return *a;
    }
    Window {
        t: span_hull(a.t, b.t),
        bands: span_hull(a.bands, b.bands),
        y: span_hull(a.y, b.y),
        x: span_hull(a.x, b.x),
    }
}

/// The window of exactly the positions that both hold.
pub fn meet(a: &Window, b: &Window) -> Window
    ensures { (p : Position) → IsIn result p ↔ (IsIn a.now p × IsIn b.now p) }
{
    Window {
        t: span_meet(a.t, b.t),
        bands: span_meet(a.bands, b.bands),
        y: span_meet(a.y, b.y),
        x: span_meet(a.x, b.x),
    }
}

/// How many positions the window has: as many as the list of its positions, in which each has its row-major number.
pub fn size(window: &Window) -> u64
    requires { position_count window.now < 2 ^ 64 }
    ensures value { result ≡ position_count window.now }
    ensures empty { (result ≡ 0) ↔ IsEmpty window.now }
    // The list of the positions, and where each stands in it.
    ensures listed { result ≡ length (positions window.now) }
    ensures numbered { (k : ℕ) (p : Position) →
        (slice_get (positions window.now) k ≡ Some p)
        ↔ (IsIn window.now p × (k ≡ number_in window.now p)) }
{
    if window.is_empty() {
        return 0;
    }
    window.t.length() * window.bands.length() * window.y.length() * window.x.length()
}

/// Whether each position of the second window lies in the first.
pub fn holds(a: &Window, b: &Window) -> bool
    ensures value { IsTrue result ↔ Holds a.now b.now }
    ensures fewer { Holds a.now b.now → position_count b.now ≤ position_count a.now }
{
    if b.is_empty() {
        return true;
    }
    b.t.is_within(a.t) & b.bands.is_within(a.bands) & b.y.is_within(a.y) & b.x.is_within(a.x)
}
