// A window cut in two.
ghost use Rattle.std.specs.Prelude.{◌≡◌, ◌<◌, true, false};
ghost use Rattle.oe_mosaic.specs.Places.{AreHalves, AreHalvesOfSpan, IsSingle, side_sum};
ghost use Rattle.oe_window.specs.Windows.{IsEmpty, span_length};

use oe_window::{Span, Window};

/// How many indices a span has.
pub fn length(span: Span) -> u32
    ensures { result ≡ span_length span }
{
    span.to.saturating_sub(span.from)
}

/// Whether a window has one position at most along each dimension.
pub fn is_single(window: &Window) -> bool
    ensures single { result ≡ true → IsSingle window.now }
    ensures several { ¬ IsEmpty window.now → result ≡ false → 4 < side_sum window.now }
{
    length(window.t) <= 1
        && length(window.bands) <= 1
        && length(window.y) <= 1
        && length(window.x) <= 1
}

/// How many indices of a span go to its front: so many, where these are more than a 32nd of all and some are left behind
/// them, and else half of all. A seam near the front is left to a later cut, so that cuts go no deeper than some hundreds.
fn front_length(span: Span, seam: usize) -> u32
    requires { 1 < span_length span }
    ensures some { 0 < result }
    ensures less { result < span_length span }
{
    let all = length(span);
    if ((all / 32) as usize) < seam && seam < all as usize {
        seam as u32
    } else {
        all / 2
    }
}

/// A span cut behind so many indices, or in its middle.
fn halves_of_span(span: Span, seam: usize) -> (Span, Span)
    requires { 1 < span_length span }
    ensures { AreHalvesOfSpan span result.0 result.1 }
{
    let cut = span.from + front_length(span, seam);
    (
        Span {
            from: span.from,
            to: cut,
        },
        Span {
            from: cut,
            to: span.to,
        },
    )
}

fn with_t(window: &Window, span: Span) -> Window
    ensures { result ≡ record window.now { t = span } }
{
    Window {
        t: span,
        bands: window.bands,
        y: window.y,
        x: window.x,
    }
}

fn with_bands(window: &Window, span: Span) -> Window
    ensures { result ≡ record window.now { bands = span } }
{
    Window {
        t: window.t,
        bands: span,
        y: window.y,
        x: window.x,
    }
}

fn with_y(window: &Window, span: Span) -> Window
    ensures { result ≡ record window.now { y = span } }
{
    Window {
        t: window.t,
        bands: window.bands,
        y: span,
        x: window.x,
    }
}

fn with_x(window: &Window, span: Span) -> Window
    ensures { result ≡ record window.now { x = span } }
{
    Window {
        t: window.t,
        bands: window.bands,
        y: window.y,
        x: span,
    }
}

/// A window of several positions, cut along its outermost dimension with several indices: so the positions of the first
/// half come before those of the second. It is cut behind so many indices, or in the middle where these are few or all.
#[tactic(auto, using(crate::proofs::HalfLemmas::cut_t_is, crate::proofs::HalfLemmas::cut_b_is, crate::proofs::HalfLemmas::cut_y_is, crate::proofs::HalfLemmas::cut_x_is))]
pub fn halves(window: &Window, seam: usize) -> (Window, Window)
    requires filled { ¬ IsEmpty window.now }
    requires several { 4 < side_sum window.now }
    ensures { AreHalves window.now result.0 result.1 }
{
    if length(window.t) > 1 {
        let (front, back) = halves_of_span(window.t, seam);
        return (with_t(window, front), with_t(window, back));
    }
    if length(window.bands) > 1 {
        let (front, back) = halves_of_span(window.bands, seam);
        return (with_bands(window, front), with_bands(window, back));
    }
    if length(window.y) > 1 {
        let (front, back) = halves_of_span(window.y, seam);
        return (with_y(window, front), with_y(window, back));
    }
    let (front, back) = halves_of_span(window.x, seam);
    (with_x(window, front), with_x(window, back))
}
