// The planes and the rows of a window.
ghost use Rattle.std.specs.Prelude.{◌≡◌, ◌+◌, ◌*◌, ◌^◌, ◌<◌};
ghost use Rattle.oe_window.specs.Parts.{IsPartFrom, plane_count, plane_of, plane_size, row_count, row_of};
ghost use Rattle.oe_window.specs.Windows.{position_count, span_at, span_length};

use crate::{Span, Window};

/// The index so many steps along a span, alone.
fn step_along(span: Span, step: u64) -> Span
    requires { step < span_length span }
    ensures { result ≡ span_at (span.from + step) }
{
    let from = span.from + step as u32;
    Span { from, to: from + 1 }
}

impl Window {
    /// How many planes there are, each of one index along `t` and one along `bands`.
    pub fn planes(&self) -> u64
        requires { position_count self.now < 2 ^ 64 }
        ensures value { result ≡ plane_count self.now }
        ensures all { result * plane_size self.now ≡ position_count self.now }
    {
        if self.is_empty() {
            return 0;
        }
        self.t.length() * self.bands.length()
    }

    /// The plane of a number, counted with `bands` fastest: one piece of the list of positions.
    pub fn plane(&self, number: u64) -> Window
        requires { number < plane_count self.now }
        ensures value { result ≡ plane_of self.now number }
        ensures part { IsPartFrom (number * plane_size self.now) self.now result }
    {
        let bands = self.bands.length();
        Window {
            t: step_along(self.t, number / bands),
            bands: step_along(self.bands, number % bands),
            y: self.y,
            x: self.x,
        }
    }

    /// How many rows there are, each of one index along `t`, `bands` and `y`.
    pub fn rows(&self) -> u64
        requires { position_count self.now < 2 ^ 64 }
        ensures value { result ≡ row_count self.now }
        ensures all { result * span_length self.now.x ≡ position_count self.now }
    {
        if self.is_empty() {
            return 0;
        }
        self.t.length() * self.bands.length() * self.y.length()
    }

    /// The row of a number, counted with `y` fastest, then `bands`, then `t`: one piece of the list of positions.
    pub fn row(&self, number: u64) -> Window
        requires { number < row_count self.now }
        ensures value { result ≡ row_of self.now number }
        ensures part { IsPartFrom (number * span_length self.now.x) self.now result }
    {
        let lines = self.y.length();
        let bands = self.bands.length();
        Window {
            t: step_along(self.t, number / lines / bands),
            bands: step_along(self.bands, number / lines % bands),
            y: step_along(self.y, number % lines),
            x: self.x,
        }
    }
}
