// The row-major numbers of a window, as runs.
ghost use Rattle.std.specs.Prelude.{◌≡◌};
ghost use Rattle.std.specs.List.{sum_by};
ghost use Rattle.oe_dims.specs.Dimensions.{IsShape, cell_count};
ghost use Rattle.oe_window.specs.Windows.{Holds, IsEmpty, position_count, whole_window};
ghost use Rattle.oe_window.specs.Runs.{laid, window_numbers, AreFilled, EndWithin, AreApart, AreRising};
ghost use Rattle.oe_window.specs.Layouts.{Fits, IsSpread, all_runs, window_sides, cube_sides, first_number};

use crate::Window;
use crate::layout::{Layout, Sides};
use crate::window::extent_of;
use oe_dims::{Kind, Shape};
use std::marker::Model;

/// The runs of numbers that are still to come, each a first number and a length.
#[derive(Drop)]
pub struct RunList {
    layout: Layout,
    done: u64,
    left: u64,
}

impl Model for RunList {
    ghost use Rattle.std.specs.Prelude.{ℕ, ◌+◌, ◌≤◌, List};

    ghost Value = { List (ℕ × ℕ) };

    ghost use Rattle.oe_window.specs.Layouts.{Fits, run_count, runs_from};

    ghost view = { λ r. runs_from r.layout r.done r.left };

    ghost invariant = { λ r. Fits r.layout × (r.done + r.left ≤ run_count r.layout) };
}

impl Iterator for RunList {
    ghost use Rattle.std.specs.Iterator.{YieldsFirst, item_count};

    type Item = (u64, u64);

    ghost next_gives = { YieldsFirst (λ runs. runs) };

    ghost remaining = { item_count (λ runs. runs) };

    fn next(&mut self) -> Option<(u64, u64)> {
        if self.left == 0 {
            return None;
        }
        let first = self.layout.first_of_run(self.done);
        self.done += 1;
        self.left -= 1;
        Some((first, self.layout.length))
    }
}

fn sides_of(window: &Window) -> Sides
    ensures { result ≡ window_sides window.now }
{
    Sides {
        t: window.t.length(),
        bands: window.bands.length(),
        y: window.y.length(),
        x: window.x.length(),
    }
}

fn cube_of(shape: &Shape) -> Sides
    ensures sides { result ≡ cube_sides shape.now }
    ensures valid { IsShape shape.now }
{
    Sides {
        t: u64::from(extent_of(shape, Kind::Time)),
        bands: u64::from(extent_of(shape, Kind::Bands)),
        y: u64::from(extent_of(shape, Kind::Y)),
        x: u64::from(extent_of(shape, Kind::X)),
    }
}

fn first_number(window: &Window, shape: &Shape) -> u64
    requires within { Holds (whole_window shape.now) window.now }
    requires filled { ¬ IsEmpty window.now }
    ensures { result ≡ first_number shape.now window.now }
{
    let cube = cube_of(shape);
    let band = u64::from(window.t.from) * cube.bands + u64::from(window.bands.from);
    let row = band * cube.y + u64::from(window.y.from);
    row * cube.x + u64::from(window.x.from)
}

fn layout_of(window: &Window, shape: &Shape) -> Layout
    requires within { Holds (whole_window shape.now) window.now }
    requires filled { ¬ IsEmpty window.now }
    ensures fits { Fits result }
    ensures spread { IsSpread result }
    ensures numbers { laid (all_runs result) ≡ window_numbers shape.now window.now }
{
    let cube = cube_of(shape);
    Layout::of(first_number(window, shape), sides_of(window), cube)
}

/// The row-major numbers of a window in a cube of this shape, as the longest runs, in rising order.
pub fn runs(window: &Window, shape: &Shape) -> RunList
    requires { Holds (whole_window shape.now) window.now }
    // What they are laid end to end, and how long each and all of them.
    ensures numbers { laid result ≡ window_numbers shape.now window.now }
    ensures filled { AreFilled result }
    ensures within { EndWithin (cell_count shape.now) result }
    ensures lengths { sum_by (λ run. run.1) result ≡ position_count window.now }
    // No two touch.
    ensures apart { AreApart result }
    ensures rising { AreRising (window_numbers shape.now window.now) }
{
    if window.is_empty() {
        return RunList {
            layout: Layout::empty(),
            done: 0,
            left: 0,
        };
    }
    let layout = layout_of(window, shape);
    RunList {
        layout,
        done: 0,
        left: layout.count(),
    }
}
