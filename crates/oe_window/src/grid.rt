// The chunks of a shape.
ghost use Rattle.std.specs.Prelude.{◌≡◌, ◌↔◌, ◌<◌, ◌≤◌, ◌^◌};
ghost use Rattle.oe_dims.specs.Dimensions.{cell_count};
ghost use Rattle.oe_dims.specs.Positions.{Position, IsPosition};
ghost use Rattle.oe_window.specs.Windows.{IsIn};
ghost use Rattle.oe_window.specs.Chunks.{Tiling, IsTiling, IsSide, IsInside, FitsSides, PartNumbers, tiling_of};
ghost use Rattle.oe_window.specs.Chunks.{parts_along, part_span, chunk_count, chunk_number, chunk_numbers, chunk_window};

use crate::window::extent_of;
use crate::{Span, Window};
use oe_dims::{Kind, Shape};
use std::marker::Model;

/// The most labels that a chunk takes along `x`, `y` and `t`, each from 1 to 4096.
#[derive(Clone, Copy, PartialEq, Eq)]
pub struct ChunkSize {
    pub x: u32,
    pub y: u32,
    pub t: u32,
}

/// A shape that is parted into chunks, counted with `x` fastest, then `y`, then `t`. Bands are never cut.
#[derive(Drop)]
pub struct Grid {
    t: u32,
    bands: u32,
    y: u32,
    x: u32,
    size: ChunkSize,
}

impl Model for Grid {
    ghost use Rattle.oe_window.specs.Chunks.{Tiling, tiling};

    ghost Value = { Tiling };

    ghost use Rattle.oe_window.specs.Chunks.{IsTiling};

    ghost view = { λ g. tiling g.t g.bands g.y g.x g.size };

    ghost invariant = { λ g. IsTiling (tiling g.t g.bands g.y g.x g.size) };
}

fn parts(indices: u32, side: u32) -> u64
    requires { IsSide side }
    ensures value { result ≡ parts_along indices side }
    ensures most { result ≤ indices }
{
    (u64::from(indices) + u64::from(side) - 1) / u64::from(side)
}

fn part(indices: u32, side: u32, number: u64) -> Span
    requires side { IsSide side }
    requires number { number < parts_along indices side }
    ensures { result ≡ part_span indices side number }
{
    let from = number * u64::from(side);
    let to = (from + u64::from(side)).min(u64::from(indices));
    Span {
        from: from as u32,
        to: to as u32,
    }
}

impl Grid {
    /// The grid of a shape whose chunks have sides of at most this size.
    pub fn new(shape: &Shape, size: ChunkSize) -> Grid
        requires x { IsSide size.x }
        requires y { IsSide size.y }
        requires t { IsSide size.t }
        // The positions of the shape, and each of its numbers in one chunk, once.
        ensures value { result ≡ tiling_of shape.now size }
        ensures inside { (p : Position) → IsInside result p ↔ IsPosition shape.now p }
        ensures numbers { PartNumbers (chunk_count result) (chunk_numbers shape.now result)
            (cell_count shape.now) }
    {
        Grid {
            t: extent_of(shape, Kind::Time),
            bands: extent_of(shape, Kind::Bands),
            y: extent_of(shape, Kind::Y),
            x: extent_of(shape, Kind::X),
            size,
        }
    }

    /// How many chunks there are: each position of the shape lies in the one of its number.
    pub fn count(&self) -> u64
        ensures value { result ≡ chunk_count self.now }
        ensures numbered { (p : Position) → IsInside self.now p → chunk_number self.now p < result }
        ensures most { result ≤ 2 ^ 48 }
        ensures valid { IsTiling self.now }
    {
        if self.bands == 0 {
            return 0;
        }
        let planes = parts(self.t, self.size.t);
        planes * parts(self.y, self.size.y) * parts(self.x, self.size.x)
    }

    /// The chunk of a number: exactly the positions of the shape that have that number, of which there is one.
    pub fn chunk(&self, k: u64) -> Window
        requires { k < chunk_count self.now }
        // Exactly the positions of that number, within the sides.
        ensures value { result ≡ chunk_window self.now k }
        ensures positions { (p : Position) →
            IsIn result p ↔ (IsInside self.now p × (chunk_number self.now p ≡ k)) }
        ensures filled { (p : Position) × IsIn result p }
        ensures sides { FitsSides self.now result }
    {
        let columns = parts(self.x, self.size.x);
        let rows = parts(self.y, self.size.y);
        Window {
            t: part(self.t, self.size.t, k / columns / rows),
            bands: Span {
                from: 0,
                to: self.bands,
            },
            y: part(self.y, self.size.y, k / columns % rows),
            x: part(self.x, self.size.x, k % columns),
        }
    }
}
