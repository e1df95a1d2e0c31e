// Whether parts are all the chunks of one run, each once.
ghost use Rattle.std.specs.Prelude.{◌≡◌, ◌↔◌, ◌<◌, ◌≤◌, ℕ, IfErr, IfNone, IfSome, IsTrue, OnOk, Some, length, slice_get};
ghost use Rattle.oe_parts.specs.Head.{AreSides, PartHead as Head};
ghost use Rattle.oe_parts.specs.Parts.{heads_of};
ghost use Rattle.oe_parts.specs.Whole.{AreHeads, AreOfRun, AreWhole, Differs, HasChunk, IsCovered, IsFirstGap, IsOfRun, Overlaps, SaysMisfit, misfit_of};

use crate::head::PartHead;
use crate::part::RunPart;
use crate::parts::RunParts;
use oe_dims::{CellKind, Kind, Shape};
use oe_outside::Store;
use oe_window::{ChunkSize, Grid};

/// Why parts make no whole, with the index of the part to blame or the number of a chunk.
#[derive(Clone, Copy, PartialEq, Eq)]
pub enum Misfit {
    /// The part is of another graph.
    Graph(usize),
    /// The result that it is a part of has another kind of cells or other dimensions.
    Shape(usize),
    /// Its chunks have other sides than those of the first part.
    Sides(usize),
    /// It has a chunk that a part before it has.
    Overlap(usize),
    /// No part has the chunk of this number, of those that none has the first.
    Missing(u64),
}

/// How a part differs from those of a run.
#[derive(Clone, Copy)]
enum Difference {
    Graph,
    Shape,
    Sides,
}

impl<S: Store + Drop> RunParts<S> {
    /// Whether the parts are all the chunks of the run of a graph, each once; of a result without positions none are.
    ///
    /// Refuses: the first part in their order that is of another graph, of another result or of other sides; where
    /// there is none, the first that has a chunk of one before it; where there is none, the first chunk that is
    /// missing.
    pub fn fit(&self, graph: &[u8], kind: CellKind, shape: &Shape) -> Result<(), Misfit>
        ensures whole { OnOk result (AreWhole
            (record { graph = graph.now; kind = kind; shape = shape.now }) (heads_of self.now)) }
        ensures misfit { IfErr result (SaysMisfit
            (record { graph = graph.now; kind = kind; shape = shape.now }) (heads_of self.now)) }
    {
        let sides = first_sides(&self.items);
        match first_stranger(&self.items, sides, graph, kind, shape) {
            Some(misfit) => return Err(misfit),
            None => {}
        }
        match first_overlap(&self.items) {
            Some(index) => return Err(Misfit::Overlap(index)),
            None => {}
        }
        match first_gap(&self.items, Grid::new(shape, sides).count()) {
            Some(chunk) => Err(Misfit::Missing(chunk)),
            None => Ok(()),
        }
    }
}

/// The sides of the chunks of the first part; of no parts any will do.
fn first_sides<S: Store + Drop>(parts: &[RunPart<S>]) -> ChunkSize
    ensures valid { AreSides result }
    ensures leads { (first : Head) → slice_get (heads_of parts.now) 0 ≡ Some first
        → first.sides ≡ result }
{
    match parts.first() {
        Some(part) => part.head().sides,
        None => ChunkSize { x: 1, y: 1, t: 1 },
    }
}

// ---- parts of another run

/// The first part that is of another run, or of chunks of other sides.
fn first_stranger<S: Store + Drop>(
    parts: &[RunPart<S>],
    sides: ChunkSize,
    graph: &[u8],
    kind: CellKind,
    shape: &Shape,
) -> Option<Misfit>
    requires valid { AreSides sides }
    requires leads { (first : Head) → slice_get (heads_of parts.now) 0 ≡ Some first
        → first.sides ≡ sides }
    ensures stranger { IfSome result (SaysMisfit
        (record { graph = graph.now; kind = kind; shape = shape.now }) (heads_of parts.now)) }
    ensures none { IfNone result (AreOfRun
        (record { graph = graph.now; kind = kind; shape = shape.now }) sides
        (heads_of parts.now)) }
    ensures heads { IfNone result (AreHeads (heads_of parts.now)) }
{
    for index in 0..parts.len() {
        match first_difference(parts[index].head(), sides, graph, kind, shape) {
            None => {}
            Some(difference) => return Some(misfit_of(difference, index)),
        }
    }
    None
}

/// What a difference of the part at an index is called.
fn misfit_of(difference: Difference, index: usize) -> Misfit
    ensures { result ≡ misfit_of difference index }
{
    match difference {
        Difference::Graph => Misfit::Graph(index),
        Difference::Shape => Misfit::Shape(index),
        Difference::Sides => Misfit::Sides(index),
    }
}

/// The first difference from the parts of a run in chunks of these sides.
fn first_difference(
    head: &PartHead,
    sides: ChunkSize,
    graph: &[u8],
    kind: CellKind,
    shape: &Shape,
) -> Option<Difference>
    ensures differs { IfSome result (Differs
        (record { graph = graph.now; kind = kind; shape = shape.now }) sides head.now) }
    ensures none { IfNone result (IsOfRun
        (record { graph = graph.now; kind = kind; shape = shape.now }) sides head.now) }
{
    if head.graph.as_str().as_bytes() != graph {
        return Some(Difference::Graph);
    }
    if head.kind != kind || !same_shape(&head.shape, shape) {
        return Some(Difference::Shape);
    }
    if !same_sides(head.sides, sides) {
        return Some(Difference::Sides);
    }
    None
}

fn same_shape(a: &Shape, b: &Shape) -> bool
    ensures { IsTrue result ↔ a.now ≡ b.now }
{
    a.epsg() == b.epsg()
        && a.has_same_labels(b, Kind::Time)
        && a.has_same_labels(b, Kind::Bands)
        && a.has_same_labels(b, Kind::Y)
        && a.has_same_labels(b, Kind::X)
}

fn same_sides(a: ChunkSize, b: ChunkSize) -> bool
    ensures { IsTrue result ↔ a ≡ b }
{
    a.x == b.x && a.y == b.y && a.t == b.t
}

// ---- chunks of two parts

/// The first part that has a chunk of one before it.
fn first_overlap<S: Store + Drop>(parts: &[RunPart<S>]) -> Option<usize>
    ensures overlaps { IfSome result (λ index. Overlaps (heads_of parts.now) index
        × ((before : ℕ) → before < index → ¬ Overlaps (heads_of parts.now) before)) }
    ensures none { IfNone result ((index : ℕ) → ¬ Overlaps (heads_of parts.now) index) }
{
    for index in 0..parts.len() {
        if meets_any(parts, index) {
            return Some(index);
        }
    }
    None
}

/// Whether a part has a chunk of one before it.
fn meets_any<S: Store + Drop>(parts: &[RunPart<S>], index: usize) -> bool
    requires { index < length parts.now }
    ensures { IsTrue result ↔ Overlaps (heads_of parts.now) index }
{
    for before in 0..index {
        if meet(parts[before].head(), parts[index].head()) {
            return true;
        }
    }
    false
}

/// Whether two parts have a chunk in common.
fn meet(a: &PartHead, b: &PartHead) -> bool
    requires first { a.now.first < a.now.end }
    requires second { b.now.first < b.now.end }
    ensures { IsTrue result ↔ (k : ℕ) × HasChunk a.now k × HasChunk b.now k }
{
    a.first < b.end && b.first < a.end
}

// ---- chunks of no part

/// The first of so many chunks that no part has.
fn first_gap<S: Store + Drop>(parts: &[RunPart<S>], total: u64) -> Option<u64>
    ensures gap { IfSome result (IsFirstGap (heads_of parts.now) total) }
    ensures none { IfNone result ((k : ℕ) → k < total → IsCovered (heads_of parts.now) k) }
{
    let mut next = 0;
    while next < total {
        match end_past(parts, next) {
            Some(end) => next = end,
            None => return Some(next),
        }
    }
    None
}

/// The end of a part that has a chunk.
fn end_past<S: Store + Drop>(parts: &[RunPart<S>], chunk: u64) -> Option<u64>
    ensures end { IfSome result (λ end. (chunk < end) × ((k : ℕ) → k < end →
        chunk ≤ k → IsCovered (heads_of parts.now) k)) }
    ensures none { IfNone result (¬ IsCovered (heads_of parts.now) chunk) }
{
    for index in 0..parts.len() {
        let head = parts[index].head();
        if head.first <= chunk && chunk < head.end {
            return Some(head.end);
        }
    }
    None
}
