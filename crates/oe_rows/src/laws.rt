//! What callers conclude from the laws of shapes, instants, windows and grids: each contract here follows from clauses
//! of the calls in the body alone, named above it.
ghost use Rattle.std.specs.Prelude.{◌≡◌, ◌↔◌, ◌<◌, ◌≤◌, ◌^◌, ℕ, length, slice_get, Some, IsTrue, IfOk, IfErr};
ghost use Rattle.oe_dims.specs.Cube.{Tuple, IsTuple, at};
ghost use Rattle.oe_dims.specs.Dimensions.{cell_count, number_labels};
ghost use Rattle.oe_dims.specs.Instant.{instant_read};
ghost use Rattle.oe_dims.specs.Rules.{IsInOrder};
ghost use Rattle.oe_dims.specs.declared.kind.Kind.{Kind};
ghost use Rattle.oe_dims.specs.declared.shape.ShapeFault.{ShapeFault};
ghost use Rattle.oe_window.specs.Chunks.{IsSide, chunk_numbers};
ghost use Rattle.oe_window.specs.Windows.{IsEmpty, position_count};

use oe_dims::{InstantFault, Kind, Shape, ShapeFault, print_instant, read_instant};
use oe_window::{ChunkSize, Grid, Window, size, whole};

/// A label is found at the index at which it stands (`value` of `label_at`, `exact` of `position_of`).
pub fn found_again(shape: &Shape, kind: Kind, index: u32) -> Option<u32>
    requires { index < length (number_labels shape.now kind) }
    ensures { result ≡ Some index }
{
    shape.position_of(kind, shape.label_at(kind, index))
}

/// Where a shape is refused for its code, its instants rise: they are judged before it (`first` of `Shape::new`).
pub fn with_times(code: u32, times: Vec<i64>) -> Result<Shape, ShapeFault>
    ensures { IfErr result (λ fault. fault ≡ ShapeFault.EpsgWrong
        → IsInOrder Kind.Time times.items) }
{
    Shape::new(code, Some(times), None, None, None)
}

/// Cells of two cubes of one shape that agree at each label tuple are the same (`cubes` of `is_cube`).
pub fn are_cubes(shape: &Shape, a: &[u8], b: &[u8]) -> bool
    ensures { IsTrue result → ((tuple : Tuple) → IsTuple shape.now tuple
        → at (record { shape = shape.now; cells = a.now }) tuple
        ≡ at (record { shape = shape.now; cells = b.now }) tuple) → a.now ≡ b.now }
{
    shape.is_cube(a) & shape.is_cube(b)
}

/// An instant that was read can be printed, and what is printed is read as the same (`range` of `read_instant`, `read`
/// of `print_instant`).
pub fn in_long_spelling(text: &str) -> Result<[u8; 20], InstantFault>
    ensures { IfOk result (λ bytes. instant_read bytes ≡ instant_read text.now) }
{
    match read_instant(text) {
        Ok(seconds) => Ok(print_instant(seconds)),
        Err(fault) => Err(fault),
    }
}

/// The whole window has as many positions as a cube has cells (`count` of `whole`, `value` of `size`).
pub fn position_total(shape: &Shape) -> u64
    ensures { result ≡ cell_count shape.now }
{
    let _most = shape.cells();
    size(&whole(shape))
}

/// A window has a position exactly where it counts some (`empty` of `size`).
pub fn has_positions(window: &Window) -> bool
    requires { position_count window.now < 2 ^ 64 }
    ensures { IsTrue result ↔ ¬ IsEmpty window.now }
{
    size(window) > 0
}

/// Two chunks that have one number of the cube are one chunk, so who writes chunk by chunk writes no number twice
/// (`numbers` of `Grid::new`).
pub fn chunks_are_apart(shape: &Shape, size: ChunkSize) -> Grid
    requires x { IsSide size.x }
    requires y { IsSide size.y }
    requires t { IsSide size.t }
    ensures { (number a i b j : ℕ) → slice_get (chunk_numbers shape.now result a) i ≡ Some number
        → slice_get (chunk_numbers shape.now result b) j ≡ Some number → a ≡ b }
{
    Grid::new(shape, size)
}
