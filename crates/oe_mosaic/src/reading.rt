// A window of a mosaic looked at in its parts, and what is counted of it.
ghost use Rattle.std.specs.Prelude.{◌≡◌, ◌<◌, ℕ, false, is_some, length, slice_index_or, true};
ghost use Rattle.oe_dims.specs.Dimensions.{IsShape, extent};
ghost use Rattle.oe_dims.specs.Positions.{number_of};
ghost use Rattle.oe_mosaic.specs.MosaicLaws.{HasAllLabels};
ghost use Rattle.oe_mosaic.specs.Mosaics.{fault_counts, parts_of};
ghost use Rattle.oe_mosaic.specs.PartFaults.{OnePartCounts, SomeRose};
ghost use Rattle.oe_mosaic.specs.Parts.{ArePartsOfOne};
ghost use Rattle.oe_mosaic.specs.Places.{first_of, side_sum};
ghost use Rattle.oe_mosaic.specs.Readings.{Finds, IsAnswer, IsTried, OnlyReads};
ghost use Rattle.oe_sources.specs.Source.{answer_of, asked_after};
ghost use Rattle.oe_window.specs.Windows.{Holds, IsEmpty, position_count, whole_window};

use crate::halves::{halves, is_single};
use crate::place::{Place, place_of};
use crate::seam::seam;
use oe_cell::Cell;
use oe_dims::{Kind, Shape};
use oe_sources::{CubeSource, LookFail, Looking, ReadFault};
use oe_window::{Window, extent_of, size};

/// Which part decides about the tuples of a window.
#[derive(Clone, Copy, PartialEq, Eq)]
pub enum Found {
    /// No part has any of them.
    Nowhere,
    /// The part of this place has all of them in a box, and none before it has any.
    In(usize, Window),
    /// Not one part alone. To be cut behind so many indices of the outermost dimension with several, or in the middle.
    Across(usize),
}

/// What came of looking at a window at once.
#[derive(Drop)]
pub enum Tried {
    /// This is the answer.
    Done(Result<(), LookFail>),
    /// It is to be looked at in two halves, cut behind so many indices of the outermost dimension with several, or in
    /// the middle.
    Cut(usize),
}

/// The part that decides about the tuples of a window, if it is one.
#[tactic(auto, using(crate::proofs::FindLemmas::apart_more, crate::proofs::FindLemmas::all_apart, crate::proofs::FindLemmas::found_in, crate::proofs::FindLemmas::none_apart, crate::proofs::FindLemmas::place_within))]
fn find<S: CubeSource>(items: &[S], shape: &Shape, window: &Window) -> Found
    requires inside { Holds (whole_window shape.now) window.now }
    requires filled { ¬ IsEmpty window.now }
    requires labels { HasAllLabels (parts_of S.seen items.now) shape.now }
    ensures { Finds (parts_of S.seen items.now) shape.now window.now result }
{
    for index in 0..items.len() {
        match place_of(shape, items[index].shape(), window) {
            Place::Apart => {}
            Place::Box(part) => return Found::In(index, part),
            Place::Across => return Found::Across(seam(shape, items[index].shape(), window)),
        }
    }
    Found::Nowhere
}

/// How many indices a shape has along bands, y and x.
#[derive(Clone, Copy, PartialEq, Eq)]
pub struct Extents {
    bands: u64,
    y: u64,
    x: u64,
}

fn extents_of(shape: &Shape) -> Extents
    ensures bands { result.bands ≡ extent shape.now.bands }
    ensures y { result.y ≡ extent shape.now.y }
    ensures x { result.x ≡ extent shape.now.x }
    ensures valid { IsShape shape.now }
{
    let _epsg = shape.epsg();
    Extents {
        bands: u64::from(extent_of(shape, Kind::Bands)),
        y: u64::from(extent_of(shape, Kind::Y)),
        x: u64::from(extent_of(shape, Kind::X)),
    }
}

/// The row-major number of the first position of a window.
fn first_number(shape: &Shape, window: &Window) -> u64
    requires inside { Holds (whole_window shape.now) window.now }
    requires filled { ¬ IsEmpty window.now }
    ensures { result ≡ number_of shape.now (first_of window.now) }
{
    let cube = extents_of(shape);
    let band = u64::from(window.t.from) * cube.bands + u64::from(window.bands.from);
    let row = band * cube.y + u64::from(window.y.from);
    row * cube.x + u64::from(window.x.from)
}

/// Makes each cell null.
fn fill_null(into: &mut [Cell])
    ensures { (k : ℕ) → k < length into.new → slice_index_or into.new k Cell.Empty ≡ Cell.Empty }
{
    for index in 0..into.len() {
        into[index] = Cell::Empty;
    }
}

/// Looks at a window at once where one part decides about all of it, or none.
fn try_window<S: CubeSource>(
    items: &[S],
    shape: &Shape,
    looking: &Looking,
    window: &Window,
    bytes: &mut [u8],
    into: &mut [Cell],
) -> Tried
    requires inside { Holds (whole_window shape.now) window.now }
    requires filled { ¬ IsEmpty window.now }
    requires room { length into.old ≡ position_count window.now }
    requires bytes { length bytes.old ≡ 65536 }
    requires parts { ArePartsOfOne (parts_of S.seen items.now) }
    requires labels { HasAllLabels (parts_of S.seen items.now) shape.now }
    ensures { IsTried (parts_of S.seen items.now) shape.now window.now into.new result }
{
    match find(items, shape, window) {
        Found::Nowhere => {
            fill_null(into);
            Tried::Done(Ok(()))
        }
        Found::Across(seam) => Tried::Cut(seam),
        Found::In(index, part) => match items[index].look(looking, &part, bytes, into) {
            Ok(()) => Tried::Done(Ok(())),
            Err(LookFail::Failed(fault)) => {
                Tried::Done(Err(LookFail::Failed(fault.in_part(index as u32))))
            }
            Err(LookFail::Damaged(_)) => {
                if is_single(window) {
                    Tried::Done(Err(LookFail::Damaged(first_number(shape, window))))
                } else {
                    Tried::Cut(0)
                }
            }
        },
    }
}

/// Gives the cells of a window, in row-major order, and looks at each part only for what it decides. Where a position
/// is damaged, the halves are looked at until it is found.
fn look_window<S: CubeSource>(
    items: &[S],
    shape: &Shape,
    looking: &Looking,
    window: &Window,
    bytes: &mut [u8],
    into: &mut [Cell],
) -> Result<(), LookFail>
    requires inside { Holds (whole_window shape.now) window.now }
    requires filled { ¬ IsEmpty window.now }
    requires room { length into.old ≡ position_count window.now }
    requires bytes { length bytes.old ≡ 65536 }
    requires parts { ArePartsOfOne (parts_of S.seen items.now) }
    requires labels { HasAllLabels (parts_of S.seen items.now) shape.now }
    ensures { IsAnswer (parts_of S.seen items.now) shape.now window.now into.new
        (answer_of result) }
{
    match try_window(items, shape, looking, window, bytes, into) {
        Tried::Done(result) => result,
        Tried::Cut(seam) => {
            let _epsg = shape.epsg();
            let (front, back) = halves(window, seam);
            let (first, second) = into.split_at_mut(size(&front) as usize);
            match look_window(items, shape, looking, &front, bytes, first) {
                Ok(()) => look_window(items, shape, looking, &back, bytes, second),
                Err(fail) => Err(fail),
            }
        }
    }
}

/// Gives the cells of a window, which may be empty.
pub fn look_any<S: CubeSource>(
    items: &[S],
    shape: &Shape,
    looking: &Looking,
    window: &Window,
    bytes: &mut [u8],
    into: &mut [Cell],
) -> Result<(), LookFail>
    requires inside { Holds (whole_window shape.now) window.now }
    requires room { length into.old ≡ position_count window.now }
    requires bytes { length bytes.old ≡ 65536 }
    requires parts { ArePartsOfOne (parts_of S.seen items.now) }
    requires labels { HasAllLabels (parts_of S.seen items.now) shape.now }
    ensures { IsAnswer (parts_of S.seen items.now) shape.now window.now into.new
        (answer_of result) }
{
    if window.is_empty() {
        return Ok(());
    }
    look_window(items, shape, looking, window, bytes, into)
}

/// Counts so many cells as asked of a mosaic, and the fault that one of its parts met, which that part counts.
pub fn count_looks<S: CubeSource>(
    items: &mut [S],
    asked: &mut u64,
    cells: u64,
    fault: Option<ReadFault>,
)
    requires { 0 < length items.old }
    ensures asked { asked.new ≡ asked_after asked.old cells }
    ensures only { OnlyReads S.seen items.old items.new }
    ensures rose { is_some fault ≡ true
        → SomeRose (fault_counts S.seen items.old) (fault_counts S.seen items.new) }
    ensures one { is_some fault ≡ true → OnePartCounts S.seen items.old items.new }
    ensures still { is_some fault ≡ false → items.new ≡ items.old }
{
    *asked = asked.saturating_add(cells);
    if fault.is_some() {
        let part = part_of(&fault, items.len());
        items[part].count(0, fault);
    }
}

/// The place of the part that met a fault, among so many parts.
fn part_of(fault: &Option<ReadFault>, parts: usize) -> usize
    requires { 0 < parts }
    ensures { result < parts }
{
    let part = match fault {
        Some(fault) => fault.part() as usize,
        None => 0,
    };
    part.min(parts - 1)
}
