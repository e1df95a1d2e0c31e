// One collection of several, in order of priority.
ghost use Rattle.std.specs.Prelude.{◌≡◌, ◌<◌, [], length, map, None, IfOk, IfErr, MatchOption};
ghost use Rattle.std.specs.Option.{option_map};
ghost use Rattle.oe_dims.specs.Dimensions.{IsShape};
ghost use Rattle.oe_dims.specs.Lists.{dimensions_with, items_of};
ghost use Rattle.oe_mosaic.specs.Mosaics.{bands_of_parts, labels_of_parts, mosaic_shape, parts_of};

use crate::Parts;
use crate::labels::{join_bands, join_labels};
use crate::reading::{count_looks, look_any};
use oe_cell::Cell;
use oe_dims::{CellKind, Kind, Shape, Text};
use oe_memory::OutOfMemory;
use oe_sources::{CubeSource, LookFail, Looking, ReadFault, SharedSource};
use oe_window::Window;
use std::alloc::Global;
use std::marker::Model;

/// Why parts were not made into a mosaic. They are handed back.
#[derive(Drop)]
pub enum MosaicFail<S: CubeSource> {
    /// There is no part.
    NoParts(Parts<S>),
    /// All labels together are over 65536 along one dimension, or over 2^40 cells.
    TooLarge(Parts<S>),
    /// An allocation was refused.
    OutOfMemory(Parts<S>),
}

/// One collection of up to 16 collections, in order of priority. It has all labels of its parts; the cell of a label
/// tuple is that of the first part that has the tuple, null or not, and null where no part has it.
#[derive(Drop)]
pub struct Mosaic<S: CubeSource> {
    items: Vec<S>,
    shape: Shape,
    asked: u64,
}

impl<S: CubeSource> Model for Mosaic<S> {
    ghost use Rattle.std.specs.Prelude.{ℕ, ◌≡◌, ◌<◌, List, length};
    ghost use Rattle.oe_mosaic.specs.MosaicStates.{MosaicState};
    ghost use Rattle.oe_mosaic.specs.Mosaics.{mosaic_shape, parts_of};
    ghost use Rattle.oe_mosaic.specs.Parts.{ArePartsOfOne};

    ghost Value = { MosaicState S };

    ghost view = { λ m. record { parts = m.items.items; asked = m.asked } };

    ghost invariant = { λ m. ArePartsOfOne (parts_of S.seen m.items.items)
        × (m.shape ≡ mosaic_shape (parts_of S.seen m.items.items))
        × (0 < length m.items.items) };
}

impl<S: CubeSource> Mosaic<S> {
    ghost use Rattle.oe_mosaic.specs.MosaicStates.{TellsWhy, parts_handed};

    /// The mosaic of these parts, of which nothing was asked yet.
    ///
    /// Refuses: `NoParts` exactly where there is no part; else `TooLarge` exactly where all labels together break the
    /// limits of a shape; else `OutOfMemory` where an allocation was refused. Each hands the parts back.
    pub fn of(alloc: Global, parts: Parts<S>) -> Result<Mosaic<S>, MosaicFail<S>>
        ensures made { IfOk result (λ m. m ≡ record { parts = parts; asked = 0 }) }
        ensures some { IfOk result (λ m. 0 < length parts) }
        ensures valid { IfOk result (λ m. IsShape (mosaic_shape (parts_of S.seen parts))) }
        ensures refused { IfErr result (TellsWhy S.seen parts) }
        ensures handed { IfErr result (λ fail. parts_handed fail ≡ parts) }
    {
        if parts.items.is_empty() {
            return Err(MosaicFail::NoParts(parts));
        }
        match shape_of(alloc, &parts.items) {
            Ok(Some(shape)) => Ok(Mosaic {
                items: parts.items,
                shape,
                asked: 0,
            }),
            Ok(None) => Err(MosaicFail::TooLarge(parts)),
            Err(_) => Err(MosaicFail::OutOfMemory(parts)),
        }
    }

    /// All parts, in their order. It takes no memory.
    pub fn parts(self) -> Parts<S>
        ensures { result ≡ self.parts }
    {
        let Mosaic {
            items,
            shape: _,
            asked: _,
        } = self;
        Parts { items }
    }
}

impl<S: CubeSource> CubeSource for Mosaic<S> {
    ghost use Rattle.std.specs.Prelude.{◌≡◌, false, is_some, true};
    ghost use Rattle.oe_mosaic.specs.Mosaics.{fault_counts};
    ghost use Rattle.oe_mosaic.specs.MosaicStates.{source_of};
    ghost use Rattle.oe_mosaic.specs.PartFaults.{OnePartCounts, SomeRose};
    ghost use Rattle.oe_sources.specs.Source.{CountsRead};

    ghost seen = { λ m. source_of S.seen m };

    fn shape(&self) -> &Shape {
        let _epsg = self.shape.epsg();
        &self.shape
    }

    fn kind(&self) -> CellKind {
        self.items[0].kind()
    }

    fn look(
        &self,
        looking: &Looking,
        window: &Window,
        bytes: &mut [u8],
        into: &mut [Cell],
    ) -> Result<(), LookFail> {
        look_any(
            self.items.as_slice(),
            &self.shape,
            looking,
            window,
            bytes,
            into,
        )
    }

    /// The fault counter that rises is that of a part, of which no cells are counted. All else in the parts stays as it
    /// is, and so does their order.
    fn count(&mut self, cells: u64, fault: Option<ReadFault>)
        ensures counted { CountsRead (source_of S.seen self.old) cells (is_some fault)
            (source_of S.seen self.new) }
        ensures rose { is_some fault ≡ true → SomeRose
            (fault_counts S.seen self.old.parts) (fault_counts S.seen self.new.parts) }
        ensures one { is_some fault ≡ true
            → OnePartCounts S.seen self.old.parts self.new.parts }
        ensures still { is_some fault ≡ false → self.new.parts ≡ self.old.parts }
    {
        count_looks(self.items.as_mut_slice(), &mut self.asked, cells, fault);
    }
}

impl<S: SharedSource> SharedSource for Mosaic<S> {}

/// All labels of the parts along t, y or x.
fn labels_of<S: CubeSource>(
    alloc: Global,
    items: &[S],
    kind: Kind,
) -> Result<Option<Vec<i64>>, OutOfMemory>
    ensures { IfOk result (λ labels. option_map items_of labels
        ≡ labels_of_parts kind (parts_of S.seen items.now)) }
{
    let mut labels = None;
    for item in items {
        labels = join_labels(alloc, kind, labels, item.shape())?;
    }
    Ok(labels)
}

/// All bands of the parts.
fn bands_of<S: CubeSource>(alloc: Global, items: &[S]) -> Result<Option<Vec<Text>>, OutOfMemory>
    ensures { IfOk result (λ names. option_map items_of names
        ≡ bands_of_parts (parts_of S.seen items.now)) }
{
    let mut names = None;
    for item in items {
        names = join_bands(alloc, names, item.shape())?;
    }
    Ok(names)
}

/// The shape of the mosaic of these parts, `None` where it breaks a rule of shapes.
fn shape_of<S: CubeSource>(alloc: Global, items: &[S]) -> Result<Option<Shape>, OutOfMemory>
    requires { 0 < length items.now }
    ensures { IfOk result (λ found. MatchOption found
        (¬ IsShape (mosaic_shape (parts_of S.seen items.now)))
        (λ shape. shape ≡ mosaic_shape (parts_of S.seen items.now))) }
{
    let t = labels_of(alloc, items, Kind::Time)?;
    let bands = bands_of(alloc, items)?;
    let y = labels_of(alloc, items, Kind::Y)?;
    let x = labels_of(alloc, items, Kind::X)?;
    let epsg = items[0].shape().epsg();
    Ok(shape_within(epsg, t, bands, y, x))
}

/// The shape of these labels, `None` where they are not those of a shape.
fn shape_within(
    epsg: u32,
    t: Option<Vec<i64>>,
    bands: Option<Vec<Text>>,
    y: Option<Vec<i64>>,
    x: Option<Vec<i64>>,
) -> Option<Shape>
    ensures { MatchOption result (¬ IsShape (dimensions_with epsg t bands y x))
        (λ shape. shape ≡ dimensions_with epsg t bands y x) }
{
    match Shape::new(epsg, t, bands, y, x) {
        Ok(shape) => Some(shape),
        Err(_) => None,
    }
}
