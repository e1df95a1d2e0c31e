// The shape of a cube: its dimensions with their labels.
ghost use Rattle.std.specs.Prelude.{◌≡◌, ◌↔◌, true, ℕ, ◌<◌, ◌≤◌, length, Some, IfOk, IfErr, IfSome, IsTrue, slice_get, filter};
ghost use Rattle.std.specs.Result.{result_err};
ghost use Rattle.std.specs.List.{slice_range};
ghost use Rattle.oe_dims.specs.Dimensions.{Dimensions, IsShape, shape_fault, label_count, cell_count, most_labels, most_cells, number_labels, band_names, all_differ};
ghost use Rattle.oe_dims.specs.Cube.{Tuple, IsCube, tuples, row_major};
ghost use Rattle.oe_dims.specs.Positions.{MatchOneToOne, AreTabulations};
ghost use Rattle.oe_dims.specs.Names.{same_name};
ghost use Rattle.oe_dims.specs.Indices.{same_number, index_where, IsIndexOf, count_before, is_inside, IsIndexRange};
ghost use Rattle.oe_dims.specs.Lists.{dimensions_with, HaveSameLabels};
ghost use Rattle.oe_dims.specs.Rules.{IsInOrder, KeepsEveryRule, IsFirstFault};

use crate::lists::{Lists, listed};
use crate::{Kind, Text};
use oe_memory::OutOfMemory;
use std::marker::Model;

/// Why lists of labels are not the dimensions of a cube.
#[derive(Clone, Copy, PartialEq, Eq)]
pub enum ShapeFault {
    /// The labels of `t` or `x` do not rise, those of `y` do not fall, or a band name occurs twice.
    OrderWrong(Kind),
    /// A label is out of its range, or a band name is not valid.
    OutOfRange(Kind),
    /// The dimension has over 65536 labels.
    TooMany(Kind),
    /// A shape with `x` or `y` has no EPSG code from 1 to 999999, or another shape has a code other than 0.
    EpsgWrong,
    /// The cube would have over 2^40 cells.
    TooManyCells,
}

/// The dimensions of a cube with their labels, which keep every rule of [`ShapeFault`].
pub struct Shape {
    lists: Lists,
}

impl Model for Shape {
    ghost use Rattle.oe_dims.specs.Dimensions.{Dimensions};

    ghost Value = { Dimensions };

    ghost use Rattle.oe_dims.specs.Dimensions.{IsShape};
    ghost use Rattle.oe_dims.specs.Cube.{Tuple, IsCube, tuples, row_major};
    ghost use Rattle.oe_dims.specs.Positions.{MatchOneToOne, AreTabulations};
    ghost use Rattle.oe_dims.specs.Names.{same_name};
    ghost use Rattle.oe_dims.specs.Indices.{same_number, index_where, IsIndexOf, count_before, is_inside, IsIndexRange};
    ghost use Rattle.oe_dims.specs.Lists.{dimensions_of};

    ghost view = { λ s. dimensions_of s.lists };

    ghost invariant = { λ s. IsShape (dimensions_of s.lists) };
}

/// Written out, so that a shape that ends is one call wherever it does.
impl Drop for Shape {
    fn drop(self) {
        let Shape { lists: _ } = self;
    }
}

impl Shape {
    /// The shape of these labels: `t` in seconds since 1970-01-01T00:00:00Z, `bands` by name, `y` and `x` in the unit
    /// of the reference system with the code `epsg`. A dimension that is `None` is missing.
    ///
    /// Refuses: with the first rule that is broken, in the order of [`ShapeFault`] and within it in that of [`Kind`].
    pub fn new(
        epsg: u32,
        t: Option<Vec<i64>>,
        bands: Option<Vec<Text>>,
        y: Option<Vec<i64>>,
        x: Option<Vec<i64>>,
    ) -> Result<Shape, ShapeFault>
        ensures ok { IfOk result (λ s. s ≡ dimensions_with epsg t bands y x) }
        ensures fault { result_err result ≡ shape_fault (dimensions_with epsg t bands y x) }
        // a shape keeps every rule, and a refusal names the first that is broken
        ensures rules { IsShape (dimensions_with epsg t bands y x)
            ↔ KeepsEveryRule (dimensions_with epsg t bands y x) }
        ensures first { IfErr result
            (λ fault. IsFirstFault (dimensions_with epsg t bands y x) fault) }
    {
        let lists = Lists {
            epsg,
            t: listed(t),
            bands: listed(bands),
            y: listed(y),
            x: listed(x),
        };
        match lists.fault() {
            Some(fault) => Err(fault),
            None => Ok(Shape { lists }),
        }
    }

    /// The EPSG code of `y` and `x`, 0 for a shape that has neither.
    pub fn epsg(&self) -> u32
        ensures value { result ≡ self.now.epsg }
        ensures valid { IsShape self.now }
    {
        self.lists.epsg
    }

    /// How many labels the dimension has, `None` exactly where the shape lacks it.
    pub fn count(&self, kind: Kind) -> Option<u32>
        ensures value { result ≡ label_count self.now kind }
        ensures most { IfSome result (λ n. n ≤ most_labels) }
        ensures valid { IsShape self.now }
    {
        match self.lists.count(kind) {
            None => None,
            Some(count) => Some(count as u32),
        }
    }

    /// How many cells a cube of this shape has, at most 2^40: as many as it has tuples of labels, whose row-major
    /// numbers are the numbers below it.
    pub fn cells(&self) -> u64
        ensures value { result ≡ cell_count self.now }
        ensures tuples { result ≡ length (tuples self.now) }
        // label tuples, numbers and positions correspond one to one
        ensures numbered { (k : ℕ) (tuple : Tuple) → (slice_get (tuples self.now) k ≡ Some tuple)
            ↔ (row_major self.now tuple ≡ Some k) }
        ensures positions { MatchOneToOne self.now }
        ensures most { result ≤ most_cells }
        ensures valid { IsShape self.now }
    {
        self.lists.cells()
    }

    /// Whether a cube of this shape has so many cells, one for each label tuple in row-major order.
    pub fn is_cube<C>(&self, cells: &[C]) -> bool
        ensures value { IsTrue result ↔ IsCube (record { shape = self.now; cells = cells.now }) }
        // whatever the cells are, a cube is what it is at each tuple of its shape
        ensures cubes { AreTabulations C self.now }
        ensures valid { IsShape self.now }
    {
        self.lists.cells() == cells.len() as u64
    }

    /// The labels of `t`, `y` or `x` in their order, none where the shape lacks the dimension.
    pub fn labels(&self, kind: Kind) -> &[i64]
        ensures value { result.now ≡ number_labels self.now kind }
        ensures order { IsInOrder kind result.now }
        ensures most { length result.now ≤ most_labels }
        ensures valid { IsShape self.now }
    {
        self.lists.numbers(kind)
    }

    /// The names of the bands in their order, none where the shape lacks the dimension.
    pub fn bands(&self) -> &[Text]
        ensures value { result.now ≡ band_names self.now }
        ensures differ { all_differ result.now ≡ true }
        ensures most { length result.now ≤ most_labels }
        ensures valid { IsShape self.now }
    {
        self.lists.names()
    }

    /// Whether both shapes have the dimension with the same labels in the same order, or both lack it.
    pub fn has_same_labels(&self, other: &Shape, kind: Kind) -> bool
        ensures value { IsTrue result ↔ HaveSameLabels self.now other.now kind }
        ensures valid { IsShape self.now }
    {
        self.lists.has_same_labels(&other.lists, kind)
    }

    /// The label at an index of `t`, `y` or `x`.
    pub fn label_at(&self, kind: Kind, index: u32) -> i64
        requires { index < length (number_labels self.now kind) }
        ensures value { slice_get (number_labels self.now kind) index ≡ Some result }
        ensures valid { IsShape self.now }
    {
        self.lists.numbers(kind)[index as usize]
    }

    /// The name at an index of `bands`.
    pub fn band_at(&self, index: u32) -> &Text
        requires { index < length (band_names self.now) }
        ensures value { slice_get (band_names self.now) index ≡ Some result.now }
        ensures valid { IsShape self.now }
    {
        &self.lists.names()[index as usize]
    }

    /// The index of a label of `t`, `y` or `x`, `None` exactly where it is no label of that dimension.
    pub fn position_of(&self, kind: Kind, label: i64) -> Option<u32>
        ensures value { result ≡ index_where (same_number label) (number_labels self.now kind) }
        ensures exact { IsIndexOf (number_labels self.now kind) label result }
        ensures valid { IsShape self.now }
    {
        match self.lists.position_of(kind, label) {
            None => None,
            Some(index) => Some(index as u32),
        }
    }

    /// The index of a band, `None` exactly where no band has that name.
    pub fn band_position(&self, name: &Text) -> Option<u32>
        ensures value { result ≡ index_where (same_name name.now) (band_names self.now) }
        ensures exact { IsIndexOf (band_names self.now) name.now result }
        ensures valid { IsShape self.now }
    {
        match self.lists.band_position(name) {
            None => None,
            Some(index) => Some(index as u32),
        }
    }

    /// The indices of the labels of `t`, `y` or `x` from `from` to `to`, both inside, as the first and the end. Where
    /// there is none, both are the index at which such a label would stand.
    pub fn range_of(&self, kind: Kind, from: i64, to: i64) -> (u32, u32)
        ensures first { result.0 ≡ count_before kind from to (number_labels self.now kind) }
        ensures run { IsIndexRange from to (number_labels self.now kind) result.0 result.1 }
        ensures kept { slice_range (number_labels self.now kind) result.0 result.1
            ≡ filter (is_inside from to) (number_labels self.now kind) }
        ensures valid { IsShape self.now }
    {
        let (first, end) = self.lists.range_of(kind, from, to);
        (first as u32, end as u32)
    }

    /// Lets copies, and shapes that [`Shape::take_labels`] over from this one, keep its labels in the same memory from now
    /// on. Where memory for that is refused, a dimension stays as it was.
    pub fn share_labels(&mut self)
        ensures { self.new ≡ self.old }
    {
        self.lists.share();
    }

    /// Keeps the labels of each dimension in the memory of those of another shape, where they are the same and shared.
    /// It takes no memory.
    pub fn take_labels(&mut self, other: &Shape)
        ensures { self.new ≡ self.old }
    {
        self.lists.take_over(&other.lists);
    }

    /// A copy with equal contents. Shared labels are not copied. Refuses: out of memory.
    pub fn copy(&self) -> Result<Shape, OutOfMemory>
        ensures { IfOk result (λ s. s ≡ self.now) }
    {
        Ok(Shape {
            lists: self.lists.copy()?,
        })
    }
}
