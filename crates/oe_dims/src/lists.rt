// Lists of labels that may become a shape.
ghost use Rattle.std.specs.Prelude.{◌≡◌, ◌↔◌, IsTrue, ◌<◌, ◌≤◌, ◌^◌, length, SomeIff, None, filter, IfSome, IfOk, Some};
ghost use Rattle.std.specs.List.{slice_range};
ghost use Rattle.std.specs.Option.{option_map};
ghost use Rattle.oe_dims.specs.Dimensions.{Dimensions, shape_fault, order_fault, range_fault, limit_fault, epsg_fault, cells_fault, is_ordered, is_in_range, is_within_limit, has_fitting_epsg, label_count, cell_count, extent, most_labels, most_cells, number_labels, band_names, of_labels, rises, falls, all_differ, all_between};
ghost use Rattle.oe_dims.specs.Names.{same_name};
ghost use Rattle.oe_dims.specs.Indices.{same_number, index_where, count_before, is_inside, IsIndexRange};
ghost use Rattle.oe_dims.specs.Lists.{items_of, dimensions_of, HaveSameLabels};

use crate::copies::copy_texts;
use crate::distinct::all_differ;
use crate::instant::{FIRST_INSTANT, LAST_INSTANT};
use crate::label_list::LabelList;
use crate::order::{all_between, all_names, falls, index_of_name, rises};
use crate::search::{index_in_falling, index_in_rising, run_in_falling, run_in_rising};
use crate::{Kind, ShapeFault, Text};
use oe_memory::OutOfMemory;

/// The dimensions in their order.
const ALL_KINDS: [Kind; 4] = [Kind::Time, Kind::Bands, Kind::Y, Kind::X];

/// How far a coordinate may be from 0.
const FARTHEST_COORDINATE: i64 = 1000000000;

/// The most labels of one dimension.
const MOST_LABELS: usize = 65536;

/// The most cells of a cube.
const MOST_CELLS: u64 = 1 << 40;

/// Dimensions with their labels, which need not keep any rule.
#[derive(Drop)]
pub struct Lists {
    pub epsg: u32,
    pub t: Option<LabelList<i64>>,
    pub bands: Option<LabelList<Text>>,
    pub y: Option<LabelList<i64>>,
    pub x: Option<LabelList<i64>>,
}

/// Labels as a shape keeps them, if the dimension is there.
pub fn listed<T>(labels: Option<Vec<T>>) -> Option<LabelList<T>>
    ensures { result ≡ option_map items_of labels }
{
    match labels {
        None => None,
        Some(labels) => Some(LabelList::of(labels)),
    }
}

/// How many labels a dimension has, if it is there.
fn count_of<T>(labels: &Option<LabelList<T>>) -> Option<usize>
    ensures { result ≡ option_map length labels.now }
{
    match labels {
        None => None,
        Some(labels) => Some(labels.as_slice().len()),
    }
}

/// How many indices a dimension gives.
fn extent_of<T>(labels: &Option<LabelList<T>>) -> usize
    ensures { result ≡ extent labels.now }
{
    match labels {
        None => 1,
        Some(labels) => labels.as_slice().len(),
    }
}

/// Whether there are labels that are one shape's alone.
fn is_alone<T>(labels: &Option<LabelList<T>>) -> bool {
    match labels {
        None => false,
        Some(labels) => labels.is_alone(),
    }
}

/// Labels in the same memory, `None` where they are one shape's alone or the dimension is missing.
fn taken_over<T>(labels: &Option<LabelList<T>>) -> Option<LabelList<T>>
    ensures { IfSome result (λ l. labels.now ≡ Some l) }
{
    match labels {
        None => None,
        Some(labels) => labels.taken_over(),
    }
}

/// Lets others take labels over from now on, if the dimension is there.
fn share<T: Drop>(labels: &mut Option<LabelList<T>>)
    ensures { labels.new ≡ labels.old }
{
    if let Some(own) = labels.take() {
        *labels = Some(own.shared());
    }
}

/// A copy of numbers.
fn copy_list(labels: &LabelList<i64>) -> Result<LabelList<i64>, OutOfMemory>
    ensures { IfOk result (λ c. c ≡ labels.now) }
{
    let copy = Vec::from_slice(labels.allocator(), labels.as_slice())?;
    Ok(LabelList::of(copy))
}

/// A copy of labels, if the dimension is there. Shared ones are taken over.
fn copy_numbers(labels: &Option<LabelList<i64>>) -> Result<Option<LabelList<i64>>, OutOfMemory>
    ensures { IfOk result (λ c. c ≡ labels.now) }
{
    match labels {
        None => Ok(None),
        Some(labels) => match labels.taken_over() {
            Some(shared) => Ok(Some(shared)),
            None => Ok(Some(copy_list(labels)?)),
        },
    }
}

/// A copy of names.
fn copy_name_list(names: &LabelList<Text>) -> Result<LabelList<Text>, OutOfMemory>
    ensures { IfOk result (λ c. c ≡ names.now) }
{
    let copy = copy_texts(names.allocator(), names.as_slice())?;
    Ok(LabelList::of(copy))
}

/// A copy of names, if the dimension is there. Shared ones are taken over.
fn copy_names(names: &Option<LabelList<Text>>) -> Result<Option<LabelList<Text>>, OutOfMemory>
    ensures { IfOk result (λ c. c ≡ names.now) }
{
    match names {
        None => Ok(None),
        Some(names) => match names.taken_over() {
            Some(shared) => Ok(Some(shared)),
            None => Ok(Some(copy_name_list(names)?)),
        },
    }
}

/// Whether both dimensions have the same numbers, or both are missing.
fn has_same_numbers(a: &Option<LabelList<i64>>, b: &Option<LabelList<i64>>) -> bool
    ensures { IsTrue result ↔ (a.now ≡ b.now) }
{
    match (a, b) {
        (None, None) => true,
        (Some(a), Some(b)) => a.as_slice() == b.as_slice(),
        _ => false,
    }
}

/// Whether both dimensions have the same names, or both are missing.
fn has_same_names(a: &Option<LabelList<Text>>, b: &Option<LabelList<Text>>) -> bool
    ensures { IsTrue result ↔ (a.now ≡ b.now) }
{
    match (a, b) {
        (None, None) => true,
        (Some(a), Some(b)) => a.as_slice() == b.as_slice(),
        _ => false,
    }
}

/// Takes the numbers of another dimension over, where they are the same and shared, and none was taken over before.
fn take_numbers(own: &mut Option<LabelList<i64>>, other: &Option<LabelList<i64>>)
    ensures { own.new ≡ own.old }
{
    if is_alone(own) && has_same_numbers(own, other) {
        if let Some(shared) = taken_over(other) {
            *own = Some(shared);
        }
    }
}

/// Takes the names of another dimension over, where they are the same and shared, and none was taken over before.
fn take_names(own: &mut Option<LabelList<Text>>, other: &Option<LabelList<Text>>)
    ensures { own.new ≡ own.old }
{
    if is_alone(own) && has_same_names(own, other) {
        if let Some(shared) = taken_over(other) {
            *own = Some(shared);
        }
    }
}

impl Lists {
    /// Whether both have the dimension with the same labels, or both lack it.
    pub fn has_same_labels(&self, other: &Lists, kind: Kind) -> bool
        ensures { IsTrue result
            ↔ HaveSameLabels (dimensions_of self.now) (dimensions_of other.now) kind }
    {
        match kind {
            Kind::Time => has_same_numbers(&self.t, &other.t),
            Kind::Bands => has_same_names(&self.bands, &other.bands),
            Kind::Y => has_same_numbers(&self.y, &other.y),
            Kind::X => has_same_numbers(&self.x, &other.x),
        }
    }

    /// Lets copies, and others with the same labels along a dimension, take the labels over from now on.
    pub fn share(&mut self)
        ensures { dimensions_of self.new ≡ dimensions_of self.old }
    {
        share(&mut self.t);
        share(&mut self.bands);
        share(&mut self.y);
        share(&mut self.x);
    }

    /// Takes the labels of each dimension over from others that have the same and share them.
    pub fn take_over(&mut self, others: &Lists)
        ensures { dimensions_of self.new ≡ dimensions_of self.old }
    {
        take_numbers(&mut self.t, &others.t);
        take_names(&mut self.bands, &others.bands);
        take_numbers(&mut self.y, &others.y);
        take_numbers(&mut self.x, &others.x);
    }

    /// A copy with equal contents, which takes over what is shared.
    pub fn copy(&self) -> Result<Lists, OutOfMemory>
        ensures { IfOk result (λ c. dimensions_of c ≡ dimensions_of self.now) }
    {
        Ok(Lists {
            epsg: self.epsg,
            t: copy_numbers(&self.t)?,
            bands: copy_names(&self.bands)?,
            y: copy_numbers(&self.y)?,
            x: copy_numbers(&self.x)?,
        })
    }

    /// The number of labels of a dimension.
    pub fn count(&self, kind: Kind) -> Option<usize>
        ensures { result ≡ label_count (dimensions_of self.now) kind }
    {
        match kind {
            Kind::Time => count_of(&self.t),
            Kind::Bands => count_of(&self.bands),
            Kind::Y => count_of(&self.y),
            Kind::X => count_of(&self.x),
        }
    }

    /// The labels of `t`, `y` or `x`, none where the dimension is missing.
    pub fn numbers(&self, kind: Kind) -> &[i64]
        ensures { result.now ≡ number_labels (dimensions_of self.now) kind }
    {
        let labels = match kind {
            Kind::Time => &self.t,
            Kind::Bands => return &[],
            Kind::Y => &self.y,
            Kind::X => &self.x,
        };
        match labels {
            None => &[],
            Some(labels) => labels.as_slice(),
        }
    }

    /// The names of the bands, none where the dimension is missing.
    pub fn names(&self) -> &[Text]
        ensures { result.now ≡ band_names (dimensions_of self.now) }
    {
        match &self.bands {
            None => &[],
            Some(names) => names.as_slice(),
        }
    }

    /// The index of a label of `t`, `y` or `x`.
    pub fn position_of(&self, kind: Kind, label: i64) -> Option<usize>
        requires { shape_fault (dimensions_of self.now) ≡ None }
        ensures value { result
            ≡ index_where (same_number label) (number_labels (dimensions_of self.now) kind) }
        ensures most { IfSome result (λ index. index < most_labels) }
    {
        let labels = self.numbers(kind);
        match kind {
            Kind::Y => index_in_falling(labels, label),
            _ => index_in_rising(labels, label),
        }
    }

    /// The index of a band.
    pub fn band_position(&self, name: &Text) -> Option<usize>
        requires { shape_fault (dimensions_of self.now) ≡ None }
        ensures value { result
            ≡ index_where (same_name name.now) (band_names (dimensions_of self.now)) }
        ensures most { IfSome result (λ index. index < most_labels) }
    {
        index_of_name(name, self.names())
    }

    /// The indices of the labels of `t`, `y` or `x` from `from` to `to`, both inside, as the first and the end.
    pub fn range_of(&self, kind: Kind, from: i64, to: i64) -> (usize, usize)
        requires { shape_fault (dimensions_of self.now) ≡ None }
        ensures first { result.0
            ≡ count_before kind from to (number_labels (dimensions_of self.now) kind) }
        ensures run { IsIndexRange from to (number_labels (dimensions_of self.now) kind)
            result.0 result.1 }
        ensures kept { slice_range (number_labels (dimensions_of self.now) kind) result.0 result.1
            ≡ filter (is_inside from to) (number_labels (dimensions_of self.now) kind) }
        ensures most { result.1 ≤ most_labels }
    {
        let labels = self.numbers(kind);
        match kind {
            Kind::Y => run_in_falling(labels, from, to),
            _ => run_in_rising(labels, from, to),
        }
    }

    /// How many cells there are.
    pub fn cells(&self) -> u64
        requires { shape_fault (dimensions_of self.now) ≡ None }
        ensures value { result ≡ cell_count (dimensions_of self.now) }
        ensures most { result ≤ most_cells }
    {
        extent_of(&self.t) as u64
            * extent_of(&self.bands) as u64
            * extent_of(&self.y) as u64
            * extent_of(&self.x) as u64
    }

    /// The labels stand in the order that the dimension asks for; names differ.
    fn is_ordered(&self, kind: Kind) -> bool
        ensures { result ≡ is_ordered (dimensions_of self.now) kind }
    {
        match kind {
            Kind::Time => match &self.t {
                None => true,
                Some(labels) => rises(labels.as_slice()),
            },
            Kind::Bands => match &self.bands {
                None => true,
                Some(names) => all_differ(names.as_slice()),
            },
            Kind::Y => match &self.y {
                None => true,
                Some(labels) => falls(labels.as_slice()),
            },
            Kind::X => match &self.x {
                None => true,
                Some(labels) => rises(labels.as_slice()),
            },
        }
    }

    /// Each label is one that the dimension may have.
    fn is_in_range(&self, kind: Kind) -> bool
        ensures { result ≡ is_in_range (dimensions_of self.now) kind }
    {
        match kind {
            Kind::Time => match &self.t {
                None => true,
                Some(labels) => all_between(FIRST_INSTANT, LAST_INSTANT, labels.as_slice()),
            },
            Kind::Bands => match &self.bands {
                None => true,
                Some(names) => all_names(names.as_slice()),
            },
            Kind::Y => match &self.y {
                None => true,
                Some(labels) => all_between(
                    -FARTHEST_COORDINATE,
                    FARTHEST_COORDINATE,
                    labels.as_slice(),
                ),
            },
            Kind::X => match &self.x {
                None => true,
                Some(labels) => all_between(
                    -FARTHEST_COORDINATE,
                    FARTHEST_COORDINATE,
                    labels.as_slice(),
                ),
            },
        }
    }

    /// There are not too many labels.
    fn is_within_limit(&self, kind: Kind) -> bool
        ensures { result ≡ is_within_limit (dimensions_of self.now) kind }
    {
        match self.count(kind) {
            None => true,
            Some(count) => count <= MOST_LABELS,
        }
    }

    /// The code is one that goes with the dimensions.
    fn has_fitting_epsg(&self) -> bool
        ensures { result ≡ has_fitting_epsg (dimensions_of self.now) }
    {
        if self.y.is_some() || self.x.is_some() {
            1 <= self.epsg && self.epsg <= 999999
        } else {
            self.epsg == 0
        }
    }

    /// The first dimension whose labels stand in the wrong order.
    #[tactic(auto, unfolding(crate::specs::Dimensions::order_fault))]
    fn order_fault(&self) -> Option<ShapeFault>
        ensures { result ≡ order_fault (dimensions_of self.now) }
    {
        for kind in ALL_KINDS {
            if !self.is_ordered(kind) {
                return Some(ShapeFault::OrderWrong(kind));
            }
        }
        None
    }

    /// The first dimension with a label that it may not have.
    #[tactic(auto, unfolding(crate::specs::Dimensions::range_fault))]
    fn range_fault(&self) -> Option<ShapeFault>
        ensures { result ≡ range_fault (dimensions_of self.now) }
    {
        for kind in ALL_KINDS {
            if !self.is_in_range(kind) {
                return Some(ShapeFault::OutOfRange(kind));
            }
        }
        None
    }

    /// The first dimension with too many labels.
    #[tactic(auto, unfolding(crate::specs::Dimensions::limit_fault))]
    fn limit_fault(&self) -> Option<ShapeFault>
        ensures { result ≡ limit_fault (dimensions_of self.now) }
    {
        for kind in ALL_KINDS {
            if !self.is_within_limit(kind) {
                return Some(ShapeFault::TooMany(kind));
            }
        }
        None
    }

    /// A code that does not go with the dimensions.
    #[tactic(auto, unfolding(crate::specs::Dimensions::epsg_fault))]
    fn epsg_fault(&self) -> Option<ShapeFault>
        ensures { result ≡ epsg_fault (dimensions_of self.now) }
    {
        if self.has_fitting_epsg() {
            None
        } else {
            Some(ShapeFault::EpsgWrong)
        }
    }

    /// How many cells there are, where they fit 64 bits.
    fn cells_within_word(&self) -> Option<u64>
        requires { limit_fault (dimensions_of self.now) ≡ None }
        ensures { let cells = cell_count (dimensions_of self.now) in
            SomeIff result (cells < 2 ^ 64) cells }
    {
        let rows = extent_of(&self.t) as u64
            * extent_of(&self.bands) as u64
            * extent_of(&self.y) as u64;
        rows.checked_mul(extent_of(&self.x) as u64)
    }

    /// More cells than a cube may have.
    #[tactic(auto, unfolding(crate::specs::Dimensions::cells_fault))]
    fn cells_fault(&self) -> Option<ShapeFault>
        requires { limit_fault (dimensions_of self.now) ≡ None }
        ensures { result ≡ cells_fault (dimensions_of self.now) }
    {
        match self.cells_within_word() {
            Some(cells) if cells <= MOST_CELLS => None,
            _ => Some(ShapeFault::TooManyCells),
        }
    }

    /// The first rule that the lists break.
    #[tactic(auto, unfolding(crate::specs::Dimensions::shape_fault))]
    pub fn fault(&self) -> Option<ShapeFault>
        ensures { result ≡ shape_fault (dimensions_of self.now) }
    {
        if let Some(fault) = self.order_fault() {
            return Some(fault);
        }
        if let Some(fault) = self.range_fault() {
            return Some(fault);
        }
        if let Some(fault) = self.limit_fault() {
            return Some(fault);
        }
        if let Some(fault) = self.epsg_fault() {
            return Some(fault);
        }
        self.cells_fault()
    }
}
