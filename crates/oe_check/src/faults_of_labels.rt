// How the labels of two cubes compare, and labels that are given.
ghost use Rattle.std.specs.Prelude.{◌≡◌, ◌%◌, ◌==◌, true, false, not, map, nat_lt, IfOk};
ghost use Rattle.std.specs.List.{list_any};
ghost use Rattle.oe_dims.specs.Dimensions.{number_labels, band_names, numbers_along};
ghost use Rattle.oe_dims.specs.Indices.{same_number};
ghost use Rattle.oe_dims.specs.Names.{same_name, OrdersNames};
ghost use Rattle.oe_kernel.specs.Kernels.{largest_size};
ghost use Rattle.oe_requests.specs.Labels as labels;
ghost use Rattle.oe_requests.specs.Labels.{are_among, are_distinct, differ_in};
ghost use Rattle.oe_meanings.specs.Rows as row;
ghost use Rattle.oe_meanings.specs.ValidShapes.{labels_of};
ghost use Rattle.oe_meanings.specs.Words as word;

use oe_dims::{BandIndex, Kind, Shape, Text, rises};
use oe_meanings::{codes_differ, has_another, has_band, has_number, interval_labels};
use oe_memory::OutOfMemory;
use oe_requests::Interval;
use std::alloc::Global;

// ---- labels among those of a cube

/// Each of the labels is one of the cube's along t, y or x.
pub fn are_numbers_among(shape: &Shape, kind: Kind, labels: &[i64]) -> bool
    ensures { result ≡ are_among same_number (number_labels shape.now kind) labels.now }
{
    labels.iter().all(|label| has_number(shape, kind, *label))
}

/// One of the labels is one of the cube's along t, y or x.
fn is_number_among(shape: &Shape, kind: Kind, labels: &[i64]) -> bool
    ensures { result
        ≡ list_any (λ label. list_any (same_number label)
        (number_labels shape.now kind)) labels.now }
{
    labels.iter().any(|label| has_number(shape, kind, *label))
}

/// Each of the names is a band of the cube of this index.
fn are_bands_among(bands: &BandIndex, shape: &Shape, names: &[Text]) -> bool
    requires { OrdersNames (band_names shape.now) bands.now }
    ensures { result ≡ are_among same_name (band_names shape.now) names.now }
{
    names.iter().all(|name| has_band(bands, shape, name))
}

/// One of the names is a band of the cube of this index.
fn is_band_among(bands: &BandIndex, shape: &Shape, names: &[Text]) -> bool
    requires { OrdersNames (band_names shape.now) bands.now }
    ensures { result
        ≡ list_any (λ name. list_any (same_name name) (band_names shape.now)) names.now }
{
    names.iter().any(|name| has_band(bands, shape, name))
}

/// Each of the given names is a band of the cube of this index.
fn are_given_among(bands: &BandIndex, shape: &Shape, names: &[&Text]) -> bool
    requires { OrdersNames (band_names shape.now) bands.now }
    ensures { result
        ≡ are_among same_name (band_names shape.now) (map (λ name. name.now) names.now) }
{
    for index in 0..names.len() {
        if !has_band(bands, shape, names[index]) {
            return false;
        }
    }
    true
}

/// A band that is given is none of the cube's.
pub fn lacks_a_band(alloc: Global, shape: &Shape, names: &[&Text]) -> Result<bool, OutOfMemory>
    ensures { IfOk result (λ lacks. lacks
        ≡ row.lacks_a_band shape.now (map (λ name. name.now) names.now)) }
{
    let bands = BandIndex::of(alloc, shape)?;
    Ok(!are_given_among(&bands, shape, names))
}

// ---- labels that differ

/// Sorts labels and tells whether no two are equal.
fn differ_in_order(labels: &mut [i64]) -> bool
    ensures { result ≡ are_distinct same_number labels.old }
{
    labels.sort_unstable_by(|a, b| a.cmp(b));
    rises(labels)
}

/// No two of the intervals have one label.
pub fn have_distinct_labels(alloc: Global, intervals: &[Interval]) -> Result<bool, OutOfMemory>
    ensures { IfOk result (λ differ. differ
        ≡ are_distinct same_number (labels_of intervals.now)) }
{
    let mut labels = interval_labels(alloc, intervals)?;
    Ok(differ_in_order(labels.as_mut_slice()))
}

// ---- the label sets of two cubes

/// Along t, y or x both cubes have the same labels in the same order, which one pass over them tells.
fn have_alike_numbers(kind: Kind, one: &Shape, two: &Shape) -> bool
    ensures { result ≡ true → differ_in same_number (numbers_along kind one.now)
        (numbers_along kind two.now) ≡ false }
{
    one.has_same_labels(two, kind)
}

/// Both cubes have the same bands in the same order, which one pass over them tells without an index of names.
fn have_alike_bands(one: &Shape, two: &Shape) -> bool
    ensures { result ≡ true → differ_in same_name one.now.bands two.now.bands ≡ false }
{
    one.has_same_labels(two, Kind::Bands)
}

/// Both cubes have the dimension, one of t, y and x, and there is a label that only one of them has.
fn differ_in_numbers(kind: Kind, one: &Shape, two: &Shape) -> bool
    ensures { result
        ≡ differ_in same_number (numbers_along kind one.now) (numbers_along kind two.now) }
{
    if one.count(kind).is_none() || two.count(kind).is_none() {
        return false;
    }
    if have_alike_numbers(kind, one, two) {
        return false;
    }
    !(are_numbers_among(two, kind, one.labels(kind))
        && are_numbers_among(one, kind, two.labels(kind)))
}

/// Both cubes have bands, and there is one that only one of them has.
fn differ_in_bands(alloc: Global, one: &Shape, two: &Shape) -> Result<bool, OutOfMemory>
    ensures { IfOk result (λ differ. differ
        ≡ differ_in same_name one.now.bands two.now.bands) }
{
    if one.count(Kind::Bands).is_none() || two.count(Kind::Bands).is_none() {
        return Ok(false);
    }
    if have_alike_bands(one, two) {
        return Ok(false);
    }
    let first = BandIndex::of(alloc, one)?;
    let second = BandIndex::of(alloc, two)?;
    Ok(!(are_bands_among(&second, two, one.bands()) && are_bands_among(&first, one, two.bands())))
}

/// Along how many dimensions that both cubes have their label sets differ, 4 at most.
fn count_differences(alloc: Global, one: &Shape, two: &Shape) -> Result<u32, OutOfMemory>
    ensures { IfOk result (λ count. count ≡ labels.differing one.now two.now) }
{
    let t = differ_in_numbers(Kind::Time, one, two) as u32;
    let bands = differ_in_bands(alloc, one, two)? as u32;
    let y = differ_in_numbers(Kind::Y, one, two) as u32;
    let x = differ_in_numbers(Kind::X, one, two) as u32;
    Ok(t + bands + y + x)
}

/// The dimensions of two cubes keep them from being merged (`merge_cubes` of openEO Processes): each has one that the
/// other lacks, their label sets differ along two, or their EPSG codes differ. Refuses: out of memory.
pub fn differ_in_dimensions(alloc: Global, one: &Shape, two: &Shape) -> Result<bool, OutOfMemory>
    ensures { IfOk result (λ differ. differ ≡ row.differ_in_dimensions one.now two.now) }
{
    let differing = count_differences(alloc, one, two)?;
    Ok((has_another(one, two) && has_another(two, one)) || differing > 1 || codes_differ(one, two))
}

/// The dimensions of a mask keep it from being laid over the data (`mask` of openEO Processes): it has one that the
/// data lack, their label sets differ along one, or their EPSG codes differ. Refuses: out of memory.
pub fn differs_from_data(alloc: Global, shape: &Shape, mask: &Shape) -> Result<bool, OutOfMemory>
    ensures { IfOk result (λ differs. differs ≡ row.differs_from_data shape.now mask.now) }
{
    let differing = count_differences(alloc, shape, mask)?;
    Ok(has_another(mask, shape) || differing > 0 || codes_differ(shape, mask))
}

// ---- tuples of two cubes

/// There is a label of t, y or x.
fn has_number_label(kind: Kind, shape: &Shape) -> bool
    ensures { result ≡ word.has_label (number_labels shape.now kind) }
{
    !shape.labels(kind).is_empty()
}

/// There is a band.
fn has_band_label(shape: &Shape) -> bool
    ensures { result ≡ word.has_label (band_names shape.now) }
{
    !shape.bands().is_empty()
}

/// Along t, y or x a label is in both cubes, where one is repeated over a dimension that it lacks.
fn meet_in_numbers(kind: Kind, one: &Shape, two: &Shape) -> bool
    ensures { result
        ≡ word.meet_in same_number (numbers_along kind one.now) (numbers_along kind two.now) }
{
    if matches!(kind, Kind::Bands) {
        return true;
    }
    match (one.count(kind), two.count(kind)) {
        (None, None) => true,
        (Some(_), None) => has_number_label(kind, one),
        (None, Some(_)) => has_number_label(kind, two),
        (Some(_), Some(_)) => is_number_among(two, kind, one.labels(kind)),
    }
}

/// A band is in both cubes, where one is repeated over the bands if it has none.
fn meet_in_bands(alloc: Global, one: &Shape, two: &Shape) -> Result<bool, OutOfMemory>
    ensures { IfOk result (λ meet. meet
        ≡ word.meet_in same_name one.now.bands two.now.bands) }
{
    match (one.count(Kind::Bands), two.count(Kind::Bands)) {
        (None, None) => Ok(true),
        (Some(_), None) => Ok(has_band_label(one)),
        (None, Some(_)) => Ok(has_band_label(two)),
        (Some(_), Some(_)) => {
            let bands = BandIndex::of(alloc, two)?;
            Ok(is_band_among(&bands, two, one.bands()))
        }
    }
}

/// A tuple of labels is in both cubes. Refuses: out of memory.
pub fn share_tuple(alloc: Global, one: &Shape, two: &Shape) -> Result<bool, OutOfMemory>
    ensures { IfOk result (λ share. share ≡ word.share_tuple one.now two.now) }
{
    let bands = meet_in_bands(alloc, one, two)?;
    Ok(
        meet_in_numbers(Kind::Time, one, two)
            && bands
            && meet_in_numbers(Kind::Y, one, two)
            && meet_in_numbers(Kind::X, one, two),
    )
}

// ---- kernels

/// The size of a kernel along one side is even.
pub fn is_even(size: usize) -> bool
    ensures { result ≡ (size % 2 == 0) }
{
    size % 2 == 0
}

/// The size of a kernel along one side is over 31.
pub fn is_over_largest(size: usize) -> bool
    ensures { result ≡ nat_lt largest_size size }
{
    size > 31
}
