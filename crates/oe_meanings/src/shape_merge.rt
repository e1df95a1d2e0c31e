// The shape of two cubes that are merged.
ghost use Rattle.std.specs.Prelude.{◌≡◌, ◌++◌, IfOk, true};
ghost use Rattle.std.specs.Option.{option_map};
ghost use Rattle.oe_dims.specs.Dimensions.{IsShape, number_labels, band_names, numbers_along};
ghost use Rattle.oe_dims.specs.Indices.{same_number};
ghost use Rattle.oe_dims.specs.Lists.{items_of, HaveSameLabels};
ghost use Rattle.oe_dims.specs.Names.{same_name};
ghost use Rattle.oe_requests.specs.Labels.{is_below, is_above, sorted_labels, new_among, all_in_order, all_bands, either_epsg, shape_of_merge};
ghost use Rattle.oe_meanings.specs.Results.{IsRisingKind, where_within_limits};

use crate::shape_aggregation::{sort_falling, sort_rising};
use crate::shape_labels::{has_band, has_number};
use crate::shape_parts::shape_within;
use oe_dims::{BandIndex, Kind, Shape, Text, copy_bands, copy_numbers, copy_texts};
use oe_memory::OutOfMemory;
use std::alloc::Global;

/// The labels that the cube does not have along t, y or x.
fn new_numbers(
    alloc: Global,
    one: &Shape,
    kind: Kind,
    others: &[i64],
) -> Result<Vec<i64>, OutOfMemory>
    ensures { IfOk result (λ labels. labels.items
        ≡ new_among same_number (number_labels one.now kind) others.now) }
{
    let mut labels = Vec::with_capacity(alloc, others.len())?;
    for index in 0..others.len() {
        let label = others[index];
        if !has_number(one, kind, label) {
            labels.push(label)?;
        }
    }
    Ok(labels)
}

/// The labels of the first cube along t, y or x, and then the new ones of the second.
fn join_numbers(
    alloc: Global,
    one: &Shape,
    two: &Shape,
    kind: Kind,
) -> Result<Vec<i64>, OutOfMemory>
    ensures { IfOk result (λ labels. labels.items ≡ number_labels one.now kind
        ++ new_among same_number (number_labels one.now kind) (number_labels two.now kind)) }
{
    let others = new_numbers(alloc, one, kind, two.labels(kind))?;
    let mut labels = Vec::from_slice(alloc, one.labels(kind))?;
    labels.extend_from_slice(others.as_slice())?;
    Ok(labels)
}

/// The labels of t or x of either cube, which rise.
fn all_rising(
    alloc: Global,
    one: &Shape,
    two: &Shape,
    kind: Kind,
) -> Result<Option<Vec<i64>>, OutOfMemory>
    requires rising { IsRisingKind kind }
    ensures { IfOk result (λ labels. option_map items_of labels
        ≡ all_in_order is_below (numbers_along kind one.now) (numbers_along kind two.now)) }
{
    if one.count(kind).is_none() {
        copy_numbers(alloc, two, kind)
    } else if two.count(kind).is_none() {
        copy_numbers(alloc, one, kind)
    } else {
        let mut labels = join_numbers(alloc, one, two, kind)?;
        sort_rising(labels.as_mut_slice());
        Ok(Some(labels))
    }
}

/// The labels of y of either cube, which fall.
fn all_falling(alloc: Global, one: &Shape, two: &Shape) -> Result<Option<Vec<i64>>, OutOfMemory>
    ensures { IfOk result (λ labels. option_map items_of labels
        ≡ all_in_order is_above one.now.y two.now.y) }
{
    if one.count(Kind::Y).is_none() {
        copy_numbers(alloc, two, Kind::Y)
    } else if two.count(Kind::Y).is_none() {
        copy_numbers(alloc, one, Kind::Y)
    } else {
        let mut labels = join_numbers(alloc, one, two, Kind::Y)?;
        sort_falling(labels.as_mut_slice());
        Ok(Some(labels))
    }
}

/// The names of the first cube's bands, and then the new ones of the second, found by an index made once.
fn join_bands(alloc: Global, one: &Shape, two: &Shape) -> Result<Vec<Text>, OutOfMemory>
    ensures { IfOk result (λ names. names.items ≡ band_names one.now
        ++ new_among same_name (band_names one.now) (band_names two.now)) }
{
    let bands = BandIndex::of(alloc, one)?;
    let mut names = copy_texts(alloc, one.bands())?;
    let others = two.bands();
    for index in 0..others.len() {
        if !has_band(&bands, one, &others[index]) {
            names.push(others[index].copy()?)?;
        }
    }
    Ok(names)
}

/// The bands of either cube.
fn either_bands(alloc: Global, one: &Shape, two: &Shape) -> Result<Option<Vec<Text>>, OutOfMemory>
    ensures { IfOk result (λ names. option_map items_of names
        ≡ all_bands one.now.bands two.now.bands) }
{
    if one.count(Kind::Bands).is_none() {
        copy_bands(alloc, two)
    } else if two.count(Kind::Bands).is_none() {
        copy_bands(alloc, one)
    } else {
        Ok(Some(join_bands(alloc, one, two)?))
    }
}

/// The EPSG code of the cube that has one.
fn epsg_of_either(one: &Shape, two: &Shape) -> u32
    ensures value { result ≡ either_epsg one.now.epsg two.now.epsg }
    ensures one { IsShape one.now }
    ensures two { IsShape two.now }
{
    let first = one.epsg();
    let second = two.epsg();
    if first == 0 { second } else { first }
}

/// The second cube lacks the dimension, or has the labels of the first there, in the same order.
#[tactic(auto, using(crate::proofs::SameLemmas::lacking_stay, crate::proofs::SameLemmas::same_stay))]
fn has_no_other(kind: Kind, one: &Shape, two: &Shape) -> bool
    ensures { result ≡ true → HaveSameLabels (shape_of_merge one.now two.now) one.now kind }
{
    two.count(kind).is_none() || one.has_same_labels(two, kind)
}

/// The second cube has nothing that the first lacks, as one pass over its labels tells.
#[tactic(auto, using(crate::proofs::SameLemmas::all_stay))]
pub fn adds_nothing(one: &Shape, two: &Shape) -> bool
    ensures { result ≡ true → shape_of_merge one.now two.now ≡ one.now }
{
    epsg_of_either(one, two) == one.epsg()
        && has_no_other(Kind::Time, one, two)
        && has_no_other(Kind::Bands, one, two)
        && has_no_other(Kind::Y, one, two)
        && has_no_other(Kind::X, one, two)
}

/// The shape with the labels of both cubes (`merge_cubes` of openEO Processes), `None` where it has over 65536 labels
/// along a dimension or over 2^40 cells. Whether the second adds nothing is seen sooner by `adds_nothing`. Refuses: out
/// of memory.
pub fn shape_of_merge(alloc: Global, one: &Shape, two: &Shape) -> Result<Option<Shape>, OutOfMemory>
    ensures { IfOk result (λ found. found ≡ where_within_limits (shape_of_merge one.now two.now)) }
{
    let t = all_rising(alloc, one, two, Kind::Time)?;
    let bands = either_bands(alloc, one, two)?;
    let y = all_falling(alloc, one, two)?;
    let x = all_rising(alloc, one, two, Kind::X)?;
    Ok(shape_within(epsg_of_either(one, two), t, bands, y, x))
}
