// The labels of several cubes along one dimension.
ghost use Rattle.std.specs.Prelude.{◌≡◌, ◌≤◌, IfOk, drop, length};
ghost use Rattle.std.specs.List.{list_any};
ghost use Rattle.std.specs.Option.{option_map};
ghost use Rattle.oe_dims.specs.Lists.{items_of};
ghost use Rattle.oe_dims.specs.Names.{same_name};
ghost use Rattle.oe_dims.specs.Dimensions.{numbers_along};
ghost use Rattle.oe_mosaic.specs.Labels.{join_bands, join_labels, merge_labels, new_names, stands_before};

use oe_dims::{Kind, Shape, Text, copy_bands, copy_numbers, same_name};
use oe_memory::OutOfMemory;
use std::alloc::Global;

/// A label stands before another along a dimension.
fn stands_before(kind: Kind, a: i64, b: i64) -> bool
    ensures { result ≡ stands_before kind a b }
{
    match kind {
        Kind::Time => a < b,
        Kind::Bands => a < b,
        Kind::Y => b < a,
        Kind::X => a < b,
    }
}

/// The labels from an index on.
fn rest_from(labels: &[i64], first: usize) -> &[i64]
    requires { first ≤ length labels.now }
    ensures { result.now ≡ drop first labels.now }
{
    let (_, rest) = labels.split_at(first);
    rest
}

/// The labels of two lists, each of which is in the order of the dimension, in that order and each once.
fn merge_labels(
    alloc: Global,
    kind: Kind,
    one: &[i64],
    two: &[i64],
) -> Result<Vec<i64>, OutOfMemory>
    ensures { IfOk result (λ labels. labels.items ≡ merge_labels kind one.now two.now) }
{
    let mut labels = Vec::new(alloc);
    let mut first = 0;
    let mut second = 0;
    while first < one.len() && second < two.len() {
        let a = one[first];
        let b = two[second];
        if stands_before(kind, a, b) {
            labels.push(a)?;
            first += 1;
        } else if stands_before(kind, b, a) {
            labels.push(b)?;
            second += 1;
        } else {
            labels.push(a)?;
            first += 1;
            second += 1;
        }
    }
    labels.extend_from_slice(rest_from(one, first))?;
    labels.extend_from_slice(rest_from(two, second))?;
    Ok(labels)
}

/// The labels of t, y or x of a cube, joined to those before.
pub fn join_labels(
    alloc: Global,
    kind: Kind,
    before: Option<Vec<i64>>,
    shape: &Shape,
) -> Result<Option<Vec<i64>>, OutOfMemory>
    ensures { IfOk result (λ labels. option_map items_of labels
        ≡ join_labels kind (option_map items_of before) (numbers_along kind shape.now)) }
{
    let Some(labels) = before else {
        return copy_numbers(alloc, shape, kind);
    };
    match copy_numbers(alloc, shape, kind)? {
        None => Ok(Some(labels)),
        Some(others) => Ok(Some(merge_labels(alloc, kind, &labels, &others)?)),
    }
}

/// The name is among those before.
fn has_name(before: &[Text], name: &Text) -> bool
    ensures { result ≡ list_any (same_name name.now) before.now }
{
    before.iter().any(|other| same_name(name, other))
}

/// Copies of the names that are not among those before.
fn new_names(alloc: Global, before: &[Text], names: &[Text]) -> Result<Vec<Text>, OutOfMemory>
    ensures { IfOk result (λ found. found.items ≡ new_names before.now names.now) }
{
    let mut found = Vec::new(alloc);
    for index in 0..names.len() {
        if !has_name(before, &names[index]) {
            found.push(names[index].copy()?)?;
        }
    }
    Ok(found)
}

/// The bands of a cube, joined to those before.
pub fn join_bands(
    alloc: Global,
    before: Option<Vec<Text>>,
    shape: &Shape,
) -> Result<Option<Vec<Text>>, OutOfMemory>
    ensures { IfOk result (λ names. option_map items_of names
        ≡ join_bands (option_map items_of before) shape.now.bands) }
{
    let Some(mut names) = before else {
        return copy_bands(alloc, shape);
    };
    match shape.count(Kind::Bands) {
        None => Ok(Some(names)),
        Some(_) => {
            let mut others = new_names(alloc, &names, shape.bands())?;
            names.append(&mut others)?;
            Ok(Some(names))
        }
    }
}
