// Whether names differ: by comparing each with each where there are few, and otherwise by sorting their indices.
ghost use Rattle.std.specs.Prelude.{◌≡◌, ℕ, ◌<◌, ◌≤◌, ◌&&◌, true, List, [], length, slice_index, slice_index_or};
ghost use Rattle.std.specs.List.{list_any, All};
ghost use Rattle.std.specs.Cmp.Lexicographic.{slice_cmp};
ghost use Rattle.std.specs.Ordering.{nat_cmp};
ghost use Rattle.oe_dims.specs.Dimensions.{all_differ};
ghost use Rattle.oe_dims.specs.Names.{same_name, names_rise, names_at, are_apart, OrdersNames};
ghost use Rattle.oe_dims.specs.Indices.{IsIndexOf};

use crate::Text;
use crate::order::same_name;
use std::cmp::Ordering;

/// Up to how many names are compared each with each.
const FEW: usize = 24;

/// How many names are sorted at once by their indices, which then fit 16 bits.
const BLOCK: usize = 65536;

/// The name is one of these.
fn is_among(name: &Text, names: &[Text]) -> bool
    ensures { result ≡ list_any (same_name name.now) names.now }
{
    names.iter().any(|other| same_name(name, other))
}

/// No name occurs twice, by comparing each with each.
fn differ_each(names: &[Text]) -> bool
    ensures { result ≡ all_differ names.now }
{
    for index in 0..names.len() {
        if is_among(&names[index], &names[index + 1..]) {
            return false;
        }
    }
    true
}

/// The bytes of the name at an index, none past the end.
fn bytes_at(names: &[Text], index: u16) -> &[u8]
    ensures { result.now ≡ slice_index_or names.now index [] }
{
    match names.get(usize::from(index)) {
        Some(name) => name.as_str().as_bytes(),
        None => &[],
    }
}

/// How the names at two indices compare, in the order of their bytes.
fn compare_at(names: &[Text], a: u16, b: u16) -> Ordering
    ensures { result
        ≡ slice_cmp nat_cmp (slice_index_or names.now a []) (slice_index_or names.now b []) }
{
    bytes_at(names, a).cmp(bytes_at(names, b))
}

/// Numbers the indices from 0.
fn number(indices: &mut [u16])
    requires { length indices.old ≤ 65536 }
    ensures { (k : ℕ) → k < length indices.new → slice_index indices.new k ≡ k }
{
    for index in 0..indices.len() {
        indices[index] = index as u16;
    }
}

/// The names at these indices rise.
fn names_rise(names: &[Text], indices: &[u16]) -> bool
    ensures { result ≡ names_rise (names_at names.now indices.now) }
{
    for k in 1..indices.len() {
        if !compare_at(names, indices[k - 1], indices[k]).is_lt() {
            return false;
        }
    }
    true
}

/// Sorts the indices of names in the order of the names, and tells whether no name occurs twice.
pub fn sort_indices(names: &[Text], indices: &mut [u16]) -> bool
    requires same_length { length indices.old ≡ length names.now }
    requires most { length names.now ≤ 65536 }
    ensures value { result ≡ all_differ names.now }
    ensures rise { result ≡ names_rise (names_at names.now indices.new) }
    ensures within { All (λ index. index < length names.now) indices.new }
    ensures same { (name : List ℕ) → list_any (same_name name) (names_at names.now indices.new)
        ≡ list_any (same_name name) names.now }
{
    number(indices);
    indices.sort_unstable_by(|a, b| compare_at(names, *a, *b));
    names_rise(names, indices)
}

/// The name is one of the names at these indices, which rise.
fn is_at_indices(name: &Text, names: &[Text], indices: &[u16]) -> bool
    requires { names_rise (names_at names.now indices.now) ≡ true }
    ensures { result ≡ list_any (same_name name.now) (names_at names.now indices.now) }
{
    indices
        .binary_search_by(|index| bytes_at(names, *index).cmp(name.as_str().as_bytes()))
        .is_ok()
}

/// The index of a name among names that differ, by these indices, which put them into order.
pub fn find_in_order(name: &Text, names: &[Text], order: &[u16]) -> Option<u16>
    requires differ { all_differ names.now ≡ true }
    requires order { OrdersNames names.now order.now }
    ensures { IsIndexOf names.now name.now result }
{
    match order.binary_search_by(|index| bytes_at(names, *index).cmp(name.as_str().as_bytes())) {
        Ok(found) => Some(order[found]),
        Err(_) => None,
    }
}

/// None of the others is one of the names at these indices, which rise.
fn are_apart(names: &[Text], indices: &[u16], others: &[Text]) -> bool
    requires { names_rise (names_at names.now indices.now) ≡ true }
    ensures { result ≡ are_apart (names_at names.now indices.now) others.now }
{
    others
        .iter()
        .all(|other| !is_at_indices(other, names, indices))
}

/// No name of a block occurs twice in it, or again among the others.
fn block_differs(block: &[Text], others: &[Text], indices: &mut [u16]) -> bool
    requires same_length { length indices.old ≡ length block.now }
    requires most { length block.now ≤ 65536 }
    ensures { result ≡ (all_differ block.now && are_apart block.now others.now) }
{
    sort_indices(block, indices) && are_apart(block, indices, others)
}

/// No name occurs twice, by sorting a block of names at a time.
fn differ_by_blocks(names: &[Text]) -> bool
    ensures { result ≡ all_differ names.now }
{
    let mut indices = [0u16; BLOCK];
    let mut rest = names;
    while rest.len() > BLOCK {
        let (block, others) = rest.split_at(BLOCK);
        if !block_differs(block, others, &mut indices) {
            return false;
        }
        rest = others;
    }
    sort_indices(rest, &mut indices[..rest.len()])
}

/// No name occurs twice.
pub fn all_differ(names: &[Text]) -> bool
    ensures { result ≡ all_differ names.now }
{
    if names.len() <= FEW {
        differ_each(names)
    } else {
        differ_by_blocks(names)
    }
}
