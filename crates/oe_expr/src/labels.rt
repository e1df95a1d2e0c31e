// Where labels stand, and which lists have an element.
ghost use Rattle.std.specs.Prelude.{◌≡◌, ◌-◌, ◌≤◌, map, option_map, nat_le, nat_lt, ◌||◌, All};
ghost use Rattle.std.specs.List.{list_any};
ghost use Rattle.oe_dims.specs.Indices.{same_number, index_where};
ghost use Rattle.oe_dims.specs.Names.{same_name};
ghost use Rattle.oe_dims.specs.Plain.{plain_labels, plain_instants};
ghost use Rattle.oe_expr.specs.PlainRequests.{plain_items, plain_label};
ghost use Rattle.oe_expr.specs.Rows.{has_no_element, listings, listing_of_labels};
ghost use Rattle.oe_expr.specs.Scope as spec;
ghost use Rattle.oe_expr.specs.declared.scope.ListPart.{ListPart};

use crate::request::{Items, Label};
use crate::scope::{ListPart, Scope};
use oe_dims::{Labels, Text, read_instant};

/// The index of a label among all labels of a dimension.
pub(crate) fn label_index(labels: &Labels, label: Label<'_>) -> Option<usize>
    ensures { result ≡ spec.label_index (plain_labels labels.now) (plain_label label.entry) }
{
    match labels {
        Labels::Instants(instants) => match label {
            Label::Text(text) => instant_index(instants, text),
            Label::Whole(_) => None,
        },
        Labels::Names(names) => match label {
            Label::Text(text) => name_index(names, text),
            Label::Whole(_) => None,
        },
        Labels::Places(coordinates) => match label {
            Label::Text(_) => None,
            Label::Whole(whole) => number_index(coordinates, whole),
        },
    }
}

/// The index of the instant that a text spells.
fn instant_index(instants: &[i64], text: &str) -> Option<usize>
    ensures { result ≡ spec.label_index (plain_instants instants.now) (spec.text text.now) }
{
    match read_instant(text) {
        Ok(seconds) => number_index(instants, seconds),
        Err(_) => None,
    }
}

fn number_index(numbers: &[i64], label: i64) -> Option<usize>
    ensures { result ≡ index_where (same_number label) numbers.now }
{
    for index in 0..numbers.len() {
        if numbers[index] == label {
            return Some(index);
        }
    }
    None
}

fn name_index(names: &[Text], label: &str) -> Option<usize>
    ensures { result ≡ index_where (same_name label.now) names.now }
{
    for index in 0..names.len() {
        if label == names[index].as_str() {
            return Some(index);
        }
    }
    None
}

/// Whether a list that the argument may be lacks the element of an index, or else of a label.
pub(crate) fn lacks_element(
    scope: &Scope,
    items: &Items<'_>,
    index: Option<u64>,
    label: Option<Label<'_>>,
) -> bool
    requires { spec.IsScope (spec.plain_scope scope.now) }
    ensures { result ≡ list_any (has_no_element index (option_map plain_label label.entry))
        (listings (spec.plain_scope scope.now) (plain_items items.now)) }
{
    match items {
        Items::Written(scalars) => match index {
            Some(index) => index >= scalars.len() as u64,
            None => true,
        },
        Items::Data => match scope {
            Scope::Reduce { labels, lists, .. } => lists_lack(labels, lists, index, label),
            _ => false,
        },
    }
}

/// Whether one of the lists of a scope lacks the element.
fn lists_lack(
    labels: &Labels,
    lists: &[ListPart],
    index: Option<u64>,
    label: Option<Label<'_>>,
) -> bool
    requires { spec.AreLists (plain_labels labels.now) lists.now }
    ensures { result ≡ list_any (has_no_element index (option_map plain_label label.entry))
        (map (λ part. listing_of_labels (spec.labels_in (plain_labels labels.now) part))
        lists.now) }
{
    match index {
        Some(index) => any_list_ends_before(lists, index),
        None => match label {
            Some(label) => match label_index(labels, label) {
                Some(index) => any_list_is_without(lists, index as u64),
                None => !lists.is_empty(),
            },
            None => !lists.is_empty(),
        },
    }
}

/// Whether a list has no element of an index.
fn any_list_ends_before(lists: &[ListPart], index: u64) -> bool
    requires { All (λ (part : ListPart). part.from ≤ part.to) lists.now }
    ensures { result
        ≡ list_any (λ (part : ListPart). nat_le (part.to - part.from) index) lists.now }
{
    for part in lists {
        if index >= part.to as u64 - part.from as u64 {
            return true;
        }
    }
    false
}

/// Whether a list does not hold the label of an index.
fn any_list_is_without(lists: &[ListPart], index: u64) -> bool
    ensures { result ≡ list_any
        (λ (part : ListPart). nat_lt index part.from || nat_le part.to index) lists.now }
{
    for part in lists {
        if index < part.from as u64 || index >= part.to as u64 {
            return true;
        }
    }
    false
}
