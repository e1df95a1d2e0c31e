// Tests of labels and of names: their order, and whether they are equal.
ghost use Rattle.std.specs.Prelude.{◌≡◌};
ghost use Rattle.std.specs.List.{list_all};
ghost use Rattle.oe_dims.specs.Dimensions.{rises, falls, all_between};
ghost use Rattle.oe_dims.specs.Names.{is_name, is_name_before, same_name};
ghost use Rattle.oe_dims.specs.Indices.{index_where};

use crate::{Text, is_name};

/// Each label is above the one before.
pub fn rises(labels: &[i64]) -> bool
    ensures { result ≡ rises labels.now }
{
    for index in 1..labels.len() {
        if labels[index - 1] >= labels[index] {
            return false;
        }
    }
    true
}

/// Each label is below the one before.
pub fn falls(labels: &[i64]) -> bool
    ensures { result ≡ falls labels.now }
{
    for index in 1..labels.len() {
        if labels[index - 1] <= labels[index] {
            return false;
        }
    }
    true
}

/// Every label lies from `low` to `high`, both included.
pub fn all_between(low: i64, high: i64, labels: &[i64]) -> bool
    ensures { result ≡ all_between low high labels.now }
{
    labels.iter().all(|l| low <= *l && *l <= high)
}

/// Every name is valid.
pub fn all_names(names: &[Text]) -> bool
    ensures { result ≡ list_all is_name names.now }
{
    names.iter().all(|name| is_name(name.as_str()))
}

/// The two names have the same bytes.
pub fn same_name(a: &Text, b: &Text) -> bool
    ensures { result ≡ same_name a.now b.now }
{
    a.as_str() == b.as_str()
}

/// The two texts have the same bytes.
pub fn same_text(a: &str, b: &str) -> bool
    ensures { result ≡ same_name a.now b.now }
{
    a == b
}

/// Whether a text stands before another in the order of bytes.
pub fn is_name_before(a: &str, b: &str) -> bool
    ensures { result ≡ is_name_before a.now b.now }
{
    a < b
}

/// The index of a name among these.
pub fn index_of_name(name: &Text, names: &[Text]) -> Option<usize>
    ensures { result ≡ index_where (same_name name.now) names.now }
{
    for index in 0..names.len() {
        if same_name(name, &names[index]) {
            return Some(index);
        }
    }
    None
}
