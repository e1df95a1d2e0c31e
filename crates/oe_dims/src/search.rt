// Binary searches among labels in order.
ghost use Rattle.std.specs.Prelude.{◌≡◌, ◌<◌, ◌≤◌, ◌^◌, true, false, int_lt, int_le, length, filter, count_by};
ghost use Rattle.std.specs.List.{slice_range};
ghost use Rattle.std.specs.List.Sorted.{IsPartitionPoint};
ghost use Rattle.oe_dims.specs.Dimensions.{rises, falls};
ghost use Rattle.oe_dims.specs.Indices.{same_number, index_where, is_inside, IsIndexRange};

/// How many rising labels are below a number.
fn count_below(labels: &[i64], bound: i64) -> usize
    requires { rises labels.now ≡ true }
    ensures within { result ≤ length labels.now }
    ensures point { IsPartitionPoint (λ l. int_lt l bound ≡ true)
        (λ l. int_lt l bound ≡ false) labels.now result }
{
    labels.partition_point(|l| *l < bound)
}

/// How many rising labels are at most a number.
fn count_at_most(labels: &[i64], bound: i64) -> usize
    requires { rises labels.now ≡ true }
    ensures within { result ≤ length labels.now }
    ensures point { IsPartitionPoint (λ l. int_le l bound ≡ true)
        (λ l. int_le l bound ≡ false) labels.now result }
{
    labels.partition_point(|l| *l <= bound)
}

/// How many falling labels are above a number.
fn count_above(labels: &[i64], bound: i64) -> usize
    requires { falls labels.now ≡ true }
    ensures within { result ≤ length labels.now }
    ensures point { IsPartitionPoint (λ l. int_lt bound l ≡ true)
        (λ l. int_lt bound l ≡ false) labels.now result }
{
    labels.partition_point(|l| *l > bound)
}

/// How many falling labels are at least a number.
fn count_at_least(labels: &[i64], bound: i64) -> usize
    requires { falls labels.now ≡ true }
    ensures within { result ≤ length labels.now }
    ensures point { IsPartitionPoint (λ l. int_le bound l ≡ true)
        (λ l. int_le bound l ≡ false) labels.now result }
{
    labels.partition_point(|l| *l >= bound)
}

/// The index of a label among rising ones.
pub fn index_in_rising(labels: &[i64], label: i64) -> Option<usize>
    requires { rises labels.now ≡ true }
    ensures { result ≡ index_where (same_number label) labels.now }
{
    let index = count_below(labels, label);
    if index < labels.len() && labels[index] == label {
        Some(index)
    } else {
        None
    }
}

/// The index of a label among falling ones.
pub fn index_in_falling(labels: &[i64], label: i64) -> Option<usize>
    requires { falls labels.now ≡ true }
    ensures { result ≡ index_where (same_number label) labels.now }
{
    let index = count_above(labels, label);
    if index < labels.len() && labels[index] == label {
        Some(index)
    } else {
        None
    }
}

/// The indices of the rising labels from `from` to `to`, both inside, as the first and the end.
pub fn run_in_rising(labels: &[i64], from: i64, to: i64) -> (usize, usize)
    requires { rises labels.now ≡ true }
    ensures first { result.0 ≡ count_by (λ l. int_lt l from) labels.now }
    ensures run { IsIndexRange from to labels.now result.0 result.1 }
    ensures kept { slice_range labels.now result.0 result.1
        ≡ filter (is_inside from to) labels.now }
{
    let first = count_below(labels, from);
    let last = count_at_most(labels, to);
    (first, first.max(last))
}

/// The indices of the falling labels from `from` to `to`, both inside, as the first and the end.
pub fn run_in_falling(labels: &[i64], from: i64, to: i64) -> (usize, usize)
    requires { falls labels.now ≡ true }
    ensures first { result.0 ≡ count_by (λ l. int_lt to l) labels.now }
    ensures run { IsIndexRange from to labels.now result.0 result.1 }
    ensures kept { slice_range labels.now result.0 result.1
        ≡ filter (is_inside from to) labels.now }
{
    let first = count_above(labels, to);
    let last = count_at_least(labels, from);
    (first, first.max(last))
}
