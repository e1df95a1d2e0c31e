// Labels along a dimension that stand one after the other in an argument too.
ghost use Rattle.std.specs.Prelude.{◌≡◌, ◌↔◌, ℕ, ◌+◌, ◌<◌, ◌≤◌, length, Some, IfSome, IsTrue};
ghost use Rattle.std.specs.List.{slice_range};
ghost use Rattle.oe_dims.specs.Dimensions.{IsShape};
ghost use Rattle.oe_window.specs.Windows.{IsAlong, extent_along};
ghost use Rattle.oe_ops.specs.Indices.{IsOnRun, index_in_argument};

use crate::slice::indices;
use crate::source::index_in;
use oe_dims::{Kind, Shape};
use oe_window::Span;

/// The indices in an argument of labels of a result: those from `from` on stand there from `first` on, or not one after
/// the other.
#[derive(Clone, Copy)]
pub(crate) struct Run {
    pub from: u32,
    pub first: Option<u32>,
}

/// Whether so many labels from one on are those from another on.
fn are_same(labels: &[i64], from: usize, others: &[i64], first: usize, count: usize) -> bool
    requires ends { from + count ≤ length labels.now }
    requires others_end { first + count ≤ length others.now }
    ensures { IsTrue result ↔ (slice_range labels.now from (from + count)
        ≡ slice_range others.now first (first + count)) }
{
    labels[from..from + count] == others[first..first + count]
}

/// The index in the argument of a label, from which on its labels are so many from that one on.
fn first_from(shape: &Shape, argument: &Shape, along: Kind, from: u32, count: usize) -> Option<u32>
    requires some { 0 < count }
    requires inside { from + count ≤ extent_along shape.now along }
    ensures { IfSome result (λ first. (k : ℕ) → k < count
        → index_in_argument along shape.now argument.now (from + k) ≡ Some (first + k)) }
{
    let labels = shape.labels(along);
    let others = argument.labels(along);
    let first = index_in(shape, argument, along, from)?;
    if labels.len() < from as usize + count || others.len() < first as usize + count {
        return None;
    }
    if are_same(labels, from as usize, others, first as usize, count) {
        Some(first)
    } else {
        None
    }
}

/// The run of the labels of a span.
pub(crate) fn run_of(shape: &Shape, argument: &Shape, along: Kind, span: Span) -> Run
    requires some { span.from < span.to }
    requires inside { span.to ≤ extent_along shape.now along }
    ensures { (index : ℕ) → IsAlong span index
        → IsOnRun along shape.now argument.now result index }
{
    Run {
        from: span.from,
        first: first_from(shape, argument, along, span.from, indices(span)),
    }
}

/// The index in the argument of a label, by the run where there is one.
pub(crate) fn index_by(
    shape: &Shape,
    argument: &Shape,
    along: Kind,
    run: Run,
    index: u32,
) -> Option<u32>
    requires valid { IsShape argument.now }
    requires inside { index < extent_along shape.now along }
    requires on_run { IsOnRun along shape.now argument.now run index }
    ensures { result ≡ index_in_argument along shape.now argument.now index }
{
    match run.first {
        None => index_in(shape, argument, along, index),
        Some(first) => Some(first + (index - run.from)),
    }
}
