// The intervals of an aggregation, and where to look for the one that has a label.
ghost use Rattle.std.specs.Prelude.{◌≡◌, IfOk};

use crate::extent::Interval;
use oe_memory::OutOfMemory;
use std::alloc::Global;
use std::marker::Model;

/// The intervals of an aggregation as they were given. Contracts see them alone.
pub struct Intervals {
    given: Vec<Interval>,
    /// Their numbers in the order of their labels: where to look first, on which no answer rests.
    by_label: Vec<usize>,
}

impl Model for Intervals {
    ghost use Rattle.std.specs.Prelude.{List};
    ghost use Rattle.oe_requests.specs.declared.extent.Interval.{Interval};

    ghost Value = { List Interval };

    ghost view = { λ s. s.given.items };
}

/// Written out, so that intervals that end are one call wherever they do.
impl Drop for Intervals {
    fn drop(self) {
        let Intervals {
            given: _,
            by_label: _,
        } = self;
    }
}

impl Intervals {
    /// Those of a vector. Refuses: out of memory.
    pub fn of(alloc: Global, given: Vec<Interval>) -> Result<Intervals, OutOfMemory>
        ensures { IfOk result (λ s. s ≡ given.items) }
    {
        let by_label = numbers_by_label(alloc, &given)?;
        Ok(Intervals { given, by_label })
    }

    /// The intervals as they were given.
    pub fn as_slice(&self) -> &[Interval]
        ensures { result.now ≡ self.now }
    {
        self.given.as_slice()
    }

    /// Where to look first for the interval whose label stands at an index among all labels in their order: there, where
    /// no two intervals have one label.
    pub fn near(&self, index: u32) -> usize {
        match self.by_label.get(index as usize) {
            Some(number) => *number,
            None => 0,
        }
    }
}

/// The numbers of intervals in the order of their labels.
fn numbers_by_label(alloc: Global, intervals: &[Interval]) -> Result<Vec<usize>, OutOfMemory> {
    let mut numbers = Vec::with_capacity(alloc, intervals.len())?;
    for number in 0..intervals.len() {
        numbers.push(number)?;
    }
    numbers.sort_unstable_by(|a, b| label_of(intervals, *a).cmp(&label_of(intervals, *b)));
    Ok(numbers)
}

fn label_of(intervals: &[Interval], number: usize) -> i64 {
    match intervals.get(number) {
        Some(interval) => interval.label,
        None => 0,
    }
}
