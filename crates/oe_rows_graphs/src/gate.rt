// A gate that counts, and at which two chunks may wait for each other.
use oe_lines::Fault;
use oe_outside::Gate;
use std::alloc::Global;
use std::sync::atomic::{AtomicU64, Ordering};

/// How many chunks it has counters for.
const MOST_CHUNKS: u64 = 64;

/// How often a chunk looks for the one that it waits for.
const MOST_LOOKS: u64 = 1000000000;

/// A gate that counts for each chunk how often it was entered.
pub(crate) struct CountGate {
    entered: Vec<AtomicU64>,
    /// Whether the first two chunks wait for each other, and how often one looked in vain.
    is_meeting: bool,
    missed: AtomicU64,
}

/// Written out, so that a gate that ends is one call wherever it does.
impl Drop for CountGate {
    fn drop(self) {
        let CountGate {
            entered: _,
            is_meeting: _,
            missed: _,
        } = self;
    }
}

impl CountGate {
    pub(crate) fn new(alloc: Global) -> Result<CountGate, Fault> {
        CountGate::of(alloc, false)
    }

    /// Such a gate, at which the first two chunks wait for each other where it is a meeting.
    pub(crate) fn of(alloc: Global, is_meeting: bool) -> Result<CountGate, Fault> {
        let mut entered = Vec::new(alloc);
        for _ in 0..MOST_CHUNKS {
            entered.push(AtomicU64::new(0))?;
        }
        Ok(CountGate {
            entered,
            is_meeting,
            missed: AtomicU64::new(0),
        })
    }

    /// How often it was entered for a chunk, `None` where it has no counter for it.
    pub(crate) fn entered(&self, chunk: u64) -> Option<u64> {
        match self.entered.get(chunk as usize) {
            Some(count) => Some(count.load(Ordering::SeqCst)),
            None => None,
        }
    }

    /// Whether each of the first two chunks saw the other before it went on, `None` where they were not to wait.
    pub(crate) fn have_met(&self) -> Option<bool> {
        if self.is_meeting {
            Some(self.missed.load(Ordering::SeqCst) == 0)
        } else {
            None
        }
    }

    /// Looks whether a chunk has entered until it has, and notes where it has not after the last look.
    fn wait_for(&self, chunk: u64) {
        for _ in 0..MOST_LOOKS {
            if self.entered(chunk) != Some(0) {
                return;
            }
        }
        self.missed.fetch_add(1, Ordering::SeqCst);
    }
}

impl Gate for CountGate {
    fn open(&self, _chunks: u64) {}

    fn enter(&self, chunk: u64) {
        if let Some(count) = self.entered.get(chunk as usize) {
            count.fetch_add(1, Ordering::SeqCst);
        }
        if self.is_meeting && chunk < 2 {
            self.wait_for(1 - chunk);
        }
    }

    fn close(&self) {}
}
