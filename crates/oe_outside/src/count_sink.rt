// A sink that only counts.
ghost use Rattle.std.specs.Prelude.{◌≡◌, ◌+◌, Some, None, min, length, IsOk};
ghost use Rattle.oe_outside.specs.Faults.{last_count};

use crate::{Failed, Sink};
use std::marker::Model;

/// A sink that keeps only how many bytes were written, up to 2^64 - 1. It takes no memory and never fails.
#[derive(Drop)]
pub struct CountSink {
    count: u64,
}

impl Model for CountSink {
    ghost use Rattle.std.specs.Prelude.{ℕ};

    ghost Value = { ℕ };

    ghost view = { λ s. s.count };
}

impl CountSink {
    /// A sink to which nothing was written.
    pub fn new() -> CountSink
        ensures { result ≡ 0 }
    {
        CountSink { count: 0 }
    }

    /// How many bytes were written.
    pub fn count(&self) -> u64
        ensures { result ≡ self.now }
    {
        self.count
    }
}

impl Sink for CountSink {
    ghost written = { λ _. None };

    ghost size = { λ s. Some s };

    ghost faults = { λ _. 0 };

    /// Counts the bytes of the piece.
    fn write(&mut self, piece: &[u8]) -> Result<(), Failed>
        ensures succeeds { IsOk result }
        ensures count { self.new ≡ min (self.old + length piece.now) last_count }
    {
        self.count = self.count.saturating_add(piece.len() as u64);
        Ok(())
    }
}
