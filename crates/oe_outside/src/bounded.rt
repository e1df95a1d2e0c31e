// A sink in memory with room for one byte more than a stored text may have.
ghost use Rattle.std.specs.Prelude.{◌≡◌, ◌↔◌, ◌<◌, ◌++◌, ◌-◌, Some, [], take, length, is_err, IsErr, IsTrue, IfOk, OnOk, OnErr};
ghost use Rattle.oe_outside.specs.Faults.{HasCause, count_after};
ghost use Rattle.oe_outside.specs.Visible.{AddsBytes, AddsSome};

use crate::pieces::append;
use crate::script::raise;
use crate::{Failed, Sink};
use oe_memory::OutOfMemory;
use std::alloc::Global;
use std::marker::Model;

/// How many bytes there is room for: one more than the 1048576 of the longest text.
const ROOM: usize = 1048577;

/// A sink into memory with room for 1048577 bytes, all of which is visible. A write that passes the room fills it and
/// fails, so a sink whose fault counter is not 0 is full. Whoever writes a text by the clauses of [`Sink`] alone to an
/// empty one so learns exactly whether the text has more than 1048576 bytes: where the sink is full afterwards.
#[derive(Drop)]
pub struct BoundedSink {
    bytes: Vec<u8>,
    faults: u64,
}

impl Model for BoundedSink {
    ghost use Rattle.std.specs.Prelude.{◌≡◌, ◌<◌, ◌≤◌, length, vec_capacity};
    ghost use Rattle.oe_outside.specs.Memory.{BoundedState, bounded_code};

    ghost Value = { BoundedState };

    ghost coded = { bounded_code };

    ghost view = { λ s. record { written = s.bytes.items; faults = s.faults } };

    ghost invariant = { λ s. (length s.bytes.items ≤ 1048577) × (1048577 ≤ vec_capacity s.bytes)
        × (0 < s.faults → length s.bytes.items ≡ 1048577) };
}

impl BoundedSink {
    /// An empty sink. All the room is taken now, so that no write takes memory.
    ///
    /// Refuses: where an allocation was refused.
    pub fn new(alloc: Global) -> Result<BoundedSink, OutOfMemory>
        ensures { IfOk result (λ s. s ≡ record { written = []; faults = 0 }) }
    {
        let bytes = Vec::with_capacity(alloc, ROOM)?;
        Ok(BoundedSink { bytes, faults: 0 })
    }

    /// Whether 1048577 bytes were written, as where a write has failed.
    pub fn is_full(&self) -> bool
        ensures full { IsTrue result ↔ length self.now.written ≡ 1048577 }
        ensures failed { 0 < self.now.faults → IsTrue result }
    {
        self.bytes.len() == ROOM
    }

    /// All that was written.
    pub fn into_bytes(self) -> Vec<u8>
        ensures { result.items ≡ self.written }
    {
        self.bytes
    }
}

impl Sink for BoundedSink {
    ghost written = { λ s. Some s.written };

    ghost size = { λ s. Some (length s.written) };

    ghost faults = { λ s. s.faults };

    /// Appends the piece as far as there is room. It fails exactly where the piece is longer.
    fn write(&mut self, piece: &[u8]) -> Result<(), Failed>
        ensures fails { IsErr result ↔ 1048577 - length self.old.written < length piece.now }
        ensures written { self.new.written ≡ self.old.written
            ++ take (1048577 - length self.old.written) piece.now }
        ensures faults { self.new.faults ≡ count_after self.old.faults (is_err result) }
        ensures counted { OnOk result
            (AddsBytes (Some (length self.old.written)) (length piece.now)
            (Some (length self.new.written))) }
        ensures counted_prefix { OnErr result
            (AddsSome (Some (length self.old.written)) (length piece.now)
            (Some (length self.new.written))) }
        ensures cause { HasCause self.old.faults self.new.faults result }
    {
        let count = append(&mut self.bytes, ROOM, piece);
        if count < piece.len() {
            return Err(raise(&mut self.faults));
        }
        Ok(())
    }
}
