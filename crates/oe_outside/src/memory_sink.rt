// A sink in memory.
ghost use Rattle.std.specs.Prelude.{◌≡◌, ◌↔◌, ◌++◌, ◌-◌, Some, [], take, length, is_err, IsErr, IsTrue, IfOk, OnOk, OnErr};
ghost use Rattle.oe_outside.specs.Faults.{HasCause, count_after};
ghost use Rattle.oe_outside.specs.Memory.{fails_write, written_count};
ghost use Rattle.oe_outside.specs.Script.{script_of, after_call};
ghost use Rattle.oe_outside.specs.Visible.{AddsBytes, AddsSome};

use crate::pieces::append;
use crate::script::{Script, raise};
use crate::{Failed, Sink};
use oe_memory::OutOfMemory;
use std::alloc::Global;
use std::marker::Model;

/// A sink into memory: all that was written is visible. Its calls fail by a script, and where the capacity is passed.
pub struct MemorySink {
    bytes: Vec<u8>,
    capacity: usize,
    script: Script,
    faults: u64,
}

impl Model for MemorySink {
    ghost use Rattle.std.specs.Prelude.{◌≤◌, length, vec_capacity};
    ghost use Rattle.oe_outside.specs.Memory.{SinkState, sink_code};

    ghost Value = { SinkState };

    ghost coded = { sink_code };

    ghost view = { λ s. record {
      written = s.bytes.items;
      capacity = s.capacity;
      script = s.script;
      faults = s.faults;
    } };

    ghost invariant = { λ s. (length s.bytes.items ≤ s.capacity)
        × (s.capacity ≤ vec_capacity s.bytes) };
}

/// Written out, so that a sink that ends is one call wherever it does.
impl Drop for MemorySink {
    fn drop(self) {
        let MemorySink {
            bytes: _,
            capacity: _,
            script: _,
            faults: _,
        } = self;
    }
}

impl MemorySink {
    /// An empty sink with room for as many bytes, all of which it takes now, so that no write takes memory. `failing`
    /// has the numbers of the writes that fail, counted from 0, in any order.
    ///
    /// Refuses: where an allocation was refused.
    pub fn new(alloc: Global, capacity: usize, failing: Vec<u64>) -> Result<MemorySink, OutOfMemory>
        ensures { IfOk result
            (λ s. s ≡ record {
              written = [];
              capacity = capacity;
              script = script_of failing.items;
              faults = 0;
            }) }
    {
        let script = Script::new(failing)?;
        let bytes = Vec::with_capacity(alloc, capacity)?;
        Ok(MemorySink {
            bytes,
            capacity,
            script,
            faults: 0,
        })
    }

    /// All that was written, for tests.
    pub fn bytes(&self) -> &[u8]
        ensures { result.now ≡ self.now.written }
    {
        &self.bytes
    }

    /// How many writes have failed, for tests.
    pub fn faults(&self) -> u64
        ensures { result ≡ self.now.faults }
    {
        self.faults
    }
}

impl Sink for MemorySink {
    ghost written = { λ s. Some s.written };

    ghost size = { λ s. Some (length s.written) };

    ghost faults = { λ s. s.faults };

    /// Appends the piece. It fails exactly where the script says so, and then half of the piece is written, rounded
    /// down; and where the piece is longer than the room that is left. Either way no more is written than fits.
    fn write(&mut self, piece: &[u8]) -> Result<(), Failed>
        ensures fails { let room = self.old.capacity - length self.old.written in
            IsErr result ↔ IsTrue (fails_write self.old.script room piece.now) }
        ensures written { let room = self.old.capacity - length self.old.written in
            self.new.written ≡ self.old.written
            ++ take (written_count self.old.script room piece.now) piece.now }
        ensures capacity { self.new.capacity ≡ self.old.capacity }
        ensures script { self.new.script ≡ after_call self.old.script }
        ensures faults { self.new.faults ≡ count_after self.old.faults (is_err result) }
        ensures counted { OnOk result
            (AddsBytes (Some (length self.old.written)) (length piece.now)
            (Some (length self.new.written))) }
        ensures counted_prefix { OnErr result
            (AddsSome (Some (length self.old.written)) (length piece.now)
            (Some (length self.new.written))) }
        ensures cause { HasCause self.old.faults self.new.faults result }
    {
        let listed = self.script.next_call();
        let wanted = if listed { piece.len() / 2 } else { piece.len() };
        let count = append(&mut self.bytes, self.capacity, &piece[..wanted]);
        if listed || count < piece.len() {
            return Err(raise(&mut self.faults));
        }
        Ok(())
    }
}
