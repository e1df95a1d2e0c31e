// A source in memory.
ghost use Rattle.std.specs.Prelude.{◌≡◌, ◌↔◌, ◌++◌, Some, take, drop, length, is_err, IsErr, IsTrue, IfOk};
ghost use Rattle.oe_outside.specs.Faults.{HasCause, count_after};
ghost use Rattle.oe_outside.specs.Memory.{given_count};
ghost use Rattle.oe_outside.specs.Script.{script_of, fails_next, after_call};

use crate::pieces::give;
use crate::script::{Script, raise};
use crate::{Failed, Source};
use oe_memory::OutOfMemory;
use std::marker::Model;

/// A source over bytes in memory: all that is left is visible. Its calls fail by a script.
pub struct MemorySource {
    bytes: Vec<u8>,
    at: usize,
    script: Script,
    faults: u64,
}

impl Model for MemorySource {
    ghost use Rattle.std.specs.Prelude.{◌≤◌, length, drop};
    ghost use Rattle.oe_outside.specs.Memory.{SourceState, source_code};

    ghost Value = { SourceState };

    ghost coded = { source_code };

    ghost view = { λ s. record {
      left = drop s.at s.bytes.items;
      script = s.script;
      faults = s.faults;
    } };

    ghost invariant = { λ s. s.at ≤ length s.bytes.items };
}

/// Written out, so that a source that ends is one call wherever it does.
impl Drop for MemorySource {
    fn drop(self) {
        let MemorySource {
            bytes: _,
            at: _,
            script: _,
            faults: _,
        } = self;
    }
}

impl MemorySource {
    /// A source of these bytes. `failing` has the numbers of the reads that fail, counted from 0, in any order.
    ///
    /// Refuses: where an allocation was refused.
    pub fn new(bytes: Vec<u8>, failing: Vec<u64>) -> Result<MemorySource, OutOfMemory>
        ensures { IfOk result
            (λ s. s ≡ record { left = bytes.items; script = script_of failing.items; faults = 0 }) }
    {
        let script = Script::new(failing)?;
        Ok(MemorySource {
            bytes,
            at: 0,
            script,
            faults: 0,
        })
    }

    /// How many reads have failed, for tests.
    pub fn faults(&self) -> u64
        ensures { result ≡ self.now.faults }
    {
        self.faults
    }
}

impl Source for MemorySource {
    ghost left = { λ s. Some s.left };

    ghost faults = { λ s. s.faults };

    /// Fills the buffer as far as bytes are left, and leaves the rest of the buffer as it was. It fails exactly where
    /// the script says so, and then takes no byte and leaves the whole buffer.
    fn read(&mut self, into: &mut [u8]) -> Result<usize, Failed>
        ensures fails { IsErr result ↔ IsTrue (fails_next self.old.script) }
        ensures count { IfOk result
            (λ n. n ≡ given_count self.old.script self.old.left (length into.old)) }
        ensures buffer { let n = given_count self.old.script self.old.left (length into.old) in
            into.new ≡ take n self.old.left ++ drop n into.old }
        ensures left { self.new.left
            ≡ drop (given_count self.old.script self.old.left (length into.old)) self.old.left }
        ensures script { self.new.script ≡ after_call self.old.script }
        ensures faults { self.new.faults ≡ count_after self.old.faults (is_err result) }
        ensures cause { HasCause self.old.faults self.new.faults result }
    {
        if self.script.next_call() {
            return Err(raise(&mut self.faults));
        }
        let room = into.len();
        let count = give(&self.bytes[self.at..], room, into);
        self.at += count;
        Ok(count)
    }
}
