// A store in memory.
ghost use Rattle.std.specs.Prelude.{◌≡◌, ◌↔◌, ◌++◌, Some, take, drop, length, is_err, IsErr, IsTrue, IfOk, OnErr};
ghost use Rattle.oe_outside.specs.Faults.{CountsFault, HasCause, count_after, counted};
ghost use Rattle.oe_outside.specs.Memory.{fails_write_at, bytes_after_write};
ghost use Rattle.oe_outside.specs.Script.{script_of, fails_next, after_call};
ghost use Rattle.oe_outside.specs.Stored.{count_at, StaysOutside};

use crate::pieces::{give, put};
use crate::script::{Script, raise};
use crate::{Failed, SharedStore, Store};
use oe_memory::OutOfMemory;
use std::marker::Model;

/// A store in memory: all its bytes are visible. Its calls fail by a script, and where a write would pass the capacity.
pub struct MemoryStore {
    bytes: Vec<u8>,
    capacity: usize,
    script: Script,
    faults: u64,
}

impl Model for MemoryStore {
    ghost use Rattle.std.specs.Prelude.{◌≤◌, vec_capacity};
    ghost use Rattle.oe_outside.specs.Memory.{StoreState, store_code};

    ghost Value = { StoreState };

    ghost coded = { store_code };

    ghost view = { λ s. record {
      bytes = s.bytes.items;
      capacity = s.capacity;
      script = s.script;
      faults = s.faults;
    } };

    ghost invariant = { λ s. s.capacity ≤ vec_capacity s.bytes };
}

/// Written out, so that a store that ends is one call wherever it does.
impl Drop for MemoryStore {
    fn drop(self) {
        let MemoryStore {
            bytes: _,
            capacity: _,
            script: _,
            faults: _,
        } = self;
    }
}

impl MemoryStore {
    /// A store of these bytes, which no write makes longer than the capacity. All the room is taken now, so that no
    /// write takes memory. `failing` has the numbers of the calls that fail, counted from 0 over `length`, `read_at`,
    /// `write_at` and the looks that are refused together, in any order.
    ///
    /// Refuses: where an allocation was refused.
    pub fn new(
        mut bytes: Vec<u8>,
        capacity: usize,
        failing: Vec<u64>,
    ) -> Result<MemoryStore, OutOfMemory>
        ensures { IfOk result
            (λ s. s ≡ record {
              bytes = bytes.items;
              capacity = capacity;
              script = script_of failing.items;
              faults = 0;
            }) }
    {
        let script = Script::new(failing)?;
        let missing = capacity.saturating_sub(bytes.len());
        bytes.reserve(missing)?;
        Ok(MemoryStore {
            bytes,
            capacity,
            script,
            faults: 0,
        })
    }

    /// All the bytes, for tests.
    pub fn bytes(&self) -> &[u8]
        ensures { result.now ≡ self.now.bytes }
    {
        &self.bytes
    }

    /// How many calls have failed, for tests.
    pub fn faults(&self) -> u64
        ensures { result ≡ self.now.faults }
    {
        self.faults
    }
}

impl Store for MemoryStore {
    ghost bytes = { λ s. Some s.bytes };

    ghost faults = { λ s. s.faults };

    /// It fails exactly where the script says so.
    fn length(&mut self) -> Result<u64, Failed>
        ensures fails { IsErr result ↔ IsTrue (fails_next self.old.script) }
        ensures value { IfOk result (λ n. n ≡ length self.old.bytes) }
        ensures bytes { self.new.bytes ≡ self.old.bytes }
        ensures capacity { self.new.capacity ≡ self.old.capacity }
        ensures script { self.new.script ≡ after_call self.old.script }
        ensures faults { self.new.faults ≡ count_after self.old.faults (is_err result) }
        ensures cause { HasCause self.old.faults self.new.faults result }
    {
        if self.script.next_call() {
            return Err(raise(&mut self.faults));
        }
        Ok(self.bytes.len() as u64)
    }

    /// It fails exactly where the script says so, and then leaves the whole buffer as it was. It leaves the buffer
    /// behind what it gives as it was.
    fn read_at(&mut self, at: u64, into: &mut [u8]) -> Result<usize, Failed>
        ensures fails { IsErr result ↔ IsTrue (fails_next self.old.script) }
        ensures count { IfOk result (λ n. n ≡ count_at self.old.bytes at (length into.old)) }
        ensures buffer { IfOk result
            (λ n. into.new ≡ take n (drop at self.old.bytes) ++ drop n into.old) }
        ensures untouched { IsErr result → into.new ≡ into.old }
        ensures bytes { self.new.bytes ≡ self.old.bytes }
        ensures capacity { self.new.capacity ≡ self.old.capacity }
        ensures script { self.new.script ≡ after_call self.old.script }
        ensures faults { self.new.faults ≡ count_after self.old.faults (is_err result) }
        ensures cause { HasCause self.old.faults self.new.faults result }
    {
        if self.script.next_call() {
            return Err(raise(&mut self.faults));
        }
        let from = (at as usize).min(self.bytes.len());
        let room = into.len();
        Ok(give(&self.bytes[from..], room, into))
    }

    /// It fails exactly where the script says so, and then half of the piece is written, rounded down; and where the
    /// piece would pass the capacity, and then as much is written as fits. Where the offset itself is past the
    /// capacity, nothing changes.
    fn write_at(&mut self, at: u64, piece: &[u8]) -> Result<(), Failed>
        ensures fails { IsErr result ↔ IsTrue (fails_write_at self.old at piece.now) }
        ensures bytes { self.new.bytes ≡ bytes_after_write self.old at piece.now }
        ensures outside { OnErr result
            (StaysOutside (Some self.old.bytes) at (length piece.now) (Some self.new.bytes)) }
        ensures capacity { self.new.capacity ≡ self.old.capacity }
        ensures script { self.new.script ≡ after_call self.old.script }
        ensures faults { self.new.faults ≡ count_after self.old.faults (is_err result) }
        ensures cause { HasCause self.old.faults self.new.faults result }
    {
        let listed = self.script.next_call();
        let wanted = if listed { piece.len() / 2 } else { piece.len() };
        let from = at as usize;
        if from > self.capacity {
            return Err(raise(&mut self.faults));
        }
        let count = wanted.min(self.capacity - from);
        put(&mut self.bytes, from, &piece[..count]);
        if listed || count < piece.len() {
            return Err(raise(&mut self.faults));
        }
        Ok(())
    }
}

impl SharedStore for MemoryStore {
    /// It fails exactly where the script says so of the next call, which [`SharedStore::count_fault`] counts, and then
    /// leaves the whole buffer as it was. It leaves the buffer behind what it gives as it was. One that succeeds has no
    /// number.
    fn look_at(&self, at: u64, into: &mut [u8]) -> Result<usize, Failed>
        ensures fails { IsErr result ↔ IsTrue (fails_next self.now.script) }
        ensures count { IfOk result (λ n. n ≡ count_at self.now.bytes at (length into.old)) }
        ensures buffer { IfOk result
            (λ n. into.new ≡ take n (drop at self.now.bytes) ++ drop n into.old) }
        ensures untouched { IsErr result → into.new ≡ into.old }
    {
        if self.script.is_next_listed() {
            return Err(Failed);
        }
        let from = (at as usize).min(self.bytes.len());
        let room = into.len();
        Ok(give(&self.bytes[from..], room, into))
    }

    fn count_fault(&mut self)
        ensures bytes { self.new.bytes ≡ self.old.bytes }
        ensures capacity { self.new.capacity ≡ self.old.capacity }
        ensures script { self.new.script ≡ after_call self.old.script }
        ensures faults { self.new.faults ≡ counted self.old.faults }
        ensures cause { CountsFault self.old.faults self.new.faults }
    {
        let _listed = self.script.next_call();
        let _failed = raise(&mut self.faults);
    }
}
