// A connection in memory.
ghost use Rattle.std.specs.Prelude.{◌≡◌, ◌↔◌, ◌≤◌, ◌++◌, ◌-◌, Some, [], take, drop, length, min, is_err, IsErr, IsTrue, IfOk};
ghost use Rattle.oe_outside.specs.Faults.{HasCause, count_after};
ghost use Rattle.oe_outside.specs.Memory.{given_count, fails_write, written_count};
ghost use Rattle.oe_outside.specs.Script.{script_of, fails_next, after_call};
ghost use Rattle.oe_outside.specs.Visible.{EndsOnlyAtEnd};

use crate::pieces::{append, give};
use crate::script::{Script, raise};
use crate::{Failed, Link};
use oe_memory::OutOfMemory;
use std::alloc::Global;
use std::marker::Model;

/// A connection in memory: what is left to be read and what was written are visible. Its calls fail by a script, and
/// where a write would pass the capacity.
pub struct MemoryLink {
    incoming: Vec<u8>,
    at: usize,
    piece: usize,
    outgoing: Vec<u8>,
    capacity: usize,
    script: Script,
    faults: u64,
}

impl Model for MemoryLink {
    ghost use Rattle.std.specs.Prelude.{◌≤◌, length, drop, vec_capacity};
    ghost use Rattle.oe_outside.specs.Memory.{LinkState, link_code};

    ghost Value = { LinkState };

    ghost coded = { link_code };

    ghost view = { λ s. record {
      left = drop s.at s.incoming.items;
      piece = s.piece;
      written = s.outgoing.items;
      capacity = s.capacity;
      script = s.script;
      faults = s.faults;
    } };

    ghost invariant = { λ s. (s.at ≤ length s.incoming.items) × (1 ≤ s.piece)
        × (length s.outgoing.items ≤ s.capacity) × (s.capacity ≤ vec_capacity s.outgoing) };
}

/// Written out, so that a connection that ends is one call wherever it does.
impl Drop for MemoryLink {
    fn drop(self) {
        let MemoryLink {
            incoming: _,
            at: _,
            piece: _,
            outgoing: _,
            capacity: _,
            script: _,
            faults: _,
        } = self;
    }
}

impl MemoryLink {
    /// A connection that gives these bytes, at most `piece` of them in a read, and has room for as many written ones as
    /// the capacity, all of which it takes now, so that no write takes memory. `failing` has the numbers of the calls
    /// that fail, counted from 0 over reads and writes together, in any order.
    ///
    /// Refuses: where an allocation was refused.
    pub fn new(
        alloc: Global,
        incoming: Vec<u8>,
        piece: usize,
        capacity: usize,
        failing: Vec<u64>,
    ) -> Result<MemoryLink, OutOfMemory>
        requires { 1 ≤ piece }
        ensures { IfOk result
            (λ s. s ≡ record {
              left = incoming.items;
              piece = piece;
              written = [];
              capacity = capacity;
              script = script_of failing.items;
              faults = 0;
            }) }
    {
        let script = Script::new(failing)?;
        let outgoing = Vec::with_capacity(alloc, capacity)?;
        Ok(MemoryLink {
            incoming,
            at: 0,
            piece,
            outgoing,
            capacity,
            script,
            faults: 0,
        })
    }

    /// All that was written to it, for tests.
    pub fn written(&self) -> &[u8]
        ensures { result.now ≡ self.now.written }
    {
        &self.outgoing
    }

    /// Whether a call of it has failed.
    pub(crate) fn is_faulty(&self) -> bool
        ensures { IsTrue result ↔ (1 ≤ self.now.faults) }
    {
        self.faults > 0
    }

    /// How many reads and writes have failed, for tests.
    pub fn faults(&self) -> u64
        ensures { result ≡ self.now.faults }
    {
        self.faults
    }
}

impl Link for MemoryLink {
    ghost left = { λ s. Some s.left };

    ghost written = { λ s. Some s.written };

    ghost faults = { λ s. s.faults };

    /// Fills the buffer as far as bytes are left and one read may give, and leaves the rest of the buffer as it was. It
    /// fails exactly where the script says so, and then takes no byte and leaves the whole buffer.
    fn read(&mut self, into: &mut [u8]) -> Result<usize, Failed>
        ensures fails { IsErr result ↔ IsTrue (fails_next self.old.script) }
        ensures count { let room = min (length into.old) self.old.piece in
            IfOk result (λ n. n ≡ given_count self.old.script self.old.left room) }
        ensures buffer { let n = given_count self.old.script self.old.left
            (min (length into.old) self.old.piece) in
            into.new ≡ take n self.old.left ++ drop n into.old }
        ensures state { let n = given_count self.old.script self.old.left
            (min (length into.old) self.old.piece) in
            self.new ≡ record self.old {
              left = drop n self.old.left;
              script = after_call self.old.script;
              faults = count_after self.old.faults (is_err result);
            } }
        ensures end { IfOk result (λ n. EndsOnlyAtEnd (Some self.old.left) n (length into.old)) }
        ensures cause { HasCause self.old.faults self.new.faults result }
    {
        if self.script.next_call() {
            return Err(raise(&mut self.faults));
        }
        let room = into.len().min(self.piece);
        let count = give(&self.incoming[self.at..], room, into);
        self.at += count;
        Ok(count)
    }

    /// Appends the piece. It fails exactly where the script says so, and then half of the piece is written, rounded
    /// down; and where the piece is longer than the room that is left. Either way no more is written than fits.
    fn write(&mut self, piece: &[u8]) -> Result<(), Failed>
        ensures fails { let room = self.old.capacity - length self.old.written in
            IsErr result ↔ IsTrue (fails_write self.old.script room piece.now) }
        ensures state { let room = self.old.capacity - length self.old.written in
            self.new ≡ record self.old {
              written = self.old.written
                  ++ take (written_count self.old.script room piece.now) piece.now;
              script = after_call self.old.script;
              faults = count_after self.old.faults (is_err result);
            } }
        ensures cause { HasCause self.old.faults self.new.faults result }
    {
        let listed = self.script.next_call();
        let wanted = if listed { piece.len() / 2 } else { piece.len() };
        let count = append(&mut self.outgoing, self.capacity, &piece[..wanted]);
        if listed || count < piece.len() {
            return Err(raise(&mut self.faults));
        }
        Ok(())
    }
}
