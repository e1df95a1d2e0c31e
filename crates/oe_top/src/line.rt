// Short lines that are spelled without taking memory.
ghost use Rattle.std.specs.Prelude.{◌≡◌, ◌≤◌, ◌+◌, ◌++◌, [], IfOk, decimal, length};

use itoa::Buffer;
use oe_memory::OutOfMemory;
use std::alloc::Global;
use std::marker::Model;

/// How many bytes a line has at most.
const ROOM: usize = 256;

/// Bytes of a line, 256 at most. Contracts see the bytes.
#[derive(Drop)]
pub(crate) struct Line {
    bytes: Vec<u8>,
}

impl Model for Line {
    ghost use Rattle.std.specs.Prelude.{◌≤◌, ℕ, List, vec_capacity};

    ghost Value = { List ℕ };

    ghost view = { λ l. l.bytes.items };

    ghost invariant = { λ l. 256 ≤ vec_capacity l.bytes };
}

impl Line {
    /// An empty line. All its room is taken now. Refuses: out of memory.
    pub(crate) fn new(alloc: Global) -> Result<Line, OutOfMemory>
        ensures { IfOk result (λ line. line ≡ []) }
    {
        let bytes = Vec::with_capacity(alloc, ROOM)?;
        Ok(Line { bytes })
    }

    /// Appends a piece that fits.
    pub(crate) fn push(&mut self, piece: &[u8])
        requires { length self.old + length piece.now ≤ 256 }
        ensures { self.new ≡ self.old ++ piece.now }
    {
        self.bytes.extend_from_slice(piece).unwrap();
    }

    /// Appends a number in decimal.
    pub(crate) fn push_number(&mut self, number: u128)
        requires { length self.old ≤ 200 }
        ensures appended { self.new ≡ self.old ++ decimal number }
        ensures short { length self.new ≤ length self.old + 39 }
    {
        self.push(Buffer::new().format(number).as_bytes());
    }

    /// Its bytes.
    pub(crate) fn as_slice(&self) -> &[u8]
        ensures { result.now ≡ self.now }
    {
        self.bytes.as_slice()
    }
}
