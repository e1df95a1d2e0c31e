// Bytes on their way to a sink, gathered into large pieces in a buffer of fixed size.
ghost use Rattle.std.specs.Prelude.{ℕ, List, [], ◌≡◌, ◌+◌, ◌++◌, ◌≤◌, length, IfOk, OnOk, OnErr};
ghost use Rattle.oe_outside.specs.Stream.{HasSent};

use crate::{Failed, Sink};
use oe_memory::OutOfMemory;
use std::alloc::Global;
use std::marker::Model;

/// How many bytes are gathered before they are written.
const ROOM: usize = 32768;

/// Bytes that wait to be written, 32768 at most. Contracts see the bytes. They reach a sink by [`send`] and [`flush`]
/// alone: what still waits when a `Pending` is let go is lost.
#[derive(Drop)]
pub struct Pending {
    bytes: Vec<u8>,
}

impl Model for Pending {
    ghost use Rattle.std.specs.Prelude.{◌≤◌, ℕ, List, vec_len, vec_capacity};

    ghost Value = { List ℕ };

    ghost view = { λ p. p.bytes.items };

    ghost invariant = { λ p. (vec_len p.bytes ≤ 32768) × (32768 ≤ vec_capacity p.bytes) };
}

impl Pending {
    /// No bytes. All the room is taken now, so that no later call takes memory.
    ///
    /// Refuses: where an allocation was refused.
    pub fn new(alloc: Global) -> Result<Pending, OutOfMemory>
        ensures { IfOk result (λ pending. pending ≡ []) }
    {
        let bytes = Vec::with_capacity(alloc, ROOM)?;
        Ok(Pending { bytes })
    }

    fn len(&self) -> usize
        ensures is { result ≡ length self.now }
        ensures within { result ≤ 32768 }
    {
        self.bytes.len()
    }

    fn bytes(&self) -> &[u8]
        ensures { result.now ≡ self.now }
    {
        &self.bytes
    }

    fn clear(&mut self)
        ensures { self.new ≡ [] }
    {
        self.bytes.clear();
    }

    /// Appends a piece that fits.
    fn push(&mut self, piece: &[u8])
        requires { length self.old + length piece.now ≤ 32768 }
        ensures { self.new ≡ self.old ++ piece.now }
    {
        self.bytes.extend_from_slice(piece).unwrap();
    }
}

/// Writes what is pending to the sink, in one write.
///
/// Refuses: only where the sink's fault counter rose. Then a prefix of what was pending was written, and all of it is
/// pending still.
pub fn flush<O: Sink>(out: &mut O, pending: &mut Pending) -> Result<(), Failed>
    ensures sent { HasSent O.written O.size O.faults out.old pending.old [] out.new pending.new
        result }
    ensures empty { OnOk result (pending.new ≡ []) }
    ensures kept { OnErr result (pending.new ≡ pending.old) }
{
    out.write(pending.bytes())?;
    pending.clear();
    Ok(())
}

/// Sends a piece to the sink behind what is pending: it waits there where it fits, and what was pending is written
/// where it does not.
///
/// Refuses: only where the sink's fault counter rose. Then a prefix of what was pending and the piece was written.
pub fn send<O: Sink>(out: &mut O, pending: &mut Pending, piece: &[u8]) -> Result<(), Failed>
    ensures { HasSent O.written O.size O.faults out.old pending.old piece.now out.new pending.new
        result }
{
    if piece.len() <= ROOM - pending.len() {
        pending.push(piece);
        return Ok(());
    }
    flush(out, pending)?;
    send_alone(out, pending, piece)
}

/// Sends a piece where nothing is pending. A piece that is longer than the room is written at once.
fn send_alone<O: Sink>(out: &mut O, pending: &mut Pending, piece: &[u8]) -> Result<(), Failed>
    requires { pending.old ≡ [] }
    ensures { HasSent O.written O.size O.faults out.old [] piece.now out.new pending.new result }
{
    if piece.len() <= ROOM {
        pending.push(piece);
        return Ok(());
    }
    out.write(piece)
}
