// A connection over TCP.
ghost use Rattle.std.specs.Prelude.{◌≡◌, ◌≤◌, None, length, IfSome};
ghost use Rattle.oe_outside.specs.Faults.{Rose, NeverFalls};

use crate::deadline::Deadline;
use crate::network::Network;
use crate::patience::{MICROSECONDS_A_BYTE, Patience};
use oe_outside::{Failed, Link};
use std::io::{ErrorKind, Read, Write};
use std::net::OpenStream;
use std::time::{Clock, Duration};

/// A connection over TCP with its fault counter. All that is read has to come by one moment, whatever the peer does in
/// between, and all that is written has to be taken by another.
#[derive(Drop)]
pub struct TcpLink<N: Network> {
    system: N,
    stream: N::Stream,
    patience: Patience,
    reading: Deadline,
    writing: Option<Deadline>,
    faults: u64,
}

impl<N: Network> TcpLink<N> {
    /// A connection that has not failed yet. The time for reading begins.
    pub(crate) fn new(system: N, stream: N::Stream, patience: Patience) -> Self
        ensures { result.faults ≡ 0 }
    {
        // A small piece is sent at once. Where the system cannot do that, it comes later.
        let _ = stream.set_nodelay(true);
        TcpLink {
            system,
            stream,
            patience,
            reading: Deadline::after(&system, patience.read),
            writing: None,
            faults: 0,
        }
    }

    /// Waits until a read would not: for the first byte, for the end of what the peer sends, or until the time is over.
    /// `false` where the peer has given the connection up instead.
    pub(crate) fn is_there(&self) -> bool {
        is_there_by(&self.system, &self.stream, self.reading)
    }

    /// How many calls have failed.
    pub(crate) fn faults(&self) -> u64
        ensures { result ≡ self.now.faults }
    {
        self.faults
    }

    /// Its stream.
    pub(crate) fn into_stream(self) -> N::Stream {
        self.stream
    }

    fn fail(&mut self) -> Failed
        ensures counted { Rose self.old.faults self.new.faults }
        ensures falls { NeverFalls self.old.faults self.new.faults }
    {
        self.faults = self.faults.saturating_add(1);
        Failed
    }
}

impl<N: Network> Link for TcpLink<N> {
    ghost left = { λ _. None };

    ghost written = { λ _. None };

    ghost faults = { λ s. s.faults };

    /// Reads once. A read that a signal interrupts is repeated, and is no fault; one that is not in time is one.
    fn read(&mut self, into: &mut [u8]) -> Result<usize, Failed> {
        match read_by(&self.system, &mut self.stream, self.reading, into) {
            Some(count) => Ok(count),
            None => Err(self.fail()),
        }
    }

    /// Writes the whole piece. The time for writing begins with the first one. A write that a signal interrupts is
    /// repeated, and is no fault; one that takes nothing, or is not in time, is one.
    fn write(&mut self, piece: &[u8]) -> Result<(), Failed> {
        let until = match self.writing {
            Some(until) => until,
            None => Deadline::after(&self.system, self.patience.write),
        };
        match write_all_by(&self.system, &mut self.stream, until, piece) {
            Some(later) => {
                self.writing = Some(later);
                Ok(())
            }
            None => {
                self.writing = Some(until);
                Err(self.fail())
            }
        }
    }
}

/// Waits until a read would not, or the time is over, and takes no byte. `false` where the peer has given the connection
/// up. Where waiting fails otherwise, a read will tell.
fn is_there_by<R: Clock, S: OpenStream>(system: &R, stream: &S, until: Deadline) -> bool {
    let mut first = [0; 1];
    for _ in 0..u64::MAX {
        let Some(left) = until.left(system) else {
            return true;
        };
        if stream.set_read_timeout(Some(left)).is_err() {
            return true;
        }
        match stream.peek(&mut first) {
            Ok(_) => return true,
            Err(error) => match error.kind() {
                ErrorKind::Interrupted => {}
                ErrorKind::ConnectionAborted | ErrorKind::ConnectionReset => return false,
                _ => return true,
            },
        }
    }
    true
}

/// Reads once, and `None` where that fails or is not in time.
fn read_by<R: Clock, S: Read + OpenStream>(
    system: &R,
    stream: &mut S,
    until: Deadline,
    into: &mut [u8],
) -> Option<usize>
    ensures { IfSome result (λ count. count ≤ length into.old) }
{
    for _ in 0..u64::MAX {
        let left = until.left(system)?;
        stream.set_read_timeout(Some(left)).ok()?;
        match stream.read(into) {
            Ok(count) => return Some(count),
            Err(error) => {
                if error.kind() != ErrorKind::Interrupted {
                    return None;
                }
            }
        }
    }
    None
}

/// Writes the whole piece, and `None` where that fails, where a write takes nothing, or where it is not in time. Each
/// byte that is taken makes the time longer, which is answered.
fn write_all_by<R: Clock, S: Write + OpenStream>(
    system: &R,
    stream: &mut S,
    until: Deadline,
    piece: &[u8],
) -> Option<Deadline> {
    let mut until = until;
    let mut rest = piece;
    // Each write takes a byte at least.
    for _ in 0..piece.len() {
        if rest.is_empty() {
            return Some(until);
        }
        let count = write_by(system, stream, until, rest)?;
        if count == 0 {
            return None;
        }
        rest = &rest[count..];
        until = until.later(time_for(count as u64));
    }
    if rest.is_empty() { Some(until) } else { None }
}

/// How much longer a peer has that took so many bytes.
fn time_for(bytes: u64) -> Duration {
    Duration::from_micros(bytes.saturating_mul(MICROSECONDS_A_BYTE))
}

/// Writes some of the piece, and `None` where that fails or is not in time.
fn write_by<R: Clock, S: Write + OpenStream>(
    system: &R,
    stream: &mut S,
    until: Deadline,
    piece: &[u8],
) -> Option<usize>
    ensures { IfSome result (λ count. count ≤ length piece.now) }
{
    for _ in 0..u64::MAX {
        let left = until.left(system)?;
        stream.set_write_timeout(Some(left)).ok()?;
        match stream.write(piece) {
            Ok(count) => return Some(count),
            Err(error) => {
                if error.kind() != ErrorKind::Interrupted {
                    return None;
                }
            }
        }
    }
    None
}
