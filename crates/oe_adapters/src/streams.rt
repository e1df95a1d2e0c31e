// The streams of the process as the top call sees them. The bytes that pass are hidden.
ghost use Rattle.std.specs.Prelude.{◌≡◌, ◌≤◌, length, None, IfErr, IfSome, codes};
ghost use Rattle.oe_adapters.specs.Setup.{IsSetupFault};

use crate::fault::Fault;
use oe_outside::{Failed, Sink, Source};
use std::alloc::Global;
use std::fs::{File, Files};
use std::io::{ErrorKind, Read, Write};

/// A reader of the system with its fault counter.
#[derive(Drop)]
pub struct Reader<R> {
    from: R,
    faults: u64,
}

impl<R: Read> Reader<R> {
    /// A reader that has not failed yet.
    pub fn new(from: R) -> Self
        ensures { result.faults ≡ 0 }
    {
        Reader { from, faults: 0 }
    }

    /// How many calls have failed, for tests.
    pub fn faults(&self) -> u64
        ensures { result ≡ self.now.faults }
    {
        self.faults
    }
}

impl<R: Read> Source for Reader<R> {
    ghost left = { λ _. None };

    ghost faults = { λ s. s.faults };

    /// Reads once. A read that a signal interrupts is repeated, and is no fault.
    fn read(&mut self, into: &mut [u8]) -> Result<usize, Failed> {
        match read_again(&mut self.from, into) {
            Some(count) => Ok(count),
            None => {
                self.faults = self.faults.saturating_add(1);
                Err(Failed)
            }
        }
    }
}

/// Reads until no signal interrupts it, `None` where that fails.
pub(crate) fn read_again<R: Read>(from: &mut R, into: &mut [u8]) -> Option<usize>
    ensures { IfSome result (λ count. count ≤ length into.old) }
{
    for _ in 0..u64::MAX {
        match from.read(into) {
            Ok(count) => return Some(count),
            Err(error) => {
                if error.kind() != ErrorKind::Interrupted {
                    return None;
                }
            }
        }
    }
    None
}

/// A writer of the system with its fault counter.
#[derive(Drop)]
pub struct Writer<W> {
    to: W,
    faults: u64,
}

impl<W: Write> Writer<W> {
    /// A writer that has not failed yet.
    pub fn new(to: W) -> Self
        ensures { result.faults ≡ 0 }
    {
        Writer { to, faults: 0 }
    }

    /// How many calls have failed, for tests.
    pub fn faults(&self) -> u64
        ensures { result ≡ self.now.faults }
    {
        self.faults
    }
}

impl<W: Write> Sink for Writer<W> {
    ghost written = { λ _. None };

    ghost faults = { λ s. s.faults };

    /// Writes the whole piece. A write that a signal interrupts is repeated, and is no fault; one that takes nothing
    /// of what is left of the piece is a fault.
    fn write(&mut self, piece: &[u8]) -> Result<(), Failed> {
        if self.to.write_all(piece).is_ok() && self.to.flush().is_ok() {
            Ok(())
        } else {
            self.faults = self.faults.saturating_add(1);
            Err(Failed)
        }
    }
}

/// Three files that can be read as empty and cannot be written. While they are open, no other file is taken for a
/// standard input, output or error that the process was started without: the system gives the lowest free number.
///
/// Refuses: the set-up fault of `/dev/null` where it could not be opened; out of memory.
pub fn hold_standard<R: Files>(alloc: Global, files: &R) -> Result<[R::File; 3], Fault>
    ensures { IfErr result (IsSetupFault (codes "/dev/null")) }
{
    Ok([
        open_empty(alloc, files)?,
        open_empty(alloc, files)?,
        open_empty(alloc, files)?,
    ])
}

fn open_empty<R: Files>(alloc: Global, files: &R) -> Result<R::File, Fault>
    ensures { IfErr result (IsSetupFault (codes "/dev/null")) }
{
    match File::open(files, "/dev/null") {
        Ok(file) => Ok(file),
        Err(error) => Err(Fault::of_error(alloc, &error, b"/dev/null")),
    }
}
