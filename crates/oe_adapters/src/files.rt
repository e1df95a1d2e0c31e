// The files of the system as stores. Their bytes are hidden.
ghost use Rattle.std.specs.Prelude.{◌≡◌, ◌≤◌, length, None, IfSome};
ghost use Rattle.oe_outside.specs.Faults.{NeverFalls, Rose};

use oe_outside::{Failed, SharedStore, Store};
use std::io::{ErrorKind, Seek, SeekFrom};
use std::os::unix::fs::FileExt;

/// A file of the system with its fault counter.
#[derive(Drop)]
pub struct FileStore<F> {
    file: F,
    faults: u64,
}

impl<F: FileExt + Seek> FileStore<F> {
    /// A file of which no call has failed yet.
    pub fn new(file: F) -> Self
        ensures { result.faults ≡ 0 }
    {
        FileStore { file, faults: 0 }
    }

    /// How many calls have failed, for tests.
    pub fn faults(&self) -> u64
        ensures { result ≡ self.now.faults }
    {
        self.faults
    }

    /// Counts a fault.
    fn fail(&mut self) -> Failed
        ensures counted { Rose self.old.faults self.new.faults }
        ensures falls { NeverFalls self.old.faults self.new.faults }
    {
        self.faults = self.faults.saturating_add(1);
        Failed
    }
}

impl<F: FileExt + Seek> Store for FileStore<F> {
    ghost bytes = { λ _. None };

    ghost faults = { λ s. s.faults };

    /// Where the file ends.
    fn length(&mut self) -> Result<u64, Failed> {
        match end_of(&mut self.file) {
            Some(end) => Ok(end),
            None => Err(self.fail()),
        }
    }

    /// Reads until the buffer is full or the file ends. A read that a signal interrupts is repeated, and is no fault.
    fn read_at(&mut self, at: u64, into: &mut [u8]) -> Result<usize, Failed> {
        match read_to_end(&self.file, at, into) {
            Some(count) => Ok(count),
            None => Err(self.fail()),
        }
    }

    /// Writes the whole piece. A write that a signal interrupts is repeated, and is no fault; one that takes nothing of
    /// what is left of the piece is a fault.
    fn write_at(&mut self, at: u64, piece: &[u8]) -> Result<(), Failed> {
        match self.file.write_all_at(piece, at) {
            Ok(()) => Ok(()),
            Err(_) => Err(self.fail()),
        }
    }
}

impl<F: FileExt + Seek> SharedStore for FileStore<F> {
    /// Reads as `read_at` does.
    fn look_at(&self, at: u64, into: &mut [u8]) -> Result<usize, Failed> {
        match read_to_end(&self.file, at, into) {
            Some(count) => Ok(count),
            None => Err(Failed),
        }
    }

    fn count_fault(&mut self) {
        let _failed = self.fail();
    }
}

/// Where a file ends, asked until no signal interrupts it, `None` where that fails.
fn end_of<F: Seek>(file: &mut F) -> Option<u64> {
    for _ in 0..u64::MAX {
        match file.seek(SeekFrom::End(0)) {
            Ok(end) => return Some(end),
            Err(error) => {
                if error.kind() != ErrorKind::Interrupted {
                    return None;
                }
            }
        }
    }
    None
}

/// Reads until the buffer is full or the file ends, `None` where a read fails.
fn read_to_end<F: FileExt>(file: &F, at: u64, into: &mut [u8]) -> Option<usize>
    ensures { IfSome result (λ count. count ≤ length into.old) }
{
    let mut done = 0;
    while done < into.len() {
        let count = read_again(file, at.checked_add(done as u64)?, &mut into[done..])?;
        if count == 0 {
            return Some(done);
        }
        done += count;
    }
    Some(done)
}

/// Reads until no signal interrupts it, `None` where that fails.
fn read_again<F: FileExt>(file: &F, at: u64, into: &mut [u8]) -> Option<usize>
    ensures { IfSome result (λ count. count ≤ length into.old) }
{
    for _ in 0..u64::MAX {
        match file.read_at(into, at) {
            Ok(count) => return Some(count),
            Err(error) => {
                if error.kind() != ErrorKind::Interrupted {
                    return None;
                }
            }
        }
    }
    None
}
