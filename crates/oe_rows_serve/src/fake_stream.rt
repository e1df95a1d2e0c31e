// A stream of the system in memory.
use crate::failing::Script;
use std::alloc::Global;
use std::cell::RefCell;
use std::io::{Error, ErrorKind, Read, Result as IoResult, Write};

/// A stream that gives the letter `a`, and takes as many bytes as it has room for.
pub(crate) struct FakeStream {
    script: Script,
    room: usize,
    taken: RefCell<Vec<u8>>,
}

/// Written out, so that such a stream that ends is one call wherever it does.
impl Drop for FakeStream {
    fn drop(self) {
        let FakeStream {
            script: _,
            room: _,
            taken: _,
        } = self;
    }
}

impl FakeStream {
    pub(crate) fn new(alloc: Global, room: usize, script: Script) -> FakeStream {
        FakeStream {
            script,
            room,
            taken: RefCell::new(Vec::new(alloc)),
        }
    }

    /// The bytes that it took.
    pub(crate) fn taken(&self, alloc: Global) -> IoResult<Vec<u8>> {
        match self.taken.try_borrow() {
            Ok(taken) => Ok(Vec::from_slice(alloc, &taken)?),
            Err(_) => Err(Error::from(ErrorKind::Other)),
        }
    }
}

impl Read for &FakeStream {
    fn read(&mut self, into: &mut [u8]) -> IoResult<usize> {
        self.script.call()?;
        let count = into.len().min(2);
        into[..count].fill(b'a');
        Ok(count)
    }
}

impl Write for &FakeStream {
    fn write(&mut self, piece: &[u8]) -> IoResult<usize> {
        self.script.call()?;
        let Ok(mut taken) = self.taken.try_borrow_mut() else {
            return Err(Error::from(ErrorKind::Other));
        };
        let count = piece
            .len()
            .min(2)
            .min(self.room.saturating_sub(taken.len()));
        taken.extend_from_slice(&piece[..count])?;
        Ok(count)
    }

    fn flush(&mut self) -> IoResult<()> {
        self.script.call()
    }
}
