// A file of the system in memory.
use crate::failing::Script;
use std::cell::RefCell;
use std::fs::{Metadata, OpenFile};
use std::io::{Error, ErrorKind, Read, Result as IoResult, Seek, SeekFrom, Write};
use std::os::unix::fs::FileExt;

/// A file of which a call passes two bytes at most.
pub(crate) struct FakeFile {
    bytes: RefCell<Vec<u8>>,
    script: Script,
}

/// Written out, so that such a file that ends is one call wherever it does.
impl Drop for FakeFile {
    fn drop(self) {
        let FakeFile {
            bytes: _,
            script: _,
        } = self;
    }
}

impl FakeFile {
    pub(crate) fn new(bytes: Vec<u8>, script: Script) -> FakeFile {
        FakeFile {
            bytes: RefCell::new(bytes),
            script,
        }
    }
}

/// What nothing asks for.
pub(crate) fn refuse<T>() -> IoResult<T> {
    Err(Error::from(ErrorKind::Unsupported))
}

impl FileExt for FakeFile {
    fn read_at(&self, into: &mut [u8], at: u64) -> IoResult<usize> {
        self.script.call()?;
        let Ok(bytes) = self.bytes.try_borrow() else {
            return Err(Error::from(ErrorKind::Other));
        };
        let start = bytes.len().min(at as usize);
        let count = into.len().min(2).min(bytes.len() - start);
        into[..count].copy_from_slice(&bytes[start..start + count]);
        Ok(count)
    }

    fn write_at(&self, piece: &[u8], at: u64) -> IoResult<usize> {
        self.script.call()?;
        let Ok(mut bytes) = self.bytes.try_borrow_mut() else {
            return Err(Error::from(ErrorKind::Other));
        };
        let count = piece.len().min(2);
        let Some(end) = (at as usize).checked_add(count) else {
            return Err(Error::from(ErrorKind::Other));
        };
        if bytes.len() < end {
            bytes.resize(end, 0)?;
        }
        bytes[at as usize..end].copy_from_slice(&piece[..count]);
        Ok(count)
    }
}

impl Seek for FakeFile {
    fn seek(&mut self, to: SeekFrom) -> IoResult<u64> {
        self.script.call()?;
        match (to, self.bytes.try_borrow()) {
            (SeekFrom::End(0), Ok(bytes)) => Ok(bytes.len() as u64),
            _ => refuse(),
        }
    }
}

impl Read for FakeFile {
    fn read(&mut self, _into: &mut [u8]) -> IoResult<usize> {
        Err(Error::from(ErrorKind::Unsupported))
    }
}

impl Write for FakeFile {
    fn write(&mut self, _piece: &[u8]) -> IoResult<usize> {
        Err(Error::from(ErrorKind::Unsupported))
    }

    fn flush(&mut self) -> IoResult<()> {
        refuse()
    }
}

impl OpenFile for FakeFile {
    fn metadata(&self) -> IoResult<Metadata> {
        refuse()
    }

    fn set_len(&self, _size: u64) -> IoResult<()> {
        refuse()
    }

    fn sync_all(&self) -> IoResult<()> {
        refuse()
    }

    fn sync_data(&self) -> IoResult<()> {
        refuse()
    }
}
