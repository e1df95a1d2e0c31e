// The files of a system, as a row tells them.
ghost use Rattle.std.specs.Prelude.{◌≤◌, length};

use crate::failing::Script;
use crate::fake_file::{FakeFile, refuse};
use crate::kinds::error_of;
use oe_lines::number_of;
use std::alloc::{Allocator, Global};
use std::cell::Cell;
use std::fs::{Files, Metadata, OpenOptions};
use std::io::{Error, ErrorKind, Read, Result as IoResult};

/// The cube file of a single null without dimensions, under the id `A`.
const CUBE: &[u8] =
    b"OEOCUBE2\0\0\0\x38{\"id\":\"A\",\"cells\":\"number\",\"widths\":[1],\"dimensions\":[]}\0";

/// The file of a mosaic `M` of the files `a` and `b`.
const MOSAIC: &[u8] = b"M\na\nb\n";

/// The part file of the only chunk of a single null without dimensions.
const PART: &str =
    "OEOPART1\0\0\0\x66{\"graph\":\"\",\"chunk\":[1,1,1],\"range\":[0,1],\"chunks\":1,\"cells\":\"number\",\
\"dimensions\":[],\"again\":[1,1,1]}\0\0\0\0\0\0\0\0\0\0\0\0\0\0\0\0\0";

/// The calls that are expected, and how many there have been.
#[derive(Drop)]
pub(crate) struct FakeFiles<'a> {
    alloc: Global,
    expected: &'a str,
    calls: Cell<usize>,
}

impl<'a> FakeFiles<'a> {
    pub(crate) fn new(alloc: Global, expected: &'a str) -> FakeFiles<'a> {
        FakeFiles {
            alloc,
            expected,
            calls: Cell::new(0),
        }
    }

    /// How many calls there have been.
    pub(crate) fn calls(&self) -> u64 {
        self.calls.get() as u64
    }

    /// Counts a call of a path, and gives its answer where it is the next that is expected.
    fn answer(&self, call: &str, path: &str) -> IoResult<&'a str> {
        let number = self.calls.get();
        self.calls.set(number.saturating_add(1));
        let count = self.expected.split(' ').count().max(1);
        match self.expected.split(' ').nth(number % count) {
            Some(step) => answer_of(step, call, path),
            None => Err(Error::from(ErrorKind::Unsupported)),
        }
    }
}

/// The answer of an expected call, where it is this one.
fn answer_of<'a>(step: &'a str, call: &str, path: &str) -> IoResult<&'a str> {
    let (asked, answer) = step.split_once('=').unwrap_or((step, ""));
    let (asked_call, asked_path) = asked.split_once(':').unwrap_or((asked, ""));
    if asked_call != call || asked_path != path {
        return Err(Error::from(ErrorKind::Unsupported));
    }
    match answer.strip_prefix('!') {
        Some(kind) => Err(error_of(kind)),
        None => Ok(answer),
    }
}

/// The file that an answer names, of which a call fails where the answer has its number.
fn file_of(alloc: Global, answer: &str) -> IoResult<FakeFile> {
    let (file, call) = answer.split_once('@').unwrap_or((answer, ""));
    let mut failing = Vec::new(alloc);
    if let Ok(call) = number_of(call) {
        failing.push((call, ErrorKind::BrokenPipe))?;
    }
    let bytes = Vec::from_slice(alloc, bytes_of(file))?;
    Ok(FakeFile::new(bytes, Script::new(failing)))
}

/// The bytes of the file that a word names.
fn bytes_of(file: &str) -> &'static [u8] {
    match file {
        "cube" => CUBE,
        "cut" => &CUBE[1..],
        "mosaic" => MOSAIC,
        "part" => PART.as_bytes(),
        _ => b"",
    }
}

/// The word of a way to open a file.
fn call_of(how: &OpenOptions) -> &'static str {
    if how.asks_append() || how.asks_truncate() || how.asks_create() {
        return "write";
    }
    match (how.asks_read(), how.asks_write(), how.asks_create_new()) {
        (true, false, false) => "open",
        (true, true, true) => "create",
        _ => "write",
    }
}

/// The names of a folder, as an answer lists them.
#[derive(Drop)]
pub(crate) struct FakeNames<'a> {
    left: &'a str,
}

impl Read for FakeNames<'_> {
    fn read(&mut self, into: &mut [u8]) -> IoResult<usize> {
        if self.left.is_empty() {
            return Ok(0);
        }
        let (names, left) = self.left.split_once(',').unwrap_or((self.left, ""));
        self.left = left;
        match names.strip_prefix('!') {
            Some(kind) => Err(error_of(kind)),
            None => Ok(copy_names(names.as_bytes(), into)),
        }
    }
}

/// Ends each name by a zero byte.
fn copy_names(names: &[u8], into: &mut [u8]) -> usize
    ensures { result ≤ length into.old }
{
    let count = into.len().min(names.len() + 1);
    for index in 0..count {
        into[index] = match names.get(index) {
            None | Some(b'+') => 0,
            Some(b'?') => 255,
            Some(byte) => *byte,
        };
    }
    count
}

impl<'a> Files for FakeFiles<'a> {
    type File = FakeFile;

    type Dir = FakeNames<'a>;

    fn open_file(&self, how: &OpenOptions, path: &str) -> IoResult<FakeFile> {
        file_of(self.alloc, self.answer(call_of(how), path)?)
    }

    fn open_dir(&self, path: &str) -> IoResult<FakeNames<'a>> {
        let left = self.answer("list", path)?;
        Ok(FakeNames { left })
    }

    fn metadata(&self, path: &str) -> IoResult<Metadata> {
        match self.answer("about", path)? {
            "file" => Ok(Metadata::of_file(0)),
            "folder" => Ok(Metadata::of_dir()),
            "link" => Ok(Metadata::of_symlink(0)),
            _ => refuse(),
        }
    }

    fn symlink_metadata(&self, _path: &str) -> IoResult<Metadata> {
        refuse()
    }

    fn copy(&self, _from: &str, _to: &str) -> IoResult<u64> {
        refuse()
    }

    fn rename(&self, _from: &str, _to: &str) -> IoResult<()> {
        refuse()
    }

    fn remove_file(&self, path: &str) -> IoResult<()> {
        self.answer("remove", path)?;
        Ok(())
    }

    fn create_dir(&self, _path: &str) -> IoResult<()> {
        refuse()
    }

    fn remove_dir(&self, _path: &str) -> IoResult<()> {
        refuse()
    }

    fn remove_dir_all<B: Allocator>(&self, _alloc: B, _path: &str) -> IoResult<()> {
        refuse()
    }
}
