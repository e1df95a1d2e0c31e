// The state of a network in memory: the answers that are left, the time, and what it was asked for.
ghost use Rattle.std.specs.Prelude.{◌≤◌, length};
ghost use Rattle.std.specs.Io.{ReadsAtMost};

use crate::kinds::error_of;
use oe_lines::{Answers, Fault, end_line, push};
use std::alloc::Global;
use std::cell::{Cell, RefCell};
use std::io::{Error, ErrorKind, Result as IoResult};
use std::time::Duration;

/// A network whose calls are answered by the words of a script.
pub(crate) struct Network {
    script: String,
    calls: Cell<usize>,
    milliseconds: Cell<u64>,
    asked: RefCell<Vec<u8>>,
}

/// Written out, so that a network that ends is one call wherever it does.
impl Drop for Network {
    fn drop(self) {
        let Network {
            script: _,
            calls: _,
            milliseconds: _,
            asked: _,
        } = self;
    }
}

impl Network {
    /// A network that stands until the program ends, so that what is over it has no lifetime to name.
    pub(crate) fn new(alloc: Global, script: &str) -> Result<&'static Network, Fault> {
        let network = Network {
            script: String::from_str(alloc, script)?,
            calls: Cell::new(0),
            milliseconds: Cell::new(0),
            asked: RefCell::new(Vec::new(alloc)),
        };
        Ok(Box::leak(Box::new(alloc, network)?))
    }

    /// The time since its start.
    pub(crate) fn time(&self) -> Duration {
        Duration::from_millis(self.milliseconds.get())
    }

    /// Ends a line with what it was asked for since the last one ended, each behind a blank.
    pub(crate) fn end_line(&self, answers: &mut Answers) {
        push(":", answers);
        if let Ok(mut asked) = self.asked.try_borrow_mut() {
            answers.extend(&asked);
            asked.clear();
        }
        end_line(answers);
    }

    /// Prints a word of what it is asked for.
    pub(crate) fn print(&self, word: &str) {
        if let Ok(mut asked) = self.asked.try_borrow_mut() {
            let _ = asked.push(b' ');
            let _ = asked.extend_from_slice(word.as_bytes());
        }
    }

    /// Prints bytes, of which a line feed stands as `\n`.
    pub(crate) fn print_bytes(&self, bytes: &[u8]) {
        if let Ok(mut asked) = self.asked.try_borrow_mut() {
            let _ = asked.push(b' ');
            for byte in bytes {
                if *byte == b'\n' {
                    let _ = asked.extend_from_slice(b"\\n");
                } else {
                    let _ = asked.push(*byte);
                }
            }
        }
    }

    /// Prints a number.
    pub(crate) fn print_number(&self, number: u64) {
        self.print(itoa::Buffer::new().format(number));
    }

    /// The answer of the next call: a number of bytes, which is 0 for `ok`.
    pub(crate) fn answer(&self) -> IoResult<usize> {
        answer_of(self.word()?)
    }

    /// The answer of the next call, which reads: bytes at the front of `into`, and their number.
    pub(crate) fn answer_bytes(&self, into: &mut [u8]) -> IoResult<usize>
        ensures { ReadsAtMost result into.new }
    {
        let word = self.word()?;
        match word.strip_prefix('=') {
            Some(text) => Ok(put_text(text, into)),
            None => {
                let count = answer_of(word)?.min(into.len());
                into[..count].fill(b'a');
                Ok(count)
            }
        }
    }

    /// The word of the next call. The time is then as it says.
    fn word(&self) -> IoResult<&str> {
        let number = self.calls.get();
        self.calls.set(number.saturating_add(1));
        let Some(word) = self.script.split(' ').nth(number) else {
            return Err(Error::from(ErrorKind::Unsupported));
        };
        let (word, at) = word.split_once('@').unwrap_or((word, ""));
        if let Ok(at) = at.parse::<u64>() {
            self.milliseconds.set(at);
        }
        Ok(word)
    }
}

/// Puts a text at the front of `into`, with a blank for `_` and a line feed for `$`, and answers how many bytes it has.
fn put_text(text: &str, into: &mut [u8]) -> usize
    ensures { result ≤ length into.new }
{
    let count = text.len().min(into.len());
    into[..count].copy_from_slice(&text.as_bytes()[..count]);
    for byte in into[..count].iter_mut() {
        match *byte {
            b'_' => *byte = b' ',
            b'$' => *byte = b'\n',
            _ => {}
        }
    }
    count
}

/// The number of a word, 0 for `ok`, or the error of the kind that it spells.
fn answer_of(word: &str) -> IoResult<usize> {
    match word.parse::<usize>() {
        Ok(count) => Ok(count),
        Err(_) if word == "ok" => Ok(0),
        Err(_) => Err(error_of(word)),
    }
}
