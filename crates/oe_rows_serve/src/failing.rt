// Which calls of an object fail, and in which way.
use crate::kinds::kind_of;
use oe_lines::{Fault, number_of, parts_of};
use std::alloc::Global;
use std::cell::Cell;
use std::io::{Error, ErrorKind, Result as IoResult};

/// The calls that fail, and how many there have been.
#[derive(Drop)]
pub(crate) struct Script {
    failing: Vec<(u64, ErrorKind)>,
    calls: Cell<u64>,
}

impl Script {
    pub(crate) fn new(failing: Vec<(u64, ErrorKind)>) -> Script {
        Script {
            failing,
            calls: Cell::new(0),
        }
    }

    /// Counts a call, and refuses one that fails.
    pub(crate) fn call(&self) -> IoResult<()> {
        let number = self.calls.get();
        self.calls.set(number.saturating_add(1));
        for (call, kind) in &self.failing {
            if *call == number {
                return Err(Error::from(*kind));
            }
        }
        Ok(())
    }
}

/// The calls that fail, as a word spells them.
pub(crate) fn script_of(alloc: Global, word: &str) -> Result<Script, Fault> {
    let mut failing = Vec::new(alloc);
    if word != "-" {
        for call in word.split(',') {
            failing.push(failing_of(call)?)?;
        }
    }
    Ok(Script::new(failing))
}

/// The number and the kind of a call that fails.
fn failing_of(call: &str) -> Result<(u64, ErrorKind), Fault> {
    let (number, kind) = parts_of(call, ":")?;
    match kind_of(kind) {
        Some(kind) => Ok((number_of(number)?, kind)),
        None => Err(Fault::Line),
    }
}
