// Why answers could not be had.
use oe_memory::OutOfMemory;
use std::alloc::{AllocError, AllocFailed};

/// Why the answer to a line could not be had.
#[derive(Clone, Copy)]
pub enum Fault {
    /// The line is none of those that are understood, or what it asks for is not to be had.
    Line,
    OutOfMemory,
}

impl Fault {
    /// The status of a program that ends so.
    pub fn status(self) -> u8 {
        match self {
            Fault::Line => 1,
            Fault::OutOfMemory => 9,
        }
    }
}

impl From<OutOfMemory> for Fault {
    fn from(_error: OutOfMemory) -> Fault {
        Fault::OutOfMemory
    }
}

impl From<AllocError> for Fault {
    fn from(_error: AllocError) -> Fault {
        Fault::OutOfMemory
    }
}

impl<T: Drop> From<AllocFailed<T>> for Fault {
    fn from(_error: AllocFailed<T>) -> Fault {
        Fault::OutOfMemory
    }
}
