// Why a call on the database is refused.
use oe_memory::OutOfMemory;
use sqlite::{Error, ErrorCode};
use std::alloc::{AllocError, AllocFailed};

/// Why a call on the database is refused: the database refused it, or a row or a book is not valid; or an allocation
/// was refused.
#[derive(Clone, Copy)]
pub(crate) enum Refusal {
    Failed,
    OutOfMemory,
}

impl From<Error> for Refusal {
    fn from(error: Error) -> Refusal {
        match error {
            Error::SqliteFailure(ErrorCode::OutOfMemory) => Refusal::OutOfMemory,
            _ => Refusal::Failed,
        }
    }
}

impl From<OutOfMemory> for Refusal {
    fn from(_refused: OutOfMemory) -> Refusal {
        Refusal::OutOfMemory
    }
}

impl From<AllocError> for Refusal {
    fn from(_refused: AllocError) -> Refusal {
        Refusal::OutOfMemory
    }
}

impl<T: Drop> From<AllocFailed<T>> for Refusal {
    fn from(_refused: AllocFailed<T>) -> Refusal {
        Refusal::OutOfMemory
    }
}
