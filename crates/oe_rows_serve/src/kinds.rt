// Kinds of errors of the system.
use std::io::{Error, ErrorKind};

/// The words of kinds.
static KINDS: [(&str, ErrorKind); 12] = [
    ("interrupted", ErrorKind::Interrupted),
    ("missing", ErrorKind::NotFound),
    ("denied", ErrorKind::PermissionDenied),
    ("exists", ErrorKind::AlreadyExists),
    ("memory", ErrorKind::OutOfMemory),
    ("invalid", ErrorKind::InvalidData),
    ("broken", ErrorKind::BrokenPipe),
    ("reset", ErrorKind::ConnectionReset),
    ("aborted", ErrorKind::ConnectionAborted),
    ("waits", ErrorKind::WouldBlock),
    ("refused", ErrorKind::ConnectionRefused),
    ("down", ErrorKind::NetworkDown),
];

/// The kind that a word spells.
pub(crate) fn kind_of(word: &str) -> Option<ErrorKind> {
    for (name, kind) in &KINDS {
        if *name == word {
            return Some(*kind);
        }
    }
    None
}

/// An error of the kind that a word spells, or of what nothing asks for.
pub(crate) fn error_of(word: &str) -> Error {
    Error::from(kind_of(word).unwrap_or(ErrorKind::Unsupported))
}
