// What changes in a book.
use crate::book::Owned;
use crate::job::{Asset, Job, LogEntry};
use oe_dims::Text;

/// A change of a book; all else stays.
#[derive(Drop)]
pub enum Change {
    /// The job takes the place of the one with its id, or else the last place, and the book's next number is this.
    PutJob {
        job: Job,
        next: u64,
    },
    /// The job of this id gets an asset and, where there is one, a log entry, and is changed at this moment.
    AddAsset {
        job: Text,
        asset: Asset,
        log: Option<LogEntry>,
        updated: i64,
    },
    DropJob {
        id: Text,
    },
    /// The process takes the place of the user's one with its id, or else stands before the first that is greater by
    /// user and then id in byte order.
    PutProcess {
        owned: Owned,
    },
    DropProcess {
        user: Text,
        id: Text,
    },
}
