// Why a run did not go on.

/// Why a run did not go on.
#[derive(Clone, Copy, PartialEq, Eq)]
pub enum RunFail {
    /// A read of a collection failed, and its fault counter rose.
    SourceFailed,
    /// The node `load` keeps a damaged position of its collection, by its row-major number there.
    SourceDamaged { load: u32, number: u64 },
    /// A write of the spool failed, and its fault counter rose.
    SpoolFailed,
    /// The result has a cell that is no number in range, at this row-major number at first.
    Overflow(u64),
}
