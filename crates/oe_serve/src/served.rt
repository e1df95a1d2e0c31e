// How a connection was served.

/// What became of a connection.
#[derive(Clone, Copy, PartialEq, Eq)]
pub enum Served {
    /// A whole reply of this status was written.
    Answered(u16),
    /// The head of a result was written, and not all of its text, since the spool failed, or gave back no record,
    /// behind it.
    Cut,
    /// The connection failed. What its request changed may stand unanswered.
    LinkFailed,
}
