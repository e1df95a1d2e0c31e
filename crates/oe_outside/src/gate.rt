// What a worker passes before it works on a chunk.

/// A gate that a worker enters before each chunk. It changes nothing that a contract sees.
pub trait Gate: Sync {
    /// Opens for a run of so many chunks.
    fn open(&self, chunks: u64);

    /// Enters with the number of the chunk.
    fn enter(&self, chunk: u64);

    /// Closes behind a run, whether all its chunks are done or not.
    fn close(&self);
}

/// The gate that does nothing.
#[derive(Clone, Copy)]
pub struct NoGate;

impl Gate for NoGate {
    fn open(&self, _chunks: u64) {}

    fn enter(&self, _chunk: u64) {}

    fn close(&self) {}
}
