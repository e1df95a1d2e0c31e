// The body of a page, in memory.
ghost use Rattle.std.specs.Prelude.{◌≡◌, []};

use oe_outside::{Failed, Sink};
use std::alloc::Global;

/// A sink that keeps all that was written. A write fails where an allocation is refused.
#[derive(Drop)]
pub(crate) struct BodySink {
    bytes: Vec<u8>,
    faults: u64,
}

impl BodySink {
    /// An empty sink.
    pub(crate) fn new(alloc: Global) -> BodySink
        ensures bytes { result.bytes.items ≡ [] }
        ensures faults { result.faults ≡ 0 }
    {
        BodySink {
            bytes: Vec::new(alloc),
            faults: 0,
        }
    }

    /// All that was written.
    pub(crate) fn into_bytes(self) -> Vec<u8>
        ensures { result.items ≡ self.bytes.items }
    {
        self.bytes
    }
}

impl Sink for BodySink {
    ghost use Rattle.std.specs.Prelude.{Some};

    ghost written = { λ s. Some s.bytes.items };

    ghost faults = { λ s. s.faults };

    fn write(&mut self, piece: &[u8]) -> Result<(), Failed> {
        match self.bytes.extend_from_slice(piece) {
            Ok(()) => Ok(()),
            Err(_) => {
                self.faults = self.faults.saturating_add(1);
                Err(Failed)
            }
        }
    }
}
