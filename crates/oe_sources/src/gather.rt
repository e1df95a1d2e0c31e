// Bytes that are gathered in memory.
ghost use Rattle.std.specs.Prelude.{◌≡◌};

use oe_outside::{Failed, Sink};

/// A sink that keeps all that was written. A write fails where an allocation is refused.
#[derive(Drop)]
pub(crate) struct Gather {
    bytes: Vec<u8>,
    faults: u64,
}

impl Gather {
    /// A sink that keeps what is written behind these bytes.
    pub(crate) fn behind(bytes: Vec<u8>) -> Gather
        ensures { result.bytes.items ≡ bytes.items }
    {
        Gather { bytes, faults: 0 }
    }

    /// All that was written.
    pub(crate) fn into_bytes(self) -> Vec<u8>
        ensures { result.items ≡ self.bytes.items }
    {
        self.bytes
    }
}

impl Sink for Gather {
    ghost use Rattle.std.specs.Prelude.{Some};

    ghost written = { λ g. Some g.bytes.items };

    ghost faults = { λ g. g.faults };

    fn write(&mut self, piece: &[u8]) -> Result<(), Failed> {
        match self.bytes.extend_from_slice(piece) {
            Ok(()) => Ok(()),
            Err(_) => {
                self.faults = self.faults.saturating_add(1);
                Err(Failed)
            }
        }
    }
}
