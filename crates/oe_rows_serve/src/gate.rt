// A gate that counts.
use oe_outside::Gate;
use std::sync::atomic::{AtomicU64, Ordering};

/// A gate that counts the chunks that enter it.
#[derive(Drop)]
pub(crate) struct CountGate {
    entered: AtomicU64,
}

impl CountGate {
    pub(crate) fn new() -> CountGate {
        CountGate {
            entered: AtomicU64::new(0),
        }
    }

    pub(crate) fn entered(&self) -> u64 {
        self.entered.load(Ordering::SeqCst)
    }
}

impl Gate for CountGate {
    fn open(&self, _chunks: u64) {}

    fn enter(&self, _chunk: u64) {
        self.entered.fetch_add(1, Ordering::SeqCst);
    }

    fn close(&self) {}
}
