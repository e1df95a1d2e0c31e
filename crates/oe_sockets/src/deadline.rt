// The moment by which a peer has to be done.

use std::time::{Clock, Duration, Instant};

/// A moment, or none, which is over. A clock that cannot be read, or that ends before the moment, gives none.
#[derive(Clone, Copy)]
pub(crate) struct Deadline {
    until: Option<Instant>,
}

impl Deadline {
    /// So long from now on.
    pub(crate) fn after<R: Clock>(clock: &R, limit: Duration) -> Deadline {
        let until = match Instant::now(clock) {
            Ok(now) => now.checked_add(limit),
            Err(_) => None,
        };
        Deadline { until }
    }

    /// So much later.
    pub(crate) fn later(self, by: Duration) -> Deadline {
        let until = match self.until {
            Some(until) => until.checked_add(by),
            None => None,
        };
        Deadline { until }
    }

    /// What is left, and `None` where it is over.
    pub(crate) fn left<R: Clock>(self, clock: &R) -> Option<Duration> {
        let until = self.until?;
        match Instant::now(clock) {
            Ok(now) if until > now => until.checked_duration_since(now),
            _ => None,
        }
    }
}
