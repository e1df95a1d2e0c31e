// The time of day as the system has it.
ghost use Rattle.std.specs.Prelude.{◌≡◌, None};
ghost use Rattle.oe_outside.specs.Moment.{IsMoment};

use oe_outside::Clock;
use std::time;
use std::time::{SystemTime, UNIX_EPOCH};

/// The last second of the year 9999.
const LAST: u64 = 253402300799;

/// The system's clock. Where it cannot be read it gives the moment that it gave before, and at first 1970.
#[derive(Drop)]
pub struct SystemClock<C: time::Clock> {
    system: C,
    last: u64,
}

impl<C: time::Clock> SystemClock<C> {
    /// A clock over the system's.
    pub fn new(system: C) -> Self {
        SystemClock { system, last: 0 }
    }
}

impl<C: time::Clock> Clock for SystemClock<C> {
    ghost moment = { λ _. None };

    /// Whole seconds; after the year 9999 its last second. Where the system's clock cannot be read or stands before 1970,
    /// what was answered last, and at first 1970.
    fn now_seconds(&mut self) -> i64
        ensures in_range { IsMoment result }
    {
        self.last = seconds(&self.system).unwrap_or(self.last);
        self.last.min(LAST) as i64
    }
}

/// Whole seconds since 1970, `None` where the clock cannot be read or stands before.
fn seconds<R: time::Clock>(system: &R) -> Option<u64> {
    match SystemTime::now(system) {
        Ok(now) => match now.duration_since(UNIX_EPOCH) {
            Ok(since) => Some(since.as_secs()),
            Err(_) => None,
        },
        Err(_) => None,
    }
}
