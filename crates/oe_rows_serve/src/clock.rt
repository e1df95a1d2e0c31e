// A clock in memory that rises.
ghost use Rattle.std.specs.Prelude.{None};

use oe_outside::Clock;

/// The first and the last moment that a clock gives.
const FIRST: i64 = -62135596800;

const LAST: i64 = 253402300799;

/// A clock that goes on by so many seconds each time that it is asked.
#[derive(Clone, Copy)]
pub(crate) struct StepClock {
    next: i64,
    step: i64,
}

impl StepClock {
    pub(crate) fn new(next: i64, step: i64) -> StepClock {
        StepClock { next, step }
    }
}

impl Clock for StepClock {
    ghost moment = { λ c. None };

    fn now_seconds(&mut self) -> i64 {
        let now = self.next.clamp(FIRST, LAST);
        self.next = now.saturating_add(self.step);
        now
    }
}
