// A clock that stands still.
ghost use Rattle.std.specs.Prelude.{◌≡◌, Some};
ghost use Rattle.oe_outside.specs.Moment.{IsMoment};

use crate::Clock;
use std::marker::Model;

/// A clock that always gives one moment, which is visible. It takes no memory.
#[derive(Drop)]
pub struct FixedClock {
    seconds: i64,
}

impl Model for FixedClock {
    ghost use Rattle.std.specs.Prelude.{ℤ};
    ghost use Rattle.oe_outside.specs.Moment.{IsMoment};

    ghost Value = { ℤ };

    ghost view = { λ c. c.seconds };

    ghost invariant = { λ c. IsMoment c.seconds };
}

impl FixedClock {
    /// A clock that stands at this moment, in whole seconds since 1970-01-01T00:00:00Z, in the years 1 to 9999.
    pub fn new(seconds: i64) -> FixedClock
        requires { IsMoment seconds }
        ensures { result ≡ seconds }
    {
        FixedClock { seconds }
    }
}

impl Clock for FixedClock {
    ghost moment = { λ c. Some c };

    fn now_seconds(&mut self) -> i64
        ensures value { result ≡ self.old }
        ensures in_range { IsMoment result }
        ensures same { self.new ≡ self.old }
    {
        self.seconds
    }
}
