// The periods from the one of a first label to the one of a last.
ghost use Rattle.std.specs.Prelude.{◌≡◌, ◌<◌, ◌≤◌, ◌+◌, true};
ghost use Rattle.std.specs.List.{All};
ghost use Rattle.oe_dims.specs.Dimensions.{rises};
ghost use Rattle.oe_dims.specs.Instant.{IsInstant};
ghost use Rattle.oe_periods.specs.Calendar as spec;
ghost use Rattle.oe_periods.specs.Periods.{ArePeriodsOf};

use crate::calendar::{Period, end_of, number_of, start_of};
use std::marker::Model;

/// Periods one behind the other.
#[derive(Drop)]
pub struct Periods {
    period: Period,
    first: u32,
    count: u32,
}

impl Model for Periods {
    ghost use Rattle.std.specs.Prelude.{◌≤◌, ◌+◌};
    ghost use Rattle.oe_periods.specs.Calendar.{periods_in_all};
    ghost use Rattle.oe_periods.specs.Periods.{Series};

    ghost Value = { Series };

    ghost view = { λ s. record { period = s.period; first = s.first; count = s.count } };

    ghost invariant = { λ s. s.first + s.count ≤ periods_in_all s.period };
}

impl Periods {
    /// The periods of labels that rise: from the one of the first to the one of the last; none where there is no label.
    pub fn over(period: Period, labels: &[i64]) -> Periods
        requires rise { rises labels.now ≡ true }
        requires instants { All IsInstant labels.now }
        ensures { ArePeriodsOf period labels.now result }
    {
        if labels.is_empty() {
            return Periods {
                period,
                first: 0,
                count: 0,
            };
        }
        let first = number_of(period, labels[0]);
        let last = number_of(period, labels[labels.len() - 1]);
        Periods {
            period,
            first,
            count: last - first + 1,
        }
    }

    /// How many there are: at most as many as the years 1 to 9999 have, which are 3652059 days.
    pub fn count(&self) -> u32
        ensures value { result ≡ self.now.count }
        ensures most { self.now.first + result ≤ spec.periods_in_all self.now.period }
    {
        self.count
    }

    /// The first second of one of them, in seconds since 1970-01-01T00:00:00Z.
    pub fn start(&self, index: u32) -> i64
        requires { index < self.now.count }
        ensures { result ≡ spec.period_start self.now.period (self.now.first + index) }
    {
        start_of(self.period, self.first + index)
    }

    /// The first second behind one of them; `None` where it ends with the year 9999.
    pub fn end(&self, index: u32) -> Option<i64>
        requires { index < self.now.count }
        ensures { result ≡ spec.period_end self.now.period (self.now.first + index) }
    {
        end_of(self.period, self.first + index)
    }
}
