// The time of day.
ghost use Rattle.std.specs.Prelude.{◌≡◌, ℤ, Option, IfSome};
ghost use Rattle.oe_outside.specs.Moment.{IsMoment};

/// A clock.
pub trait Clock {
    /// The one moment that the clock gives, where it is visible.
    ghost moment: { Self → Option ℤ };

    /// The moment now, in whole seconds since 1970-01-01T00:00:00Z, in the years 1 to 9999.
    fn now_seconds(&mut self) -> i64
        ensures in_range { IsMoment result }
        ensures visible { IfSome (moment self.old) (λ m. result ≡ m) }
        ensures same { moment self.new ≡ moment self.old };
}
