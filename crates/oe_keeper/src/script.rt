// Which calls of a keeper in memory fail, and the fault counter.
ghost use Rattle.std.specs.Prelude.{◌≡◌, ◌==◌};
ghost use Rattle.std.specs.List.{list_any};
ghost use Rattle.oe_outside.specs.Faults.{counted};
ghost use Rattle.oe_keeper.specs.Scripts as spec;

use std::marker::Model;

/// The calls that fail, the call from which on all fail, and the number of the next call.
#[derive(Drop)]
pub(crate) struct Script {
    failing: Vec<u64>,
    stop: Option<(u64, bool)>,
    calls: u64,
    faults: u64,
    has_failed: bool,
}

impl Model for Script {
    ghost use Rattle.oe_keeper.specs.Scripts as spec;

    ghost Value = { spec.Script };

    ghost view = { λ s. record {
      failing = s.failing.items;
      stop = s.stop;
      calls = s.calls;
      faults = s.faults;
      has_failed = s.has_failed;
    } };
}

impl Script {
    /// A script before the first call. The numbers may come in any order, and more than once.
    pub(crate) fn new(failing: Vec<u64>, stop: Option<(u64, bool)>) -> Script
        ensures { result ≡ spec.script_of failing.items stop }
    {
        Script {
            failing,
            stop,
            calls: 0,
            faults: 0,
            has_failed: false,
        }
    }

    /// Whether the next call is to fail.
    pub(crate) fn fails_next(&self) -> bool
        ensures { result ≡ spec.fails_next self.now }
    {
        self.has_stopped() || self.is_listed()
    }

    /// Whether the keeper has stopped by the next call.
    fn has_stopped(&self) -> bool
        ensures { result ≡ spec.has_stopped self.now.stop self.now.calls }
    {
        match self.stop {
            Some((call, _)) => call <= self.calls,
            None => false,
        }
    }

    fn is_listed(&self) -> bool
        ensures { result ≡ list_any (λ number. number == self.now.calls) self.now.failing }
    {
        for number in &self.failing {
            if *number == self.calls {
                return true;
            }
        }
        false
    }

    /// Whether the keeper stops in the next call, and what that call commits is kept all the same.
    pub(crate) fn keeps_next(&self) -> bool
        ensures { result ≡ spec.is_kept self.now.stop self.now.calls }
    {
        match self.stop {
            Some((call, is_kept)) => is_kept && call == self.calls,
            None => false,
        }
    }

    /// Counts a call that failed or did not. The counters stay at their last values.
    pub(crate) fn count_call(&mut self, has_failed: bool)
        ensures { self.new ≡ spec.after_call self.old has_failed }
    {
        self.calls = self.calls.saturating_add(1);
        if has_failed {
            self.faults = self.faults.saturating_add(1);
        }
        self.has_failed = has_failed;
    }

    /// How many calls have failed.
    pub(crate) fn faults(&self) -> u64
        ensures { result ≡ self.now.faults }
    {
        self.faults
    }
}
