// Which calls of an object in memory fail, and the fault counter.
ghost use Rattle.std.specs.Prelude.{◌≡◌, IfOk};
ghost use Rattle.oe_outside.specs.Faults.{counted};
ghost use Rattle.oe_outside.specs.Script.{script_of, fails_next, after_call};

use crate::Failed;
use oe_memory::OutOfMemory;
use std::marker::Model;

/// The numbers of the calls that fail, in order, and the number of the next call.
#[derive(Drop)]
pub(crate) struct Script {
    failing: Vec<u64>,
    calls: u64,
}

impl Model for Script {
    ghost use Rattle.std.specs.Prelude.{IsSorted};
    ghost use Rattle.std.specs.Ordering.{nat_cmp};
    ghost use Rattle.std.specs.FinSet as set;
    ghost use Rattle.oe_outside.specs.Script.{ScriptState, script_code};

    ghost Value = { ScriptState };

    ghost coded = { script_code };

    ghost view = { λ s. record { failing = set.from_list s.failing.items; calls = s.calls } };

    ghost invariant = { λ s. IsSorted nat_cmp s.failing.items };
}

impl Script {
    /// A script before the first call. The numbers may come in any order, and more than once.
    pub(crate) fn new(mut failing: Vec<u64>) -> Result<Script, OutOfMemory>
        ensures { IfOk result (λ s. s ≡ script_of failing.items) }
    {
        failing.sort()?;
        Ok(Script { failing, calls: 0 })
    }

    /// The next call is to fail.
    pub(crate) fn is_next_listed(&self) -> bool
        ensures { result ≡ fails_next self.now }
    {
        self.failing.binary_search(&self.calls).is_ok()
    }

    /// Counts a call, and answers whether it is to fail.
    pub(crate) fn next_call(&mut self) -> bool
        ensures listed { result ≡ fails_next self.old }
        ensures counted { self.new ≡ after_call self.old }
    {
        let listed = self.is_next_listed();
        self.calls = self.calls.saturating_add(1);
        listed
    }
}

/// Raises a fault counter, which stays at its last value.
pub(crate) fn raise(count: &mut u64) -> Failed
    ensures { count.new ≡ counted count.old }
{
    *count = count.saturating_add(1);
    Failed
}
