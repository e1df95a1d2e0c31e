// A keeper in memory.
ghost use Rattle.std.specs.Prelude.{◌≡◌, ◌↔◌, Err, IfOk, IsErrOf, IsTrue, OnOk, Some, false, true};
ghost use Rattle.oe_outside.specs.Faults.{HasCauseOf};
ghost use Rattle.oe_jobs.specs.Changes.{changed};
ghost use Rattle.oe_jobs.specs.Kept.{kept_after};
ghost use Rattle.oe_jobs.specs.Plain.{plain_book, plain_change};
ghost use Rattle.oe_jobs.specs.Valid.{IsBook};
ghost use Rattle.oe_keeper.specs.Memory.{has_failed, is_failure, kept_in, left_after, left_in, memory_of};
ghost use Rattle.oe_keeper.specs.Scripts.{after_call, fails_next};

use crate::change::{changed_copies, make};
use crate::script::Script;
use oe_jobs::{Book, Change, Keeper, KeeperFail};
use std::marker::Model;

/// A keeper in memory: the book is visible. Its calls fail by a script, and it can stop in any call.
pub struct MemoryKeeper {
    book: Book,
    made: Option<Book>,
    stopped: Option<Book>,
    begun: u64,
    script: Script,
}

impl Model for MemoryKeeper {
    ghost use Rattle.oe_keeper.specs.Memory.{Memory, IsMemory, memory_code};

    ghost Value = { Memory };

    ghost coded = { memory_code };

    ghost view = { λ k. record {
      book = k.book;
      made = k.made;
      stopped = k.stopped;
      begun = k.begun;
      script = k.script;
    } };

    ghost invariant = { λ k. IsMemory k.book k.stopped k.script };
}

/// Written out, so that a keeper that ends is one call wherever it does.
impl Drop for MemoryKeeper {
    fn drop(self) {
        let MemoryKeeper {
            book: _,
            made: _,
            stopped: _,
            begun: _,
            script: _,
        } = self;
    }
}

impl MemoryKeeper {
    /// A keeper of this book. `failing` has the numbers of the calls that fail, counted from 0 over `load` and `commit`
    /// together, in any order. From the call on whose number `stop` has, every call fails; its flag says whether what
    /// that call commits is kept all the same.
    pub fn new(book: Book, failing: Vec<u64>, stop: Option<(u64, bool)>) -> MemoryKeeper
        requires { IsBook (plain_book book) }
        ensures { result ≡ memory_of book failing.items stop }
    {
        MemoryKeeper {
            book,
            made: None,
            stopped: None,
            begun: 0,
            script: Script::new(failing, stop),
        }
    }

    /// The book that a crash leaves, for tests: the one that is kept, or, where the keeper stopped in a commit and its
    /// flag says so, the one that this commit makes.
    pub fn stopped(self) -> Book
        ensures left { plain_book result ≡ left_in self }
        ensures valid { IsBook (plain_book result) }
    {
        let MemoryKeeper {
            book,
            made: _,
            stopped,
            begun: _,
            script: _,
        } = self;
        match stopped {
            Some(left) => left,
            None => book,
        }
    }

    /// How many calls have failed, for tests.
    pub fn faults(&self) -> u64
        ensures { result ≡ self.now.script.faults }
    {
        self.script.faults()
    }

    /// A commit that fails, or is out of memory.
    fn fail(&mut self, change: &Change) -> KeeperFail
        requires valid { IsBook (changed (plain_book self.old.book) (plain_change change.now)) }
        requires fails { fails_next self.old.script ≡ true }
        ensures kept { kept_in self.new
            ≡ kept_after (plain_change change.now) (Err result) (kept_in self.old) }
        ensures left { left_in self.new
            ≡ left_after self.old (plain_change change.now) (Err result) }
        ensures script { self.new.script ≡ after_call self.old.script (is_failure result) }
    {
        match changed_copies(&self.book, change, self.script.keeps_next()) {
            Ok((made, left)) => {
                self.made = Some(made);
                match left {
                    Some(left) => self.stopped = Some(left),
                    None => {}
                }
                self.begun = self.begun.saturating_add(1);
                self.script.count_call(true);
                KeeperFail::Failed
            }
            Err(_) => {
                self.script.count_call(false);
                KeeperFail::OutOfMemory
            }
        }
    }

    /// A commit that does not fail, but may be out of memory.
    fn keep(&mut self, change: &Change) -> Result<(), KeeperFail>
        requires valid { IsBook (changed (plain_book self.old.book) (plain_change change.now)) }
        requires works { fails_next self.old.script ≡ false }
        ensures kept { kept_in self.new
            ≡ kept_after (plain_change change.now) result (kept_in self.old) }
        ensures left { left_in self.new ≡ left_after self.old (plain_change change.now) result }
        ensures script { self.new.script ≡ after_call self.old.script false }
        ensures not_failed { ¬ IsErrOf result KeeperFail.Failed }
    {
        self.script.count_call(false);
        match make(&mut self.book, change) {
            Ok(()) => {
                self.made = None;
                self.begun = self.begun.saturating_add(1);
                Ok(())
            }
            Err(_) => Err(KeeperFail::OutOfMemory),
        }
    }
}

impl Keeper for MemoryKeeper {
    ghost kept = { λ k. Some (kept_in k) };

    ghost faults = { λ k. k.script.faults };

    ghost has_failed = { λ k. k.script.has_failed };

    /// A copy of the book that is kept. It fails exactly where the script says so.
    ///
    /// Refuses: `Failed` where the script has the call fail; out of memory.
    fn load(&mut self) -> Result<Book, KeeperFail>
        ensures book { IfOk result (λ b. plain_book b ≡ plain_book self.old.book) }
        ensures valid { IfOk result (λ b. IsBook (plain_book b)) }
        ensures same { kept_in self.new ≡ kept_in self.old }
        ensures left { left_in self.new ≡ left_in self.old }
        ensures fails { IsErrOf result KeeperFail.Failed ↔ fails_next self.old.script ≡ true }
        ensures script { self.new.script ≡ after_call self.old.script (has_failed result) }
        ensures cause { HasCauseOf KeeperFail.Failed self.old.script.faults
            self.new.script.faults result }
        ensures last { IsTrue self.new.script.has_failed ↔ IsErrOf result KeeperFail.Failed }
    {
        let fails = self.script.fails_next();
        self.script.count_call(fails);
        if fails {
            return Err(KeeperFail::Failed);
        }
        match self.book.copy() {
            Ok(book) => Ok(book),
            Err(_) => Err(KeeperFail::OutOfMemory),
        }
    }

    /// Keeps the changed book. It answers `Failed` only where the script has the call fail, and an Ok only where not;
    /// either may be out of memory in place of it, and then no commit was begun.
    ///
    /// Refuses: `Failed` where the script has the call fail; out of memory.
    fn commit(&mut self, change: &Change) -> Result<(), KeeperFail>
        requires { IsBook (changed (plain_book self.old.book) (plain_change change.now)) }
        ensures kept { kept_in self.new
            ≡ kept_after (plain_change change.now) result (kept_in self.old) }
        ensures left { left_in self.new ≡ left_after self.old (plain_change change.now) result }
        ensures fails { IsErrOf result KeeperFail.Failed → fails_next self.old.script ≡ true }
        ensures works { OnOk result (fails_next self.old.script ≡ false) }
        ensures script { self.new.script ≡ after_call self.old.script (has_failed result) }
        ensures cause { HasCauseOf KeeperFail.Failed self.old.script.faults
            self.new.script.faults result }
        ensures last { IsTrue self.new.script.has_failed ↔ IsErrOf result KeeperFail.Failed }
    {
        if self.script.fails_next() {
            Err(self.fail(change))
        } else {
            self.keep(change)
        }
    }
}
