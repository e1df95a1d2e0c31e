// Where a job book is kept.
ghost use Rattle.std.specs.Prelude.{◌≡◌, ◌↔◌, ℕ, Bool, Option, IfOk, IfSome, IsErrOf, IsTrue};
ghost use Rattle.std.specs.Option.{option_map};
ghost use Rattle.oe_outside.specs.Faults.{HasCauseOf};
ghost use Rattle.oe_jobs.specs.Changes.{changed};
ghost use Rattle.oe_jobs.specs.Kept.{Kept, kept_after};
ghost use Rattle.oe_jobs.specs.Plain.{plain_book, plain_change};
ghost use Rattle.oe_jobs.specs.Valid.{IsBook};

use crate::book::Book;
use crate::change::Change;

/// Why a keeper refuses.
#[derive(Clone, Copy, PartialEq, Eq)]
pub enum KeeperFail {
    /// A call of the outside failed.
    Failed,
    OutOfMemory,
}

/// What keeps a job book beyond the program's end.
pub trait Keeper {
    /// The book that is kept, how many commits were begun and the book that the last of them makes, where they are
    /// visible. A commit is begun unless it is out of memory. A crash leaves the book that is kept, or
    /// the one that the commit in progress makes.
    ghost kept: { Self → Option Kept };

    /// How often a call has failed.
    ghost faults: { Self → ℕ };

    /// Whether the last call failed.
    ghost has_failed: { Self → Bool };

    /// The book that is kept, which is valid.
    ///
    /// Refuses: `Failed` only where the fault counter rose; out of memory.
    fn load(&mut self) -> Result<Book, KeeperFail>
        ensures book { IfOk result (λ b. IfSome (kept self.old) (λ k. plain_book b ≡ k.book)) }
        ensures valid { IfOk result (λ b. IsBook (plain_book b)) }
        ensures same { kept self.new ≡ kept self.old }
        ensures cause { HasCauseOf KeeperFail.Failed (faults self.old) (faults self.new) result }
        ensures last { IsTrue (has_failed self.new) ↔ IsErrOf result KeeperFail.Failed };

    /// Keeps the changed book. After a refusal the old one is kept.
    ///
    /// Refuses: `Failed` only where the fault counter rose; out of memory.
    fn commit(&mut self, change: &Change) -> Result<(), KeeperFail>
        requires { IfSome (kept self.old) (λ k. IsBook (changed k.book (plain_change change.now))) }
        ensures kept { kept self.new
            ≡ option_map (kept_after (plain_change change.now) result) (kept self.old) }
        ensures cause { HasCauseOf KeeperFail.Failed (faults self.old) (faults self.new) result }
        ensures last { IsTrue (has_failed self.new) ↔ IsErrOf result KeeperFail.Failed };
}
