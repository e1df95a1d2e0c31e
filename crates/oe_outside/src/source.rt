// Where bytes come from.
ghost use Rattle.std.specs.Prelude.{ℕ, List, Option, ◌≤◌, ◌≡◌, length, IfOk, OnErr};
ghost use Rattle.oe_outside.specs.Faults.{HasCause};
ghost use Rattle.oe_outside.specs.Visible.{TakesFront, EndsOnlyAtEnd};

use crate::Failed;

/// A reader of bytes.
pub trait Source {
    /// The bytes that are left to be read, where they are visible.
    ghost left: { Self → Option (List ℕ) };

    /// How often a read has failed.
    ghost faults: { Self → ℕ };

    /// Reads some of the bytes that are left into the front of `into`, and answers how many. 0 for a buffer that is not
    /// empty is the end of the input.
    ///
    /// Refuses: only where the fault counter rose. Then no byte of what is visible was taken.
    fn read(&mut self, into: &mut [u8]) -> Result<usize, Failed>
        ensures within { IfOk result (λ n. n ≤ length into.old) }
        ensures taken { IfOk result (λ n. TakesFront (left self.old) n into.new (left self.new)) }
        ensures end { IfOk result (λ n. EndsOnlyAtEnd (left self.old) n (length into.old)) }
        ensures failed { OnErr result (left self.new ≡ left self.old) }
        ensures cause { HasCause (faults self.old) (faults self.new) result };
}
