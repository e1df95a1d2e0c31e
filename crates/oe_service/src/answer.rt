// The answer of a tick.
ghost use Rattle.std.specs.Prelude.{◌≡◌, Err};
ghost use Rattle.oe_service.specs.Ticks as spec;

use oe_jobs::KeeperFail;

/// How a tick ended.
#[derive(Clone, Copy, PartialEq, Eq)]
pub enum Ticked {
    /// No job is queued or runs.
    Idle,
    /// What was due is done.
    Moved,
    /// The keeper failed. The book is as before, and the same is due again.
    KeeperFailed,
    /// The book is as before, and the same is due again.
    OutOfMemory,
}

/// The answer of a tick whose change was not committed.
pub(crate) fn ticked_by(fail: KeeperFail) -> Ticked
    ensures { result ≡ spec.answer_of (Err fail) }
{
    match fail {
        KeeperFail::Failed => Ticked::KeeperFailed,
        KeeperFail::OutOfMemory => Ticked::OutOfMemory,
    }
}
