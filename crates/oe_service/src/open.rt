// The book opened.
ghost use Rattle.std.specs.Prelude.{◌≡◌, IfOk, IsErrOf, None, OnErr, OnOk, true};
ghost use Rattle.oe_jobs.specs.Events.{running_job};
ghost use Rattle.oe_jobs.specs.Plain.{plain_book};
ghost use Rattle.oe_jobs.specs.Valid.{IsBook};
ghost use Rattle.oe_outside.specs.Faults.{HasCauseOf};
ghost use Rattle.oe_plan.specs.Ranges.{IsWithinRanges};
ghost use Rattle.oe_service.specs.Calls.{Installs, IsKept, CommitsReopened, IsReopened, KeepsBook};
ghost use Rattle.oe_service.specs.GoesOn.{IsFree, IsService, state_of};
ghost use Rattle.oe_service.specs.States.{reopened};

use crate::service::{Service, install};
use oe_jobs::{Book, Keeper, KeeperFail, reopen};
use oe_window::ChunkSize;
use std::alloc::Global;

/// Why the book was not opened.
#[derive(Clone, Copy, PartialEq, Eq)]
pub enum OpenBookFail {
    /// The keeper failed.
    KeeperFailed,
    OutOfMemory,
}

impl From<KeeperFail> for OpenBookFail {
    ghost use Rattle.std.specs.Prelude.{◌≡◌};
    ghost use Rattle.oe_service.specs.Calls.{of_keeper};

    ghost from_gives = { λ fail r. r ≡ of_keeper fail };

    fn from(fail: KeeperFail) -> OpenBookFail {
        match fail {
            KeeperFail::Failed => OpenBookFail::KeeperFailed,
            KeeperFail::OutOfMemory => OpenBookFail::OutOfMemory,
        }
    }
}

/// The service over the book that a keeper has, which makes assets in chunks of a size with so many workers, 1 to 64. A
/// job that ran when the program ended is queued again with its old turn and without assets, and that is committed.
///
/// Refuses: `KeeperFailed` only where the keeper's fault counter rose; out of memory, which begins no commit.
pub fn open_book<K: Keeper>(
    alloc: Global,
    keeper: &mut K,
    size: ChunkSize,
    workers: u32,
) -> Result<Service, OpenBookFail>
    requires { IsWithinRanges size workers }
    ensures valid { IfOk result IsService }
    ensures sizes { IfOk result (λ s. (s.size ≡ size) × (s.workers ≡ workers)) }
    ensures kept { IfOk result (λ s. IsKept (K.kept keeper.new) (plain_book s.book)) }

    // No run is under way, no job runs, and the book is the one that is kept, after the reopening.
    ensures free { IfOk result IsFree }
    ensures opened { IfOk result (λ s. IsReopened (K.kept keeper.old) (state_of s)) }
    ensures commits { CommitsReopened (K.kept keeper.old) (K.kept keeper.new) }
    ensures hidden { K.kept keeper.old ≡ None → K.kept keeper.new ≡ None }
    ensures same { OnErr result (KeepsBook (K.kept keeper.old) (K.kept keeper.new)) }
    ensures cause { HasCauseOf OpenBookFail.KeeperFailed (K.faults keeper.old)
        (K.faults keeper.new) result }
    ensures last { IsErrOf result OpenBookFail.KeeperFailed → K.has_failed keeper.new ≡ true }
    ensures unbegun { IsErrOf result OpenBookFail.OutOfMemory
        → K.kept keeper.new ≡ K.kept keeper.old }
{
    let mut book = keeper.load()?;
    reopen_book(alloc, &mut book, keeper)?;
    Ok(Service {
        book,
        size,
        workers,
        ids: Vec::new(alloc),
        run: None,
    })
}

/// Queues the running job again, where there is one.
fn reopen_book<K: Keeper>(alloc: Global, book: &mut Book, keeper: &mut K) -> Result<(), KeeperFail>
    requires valid { IsBook (plain_book book.old) }
    requires kept { IsKept (K.kept keeper.old) (plain_book book.old) }
    ensures valid { IsBook (plain_book book.new) }
    ensures free { OnOk result (running_job (plain_book book.new) ≡ None) }
    ensures installs { Installs (plain_book book.old) (reopened (plain_book book.old))
        (plain_book book.new) (K.kept keeper.old) (K.kept keeper.new) (K.faults keeper.old)
        (K.faults keeper.new) (K.has_failed keeper.new) result }
{
    match reopen(alloc, book) {
        Ok(Some(change)) => install(book, change, keeper),
        Ok(None) => Ok(()),
        Err(_) => Err(KeeperFail::OutOfMemory),
    }
}
