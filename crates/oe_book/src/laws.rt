// What holds of every valid book.
ghost use Rattle.oe_book.specs.Laws as spec;

/// Does nothing. Its contract says that after any command of any user on a valid book the job that runs is the same
/// record as before, or none runs.
pub fn keeps_running()
    ensures { spec.KeepsRunning }
{}

/// Does nothing. Its contract says that where no job runs, and none is the queued one of least turn, no job is queued or
/// runs: so a queued job is not passed over.
pub fn idle_without_busy()
    ensures { spec.IdleWithoutBusy }
{}

/// Does nothing. Its contract says that the stored processes of a user of a valid book, and those that one of its jobs
/// runs with, are such as graphs are resolved with.
#[tactic(auto, using(crate::proofs::StoredLemmas::book_stored, crate::proofs::StoredLemmas::ran_stored))]
pub fn stored_is_valid()
    ensures book { spec.BookStoredIsValid }
    ensures ran { spec.RanStoredIsValid }
{}

/// Does nothing. Its contract says that setting the member `id` of a process that was sent leaves the faults of its form
/// as they are, so that a process may be stored under the id of its path.
pub fn id_leaves_faults()
    ensures { spec.IdLeavesFaults }
{}
