// What holds of every life of a service.
ghost use Rattle.oe_service.specs.Finishes.{FinishedJobsHaveTexts, JobsFinishInTime, StatusesMoveAlong};
ghost use Rattle.oe_service.specs.Lives.{CallsLeadOn, CrashesLeaveOne, NothingIsLost, RunningIsQueued};
ghost use Rattle.oe_service.specs.Texts.{TicksBringTexts};

use oe_book::keeps_running;

/// Does nothing. Its contract says that after any calls, one after the other, the state of a service is that of the
/// events which came, and that its book is kept.
#[tactic(auto, using(crate::proofs::LifeLemmas::calls_lead_on))]
pub fn calls_lead_on()
    ensures { CallsLeadOn }
{}

/// Does nothing. Its contract says that a crash in a call that begins at most one commit, of its event's book, leaves the
/// book from before the call or that one.
#[tactic(auto, using(crate::proofs::LifeLemmas::crashes_leave_one))]
pub fn crashes_leave_one()
    ensures { CrashesLeaveOne }
{}

/// Does nothing. Its contract says that no event whose call was answered is lost, whatever crashes come: the state is
/// that of all of them in order, with the openings and the cut calls whose event a crash left.
#[tactic(auto, using(crate::proofs::LifeLemmas::nothing_is_lost))]
pub fn nothing_is_lost()
    ensures { NothingIsLost }
{}

/// Does nothing. Its contract says that after an opening no job runs, and that the one that ran is queued again with its
/// old turn and without assets.
#[tactic(auto, using(crate::proofs::LifeLemmas::running_is_queued))]
pub fn running_is_queued()
    ensures { RunningIsQueued }
{}

/// Does nothing. Its contract says that the status of a job moves along a line of the status machine, or stays, whatever
/// comes to a valid book.
#[tactic(auto, using(crate::proofs::StatusLemmas::statuses_move_along))]
pub fn statuses_move_along()
    ensures { StatusesMoveAlong }
{}

/// Does nothing. Its contract says that a job which has started is finished after exactly so many ticks, whatever requests
/// come between them, if none of the ticks is refused, no command ends the job, and the book is not opened anew: for each
/// asset one that plans it, its rounds of two chunks a worker, and one that stores it, and one more at the end. Until then
/// the job runs.
pub fn jobs_finish_in_time()
    ensures { JobsFinishInTime }
{
    keeps_running();
}

/// Does nothing. Its contract says that after an opening and any events each finished job was finished before, or has all
/// its assets, named after their nodes and with the texts that were stored for them.
pub fn finished_jobs_have_texts()
    ensures { FinishedJobsHaveTexts }
{
    keeps_running();
}

/// Does nothing. Its contract says that the text which a tick stores is that of what the graph of the asset means over
/// the collections of the catalogue, where they and the spool are visible, and that reading leaves this text as it is.
#[tactic(auto, using(crate::proofs::TextsLemmas::ticks_bring_texts))]
pub fn ticks_bring_texts()
    ensures { TicksBringTexts }
{}
