// Events, from a line, and where they may come.
ghost use Rattle.std.specs.Prelude.{◌≡◌, ℤ, Bool, IfOk, IsTrue, true};
ghost use Rattle.std.specs.Option.{option_map};
ghost use Rattle.oe_jobs.specs.Events as spec;
ghost use Rattle.oe_jobs.specs.Events.{IsFree, MayCome, event_of};
ghost use Rattle.oe_jobs.specs.Machine.{may_come, step_of};
ghost use Rattle.oe_jobs.specs.Plain.{plain_book, plain_job};

use crate::jobs::asset_of;
use oe_dims::{Text, same_name};
use oe_jobs::{Book, Change, Job, JobEvent, Status, reopen, step};
use oe_lines::{Fault, Line};
use std::alloc::Global;

/// When events come.
const HAPPENED: i64 = 60;

/// What the event of a line changes, where it may come.
pub(crate) fn change_of(line: &mut Line, book: &Book) -> Result<Option<Change>, Fault> {
    let id = Text::of(line.alloc(), line.word())?;
    let event = event_of(line)?;
    change_by(line.alloc(), book, &id, event)
}

/// An event: `start`, `asset NAME`, `finish` or `fail CODE`.
fn event_of(line: &mut Line) -> Result<JobEvent, Fault> {
    match line.word() {
        "start" => Ok(JobEvent::Start),
        "asset" => Ok(JobEvent::Asset(asset_of(line.alloc(), line.rest())?)),
        "finish" => Ok(JobEvent::Finish),
        "fail" => Ok(JobEvent::Fail {
            code: Text::of(line.alloc(), line.rest())?,
        }),
        _ => Err(Fault::Line),
    }
}

/// What an event of the job of an id changes, where it may come.
fn change_by(
    alloc: Global,
    book: &Book,
    id: &Text,
    event: JobEvent,
) -> Result<Option<Change>, Fault> {
    if comes(alloc, book, id, &event)? {
        Ok(Some(step(alloc, book, id, event, HAPPENED)?))
    } else {
        Ok(None)
    }
}

/// Whether the job of an id is there, and an event may come to it.
fn comes(alloc: Global, book: &Book, id: &Text, event: &JobEvent) -> Result<bool, Fault>
    ensures { IfOk result (λ comes. IsTrue comes → (now : ℤ)
        → MayCome (plain_book book.now) id.now event.now now) }
{
    match job_named(book, id) {
        Some(job) => Ok(has_step(job.status, event) && is_free(alloc, book, event)?),
        None => Ok(false),
    }
}

/// The job of an id.
fn job_named<'a>(book: &'a Book, id: &Text) -> Option<&'a Job>
    ensures { option_map (λ j. plain_job j.now) result
        ≡ spec.job_named id.now (plain_book book.now) }
{
    for job in &book.jobs {
        if same_name(&job.id, id) {
            return Some(job);
        }
    }
    None
}

/// Whether an event comes to a job in a status.
fn has_step(status: Status, event: &JobEvent) -> bool
    ensures { IsTrue result → (now : ℤ) (some : Bool)
        → may_come (step_of status (event_of event.now now) some) ≡ true }
{
    match event {
        JobEvent::Start => matches!(status, Status::Queued),
        JobEvent::Asset(_) => matches!(status, Status::Running),
        JobEvent::Finish => matches!(status, Status::Running),
        JobEvent::Fail { .. } => matches!(status, Status::Running),
    }
}

/// Whether no job runs where one is to start.
fn is_free(alloc: Global, book: &Book, event: &JobEvent) -> Result<bool, Fault>
    ensures { IfOk result (λ free. IsTrue free → IsFree event.now (plain_book book.now)) }
{
    match event {
        JobEvent::Start => Ok(reopen(alloc, book)?.is_none()),
        JobEvent::Asset(_) => Ok(true),
        JobEvent::Finish => Ok(true),
        JobEvent::Fail { .. } => Ok(true),
    }
}
