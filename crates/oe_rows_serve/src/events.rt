// Events, from a line, and where they may come.
ghost use Rattle.std.specs.Prelude.{◌≡◌, ℤ, Bool, IfOk, IsTrue, true};
ghost use Rattle.std.specs.Option.{option_map};
ghost use Rattle.oe_jobs.specs.Events as spec;
ghost use Rattle.oe_jobs.specs.Events.{IsFree, MayCome, event_of};
ghost use Rattle.oe_jobs.specs.Machine.{may_come, step_of};
ghost use Rattle.oe_jobs.specs.Plain.{plain_book, plain_job};

use oe_dims::{Text, same_name};
use oe_jobs::{Asset, Book, Change, Job, JobEvent, Status, reopen, step};
use oe_lines::{Fault, first_word};
use std::alloc::Global;

/// What the event of a line changes at a moment, where it may come.
pub(crate) fn change_of(
    alloc: Global,
    line: &str,
    book: &Book,
    now: i64,
) -> Result<Option<Change>, Fault> {
    let (id, words) = first_word(line);
    let id = Text::of(alloc, id)?;
    change_by(alloc, book, &id, event_of(alloc, words)?, now)
}

/// What an event of the job of an id changes, where it may come.
fn change_by(
    alloc: Global,
    book: &Book,
    id: &Text,
    event: JobEvent,
    now: i64,
) -> Result<Option<Change>, Fault> {
    if comes(alloc, book, id, &event)? {
        Ok(Some(step(alloc, book, id, event, now)?))
    } else {
        Ok(None)
    }
}

/// An event: `start`, `asset NAME TEXT`, `finish` or `fail CODE`.
fn event_of(alloc: Global, line: &str) -> Result<JobEvent, Fault> {
    let (word, rest) = first_word(line);
    match word {
        "start" => Ok(JobEvent::Start),
        "asset" => Ok(JobEvent::Asset(asset_of(alloc, rest)?)),
        "finish" => Ok(JobEvent::Finish),
        "fail" => Ok(JobEvent::Fail {
            code: Text::of(alloc, rest)?,
        }),
        _ => Err(Fault::Line),
    }
}

fn asset_of(alloc: Global, words: &str) -> Result<Asset, Fault> {
    let (name, text) = first_word(words);
    Ok(Asset {
        name: Text::of(alloc, name)?,
        text: Text::of(alloc, text)?,
    })
}

/// Whether the job of an id is there, and an event may come to it.
fn comes(alloc: Global, book: &Book, id: &Text, event: &JobEvent) -> Result<bool, Fault>
    ensures { IfOk result (λ comes. IsTrue comes → (now : ℤ)
        → MayCome (plain_book book.now) id.now event.now now) }
{
    match job_named(book, id) {
        Some(job) => Ok(has_step(job.status, event) && is_free(alloc, book, event)?),
        None => Ok(false),
    }
}

/// The job of an id.
fn job_named<'a>(book: &'a Book, id: &Text) -> Option<&'a Job>
    ensures { option_map (λ j. plain_job j.now) result
        ≡ spec.job_named id.now (plain_book book.now) }
{
    for job in &book.jobs {
        if same_name(&job.id, id) {
            return Some(job);
        }
    }
    None
}

/// Whether an event comes to a job in a status.
fn has_step(status: Status, event: &JobEvent) -> bool
    ensures { IsTrue result → (now : ℤ) (some : Bool)
        → may_come (step_of status (event_of event.now now) some) ≡ true }
{
    match event {
        JobEvent::Start => matches!(status, Status::Queued),
        JobEvent::Asset(_) => matches!(status, Status::Running),
        JobEvent::Finish => matches!(status, Status::Running),
        JobEvent::Fail { .. } => matches!(status, Status::Running),
    }
}

/// Whether no job runs where one is to start.
fn is_free(alloc: Global, book: &Book, event: &JobEvent) -> Result<bool, Fault>
    ensures { IfOk result (λ free. IsTrue free → IsFree event.now (plain_book book.now)) }
{
    match event {
        JobEvent::Start => Ok(reopen(alloc, book)?.is_none()),
        JobEvent::Asset(_) => Ok(true),
        JobEvent::Finish => Ok(true),
        JobEvent::Fail { .. } => Ok(true),
    }
}
