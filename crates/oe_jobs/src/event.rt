// What the run of a job, and the opening of a book after a stop, change.
ghost use Rattle.std.specs.Prelude.{◌≡◌, IfOk, IfSome, Some};
ghost use Rattle.std.specs.Option.{option_map};
ghost use Rattle.oe_dims.specs.Instant.{IsInstant};
ghost use Rattle.oe_jobs.specs.Changes.{changed};
ghost use Rattle.oe_jobs.specs.Events as spec;
ghost use Rattle.oe_jobs.specs.Machine as machine;
ghost use Rattle.oe_jobs.specs.Plain.{add_asset, plain_book, plain_change, plain_job};
ghost use Rattle.oe_jobs.specs.Valid.{IsBook, IsEvent};

use crate::book::Book;
use crate::change::Change;
use crate::copy::{bare, copy_logs, copy_ran};
use crate::find::{job_named, running_job};
use crate::job::{Asset, Job};
use crate::log::{asset_message, course, failure, log};
use crate::status::Status;
use oe_dims::Text;
use oe_memory::OutOfMemory;
use std::alloc::Global;

/// An event of the run of a job.
#[derive(Drop)]
pub enum JobEvent {
    Start,
    /// The run has made this asset.
    Asset(Asset),
    Finish,
    /// The run was refused, with this code.
    Fail { code: Text },
}

/// What an event of the run of a job changes at a moment, in seconds since 1970-01-01T00:00:00Z. An asset is moved into
/// the change. Refuses: out of memory.
pub fn step(
    alloc: Global,
    book: &Book,
    job: &Text,
    event: JobEvent,
    now: i64,
) -> Result<Change, OutOfMemory>
    requires { spec.MayCome (plain_book book.now) job.now event now }

    // The change is the definition's, and makes the book in which the job has taken its line of the table.
    ensures change { IfOk result (λ c. Some (plain_change c)
        ≡ spec.step (plain_book book.now) job.now event now) }
    ensures line { IfOk result (λ c. changed (plain_book book.now) (plain_change c)
        ≡ spec.moved_book (plain_book book.now) job.now (spec.event_of event now)) }

    // A valid book stays valid.
    ensures valid { IfOk result (λ c. IsBook (plain_book book.now) → IsEvent event → IsInstant now
        → IsBook (changed (plain_book book.now) (plain_change c))) }
{
    change_by(alloc, book, job, event, now)
}

fn change_by(
    alloc: Global,
    book: &Book,
    job: &Text,
    event: JobEvent,
    now: i64,
) -> Result<Change, OutOfMemory>
    requires { spec.MayCome (plain_book book.now) job.now event now }
    ensures change { IfOk result (λ c. Some (plain_change c)
        ≡ spec.step (plain_book book.now) job.now event now) }
{
    let Some(job) = job_named(book, job) else {
        unreachable!()
    };
    match event {
        JobEvent::Start => Ok(Change::PutJob {
            job: start_job(alloc, job, now)?,
            next: book.next,
        }),
        JobEvent::Asset(asset) => add_asset(alloc, job, asset, now),
        JobEvent::Finish => Ok(Change::PutJob {
            job: finish_job(alloc, job, now)?,
            next: book.next,
        }),
        JobEvent::Fail { code } => Ok(Change::PutJob {
            job: fail_job(job, &code, now)?,
            next: book.next,
        }),
    }
}

fn start_job(alloc: Global, job: &Job, now: i64) -> Result<Job, OutOfMemory>
    ensures { IfOk result (λ j. plain_job j
        ≡ machine.with_status Status.Running (machine.begins now (plain_job job.now))) }
{
    let mut started = bare(alloc, job)?;
    started.status = Status::Running;
    started.updated = now;
    started.ran = copy_ran(alloc, &job.ran)?;
    log(alloc, &mut started.logs, job.level, "started")?;
    Ok(started)
}

fn add_asset(alloc: Global, job: &Job, asset: Asset, now: i64) -> Result<Change, OutOfMemory>
    ensures { IfOk result (λ c. plain_change c
        ≡ add_asset job.now.id asset
        (machine.kept job.now.level (machine.course (machine.asset_message asset))) now) }
{
    let message = asset_message(alloc, &asset)?;
    Ok(Change::AddAsset {
        job: job.id.copy()?,
        log: course(alloc, job.level, message.as_str())?,
        asset,
        updated: now,
    })
}

fn finish_job(alloc: Global, job: &Job, now: i64) -> Result<Job, OutOfMemory>
    ensures { IfOk result (λ j. plain_job j
        ≡ machine.with_status Status.Finished (machine.ends now (plain_job job.now))) }
{
    let mut finished = job.copy()?;
    finished.status = Status::Finished;
    finished.updated = now;
    log(alloc, &mut finished.logs, job.level, "finished")?;
    Ok(finished)
}

fn fail_job(job: &Job, code: &Text, now: i64) -> Result<Job, OutOfMemory>
    ensures { IfOk result (λ j. plain_job j
        ≡ machine.with_status Status.Error (machine.breaks now code.now (plain_job job.now))) }
{
    let mut failed = job.copy()?;
    failed.status = Status::Error;
    failed.updated = now;
    failed.logs.push(failure(code)?)?;
    Ok(failed)
}

/// What the opening of a book after a stop changes: the job that ran, where there is one, is queued again with its old
/// turn and without assets. Refuses: out of memory.
pub fn reopen(alloc: Global, book: &Book) -> Result<Option<Change>, OutOfMemory>
    ensures change { IfOk result
        (λ c. option_map plain_change c ≡ spec.reopen (plain_book book.now)) }

    // A valid book stays valid.
    ensures valid { IfOk result (λ change. IsBook (plain_book book.now)
        → IfSome change (λ c. IsBook (changed (plain_book book.now) (plain_change c)))) }
{
    reopen_running(alloc, book)
}

fn reopen_running(alloc: Global, book: &Book) -> Result<Option<Change>, OutOfMemory>
    ensures change { IfOk result
        (λ c. option_map plain_change c ≡ spec.reopen (plain_book book.now)) }
{
    match running_job(book) {
        Some(job) => Ok(Some(Change::PutJob {
            job: reopen_job(alloc, job)?,
            next: book.next,
        })),
        None => Ok(None),
    }
}

fn reopen_job(alloc: Global, job: &Job) -> Result<Job, OutOfMemory>
    ensures { IfOk result (λ j. plain_job j
        ≡ machine.with_status Status.Queued (machine.drops_assets (plain_job job.now))) }
{
    let mut reopened = bare(alloc, job)?;
    reopened.status = Status::Queued;
    reopened.ran = copy_ran(alloc, &job.ran)?;
    reopened.logs = copy_logs(alloc, &job.logs)?;
    Ok(reopened)
}
