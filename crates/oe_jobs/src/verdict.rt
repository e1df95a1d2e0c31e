// What the commands of users change.
ghost use Rattle.std.specs.Prelude.{◌≡◌, IfOk, IfSome, if◌then◌else◌, unwrap_or};
ghost use Rattle.oe_graph.specs.Plain.{plain_stored};
ghost use Rattle.oe_dims.specs.Instant.{IsInstant};
ghost use Rattle.oe_jobs.specs.Changes.{changed};
ghost use Rattle.oe_jobs.specs.Machine as machine;
ghost use Rattle.oe_jobs.specs.Plain.{plain_book, plain_change, plain_command, plain_job, plain_verdict};
ghost use Rattle.oe_jobs.specs.Valid.{IsBook, IsCommand};
ghost use Rattle.oe_jobs.specs.Verdicts as spec;

use crate::book::{Book, Owned};
use crate::change::Change;
use crate::command::{Command, JobFault, Outcome, Verdict};
use crate::copy::{copy_assets, copy_logs, copy_ran};
use crate::find::{count_jobs, count_processes, has_process, job_of};
use crate::job::{Job, Ran};
use crate::level::Level;
use crate::log::log;
use crate::number::job_id;
use crate::status::Status;
use oe_dims::{Text, copy_text};
use oe_graph::{StoredProcess, process_entry};
use oe_memory::OutOfMemory;
use std::alloc::Global;

/// Most jobs of a user.
const MOST_JOBS: usize = 32;

/// Most stored processes of a user.
const MOST_PROCESSES: usize = 16;

/// What a command of a user changes in a book at a moment, and what is answered (openEO API, batch jobs and
/// user-defined processes). `now` is in seconds since 1970-01-01T00:00:00Z. The book stays as it is.
///
/// The verdict refuses: `JobNotFound` for a job, and `ProcessNotFound` for a stored process, that is not the user's;
/// `JobLocked` to patch a job that is queued or running; `JobLimit` to create a 33rd job, or to create or queue one
/// where no number is left; `PredefinedProcessExists` to store under an id of the catalogue, and then `ProcessLimit` to
/// store a 17th process. Refuses: out of memory.
pub fn decide(
    alloc: Global,
    book: &Book,
    user: &Text,
    command: &Command,
    now: i64,
) -> Result<Verdict, OutOfMemory>
    ensures verdict { IfOk result (λ v. plain_verdict v
        ≡ spec.decide (plain_book book.now) user.now (plain_command command.now) now) }

    // A valid book stays valid.
    ensures valid { IfOk result (λ v. IsBook (plain_book book.now)
        → IsCommand (plain_command command.now) → IsInstant now
        → IfSome v.change (λ c. IsBook (changed (plain_book book.now) (plain_change c)))) }
{
    verdict_on(alloc, book, user, command, now)
}

fn verdict_on(
    alloc: Global,
    book: &Book,
    user: &Text,
    command: &Command,
    now: i64,
) -> Result<Verdict, OutOfMemory>
    ensures verdict { IfOk result (λ v. plain_verdict v
        ≡ spec.decide (plain_book book.now) user.now (plain_command command.now) now) }
{
    match command {
        Command::Create {
            title,
            description,
            process,
            level,
        } => create(alloc, book, user, title, description, process, *level, now),
        Command::Patch {
            id,
            title,
            description,
            process,
            level,
        } => match job_of(book, user, id) {
            Some(job) => patch(book, job, title, description, process, level, now),
            None => Ok(refusal(JobFault::JobNotFound)),
        },
        Command::Delete { id } => match job_of(book, user, id) {
            Some(_) => Ok(acceptance(Change::DropJob { id: id.copy()? })),
            None => Ok(refusal(JobFault::JobNotFound)),
        },
        Command::Queue { id } => match job_of(book, user, id) {
            Some(job) => queue(alloc, book, job, now),
            None => Ok(refusal(JobFault::JobNotFound)),
        },
        Command::Cancel { id } => match job_of(book, user, id) {
            Some(job) => cancel(alloc, book, job, now),
            None => Ok(refusal(JobFault::JobNotFound)),
        },
        Command::Store { process } => store(book, user, process),
        Command::Forget { id } => forget(book, user, id),
    }
}

fn refusal(fault: JobFault) -> Verdict
    ensures { plain_verdict result ≡ spec.refused fault }
{
    Verdict {
        change: None,
        outcome: Outcome::Refused(fault),
    }
}

fn acceptance(change: Change) -> Verdict
    ensures { plain_verdict result ≡ spec.done (plain_change change) }
{
    Verdict {
        change: Some(change),
        outcome: Outcome::Done,
    }
}

/// Whether the book has given away every number but its last, which it keeps.
fn has_no_number(book: &Book) -> bool
    ensures { result ≡ spec.has_no_number (plain_book book.now) }
{
    book.next == u64::MAX
}

fn create(
    alloc: Global,
    book: &Book,
    user: &Text,
    title: &Option<Text>,
    description: &Option<Text>,
    process: &Text,
    level: Level,
    now: i64,
) -> Result<Verdict, OutOfMemory>
    ensures { IfOk result (λ v. plain_verdict v ≡ spec.create_verdict (plain_book book.now)
        user.now (spec.created (plain_book book.now) user.now title.now description.now
        process.now level now)) }
{
    if count_jobs(book, user) >= MOST_JOBS || has_no_number(book) {
        return Ok(refusal(JobFault::JobLimit));
    }
    let id = job_id(alloc, book.next)?;
    let job = Job {
        id: id.copy()?,
        user: user.copy()?,
        title: copy_text(title)?,
        description: copy_text(description)?,
        process: process.copy()?,
        status: Status::Created,
        level,
        created: now,
        updated: now,
        turn: 0,
        ran: None,
        logs: Vec::new(alloc),
        assets: Vec::new(alloc),
    };
    Ok(Verdict {
        change: Some(Change::PutJob {
            job,
            next: book.next + 1,
        }),
        outcome: Outcome::Created(id),
    })
}

fn patch(
    book: &Book,
    job: &Job,
    title: &Option<Option<Text>>,
    description: &Option<Option<Text>>,
    process: &Option<Text>,
    level: &Option<Level>,
    now: i64,
) -> Result<Verdict, OutOfMemory>
    ensures { IfOk result (λ v. plain_verdict v
        ≡ spec.patch_verdict (plain_book book.now) (plain_job job.now)
        (spec.patched title.now description.now process.now level.now now (plain_job job.now))) }
{
    if job.status.is_busy() {
        return Ok(refusal(JobFault::JobLocked));
    }
    Ok(acceptance(Change::PutJob {
        job: patch_job(job, title, description, process, level, now)?,
        next: book.next,
    }))
}

/// The job with what is given in place of what it has.
fn patch_job(
    job: &Job,
    title: &Option<Option<Text>>,
    description: &Option<Option<Text>>,
    process: &Option<Text>,
    level: &Option<Level>,
    now: i64,
) -> Result<Job, OutOfMemory>
    ensures { IfOk result (λ j. plain_job j
        ≡ spec.patched title.now description.now process.now level.now now (plain_job job.now)) }
{
    let alloc = *job.logs.allocator();
    Ok(Job {
        id: job.id.copy()?,
        user: job.user.copy()?,
        title: given_words(title, &job.title)?,
        description: given_words(description, &job.description)?,
        process: given_text(process, &job.process)?,
        status: job.status,
        level: level.unwrap_or(job.level),
        created: job.created,
        updated: now,
        turn: job.turn,
        ran: copy_ran(alloc, &job.ran)?,
        logs: copy_logs(alloc, &job.logs)?,
        assets: copy_assets(alloc, &job.assets)?,
    })
}

/// A copy of the words that are given, else of the old ones.
fn given_words(
    given: &Option<Option<Text>>,
    old: &Option<Text>,
) -> Result<Option<Text>, OutOfMemory>
    ensures { IfOk result (λ t. t ≡ unwrap_or given.now old.now) }
{
    match given {
        Some(words) => copy_text(words),
        None => copy_text(old),
    }
}

/// A copy of the text that is given, else of the old one.
fn given_text(given: &Option<Text>, old: &Text) -> Result<Text, OutOfMemory>
    ensures { IfOk result (λ t. t ≡ unwrap_or given.now old.now) }
{
    match given {
        Some(text) => text.copy(),
        None => old.copy(),
    }
}

fn queue(alloc: Global, book: &Book, job: &Job, now: i64) -> Result<Verdict, OutOfMemory>
    ensures { IfOk result (λ v. plain_verdict v
        ≡ spec.queue_verdict (plain_book book.now) (plain_job job.now)
        (machine.queue now book.now.next (spec.to_run (plain_book book.now) (plain_job job.now)))) }
{
    if job.status.is_busy() {
        return Ok(Verdict {
            change: None,
            outcome: Outcome::Queued,
        });
    }
    if has_no_number(book) {
        return Ok(refusal(JobFault::JobLimit));
    }
    Ok(Verdict {
        change: Some(Change::PutJob {
            job: queue_job(alloc, book, job, now)?,
            next: book.next + 1,
        }),
        outcome: Outcome::Queued,
    })
}

/// The job with the turn that it draws, its process and its user's stored processes to run.
fn queue_job(alloc: Global, book: &Book, job: &Job, now: i64) -> Result<Job, OutOfMemory>
    ensures { IfOk result (λ j. plain_job j
        ≡ machine.with_status Status.Queued (machine.draws now book.now.next
        (spec.to_run (plain_book book.now) (plain_job job.now)) (plain_job job.now))) }
{
    let mut queued = job.copy()?;
    queued.status = Status::Queued;
    queued.updated = now;
    queued.turn = book.next;
    queued.ran = Some(Ran {
        process: job.process.copy()?,
        stored: book.stored_of(alloc, &job.user)?,
    });
    Ok(queued)
}

fn cancel(alloc: Global, book: &Book, job: &Job, now: i64) -> Result<Verdict, OutOfMemory>
    ensures { IfOk result (λ v. plain_verdict v
        ≡ spec.cancel_verdict (plain_book book.now) (plain_job job.now) (machine.cancel now)) }
{
    match job.status {
        Status::Queued => Ok(acceptance(Change::PutJob {
            job: withdraw_job(job, now)?,
            next: book.next,
        })),
        Status::Running => Ok(acceptance(Change::PutJob {
            job: stop_job(alloc, job, now)?,
            next: book.next,
        })),
        Status::Created | Status::Canceled | Status::Finished | Status::Error => Ok(Verdict {
            change: None,
            outcome: Outcome::Done,
        }),
    }
}

/// The job out of the queue.
fn withdraw_job(job: &Job, now: i64) -> Result<Job, OutOfMemory>
    ensures { IfOk result (λ j. plain_job j
        ≡ machine.with_status Status.Created (machine.at now (plain_job job.now))) }
{
    let mut withdrawn = job.copy()?;
    withdrawn.status = Status::Created;
    withdrawn.updated = now;
    Ok(withdrawn)
}

/// The job after its run was stopped: with assets it is canceled, without any it is created again.
fn stop_job(alloc: Global, job: &Job, now: i64) -> Result<Job, OutOfMemory>
    ensures { IfOk result (λ j. plain_job j ≡ machine.with_status
        (if machine.has_assets (plain_job job.now) then Status.Canceled else Status.Created)
        (machine.stops now (plain_job job.now))) }
{
    let mut stopped = job.copy()?;
    stopped.status = status_after_stop(job);
    stopped.updated = now;
    log(alloc, &mut stopped.logs, job.level, "canceled")?;
    Ok(stopped)
}

fn status_after_stop(job: &Job) -> Status
    ensures { result
        ≡ (if machine.has_assets (plain_job job.now) then Status.Canceled else Status.Created) }
{
    if job.assets.is_empty() {
        Status::Created
    } else {
        Status::Canceled
    }
}

fn store(book: &Book, user: &Text, process: &StoredProcess) -> Result<Verdict, OutOfMemory>
    ensures { IfOk result (λ v. plain_verdict v
        ≡ spec.store_verdict (plain_book book.now) user.now (plain_stored process.now)) }
{
    if process_entry(process.id.as_str()).is_some() {
        return Ok(refusal(JobFault::PredefinedProcessExists));
    }
    if !has_process(book, user, &process.id) && count_processes(book, user) >= MOST_PROCESSES {
        return Ok(refusal(JobFault::ProcessLimit));
    }
    Ok(acceptance(Change::PutProcess {
        owned: Owned {
            user: user.copy()?,
            process: process.copy()?,
        },
    }))
}

fn forget(book: &Book, user: &Text, id: &Text) -> Result<Verdict, OutOfMemory>
    ensures { IfOk result (λ v. plain_verdict v
        ≡ spec.forget_verdict (plain_book book.now) user.now id.now) }
{
    if !has_process(book, user, id) {
        return Ok(refusal(JobFault::ProcessNotFound));
    }
    Ok(acceptance(Change::DropProcess {
        user: user.copy()?,
        id: id.copy()?,
    }))
}
