// Looking up jobs and stored processes.
ghost use Rattle.std.specs.Prelude.{◌≡◌, ◌<◌, ◌≤◌, IfSome, length, map, count_by, true};
ghost use Rattle.std.specs.Option.{option_map};
ghost use Rattle.oe_dims.specs.Indices.{index_where};
ghost use Rattle.oe_jobs.specs.Changes as changes;
ghost use Rattle.oe_jobs.specs.Events as events;
ghost use Rattle.oe_jobs.specs.Machine.{is_queued, is_running};
ghost use Rattle.oe_jobs.specs.Plain.{plain_book, plain_job, plain_owned};
ghost use Rattle.oe_jobs.specs.Room.{has_id};
ghost use Rattle.oe_jobs.specs.Verdicts as spec;

use crate::book::{Book, Owned};
use crate::job::Job;
use oe_dims::{Text, same_name};

/// The user's job of an id. Another user's job is not there.
pub(crate) fn job_of<'a>(book: &'a Book, user: &Text, id: &Text) -> Option<&'a Job>
    ensures { option_map (λ j. plain_job j.now) result
        ≡ spec.job_of user.now id.now (plain_book book.now) }
{
    for job in &book.jobs {
        if is_job_of(job, user, id) {
            return Some(job);
        }
    }
    None
}

/// This is the user's job of an id.
fn is_job_of(job: &Job, user: &Text, id: &Text) -> bool
    ensures { result ≡ spec.is_found user.now id.now (plain_job job.now) }
{
    same_name(&job.id, id) && same_name(&job.user, user)
}

/// Where the user's job of an id stands.
pub(crate) fn index_of(jobs: &[Job], user: &Text, id: &Text) -> Option<usize>
    ensures index { result
        ≡ index_where (λ j. spec.is_found user.now id.now (plain_job j)) jobs.now }
    ensures within { IfSome result (λ i. i < length jobs.now) }
{
    for index in 0..jobs.len() {
        if is_job_of(&jobs[index], user, id) {
            return Some(index);
        }
    }
    None
}

/// The job of an id, whosever it is.
pub(crate) fn job_named<'a>(book: &'a Book, id: &Text) -> Option<&'a Job>
    ensures { option_map (λ j. plain_job j.now) result
        ≡ events.job_named id.now (plain_book book.now) }
{
    for job in &book.jobs {
        if same_name(&job.id, id) {
            return Some(job);
        }
    }
    None
}

/// The job that runs.
pub(crate) fn running_job(book: &Book) -> Option<&Job>
    ensures job { option_map (λ j. plain_job j.now) result
        ≡ events.running_job (plain_book book.now) }
    ensures runs { IfSome result (λ j. is_running j.now.status ≡ true) }
{
    for job in &book.jobs {
        if job.status.is_running() {
            return Some(job);
        }
    }
    None
}

/// No queued job has a lesser turn.
fn is_first(book: &Book, job: &Job) -> bool
    ensures { result ≡ events.is_first (plain_book book.now) (plain_job job.now) }
{
    for other in &book.jobs {
        if other.status.is_queued() && other.turn < job.turn {
            return false;
        }
    }
    true
}

/// The queued job of least turn, which starts next.
pub(crate) fn next_queued(book: &Book) -> Option<&Job>
    ensures job { option_map (λ j. plain_job j.now) result
        ≡ events.next_queued (plain_book book.now) }
    ensures queued { IfSome result (λ j. is_queued j.now.status ≡ true) }
{
    for job in &book.jobs {
        if job.status.is_queued() && is_first(book, job) {
            return Some(job);
        }
    }
    None
}

/// Whether a job is queued or runs.
pub(crate) fn has_busy_job(book: &Book) -> bool
    ensures { result ≡ events.has_busy_job (plain_book book.now) }
{
    for job in &book.jobs {
        if job.status.is_busy() {
            return true;
        }
    }
    false
}

/// Where the job of an id stands.
pub(crate) fn index_of_job(jobs: &[Job], id: &Text) -> Option<usize>
    ensures index { result ≡ index_where (has_id id.now) jobs.now }
    ensures within { IfSome result (λ i. i < length jobs.now) }
{
    for index in 0..jobs.len() {
        if same_name(&jobs[index].id, id) {
            return Some(index);
        }
    }
    None
}

/// How many jobs a user has.
pub fn count_jobs(book: &Book, user: &Text) -> usize
    ensures count { result
        ≡ count_by (spec.is_job_of user.now) (map plain_job book.now.jobs.items) }
    ensures within { result ≤ length book.now.jobs.items }
{
    let mut count = 0;
    for job in &book.jobs {
        if same_name(&job.user, user) {
            count += 1;
        }
    }
    count
}

/// How many stored processes a user has.
pub fn count_processes(book: &Book, user: &Text) -> usize
    ensures count { result
        ≡ count_by (spec.is_process_of user.now) (map plain_owned book.now.processes.items) }
    ensures within { result ≤ length book.now.processes.items }
{
    let mut count = 0;
    for owned in &book.processes {
        if same_name(&owned.user, user) {
            count += 1;
        }
    }
    count
}

/// This is the user's stored process of an id.
fn is_owned(owned: &Owned, user: &Text, id: &Text) -> bool
    ensures { result ≡ changes.is_owned user.now id.now (plain_owned owned.now) }
{
    same_name(&owned.user, user) && same_name(&owned.process.id, id)
}

/// Whether the user has a stored process of an id.
pub(crate) fn has_process(book: &Book, user: &Text, id: &Text) -> bool
    ensures { result ≡ spec.has_process user.now id.now (plain_book book.now) }
{
    for owned in &book.processes {
        if is_owned(owned, user, id) {
            return true;
        }
    }
    false
}

/// Where the user's stored process of an id stands.
pub(crate) fn index_of_process(processes: &[Owned], user: &Text, id: &Text) -> Option<usize>
    ensures index { result
        ≡ index_where (λ o. changes.is_owned user.now id.now (plain_owned o)) processes.now }
    ensures within { IfSome result (λ i. i < length processes.now) }
{
    for index in 0..processes.len() {
        if is_owned(&processes[index], user, id) {
            return Some(index);
        }
    }
    None
}

/// By user and then by id in byte order, the second stands behind the first.
fn is_behind(a: &Owned, b: &Owned) -> bool
    ensures { result ≡ changes.is_behind (plain_owned a.now) (plain_owned b.now) }
{
    a.user < b.user || (same_name(&a.user, &b.user) && a.process.id < b.process.id)
}

/// Where the first process stands that is behind this one.
pub(crate) fn index_behind(processes: &[Owned], new: &Owned) -> Option<usize>
    ensures index { result
        ≡ index_where (λ o. changes.is_behind (plain_owned new.now) (plain_owned o)) processes.now }
    ensures within { IfSome result (λ i. i < length processes.now) }
{
    for index in 0..processes.len() {
        if is_behind(new, &processes[index]) {
            return Some(index);
        }
    }
    None
}
