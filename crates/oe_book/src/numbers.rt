// The numbers of the jobs of a book, and how many each user has.
ghost use Rattle.std.specs.Prelude.{◌≡◌, ◌≤◌, ◌<◌, ◌+◌, ◌↔◌, ℕ, IsTrue, List, MatchOption, map, count_by};
ghost use Rattle.std.specs.List.{AllByRecursion};
ghost use Rattle.oe_jobs.specs.Plain.{plain_book, plain_job, plain_owned};
ghost use Rattle.oe_jobs.specs.Valid.{AreNumbered};
ghost use Rattle.oe_jobs.specs.Verdicts.{is_job_of, is_process_of, job_id, most_jobs, most_processes};
ghost use Rattle.oe_book.specs.Parts as spec;

use oe_jobs::{Book, Job, Owned, count_jobs, count_processes};

/// Most jobs of a user.
const MOST_JOBS: usize = 32;

/// Most stored processes of a user.
const MOST_PROCESSES: usize = 16;

/// Whether the jobs have ids of rising numbers from 1 to below this one.
pub(crate) fn are_numbered(jobs: &[Job], next: u64) -> bool
    ensures { IsTrue result ↔ AreNumbered 1 (map plain_job jobs.now) next }
{
    let mut low = 1;
    for job in jobs.iter() {
        match number_after(job, low, next) {
            Some(after) => low = after,
            None => return false,
        }
    }
    low <= next
}

/// The number after that of the job, which is not below a low one and below the next.
fn number_after(job: &Job, low: u64, next: u64) -> Option<u64>
    ensures { MatchOption result
        ((n : ℕ) → job.now.id ≡ job_id n → low ≤ n → n < next → ⊥)
        (λ after. (n : ℕ) × (job.now.id ≡ job_id n) × (low ≤ n) × (n < next) × (after ≡ n + 1)) }
{
    match job.number() {
        Some(number) => {
            if number < low {
                return None;
            }
            if number >= next {
                return None;
            }
            Some(number + 1)
        }
        None => None,
    }
}

/// Whether no user has more than 32 jobs.
pub(crate) fn has_few_jobs(book: &Book) -> bool
    ensures { IsTrue result ↔ ((user : List ℕ)
        → count_by (is_job_of user) (plain_book book.now).jobs ≤ most_jobs) }
{
    each_has_few_jobs(book, &book.jobs)
}

fn each_has_few_jobs(book: &Book, jobs: &[Job]) -> bool
    ensures { IsTrue result ↔ AllByRecursion (spec.HasFewJobs (plain_book book.now))
        (map plain_job jobs.now) }
{
    for job in jobs.iter() {
        if !is_few_jobs(book, job) {
            return false;
        }
    }
    true
}

fn is_few_jobs(book: &Book, job: &Job) -> bool
    ensures { IsTrue result ↔ spec.HasFewJobs (plain_book book.now) (plain_job job.now) }
{
    count_jobs(book, &job.user) <= MOST_JOBS
}

/// Whether no user has more than 16 stored processes.
pub(crate) fn has_few_processes(book: &Book) -> bool
    ensures { IsTrue result ↔ ((user : List ℕ)
        → count_by (is_process_of user) (plain_book book.now).processes ≤ most_processes) }
{
    each_has_few_processes(book, &book.processes)
}

fn each_has_few_processes(book: &Book, processes: &[Owned]) -> bool
    ensures { IsTrue result ↔ AllByRecursion (spec.HasFewProcesses (plain_book book.now))
        (map plain_owned processes.now) }
{
    for owned in processes.iter() {
        if !is_few_processes(book, owned) {
            return false;
        }
    }
    true
}

fn is_few_processes(book: &Book, owned: &Owned) -> bool
    ensures { IsTrue result ↔ spec.HasFewProcesses (plain_book book.now) (plain_owned owned.now) }
{
    count_processes(book, &owned.user) <= MOST_PROCESSES
}
