// The job book.
ghost use Rattle.std.specs.Prelude.{◌≡◌, ◌<◌, IfOk, IfSome, length, map, option_and_then, slice_get};
ghost use Rattle.std.specs.Option.{option_map};
ghost use Rattle.oe_graph.specs.Plain.{plain_stored};
ghost use Rattle.oe_jobs.specs.Events as events;
ghost use Rattle.oe_jobs.specs.Plain.{empty_book, plain_book, plain_job};
ghost use Rattle.oe_jobs.specs.Valid.{IsBook};
ghost use Rattle.oe_jobs.specs.Verdicts as spec;

use crate::find::{has_busy_job, index_of, next_queued, running_job};
use crate::job::Job;
use oe_dims::{Text, same_name};
use oe_graph::StoredProcess;
use oe_memory::OutOfMemory;
use std::alloc::Global;

/// A stored process of a user.
pub struct Owned {
    pub user: Text,
    pub process: StoredProcess,
}

/// All jobs and stored processes of all users.
///
/// A valid book (`IsBook`) keeps these rules: the numbers of jobs rise and are below the next one, at most one job
/// runs, jobs that are queued or running differ in their turns, and the limits of each user hold. Every change that
/// the calls of this crate give of a valid book makes a valid one.
pub struct Book {
    /// The number of the next job, and the next turn.
    pub next: u64,
    /// In order of creation.
    pub jobs: Vec<Job>,
    pub processes: Vec<Owned>,
}

/// Written out, as that of a book, so that such a value ends by one call wherever it does.
impl Drop for Owned {
    fn drop(self) {
        let Owned {
            user: _,
            process: _,
        } = self;
    }
}

impl Drop for Book {
    fn drop(self) {
        let Book {
            next: _,
            jobs: _,
            processes: _,
        } = self;
    }
}

impl Book {
    /// A book without jobs and stored processes, whose first job draws the number 1. It takes no memory.
    pub fn empty(alloc: Global) -> Book
        ensures book { plain_book result ≡ empty_book }
        ensures valid { IsBook (plain_book result) }
    {
        Book {
            next: 1,
            jobs: Vec::new(alloc),
            processes: Vec::new(alloc),
        }
    }

    /// Where the user's job of an id stands among the jobs. Another user's job is not there.
    pub fn find(&self, user: &Text, id: &Text) -> Option<usize>
        ensures job { option_and_then (slice_get (plain_book self.now).jobs) result
            ≡ spec.job_of user.now id.now (plain_book self.now) }
        ensures within { IfSome result (λ i. i < length self.now.jobs.items) }
    {
        index_of(&self.jobs, user, id)
    }

    /// The job that runs. Each event of a run may come to it.
    pub fn running(&self) -> Option<&Job>
        ensures job { option_map (λ j. plain_job j.now) result
            ≡ events.running_job (plain_book self.now) }
        ensures comes { IsBook (plain_book self.now)
            → IfSome result (λ j. events.AnyComes (plain_book self.now) j.now.id) }
    {
        running_job(self)
    }

    /// The queued job of least turn. It may start where no job runs.
    pub fn next_queued(&self) -> Option<&Job>
        ensures job { option_map (λ j. plain_job j.now) result
            ≡ events.next_queued (plain_book self.now) }
        ensures comes { IsBook (plain_book self.now)
            → IfSome result (λ j. events.StartComes (plain_book self.now) j.now.id) }
    {
        next_queued(self)
    }

    /// Whether a job is queued or runs.
    pub fn is_busy(&self) -> bool
        ensures { result ≡ events.has_busy_job (plain_book self.now) }
    {
        has_busy_job(self)
    }

    /// Copies of a user's stored processes, in the order of the book. Refuses: out of memory.
    pub fn stored_of(&self, alloc: Global, user: &Text) -> Result<Vec<StoredProcess>, OutOfMemory>
        ensures { IfOk result
            (λ v. map plain_stored v.items ≡ spec.stored_of user.now (plain_book self.now)) }
    {
        let mut stored = Vec::new(alloc);
        for owned in &self.processes {
            if same_name(&owned.user, user) {
                stored.push(owned.process.copy()?)?;
            }
        }
        Ok(stored)
    }
}
