// Copies of jobs, books and changes.
ghost use Rattle.std.specs.Prelude.{◌≡◌, IfOk, None, [], map};
ghost use Rattle.std.specs.Option.{option_map};
ghost use Rattle.oe_graph.specs.Plain.{plain_stored};
ghost use Rattle.oe_jobs.specs.Plain.{plain_book, plain_change, plain_job, plain_owned, plain_ran};

use crate::book::{Book, Owned};
use crate::change::Change;
use crate::job::{Asset, Job, LogEntry, Ran};
use oe_dims::copy_text;
use oe_graph::StoredProcess;
use oe_memory::OutOfMemory;
use std::alloc::Global;

impl Book {
    /// A copy with equal contents. Refuses: out of memory.
    pub fn copy(&self) -> Result<Book, OutOfMemory>
        ensures { IfOk result (λ b. plain_book b ≡ plain_book self.now) }
    {
        let alloc = *self.jobs.allocator();
        Ok(Book {
            next: self.next,
            jobs: copy_jobs(alloc, &self.jobs)?,
            processes: copy_processes(alloc, &self.processes)?,
        })
    }
}

impl Job {
    /// A copy with equal contents. Refuses: out of memory.
    pub fn copy(&self) -> Result<Job, OutOfMemory>
        ensures { IfOk result (λ j. plain_job j ≡ plain_job self.now) }
    {
        let alloc = *self.logs.allocator();
        let mut copy = bare(alloc, self)?;
        copy.ran = copy_ran(alloc, &self.ran)?;
        copy.logs = copy_logs(alloc, &self.logs)?;
        copy.assets = copy_assets(alloc, &self.assets)?;
        Ok(copy)
    }
}

impl LogEntry {
    /// A copy with equal contents. Refuses: out of memory.
    pub fn copy(&self) -> Result<LogEntry, OutOfMemory>
        ensures { IfOk result (λ e. e ≡ self.now) }
    {
        Ok(LogEntry {
            level: self.level,
            code: copy_text(&self.code)?,
            message: self.message.copy()?,
        })
    }
}

impl Asset {
    /// A copy with equal contents. Refuses: out of memory.
    pub fn copy(&self) -> Result<Asset, OutOfMemory>
        ensures { IfOk result (λ a. a ≡ self.now) }
    {
        Ok(Asset {
            name: self.name.copy()?,
            text: self.text.copy()?,
        })
    }
}

impl Owned {
    /// A copy with equal contents. Refuses: out of memory.
    pub fn copy(&self) -> Result<Owned, OutOfMemory>
        ensures { IfOk result (λ o. plain_owned o ≡ plain_owned self.now) }
    {
        Ok(Owned {
            user: self.user.copy()?,
            process: self.process.copy()?,
        })
    }
}

impl Change {
    /// A copy with equal contents. Refuses: out of memory.
    pub fn copy(&self) -> Result<Change, OutOfMemory>
        ensures { IfOk result (λ c. plain_change c ≡ plain_change self.now) }
    {
        match self {
            Change::PutJob { job, next } => Ok(Change::PutJob {
                job: job.copy()?,
                next: *next,
            }),
            Change::AddAsset {
                job,
                asset,
                log,
                updated,
            } => Ok(Change::AddAsset {
                job: job.copy()?,
                asset: asset.copy()?,
                log: copy_log(log)?,
                updated: *updated,
            }),
            Change::DropJob { id } => Ok(Change::DropJob { id: id.copy()? }),
            Change::PutProcess { owned } => Ok(Change::PutProcess {
                owned: owned.copy()?,
            }),
            Change::DropProcess { user, id } => Ok(Change::DropProcess {
                user: user.copy()?,
                id: id.copy()?,
            }),
        }
    }
}

fn copy_log(log: &Option<LogEntry>) -> Result<Option<LogEntry>, OutOfMemory>
    ensures { IfOk result (λ copy. copy ≡ log.now) }
{
    match log {
        Some(entry) => Ok(Some(entry.copy()?)),
        None => Ok(None),
    }
}

/// A copy of a job without what it runs, its logs and its assets.
pub(crate) fn bare(alloc: Global, job: &Job) -> Result<Job, OutOfMemory>
    ensures { IfOk result (λ j. plain_job j
        ≡ record (plain_job job.now) { ran = None; logs = []; assets = [] }) }
{
    Ok(Job {
        id: job.id.copy()?,
        user: job.user.copy()?,
        title: copy_text(&job.title)?,
        description: copy_text(&job.description)?,
        process: job.process.copy()?,
        status: job.status,
        level: job.level,
        created: job.created,
        updated: job.updated,
        turn: job.turn,
        ran: None,
        logs: Vec::new(alloc),
        assets: Vec::new(alloc),
    })
}

pub(crate) fn copy_ran(alloc: Global, ran: &Option<Ran>) -> Result<Option<Ran>, OutOfMemory>
    ensures { IfOk result (λ r. option_map plain_ran r ≡ option_map plain_ran ran.now) }
{
    match ran {
        Some(ran) => Ok(Some(Ran {
            process: ran.process.copy()?,
            stored: copy_stored(alloc, &ran.stored)?,
        })),
        None => Ok(None),
    }
}

fn copy_stored(
    alloc: Global,
    stored: &Vec<StoredProcess>,
) -> Result<Vec<StoredProcess>, OutOfMemory>
    ensures { IfOk result (λ v. map plain_stored v.items ≡ map plain_stored stored.now.items) }
{
    let mut copy = Vec::with_capacity(alloc, stored.len())?;
    for process in stored {
        copy.push(process.copy()?)?;
    }
    Ok(copy)
}

pub(crate) fn copy_logs(alloc: Global, logs: &Vec<LogEntry>) -> Result<Vec<LogEntry>, OutOfMemory>
    ensures { IfOk result (λ v. v.items ≡ logs.now.items) }
{
    let mut copy = Vec::with_capacity(alloc, logs.len())?;
    for entry in logs {
        copy.push(entry.copy()?)?;
    }
    Ok(copy)
}

pub(crate) fn copy_assets(alloc: Global, assets: &Vec<Asset>) -> Result<Vec<Asset>, OutOfMemory>
    ensures { IfOk result (λ v. v.items ≡ assets.now.items) }
{
    let mut copy = Vec::with_capacity(alloc, assets.len())?;
    for asset in assets {
        copy.push(asset.copy()?)?;
    }
    Ok(copy)
}

fn copy_jobs(alloc: Global, jobs: &Vec<Job>) -> Result<Vec<Job>, OutOfMemory>
    ensures { IfOk result (λ v. map plain_job v.items ≡ map plain_job jobs.now.items) }
{
    let mut copy = Vec::with_capacity(alloc, jobs.len())?;
    for job in jobs {
        copy.push(job.copy()?)?;
    }
    Ok(copy)
}

fn copy_processes(alloc: Global, processes: &Vec<Owned>) -> Result<Vec<Owned>, OutOfMemory>
    ensures { IfOk result (λ v. map plain_owned v.items ≡ map plain_owned processes.now.items) }
{
    let mut copy = Vec::with_capacity(alloc, processes.len())?;
    for owned in processes {
        copy.push(owned.copy()?)?;
    }
    Ok(copy)
}
