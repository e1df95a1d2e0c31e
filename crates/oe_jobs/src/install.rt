// Room for a change, and the change itself.
ghost use Rattle.std.specs.Prelude.{◌≡◌, ◌≤◌, ◌++◌, OnOk, insert, length, map, option_to_list};
ghost use Rattle.oe_jobs.specs.Changes.{at_first, changed, is_behind, is_job, is_owned, put_before, put_first, with_asset, with_process, without_first};
ghost use Rattle.oe_jobs.specs.Plain.{plain_book, plain_change, plain_job, plain_owned};
ghost use Rattle.oe_jobs.specs.Room.{HasAssetRoom, HasRoom, HasSpare};

use crate::book::{Book, Owned};
use crate::change::Change;
use crate::find::{index_behind, index_of_job, index_of_process};
use crate::job::{Asset, Job, LogEntry};
use oe_dims::Text;
use oe_memory::OutOfMemory;

impl Book {
    /// Makes the room for a change, so that installing it takes no memory. The book stays as it is.
    /// Refuses: out of memory.
    pub fn ready(&mut self, change: &Change) -> Result<(), OutOfMemory>
        ensures same { plain_book self.new ≡ plain_book self.old }
        ensures room { OnOk result (HasRoom self.new change.now) }
    {
        match change {
            Change::PutJob { .. } => self.jobs.reserve(1)?,
            Change::AddAsset { job, .. } => ready_asset(&mut self.jobs, job)?,
            Change::PutProcess { .. } => self.processes.reserve(1)?,
            Change::DropJob { .. } | Change::DropProcess { .. } => {}
        }
        Ok(())
    }

    /// Makes a change for which there is room, as [`Book::ready`] made it. It takes no memory, and moves what the
    /// change brings.
    pub fn install(&mut self, change: Change)
        requires { HasRoom self.old change }
        ensures changed { plain_book self.new
            ≡ changed (plain_book self.old) (plain_change change) }
    {
        match change {
            Change::PutJob { job, next } => {
                self.next = next;
                put_job(&mut self.jobs, job);
            }
            Change::AddAsset {
                job,
                asset,
                log,
                updated,
            } => add_asset(&mut self.jobs, &job, asset, log, updated),
            Change::DropJob { id } => drop_job(&mut self.jobs, &id),
            Change::PutProcess { owned } => put_process(&mut self.processes, owned),
            Change::DropProcess { user, id } => drop_process(&mut self.processes, &user, &id),
        }
    }
}

/// Makes room for an asset and a log entry at the job of an id.
fn ready_asset(jobs: &mut Vec<Job>, id: &Text) -> Result<(), OutOfMemory>
    ensures same { map plain_job jobs.new.items ≡ map plain_job jobs.old.items }
    ensures room { OnOk result (HasAssetRoom jobs.new.items id.now) }
{
    match index_of_job(jobs, id) {
        Some(index) => make_room(&mut jobs[index]),
        None => Ok(()),
    }
}

fn make_room(job: &mut Job) -> Result<(), OutOfMemory>
    ensures same { plain_job job.new ≡ plain_job job.old }
    ensures room { OnOk result (HasSpare job.new.assets × HasSpare job.new.logs) }
{
    job.assets.reserve(1)?;
    job.logs.reserve(1)?;
    Ok(())
}

/// Puts the job in the place of the one with its id, else at the end.
fn put_job(jobs: &mut Vec<Job>, job: Job)
    requires { HasSpare jobs.old }
    ensures { map plain_job jobs.new.items
        ≡ put_first (is_job job.id) (plain_job job) (map plain_job jobs.old.items) }
{
    match index_of_job(jobs, &job.id) {
        Some(index) => jobs[index] = job,
        None => jobs.push_reserved(job),
    }
}

fn add_asset(jobs: &mut Vec<Job>, id: &Text, asset: Asset, log: Option<LogEntry>, updated: i64)
    requires { HasAssetRoom jobs.old.items id.now }
    ensures { map plain_job jobs.new.items
        ≡ at_first (is_job id.now) (with_asset asset log updated) (map plain_job jobs.old.items) }
{
    match index_of_job(jobs, id) {
        Some(index) => gain(&mut jobs[index], asset, log, updated),
        None => {}
    }
}

/// Adds an asset to a job, and a log entry where there is one.
fn gain(job: &mut Job, asset: Asset, log: Option<LogEntry>, updated: i64)
    requires assets { HasSpare job.old.assets }
    requires logs { HasSpare job.old.logs }
    ensures { plain_job job.new ≡ with_asset asset log updated (plain_job job.old) }
{
    job.assets.push_reserved(asset);
    add_entry(&mut job.logs, log);
    job.updated = updated;
}

fn add_entry(logs: &mut Vec<LogEntry>, log: Option<LogEntry>)
    requires { HasSpare logs.old }
    ensures { logs.new.items ≡ logs.old.items ++ option_to_list log }
{
    match log {
        Some(entry) => logs.push_reserved(entry),
        None => {}
    }
}

fn drop_job(jobs: &mut Vec<Job>, id: &Text)
    ensures { map plain_job jobs.new.items
        ≡ without_first (is_job id.now) (map plain_job jobs.old.items) }
{
    match index_of_job(jobs, id) {
        Some(index) => {
            jobs.remove(index);
        }
        None => {}
    }
}

/// Puts the process in the place of the user's one with its id, else before the first that stands behind it.
fn put_process(processes: &mut Vec<Owned>, owned: Owned)
    requires { HasSpare processes.old }
    ensures { map plain_owned processes.new.items
        ≡ with_process (plain_owned owned) (map plain_owned processes.old.items) }
{
    match index_of_process(processes, &owned.user, &owned.process.id) {
        Some(index) => processes[index] = owned,
        None => insert_process(processes, owned),
    }
}

/// Inserts the process before the first that stands behind it, else at the end.
fn insert_process(processes: &mut Vec<Owned>, owned: Owned)
    requires { HasSpare processes.old }
    ensures { map plain_owned processes.new.items
        ≡ put_before (is_behind (plain_owned owned)) (plain_owned owned)
        (map plain_owned processes.old.items) }
{
    match index_behind(processes, &owned) {
        Some(index) => insert_at(processes, index, owned),
        None => processes.push_reserved(owned),
    }
}

/// Inserts the process at an index. There is room, so it does not fail.
fn insert_at(processes: &mut Vec<Owned>, index: usize, owned: Owned)
    requires room { HasSpare processes.old }
    requires within { index ≤ length processes.old.items }
    ensures { processes.new.items ≡ insert processes.old.items index owned }
{
    match processes.insert(index, owned) {
        Ok(()) => {}
        Err(_) => unreachable!(),
    }
}

fn drop_process(processes: &mut Vec<Owned>, user: &Text, id: &Text)
    ensures { map plain_owned processes.new.items
        ≡ without_first (is_owned user.now id.now) (map plain_owned processes.old.items) }
{
    match index_of_process(processes, user, id) {
        Some(index) => {
            processes.remove(index);
        }
        None => {}
    }
}
