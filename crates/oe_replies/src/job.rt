// Batch jobs, by themselves and in a list.
ghost use Rattle.std.specs.Prelude.{◌≡◌, IfOk, false, filter, map};
ghost use Rattle.serde_json.specs.View.{members_view, view};
ghost use Rattle.serde_json.specs.Written.{compact_text, has_float};
ghost use Rattle.oe_jobs.specs.Plain.{plain_book, plain_job};
ghost use Rattle.oe_jobs.specs.Verdicts.{is_job_of};
ghost use Rattle.oe_replies.specs.Jobs as spec;

use crate::moment::put_moment;
use crate::values::{listing_json, put_words};
use oe_dims::same_text;
use oe_graph::put_str;
use oe_jobs::{Book, Job};
use oe_memory::OutOfMemory;
use serde_json::{Map, Value, put};
use std::alloc::Global;

/// A job with its description, its process and the level of its logs (openEO API, batch jobs). The process of a job of a
/// valid book holds no fraction.
///
/// Refuses: out of memory.
#[tactic(auto, using(crate::proofs::Floats::job_whole))]
pub fn job_body(alloc: Global, job: &Job) -> Result<Vec<u8>, OutOfMemory>
    ensures { IfOk result (λ body. has_float (spec.process_data job.now.process) ≡ false
        → body.items ≡ compact_text (spec.job_data (plain_job job.now))) }
{
    let value = job_json(alloc, job)?;
    let text = value.to_string(alloc)?;
    Ok(text.into_bytes())
}

fn job_json(alloc: Global, job: &Job) -> Result<Value, OutOfMemory>
    ensures { IfOk result (λ v. view v ≡ spec.job_data (plain_job job.now)) }
{
    let mut entry = job_map(alloc, job)?;
    put_words(&mut entry, alloc, "title", &job.title)?;
    put_words(&mut entry, alloc, "description", &job.description)?;
    Ok(Value::Object(entry))
}

/// The members that every job has.
fn job_map(alloc: Global, job: &Job) -> Result<Map<String, Value>, OutOfMemory>
    ensures { IfOk result (λ m. members_view m.entries ≡ spec.job_members (plain_job job.now)) }
{
    let process = process_json(alloc, job.process.as_str())?;
    let mut entry = Map::new(alloc);
    put_moment(&mut entry, alloc, "created", job.created)?;
    put_str(&mut entry, alloc, "id", job.id.as_str())?;
    put_str(&mut entry, alloc, "log_level", job.level.as_str())?;
    put(&mut entry, alloc, "process", process)?;
    put_str(&mut entry, alloc, "status", job.status.as_str())?;
    put_moment(&mut entry, alloc, "updated", job.updated)?;
    Ok(entry)
}

/// The JSON value of a process.
fn process_json(alloc: Global, text: &str) -> Result<Value, OutOfMemory>
    ensures { IfOk result (λ v. view v ≡ spec.process_data text.now) }
{
    match Value::from_str(alloc, text) {
        Ok(value) => Ok(value),
        Err(error) if error.is_memory() => Err(OutOfMemory),
        Err(_) => Ok(Value::Null),
    }
}

/// The jobs of a user, in order of creation, without their descriptions and processes (openEO API, batch jobs): a value of
/// which a page may be taken.
///
/// Refuses: out of memory.
#[tactic(auto, using(crate::proofs::Floats::jobs_whole))]
pub fn jobs_list(alloc: Global, book: &Book, user: &str) -> Result<Value, OutOfMemory>
    ensures list { IfOk result (λ v. view v ≡ spec.jobs_data (plain_book book.now) user.now) }
    ensures whole { IfOk result (λ v. has_float (view v) ≡ false) }
{
    jobs_json(alloc, book, user)
}

fn jobs_json(alloc: Global, book: &Book, user: &str) -> Result<Value, OutOfMemory>
    ensures { IfOk result (λ v. view v ≡ spec.jobs_data (plain_book book.now) user.now) }
{
    listing_json(alloc, "jobs", job_values(alloc, book, user)?)
}

fn job_values(alloc: Global, book: &Book, user: &str) -> Result<Vec<Value>, OutOfMemory>
    ensures { IfOk result (λ values. map view values.items
        ≡ map spec.job_row_data (filter (is_job_of user.now) (plain_book book.now).jobs)) }
{
    let mut values = Vec::new(alloc);
    for job in &book.jobs {
        if same_text(job.user.as_str(), user) {
            values.push(job_row_json(alloc, job)?)?;
        }
    }
    Ok(values)
}

/// A job in a list.
fn job_row_json(alloc: Global, job: &Job) -> Result<Value, OutOfMemory>
    ensures { IfOk result (λ v. view v ≡ spec.job_row_data (plain_job job.now)) }
{
    let mut entry = Map::new(alloc);
    put_moment(&mut entry, alloc, "created", job.created)?;
    put_str(&mut entry, alloc, "id", job.id.as_str())?;
    put_str(&mut entry, alloc, "status", job.status.as_str())?;
    put_moment(&mut entry, alloc, "updated", job.updated)?;
    put_words(&mut entry, alloc, "title", &job.title)?;
    Ok(Value::Object(entry))
}
