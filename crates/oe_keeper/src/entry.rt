// The entry that is kept of a job, as JSON text.
ghost use Rattle.std.specs.Prelude.{◌≡◌, ◌<◌, ◌^◌, IfOk, OnOk, decimal, map};
ghost use Rattle.std.specs.Option.{option_map};
ghost use Rattle.serde_json.specs.Data.{string, put as with_member};
ghost use Rattle.serde_json.specs.View.{items_of, items_view, members_view, view};
ghost use Rattle.serde_json.specs.Written.{compact_text};
ghost use Rattle.oe_graph.specs.Plain.{plain_stored};
ghost use Rattle.oe_jobs.specs.Plain.{plain_job, plain_ran};
ghost use Rattle.oe_keeper.specs.Entry as spec;
ghost use Rattle.oe_keeper.specs.Reading.{IsRestorable, ReadsJob, without_assets};

use oe_dims::Text;
use oe_graph::{StoredProcess, put_str};
use oe_jobs::{Job, LogEntry, Ran};
use oe_memory::OutOfMemory;
use serde_json::{Map, Value, put};
use std::alloc::Global;

/// The entry that is kept of a job: the compact JSON text of an object with all of the job but its id and its assets,
/// members in byte order. Statuses and levels are spelled as in the openEO API, moments are numbers of seconds since
/// 1970-01-01T00:00:00Z, and the turn is a text in decimal.
///
/// [`read_job`](crate::read_job) gives the job again without its assets, where its moments are in the years 1 to 9999
/// and each of its stored processes is what [`read_stored`](oe_graph::read_stored) gives of its id and text.
/// Refuses: out of memory.
pub fn job_text(alloc: Global, job: &Job) -> Result<Text, OutOfMemory>
    ensures text { IfOk result (λ text. text ≡ compact_text (spec.job_data (plain_job job.now))) }
    ensures reads_back { IfOk result (λ text. IsRestorable (plain_job job.now)
        → ReadsJob job.now.id text (without_assets (plain_job job.now))) }
{
    let value = job_json(alloc, job)?;
    let text = value.to_string(alloc)?;
    Text::of(alloc, text.as_str())
}

fn job_json(alloc: Global, job: &Job) -> Result<Value, OutOfMemory>
    ensures entry { IfOk result (λ v. view v ≡ spec.job_data (plain_job job.now)) }
    ensures turn { OnOk result (job.now.turn < 2 ^ 64) }
{
    let mut entry = Map::new(alloc);
    put(&mut entry, alloc, "created", Value::from(job.created))?;
    put_words(&mut entry, alloc, "description", &job.description)?;
    put_str(&mut entry, alloc, "level", job.level.as_str())?;
    put(
        &mut entry,
        alloc,
        "logs",
        Value::Array(logs_json(alloc, &job.logs)?),
    )?;
    put_str(&mut entry, alloc, "process", job.process.as_str())?;
    put(&mut entry, alloc, "ran", ran_json(alloc, &job.ran)?)?;
    put_str(&mut entry, alloc, "status", job.status.as_str())?;
    put_words(&mut entry, alloc, "title", &job.title)?;
    put(&mut entry, alloc, "turn", turn_json(alloc, job.turn)?)?;
    put(&mut entry, alloc, "updated", Value::from(job.updated))?;
    put_str(&mut entry, alloc, "user", job.user.as_str())?;
    Ok(Value::Object(entry))
}

fn logs_json(alloc: Global, logs: &Vec<LogEntry>) -> Result<Vec<Value>, OutOfMemory>
    ensures { IfOk result (λ v. items_view v.items ≡ items_of (map spec.log_data logs.now.items)) }
{
    let mut values = Vec::with_capacity(alloc, logs.len())?;
    for log in logs {
        values.push(log_json(alloc, log)?)?;
    }
    Ok(values)
}

fn log_json(alloc: Global, log: &LogEntry) -> Result<Value, OutOfMemory>
    ensures { IfOk result (λ v. view v ≡ spec.log_data log.now) }
{
    let mut entry = Map::new(alloc);
    put_words(&mut entry, alloc, "code", &log.code)?;
    put_str(&mut entry, alloc, "level", log.level.as_str())?;
    put_str(&mut entry, alloc, "message", log.message.as_str())?;
    Ok(Value::Object(entry))
}

fn ran_json(alloc: Global, ran: &Option<Ran>) -> Result<Value, OutOfMemory>
    ensures { IfOk result (λ v. view v ≡ spec.ran_data (option_map plain_ran ran.now)) }
{
    let Some(ran) = ran else {
        return Ok(Value::Null);
    };
    let mut entry = Map::new(alloc);
    put_str(&mut entry, alloc, "process", ran.process.as_str())?;
    put(
        &mut entry,
        alloc,
        "stored",
        Value::Array(processes_json(alloc, &ran.stored)?),
    )?;
    Ok(Value::Object(entry))
}

fn processes_json(alloc: Global, stored: &Vec<StoredProcess>) -> Result<Vec<Value>, OutOfMemory>
    ensures { IfOk result (λ v. items_view v.items
        ≡ items_of (map spec.stored_data (map plain_stored stored.now.items))) }
{
    let mut values = Vec::with_capacity(alloc, stored.len())?;
    for process in stored {
        values.push(process_json(alloc, process)?)?;
    }
    Ok(values)
}

fn process_json(alloc: Global, process: &StoredProcess) -> Result<Value, OutOfMemory>
    ensures { IfOk result (λ v. view v ≡ spec.stored_data (plain_stored process.now)) }
{
    let mut entry = Map::new(alloc);
    put_str(&mut entry, alloc, "id", process.id.as_str())?;
    put_str(&mut entry, alloc, "text", process.text.as_str())?;
    Ok(Value::Object(entry))
}

fn turn_json(alloc: Global, turn: u64) -> Result<Value, OutOfMemory>
    ensures value { IfOk result (λ v. view v ≡ string (decimal turn)) }
    ensures fits { OnOk result (turn < 2 ^ 64) }
{
    Ok(Value::String(format!(in alloc; "{turn}")?))
}

/// Puts a text, or null where there is none.
fn put_words(
    entry: &mut Map<String, Value>,
    alloc: Global,
    name: &str,
    words: &Option<Text>,
) -> Result<(), OutOfMemory>
    ensures { OnOk result (members_view entry.new.entries
        ≡ with_member name.now (spec.text_data words.now) (members_view entry.old.entries)) }
{
    match words {
        Some(text) => put_str(entry, alloc, name, text.as_str()),
        None => Ok(put(entry, alloc, name, Value::Null)?),
    }
}
