// Reading the entry of a job.
ghost use Rattle.std.specs.Prelude.{◌≡◌, IfOk, MatchOption, Some, [], codes, map};
ghost use Rattle.std.specs.Option.{option_map};
ghost use Rattle.serde_json.specs.Data.{string};
ghost use Rattle.serde_json.specs.Find.{get};
ghost use Rattle.serde_json.specs.View.{items_view, view};
ghost use Rattle.oe_graph.specs.Form.{IsReading};
ghost use Rattle.oe_graph.specs.Plain.{plain_stored};
ghost use Rattle.oe_graph.specs.Read.{ReadsStored};
ghost use Rattle.oe_jobs.specs.Plain.{PlainJob, plain_job, plain_ran};
ghost use Rattle.oe_jobs.specs.Texts.{Finds};
ghost use Rattle.oe_keeper.specs.Reading as spec;
ghost use Rattle.oe_keeper.specs.Reading.{Each, HasInstant, HasList, HasNoState, HasNoTexts, HasRan, HasState, HasTurn, HasTexts, IsEntry, IsLevel, IsLog, IsRanEntry, IsRanOrNull, IsStoredEntry, ReadsJob};

use crate::members::{
    instant_in, level_at, level_in, list_in, status_in, str_in, text_in, turn_in, words_in,
};
use oe_dims::Text;
use oe_graph::{Refusal, StoredProcess, read_stored};
use oe_jobs::{Job, Level, LogEntry, Ran, Status};
use oe_memory::OutOfMemory;
use serde_json::Value;
use std::alloc::Global;

/// What users send of a job.
#[derive(Drop)]
struct Texts {
    user: Text,
    title: Option<Text>,
    description: Option<Text>,
    process: Text,
}

/// Where a job stands.
#[derive(Clone, Copy)]
struct State {
    status: Status,
    level: Level,
    created: i64,
    updated: i64,
    turn: u64,
}

/// The job of an id whose entry the bytes are: the JSON text of an object with the members that
/// [`job_text`](crate::job_text) writes, in any order and with any blanks; other members are ignored. Each must stand
/// there, but that an entry without a level has the level info. The job has no assets. None exactly where the bytes are
/// no such text.
///
/// Refuses: out of memory.
pub fn read_job(alloc: Global, id: &Text, bytes: &[u8]) -> Result<Option<Job>, OutOfMemory>
    ensures job { IfOk result
        (λ read. Finds (ReadsJob id.now bytes.now) (option_map plain_job read)) }
    ensures only { (job : PlainJob) → ReadsJob id.now bytes.now job
        → IfOk result (λ read. option_map plain_job read ≡ Some job) }
{
    read_entry(alloc, id, bytes)
}

fn read_entry(alloc: Global, id: &Text, bytes: &[u8]) -> Result<Option<Job>, OutOfMemory>
    ensures { IfOk result
        (λ read. Finds (ReadsJob id.now bytes.now) (option_map plain_job read)) }
{
    match read_json(alloc, bytes)? {
        Some(value) => job_in(alloc, id, &value),
        None => Ok(None),
    }
}

fn read_json(alloc: Global, bytes: &[u8]) -> Result<Option<Value>, OutOfMemory>
    ensures { IfOk result (λ read. Finds (IsReading bytes.now) (option_map view read)) }
{
    match Value::from_slice(alloc, bytes) {
        Ok(value) => Ok(Some(value)),
        Err(error) if error.is_memory() => Err(OutOfMemory),
        Err(_) => Ok(None),
    }
}

/// The job whose entry the value is.
fn job_in(alloc: Global, id: &Text, value: &Value) -> Result<Option<Job>, OutOfMemory>
    ensures { IfOk result
        (λ read. Finds (IsEntry id.now (view value.now)) (option_map plain_job read)) }
{
    let Some(texts) = texts_in(alloc, value)? else {
        return Ok(None);
    };
    let Some(state) = state_in(value) else {
        return Ok(None);
    };
    let Some(ran) = ran_in(alloc, value)? else {
        return Ok(None);
    };
    let Some(logs) = logs_in(alloc, value)? else {
        return Ok(None);
    };
    Ok(Some(job_of(alloc, id.copy()?, texts, state, ran, logs)))
}

/// A job by its parts, without assets.
fn job_of(
    alloc: Global,
    id: Text,
    texts: Texts,
    state: State,
    ran: Option<Ran>,
    logs: Vec<LogEntry>,
) -> Job
    ensures { plain_job result ≡ record {
      id = id;
      user = texts.user;
      title = texts.title;
      description = texts.description;
      process = texts.process;
      status = state.status;
      level = state.level;
      created = state.created;
      updated = state.updated;
      turn = state.turn;
      ran = option_map plain_ran ran;
      logs = logs.items;
      assets = [];
    } }
{
    let Texts {
        user,
        title,
        description,
        process,
    } = texts;
    Job {
        id,
        user,
        title,
        description,
        process,
        status: state.status,
        level: state.level,
        created: state.created,
        updated: state.updated,
        turn: state.turn,
        ran,
        logs,
        assets: Vec::new(alloc),
    }
}

fn texts_in(alloc: Global, value: &Value) -> Result<Option<Texts>, OutOfMemory>
    ensures { IfOk result (λ read. MatchOption read (HasNoTexts (view value.now))
        (λ t. HasTexts (view value.now) t.user t.title t.description t.process)) }
{
    let Some(user) = text_in(alloc, value, "user")? else {
        return Ok(None);
    };
    let Some(title) = words_in(alloc, value, "title")? else {
        return Ok(None);
    };
    let Some(description) = words_in(alloc, value, "description")? else {
        return Ok(None);
    };
    let Some(process) = text_in(alloc, value, "process")? else {
        return Ok(None);
    };
    Ok(Some(Texts {
        user,
        title,
        description,
        process,
    }))
}

fn state_in(value: &Value) -> Option<State>
    ensures { MatchOption result (HasNoState (view value.now))
        (λ s. HasState (view value.now) s.status s.level s.created s.updated s.turn) }
{
    let Some(status) = status_in(value) else {
        return None;
    };
    let Some(level) = level_in(value) else {
        return None;
    };
    let Some(created) = instant_in(value, "created") else {
        return None;
    };
    let Some(updated) = instant_in(value, "updated") else {
        return None;
    };
    let Some(turn) = turn_in(value) else {
        return None;
    };
    Some(State {
        status,
        level,
        created,
        updated,
        turn,
    })
}

// ---- what a job runs

fn ran_in(alloc: Global, value: &Value) -> Result<Option<Option<Ran>>, OutOfMemory>
    ensures { IfOk result (λ read. Finds (HasRan (view value.now))
        (option_map (option_map plain_ran) read)) }
{
    match value.get("ran") {
        Some(member) => ran_or_null(alloc, member),
        None => Ok(None),
    }
}

fn ran_or_null(alloc: Global, value: &Value) -> Result<Option<Option<Ran>>, OutOfMemory>
    ensures { IfOk result (λ read. Finds (IsRanOrNull (view value.now))
        (option_map (option_map plain_ran) read)) }
{
    if value.is_null() {
        return Ok(Some(None));
    }
    match ran_entry(alloc, value)? {
        Some(ran) => Ok(Some(Some(ran))),
        None => Ok(None),
    }
}

fn ran_entry(alloc: Global, value: &Value) -> Result<Option<Ran>, OutOfMemory>
    ensures { IfOk result
        (λ read. Finds (IsRanEntry (view value.now)) (option_map plain_ran read)) }
{
    let Some(process) = text_in(alloc, value, "process")? else {
        return Ok(None);
    };
    let Some(stored) = processes_in(alloc, value)? else {
        return Ok(None);
    };
    Ok(Some(Ran { process, stored }))
}

fn processes_in(alloc: Global, value: &Value) -> Result<Option<Vec<StoredProcess>>, OutOfMemory>
    ensures { IfOk result
        (λ read. Finds (HasList IsStoredEntry (codes "stored") (view value.now))
        (option_map (λ v. map plain_stored v.items) read)) }
{
    match list_in(value, "stored") {
        Some(values) => read_processes(alloc, values),
        None => Ok(None),
    }
}

fn read_processes(
    alloc: Global,
    values: &[Value],
) -> Result<Option<Vec<StoredProcess>>, OutOfMemory>
    ensures { IfOk result (λ read. Finds (Each IsStoredEntry (items_view values.now))
        (option_map (λ v. map plain_stored v.items) read)) }
{
    let mut read = Vec::with_capacity(alloc, values.len())?;
    for value in values.iter() {
        match process_in(alloc, value)? {
            Some(process) => read.push(process)?,
            None => return Ok(None),
        }
    }
    Ok(Some(read))
}

fn process_in(alloc: Global, value: &Value) -> Result<Option<StoredProcess>, OutOfMemory>
    ensures { IfOk result
        (λ read. Finds (IsStoredEntry (view value.now)) (option_map plain_stored read)) }
{
    let Some(id) = str_in(value, "id") else {
        return Ok(None);
    };
    let Some(text) = str_in(value, "text") else {
        return Ok(None);
    };
    process_of(alloc, id, text)
}

fn process_of(alloc: Global, id: &str, text: &str) -> Result<Option<StoredProcess>, OutOfMemory>
    ensures { IfOk result
        (λ read. Finds (ReadsStored id.now text.now) (option_map plain_stored read)) }
{
    match read_stored(alloc, id, text.as_bytes()) {
        Ok(process) => Ok(Some(process)),
        Err(Refusal::Fault(_)) => Ok(None),
        Err(Refusal::OutOfMemory) => Err(OutOfMemory),
    }
}

// ---- logs

fn logs_in(alloc: Global, value: &Value) -> Result<Option<Vec<LogEntry>>, OutOfMemory>
    ensures { IfOk result (λ read. Finds (HasList IsLog (codes "logs") (view value.now))
        (option_map (λ v. v.items) read)) }
{
    match list_in(value, "logs") {
        Some(values) => read_logs(alloc, values),
        None => Ok(None),
    }
}

fn read_logs(alloc: Global, values: &[Value]) -> Result<Option<Vec<LogEntry>>, OutOfMemory>
    ensures { IfOk result (λ read. Finds (Each IsLog (items_view values.now))
        (option_map (λ v. v.items) read)) }
{
    let mut read = Vec::with_capacity(alloc, values.len())?;
    for value in values.iter() {
        match log_entry(alloc, value)? {
            Some(entry) => read.push(entry)?,
            None => return Ok(None),
        }
    }
    Ok(Some(read))
}

fn log_entry(alloc: Global, value: &Value) -> Result<Option<LogEntry>, OutOfMemory>
    ensures { IfOk result (λ read. Finds (IsLog (view value.now)) read) }
{
    let Some(code) = words_in(alloc, value, "code")? else {
        return Ok(None);
    };
    let Some(level) = level_at(value) else {
        return Ok(None);
    };
    let Some(message) = text_in(alloc, value, "message")? else {
        return Ok(None);
    };
    Ok(Some(LogEntry {
        level,
        code,
        message,
    }))
}
