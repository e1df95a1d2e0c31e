// The logs of a job.
ghost use Rattle.std.specs.Prelude.{◌≡◌, IfOk, decimal, filter, map};
ghost use Rattle.std.specs.List.{enumerate_from};
ghost use Rattle.serde_json.specs.Data.{string};
ghost use Rattle.serde_json.specs.View.{view};
ghost use Rattle.serde_json.specs.Written.{compact_text};
ghost use Rattle.oe_replies.specs.Logs as spec;

use crate::values::{compact_body, listing_json, put_words};
use oe_graph::put_str;
use oe_jobs::{Level, LogEntry};
use oe_memory::OutOfMemory;
use serde_json::{Map, Value, put};
use std::alloc::Global;

/// The entries of a job's logs that are at least as severe as a level and whose number is above an offset, in order,
/// each with its number among all that are stored, from 1 (openEO API, logs).
///
/// Refuses: out of memory.
#[tactic(auto, using(crate::proofs::Floats::logs_whole))]
pub fn logs_body(
    alloc: Global,
    logs: &[LogEntry],
    least: Level,
    offset: u64,
) -> Result<Vec<u8>, OutOfMemory>
    ensures { IfOk result
        (λ body. body.items ≡ compact_text (spec.logs_data logs.now least offset)) }
{
    let value = logs_json(alloc, logs, least, offset)?;
    compact_body(alloc, &value)
}

fn logs_json(
    alloc: Global,
    logs: &[LogEntry],
    least: Level,
    offset: u64,
) -> Result<Value, OutOfMemory>
    ensures { IfOk result (λ v. view v ≡ spec.logs_data logs.now least offset) }
{
    listing_json(alloc, "logs", log_values(alloc, logs, least, offset)?)
}

fn log_values(
    alloc: Global,
    logs: &[LogEntry],
    least: Level,
    offset: u64,
) -> Result<Vec<Value>, OutOfMemory>
    ensures { IfOk result (λ values. map view values.items
        ≡ map spec.log_data (filter (spec.is_asked least offset) (enumerate_from 1 logs.now))) }
{
    let mut values = Vec::new(alloc);
    let mut number = 0;
    for log in logs {
        number += 1;
        if is_asked(log, number, least, offset) {
            values.push(log_json(alloc, log, number)?)?;
        }
    }
    Ok(values)
}

fn is_asked(log: &LogEntry, number: u64, least: Level, offset: u64) -> bool
    ensures { result ≡ spec.is_asked least offset (number, log.now) }
{
    least.keeps(log.level) && offset < number
}

/// An entry under its number.
fn log_json(alloc: Global, log: &LogEntry, number: u64) -> Result<Value, OutOfMemory>
    ensures { IfOk result (λ v. view v ≡ spec.log_data (number, log.now)) }
{
    let mut entry = Map::new(alloc);
    put(&mut entry, alloc, "id", number_json(alloc, number)?)?;
    put_str(&mut entry, alloc, "level", log.level.as_str())?;
    put_str(&mut entry, alloc, "message", log.message.as_str())?;
    put_words(&mut entry, alloc, "code", &log.code)?;
    Ok(Value::Object(entry))
}

/// The text of a number in decimal.
fn number_json(alloc: Global, number: u64) -> Result<Value, OutOfMemory>
    ensures { IfOk result (λ v. view v ≡ string (decimal number)) }
{
    Ok(Value::String(format!(in alloc; "{number}")?))
}
