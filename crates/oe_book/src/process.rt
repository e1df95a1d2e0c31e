// Texts of processes.
ghost use Rattle.std.specs.Prelude.{◌≡◌, ◌≤◌, ◌↔◌, IfErr, IfOk, IsTrue, false};
ghost use Rattle.std.specs.Option.{option_map};
ghost use Rattle.serde_json.specs.Data.{depth};
ghost use Rattle.serde_json.specs.Read.{max_depth};
ghost use Rattle.serde_json.specs.View.{view};
ghost use Rattle.serde_json.specs.Written.{compact_text, has_float};
ghost use Rattle.oe_graph.specs.Form.{IsReading, StandsIn};
ghost use Rattle.oe_graph.specs.Read.{IsFaultless};
ghost use Rattle.oe_jobs.specs.Texts.{Finds};
ghost use Rattle.oe_jobs.specs.Valid.{IsProcessText};
ghost use Rattle.oe_book.specs.Process.{IsTextOf, IsTextRefusal};

use crate::floats::has_float;
use oe_dims::{Text, same_name};
use oe_graph::{Refusal, read_value};
use oe_memory::OutOfMemory;
use serde_json::Value;
use std::alloc::Global;

/// Most bytes of a process.
const MOST_PROCESS: usize = 65536;

/// Why a value has no text as a process of a book.
#[derive(Clone, Copy, PartialEq, Eq)]
pub enum ProcessRefusal {
    /// A number in it is not whole.
    NumberUnsupported,
    /// Its compact text is over 65536 bytes.
    ProcessTooLong,
    OutOfMemory,
}

impl From<OutOfMemory> for ProcessRefusal {
    ghost use Rattle.std.specs.Prelude.{◌≡◌};
    ghost use Rattle.oe_book.specs.declared.process.ProcessRefusal.TheVariants.{OutOfMemory as out_of_memory};

    ghost from_gives = { λ _ r. r ≡ out_of_memory };

    fn from(_refused: OutOfMemory) -> ProcessRefusal {
        ProcessRefusal::OutOfMemory
    }
}

/// The text of a process, as a valid book holds it: the compact JSON text of a value. Where the value is a graph without
/// a fault of its form, as [`read_value`](oe_graph::read_value) finds, it may stand in a valid book.
///
/// Refuses: `NumberUnsupported` where a number in it, at any depth, is not whole; then `ProcessTooLong` where the text
/// is over 65536 bytes; out of memory.
pub fn process_text(alloc: Global, value: &Value) -> Result<Text, ProcessRefusal>
    ensures text { IfOk result (λ text. IsTextOf (view value.now) text) }
    ensures valid { IfOk result (λ text. IsFaultless (StandsIn (view value.now))
        → depth (view value.now) ≤ max_depth → IsProcessText text) }
    ensures refused { IfErr result (IsTextRefusal (view value.now)) }
{
    if has_float(value) {
        return Err(ProcessRefusal::NumberUnsupported);
    }
    let text = json_text(alloc, value)?;
    if text.as_str().len() > MOST_PROCESS {
        return Err(ProcessRefusal::ProcessTooLong);
    }
    Ok(text)
}

/// The text of a JSON value. Refuses: out of memory.
pub fn json_text(alloc: Global, value: &Value) -> Result<Text, OutOfMemory>
    ensures text { IfOk result (λ text. has_float (view value.now) ≡ false
        → text ≡ compact_text (view value.now)) }
    ensures reads { IfOk result (λ text. depth (view value.now) ≤ max_depth
        → IsReading text (view value.now)) }
{
    let text = value.to_string(alloc)?;
    Text::of(alloc, text.as_str())
}

/// Whether a text may be the process of a job in a valid book: the compact text of a JSON object with whole numbers,
/// which is a graph without a fault of its form, of at most 65536 bytes. Refuses: out of memory.
pub fn is_process_text(alloc: Global, text: &Text) -> Result<bool, OutOfMemory>
    ensures { IfOk result (λ yes. IsTrue yes ↔ IsProcessText text.now) }
{
    match read_json(alloc, text.as_str().as_bytes())? {
        Some(value) => is_graph_text(alloc, &value, text),
        None => Ok(false),
    }
}

fn read_json(alloc: Global, bytes: &[u8]) -> Result<Option<Value>, OutOfMemory>
    ensures { IfOk result (λ read. Finds (IsReading bytes.now) (option_map view read)) }
{
    match Value::from_slice(alloc, bytes) {
        Ok(value) => Ok(Some(value)),
        Err(error) if error.is_memory() => Err(OutOfMemory),
        Err(_) => Ok(None),
    }
}

fn is_graph_text(alloc: Global, value: &Value, text: &Text) -> Result<bool, OutOfMemory>
    ensures { IfOk result (λ yes. IsTrue yes ↔ (IsTextOf (view value.now) text.now
        × IsFaultless (StandsIn (view value.now)))) }
{
    Ok(is_text_of(alloc, value, text)? && is_faultless(alloc, value)?)
}

fn is_text_of(alloc: Global, value: &Value, text: &Text) -> Result<bool, OutOfMemory>
    ensures { IfOk result (λ yes. IsTrue yes ↔ IsTextOf (view value.now) text.now) }
{
    match process_text(alloc, value) {
        Ok(written) => Ok(same_name(&written, text)),
        Err(ProcessRefusal::OutOfMemory) => Err(OutOfMemory),
        Err(_) => Ok(false),
    }
}

fn is_faultless(alloc: Global, value: &Value) -> Result<bool, OutOfMemory>
    ensures { IfOk result (λ yes. IsTrue yes ↔ IsFaultless (StandsIn (view value.now))) }
{
    match read_value(alloc, value) {
        Ok(_) => Ok(true),
        Err(Refusal::Fault(_)) => Ok(false),
        Err(Refusal::OutOfMemory) => Err(OutOfMemory),
    }
}
