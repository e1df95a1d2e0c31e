// The bodies of errors.
ghost use Rattle.std.specs.Prelude.{◌≡◌, IfOk, OnOk, map};
ghost use Rattle.std.specs.Option.{option_map};
ghost use Rattle.serde_json.specs.Data.{string};
ghost use Rattle.serde_json.specs.View.{view};
ghost use Rattle.serde_json.specs.Written.{compact_text};
ghost use Rattle.oe_judge.specs.Texts as texts;
ghost use Rattle.oe_replies.specs.Bodies as spec;

use crate::values::{compact_body, single};
use oe_graph::{Fault, put_str};
use oe_judge::with_detail;
use oe_memory::OutOfMemory;
use serde_json::{Map, Value, put};
use std::alloc::Global;

/// The body of an error (openEO API, error handling): its code, and as its message the code and, behind a blank, the
/// detail, where there is one: the node of a graph's fault, or what the line of a refused run names.
///
/// Refuses: out of memory.
pub fn error_body(alloc: Global, code: &str, detail: &str) -> Result<Vec<u8>, OutOfMemory>
    ensures { IfOk result
        (λ body. body.items ≡ compact_text (spec.error_data code.now detail.now)) }
{
    let value = error_json(alloc, code, detail)?;
    compact_body(alloc, &value)
}

fn error_json(alloc: Global, code: &str, detail: &str) -> Result<Value, OutOfMemory>
    ensures { IfOk result (λ v. view v ≡ spec.error_data code.now detail.now) }
{
    let mut error = Map::new(alloc);
    put_str(&mut error, alloc, "code", code)?;
    put(
        &mut error,
        alloc,
        "message",
        message_json(alloc, code, detail)?,
    )?;
    Ok(Value::Object(error))
}

fn message_json(alloc: Global, code: &str, detail: &str) -> Result<Value, OutOfMemory>
    ensures { IfOk result (λ v. view v ≡ string (texts.with_detail code.now detail.now)) }
{
    Ok(Value::String(with_detail(alloc, code, detail)?))
}

/// The errors of the graph of a body that is JSON: its least fault, where it has one (openEO API, validation).
///
/// Refuses: out of memory.
pub fn validation_body(alloc: Global, fault: &Option<Fault>) -> Result<Vec<u8>, OutOfMemory>
    ensures { IfOk result (λ body. body.items ≡ compact_text (spec.validation_data fault.now)) }
{
    let value = validation_json(alloc, fault)?;
    compact_body(alloc, &value)
}

fn validation_json(alloc: Global, fault: &Option<Fault>) -> Result<Value, OutOfMemory>
    ensures { IfOk result (λ v. view v ≡ spec.validation_data fault.now) }
{
    single(alloc, "errors", Value::Array(fault_values(alloc, fault)?))
}

fn fault_values(alloc: Global, fault: &Option<Fault>) -> Result<Vec<Value>, OutOfMemory>
    ensures { IfOk result (λ values. map view values.items ≡ spec.faults_data fault.now) }
{
    let mut values = Vec::new(alloc);
    if let Some(fault) = fault {
        values.push(error_json(alloc, fault.code.as_str(), fault.node.as_str())?)?;
    }
    Ok(values)
}
