// What the bodies of requests ask for.
ghost use Rattle.std.specs.Prelude.{IfOk, IfSome, IsErrOf};
ghost use Rattle.std.specs.Option.{option_map};
ghost use Rattle.serde_json.specs.View.{view};
ghost use Rattle.oe_jobs.specs.Valid.{IsProcessText};
ghost use Rattle.oe_routes.specs.Forms as spec;
ghost use Rattle.oe_routes.specs.Found.{IsJson};
ghost use Rattle.oe_routes.specs.Rejections.{Settles};

use crate::fields::{Fields, fields_in};
use crate::refusal::Rejection;
use oe_book::{ProcessRefusal, process_text};
use oe_dims::Text;
use oe_graph::Fault;
use oe_jobs::Level;
use oe_memory::OutOfMemory;
use oe_replies::ReplyCode;
use serde_json::Value;
use std::alloc::Global;

/// A new job, as it was sent.
#[derive(Drop)]
pub struct NewJob {
    pub title: Option<Text>,
    pub description: Option<Text>,
    /// The compact JSON text of its process.
    pub process: Text,
    pub level: Level,
}

/// What is to change of a job, each where it is given.
#[derive(Drop)]
pub struct Changes {
    pub fields: Fields,
    /// The compact JSON text of its process.
    pub process: Option<Text>,
}

/// The JSON value that a body is, where it is one. Refuses: out of memory.
pub fn read_json(alloc: Global, body: &[u8]) -> Result<Option<Value>, OutOfMemory>
    ensures { IfOk result (λ json. IsJson body.now (option_map view json)) }
{
    match Value::from_slice(alloc, body) {
        Ok(value) => Ok(Some(value)),
        Err(error) if error.is_memory() => Err(OutOfMemory),
        Err(_) => Ok(None),
    }
}

/// The new job that the body of a request asks for: its process, and title, description and log level where they are
/// given. `fault` is the fault of the form of the process, taken as it is handed in: it is for the caller to find it, by
/// [`read_value`](oe_graph::read_value).
///
/// Refuses: `BodyInvalid` where the body or its process is no object; `JobFieldInvalid`; the fault of the process;
/// `NumberUnsupported` where a number of the process is not whole; `ProcessTooLong` where its text is over 65536 bytes:
/// the first that stands; out of memory.
#[tactic(auto, using(crate::proofs::FormLemmas::words_of, crate::proofs::FormLemmas::process_is))]
pub fn new_job(
    alloc: Global,
    json: Option<&Value>,
    fault: Option<Fault>,
) -> Result<NewJob, Rejection>
    ensures job { Settles (λ job. job) result
        (spec.new_job (option_map (λ v. view v.now) json.entry) fault) }
    // A valid book takes it.
    ensures valid { IfOk result
        (λ job. spec.IsSent (option_map (λ v. view v.now) json.entry) fault → spec.IsNewJob job) }
{
    let body = object_in(json)?;
    let process = object_in(body.get("process"))?;
    let fields = fields_in(alloc, body)?;
    faultless(fault)?;
    let process = text_of(alloc, process)?;
    Ok(NewJob {
        title: fields.title.unwrap_or(None),
        description: fields.description.unwrap_or(None),
        process,
        level: fields.level.unwrap_or(Level::Info),
    })
}

/// What the body of a request has changed of a job: title, description, process and log level where they are given.
/// `fault` is the fault of the form of the process, taken as it is handed in.
///
/// Refuses: as [`new_job`], but a process may be missing; out of memory.
#[tactic(auto, using(crate::proofs::FormLemmas::process_where_is))]
pub fn job_changes(
    alloc: Global,
    json: Option<&Value>,
    fault: Option<Fault>,
) -> Result<Changes, Rejection>
    ensures changes { Settles (λ c. c) result
        (spec.job_changes (option_map (λ v. view v.now) json.entry) fault) }
    ensures valid { IfOk result
        (λ c. spec.IsSent (option_map (λ v. view v.now) json.entry) fault → spec.AreChanges c) }
{
    let body = object_in(json)?;
    let process = object_where(body.get("process"))?;
    let fields = fields_in(alloc, body)?;
    faultless(fault)?;
    let process = text_where(alloc, process)?;
    Ok(Changes { fields, process })
}

/// A value that is there and is an object. Takes no memory.
///
/// Refuses: `BodyInvalid` where it is none.
pub fn object_in(value: Option<&Value>) -> Result<&Value, Rejection>
    ensures object { Settles (λ v. view v.now) result
        (spec.object_in (option_map (λ v. view v.now) value.entry)) }
    ensures memory { ¬ IsErrOf result Rejection.OutOfMemory }
{
    match value {
        Some(value) if value.is_object() => Ok(value),
        _ => Err(Rejection::Code(ReplyCode::BodyInvalid)),
    }
}

/// A value that is an object where it is there. Takes no memory.
///
/// Refuses: `BodyInvalid` where it is there and is none.
pub fn object_where(value: Option<&Value>) -> Result<Option<&Value>, Rejection>
    ensures object { Settles (λ v. option_map (λ w. view w.now) v) result
        (spec.object_where (option_map (λ v. view v.now) value.entry)) }
    ensures memory { ¬ IsErrOf result Rejection.OutOfMemory }
{
    match value {
        None => Ok(None),
        Some(value) => Ok(Some(object_in(Some(value))?)),
    }
}

fn faultless(fault: Option<Fault>) -> Result<(), Rejection>
    ensures { Settles (λ u. u) result (spec.faultless fault) }
{
    match fault {
        None => Ok(()),
        Some(fault) => Err(Rejection::Fault(fault)),
    }
}

/// The text of a process.
pub(crate) fn text_of(alloc: Global, process: &Value) -> Result<Text, Rejection>
    ensures text { Settles (λ t. t) result (spec.text_of (view process.now)) }
    ensures valid { IfOk result
        (λ t. spec.IsProcess (view process.now) → IsProcessText t) }
{
    match process_text(alloc, process) {
        Ok(text) => Ok(text),
        Err(ProcessRefusal::NumberUnsupported) => {
            Err(Rejection::Code(ReplyCode::NumberUnsupported))
        }
        Err(ProcessRefusal::ProcessTooLong) => Err(Rejection::Code(ReplyCode::ProcessTooLong)),
        Err(ProcessRefusal::OutOfMemory) => Err(Rejection::OutOfMemory),
    }
}

fn text_where(alloc: Global, process: Option<&Value>) -> Result<Option<Text>, Rejection>
    ensures text { Settles (λ t. t) result
        (spec.text_where (option_map (λ v. view v.now) process.entry)) }
    ensures valid { IfOk result
        (λ t. IfSome (option_map (λ v. view v.now) process.entry) spec.IsProcess
        → IfSome t IsProcessText) }
{
    match process {
        None => Ok(None),
        Some(process) => Ok(Some(text_of(alloc, process)?)),
    }
}
