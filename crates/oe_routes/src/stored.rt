// A process that is sent to be stored.
ghost use Rattle.std.specs.Prelude.{◌≡◌, ◌≤◌, IfOk, IfSome, Option, Some, false, length};
ghost use Rattle.std.specs.Option.{option_map};
ghost use Rattle.serde_json.specs.Data.{depth, object};
ghost use Rattle.serde_json.specs.Read.{max_depth};
ghost use Rattle.serde_json.specs.View.{members_view, view};
ghost use Rattle.serde_json.specs.Written.{compact_text, has_float};
ghost use Rattle.oe_graph.specs.Form.{IsReading};
ghost use Rattle.oe_graph.specs.Parameters.{StandsStored};
ghost use Rattle.oe_graph.specs.Plain.{plain_stored};
ghost use Rattle.oe_graph.specs.declared.fault.Fault.{Fault};
ghost use Rattle.oe_jobs.specs.Valid.{IsStored, most_process};
ghost use Rattle.oe_routes.specs.Found.{Found, IsJson, IsLeastOf, IsRead};
ghost use Rattle.oe_routes.specs.Rejections.{Settles};
ghost use Rattle.oe_routes.specs.Sent as spec;

use crate::form::{object_in, read_json};
use crate::refusal::Rejection;
use crate::tokens::is_id;
use oe_book::{ProcessRefusal, id_leaves_faults, json_text, process_text};
use oe_dims::Text;
use oe_graph::{StoredProcess, read_stored};
use oe_memory::OutOfMemory;
use oe_replies::ReplyCode;
use serde_json::{Map, Value, put};
use std::alloc::Global;

/// Most bytes of a process.
const MOST_PROCESS: usize = 65536;

/// The process that the body of a request has stored under the id of its path: its text is the compact one of the body
/// with this id.
///
/// Refuses: `ProcessIdInvalid` where the id is not 1 to 64 letters, digits and `_`; `BodyInvalid` where the body is no
/// object; the least fault of the body as a stored process; `NumberUnsupported` where a number of it is not whole;
/// `ProcessTooLong` where the text is over 65536 bytes: the first that stands; out of memory.
pub(crate) fn process_sent(alloc: Global, id: &str, body: &[u8]) -> Result<StoredProcess, Rejection>
    ensures answer { (f : Found) → IsRead f
        → Settles plain_stored result (spec.process_sent f id.now body.now) }
    ensures valid { IfOk result (λ process. IsStored (plain_stored process)) }
{
    if !is_id(id.as_bytes()) {
        return Err(Rejection::Code(ReplyCode::ProcessIdInvalid));
    }
    let json = read_json(alloc, body)?;
    process_of(alloc, id, json, body)
}

/// The process of a body under this id, by the JSON value of the body.
#[tactic(auto, using(crate::proofs::StoreLemmas::process_is_sent, crate::proofs::StoreLemmas::process_refused, crate::proofs::StoreLemmas::stored_sent))]
fn process_of(
    alloc: Global,
    id: &str,
    json: Option<Value>,
    body: &[u8],
) -> Result<StoredProcess, Rejection>
    requires { IsJson body.now (option_map view json) }
    ensures answer { (fault : Option Fault) → IsLeastOf (StandsStored body.now) fault
        → Settles plain_stored result (spec.process_from id.now (option_map view json) fault) }
    ensures valid { IfOk result (λ process. IsStored (plain_stored process)) }
{
    id_leaves_faults();
    let sent = object_in(json.as_ref())?;
    let mut process = read_stored(alloc, id, body)?;
    whole(alloc, sent)?;
    let text = text_under(alloc, id, json)?;
    process.text = text;
    Ok(process)
}

/// Refuses: `NumberUnsupported` where a number of a value is not whole; out of memory.
fn whole(alloc: Global, value: &Value) -> Result<(), Rejection>
    ensures { Settles (λ u. u) result (spec.whole (view value.now)) }
{
    match process_text(alloc, value) {
        Ok(_) => Ok(()),
        Err(ProcessRefusal::ProcessTooLong) => Ok(()),
        Err(ProcessRefusal::NumberUnsupported) => {
            Err(Rejection::Code(ReplyCode::NumberUnsupported))
        }
        Err(ProcessRefusal::OutOfMemory) => Err(Rejection::OutOfMemory),
    }
}

/// The text of an object with this id in place of its own.
///
/// Refuses: `BodyInvalid` where it is no object; `ProcessTooLong`; out of memory.
fn text_under(alloc: Global, id: &str, json: Option<Value>) -> Result<Text, Rejection>
    requires { IfSome (option_map view json) (λ d. has_float d ≡ false) }
    ensures text { Settles (λ text. text) result
        (spec.text_under id.now (option_map view json)) }
    ensures reads { IfOk result (λ text. IfSome (option_map view json) (λ d. depth d ≤ max_depth
        → IsReading text (spec.with_id id.now d))) }
    ensures short { IfOk result (λ text. length text ≤ most_process) }
{
    match json {
        Some(value) => text_of_value(alloc, id, value),
        None => Err(Rejection::Code(ReplyCode::BodyInvalid)),
    }
}

fn text_of_value(alloc: Global, id: &str, value: Value) -> Result<Text, Rejection>
    requires { has_float (view value) ≡ false }
    ensures text { Settles (λ text. text) result (spec.text_under id.now (Some (view value))) }
    ensures reads { IfOk result (λ text. depth (view value) ≤ max_depth
        → IsReading text (spec.with_id id.now (view value))) }
    ensures short { IfOk result (λ text. length text ≤ most_process) }
{
    match value {
        Value::Object(members) => text_of_members(alloc, id, members),
        _ => Err(Rejection::Code(ReplyCode::BodyInvalid)),
    }
}

#[tactic(auto, using(crate::proofs::StoreLemmas::id_whole, crate::proofs::StoreLemmas::id_deep))]
fn text_of_members(alloc: Global, id: &str, members: Map<String, Value>) -> Result<Text, Rejection>
    requires { has_float (object (members_view members.entries)) ≡ false }
    ensures text { Settles (λ text. text) result (spec.short
        (compact_text (spec.with_id id.now (object (members_view members.entries))))) }
    ensures reads { IfOk result (λ text. depth (object (members_view members.entries)) ≤ max_depth
        → IsReading text (spec.with_id id.now (object (members_view members.entries)))) }
    ensures short { IfOk result (λ text. length text ≤ most_process) }
{
    let value = with_id(alloc, id, members)?;
    let text = json_text(alloc, &value)?;
    if text.as_str().len() > MOST_PROCESS {
        return Err(Rejection::Code(ReplyCode::ProcessTooLong));
    }
    Ok(text)
}

fn with_id(alloc: Global, id: &str, members: Map<String, Value>) -> Result<Value, OutOfMemory>
    ensures { IfOk result
        (λ v. view v ≡ spec.with_id id.now (object (members_view members.entries))) }
{
    let mut members = members;
    let id = String::from_str(alloc, id)?;
    put(&mut members, alloc, "id", Value::String(id))?;
    Ok(Value::Object(members))
}
