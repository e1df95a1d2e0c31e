// What the bodies of requests bring as a job or as a graph to be run at once.
ghost use Rattle.std.specs.Prelude.{◌≡◌, IfOk, true};
ghost use Rattle.std.specs.Option.{option_map};
ghost use Rattle.serde_json.specs.View.{view};
ghost use Rattle.oe_graph.specs.AsRead.{is_as_read};
ghost use Rattle.oe_graph.specs.Form.{StandsIn};
ghost use Rattle.oe_graph.specs.Plain.{plain_graph};
ghost use Rattle.oe_graph.specs.Valid.{IsValidGraph};
ghost use Rattle.oe_routes.specs.Forms.{AreChanges, IsNewJob};
ghost use Rattle.oe_routes.specs.Found.{Found, IsFaultWhere, IsLeastOf, IsRead, process_in};
ghost use Rattle.oe_routes.specs.Rejections.{Settles};
ghost use Rattle.oe_routes.specs.Sent as spec;

use crate::form::{Changes, NewJob, job_changes, new_job, object_in, read_json};
use crate::refusal::Rejection;
use oe_graph::{Fault, Graph, Refusal as GraphRefusal, read_value};
use oe_memory::OutOfMemory;
use serde_json::Value;
use std::alloc::Global;

/// The new job that a body brings.
///
/// Refuses: as [`new_job`]; out of memory.
#[tactic(auto, using(crate::proofs::FoundLemmas::job_is_sent, crate::proofs::FoundLemmas::is_sent))]
pub(crate) fn job_sent(alloc: Global, body: &[u8]) -> Result<NewJob, Rejection>
    ensures answer { (f : Found) → IsRead f
        → Settles (λ job. job) result (spec.job_sent f body.now) }
    ensures valid { IfOk result IsNewJob }
{
    let json = read_json(alloc, body)?;
    let fault = process_fault(alloc, json.as_ref())?;
    new_job(alloc, json.as_ref(), fault)
}

/// What a body has changed of a job.
///
/// Refuses: as [`job_changes`]; out of memory.
#[tactic(auto, using(crate::proofs::FoundLemmas::changes_are_sent, crate::proofs::FoundLemmas::is_sent))]
pub(crate) fn changes_sent(alloc: Global, body: &[u8]) -> Result<Changes, Rejection>
    ensures answer { (f : Found) → IsRead f
        → Settles (λ changes. changes) result (spec.changes_sent f body.now) }
    ensures valid { IfOk result AreChanges }
{
    let json = read_json(alloc, body)?;
    let fault = process_fault(alloc, json.as_ref())?;
    job_changes(alloc, json.as_ref(), fault)
}

/// The least fault of the form of the process of a body, where it has a process.
fn process_fault(alloc: Global, json: Option<&Value>) -> Result<Option<Fault>, OutOfMemory>
    ensures { IfOk result
        (IsFaultWhere (process_in (option_map (λ v. view v.now) json.entry))) }
{
    match json {
        Some(body) => match body.get("process") {
            Some(process) => form_fault(alloc, process),
            None => Ok(None),
        },
        None => Ok(None),
    }
}

/// The least fault of the form of a value as a graph.
fn form_fault(alloc: Global, value: &Value) -> Result<Option<Fault>, OutOfMemory>
    ensures { IfOk result (IsLeastOf (StandsIn (view value.now))) }
{
    match read_value(alloc, value) {
        Ok(_) => Ok(None),
        Err(GraphRefusal::Fault(fault)) => Ok(Some(fault)),
        Err(GraphRefusal::OutOfMemory) => Err(OutOfMemory),
    }
}

/// The graph that a body has run at once: its process, and nothing else of it is looked at.
///
/// Refuses: `BodyInvalid` where the body or its process is no object; the least fault of the form of the process; out of
/// memory.
#[tactic(auto, using(crate::proofs::FoundLemmas::graph_is_sent, crate::proofs::FormLemmas::process_as_read))]
pub(crate) fn graph_sent(alloc: Global, body: &[u8]) -> Result<Graph, Rejection>
    ensures answer { (f : Found) → IsRead f
        → Settles plain_graph result (spec.graph_sent f body.now) }
    ensures valid { IfOk result (λ graph. IsValidGraph (plain_graph graph)) }
{
    let json = read_json(alloc, body)?;
    let sent = object_in(json.as_ref())?;
    let process = object_in(sent.get("process"))?;
    graph_of(alloc, process)
}

/// The graph that a value is.
#[tactic(auto, using(crate::proofs::FoundLemmas::value_passes, crate::proofs::FoundLemmas::value_refused, crate::proofs::FormLemmas::printable_is_valid))]
fn graph_of(alloc: Global, process: &Value) -> Result<Graph, Rejection>
    ensures answer { (f : Found) → IsRead f
        → Settles plain_graph result (spec.graph_where f (view process.now)) }
    ensures valid { IfOk result (λ graph. is_as_read (view process.now) ≡ true
        → IsValidGraph (plain_graph graph)) }
{
    Ok(read_value(alloc, process)?)
}
