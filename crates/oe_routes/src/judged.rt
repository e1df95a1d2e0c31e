// Graphs that are judged with the stored processes of a user.
ghost use Rattle.std.specs.Prelude.{◌≡◌, IfOk, OnOk, Option, Some, true};
ghost use Rattle.oe_dims.specs.Instant.{IsInstant};
ghost use Rattle.oe_dims.specs.Plain.{plain_rows};
ghost use Rattle.oe_graph.specs.Plain.{plain_graph};
ghost use Rattle.oe_graph.specs.Valid.{IsValidGraph};
ghost use Rattle.oe_http.specs.Plain.{plain_request};
ghost use Rattle.oe_http.specs.Replies.{plain_response};
ghost use Rattle.oe_jobs.specs.Plain.{plain_book, plain_job};
ghost use Rattle.oe_jobs.specs.Valid.{IsBook, IsProcessText};
ghost use Rattle.oe_jobs.specs.Verdicts.{stored_of};
ghost use Rattle.oe_judge.specs.Judged.{StandsWithCollections, checked_over};
ghost use Rattle.oe_routes.specs.Actions.{HasPhrase, MayBeDone, answer};
ghost use Rattle.oe_routes.specs.Answers as spec;
ghost use Rattle.oe_routes.specs.Found.{Found, IsFound, IsJudged, IsLeastOf};
ghost use Rattle.oe_routes.specs.Performs.{IsSound, Performs};
ghost use Rattle.oe_routes.specs.Rejections.{Settles};
ghost use Rattle.oe_routes.specs.Scenes.{plain_scene};
ghost use Rattle.oe_routes.specs.Sent as sent;
ghost use Rattle.oe_routes.specs.declared.table.Operation.TheVariants as ops;

use crate::action::{Action, Scene};
use crate::command::{command_action, id_of};
use crate::named::named_job;
use crate::path::id_in;
use crate::refusal::Rejection;
use crate::sent::graph_sent;
use crate::shown::shown;
use oe_book::{assets_of, stored_is_valid};
use oe_check::Checked;
use oe_dims::Text;
use oe_graph::{Fault, Graph, Refusal as GraphRefusal, read_graph};
use oe_http::{Request, Response};
use oe_jobs::{Command, Job};
use oe_judge::judge;
use oe_memory::OutOfMemory;
use oe_replies::{ReplyCode, validation_body};
use std::alloc::Global;

/// Most assets of a job that is queued.
const MOST_ASSETS: usize = 4;

/// The graph with the user's stored processes, judged.
///
/// Refuses: the least fault; out of memory.
#[tactic(auto, using(crate::proofs::FoundLemmas::users_stored, crate::proofs::FoundLemmas::judged_passes, crate::proofs::FoundLemmas::judged_refused))]
pub(crate) fn judged(
    alloc: Global,
    graph: &Graph,
    user: &Text,
    scene: Scene,
) -> Result<Checked, Rejection>
    requires book { IsBook (plain_book scene.book.now) }
    requires graph { IsValidGraph (plain_graph graph.now) }
    ensures sound { (f : Found) → IsJudged (plain_rows scene.entry.dims.now) f
        → Settles (λ c. tt) result
        (spec.sound (plain_scene scene.entry) f user.now (plain_graph graph.now)) }
    ensures checked { IfOk result (λ c. c ≡ checked_over (plain_rows scene.entry.dims.now)
        (stored_of user.now (plain_book scene.entry.book.now)) (plain_graph graph.now)) }
    ensures rows { IfOk result (λ c. c.rows ≡ plain_rows scene.entry.dims.now) }
    ensures none { OnOk result
        (IsSound (plain_scene scene.entry) user.now (plain_graph graph.now)) }
{
    stored_is_valid();
    let stored = scene.book.stored_of(alloc, user)?;
    Ok(judge(alloc, graph, &stored, scene.dims)?)
}

/// Has the graph of a body run at once.
pub(crate) fn run_action(
    alloc: Global,
    request: &Request,
    user: &Text,
    scene: Scene,
) -> Result<Action, Rejection>
    requires { IsBook (plain_book scene.book.now) }
    ensures answer { Performs (plain_scene scene.entry) user.now (plain_request request.now)
        ops.RunNow result }
    ensures valid { IfOk result (MayBeDone (plain_scene scene.entry) true) }
{
    let graph = graph_sent(alloc, &request.body)?;
    Ok(Action::RunNow(judged(alloc, &graph, user, scene)?))
}

/// What is told of a graph that is validated.
pub(crate) fn validation_reply(
    alloc: Global,
    request: &Request,
    user: &Text,
    scene: Scene,
) -> Result<Response, Rejection>
    requires { IsBook (plain_book scene.book.now) }
    ensures reply { (f : Found) → IsFound (plain_rows scene.entry.dims.now) f
        → Settles (λ r. answer (plain_response r)) result (spec.perform
        (plain_scene scene.entry) f user.now (plain_request request.now) ops.Validate) }
    ensures phrase { IfOk result HasPhrase }
{
    let fault = sent_fault(alloc, &request.body, user, scene)?;
    Ok(shown(validation_body(alloc, &fault)?))
}

/// The fault that is told of bytes that are validated.
///
/// Refuses: `GraphUnreadable` where they are no JSON object; out of memory.
#[tactic(auto, using(crate::proofs::FoundLemmas::bytes_pass, crate::proofs::FoundLemmas::bytes_refused))]
fn sent_fault(
    alloc: Global,
    body: &[u8],
    user: &Text,
    scene: Scene,
) -> Result<Option<Fault>, Rejection>
    requires { IsBook (plain_book scene.book.now) }
    ensures { (f : Found) → IsFound (plain_rows scene.entry.dims.now) f → Settles (λ x. x) result
        (sent.validated_bytes f (stored_of user.now (plain_book scene.entry.book.now)) body.now) }
{
    stored_is_valid();
    match read_graph(alloc, body) {
        Ok(graph) => Ok(later_fault(alloc, &graph, user, scene)?),
        Err(GraphRefusal::Fault(fault)) => form_fault(fault),
        Err(GraphRefusal::OutOfMemory) => Err(Rejection::OutOfMemory),
    }
}

/// A fault of the form is told, but where the bytes are no JSON object.
fn form_fault(fault: Fault) -> Result<Option<Fault>, Rejection>
    ensures { (later : Option Fault) → Settles (λ x. x) result
        (sent.validated (Some fault) later) }
{
    if fault.code.as_str() == "GraphUnreadable" {
        Err(Rejection::Fault(fault))
    } else {
        Ok(Some(fault))
    }
}

/// The least fault of the graph with the user's stored processes.
#[tactic(auto, using(crate::proofs::FoundLemmas::users_stored, crate::proofs::FoundLemmas::later_none, crate::proofs::FoundLemmas::later_some))]
fn later_fault(
    alloc: Global,
    graph: &Graph,
    user: &Text,
    scene: Scene,
) -> Result<Option<Fault>, OutOfMemory>
    requires book { IsBook (plain_book scene.book.now) }
    requires graph { IsValidGraph (plain_graph graph.now) }
    ensures { IfOk result (IsLeastOf (StandsWithCollections (plain_rows scene.entry.dims.now)
        (stored_of user.now (plain_book scene.entry.book.now)) (plain_graph graph.now))) }
{
    stored_is_valid();
    let stored = scene.book.stored_of(alloc, user)?;
    match judge(alloc, graph, &stored, scene.dims) {
        Ok(_) => Ok(None),
        Err(GraphRefusal::Fault(fault)) => Ok(Some(fault)),
        Err(GraphRefusal::OutOfMemory) => Err(OutOfMemory),
    }
}

/// Queues the job that a request names. A job that is queued already, or runs, is answered as it is; the graph of another
/// one is judged first.
#[tactic(auto, using(crate::proofs::NamedLemmas::job_process))]
pub(crate) fn queue_action(
    alloc: Global,
    request: &Request,
    user: &Text,
    scene: Scene,
) -> Result<Action, Rejection>
    requires book { IsBook (plain_book scene.book.now) }
    requires moment { IsInstant scene.moment }
    ensures answer { Performs (plain_scene scene.entry) user.now (plain_request request.now)
        ops.QueueJob result }
    ensures valid { IfOk result (MayBeDone (plain_scene scene.entry) true) }
{
    let job = named_job(scene.book, user, id_in(request.path.as_str()))?;
    may_queue(alloc, job, user, scene)?;
    let id = id_of(alloc, request)?;
    command_action(alloc, user, Command::Queue { id }, scene)
}

/// Refuses: the least fault of the job's graph; `AssetLimit` where it has over 4 assets; out of memory.
fn may_queue(alloc: Global, job: &Job, user: &Text, scene: Scene) -> Result<(), Rejection>
    requires book { IsBook (plain_book scene.book.now) }
    requires process { IsProcessText job.now.process }
    ensures { (f : Found) → IsJudged (plain_rows scene.entry.dims.now) f → Settles (λ u. u) result
        (spec.may_queue (plain_scene scene.entry) f user.now (plain_job job.now)) }
{
    if job.status.is_busy() {
        return Ok(());
    }
    let graph = read_process(alloc, &job.process)?;
    judged(alloc, &graph, user, scene)?;
    few_assets(alloc, &graph)
}

/// The graph of the text of a process.
#[tactic(auto, using(crate::proofs::NamedLemmas::text_graph, oe_book::proofs::ProcessLemmas::no_fault))]
pub(crate) fn read_process(alloc: Global, text: &Text) -> Result<Graph, OutOfMemory>
    requires { IsProcessText text.now }
    ensures graph { IfOk result (λ graph. plain_graph graph ≡ spec.graph_of_text text.now) }
    ensures valid { IfOk result (λ graph. IsValidGraph (plain_graph graph)) }
{
    match read_graph(alloc, text.as_str().as_bytes()) {
        Ok(graph) => Ok(graph),
        Err(GraphRefusal::OutOfMemory) => Err(OutOfMemory),
        Err(GraphRefusal::Fault(_)) => unreachable!(),
    }
}

/// Refuses: `AssetLimit` where a graph has over 4 assets; out of memory.
pub(crate) fn few_assets(alloc: Global, graph: &Graph) -> Result<(), Rejection>
    ensures { Settles (λ u. u) result (spec.few_assets (plain_graph graph.now)) }
{
    if assets_of(alloc, graph)?.len() > MOST_ASSETS {
        return Err(Rejection::Code(ReplyCode::AssetLimit));
    }
    Ok(())
}
