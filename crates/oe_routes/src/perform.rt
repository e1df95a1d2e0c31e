// What each operation does for a user.
ghost use Rattle.std.specs.Prelude.{◌≡◌, Bool, IfOk, Ok, Result};
ghost use Rattle.serde_json.specs.Data.{Data};
ghost use Rattle.serde_json.specs.Written.{compact_text};
ghost use Rattle.oe_dims.specs.Instant.{IsInstant};
ghost use Rattle.oe_http.specs.Plain.{plain_request};
ghost use Rattle.oe_http.specs.Replies.{plain_response};
ghost use Rattle.oe_jobs.specs.Plain.{PlainBook, plain_book};
ghost use Rattle.oe_jobs.specs.Valid.{IsBook};
ghost use Rattle.oe_routes.specs.Actions.{HasPhrase, MayBeDone, PlainAction, answer, plain_action};
ghost use Rattle.oe_routes.specs.Answers as spec;
ghost use Rattle.oe_routes.specs.Asks.{needs_rows};
ghost use Rattle.oe_routes.specs.Performs.{Performs};
ghost use Rattle.oe_routes.specs.Rejections.{Rejected, Settles};
ghost use Rattle.oe_routes.specs.Scenes.{PlainScene, plain_scene};

use crate::action::{Action, Scene};
use crate::command::{
    cancel_action, create_action, delete_action, forget_action, patch_action, store_action,
};
use crate::estimate::estimate_action;
use crate::judged::{queue_action, run_action, validation_reply};
use crate::lists::{list_collections, list_jobs, list_processes, list_stored};
use crate::refusal::Rejection;
use crate::results::{asset_action, results_reply};
use crate::shown::{
    capabilities_text, collection_reply, job_reply, logs_reply, process_reply, shown,
};
use crate::table::Operation;
use oe_dims::Text;
use oe_http::{Request, Response};
use oe_memory::OutOfMemory;
use oe_replies::{conformance_body, file_formats_body, versions_body};
use std::alloc::Global;

/// What an operation does for a user: the form of the body or the query, then the thing that is named, then the command.
pub(crate) fn perform(
    alloc: Global,
    operation: Operation,
    request: &Request,
    user: &Text,
    scene: Scene,
) -> Result<Action, Rejection>
    requires book { IsBook (plain_book scene.book.now) }
    requires moment { IsInstant scene.moment }
    ensures answer { Performs (plain_scene scene.entry) user.now (plain_request request.now)
        operation result }
    ensures valid { IfOk result (MayBeDone (plain_scene scene.entry) (needs_rows operation)) }
{
    let base = scene.site.base.as_str();
    match operation {
        Operation::ShowCapabilities => show(capabilities_text(alloc)),
        Operation::ShowVersions => show(versions_body(alloc, base)),
        Operation::ShowConformance => show(conformance_body(alloc)),
        Operation::ListFileFormats => show(file_formats_body(alloc)),
        Operation::ListCollections => list_collections(alloc, request, scene),
        Operation::ShowCollection => action_of(collection_reply(alloc, request, scene)),
        Operation::ListProcesses => list_processes(alloc, request, scene),
        Operation::Validate => action_of(validation_reply(alloc, request, user, scene)),
        Operation::RunNow => run_action(alloc, request, user, scene),
        Operation::ListJobs => list_jobs(alloc, request, user, scene),
        Operation::CreateJob => create_action(alloc, request, user, scene),
        Operation::ShowJob => action_of(job_reply(alloc, request, user, scene)),
        Operation::PatchJob => patch_action(alloc, request, user, scene),
        Operation::DeleteJob => delete_action(alloc, request, user, scene),
        Operation::EstimateJob => estimate_action(alloc, request, user, scene),
        Operation::ShowLogs => action_of(logs_reply(alloc, request, user, scene)),
        Operation::QueueJob => queue_action(alloc, request, user, scene),
        Operation::CancelJob => cancel_action(alloc, request, user, scene),
        Operation::ShowResults => action_of(results_reply(alloc, request, user, scene)),
        Operation::SendAsset => asset_action(alloc, request, user, scene),
        Operation::ListStored => list_stored(alloc, request, user, scene),
        Operation::ShowStored => action_of(process_reply(alloc, request, user, scene)),
        Operation::StoreProcess => store_action(alloc, request, user, scene),
        Operation::ForgetProcess => forget_action(alloc, request, user, scene),
    }
}

/// Answers with a body that shows something.
fn show(body: Result<Vec<u8>, OutOfMemory>) -> Result<Action, Rejection>
    ensures answer { (book : PlainBook) (d : Data) → IfOk body (λ b. b.items ≡ compact_text d)
        → Settles (plain_action book) result (Ok (spec.shown d)) }
    ensures valid { (s : PlainScene) (asks : Bool) → IfOk result (MayBeDone s asks) }
{
    Ok(Action::Answer(shown(body?)))
}

/// Answers with a reply.
fn action_of(reply: Result<Response, Rejection>) -> Result<Action, Rejection>
    requires { IfOk reply HasPhrase }
    ensures answer { (book : PlainBook) (step : Result PlainAction Rejected)
        → Settles (λ r. answer (plain_response r)) reply step
        → Settles (plain_action book) result step }
    ensures valid { (s : PlainScene) (asks : Bool) → IfOk result (MayBeDone s asks) }
{
    match reply {
        Ok(response) => Ok(Action::Answer(response)),
        Err(rejection) => Err(rejection),
    }
}
