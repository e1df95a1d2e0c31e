// The results of a job, which its status allows.
ghost use Rattle.std.specs.Prelude.{◌≡◌, IfOk, false};
ghost use Rattle.oe_http.specs.Plain.{plain_request};
ghost use Rattle.oe_http.specs.Replies.{plain_response};
ghost use Rattle.oe_jobs.specs.Plain.{plain_job};
ghost use Rattle.oe_routes.specs.Actions.{HasPhrase, MayBeDone, answer};
ghost use Rattle.oe_routes.specs.Answers as spec;
ghost use Rattle.oe_routes.specs.Found.{Found};
ghost use Rattle.oe_routes.specs.Performs.{Performs};
ghost use Rattle.oe_routes.specs.Rejections.{Settles};
ghost use Rattle.oe_routes.specs.Scenes.{plain_scene};
ghost use Rattle.oe_routes.specs.declared.table.Operation.TheVariants as ops;

use crate::action::{Action, Scene};
use crate::named::{index_of_asset, index_of_job, named_job};
use crate::path::{id_in, name_in};
use crate::refusal::Rejection;
use crate::shown::shown;
use oe_dims::Text;
use oe_http::{Request, Response};
use oe_jobs::{Job, LogEntry, Status};
use oe_memory::OutOfMemory;
use oe_replies::{ReplyCode, failed_reply, results_body};
use std::alloc::Global;

/// The assets of the job that a request names.
pub(crate) fn results_reply(
    alloc: Global,
    request: &Request,
    user: &Text,
    scene: Scene,
) -> Result<Response, Rejection>
    ensures reply { (f : Found) → Settles (λ r. answer (plain_response r)) result
        (spec.perform (plain_scene scene.entry) f user.now (plain_request request.now)
        ops.ShowResults) }
    ensures phrase { IfOk result HasPhrase }
{
    let id = id_in(request.path.as_str());
    let job = named_job(scene.book, user, id)?;
    if !has_results(job.status)? {
        return Ok(failure(alloc, job)?);
    }
    let base = scene.site.base.as_str();
    Ok(shown(results_body(alloc, base, id, &job.assets)?))
}

/// The asset that a request names.
#[tactic(auto, using(crate::proofs::NamedLemmas::sent_text, crate::proofs::NamedLemmas::text_there))]
pub(crate) fn asset_action(
    alloc: Global,
    request: &Request,
    user: &Text,
    scene: Scene,
) -> Result<Action, Rejection>
    ensures answer { Performs (plain_scene scene.entry) user.now (plain_request request.now)
        ops.SendAsset result }
    ensures valid { IfOk result (MayBeDone (plain_scene scene.entry) false) }
{
    let id = id_in(request.path.as_str());
    let job = named_job(scene.book, user, id)?;
    if !has_results(job.status)? {
        return Ok(Action::Answer(failure(alloc, job)?));
    }
    let asset = index_of_asset(&job.assets, name_in(request.path.as_str()))?;
    let job = index_of_job(alloc, scene.book, user, id)?;
    Ok(Action::SendAsset { job, asset })
}

/// Whether a job has results, by its status; a failed one has a code in their place.
///
/// Refuses: `JobNotStarted`, `JobNotFinished`.
fn has_results(status: Status) -> Result<bool, Rejection>
    ensures { Settles (λ has. has) result (spec.has_results status) }
{
    match status {
        Status::Created => Err(Rejection::Code(ReplyCode::JobNotStarted)),
        Status::Queued | Status::Running => Err(Rejection::Code(ReplyCode::JobNotFinished)),
        Status::Canceled | Status::Finished => Ok(true),
        Status::Error => Ok(false),
    }
}

/// What a failed job is answered with in place of its results.
fn failure(alloc: Global, job: &Job) -> Result<Response, OutOfMemory>
    ensures reply { IfOk result
        (λ r. answer (plain_response r) ≡ spec.failed (plain_job job.now)) }
    ensures phrase { IfOk result HasPhrase }
{
    failed_reply(alloc, error_code(&job.logs))
}

/// The code of the last log entry.
fn error_code(logs: &[LogEntry]) -> &str
    ensures { result.now ≡ spec.error_code logs.now }
{
    match logs.last() {
        Some(entry) => match &entry.code {
            Some(code) => code.as_str(),
            None => "",
        },
        None => "",
    }
}
