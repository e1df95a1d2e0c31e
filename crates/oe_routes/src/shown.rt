// Replies that show something.
ghost use Rattle.std.specs.Prelude.{◌≡◌, ℕ, IfOk, List, map};
ghost use Rattle.serde_json.specs.Written.{compact_text};
ghost use Rattle.oe_http.specs.Laws.{json_reply as json_reply_of};
ghost use Rattle.oe_http.specs.Plain.{plain_request};
ghost use Rattle.oe_http.specs.Replies.{plain_response};
ghost use Rattle.oe_jobs.specs.Plain.{plain_book};
ghost use Rattle.oe_jobs.specs.Valid.{IsBook};
ghost use Rattle.oe_replies.specs.Bodies.{capabilities_data};
ghost use Rattle.oe_routes.specs.Actions.{HasPhrase, answer};
ghost use Rattle.oe_routes.specs.Answers as spec;
ghost use Rattle.oe_routes.specs.Found.{Found};
ghost use Rattle.oe_routes.specs.Rejections.{Settles};
ghost use Rattle.oe_routes.specs.Scenes.{plain_scene};
ghost use Rattle.oe_routes.specs.Table.{endpoint_of, routes};
ghost use Rattle.oe_routes.specs.declared.table.Operation.TheVariants as ops;

use crate::action::Scene;
use crate::named::{named_job, named_process, named_row};
use crate::path::id_in;
use crate::query::logs_asked;
use crate::refusal::Rejection;
use crate::table::endpoints;
use oe_dims::Text;
use oe_http::{Request, Response};
use oe_memory::OutOfMemory;
use oe_replies::{capabilities_body, collection_body, job_body, json_reply, logs_body};
use std::alloc::Global;

/// The reply that shows this body.
pub(crate) fn shown(body: Vec<u8>) -> Response
    ensures reply { plain_response result ≡ json_reply_of 200 body.items }
    ensures phrase { HasPhrase result }
{
    json_reply(200, body)
}

pub(crate) fn capabilities_text(alloc: Global) -> Result<Vec<u8>, OutOfMemory>
    ensures { IfOk result (λ body. body.items
        ≡ compact_text (capabilities_data (map endpoint_of routes))) }
{
    let endpoints = endpoints(alloc)?;
    capabilities_body(alloc, &endpoints)
}

#[tactic(auto, using(crate::proofs::CommandLemmas::row_shown))]
pub(crate) fn collection_reply(
    alloc: Global,
    request: &Request,
    scene: Scene,
) -> Result<Response, Rejection>
    ensures reply { (f : Found) (user : List ℕ) → Settles (λ r. answer (plain_response r)) result
        (spec.perform (plain_scene scene.entry) f user (plain_request request.now)
        ops.ShowCollection) }
    ensures phrase { IfOk result HasPhrase }
{
    let row = named_row(&scene.dims.rows, id_in(request.path.as_str()))?;
    Ok(shown(collection_body(alloc, row)?))
}

#[tactic(auto, using(crate::proofs::NamedLemmas::job_whole))]
pub(crate) fn job_reply(
    alloc: Global,
    request: &Request,
    user: &Text,
    scene: Scene,
) -> Result<Response, Rejection>
    requires { IsBook (plain_book scene.book.now) }
    ensures reply { (f : Found) → Settles (λ r. answer (plain_response r)) result
        (spec.perform (plain_scene scene.entry) f user.now (plain_request request.now)
        ops.ShowJob) }
    ensures phrase { IfOk result HasPhrase }
{
    let job = named_job(scene.book, user, id_in(request.path.as_str()))?;
    Ok(shown(job_body(alloc, job)?))
}

#[tactic(auto, using(crate::proofs::CommandLemmas::logs_shown, crate::proofs::CommandLemmas::logs_refused))]
pub(crate) fn logs_reply(
    alloc: Global,
    request: &Request,
    user: &Text,
    scene: Scene,
) -> Result<Response, Rejection>
    ensures reply { (f : Found) → Settles (λ r. answer (plain_response r)) result
        (spec.perform (plain_scene scene.entry) f user.now (plain_request request.now)
        ops.ShowLogs) }
    ensures phrase { IfOk result HasPhrase }
{
    let asked = logs_asked(alloc, request.query.as_str())?;
    let job = named_job(scene.book, user, id_in(request.path.as_str()))?;
    Ok(shown(logs_body(alloc, &job.logs, asked.0, asked.1)?))
}

pub(crate) fn process_reply(
    alloc: Global,
    request: &Request,
    user: &Text,
    scene: Scene,
) -> Result<Response, Rejection>
    ensures reply { (f : Found) → Settles (λ r. answer (plain_response r)) result
        (spec.perform (plain_scene scene.entry) f user.now (plain_request request.now)
        ops.ShowStored) }
    ensures phrase { IfOk result HasPhrase }
{
    let owned = named_process(scene.book, user, id_in(request.path.as_str()))?;
    Ok(shown(bytes_of(alloc, &owned.process.text)?))
}

fn bytes_of(alloc: Global, text: &Text) -> Result<Vec<u8>, OutOfMemory>
    ensures { IfOk result (λ bytes. bytes.items ≡ text.now) }
{
    Ok(Vec::from_slice(alloc, text.as_str().as_bytes())?)
}
