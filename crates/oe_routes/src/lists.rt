// The lists: whole, or the page that the query asks for.
ghost use Rattle.std.specs.Prelude.{◌≡◌, Bool, IfOk, List, ℕ, false};
ghost use Rattle.serde_json.specs.Data.{Data};
ghost use Rattle.serde_json.specs.View.{view};
ghost use Rattle.serde_json.specs.Written.{has_float};
ghost use Rattle.oe_http.specs.Plain.{plain_request};
ghost use Rattle.oe_jobs.specs.Plain.{PlainBook};
ghost use Rattle.oe_routes.specs.Actions.{MayBeDone, plain_action};
ghost use Rattle.oe_routes.specs.Answers as spec;
ghost use Rattle.oe_routes.specs.Performs.{Performs};
ghost use Rattle.oe_routes.specs.Rejections.{Settles};
ghost use Rattle.oe_routes.specs.Scenes.{PlainScene, plain_scene};
ghost use Rattle.oe_routes.specs.declared.table.Operation.TheVariants as ops;

use crate::action::{Action, Scene};
use crate::refusal::Rejection;
use crate::shown::shown;
use oe_dims::Text;
use oe_http::Request;
use oe_memory::OutOfMemory;
use oe_pages::page;
use oe_replies::{collections_list, jobs_list, processes_list, stored_list};
use serde_json::Value;
use std::alloc::Global;

/// The mounted collections.
pub(crate) fn list_collections(
    alloc: Global,
    request: &Request,
    scene: Scene,
) -> Result<Action, Rejection>
    ensures answer { (user : List ℕ) → Performs (plain_scene scene.entry) user
        (plain_request request.now) ops.ListCollections result }
    ensures valid { (s : PlainScene) (asks : Bool) → IfOk result (MayBeDone s asks) }
{
    let list = collections_list(alloc, scene.dims)?;
    listed(alloc, request, scene, list)
}

/// The processes of the catalogue.
pub(crate) fn list_processes(
    alloc: Global,
    request: &Request,
    scene: Scene,
) -> Result<Action, Rejection>
    ensures answer { (user : List ℕ) → Performs (plain_scene scene.entry) user
        (plain_request request.now) ops.ListProcesses result }
    ensures valid { (s : PlainScene) (asks : Bool) → IfOk result (MayBeDone s asks) }
{
    let list = processes_list(alloc)?;
    listed(alloc, request, scene, list)
}

/// The jobs of a user.
pub(crate) fn list_jobs(
    alloc: Global,
    request: &Request,
    user: &Text,
    scene: Scene,
) -> Result<Action, Rejection>
    ensures answer { Performs (plain_scene scene.entry) user.now (plain_request request.now)
        ops.ListJobs result }
    ensures valid { (s : PlainScene) (asks : Bool) → IfOk result (MayBeDone s asks) }
{
    let list = jobs_list(alloc, scene.book, user.as_str())?;
    listed(alloc, request, scene, list)
}

/// The processes that a user has stored.
pub(crate) fn list_stored(
    alloc: Global,
    request: &Request,
    user: &Text,
    scene: Scene,
) -> Result<Action, Rejection>
    ensures answer { Performs (plain_scene scene.entry) user.now (plain_request request.now)
        ops.ListStored result }
    ensures valid { (s : PlainScene) (asks : Bool) → IfOk result (MayBeDone s asks) }
{
    let list = stored_list(alloc, scene.book, user.as_str())?;
    listed(alloc, request, scene, list)
}

/// Answers with what the query asks for of the list that a body has.
///
/// Refuses: `QueryInvalid` where the query is not of its form; out of memory.
#[tactic(auto, using(crate::proofs::QueryLemmas::listed_refused, crate::proofs::QueryLemmas::listed_as))]
fn listed(alloc: Global, request: &Request, scene: Scene, list: Value) -> Result<Action, Rejection>
    requires { has_float (view list) ≡ false }
    ensures answer { (book : PlainBook) → Settles (plain_action book) result
        (spec.listed (plain_scene scene.entry) (plain_request request.now) (view list)) }
    ensures valid { (s : PlainScene) (asks : Bool) → IfOk result (MayBeDone s asks) }
{
    let base = scene.site.base.as_str();
    let path = request.path.as_str();
    let text = page(alloc, base, path, request.query.as_str(), list)?;
    Ok(Action::Answer(shown(text)))
}
