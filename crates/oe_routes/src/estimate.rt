// The assets of a job, each with the graph whose result it is.
ghost use Rattle.std.specs.Prelude.{◌≡◌, ◌<◌, Bool, IfOk, map};
ghost use Rattle.oe_book.specs.Assets.{id_at};
ghost use Rattle.oe_dims.specs.Plain.{plain_rows};
ghost use Rattle.oe_graph.specs.Plain.{plain_graph};
ghost use Rattle.oe_graph.specs.Printed.{node_count};
ghost use Rattle.oe_graph.specs.Valid.{IsValidGraph};
ghost use Rattle.oe_http.specs.Plain.{plain_request};
ghost use Rattle.oe_jobs.specs.Plain.{plain_book};
ghost use Rattle.oe_jobs.specs.Valid.{IsBook, IsProcessText};
ghost use Rattle.oe_jobs.specs.Verdicts.{stored_of};
ghost use Rattle.oe_judge.specs.Judged.{checked_over, having_result};
ghost use Rattle.oe_routes.specs.Actions.{MayBeDone, plain_action};
ghost use Rattle.oe_routes.specs.Answers as spec;
ghost use Rattle.oe_routes.specs.Found.{Found, IsJudged};
ghost use Rattle.oe_routes.specs.Performs.{AreWithin, IsSound, Performs};
ghost use Rattle.oe_routes.specs.Rejections.{Settles};
ghost use Rattle.oe_routes.specs.Scenes.{PlainScene, plain_scene};
ghost use Rattle.oe_routes.specs.declared.table.Operation.TheVariants as ops;

use crate::action::{Action, EstimateGraph, Scene};
use crate::judged::{few_assets, judged, read_process};
use crate::named::named_job;
use crate::path::id_in;
use crate::refusal::Rejection;
use oe_book::{asset_ids, asset_name, assets_of, stored_is_valid};
use oe_check::Checked;
use oe_dims::Text;
use oe_graph::{Graph, Refusal as GraphRefusal};
use oe_http::Request;
use oe_judge::{judge, with_result};
use oe_memory::OutOfMemory;
use std::alloc::Global;

/// The assets of the job that a request names, whatever its status is, with the user's stored processes as they are now.
///
/// Refuses: `JobNotFound`; the least fault of the job's graph; `AssetLimit` where it has over 4 assets; out of memory.
#[tactic(auto, using(crate::proofs::NamedLemmas::job_process))]
pub(crate) fn estimate_action(
    alloc: Global,
    request: &Request,
    user: &Text,
    scene: Scene,
) -> Result<Action, Rejection>
    requires { IsBook (plain_book scene.book.now) }
    ensures answer { Performs (plain_scene scene.entry) user.now (plain_request request.now)
        ops.EstimateJob result }
    ensures valid { (s : PlainScene) (asks : Bool) → IfOk result (MayBeDone s asks) }
{
    let job = named_job(scene.book, user, id_in(request.path.as_str()))?;
    estimated(alloc, &job.process, user, scene)
}

/// The assets of the text of a process.
fn estimated(alloc: Global, process: &Text, user: &Text, scene: Scene) -> Result<Action, Rejection>
    requires book { IsBook (plain_book scene.book.now) }
    requires process { IsProcessText process.now }
    ensures answer { (f : Found) → IsJudged (plain_rows scene.entry.dims.now) f
        → Settles (plain_action (plain_book scene.entry.book.now)) result
        (spec.estimated (plain_scene scene.entry) f user.now (spec.graph_of_text process.now)) }
    ensures valid { (s : PlainScene) (asks : Bool) → IfOk result (MayBeDone s asks) }
{
    let graph = read_process(alloc, process)?;
    judged(alloc, &graph, user, scene)?;
    few_assets(alloc, &graph)?;
    let nodes = assets_of(alloc, &graph)?;
    let ids = asset_ids(alloc, &graph)?;
    let graphs = asset_graphs(alloc, &nodes, &ids, process, user, scene)?;
    Ok(Action::Estimate(graphs))
}

/// The assets of these nodes, with these ids, of a process that has no fault.
fn asset_graphs(
    alloc: Global,
    nodes: &[u32],
    ids: &[Text],
    process: &Text,
    user: &Text,
    scene: Scene,
) -> Result<Vec<EstimateGraph>, OutOfMemory>
    requires book { IsBook (plain_book scene.book.now) }
    requires process { IsProcessText process.now }
    requires sound { IsSound (plain_scene scene) user.now (spec.graph_of_text process.now) }
    requires within { AreWithin (spec.graph_of_text process.now) nodes.now }
    requires named { map (id_at (spec.graph_of_text process.now).nodes) nodes.now ≡ ids.now }
    ensures { IfOk result (λ graphs. graphs.items ≡ map (spec.estimate_graph
        (plain_scene scene.entry) user.now (spec.graph_of_text process.now)) nodes.now) }
{
    let mut graphs = Vec::with_capacity(alloc, nodes.len())?;
    for index in 0..nodes.len() {
        let name = asset_name(alloc, &ids[index])?;
        let checked = check_asset(alloc, nodes[index], process, user, scene)?;
        graphs.push(EstimateGraph { name, checked })?;
    }
    Ok(graphs)
}

/// The graph of a process that has no fault, with this node as its result.
#[tactic(auto, using(crate::proofs::EstimateLemmas::still_sound))]
fn check_asset(
    alloc: Global,
    node: u32,
    process: &Text,
    user: &Text,
    scene: Scene,
) -> Result<Checked, OutOfMemory>
    requires book { IsBook (plain_book scene.book.now) }
    requires process { IsProcessText process.now }
    requires sound { IsSound (plain_scene scene) user.now (spec.graph_of_text process.now) }
    requires within { node < node_count (spec.graph_of_text process.now).nodes }
    ensures { IfOk result (λ checked. checked ≡ checked_over (plain_rows scene.entry.dims.now)
        (stored_of user.now (plain_book scene.entry.book.now))
        (having_result node (spec.graph_of_text process.now))) }
{
    let graph = with_result(read_process(alloc, process)?, node);
    check_sound(alloc, &graph, user, scene)
}

/// A graph that has no fault, with the user's stored processes.
fn check_sound(
    alloc: Global,
    graph: &Graph,
    user: &Text,
    scene: Scene,
) -> Result<Checked, OutOfMemory>
    requires book { IsBook (plain_book scene.book.now) }
    requires graph { IsValidGraph (plain_graph graph.now) }
    requires sound { IsSound (plain_scene scene) user.now (plain_graph graph.now) }
    ensures { IfOk result (λ checked. checked ≡ checked_over (plain_rows scene.entry.dims.now)
        (stored_of user.now (plain_book scene.entry.book.now)) (plain_graph graph.now)) }
{
    stored_is_valid();
    let stored = scene.book.stored_of(alloc, user)?;
    match judge(alloc, graph, &stored, scene.dims) {
        Ok(checked) => Ok(checked),
        Err(GraphRefusal::OutOfMemory) => Err(OutOfMemory),
        Err(GraphRefusal::Fault(_)) => unreachable!(),
    }
}
