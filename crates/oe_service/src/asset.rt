// The assets of a job: their ids, and the run that makes one.
ghost use Rattle.std.specs.Prelude.{◌≡◌, ◌<◌, ℕ, List, Option, IfErr, IfOk, OnOk, length};
ghost use Rattle.oe_engine.specs.Laws.{GivesCollections};
ghost use Rattle.oe_engine.specs.Going.{IsGoing};
ghost use Rattle.oe_graph.specs.Plain.{plain_graph};
ghost use Rattle.oe_graph.specs.Read.{IsFaultless};
ghost use Rattle.oe_graph.specs.Valid.{IsValidGraph};
ghost use Rattle.oe_jobs.specs.Plain.{plain_job, plain_ran};
ghost use Rattle.oe_jobs.specs.Valid.{IsProcessText, IsRan};
ghost use Rattle.oe_plan.specs.Ranges.{IsWithinRanges};
ghost use Rattle.oe_service.specs.Causes.{IsPlannable, JudgeRefused, PlanRefused, Stands};
ghost use Rattle.oe_service.specs.GoesOn.{HasRan, IsRunOf, MissesAsset};
ghost use Rattle.oe_service.specs.Runs as spec;
ghost use Rattle.oe_service.specs.States.{count_assets};
ghost use Rattle.oe_sources.specs.CatalogueDims.{AreDimsOf, dims_of};
ghost use Rattle.oe_sources.specs.CatalogueRows.{rows_of};

use crate::refusal::RunRefusal;
use oe_book::{asset_ids, assets_of, stored_is_valid};
use oe_check::Checked;
use oe_dims::Text;
use oe_engine::{Run, Workspace, collections_are_valid};
use oe_graph::{Graph, Refusal, read_graph};
use oe_jobs::{Job, Ran};
use oe_judge::{judge, with_result};
use oe_memory::OutOfMemory;
use oe_plan::Plan;
use oe_sources::Catalogue;
use oe_window::ChunkSize;
use std::alloc::Global;
use std::thread::Threads;

/// The ids of the nodes that make an asset each of what a job runs. Refuses: out of memory.
pub(crate) fn ids_of_job(alloc: Global, job: &Job) -> Result<Vec<Text>, OutOfMemory>
    requires { HasRan (plain_job job.now) }
    ensures { IfOk result (λ ids. ids.items ≡ spec.ids_of_ran (spec.ran_of (plain_job job.now))) }
{
    asset_ids(alloc, &read_process(alloc, ran_of(job))?)
}

/// What a job runs that is queued or running.
pub(crate) fn ran_of(job: &Job) -> &Ran
    requires { HasRan (plain_job job.now) }
    ensures value { plain_ran result.now ≡ spec.ran_of (plain_job job.now) }
    ensures valid { IsRan (plain_ran result.now) }
{
    match &job.ran {
        Some(ran) => ran,
        None => unreachable!(),
    }
}

/// The graph of what a job runs. No fault of its form stands in it, since it is one of a valid book.
fn read_process(alloc: Global, ran: &Ran) -> Result<Graph, OutOfMemory>
    requires { IsProcessText (plain_ran ran.now).process }
    ensures graph { IfOk result (λ g. plain_graph g ≡ spec.graph_of_ran (plain_ran ran.now)) }
    ensures valid { IfOk result (λ g. IsValidGraph (plain_graph g)) }
{
    match read_graph(alloc, ran.process.as_str().as_bytes()) {
        Ok(graph) => Ok(graph),
        Err(Refusal::OutOfMemory) => Err(OutOfMemory),
        Err(Refusal::Fault(_)) => unreachable!(),
    }
}

/// A run of the asset of an index, before its first round.
///
/// Refuses: by the least fault of its graph, exactly where one stands; `PlanTooLarge` exactly where it would hold more
/// cells than are allowed; out of memory.
pub(crate) fn begin_asset<R: Threads + Sync>(
    rt: &R,
    alloc: Global,
    job: &Job,
    sizes: (ChunkSize, u32),
    catalogue: &Catalogue,
) -> Result<Run, RunRefusal>
    requires ran { HasRan (plain_job job.now) }
    requires missing { MissesAsset (plain_job job.now) }
    requires ranges { IsWithinRanges sizes.0 sizes.1 }
    ensures run { IfOk result (IsRunOf sizes.0 sizes.1 (plain_job job.now)) }
    ensures none_done { IfOk result (λ r. r.done ≡ 0) }
    ensures going { IfOk result (λ r. (store : Option (List ℕ))
        → IsGoing r (rows_of seen catalogue.now) store) }
    ensures plannable { OnOk result (IsPlannable (dims_of (rows_of seen catalogue.now))
        (spec.ran_of (plain_job job.now)) (count_assets (plain_job job.now)) sizes.0 sizes.1) }
    ensures refused { IfErr result (PlanRefused (dims_of (rows_of seen catalogue.now))
        (spec.ran_of (plain_job job.now)) (count_assets (plain_job job.now)) sizes.0 sizes.1) }
{
    let checked = judge_asset(alloc, ran_of(job), job.assets.len(), catalogue)?;
    let plan = Plan::new(alloc, checked, sizes.0, sizes.1)?;
    let workspace = Workspace::new(rt, alloc, &plan)?;
    Ok(Run::start(plan, workspace, 0))
}

/// The graph of the asset of an index, judged over the collections of the catalogue.
fn judge_asset(
    alloc: Global,
    ran: &Ran,
    index: usize,
    catalogue: &Catalogue,
) -> Result<Checked, RunRefusal>
    requires valid { IsRan (plain_ran ran.now) }
    requires within { index < length (spec.ids_of_ran (plain_ran ran.now)) }
    ensures checked { IfOk result (λ c. c
        ≡ spec.asset_graph (dims_of (rows_of seen catalogue.now)) (plain_ran ran.now) index) }
    ensures none { OnOk result (IsFaultless (Stands (dims_of (rows_of seen catalogue.now))
        (plain_ran ran.now) index)) }
    ensures given { OnOk result (GivesCollections (rows_of seen catalogue.now)) }
    ensures found { OnOk result (AreDimsOf (rows_of seen catalogue.now)
        (dims_of (rows_of seen catalogue.now))) }
    ensures refused { IfErr result (JudgeRefused (dims_of (rows_of seen catalogue.now))
        (plain_ran ran.now) index) }
{
    stored_is_valid();
    let graph = graph_of_asset(alloc, ran, index)?;
    let dims = catalogue.dims()?;
    collections_are_valid(catalogue, &dims);
    match judge(alloc, &graph, &ran.stored, &dims) {
        Ok(checked) => Ok(checked),
        Err(Refusal::Fault(fault)) => Err(RunRefusal::Graph(fault.code)),
        Err(Refusal::OutOfMemory) => Err(RunRefusal::OutOfMemory),
    }
}

/// The graph of what a job runs, with the node of the asset of an index as its result. Refuses: out of memory.
fn graph_of_asset(alloc: Global, ran: &Ran, index: usize) -> Result<Graph, OutOfMemory>
    requires process { IsProcessText (plain_ran ran.now).process }
    requires within { index < length (spec.ids_of_ran (plain_ran ran.now)) }
    ensures graph { IfOk result (λ g. plain_graph g ≡ spec.asset_source (plain_ran ran.now) index) }
    ensures valid { IfOk result (λ g. IsValidGraph (plain_graph g)) }
{
    let graph = read_process(alloc, ran)?;
    let nodes = assets_of(alloc, &graph)?;
    Ok(with_result(graph, nodes[index]))
}
