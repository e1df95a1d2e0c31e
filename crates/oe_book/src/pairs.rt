// What no two jobs and no two stored processes of a book have in common.
ghost use Rattle.std.specs.Prelude.{◌≡◌, ◌==◌, ◌↔◌, ◌&&◌, IsTrue, map};
ghost use Rattle.std.specs.List.{AllByRecursion, list_any};
ghost use Rattle.oe_dims.specs.Names.{same_name};
ghost use Rattle.oe_graph.specs.Parameters.{are_distinct};
ghost use Rattle.oe_graph.specs.Plain.{plain_stored};
ghost use Rattle.oe_jobs.specs.Changes.{is_owned};
ghost use Rattle.oe_jobs.specs.Machine.{is_busy, is_running};
ghost use Rattle.oe_jobs.specs.Plain.{plain_job, plain_owned};
ghost use Rattle.oe_jobs.specs.Valid.{AllApart, AreApart, OwnedDiffer, stored_ids};

use oe_dims::same_name;
use oe_graph::StoredProcess;
use oe_jobs::{Job, Owned};

/// Whether at most one job runs, and no two that are queued or running have one turn.
pub(crate) fn are_all_apart(jobs: &[Job]) -> bool
    ensures { IsTrue result ↔ AllApart (map plain_job jobs.now) }
{
    let mut rest = jobs;
    while let Some((job, others)) = rest.split_first() {
        if !is_apart_from(job, others) {
            return false;
        }
        rest = others;
    }
    true
}

fn is_apart_from(job: &Job, others: &[Job]) -> bool
    ensures { IsTrue result
        ↔ AllByRecursion (AreApart (plain_job job.now)) (map plain_job others.now) }
{
    for other in others.iter() {
        if !are_apart(job, other) {
            return false;
        }
    }
    true
}

fn are_apart(job: &Job, other: &Job) -> bool
    ensures { IsTrue result ↔ AreApart (plain_job job.now) (plain_job other.now) }
{
    if both_run(job, other) {
        return false;
    }
    !share_turn(job, other)
}

fn both_run(job: &Job, other: &Job) -> bool
    ensures { result ≡ (is_running job.now.status && is_running other.now.status) }
{
    job.status.is_running() && other.status.is_running()
}

/// Whether both are queued or running and have one turn.
fn share_turn(job: &Job, other: &Job) -> bool
    ensures { result ≡ (is_busy job.now.status && is_busy other.now.status
        && (job.now.turn == other.now.turn)) }
{
    job.status.is_busy() && other.status.is_busy() && job.turn == other.turn
}

/// Whether no two stored processes of one user have one id.
pub(crate) fn all_differ(processes: &[Owned]) -> bool
    ensures { IsTrue result ↔ OwnedDiffer (map plain_owned processes.now) }
{
    let mut rest = processes;
    while let Some((owned, others)) = rest.split_first() {
        if is_owned_again(owned, others) {
            return false;
        }
        rest = others;
    }
    true
}

fn is_owned_again(owned: &Owned, others: &[Owned]) -> bool
    ensures { result ≡ list_any
        (λ o. is_owned owned.now.user owned.now.process.id (plain_owned o)) others.now }
{
    others.iter().any(|other| is_of(other, owned))
}

/// The two are of one user and have one id.
fn is_of(other: &Owned, owned: &Owned) -> bool
    ensures { result ≡ is_owned owned.now.user owned.now.process.id (plain_owned other.now) }
{
    same_name(&other.user, &owned.user) && same_name(&other.process.id, &owned.process.id)
}

/// Whether no two stored processes have one id.
pub(crate) fn have_distinct_ids(stored: &[StoredProcess]) -> bool
    ensures { result ≡ are_distinct (stored_ids (map plain_stored stored.now)) }
{
    let mut rest = stored;
    while let Some((process, others)) = rest.split_first() {
        if has_id(others, process) {
            return false;
        }
        rest = others;
    }
    true
}

fn has_id(others: &[StoredProcess], process: &StoredProcess) -> bool
    ensures { result ≡ list_any (λ p. same_name process.now.id p.id) others.now }
{
    others.iter().any(|other| same_name(&process.id, &other.id))
}
