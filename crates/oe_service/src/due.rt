// What a tick has to do, one function for each case.
ghost use Rattle.std.specs.Prelude.{◌≡◌, ◌<◌, ◌≤◌, ◌↔◌, ℕ, List, Option, IfErr, IfOk, IfSome, IsSomeAnd, IsTrue, None, OnOk, Some, is_some, length, true};
ghost use Rattle.oe_dims.specs.Instant.{IsInstant};
ghost use Rattle.oe_engine.specs.Runs.{HasRunRecords, chunk_total};
ghost use Rattle.oe_jobs.specs.Changes.{changed};
ghost use Rattle.oe_jobs.specs.Events.{IsOfRun, MayCome, event_of, moved_book, running_job};
ghost use Rattle.oe_jobs.specs.Machine as machine;
ghost use Rattle.oe_jobs.specs.Plain.{plain_book, plain_change, plain_job};
ghost use Rattle.oe_jobs.specs.Valid.{IsBook, IsEvent};
ghost use Rattle.oe_service.specs.Calls.{IsKept};
ghost use Rattle.oe_service.specs.Causes.{IsPlannable, PlanRefused, outside_of};
ghost use Rattle.oe_service.specs.GoesOn.{GoesOn, HasRan, IsRunOf, IsService, MissesAsset};
ghost use Rattle.oe_service.specs.Refusals.{code_of};
ghost use Rattle.oe_service.specs.Runs as runs;
ghost use Rattle.oe_service.specs.States.{EndsRun, count_assets, moved_running, with_text};
ghost use Rattle.oe_service.specs.Steps.{Steps, TicksOver, TicksOverKeeper, TicksOverRows, TicksOverSpool};
ghost use Rattle.oe_sources.specs.CatalogueDims.{dims_of};
ghost use Rattle.oe_sources.specs.CatalogueRows.{rows_of};

use crate::answer::{Ticked, ticked_by};
use crate::asset::{begin_asset, ids_of_job};
use crate::refusal::RunRefusal;
use crate::service::{Service, install};
use crate::text::text_of_run;
use oe_book::{asset_name, idle_without_busy};
use oe_dims::Text;
use oe_engine::Run;
use oe_jobs::{Asset, Book, Change, Job, JobEvent, Keeper, step};
use oe_memory::OutOfMemory;
use oe_outside::{Gate, Store};
use oe_sources::Catalogue;
use std::alloc::Global;
use std::thread::Threads;

/// Starts the queued job of least turn, where no job runs.
pub(crate) fn start<K: Keeper>(
    alloc: Global,
    service: &mut Service,
    keeper: &mut K,
    now: i64,
) -> Ticked
    requires moment { IsInstant now }
    requires service { IsService service.old }
    requires free { running_job (plain_book service.old.book) ≡ None }
    requires kept { IsKept (K.kept keeper.old) (plain_book service.old.book) }
    ensures { TicksOverKeeper K.kept K.faults K.has_failed now service.old service.new
        keeper.old keeper.new result }
{
    idle_without_busy();
    let Some(job) = service.book.next_queued() else {
        return Ticked::Idle;
    };
    let Ok((ids, change)) = start_job(alloc, &service.book, job, now) else {
        return Ticked::OutOfMemory;
    };
    match install(&mut service.book, change, keeper) {
        Ok(()) => {
            service.ids = ids;
            Ticked::Moved
        }
        Err(fail) => ticked_by(fail),
    }
}

/// The ids of the nodes that make the assets of a job, and what it changes that the job starts.
fn start_job(
    alloc: Global,
    book: &Book,
    job: &Job,
    now: i64,
) -> Result<(Vec<Text>, Change), OutOfMemory>
    requires ran { HasRan (plain_job job.now) }
    requires comes { MayCome (plain_book book.now) job.now.id JobEvent.Start now }
    ensures ids { IfOk result (λ r. r.0.items ≡ runs.ids_of_ran (runs.ran_of (plain_job job.now))) }
    ensures line { IfOk result (λ r. changed (plain_book book.now) (plain_change r.1)
        ≡ moved_book (plain_book book.now) job.now.id (machine.start now)) }
    ensures valid { IfOk result (λ r. IsBook (plain_book book.now) → IsInstant now
        → IsBook (changed (plain_book book.now) (plain_change r.1))) }
{
    let ids = ids_of_job(alloc, job)?;
    Ok((ids, step(alloc, book, &job.id, JobEvent::Start, now)?))
}

/// What it changes that an event comes to the job that runs. Refuses: out of memory.
fn move_running(
    alloc: Global,
    book: &Book,
    event: JobEvent,
    now: i64,
) -> Result<Change, OutOfMemory>
    requires moment { IsInstant now }
    requires valid { IsBook (plain_book book.now) }
    requires runs { is_some (running_job (plain_book book.now)) ≡ true }
    requires of_run { IsOfRun event }
    requires event { IsEvent event }
    ensures line { IfOk result (λ c. changed (plain_book book.now) (plain_change c)
        ≡ moved_running (plain_book book.now) (event_of event now)) }
    ensures valid { IfOk result (λ c. IsBook (changed (plain_book book.now) (plain_change c))) }
{
    match book.running() {
        Some(job) => step(alloc, book, &job.id, event, now),
        None => unreachable!(),
    }
}

/// Whether the running job misses an asset.
pub(crate) fn misses_asset(service: &Service) -> bool
    requires service { IsService service.now }
    requires runs { is_some (running_job (plain_book service.now.book)) ≡ true }
    ensures { IsTrue result ↔ IfSome (running_job (plain_book service.now.book)) MissesAsset }
{
    match service.book.running() {
        Some(job) => job.assets.len() < service.ids.len(),
        None => unreachable!(),
    }
}

/// Plans the next asset of the running job.
pub(crate) fn plan<R: Threads + Sync, K: Keeper>(
    rt: &R,
    alloc: Global,
    service: &mut Service,
    catalogue: &Catalogue,
    keeper: &mut K,
    now: i64,
) -> Ticked
    requires moment { IsInstant now }
    requires service { IsService service.old }
    requires misses { IsSomeAnd (running_job (plain_book service.old.book)) MissesAsset }
    requires no_run { service.old.run ≡ None }
    requires kept { IsKept (K.kept keeper.old) (plain_book service.old.book) }
    ensures { TicksOverRows K.kept K.faults K.has_failed now service.old service.new
        (rows_of seen catalogue.now) keeper.old keeper.new result }
{
    match begin_next(rt, alloc, service, catalogue) {
        Ok(run) => {
            service.run = Some(run);
            Ticked::Moved
        }
        Err(refusal) => fail(alloc, service, refusal, keeper, now),
    }
}

fn begin_next<R: Threads + Sync>(
    rt: &R,
    alloc: Global,
    service: &Service,
    catalogue: &Catalogue,
) -> Result<Run, RunRefusal>
    requires service { IsService service.now }
    requires misses { IsSomeAnd (running_job (plain_book service.now.book)) MissesAsset }
    ensures run { IfOk result (λ r. IfSome (running_job (plain_book service.now.book))
        (λ job. IsRunOf service.now.size service.now.workers job r)) }
    ensures none_done { IfOk result (λ r. r.done ≡ 0) }
    ensures going { IfOk result (λ r. (store : Option (List ℕ))
        → GoesOn (Some r) (rows_of seen catalogue.now) store) }
    ensures plannable { OnOk result (IfSome (running_job (plain_book service.now.book))
        (λ job. IsPlannable (dims_of (rows_of seen catalogue.now)) (runs.ran_of job)
        (count_assets job) service.now.size service.now.workers)) }
    ensures refused { IfErr result (λ reason. IfSome (running_job (plain_book service.now.book))
        (λ job. PlanRefused (dims_of (rows_of seen catalogue.now)) (runs.ran_of job)
        (count_assets job) service.now.size service.now.workers reason)) }
{
    match service.book.running() {
        Some(job) => begin_asset(rt, alloc, job, (service.size, service.workers), catalogue),
        None => unreachable!(),
    }
}

/// Does a round of the run.
pub(crate) fn round<R: Threads + Sync, P: Store, K: Keeper, G: Gate>(
    rt: &R,
    alloc: Global,
    service: &mut Service,
    catalogue: &mut Catalogue,
    spool: &mut P,
    keeper: &mut K,
    now: i64,
    gate: &G,
) -> Ticked
    requires moment { IsInstant now }
    requires service { IsService service.old }
    requires left { IsSomeAnd service.old.run (λ r. r.done < chunk_total r.plan) }
    requires going { GoesOn service.old.run (rows_of seen catalogue.old) (P.bytes spool.old) }
    requires kept { IsKept (K.kept keeper.old) (plain_book service.old.book) }
    ensures { TicksOver (outside_of P.bytes P.faults K.kept K.faults) K.has_failed now
        service.old service.new (rows_of seen catalogue.old) spool.old keeper.old
        (rows_of seen catalogue.new) spool.new keeper.new result }
{
    let Some(run) = &mut service.run else {
        unreachable!()
    };
    match run.round(rt, catalogue, spool, gate) {
        Ok(_) => Ticked::Moved,
        Err(refused) => fail(alloc, service, RunRefusal::of_round(refused), keeper, now),
    }
}

/// Stores the text of the run as an asset of the running job.
pub(crate) fn store<P: Store, K: Keeper>(
    alloc: Global,
    service: &mut Service,
    spool: &mut P,
    keeper: &mut K,
    now: i64,
) -> Ticked
    requires moment { IsInstant now }
    requires service { IsService service.old }
    requires complete { IsSomeAnd service.old.run (λ r. r.done ≡ chunk_total r.plan) }
    requires records { IfSome service.old.run (λ r. HasRunRecords r (P.bytes spool.old)) }
    requires kept { IsKept (K.kept keeper.old) (plain_book service.old.book) }
    ensures { TicksOverSpool P.bytes (outside_of P.bytes P.faults K.kept K.faults) K.has_failed now
        service.old service.new spool.old keeper.old spool.new keeper.new result }
{
    let Some(run) = &mut service.run else {
        unreachable!()
    };
    match text_of_run(alloc, run, spool) {
        Ok(text) => store_text(alloc, service, text, keeper, now),
        Err(refusal) => fail(alloc, service, refusal, keeper, now),
    }
}

/// Adds a text to the assets of the running job. Its run ends.
fn store_text<K: Keeper>(
    alloc: Global,
    service: &mut Service,
    text: Text,
    keeper: &mut K,
    now: i64,
) -> Ticked
    requires moment { IsInstant now }
    requires service { IsService service.old }
    requires misses { IsSomeAnd (running_job (plain_book service.old.book)) MissesAsset }
    requires short { length text ≤ 1048576 }
    requires kept { IsKept (K.kept keeper.old) (plain_book service.old.book) }
    ensures { Steps (with_text service.old.ids.items text now (plain_book service.old.book))
        service.old service.new (K.kept keeper.old) (K.kept keeper.new) (K.faults keeper.old)
        (K.faults keeper.new) (K.has_failed keeper.new) result }
{
    let Ok(change) = add_asset(alloc, service, text, now) else {
        return Ticked::OutOfMemory;
    };
    match install(&mut service.book, change, keeper) {
        Ok(()) => {
            service.run = None;
            Ticked::Moved
        }
        Err(fail) => ticked_by(fail),
    }
}

/// What it changes that the running job has this text as its next asset.
fn add_asset(alloc: Global, service: &Service, text: Text, now: i64) -> Result<Change, OutOfMemory>
    requires moment { IsInstant now }
    requires service { IsService service.now }
    requires misses { IsSomeAnd (running_job (plain_book service.now.book)) MissesAsset }
    requires short { length text ≤ 1048576 }
    ensures line { IfOk result (λ c. changed (plain_book service.now.book) (plain_change c)
        ≡ with_text service.now.ids.items text now (plain_book service.now.book)) }
    ensures valid { IfOk result
        (λ c. IsBook (changed (plain_book service.now.book) (plain_change c))) }
{
    let Some(job) = service.book.running() else {
        unreachable!()
    };
    let name = asset_name(alloc, &service.ids[job.assets.len()])?;
    let event = JobEvent::Asset(Asset { name, text });
    step(alloc, &service.book, &job.id, event, now)
}

/// Finishes the running job.
pub(crate) fn finish<K: Keeper>(
    alloc: Global,
    service: &mut Service,
    keeper: &mut K,
    now: i64,
) -> Ticked
    requires moment { IsInstant now }
    requires service { IsService service.old }
    requires runs { is_some (running_job (plain_book service.old.book)) ≡ true }
    requires kept { IsKept (K.kept keeper.old) (plain_book service.old.book) }
    ensures { Steps (moved_running (plain_book service.old.book) (machine.finish now))
        service.old service.new (K.kept keeper.old) (K.kept keeper.new) (K.faults keeper.old)
        (K.faults keeper.new) (K.has_failed keeper.new) result }
{
    end(alloc, service, JobEvent::Finish, keeper, now)
}

/// The run of the running job is refused.
fn fail<K: Keeper>(
    alloc: Global,
    service: &mut Service,
    refusal: RunRefusal,
    keeper: &mut K,
    now: i64,
) -> Ticked
    requires moment { IsInstant now }
    requires service { IsService service.old }
    requires runs { is_some (running_job (plain_book service.old.book)) ≡ true }
    requires kept { IsKept (K.kept keeper.old) (plain_book service.old.book) }
    ensures { Steps (moved_running (plain_book service.old.book) (machine.fail now (code_of refusal)))
        service.old service.new (K.kept keeper.old) (K.kept keeper.new) (K.faults keeper.old)
        (K.faults keeper.new) (K.has_failed keeper.new) result }
{
    match Text::of(alloc, refusal.as_str()) {
        Ok(code) => end(alloc, service, JobEvent::Fail { code }, keeper, now),
        Err(_) => Ticked::OutOfMemory,
    }
}

/// An event comes to the running job, with which its run ends. Where it was not committed the run stays.
fn end<K: Keeper>(
    alloc: Global,
    service: &mut Service,
    event: JobEvent,
    keeper: &mut K,
    now: i64,
) -> Ticked
    requires moment { IsInstant now }
    requires service { IsService service.old }
    requires runs { is_some (running_job (plain_book service.old.book)) ≡ true }
    requires ends { EndsRun event }
    requires kept { IsKept (K.kept keeper.old) (plain_book service.old.book) }
    ensures { Steps (moved_running (plain_book service.old.book) (event_of event now))
        service.old service.new (K.kept keeper.old) (K.kept keeper.new) (K.faults keeper.old)
        (K.faults keeper.new) (K.has_failed keeper.new) result }
{
    let Ok(change) = move_running(alloc, &service.book, event, now) else {
        return Ticked::OutOfMemory;
    };
    match install(&mut service.book, change, keeper) {
        Ok(()) => {
            service.end();
            Ticked::Moved
        }
        Err(fail) => ticked_by(fail),
    }
}
