// Whether jobs may stand in a valid book.
ghost use Rattle.std.specs.Prelude.{◌≡◌, ◌≤◌, ◌<◌, ◌↔◌, IfOk, IfSome, IsSome, IsTrue, true, is_some, map};
ghost use Rattle.std.specs.List.{AllByRecursion};
ghost use Rattle.std.specs.Option.{option_map};
ghost use Rattle.oe_jobs.specs.Machine.{is_busy};
ghost use Rattle.oe_jobs.specs.Plain.{plain_job, plain_ran};
ghost use Rattle.oe_jobs.specs.declared.level.Level.TheVariants as AnyLevel;
ghost use Rattle.oe_jobs.specs.Valid.{AreWords, EndsInError, IsAsset, IsJob, IsRan, LogsFit};
ghost use Rattle.oe_book.specs.Jobs.{HasFitting, HasProcesses, HasState, HasTexts, HasTurn};

use crate::process::is_process_text;
use crate::stored::is_ran;
use oe_dims::{Text, is_instant};
use oe_jobs::{Asset, Job, Level, LogEntry, Ran, Status};
use oe_memory::OutOfMemory;
use std::alloc::Global;

/// Most bytes of a title or a description.
const MOST_WORDS: usize = 4096;

/// Most bytes of an asset.
const MOST_ASSET: usize = 1048576;

/// Whether each job may stand in a valid book whose next number is this.
pub(crate) fn are_jobs(alloc: Global, jobs: &[Job], next: u64) -> Result<bool, OutOfMemory>
    ensures { IfOk result
        (λ yes. IsTrue yes ↔ AllByRecursion (IsJob next) (map plain_job jobs.now)) }
{
    for job in jobs.iter() {
        if !is_job(alloc, job, next)? {
            return Ok(false);
        }
    }
    Ok(true)
}

fn is_job(alloc: Global, job: &Job, next: u64) -> Result<bool, OutOfMemory>
    ensures { IfOk result (λ yes. IsTrue yes ↔ IsJob next (plain_job job.now)) }
{
    if !has_state(job, next) {
        return Ok(false);
    }
    has_processes(alloc, job)
}

/// What is told of a job without reading its processes.
fn has_state(job: &Job, next: u64) -> bool
    ensures { IsTrue result ↔ HasState next (plain_job job.now) }
{
    has_texts(job) && has_turn(job, next) && has_fitting(job)
}

/// What is told of a job by reading its processes.
fn has_processes(alloc: Global, job: &Job) -> Result<bool, OutOfMemory>
    ensures { IfOk result (λ yes. IsTrue yes ↔ HasProcesses (plain_job job.now)) }
{
    Ok(is_process_text(alloc, &job.process)? && is_ran_or_none(alloc, &job.ran)?)
}

/// Whether title and description are not too long, and the moments are instants.
fn has_texts(job: &Job) -> bool
    ensures { IsTrue result ↔ HasTexts (plain_job job.now) }
{
    are_words(&job.title)
        && are_words(&job.description)
        && is_instant(job.created)
        && is_instant(job.updated)
}

fn are_words(text: &Option<Text>) -> bool
    ensures { IsTrue result ↔ AreWords text.now }
{
    match text {
        Some(words) => words.as_str().len() <= MOST_WORDS,
        None => true,
    }
}

/// Whether the job, where it is queued or runs, has what it runs and a turn below the next number.
fn has_turn(job: &Job, next: u64) -> bool
    ensures { IsTrue result ↔ HasTurn next (plain_job job.now) }
{
    if !job.status.is_busy() {
        return true;
    }
    job.ran.is_some() && job.turn < next
}

/// Whether no asset is too long, and the logs end in an error where the job failed.
fn has_fitting(job: &Job) -> bool
    ensures { IsTrue result ↔ HasFitting (plain_job job.now) }
{
    are_assets(&job.assets) && fits_logs(job.status, &job.logs)
}

fn are_assets(assets: &[Asset]) -> bool
    ensures { IsTrue result ↔ AllByRecursion IsAsset assets.now }
{
    for asset in assets.iter() {
        if !is_asset(asset) {
            return false;
        }
    }
    true
}

fn is_asset(asset: &Asset) -> bool
    ensures { IsTrue result ↔ IsAsset asset.now }
{
    asset.text.as_str().len() <= MOST_ASSET
}

fn fits_logs(status: Status, logs: &[LogEntry]) -> bool
    ensures { IsTrue result ↔ LogsFit status logs.now }
{
    match status {
        Status::Error => ends_in_error(logs),
        Status::Created | Status::Queued | Status::Running | Status::Canceled | Status::Finished =>
            true,
    }
}

fn ends_in_error(logs: &[LogEntry]) -> bool
    ensures { IsTrue result ↔ EndsInError logs.now }
{
    match logs.split_last() {
        Some((last, _)) => is_coded_error(last),
        None => false,
    }
}

/// Whether an entry is at level error and has a code.
fn is_coded_error(entry: &LogEntry) -> bool
    ensures { IsTrue result ↔ (entry.now.level ≡ AnyLevel.Error) × IsSome entry.now.code }
{
    match entry.level {
        Level::Error => entry.code.is_some(),
        Level::Warning | Level::Info | Level::Debug => false,
    }
}

fn is_ran_or_none(alloc: Global, ran: &Option<Ran>) -> Result<bool, OutOfMemory>
    ensures { IfOk result (λ yes. IsTrue yes ↔ IfSome (option_map plain_ran ran.now) IsRan) }
{
    match ran {
        Some(ran) => is_ran(alloc, ran),
        None => Ok(true),
    }
}
