// Jobs that stand in a book from the start.
use crate::commands::PROCESS;
use oe_dims::Text;
use oe_jobs::{Asset, Job, Level, LogEntry, Status};
use oe_lines::{Fault, Line};
use std::alloc::Global;

/// Adds the job of an id, a user, a status, a level and so many assets, created at 10 and changed at 20, with the turn 3
/// and an entry `old` in its logs.
pub(crate) fn add_job(line: &mut Line, jobs: &mut Vec<Job>) -> Result<(), Fault> {
    let mut job = job_of(line)?;
    add_old(line.alloc(), &mut job.logs)?;
    add_assets(line.alloc(), line.number(), &mut job.assets)?;
    jobs.push(job)?;
    Ok(())
}

/// A job without logs and assets, of the words `ID USER STATUS LEVEL`.
fn job_of(line: &mut Line) -> Result<Job, Fault> {
    let id = Text::of(line.alloc(), line.word())?;
    let user = Text::of(line.alloc(), line.word())?;
    let process = Text::of(line.alloc(), PROCESS)?;
    let status = status_of(line);
    let level = level_of(line);
    Ok(plain_job(line.alloc(), id, user, process, status, level))
}

fn plain_job(
    alloc: Global,
    id: Text,
    user: Text,
    process: Text,
    status: Status,
    level: Level,
) -> Job {
    Job {
        id,
        user,
        title: None,
        description: None,
        process,
        status,
        level,
        created: 10,
        updated: 20,
        turn: 3,
        ran: None,
        logs: Vec::new(alloc),
        assets: Vec::new(alloc),
    }
}

fn add_old(alloc: Global, logs: &mut Vec<LogEntry>) -> Result<(), Fault> {
    logs.push(LogEntry {
        level: Level::Info,
        code: None,
        message: Text::of(alloc, "old")?,
    })?;
    Ok(())
}

fn add_assets(alloc: Global, count: u64, assets: &mut Vec<Asset>) -> Result<(), Fault> {
    for _index in 0..count {
        assets.push(asset_of(alloc, "a.json")?)?;
    }
    Ok(())
}

pub(crate) fn asset_of(alloc: Global, name: &str) -> Result<Asset, Fault> {
    let name = Text::of(alloc, name)?;
    Ok(Asset {
        name,
        text: Text::of(alloc, "{}")?,
    })
}

fn status_of(line: &mut Line) -> Status {
    match Status::of(line.word()) {
        Some(status) => status,
        None => {
            line.note(Fault::Line);
            Status::Created
        }
    }
}

pub(crate) fn level_of(line: &mut Line) -> Level {
    match Level::of(line.word()) {
        Some(level) => level,
        None => {
            line.note(Fault::Line);
            Level::Info
        }
    }
}
