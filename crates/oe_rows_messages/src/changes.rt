// Changes of a book, from the words of a step.
use oe_dims::Text;
use oe_graph::{Refusal, StoredProcess, read_stored};
use oe_jobs::{Asset, Change, Job, Level, LogEntry, Owned};
use oe_keeper::read_job;
use oe_lines::{Answers, Fault, Line, push};
use std::alloc::Global;

/// The change of a step. Refuses: words that spell none; out of memory.
pub(crate) fn change_of(line: &mut Line) -> Result<Change, Fault> {
    match line.word() {
        "put" => put_of(line),
        "asset" => asset_for(line),
        "drop" => drop_of(line),
        "store" => store_of(line),
        "forget" => forget_of(line),
        _ => Err(Fault::Line),
    }
}

fn put_of(line: &mut Line) -> Result<Change, Fault> {
    let next = line.number();
    let job = job_of(line)?;
    Ok(Change::PutJob { job, next })
}

/// The job of an id and an entry, with an asset of the length before them but where that is 0.
fn job_of(line: &mut Line) -> Result<Job, Fault> {
    let alloc = line.alloc();
    let assets = assets_of(alloc, line.number())?;
    let id = Text::of(alloc, line.word())?;
    match read_job(alloc, &id, line.rest().as_bytes())? {
        Some(job) => Ok(with_assets(job, assets)),
        None => Err(Fault::Line),
    }
}

fn with_assets(mut job: Job, assets: Vec<Asset>) -> Job {
    job.assets = assets;
    job
}

fn assets_of(alloc: Global, length: usize) -> Result<Vec<Asset>, Fault> {
    let mut assets = Vec::new(alloc);
    if length > 0 {
        let asset = asset_of(alloc, length)?;
        assets.push(asset)?;
    }
    Ok(assets)
}

fn asset_of(alloc: Global, length: usize) -> Result<Asset, Fault> {
    let name = Text::of(alloc, "a.json")?;
    let text = digits_of(alloc, length)?;
    Ok(Asset { name, text })
}

/// So many digits 1.
fn digits_of(alloc: Global, length: usize) -> Result<Text, Fault> {
    let mut digits = Answers::new(alloc);
    for _ in 0..length {
        push("1", &mut digits);
    }
    digits.into_text(alloc)
}

fn asset_for(line: &mut Line) -> Result<Change, Fault> {
    let alloc = line.alloc();
    let job = Text::of(alloc, line.word())?;
    let asset = asset_of(alloc, line.number())?;
    let updated = line.number();
    let log = log_of(alloc, line.rest())?;
    Ok(Change::AddAsset {
        job,
        asset,
        log,
        updated,
    })
}

fn log_of(alloc: Global, message: &str) -> Result<Option<LogEntry>, Fault> {
    if message.is_empty() {
        return Ok(None);
    }
    let message = Text::of(alloc, message)?;
    Ok(Some(LogEntry {
        level: Level::Info,
        code: None,
        message,
    }))
}

fn drop_of(line: &mut Line) -> Result<Change, Fault> {
    let id = Text::of(line.alloc(), line.word())?;
    Ok(Change::DropJob { id })
}

fn store_of(line: &mut Line) -> Result<Change, Fault> {
    let user = Text::of(line.alloc(), line.word())?;
    let id = line.word();
    let process = stored_of(line.alloc(), id, line.rest())?;
    Ok(Change::PutProcess {
        owned: Owned { user, process },
    })
}

fn stored_of(alloc: Global, id: &str, text: &str) -> Result<StoredProcess, Fault> {
    match read_stored(alloc, id, text.as_bytes()) {
        Ok(process) => Ok(process),
        Err(Refusal::Fault(_)) => Err(Fault::Line),
        Err(Refusal::OutOfMemory) => Err(Fault::OutOfMemory),
    }
}

fn forget_of(line: &mut Line) -> Result<Change, Fault> {
    let user = Text::of(line.alloc(), line.word())?;
    let id = Text::of(line.alloc(), line.rest())?;
    Ok(Change::DropProcess { user, id })
}
