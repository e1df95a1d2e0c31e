// Books in which rules of a valid one are broken, and whether they are valid.
use crate::jobs::asset_of;
use oe_book::is_book;
use oe_dims::Text;
use oe_graph::{Refusal, StoredProcess, read_stored};
use oe_jobs::{Asset, Book, Job, Owned};
use oe_keeper::read_job;
use oe_lines::{Answers, Fault, Line, push};
use std::alloc::Global;
use std::mem;

/// What a text argument that makes a process long stands between.
const BEFORE_LONG: &str = r#"{"process_graph":{"a":{"arguments":{"x":""#;

const AFTER_LONG: &str = r#""},"process_id":"p","result":true}}}"#;

/// Appends whether the book is valid.
pub(crate) fn answer_valid(alloc: Global, book: &Book, answers: &mut Answers) -> Result<(), Fault> {
    let valid = is_book(alloc, book)?;
    push(if valid { "yes\n" } else { "no\n" }, answers);
    Ok(())
}

/// Adds the job of an id and of the entry behind it.
pub(crate) fn add_entry(line: &mut Line, jobs: &mut Vec<Job>) -> Result<(), Fault> {
    let id = Text::of(line.alloc(), line.word())?;
    match read_job(line.alloc(), &id, line.rest().as_bytes())? {
        Some(job) => {
            jobs.push(job)?;
            Ok(())
        }
        None => Err(Fault::Line),
    }
}

/// Adds the stored process of a user and an id that the text behind them is.
pub(crate) fn add_owned(line: &mut Line, processes: &mut Vec<Owned>) -> Result<(), Fault> {
    let user = Text::of(line.alloc(), line.word())?;
    let id = line.word();
    let process = stored_in(line.alloc(), id, line.rest())?;
    processes.push(Owned { user, process })?;
    Ok(())
}

fn stored_in(alloc: Global, id: &str, text: &str) -> Result<StoredProcess, Fault> {
    match read_stored(alloc, id, text.as_bytes()) {
        Ok(process) => Ok(process),
        Err(Refusal::Fault(_)) => Err(Fault::Line),
        Err(Refusal::OutOfMemory) => Err(Fault::OutOfMemory),
    }
}

/// Changes the last job, or a stored process: a word says what, and the rest of the line to what.
pub(crate) fn set(line: &mut Line, book: &mut Book) -> Result<(), Fault> {
    match line.word() {
        "stored" => match book.processes.last_mut() {
            Some(owned) => set_process(line, &mut owned.process),
            None => Err(Fault::Line),
        },
        "ran" => match last_ran(&mut book.jobs) {
            Some(process) => set_process(line, process),
            None => Err(Fault::Line),
        },
        what => match book.jobs.last_mut() {
            Some(job) => set_job(what, line, job),
            None => Err(Fault::Line),
        },
    }
}

/// The last stored process of what the last job runs.
fn last_ran(jobs: &mut Vec<Job>) -> Option<&mut StoredProcess> {
    match jobs.last_mut() {
        Some(job) => match &mut job.ran {
            Some(ran) => ran.stored.last_mut(),
            None => None,
        },
        None => None,
    }
}

/// Sets the id or the text of a stored process, or its graph or parameters to those of a text, or the process to one of
/// so many bytes.
fn set_process(line: &mut Line, process: &mut StoredProcess) -> Result<(), Fault> {
    let alloc = line.alloc();
    match line.word() {
        "id" => process.id = Text::of(alloc, line.rest())?,
        "text" => process.text = Text::of(alloc, line.rest())?,
        "graph" => set_graph(alloc, line.rest(), process)?,
        "parameters" => set_parameters(alloc, line.rest(), process)?,
        "long" => *process = long_stored(alloc, line.number())?,
        _ => return Err(Fault::Line),
    }
    Ok(())
}

fn set_graph(alloc: Global, text: &str, process: &mut StoredProcess) -> Result<(), Fault> {
    let mut read = stored_in(alloc, "x", text)?;
    mem::swap(&mut process.graph, &mut read.graph);
    Ok(())
}

fn set_parameters(alloc: Global, text: &str, process: &mut StoredProcess) -> Result<(), Fault> {
    let mut read = stored_in(alloc, "x", text)?;
    mem::swap(&mut process.parameters, &mut read.parameters);
    Ok(())
}

fn long_stored(alloc: Global, length: usize) -> Result<StoredProcess, Fault> {
    let text = long_process(alloc, length)?;
    stored_in(alloc, "long", text.as_str())
}

/// Sets a moment of a job, or one of its texts to one of so many bytes.
fn set_job(what: &str, line: &mut Line, job: &mut Job) -> Result<(), Fault> {
    match what {
        "created" => job.created = line.number(),
        "updated" => job.updated = line.number(),
        _ => return set_long(line.alloc(), what, line.number(), job),
    }
    Ok(())
}

/// Sets one of the texts of a job to one of so many bytes, or adds an asset of so many.
fn set_long(alloc: Global, what: &str, length: usize, job: &mut Job) -> Result<(), Fault> {
    match what {
        "title" => job.title = Some(text_of(alloc, "", length, "")?),
        "description" => job.description = Some(text_of(alloc, "", length, "")?),
        "process" => job.process = long_process(alloc, length)?,
        "asset" => return add_asset(alloc, length, &mut job.assets),
        _ => return Err(Fault::Line),
    }
    Ok(())
}

/// A process of so many bytes.
fn long_process(alloc: Global, length: usize) -> Result<Text, Fault> {
    let around = BEFORE_LONG.len() + AFTER_LONG.len();
    text_of(
        alloc,
        BEFORE_LONG,
        length.saturating_sub(around),
        AFTER_LONG,
    )
}

/// So many `x` between two texts.
fn text_of(alloc: Global, before: &str, count: usize, after: &str) -> Result<Text, Fault> {
    let mut text = Answers::new(alloc);
    push(before, &mut text);
    for _index in 0..count {
        push("x", &mut text);
    }
    push(after, &mut text);
    text.into_text(alloc)
}

/// Adds an asset of so many bytes.
fn add_asset(alloc: Global, length: usize, assets: &mut Vec<Asset>) -> Result<(), Fault> {
    let mut asset = asset_of(alloc, "a.json")?;
    asset.text = text_of(alloc, "", length, "")?;
    assets.push(asset)?;
    Ok(())
}
