// Books in words.
use oe_jobs::{Asset, Book, Job, Owned};
use oe_keeper::job_text;
use oe_lines::{Answers, Fault, push_all, push_number};
use std::alloc::Global;

/// Appends the next number of a book, its jobs and its stored processes, with bars between them.
///
/// Refuses: out of memory.
pub(crate) fn spell_book(alloc: Global, book: &Book, answers: &mut Answers) -> Result<(), Fault> {
    push_number("", book.next, answers);
    for job in &book.jobs {
        spell_job(alloc, job, answers)?;
    }
    spell_processes(&book.processes, answers);
    Ok(())
}

/// Appends the id of a job, its entry and its assets.
fn spell_job(alloc: Global, job: &Job, answers: &mut Answers) -> Result<(), Fault> {
    let entry = job_text(alloc, job)?;
    push_all(&[" | ", job.id.as_str(), " ", entry.as_str()], answers);
    spell_assets(&job.assets, answers);
    Ok(())
}

fn spell_assets(assets: &[Asset], answers: &mut Answers) {
    for asset in assets {
        push_all(
            &[" ", asset.name.as_str(), "=", asset.text.as_str()],
            answers,
        );
    }
}

fn spell_processes(processes: &[Owned], answers: &mut Answers) {
    for owned in processes {
        push_all(
            &[" | ", owned.user.as_str(), "/", owned.process.id.as_str()],
            answers,
        );
        push_all(&[" ", owned.process.text.as_str()], answers);
    }
}
