// Replies and jobs in words.
use oe_dims::Text;
use oe_jobs::{Asset, Book, Job, LogEntry};
use oe_lines::{Answers, end_line, push, push_all, push_number};
use oe_outside::MemoryLink;
use oe_serve::ServeFail;

/// Appends a line for each connection.
pub(crate) fn spell_links(links: &[MemoryLink], answers: &mut Answers) {
    for link in links {
        spell_written(link.written(), answers);
        spell_count(" faults ", link.faults(), answers);
        end_line(answers);
    }
}

/// Appends what was written to a connection, with `\r` and `\n` for the two bytes that end lines.
fn spell_written(written: &[u8], answers: &mut Answers) {
    for byte in written {
        match byte {
            b'\r' => push("\\r", answers),
            b'\n' => push("\\n", answers),
            _ => answers.extend(&[*byte]),
        }
    }
}

/// Appends how many calls failed, or chunks were evaluated, where some were.
pub(crate) fn spell_count(words: &str, count: u64, answers: &mut Answers) {
    if count > 0 {
        push_number(words, count, answers);
    }
}

pub(crate) fn ending_word(ended: Result<(), ServeFail>) -> &'static str {
    match ended {
        Ok(()) => "ended",
        Err(ServeFail::KeeperFault) => "keeper fault",
        Err(ServeFail::LinkFault) => "link fault",
        Err(ServeFail::OutOfMemory) => "out of memory",
    }
}

/// Appends the jobs of a book, a bar before each.
pub(crate) fn spell_jobs(book: &Book, answers: &mut Answers) {
    for job in &book.jobs {
        spell_job(job, answers);
    }
}

/// Appends a job: its id, its status, when it was changed, its assets and its logs.
fn spell_job(job: &Job, answers: &mut Answers) {
    push(" | ", answers);
    push(job.id.as_str(), answers);
    push(" ", answers);
    push(job.status.as_str(), answers);
    push_number(" at ", job.updated, answers);
    for asset in &job.assets {
        spell_asset(asset, answers);
    }
    for entry in &job.logs {
        spell_entry(entry, answers);
    }
}

/// Appends the name of an asset and its text from the member `data` on.
fn spell_asset(asset: &Asset, answers: &mut Answers) {
    let text = asset.text.as_str();
    let cells = match text.rsplit_once("\"data\":") {
        Some((_, cells)) => cells,
        None => text,
    };
    push_all(&[" ", asset.name.as_str(), "=", cells], answers);
}

/// Appends a log entry: its level, its code where it has one, and its message.
fn spell_entry(entry: &LogEntry, answers: &mut Answers) {
    push_all(&[" ", entry.level.as_str()], answers);
    spell_code(&entry.code, answers);
    push_all(&[":", entry.message.as_str()], answers);
}

fn spell_code(code: &Option<Text>, answers: &mut Answers) {
    if let Some(code) = code {
        push_all(&["=", code.as_str()], answers);
    }
}
