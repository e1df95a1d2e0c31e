// Commands and events on a book of jobs, and the entries that are kept of them.
use crate::asked::{answer_assets, answer_busy, answer_job, answer_place};
use crate::commands::command_of;
use crate::events::change_of;
use crate::jobs::add_job;
use crate::keepers::keep_both;
use crate::spelling::{change_word, outcome_word, spell_book, spell_job};
use crate::valid::{add_entry, add_owned, answer_valid, set};
use oe_dims::Text;
use oe_jobs::{Book, Change, Job, Verdict, decide, reopen};
use oe_keeper::{job_text, read_job};
use oe_lines::{Answers, Fault, Line, end_line, push, push_all};
use std::alloc::Global;

/// When commands are given.
const ASKED: i64 = 50;

/// Appends the answers to lines about jobs.
pub(crate) fn answer_jobs(alloc: Global, text: &str, answers: &mut Answers) {
    let mut book = empty_book(alloc, 1);
    for line in text.lines() {
        let mut line = Line::new(alloc, line);
        let outcome = answer_line(&mut line, &mut book, answers);
        answers.settle(outcome);
        line.report(answers);
    }
}

/// Appends the answer of a line.
fn answer_line(line: &mut Line, book: &mut Book, answers: &mut Answers) -> Result<(), Fault> {
    match line.word() {
        "#" => Ok(()),
        "book" => {
            *book = empty_book(line.alloc(), line.number());
            Ok(())
        }
        "job" => add_job(line, &mut book.jobs),
        "restore" => add_entry(line, &mut book.jobs),
        "owned" => add_owned(line, &mut book.processes),
        "set" => set(line, book),
        word => answer_question(word, line, book, answers),
    }
}

/// Appends the answer of a line that asks what is, by its word.
fn answer_question(
    word: &str,
    line: &mut Line,
    book: &mut Book,
    answers: &mut Answers,
) -> Result<(), Fault> {
    match word {
        "valid" => answer_valid(line.alloc(), book, answers),
        "keeper" => keep_both(line, answers),
        "entry" => read_entry(line, answers),
        "place" => answer_place(line, book, answers),
        "assets" => answer_assets(line.alloc(), line.rest(), answers),
        _ => answer_change_of(word, line, book, answers),
    }
}

/// Appends the answer of a line that changes the book, by its word.
fn answer_change_of(
    word: &str,
    line: &mut Line,
    book: &mut Book,
    answers: &mut Answers,
) -> Result<(), Fault> {
    match word {
        "event" => answer_change(change_of(line, book)?, book, answers),
        "reopen" => answer_change(reopen(line.alloc(), book)?, book, answers),
        "running" | "next" | "busy" => {
            answer_state(word, book, answers);
            Ok(())
        }
        _ => ask(word, line, book, answers),
    }
}

/// Appends what the book says of its jobs, by the word of a line.
fn answer_state(word: &str, book: &Book, answers: &mut Answers) {
    match word {
        "running" => answer_job(book.running(), answers),
        "next" => answer_job(book.next_queued(), answers),
        _ => answer_busy(book, answers),
    }
}

/// A book without jobs and stored processes, and with this next number.
fn empty_book(alloc: Global, next: u64) -> Book {
    Book {
        next,
        jobs: Vec::new(alloc),
        processes: Vec::new(alloc),
    }
}

/// Does a user's command, and appends what is answered, the change and the book after it.
fn ask(user: &str, line: &mut Line, book: &mut Book, answers: &mut Answers) -> Result<(), Fault> {
    let verdict = verdict_on(user, line, book)?;
    push_all(&[outcome_word(&verdict.outcome), " "], answers);
    let Verdict { change, outcome: _ } = verdict;
    answer_change(change, book, answers)
}

fn verdict_on(user: &str, line: &mut Line, book: &Book) -> Result<Verdict, Fault> {
    let command = command_of(line)?;
    let user = Text::of(line.alloc(), user)?;
    Ok(decide(line.alloc(), book, &user, &command, ASKED)?)
}

/// Makes a change, and appends which it was and the book after it.
fn answer_change(
    change: Option<Change>,
    book: &mut Book,
    answers: &mut Answers,
) -> Result<(), Fault> {
    push(change_word(&change), answers);
    install(change, book)?;
    spell_book(book, answers);
    Ok(())
}

fn install(change: Option<Change>, book: &mut Book) -> Result<(), Fault> {
    if let Some(change) = change {
        book.ready(&change)?;
        book.install(change);
    }
    Ok(())
}

/// Reads a text as the entry of the job j-3. Appends that job and, behind a bar, the entry that is written of it, or
/// `none` where the text is no entry.
fn read_entry(line: &mut Line, answers: &mut Answers) -> Result<(), Fault> {
    let id = Text::of(line.alloc(), "j-3")?;
    match read_job(line.alloc(), &id, line.rest().as_bytes())? {
        Some(job) => spell_entry(line.alloc(), &job, answers),
        None => push("none", answers),
    }
    end_line(answers);
    Ok(())
}

fn spell_entry(alloc: Global, job: &Job, answers: &mut Answers) {
    spell_job(job, answers);
    push(" | ", answers);
    match job_text(alloc, job) {
        Ok(entry) => push(entry.as_str(), answers),
        Err(_) => answers.note(Fault::OutOfMemory),
    }
}
