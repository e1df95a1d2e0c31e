// A keeper in memory whose calls fail, and which stops.
ghost use Rattle.std.specs.Prelude.{◌≡◌, IfOk, IfSome};
ghost use Rattle.oe_jobs.specs.Changes.{changed};
ghost use Rattle.oe_jobs.specs.Plain.{plain_book, plain_change};
ghost use Rattle.oe_jobs.specs.Valid.{IsBook};

use crate::commands::stored_of;
use oe_dims::Text;
use oe_jobs::{Book, Change, Command, Keeper, KeeperFail, Verdict, decide};
use oe_keeper::MemoryKeeper;
use oe_lines::{Answers, Fault, Line, end_line, push, push_all, push_number};
use std::alloc::Global;

/// When the processes are stored.
const KEPT: i64 = 50;

/// Asks a keeper of an empty book to keep the stored processes `a` and `b` of the user u, and to load the book at last.
/// Appends what each is answered, how often a call failed, and the stored processes that a crash leaves.
///
/// The line has the numbers of the calls that fail, with commas between them, or `-` for none; then the call in which
/// the keeper stops with `kept` or `lost`, or `-` for none.
pub(crate) fn keep_both(line: &mut Line, answers: &mut Answers) -> Result<(), Fault> {
    let alloc = line.alloc();
    let failing = line.numbers();
    let mut keeper = MemoryKeeper::new(Book::empty(alloc), failing, stop_of(line));
    answer_calls(alloc, &mut keeper, answers)?;
    spell_stored(&keeper.stopped(), answers);
    Ok(())
}

fn stop_of(line: &mut Line) -> Option<(u64, bool)> {
    if line.takes("-") {
        return None;
    }
    let call = line.number();
    let kept = line.takes("kept");
    if !kept {
        line.pass("lost");
    }
    Some((call, kept))
}

fn answer_calls(
    alloc: Global,
    keeper: &mut MemoryKeeper,
    answers: &mut Answers,
) -> Result<(), Fault> {
    let first = keep(alloc, keeper, "a")?;
    let second = keep(alloc, keeper, "b")?;
    push_all(&[first, ", ", second, ", ", load_word(keeper)], answers);
    push_number(", ", keeper.faults(), answers);
    push(" failed, left", answers);
    Ok(())
}

fn load_word(keeper: &mut MemoryKeeper) -> &'static str {
    match keeper.load() {
        Ok(_) => "loaded",
        Err(fail) => fail_word(fail, "not loaded"),
    }
}

/// Loads the book and, where that is answered Ok, commits that the user u stores a process.
fn keep(alloc: Global, keeper: &mut MemoryKeeper, id: &str) -> Result<&'static str, Fault> {
    match keeper.load() {
        Ok(book) => commit_stored(alloc, keeper, &book, id),
        Err(fail) => Ok(fail_word(fail, "not loaded")),
    }
}

/// Commits, over the book that is kept, that the user u stores a process.
fn commit_stored(
    alloc: Global,
    keeper: &mut MemoryKeeper,
    book: &Book,
    id: &str,
) -> Result<&'static str, Fault>
    requires valid { IsBook (plain_book book.now) }
    requires kept { plain_book book.now ≡ plain_book keeper.old.book }
{
    match stored_change(alloc, book, id)? {
        Some(change) => Ok(commit_word(keeper.commit(&change))),
        None => Ok("unchanged"),
    }
}

/// What it changes that the user u stores a process.
fn stored_change(alloc: Global, book: &Book, id: &str) -> Result<Option<Change>, Fault>
    requires { IsBook (plain_book book.now) }
    ensures { IfOk result (λ change. IfSome change
        (λ c. IsBook (changed (plain_book book.now) (plain_change c)))) }
{
    let user = Text::of(alloc, "u")?;
    let command = Command::Store {
        process: stored_of(alloc, id)?,
    };
    let verdict = decide(alloc, book, &user, &command, KEPT)?;
    let Verdict { change, outcome: _ } = verdict;
    Ok(change)
}

fn commit_word(answer: Result<(), KeeperFail>) -> &'static str {
    match answer {
        Ok(()) => "kept",
        Err(fail) => fail_word(fail, "not kept"),
    }
}

fn fail_word(fail: KeeperFail, failed: &'static str) -> &'static str {
    match fail {
        KeeperFail::Failed => failed,
        KeeperFail::OutOfMemory => "out of memory",
    }
}

/// Appends the ids of the stored processes of a book.
fn spell_stored(book: &Book, answers: &mut Answers) {
    for owned in &book.processes {
        push_all(&[" ", owned.process.id.as_str()], answers);
    }
    end_line(answers);
}
