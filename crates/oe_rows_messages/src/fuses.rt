// What a crash leaves where a disk fails from a call on.
use crate::disks::Disks;
use oe_dims::Text;
use oe_lines::{Answers, Fault, end_line, first_word, number_of, push, push_number};
use std::alloc::Global;

/// How many calls of a disk the changes of a line make at most.
const MOST: u64 = 100000;

/// Takes steps on new disks, of which one fails from its first, second, .. call on, until no change fails. Appends how
/// many changes were kept before one failed, each number once, and how many of the crashes behind them leave another
/// book than that of these changes, or the next one after it.
pub(crate) fn answer_fuses(alloc: Global, line: &str, answers: &mut Answers) -> Result<(), Fault> {
    let (disk, rest) = first_word(line);
    let (pages, steps) = first_word(rest);
    let pages: usize = number_of(pages)?;
    let whole = answers_on(alloc, Disks::new(alloc), pages, steps)?.1;
    push(disk, answers);
    let other = blow_each(alloc, (disk, pages, steps), whole.as_str(), answers)?;
    push_number(", other ", other, answers);
    end_line(answers);
    Ok(())
}

/// Appends the numbers of changes that are kept where a disk fails from each of its calls on, and counts the crashes
/// behind them that leave another book. `whole` has the answers to the steps where no disk fails.
fn blow_each(
    alloc: Global,
    (disk, pages, steps): (&str, usize, &str),
    whole: &str,
    answers: &mut Answers,
) -> Result<u64, Fault> {
    let all = kept_in(whole);
    let mut other: u64 = 0;
    let mut last = usize::MAX;
    for call in 0..MOST {
        let disks = failing(alloc, disk, call)?;
        let (kept, is_left) = blow(alloc, disks, (pages, steps), whole)?;
        if !is_left {
            other = other.saturating_add(1);
        }
        if kept != last {
            push_number(" ", kept, answers);
            last = kept;
        }
        if kept == all {
            break;
        }
    }
    Ok(other)
}

/// Empty disks, of which one by its name fails from the call of a number on.
fn failing(alloc: Global, disk: &str, call: u64) -> Result<Disks, Fault> {
    match disk {
        "log" => Ok(Disks::failing(alloc, call, u64::MAX)),
        "db" => Ok(Disks::failing(alloc, u64::MAX, call)),
        _ => Err(Fault::Line),
    }
}

/// How many changes are kept on disks, and whether a crash behind them leaves the book of these, or the next one.
fn blow(
    alloc: Global,
    disks: Disks,
    (pages, steps): (usize, &str),
    whole: &str,
) -> Result<(usize, bool), Fault> {
    let (mut disks, run) = answers_on(alloc, disks, pages, steps)?;
    disks.crash();
    let left = answers_on(alloc, disks, pages, "load")?.1;
    let kept = kept_in(run.as_str());
    Ok((kept, is_left(whole, kept, left.as_str())))
}

/// Disks after steps, and the answers to these.
fn answers_on(
    alloc: Global,
    disks: Disks,
    pages: usize,
    steps: &str,
) -> Result<(Disks, Text), Fault> {
    let mut answers = Answers::new(alloc);
    let disks = disks.pass(alloc, pages, steps, &mut answers);
    let text = answers.into_text(alloc)?;
    Ok((disks, text))
}

/// How many changes were kept before the first that failed, by the answers to steps. One behind that may be kept where
/// it changes nothing, as it is of a job that was not put.
fn kept_in(answers: &str) -> usize {
    let mut kept: usize = 0;
    for answer in answers.lines() {
        if answer.starts_with("failed") {
            break;
        }
        if answer == "kept" {
            kept = kept.saturating_add(1);
        }
    }
    kept
}

/// Whether a book is the one after so many changes, or after one more, by the answers where no disk fails: each change
/// stands between two books.
fn is_left(whole: &str, kept: usize, left: &str) -> bool {
    let first = kept.saturating_mul(2);
    left.lines().next() == whole.lines().nth(first)
        || left.lines().next() == whole.lines().nth(first.saturating_add(2))
}
