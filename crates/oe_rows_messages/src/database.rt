// The keeper of a job book over a database, on disks in memory.
use crate::disks::Disks;
use crate::fuses::answer_fuses;
use oe_lines::{Answers, Fault, end_line, first_word, push_digits};
use std::alloc::Global;

/// How many pages a log has before it is copied into the database's own file.
const PAGES: usize = 1000;

/// Appends the answers to the lines of the part `database`.
pub(crate) fn answer_database(alloc: Global, lines: &str, answers: &mut Answers) {
    let mut disks = Disks::new(alloc);
    for line in lines.lines() {
        let (word, rest) = first_word(line);
        disks.crash();
        disks = match word {
            "new" => Disks::new(alloc),
            "keep" => disks.pass(alloc, PAGES, rest, answers),
            "sql" | "ask" => disks.pass(alloc, PAGES, line, answers),
            _ => disks,
        };
        answer_line(alloc, word, rest, &disks, answers);
    }
}

/// Appends the answer of a line that changes no disk.
fn answer_line(alloc: Global, word: &str, rest: &str, disks: &Disks, answers: &mut Answers) {
    match word {
        "bytes" => {
            push_digits(alloc, "", disks.bytes(), answers);
            end_line(answers);
        }
        "fuse" => {
            let outcome = answer_fuses(alloc, rest, answers);
            answers.settle(outcome);
        }
        "#" | "new" | "keep" | "sql" | "ask" => {}
        _ => answers.note(Fault::Line),
    }
}
