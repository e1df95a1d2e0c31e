// Calls of the program's adapters over files, streams and a network in memory.
use crate::called::spell_line;
use crate::doors::{answer_clock, answer_door, answer_log};
use crate::stores::answer_store;
use crate::streams::{answer_reader, answer_writer};
use crate::systems::{answer_names, answer_open, answer_parts, answer_spool, answer_standard};
use crate::words::{answer_fault_line, answer_words};
use oe_lines::{Answers, Fault, first_word};
use oe_sockets::Patience;
use std::alloc::Global;

/// Appends the answers to the lines of the part `adapters`.
pub(crate) fn answer_adapters(alloc: Global, lines: &str, answers: &mut Answers) {
    for line in lines.lines() {
        let outcome = answer_line(alloc, line, answers);
        answers.settle(outcome);
    }
}

/// Appends the answers to a line.
fn answer_line(alloc: Global, line: &str, answers: &mut Answers) -> Result<(), Fault> {
    let (word, rest) = first_word(line);
    match word {
        "#" => spell_line(line, answers),
        "names" => answer_names(alloc, rest, answers),
        "open" => answer_open(alloc, rest, answers),
        "parts" => answer_parts(alloc, rest, answers)?,
        "spool" => answer_spool(alloc, rest, answers),
        "standard" => answer_standard(alloc, rest, answers),
        "words" => answer_words(alloc, rest, answers)?,
        "line" => answer_fault_line(alloc, rest, answers)?,
        "reader" => answer_reader(alloc, rest, answers)?,
        "writer" => answer_writer(alloc, rest, answers)?,
        "store" => answer_store(alloc, rest, answers)?,
        _ => {
            spell_line(line, answers);
            answer_network(alloc, word, rest, answers)?;
        }
    }
    Ok(())
}

/// Appends the answers of calls over a network.
fn answer_network(
    alloc: Global,
    word: &str,
    rest: &str,
    answers: &mut Answers,
) -> Result<(), Fault> {
    let (script, row) = rest.split_once("; ").unwrap_or((rest, ""));
    match word {
        "clock" => answer_clock(alloc, script, row, answers),
        "server" => answer_door(alloc, Patience::of_server(), script, row, answers),
        "client" => answer_door(alloc, Patience::of_client(), script, row, answers),
        "log" => answer_log(alloc, script, row, answers),
        _ => Err(Fault::Line),
    }
}
