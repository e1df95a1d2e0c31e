// Objects in memory, some of whose calls fail, and how answers about them are spelled.
ghost use Rattle.std.specs.Prelude.{◌≤◌};

use crate::clocks::answer_clock;
use crate::copies::{answer_copy, answer_count};
use crate::counted::{answer_bounded, answer_counter, answer_over};
use crate::doors::answer_door;
use crate::stores::answer_store;
use crate::streams::{answer_link, answer_sink, answer_source};
use oe_lines::{Answers, Fault, Line, end_line, push, push_number};
use oe_memory::OutOfMemory;
use oe_outside::{Failed, ReadRefusal};
use std::alloc::Global;
use std::fmt::Display;

/// How many bytes of an object are spelled at most.
const MOST: usize = 16;

/// An object in memory, whose calls stand in a line.
pub(crate) trait Object {
    /// Makes the call, and appends what it answered and what the object has then.
    fn call(&mut self, call: &mut Line, answers: &mut Answers);
}

/// Makes the calls on an object that stand behind semicolons, and appends their answers.
pub(crate) fn answer_calls<O: Object>(
    alloc: Global,
    object: &mut O,
    calls: &str,
    answers: &mut Answers,
) {
    for call in calls.split("; ") {
        let mut call = Line::new(alloc, call);
        object.call(&mut call, answers);
        call.report(answers);
    }
}

/// Appends the answers to lines about objects.
pub(crate) fn answer_objects(alloc: Global, text: &str, answers: &mut Answers) {
    for line in text.lines() {
        let (object, calls) = line.split_once("; ").unwrap_or((line, ""));
        let mut line = Line::new(alloc, object);
        answer_line(&mut line, calls, answers);
        line.report(answers);
    }
}

fn answer_line(line: &mut Line, calls: &str, answers: &mut Answers) {
    match line.word() {
        "#" => {}
        "over" => answer_over(line, answers),
        "clock" => answer_clock(line, answers),
        "texts" => print_texts(line.alloc(), answers),
        word => answer_object(word, line, calls, answers),
    }
}

/// Appends the answers to the calls of an object, by its word.
fn answer_object(word: &str, line: &mut Line, calls: &str, answers: &mut Answers) {
    let outcome = match word {
        "copy" => answer_copy(line, answers),
        "count" => answer_count(line, answers),
        "source" => answer_source(line, calls, answers),
        "sink" => answer_sink(line, calls, answers),
        "counter" => answer_counter(line.alloc(), calls, answers),
        "bounded" => answer_bounded(line.alloc(), calls, answers),
        "link" => answer_link(line, calls, answers),
        "store" => answer_store(line, calls, answers),
        "door" => answer_door(line, calls, answers),
        _ => Err(Fault::Line),
    };
    answers.settle(outcome);
}

/// How many bytes there are.
pub(crate) fn count_of(line: &mut Line) -> usize
    ensures { result ≤ 65535 }
{
    usize::from(line.number::<u16>())
}

/// The bytes that a word spells as they are, or none for `-`.
pub(crate) fn plain_bytes(word: &str) -> &[u8] {
    match word {
        "-" => &[],
        _ => word.as_bytes(),
    }
}

/// Prints the texts of the fault, of a refusal to read and of want of memory.
fn print_texts(alloc: Global, answers: &mut Answers) {
    print_text(alloc, &Failed, answers);
    print_text(alloc, &ReadRefusal::Failed, answers);
    print_text(alloc, &ReadRefusal::OutOfMemory, answers);
    print_text(alloc, &OutOfMemory, answers);
}

/// Prints a text of one line.
pub(crate) fn print_text<T: Display>(alloc: Global, value: &T, answers: &mut Answers) {
    match value.to_string(alloc) {
        Ok(text) => push(text.as_str(), answers),
        Err(_) => answers.note(Fault::OutOfMemory),
    }
    end_line(answers);
}

/// Spells the first of the bytes behind a blank.
pub(crate) fn spell_bytes(bytes: &[u8], answers: &mut Answers) {
    push(" \"", answers);
    for byte in &bytes[..bytes.len().min(MOST)] {
        answers.extend(&[if *byte == 0 { b'.' } else { *byte }]);
    }
    push("\"", answers);
}

/// Spells whether a call that answers no value failed.
pub(crate) fn spell_outcome(outcome: Result<(), Failed>, answers: &mut Answers) {
    push(if outcome.is_ok() { "ok" } else { "Failed" }, answers);
}

/// Spells how many bytes were counted.
pub(crate) fn spell_count(outcome: Result<u64, Failed>, answers: &mut Answers) {
    match outcome {
        Ok(count) => push_number("ok ", count, answers),
        Err(Failed) => push("Failed", answers),
    }
}

/// Spells what a read answered, and its buffer.
pub(crate) fn spell_read(outcome: Result<usize, Failed>, buffer: &[u8], answers: &mut Answers) {
    match outcome {
        Ok(count) => push_number("ok ", count, answers),
        Err(Failed) => push("Failed", answers),
    }
    spell_bytes(buffer, answers);
}

/// Ends a line with the bytes of an object and how many of its calls have failed.
pub(crate) fn spell_held(bytes: &[u8], faults: u64, answers: &mut Answers) {
    push_number(" | ", bytes.len(), answers);
    spell_bytes(bytes, answers);
    end_faults(faults, answers);
}

/// Ends a line with how many calls have failed.
pub(crate) fn end_faults(faults: u64, answers: &mut Answers) {
    push_number(" ", faults, answers);
    end_line(answers);
}
