// How answers are spelled, behind those so far.
use crate::Fault;
use itoa::{Buffer, Integer};
use oe_cell::{Cell, TextBuf, print_cell};
use oe_dims::Text;
use std::alloc::Global;
use std::str;

/// How many equal cells side by side are spelled one by one at most.
const MOST_EQUAL: u32 = 16;

/// Answers, each appended behind the one before, and the first fault that was noted, if one was.
///
/// What appends to them answers nothing, since a program asks for a fault but once, before it writes them.
#[derive(Drop)]
pub struct Answers {
    bytes: Vec<u8>,
    fault: Option<Fault>,
}

impl Answers {
    /// No answers so far, and no fault.
    pub fn new(alloc: Global) -> Answers {
        Answers {
            bytes: Vec::new(alloc),
            fault: None,
        }
    }

    /// The first fault that was noted.
    pub fn fault(&self) -> Option<Fault> {
        self.fault
    }

    /// All that was appended, but for what there was no memory for.
    pub fn bytes(&self) -> &[u8] {
        &self.bytes
    }

    /// All that was appended, or the first fault that was noted.
    pub fn into_bytes(self) -> Result<Vec<u8>, Fault> {
        match self.fault {
            None => Ok(self.bytes),
            Some(fault) => Err(fault),
        }
    }

    /// The same as a text. Refuses: bytes that are none.
    pub fn into_text(self, alloc: Global) -> Result<Text, Fault> {
        match str::from_utf8(&self.into_bytes()?) {
            Ok(text) => Ok(Text::of(alloc, text)?),
            Err(_) => Err(Fault::Line),
        }
    }

    /// Takes away what was appended behind so many bytes.
    pub fn truncate(&mut self, length: usize) {
        self.bytes.truncate(length);
    }

    /// Notes a fault, unless one was noted before.
    pub fn note(&mut self, fault: Fault) {
        if self.fault.is_none() {
            self.fault = Some(fault);
        }
    }

    /// Notes the fault that an outcome is, if it is one.
    pub fn settle(&mut self, outcome: Result<(), Fault>) {
        if let Err(fault) = outcome {
            self.note(fault);
        }
    }

    /// Appends bytes as they are.
    pub fn extend(&mut self, bytes: &[u8]) {
        if self.bytes.extend_from_slice(bytes).is_err() {
            self.note(Fault::OutOfMemory);
        }
    }
}

/// Appends words as they are.
pub fn push(words: &str, answers: &mut Answers) {
    answers.extend(words.as_bytes());
}

/// Appends each of some words as it is.
pub fn push_all(words: &[&str], answers: &mut Answers) {
    for word in words {
        push(word, answers);
    }
}

/// Ends a line.
pub fn end_line(answers: &mut Answers) {
    answers.extend(b"\n");
}

/// Appends a number behind a mark.
pub fn push_number<N: Integer>(mark: &str, number: N, answers: &mut Answers) {
    push(mark, answers);
    push(Buffer::new().format(number), answers);
}

/// Appends bytes in hexadecimal digits behind a mark.
pub fn push_digits(alloc: Global, mark: &str, bytes: &[u8], answers: &mut Answers) {
    push(mark, answers);
    match hex::encode(alloc, bytes) {
        Ok(digits) => push(digits.as_str(), answers),
        Err(_) => answers.note(Fault::OutOfMemory),
    }
}

/// Where the last answer begins, once the answer from `from` on is taken away where it is the one from `before` on.
pub fn last_other(before: usize, from: usize, answers: &mut Answers) -> usize {
    if is_twice(answers.bytes(), before, from) {
        answers.truncate(from);
        before
    } else {
        from
    }
}

/// What stands from one byte on before another is what stands from that other on.
fn is_twice(bytes: &[u8], before: usize, from: usize) -> bool {
    bytes.get(before..from) == bytes.get(from..)
}

/// Appends a word, with a blank before it but at the beginning of a line.
pub fn push_word(word: &str, answers: &mut Answers) {
    push_blank(answers);
    push(word, answers);
}

fn push_blank(answers: &mut Answers) {
    if !answers.bytes().is_empty() && !answers.bytes().ends_with(b"\n") {
        answers.extend(b" ");
    }
}

/// Appends `true` or `false` as a word.
pub fn push_flag(flag: bool, answers: &mut Answers) {
    push_word(if flag { "true" } else { "false" }, answers);
}

/// Appends a cell as a word: the spelling that it has in a result text, and `over`, which has none there.
pub fn push_cell(cell: Cell, answers: &mut Answers) {
    push_blank(answers);
    spell(cell, answers);
}

fn spell(cell: Cell, answers: &mut Answers) {
    let mut text = TextBuf::new();
    match cell {
        Cell::Over => push("over", answers),
        known => {
            print_cell(known, &mut text);
            answers.extend(text.bytes());
        }
    }
}

/// Appends cells as words, of which over 16 equal ones side by side as `N*X`.
pub fn push_cells(cells: &[Cell], answers: &mut Answers) {
    let mut count = 0u32;
    for index in 0..cells.len() {
        count = count.wrapping_add(1);
        if index + 1 == cells.len() || cells[index + 1] != cells[index] {
            push_equal(&cells[index], count, answers);
            count = 0;
        }
    }
}

fn push_equal(cell: &Cell, count: u32, answers: &mut Answers) {
    if count > MOST_EQUAL {
        push_blank(answers);
        push_number("", count, answers);
        push("*", answers);
        spell(*cell, answers);
        return;
    }
    for _index in 0..count {
        push_cell(*cell, answers);
    }
}
