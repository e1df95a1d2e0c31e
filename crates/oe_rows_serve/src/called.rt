// How answers are spelled.
use oe_adapters::Fault as ProgramFault;
use oe_lines::{Answers, end_line, push, push_number};
use oe_outside::Failed;

/// Appends a line as it is.
pub(crate) fn spell_line(line: &str, answers: &mut Answers) {
    push(line, answers);
    end_line(answers);
}

/// Appends bytes behind a blank, with `.` for a zero and `?` for the byte 255.
pub(crate) fn spell_bytes(bytes: &[u8], answers: &mut Answers) {
    push(" \"", answers);
    for byte in bytes {
        spell_byte(*byte, answers);
    }
    push("\"", answers);
}

fn spell_byte(byte: u8, answers: &mut Answers) {
    let shown = match byte {
        0 => b'.',
        255 => b'?',
        _ => byte,
    };
    answers.extend(&[shown]);
}

/// Appends how many bytes there are, or that the call failed.
pub(crate) fn spell_count(outcome: Result<u64, Failed>, answers: &mut Answers) {
    match outcome {
        Ok(count) => push_number("ok ", count, answers),
        Err(_) => push("Failed", answers),
    }
}

/// Appends what a read answered, and its buffer.
pub(crate) fn spell_read(outcome: Result<usize, Failed>, buffer: &[u8], answers: &mut Answers) {
    match outcome {
        Ok(count) => push_number("ok ", count, answers),
        Err(_) => push("Failed", answers),
    }
    spell_bytes(buffer, answers);
}

/// Appends whether a write failed.
pub(crate) fn spell_write(outcome: Result<(), Failed>, answers: &mut Answers) {
    push(if outcome.is_ok() { "ok" } else { "Failed" }, answers);
}

/// Ends a line with a number behind a bar.
pub(crate) fn end_with(number: u64, answers: &mut Answers) {
    push_number(" | ", number, answers);
    end_line(answers);
}

/// Appends a fault of the program behind so many calls: its status, and its line with the line feed.
pub(crate) fn spell_fault(fault: &ProgramFault, calls: u64, answers: &mut Answers) {
    push_number("", fault.status(), answers);
    push_number(" ", calls, answers);
    push(" ", answers);
    answers.extend(fault.line());
}
