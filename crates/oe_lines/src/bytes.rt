// Bytes as a line spells them, and as an answer does.
use crate::{Answers, Fault, push, push_number};
use oe_dims::Text;
use std::alloc::Global;

/// How many equal bytes side by side are spelled one by one at most.
const MOST_EQUAL: usize = 16;

/// The bytes that are spelled so.
pub fn escaped_bytes(alloc: Global, spelled: &str) -> Result<Vec<u8>, Fault> {
    let mut bytes = Answers::new(alloc);
    push_parts(alloc, spelled, &mut bytes);
    bytes.into_bytes()
}

/// The text that is spelled so.
pub fn escaped_text(alloc: Global, spelled: &str) -> Result<Text, Fault> {
    let mut text = Answers::new(alloc);
    push_parts(alloc, spelled, &mut text);
    text.into_text(alloc)
}

fn push_parts(alloc: Global, spelled: &str, bytes: &mut Answers) {
    for part in spelled.split('|') {
        push_part(alloc, part, bytes);
    }
}

fn push_part(alloc: Global, part: &str, bytes: &mut Answers) {
    let (times, text) = times_of(part);
    match once_bytes(alloc, text) {
        Ok(once) => push_times(times, &once, bytes),
        Err(fault) => bytes.note(fault),
    }
}

/// How often a part has its bytes, and how it spells them.
fn times_of(part: &str) -> (usize, &str) {
    match part.split_once('*') {
        None => (1, part),
        Some((times, text)) => match times.parse::<usize>() {
            Ok(times) => (times, text),
            Err(_) => (1, part),
        },
    }
}

fn push_times(times: usize, once: &[u8], bytes: &mut Answers) {
    for _index in 0..times {
        bytes.extend(once);
    }
}

fn once_bytes(alloc: Global, text: &str) -> Result<Vec<u8>, Fault> {
    let mut bytes = Answers::new(alloc);
    let mut pieces = text.split('\\');
    if let Some(first) = pieces.next() {
        push(first, &mut bytes);
    }
    for piece in pieces {
        push_escaped(piece, &mut bytes);
    }
    bytes.into_bytes()
}

/// Appends the byte that is spelled behind a backslash, and what follows its spelling.
fn push_escaped(piece: &str, bytes: &mut Answers) {
    match escaped_byte(piece) {
        Ok((byte, rest)) => {
            bytes.extend(&[byte]);
            push(rest, bytes);
        }
        Err(fault) => bytes.note(fault),
    }
}

/// The byte that is spelled behind a backslash, and what follows its spelling.
fn escaped_byte(piece: &str) -> Result<(u8, &str), Fault> {
    if let Some(rest) = piece.strip_prefix('r') {
        return Ok((b'\r', rest));
    }
    if let Some(rest) = piece.strip_prefix('n') {
        return Ok((b'\n', rest));
    }
    let (Some(digits), Some(rest)) = (piece.get(..2), piece.get(2..)) else {
        return Err(Fault::Line);
    };
    match u8::from_str_radix(digits, 16) {
        Ok(byte) => Ok((byte, rest)),
        Err(_) => Err(Fault::Line),
    }
}

/// Appends a name, and bytes in quotation marks.
pub fn push_quoted(name: &str, bytes: &[u8], answers: &mut Answers) {
    push(name, answers);
    push("\"", answers);
    for run in bytes.chunk_by(|a, b| a == b) {
        push_run(run, answers);
    }
    push("\"", answers);
}

/// Appends the spelling of equal bytes.
fn push_run(bytes: &[u8], answers: &mut Answers) {
    if bytes.len() > MOST_EQUAL {
        push_number("|", bytes.len(), answers);
        push("*", answers);
        push_byte(bytes[0], answers);
        push("|", answers);
        return;
    }
    for byte in bytes {
        push_byte(*byte, answers);
    }
}

fn push_byte(byte: u8, answers: &mut Answers) {
    match byte {
        b'\r' => push("\\r", answers),
        b'\n' => push("\\n", answers),
        _ if is_plain(byte) => answers.extend(&[byte]),
        _ => answers.extend(&[b'\\', digit_of(byte / 16), digit_of(byte % 16)]),
    }
}

/// Whether a byte spells itself: a visible one of ASCII other than the backslash and the bar, or a blank.
fn is_plain(byte: u8) -> bool {
    byte == b' ' || byte.is_ascii_graphic() && byte != b'\\' && byte != b'|'
}

/// The hexadecimal digit of a number below 16.
fn digit_of(number: u8) -> u8 {
    match char::from_digit(u32::from(number), 16) {
        Some(digit) => digit as u8,
        None => b'?',
    }
}
