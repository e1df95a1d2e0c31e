// Parts of answers, for values that no request gives.
use crate::asked::push_response;
use crate::codes::{CODES, GRAPH_CODES, code_among};
use crate::requested::request_of;
use oe_dims::Text;
use oe_http::Response;
use oe_jobs::{Level, LogEntry};
use oe_lines::{
    Answers, Fault, end_line, escaped_bytes, first_word, names_of, number_of, push, push_number,
};
use oe_replies::{Endpoint, ReplyCode, capabilities_body, error_body, logs_body, refused_reply};
use oe_routes::{Refusal, Tokens, TokensFail, asks_for_rows, logs_asked};
use std::alloc::Global;

/// Appends the answer to a line about values, which begins with this word.
pub(crate) fn answer_value(alloc: Global, word: &str, line: &str, answers: &mut Answers) {
    match word {
        "refused" => push_refusal(refusal_of(alloc, &CODES, line), answers),
        "fault" => push_refusal(refusal_of(alloc, &GRAPH_CODES, line), answers),
        "rows" => push_asking(asking_of(alloc, line), answers),
        "query" => push_query(alloc, line, answers),
        "users" => push_users(alloc, line, answers),
        _ => push_body(body_of(alloc, word, line), answers),
    }
    end_line(answers);
}

/// The reply to a refusal, `CODE DETAIL`.
fn refusal_of(alloc: Global, codes: &[ReplyCode], line: &str) -> Result<Response, Fault> {
    let (word, detail) = first_word(line);
    Ok(refused_reply(alloc, code_among(codes, word)?, detail)?)
}

fn push_refusal(reply: Result<Response, Fault>, answers: &mut Answers) {
    match reply {
        Ok(reply) => push_response(&reply, answers),
        Err(fault) => answers.note(fault),
    }
}

/// Whether a request asks for the rows of the collections.
fn asking_of(alloc: Global, line: &str) -> Result<bool, Fault> {
    let request = request_of(alloc, line)?;
    Ok(asks_for_rows(alloc, &request)?)
}

fn push_asking(asks: Result<bool, Fault>, answers: &mut Answers) {
    match asks {
        Ok(true) => push("yes", answers),
        Ok(false) => push("no", answers),
        Err(fault) => answers.note(fault),
    }
}

/// Appends the level and the offset that the query of a request for logs asks for, or its refusal.
fn push_query(alloc: Global, query: &str, answers: &mut Answers) {
    match logs_asked(alloc, query) {
        Ok((level, offset)) => {
            push(level.as_str(), answers);
            push_number(" ", offset, answers);
        }
        Err(Refusal::Code(code)) => {
            push_number("", code.status(), answers);
            push(" ", answers);
            push(code.as_str(), answers);
        }
        Err(Refusal::OutOfMemory) => answers.note(Fault::OutOfMemory),
    }
}

/// Appends the users and tokens of a file of these bytes, or the number of its first bad line.
fn push_users(alloc: Global, spelled: &str, answers: &mut Answers) {
    match tokens_of(alloc, spelled) {
        Ok(Ok(tokens)) => push_entries(tokens.entries(), answers),
        Ok(Err(line)) => push_number("Invalid ", line, answers),
        Err(fault) => answers.note(fault),
    }
}

fn tokens_of(alloc: Global, spelled: &str) -> Result<Result<Tokens, u32>, Fault> {
    match Tokens::read(alloc, &escaped_bytes(alloc, spelled)?) {
        Ok(tokens) => Ok(Ok(tokens)),
        Err(TokensFail::Invalid(line)) => Ok(Err(line)),
        Err(TokensFail::OutOfMemory) => Err(Fault::OutOfMemory),
    }
}

fn push_entries(entries: &[(Text, Text)], answers: &mut Answers) {
    push("users", answers);
    for entry in entries {
        push(" ", answers);
        push(entry.0.as_str(), answers);
        push("=", answers);
        push(entry.1.as_str(), answers);
    }
}

fn push_body(body: Result<Vec<u8>, Fault>, answers: &mut Answers) {
    match body {
        Ok(body) => answers.extend(&body),
        Err(fault) => answers.note(fault),
    }
}

/// The body that a line asks for.
fn body_of(alloc: Global, word: &str, line: &str) -> Result<Vec<u8>, Fault> {
    let (first, rest) = first_word(line);
    match word {
        "error" => Ok(error_body(alloc, first, rest)?),
        "capabilities" => Ok(capabilities_body(alloc, &endpoints_of(alloc, line)?)?),
        "logs" => shown_logs(alloc, level_of(first)?, rest),
        _ => Err(Fault::Line),
    }
}

/// Endpoints with semicolons between them.
fn endpoints_of(alloc: Global, line: &str) -> Result<Vec<Endpoint>, Fault> {
    let mut endpoints = Vec::new(alloc);
    if !line.is_empty() {
        for part in line.split(';') {
            endpoints.push(endpoint_of(alloc, part)?)?;
        }
    }
    Ok(endpoints)
}

/// A path with its methods behind a blank, which have commas between them.
fn endpoint_of(alloc: Global, part: &str) -> Result<Endpoint, Fault> {
    let (path, names) = first_word(part);
    match names_of(alloc, names)? {
        Some(methods) => Ok(Endpoint {
            path: Text::of(alloc, path)?,
            methods,
        }),
        None => Err(Fault::Line),
    }
}

/// The body of the entries of a log, `OFFSET ENTRY;ENTRY`, at a level and behind an offset.
fn shown_logs(alloc: Global, level: Level, line: &str) -> Result<Vec<u8>, Fault> {
    let (offset, entries) = first_word(line);
    let offset = number_of(offset)?;
    Ok(logs_body(alloc, &entries_of(alloc, entries)?, level, offset)?)
}

fn entries_of(alloc: Global, line: &str) -> Result<Vec<LogEntry>, Fault> {
    let mut entries = Vec::new(alloc);
    for part in line.split(';') {
        entries.push(entry_of(alloc, part)?)?;
    }
    Ok(entries)
}

/// An entry of a level, a code and a message.
fn entry_of(alloc: Global, part: &str) -> Result<LogEntry, Fault> {
    let (level, words) = first_word(part);
    let (code, message) = first_word(words);
    Ok(LogEntry {
        level: level_of(level)?,
        code: code_of(alloc, code)?,
        message: Text::of(alloc, message)?,
    })
}

/// The code of a word, `-` for none.
fn code_of(alloc: Global, word: &str) -> Result<Option<Text>, Fault> {
    match word {
        "-" => Ok(None),
        _ => Ok(Some(Text::of(alloc, word)?)),
    }
}

fn level_of(word: &str) -> Result<Level, Fault> {
    match Level::of(word) {
        Some(level) => Ok(level),
        None => Err(Fault::Line),
    }
}
