// Messages that are written.
ghost use Rattle.std.specs.Prelude.{IsSome, IsTrue};
ghost use Rattle.http.specs.StatusCode.{reason_phrase};

use crate::links::{Links, outgoing_link, spell_end};
use http::{Method, StatusCode};
use oe_dims::Text;
use oe_http::{Request, Response, write_head, write_request, write_response};
use oe_lines::{Answers, Fault, Line, escaped_bytes, escaped_text, push_quoted};
use oe_outside::{Failed, MemoryLink};
use std::alloc::Global;

/// Writes what a line that begins with this word describes, and appends what was written.
pub(crate) fn answer_written(
    links: Links<'_>,
    word: &str,
    line: &mut Line,
    answers: &mut Answers,
) -> Result<(), Fault> {
    let mut link = outgoing_link(line.alloc(), links.calls)?;
    let outcome = match word {
        "reply" => write_reply(line, &mut link, answers)?,
        "head" => write_reply_head(line, &mut link)?,
        "written" => write_to_host(line, &mut link, answers)?,
        _ => return Err(Fault::Line),
    };
    push_quoted(written_word(outcome), link.written(), answers);
    spell_end(&link, answers);
    Ok(())
}

fn written_word(outcome: Result<(), Failed>) -> &'static str {
    if outcome.is_ok() {
        "written "
    } else {
        "Failed "
    }
}

/// Writes a reply.
fn write_reply(
    line: &mut Line,
    link: &mut MemoryLink,
    answers: &mut Answers,
) -> Result<Result<(), Failed>, Fault> {
    let response = response_of(line, answers);
    if has_phrase(response.status) {
        Ok(write_response(link, &response))
    } else {
        Err(Fault::Line)
    }
}

/// Writes the head of a reply.
fn write_reply_head(line: &mut Line, link: &mut MemoryLink) -> Result<Result<(), Failed>, Fault> {
    let status = line.number();
    let length = line.number();
    if has_phrase(status) {
        Ok(write_head(link, status, length))
    } else {
        Err(Fault::Line)
    }
}

/// Writes a request to a host.
fn write_to_host(
    line: &mut Line,
    link: &mut MemoryLink,
    answers: &mut Answers,
) -> Result<Result<(), Failed>, Fault> {
    let host = line.word();
    let request = request_of(line, answers)?;
    Ok(write_request(link, &request, host))
}

/// Whether the status has a standard phrase, as every status has that may be written.
fn has_phrase(status: u16) -> bool
    ensures { IsTrue result → IsSome (reason_phrase status) }
{
    match StatusCode::from_u16(status) {
        Ok(code) => code.canonical_reason().is_some(),
        Err(_) => false,
    }
}

/// The reply that `STATUS TYPE LOCATION IDENTIFIER BODY` spell.
fn response_of(line: &mut Line, answers: &mut Answers) -> Response {
    let status = line.number();
    let json = line.takes("json");
    if !json {
        line.pass("-");
    }
    let location = text_in(line.alloc(), line.word(), answers);
    let identifier = text_in(line.alloc(), line.word(), answers);
    let body = body_in(line.alloc(), line.word(), answers);
    Response {
        status,
        location,
        identifier,
        json,
        body,
    }
}

/// The request that `METHOD PATH QUERY AUTHORIZATION BODY` spell.
fn request_of(line: &mut Line, answers: &mut Answers) -> Result<Request, Fault> {
    let alloc = line.alloc();
    let method = method_of(alloc, line.word())?;
    let path = escaped_text(alloc, line.word())?;
    let query = line.word();
    let query = escaped_text(alloc, if query == "-" { "" } else { query })?;
    let authorization = text_in(alloc, line.word(), answers);
    let body = body_in(alloc, line.word(), answers);
    Ok(Request {
        method,
        path,
        query,
        authorization,
        body,
    })
}

fn method_of(alloc: Global, word: &str) -> Result<Method, Fault> {
    match Method::from_bytes(alloc, word.as_bytes()) {
        Ok(method) => Ok(method),
        Err(_) => Err(Fault::Line),
    }
}

/// The text of a word, or none for `-`. A word that spells none is noted.
pub(crate) fn text_in(alloc: Global, word: &str, answers: &mut Answers) -> Option<Text> {
    if word == "-" {
        return None;
    }
    match escaped_text(alloc, word) {
        Ok(text) => Some(text),
        Err(fault) => {
            answers.note(fault);
            None
        }
    }
}

/// The bytes of a word, or none for `-`. A word that spells none is noted.
pub(crate) fn body_in(alloc: Global, word: &str, answers: &mut Answers) -> Vec<u8> {
    match escaped_bytes(alloc, if word == "-" { "" } else { word }) {
        Ok(bytes) => bytes,
        Err(fault) => {
            answers.note(fault);
            Vec::new(alloc)
        }
    }
}
