// What is read of messages.
use crate::links::{Links, incoming_link, spell_end};
use crate::objects::print_text;
use oe_dims::Text;
use oe_http::{Request, RequestRefusal, Response, ResponseRefusal, read_request, read_response};
use oe_lines::{Answers, Fault, Line, escaped_bytes, last_other, push, push_number, push_quoted};
use oe_outside::MemoryLink;
use std::alloc::Global;

/// What is read.
#[derive(Clone, Copy)]
pub(crate) enum Message {
    Request,
    Response,
}

/// Reads a message from each link, and appends the answers, each that is not the one before it.
pub(crate) fn answer_read(
    links: Links<'_>,
    message: Message,
    line: &mut Line,
    answers: &mut Answers,
) -> Result<(), Fault> {
    let alloc = line.alloc();
    let bytes = escaped_bytes(alloc, line.rest())?;
    let mut before = answers.bytes().len();
    for piece in links.pieces.split(',') {
        let from = answers.bytes().len();
        read_from_link(alloc, &bytes, piece, links.calls, message, answers)?;
        before = last_other(before, from, answers);
    }
    Ok(())
}

/// Reads a message from a link that gives these bytes, and appends a line of the answer.
fn read_from_link(
    alloc: Global,
    bytes: &[u8],
    piece: &str,
    calls: &str,
    message: Message,
    answers: &mut Answers,
) -> Result<(), Fault> {
    let mut link = incoming_link(alloc, bytes, piece, calls)?;
    match message {
        Message::Request => spell_read_request(alloc, &mut link, answers),
        Message::Response => spell_read_response(alloc, &mut link, answers),
    }
    spell_end(&link, answers);
    Ok(())
}

fn spell_read_request(alloc: Global, link: &mut MemoryLink, answers: &mut Answers) {
    match read_request(alloc, link) {
        Ok(request) => spell_request(&request, answers),
        Err(refusal) => push(request_refusal(refusal), answers),
    }
}

fn spell_read_response(alloc: Global, link: &mut MemoryLink, answers: &mut Answers) {
    match read_response(alloc, link) {
        Ok(response) => spell_response(&response, answers),
        Err(refusal) => push(response_refusal(refusal), answers),
    }
}

fn spell_request(request: &Request, answers: &mut Answers) {
    push(request.method.as_str(), answers);
    push_quoted(" path ", request.path.as_str().as_bytes(), answers);
    push_quoted(" query ", request.query.as_str().as_bytes(), answers);
    spell_text(" authorization ", &request.authorization, answers);
    push_quoted(" body ", &request.body, answers);
}

fn spell_response(response: &Response, answers: &mut Answers) {
    push_number("", response.status, answers);
    push(if response.json { " json" } else { "" }, answers);
    spell_text(" location ", &response.location, answers);
    spell_text(" identifier ", &response.identifier, answers);
    push_quoted(" body ", &response.body, answers);
}

/// Appends a name and a text, where there is one.
fn spell_text(name: &str, text: &Option<Text>, answers: &mut Answers) {
    if let Some(text) = text {
        push_quoted(name, text.as_str().as_bytes(), answers);
    }
}

fn request_refusal(refusal: RequestRefusal) -> &'static str {
    match refusal {
        RequestRefusal::Malformed => "Malformed",
        RequestRefusal::HeadTooLong => "HeadTooLong",
        RequestRefusal::BodyTooLong => "BodyTooLong",
        RequestRefusal::CodingUnsupported => "CodingUnsupported",
        RequestRefusal::Truncated => "Truncated",
        RequestRefusal::LinkFailed => "LinkFailed",
        RequestRefusal::OutOfMemory => "OutOfMemory",
    }
}

fn response_refusal(refusal: ResponseRefusal) -> &'static str {
    match refusal {
        ResponseRefusal::Malformed => "Malformed",
        ResponseRefusal::TooLong => "TooLong",
        ResponseRefusal::Truncated => "Truncated",
        ResponseRefusal::LinkFailed => "LinkFailed",
        ResponseRefusal::OutOfMemory => "OutOfMemory",
    }
}

/// Appends the text of each refusal of a request, then of each refusal of a response, one a line.
pub(crate) fn answer_texts(alloc: Global, answers: &mut Answers) {
    for refusal in [
        RequestRefusal::Malformed,
        RequestRefusal::HeadTooLong,
        RequestRefusal::BodyTooLong,
        RequestRefusal::CodingUnsupported,
        RequestRefusal::Truncated,
        RequestRefusal::LinkFailed,
        RequestRefusal::OutOfMemory,
    ] {
        print_text(alloc, &refusal, answers);
    }
    response_texts(alloc, answers);
}

fn response_texts(alloc: Global, answers: &mut Answers) {
    for refusal in [
        ResponseRefusal::Malformed,
        ResponseRefusal::TooLong,
        ResponseRefusal::Truncated,
        ResponseRefusal::LinkFailed,
        ResponseRefusal::OutOfMemory,
    ] {
        print_text(alloc, &refusal, answers);
    }
}
