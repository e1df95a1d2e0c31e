// Calls of a client.
use crate::links::{Links, peer_link, spell_end};
use crate::writing::{body_in, text_in};
use oe_client::{
    ClientCommand, ClientFail, PageFail, client_call, client_command, find_verb, is_argument_of,
    next_offset,
};
use oe_dims::Text;
use oe_lines::{Answers, Fault, Line, end_line, escaped_bytes, push, push_number, push_quoted};
use oe_outside::{MemoryLink, MemorySink};
use std::alloc::Global;

/// The host that requests are written to.
const HOST: &str = "example.org:80";

/// How many bytes the output has room for.
const ROOM: usize = 65535;

/// Makes the call that `FAILING VERB ARGUMENT TOKEN INPUT RESPONSE` spell, and appends what was sent, the answer, and what
/// the output holds.
pub(crate) fn answer_call(
    links: Links<'_>,
    line: &mut Line,
    answers: &mut Answers,
) -> Result<(), Fault> {
    let failing = line.numbers();
    match command_of(line, answers)? {
        Some(command) => make_call(links, &command, failing, line, answers),
        None => {
            push("no call\n", answers);
            Ok(())
        }
    }
}

/// Appends where the next page of a list begins, by the body of the page at an offset, which `LIST OFFSET BODY` spell.
pub(crate) fn answer_next(line: &mut Line, answers: &mut Answers) -> Result<(), Fault> {
    let list = line.word();
    let offset = line.number::<u64>();
    if offset > 100000 {
        return Err(Fault::Line);
    }
    let body = escaped_bytes(line.alloc(), line.rest())?;
    match next_offset(line.alloc(), list, &body, offset) {
        Ok(Some(next)) => push_number("", next, answers),
        Ok(None) => push("none", answers),
        Err(PageFail::Invalid) => push("invalid", answers),
        Err(PageFail::OutOfMemory) => answers.note(Fault::OutOfMemory),
    }
    end_line(answers);
    Ok(())
}

/// The request of the call, `None` where no verb has the word, or the argument does not stand behind it.
fn command_of(line: &mut Line, answers: &mut Answers) -> Result<Option<ClientCommand>, Fault> {
    let Some(verb) = find_verb(line.word()) else {
        return Ok(None);
    };
    let alloc = line.alloc();
    let argument = text_in(alloc, line.word(), answers);
    if !is_argument_of(verb.3, argument.as_ref()) {
        return Ok(None);
    }
    let token = text_in(alloc, line.word(), answers);
    let input = body_in(alloc, line.word(), answers);
    let host = Text::of(alloc, HOST)?;
    let command = client_command(alloc, verb, argument.as_ref(), token.as_ref(), host, input)?;
    Ok(Some(command))
}

/// Makes a call of a peer that gives the bytes of the rest of the line, to an output whose writes of these numbers fail.
fn make_call(
    links: Links<'_>,
    command: &ClientCommand,
    failing: Vec<u64>,
    line: &mut Line,
    answers: &mut Answers,
) -> Result<(), Fault> {
    let alloc = line.alloc();
    let mut link = peer_link(alloc, escaped_bytes(alloc, line.rest())?, links)?;
    let mut out = MemorySink::new(alloc, ROOM, failing)?;
    carry_out(alloc, command, &mut link, &mut out, answers);
    Ok(())
}

/// Makes a call, and appends what was sent, the answer, and what the output holds.
fn carry_out(
    alloc: Global,
    command: &ClientCommand,
    link: &mut MemoryLink,
    out: &mut MemorySink,
    answers: &mut Answers,
) {
    let outcome = client_call(alloc, command, link, out);
    push_quoted("sent ", link.written(), answers);
    spell_outcome(&outcome, answers);
    push_quoted(" out ", out.bytes(), answers);
    spell_end(link, answers);
}

fn spell_outcome(outcome: &Result<(), ClientFail>, answers: &mut Answers) {
    match outcome {
        Ok(()) => push(" done", answers),
        Err(ClientFail::LinkFailed) => push(" LinkFailed", answers),
        Err(ClientFail::PeerInvalid) => push(" PeerInvalid", answers),
        Err(ClientFail::Refused { status, body }) => {
            push_number(" Refused ", *status, answers);
            push_quoted(" ", body, answers);
        }
        Err(ClientFail::SinkFailed) => push(" SinkFailed", answers),
        Err(ClientFail::OutOfMemory) => answers.note(Fault::OutOfMemory),
    }
}
