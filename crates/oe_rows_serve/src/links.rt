// Connections from lines.
ghost use Rattle.std.specs.Prelude.{◌≡◌, All, IfOk};
ghost use Rattle.oe_outside.specs.ScriptDoors.{IsSound};

use oe_lines::{Answers, Fault, first_word, number_of, numbers_of, push, push_all, push_number};
use oe_outside::{MemoryLink, ScriptDoor};
use std::alloc::Global;

/// The most bytes that one read of a connection gives, and that are written to it.
const ROOM: usize = 65536;

/// A door by which the connections of these lines come, and of which these calls fail.
pub(crate) fn door_of(alloc: Global, lines: &str, calls: &[u64]) -> Result<ScriptDoor, Fault> {
    let links = links_of(alloc, lines)?;
    let calls = calls.to_vec(alloc)?;
    Ok(ScriptDoor::new(alloc, links, Vec::new(alloc), calls)?)
}

fn links_of(alloc: Global, lines: &str) -> Result<Vec<MemoryLink>, Fault>
    ensures { IfOk result (λ links. All IsSound links.items) }
{
    let mut links = Vec::new(alloc);
    for line in lines.lines() {
        links.push(link_of(alloc, line)?)?;
    }
    Ok(links)
}

fn link_of(alloc: Global, line: &str) -> Result<MemoryLink, Fault>
    ensures { IfOk result (λ link. link.faults ≡ 0) }
{
    let (verb, rest) = first_word(line);
    let (first, behind) = first_word(rest);
    match verb {
        "ask" => made(alloc, request_bytes(alloc, rest)?, ROOM, "-"),
        "broken" => made(alloc, request_bytes(alloc, behind)?, ROOM, first),
        "link" => made(alloc, text_bytes(alloc, behind)?, number_of(first)?, "-"),
        _ => Err(Fault::Line),
    }
}

/// A connection with these bytes, of which one read gives so many at most, and of which these calls fail.
fn made(alloc: Global, bytes: Vec<u8>, piece: usize, calls: &str) -> Result<MemoryLink, Fault>
    ensures { IfOk result (λ link. link.faults ≡ 0) }
{
    let calls = numbers_of(alloc, calls)?;
    Ok(MemoryLink::new(alloc, bytes, piece.max(1), ROOM, calls)?)
}

/// The bytes of the request `METHOD TARGET TOKEN BODY`, where the token is `-` for none.
fn request_bytes(alloc: Global, line: &str) -> Result<Vec<u8>, Fault> {
    let (method, line) = first_word(line);
    let (target, line) = first_word(line);
    let (token, body) = first_word(line);
    let mut bytes = Answers::new(alloc);
    push_all(&[method, " ", target, " HTTP/1.1\r\n"], &mut bytes);
    push_token(token, &mut bytes);
    push_length(body.len(), &mut bytes);
    push_all(&["\r\n", body], &mut bytes);
    bytes.into_bytes()
}

fn push_token(token: &str, bytes: &mut Answers) {
    if token != "-" {
        push_all(&["Authorization: Bearer basic//", token, "\r\n"], bytes);
    }
}

fn push_length(length: usize, bytes: &mut Answers) {
    if length > 0 {
        push_number("Content-Length: ", length, bytes);
        push("\r\n", bytes);
    }
}

/// The bytes of a text, in which `\r\n` stands for the end of a line.
fn text_bytes(alloc: Global, text: &str) -> Result<Vec<u8>, Fault> {
    Ok(text.replace(alloc, "\\r\\n", "\r\n")?.into_bytes())
}
