// Texts that are written to a link, one behind the other.
ghost use Rattle.std.specs.Prelude.{◌≡◌, ◌++◌, ◌+◌, ◌≤◌, length, OnOk, [], unwrap_or};
ghost use Rattle.std.specs.Option.{option_map};
ghost use Rattle.http.specs.StatusCode.{reason_phrase};
ghost use Rattle.oe_http.specs.Replies.{field_line, has_body, has_length};
ghost use Rattle.oe_http.specs.Sent.{HasSent};

use http::StatusCode;
use oe_dims::Text;
use oe_outside::{Failed, Link};
use std::marker::Model;

/// How many bytes are gathered before they are written.
const ROOM: usize = 2048;

/// Bytes that wait to be written, in a buffer on the stack. Contracts see the bytes.
#[derive(Drop)]
pub(crate) struct Held {
    room: [u8; ROOM],
    len: usize,
}

impl Model for Held {
    ghost use Rattle.std.specs.Prelude.{◌≡◌, ◌≤◌, ℕ, List, length, take};

    ghost Value = { List ℕ };

    ghost view = { λ h. take h.len h.room };

    ghost invariant = { λ h. (h.len ≤ 2048) × (length h.room ≡ 2048) };
}

impl Held {
    /// No bytes.
    pub(crate) fn new() -> Held
        ensures { result ≡ [] }
    {
        Held {
            room: [0; ROOM],
            len: 0,
        }
    }

    fn len(&self) -> usize
        ensures is { result ≡ length self.now }
        ensures within { result ≤ 2048 }
    {
        self.len
    }

    fn bytes(&self) -> &[u8]
        ensures { result.now ≡ self.now }
    {
        &self.room[..self.len]
    }

    fn clear(&mut self)
        ensures { self.new ≡ [] }
    {
        self.len = 0;
    }

    /// Appends a piece that fits.
    fn push(&mut self, piece: &[u8])
        requires { length self.old + length piece.now ≤ 2048 }
        ensures { self.new ≡ self.old ++ piece.now }
    {
        let end = self.len + piece.len();
        self.room[self.len..end].copy_from_slice(piece);
        self.len = end;
    }
}

/// Writes what is held, in one write.
pub(crate) fn flush<L: Link>(link: &mut L, held: &mut Held) -> Result<(), Failed>
    ensures sent { HasSent L.written L.faults link.old held.old [] link.new held.new result }
    ensures empty { OnOk result (held.new ≡ []) }
    ensures same { L.left link.new ≡ L.left link.old }
{
    link.write(held.bytes())?;
    held.clear();
    Ok(())
}

/// Sends a piece behind what is held: it waits there where it fits, and what was held is written where it does not.
pub(crate) fn send<L: Link>(link: &mut L, held: &mut Held, piece: &[u8]) -> Result<(), Failed>
    ensures sent { HasSent L.written L.faults link.old held.old piece.now link.new held.new
        result }
    ensures same { L.left link.new ≡ L.left link.old }
{
    if piece.len() <= ROOM - held.len() {
        held.push(piece);
        return Ok(());
    }
    flush(link, held)?;
    send_alone(link, held, piece)
}

/// Sends a piece where nothing is held. A piece that is longer than the room is written at once.
fn send_alone<L: Link>(link: &mut L, held: &mut Held, piece: &[u8]) -> Result<(), Failed>
    requires { held.old ≡ [] }
    ensures sent { HasSent L.written L.faults link.old [] piece.now link.new held.new result }
    ensures same { L.left link.new ≡ L.left link.old }
{
    if piece.len() <= ROOM {
        held.push(piece);
        return Ok(());
    }
    link.write(piece)
}

/// Sends two pieces.
pub(crate) fn send_two<L: Link>(
    link: &mut L,
    held: &mut Held,
    first: &[u8],
    second: &[u8],
) -> Result<(), Failed>
    ensures sent { HasSent L.written L.faults link.old held.old (first.now ++ second.now) link.new
        held.new result }
    ensures same { L.left link.new ≡ L.left link.old }
{
    send(link, held, first)?;
    send(link, held, second)
}

/// Sends three pieces.
pub(crate) fn send_three<L: Link>(
    link: &mut L,
    held: &mut Held,
    first: &[u8],
    second: &[u8],
    third: &[u8],
) -> Result<(), Failed>
    ensures sent { HasSent L.written L.faults link.old held.old
        (first.now ++ (second.now ++ third.now)) link.new held.new result }
    ensures same { L.left link.new ≡ L.left link.old }
{
    send(link, held, first)?;
    send_two(link, held, second, third)
}

/// Sends a field's line: its name, its value and its end, or nothing where it has no value.
pub(crate) fn send_field<L: Link>(
    link: &mut L,
    held: &mut Held,
    name: &[u8],
    value: Option<&str>,
) -> Result<(), Failed>
    ensures sent { HasSent L.written L.faults link.old held.old
        (field_line name.now (option_map (λ text. text.now) value.entry)) link.new held.new
        result }
    ensures same { L.left link.new ≡ L.left link.old }
{
    match value {
        None => Ok(()),
        Some(value) => send_three(link, held, name, value.as_bytes(), b"\r\n"),
    }
}

/// Whether replies of a status have a body.
pub(crate) fn has_body(status: u16) -> bool
    ensures { result ≡ has_body status }
{
    !(status == 201 || status == 202 || status == 204)
}

/// Whether replies of a status say a length.
pub(crate) fn has_length(status: u16) -> bool
    ensures { result ≡ has_length status }
{
    status != 204
}

/// The standard phrase of a status, or nothing where it has none.
pub(crate) fn phrase(status: u16) -> &'static str
    ensures { result.now ≡ unwrap_or (reason_phrase status) [] }
{
    match StatusCode::from_u16(status) {
        Ok(code) => match code.canonical_reason() {
            Some(text) => text,
            None => "",
        },
        Err(_) => "",
    }
}

/// The text that an `Option` holds.
pub(crate) fn value_of(text: &Option<Text>) -> Option<&str>
    ensures { option_map (λ t. t.now) result ≡ text.now }
{
    match text {
        None => None,
        Some(text) => Some(text.as_str()),
    }
}
