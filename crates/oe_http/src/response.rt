// Replies.
ghost use Rattle.std.specs.Prelude.{◌≡◌, ◌&&◌, ◌++◌, IsSome, None, true, OnOk, OnErr};
ghost use Rattle.std.specs.Option.{option_copied};
ghost use Rattle.http.specs.StatusCode.{reason_phrase};
ghost use Rattle.oe_outside.specs.Faults.{HasCause};
ghost use Rattle.oe_outside.specs.Visible.{Appends, AppendsPrefix};
ghost use Rattle.oe_http.specs.Sent.{HasSent};
ghost use Rattle.oe_http.specs.Replies.{code_line, end_lines, field_lines, further_lines, has_body, has_length, length_line, name_lines, plain_response, reply_bytes, reply_head, sent_body, status_line, type_line};

use crate::write::{
    Held, flush, has_body, has_length, phrase, send, send_field, send_three, send_two, value_of,
};
use itoa::Buffer;
use oe_dims::Text;
use oe_outside::{Failed, Link};

/// A reply. Where `json` holds its body is a JSON text. Statuses 201, 202 and 204 send no body.
pub struct Response {
    pub status: u16,
    pub location: Option<Text>,
    pub identifier: Option<Text>,
    pub json: bool,
    pub body: Vec<u8>,
}

/// Written out, so that a reply that ends is one call wherever it does.
impl Drop for Response {
    fn drop(self) {
        let Response {
            status: _,
            location: _,
            identifier: _,
            json: _,
            body: _,
        } = self;
    }
}

impl Response {
    /// The body of a reply, which is given up for it.
    pub fn into_body(self) -> Vec<u8>
        ensures { result ≡ self.body }
    {
        let Response {
            status: _,
            location: _,
            identifier: _,
            json: _,
            body,
        } = self;
        body
    }
}

/// Writes a reply: its head and its body (RFC 9112). It takes no memory.
///
/// Refuses: only where the link's fault counter rose. Then a prefix of the reply was written.
pub fn write_response<L: Link>(link: &mut L, response: &Response) -> Result<(), Failed>
    requires { IsSome (reason_phrase response.now.status) }
    ensures appended { OnOk result (Appends (L.written link.old)
        (reply_bytes (plain_response response.now)) (L.written link.new)) }
    ensures prefix { OnErr result (AppendsPrefix (L.written link.old)
        (reply_bytes (plain_response response.now)) (L.written link.new)) }
    ensures same { L.left link.new ≡ L.left link.old }
    ensures cause { HasCause (L.faults link.old) (L.faults link.new) result }
{
    let body = sent_body(response);
    write_parts(
        link,
        response.status,
        value_of(&response.location),
        value_of(&response.identifier),
        response.json,
        body.len() as u64,
        body,
    )
}

/// The body that a reply sends.
fn sent_body(response: &Response) -> &[u8]
    ensures { result.now ≡ sent_body (plain_response response.now) }
{
    if has_body(response.status) {
        &response.body
    } else {
        b""
    }
}

/// Writes the head of a reply whose body of so many bytes, a JSON text, follows. It takes no memory.
///
/// Refuses: only where the link's fault counter rose. Then a prefix of the head was written.
pub fn write_head<L: Link>(link: &mut L, status: u16, length: u64) -> Result<(), Failed>
    requires { IsSome (reason_phrase status) }
    ensures appended { OnOk result (Appends (L.written link.old)
        (reply_head status None None true length) (L.written link.new)) }
    ensures prefix { OnErr result (AppendsPrefix (L.written link.old)
        (reply_head status None None true length) (L.written link.new)) }
    ensures same { L.left link.new ≡ L.left link.old }
    ensures cause { HasCause (L.faults link.old) (L.faults link.new) result }
{
    write_parts(link, status, None, None, true, length, b"")
}

/// Writes a head and what stands behind it.
fn write_parts<L: Link>(
    link: &mut L,
    status: u16,
    location: Option<&str>,
    identifier: Option<&str>,
    json: bool,
    length: u64,
    body: &[u8],
) -> Result<(), Failed>
    ensures appended { OnOk result (Appends (L.written link.old) (reply_head status
        (option_copied location.entry) (option_copied identifier.entry) json length ++ body.now)
        (L.written link.new)) }
    ensures prefix { OnErr result (AppendsPrefix (L.written link.old) (reply_head
        status (option_copied location.entry) (option_copied identifier.entry) json length
        ++ body.now) (L.written link.new)) }
    ensures same { L.left link.new ≡ L.left link.old }
    ensures cause { HasCause (L.faults link.old) (L.faults link.new) result }
{
    let mut held = Held::new();
    send_reply(
        link, &mut held, status, location, identifier, json, length, body,
    )?;
    flush(link, &mut held)
}

/// Sends a head and what stands behind it.
fn send_reply<L: Link>(
    link: &mut L,
    held: &mut Held,
    status: u16,
    location: Option<&str>,
    identifier: Option<&str>,
    json: bool,
    length: u64,
    body: &[u8],
) -> Result<(), Failed>
    ensures sent { HasSent L.written L.faults link.old held.old (reply_head status
        (option_copied location.entry) (option_copied identifier.entry) json length ++ body.now)
        link.new held.new result }
    ensures same { L.left link.new ≡ L.left link.old }
{
    send_head(link, held, status, location, identifier, json, length)?;
    send(link, held, body)
}

/// Sends a head.
fn send_head<L: Link>(
    link: &mut L,
    held: &mut Held,
    status: u16,
    location: Option<&str>,
    identifier: Option<&str>,
    json: bool,
    length: u64,
) -> Result<(), Failed>
    ensures sent { HasSent L.written L.faults link.old held.old
        (reply_head status (option_copied location.entry) (option_copied identifier.entry) json
        length) link.new held.new result }
    ensures same { L.left link.new ≡ L.left link.old }
{
    send_status(link, held, status)?;
    send_fields(link, held, status, location, identifier, json, length)
}

/// Sends the first line.
fn send_status<L: Link>(link: &mut L, held: &mut Held, status: u16) -> Result<(), Failed>
    ensures sent { HasSent L.written L.faults link.old held.old (status_line status) link.new
        held.new result }
    ensures same { L.left link.new ≡ L.left link.old }
{
    let mut digits = Buffer::new();
    let digits = digits.format(status).as_bytes();
    send_code(link, held, digits, phrase(status).as_bytes())
}

/// Sends the first line of these digits and this phrase.
fn send_code<L: Link>(
    link: &mut L,
    held: &mut Held,
    digits: &[u8],
    phrase: &[u8],
) -> Result<(), Failed>
    ensures sent { HasSent L.written L.faults link.old held.old
        (code_line digits.now phrase.now) link.new held.new result }
    ensures same { L.left link.new ≡ L.left link.old }
{
    send_two(link, held, b"HTTP/1.1 ", digits)?;
    send_three(link, held, b" ", phrase, b"\r\n")
}

/// Sends the lines behind the first.
fn send_fields<L: Link>(
    link: &mut L,
    held: &mut Held,
    status: u16,
    location: Option<&str>,
    identifier: Option<&str>,
    json: bool,
    length: u64,
) -> Result<(), Failed>
    ensures sent { HasSent L.written L.faults link.old held.old
        (field_lines status (option_copied location.entry) (option_copied identifier.entry) json
        length) link.new held.new result }
    ensures same { L.left link.new ≡ L.left link.old }
{
    send_type(link, held, status, json)?;
    send_further(link, held, status, location, identifier, length)
}

/// Sends the lines behind the type's.
fn send_further<L: Link>(
    link: &mut L,
    held: &mut Held,
    status: u16,
    location: Option<&str>,
    identifier: Option<&str>,
    length: u64,
) -> Result<(), Failed>
    ensures sent { HasSent L.written L.faults link.old held.old
        (further_lines status (option_copied location.entry) (option_copied identifier.entry)
        length) link.new held.new result }
    ensures same { L.left link.new ≡ L.left link.old }
{
    send_names(link, held, location, identifier)?;
    send_last(link, held, status, length)
}

/// Sends the lines of the location and the identifier.
fn send_names<L: Link>(
    link: &mut L,
    held: &mut Held,
    location: Option<&str>,
    identifier: Option<&str>,
) -> Result<(), Failed>
    ensures sent { HasSent L.written L.faults link.old held.old
        (name_lines (option_copied location.entry) (option_copied identifier.entry))
        link.new held.new result }
    ensures same { L.left link.new ≡ L.left link.old }
{
    send_field(link, held, b"Location: ", location)?;
    send_field(link, held, b"OpenEO-Identifier: ", identifier)
}

/// Sends the last lines.
fn send_last<L: Link>(link: &mut L, held: &mut Held, status: u16, length: u64) -> Result<(), Failed>
    ensures sent { HasSent L.written L.faults link.old held.old (end_lines status length) link.new
        held.new result }
    ensures same { L.left link.new ≡ L.left link.old }
{
    send_length(link, held, status, length)?;
    send(link, held, b"Connection: close\r\n\r\n")
}

/// Sends the line of the length, where replies of the status say one.
fn send_length<L: Link>(
    link: &mut L,
    held: &mut Held,
    status: u16,
    length: u64,
) -> Result<(), Failed>
    ensures sent { HasSent L.written L.faults link.old held.old
        (length_line (has_length status) length) link.new held.new result }
    ensures same { L.left link.new ≡ L.left link.old }
{
    if !has_length(status) {
        return Ok(());
    }
    let mut digits = Buffer::new();
    send_three(
        link,
        held,
        b"Content-Length: ",
        digits.format(length).as_bytes(),
        b"\r\n",
    )
}

/// Sends the line of the type, where there is one.
fn send_type<L: Link>(link: &mut L, held: &mut Held, status: u16, json: bool) -> Result<(), Failed>
    ensures sent { HasSent L.written L.faults link.old held.old
        (type_line (json && has_body status)) link.new held.new result }
    ensures same { L.left link.new ≡ L.left link.old }
{
    send(link, held, type_line(has_type(status, json)))
}

/// Whether a reply says a type.
fn has_type(status: u16, json: bool) -> bool
    ensures { result ≡ (json && has_body status) }
{
    json && has_body(status)
}

/// The line of the type of a JSON text, where it applies.
fn type_line(applies: bool) -> &'static [u8]
    ensures { result.now ≡ type_line applies }
{
    if applies {
        b"Content-Type: application/json\r\n"
    } else {
        b""
    }
}
