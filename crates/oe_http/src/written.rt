// Requests as they are written.
ghost use Rattle.std.specs.Prelude.{◌≡◌, ◌++◌, codes, OnOk, OnErr};
ghost use Rattle.oe_outside.specs.Faults.{HasCause};
ghost use Rattle.oe_outside.specs.Visible.{Appends, AppendsPrefix};
ghost use Rattle.oe_http.specs.Plain.{plain_request};
ghost use Rattle.oe_http.specs.Sent.{HasSent};
ghost use Rattle.oe_http.specs.Written.{host_line, last_lines, lines_behind, mark_before, query_part, request_bytes, request_head, request_line, target_line};
ghost use Rattle.oe_http.specs.Replies.{field_line};

use crate::Request;
use crate::write::{Held, flush, send, send_field, send_three, value_of};
use itoa::Buffer;
use oe_outside::{Failed, Link};

/// Writes a request to a host: its head and its body (RFC 9112). It takes no memory.
///
/// Refuses: only where the link's fault counter rose. Then a prefix of the request was written.
pub fn write_request<L: Link>(link: &mut L, request: &Request, host: &str) -> Result<(), Failed>
    ensures appended { OnOk result (Appends (L.written link.old)
        (request_bytes (plain_request request.now) host.now) (L.written link.new)) }
    ensures prefix { OnErr result (AppendsPrefix (L.written link.old)
        (request_bytes (plain_request request.now) host.now) (L.written link.new)) }
    ensures same { L.left link.new ≡ L.left link.old }
    ensures cause { HasCause (L.faults link.old) (L.faults link.new) result }
{
    let mut held = Held::new();
    send_request(link, &mut held, request, host)?;
    flush(link, &mut held)
}

/// Sends a request to a host.
fn send_request<L: Link>(
    link: &mut L,
    held: &mut Held,
    request: &Request,
    host: &str,
) -> Result<(), Failed>
    ensures sent { HasSent L.written L.faults link.old held.old
        (request_bytes (plain_request request.now) host.now) link.new held.new result }
    ensures same { L.left link.new ≡ L.left link.old }
{
    send_head(link, held, request, host)?;
    send(link, held, &request.body)
}

/// Sends its head.
fn send_head<L: Link>(
    link: &mut L,
    held: &mut Held,
    request: &Request,
    host: &str,
) -> Result<(), Failed>
    ensures sent { HasSent L.written L.faults link.old held.old
        (request_head (plain_request request.now) host.now) link.new held.new result }
    ensures same { L.left link.new ≡ L.left link.old }
{
    send_line(link, held, request)?;
    send_fields(link, held, request, host)
}

/// Sends its first line.
fn send_line<L: Link>(link: &mut L, held: &mut Held, request: &Request) -> Result<(), Failed>
    ensures sent { HasSent L.written L.faults link.old held.old
        (request_line (plain_request request.now)) link.new held.new result }
    ensures same { L.left link.new ≡ L.left link.old }
{
    let method = request.method.as_str().as_bytes();
    let path = request.path.as_str().as_bytes();
    send_target(link, held, method, path, request.query.as_str())
}

/// Sends the first line of a method and a target.
fn send_target<L: Link>(
    link: &mut L,
    held: &mut Held,
    method: &[u8],
    path: &[u8],
    query: &str,
) -> Result<(), Failed>
    ensures sent { HasSent L.written L.faults link.old held.old
        (target_line method.now path.now query.now) link.new held.new result }
    ensures same { L.left link.new ≡ L.left link.old }
{
    send_three(link, held, method, b" ", path)?;
    send_query(link, held, query)
}

/// Sends what follows the path in the first line.
fn send_query<L: Link>(link: &mut L, held: &mut Held, query: &str) -> Result<(), Failed>
    ensures sent { HasSent L.written L.faults link.old held.old (query_part query.now) link.new
        held.new result }
    ensures same { L.left link.new ≡ L.left link.old }
{
    send_three(
        link,
        held,
        mark_before(query),
        query.as_bytes(),
        b" HTTP/1.1\r\n",
    )
}

/// Sends its fields.
fn send_fields<L: Link>(
    link: &mut L,
    held: &mut Held,
    request: &Request,
    host: &str,
) -> Result<(), Failed>
    ensures sent { HasSent L.written L.faults link.old held.old
        (host_line host.now ++ lines_behind (plain_request request.now)) link.new held.new
        result }
    ensures same { L.left link.new ≡ L.left link.old }
{
    send_host(link, held, host)?;
    send_behind(link, held, request)
}

/// Sends the line of the host.
fn send_host<L: Link>(link: &mut L, held: &mut Held, host: &str) -> Result<(), Failed>
    ensures sent { HasSent L.written L.faults link.old held.old (host_line host.now) link.new
        held.new result }
    ensures same { L.left link.new ≡ L.left link.old }
{
    send_three(link, held, b"Host: ", host.as_bytes(), b"\r\n")
}

/// Sends the lines behind the host's.
fn send_behind<L: Link>(link: &mut L, held: &mut Held, request: &Request) -> Result<(), Failed>
    ensures sent { HasSent L.written L.faults link.old held.old
        (lines_behind (plain_request request.now)) link.new held.new result }
    ensures same { L.left link.new ≡ L.left link.old }
{
    send_authorization(link, held, request)?;
    send_last(link, held, request.body.len())
}

/// Sends the line of the authorization.
fn send_authorization<L: Link>(
    link: &mut L,
    held: &mut Held,
    request: &Request,
) -> Result<(), Failed>
    ensures sent { HasSent L.written L.faults link.old held.old
        (field_line (codes "Authorization: ") (plain_request request.now).authorization)
        link.new held.new result }
    ensures same { L.left link.new ≡ L.left link.old }
{
    send_field(
        link,
        held,
        b"Authorization: ",
        value_of(&request.authorization),
    )
}

/// Sends the last lines of a head, where the body has so many bytes.
fn send_last<L: Link>(link: &mut L, held: &mut Held, count: usize) -> Result<(), Failed>
    ensures sent { HasSent L.written L.faults link.old held.old (last_lines count) link.new
        held.new result }
    ensures same { L.left link.new ≡ L.left link.old }
{
    let mut digits = Buffer::new();
    send_three(
        link,
        held,
        b"Content-Length: ",
        digits.format(count).as_bytes(),
        b"\r\nConnection: close\r\n\r\n",
    )
}

/// What stands between a path and a query.
fn mark_before(query: &str) -> &'static [u8]
    ensures { result.now ≡ mark_before query.now }
{
    if query.is_empty() { b"" } else { b"?" }
}
