// One request and its response.
ghost use Rattle.std.specs.Prelude.{◌≡◌, ◌+◌, IsErrOf};
ghost use Rattle.oe_client.specs.Calls as spec;
ghost use Rattle.oe_client.specs.Calls.{Calls, ends_of};
ghost use Rattle.oe_client.specs.Commands.{plain_command};
ghost use Rattle.oe_http.specs.Front.{most_head};
ghost use Rattle.oe_http.specs.Replies.{plain_response};
ghost use Rattle.oe_http.specs.Responses.{most_response_body};
ghost use Rattle.oe_http.specs.Written.{request_bytes};
ghost use Rattle.oe_outside.specs.Faults.{NeverFalls};
ghost use Rattle.oe_outside.specs.Input.{TakesAtMost};
ghost use Rattle.oe_outside.specs.Visible.{Appends, AppendsPrefix};

use crate::command::ClientCommand;
use oe_http::{Response, ResponseRefusal, read_response, write_request};
use oe_outside::{Link, Sink};
use std::alloc::Global;

/// Why a call did not end with the body of its response on the output.
#[derive(Drop)]
pub enum ClientFail {
    /// A read or a write of the link failed, and its fault counter rose.
    LinkFailed,
    /// What the peer sent is no response.
    PeerInvalid,
    /// The peer's response has another status than 200 to 299, this one, and this body.
    Refused { status: u16, body: Vec<u8> },
    /// A write of the output failed, and its fault counter rose.
    SinkFailed,
    /// An allocation was refused.
    OutOfMemory,
}

/// Sends a request, reads the response, and writes its body to the output where the status is 200 to 299 (openEO API,
/// RFC 9112). A response that breaks off leaves the output as it was. At most 16384 and 16777216 bytes are taken from the
/// link.
///
/// Refuses: `Refused` exactly where the response has another status; `PeerInvalid` only where no response stands at the
/// front of what the peer sent; `LinkFailed` and `SinkFailed` only where the fault counter of the link or of the output
/// rose; out of memory. But for `SinkFailed`, which leaves a prefix of the body there, the output is then as before.
#[tactic(auto, using(crate::proofs::Deliveries::exactly))]
pub fn client_call<L: Link, O: Sink>(
    alloc: Global,
    command: &ClientCommand,
    link: &mut L,
    out: &mut O,
) -> Result<(), ClientFail>
    // the whole request was sent, whatever becomes of it but a fault of the link
    ensures sent { ¬ IsErrOf result ClientFail.LinkFailed → Appends (L.written link.old)
        (request_bytes (plain_command command.now).request command.now.host)
        (L.written link.new) }
    ensures prefix { IsErrOf result ClientFail.LinkFailed → AppendsPrefix (L.written link.old)
        (request_bytes (plain_command command.now).request command.now.host)
        (L.written link.new) }
    ensures calls { let of = ends_of L.left L.faults O.written O.faults in
        Calls (of link.old out.old) (of link.new out.new) result }
    ensures taken { TakesAtMost (L.left link.old) (most_head + most_response_body)
        (L.left link.new) }
{
    match write_request(link, &command.request, command.host.as_str()) {
        Ok(()) => take_response(alloc, link, out),
        Err(_) => Err(ClientFail::LinkFailed),
    }
}

/// Reads the response, and writes its body to the output where it succeeded.
#[tactic(auto, using(crate::proofs::Deliveries::exactly))]
fn take_response<L: Link, O: Sink>(
    alloc: Global,
    link: &mut L,
    out: &mut O,
) -> Result<(), ClientFail>
    ensures same { L.written link.new ≡ L.written link.old }
    ensures calls { let of = ends_of L.left L.faults O.written O.faults in
        Calls (of link.old out.old) (of link.new out.new) result }
    ensures taken { TakesAtMost (L.left link.old) (most_head + most_response_body)
        (L.left link.new) }
{
    match read_response(alloc, link) {
        Ok(response) => deliver(response, out),
        Err(refusal) => Err(fail_of(refusal)),
    }
}

/// Why no response was read, as an answer of a call.
fn fail_of(refusal: ResponseRefusal) -> ClientFail
    ensures { result ≡ spec.fail_of refusal }
{
    match refusal {
        ResponseRefusal::Malformed | ResponseRefusal::TooLong | ResponseRefusal::Truncated => {
            ClientFail::PeerInvalid
        }
        ResponseRefusal::LinkFailed => ClientFail::LinkFailed,
        ResponseRefusal::OutOfMemory => ClientFail::OutOfMemory,
    }
}

/// Writes the body of a response that succeeded to the output, and hands back any other.
fn deliver<O: Sink>(response: Response, out: &mut O) -> Result<(), ClientFail>
    ensures delivers { spec.DeliversResponse (plain_response response) (O.written out.old)
        (O.faults out.old) (O.written out.new) (O.faults out.new) result }
    ensures count { NeverFalls (O.faults out.old) (O.faults out.new) }
{
    if !is_success(response.status) {
        return Err(ClientFail::Refused {
            status: response.status,
            body: response.into_body(),
        });
    }
    match out.write(&response.body) {
        Ok(()) => Ok(()),
        Err(_) => Err(ClientFail::SinkFailed),
    }
}

/// Whether a request succeeded.
fn is_success(status: u16) -> bool
    ensures { result ≡ spec.is_success status }
{
    200 <= status && status <= 299
}
