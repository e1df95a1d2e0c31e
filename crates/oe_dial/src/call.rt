// A call, from its input to its output.
ghost use Rattle.std.specs.Prelude.{◌≡◌, ◌≤◌, ◌++◌, ℕ, IfOk, List, length};
ghost use Rattle.oe_client.specs.Commands as commands;
ghost use Rattle.oe_http.specs.Requests.{most_body};
ghost use Rattle.oe_dial.specs.Ends as spec;
ghost use Rattle.oe_dial.specs.Ends.{CallAnswers, CountsUp, DialEnds, IsCommandFor, IsMadeOver, command_bytes, input_of, lends, views_of};
ghost use Rattle.oe_dial.specs.Words.{SpellsCall, host_text, plain_call};

use crate::input::read_input;
use crate::refusal::CallRefusal;
use crate::words::ClientCall;
use itoa::Buffer;
use oe_client::{ClientCommand, ClientFail, client_call, client_command};
use oe_dims::Text;
use oe_memory::OutOfMemory;
use oe_outside::{Door, Sink, Source};
use std::alloc::Global;

/// Makes a call: reads the input where the verb sends it, dials the host and the port once, sends the request, writes the
/// body of a response that succeeded to the output, and gives the connection back.
///
/// Refuses: `ReadFault` and `WriteFault` only where the fault counter of the input or of the output rose, `LinkFault` only
/// where that of the dials or of the connections that were given back did; `InputTooLong` exactly where the input is over
/// 1048576 bytes; `Refused` exactly where the response has another status than 200 to 299; `PeerInvalid` only where what
/// the peer sent is no response; out of memory.
pub fn call_back_end<I: Source, O: Sink, D: Door>(
    alloc: Global,
    call: &ClientCall<'_>,
    input: &mut I,
    out: &mut O,
    door: &mut D,
) -> Result<(), CallRefusal>
    requires spelled { (words : List (List ℕ)) × SpellsCall words (plain_call call.now) }
    ensures { let of = lends O.written O.faults D.visible D.faults D.dial_faults D.link_faults in
        CallAnswers (views_of D.Conn.left D.Conn.written D.Conn.faults) (plain_call call.now)
        (input_of I.left I.faults input.old input.new)
        (of out.old door.old) (of out.new door.new) result }
{
    match read_input(alloc, call.verb.5, input) {
        Ok(body) => match command_of(alloc, call, body) {
            Ok(command) => dial_and_call(alloc, call, &command, out, door),
            Err(_) => Err(CallRefusal::OutOfMemory),
        },
        Err(refusal) => Err(refusal),
    }
}

/// The request of a call, for an input, and the host that it is written to.
fn command_of(
    alloc: Global,
    call: &ClientCall<'_>,
    input: Vec<u8>,
) -> Result<ClientCommand, OutOfMemory>
    requires spelled { (words : List (List ℕ)) × SpellsCall words (plain_call call.now) }
    requires short { length input.items ≤ most_body }
    ensures { IfOk result (IsCommandFor (plain_call call.now)
        (commands.request_of (plain_call call.now).verb (plain_call call.now).argument
        (plain_call call.now).token input.items)) }
{
    let host = host_with_port(alloc, call.host.as_str(), call.port)?;
    client_command(alloc, call.verb, call.argument, call.token, host, input)
}

/// Dials the host and the port once, makes the call, and gives the connection back.
pub(crate) fn dial_and_call<O: Sink, D: Door>(
    alloc: Global,
    call: &ClientCall<'_>,
    command: &ClientCommand,
    out: &mut O,
    door: &mut D,
) -> Result<(), CallRefusal>
    requires named { 1 ≤ length (plain_call call.now).host }
    requires short { length (plain_call call.now).host ≤ 253 }
    ensures ends { let of = lends O.written O.faults D.visible D.faults D.dial_faults D.link_faults
        in DialEnds (views_of D.Conn.left D.Conn.written D.Conn.faults) (of out.old door.old)
        (of out.new door.new) (plain_call call.now).host (plain_call call.now).port
        (command_bytes command.now) result }
    ensures counts { let of = lends O.written O.faults D.visible D.faults D.dial_faults
        D.link_faults in CountsUp (views_of D.Conn.left D.Conn.written D.Conn.faults)
        (of out.old door.old) (of out.new door.new) }
{
    match door.dial(call.host.as_str(), call.port) {
        Ok(conn) => ending_of(call_over(alloc, command, conn, out, door)),
        Err(_) => Err(CallRefusal::LinkFault),
    }
}

/// Makes a call over a connection, and gives it back.
fn call_over<O: Sink, D: Door>(
    alloc: Global,
    command: &ClientCommand,
    conn: D::Conn,
    out: &mut O,
    door: &mut D,
) -> Result<(), ClientFail>
    ensures made { let of = lends O.written O.faults D.visible D.faults D.dial_faults D.link_faults
        in IsMadeOver (views_of D.Conn.left D.Conn.written D.Conn.faults) (of out.old door.old)
        (of out.new door.new) conn (D.visible door.old) (command_bytes command.now) result }
    ensures same_faults { D.faults door.new ≡ D.faults door.old }
    ensures same_dial_faults { D.dial_faults door.new ≡ D.dial_faults door.old }
{
    let mut link = conn;
    let ended = client_call(alloc, command, &mut link, out);
    door.done(link);
    ended
}

/// The ending of the command by that of the call over its connection.
fn ending_of(ended: Result<(), ClientFail>) -> Result<(), CallRefusal>
    ensures { result ≡ spec.ending_of ended }
{
    match ended {
        Ok(()) => Ok(()),
        Err(ClientFail::LinkFailed) => Err(CallRefusal::LinkFault),
        Err(ClientFail::PeerInvalid) => Err(CallRefusal::PeerInvalid),
        Err(ClientFail::Refused { status, body }) => Err(CallRefusal::Refused { status, body }),
        Err(ClientFail::SinkFailed) => Err(CallRefusal::WriteFault),
        Err(ClientFail::OutOfMemory) => Err(CallRefusal::OutOfMemory),
    }
}

/// A host and a port, with a colon between them.
pub(crate) fn host_with_port(alloc: Global, host: &str, port: u16) -> Result<Text, OutOfMemory>
    ensures { IfOk result (λ text. text ≡ host_text host.now port) }
{
    join(alloc, host, ":", Buffer::new().format(port))
}

/// Three texts, one behind the other.
fn join(alloc: Global, first: &str, second: &str, third: &str) -> Result<Text, OutOfMemory>
    ensures { IfOk result (λ text. text ≡ first.now ++ second.now ++ third.now) }
{
    let mut text = String::from_str(alloc, first)?;
    text.push_str(second)?;
    text.push_str(third)?;
    Text::of(alloc, text.as_str())
}
