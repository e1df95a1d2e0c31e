// All pages of a list, one after the other.
ghost use Rattle.std.specs.Prelude.{◌≡◌, ◌≤◌, IfOk, List, ℕ};
ghost use Rattle.oe_client.specs.Commands as commands;
ghost use Rattle.oe_client.specs.Pages.{last_offset};
ghost use Rattle.oe_outside.specs.Faults.{NeverFalls};
ghost use Rattle.oe_dial.specs.Ends.{CountsUp, IsCommandFor, lends, views_of};
ghost use Rattle.oe_dial.specs.Lists as spec;
ghost use Rattle.oe_dial.specs.Words.{SpellsCall, plain_call};

use crate::body::BodySink;
use crate::call::{dial_and_call, host_with_port};
use crate::refusal::{CallRefusal, write_two};
use crate::words::ClientCall;
use oe_client::{ClientCommand, PageFail, next_offset, page_command};
use oe_memory::OutOfMemory;
use oe_outside::{Door, Sink};
use std::alloc::Global;

/// Asks for all pages of a list, one after the other, each over a connection that is dialled for it, and writes the body of
/// each to the output, with a line feed behind it. A page has 100 items at most, and 1001 pages are asked for at most.
///
/// Refuses: as a call does; `PeerInvalid` also where a body is no page of the list. What was written before stands on the
/// output then.
pub(crate) fn list_pages<O: Sink, D: Door>(
    alloc: Global,
    call: &ClientCall<'_>,
    out: &mut O,
    door: &mut D,
) -> Result<(), CallRefusal>
    requires spelled { (words : List (List ℕ)) × SpellsCall words (plain_call call.now) }
    ensures pages { let of = lends O.written O.faults D.visible D.faults D.dial_faults D.link_faults
        in spec.ListsPages (views_of D.Conn.left D.Conn.written D.Conn.faults) (plain_call call.now)
        (of out.old door.old) (of out.new door.new) result }
    ensures counts { let of = lends O.written O.faults D.visible D.faults D.dial_faults
        D.link_faults in CountsUp (views_of D.Conn.left D.Conn.written D.Conn.faults)
        (of out.old door.old) (of out.new door.new) }
{
    let mut offset: u64 = 0;
    loop {
        match take_page(alloc, call, offset, out, door) {
            Ok(Some(next)) => offset = next,
            Ok(None) => return Ok(()),
            Err(refusal) => return Err(refusal),
        }
    }
}

/// Asks for the page at an offset, writes it to the output, and tells where the next one begins.
fn take_page<O: Sink, D: Door>(
    alloc: Global,
    call: &ClientCall<'_>,
    offset: u64,
    out: &mut O,
    door: &mut D,
) -> Result<Option<u64>, CallRefusal>
    requires spelled { (words : List (List ℕ)) × SpellsCall words (plain_call call.now) }
    requires within { offset ≤ last_offset }
    ensures takes { let of = lends O.written O.faults D.visible D.faults D.dial_faults D.link_faults
        in spec.TakesPage (views_of D.Conn.left D.Conn.written D.Conn.faults) (plain_call call.now)
        offset (of out.old door.old) (of out.new door.new) result }
    ensures counts { let of = lends O.written O.faults D.visible D.faults D.dial_faults
        D.link_faults in CountsUp (views_of D.Conn.left D.Conn.written D.Conn.faults)
        (of out.old door.old) (of out.new door.new) }
{
    match fetch_page(alloc, call, offset, door) {
        Ok(body) => deliver_page(alloc, list_of(call), offset, &body, out),
        Err(refusal) => Err(refusal),
    }
}

/// The name of the list that a call asks for.
fn list_of<'a>(call: &ClientCall<'a>) -> &'a str
    ensures { result.now ≡ spec.list_of (plain_call call.now) }
{
    match call.argument {
        Some(list) => list.as_str(),
        None => "",
    }
}

/// The body that comes where the page at an offset is asked for.
fn fetch_page<D: Door>(
    alloc: Global,
    call: &ClientCall<'_>,
    offset: u64,
    door: &mut D,
) -> Result<Vec<u8>, CallRefusal>
    requires spelled { (words : List (List ℕ)) × SpellsCall words (plain_call call.now) }
    ensures { let of = spec.door_of D.visible D.faults D.dial_faults D.link_faults in
        spec.FetchesOver (views_of D.Conn.left D.Conn.written D.Conn.faults) (plain_call call.now)
        offset (of door.old) (of door.new) (spec.items_of_body result) }
{
    match command_at(alloc, call, offset) {
        Ok(command) => fetch_by(alloc, call, offset, &command, door),
        Err(_) => Err(CallRefusal::OutOfMemory),
    }
}

/// The request for the page at an offset, and the host that it is written to.
fn command_at(
    alloc: Global,
    call: &ClientCall<'_>,
    offset: u64,
) -> Result<ClientCommand, OutOfMemory>
    requires spelled { (words : List (List ℕ)) × SpellsCall words (plain_call call.now) }
    ensures { IfOk result (IsCommandFor (plain_call call.now)
        (spec.request_at (plain_call call.now) offset)) }
{
    let host = host_with_port(alloc, call.host.as_str(), call.port)?;
    page_command(alloc, call.verb, call.argument, call.token, host, offset)
}

/// The body that comes where this command for the page at an offset is sent.
fn fetch_by<D: Door>(
    alloc: Global,
    call: &ClientCall<'_>,
    offset: u64,
    command: &ClientCommand,
    door: &mut D,
) -> Result<Vec<u8>, CallRefusal>
    requires spelled { (words : List (List ℕ)) × SpellsCall words (plain_call call.now) }
    requires command { IsCommandFor (plain_call call.now)
        (spec.request_at (plain_call call.now) offset) command.now }
    ensures { let of = spec.door_of D.visible D.faults D.dial_faults D.link_faults in
        spec.FetchesOver (views_of D.Conn.left D.Conn.written D.Conn.faults) (plain_call call.now)
        offset (of door.old) (of door.new) (spec.items_of_body result) }
{
    let mut page = BodySink::new(alloc);
    match dial_and_call(alloc, call, command, &mut page, door) {
        Ok(()) => Ok(page.into_bytes()),
        Err(refusal) => Err(refusal_of_page(refusal)),
    }
}

/// Why no body came, by the ending of a call whose output is in memory: a write to it fails for want of memory alone.
fn refusal_of_page(refusal: CallRefusal) -> CallRefusal
    ensures { result ≡ spec.refusal_of_page refusal }
{
    match refusal {
        CallRefusal::WriteFault => CallRefusal::OutOfMemory,
        other => other,
    }
}

/// Writes the body of the page at an offset to the output, with a line feed, and tells where the next one begins.
///
/// Refuses: `PeerInvalid` where it is no page of the list; `WriteFault`; out of memory.
fn deliver_page<O: Sink>(
    alloc: Global,
    list: &str,
    offset: u64,
    body: &[u8],
    out: &mut O,
) -> Result<Option<u64>, CallRefusal>
    requires within { offset ≤ last_offset }
    ensures delivers { spec.DeliversPage list.now offset body.now (O.written out.old)
        (O.faults out.old) (O.written out.new) (O.faults out.new) result }
    ensures count { NeverFalls (O.faults out.old) (O.faults out.new) }
{
    match next_offset(alloc, list, body, offset) {
        Ok(next) => match write_two(out, body, b"\n") {
            Ok(()) => Ok(next),
            Err(_) => Err(CallRefusal::WriteFault),
        },
        Err(PageFail::Invalid) => Err(CallRefusal::PeerInvalid),
        Err(PageFail::OutOfMemory) => Err(CallRefusal::OutOfMemory),
    }
}
