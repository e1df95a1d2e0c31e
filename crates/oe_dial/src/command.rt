// The command, from its words to its status and what it says.
ghost use Rattle.std.specs.Prelude.{List, ℕ};
ghost use Rattle.oe_outside.specs.Stream.{error_output};
ghost use Rattle.oe_dial.specs.Answer.{Answers};
ghost use Rattle.oe_dial.specs.Ends.{input_of, lends, views_of};
ghost use Rattle.oe_dial.specs.Lists.{Makes};
ghost use Rattle.oe_dial.specs.Words.{SpellsCall, plain_call};

use crate::call::call_back_end;
use crate::lists::list_pages;
use crate::refusal::{CallRefusal, say};
use crate::words::ClientCall;
use oe_client::Argument;
use oe_outside::{Door, Sink, Source};
use std::alloc::Global;

/// Makes the call, or by the verb `all` those for all pages of a list, and answers the exit status of the command `client`.
///
/// | Status | Line on `err` | Comes |
/// |---|---|---|
/// | 0 | none | the peer's response has a status from 200 to 299, and its body follows what `out` held; of `all` that of each page, with a line feed |
/// | 5 | `openeo: ReadFault` | only where the fault counter of `input` rose |
/// | 2 | `openeo: InputTooLong` | exactly where the verb sends the input and it is over 1048576 bytes |
/// | 8 | `openeo: WriteFault` | only where the fault counter of `out` rose |
/// | 11 | `openeo: LinkFault` | only where the counter of dials or of connections that failed rose |
/// | 12 | `openeo: PeerInvalid` | only where what the peer sent is no response, or to `all` no page of the list |
/// | 13 | `openeo: Refused STATUS`, and the body on the next line | exactly where the response has another status |
/// | 9 | `openeo: OutOfMemory` | an allocation was refused |
///
/// `Exactly` is of an input and a peer whose bytes are visible. A door that shows its connections was dialled once at most,
/// or by `all` once for each page that was asked for, with the host and the port, and behind the input. A fault of `err`
/// changes nothing. In each status but 0 and 8 nothing is written to `out`, but by `all` the pages that were taken before; in
/// 8 a prefix of the body, or of these pages and the next, stands there.
pub fn client<I: Source, O: Sink, E: Sink, D: Door>(
    alloc: Global,
    call: &ClientCall<'_>,
    input: &mut I,
    out: &mut O,
    err: &mut E,
    door: &mut D,
) -> u8
    requires spelled { (words : List (List ℕ)) × SpellsCall words (plain_call call.now) }
    ensures { let of = lends O.written O.faults D.visible D.faults D.dial_faults D.link_faults in
        Answers (views_of D.Conn.left D.Conn.written D.Conn.faults) (plain_call call.now)
        (input_of I.left I.faults input.old input.new) (of out.old door.old)
        (of out.new door.new) (error_output E.written E.faults err.old err.new) result }
{
    match make_call(alloc, call, input, out, door) {
        Ok(()) => 0,
        Err(refusal) => {
            // What became of the line changes nothing.
            let _ = say(err, &refusal);
            refusal.status()
        }
    }
}

/// Makes the one call, or asks for all pages of a list.
fn make_call<I: Source, O: Sink, D: Door>(
    alloc: Global,
    call: &ClientCall<'_>,
    input: &mut I,
    out: &mut O,
    door: &mut D,
) -> Result<(), CallRefusal>
    requires spelled { (words : List (List ℕ)) × SpellsCall words (plain_call call.now) }
    ensures { let of = lends O.written O.faults D.visible D.faults D.dial_faults D.link_faults in
        Makes (views_of D.Conn.left D.Conn.written D.Conn.faults) (plain_call call.now)
        (plain_call call.now).verb.argument (input_of I.left I.faults input.old input.new)
        (of out.old door.old) (of out.new door.new) result }
{
    match call.verb.3 {
        Argument::ListName => list_pages(alloc, call, out, door),
        _ => call_back_end(alloc, call, input, out, door),
    }
}
