// The command `client`, over connections that are dialled.
ghost use Rattle.std.specs.Prelude.{IfNone};
ghost use Rattle.oe_dial.specs.Words.{PlainCall, SpellsCall};

use crate::program::end;
use oe_adapters::Fault;
use oe_dial::{client, read_call};
use oe_dims::Text;
use oe_outside::{Sink, Source};
use oe_sockets::{Network, Patience, TcpDoor};
use std::alloc::Global;

/// A port that is never asked for a connection.
const NO_PORT: u16 = 0;

/// Makes the call that the words spell, over a network, and answers its exit status. `None` only where they spell none.
pub fn client_words<N: Network, I: Source, O: Sink, E: Sink>(
    alloc: Global,
    network: N,
    words: &[Text],
    input: &mut I,
    out: &mut O,
    err: &mut E,
) -> Option<u8>
    ensures { IfNone result ((call : PlainCall) → ¬ SpellsCall words.now call) }
{
    let call = read_call(words)?;
    let status = match TcpDoor::new(alloc, network, NO_PORT, Patience::of_client()) {
        Ok(mut door) => client(alloc, &call, input, out, err, &mut door),
        Err(_) => end(&Fault::OutOfMemory, err),
    };
    Some(status)
}
