// Why a call did not succeed, and what is said of it.
ghost use Rattle.std.specs.Prelude.{◌≡◌, ◌++◌, OnErr, OnOk, codes, decimal};
ghost use Rattle.oe_outside.specs.Faults.{HasCause};
ghost use Rattle.oe_outside.specs.Visible.{Appends, AppendsPrefix};
ghost use Rattle.oe_dial.specs.Lines as spec;

use itoa::Buffer;
use oe_outside::{Failed, Sink};

/// Why a call did not succeed.
#[derive(Drop)]
pub enum CallRefusal {
    /// The input could not be read.
    ReadFault,
    /// The input is over 1048576 bytes.
    InputTooLong,
    /// The output could not be written.
    WriteFault,
    /// An allocation was refused.
    OutOfMemory,
    /// No connection came, or one failed.
    LinkFault,
    /// What the peer sent is no response, or, where a page of a list is asked for, no page.
    PeerInvalid,
    /// The peer's response has another status than 200 to 299, this one, and this body.
    Refused { status: u16, body: Vec<u8> },
}

impl CallRefusal {
    /// The exit status: 2, 5, 8, 9, 11, 12 or 13.
    pub fn status(&self) -> u8
        ensures { result ≡ spec.status_of self.now }
    {
        match self {
            CallRefusal::ReadFault => 5,
            CallRefusal::InputTooLong => 2,
            CallRefusal::WriteFault => 8,
            CallRefusal::OutOfMemory => 9,
            CallRefusal::LinkFault => 11,
            CallRefusal::PeerInvalid => 12,
            CallRefusal::Refused { .. } => 13,
        }
    }
}

/// Writes what is said of a refusal: its line, and of one by the peer the body on the next.
pub(crate) fn say<E: Sink>(err: &mut E, refusal: &CallRefusal) -> Result<(), Failed>
    ensures appended { OnOk result
        (Appends (E.written err.old) (spec.line_of refusal.now) (E.written err.new)) }
    ensures prefix { OnErr result
        (AppendsPrefix (E.written err.old) (spec.line_of refusal.now) (E.written err.new)) }
    ensures cause { HasCause (E.faults err.old) (E.faults err.new) result }
{
    match refusal {
        CallRefusal::ReadFault => err.write(b"openeo: ReadFault\n"),
        CallRefusal::InputTooLong => err.write(b"openeo: InputTooLong\n"),
        CallRefusal::WriteFault => err.write(b"openeo: WriteFault\n"),
        CallRefusal::OutOfMemory => err.write(b"openeo: OutOfMemory\n"),
        CallRefusal::LinkFault => err.write(b"openeo: LinkFault\n"),
        CallRefusal::PeerInvalid => err.write(b"openeo: PeerInvalid\n"),
        CallRefusal::Refused { status, body } => say_refused(err, *status, body),
    }
}

/// Writes the status of a peer's refusal, and its body on the next line.
#[tactic(auto, using(oe_outside::proofs::Runs::first_stopped, oe_outside::proofs::Runs::second_stopped, crate::proofs::Sayings::both_written))]
fn say_refused<E: Sink>(err: &mut E, status: u16, body: &[u8]) -> Result<(), Failed>
    ensures appended { OnOk result (Appends (E.written err.old)
        (spec.refused_lines status body.now) (E.written err.new)) }
    ensures prefix { OnErr result (AppendsPrefix (E.written err.old)
        (spec.refused_lines status body.now) (E.written err.new)) }
    ensures cause { HasCause (E.faults err.old) (E.faults err.new) result }
{
    match write_two(
        err,
        b"openeo: Refused ",
        Buffer::new().format(status).as_bytes(),
    ) {
        Ok(()) => say_body(err, body),
        Err(failed) => Err(failed),
    }
}

/// Writes a line end, a body and a line end.
#[tactic(auto, using(oe_outside::proofs::Runs::first_stopped, oe_outside::proofs::Runs::second_stopped, crate::proofs::Sayings::both_written))]
fn say_body<E: Sink>(err: &mut E, body: &[u8]) -> Result<(), Failed>
    ensures appended { OnOk result (Appends (E.written err.old)
        ((codes "\n" ++ body.now) ++ codes "\n") (E.written err.new)) }
    ensures prefix { OnErr result (AppendsPrefix (E.written err.old)
        ((codes "\n" ++ body.now) ++ codes "\n") (E.written err.new)) }
    ensures cause { HasCause (E.faults err.old) (E.faults err.new) result }
{
    match write_two(err, b"\n", body) {
        Ok(()) => err.write(b"\n"),
        Err(failed) => Err(failed),
    }
}

/// Writes two pieces, one behind the other.
#[tactic(auto, using(oe_outside::proofs::Runs::first_stopped, oe_outside::proofs::Runs::second_stopped, crate::proofs::Sayings::both_written))]
pub(crate) fn write_two<E: Sink>(err: &mut E, first: &[u8], second: &[u8]) -> Result<(), Failed>
    ensures appended { OnOk result
        (Appends (E.written err.old) (first.now ++ second.now) (E.written err.new)) }
    ensures prefix { OnErr result
        (AppendsPrefix (E.written err.old) (first.now ++ second.now) (E.written err.new)) }
    ensures cause { HasCause (E.faults err.old) (E.faults err.new) result }
{
    match err.write(first) {
        Ok(()) => err.write(second),
        Err(failed) => Err(failed),
    }
}
