// Sources, sinks and links.
ghost use Rattle.std.specs.Prelude.{◌≤◌};

use crate::links::link_of;
use crate::objects::{
    Object, answer_calls, count_of, end_faults, plain_bytes, spell_bytes, spell_held,
    spell_outcome, spell_read,
};
use oe_lines::{Answers, Fault, Line, push};
use oe_outside::{
    Link, MemoryLink, MemorySink, MemorySource, Pending, ReadRefusal, Sink, Source, flush,
    read_up_to, send,
};
use std::alloc::Global;

/// A sink and the bytes that are pending for it.
pub(crate) struct Buffered<O: Drop> {
    pub(crate) out: O,
    pub(crate) pending: Pending,
}

/// Written out, so that a sink that ends is one call wherever it does.
impl<O: Drop> Drop for Buffered<O> {
    fn drop(self) {
        let Buffered { out: _, pending: _ } = self;
    }
}

impl<O: Drop> Buffered<O> {
    pub(crate) fn new(alloc: Global, out: O) -> Result<Buffered<O>, Fault> {
        let pending = Pending::new(alloc)?;
        Ok(Buffered { out, pending })
    }

    /// The sink, without what is pending.
    pub(crate) fn into_out(self) -> O {
        let Buffered { out, pending: _ } = self;
        out
    }
}

// ---- sources

/// A source of the words `BYTES CALLS`.
pub(crate) fn source_of(line: &mut Line) -> Result<MemorySource, Fault> {
    let bytes = plain_bytes(line.word());
    source_giving(line.alloc(), bytes, line.numbers())
}

/// A source that gives these bytes, of which these calls fail.
pub(crate) fn source_giving(
    alloc: Global,
    bytes: &[u8],
    failing: Vec<u64>,
) -> Result<MemorySource, Fault> {
    Ok(MemorySource::new(bytes.to_vec(alloc)?, failing)?)
}

pub(crate) fn answer_source(
    line: &mut Line,
    calls: &str,
    answers: &mut Answers,
) -> Result<(), Fault> {
    let mut source = source_of(line)?;
    answer_calls(line.alloc(), &mut source, calls, answers);
    Ok(())
}

impl Object for MemorySource {
    fn call(&mut self, call: &mut Line, answers: &mut Answers) {
        source_call(self, call, answers);
        push(" |", answers);
        end_faults(self.faults(), answers);
    }
}

/// One call, through the bound.
fn source_call<S: Source>(source: &mut S, call: &mut Line, answers: &mut Answers) {
    match call.word() {
        "read" => read_source(source, count_of(call), answers),
        "all" => read_all(call.alloc(), source, count_of(call), answers),
        _ => call.note(Fault::Line),
    }
}

fn read_source<S: Source>(source: &mut S, room: usize, answers: &mut Answers) {
    let mut buffer = [b'-'; 8];
    let into = &mut buffer[..room.min(8)];
    let outcome = source.read(into);
    spell_read(outcome, into, answers);
}

/// Reads a whole source up to a limit.
fn read_all<S: Source>(alloc: Global, source: &mut S, limit: usize, answers: &mut Answers)
    requires { limit ≤ 65535 }
{
    match read_up_to(alloc, source, limit) {
        Ok(bytes) => {
            push("ok", answers);
            spell_bytes(&bytes, answers);
        }
        Err(ReadRefusal::Failed) => push("Failed", answers),
        Err(ReadRefusal::OutOfMemory) => answers.note(Fault::OutOfMemory),
    }
}

// ---- sinks

/// A sink of the words `CAPACITY CALLS`.
pub(crate) fn sink_of(line: &mut Line) -> Result<MemorySink, Fault> {
    let capacity = count_of(line);
    Ok(MemorySink::new(line.alloc(), capacity, line.numbers())?)
}

pub(crate) fn answer_sink(
    line: &mut Line,
    calls: &str,
    answers: &mut Answers,
) -> Result<(), Fault> {
    let mut sink = Buffered::new(line.alloc(), sink_of(line)?)?;
    answer_calls(line.alloc(), &mut sink, calls, answers);
    Ok(())
}

impl Object for Buffered<MemorySink> {
    fn call(&mut self, call: &mut Line, answers: &mut Answers) {
        sink_call(&mut self.out, &mut self.pending, call, answers);
        spell_held(self.out.bytes(), self.out.faults(), answers);
    }
}

/// One call, through the bound.
pub(crate) fn sink_call<O: Sink>(
    out: &mut O,
    pending: &mut Pending,
    call: &mut Line,
    answers: &mut Answers,
) {
    let outcome = match call.word() {
        "write" => out.write(plain_bytes(call.rest())),
        "send" => send(out, pending, plain_bytes(call.rest())),
        "long" => send(out, pending, &long_piece(call)),
        "flush" => flush(out, pending),
        _ => return call.note(Fault::Line),
    };
    spell_outcome(outcome, answers);
}

/// So many `x`.
pub(crate) fn long_piece(line: &mut Line) -> Vec<u8> {
    let count = line.number::<u32>() as usize;
    match vec![in line.alloc(); b'x'; count] {
        Ok(bytes) => bytes,
        Err(_) => {
            line.note(Fault::OutOfMemory);
            Vec::new(line.alloc())
        }
    }
}

// ---- links

pub(crate) fn answer_link(
    line: &mut Line,
    calls: &str,
    answers: &mut Answers,
) -> Result<(), Fault> {
    let bytes = plain_bytes(line.word()).to_vec(line.alloc())?;
    let piece = count_of(line);
    let capacity = count_of(line);
    let link = link_of(line.alloc(), bytes, piece, capacity, line.word())?;
    let mut link = Buffered::new(line.alloc(), link)?;
    answer_calls(line.alloc(), &mut link, calls, answers);
    Ok(())
}

impl Object for Buffered<MemoryLink> {
    fn call(&mut self, call: &mut Line, answers: &mut Answers) {
        link_call(&mut self.out, &mut self.pending, call, answers);
        spell_held(self.out.written(), self.out.faults(), answers);
    }
}

/// One call, through the bound.
fn link_call<L: Link>(link: &mut L, pending: &mut Pending, call: &mut Line, answers: &mut Answers) {
    if call.takes("read") {
        read_link(link, count_of(call), answers);
    } else {
        sink_call(link, pending, call, answers);
    }
}

fn read_link<L: Link>(link: &mut L, room: usize, answers: &mut Answers) {
    let mut buffer = [b'-'; 8];
    let into = &mut buffer[..room.min(8)];
    let outcome = link.read(into);
    spell_read(outcome, into, answers);
}
