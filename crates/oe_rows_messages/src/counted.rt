// Sinks that count, and sinks with room for a text.
ghost use Rattle.std.specs.Prelude.{◌<◌, ◌↔◌, length, IsTrue, IfOk, OnOk, OnErr};
ghost use Rattle.oe_outside.specs.Faults.{HasCause};
ghost use Rattle.oe_outside.specs.Visible.{Appends, AppendsPrefix};

use crate::objects::{Object, answer_calls, end_faults, spell_bytes};
use crate::streams::{Buffered, long_piece, sink_call};
use oe_lines::{Answers, Fault, Line, end_line, push, push_number};
use oe_outside::{BoundedSink, CountSink, Failed, Sink};
use std::alloc::Global;

/// The calls of a sink that only counts.
pub(crate) fn answer_counter(
    alloc: Global,
    calls: &str,
    answers: &mut Answers,
) -> Result<(), Fault> {
    let mut sink = Buffered::new(alloc, CountSink::new())?;
    answer_calls(alloc, &mut sink, calls, answers);
    Ok(())
}

impl Object for Buffered<CountSink> {
    fn call(&mut self, call: &mut Line, answers: &mut Answers) {
        sink_call(&mut self.out, &mut self.pending, call, answers);
        push(" |", answers);
        end_faults(self.out.count(), answers);
    }
}

/// The calls of a sink with room for a text, and then its bytes.
pub(crate) fn answer_bounded(
    alloc: Global,
    calls: &str,
    answers: &mut Answers,
) -> Result<(), Fault> {
    let mut sink = Buffered::new(alloc, BoundedSink::new(alloc)?)?;
    answer_calls(alloc, &mut sink, calls, answers);
    let bytes = sink.into_out().into_bytes();
    push_number("bytes ", bytes.len(), answers);
    spell_bytes(&bytes, answers);
    end_line(answers);
    Ok(())
}

impl Object for Buffered<BoundedSink> {
    fn call(&mut self, call: &mut Line, answers: &mut Answers) {
        sink_call(&mut self.out, &mut self.pending, call, answers);
        push(full_word(&self.out), answers);
    }
}

fn full_word(sink: &BoundedSink) -> &'static str {
    if sink.is_full() {
        " | full\n"
    } else {
        " | open\n"
    }
}

/// Whether a text of so many bytes is too long.
pub(crate) fn answer_over(line: &mut Line, answers: &mut Answers) {
    match is_over(line.alloc(), &long_piece(line)) {
        Ok(over) => push(if over { "over\n" } else { "within\n" }, answers),
        Err(fault) => line.note(fault),
    }
}

/// Whether the text has more than 1048576 bytes, as a writer finds that knows sinks alone.
fn is_over(alloc: Global, text: &[u8]) -> Result<bool, Fault>
    ensures { IfOk result (λ over. IsTrue over ↔ 1048576 < length text.now) }
{
    let mut sink = BoundedSink::new(alloc)?;
    match write_text(&mut sink, text) {
        Ok(()) => Ok(sink.is_full()),
        Err(Failed) => Ok(true),
    }
}

/// Writes a text to any sink.
fn write_text<O: Sink>(out: &mut O, text: &[u8]) -> Result<(), Failed>
    ensures text { OnOk result (Appends (O.written out.old) text.now (O.written out.new)) }
    ensures prefix { OnErr result
        (AppendsPrefix (O.written out.old) text.now (O.written out.new)) }
    ensures cause { HasCause (O.faults out.old) (O.faults out.new) result }
{
    out.write(text)
}
