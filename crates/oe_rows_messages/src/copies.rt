// Copies of a source to a sink, which hand faults of both on.
ghost use Rattle.std.specs.Prelude.{◌≡◌, ◌≤◌, ℕ, List, length, IsTrue, IfOk, IfSome, OnOk, []};
ghost use Rattle.oe_outside.specs.Faults.{HasCauseOf};
ghost use Rattle.oe_outside.specs.Visible.{Gave, Appends};

use crate::objects::{count_of, end_faults, plain_bytes, spell_bytes};
use crate::streams::{sink_of, source_giving, source_of};
use oe_lines::{Answers, Fault, Line, push, push_number};
use oe_outside::{CountSink, MemorySink, MemorySource, Sink, Source};

/// Why a copy stopped early.
#[derive(Clone, Copy)]
enum Stopped {
    Source,
    Sink,
}

/// Copies what a source has left to a sink, in at most so many rounds, and answers whether the end was reached.
fn copy<S: Source, K: Sink>(
    source: &mut S,
    sink: &mut K,
    buffer: &mut [u8],
    rounds: u64,
) -> Result<bool, Stopped>
    requires { 1 ≤ length buffer.old }
    ensures source_fault { HasCauseOf Stopped.Source
        (S.faults source.old) (S.faults source.new) result }
    ensures sink_fault { HasCauseOf Stopped.Sink (K.faults sink.old) (K.faults sink.new) result }
    ensures moved { OnOk result ((given : List ℕ)
        × Gave (S.left source.old) given (S.left source.new)
        × Appends (K.written sink.old) given (K.written sink.new)) }
    ensures ended { IfOk result (λ end. IsTrue end
        → IfSome (S.left source.new) (λ rest. rest ≡ [])) }
{
    for _round in 0..rounds {
        let Ok(count) = source.read(buffer) else {
            return Err(Stopped::Source);
        };
        if count == 0 {
            return Ok(true);
        }
        let Ok(()) = sink.write(&buffer[..count]) else {
            return Err(Stopped::Sink);
        };
    }
    Ok(false)
}

/// Copies by a buffer of this room, and spells what the copy answered.
fn spell_copy<S: Source, K: Sink>(
    source: &mut S,
    sink: &mut K,
    room: usize,
    rounds: u64,
    answers: &mut Answers,
) {
    let mut buffer = [b'-'; 8];
    let outcome = copy(source, sink, &mut buffer[..room.max(1).min(8)], rounds);
    push(copy_word(outcome), answers);
}

fn copy_word(outcome: Result<bool, Stopped>) -> &'static str {
    match outcome {
        Ok(true) => "end |",
        Ok(false) => "more |",
        Err(Stopped::Source) => "Source |",
        Err(Stopped::Sink) => "Sink |",
    }
}

pub(crate) fn answer_copy(line: &mut Line, answers: &mut Answers) -> Result<(), Fault> {
    let mut source = source_of(line)?;
    let mut sink = sink_of(line)?;
    copy_times(&mut source, &mut sink, line, answers);
    Ok(())
}

fn copy_times(
    source: &mut MemorySource,
    sink: &mut MemorySink,
    line: &mut Line,
    answers: &mut Answers,
) {
    let room = count_of(line);
    for most in line.numbers::<u64>() {
        spell_copy(source, sink, room, most, answers);
        spell_bytes(sink.bytes(), answers);
        push_number(" ", source.faults(), answers);
        end_faults(sink.faults(), answers);
    }
}

pub(crate) fn answer_count(line: &mut Line, answers: &mut Answers) -> Result<(), Fault> {
    let bytes = plain_bytes(line.word());
    let mut source = source_giving(line.alloc(), bytes, Vec::new(line.alloc()))?;
    count_times(&mut source, line, answers);
    Ok(())
}

fn count_times(source: &mut MemorySource, line: &mut Line, answers: &mut Answers) {
    let mut sink = CountSink::new();
    let room = count_of(line);
    for most in line.numbers::<u64>() {
        spell_copy(source, &mut sink, room, most, answers);
        end_faults(sink.count(), answers);
    }
}
