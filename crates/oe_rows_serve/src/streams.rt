// Readers and writers.
use crate::called::{end_with, spell_bytes, spell_read, spell_write};
use crate::failing::script_of;
use crate::fake_stream::FakeStream;
use oe_adapters::{Reader, Writer};
use oe_lines::{Answers, Fault, Line, number_of, push};
use oe_outside::{Sink, Source};
use std::alloc::Global;

pub(crate) fn answer_reader(alloc: Global, rest: &str, answers: &mut Answers) -> Result<(), Fault> {
    let (script, calls) = rest.split_once("; ").unwrap_or((rest, ""));
    let stream = FakeStream::new(alloc, 0, script_of(alloc, script)?);
    let mut reader = Reader::new(&stream);
    for call in calls.split("; ") {
        read(alloc, &mut reader, call, answers);
        end_with(reader.faults(), answers);
    }
    Ok(())
}

/// One read, through the bound.
fn read<S: Source>(alloc: Global, source: &mut S, call: &str, answers: &mut Answers) {
    let mut line = Line::new(alloc, call);
    line.pass("read");
    let room = line.number::<usize>().min(10);
    let mut buffer = [b'-'; 10];
    let into = &mut buffer[..room];
    let outcome = source.read(into);
    spell_read(outcome, into, answers);
    line.report(answers);
}

pub(crate) fn answer_writer(alloc: Global, rest: &str, answers: &mut Answers) -> Result<(), Fault> {
    let (object, calls) = rest.split_once("; ").unwrap_or((rest, ""));
    let (room, script) = object.split_once(' ').unwrap_or((object, "-"));
    let stream = FakeStream::new(alloc, number_of(room)?, script_of(alloc, script)?);
    let mut writer = Writer::new(&stream);
    for call in calls.split("; ") {
        write(alloc, &mut writer, call, answers);
        spell_taken(alloc, &stream, answers);
        end_with(writer.faults(), answers);
    }
    Ok(())
}

/// One write, through the bound.
fn write<O: Sink>(alloc: Global, sink: &mut O, call: &str, answers: &mut Answers) {
    let mut line = Line::new(alloc, call);
    line.pass("write");
    spell_write(sink.write(line.rest().as_bytes()), answers);
    line.report(answers);
}

/// Appends the bytes that a stream took behind a bar.
fn spell_taken(alloc: Global, stream: &FakeStream, answers: &mut Answers) {
    push(" |", answers);
    match stream.taken(alloc) {
        Ok(taken) => spell_bytes(&taken, answers),
        Err(_) => answers.note(Fault::OutOfMemory),
    }
}
