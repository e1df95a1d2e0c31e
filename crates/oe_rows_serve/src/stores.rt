// Files as stores.
use crate::called::{end_with, spell_count, spell_read, spell_write};
use crate::failing::script_of;
use crate::fake_file::FakeFile;
use oe_adapters::FileStore;
use oe_lines::{Answers, Fault, Line};
use oe_outside::Store;
use std::alloc::Global;

pub(crate) fn answer_store(alloc: Global, rest: &str, answers: &mut Answers) -> Result<(), Fault> {
    let (object, calls) = rest.split_once("; ").unwrap_or((rest, ""));
    let mut store = FileStore::new(file_of(alloc, object)?);
    for call in calls.split("; ") {
        answer_call(alloc, &mut store, call, answers);
        end_with(store.faults(), answers);
    }
    Ok(())
}

/// A file of the words `BYTES CALLS`.
fn file_of(alloc: Global, words: &str) -> Result<FakeFile, Fault> {
    let (bytes, script) = words.split_once(' ').unwrap_or((words, "-"));
    let bytes: &[u8] = if bytes == "-" { b"" } else { bytes.as_bytes() };
    Ok(FakeFile::new(bytes.to_vec(alloc)?, script_of(alloc, script)?))
}

/// One call, through the bound.
fn answer_call<S: Store>(alloc: Global, store: &mut S, call: &str, answers: &mut Answers) {
    let mut line = Line::new(alloc, call);
    match line.word() {
        "length" => spell_count(store.length(), answers),
        "read" => read_store(store, &mut line, answers),
        "write" => write_store(store, &mut line, answers),
        _ => line.note(Fault::Line),
    }
    line.report(answers);
}

fn read_store<S: Store>(store: &mut S, line: &mut Line, answers: &mut Answers) {
    let at = line.number();
    let room = line.number::<usize>().min(10);
    let mut buffer = [b'-'; 10];
    let into = &mut buffer[..room];
    let outcome = store.read_at(at, into);
    spell_read(outcome, into, answers);
}

fn write_store<S: Store>(store: &mut S, line: &mut Line, answers: &mut Answers) {
    let at = line.number();
    spell_write(store.write_at(at, line.word().as_bytes()), answers);
}
