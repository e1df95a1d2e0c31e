// Stores.
use crate::objects::{
    Object, answer_calls, count_of, plain_bytes, spell_bytes, spell_count, spell_held,
    spell_outcome, spell_read,
};
use oe_lines::{Answers, Fault, Line, push};
use oe_outside::{Failed, MemoryStore, Store, fill_at};

pub(crate) fn answer_store(
    line: &mut Line,
    calls: &str,
    answers: &mut Answers,
) -> Result<(), Fault> {
    let bytes = plain_bytes(line.word()).to_vec(line.alloc())?;
    let mut store = MemoryStore::new(bytes, count_of(line), line.numbers())?;
    answer_calls(line.alloc(), &mut store, calls, answers);
    Ok(())
}

impl Object for MemoryStore {
    fn call(&mut self, call: &mut Line, answers: &mut Answers) {
        store_call(self, call, answers);
        spell_held(self.bytes(), self.faults(), answers);
    }
}

/// One call, through the bound.
fn store_call<S: Store>(store: &mut S, call: &mut Line, answers: &mut Answers) {
    match call.word() {
        "length" => spell_count(store.length(), answers),
        "write" => write(store, call.number(), call.word(), answers),
        "read" => read(store, call.number(), count_of(call), answers),
        "fill" => fill(store, call.number(), count_of(call), answers),
        _ => call.note(Fault::Line),
    }
}

fn write<S: Store>(store: &mut S, at: u64, word: &str, answers: &mut Answers) {
    spell_outcome(store.write_at(at, plain_bytes(word)), answers);
}

fn read<S: Store>(store: &mut S, at: u64, room: usize, answers: &mut Answers) {
    let mut buffer = [b'-'; 8];
    let into = &mut buffer[..room.min(8)];
    let outcome = store.read_at(at, into);
    spell_read(outcome, into, answers);
}

fn fill<S: Store>(store: &mut S, at: u64, room: usize, answers: &mut Answers) {
    let mut buffer = [b'-'; 8];
    let into = &mut buffer[..room.min(8)];
    let outcome = fill_at(store, at, into);
    push(fill_word(outcome), answers);
    spell_bytes(into, answers);
}

fn fill_word(outcome: Result<bool, Failed>) -> &'static str {
    match outcome {
        Ok(true) => "whole",
        Ok(false) => "short",
        Err(Failed) => "Failed",
    }
}
