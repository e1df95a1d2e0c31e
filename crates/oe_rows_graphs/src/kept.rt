// Parts of a run that calls wrote, kept to be put together.
use crate::calls::Answer;
use oe_dims::Text;
use oe_lines::Fault;
use oe_outside::MemoryStore;
use oe_parts::{RunPart, RunParts};
use std::alloc::Global;

/// How many calls of a store opening a part takes: of its length, its start and its header.
const OPENING: u64 = 3;

/// Adds what a call wrote as the part of a name, of which these reads fail once it is opened. Refuses: a call that left
/// no part.
pub(crate) fn keep_part(
    alloc: Global,
    name: &str,
    answer: Answer,
    failing: &[u64],
    parts: &mut RunParts<MemoryStore>,
) -> Result<Answer, Fault> {
    let Some(called) = answer.into_call() else {
        return Err(Fault::Line);
    };
    if name.len() > 64 {
        return Err(Fault::Line);
    }
    let bytes = called.out.bytes().to_vec(alloc)?;
    let room = bytes.len();
    let store = MemoryStore::new(bytes, room, calls_after(alloc, failing)?)?;
    match RunPart::open(alloc, Text::of(alloc, name)?, store) {
        Ok(part) => pushed(parts, part),
        Err(_) => Err(Fault::Line),
    }
}

/// The numbers of these calls, counted with those that open a part.
fn calls_after(alloc: Global, failing: &[u64]) -> Result<Vec<u64>, Fault> {
    let mut calls = Vec::new(alloc);
    for number in failing {
        calls.push(number.saturating_add(OPENING))?;
    }
    Ok(calls)
}

fn pushed(parts: &mut RunParts<MemoryStore>, part: RunPart<MemoryStore>) -> Result<Answer, Fault> {
    match parts.push(part) {
        Ok(()) => Ok(Answer::Word("")),
        Err(_) => Err(Fault::Line),
    }
}
