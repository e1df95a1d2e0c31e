// The words of a process, and the lines of faults.
use crate::called::{end_with, spell_bytes, spell_fault};
use crate::kinds::error_of;
use oe_adapters::{Fault as ProgramFault, words_of};
use oe_dims::Text;
use oe_lines::{Answers, Fault, bytes_of, push};
use std::alloc::Global;
use std::env::Args;
use std::io::Result as IoResult;

pub(crate) fn answer_words(alloc: Global, rest: &str, answers: &mut Answers) -> Result<(), Fault> {
    match words_of(alloc, arguments_of(alloc, rest)?) {
        Ok(words) => spell_words(&words, answers),
        Err(fault) => spell_fault(&fault, 0, answers),
    }
    Ok(())
}

/// What the system gives for the arguments of a row.
fn arguments_of(alloc: Global, rest: &str) -> Result<IoResult<Args>, Fault> {
    match rest.strip_prefix('!') {
        Some(kind) => Ok(Err(error_of(kind))),
        None => Ok(Ok(words_between(alloc, rest)?)),
    }
}

/// The words with blanks between them.
fn words_between(alloc: Global, rest: &str) -> Result<Args, Fault> {
    let mut arguments = Vec::new(alloc);
    for word in rest.split(' ') {
        arguments.push(String::from_str(alloc, word)?)?;
    }
    Ok(arguments.into_iter())
}

fn spell_words(words: &[Text], answers: &mut Answers) {
    push("ok", answers);
    for word in words {
        spell_bytes(word.as_str().as_bytes(), answers);
    }
    end_with(words.len() as u64, answers);
}

pub(crate) fn answer_fault_line(
    alloc: Global,
    rest: &str,
    answers: &mut Answers,
) -> Result<(), Fault> {
    let name = bytes_of(alloc, rest)?;
    spell_fault(&ProgramFault::setup(alloc, &name), 0, answers);
    Ok(())
}
