// What the program sets up, over the files of a system.
use crate::called::{end_with, spell_bytes, spell_fault};
use crate::fake_file::FakeFile;
use crate::fake_files::FakeFiles;
use oe_adapters::{
    Fault as ProgramFault, FileStore, collection_files, hold_standard, open_collection, open_parts,
    open_spool,
};
use oe_dims::Text;
use oe_lines::{Answers, Fault, first_word, push};
use oe_parts::RunParts;
use oe_sources::Catalogue;
use std::alloc::Global;

pub(crate) fn answer_names(alloc: Global, system: &str, answers: &mut Answers) {
    let files = FakeFiles::new(alloc, system);
    match collection_files(alloc, &files) {
        Ok(names) => {
            push("ok", answers);
            for name in &names {
                spell_bytes(name, answers);
            }
            end_with(files.calls(), answers);
        }
        Err(fault) => spell_fault(&fault, files.calls(), answers),
    }
}

pub(crate) fn answer_open(alloc: Global, rest: &str, answers: &mut Answers) {
    let (name, system) = rest.split_once(' ').unwrap_or((rest, ""));
    let files = FakeFiles::new(alloc, system);
    match open_collection(alloc, &files, name_of(name), &Catalogue::new(alloc)) {
        Ok((id, _source)) => {
            push("ok", answers);
            spell_bytes(id.as_str().as_bytes(), answers);
            end_with(files.calls(), answers);
        }
        Err(fault) => spell_fault(&fault, files.calls(), answers),
    }
}

/// The name of a file that a word spells.
fn name_of(word: &str) -> &[u8] {
    if word == "?.cube" {
        b"\xff.cube"
    } else {
        word.as_bytes()
    }
}

pub(crate) fn answer_parts(alloc: Global, rest: &str, answers: &mut Answers) -> Result<(), Fault> {
    let (verb, system) = first_word(rest);
    let files = FakeFiles::new(alloc, system);
    let words = [Text::of(alloc, verb)?];
    match open_parts(alloc, &files, &words) {
        Ok(parts) => spell_parts(&parts, files.calls(), answers),
        Err(fault) => spell_fault(&fault, files.calls(), answers),
    }
    Ok(())
}

fn spell_parts(parts: &RunParts<FileStore<FakeFile>>, calls: u64, answers: &mut Answers) {
    push("ok", answers);
    for index in 0..parts.count() {
        spell_bytes(parts.name(index).as_str().as_bytes(), answers);
    }
    end_with(calls, answers);
}

pub(crate) fn answer_spool(alloc: Global, system: &str, answers: &mut Answers) {
    let files = FakeFiles::new(alloc, system);
    let outcome = open_spool(alloc, &files);
    spell_set_up(outcome, &files, answers);
}

pub(crate) fn answer_standard(alloc: Global, system: &str, answers: &mut Answers) {
    let files = FakeFiles::new(alloc, system);
    let outcome = hold_standard(alloc, &files);
    spell_set_up(outcome, &files, answers);
}

/// Appends whether something was set up.
fn spell_set_up<T: Drop>(
    outcome: Result<T, ProgramFault>,
    files: &FakeFiles,
    answers: &mut Answers,
) {
    match outcome {
        Ok(_) => {
            push("ok", answers);
            end_with(files.calls(), answers);
        }
        Err(fault) => spell_fault(&fault, files.calls(), answers),
    }
}
