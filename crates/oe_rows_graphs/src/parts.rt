// Parts of mosaics that are added, replaced and taken out, mosaics of them that are read, and the files of mosaics.
use crate::cubes::{cube_of, kind_of};
use crate::sources::room_for;
use oe_dims::{Kind, Shape};
use oe_lines::{
    Answers, Fault, Line, cells_of, end_line, escaped_bytes, push, push_cells, push_number,
    push_word, valid_shape_of, words_of,
};
use oe_mosaic::{Mosaic, MosaicFail, MosaicText, MosaicTextFail, PartFail, Parts, read_mosaic};
use oe_sources::{CubeSource, MemoryCube, SourceFail};
use oe_window::whole;
use std::alloc::Global;
use std::mem;

/// Appends the answers to lines about parts and mosaics.
pub(crate) fn answer_mosaics(alloc: Global, text: &str, answers: &mut Answers) {
    let mut parts = Parts::new(alloc);
    let mut mosaics = Parts::new(alloc);
    for line in text.lines() {
        let mut line = Line::new(alloc, line);
        match line.word() {
            "#" => {}
            "parts" => {
                parts = Parts::new(alloc);
                mosaics = Parts::new(alloc);
            }
            "mosaic" => answer_mosaic(alloc, &mut parts, answers),
            "mosaics" => answer_mosaic(alloc, &mut mosaics, answers),
            "nest" => nest(alloc, &mut parts, &mut mosaics, answers),
            "file" => answer_file(alloc, line.rest(), answers),
            verb => answer_to(verb, &mut line, &mut parts, answers),
        }
        line.report(answers);
    }
}

/// Makes the mosaic of the parts, reads it, and has its parts back.
fn answer_mosaic<S: CubeSource>(alloc: Global, parts: &mut Parts<S>, answers: &mut Answers) {
    let taken = mem::replace(parts, Parts::new(alloc));
    match Mosaic::of(alloc, taken) {
        Ok(mut mosaic) => {
            spell(alloc, "mosaic", &mut mosaic, answers);
            *parts = mosaic.parts();
        }
        Err(MosaicFail::NoParts(handed)) => {
            push("no parts\n", answers);
            *parts = handed;
        }
        Err(MosaicFail::TooLarge(handed)) => {
            push("too large\n", answers);
            *parts = handed;
        }
        Err(MosaicFail::OutOfMemory(_)) => answers.note(Fault::OutOfMemory),
    }
}

/// Adds the mosaic of the parts to the mosaics.
fn nest(
    alloc: Global,
    parts: &mut Parts<MemoryCube>,
    mosaics: &mut Parts<Mosaic<MemoryCube>>,
    answers: &mut Answers,
) {
    let taken = mem::replace(parts, Parts::new(alloc));
    match Mosaic::of(alloc, taken) {
        Ok(mosaic) => match mosaics.push(mosaic) {
            Ok(()) => push("nested\n", answers),
            Err(_) => answers.note(Fault::Line),
        },
        Err(_) => answers.note(Fault::Line),
    }
}

/// The id and the files of a text, or the number of its first bad line.
fn answer_file(alloc: Global, spelled: &str, answers: &mut Answers) {
    match escaped_bytes(alloc, spelled) {
        Ok(bytes) => spell_file(alloc, &bytes, answers),
        Err(fault) => answers.note(fault),
    }
    end_line(answers);
}

fn spell_file(alloc: Global, bytes: &[u8], answers: &mut Answers) {
    match read_mosaic(alloc, bytes) {
        Ok(text) => spell_text(&text, answers),
        Err(MosaicTextFail::Invalid(line)) => push_number("invalid ", line, answers),
        Err(MosaicTextFail::OutOfMemory) => answers.note(Fault::OutOfMemory),
    }
}

fn spell_text(text: &MosaicText, answers: &mut Answers) {
    push(text.id.as_str(), answers);
    for file in &text.files {
        push_word(file.as_str(), answers);
    }
}

/// Appends the answer of a line about parts, which begins with this verb.
fn answer_to(verb: &str, line: &mut Line, parts: &mut Parts<MemoryCube>, answers: &mut Answers) {
    match verb {
        "count" => {
            push_number("", parts.count(), answers);
            end_line(answers);
        }
        "push" => push_part(line, parts, answers),
        "replace" => replace_part(line, parts, answers),
        "remove" => remove_part(line, parts, answers),
        _ => answers.note(Fault::Line),
    }
}

/// The part that the words `CALLS KIND SHAPE CELLS` spell.
fn part_of(line: &mut Line) -> Result<MemoryCube, Fault> {
    let alloc = line.alloc();
    let calls = line.numbers();
    let kind = kind_of(line.word())?;
    let rest = line.rest();
    let [_, _, _, _, _, cells, ..] = words_of(rest);
    let cells = cells_of(alloc, cells)?;
    cube_of(alloc, valid_shape_of(alloc, rest)?, kind, &cells, calls)
}

fn push_part(line: &mut Line, parts: &mut Parts<MemoryCube>, answers: &mut Answers) {
    match part_of(line) {
        Ok(part) => spell_pushed(line.alloc(), parts.push(part), answers),
        Err(fault) => answers.note(fault),
    }
}

/// Appends whether a part was added, with the part that is handed back.
fn spell_pushed<S: CubeSource + Drop>(
    alloc: Global,
    outcome: Result<(), PartFail<S>>,
    answers: &mut Answers,
) {
    match outcome {
        Ok(()) => push("pushed\n", answers),
        Err(PartFail::KindDiffers(mut part)) => spell(alloc, "kind", &mut part, answers),
        Err(PartFail::DimensionsDiffer(mut part)) => {
            spell(alloc, "dimensions", &mut part, answers)
        }
        Err(PartFail::Full(mut part)) => spell(alloc, "full", &mut part, answers),
        Err(PartFail::OutOfMemory(_)) => answers.note(Fault::OutOfMemory),
    }
}

fn replace_part(line: &mut Line, parts: &mut Parts<MemoryCube>, answers: &mut Answers) {
    let place = line.number();
    match part_of(line) {
        Ok(part) => match parts.replace(place, part) {
            Ok(mut old) => spell(line.alloc(), "replaced", &mut old, answers),
            Err(mut part) => spell(line.alloc(), "refused", &mut part, answers),
        },
        Err(fault) => answers.note(fault),
    }
}

fn remove_part(line: &mut Line, parts: &mut Parts<MemoryCube>, answers: &mut Answers) {
    match parts.remove(line.number()) {
        Some(mut part) => spell(line.alloc(), "removed", &mut part, answers),
        None => push("none\n", answers),
    }
}

/// Appends a word, and what a collection reads as.
fn spell<S: CubeSource>(alloc: Global, word: &str, source: &mut S, answers: &mut Answers) {
    push(word, answers);
    spell_labels(" t=", source.shape(), Kind::Time, answers);
    spell_labels(" y=", source.shape(), Kind::Y, answers);
    spell_labels(" x=", source.shape(), Kind::X, answers);
    let outcome = spell_cells(alloc, source, answers);
    answers.settle(outcome);
}

/// Appends the labels along a dimension behind a mark, where the collection has it.
fn spell_labels(mark: &str, shape: &Shape, kind: Kind, answers: &mut Answers) {
    if shape.count(kind).is_none() {
        return;
    }
    push(mark, answers);
    let mut comma = "";
    for label in shape.labels(kind) {
        push_number(comma, *label, answers);
        comma = ",";
    }
}

/// Appends all cells of a collection, or that their read failed.
fn spell_cells<S: CubeSource>(
    alloc: Global,
    source: &mut S,
    answers: &mut Answers,
) -> Result<(), Fault> {
    let mut cells = room_for(alloc, source.shape())?;
    let window = whole(source.shape());
    match source.read(&window, &mut cells) {
        Ok(()) => push_cells(&cells, answers),
        Err(SourceFail::Failed) => push(" failed", answers),
        Err(SourceFail::Damaged(_)) => answers.note(Fault::Line),
    }
    end_line(answers);
    Ok(())
}
