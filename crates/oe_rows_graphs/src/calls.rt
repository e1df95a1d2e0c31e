// Calls of `openeo` over objects in memory.
use crate::attempt::Failing;
use crate::cubes::{named_cube, named_file};
use crate::gate::CountGate;
use crate::kept::keep_part;
use crate::mosaics::named_mosaic;
use crate::runs::none_failing;
use oe_dims::Text;
use oe_lines::{
    Answers, Fault, end_line, first_word, number_of, parts_of, push, push_digits, push_number,
};
use oe_outside::{MemorySink, MemorySource, MemoryStore};
use oe_parts::RunParts;
use oe_sources::{Catalogue, MountFail, SharedSource};
use oe_top::{Setup, openeo};
use std::alloc::Global;
use std::thread::Threads;

/// How many bytes the output, the error output and the spool of a call have room for.
const OUT_ROOM: usize = 65536;

const ERR_ROOM: usize = 4096;

const SPOOL_ROOM: usize = 2097152;

/// What a call reads and writes.
struct Objects {
    words: Vec<Text>,
    input: MemorySource,
    out: MemorySink,
    err: MemorySink,
    spool: MemoryStore,
    gate: CountGate,
}

/// Written out, so that such a value that ends is one call wherever it does.
impl Drop for Objects {
    fn drop(self) {
        let Objects {
            words: _,
            input: _,
            out: _,
            err: _,
            spool: _,
            gate: _,
        } = self;
    }
}

impl Objects {
    /// The answer to a call that ended with a status.
    fn into_answer(self, status: u8) -> Answer {
        let Objects {
            words: _,
            input: _,
            out,
            err,
            spool: _,
            gate,
        } = self;
        Answer::Call(Called {
            status,
            out,
            err,
            gate,
        })
    }
}

/// What a call left: its status, what stands on the output and on the error output, and how often it entered the gate.
pub(crate) struct Called {
    pub(crate) status: u8,
    pub(crate) out: MemorySink,
    pub(crate) err: MemorySink,
    pub(crate) gate: CountGate,
}

/// Written out, so that what a call left ends by one call wherever it does; so is the one below.
impl Drop for Called {
    fn drop(self) {
        let Called {
            status: _,
            out: _,
            err: _,
            gate: _,
        } = self;
    }
}

/// The answer to a line.
pub(crate) enum Answer {
    /// A word, or none.
    Word(&'static str),
    Call(Called),
}

impl Drop for Answer {
    fn drop(self) {
        let _ended = self.into_call();
    }
}

impl Answer {
    /// What a call left, if it is one of a call.
    pub(crate) fn into_call(self) -> Option<Called> {
        match self {
            Answer::Word(_) => None,
            Answer::Call(called) => Some(called),
        }
    }
}

/// Appends the answers to lines about calls.
pub(crate) fn answer_calls<R: Threads + Sync>(
    rt: &R,
    alloc: Global,
    text: &str,
    answers: &mut Answers,
) -> Result<(), Fault> {
    let mut lines = Vec::new(alloc);
    for line in text.lines() {
        if line == "catalogue" {
            spell_answers(rt, alloc, &lines, answers)?;
            lines.clear();
        } else {
            lines.push(line)?;
        }
    }
    spell_answers(rt, alloc, &lines, answers)
}

/// Appends the answers to lines that begin with an empty catalogue.
fn spell_answers<R: Threads + Sync>(
    rt: &R,
    alloc: Global,
    lines: &[&str],
    answers: &mut Answers,
) -> Result<(), Fault> {
    for answer in &answers_of(rt, alloc, lines, none_failing())? {
        match answer {
            Answer::Word(word) => push(word, answers),
            Answer::Call(called) => spell_called(alloc, called, answers),
        }
    }
    Ok(())
}

// Boxes for collections are made and taken out here, and the catalogue that holds them is handed to no function of this
// crate: `demo` makes boxes too, and a function over a catalogue that makes some may hand them out.
/// The answers to lines that begin with an empty catalogue, while these calls of each object fail.
pub(crate) fn answers_of<R: Threads + Sync>(
    rt: &R,
    alloc: Global,
    lines: &[&str],
    failing: Failing<'_>,
) -> Result<Vec<Answer>, Fault> {
    let mut catalogue = Catalogue::new(alloc);
    let mut parts = RunParts::new(alloc);
    let mut answers = Vec::new(alloc);
    for line in lines {
        let (verb, rest) = first_word(line);
        let answer = match verb {
            "#" => Answer::Word(""),
            "cube" | "collection" => {
                let (id, cube) = named_cube(alloc, verb, rest, failing.reads)?;
                mount_answer(catalogue.mount(id, Box::new(alloc, cube)?))?
            }
            "mosaic" | "remainder" => {
                let (id, mosaic) = named_mosaic(alloc, verb, rest, failing.reads)?;
                mount_answer(catalogue.mount(id, Box::new(alloc, mosaic)?))?
            }
            "replace" => {
                let (id, cube) = named_cube(alloc, verb, rest, failing.reads)?;
                replace_answer(catalogue.replace(id, Box::new(alloc, cube)?))
            }
            "detach" => detach_answer(catalogue.detach(rest)),
            "file" => match named_file(alloc, rest)? {
                Ok((id, source)) => {
                    mount_answer(catalogue.mount(id.as_str(), Box::new(alloc, source)?))?
                }
                Err(word) => Answer::Word(word),
            },
            _ => {
                let (name, line) = kept_of(line);
                let calls = if name.is_some() {
                    none_failing()
                } else {
                    failing
                };
                let mut objects = objects_of(alloc, line, calls)?;
                let setup = Setup {
                    rt,
                    alloc,
                    gate: &objects.gate,
                };
                let status = openeo(
                    &setup,
                    &objects.words,
                    &mut objects.input,
                    &mut objects.out,
                    &mut objects.err,
                    &mut catalogue,
                    &mut parts,
                    &mut objects.spool,
                );
                let answer = objects.into_answer(status);
                match name {
                    Some(name) => keep_part(alloc, name, answer, failing.parts, &mut parts)?,
                    None => answer,
                }
            }
        };
        answers.push(answer)?;
    }
    Ok(answers)
}

/// The answer where a collection was mounted. Refuses: one that was not.
fn mount_answer(outcome: Result<(), MountFail>) -> Result<Answer, Fault> {
    match outcome {
        Ok(()) => Ok(Answer::Word("")),
        Err(_) => Err(Fault::Line),
    }
}

/// The answer where a collection was replaced, or was to be: `none` where none was mounted under the id.
fn replace_answer(outcome: Result<Box<dyn SharedSource>, Box<dyn SharedSource>>) -> Answer {
    match outcome {
        Ok(_) => Answer::Word(""),
        Err(_) => Answer::Word("none\n"),
    }
}

/// The answer where a collection was taken out, likewise.
fn detach_answer(outcome: Option<Box<dyn SharedSource>>) -> Answer {
    match outcome {
        Some(_) => Answer::Word(""),
        None => Answer::Word("none\n"),
    }
}

/// The name under which what a call writes is kept as a part, if its line says that, and the rest of the line.
fn kept_of(line: &str) -> (Option<&str>, &str) {
    let (verb, rest) = first_word(line);
    if verb != "keep" {
        return (None, line);
    }
    let (name, line) = first_word(rest);
    (Some(name), line)
}

/// The words of a call and its objects, of which these calls fail. The input has blanks behind it up to as many bytes as
/// the line says, and the first two chunks wait for each other where it says so.
fn objects_of(alloc: Global, line: &str, failing: Failing<'_>) -> Result<Objects, Fault> {
    let (is_meeting, line) = meeting_of(line);
    let (size, line) = size_of(line)?;
    let (words, input) = line.split_once(" < ").unwrap_or((line, ""));
    Ok(Objects {
        words: words_of_call(alloc, words)?,
        input: source_of(alloc, input, size, failing.input)?,
        out: sink_of(alloc, OUT_ROOM, failing.writes)?,
        err: sink_of(alloc, ERR_ROOM, &[])?,
        spool: MemoryStore::new(Vec::new(alloc), SPOOL_ROOM, failing.spool.to_vec(alloc)?)?,
        gate: CountGate::of(alloc, is_meeting)?,
    })
}

fn source_of(
    alloc: Global,
    text: &str,
    size: usize,
    failing: &[u64],
) -> Result<MemorySource, Fault> {
    let bytes = padded_bytes(alloc, text, size)?;
    Ok(MemorySource::new(bytes, failing.to_vec(alloc)?)?)
}

fn sink_of(alloc: Global, room: usize, failing: &[u64]) -> Result<MemorySink, Fault> {
    Ok(MemorySink::new(alloc, room, failing.to_vec(alloc)?)?)
}

/// Whether the first two chunks of a call wait for each other, and the rest of its line.
fn meeting_of(line: &str) -> (bool, &str) {
    let (verb, rest) = first_word(line);
    if verb == "meeting" {
        (true, rest)
    } else {
        (false, line)
    }
}

/// How many bytes the input of a call has at least, and the rest of its line.
fn size_of(line: &str) -> Result<(usize, &str), Fault> {
    let (verb, rest) = first_word(line);
    if verb != "padded" {
        return Ok((0, line));
    }
    let (size, line) = parts_of(rest, " ")?;
    Ok((number_of(size)?, line))
}

/// The words of a command, with blanks between them.
fn words_of_call(alloc: Global, line: &str) -> Result<Vec<Text>, Fault> {
    let mut words = Vec::new(alloc);
    for word in line.split_whitespace() {
        words.push(Text::of(alloc, word)?)?;
    }
    Ok(words)
}

/// The bytes of a text, with blanks behind it up to so many.
pub(crate) fn padded_bytes(alloc: Global, text: &str, size: usize) -> Result<Vec<u8>, Fault> {
    let mut bytes = text.as_bytes().to_vec(alloc)?;
    for _index in bytes.len()..size {
        bytes.push(b' ')?;
    }
    Ok(bytes)
}

/// Spells a status and what stands on the output and on the error output, behind the answers so far.
fn spell_called(alloc: Global, called: &Called, answers: &mut Answers) {
    spell_ending(alloc, called, answers);
    end_line(answers);
}

/// Spells the same, without the end of the line.
pub(crate) fn spell_ending(alloc: Global, called: &Called, answers: &mut Answers) {
    push_number("", called.status, answers);
    spell(alloc, " ", called.out.bytes(), answers);
    spell(alloc, " | ", called.err.bytes(), answers);
}

/// Spells bytes behind a mark, and nothing where there are none.
pub(crate) fn spell(alloc: Global, mark: &str, bytes: &[u8], answers: &mut Answers) {
    if bytes.is_empty() {
        return;
    }
    if bytes.iter().all(|byte| is_printable(*byte)) {
        push(mark, answers);
        return spell_printable(bytes, answers);
    }
    push_digits(alloc, mark, bytes, answers);
}

fn spell_printable(bytes: &[u8], answers: &mut Answers) {
    for byte in bytes {
        if *byte == b'\n' {
            answers.extend(b"\\n");
        } else {
            answers.extend(&[*byte]);
        }
    }
}

/// A letter, digit or mark of ASCII, a blank or a line feed.
fn is_printable(byte: u8) -> bool {
    byte == b'\n' || byte == b' ' || byte.is_ascii_graphic()
}
