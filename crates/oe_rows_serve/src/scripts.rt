// Lives of a server: scripts, what their lines set, and the answers of their lives.
use crate::cubes::{cube_of, file_of};
use crate::life::live;
use oe_dims::Text;
use oe_jobs::Book;
use oe_keeper::MemoryKeeper;
use oe_lines::{Answers, Fault, end_line, first_word, number_of, numbers_of};
use oe_routes::{Site, Tokens};
use oe_sources::{Catalogue, MountFail, SharedSource};
use std::alloc::Global;
use std::thread::Threads;

/// What the lines so far have set: the moment and the seconds to the next, which calls of the next life fail, the call in
/// which its keeper stops and whether it keeps what that call commits, whether the chunks of its runs are told, and the
/// lines of its connections; and a keeper of the book that the last life left.
pub(crate) struct Script {
    pub(crate) site: Site,
    pub(crate) now: i64,
    pub(crate) step: i64,
    pub(crate) room: usize,
    pub(crate) spool_calls: Vec<u64>,
    pub(crate) keeper_calls: Vec<u64>,
    pub(crate) stop: Option<(u64, bool)>,
    pub(crate) door_calls: Vec<u64>,
    pub(crate) tells_chunks: bool,
    pub(crate) links: String,
    pub(crate) keeper: MemoryKeeper,
}

/// Written out, so that a script that ends is one call wherever it does.
impl Drop for Script {
    fn drop(self) {
        let Script {
            site: _,
            now: _,
            step: _,
            room: _,
            spool_calls: _,
            keeper_calls: _,
            stop: _,
            door_calls: _,
            tells_chunks: _,
            links: _,
            keeper: _,
        } = self;
    }
}

/// Appends the answers of scripts, with an empty line between two.
pub(crate) fn answer_scripts<R: Threads + Sync>(
    rt: &R,
    alloc: Global,
    text: &str,
    answers: &mut Answers,
) -> Result<(), Fault> {
    let mut lines = Vec::new(alloc);
    for line in text.lines() {
        if line.is_empty() {
            answer_script(rt, alloc, &lines, answers)?;
            end_line(answers);
            lines.clear();
        } else {
            lines.push(line)?;
        }
    }
    answer_script(rt, alloc, &lines, answers)
}

/// Appends the answers of the lines of a script.
fn answer_script<R: Threads + Sync>(
    rt: &R,
    alloc: Global,
    lines: &[&str],
    answers: &mut Answers,
) -> Result<(), Fault> {
    let mut script = empty_script(alloc)?;
    answer_lines(rt, alloc, lines, &mut script, answers)
}

// Boxes for collections are made, taken out and dropped here, where their catalogue is: a function that is lent a catalogue
// and takes a box out may hand it on.
/// Appends the answers of lines that begin with an empty catalogue.
fn answer_lines<R: Threads + Sync>(
    rt: &R,
    alloc: Global,
    lines: &[&str],
    script: &mut Script,
    answers: &mut Answers,
) -> Result<(), Fault> {
    let mut catalogue = Catalogue::new(alloc);
    for line in lines {
        let (verb, rest) = first_word(line);
        let (id, text) = first_word(rest);
        match verb {
            "cube" => mounted(catalogue.mount(id, Box::new(alloc, cube_of(alloc, text)?)?))?,
            "file" => mounted(catalogue.mount(id, Box::new(alloc, file_of(alloc, text)?)?))?,
            "gone" => taken_out(catalogue.detach(id))?,
            "serve" => live(rt, alloc, rest, script, &mut catalogue, answers)?,
            _ => set(alloc, line, script)?,
        }
    }
    Ok(())
}

fn mounted(outcome: Result<(), MountFail>) -> Result<(), Fault> {
    match outcome {
        Ok(()) => Ok(()),
        Err(_) => Err(Fault::Line),
    }
}

/// Where a collection was taken out, it is dropped here.
fn taken_out(outcome: Option<Box<dyn SharedSource>>) -> Result<(), Fault> {
    match outcome {
        Some(_) => Ok(()),
        None => Err(Fault::Line),
    }
}

/// The moment 0, an empty book, and no call fails.
fn empty_script(alloc: Global) -> Result<Script, Fault> {
    Ok(Script {
        site: site(alloc)?,
        now: 0,
        step: 0,
        room: 65536,
        spool_calls: Vec::new(alloc),
        keeper_calls: Vec::new(alloc),
        stop: None,
        door_calls: Vec::new(alloc),
        tells_chunks: false,
        links: String::new(alloc),
        keeper: MemoryKeeper::new(Book::empty(alloc), Vec::new(alloc), None),
    })
}

fn site(alloc: Global) -> Result<Site, Fault> {
    match Tokens::read(alloc, b"u abc\nv xyz\n") {
        Ok(tokens) => Ok(Site {
            base: Text::of(alloc, "http://127.0.0.1:12345/")?,
            tokens,
        }),
        Err(_) => Err(Fault::OutOfMemory),
    }
}

/// Sets what a line says.
fn set(alloc: Global, line: &str, script: &mut Script) -> Result<(), Fault> {
    let (verb, rest) = first_word(line);
    let (first, behind) = first_word(rest);
    match verb {
        "now" => {
            script.now = number_of(first)?;
            script.step = step_of(behind)?;
        }
        "spool" => {
            script.room = number_of(first)?;
            script.spool_calls = numbers_of(alloc, behind)?;
        }
        "keeper" => {
            script.keeper_calls = numbers_of(alloc, first)?;
            script.stop = stop_of(behind)?;
        }
        "door" => script.door_calls = numbers_of(alloc, first)?,
        "gate" => script.tells_chunks = true,
        _ => push_line(line, &mut script.links)?,
    }
    Ok(())
}

fn push_line(line: &str, lines: &mut String) -> Result<(), Fault> {
    lines.push_str(line)?;
    lines.push('\n')?;
    Ok(())
}

/// The seconds from one moment of the clock to the next.
fn step_of(word: &str) -> Result<i64, Fault> {
    if word.is_empty() {
        return Ok(0);
    }
    number_of(word)
}

/// The call of a keeper in which it stops, and whether it keeps what that call commits.
fn stop_of(line: &str) -> Result<Option<(u64, bool)>, Fault> {
    let (call, flag) = first_word(line);
    match flag {
        "" => Ok(None),
        "kept" => Ok(Some((number_of(call)?, true))),
        "lost" => Ok(Some((number_of(call)?, false))),
        _ => Err(Fault::Line),
    }
}
