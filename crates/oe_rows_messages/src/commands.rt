// Commands, from a line.
ghost use Rattle.std.specs.Prelude.{IfOk};
ghost use Rattle.oe_graph.specs.Plain.{plain_stored};
ghost use Rattle.oe_jobs.specs.Valid.{IsStored};

use crate::jobs::level_of;
use oe_dims::Text;
use oe_graph::{Refusal, StoredProcess, read_stored};
use oe_jobs::Command;
use oe_lines::{Fault, Line};
use std::alloc::Global;

/// The process of every job, and of every stored process.
pub(crate) const PROCESS: &str =
    r#"{"process_graph":{"a":{"arguments":{},"process_id":"p","result":true}}}"#;

/// A command, of the word of what it does and the words behind it.
pub(crate) fn command_of(line: &mut Line) -> Result<Command, Fault> {
    match line.word() {
        "create" => create_of(line),
        "patch" => patch_of(line),
        "store" => Ok(Command::Store {
            process: stored_of(line.alloc(), line.rest())?,
        }),
        word => command_on(word, Text::of(line.alloc(), line.rest())?),
    }
}

/// A command of nothing but an id.
fn command_on(word: &str, id: Text) -> Result<Command, Fault> {
    match word {
        "delete" => Ok(Command::Delete { id }),
        "queue" => Ok(Command::Queue { id }),
        "cancel" => Ok(Command::Cancel { id }),
        "forget" => Ok(Command::Forget { id }),
        _ => Err(Fault::Line),
    }
}

/// A new job of a level and, where more words stand there, a title.
fn create_of(line: &mut Line) -> Result<Command, Fault> {
    let level = level_of(line);
    let process = Text::of(line.alloc(), PROCESS)?;
    let title = title_of(line.alloc(), line.rest())?;
    Ok(Command::Create {
        title,
        description: None,
        process,
        level,
    })
}

fn title_of(alloc: Global, words: &str) -> Result<Option<Text>, Fault> {
    if words.is_empty() {
        Ok(None)
    } else {
        Ok(Some(Text::of(alloc, words)?))
    }
}

/// A job of an id and what is patched: nothing, `level L`, `title T`, `description D`, or `null` for no title and no
/// description.
fn patch_of(line: &mut Line) -> Result<Command, Fault> {
    let id = Text::of(line.alloc(), line.word())?;
    let what = line.word();
    let level = if what == "level" {
        Some(level_of(line))
    } else {
        None
    };
    let value = line.rest();
    let title = new_text(line.alloc(), what, "title", value)?;
    let description = new_text(line.alloc(), what, "description", value)?;
    Ok(Command::Patch {
        id,
        title,
        description,
        process: None,
        level,
    })
}

/// The value, where this text is patched.
fn new_text(
    alloc: Global,
    what: &str,
    name: &str,
    value: &str,
) -> Result<Option<Option<Text>>, Fault> {
    if what == name {
        Ok(Some(Some(Text::of(alloc, value)?)))
    } else if what == "null" {
        Ok(Some(None))
    } else {
        Ok(None)
    }
}

/// A stored process of an id.
pub(crate) fn stored_of(alloc: Global, id: &str) -> Result<StoredProcess, Fault>
    ensures { IfOk result (λ p. IsStored (plain_stored p)) }
{
    match read_stored(alloc, id, PROCESS.as_bytes()) {
        Ok(process) => Ok(process),
        Err(Refusal::OutOfMemory) => Err(Fault::OutOfMemory),
        Err(Refusal::Fault(_)) => Err(Fault::Line),
    }
}
