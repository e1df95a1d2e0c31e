// One life of a server, over objects in memory.
ghost use Rattle.std.specs.Prelude.{◌≤◌, IfOk};
ghost use Rattle.oe_plan.specs.Ranges.{IsWithinRanges};

use crate::clock::StepClock;
use crate::gate::CountGate;
use crate::links::door_of;
use crate::scripts::Script;
use crate::spell::{ending_word, spell_count, spell_jobs, spell_links};
use oe_jobs::Book;
use oe_keeper::MemoryKeeper;
use oe_lines::{Answers, Fault, end_line, number_of, push, words_of};
use oe_outside::{MemoryStore, ScriptDoor};
use oe_routes::Site;
use oe_serve::{ServeCommand, ServeFail, Setup, serve};
use oe_sources::Catalogue;
use oe_window::ChunkSize;
use std::alloc::Global;
use std::mem;
use std::thread::Threads;

/// What is outside of a life.
struct Objects {
    keeper: MemoryKeeper,
    spool: MemoryStore,
    door: ScriptDoor,
    clock: StepClock,
}

/// Written out, so that objects that end are one call wherever they do.
impl Drop for Objects {
    fn drop(self) {
        let Objects {
            keeper: _,
            spool: _,
            door: _,
            clock: _,
        } = self;
    }
}

impl Objects {
    /// The keeper and the door.
    fn into_keeper_and_door(self) -> (MemoryKeeper, ScriptDoor) {
        let Objects {
            keeper,
            spool: _,
            door,
            clock: _,
        } = self;
        (keeper, door)
    }
}

/// A life of the words `CX CY CT W TURNS`. Appends what was written to each connection, how the life ended, and the jobs
/// that are kept.
pub(crate) fn live<R: Threads + Sync>(
    rt: &R,
    alloc: Global,
    line: &str,
    script: &mut Script,
    catalogue: &mut Catalogue,
    answers: &mut Answers,
) -> Result<(), Fault> {
    let command = command_of(line)?;
    let mut objects = objects_of(alloc, script)?;
    let gate = CountGate::new();
    let ended = serve_over(
        rt,
        alloc,
        &script.site,
        &gate,
        command,
        &mut objects,
        catalogue,
    );
    end_life(alloc, ended, gate.entered(), objects, script, answers);
    Ok(())
}

/// The objects of the next life. Its book and the lines of its connections are taken.
fn objects_of(alloc: Global, script: &mut Script) -> Result<Objects, Fault> {
    let door = door_of(alloc, script.links.as_str(), &script.door_calls)?;
    script.links.clear();
    Ok(Objects {
        keeper: next_keeper(alloc, script)?,
        spool: spool_of(alloc, script)?,
        door,
        clock: StepClock::new(script.now, script.step),
    })
}

fn next_keeper(alloc: Global, script: &mut Script) -> Result<MemoryKeeper, Fault> {
    let calls = script.keeper_calls.to_vec(alloc)?;
    let none = MemoryKeeper::new(Book::empty(alloc), Vec::new(alloc), None);
    let last = mem::replace(&mut script.keeper, none);
    Ok(MemoryKeeper::new(last.stopped(), calls, script.stop))
}

fn spool_of(alloc: Global, script: &Script) -> Result<MemoryStore, Fault> {
    let calls = script.spool_calls.to_vec(alloc)?;
    Ok(MemoryStore::new(Vec::new(alloc), script.room, calls)?)
}

/// Serves, and answers how that ended.
fn serve_over<R: Threads + Sync>(
    rt: &R,
    alloc: Global,
    site: &Site,
    gate: &CountGate,
    command: ServeCommand,
    objects: &mut Objects,
    catalogue: &mut Catalogue,
) -> Result<(), ServeFail>
    requires { IsWithinRanges command.size command.workers }
{
    let setup = Setup {
        rt,
        alloc,
        site,
        gate,
    };
    serve(
        &setup,
        command,
        catalogue,
        &mut objects.spool,
        &mut objects.keeper,
        &mut objects.door,
        &mut objects.clock,
    )
}

/// Appends the answers of a life that ended, and keeps its book.
fn end_life(
    alloc: Global,
    ended: Result<(), ServeFail>,
    chunks: u64,
    objects: Objects,
    script: &mut Script,
    answers: &mut Answers,
) {
    let (keeper, door) = objects.into_keeper_and_door();
    spell_links(door.given_back(), answers);
    push(ending_word(ended), answers);
    spell_count(" door faults ", door.faults(), answers);
    spell_count(" link faults ", door.link_faults(), answers);
    spell_count(" keeper faults ", keeper.faults(), answers);
    if script.tells_chunks {
        spell_count(" chunks ", chunks, answers);
    }
    let book = keeper.stopped();
    spell_jobs(&book, answers);
    script.keeper = MemoryKeeper::new(book, Vec::new(alloc), None);
    end_line(answers);
}

/// The command of the words `CX CY CT W TURNS`.
fn command_of(line: &str) -> Result<ServeCommand, Fault>
    ensures { IfOk result (λ command. IsWithinRanges command.size command.workers) }
{
    let [x, y, t, workers, turns, ..] = words_of(line);
    Ok(ServeCommand {
        port: 12345,
        size: ChunkSize {
            x: within(x, 4096)?,
            y: within(y, 4096)?,
            t: within(t, 4096)?,
        },
        workers: within(workers, 64)?,
        turns: number_of(turns)?,
    })
}

/// The number of a word from 1 up to another.
fn within(word: &str, most: u32) -> Result<u32, Fault>
    ensures least { IfOk result (λ number. 1 ≤ number) }
    ensures most { IfOk result (λ number. number ≤ most) }
{
    let number = number_of(word)?;
    if 1 <= number && number <= most {
        Ok(number)
    } else {
        Err(Fault::Line)
    }
}
