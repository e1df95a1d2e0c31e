// Doors by which connections in memory come.
ghost use Rattle.std.specs.Prelude.{All, IfOk};
ghost use Rattle.oe_outside.specs.ScriptDoors.{IsSound};

use crate::links::link_of;
use crate::objects::{Object, answer_calls, spell_bytes};
use oe_lines::{Answers, Fault, Line, end_line, push, push_number};
use oe_outside::{Door, Failed, Link, MemoryLink, Next, ScriptDoor};
use std::alloc::Global;

/// How many written bytes a connection has room for.
const ROOM: usize = 9;

/// Begins with a connection in hand that the door did not give.
pub(crate) fn answer_door(
    line: &mut Line,
    calls: &str,
    answers: &mut Answers,
) -> Result<(), Fault> {
    let alloc = line.alloc();
    let door = door_of(line)?;
    let held = Some(link_of(alloc, Vec::new(alloc), 1, ROOM, "-")?);
    answer_calls(alloc, &mut Entry { door, held }, calls, answers);
    Ok(())
}

/// A door, and the connection in hand.
struct Entry {
    door: ScriptDoor,
    held: Option<MemoryLink>,
}

/// Written out, so that such a value ends by one call wherever it does.
impl Drop for Entry {
    fn drop(self) {
        let Entry { door: _, held: _ } = self;
    }
}

impl Object for Entry {
    fn call(&mut self, call: &mut Line, answers: &mut Answers) {
        let step = call.word();
        let mark = call.rest().as_bytes();
        match take_step(&mut self.door, &mut self.held, step, mark) {
            Ok(word) => push(word, answers),
            Err(fault) => call.note(fault),
        }
        spell_door(&self.door, answers);
    }
}

fn door_of(line: &mut Line) -> Result<ScriptDoor, Fault> {
    let failing = line.numbers();
    let coming = links_of(line.alloc(), line.word())?;
    let dialled = links_of(line.alloc(), line.word())?;
    Ok(ScriptDoor::new(line.alloc(), coming, dialled, failing)?)
}

/// A connection for each word, which gives nothing and whose call of that number fails.
fn links_of(alloc: Global, calls: &str) -> Result<Vec<MemoryLink>, Fault>
    ensures { IfOk result (λ links. All IsSound links.items) }
{
    let mut links = Vec::new(alloc);
    if calls == "none" {
        return Ok(links);
    }
    for call in calls.split(',') {
        links.push(link_of(alloc, Vec::new(alloc), 1, ROOM, call)?)?;
    }
    Ok(links)
}

/// Takes a step at a door with one connection in hand at most, through the bound.
fn take_step<D: Door>(
    door: &mut D,
    held: &mut Option<D::Conn>,
    step: &str,
    mark: &[u8],
) -> Result<&'static str, Fault>
where
    D::Conn: Drop,
{
    match step {
        "next" => Ok(keep(door.next(false), held, mark)),
        "busy" => Ok(keep(door.next(true), held, mark)),
        "dial" => Ok(keep(dial(door), held, mark)),
        "done" => {
            if let Some(conn) = held.take() {
                door.done(conn);
            }
            Ok("done")
        }
        _ => Err(Fault::Line),
    }
}

fn dial<D: Door>(door: &mut D) -> Next<D::Conn> {
    match door.dial("localhost", 80) {
        Ok(conn) => Next::Conn(conn),
        Err(Failed) => Next::Failed,
    }
}

/// Writes the mark to a connection that came, and keeps it.
fn keep<C: Link + Drop>(found: Next<C>, held: &mut Option<C>, mark: &[u8]) -> &'static str {
    match found {
        Next::Conn(mut conn) => {
            let _ = Link::write(&mut conn, mark);
            *held = Some(conn);
            "Conn"
        }
        Next::Nobody => "Nobody",
        Next::Closed => "Closed",
        Next::Failed => "Failed",
    }
}

/// Ends a line with the faults of a door, and what was written to the connections that were given back.
fn spell_door(door: &ScriptDoor, answers: &mut Answers) {
    push(" |", answers);
    push_number(" ", door.faults(), answers);
    push_number(" ", door.dial_faults(), answers);
    push_number(" ", door.link_faults(), answers);
    for link in door.given_back() {
        spell_bytes(link.written(), answers);
    }
    end_line(answers);
}
