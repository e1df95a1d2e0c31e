// A door in memory.
ghost use Rattle.std.specs.Prelude.{◌≡◌, ◌↔◌, ◌≤◌, ◌==◌, ◌||◌, All, Some, length, is_err, IsErr, IsTrue, IfOk, if◌then◌else◌};
ghost use Rattle.oe_outside.specs.Faults.{HasCause, counted, count_after};
ghost use Rattle.oe_outside.specs.Script.{fails_next, after_call};
ghost use Rattle.oe_outside.specs.ScriptDoors.{door_of, IsSound};

use crate::last_dial::LastDial;
use crate::script::{Script, raise};
use crate::{Door, Failed, MemoryLink, Next};
use oe_memory::OutOfMemory;
use std::alloc::Global;
use std::marker::Model;

/// A door over connections in memory, all of which are visible. Its calls fail by a script.
pub struct ScriptDoor {
    // The first of these two stands last.
    coming: Vec<MemoryLink>,
    to_dial: Vec<MemoryLink>,
    out: usize,
    given_back: Vec<MemoryLink>,
    room: usize,
    nexts: u64,
    dials: u64,
    last_dial: LastDial,
    script: Script,
    faults: u64,
    dial_faults: u64,
    link_faults: u64,
}

impl Model for ScriptDoor {
    ghost use Rattle.std.specs.Prelude.{◌≡◌, ◌≤◌, ◌+◌, All, reverse, length, vec_capacity};
    ghost use Rattle.oe_outside.specs.ScriptDoors.{DoorState, door_code, IsSound};

    ghost Value = { DoorState };

    ghost coded = { door_code };

    ghost view = { λ d. record {
      visible = record {
        coming = reverse d.coming.items;
        to_dial = reverse d.to_dial.items;
        out = d.out;
        given_back = d.given_back.items;
        nexts = d.nexts;
        dials = d.dials;
        last_dial = d.last_dial;
      };
      script = d.script;
      faults = d.faults;
      dial_faults = d.dial_faults;
      link_faults = d.link_faults;
    } };

    ghost invariant = { λ d. All IsSound d.coming.items
        × All IsSound d.to_dial.items
        × (length d.coming.items + length d.to_dial.items + d.out + length d.given_back.items
        ≡ d.room)
        × (d.room ≤ vec_capacity d.given_back) };
}

/// Written out, so that a door that ends is one call wherever it does.
impl Drop for ScriptDoor {
    fn drop(self) {
        let ScriptDoor {
            coming: _,
            to_dial: _,
            out: _,
            given_back: _,
            room: _,
            nexts: _,
            dials: _,
            last_dial: _,
            script: _,
            faults: _,
            dial_faults: _,
            link_faults: _,
        } = self;
    }
}

impl ScriptDoor {
    /// A door to which `links` come, in their order, and which dials `dialled`, in their order. The room for those that
    /// are given back is taken now, so that no later call takes memory. `failing` has the numbers of the calls that
    /// fail, counted from 0 over `next` and `dial` together, in any order.
    ///
    /// Refuses: where an allocation was refused.
    pub fn new(
        alloc: Global,
        mut links: Vec<MemoryLink>,
        mut dialled: Vec<MemoryLink>,
        failing: Vec<u64>,
    ) -> Result<ScriptDoor, OutOfMemory>
        requires links { All IsSound links.items }
        requires dialled { All IsSound dialled.items }
        ensures { IfOk result (λ door. door ≡ door_of links.items dialled.items failing.items) }
    {
        let script = Script::new(failing)?;
        let room = links.len() + dialled.len();
        let given_back = Vec::with_capacity(alloc, room)?;
        links.reverse();
        dialled.reverse();
        Ok(ScriptDoor {
            coming: links,
            to_dial: dialled,
            out: 0,
            given_back,
            room,
            nexts: 0,
            dials: 0,
            last_dial: LastDial::none(),
            script,
            faults: 0,
            dial_faults: 0,
            link_faults: 0,
        })
    }

    /// The connections that were given back, in their order, for tests.
    pub fn given_back(&self) -> &[MemoryLink]
        ensures { result.now ≡ self.now.visible.given_back }
    {
        &self.given_back
    }

    /// How many calls of `next` have failed, for tests.
    pub fn faults(&self) -> u64
        ensures { result ≡ self.now.faults }
    {
        self.faults
    }

    /// How many calls of `dial` have failed, for tests.
    pub fn dial_faults(&self) -> u64
        ensures { result ≡ self.now.dial_faults }
    {
        self.dial_faults
    }

    /// How many connections were given back with faults, for tests.
    pub fn link_faults(&self) -> u64
        ensures { result ≡ self.now.link_faults }
    {
        self.link_faults
    }
}

impl Door for ScriptDoor {
    ghost use Rattle.oe_outside.specs.Doors.{ShowsNext, ShowsDialled, ShowsDone, taken_back, IsFailed, IsNobody, IfConn, HasNextCause, CountsLink};
    ghost use Rattle.std.specs.Prelude.{Some};

    type Conn = MemoryLink;

    ghost visible = { λ d. Some d.visible };

    ghost faults = { λ d. d.faults };

    ghost dial_faults = { λ d. d.dial_faults };

    ghost link_faults = { λ d. d.link_faults };

    /// It fails exactly where the script says so.
    fn next(&mut self, busy: bool) -> Next<MemoryLink>
        ensures visible { ShowsNext (Some self.old.visible) busy result (Some self.new.visible) }
        ensures fails { IsFailed result ↔ IsTrue (fails_next self.old.script) }
        ensures script { self.new.script ≡ after_call self.old.script }
        ensures faults { self.new.faults
            ≡ count_after self.old.faults (fails_next self.old.script) }
        ensures fresh { IfConn result IsSound }
        ensures nobody { IsNobody result → IsTrue busy }
        ensures cause { HasNextCause (Some self.old.visible)
            self.old.faults self.new.faults result }
        ensures same_dial_faults { self.new.dial_faults ≡ self.old.dial_faults }
        ensures same_link_faults { self.new.link_faults ≡ self.old.link_faults }
    {
        self.nexts = self.nexts.saturating_add(1);
        if self.script.next_call() {
            raise(&mut self.faults);
            return Next::Failed;
        }
        match self.coming.pop() {
            Some(link) => {
                self.out += 1;
                Next::Conn(link)
            }
            None if busy => Next::Nobody,
            None => Next::Closed,
        }
    }

    /// It fails exactly where the script says so, and where no connection is left to be dialled.
    fn dial(&mut self, host: &str, port: u16) -> Result<MemoryLink, Failed>
        requires named { 1 ≤ length host.now }
        requires short { length host.now ≤ 253 }
        ensures visible { ShowsDialled (Some self.old.visible) host.now port result
            (Some self.new.visible) }
        ensures fails { IsErr result
            ↔ IsTrue (fails_next self.old.script || (length self.old.visible.to_dial == 0)) }
        ensures script { self.new.script ≡ after_call self.old.script }
        ensures dial_faults { self.new.dial_faults
            ≡ count_after self.old.dial_faults (is_err result) }
        ensures fresh { IfOk result IsSound }
        ensures cause { HasCause self.old.dial_faults self.new.dial_faults result }
        ensures same_faults { self.new.faults ≡ self.old.faults }
        ensures same_link_faults { self.new.link_faults ≡ self.old.link_faults }
    {
        self.dials = self.dials.saturating_add(1);
        self.last_dial.keep(host, port);
        if self.script.next_call() {
            return Err(raise(&mut self.dial_faults));
        }
        match self.to_dial.pop() {
            Some(link) => {
                self.out += 1;
                Ok(link)
            }
            None => Err(raise(&mut self.dial_faults)),
        }
    }

    /// Lets go a connection that is more than the door gave.
    fn done(&mut self, conn: MemoryLink)
        ensures visible { self.new.visible ≡ taken_back self.old.visible conn }
        ensures link_faults { self.new.link_faults
            ≡ (if conn.faults == 0 then self.old.link_faults else counted self.old.link_faults) }
        ensures cause { CountsLink conn.faults self.old.link_faults self.new.link_faults }
        ensures script { self.new.script ≡ self.old.script }
        ensures same_faults { self.new.faults ≡ self.old.faults }
        ensures same_dial_faults { self.new.dial_faults ≡ self.old.dial_faults }
    {
        if conn.is_faulty() {
            raise(&mut self.link_faults);
        }
        if self.out > 0 {
            self.out -= 1;
            self.given_back.push(conn).unwrap();
        }
    }
}
