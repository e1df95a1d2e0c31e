// What may be looked at: no more cells than were asked for, of the catalogue of which they were asked.
ghost use Rattle.std.specs.Prelude.{◌≡◌, ◌≤◌, ◌<◌, ◌+◌, ◌^◌};
ghost use Rattle.oe_sources.specs.Permits.{Spends, permit_for_none, permit_raised};

use crate::packing::ROOM;
use std::marker::Model;

/// So many cells that were asked of a catalogue, and that are not looked at yet. Only [`crate::Catalogue::ask`] raises
/// it, so that in all no more is looked at than was asked. It has the seal of the catalogue, and is of no use with
/// another.
#[derive(Drop)]
pub struct Permit {
    left: u64,
    seal: u64,
}

impl Model for Permit {
    ghost use Rattle.oe_sources.specs.Permits.{PermitOf};

    ghost Value = { PermitOf };

    ghost view = { λ p. record { left = p.left; seal = p.seal } };
}

impl Permit {
    /// A permit for no cell of the catalogue with this seal.
    pub(crate) fn none(seal: u64) -> Permit
        ensures { result ≡ permit_for_none seal }
    {
        Permit { left: 0, seal }
    }

    /// For how many cells it is.
    pub fn left(&self) -> u64
        ensures { result ≡ self.now.left }
    {
        self.left
    }

    /// Takes so many cells out, as a permit of their own.
    pub fn split(&mut self, cells: u64) -> Permit
        requires { cells ≤ self.old.left }
        ensures taken { result ≡ record { left = cells; seal = self.old.seal } }
        ensures rest { Spends cells self.old self.new }
    {
        self.left -= cells;
        Permit {
            left: cells,
            seal: self.seal,
        }
    }

    /// Has it stand for so many cells more.
    pub(crate) fn raise(&mut self, cells: u64)
        requires { self.old.left + cells < 2 ^ 64 }
        ensures { self.new ≡ permit_raised cells self.old }
    {
        self.left += cells;
    }
}

/// What a thread looks with: a permit, and room to work in.
#[derive(Drop)]
pub struct Looker {
    pub(crate) permit: Permit,
    pub(crate) bytes: [u8; ROOM],
}

impl Model for Looker {
    ghost use Rattle.oe_sources.specs.Permits.{PermitOf};

    ghost Value = { PermitOf };

    ghost view = { λ l. l.permit };
}

impl Looker {
    /// One that may look at as many cells as the permit is for.
    pub fn new(permit: Permit) -> Looker
        ensures { result ≡ permit }
    {
        Looker {
            permit,
            bytes: [0u8; ROOM],
        }
    }
}

/// Shows a source that the cells of a look were asked for. Only this crate makes one, which it lends for one look.
#[derive(Drop)]
pub struct Looking {
    _asked: (),
}

impl Looking {
    pub(crate) fn new() -> Looking {
        Looking { _asked: () }
    }
}
