// Collections that are read window by window.
ghost use Rattle.std.specs.Prelude.{◌≡◌, ℕ, Option, is_some, length, true, IfSome};
ghost use Rattle.oe_cube.specs.Collections.{IsCollection};
ghost use Rattle.oe_dims.specs.Dimensions.{Dimensions};
ghost use Rattle.oe_dims.specs.declared.kind.CellKind.{CellKind};
ghost use Rattle.oe_sources.specs.Source.{Contents, CountsRead, Looks, Reads, Source, answer_of, collection_with, fault_of, is_failed};
ghost use Rattle.oe_window.specs.Windows.{Holds, position_count, whole_window};

use crate::packing::ROOM;
use crate::permit::Looking;
use oe_cell::Cell;
use oe_dims::{CellKind, Shape};
use oe_window::{Window, size};

/// Why a window was not read.
#[derive(Clone, Copy, PartialEq, Eq)]
pub enum SourceFail {
    /// A read of what keeps the cells failed, and the source's fault counter rose.
    Failed,
    /// The position with this row-major number, from 0, is damaged.
    Damaged(u64),
}

/// Why a look at a window gave no cells.
#[derive(Drop)]
pub enum LookFail {
    /// A read of what keeps the cells failed.
    Failed(ReadFault),
    /// The position with this row-major number, from 0, is damaged.
    Damaged(u64),
}

/// A fault that a look met, and that is not counted yet. Only a source makes one, so that whoever says that a read
/// failed was told so by a look. A catalogue seals those of its collections: such a fault knows of which row of which
/// catalogue it is, and is counted for no other.
#[derive(Drop)]
pub struct ReadFault {
    part: u32,
    place: u32,
    seal: u64,
}

impl ReadFault {
    /// One that is of no catalogue yet: no contract tells what its seal is.
    fn new(part: u32) -> ReadFault {
        ReadFault {
            part,
            place: 0,
            seal: 0,
        }
    }

    /// The same fault as met in the part of this place, from 0, of a source of several. It is of no catalogue yet, even
    /// where the given one was.
    pub fn in_part(self, part: u32) -> ReadFault {
        let ReadFault { .. } = self;
        ReadFault::new(part)
    }

    /// The same fault as met by a look at a row of the catalogue with this seal.
    pub(crate) fn at(self, place: u32, seal: u64) -> ReadFault
        ensures place { result.place ≡ place }
        ensures seal { result.seal ≡ seal }
    {
        ReadFault {
            part: self.part,
            place,
            seal,
        }
    }

    /// The place of the part that met it, 0 where the source has no parts.
    pub fn part(&self) -> u32 {
        self.part
    }
}

/// A collection that is read window by window.
pub trait CubeSource: Drop {
    /// The shape, the kind of the cells, the contents where they are visible, the fault counter, and how many cells
    /// were asked.
    ghost seen: { Self → Source };

    /// The shape, which reading does not change.
    fn shape(&self) -> &Shape
        ensures value { result.now ≡ (seen self.now).shape }
        ensures sound { IfSome (seen self.now).contents
            (λ c. IsCollection (collection_with (seen self.now).shape (seen self.now).kind c)) };

    /// The kind of the cells, which reading does not change.
    fn kind(&self) -> CellKind
        ensures { result ≡ (seen self.now).kind };

    /// Looks at the cells of a window: gives them as [`CubeSource::read`] does, and counts nothing, so that several
    /// threads may look at once. `looking` shows that the cells were asked for; a source of several hands it on to its
    /// parts. `bytes` is room to work with.
    ///
    /// Refuses: `Failed` at any time; `Damaged` as `read` does.
    fn look(
        &self,
        looking: &Looking,
        window: &Window,
        bytes: &mut [u8],
        into: &mut [Cell],
    ) -> Result<(), LookFail>
        requires inside { Holds (whole_window (seen self.now).shape) window.now }
        requires room { length into.old ≡ position_count window.now }
        requires bytes { length bytes.old ≡ 65536 }
        ensures { Looks (seen self.now) window.now into.new (answer_of result) };

    /// Counts so many cells as asked for, and the fault that a look met: the number of cells asked rises by that many
    /// and stays at 2^64 − 1, and the fault counter rises where there is a fault.
    fn count(&mut self, cells: u64, fault: Option<ReadFault>)
        ensures { CountsRead (seen self.old) cells (is_some fault) (seen self.new) };

    /// Reads the cells of a window in row-major order. Each is null or of the source's kind, never `Over`. Whatever it
    /// answers, the number of cells asked rises by the size of the window, and stays at 2^64 − 1.
    ///
    /// Refuses: `Failed` only where the source's fault counter rose; `Damaged` only with a damaged position of the
    /// window, and of a source whose contents are visible always where the window has one.
    fn read(&mut self, window: &Window, into: &mut [Cell]) -> Result<(), SourceFail>
        requires inside { Holds (whole_window (seen self.old).shape) window.now }
        requires room { length into.old ≡ position_count window.now }
        ensures { Reads (seen self.old) window.now into.new (seen self.new) result }
    {
        let mut bytes = [0u8; ROOM];
        let looked = self.look(&Looking::new(), window, &mut bytes, into);
        let (answer, fault) = split_fault(looked);
        self.count(size(window), fault);
        answer
    }
}

/// A collection that several threads may look at at once.
pub trait SharedSource: CubeSource + Send + Sync {}

/// The answer of a look, with the fault that it met.
pub(crate) fn met(answer: Result<(), SourceFail>) -> Result<(), LookFail>
    ensures { answer_of result ≡ answer }
{
    match answer {
        Ok(()) => Ok(()),
        Err(SourceFail::Failed) => Err(LookFail::Failed(ReadFault::new(0))),
        Err(SourceFail::Damaged(number)) => Err(LookFail::Damaged(number)),
    }
}

/// The answer of a look as one of a read, and the fault that it met, to be counted.
pub fn split_fault(answer: Result<(), LookFail>) -> (Result<(), SourceFail>, Option<ReadFault>)
    ensures answer { result.0 ≡ answer_of answer }
    ensures fault { result.1 ≡ fault_of answer }
{
    match answer {
        Ok(()) => (Ok(()), None),
        Err(LookFail::Failed(fault)) => (Err(SourceFail::Failed), Some(fault)),
        Err(LookFail::Damaged(number)) => (Err(SourceFail::Damaged(number)), None),
    }
}

/// The answer is that a read failed.
pub(crate) fn is_failed(answer: &Result<(), SourceFail>) -> bool
    ensures { result ≡ is_failed answer.now }
{
    match answer {
        Err(SourceFail::Failed) => true,
        _ => false,
    }
}
