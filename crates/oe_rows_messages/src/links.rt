// Links in memory, as a line describes them.
ghost use Rattle.std.specs.Prelude.{◌≡◌, IfOk};

use oe_lines::{Answers, Fault, Line, end_line, number_of, numbers_of, push_number};
use oe_outside::MemoryLink;
use std::alloc::Global;

/// How many written bytes a link has room for.
const ROOM: usize = 65536;

/// How links give their bytes, as the line spells it.
#[derive(Clone, Copy)]
pub(crate) struct Links<'a> {
    /// The most bytes that a read gives, for each link.
    pub(crate) pieces: &'a str,
    /// The calls of each link that fail.
    pub(crate) calls: &'a str,
}

pub(crate) fn links_of<'a>(line: &mut Line<'a>) -> Links<'a> {
    let pieces = line.word();
    let calls = line.rest();
    Links { pieces, calls }
}

/// A link that gives these bytes, at most so many in a read, and has room for as many as the capacity. No call of it has
/// failed, and those of these numbers will.
pub(crate) fn link_of(
    alloc: Global,
    bytes: Vec<u8>,
    piece: usize,
    capacity: usize,
    calls: &str,
) -> Result<MemoryLink, Fault>
    ensures { IfOk result (λ link. link.faults ≡ 0) }
{
    let failing = numbers_of(alloc, calls)?;
    Ok(MemoryLink::new(alloc, bytes, piece.max(1), capacity, failing)?)
}

/// A link that gives these bytes.
pub(crate) fn incoming_link(
    alloc: Global,
    bytes: &[u8],
    piece: &str,
    calls: &str,
) -> Result<MemoryLink, Fault> {
    link_of(alloc, bytes.to_vec(alloc)?, number_of(piece)?, 0, calls)
}

/// A link that has room for what is written to it.
pub(crate) fn outgoing_link(alloc: Global, calls: &str) -> Result<MemoryLink, Fault> {
    link_of(alloc, Vec::new(alloc), 1, ROOM, calls)
}

/// A link that gives these bytes, in pieces of the first size, and has room for what is written to it.
pub(crate) fn peer_link(
    alloc: Global,
    bytes: Vec<u8>,
    links: Links<'_>,
) -> Result<MemoryLink, Fault> {
    link_of(alloc, bytes, number_of(links.pieces)?, ROOM, links.calls)
}

/// Appends how many calls of a link failed, if any did, and the end of the line.
pub(crate) fn spell_end(link: &MemoryLink, answers: &mut Answers) {
    if link.faults() != 0 {
        push_number(" faults ", link.faults(), answers);
    }
    end_line(answers);
}
