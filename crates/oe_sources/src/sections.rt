// The sections of a cube file, each with records of one width.
ghost use Rattle.std.specs.Prelude.{◌≡◌, ◌<◌, ◌≤◌, ◌^◌, ◌*◌, ◌+◌, ◌-◌, ◌%◌, length, IfOk};
ghost use Rattle.oe_dims.specs.Dimensions.{cell_count};
ghost use Rattle.oe_sources.specs.CubeFile.{section_of, width_of};
ghost use Rattle.oe_sources.specs.FileState.{AreSectionsOf, AreStarts};
ghost use Rattle.oe_sources.specs.Head.{IsHead, record_bytes_count, section_size, section_start};
ghost use Rattle.oe_wide.specs.Wide.{byte_count};

use crate::head::{Head, section_size};
use oe_dims::CellKind;
use oe_memory::OutOfMemory;
use oe_wide::Width;
use std::alloc::Global;

/// The kind of a cell, the width of its record, where that stands, and how many cells from it on are of its section.
#[derive(Clone, Copy)]
pub(crate) struct Spot {
    pub(crate) kind: CellKind,
    pub(crate) width: Width,
    pub(crate) offset: u64,
    pub(crate) left: u64,
}

/// Where a section of so many cells of a width ends that begins there.
fn end_after(start: u64, size: u64, width: Width) -> u64
    requires start { start ≤ 2 ^ 45 }
    requires size { size ≤ 2 ^ 40 }
    ensures { result ≡ start + size * byte_count width }
{
    start + size * width.bytes() as u64
}

/// Where the sections stand, one behind the other, all with as many cells.
#[derive(Drop)]
pub(crate) struct Sections {
    size: u64,
    starts: Vec<u64>,
    end: u64,
}

impl Sections {
    /// The sections of a file with this head. One of version 1 is a single section. Refuses: out of memory.
    pub(crate) fn of(alloc: Global, head: &Head) -> Result<Sections, OutOfMemory>
        requires { IsHead head.now }
        ensures { IfOk result (λ s. AreSectionsOf head.now s.size s.starts.items s.end) }
    {
        match &head.widths {
            None => Sections::new(alloc, head.shape.cells(), &[Width::Seventeen]),
            Some(widths) => Sections::new(alloc, section_size(&head.shape), widths),
        }
    }

    /// Sections of so many cells each, with these widths.
    fn new(alloc: Global, size: u64, widths: &[Width]) -> Result<Sections, OutOfMemory>
        requires { size * length widths.now ≤ 2 ^ 40 }
        ensures starts { IfOk result (λ s. AreStarts size widths.now s.starts.items s.end) }
        ensures size { IfOk result (λ s. s.size ≡ size) }
    {
        let mut starts = Vec::with_capacity(alloc, widths.len())?;
        let mut end = 0;
        for width in widths {
            starts.push(end)?;
            end = end_after(end, size, *width);
        }
        Ok(Sections { size, starts, end })
    }

    /// How many bytes all records have.
    pub(crate) fn bytes(&self) -> u64
        ensures { result ≡ self.now.end }
    {
        self.end
    }

    /// Where the record of the cell with a row-major number stands among all records.
    pub(crate) fn place_of(&self, head: &Head, number: u64) -> Spot
        requires valid { IsHead head.now }
        requires sections { AreSectionsOf head.now self.now.size self.now.starts.items
            self.now.end }
        requires number { number < cell_count head.now.shape }
        ensures kind { result.kind ≡ head.now.kind }
        ensures width { result.width ≡ width_of head.now number }
        ensures offset { result.offset ≡ section_start head.now (section_of head.now number)
            + byte_count (width_of head.now number) * (number % section_size head.now) }
        ensures left { result.left ≡ section_size head.now - number % section_size head.now }
    {
        let section = (number / self.size) as usize;
        let within = number % self.size;
        let width = head.width_of(section);
        Spot {
            kind: head.kind,
            width,
            offset: self.starts[section] + within * width.bytes() as u64,
            left: self.size - within,
        }
    }
}
