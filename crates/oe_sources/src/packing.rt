// Cubes written as cube files.
ghost use Rattle.std.specs.Prelude.{◌≡◌, ◌+◌, ◌≤◌, ◌*◌, ◌++◌, true, length, vec_len, IfErr, IfOk, OnOk, OnErr};
ghost use Rattle.std.specs.List.{list_all, slice_range};
ghost use Rattle.oe_cube.specs.Kinds.{is_null_or_of};
ghost use Rattle.oe_dims.specs.Dimensions.{IsShape, cell_count, extent};
ghost use Rattle.oe_dims.specs.Names.{is_name};
ghost use Rattle.oe_outside.specs.Faults.{HasCause, HasCauseOf};
ghost use Rattle.oe_outside.specs.Visible.{Appends, AppendsPrefix};
ghost use Rattle.oe_wide.specs.Wide.{AllFitIn, byte_count, records_in};
ghost use Rattle.oe_sources.specs.Head as spec;
ghost use Rattle.oe_sources.specs.Packed.{AppendsPacked, AppendsPartOfPacked, AreLeastWidths, packed_head, plane_size, section_records};

use crate::head::{front_bytes, section_count, section_size};
use oe_cell::Cell;
use oe_dims::{CellKind, Shape, Text};
use oe_memory::OutOfMemory;
use oe_outside::{Failed, Sink};
use oe_render::CubeText;
use oe_wide::{Width, common_width, write_row};
use std::alloc::Global;

/// How many bytes of records are written at once, at most.
pub(crate) const ROOM: usize = 65536;

/// Why a cube file was not written.
#[derive(Clone, Copy, PartialEq, Eq)]
pub enum PackFail {
    /// A write failed, and the output's fault counter rose.
    SinkFailed,
    /// An allocation was refused.
    OutOfMemory,
}

/// Appends the cube file of version 2 of a cube under an id, each section of it in the least width that holds all its
/// cells.
///
/// Refuses: `SinkFailed` only where the output's fault counter rose, and then a prefix of the file was written;
/// `OutOfMemory` where an allocation was refused, and then nothing was written.
pub fn pack<O: Sink>(alloc: Global, id: &Text, cube: &CubeText, out: &mut O) -> Result<(), PackFail>
    requires id { is_name id.now ≡ true }
    requires counted { length cube.now.cells.items ≡ cell_count cube.now.shape }
    requires of_kind { list_all (is_null_or_of cube.now.kind) cube.now.cells.items ≡ true }
    ensures packed { OnOk result (AppendsPacked id.now cube.now.shape cube.now.kind
        cube.now.cells.items (O.written out.old) (O.written out.new)) }
    ensures prefix { IfErr result (λ e. e ≡ PackFail.SinkFailed →
        AppendsPartOfPacked id.now cube.now.shape cube.now.kind cube.now.cells.items
        (O.written out.old) (O.written out.new)) }
    ensures cause { HasCauseOf PackFail.SinkFailed (O.faults out.old) (O.faults out.new) result }
    ensures nothing { IfErr result (λ e. e ≡ PackFail.OutOfMemory → out.new ≡ out.old) }
{
    let Ok(widths) = widths_of(alloc, &cube.shape, &cube.cells) else {
        return Err(PackFail::OutOfMemory);
    };
    let Ok(front) = front_of(alloc, id, cube.kind, &widths, &cube.shape) else {
        return Err(PackFail::OutOfMemory);
    };
    let Ok(mut buffer) = room(alloc) else {
        return Err(PackFail::OutOfMemory);
    };
    match write_file(out, &mut buffer, &front, &widths, cube) {
        Ok(()) => Ok(()),
        Err(_) => Err(PackFail::SinkFailed),
    }
}

/// What stands before the records, and the records.
fn write_file<O: Sink>(
    out: &mut O,
    buffer: &mut Vec<u8>,
    front: &[u8],
    widths: &[Width],
    cube: &CubeText,
) -> Result<(), Failed>
    requires least { AreLeastWidths (plane_size cube.now.shape) widths.now cube.now.cells.items }
    requires counted { length cube.now.cells.items
        ≡ plane_size cube.now.shape * length widths.now }
    requires room { vec_len buffer.old ≡ 65536 }
    ensures appended { OnOk result (Appends (O.written out.old) (front.now
        ++ section_records (plane_size cube.now.shape) widths.now cube.now.cells.items)
        (O.written out.new)) }
    ensures prefix { OnErr result (AppendsPrefix (O.written out.old) (front.now
        ++ section_records (plane_size cube.now.shape) widths.now cube.now.cells.items)
        (O.written out.new)) }
    ensures cause { HasCause (O.faults out.old) (O.faults out.new) result }
{
    match out.write(front) {
        Ok(()) => {}
        Err(failed) => return Err(failed),
    }
    let size = section_size(&cube.shape) as usize;
    write_sections(out, buffer, size, widths, &cube.cells)
}

/// The records of all sections, each of so many cells, in their widths.
fn write_sections<O: Sink>(
    out: &mut O,
    buffer: &mut Vec<u8>,
    size: usize,
    widths: &[Width],
    cells: &[Cell],
) -> Result<(), Failed>
    requires least { AreLeastWidths size widths.now cells.now }
    requires counted { length cells.now ≡ size * length widths.now }
    requires room { vec_len buffer.old ≡ 65536 }
    ensures appended { OnOk result (Appends (O.written out.old)
        (section_records size widths.now cells.now) (O.written out.new)) }
    ensures prefix { OnErr result (AppendsPrefix (O.written out.old)
        (section_records size widths.now cells.now) (O.written out.new)) }
    ensures cause { HasCause (O.faults out.old) (O.faults out.new) result }
{
    for section in 0..widths.len() {
        let part = section_cells(cells, size, section);
        match write_section(out, buffer, widths[section], part) {
            Ok(()) => {}
            Err(failed) => return Err(failed),
        }
    }
    Ok(())
}

/// The cells of a section.
fn section_cells(cells: &[Cell], size: usize, section: usize) -> &[Cell]
    requires { section * size + size ≤ length cells.now }
    ensures { result.now ≡ slice_range cells.now (section * size) (section * size + size) }
{
    let first = section * size;
    &cells[first..first + size]
}

/// The least width of each section.
fn widths_of(alloc: Global, shape: &Shape, cells: &[Cell]) -> Result<Vec<Width>, OutOfMemory>
    requires { length cells.now ≡ cell_count shape.now }
    ensures least { IfOk result (λ widths.
        AreLeastWidths (plane_size shape.now) widths.items cells.now) }
    ensures counted { IfOk result (λ widths. length widths.items ≡ extent shape.now.t) }
{
    let count = section_count(shape) as usize;
    let size = section_size(shape) as usize;
    let mut widths = Vec::with_capacity(alloc, count)?;
    for section in 0..count {
        widths.push(common_width(section_cells(cells, size, section)))?;
    }
    Ok(widths)
}

/// All that stands before the records.
pub(crate) fn front_of(
    alloc: Global,
    id: &Text,
    kind: CellKind,
    widths: &[Width],
    shape: &Shape,
) -> Result<Vec<u8>, OutOfMemory>
    requires id { is_name id.now ≡ true }
    requires widths { length widths.now ≡ extent shape.now.t }
    ensures front { IfOk result (λ front. front.items ≡
        spec.front_bytes (packed_head id.now shape.now kind widths.now)) }
    ensures short { IfOk result (λ _.
        length (spec.header_text (packed_head id.now shape.now kind widths.now))
        ≤ spec.most_header) }
    ensures valid { IsShape shape.now }
{
    let _epsg = shape.epsg();
    front_bytes(alloc, id, kind, widths, shape)
}

/// Room for the records that are written at once.
pub(crate) fn room(alloc: Global) -> Result<Vec<u8>, OutOfMemory>
    ensures { IfOk result (λ buffer. vec_len buffer ≡ 65536) }
{
    match vec![in alloc; 0u8; ROOM] {
        Ok(buffer) => Ok(buffer),
        Err(_) => Err(OutOfMemory),
    }
}

/// The records of cells in a width, piece by piece.
pub(crate) fn write_section<O: Sink>(
    out: &mut O,
    buffer: &mut Vec<u8>,
    width: Width,
    cells: &[Cell],
) -> Result<(), Failed>
    requires fit { AllFitIn width cells.now }
    requires room { vec_len buffer.old ≡ 65536 }
    ensures appended { OnOk result (Appends (O.written out.old) (records_in width cells.now)
        (O.written out.new)) }
    ensures prefix { OnErr result (AppendsPrefix (O.written out.old) (records_in width cells.now)
        (O.written out.new)) }
    ensures cause { HasCause (O.faults out.old) (O.faults out.new) result }
    ensures kept { vec_len buffer.new ≡ 65536 }
{
    let most = ROOM / width.bytes();
    let mut done = 0;
    while done < cells.len() {
        let end = done + (cells.len() - done).min(most);
        match write_piece(out, buffer.as_mut_slice(), width, &cells[done..end]) {
            Ok(()) => done = end,
            Err(failed) => return Err(failed),
        }
    }
    Ok(())
}

/// The records of as many cells as the room holds, in one write.
fn write_piece<O: Sink>(
    out: &mut O,
    buffer: &mut [u8],
    width: Width,
    cells: &[Cell],
) -> Result<(), Failed>
    requires fit { AllFitIn width cells.now }
    requires room { byte_count width * length cells.now ≤ length buffer.old }
    ensures appended { OnOk result (Appends (O.written out.old) (records_in width cells.now)
        (O.written out.new)) }
    ensures prefix { OnErr result (AppendsPrefix (O.written out.old) (records_in width cells.now)
        (O.written out.new)) }
    ensures cause { HasCause (O.faults out.old) (O.faults out.new) result }
{
    let room = &mut buffer[..width.bytes() * cells.len()];
    write_row(cells, width, room);
    out.write(room)
}
