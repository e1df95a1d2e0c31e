// Mounted collections written as cube files.
ghost use Rattle.std.specs.Prelude.{◌≡◌, ◌≢◌, ◌≤◌, ◌<◌, ◌^◌, ◌+◌, ◌-◌, ◌*◌, length, take, true, vec_len, ◌↔◌, IsTrue, IfErr, IfOk, OnOk};
ghost use Rattle.oe_dims.specs.Dimensions.{extent, most_labels};
ghost use Rattle.oe_dims.specs.Names.{is_name};
ghost use Rattle.oe_outside.specs.Faults.{HasCauseOf};
ghost use Rattle.oe_sources.specs.Catalogue.{OnlyReads, source_at};
ghost use Rattle.oe_sources.specs.CatalogueRows.{rows_in};
ghost use Rattle.oe_sources.specs.Repacked.{AppendsRepacked, AreSidesOf, FitsSection, GivesCells, HasAllWidths, HasReadCauseIn, HasRoom, HasSectionWidth, HasWidths, IsNextPart, IsReadRefusal, IsSectionAt, IsUndamaged, LeavesWritten, TellsDamageAt, WritesSection, WritesSections};
ghost use Rattle.oe_wide.specs.Wide.{AllFitIn};
ghost use Rattle.oe_window.specs.Windows.{Holds, extent_along, position_count, whole_window};

use crate::head::section_count;
use crate::packing::{front_of, room, write_section};
use crate::{Catalogue, SourceFail};
use oe_cell::{Cell, whole_cell};
use oe_dims::{Kind, Shape, Text};
use oe_memory::OutOfMemory;
use oe_outside::{Gate, Sink};
use oe_wide::{Width, common_width};
use oe_window::{Span, Window, size};
use std::alloc::Global;

/// How many cells are read at once: the longest row is no longer.
const CELLS: u64 = 65536;

/// Why a mounted collection was not written as a cube file.
#[derive(Clone, Copy, PartialEq, Eq)]
pub enum RepackFail {
    /// A read of the collection failed, and its fault counter rose.
    SourceFailed,
    /// The position with this row-major number is damaged.
    SourceDamaged(u64),
    /// A write failed, and the output's fault counter rose.
    SinkFailed,
    /// An allocation was refused.
    OutOfMemory,
}

impl From<OutOfMemory> for RepackFail {
    ghost use Rattle.oe_sources.specs.declared.repacking.RepackFail.TheVariants.{OutOfMemory as NoMemory};

    ghost from_gives = { λ _ e. e ≡ NoMemory };

    fn from(_error: OutOfMemory) -> RepackFail {
        RepackFail::OutOfMemory
    }
}

/// Appends the cube file of version 2 of a mounted collection under an id, each section in the least width that holds
/// all its cells. It reads the collection twice: once for the widths, before anything is written. It enters the gate
/// before each section that it reads, with the number of sections before that: twice as often as there are sections.
///
/// Refuses: `SourceFailed` only where the collection's fault counter rose; then nothing or a prefix of the file was
/// written. `SinkFailed` only where the output's fault counter rose; then a prefix was written, and where the contents
/// are visible none of them is damaged. `SourceDamaged` only with the number of a position; where the contents are
/// visible it is damaged, and the output is as it was. `OutOfMemory` where an allocation was refused; then the output
/// is as it was.
pub fn repack<O: Sink, G: Gate>(
    alloc: Global,
    catalogue: &mut Catalogue,
    place: u32,
    id: &Text,
    out: &mut O,
    gate: &G,
) -> Result<(), RepackFail>
    requires mounted { place < length (rows_in seen catalogue.old) }
    requires id { is_name id.now ≡ true }
    ensures written { OnOk result (AppendsRepacked id.now
        (source_at (rows_in seen catalogue.old) place) (O.written out.old) (O.written out.new)) }
    ensures undamaged { OnOk result (IsUndamaged (source_at (rows_in seen catalogue.old) place)) }
    ensures left { IfErr result (LeavesWritten O.written id.now
        (source_at (rows_in seen catalogue.old) place) out.old out.new) }
    ensures damage { IfErr result (TellsDamageAt (rows_in seen catalogue.old) place) }
    ensures source { HasReadCauseIn seen catalogue.old place catalogue.new result }
    ensures sink { HasCauseOf RepackFail.SinkFailed (O.faults out.old) (O.faults out.new) result }
    ensures only { OnlyReads (rows_in seen catalogue.old) place (rows_in seen catalogue.new) }
{
    let mut cells = cell_room(alloc)?;
    let mut buffer = room(alloc)?;
    let widths = match find_widths(alloc, catalogue, place, &mut cells, gate) {
        Ok(widths) => widths,
        Err(fail) => return Err(fail),
    };
    let kind = catalogue.kind(place);
    let front = front_of(alloc, id, kind, &widths, catalogue.shape(place))?;
    match out.write(&front) {
        Ok(()) => {}
        Err(_) => return Err(RepackFail::SinkFailed),
    }
    match write_all(
        out,
        catalogue,
        place,
        &widths,
        &mut cells,
        &mut buffer,
        gate,
    ) {
        Ok(()) => Ok(()),
        Err(fail) => Err(fail),
    }
}

/// Room for the cells that are read at once.
fn cell_room(alloc: Global) -> Result<Vec<Cell>, OutOfMemory>
    ensures { IfOk result (λ cells. length cells.items ≡ 65536) }
{
    match vec![in alloc; whole_cell(0); CELLS as usize] {
        Ok(cells) => Ok(cells),
        Err(_) => Err(OutOfMemory),
    }
}

/// The least width of each section of a collection.
fn find_widths<G: Gate>(
    alloc: Global,
    catalogue: &mut Catalogue,
    place: u32,
    cells: &mut [Cell],
    gate: &G,
) -> Result<Vec<Width>, RepackFail>
    requires mounted { place < length (rows_in seen catalogue.old) }
    requires enough { length cells.old ≡ 65536 }
    ensures counted { IfOk result (λ widths.
        length widths.items ≡ extent (source_at (rows_in seen catalogue.old) place).shape.t) }
    ensures widths { IfOk result
        (λ widths. HasWidths (source_at (rows_in seen catalogue.old) place) widths.items) }
    ensures refusal { IfErr result (λ e. e ≢ RepackFail.SinkFailed) }
    ensures damage { IfErr result (TellsDamageAt (rows_in seen catalogue.old) place) }
    ensures cause { HasReadCauseIn seen catalogue.old place catalogue.new result }
    ensures only { OnlyReads (rows_in seen catalogue.old) place (rows_in seen catalogue.new) }
    ensures room { length cells.new ≡ length cells.old }
{
    let count = section_count(catalogue.shape(place));
    let mut widths = match Vec::with_capacity(alloc, count as usize) {
        Ok(widths) => widths,
        Err(_) => return Err(RepackFail::OutOfMemory),
    };
    for section in 0..count {
        gate.enter(u64::from(section));
        let width = section_width(catalogue, place, section, cells)?;
        match widths.push(width) {
            Ok(()) => {}
            Err(_) => return Err(RepackFail::OutOfMemory),
        }
    }
    Ok(widths)
}

/// The least width that holds all cells of a section.
fn section_width(
    catalogue: &mut Catalogue,
    place: u32,
    section: u32,
    cells: &mut [Cell],
) -> Result<Width, RepackFail>
    requires section { IsSectionAt (rows_in seen catalogue.old) place section }
    requires enough { length cells.old ≡ 65536 }
    ensures width { IfOk result
        (HasSectionWidth (source_at (rows_in seen catalogue.old) place) section) }
    ensures refusal { IfErr result IsReadRefusal }
    ensures damage { IfErr result (TellsDamageAt (rows_in seen catalogue.old) place) }
    ensures cause { HasReadCauseIn seen catalogue.old place catalogue.new result }
    ensures only { OnlyReads (rows_in seen catalogue.old) place (rows_in seen catalogue.new) }
    ensures room { length cells.new ≡ length cells.old }
{
    let sides = sides_of(catalogue.shape(place));
    let rows = rows_of(sides);
    let mut width = Width::One;
    let mut done = 0;
    while done < rows {
        let part = part_from(sides, section, done);
        let count = match read_part(catalogue, place, &part.window, cells) {
            Ok(count) => count,
            Err(fail) => return Err(fail),
        };
        width = width.wider(common_width(&cells[..count]));
        done += part.rows;
    }
    Ok(width)
}

/// The records of all sections, in their widths.
fn write_all<O: Sink, G: Gate>(
    out: &mut O,
    catalogue: &mut Catalogue,
    place: u32,
    widths: &[Width],
    cells: &mut [Cell],
    buffer: &mut Vec<u8>,
    gate: &G,
) -> Result<(), RepackFail>
    requires mounted { place < length (rows_in seen catalogue.old) }
    requires widths { HasAllWidths (source_at (rows_in seen catalogue.old) place) widths.now }
    requires enough { length cells.old ≡ 65536 }
    requires buffer { vec_len buffer.old ≡ 65536 }
    ensures writes { WritesSections O.written out.old out.new
        (source_at (rows_in seen catalogue.old) place) widths.now result }
    ensures refusal { IfErr result (λ e. e ≢ RepackFail.OutOfMemory) }
    ensures damage { IfErr result (TellsDamageAt (rows_in seen catalogue.old) place) }
    ensures source { HasReadCauseIn seen catalogue.old place catalogue.new result }
    ensures sink { HasCauseOf RepackFail.SinkFailed (O.faults out.old) (O.faults out.new) result }
    ensures only { OnlyReads (rows_in seen catalogue.old) place (rows_in seen catalogue.new) }
{
    let count = section_count(catalogue.shape(place));
    for section in 0..count {
        gate.enter(u64::from(count) + u64::from(section));
        let width = widths[section as usize];
        match write_one(out, catalogue, place, section, width, cells, buffer) {
            Ok(()) => {}
            Err(fail) => return Err(fail),
        }
    }
    Ok(())
}

/// The records of a section in a width.
fn write_one<O: Sink>(
    out: &mut O,
    catalogue: &mut Catalogue,
    place: u32,
    section: u32,
    width: Width,
    cells: &mut [Cell],
    buffer: &mut Vec<u8>,
) -> Result<(), RepackFail>
    requires section { IsSectionAt (rows_in seen catalogue.old) place section }
    requires fit { FitsSection (source_at (rows_in seen catalogue.old) place) section width }
    requires room { HasRoom cells.old buffer.old }
    ensures writes { WritesSection O.written out.old out.new
        (source_at (rows_in seen catalogue.old) place) section width result }
    ensures refusal { IfErr result (λ e. e ≢ RepackFail.OutOfMemory) }
    ensures damage { IfErr result (TellsDamageAt (rows_in seen catalogue.old) place) }
    ensures source { HasReadCauseIn seen catalogue.old place catalogue.new result }
    ensures sink { HasCauseOf RepackFail.SinkFailed (O.faults out.old) (O.faults out.new) result }
    ensures only { OnlyReads (rows_in seen catalogue.old) place (rows_in seen catalogue.new) }
    ensures room { HasRoom cells.new buffer.new }
{
    let sides = sides_of(catalogue.shape(place));
    let rows = rows_of(sides);
    let mut done = 0;
    while done < rows {
        let part = part_from(sides, section, done);
        let count = match read_part(catalogue, place, &part.window, cells) {
            Ok(count) => count,
            Err(fail) => return Err(fail),
        };
        if !all_fit(width, &cells[..count]) {
            // Of a source with hidden contents: it gave other cells when the widths were found.
            let number = number_of_row(sides, section, done);
            return Err(RepackFail::SourceDamaged(number));
        }
        match write_section(out, buffer, width, &cells[..count]) {
            Ok(()) => {}
            Err(_) => return Err(RepackFail::SinkFailed),
        }
        done += part.rows;
    }
    Ok(())
}

/// Whether all cells have records in a width.
fn all_fit(width: Width, cells: &[Cell]) -> bool
    ensures { IsTrue result ↔ AllFitIn width cells.now }
{
    common_width(cells).bytes() <= width.bytes()
}

/// Reads the cells of a window, and answers how many.
fn read_part(
    catalogue: &mut Catalogue,
    place: u32,
    window: &Window,
    cells: &mut [Cell],
) -> Result<usize, RepackFail>
    requires mounted { place < length (rows_in seen catalogue.old) }
    requires inside { Holds
        (whole_window (source_at (rows_in seen catalogue.old) place).shape) window.now }
    requires few { position_count window.now ≤ length cells.old }
    ensures counted { IfOk result (λ count. count ≡ position_count window.now) }
    ensures given { IfOk result (λ count. GivesCells
        (source_at (rows_in seen catalogue.old) place) window.now (take count cells.new)) }
    ensures refusal { IfErr result IsReadRefusal }
    ensures damage { IfErr result (TellsDamageAt (rows_in seen catalogue.old) place) }
    ensures cause { HasReadCauseIn seen catalogue.old place catalogue.new result }
    ensures only { OnlyReads (rows_in seen catalogue.old) place (rows_in seen catalogue.new) }
    ensures room { length cells.new ≡ length cells.old }
{
    let count = size(window) as usize;
    match catalogue.read(place, window, &mut cells[..count]) {
        Ok(()) => Ok(count),
        Err(SourceFail::Failed) => Err(RepackFail::SourceFailed),
        Err(SourceFail::Damaged(number)) => Err(RepackFail::SourceDamaged(number)),
    }
}

/// The sides of a section: how many indices it has along bands, y and x.
#[derive(Clone, Copy)]
struct Sides {
    bands: u64,
    y: u64,
    x: u64,
}

/// Some rows of a section that stand one behind the other, as a window.
#[derive(Clone, Copy)]
struct Part {
    window: Window,
    rows: u64,
}

fn sides_of(shape: &Shape) -> Sides
    ensures { AreSidesOf shape.now result }
{
    Sides {
        bands: extent(shape, Kind::Bands),
        y: extent(shape, Kind::Y),
        x: extent(shape, Kind::X),
    }
}

fn extent(shape: &Shape, kind: Kind) -> u64
    ensures value { result ≡ extent_along shape.now kind }
    ensures most { result ≤ most_labels }
{
    match shape.count(kind) {
        None => 1,
        Some(count) => u64::from(count),
    }
}

/// How many rows of cells a section has: none where they have no cells.
fn rows_of(sides: Sides) -> u64
    requires bands { sides.bands ≤ most_labels }
    requires y { sides.y ≤ most_labels }
    ensures cells { result * sides.x ≡ sides.bands * sides.y * sides.x }
    ensures some { 0 < result → 0 < sides.x }
    ensures all { 0 < result → result ≡ sides.bands * sides.y }
    ensures most { result ≤ sides.bands * sides.y }
{
    if sides.x == 0 {
        0
    } else {
        sides.bands * sides.y
    }
}

/// The number of the first cell of a row.
fn number_of_row(sides: Sides, section: u32, row: u64) -> u64
    ensures { result ≤ (section * (sides.bands * sides.y) + row) * sides.x }
{
    let rows = sides.bands.saturating_mul(sides.y);
    u64::from(section)
        .saturating_mul(rows)
        .saturating_add(row)
        .saturating_mul(sides.x)
}

/// The part of a section that is read after so many of its rows: whole planes, or rows of one plane, as many as there
/// is room for.
fn part_from(sides: Sides, section: u32, done: u64) -> Part
    requires section { section < 2 ^ 32 - 1 }
    requires inside { done < sides.bands * sides.y }
    requires some { 0 < sides.x }
    requires bands { sides.bands ≤ most_labels }
    requires y { sides.y ≤ most_labels }
    requires x { sides.x ≤ most_labels }
    ensures { IsNextPart sides section done result }
{
    let band = done / sides.y;
    let row = done % sides.y;
    let plane = sides.y * sides.x;
    if plane <= CELLS && row == 0 {
        let bands = (CELLS / plane).min(sides.bands - band);
        return Part {
            window: window_at(section, span(band, bands), span(0, sides.y), sides.x),
            rows: bands * sides.y,
        };
    }
    let rows = (CELLS / sides.x).min(sides.y - row);
    Part {
        window: window_at(section, span(band, 1), span(row, rows), sides.x),
        rows,
    }
}

/// Whole rows at one index of t.
fn window_at(section: u32, bands: Span, y: Span, x: u64) -> Window
    requires section { section < 2 ^ 32 - 1 }
    requires x { x < 2 ^ 32 }
    ensures t_from { result.t.from ≡ section }
    ensures t_to { result.t.to ≡ section + 1 }
    ensures bands { result.bands ≡ bands }
    ensures y { result.y ≡ y }
    ensures x_from { result.x.from ≡ 0 }
    ensures x_to { result.x.to ≡ x }
{
    Window {
        t: Span {
            from: section,
            to: section + 1,
        },
        bands,
        y,
        x: span(0, x),
    }
}

fn span(from: u64, count: u64) -> Span
    requires { from + count < 2 ^ 32 }
    ensures first { result.from ≡ from }
    ensures end { result.to ≡ from + count }
{
    Span {
        from: from as u32,
        to: (from + count) as u32,
    }
}
