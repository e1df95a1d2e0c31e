// The result text of a cube: its dimensions with their labels, then its cells in row-major order.
ghost use Rattle.std.specs.Prelude.{◌+◌, ◌^◌, ◌≡◌, ◌≢◌, ◌<◌, ◌≤◌, ◌++◌, [], length, map, codes, decimal, All, slice_index_or, pos, Some, Option, IfOk, IfErr, OnOk, OnErr};
ghost use Rattle.std.specs.Fmt.{signed_decimal};
ghost use Rattle.std.specs.List.{filter_map};
ghost use Rattle.oe_cell.specs.Spelling.{cell_text};
ghost use Rattle.oe_cell.specs.declared.cell.Cell.TheVariants.{Over};
ghost use Rattle.oe_dims.specs.Dimensions.{IsShape, all_kinds, label_count, number_labels};
ghost use Rattle.oe_dims.specs.Instant.{instant_text};
ghost use Rattle.oe_outside.specs.Faults.{HasCause};
ghost use Rattle.oe_outside.specs.Visible.{Appends, AppendsPrefix, AddsBytes, AddsSome};
ghost use Rattle.oe_outside.specs.Stream.{HasSent};
ghost use Rattle.oe_render.specs.Text as spec;

use crate::spelling::{CELLS, ROOM, spell_cells};
use itoa::Buffer;
use oe_cell::Cell;
use oe_dims::{Kind, Shape, print_instant};
use oe_outside::{Failed, Pending, Sink, flush, send};

/// Writes the result text of the cube with this shape and these cells through an empty buffer. All up to the first cell
/// goes out before it, in writes of its own.
///
/// Refuses: only where the output's fault counter rose. Then a prefix of the text was written.
pub fn write_text<O: Sink>(
    shape: &Shape,
    cells: &[Cell],
    pending: &mut Pending,
    out: &mut O,
) -> Result<(), Failed>
    requires numbered { All (λ c. c ≢ Over) cells.now }
    requires empty { pending.old ≡ [] }
    ensures text { OnOk result (Appends (O.written out.old)
        (spec.cube_text (record { shape = shape.now; cells = cells.now })) (O.written out.new)) }
    ensures prefix { OnErr result (AppendsPrefix (O.written out.old)
        (spec.cube_text (record { shape = shape.now; cells = cells.now })) (O.written out.new)) }
    ensures counted { OnOk result (AddsBytes (O.size out.old) (length
        (spec.cube_text (record { shape = shape.now; cells = cells.now }))) (O.size out.new)) }
    ensures counted_prefix { OnErr result (AddsSome (O.size out.old) (length
        (spec.cube_text (record { shape = shape.now; cells = cells.now }))) (O.size out.new)) }
    ensures cause { HasCause (O.faults out.old) (O.faults out.new) result }
{
    send_text(out, pending, shape, cells)
}

fn send_text<O: Sink>(
    out: &mut O,
    pending: &mut Pending,
    shape: &Shape,
    cells: &[Cell],
) -> Result<(), Failed>
    requires { All (λ c. c ≢ Over) cells.now }
    ensures sent { HasSent O.written O.size O.faults out.old pending.old (spec.cube_text
        (record { shape = shape.now; cells = cells.now })) out.new pending.new result }
    ensures empty { OnOk result (pending.new ≡ []) }
{
    send_front(out, pending, shape)?;
    send_cells(out, pending, cells, 0)?;
    send_end(out, pending)
}

/// All up to the first cell, written at once.
pub(crate) fn send_front<O: Sink>(
    out: &mut O,
    pending: &mut Pending,
    shape: &Shape,
) -> Result<(), Failed>
    ensures sent { HasSent O.written O.size O.faults out.old pending.old
        (spec.head_text shape.now) out.new pending.new result }
    ensures empty { OnOk result (pending.new ≡ []) }
{
    send_head(out, pending, shape)?;
    flush(out, pending)
}

/// The end of the text, and what is still held.
pub(crate) fn send_end<O: Sink>(out: &mut O, pending: &mut Pending) -> Result<(), Failed>
    ensures sent { HasSent O.written O.size O.faults out.old pending.old
        (codes "]}") out.new pending.new result }
    ensures empty { OnOk result (pending.new ≡ []) }
{
    send(out, pending, b"]}")?;
    flush(out, pending)
}

fn send_head<O: Sink>(out: &mut O, pending: &mut Pending, shape: &Shape) -> Result<(), Failed>
    ensures { HasSent O.written O.size O.faults out.old pending.old
        (spec.head_text shape.now) out.new pending.new result }
{
    send(out, pending, b"{\"type\":\"FractionCube\",\"dimensions\":[")?;
    send_dimensions(out, pending, shape)?;
    send(out, pending, b"],\"data\":[")
}

/// Sends the dimensions of a shape with their labels, parted by commas, as the result text has them between brackets.
///
/// Refuses: only where the output's fault counter rose. Then a prefix of what was pending and the text was written.
pub fn send_dimensions<O: Sink>(
    out: &mut O,
    pending: &mut Pending,
    shape: &Shape,
) -> Result<(), Failed>
    ensures { HasSent O.written O.size O.faults out.old pending.old (spec.listed_text (filter_map
        (spec.present_text shape.now) all_kinds)) out.new pending.new result }
{
    let sent = send_present(out, pending, shape, Kind::Time, 0)?;
    let sent = send_present(out, pending, shape, Kind::Bands, sent)?;
    let sent = send_present(out, pending, shape, Kind::Y, sent)?;
    send_present(out, pending, shape, Kind::X, sent)?;
    Ok(())
}

/// A dimension that the shape has, after those that were sent. Answers how many were sent by then.
fn send_present<O: Sink>(
    out: &mut O,
    pending: &mut Pending,
    shape: &Shape,
    kind: Kind,
    sent: u32,
) -> Result<u32, Failed>
    requires { sent < 4 }
    ensures sent { HasSent O.written O.size O.faults out.old pending.old (spec.part_text
        (spec.present_text shape.now kind) sent) out.new pending.new result }
    ensures count { IfOk result (λ n. n ≡ spec.parts_after
        (spec.present_text shape.now kind) sent) }
{
    match shape.count(kind) {
        None => Ok(sent),
        Some(count) => {
            send_separator(out, pending, sent as u64)?;
            send_dimension(out, pending, shape, kind, count)?;
            Ok(sent + 1)
        }
    }
}

fn send_dimension<O: Sink>(
    out: &mut O,
    pending: &mut Pending,
    shape: &Shape,
    kind: Kind,
    count: u32,
) -> Result<(), Failed>
    requires valid { IsShape shape.now }
    requires count { label_count shape.now kind ≡ Some count }
    ensures { HasSent O.written O.size O.faults out.old pending.old
        (spec.dimension_text shape.now kind) out.new pending.new result }
{
    send_dimension_head(out, pending, shape, kind)?;
    send(out, pending, b"\"labels\":[")?;
    send_labels(out, pending, shape, kind, count)?;
    send(out, pending, b"]}")
}

fn send_dimension_head<O: Sink>(
    out: &mut O,
    pending: &mut Pending,
    shape: &Shape,
    kind: Kind,
) -> Result<(), Failed>
    ensures { HasSent O.written O.size O.faults out.old pending.old
        (spec.dimension_head shape.now kind) out.new pending.new result }
{
    match kind {
        Kind::Time => send(out, pending, b"{\"name\":\"t\",\"type\":\"temporal\","),
        Kind::Bands => send(out, pending, b"{\"name\":\"bands\",\"type\":\"bands\","),
        Kind::Y => {
            send(
                out,
                pending,
                b"{\"name\":\"y\",\"type\":\"spatial\",\"axis\":\"y\",",
            )?;
            send_reference_system(out, pending, shape)
        }
        Kind::X => {
            send(
                out,
                pending,
                b"{\"name\":\"x\",\"type\":\"spatial\",\"axis\":\"x\",",
            )?;
            send_reference_system(out, pending, shape)
        }
    }
}

fn send_reference_system<O: Sink>(
    out: &mut O,
    pending: &mut Pending,
    shape: &Shape,
) -> Result<(), Failed>
    ensures { HasSent O.written O.size O.faults out.old pending.old
        (spec.reference_system shape.now) out.new pending.new result }
{
    let mut digits = Buffer::new();
    send(out, pending, b"\"reference_system\":")?;
    send(out, pending, digits.format(shape.epsg()).as_bytes())?;
    send(out, pending, b",")
}

fn send_labels<O: Sink>(
    out: &mut O,
    pending: &mut Pending,
    shape: &Shape,
    kind: Kind,
    count: u32,
) -> Result<(), Failed>
    requires valid { IsShape shape.now }
    requires count { label_count shape.now kind ≡ Some count }
    ensures { HasSent O.written O.size O.faults out.old pending.old (spec.listed_text
        (spec.label_texts shape.now kind)) out.new pending.new result }
{
    for index in 0..count {
        send_next_label(out, pending, shape, kind, index)?;
    }
    Ok(())
}

fn send_next_label<O: Sink>(
    out: &mut O,
    pending: &mut Pending,
    shape: &Shape,
    kind: Kind,
    index: u32,
) -> Result<(), Failed>
    requires valid { IsShape shape.now }
    requires there { index < length (spec.label_texts shape.now kind) }
    ensures { HasSent O.written O.size O.faults out.old pending.old
        (spec.separator index ++ slice_index_or (spec.label_texts shape.now kind) index []) out.new
        pending.new result }
{
    send_separator(out, pending, index as u64)?;
    send_label(out, pending, shape, kind, index)
}

fn send_label<O: Sink>(
    out: &mut O,
    pending: &mut Pending,
    shape: &Shape,
    kind: Kind,
    index: u32,
) -> Result<(), Failed>
    requires valid { IsShape shape.now }
    requires there { index < length (spec.label_texts shape.now kind) }
    ensures { HasSent O.written O.size O.faults out.old pending.old (slice_index_or
        (spec.label_texts shape.now kind) index []) out.new pending.new result }
{
    match kind {
        Kind::Time => send_instant(out, pending, shape, index),
        Kind::Bands => send_quoted(out, pending, shape.band_at(index).as_str().as_bytes()),
        Kind::Y | Kind::X => send_number(out, pending, shape.label_at(kind, index)),
    }
}

fn send_instant<O: Sink>(
    out: &mut O,
    pending: &mut Pending,
    shape: &Shape,
    index: u32,
) -> Result<(), Failed>
    requires valid { IsShape shape.now }
    requires there { index < length (number_labels shape.now Kind.Time) }
    ensures { HasSent O.written O.size O.faults out.old pending.old (spec.quoted (instant_text
        (slice_index_or (number_labels shape.now Kind.Time) index
        (pos 0)))) out.new pending.new result }
{
    let text = print_instant(shape.label_at(Kind::Time, index));
    send_quoted(out, pending, &text)
}

fn send_quoted<O: Sink>(out: &mut O, pending: &mut Pending, text: &[u8]) -> Result<(), Failed>
    ensures { HasSent O.written O.size O.faults out.old pending.old
        (spec.quoted text.now) out.new pending.new result }
{
    send(out, pending, b"\"")?;
    send(out, pending, text)?;
    send(out, pending, b"\"")
}

fn send_number<O: Sink>(out: &mut O, pending: &mut Pending, number: i64) -> Result<(), Failed>
    ensures { HasSent O.written O.size O.faults out.old pending.old
        (signed_decimal number) out.new pending.new result }
{
    let mut digits = Buffer::new();
    send(out, pending, digits.format(number).as_bytes())
}

/// The cells after so many others.
pub(crate) fn send_cells<O: Sink>(
    out: &mut O,
    pending: &mut Pending,
    cells: &[Cell],
    before: u64,
) -> Result<(), Failed>
    requires numbered { All (λ c. c ≢ Over) cells.now }
    requires few { before + length cells.now < 2 ^ 64 }
    ensures { HasSent O.written O.size O.faults out.old pending.old
        (spec.more_text before (map cell_text cells.now)) out.new pending.new result }
{
    let mut bytes = [0; ROOM];
    let mut index = 0;
    while index < cells.len() {
        let end = index + (cells.len() - index).min(CELLS);
        send_piece(
            out,
            pending,
            &cells[index..end],
            before + index as u64,
            &mut bytes,
        )?;
        index = end;
    }
    Ok(())
}

/// The cells after so many others, in one piece.
fn send_piece<O: Sink>(
    out: &mut O,
    pending: &mut Pending,
    cells: &[Cell],
    before: u64,
    bytes: &mut [u8; ROOM],
) -> Result<(), Failed>
    requires numbered { All (λ c. c ≢ Over) cells.now }
    requires some { length cells.now ≤ 64 }
    requires few { before + length cells.now < 2 ^ 64 }
    ensures { HasSent O.written O.size O.faults out.old pending.old
        (spec.more_text before (map cell_text cells.now)) out.new pending.new result }
{
    let start = spell_cells(cells, before, bytes);
    send(out, pending, &bytes[start..])
}

/// A comma before each part but the first.
fn send_separator<O: Sink>(out: &mut O, pending: &mut Pending, index: u64) -> Result<(), Failed>
    ensures { HasSent O.written O.size O.faults out.old pending.old
        (spec.separator index) out.new pending.new result }
{
    if index == 0 {
        Ok(())
    } else {
        send(out, pending, b",")
    }
}
