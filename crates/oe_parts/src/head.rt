// What a part file says before its records, both ways.
ghost use Rattle.std.specs.Prelude.{◌≡◌, ◌++◌, ◌↔◌, ◌<◌, ◌≤◌, ℕ, [], ◌∷◌, IfOk, IfSome, IsTrue, OnOk, MatchOption, codes, decimal, length, map};
ghost use Rattle.std.specs.List.{filter_map};
ghost use Rattle.json.specs.Print.{quoted};
ghost use Rattle.serde_json.specs.View.{view};
ghost use Rattle.oe_dims.specs.Dimensions.{all_kinds};
ghost use Rattle.oe_dims.specs.declared.kind.CellKind.{CellKind};
ghost use Rattle.oe_outside.specs.Visible.{Appends};
ghost use Rattle.oe_render.specs.CubeText.{list_in};
ghost use Rattle.oe_render.specs.Text.{listed_text, present_text, separator};
ghost use Rattle.oe_render.specs.Members.{text_in};
ghost use Rattle.oe_window.specs.Chunks.{IsSide};
ghost use Rattle.oe_window.specs.declared.grid.ChunkSize.{ChunkSize};
ghost use Rattle.oe_parts.specs.Head as spec;
ghost use Rattle.oe_parts.specs.Head.{AreSides, IsPartHead, PartHead as Head, chunk_total, numbers_text, sides_text};
ghost use Rattle.oe_parts.specs.HeadRead.{IsHeaderOf, IsHeaderOfNoOther, IsNoHeader, IsNumberOf, IsReadHead, SaysPartHead, SaysRange, SaysSides};

use itoa::Buffer;
use oe_dims::{CellKind, Shape, Text};
use oe_memory::OutOfMemory;
use oe_outside::{CountSink, Failed, MemorySink, Pending, Sink, flush};
use oe_render::{kind_word, list_in, read_dimensions, read_kind, send_dimensions, text_in};
use oe_window::{ChunkSize, Grid};
use serde_json::Value;
use std::alloc::Global;
use std::marker::Model;

/// The most bytes of a header, which that of every valid part keeps.
pub(crate) const MOST_HEADER: usize = 16777216;

/// How many bytes stand before the header.
pub(crate) const START: usize = 12;

/// The longest side of a chunk.
const MOST_SIDE: u64 = 4096;

/// A room in bytes in which the dimensions of most results can be spelled.
const LIKELY: usize = 65536;

/// The text of a process graph as it was read, the sides of the chunks of its run, the chunks from `first` on and
/// before `end`, and the kind and the shape of the whole result.
pub struct PartHead {
    pub graph: Text,
    pub sides: ChunkSize,
    pub first: u64,
    pub end: u64,
    pub kind: CellKind,
    pub shape: Shape,
}

impl Model for PartHead {
    ghost use Rattle.oe_parts.specs.Head.{PartHead};

    ghost Value = { PartHead };

    ghost view = { λ h. record {
      graph = h.graph;
      sides = h.sides;
      first = h.first;
      end = h.end;
      kind = h.kind;
      shape = h.shape;
    } };
}

/// Written out, so that a header that ends is one call wherever it does.
impl Drop for PartHead {
    fn drop(self) {
        let PartHead {
            graph: _,
            sides: _,
            first: _,
            end: _,
            kind: _,
            shape: _,
        } = self;
    }
}

impl PartHead {
    /// How the whole result is parted into chunks.
    pub(crate) fn grid(&self) -> Grid
        requires { AreSides self.now.sides }
        ensures { result ≡ spec.grid_of self.now }
    {
        Grid::new(&self.shape, self.sides)
    }

    /// All that stands before the records of the part: the version, the length of the header and the header.
    ///
    /// Refuses: out of memory.
    pub fn front(&self, alloc: Global) -> Result<Vec<u8>, OutOfMemory>
        requires { IsPartHead self.now }
        ensures { IfOk result (λ front. front.items ≡ spec.front_bytes self.now) }
    {
        let header = header_bytes(alloc, self, LIKELY)?;
        let count = header.len() as u32;
        let mut front = Vec::with_capacity(alloc, START + header.len())?;
        front.extend_from_slice(b"OEOPART1")?;
        front.extend_from_slice(&count.to_be_bytes())?;
        front.extend_from_slice(&header)?;
        Ok(front)
    }
}

// ---- writing

/// The one spelling of the header, whose dimensions are likely to fit so many bytes.
fn header_bytes(alloc: Global, head: &PartHead, likely: usize) -> Result<Vec<u8>, OutOfMemory>
    requires { AreSides head.now.sides }
    ensures { IfOk result (λ bytes. bytes.items ≡ spec.header_text head.now) }
{
    let mut bytes = Vec::new(alloc);
    push_graph(alloc, &mut bytes, head.graph.as_str())?;
    push_range(&mut bytes, head)?;
    bytes.extend_from_slice(b",\"cells\":\"")?;
    bytes.extend_from_slice(kind_word(head.kind).as_bytes())?;
    bytes.extend_from_slice(b"\",\"dimensions\":[")?;
    push_dimensions(alloc, &mut bytes, &head.shape, likely)?;
    bytes.extend_from_slice(b"],\"again\":")?;
    push_sides(&mut bytes, head.sides)?;
    bytes.extend_from_slice(b"}")?;
    Ok(bytes)
}

/// The member `graph`: the text of the graph as a JSON text.
fn push_graph(alloc: Global, bytes: &mut Vec<u8>, graph: &str) -> Result<(), OutOfMemory>
    ensures { OnOk result (bytes.new.items
        ≡ bytes.old.items ++ codes "{\"graph\":" ++ quoted graph.now) }
{
    bytes.extend_from_slice(b"{\"graph\":")?;
    let text = Value::String(String::from_str(alloc, graph)?).to_string(alloc)?;
    bytes.extend_from_slice(text.as_bytes())?;
    Ok(())
}

/// The members `chunk`, `range` and `chunks`.
fn push_range(bytes: &mut Vec<u8>, head: &PartHead) -> Result<(), OutOfMemory>
    requires { AreSides head.now.sides }
    ensures { OnOk result (bytes.new.items ≡ bytes.old.items ++ codes ",\"chunk\":" ++ sides_text
        head.now.sides ++ codes ",\"range\":" ++ numbers_text (head.now.first ∷ head.now.end ∷ [])
        ++ codes ",\"chunks\":" ++ decimal (chunk_total head.now)) }
{
    bytes.extend_from_slice(b",\"chunk\":")?;
    push_sides(bytes, head.sides)?;
    bytes.extend_from_slice(b",\"range\":")?;
    push_numbers(bytes, &[head.first, head.end])?;
    bytes.extend_from_slice(b",\"chunks\":")?;
    push_number(bytes, head.grid().count())
}

/// The sides of a chunk.
fn push_sides(bytes: &mut Vec<u8>, sides: ChunkSize) -> Result<(), OutOfMemory>
    ensures { OnOk result (bytes.new.items ≡ bytes.old.items ++ sides_text sides) }
{
    let sides = [u64::from(sides.x), u64::from(sides.y), u64::from(sides.t)];
    push_numbers(bytes, &sides)
}

/// Numbers in decimal, between brackets and parted by commas.
fn push_numbers(bytes: &mut Vec<u8>, numbers: &[u64]) -> Result<(), OutOfMemory>
    ensures { OnOk result (bytes.new.items ≡ bytes.old.items ++ numbers_text numbers.now) }
{
    bytes.extend_from_slice(b"[")?;
    push_list(bytes, numbers)?;
    bytes.extend_from_slice(b"]")?;
    Ok(())
}

fn push_list(bytes: &mut Vec<u8>, numbers: &[u64]) -> Result<(), OutOfMemory>
    ensures { OnOk result (bytes.new.items ≡ bytes.old.items
        ++ listed_text (map decimal numbers.now)) }
{
    for index in 0..numbers.len() {
        push_next(bytes, numbers[index], index)?;
    }
    Ok(())
}

/// A number, behind a comma where it is not the first.
fn push_next(bytes: &mut Vec<u8>, number: u64, index: usize) -> Result<(), OutOfMemory>
    ensures { OnOk result (bytes.new.items ≡ bytes.old.items
        ++ (separator index ++ decimal number)) }
{
    if index > 0 {
        bytes.extend_from_slice(b",")?;
    }
    push_number(bytes, number)
}

fn push_number(bytes: &mut Vec<u8>, number: u64) -> Result<(), OutOfMemory>
    ensures { OnOk result (bytes.new.items ≡ bytes.old.items ++ decimal number) }
{
    bytes.extend_from_slice(Buffer::new().format(number).as_bytes())?;
    Ok(())
}

/// The dimensions of a shape, as the result text spells them, which are likely to fit so many bytes.
fn push_dimensions(
    alloc: Global,
    bytes: &mut Vec<u8>,
    shape: &Shape,
    likely: usize,
) -> Result<(), OutOfMemory>
    ensures { OnOk result (bytes.new.items ≡ bytes.old.items
        ++ listed_text (filter_map (present_text shape.now) all_kinds)) }
{
    let spelled = spell(alloc, shape, likely)?;
    bytes.extend_from_slice(spelled.bytes())?;
    Ok(())
}

/// The dimensions in a sink. They are counted first only where they do not fit, since labels are dear to spell.
fn spell(alloc: Global, shape: &Shape, likely: usize) -> Result<MemorySink, OutOfMemory>
    ensures { IfOk result (λ out.
        out.written ≡ listed_text (filter_map (present_text shape.now) all_kinds)) }
{
    match spell_within(alloc, shape, likely)? {
        Some(out) => Ok(out),
        None => spell_counted(alloc, shape),
    }
}

/// The same in a sink that has room for so many bytes, `None` where they are more.
fn spell_within(
    alloc: Global,
    shape: &Shape,
    room: usize,
) -> Result<Option<MemorySink>, OutOfMemory>
    ensures { IfOk result (λ spelled. IfSome spelled (λ out.
        out.written ≡ listed_text (filter_map (present_text shape.now) all_kinds))) }
{
    let mut pending = Pending::new(alloc)?;
    let mut out = MemorySink::new(alloc, room, Vec::new(alloc))?;
    match send_all(&mut out, &mut pending, shape) {
        Ok(()) => Ok(Some(out)),
        Err(_) => Ok(None),
    }
}

/// The same in a sink that has room for as many bytes as they are.
fn spell_counted(alloc: Global, shape: &Shape) -> Result<MemorySink, OutOfMemory>
    ensures { IfOk result (λ out.
        out.written ≡ listed_text (filter_map (present_text shape.now) all_kinds)) }
{
    let mut pending = Pending::new(alloc)?;
    let mut count = CountSink::new();
    let _ = send_all(&mut count, &mut pending, shape);
    match spell_within(alloc, shape, count.count() as usize)? {
        Some(out) => Ok(out),
        None => Err(OutOfMemory),
    }
}

fn send_all<O: Sink>(out: &mut O, pending: &mut Pending, shape: &Shape) -> Result<(), Failed>
    requires { pending.old ≡ [] }
    ensures { OnOk result (Appends (O.written out.old) (listed_text (filter_map
        (present_text shape.now) all_kinds)) (O.written out.new)) }
{
    send_dimensions(out, pending, shape)?;
    flush(out, pending)
}

// ---- reading

/// What a header says, `None` exactly where the bytes are that of no part file.
pub(crate) fn read_header(alloc: Global, bytes: &[u8]) -> Result<Option<PartHead>, OutOfMemory>
    requires { length bytes.now ≤ spec.most_header }
    ensures { IfOk result (λ read. MatchOption read
        (IsNoHeader bytes.now) (IsHeaderOf bytes.now)) }
{
    let Some(head) = read_members(alloc, bytes)? else {
        return Ok(None);
    };
    if !is_valid(&head) {
        return Ok(None);
    }
    let spelled = header_bytes(alloc, &head, bytes.len())?;
    if spelled.as_slice() == bytes {
        Ok(Some(head))
    } else {
        Ok(None)
    }
}

/// Whether its sides are those of a chunk and its chunks some of those that there are.
fn is_valid(head: &PartHead) -> bool
    ensures { IsTrue result ↔ AreSides head.now.sides × (head.now.first < head.now.end)
        × (head.now.end ≤ chunk_total head.now) }
{
    are_sides(head.sides) && head.first < head.end && head.end <= head.grid().count()
}

fn are_sides(sides: ChunkSize) -> bool
    ensures { IsTrue result ↔ AreSides sides }
{
    is_side(sides.x) && is_side(sides.y) && is_side(sides.t)
}

fn is_side(side: u32) -> bool
    ensures { IsTrue result ↔ IsSide side }
{
    1 <= side && u64::from(side) <= MOST_SIDE
}

/// What the members of a JSON text say, whatever their order and the blanks: whether that is its one spelling is seen
/// when it is spelled again.
fn read_members(alloc: Global, bytes: &[u8]) -> Result<Option<PartHead>, OutOfMemory>
    ensures { IfOk result (λ read. MatchOption read
        (IsNoHeader bytes.now) (λ h. IsReadHead h × IsHeaderOfNoOther bytes.now h)) }
{
    match Value::from_slice(alloc, bytes) {
        Ok(value) => read_value(alloc, &value),
        Err(error) if error.is_memory() => Err(OutOfMemory),
        Err(_) => Ok(None),
    }
}

/// The head that a value says.
fn read_value(alloc: Global, value: &Value) -> Result<Option<PartHead>, OutOfMemory>
    ensures { IfOk result (λ read. MatchOption read
        ((h : Head) → IsPartHead h → ¬ SaysPartHead (view value.now) h)
        (λ h. IsReadHead h × SaysPartHead (view value.now) h)) }
{
    let Some(graph) = text_in(value, "graph") else {
        return Ok(None);
    };
    let Some(sides) = read_sides(value) else {
        return Ok(None);
    };
    let Some((first, end)) = read_range(value) else {
        return Ok(None);
    };
    let Some(kind) = read_kind(value) else {
        return Ok(None);
    };
    let Some(shape) = read_dimensions(alloc, value)? else {
        return Ok(None);
    };
    Ok(Some(PartHead {
        graph: Text::of(alloc, graph)?,
        sides,
        first,
        end,
        kind,
        shape,
    }))
}

/// The sides of a chunk.
fn read_sides(value: &Value) -> Option<ChunkSize>
    ensures { MatchOption result
        ((sides : ChunkSize) → AreSides sides → ¬ SaysSides (view value.now) sides)
        (SaysSides (view value.now)) }
{
    let sides = list_in(value, "chunk")?;
    if sides.len() != 3 {
        return None;
    }
    Some(ChunkSize {
        x: side_in(&sides[0])?,
        y: side_in(&sides[1])?,
        t: side_in(&sides[2])?,
    })
}

fn side_in(value: &Value) -> Option<u32>
    ensures { MatchOption result ((side : ℕ) → IsSide side → ¬ IsNumberOf (view value.now) side)
        (IsNumberOf (view value.now)) }
{
    let side = value.as_u64()?;
    if side <= MOST_SIDE {
        Some(side as u32)
    } else {
        None
    }
}

/// The first chunk, and the end.
fn read_range(value: &Value) -> Option<(u64, u64)>
    ensures { MatchOption result ((first end : ℕ) → ¬ SaysRange (view value.now) first end)
        (λ range. SaysRange (view value.now) range.0 range.1) }
{
    let range = list_in(value, "range")?;
    if range.len() != 2 {
        return None;
    }
    Some((range[0].as_u64()?, range[1].as_u64()?))
}
