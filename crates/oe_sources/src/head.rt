// What a cube file says before its records, both ways.
ghost use Rattle.std.specs.Prelude.{◌≡◌, ◌<◌, ◌≤◌, ◌*◌, ◌++◌, ℕ, true, List, [], codes, length, map, decimal, slice_get, Some, IfOk, OnOk, MatchOption};
ghost use Rattle.std.specs.List.{filter_map};
ghost use Rattle.std.specs.Option.{option_map};
ghost use Rattle.serde_json.specs.View.{items_view, view};
ghost use Rattle.oe_dims.specs.Dimensions.{IsShape, all_kinds, extent};
ghost use Rattle.oe_dims.specs.Lists.{items_of};
ghost use Rattle.oe_dims.specs.Names.{is_name};
ghost use Rattle.oe_dims.specs.declared.kind.CellKind.{CellKind};
ghost use Rattle.oe_outside.specs.Visible.{Appends};
ghost use Rattle.oe_wide.specs.Wide.{byte_count};
ghost use Rattle.oe_wide.specs.declared.width.Width.{Width};
ghost use Rattle.oe_render.specs.CubeText.{Each, list_in};
ghost use Rattle.oe_render.specs.Text.{listed_text, present_text, quoted, separator};
ghost use Rattle.oe_render.specs.Members.{kind_word, text_in};
ghost use Rattle.oe_window.specs.Windows.{extent_along};
ghost use Rattle.oe_sources.specs.Head as spec;
ghost use Rattle.oe_sources.specs.Packed.{packed_head};
ghost use Rattle.oe_sources.specs.HeadRead.{IsHeadOf, IsHeaderOf, IsHeaderOfNoOther, IsNoHeader, ListsWidths, SaysHead, SaysNoWidthsOf, SaysWidthsOf, SpellsWidth, widths_seen};

use crate::Catalogue;
use crate::gather::Gather;
use oe_dims::{CellKind, Kind, Shape, Text, is_name};
use oe_memory::OutOfMemory;
use oe_outside::{Failed, Pending, Sink, flush};
use oe_render::{kind_word, list_in, read_dimensions, read_kind, send_dimensions, text_in};
use oe_wide::Width;
use serde_json::Value;
use std::alloc::Global;
use std::marker::Model;

/// The most bytes of a header, which that of every valid shape keeps.
pub(crate) const MOST_HEADER: usize = 8388608;

/// How many bytes stand before the header.
pub(crate) const START: usize = 12;

/// The versions of a cube file.
#[derive(Clone, Copy)]
pub(crate) enum Version {
    /// Records of 17 bytes.
    First,
    /// One width for each section.
    Second,
}

/// The id, the kind of the cells, the widths of the sections in version 2, and the shape.
pub(crate) struct Head {
    pub(crate) id: Text,
    pub(crate) kind: CellKind,
    pub(crate) widths: Option<Vec<Width>>,
    pub(crate) shape: Shape,
}

impl Model for Head {
    ghost use Rattle.oe_sources.specs.Head.{Head};

    ghost Value = { Head };

    ghost use Rattle.std.specs.Option.{option_map};
    ghost use Rattle.oe_dims.specs.Lists.{items_of};

    ghost view = { λ h. record {
      id = h.id;
      kind = h.kind;
      widths = option_map items_of h.widths;
      shape = h.shape;
    } };
}

/// Written out, so that a header that ends is one call wherever it does.
impl Drop for Head {
    fn drop(self) {
        let Head {
            id: _,
            kind: _,
            widths: _,
            shape: _,
        } = self;
    }
}

impl Head {
    /// Keeps its labels in memory once with those of the mounted collections that have the same along a dimension.
    pub(crate) fn share_labels(&mut self, catalogue: &Catalogue)
        ensures { self.new ≡ self.old }
    {
        catalogue.share_labels(&mut self.shape);
    }

    /// The width of the records of a section.
    pub(crate) fn width_of(&self, section: usize) -> Width
        requires { section < length (spec.section_widths self.now) }
        ensures { slice_get (spec.section_widths self.now) section ≡ Some result }
    {
        match &self.widths {
            None => Width::Seventeen,
            Some(widths) => widths[section],
        }
    }
}

/// How many sections a file of version 2 has: one for each label of `t`, or one where there is no `t`.
pub(crate) fn section_count(shape: &Shape) -> u32
    ensures { result ≡ extent shape.now.t }
{
    match shape.count(Kind::Time) {
        None => 1,
        Some(count) => count,
    }
}

/// How many cells each of them has.
pub(crate) fn section_size(shape: &Shape) -> u64
    ensures { result ≡ extent shape.now.bands * extent shape.now.y * extent shape.now.x }
{
    let bands = extent(shape, Kind::Bands);
    let y = extent(shape, Kind::Y);
    let x = extent(shape, Kind::X);
    bands * y * x
}

fn extent(shape: &Shape, kind: Kind) -> u64
    ensures value { result ≡ extent_along shape.now kind }
    ensures most { result ≤ 65536 }
{
    match shape.count(kind) {
        None => 1,
        Some(count) => u64::from(count),
    }
}

// ---- writing

/// All that stands before the records of a file of version 2: the version, the length of the header and the header.
pub(crate) fn front_bytes(
    alloc: Global,
    id: &Text,
    kind: CellKind,
    widths: &[Width],
    shape: &Shape,
) -> Result<Vec<u8>, OutOfMemory>
    requires id { is_name id.now ≡ true }
    requires shape { IsShape shape.now }
    requires widths { length widths.now ≡ extent shape.now.t }
    ensures { IfOk result (λ front. front.items ≡
        spec.front_bytes (packed_head id.now shape.now kind widths.now)) }
{
    let header = header_bytes(alloc, id, kind, Some(widths), shape)?;
    let count = header.len() as u32;
    let mut front = Vec::with_capacity(alloc, START + header.len())?;
    front.extend_from_slice(b"OEOCUBE2")?;
    front.extend_from_slice(&count.to_be_bytes())?;
    front.extend_from_slice(&header)?;
    Ok(front)
}

/// The one spelling of the header.
fn header_bytes(
    alloc: Global,
    id: &Text,
    kind: CellKind,
    widths: Option<&[Width]>,
    shape: &Shape,
) -> Result<Vec<u8>, OutOfMemory>
    ensures { IfOk result (λ bytes. bytes.items ≡ spec.header_text (record {
      id = id.now;
      kind = kind;
      widths = widths_seen widths.entry;
      shape = shape.now;
    })) }
{
    let mut bytes = Vec::new(alloc);
    push_names(&mut bytes, id, kind)?;
    push_widths(&mut bytes, widths)?;
    bytes.extend_from_slice(b"\"dimensions\":[")?;
    let mut bytes = with_dimensions(alloc, bytes, shape)?;
    bytes.extend_from_slice(b"]}")?;
    Ok(bytes)
}

/// The members `id` and `cells`.
fn push_names(bytes: &mut Vec<u8>, id: &Text, kind: CellKind) -> Result<(), OutOfMemory>
    ensures { OnOk result (bytes.new.items ≡ bytes.old.items ++ codes "{\"id\":" ++ quoted id.now
        ++ codes ",\"cells\":" ++ quoted (kind_word kind) ++ codes ",") }
{
    bytes.extend_from_slice(b"{\"id\":\"")?;
    bytes.extend_from_slice(id.as_str().as_bytes())?;
    bytes.extend_from_slice(b"\",\"cells\":\"")?;
    bytes.extend_from_slice(kind_word(kind).as_bytes())?;
    bytes.extend_from_slice(b"\",")?;
    Ok(())
}

/// The member `widths`, where the file has widths.
fn push_widths(bytes: &mut Vec<u8>, widths: Option<&[Width]>) -> Result<(), OutOfMemory>
    ensures { OnOk result (bytes.new.items ≡ bytes.old.items
        ++ spec.widths_text (widths_seen widths.entry)) }
{
    let Some(widths) = widths else {
        return Ok(());
    };
    bytes.extend_from_slice(b"\"widths\":[")?;
    push_width_list(bytes, widths)?;
    bytes.extend_from_slice(b"],")?;
    Ok(())
}

fn push_width_list(bytes: &mut Vec<u8>, widths: &[Width]) -> Result<(), OutOfMemory>
    ensures { OnOk result (bytes.new.items ≡ bytes.old.items
        ++ listed_text (map (λ w. decimal (byte_count w)) widths.now)) }
{
    for index in 0..widths.len() {
        push_width(bytes, widths[index], index)?;
    }
    Ok(())
}

/// A width, behind a comma where it is not the first.
fn push_width(bytes: &mut Vec<u8>, width: Width, index: usize) -> Result<(), OutOfMemory>
    ensures { OnOk result (bytes.new.items ≡ bytes.old.items
        ++ (separator index ++ decimal (byte_count width))) }
{
    if index > 0 {
        bytes.extend_from_slice(b",")?;
    }
    bytes.extend_from_slice(digits_of(width))?;
    Ok(())
}

fn digits_of(width: Width) -> &'static [u8]
    ensures { result.now ≡ decimal (byte_count width) }
{
    match width {
        Width::One => b"1",
        Width::Nine => b"9",
        Width::Seventeen => b"17",
    }
}

/// The bytes with the dimensions of a shape behind them, as the result text spells them.
fn with_dimensions(alloc: Global, bytes: Vec<u8>, shape: &Shape) -> Result<Vec<u8>, OutOfMemory>
    ensures { IfOk result (λ all. all.items ≡ bytes.items
        ++ listed_text (filter_map (present_text shape.now) all_kinds)) }
{
    let mut out = Gather::behind(bytes);
    let mut pending = Pending::new(alloc)?;
    match send_all(&mut out, &mut pending, shape) {
        Ok(()) => Ok(out.into_bytes()),
        Err(_) => Err(OutOfMemory),
    }
}

fn send_all<O: Sink>(out: &mut O, pending: &mut Pending, shape: &Shape) -> Result<(), Failed>
    requires { pending.old ≡ [] }
    ensures { OnOk result (Appends (O.written out.old) (listed_text (filter_map
        (present_text shape.now) all_kinds)) (O.written out.new)) }
{
    send_dimensions(out, pending, shape)?;
    flush(out, pending)
}

// ---- reading

/// What a header says, `None` exactly where the bytes are that of no file of the version.
pub(crate) fn read_header(
    alloc: Global,
    version: Version,
    bytes: &[u8],
) -> Result<Option<Head>, OutOfMemory>
    ensures { IfOk result (λ read. MatchOption read
        (IsNoHeader version bytes.now) (IsHeaderOf version bytes.now)) }
{
    let Some(head) = read_members(alloc, version, bytes)? else {
        return Ok(None);
    };
    let spelled = respell(alloc, &head)?;
    if spelled.as_slice() == bytes {
        Ok(Some(head))
    } else {
        Ok(None)
    }
}

/// The one spelling of what a header says.
fn respell(alloc: Global, head: &Head) -> Result<Vec<u8>, OutOfMemory>
    ensures { IfOk result (λ bytes. bytes.items ≡ spec.header_text head.now) }
{
    let widths = match &head.widths {
        None => None,
        Some(widths) => Some(widths.as_slice()),
    };
    header_bytes(alloc, &head.id, head.kind, widths, &head.shape)
}

/// What the members of a JSON text say, whatever their order and the blanks: whether that is its one spelling is seen
/// when it is spelled again.
fn read_members(alloc: Global, version: Version, bytes: &[u8]) -> Result<Option<Head>, OutOfMemory>
    ensures { IfOk result (λ read. MatchOption read (IsNoHeader version bytes.now)
        (λ h. IsHeadOf version h × IsHeaderOfNoOther version bytes.now h)) }
{
    match Value::from_slice(alloc, bytes) {
        Ok(value) => read_value(alloc, version, &value),
        Err(error) if error.is_memory() => Err(OutOfMemory),
        Err(_) => Ok(None),
    }
}

/// The head that a value says.
fn read_value(alloc: Global, version: Version, value: &Value) -> Result<Option<Head>, OutOfMemory>
    ensures { IfOk result (λ read. MatchOption read
        ((h : spec.Head) → IsHeadOf version h → ¬ SaysHead (view value.now) h)
        (λ h. IsHeadOf version h × SaysHead (view value.now) h)) }
{
    let Some(id) = read_id(alloc, value)? else {
        return Ok(None);
    };
    let Some(kind) = read_kind(value) else {
        return Ok(None);
    };
    let Some(shape) = read_dimensions(alloc, value)? else {
        return Ok(None);
    };
    let Some(widths) = read_widths(alloc, version, value, section_count(&shape))? else {
        return Ok(None);
    };
    Ok(Some(Head {
        id,
        kind,
        widths,
        shape,
    }))
}

fn read_id(alloc: Global, value: &Value) -> Result<Option<Text>, OutOfMemory>
    ensures { IfOk result (λ read. MatchOption read
        ((id : List ℕ) → is_name id ≡ true → ¬ (text_in (codes "id") (view value.now) ≡ Some id))
        (λ id. (is_name id ≡ true) × (text_in (codes "id") (view value.now) ≡ Some id))) }
{
    match text_in(value, "id") {
        Some(id) => {
            if is_name(id) {
                Ok(Some(Text::of(alloc, id)?))
            } else {
                Ok(None)
            }
        }
        None => Ok(None),
    }
}

/// The widths of so many sections, where a file of the version has widths.
fn read_widths(
    alloc: Global,
    version: Version,
    value: &Value,
    count: u32,
) -> Result<Option<Option<Vec<Width>>>, OutOfMemory>
    ensures { IfOk result
        (λ read. MatchOption read (SaysNoWidthsOf version count (view value.now))
        (λ widths. SaysWidthsOf version count (view value.now) (option_map items_of widths))) }
{
    match version {
        Version::First => Ok(Some(None)),
        Version::Second => match read_counted(alloc, value, count)? {
            Some(widths) => Ok(Some(Some(widths))),
            None => Ok(None),
        },
    }
}

/// So many widths.
fn read_counted(alloc: Global, value: &Value, count: u32) -> Result<Option<Vec<Width>>, OutOfMemory>
    ensures { IfOk result (λ read. MatchOption read
        ((widths : List Width) → length widths ≡ count → ¬ ListsWidths (view value.now) widths)
        (λ widths. (length widths.items ≡ count) × ListsWidths (view value.now) widths.items)) }
{
    match list_in(value, "widths") {
        Some(values) => {
            if values.len() == count as usize {
                read_width_list(alloc, values)
            } else {
                Ok(None)
            }
        }
        None => Ok(None),
    }
}

fn read_width_list(alloc: Global, values: &[Value]) -> Result<Option<Vec<Width>>, OutOfMemory>
    ensures { IfOk result (λ read. MatchOption read
        ((widths : List Width) → ¬ Each SpellsWidth (items_view values.now) widths)
        (λ widths. Each SpellsWidth (items_view values.now) widths.items)) }
{
    let mut widths = Vec::with_capacity(alloc, values.len())?;
    for value in values.iter() {
        match width_in(value) {
            Some(width) => widths.push(width)?,
            None => return Ok(None),
        }
    }
    Ok(Some(widths))
}

fn width_in(value: &Value) -> Option<Width>
    ensures { MatchOption result ((width : Width) → ¬ SpellsWidth (view value.now) width)
        (SpellsWidth (view value.now)) }
{
    match value.as_u64()? {
        1 => Some(Width::One),
        9 => Some(Width::Nine),
        17 => Some(Width::Seventeen),
        _ => None,
    }
}
