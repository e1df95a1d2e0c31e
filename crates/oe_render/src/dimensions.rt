// The dimensions of a cube text.
ghost use Rattle.std.specs.Prelude.{◌≡◌, ◌≢◌, ℤ, ℕ, IfOk, List, MatchOption, option_map, Some};
ghost use Rattle.serde_json.specs.Data.{no_items};
ghost use Rattle.serde_json.specs.View.{view, items_view};
ghost use Rattle.oe_dims.specs.Dimensions.{Dimensions, IsShape};
ghost use Rattle.oe_dims.specs.declared.kind.Kind.TheVariants.{Time, Bands, X};
ghost use Rattle.oe_render.specs.CubeText.{after_y, AreDimensions, Each, SpellsCoordinate, SpellsName, SpellsTime};
ghost use Rattle.oe_render.specs.Seen.{HasValues, ReadsAlong, found_data};
ghost use Rattle.oe_render.specs.CubeText as spec;

use crate::members::{has_text, list_in};
use oe_dims::{Kind, Shape, Text, read_instant};
use oe_memory::OutOfMemory;
use serde_json::Value;
use std::alloc::Global;

/// The values of the dimensions that there are.
#[derive(Clone, Copy)]
struct Values<'a> {
    t: Option<&'a Value>,
    bands: Option<&'a Value>,
    y: Option<&'a Value>,
    x: Option<&'a Value>,
}

/// The shape whose dimensions the values of a list are, as a cube text has them: in the order `t`, `bands`, `y`, `x`.
/// It is `None` exactly where they are those of no shape. Refuses: out of memory.
pub fn read_shape(alloc: Global, values: &[Value]) -> Result<Option<Shape>, OutOfMemory>
    ensures { IfOk result (λ read. MatchOption read
        ((shape : Dimensions) → IsShape shape → ¬ AreDimensions (items_view values.now) shape)
        (λ shape. AreDimensions (items_view values.now) shape)) }
{
    let Some(found) = find_values(values) else {
        return Ok(None);
    };
    let Some(epsg) = common_system(found.y, found.x) else {
        return Ok(None);
    };
    let Some(t) = read_time(alloc, found.t)? else {
        return Ok(None);
    };
    let Some(bands) = read_bands(alloc, found.bands)? else {
        return Ok(None);
    };
    let Some(y) = read_axis(alloc, Kind::Y, found.y)? else {
        return Ok(None);
    };
    let Some(x) = read_axis(alloc, Kind::X, found.x)? else {
        return Ok(None);
    };
    match Shape::new(epsg, t, bands, y, x) {
        Ok(shape) => Ok(Some(shape)),
        Err(_) => Ok(None),
    }
}

/// The values of the four dimensions, none where others stand there too.
fn find_values(values: &[Value]) -> Option<Values<'_>>
    ensures { MatchOption result (spec.behind X (after_y (items_view values.now)) ≢ no_items)
        (λ found. HasValues (items_view values.now) (found_data found.t) (found_data found.bands)
        (found_data found.y) (found_data found.x)) }
{
    let (t, rest) = take(values, Kind::Time);
    let (bands, rest) = take(rest, Kind::Bands);
    let (y, rest) = take(rest, Kind::Y);
    let (x, rest) = take(rest, Kind::X);
    if rest.is_empty() {
        Some(Values { t, bands, y, x })
    } else {
        None
    }
}

/// The first value, where it has the name of the kind, and those behind it.
fn take(values: &[Value], kind: Kind) -> (Option<&Value>, &[Value])
    ensures first { found_data result.0 ≡ spec.first_of kind (items_view values.now) }
    ensures behind { items_view result.1.now ≡ spec.behind kind (items_view values.now) }
{
    match values {
        [first, rest @ ..] => {
            if has_text(first, "name", name_of(kind)) {
                (Some(first), rest)
            } else {
                (None, values)
            }
        }
        [] => (None, values),
    }
}

fn name_of(kind: Kind) -> &'static str
    ensures { result.now ≡ spec.kind_name kind }
{
    match kind {
        Kind::Time => "t",
        Kind::Bands => "bands",
        Kind::Y => "y",
        Kind::X => "x",
    }
}

fn type_of(kind: Kind) -> &'static str
    ensures { result.now ≡ spec.kind_type kind }
{
    match kind {
        Kind::Time => "temporal",
        Kind::Bands => "bands",
        Kind::Y | Kind::X => "spatial",
    }
}

/// The values of the labels, where the value is a dimension of the kind.
fn label_values(value: &Value, kind: Kind) -> Option<&[Value]>
    ensures { option_map (λ list. items_view list.now) result
        ≡ spec.label_values kind (view value.now) }
{
    if has_text(value, "type", type_of(kind)) && has_axis(value, kind) {
        list_in(value, "labels")
    } else {
        None
    }
}

fn has_axis(value: &Value, kind: Kind) -> bool
    ensures { result ≡ spec.has_axis kind (view value.now) }
{
    match kind {
        Kind::Time | Kind::Bands => true,
        Kind::Y => has_text(value, "axis", "y"),
        Kind::X => has_text(value, "axis", "x"),
    }
}

/// The EPSG code of `y` and `x`, 0 where both are missing, and none where they have no code or differ.
fn common_system(y: Option<&Value>, x: Option<&Value>) -> Option<u32>
    ensures { result ≡ spec.common_system (found_data y.entry) (found_data x.entry) }
{
    match (y, x) {
        (None, None) => Some(0),
        (Some(y), None) => system_in(y),
        (None, Some(x)) => system_in(x),
        (Some(y), Some(x)) => same_code(system_in(y)?, system_in(x)),
    }
}

fn same_code(code: u32, other: Option<u32>) -> Option<u32>
    ensures { result ≡ spec.same_code (Some code) other }
{
    if other? == code { Some(code) } else { None }
}

fn system_in(value: &Value) -> Option<u32>
    ensures { result ≡ spec.system_in (view value.now) }
{
    let code = value.get("reference_system")?.as_u64()?;
    if code <= 999999 {
        Some(code as u32)
    } else {
        None
    }
}

/// The instants of `t`, none where the value is no such dimension.
fn read_time(alloc: Global, value: Option<&Value>) -> Result<Option<Option<Vec<i64>>>, OutOfMemory>
    ensures { IfOk result (ReadsAlong Time SpellsTime (found_data value.entry)) }
{
    let Some(value) = value else {
        return Ok(Some(None));
    };
    let Some(labels) = label_values(value, Kind::Time) else {
        return Ok(None);
    };
    match read_instants(alloc, labels)? {
        Some(labels) => Ok(Some(Some(labels))),
        None => Ok(None),
    }
}

/// The names of the bands, none where the value is no such dimension.
fn read_bands(
    alloc: Global,
    value: Option<&Value>,
) -> Result<Option<Option<Vec<Text>>>, OutOfMemory>
    ensures { IfOk result (ReadsAlong Bands SpellsName (found_data value.entry)) }
{
    let Some(value) = value else {
        return Ok(Some(None));
    };
    let Some(labels) = label_values(value, Kind::Bands) else {
        return Ok(None);
    };
    match read_names(alloc, labels)? {
        Some(labels) => Ok(Some(Some(labels))),
        None => Ok(None),
    }
}

/// The coordinates of `y` or `x`, none where the value is no such dimension.
fn read_axis(
    alloc: Global,
    kind: Kind,
    value: Option<&Value>,
) -> Result<Option<Option<Vec<i64>>>, OutOfMemory>
    ensures { IfOk result (ReadsAlong kind SpellsCoordinate (found_data value.entry)) }
{
    let Some(value) = value else {
        return Ok(Some(None));
    };
    let Some(labels) = label_values(value, kind) else {
        return Ok(None);
    };
    match read_coordinates(alloc, labels)? {
        Some(labels) => Ok(Some(Some(labels))),
        None => Ok(None),
    }
}

fn read_instants(alloc: Global, values: &[Value]) -> Result<Option<Vec<i64>>, OutOfMemory>
    ensures { IfOk result (λ read. MatchOption read
        ((labels : List ℤ) → ¬ Each SpellsTime (items_view values.now) labels)
        (λ labels. Each SpellsTime (items_view values.now) labels.items)) }
{
    let mut read = Vec::with_capacity(alloc, values.len())?;
    for value in values.iter() {
        match instant_of(value) {
            Some(seconds) => read.push(seconds)?,
            None => return Ok(None),
        }
    }
    Ok(Some(read))
}

fn instant_of(value: &Value) -> Option<i64>
    ensures { MatchOption result ((seconds : ℤ) → ¬ SpellsTime (view value.now) seconds)
        (SpellsTime (view value.now)) }
{
    match value.as_str() {
        Some(text) => match read_instant(text) {
            Ok(seconds) => Some(seconds),
            Err(_) => None,
        },
        None => None,
    }
}

fn read_names(alloc: Global, values: &[Value]) -> Result<Option<Vec<Text>>, OutOfMemory>
    ensures { IfOk result (λ read. MatchOption read
        ((labels : List (List ℕ)) → ¬ Each SpellsName (items_view values.now) labels)
        (λ labels. Each SpellsName (items_view values.now) labels.items)) }
{
    let mut read = Vec::with_capacity(alloc, values.len())?;
    for value in values.iter() {
        match value.as_str() {
            Some(text) => {
                let name = Text::of(alloc, text)?;
                read.push(name)?;
            }
            None => return Ok(None),
        }
    }
    Ok(Some(read))
}

fn read_coordinates(alloc: Global, values: &[Value]) -> Result<Option<Vec<i64>>, OutOfMemory>
    ensures { IfOk result (λ read. MatchOption read
        ((labels : List ℤ) → ¬ Each SpellsCoordinate (items_view values.now) labels)
        (λ labels. Each SpellsCoordinate (items_view values.now) labels.items)) }
{
    let mut read = Vec::with_capacity(alloc, values.len())?;
    for value in values.iter() {
        match value.as_i64() {
            Some(coordinate) => read.push(coordinate)?,
            None => return Ok(None),
        }
    }
    Ok(Some(read))
}
