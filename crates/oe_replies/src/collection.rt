// Collections, with and without their dimensions.
ghost use Rattle.std.specs.Prelude.{◌≡◌, [], ◌∷◌, IfOk, OnOk, false, map};
ghost use Rattle.std.specs.Option.{option_copied, option_map};
ghost use Rattle.serde_json.specs.Data.{object};
ghost use Rattle.serde_json.specs.View.{members_view, view};
ghost use Rattle.serde_json.specs.Written.{compact_text, has_float};
ghost use Rattle.oe_dims.specs.Dimensions.{number_labels};
ghost use Rattle.oe_dims.specs.declared.kind.Kind.TheVariants as Kind;
ghost use Rattle.oe_replies.specs.Collections as spec;
ghost use Rattle.oe_replies.specs.Json.{list_data, moment_data, put_where, whole_data};

use crate::moment::moment_json;
use crate::root::text_values;
use crate::values::{compact_body, empty_list, listing_json, put_where, single};
use oe_dims::{Dims, DimsRow, Kind, Shape};
use oe_graph::put_str;
use oe_memory::OutOfMemory;
use serde_json::{Map, Value, put};
use std::alloc::Global;

/// The mounted collections, without their dimensions (openEO API, collections).
///
/// Refuses: out of memory.
pub fn collections_body(alloc: Global, dims: &Dims) -> Result<Vec<u8>, OutOfMemory>
    ensures { IfOk result
        (λ body. body.items ≡ compact_text (spec.collections_data dims.now.rows.items)) }
{
    let value = collections_list(alloc, dims)?;
    compact_body(alloc, &value)
}

/// The same before it is written, of which a page may be taken.
///
/// Refuses: out of memory.
#[tactic(auto, using(crate::proofs::Floats::collections_whole))]
pub fn collections_list(alloc: Global, dims: &Dims) -> Result<Value, OutOfMemory>
    ensures list { IfOk result (λ v. view v ≡ spec.collections_data dims.now.rows.items) }
    ensures whole { IfOk result (λ v. has_float (view v) ≡ false) }
{
    collections_json(alloc, &dims.rows)
}

fn collections_json(alloc: Global, rows: &[DimsRow]) -> Result<Value, OutOfMemory>
    ensures { IfOk result (λ v. view v ≡ spec.collections_data rows.now) }
{
    listing_json(alloc, "collections", row_values(alloc, rows)?)
}

fn row_values(alloc: Global, rows: &[DimsRow]) -> Result<Vec<Value>, OutOfMemory>
    ensures { IfOk result (λ values. map view values.items
        ≡ map (λ row. object (spec.collection_members row)) rows.now) }
{
    let mut values = Vec::with_capacity(alloc, rows.len())?;
    for row in rows {
        values.push(Value::Object(collection_map(alloc, row)?))?;
    }
    Ok(values)
}

/// A mounted collection with its dimensions (openEO API, collections).
///
/// Refuses: out of memory.
#[tactic(auto, using(crate::proofs::Floats::collection_whole))]
pub fn collection_body(alloc: Global, row: &DimsRow) -> Result<Vec<u8>, OutOfMemory>
    ensures { IfOk result (λ body. body.items ≡ compact_text (spec.collection_data row.now)) }
{
    let value = collection_json(alloc, row)?;
    compact_body(alloc, &value)
}

fn collection_json(alloc: Global, row: &DimsRow) -> Result<Value, OutOfMemory>
    ensures { IfOk result (λ v. view v ≡ spec.collection_data row.now) }
{
    let mut entry = collection_map(alloc, row)?;
    put(
        &mut entry,
        alloc,
        "cube:dimensions",
        dimensions_json(alloc, &row.shape)?,
    )?;
    Ok(Value::Object(entry))
}

/// The members of a collection but its dimensions.
fn collection_map(alloc: Global, row: &DimsRow) -> Result<Map<String, Value>, OutOfMemory>
    ensures { IfOk result (λ m. members_view m.entries ≡ spec.collection_members row.now) }
{
    let id = row.id.as_str();
    let mut entry = Map::new(alloc);
    put_str(&mut entry, alloc, "description", id)?;
    put(&mut entry, alloc, "extent", extent_json(alloc, &row.shape)?)?;
    put_str(&mut entry, alloc, "id", id)?;
    put_str(&mut entry, alloc, "license", "proprietary")?;
    put(&mut entry, alloc, "links", empty_list(alloc))?;
    put_str(&mut entry, alloc, "stac_version", "1.0.0")?;
    put_str(&mut entry, alloc, "type", "Collection")?;
    Ok(entry)
}

fn extent_json(alloc: Global, shape: &Shape) -> Result<Value, OutOfMemory>
    ensures { IfOk result (λ v. view v ≡ spec.extent_data shape.now) }
{
    let mut entry = Map::new(alloc);
    put(
        &mut entry,
        alloc,
        "spatial",
        single(alloc, "bbox", whole_earth(alloc)?)?,
    )?;
    put(
        &mut entry,
        alloc,
        "temporal",
        single(alloc, "interval", intervals_of(alloc, shape)?)?,
    )?;
    Ok(Value::Object(entry))
}

/// The one interval of a shape, from its first to its last instant.
fn intervals_of(alloc: Global, shape: &Shape) -> Result<Value, OutOfMemory>
    ensures { IfOk result (λ v. view v
        ≡ list_data (spec.instants_extent (number_labels shape.now Kind.Time) ∷ [])) }
{
    list_of(alloc, instants_extent(alloc, shape)?)
}

/// The whole earth, in degrees.
fn whole_earth(alloc: Global) -> Result<Value, OutOfMemory>
    ensures { IfOk result (λ v. view v ≡ spec.whole_earth) }
{
    let mut bounds = Vec::with_capacity(alloc, 4)?;
    bounds.push(Value::from(-180i64))?;
    bounds.push(Value::from(-90i64))?;
    bounds.push(Value::from(180i64))?;
    bounds.push(Value::from(90i64))?;
    list_of(alloc, Value::Array(bounds))
}

/// A list of one value.
fn list_of(alloc: Global, value: Value) -> Result<Value, OutOfMemory>
    ensures { IfOk result (λ v. view v ≡ list_data (view value ∷ [])) }
{
    let mut values = Vec::with_capacity(alloc, 1)?;
    values.push(value)?;
    Ok(Value::Array(values))
}

/// A list of two values.
fn pair_json(alloc: Global, first: Value, second: Value) -> Result<Value, OutOfMemory>
    ensures { IfOk result (λ v. view v ≡ spec.pair_data (view first) (view second)) }
{
    let mut values = Vec::with_capacity(alloc, 2)?;
    values.push(first)?;
    values.push(second)?;
    Ok(Value::Array(values))
}

/// The dimensions of a shape, under their names.
fn dimensions_json(alloc: Global, shape: &Shape) -> Result<Value, OutOfMemory>
    ensures { IfOk result (λ v. view v ≡ spec.dimensions_data shape.now) }
{
    let mut entry = Map::new(alloc);
    put_dimension(&mut entry, alloc, "bands", shape, Kind::Bands)?;
    put_dimension(&mut entry, alloc, "t", shape, Kind::Time)?;
    put_dimension(&mut entry, alloc, "x", shape, Kind::X)?;
    put_dimension(&mut entry, alloc, "y", shape, Kind::Y)?;
    Ok(Value::Object(entry))
}

/// Puts a dimension where the shape has it.
fn put_dimension(
    entry: &mut Map<String, Value>,
    alloc: Global,
    name: &str,
    shape: &Shape,
    kind: Kind,
) -> Result<(), OutOfMemory>
    ensures { OnOk result (members_view entry.new.entries
        ≡ put_where name.now (spec.dimension_where shape.now kind) (members_view entry.old.entries)) }
{
    let value = dimension_json(alloc, shape, kind)?;
    put_where(entry, alloc, name, value)
}

/// A dimension, where the shape has it.
fn dimension_json(alloc: Global, shape: &Shape, kind: Kind) -> Result<Option<Value>, OutOfMemory>
    ensures { IfOk result (λ v. option_map view v ≡ spec.dimension_where shape.now kind) }
{
    if shape.count(kind).is_none() {
        return Ok(None);
    }
    match kind {
        Kind::Time => Ok(Some(time_json(alloc, shape)?)),
        Kind::Bands => Ok(Some(bands_json(alloc, shape)?)),
        Kind::Y => Ok(Some(y_json(alloc, shape)?)),
        Kind::X => Ok(Some(x_json(alloc, shape)?)),
    }
}

fn time_json(alloc: Global, shape: &Shape) -> Result<Value, OutOfMemory>
    ensures { IfOk result (λ v. view v ≡ spec.dimension_data shape.now Kind.Time) }
{
    let mut entry = Map::new(alloc);
    put(&mut entry, alloc, "extent", instants_extent(alloc, shape)?)?;
    put_str(&mut entry, alloc, "type", "temporal")?;
    Ok(Value::Object(entry))
}

fn bands_json(alloc: Global, shape: &Shape) -> Result<Value, OutOfMemory>
    ensures { IfOk result (λ v. view v ≡ spec.dimension_data shape.now Kind.Bands) }
{
    let mut entry = Map::new(alloc);
    put_str(&mut entry, alloc, "type", "bands")?;
    put(
        &mut entry,
        alloc,
        "values",
        Value::Array(text_values(alloc, shape.bands())?),
    )?;
    Ok(Value::Object(entry))
}

fn x_json(alloc: Global, shape: &Shape) -> Result<Value, OutOfMemory>
    ensures { IfOk result (λ v. view v ≡ spec.dimension_data shape.now Kind.X) }
{
    let labels = shape.labels(Kind::X);
    let extent = pair_json(alloc, whole_end(labels.first()), whole_end(labels.last()))?;
    spatial_json(alloc, shape, "x", extent)
}

fn y_json(alloc: Global, shape: &Shape) -> Result<Value, OutOfMemory>
    ensures { IfOk result (λ v. view v ≡ spec.dimension_data shape.now Kind.Y) }
{
    let labels = shape.labels(Kind::Y);
    let extent = pair_json(alloc, whole_end(labels.last()), whole_end(labels.first()))?;
    spatial_json(alloc, shape, "y", extent)
}

/// A spatial dimension of this axis and extent.
fn spatial_json(
    alloc: Global,
    shape: &Shape,
    axis: &str,
    extent: Value,
) -> Result<Value, OutOfMemory>
    ensures { IfOk result (λ v. view v ≡ spec.spatial_data shape.now axis.now (view extent)) }
{
    let mut entry = Map::new(alloc);
    put_str(&mut entry, alloc, "axis", axis)?;
    put(&mut entry, alloc, "extent", extent)?;
    put(
        &mut entry,
        alloc,
        "reference_system",
        Value::from(shape.epsg()),
    )?;
    put_str(&mut entry, alloc, "type", "spatial")?;
    Ok(Value::Object(entry))
}

/// From the first to the last instant.
fn instants_extent(alloc: Global, shape: &Shape) -> Result<Value, OutOfMemory>
    ensures { IfOk result
        (λ v. view v ≡ spec.instants_extent (number_labels shape.now Kind.Time)) }
{
    let labels = shape.labels(Kind::Time);
    let from = instant_end(alloc, labels.first())?;
    let to = instant_end(alloc, labels.last())?;
    pair_json(alloc, from, to)
}

/// A label of `t`, null where there is none.
fn instant_end(alloc: Global, label: Option<&i64>) -> Result<Value, OutOfMemory>
    ensures { IfOk result
        (λ v. view v ≡ spec.end_data moment_data (option_copied label.entry)) }
{
    match label {
        Some(label) => moment_json(alloc, *label),
        None => Ok(Value::Null),
    }
}

/// A label of `x` or `y`, null where there is none.
fn whole_end(label: Option<&i64>) -> Value
    ensures { view result ≡ spec.end_data whole_data (option_copied label.entry) }
{
    match label {
        Some(label) => Value::from(*label),
        None => Value::Null,
    }
}
