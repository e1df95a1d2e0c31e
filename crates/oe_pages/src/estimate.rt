// What the assets of a job need.
ghost use Rattle.std.specs.Prelude.{◌≡◌, IfOk, decimal, false, map};
ghost use Rattle.serde_json.specs.Data.{string};
ghost use Rattle.serde_json.specs.View.{view};
ghost use Rattle.serde_json.specs.Written.{compact_text};
ghost use Rattle.oe_pages.specs.Estimates as spec;

use itoa::Buffer;
use oe_dims::Text;
use oe_graph::{put_str, str_json};
use oe_memory::OutOfMemory;
use serde_json::{Map, Value, put};
use std::alloc::Global;

/// What an asset needs: its bound in cells and its number of chunks.
#[derive(Drop)]
pub struct EstimateRow {
    pub name: Text,
    pub bound: u128,
    pub chunks: u64,
}

/// What the assets of a job need, as the reply to a request for the estimate has it: compact JSON (openEO API, batch jobs;
/// its members are this profile's own).
///
/// Refuses: out of memory.
#[tactic(auto, using(crate::proofs::Floats::estimate_whole))]
pub fn estimate_body(alloc: Global, rows: &[EstimateRow]) -> Result<Vec<u8>, OutOfMemory>
    ensures { IfOk result (λ body. body.items ≡ compact_text (spec.estimate_data rows.now)) }
{
    let value = estimate_json(alloc, rows)?;
    let text = value.to_string(alloc)?;
    Ok(text.into_bytes())
}

fn estimate_json(alloc: Global, rows: &[EstimateRow]) -> Result<Value, OutOfMemory>
    ensures { IfOk result (λ v. view v ≡ spec.estimate_data rows.now) }
{
    let mut entry = Map::new(alloc);
    put(
        &mut entry,
        alloc,
        "assets",
        Value::Array(row_values(alloc, rows)?),
    )?;
    Ok(Value::Object(entry))
}

fn row_values(alloc: Global, rows: &[EstimateRow]) -> Result<Vec<Value>, OutOfMemory>
    ensures { IfOk result (λ values. map view values.items ≡ map spec.row_data rows.now) }
{
    let mut values = Vec::with_capacity(alloc, rows.len())?;
    for row in rows {
        values.push(row_json(alloc, row)?)?;
    }
    Ok(values)
}

fn row_json(alloc: Global, row: &EstimateRow) -> Result<Value, OutOfMemory>
    ensures { IfOk result (λ v. view v ≡ spec.row_data row.now) }
{
    let mut entry = Map::new(alloc);
    put(&mut entry, alloc, "bound", bound_json(alloc, row.bound)?)?;
    put(&mut entry, alloc, "chunks", Value::from(row.chunks))?;
    put_str(&mut entry, alloc, "name", row.name.as_str())?;
    Ok(Value::Object(entry))
}

/// A bound as a text.
fn bound_json(alloc: Global, bound: u128) -> Result<Value, OutOfMemory>
    ensures { IfOk result (λ v. view v ≡ string (decimal bound)) }
{
    str_json(alloc, Buffer::new().format(bound))
}
