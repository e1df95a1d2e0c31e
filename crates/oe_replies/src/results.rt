// The results of a job.
ghost use Rattle.std.specs.Prelude.{◌≡◌, IfOk, string_bytes};
ghost use Rattle.serde_json.specs.Data.{no_members};
ghost use Rattle.serde_json.specs.View.{members_view, view};
ghost use Rattle.serde_json.specs.Written.{compact_text};
ghost use Rattle.oe_replies.specs.Jobs as spec;

use crate::values::{compact_body, empty_list, single};
use oe_graph::put_str;
use oe_jobs::Asset;
use oe_memory::OutOfMemory;
use serde_json::{Map, Value, put};
use std::alloc::Global;

/// The results of the job of this id: its assets, by name, each with where it is found under the base of the service
/// (openEO API, batch jobs).
///
/// Refuses: out of memory.
#[tactic(auto, using(crate::proofs::Floats::results_whole))]
pub fn results_body(
    alloc: Global,
    base: &str,
    id: &str,
    assets: &[Asset],
) -> Result<Vec<u8>, OutOfMemory>
    ensures { IfOk result
        (λ body. body.items ≡ compact_text (spec.results_data base.now id.now assets.now)) }
{
    let value = results_json(alloc, base, id, assets)?;
    compact_body(alloc, &value)
}

fn results_json(alloc: Global, base: &str, id: &str, assets: &[Asset]) -> Result<Value, OutOfMemory>
    ensures { IfOk result (λ v. view v ≡ spec.results_data base.now id.now assets.now) }
{
    let mut entry = Map::new(alloc);
    put(
        &mut entry,
        alloc,
        "assets",
        Value::Object(asset_map(alloc, base, id, assets)?),
    )?;
    put(&mut entry, alloc, "geometry", Value::Null)?;
    put_str(&mut entry, alloc, "id", id)?;
    put(&mut entry, alloc, "links", empty_list(alloc))?;
    put(
        &mut entry,
        alloc,
        "properties",
        single(alloc, "datetime", Value::Null)?,
    )?;
    put_str(&mut entry, alloc, "stac_version", "1.0.0")?;
    put_str(&mut entry, alloc, "type", "Feature")?;
    Ok(Value::Object(entry))
}

/// The assets, by their names.
fn asset_map(
    alloc: Global,
    base: &str,
    id: &str,
    assets: &[Asset],
) -> Result<Map<String, Value>, OutOfMemory>
    ensures { IfOk result (λ m. members_view m.entries
        ≡ spec.with_assets base.now id.now assets.now no_members) }
{
    let mut entries = Map::new(alloc);
    for asset in assets {
        let name = asset.name.as_str();
        put(
            &mut entries,
            alloc,
            name,
            asset_json(alloc, base, id, name)?,
        )?;
    }
    Ok(entries)
}

fn asset_json(alloc: Global, base: &str, id: &str, name: &str) -> Result<Value, OutOfMemory>
    ensures { IfOk result (λ v. view v ≡ spec.asset_data base.now id.now name.now) }
{
    let mut entry = Map::new(alloc);
    put(
        &mut entry,
        alloc,
        "href",
        Value::String(asset_url(alloc, base, id, name)?),
    )?;
    put_str(&mut entry, alloc, "type", "application/json")?;
    Ok(Value::Object(entry))
}

/// Where an asset is found.
fn asset_url(alloc: Global, base: &str, id: &str, name: &str) -> Result<String, OutOfMemory>
    ensures { IfOk result
        (λ url. string_bytes url ≡ spec.asset_url base.now id.now name.now) }
{
    let mut url = job_url(alloc, base, id)?;
    url.push_str("/results/")?;
    url.push_str(name)?;
    Ok(url)
}

/// Where a job is found.
pub(crate) fn job_url(alloc: Global, base: &str, id: &str) -> Result<String, OutOfMemory>
    ensures { IfOk result (λ url. string_bytes url ≡ spec.job_url base.now id.now) }
{
    let mut url = String::from_str(alloc, base)?;
    url.push_str("jobs/")?;
    url.push_str(id)?;
    Ok(url)
}
