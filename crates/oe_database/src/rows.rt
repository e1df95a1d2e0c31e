// Rows of the tables, as jobs, assets and stored processes.
ghost use Rattle.std.specs.Prelude.{◌≡◌, IfOk, map};
ghost use Rattle.sqlite_value.specs.Order.{column};
ghost use Rattle.sqlite_value.specs.declared.value.Value.TheVariants.{Blob, Text as text_value};
ghost use Rattle.oe_graph.specs.Plain.{plain_stored};
ghost use Rattle.oe_graph.specs.Read.{ReadsStored};
ghost use Rattle.oe_jobs.specs.Plain.{plain_job, plain_owned};
ghost use Rattle.oe_database.specs.Loads.{AreCount, AreEach, AreHead, IsAssetRow, IsJobRow, IsProcessRow};
ghost use Rattle.oe_database.specs.Statements.{number_bytes};

use crate::refusal::Refusal;
use oe_dims::Text;
use oe_graph::{Refusal as Unread, StoredProcess, read_stored};
use oe_jobs::{Asset, Job, Owned, job_id};
use oe_keeper::read_job;
use sqlite::Row;
use std::alloc::Global;

/// The number of the one row. Refuses: other rows.
pub(crate) fn count_in(rows: &[Row]) -> Result<i64, Refusal>
    ensures { IfOk result (AreCount rows.now) }
{
    match rows {
        [row] => Ok(row.get(0)?),
        _ => Err(Refusal::Failed),
    }
}

/// The version and the next number of the one row. Refuses: other rows; out of memory.
pub(crate) fn head_in(rows: &[Row]) -> Result<(i64, u64), Refusal>
    ensures { IfOk result (λ r. AreHead rows.now r.0 r.1) }
{
    match rows {
        [row] => Ok((row.get(0)?, number_in(row, 1)?)),
        _ => Err(Refusal::Failed),
    }
}

/// A number, as the tables have it: 8 bytes, highest first.
fn number_in(row: &Row, at: usize) -> Result<u64, Refusal>
    ensures { IfOk result (λ n. column row.now at ≡ Blob (number_bytes n)) }
{
    let bytes: Vec<u8> = row.get(at)?;
    match <[u8; 8]>::try_from(bytes.as_slice()) {
        Ok(bytes) => Ok(u64::from_be_bytes(bytes)),
        Err(_) => Err(Refusal::Failed),
    }
}

/// The number of the job of a row, and the job without its assets. Refuses: what is not valid; out of memory.
pub(crate) fn job_in(alloc: Global, row: &Row) -> Result<(u64, Job), Refusal>
    ensures { IfOk result (λ r. IsJobRow row.now r.0 (plain_job r.1)) }
{
    let number = number_in(row, 0)?;
    let entry: Vec<u8> = row.get(1)?;
    match read_job(alloc, &job_id(alloc, number)?, &entry)? {
        Some(job) => Ok((number, job)),
        None => Err(Refusal::Failed),
    }
}

/// The assets of rows, at their places. Refuses: what is not valid; out of memory.
pub(crate) fn assets_in(alloc: Global, rows: &[Row]) -> Result<Vec<Asset>, Refusal>
    ensures { IfOk result (λ v. AreEach IsAssetRow 0 rows.now v.items) }
{
    let mut assets = Vec::new(alloc);
    for row in rows {
        let asset = asset_in(alloc, row, assets.len())?;
        assets.push(asset)?;
    }
    Ok(assets)
}

fn asset_in(alloc: Global, row: &Row, place: usize) -> Result<Asset, Refusal>
    ensures { IfOk result (IsAssetRow place row.now) }
{
    let stored: u64 = row.get(0)?;
    if stored != place as u64 {
        return Err(Refusal::Failed);
    }
    Ok(Asset {
        name: word_in(alloc, row, 1)?,
        text: body_in(alloc, row, 2)?,
    })
}

/// The text of a column.
fn word_in(alloc: Global, row: &Row, at: usize) -> Result<Text, Refusal>
    ensures { IfOk result (λ text. column row.now at ≡ text_value text) }
{
    let text: String = row.get(at)?;
    Ok(Text::of(alloc, text.as_str())?)
}

/// The text that the bytes of a column are.
fn body_in(alloc: Global, row: &Row, at: usize) -> Result<Text, Refusal>
    ensures { IfOk result (λ text. column row.now at ≡ Blob text) }
{
    let bytes: Vec<u8> = row.get(at)?;
    match str::from_utf8(&bytes) {
        Ok(text) => Ok(Text::of(alloc, text)?),
        Err(_) => Err(Refusal::Failed),
    }
}

/// The stored processes of rows. Refuses: what is not valid; out of memory.
pub(crate) fn processes_in(alloc: Global, rows: &[Row]) -> Result<Vec<Owned>, Refusal>
    ensures { IfOk result (λ v. AreEach IsProcessRow 0 rows.now (map plain_owned v.items)) }
{
    let mut processes = Vec::new(alloc);
    for row in rows {
        let owned = owned_in(alloc, row)?;
        processes.push(owned)?;
    }
    Ok(processes)
}

fn owned_in(alloc: Global, row: &Row) -> Result<Owned, Refusal>
    ensures { IfOk result (λ owned. (place : _) → IsProcessRow place row.now (plain_owned owned)) }
{
    let user = word_in(alloc, row, 0)?;
    let id: String = row.get(1)?;
    let body: Vec<u8> = row.get(2)?;
    Ok(Owned {
        user,
        process: stored_in(alloc, id.as_str(), &body)?,
    })
}

fn stored_in(alloc: Global, id: &str, text: &[u8]) -> Result<StoredProcess, Refusal>
    ensures { IfOk result (λ process. ReadsStored id.now text.now (plain_stored process)) }
{
    match read_stored(alloc, id, text) {
        Ok(process) => Ok(process),
        Err(Unread::Fault(_)) => Err(Refusal::Failed),
        Err(Unread::OutOfMemory) => Err(Refusal::OutOfMemory),
    }
}
