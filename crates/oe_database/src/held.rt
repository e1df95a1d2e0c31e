// The job that a database has of a number.
ghost use Rattle.std.specs.Prelude.{◌≡◌, ◌∷◌, ◌++◌, IfOk, IsTrue, OnOk, [], option_to_list};
ghost use Rattle.std.specs.Option.{option_map};
ghost use Rattle.sqlite.specs.Held.{state};
ghost use Rattle.sqlite.specs.State.{HasCleanDisk, KeepsCommit, Survives};
ghost use Rattle.oe_jobs.specs.Plain.{plain_job};
ghost use Rattle.oe_database.specs.Inside.{IfOkInside};
ghost use Rattle.oe_database.specs.Makes.{AreEntry, HoldsJob};

use crate::refusal::Refusal;
use oe_dims::Text;
use oe_jobs::{Job, LogEntry};
use oe_keeper::read_job;
use oe_memory::OutOfMemory;
use sqlite::types::ValueRef;
use sqlite::{Alter, Row, Transaction};
use std::alloc::Global;

const ENTRY: &str = "SELECT entry FROM jobs WHERE number = ?1";

/// The job of an id as its entry has it, by its number, in a transaction. None where it has no entry.
///
/// Refuses: an entry that is not valid; what the database refuses; out of memory.
pub(crate) fn held_job<S: Alter>(
    alloc: Global,
    tx: &mut Transaction<'_, S>,
    id: &Text,
    number: &[u8],
) -> Result<Option<Job>, Refusal>
    ensures same_reference { tx.new.conn.ghost_name ≡ tx.old.conn.ghost_name }
    ensures held { IfOkInside S.Store tx.old.conn.now tx.new.conn.now result (λ job.
        HoldsJob S.Store id.now number.now (option_map plain_job job)
        tx.old.conn.now tx.new.conn.now) }
    ensures kept { HasCleanDisk (state S.Store tx.new.conn.now)
        → IsTrue (state S.Store tx.old.conn.now).in_transaction
        → KeepsCommit (state S.Store tx.old.conn.now) (state S.Store tx.new.conn.now) }
    ensures survives { Survives (state S.Store tx.old.conn.now)
        (state S.Store tx.new.conn.now) (λ _. ⊥) }
{
    let rows = tx.query_all(ENTRY, &[ValueRef::Blob(number)])?;
    let job = job_of(alloc, id, &rows)?;
    Ok(job)
}

/// The job whose entry the one row is, where there is one.
fn job_of(alloc: Global, id: &Text, rows: &[Row]) -> Result<Option<Job>, Refusal>
    ensures { IfOk result (λ job. AreEntry id.now rows.now (option_map plain_job job)) }
{
    match rows {
        [] => Ok(None),
        [row] => job_in(alloc, id, row),
        _ => Err(Refusal::Failed),
    }
}

fn job_in(alloc: Global, id: &Text, row: &Row) -> Result<Option<Job>, Refusal>
    ensures { IfOk result (λ job. AreEntry id.now (row.now ∷ []) (option_map plain_job job)) }
{
    let entry: Vec<u8> = row.get(0)?;
    match read_job(alloc, id, &entry)? {
        Some(job) => Ok(Some(job)),
        None => Err(Refusal::Failed),
    }
}

/// Adds the log entry, where there is one, to a job that is changed at this moment.
pub(crate) fn note(job: &mut Job, log: &Option<LogEntry>, updated: i64) -> Result<(), OutOfMemory>
    ensures { OnOk result (plain_job job.new ≡ record (plain_job job.old) {
      updated = updated;
      logs = job.old.logs.items ++ option_to_list log.now;
    }) }
{
    job.updated = updated;
    match log {
        Some(entry) => {
            job.logs.push(entry.copy()?)?;
            Ok(())
        }
        None => Ok(()),
    }
}
