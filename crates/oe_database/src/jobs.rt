// The jobs that a database has.
ghost use Rattle.std.specs.Prelude.{◌≡◌, IfOk, map};
ghost use Rattle.oe_jobs.specs.Plain.{plain_job};
ghost use Rattle.oe_database.specs.Inside.{Inside, Stays};
ghost use Rattle.oe_database.specs.Loads.{HasEachJob, HasJob, HasJobs};

use crate::queries::query;
use crate::refusal::Refusal;
use crate::rows::{assets_in, job_in};
use oe_jobs::Job;
use sqlite::types::ValueRef;
use sqlite::{Alter, Row, Transaction};
use std::alloc::Global;

const JOBS: &str = "SELECT number, entry FROM jobs ORDER BY number";

const ASSETS: &str = "SELECT place, name, body FROM assets WHERE number = ?1 ORDER BY place";

/// All jobs with their assets, by their numbers.
pub(crate) fn read_jobs<S: Alter>(
    alloc: Global,
    tx: &mut Transaction<'_, S>,
) -> Result<Vec<Job>, Refusal>
    ensures same_reference { tx.new.conn.ghost_name ≡ tx.old.conn.ghost_name }
    ensures stays { Stays S.Store tx.old.conn.now tx.new.conn.now }
    ensures jobs { IfOk result (λ v. Inside S.Store tx.old.conn.now tx.new.conn.now
        (HasJobs S.Store (map plain_job v.items) tx.old.conn.now tx.new.conn.now)) }
{
    let rows = query(tx, JOBS, &[])?;
    let jobs = read_each(alloc, tx, &rows)?;
    Ok(jobs)
}

fn read_each<S: Alter>(
    alloc: Global,
    tx: &mut Transaction<'_, S>,
    rows: &[Row],
) -> Result<Vec<Job>, Refusal>
    ensures same_reference { tx.new.conn.ghost_name ≡ tx.old.conn.ghost_name }
    ensures stays { Stays S.Store tx.old.conn.now tx.new.conn.now }
    ensures each { IfOk result (λ v. Inside S.Store tx.old.conn.now tx.new.conn.now
        (HasEachJob S.Store rows.now (map plain_job v.items) tx.old.conn.now tx.new.conn.now)) }
{
    let mut jobs = Vec::new(alloc);
    for row in rows {
        let job = read_job(alloc, tx, row)?;
        jobs.push(job)?;
    }
    Ok(jobs)
}

/// The job of a row, with its assets.
fn read_job<S: Alter>(alloc: Global, tx: &mut Transaction<'_, S>, row: &Row) -> Result<Job, Refusal>
    ensures same_reference { tx.new.conn.ghost_name ≡ tx.old.conn.ghost_name }
    ensures stays { Stays S.Store tx.old.conn.now tx.new.conn.now }
    ensures job { IfOk result (λ job. Inside S.Store tx.old.conn.now tx.new.conn.now
        (HasJob S.Store row.now (plain_job job) tx.old.conn.now tx.new.conn.now)) }
{
    let read = job_in(alloc, row)?;
    let number = read.0.to_be_bytes();
    let mut job = read.1;
    let rows = query(tx, ASSETS, &[ValueRef::Blob(&number)])?;
    let assets = assets_in(alloc, &rows)?;
    job.assets = assets;
    Ok(job)
}
