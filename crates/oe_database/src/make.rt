// What a change makes in a transaction.
ghost use Rattle.std.specs.Prelude.{◌≡◌, IsTrue, Some};
ghost use Rattle.sqlite.specs.Held.{state};
ghost use Rattle.sqlite.specs.State.{HasCleanDisk, KeepsCommit, Survives};
ghost use Rattle.oe_jobs.specs.Plain.{add_asset as adds_asset, drop_job as drops_job, drop_process as drops_process, plain_change, plain_job, plain_owned, put_job as puts_job, put_process as puts_process};
ghost use Rattle.oe_database.specs.Each.{RanEach};
ghost use Rattle.oe_database.specs.Inside.{OnOkInside};
ghost use Rattle.oe_database.specs.Makes.{Makes};
ghost use Rattle.oe_database.specs.Statements.{asset_statements};

use crate::held::{held_job, note};
use crate::refusal::Refusal;
use crate::run::run_each;
use crate::statements::{add_asset, drop_job, drop_process, put_job, put_process};
use oe_dims::Text;
use oe_jobs::{Asset, Change, Job, LogEntry, Owned, number_of};
use oe_keeper::job_text;
use sqlite::{Alter, Transaction};
use std::alloc::Global;

/// Runs the statements of a change in turn, up to the first that is refused.
///
/// Refuses: a job to be put whose id has no number; an entry that is not valid, of a job that gets an asset; what the
/// database refuses; out of memory.
pub(crate) fn make<S: Alter>(
    alloc: Global,
    tx: &mut Transaction<'_, S>,
    change: &Change,
) -> Result<(), Refusal>
    ensures same_reference { tx.new.conn.ghost_name ≡ tx.old.conn.ghost_name }
    ensures made { OnOkInside S.Store tx.old.conn.now tx.new.conn.now result
        (Makes S.Store (plain_change change.now) tx.old.conn.now tx.new.conn.now) }
    ensures kept { HasCleanDisk (state S.Store tx.new.conn.now)
        → IsTrue (state S.Store tx.old.conn.now).in_transaction
        → KeepsCommit (state S.Store tx.old.conn.now) (state S.Store tx.new.conn.now) }
    ensures survives { Survives (state S.Store tx.old.conn.now)
        (state S.Store tx.new.conn.now) (λ _. ⊥) }
{
    match change {
        Change::PutJob { job, next } => make_job(alloc, tx, job, *next),
        Change::AddAsset {
            job,
            asset,
            log,
            updated,
        } => make_asset(alloc, tx, job, asset, log, *updated),
        Change::DropJob { id } => unmake_job(alloc, tx, id),
        Change::PutProcess { owned } => make_process(alloc, tx, owned),
        Change::DropProcess { user, id } => unmake_process(alloc, tx, user, id),
    }
}

fn make_job<S: Alter>(
    alloc: Global,
    tx: &mut Transaction<'_, S>,
    job: &Job,
    next: u64,
) -> Result<(), Refusal>
    ensures same_reference { tx.new.conn.ghost_name ≡ tx.old.conn.ghost_name }
    ensures made { OnOkInside S.Store tx.old.conn.now tx.new.conn.now result
        (Makes S.Store (puts_job (plain_job job.now) next) tx.old.conn.now tx.new.conn.now) }
    ensures kept { HasCleanDisk (state S.Store tx.new.conn.now)
        → IsTrue (state S.Store tx.old.conn.now).in_transaction
        → KeepsCommit (state S.Store tx.old.conn.now) (state S.Store tx.new.conn.now) }
    ensures survives { Survives (state S.Store tx.old.conn.now)
        (state S.Store tx.new.conn.now) (λ _. ⊥) }
{
    let Some(number) = number_of(job.id.as_str()) else {
        return Err(Refusal::Failed);
    };
    let number = number.to_be_bytes();
    let next = next.to_be_bytes();
    let entry = job_text(alloc, job)?;
    let entry = entry.as_str().as_bytes();
    let statements = put_job(alloc, &number, entry, &job.assets, &next)?;
    run_each(tx, &statements)?;
    Ok(())
}

fn unmake_job<S: Alter>(
    alloc: Global,
    tx: &mut Transaction<'_, S>,
    id: &Text,
) -> Result<(), Refusal>
    ensures same_reference { tx.new.conn.ghost_name ≡ tx.old.conn.ghost_name }
    ensures made { OnOkInside S.Store tx.old.conn.now tx.new.conn.now result
        (Makes S.Store (drops_job id.now) tx.old.conn.now tx.new.conn.now) }
    ensures kept { HasCleanDisk (state S.Store tx.new.conn.now)
        → IsTrue (state S.Store tx.old.conn.now).in_transaction
        → KeepsCommit (state S.Store tx.old.conn.now) (state S.Store tx.new.conn.now) }
    ensures survives { Survives (state S.Store tx.old.conn.now)
        (state S.Store tx.new.conn.now) (λ _. ⊥) }
{
    let Some(number) = number_of(id.as_str()) else {
        return Ok(());
    };
    let number = number.to_be_bytes();
    let statements = drop_job(alloc, &number)?;
    run_each(tx, &statements)?;
    Ok(())
}

/// Adds an asset to a job, whose entry gets the log and the moment. A job that is not there is left.
fn make_asset<S: Alter>(
    alloc: Global,
    tx: &mut Transaction<'_, S>,
    id: &Text,
    asset: &Asset,
    log: &Option<LogEntry>,
    updated: i64,
) -> Result<(), Refusal>
    ensures same_reference { tx.new.conn.ghost_name ≡ tx.old.conn.ghost_name }
    ensures made { OnOkInside S.Store tx.old.conn.now tx.new.conn.now result
        (Makes S.Store (adds_asset id.now asset.now log.now updated)
        tx.old.conn.now tx.new.conn.now) }
    ensures kept { HasCleanDisk (state S.Store tx.new.conn.now)
        → IsTrue (state S.Store tx.old.conn.now).in_transaction
        → KeepsCommit (state S.Store tx.old.conn.now) (state S.Store tx.new.conn.now) }
    ensures survives { Survives (state S.Store tx.old.conn.now)
        (state S.Store tx.new.conn.now) (λ _. ⊥) }
{
    let Some(number) = number_of(id.as_str()) else {
        return Ok(());
    };
    match held_job(alloc, tx, id, &number.to_be_bytes())? {
        Some(job) => {
            extend(alloc, tx, number, job, asset, log, updated)?;
            Ok(())
        }
        None => Ok(()),
    }
}

/// Adds an asset to a job of a number, of which this is the entry so far.
fn extend<S: Alter>(
    alloc: Global,
    tx: &mut Transaction<'_, S>,
    number: u64,
    mut job: Job,
    asset: &Asset,
    log: &Option<LogEntry>,
    updated: i64,
) -> Result<(), Refusal>
    ensures same_reference { tx.new.conn.ghost_name ≡ tx.old.conn.ghost_name }
    ensures ran { OnOkInside S.Store tx.old.conn.now tx.new.conn.now result
        (RanEach S.Store (asset_statements (Some number) (Some (plain_job job)) asset.now log.now
        updated) tx.old.conn.now tx.new.conn.now) }
    ensures kept { HasCleanDisk (state S.Store tx.new.conn.now)
        → IsTrue (state S.Store tx.old.conn.now).in_transaction
        → KeepsCommit (state S.Store tx.old.conn.now) (state S.Store tx.new.conn.now) }
    ensures survives { Survives (state S.Store tx.old.conn.now)
        (state S.Store tx.new.conn.now) (λ _. ⊥) }
{
    note(&mut job, log, updated)?;
    let entry = job_text(alloc, &job)?;
    let number = number.to_be_bytes();
    let statements = add_asset(alloc, &number, entry.as_str().as_bytes(), asset)?;
    run_each(tx, &statements)?;
    Ok(())
}

fn make_process<S: Alter>(
    alloc: Global,
    tx: &mut Transaction<'_, S>,
    owned: &Owned,
) -> Result<(), Refusal>
    ensures same_reference { tx.new.conn.ghost_name ≡ tx.old.conn.ghost_name }
    ensures made { OnOkInside S.Store tx.old.conn.now tx.new.conn.now result
        (Makes S.Store (puts_process (plain_owned owned.now)) tx.old.conn.now tx.new.conn.now) }
    ensures kept { HasCleanDisk (state S.Store tx.new.conn.now)
        → IsTrue (state S.Store tx.old.conn.now).in_transaction
        → KeepsCommit (state S.Store tx.old.conn.now) (state S.Store tx.new.conn.now) }
    ensures survives { Survives (state S.Store tx.old.conn.now)
        (state S.Store tx.new.conn.now) (λ _. ⊥) }
{
    let statements = put_process(alloc, owned)?;
    run_each(tx, &statements)?;
    Ok(())
}

fn unmake_process<S: Alter>(
    alloc: Global,
    tx: &mut Transaction<'_, S>,
    user: &Text,
    id: &Text,
) -> Result<(), Refusal>
    ensures same_reference { tx.new.conn.ghost_name ≡ tx.old.conn.ghost_name }
    ensures made { OnOkInside S.Store tx.old.conn.now tx.new.conn.now result
        (Makes S.Store (drops_process user.now id.now) tx.old.conn.now tx.new.conn.now) }
    ensures kept { HasCleanDisk (state S.Store tx.new.conn.now)
        → IsTrue (state S.Store tx.old.conn.now).in_transaction
        → KeepsCommit (state S.Store tx.old.conn.now) (state S.Store tx.new.conn.now) }
    ensures survives { Survives (state S.Store tx.old.conn.now)
        (state S.Store tx.new.conn.now) (λ _. ⊥) }
{
    let statements = drop_process(alloc, user, id)?;
    run_each(tx, &statements)?;
    Ok(())
}
