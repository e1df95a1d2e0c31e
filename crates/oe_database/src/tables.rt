// The tables of a database.
ghost use Rattle.std.specs.Prelude.{◌≡◌, ◌++◌, IfOk, OnOk, [], ◌∷◌, map};
ghost use Rattle.oe_jobs.specs.Plain.{plain_job};
ghost use Rattle.oe_database.specs.Each.{plain_statement};
ghost use Rattle.oe_database.specs.Inside.{Inside, Stays};
ghost use Rattle.oe_database.specs.Loads.{AreEntries, HasTables, IsRenewed};
ghost use Rattle.oe_jobs.specs.Texts.{NamesNumber};
ghost use Rattle.oe_database.specs.Statements.{entry_of, number_bytes, puts_entry, sets_version};

use crate::queries::count_of;
use crate::refusal::Refusal;
use crate::run::run_each;
use crate::statement::Statement;
use crate::statements::put_entry;
use oe_dims::Text;
use oe_jobs::Job;
use oe_keeper::job_text;
use oe_memory::OutOfMemory;
use sqlite::{Alter, Transaction};
use std::alloc::Global;

/// The version of the tables. In version 1 jobs had no level.
const VERSION: i64 = 2;

const SET_VERSION: &str = "UPDATE book SET version = 2";

const SCHEMA: &str = "SELECT count(*) FROM sqlite_schema";

const MAKE: &str =
    "CREATE TABLE book (one INTEGER PRIMARY KEY CHECK (one = 1), version INTEGER NOT NULL, next BLOB NOT NULL);
CREATE TABLE jobs (number BLOB PRIMARY KEY, entry BLOB NOT NULL);
CREATE TABLE assets (number BLOB NOT NULL REFERENCES jobs(number) ON DELETE CASCADE, place INTEGER NOT NULL,
    name TEXT NOT NULL, body BLOB NOT NULL, PRIMARY KEY (number, place));
CREATE TABLE processes (owner TEXT NOT NULL, id TEXT NOT NULL, body BLOB NOT NULL, PRIMARY KEY (owner, id));
INSERT INTO book VALUES (1, 2, x'0000000000000001')";

/// Makes the tables of a book without jobs and stored processes, where the database has no tables.
pub(crate) fn make_tables<S: Alter>(tx: &mut Transaction<'_, S>) -> Result<(), Refusal>
    ensures same_reference { tx.new.conn.ghost_name ≡ tx.old.conn.ghost_name }
    ensures stays { Stays S.Store tx.old.conn.now tx.new.conn.now }
    ensures tables { OnOk result (Inside S.Store tx.old.conn.now tx.new.conn.now
        (HasTables S.Store tx.old.conn.now tx.new.conn.now)) }
{
    if count_of(tx, SCHEMA)? == 0 {
        tx.execute_batch(MAKE)?;
    }
    Ok(())
}

/// Writes the entries of all jobs anew, and the version, where the tables are of version 1.
///
/// Refuses: other versions than 1 and 2; what the database refuses; out of memory.
pub(crate) fn renew<S: Alter>(
    alloc: Global,
    tx: &mut Transaction<'_, S>,
    version: i64,
    jobs: &[Job],
) -> Result<(), Refusal>
    ensures same_reference { tx.new.conn.ghost_name ≡ tx.old.conn.ghost_name }
    ensures stays { Stays S.Store tx.old.conn.now tx.new.conn.now }
    ensures renewed { OnOk result (Inside S.Store tx.old.conn.now tx.new.conn.now
        (IsRenewed S.Store version (map plain_job jobs.now) tx.old.conn.now tx.new.conn.now)) }
{
    match version {
        VERSION => Ok(()),
        1 => {
            let entries = entries_of(alloc, jobs)?;
            let statements = renewal(alloc, &entries)?;
            run_each(tx, &statements)?;
            Ok(())
        }
        _ => Err(Refusal::Failed),
    }
}

/// The numbers of jobs as bytes, and their entries.
fn entries_of(alloc: Global, jobs: &[Job]) -> Result<Vec<([u8; 8], Text)>, Refusal>
    ensures { IfOk result (λ v. AreEntries (map plain_job jobs.now)
        (map (λ e. puts_entry e.0 e.1) v.items)) }
{
    let mut entries = Vec::with_capacity(alloc, jobs.len())?;
    for job in jobs {
        let entry = numbered_entry(alloc, job)?;
        entries.push(entry)?;
    }
    Ok(entries)
}

fn numbered_entry(alloc: Global, job: &Job) -> Result<([u8; 8], Text), Refusal>
    ensures { IfOk result (λ e. (number : _) × NamesNumber job.now.id number
        × (e.0 ≡ number_bytes number) × (e.1 ≡ entry_of (plain_job job.now))) }
{
    match job.number() {
        Some(number) => Ok((number.to_be_bytes(), job_text(alloc, job)?)),
        None => Err(Refusal::Failed),
    }
}

/// The statements that write these entries and the version.
fn renewal<'a>(
    alloc: Global,
    entries: &'a [([u8; 8], Text)],
) -> Result<Vec<Statement<'a>>, OutOfMemory>
    ensures { IfOk result (λ v. map plain_statement v.items
        ≡ map (λ e. puts_entry e.0 e.1) entries.now ++ sets_version ∷ []) }
{
    let mut statements = put_entries(alloc, entries)?;
    statements.push(set_version(alloc))?;
    Ok(statements)
}

fn set_version<'a>(alloc: Global) -> Statement<'a>
    ensures { plain_statement result ≡ sets_version }
{
    Statement {
        text: SET_VERSION,
        parameters: Vec::new(alloc),
    }
}

fn put_entries<'a>(
    alloc: Global,
    entries: &'a [([u8; 8], Text)],
) -> Result<Vec<Statement<'a>>, OutOfMemory>
    ensures { IfOk result (λ v. map plain_statement v.items
        ≡ map (λ e. puts_entry e.0 e.1) entries.now) }
{
    let mut statements = Vec::with_capacity(alloc, entries.len().saturating_add(1))?;
    for entry in entries {
        let statement = put_entry(alloc, &entry.0, entry.1.as_str().as_bytes())?;
        statements.push(statement)?;
    }
    Ok(statements)
}
