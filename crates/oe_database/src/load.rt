// The book of a database.
ghost use Rattle.std.specs.Prelude.{◌≡◌, IfOk, IsTrue, OnErr, false, map};
ghost use Rattle.sqlite.specs.Held.{state};
ghost use Rattle.sqlite.specs.State.{HasCleanDisk, Survives};
ghost use Rattle.oe_jobs.specs.Plain.{plain_book, plain_job, plain_owned};
ghost use Rattle.oe_jobs.specs.Valid.{IsBook};
ghost use Rattle.oe_database.specs.Each.{AreTreesMadeBy, IsMadeBy};
ghost use Rattle.oe_database.specs.Inside.{Inside, Stays};
ghost use Rattle.oe_database.specs.Loads.{Counts, HasBook, HasHead, HasProcesses, Loads};

use crate::jobs::read_jobs;
use crate::queries::{count_of, query};
use crate::refusal::Refusal;
use crate::rows::{head_in, processes_in};
use crate::tables::{make_tables, renew};
use oe_book::is_book;
use oe_jobs::{Book, Owned};
use sqlite::{Alter, Connection, Transaction};
use std::alloc::Global;

const HEAD: &str = "SELECT version, next FROM book WHERE one = 1";

const ORPHANS: &str =
    "SELECT count(*) FROM assets WHERE NOT EXISTS (SELECT 1 FROM jobs WHERE jobs.number = assets.number)";

const PROCESSES: &str = "SELECT owner, id, body FROM processes ORDER BY owner, id";

/// The book that a database has, read in one transaction. A new database gets its tables, and one of version 1 is
/// written anew as version 2.
///
/// Refuses: a transaction that is open already; what the database refuses; a row that is not valid, or a book; out of
/// memory.
pub(crate) fn load<S: Alter>(alloc: Global, conn: &mut Connection<S>) -> Result<Book, Refusal>
    ensures valid { IfOk result (λ b. IsBook (plain_book b)) }
    ensures all { HasCleanDisk (state S.Store conn.new) → IfOk result (λ b. IsMadeBy S.Store
        (Loads S.Store (plain_book b)) conn.old (state S.Store conn.new).committed) }
    ensures none { HasCleanDisk (state S.Store conn.new) → IsTrue (state S.Store conn.new).is_open
        → OnErr result ((state S.Store conn.new).committed ≡ (state S.Store conn.old).committed) }
    ensures crash { Survives (state S.Store conn.old) (state S.Store conn.new)
        (λ trees. (b : _) × AreTreesMadeBy S.Store (Loads S.Store b) conn.old trees) }
    ensures mode { conn.old.in_transaction ≡ false → conn.new.in_transaction ≡ false }
{
    if !conn.is_autocommit() {
        return Err(Refusal::Failed);
    }
    let mut tx = conn.transaction();
    let book = restore(alloc, &mut tx)?;
    tx.commit()?;
    Ok(book)
}

/// The same in a transaction.
fn restore<S: Alter>(alloc: Global, tx: &mut Transaction<'_, S>) -> Result<Book, Refusal>
    ensures same_reference { tx.new.conn.ghost_name ≡ tx.old.conn.ghost_name }
    ensures stays { Stays S.Store tx.old.conn.now tx.new.conn.now }
    ensures valid { IfOk result (λ b. IsBook (plain_book b)) }
    ensures loads { IfOk result (λ b. Inside S.Store tx.old.conn.now tx.new.conn.now
        (Loads S.Store (plain_book b) tx.old.conn.now tx.new.conn.now)) }
{
    make_tables(tx)?;
    let read = read_book(alloc, tx)?;
    let is_valid = is_book(alloc, &read.1)?;
    if !is_valid {
        return Err(Refusal::Failed);
    }
    renew(alloc, tx, read.0, &read.1.jobs)?;
    Ok(read.1)
}

/// The version of the tables, and the book that they have.
fn read_book<S: Alter>(alloc: Global, tx: &mut Transaction<'_, S>) -> Result<(i64, Book), Refusal>
    ensures same_reference { tx.new.conn.ghost_name ≡ tx.old.conn.ghost_name }
    ensures stays { Stays S.Store tx.old.conn.now tx.new.conn.now }
    ensures book { IfOk result (λ r. Inside S.Store tx.old.conn.now tx.new.conn.now
        (HasBook S.Store r.0 (plain_book r.1) tx.old.conn.now tx.new.conn.now)) }
{
    let head = read_head(tx)?;
    let jobs = read_jobs(alloc, tx)?;
    if count_of(tx, ORPHANS)? != 0 {
        return Err(Refusal::Failed);
    }
    let processes = read_processes(alloc, tx)?;
    let book = Book {
        next: head.1,
        jobs,
        processes,
    };
    Ok((head.0, book))
}

/// The version, and the number of the next job or turn.
fn read_head<S: Alter>(tx: &mut Transaction<'_, S>) -> Result<(i64, u64), Refusal>
    ensures same_reference { tx.new.conn.ghost_name ≡ tx.old.conn.ghost_name }
    ensures stays { Stays S.Store tx.old.conn.now tx.new.conn.now }
    ensures head { IfOk result (λ r. Inside S.Store tx.old.conn.now tx.new.conn.now
        (HasHead S.Store r.0 r.1 tx.old.conn.now tx.new.conn.now)) }
{
    let rows = query(tx, HEAD, &[])?;
    let head = head_in(&rows)?;
    Ok(head)
}

/// All stored processes, by their users and ids.
fn read_processes<S: Alter>(
    alloc: Global,
    tx: &mut Transaction<'_, S>,
) -> Result<Vec<Owned>, Refusal>
    ensures same_reference { tx.new.conn.ghost_name ≡ tx.old.conn.ghost_name }
    ensures stays { Stays S.Store tx.old.conn.now tx.new.conn.now }
    ensures processes { IfOk result (λ v. Inside S.Store tx.old.conn.now tx.new.conn.now
        (HasProcesses S.Store (map plain_owned v.items) tx.old.conn.now tx.new.conn.now)) }
{
    let rows = query(tx, PROCESSES, &[])?;
    let processes = processes_in(alloc, &rows)?;
    Ok(processes)
}
