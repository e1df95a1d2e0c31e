// The keeper over a database.
ghost use Rattle.std.specs.Prelude.{◌≡◌, ◌↔◌, IfOk, IsErrOf, IsTrue, None, OnErr, OnOk, false};
ghost use Rattle.sqlite.specs.Held.{state};
ghost use Rattle.sqlite.specs.State.{HasCleanDisk, Survives};
ghost use Rattle.oe_outside.specs.Faults.{HasCauseOf, NeverFalls, Rose, count_after};
ghost use Rattle.oe_jobs.specs.Plain.{plain_book, plain_change};
ghost use Rattle.oe_jobs.specs.Valid.{IsBook};
ghost use Rattle.oe_database.specs.Each.{AreTreesMadeBy, IsMadeBy};
ghost use Rattle.oe_database.specs.Loads.{Loads};
ghost use Rattle.oe_database.specs.Makes.{Makes};

use crate::commit::commit;
use crate::load::load;
use crate::refusal::Refusal;
use oe_jobs::{Book, Change, Keeper, KeeperFail};
use sqlite::{Alter, Connection};
use std::alloc::Global;

/// A keeper of a job book over a database. Its book is not visible.
pub struct SqliteKeeper<S: Alter> {
    conn: Connection<S>,
    alloc: Global,
    faults: u64,
    has_failed: bool,
}

/// Written out, so that a keeper that ends is one call wherever it does.
impl<S: Alter + Drop> Drop for SqliteKeeper<S> {
    fn drop(self) {
        let SqliteKeeper {
            conn: _,
            alloc: _,
            faults: _,
            has_failed: _,
        } = self;
    }
}

impl<S: Alter> SqliteKeeper<S> {
    /// A keeper over an open database, which is not looked at before the first call.
    pub fn new(alloc: Global, conn: Connection<S>) -> SqliteKeeper<S>
        ensures conn { result.conn ≡ conn }
        ensures faults { result.faults ≡ 0 }
        ensures last { ¬ IsTrue result.has_failed }
    {
        SqliteKeeper {
            conn,
            alloc,
            faults: 0,
            has_failed: false,
        }
    }

    /// How often a call has failed.
    pub fn faults(&self) -> u64
        ensures { result ≡ self.now.faults }
    {
        self.faults
    }

    /// Ends keeping, and gives the connection back, so that its files can be closed.
    pub fn into_connection(self) -> Connection<S>
        ensures { result ≡ self.conn }
    {
        let SqliteKeeper {
            conn,
            alloc: _,
            faults: _,
            has_failed: _,
        } = self;
        conn
    }

    /// What a call that was refused answers, counted where it failed.
    fn count(&mut self, refusal: Refusal) -> KeeperFail
        ensures conn { self.new.conn ≡ self.old.conn }
        ensures counted { self.new.faults ≡ count_after self.old.faults self.new.has_failed }
        ensures count { NeverFalls self.old.faults self.new.faults }
        ensures failed { result ≡ KeeperFail.Failed → Rose self.old.faults self.new.faults }
        ensures last { IsTrue self.new.has_failed ↔ result ≡ KeeperFail.Failed }
    {
        match refusal {
            Refusal::OutOfMemory => {
                self.has_failed = false;
                KeeperFail::OutOfMemory
            }
            Refusal::Failed => {
                self.has_failed = true;
                self.faults = self.faults.saturating_add(1);
                KeeperFail::Failed
            }
        }
    }
}

impl<S: Alter> Keeper for SqliteKeeper<S> {
    ghost kept = { λ k. None };

    ghost faults = { λ k. k.faults };

    ghost has_failed = { λ k. k.has_failed };

    /// The book of the database, read in one transaction. A new database gets its tables, and one of version 1 is
    /// written anew as version 2. Over a disk that gives back what was written, an Ok has the book that the rows of the
    /// queries are, and leaves the database that the statements of this make; a refusal leaves the one before, where
    /// the connection is still open; and a crash in the call leaves one of the two.
    ///
    /// Refuses: `Failed` where the database refuses, or a row or the book is not valid; out of memory.
    fn load(&mut self) -> Result<Book, KeeperFail>
        ensures valid { IfOk result (λ b. IsBook (plain_book b)) }
        ensures all { HasCleanDisk (state S.Store self.new.conn) → IfOk result (λ b. IsMadeBy S.Store
            (Loads S.Store (plain_book b)) self.old.conn (state S.Store self.new.conn).committed) }
        ensures none { HasCleanDisk (state S.Store self.new.conn)
            → IsTrue (state S.Store self.new.conn).is_open → OnErr result
            ((state S.Store self.new.conn).committed ≡ (state S.Store self.old.conn).committed) }
        ensures crash { Survives (state S.Store self.old.conn) (state S.Store self.new.conn)
            (λ trees. (b : _) × AreTreesMadeBy S.Store (Loads S.Store b) self.old.conn trees) }
        ensures mode { self.old.conn.in_transaction ≡ false → self.new.conn.in_transaction ≡ false }
        ensures counted { self.new.faults ≡ count_after self.old.faults self.new.has_failed }
        ensures cause { HasCauseOf KeeperFail.Failed self.old.faults self.new.faults result }
        ensures last { IsTrue self.new.has_failed ↔ IsErrOf result KeeperFail.Failed }
    {
        match load(self.alloc, &mut self.conn) {
            Ok(book) => {
                self.has_failed = false;
                Ok(book)
            }
            Err(refusal) => Err(self.count(refusal)),
        }
    }

    /// Runs the statements of the change in one transaction. Over a disk that gives back what was written, an Ok leaves
    /// the database that they make in turn, and a refusal the one before, where the connection is still open; and a
    /// crash in the call leaves one of the two. What a statement makes of the tables is SQL's to say, and no clause
    /// follows it.
    ///
    /// Refuses: `Failed` where the database refuses, where the entry of a job that gets an asset is not valid, or where
    /// a job has an id without a number, which none of a valid book has; out of memory. That it fails nowhere else is
    /// of no clause, which says only that the failure was counted.
    fn commit(&mut self, change: &Change) -> Result<(), KeeperFail>
        ensures all { HasCleanDisk (state S.Store self.new.conn) → OnOk result
            (IsMadeBy S.Store (Makes S.Store (plain_change change.now)) self.old.conn
            (state S.Store self.new.conn).committed) }
        ensures none { HasCleanDisk (state S.Store self.new.conn)
            → IsTrue (state S.Store self.new.conn).is_open → OnErr result
            ((state S.Store self.new.conn).committed ≡ (state S.Store self.old.conn).committed) }
        ensures crash { Survives (state S.Store self.old.conn) (state S.Store self.new.conn)
            (AreTreesMadeBy S.Store (Makes S.Store (plain_change change.now)) self.old.conn) }
        ensures mode { self.old.conn.in_transaction ≡ false → self.new.conn.in_transaction ≡ false }
        ensures counted { self.new.faults ≡ count_after self.old.faults self.new.has_failed }
        ensures cause { HasCauseOf KeeperFail.Failed self.old.faults self.new.faults result }
        ensures last { IsTrue self.new.has_failed ↔ IsErrOf result KeeperFail.Failed }
    {
        match commit(self.alloc, &mut self.conn, change) {
            Ok(()) => {
                self.has_failed = false;
                Ok(())
            }
            Err(refusal) => Err(self.count(refusal)),
        }
    }
}
