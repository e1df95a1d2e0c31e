// A change of the book, in one transaction.
ghost use Rattle.std.specs.Prelude.{◌≡◌, IsTrue, OnOk, OnErr, false};
ghost use Rattle.sqlite.specs.Held.{state};
ghost use Rattle.sqlite.specs.State.{HasCleanDisk, Survives};
ghost use Rattle.oe_jobs.specs.Plain.{plain_change};
ghost use Rattle.oe_database.specs.Each.{AreTreesMadeBy, IsMadeBy};
ghost use Rattle.oe_database.specs.Makes.{Makes};

use crate::make::make;
use crate::refusal::Refusal;
use oe_jobs::Change;
use sqlite::{Alter, Connection};
use std::alloc::Global;

/// Makes a change in one transaction.
///
/// Refuses: a transaction that is open already; what `make` refuses; what the database refuses of the commit.
pub(crate) fn commit<S: Alter>(
    alloc: Global,
    conn: &mut Connection<S>,
    change: &Change,
) -> Result<(), Refusal>
    ensures all { HasCleanDisk (state S.Store conn.new) → OnOk result
        (IsMadeBy S.Store (Makes S.Store (plain_change change.now)) conn.old
        (state S.Store conn.new).committed) }
    ensures none { HasCleanDisk (state S.Store conn.new) → IsTrue (state S.Store conn.new).is_open
        → OnErr result ((state S.Store conn.new).committed ≡ (state S.Store conn.old).committed) }
    ensures crash { Survives (state S.Store conn.old) (state S.Store conn.new)
        (AreTreesMadeBy S.Store (Makes S.Store (plain_change change.now)) conn.old) }
    ensures mode { conn.old.in_transaction ≡ false → conn.new.in_transaction ≡ false }
{
    if !conn.is_autocommit() {
        return Err(Refusal::Failed);
    }
    let mut tx = conn.transaction();
    make(alloc, &mut tx, change)?;
    tx.commit()?;
    Ok(())
}
