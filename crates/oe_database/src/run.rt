// Statements in a transaction.
ghost use Rattle.std.specs.Prelude.{◌≡◌, IsTrue, map};
ghost use Rattle.sqlite.specs.Held.{state};
ghost use Rattle.sqlite.specs.State.{HasCleanDisk, KeepsCommit, Survives};
ghost use Rattle.oe_database.specs.Each.{RanEach, plain_statement};
ghost use Rattle.oe_database.specs.Inside.{OnOkInside};

use crate::statement::Statement;
use sqlite::{Alter, Error, Transaction};

/// Runs the statements in turn, up to the first that is refused.
///
/// Refuses: what the database refuses of that statement; out of memory.
pub(crate) fn run_each<S: Alter>(
    tx: &mut Transaction<'_, S>,
    statements: &[Statement<'_>],
) -> Result<(), Error>
    ensures same_reference { tx.new.conn.ghost_name ≡ tx.old.conn.ghost_name }
    ensures ran { OnOkInside S.Store tx.old.conn.now tx.new.conn.now result
        (RanEach S.Store (map plain_statement statements.now) tx.old.conn.now tx.new.conn.now) }
    ensures kept { HasCleanDisk (state S.Store tx.new.conn.now)
        → IsTrue (state S.Store tx.old.conn.now).in_transaction
        → KeepsCommit (state S.Store tx.old.conn.now) (state S.Store tx.new.conn.now) }
    ensures survives { Survives (state S.Store tx.old.conn.now)
        (state S.Store tx.new.conn.now) (λ _. ⊥) }
{
    for statement in statements {
        tx.execute(statement.text, &statement.parameters)?;
    }
    Ok(())
}
