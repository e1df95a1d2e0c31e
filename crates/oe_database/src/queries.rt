// Queries in a transaction.
ghost use Rattle.std.specs.Prelude.{◌≡◌, IfOk};
ghost use Rattle.sqlite.specs.Held.{state};
ghost use Rattle.sqlite.specs.State.{Shown};
ghost use Rattle.sqlite.specs.Values.{bound};
ghost use Rattle.oe_database.specs.Inside.{Inside, Stays};
ghost use Rattle.oe_database.specs.Loads.{Counts};

use crate::refusal::Refusal;
use crate::rows::count_in;
use sqlite::types::ValueRef;
use sqlite::{Alter, Row, Transaction};

/// All rows that a query shows. Refuses: what the database refuses; out of memory.
pub(crate) fn query<S: Alter>(
    tx: &mut Transaction<'_, S>,
    text: &'static str,
    parameters: &[ValueRef<'_>],
) -> Result<Vec<Row>, Refusal>
    ensures same_reference { tx.new.conn.ghost_name ≡ tx.old.conn.ghost_name }
    ensures stays { Stays S.Store tx.old.conn.now tx.new.conn.now }
    ensures shown { IfOk result (λ rows. Inside S.Store tx.old.conn.now tx.new.conn.now
        (Shown text.now (bound parameters.now) (state S.Store tx.old.conn.now)
        (state S.Store tx.new.conn.now) rows.items)) }
{
    let rows = tx.query_all(text, parameters)?;
    Ok(rows)
}

/// The number that a query shows in one row. Refuses: what `query` refuses, and other rows.
pub(crate) fn count_of<S: Alter>(
    tx: &mut Transaction<'_, S>,
    text: &'static str,
) -> Result<i64, Refusal>
    ensures same_reference { tx.new.conn.ghost_name ≡ tx.old.conn.ghost_name }
    ensures stays { Stays S.Store tx.old.conn.now tx.new.conn.now }
    ensures count { IfOk result (λ n. Inside S.Store tx.old.conn.now tx.new.conn.now
        (Counts S.Store text.now n tx.old.conn.now tx.new.conn.now)) }
{
    let rows = query(tx, text, &[])?;
    let count = count_in(&rows)?;
    Ok(count)
}
