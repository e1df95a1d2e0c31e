// The records of one chunk.
ghost use Rattle.std.specs.Prelude.{◌≡◌, ◌≤◌, ◌^◌, length, IfErr, IfOk};
ghost use Rattle.oe_outside.specs.Faults.{HasCauseOf};
ghost use Rattle.oe_spool.specs.Spooled.{ChangesOnly};
ghost use Rattle.oe_steps.specs.declared.fail.RunFail.{RunFail};
ghost use Rattle.oe_window.specs.Windows.{Holds, IsIn, position_count, whole_window};
ghost use Rattle.oe_slab.specs.Results.{AreWritten};

use oe_cell::Cell;
use oe_dims::Shape;
use oe_outside::Store;
use oe_spool::{least_over, write_window};
use oe_steps::{RunFail, recall_numbers};
use oe_window::Window;

/// Writes the records of the cells of a chunk of a shape. Answers the least number of a cell that is `Over`.
///
/// Refuses: `SpoolFailed` only where the fault counter of the spool rose.
pub(crate) fn write_chunk<P: Store>(
    shape: &Shape,
    spool: &mut P,
    base: u64,
    chunk: &Window,
    cells: &[Cell],
) -> Result<Option<u64>, RunFail>
    requires base { base ≤ 2 ^ 62 }
    requires within { Holds (whole_window shape.now) chunk.now }
    requires counted { length cells.now ≡ position_count chunk.now }
    ensures written { IfOk result
        (AreWritten shape.now (P.bytes spool.new) base chunk.now cells.now) }
    ensures changes { ChangesOnly base shape.now (IsIn chunk.now) (P.bytes spool.old)
        (P.bytes spool.new) }
    ensures cause { HasCauseOf RunFail.SpoolFailed (P.faults spool.old) (P.faults spool.new)
        result }
    ensures only { IfErr result (λ refusal. refusal ≡ RunFail.SpoolFailed) }
{
    recall_numbers(cells);
    if write_window(spool, base, shape, chunk, cells).is_err() {
        return Err(RunFail::SpoolFailed);
    }
    Ok(least_over(shape, chunk, cells))
}
