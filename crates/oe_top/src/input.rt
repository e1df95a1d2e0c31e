// The input of a command.
ghost use Rattle.std.specs.Prelude.{◌+◌, IfOk};
ghost use Rattle.oe_outside.specs.Faults.{HasCauseOf};
ghost use Rattle.oe_outside.specs.Input.{ReadsUpTo, TakesAtMost};
ghost use Rattle.oe_graph.specs.Form.{most_input};

use oe_outside::{ReadRefusal, Source, read_up_to};
use std::alloc::Global;

/// The most bytes that an input may have.
const MOST_INPUT: usize = 1048576;

/// The whole input, or its front up to one byte past the limit.
pub(crate) fn read_input<I: Source>(alloc: Global, input: &mut I) -> Result<Vec<u8>, ReadRefusal>
    ensures read { IfOk result (λ bytes. ReadsUpTo most_input (I.left input.old) bytes.items
        (I.left input.new)) }
    ensures bounded { TakesAtMost (I.left input.old) (most_input + 1) (I.left input.new) }
    ensures cause { HasCauseOf ReadRefusal.Failed (I.faults input.old)
        (I.faults input.new) result }
{
    read_up_to(alloc, input, MOST_INPUT)
}
