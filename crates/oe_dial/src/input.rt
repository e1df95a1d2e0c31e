// The input of a call.
ghost use Rattle.std.specs.Prelude.{◌≡◌, ◌+◌, ◌<◌, ◌≤◌, length, IfErr, IfOk};
ghost use Rattle.oe_dial.specs.Ends.{IsInputRefused, TakesInput, input_from};
ghost use Rattle.oe_http.specs.Requests.{most_body};
ghost use Rattle.oe_outside.specs.Faults.{NeverFalls};
ghost use Rattle.oe_outside.specs.Input.{TakesAtMost};

use crate::refusal::CallRefusal;
use oe_outside::{ReadRefusal, Source, read_up_to};
use std::alloc::Global;

/// The most bytes that an input may have.
const MOST_INPUT: usize = 1048576;

/// The whole input where the verb sends it, and else no byte, with the input left alone.
pub(crate) fn read_input<I: Source>(
    alloc: Global,
    sends_input: bool,
    input: &mut I,
) -> Result<Vec<u8>, CallRefusal>
    ensures taken { IfOk result
        (λ bytes. TakesInput sends_input (input_from (I.left input.old) (I.faults input.old)
        (I.left input.new) (I.faults input.new)) bytes.items) }
    ensures short { IfOk result (λ bytes. length bytes.items ≤ most_body) }
    ensures refused { IfErr result (IsInputRefused sends_input (input_from (I.left input.old)
        (I.faults input.old) (I.left input.new) (I.faults input.new))) }
    ensures bounded { TakesAtMost (I.left input.old) (most_body + 1) (I.left input.new) }
    ensures count { NeverFalls (I.faults input.old) (I.faults input.new) }
{
    if !sends_input {
        return Ok(Vec::new(alloc));
    }
    match read_up_to(alloc, input, MOST_INPUT) {
        Ok(bytes) => within_limit(bytes),
        Err(ReadRefusal::Failed) => Err(CallRefusal::ReadFault),
        Err(ReadRefusal::OutOfMemory) => Err(CallRefusal::OutOfMemory),
    }
}

/// The bytes, where they are not too many.
fn within_limit(bytes: Vec<u8>) -> Result<Vec<u8>, CallRefusal>
    ensures whole { IfOk result (λ kept. (kept ≡ bytes) × (length bytes.items ≤ most_body)) }
    ensures long { IfErr result
        (λ e. (e ≡ CallRefusal.InputTooLong) × (most_body < length bytes.items)) }
{
    if bytes.len() > MOST_INPUT {
        return Err(CallRefusal::InputTooLong);
    }
    Ok(bytes)
}
