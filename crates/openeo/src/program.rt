// What the program does before its command, over any files and streams.
ghost use Rattle.std.specs.Prelude.{◌≡◌, ◌↔◌, ◌⊎◌, IfErr, IfOk, IfSome, IsErrOf, IsNone, IsOkAnd};
ghost use Rattle.oe_adapters.specs.declared.fault.Fault.TheVariants as variant;
ghost use Rattle.oe_outside.specs.Faults.{HasCause, HasCauseOf};
ghost use Rattle.oe_outside.specs.Stream.{error_output};
ghost use Rattle.openeo.specs.Ends.{AsksForText, EndsByFault, IsSinkSame, IsStartFault};

use crate::help::text_of;
use oe_adapters::{Fault, collection_files, hold_standard};
use oe_dims::Text;
use oe_outside::Sink;
use std::alloc::Global;
use std::fs::Files;

/// What a command starts from: its words, the names of the files to mount, and three files that stand in for
/// standard streams that are closed.
#[derive(Drop)]
pub struct Start<F> {
    pub words: Vec<Text>,
    pub names: Vec<Vec<u8>>,
    _standard: [F; 3],
}

/// Prints the text that the words ask for, and answers `None`; else looks for what a command works on, and leaves the
/// output as it was.
///
/// Refuses: as the words were; as [`hold_standard`] and [`collection_files`] do; `Write` only where the output failed.
pub fn set_up<R: Files, O: Sink>(
    alloc: Global,
    files: &R,
    words: Result<Vec<Text>, Fault>,
    out: &mut O,
) -> Result<Option<Start<R::File>>, Fault>
    ensures asked { IfOk words (λ w. IfOk result (λ start. IsNone start ↔ AsksForText w.items)) }
    ensures words { IfOk words (λ w. IfOk result (λ start. IfSome start (λ s.
        s.words.items ≡ w.items))) }
    ensures left { IsOkAnd words (λ w. AsksForText w.items)
        ⊎ IsSinkSame O.written O.faults out.old out.new }
    ensures refused { IfErr words (λ fault. IsErrOf result fault) }
    ensures cause { IfOk words (λ w. HasCauseOf variant.Write (O.faults out.old)
        (O.faults out.new) result) }
    ensures why { IfOk words (λ w. IfErr result (IsStartFault w.items)) }
{
    let words = words?;
    if let Some(text) = text_of(&words) {
        print(text, out)?;
        return Ok(None);
    }
    let standard = hold_standard(alloc, files)?;
    let names = collection_files(alloc, files)?;
    Ok(Some(Start {
        words,
        names,
        _standard: standard,
    }))
}

/// Says why the program ended, and answers its exit status.
pub fn end<E: Sink>(fault: &Fault, err: &mut E) -> u8
    ensures { EndsByFault fault.now result (error_output E.written E.faults err.old err.new) }
{
    // Where the line can't be written, the status alone tells.
    let _ = err.write(fault.line());
    fault.status()
}

/// Prints a text about the program.
///
/// Refuses: `Write` only where the output failed.
fn print<O: Sink>(text: &str, out: &mut O) -> Result<(), Fault>
    ensures cause { HasCause (O.faults out.old) (O.faults out.new) result }
    ensures write { IfErr result (λ fault. fault ≡ variant.Write) }
{
    match out.write(text.as_bytes()) {
        Ok(()) => Ok(()),
        Err(_) => Err(Fault::Write),
    }
}
