// The words that the program was called with.
ghost use Rattle.std.specs.Prelude.{◌≡◌, IfErr};
ghost use Rattle.oe_adapters.specs.declared.fault.Fault.TheVariants as variant;

use crate::fault::Fault;
use oe_dims::Text;
use std::alloc::Global;
use std::env::Args;
use std::io::{ErrorKind, Result as IoResult};

/// The words after the program's name, of the arguments that the system gives. Where one of them is not UTF-8 they are
/// the empty word, which no command has.
///
/// Refuses: out of memory.
pub fn words_of(alloc: Global, args: IoResult<Args>) -> Result<Vec<Text>, Fault>
    ensures { IfErr result (λ fault. fault ≡ variant.OutOfMemory) }
{
    let mut words = Vec::new(alloc);
    match args {
        Ok(args) => {
            for word in args.skip(1) {
                push(&mut words, Text::of(alloc, word.as_str())?)?;
            }
        }
        Err(error) => {
            if error.kind() == ErrorKind::OutOfMemory {
                return Err(Fault::OutOfMemory);
            }
            push(&mut words, Text::of(alloc, "")?)?;
        }
    }
    Ok(words)
}

fn push(words: &mut Vec<Text>, word: Text) -> Result<(), Fault>
    ensures { IfErr result (λ fault. fault ≡ variant.OutOfMemory) }
{
    match words.push(word) {
        Ok(()) => Ok(()),
        Err(_) => Err(Fault::OutOfMemory),
    }
}
