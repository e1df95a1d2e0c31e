// Reading a whole source, up to a limit.
ghost use Rattle.std.specs.Prelude.{◌≡◌, ◌+◌, ◌-◌, ◌^◌, ◌<◌, ◌≤◌, length, IfOk, vec_len};
ghost use Rattle.oe_outside.specs.Faults.{HasCauseOf};
ghost use Rattle.oe_outside.specs.Input.{ReadsUpTo, ReadsMore, TakesAtMost};
ghost use Rattle.oe_outside.specs.declared.input.ReadRefusal.TheVariants as variant;

use crate::Source;
use std::alloc::{AllocError, Global};
use std::error::Error;
use std::fmt;

/// How many bytes are asked for at once.
const PIECE: usize = 65536;

/// Why a whole source was not read.
#[derive(Clone, Copy, Debug, PartialEq, Eq)]
pub enum ReadRefusal {
    /// A read failed, and the source's fault counter rose.
    Failed,
    /// An allocation was refused.
    OutOfMemory,
}

impl fmt::Display for ReadRefusal {
    fn fmt<W: fmt::Write>(&self, f: &mut fmt::Formatter<W>) -> fmt::Result {
        match self {
            ReadRefusal::Failed => f.write_str("a read failed"),
            ReadRefusal::OutOfMemory => f.write_str("out of memory"),
        }
    }
}

impl Error for ReadRefusal {}

impl From<AllocError> for ReadRefusal {
    ghost from_gives = { λ _ e. e ≡ variant.OutOfMemory };

    fn from(_error: AllocError) -> ReadRefusal {
        ReadRefusal::OutOfMemory
    }
}

/// The bytes of a source, all of them where they are no more than the limit, and one more than the limit where they
/// are.
///
/// Refuses: `Failed` only where the source's fault counter rose; `OutOfMemory` where an allocation was refused. Either
/// way no more was taken from the source than one byte over the limit.
pub fn read_up_to<S: Source>(
    alloc: Global,
    source: &mut S,
    limit: usize,
) -> Result<Vec<u8>, ReadRefusal>
    requires { limit < 2 ^ 63 }
    ensures read { IfOk result
        (λ bytes. ReadsUpTo limit (S.left source.old) bytes.items (S.left source.new)) }
    ensures bounded { TakesAtMost (S.left source.old) (limit + 1) (S.left source.new) }
    ensures cause { HasCauseOf ReadRefusal.Failed (S.faults source.old)
        (S.faults source.new) result }
{
    let mut bytes = Vec::new(alloc);
    let mut piece = vec![in alloc; 0; PIECE]?;
    while bytes.len() <= limit {
        match read_more(source, piece.as_mut_slice(), &mut bytes, limit) {
            Ok(0) => return Ok(bytes),
            Ok(_) => {}
            Err(refusal) => return Err(refusal),
        }
    }
    Ok(bytes)
}

/// Appends what one read gives, and answers how many bytes that were.
fn read_more<S: Source>(
    source: &mut S,
    piece: &mut [u8],
    bytes: &mut Vec<u8>,
    limit: usize,
) -> Result<usize, ReadRefusal>
    requires some { 0 < length piece.old }
    requires room { vec_len bytes.old ≤ limit }
    requires small { limit < 2 ^ 63 }
    ensures read { IfOk result
        (λ n. ReadsMore limit (S.left source.old) n bytes.old.items bytes.new.items
        (S.left source.new)) }
    ensures bounded { TakesAtMost (S.left source.old) (limit + 1 - vec_len bytes.old)
        (S.left source.new) }
    ensures cause { HasCauseOf ReadRefusal.Failed (S.faults source.old)
        (S.faults source.new) result }
{
    let room = piece.len().min(limit + 1 - bytes.len());
    let Ok(count) = source.read(&mut piece[..room]) else {
        return Err(ReadRefusal::Failed);
    };
    bytes.extend_from_slice(&piece[..count])?;
    Ok(count)
}
