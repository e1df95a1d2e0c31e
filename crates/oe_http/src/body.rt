// The body of a message.
ghost use Rattle.std.specs.Prelude.{◌≡◌, ◌<◌, ◌≤◌, ◌^◌, length, take, vec_len, IfOk, OnOk};
ghost use Rattle.oe_outside.specs.Faults.{HasCauseOf};
ghost use Rattle.oe_outside.specs.Input.{TakesAtMost};
ghost use Rattle.oe_http.specs.Reading.{ReadsBody};

use crate::front::read_more;
use oe_outside::{Link, ReadRefusal};
use std::alloc::Global;

/// The first `number` bytes of those held and those left, or all where there are fewer.
pub(crate) fn read_body<L: Link>(
    alloc: Global,
    link: &mut L,
    piece: &mut [u8],
    held: &[u8],
    number: usize,
) -> Result<Vec<u8>, ReadRefusal>
    requires some { 0 < length piece.old }
    requires small { number < 2 ^ 63 }
    ensures read { IfOk result
        (λ body. ReadsBody number (L.left link.old) (take number held.now) body.items
        (L.left link.new)) }
    ensures taken { TakesAtMost (L.left link.old) number (L.left link.new) }
    ensures same { L.written link.new ≡ L.written link.old }
    ensures cause { HasCauseOf ReadRefusal.Failed (L.faults link.old) (L.faults link.new) result }
{
    let mut body = Vec::new(alloc);
    body.extend_from_slice(&held[..held.len().min(number)])?;
    read_rest(link, piece, &mut body, number)?;
    Ok(body)
}

/// Reads behind the bytes of a body, up to `number` bytes in all.
fn read_rest<L: Link>(
    link: &mut L,
    piece: &mut [u8],
    body: &mut Vec<u8>,
    number: usize,
) -> Result<(), ReadRefusal>
    requires some { 0 < length piece.old }
    requires small { number < 2 ^ 63 }
    requires room { vec_len body.old ≤ number }
    ensures read { OnOk result
        (ReadsBody number (L.left link.old) body.old.items body.new.items (L.left link.new)) }
    ensures taken { TakesAtMost (L.left link.old) number (L.left link.new) }
    ensures same { L.written link.new ≡ L.written link.old }
    ensures cause { HasCauseOf ReadRefusal.Failed (L.faults link.old) (L.faults link.new) result }
{
    while body.len() < number {
        let count = read_more(link, piece, body, number)?;
        if count == 0 {
            return Ok(());
        }
    }
    Ok(())
}
