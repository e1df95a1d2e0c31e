// The front of what a link gives, read in any pieces up to its first CR LF CR LF.
ghost use Rattle.std.specs.Prelude.{◌≡◌, ◌↔◌, ◌-◌, ◌<◌, ◌≤◌, ◌^◌, [], length, vec_len, IsTrue, IfOk, MatchOption};
ghost use Rattle.oe_outside.specs.Faults.{HasCauseOf};
ghost use Rattle.oe_outside.specs.Input.{TakesAtMost};
ghost use Rattle.oe_http.specs.Front.{EndsAt, EndsNowhere, HasNoHead, IsHeadEnd, line_ends, most_head};
ghost use Rattle.oe_http.specs.Reading.{ReadsMore, ReadsFront};

use oe_outside::{Link, ReadRefusal};

/// Most bytes of a head.
pub(crate) const MOST_HEAD: usize = 16384;

/// How many bytes are asked of a link at once.
pub(crate) const PIECE: usize = 16384;

const CARRIAGE_RETURN: u8 = 13;

const LINE_FEED: u8 = 10;

/// Reads the front of a link behind no bytes, and answers where the head ends in it.
pub(crate) fn read_front<L: Link>(
    link: &mut L,
    piece: &mut [u8],
    bytes: &mut Vec<u8>,
) -> Result<Option<usize>, ReadRefusal>
    requires some { 0 < length piece.old }
    requires none { bytes.old.items ≡ [] }
    ensures read { IfOk result
        (λ end. ReadsFront (L.left link.old) bytes.new.items end (L.left link.new)) }
    ensures taken { TakesAtMost (L.left link.old) most_head (L.left link.new) }
    ensures same { L.written link.new ≡ L.written link.old }
    ensures cause { HasCauseOf ReadRefusal.Failed (L.faults link.old) (L.faults link.new) result }
{
    while bytes.len() < MOST_HEAD {
        let from = bytes.len();
        let count = read_more(link, piece, bytes, MOST_HEAD)?;
        if count == 0 {
            return Ok(None);
        }
        if let Some(end) = head_end(bytes, from) {
            return Ok(Some(end));
        }
    }
    Ok(None)
}

/// Appends what one read gives, up to `limit` bytes in all, and answers how many bytes that were.
pub(crate) fn read_more<L: Link>(
    link: &mut L,
    piece: &mut [u8],
    bytes: &mut Vec<u8>,
    limit: usize,
) -> Result<usize, ReadRefusal>
    requires some { 0 < length piece.old }
    requires room { vec_len bytes.old < limit }
    requires small { limit < 2 ^ 63 }
    ensures read { IfOk result
        (λ n. ReadsMore limit (L.left link.old) n bytes.old.items bytes.new.items
        (L.left link.new)) }
    ensures taken { TakesAtMost (L.left link.old) (limit - vec_len bytes.old) (L.left link.new) }
    ensures same { L.written link.new ≡ L.written link.old }
    ensures cause { HasCauseOf ReadRefusal.Failed (L.faults link.old) (L.faults link.new) result }
{
    let room = piece.len().min(limit - bytes.len());
    let Ok(count) = link.read(&mut piece[..room]) else {
        return Err(ReadRefusal::Failed);
    };
    bytes.extend_from_slice(&piece[..count])?;
    Ok(count)
}

/// Where the first CR LF CR LF ends, which is behind the first `from` bytes.
fn head_end(bytes: &[u8], from: usize) -> Option<usize>
    requires nowhere { EndsNowhere bytes.now from }
    ensures { MatchOption result (HasNoHead bytes.now) (λ n. IsHeadEnd bytes.now n) }
{
    for at in from..bytes.len() {
        if ends_at(bytes, at + 1) {
            return Some(at + 1);
        }
    }
    None
}

/// Whether CR LF CR LF are the last of the first `end` bytes.
fn ends_at(bytes: &[u8], end: usize) -> bool
    requires { end ≤ length bytes.now }
    ensures { IsTrue result ↔ EndsAt bytes.now end }
{
    end >= 4
        && bytes[end - 1] == LINE_FEED
        && bytes[end - 2] == CARRIAGE_RETURN
        && bytes[end - 3] == LINE_FEED
        && bytes[end - 4] == CARRIAGE_RETURN
}

/// How often CR LF stands in the bytes.
pub(crate) fn line_ends(bytes: &[u8]) -> usize
    ensures { result ≡ line_ends bytes.now }
{
    let mut count = 0;
    let mut behind = 0;
    for byte in bytes {
        if behind == CARRIAGE_RETURN && *byte == LINE_FEED {
            count += 1;
        }
        behind = *byte;
    }
    count
}
