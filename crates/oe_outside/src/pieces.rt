// Bytes that are handed over in pieces.
ghost use Rattle.std.specs.Prelude.{◌≡◌, ◌≤◌, ◌-◌, ◌++◌, ◌+◌, take, drop, length, min, replicate, vec_len, vec_capacity};
ghost use Rattle.oe_outside.specs.Stored.{with_piece};

/// Copies the first bytes into the front of the buffer, as many as there are, up to the room, and answers how many.
pub(crate) fn give(bytes: &[u8], room: usize, into: &mut [u8]) -> usize
    requires { room ≤ length into.old }
    ensures count { result ≡ min room (length bytes.now) }
    ensures buffer { into.new ≡ take result bytes.now ++ drop result into.old }
{
    let count = room.min(bytes.len());
    into[..count].copy_from_slice(&bytes[..count]);
    count
}

/// Appends the piece as far as the capacity goes, and answers how many bytes it took. It takes no memory.
pub(crate) fn append(bytes: &mut Vec<u8>, capacity: usize, piece: &[u8]) -> usize
    requires within { vec_len bytes.old ≤ capacity }
    requires room { capacity ≤ vec_capacity bytes.old }
    ensures count { result ≡ min (capacity - vec_len bytes.old) (length piece.now) }
    ensures items { bytes.new.items ≡ bytes.old.items ++ take result piece.now }
    ensures room { capacity ≤ vec_capacity bytes.new }
{
    let count = piece.len().min(capacity - bytes.len());
    bytes.extend_from_slice(&piece[..count]).unwrap();
    count
}

/// Fills up with zeros to a length.
fn pad(bytes: &mut Vec<u8>, len: usize)
    requires { len ≤ vec_capacity bytes.old }
    ensures items { bytes.new.items ≡ bytes.old.items ++ replicate (len - vec_len bytes.old) 0 }
    ensures room { vec_capacity bytes.old ≤ vec_capacity bytes.new }
{
    if bytes.len() < len {
        bytes.resize(len, 0).unwrap();
    }
}

/// Writes the piece over what stands at the offset, and behind the end.
fn overwrite(bytes: &mut Vec<u8>, at: usize, piece: &[u8])
    requires within { at ≤ vec_len bytes.old }
    requires room { at + length piece.now ≤ vec_capacity bytes.old }
    ensures items { bytes.new.items
        ≡ take at bytes.old.items ++ piece.now ++ drop (at + length piece.now) bytes.old.items }
    ensures room { vec_capacity bytes.old ≤ vec_capacity bytes.new }
{
    let over = piece.len().min(bytes.len() - at);
    bytes[at..at + over].copy_from_slice(&piece[..over]);
    bytes.extend_from_slice(&piece[over..]).unwrap();
}

/// Puts the piece at the offset, behind zeros where the bytes end before it. It takes no memory.
pub(crate) fn put(bytes: &mut Vec<u8>, at: usize, piece: &[u8])
    requires { at + length piece.now ≤ vec_capacity bytes.old }
    ensures items { bytes.new.items ≡ with_piece bytes.old.items at piece.now }
    ensures room { vec_capacity bytes.old ≤ vec_capacity bytes.new }
{
    pad(bytes, at);
    overwrite(bytes, at, piece);
}
