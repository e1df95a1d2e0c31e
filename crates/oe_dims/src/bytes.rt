// Pieces of bytes that are read.
ghost use Rattle.std.specs.Prelude.{◌≡◌, ◌+◌, ◌==◌, ◌≤◌, drop, length};
ghost use Rattle.std.specs.List.{position_or_len};

/// Where the first byte of this value stands, or how many bytes there are where none does.
pub fn index_of_byte(bytes: &[u8], byte: u8) -> usize
    ensures place { result ≡ position_or_len (λ b. b == byte) bytes.now }
    ensures within { result ≤ length bytes.now }
{
    for index in 0..bytes.len() {
        if bytes[index] == byte {
            return index;
        }
    }
    bytes.len()
}

/// What stands behind the byte of an index, nothing where there is no such byte.
#[tactic(auto, using(crate::proofs::ByteLemmas::nothing_behind))]
pub fn bytes_behind(bytes: &[u8], index: usize) -> &[u8]
    ensures { result.now ≡ drop (index + 1) bytes.now }
{
    if index < bytes.len() {
        let (_, rest) = bytes.split_at(index + 1);
        rest
    } else {
        let (_, rest) = bytes.split_at(bytes.len());
        rest
    }
}
