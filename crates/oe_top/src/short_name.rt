// A short name in a place of its own.
ghost use Rattle.std.specs.Prelude.{◌≡◌, ◌≤◌, length};

use oe_dims::Text;
use std::marker::Model;

/// The most bytes of a name.
const MOST: usize = 64;

/// The id of a collection or the name of a file, 64 bytes at most. It takes no memory, so that a position can be
/// named in the midst of a run. Contracts see the bytes.
#[derive(Drop)]
pub struct ShortName {
    bytes: [u8; MOST],
    length: usize,
}

impl Model for ShortName {
    ghost use Rattle.std.specs.Prelude.{◌≤◌, ℕ, List, take};

    ghost Value = { List ℕ };

    ghost view = { λ id. take id.length id.bytes };

    ghost invariant = { λ id. id.length ≤ 64 };
}

impl ShortName {
    /// A copy of a name.
    pub(crate) fn of(name: &Text) -> ShortName
        requires { length name.now ≤ 64 }
        ensures { result ≡ name.now }
    {
        let name = name.as_str().as_bytes();
        let mut bytes = [0; MOST];
        bytes[..name.len()].copy_from_slice(name);
        ShortName {
            bytes,
            length: name.len(),
        }
    }

    /// Its bytes.
    pub(crate) fn as_slice(&self) -> &[u8]
        ensures { result.now ≡ self.now }
    {
        &self.bytes[..self.length]
    }
}
