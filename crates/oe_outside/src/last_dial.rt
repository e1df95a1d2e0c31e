// Where a door dialled last.
ghost use Rattle.std.specs.Prelude.{◌≡◌, ◌≤◌, Some, None, length};

use std::marker::Model;

/// The most bytes that the name of a host has.
pub(crate) const HOST_LIMIT: usize = 253;

/// The host and the port of the last `dial`, if there was one.
#[derive(Drop)]
pub(crate) struct LastDial {
    host: [u8; HOST_LIMIT],
    host_len: usize,
    port: u16,
}

impl Model for LastDial {
    ghost use Rattle.std.specs.Prelude.{◌≡◌, ◌≤◌, ◌==◌, ℕ, List, Option, Some, None, take, length, if◌then◌else◌};

    ghost Value = { Option (List ℕ × ℕ) };

    ghost view = { λ d. if d.host_len == 0 then None else Some (take d.host_len d.host, d.port) };

    ghost invariant = { λ d. (d.host_len ≤ 253) × (length d.host ≡ 253) };
}

impl LastDial {
    /// None yet.
    pub(crate) fn none() -> LastDial
        ensures { result ≡ None }
    {
        LastDial {
            host: [0; HOST_LIMIT],
            host_len: 0,
            port: 0,
        }
    }

    /// Keeps a host and a port.
    pub(crate) fn keep(&mut self, host: &str, port: u16)
        requires named { 1 ≤ length host.now }
        requires short { length host.now ≤ 253 }
        ensures { self.new ≡ Some (host.now, port) }
    {
        let name = host.as_bytes();
        self.host[..name.len()].copy_from_slice(name);
        self.host_len = name.len();
        self.port = port;
    }
}
