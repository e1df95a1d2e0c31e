// A network in memory as the system's, and what a door writes of its connections.
ghost use Rattle.std.specs.Prelude.{None};

use crate::network::Network as Memory;
use oe_outside::{Failed, Sink};
use oe_sockets::Network;
use std::io::{Read, Result as IoResult, Write};
use std::net::{OpenStream, Shutdown, SocketAddr};
use std::time::{Clock, Duration};

/// The system over a network in memory.
#[derive(Clone, Copy)]
pub(crate) struct System {
    network: &'static Memory,
}

impl System {
    pub(crate) fn new(network: &'static Memory) -> System {
        System { network }
    }
}

impl Clock for System {
    fn monotonic(&self) -> IoResult<Duration> {
        Ok(self.network.time())
    }

    /// A clock whose seconds are the numbers of the answers.
    fn since_1970(&self) -> IoResult<Duration> {
        Ok(Duration::from_secs(self.network.answer()? as u64))
    }
}

impl Network for System {
    type Listener = Listener;

    type Stream = Stream;

    fn bind(&self, port: u16) -> IoResult<Listener> {
        self.network.print("bind");
        self.network.print_number(port as u64);
        self.network.answer()?;
        Ok(Listener)
    }

    fn accept(&self, _listener: &Listener, waits: bool) -> IoResult<Stream> {
        self.network.print(if waits { "wait" } else { "look" });
        self.network.answer()?;
        Ok(Stream {
            network: self.network,
        })
    }

    /// As many addresses as the answer says.
    fn lookup(&self, host: &str, port: u16, found: &mut [SocketAddr]) -> IoResult<usize> {
        self.network.print("lookup");
        self.network.print(host);
        self.network.print_number(port as u64);
        let count = self.network.answer()?;
        Ok(count.min(found.len()))
    }

    fn connect(&self, address: SocketAddr, limit: Duration) -> IoResult<Stream> {
        self.network.print("connect");
        self.network.print_number(address.port() as u64);
        self.network.print_number(limit.as_secs());
        self.network.answer()?;
        Ok(Stream {
            network: self.network,
        })
    }
}

/// A port that takes connections.
#[derive(Drop)]
pub(crate) struct Listener;

pub(crate) struct Stream {
    network: &'static Memory,
}

impl Stream {
    fn print_limit(&self, word: &str, limit: Option<Duration>) {
        self.network.print(word);
        if let Some(limit) = limit {
            let whole = limit.as_secs().saturating_mul(1000);
            self.network
                .print_number(whole.saturating_add(limit.subsec_millis() as u64));
        }
    }
}

impl Drop for Stream {
    fn drop(self) {
        let Self { network } = self;
        network.print("close");
    }
}

impl OpenStream for Stream {
    fn shutdown(&self, how: Shutdown) -> IoResult<()> {
        self.network.print(match how {
            Shutdown::Write => "shutdown",
            _ => "shutdown-reads",
        });
        self.network.answer()?;
        Ok(())
    }

    fn set_nonblocking(&self, nonblocking: bool) -> IoResult<()> {
        self.network
            .print(if nonblocking { "drains" } else { "waits" });
        Ok(())
    }

    fn peek(&self, into: &mut [u8]) -> IoResult<usize> {
        self.network.print("peek");
        self.network.print_number(into.len() as u64);
        self.network.answer_bytes(into)
    }

    fn set_read_timeout(&self, limit: Option<Duration>) -> IoResult<()> {
        self.print_limit("by-read", limit);
        Ok(())
    }

    fn set_write_timeout(&self, limit: Option<Duration>) -> IoResult<()> {
        self.print_limit("by-write", limit);
        Ok(())
    }
}

impl Read for Stream {
    fn read(&mut self, into: &mut [u8]) -> IoResult<usize> {
        self.network.print("read");
        self.network.print_number(into.len() as u64);
        self.network.answer_bytes(into)
    }
}

impl Write for Stream {
    fn write(&mut self, piece: &[u8]) -> IoResult<usize> {
        self.network.print("write");
        self.network.print_number(piece.len() as u64);
        Ok(self.network.answer()?.min(piece.len()))
    }

    fn flush(&mut self) -> IoResult<()> {
        Ok(())
    }
}

/// What the lines of a door are written to, which prints them.
#[derive(Drop)]
pub(crate) struct Lines {
    network: &'static Memory,
    faults: u64,
}

impl Lines {
    pub(crate) fn new(network: &'static Memory) -> Lines {
        Lines { network, faults: 0 }
    }
}

impl Sink for Lines {
    ghost written = { λ _. None };

    ghost faults = { λ s. s.faults };

    fn write(&mut self, piece: &[u8]) -> Result<(), Failed> {
        self.network.print("line");
        self.network.print_bytes(piece);
        match self.network.answer() {
            Ok(_) => Ok(()),
            Err(_) => {
                self.faults = self.faults.saturating_add(1);
                Err(Failed)
            }
        }
    }
}
