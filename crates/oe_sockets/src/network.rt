// What the connections ask of the system.
ghost use Rattle.std.specs.Prelude.{◌≤◌, length, IfOk};

use std::io::{Read, Result as IoResult, Write};
use std::net::{OpenStream, SocketAddr, TcpListener, TcpStream, ToSocketAddrs};
use std::time::{Clock, Duration};

/// A network over TCP with its clock: ports that take connections, and hosts that can be dialled.
pub trait Network: Clock + Copy {
    /// A port that takes connections.
    type Listener: Drop;

    /// A connection.
    type Stream: Read + Write + OpenStream + Drop;

    /// Takes connections at this port of 127.0.0.1 from now on.
    fn bind(&self, port: u16) -> IoResult<Self::Listener>;

    /// The next connection. Where none is there a caller waits for one, or is told so by `WouldBlock`.
    fn accept(&self, listener: &Self::Listener, waits: bool) -> IoResult<Self::Stream>;

    /// Puts the first addresses of a host at the front of `found`, with the port, and answers how many.
    fn lookup(&self, host: &str, port: u16, found: &mut [SocketAddr]) -> IoResult<usize>
        ensures { IfOk result (λ count. count ≤ length found.new) };

    /// A connection to this address, which its peer has to take in time.
    fn connect(&self, address: SocketAddr, limit: Duration) -> IoResult<Self::Stream>;
}

impl Network for HostRuntime {
    type Listener = TcpListener;

    type Stream = TcpStream;

    fn bind(&self, port: u16) -> IoResult<TcpListener> {
        TcpListener::bind(self, ("127.0.0.1", port))
    }

    fn accept(&self, listener: &TcpListener, waits: bool) -> IoResult<TcpStream> {
        listener.set_nonblocking(!waits)?;
        let (stream, _) = listener.accept()?;
        Ok(stream)
    }

    fn lookup(&self, host: &str, port: u16, found: &mut [SocketAddr]) -> IoResult<usize> {
        let mut count = 0;
        for address in (host, port).to_socket_addrs(self)? {
            if count < found.len() {
                found[count] = address;
                count += 1;
            }
        }
        Ok(count.min(found.len()))
    }

    fn connect(&self, address: SocketAddr, limit: Duration) -> IoResult<TcpStream> {
        TcpStream::connect_timeout(self, &address, limit)
    }
}
