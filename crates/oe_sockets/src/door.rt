// Connections over TCP: those that come to a port, and those that are dialled.
ghost use Rattle.std.specs.Prelude.{◌≡◌, None, IfOk, IsTrue};
ghost use Rattle.std.specs.Vec.{vec_capacity};
ghost use Rattle.oe_outside.specs.Doors.{IsNobody, IfConn};

use crate::deadline::Deadline;
use crate::lingering::Lingering;
use crate::link::TcpLink;
use crate::network::Network;
use crate::patience::Patience;
use oe_memory::OutOfMemory;
use oe_outside::{Door, Failed, Next};
use std::alloc::Global;
use std::io::{Error, ErrorKind, Result as IoResult};
use std::net::SocketAddr;

/// How many addresses of a host are tried.
const MOST_ADDRESSES: usize = 8;

/// How many connections linger at once; of more, the earliest goes.
const MOST_LINGERING: usize = 64;

/// A port of this machine, at 127.0.0.1, and what can be dialled. The port is bound when the first connection is asked
/// for. A door never closes.
#[derive(Drop)]
pub struct TcpDoor<N: Network> {
    system: N,
    port: u16,
    patience: Patience,
    listener: Option<N::Listener>,
    lingering: Vec<Lingering<N::Stream>>,
    faults: u64,
    dial_faults: u64,
    link_faults: u64,
}

impl<N: Network> TcpDoor<N> {
    /// A door to this port, which is not bound yet and has not failed.
    ///
    /// Refuses: out of memory.
    pub fn new(alloc: Global, system: N, port: u16, patience: Patience) -> Result<Self, OutOfMemory>
        ensures faults { IfOk result (λ door. door.faults ≡ 0) }
        ensures dial_faults { IfOk result (λ door. door.dial_faults ≡ 0) }
        ensures link_faults { IfOk result (λ door. door.link_faults ≡ 0) }
    {
        Ok(TcpDoor {
            system,
            port,
            patience,
            listener: None,
            lingering: Vec::with_capacity(alloc, MOST_LINGERING)?,
            faults: 0,
            dial_faults: 0,
            link_faults: 0,
        })
    }

    /// Binds the port where that was not done yet, and answers whether it is bound.
    fn bind(&mut self) -> bool
        ensures faults { self.new.faults ≡ self.old.faults }
        ensures dial_faults { self.new.dial_faults ≡ self.old.dial_faults }
        ensures link_faults { self.new.link_faults ≡ self.old.link_faults }
    {
        if self.listener.is_none() {
            self.listener = self.system.bind(self.port).ok();
        }
        self.listener.is_some()
    }

    /// The next connection, once its first byte has come, its peer has ended what it sends, or its time is over: what is
    /// answered at the moment of the answer should not be older than that. `Nobody` where the caller is busy and none
    /// waits, and `Failed` where the port fails and no connection lingers. A peer that has reset its connection before that
    /// is passed over, and so is one whose connection brings an error of the network along. While connections linger, a
    /// caller that is not busy looks at them between one attempt and the next.
    fn take(&mut self, busy: bool) -> Next<TcpLink<N>>
        ensures nobody { IsNobody result → IsTrue busy }
        ensures fresh { IfConn result (λ link. link.faults ≡ 0) }
        ensures faults { self.new.faults ≡ self.old.faults }
        ensures dial_faults { self.new.dial_faults ≡ self.old.dial_faults }
        ensures link_faults { self.new.link_faults ≡ self.old.link_faults }
    {
        for _ in 0..u64::MAX {
            let waits = !busy && self.lingering.is_empty();
            match self.accept(waits) {
                Ok(stream) => {
                    let link = TcpLink::new(self.system, stream, self.patience);
                    if link.is_there() {
                        return Next::Conn(link);
                    }
                }
                Err(error) => match error.kind() {
                    ErrorKind::WouldBlock if busy => return Next::Nobody,
                    ErrorKind::WouldBlock if !waits => self.linger(),
                    ErrorKind::Interrupted
                    | ErrorKind::ConnectionAborted
                    | ErrorKind::ConnectionReset
                    | ErrorKind::HostUnreachable
                    | ErrorKind::NetworkDown
                    | ErrorKind::NetworkUnreachable => {}
                    // One that lingers may hold what the next one wants, as a file descriptor.
                    _ if !self.lingering.is_empty() => self.forget(),
                    _ => return Next::Failed,
                },
            }
        }
        Next::Failed
    }

    /// The next connection to the port, if it is bound.
    fn accept(&self, waits: bool) -> IoResult<N::Stream> {
        match &self.listener {
            Some(listener) => self.system.accept(listener, waits),
            None => Err(Error::from(ErrorKind::NotConnected)),
        }
    }

    /// A stream to the first address of the host that takes one in time.
    fn connect(&self, host: &str, port: u16) -> Option<N::Stream> {
        let until = Deadline::after(&self.system, self.patience.connect);
        let mut found = [SocketAddr::from(([0, 0, 0, 0], port)); MOST_ADDRESSES];
        let count = self.system.lookup(host, port, &mut found).ok()?;
        for index in 0..count {
            let left = until.left(&self.system)?;
            if let Ok(stream) = self.system.connect(found[index], left) {
                return Some(stream);
            }
        }
        None
    }

    /// Waits a moment at the connection that lingers last, which goes where it can't be waited at, and lets those go that
    /// are over.
    fn linger(&mut self)
        ensures faults { self.new.faults ≡ self.old.faults }
        ensures dial_faults { self.new.dial_faults ≡ self.old.dial_faults }
        ensures link_faults { self.new.link_faults ≡ self.old.link_faults }
    {
        if !self.pause() {
            let _ = self.lingering.pop();
        }
        self.sweep();
    }

    /// Lets the connection go that lingers longest.
    fn forget(&mut self)
        ensures faults { self.new.faults ≡ self.old.faults }
        ensures dial_faults { self.new.dial_faults ≡ self.old.dial_faults }
        ensures link_faults { self.new.link_faults ≡ self.old.link_faults }
    {
        if !self.lingering.is_empty() {
            self.lingering.remove(0);
        }
    }

    /// Waits a moment at the connection that lingers last. `false` where that can't be.
    fn pause(&self) -> bool {
        match self.lingering.last() {
            Some(lingering) => lingering.pause(),
            None => true,
        }
    }

    /// Lets those go whose peers have closed, or whose time is over.
    fn sweep(&mut self)
        ensures faults { self.new.faults ≡ self.old.faults }
        ensures dial_faults { self.new.dial_faults ≡ self.old.dial_faults }
        ensures link_faults { self.new.link_faults ≡ self.old.link_faults }
        ensures room { vec_capacity self.new.lingering ≡ vec_capacity self.old.lingering }
    {
        let system = self.system;
        self.lingering.retain_mut(|it| it.is_open(&system));
    }

    /// Keeps a connection that lingers. Of as many as there may be, the earliest goes.
    fn keep(&mut self, lingering: Lingering<N::Stream>)
        ensures faults { self.new.faults ≡ self.old.faults }
        ensures dial_faults { self.new.dial_faults ≡ self.old.dial_faults }
        ensures link_faults { self.new.link_faults ≡ self.old.link_faults }
    {
        if self.lingering.len() >= MOST_LINGERING {
            self.forget();
        }
        if self.lingering.len() < self.lingering.capacity() {
            self.lingering.push_reserved(lingering);
        }
    }
}

impl<N: Network> Door for TcpDoor<N> {
    type Conn = TcpLink<N>;

    ghost visible = { λ _. None };

    ghost faults = { λ d. d.faults };

    ghost dial_faults = { λ d. d.dial_faults };

    ghost link_faults = { λ d. d.link_faults };

    /// The next connection to the port, for which a caller that is not busy waits. One that was taken is waited for until
    /// its first byte has come or its time is over.
    fn next(&mut self, busy: bool) -> Next<TcpLink<N>> {
        self.sweep();
        let next = if self.bind() {
            self.take(busy)
        } else {
            Next::Failed
        };
        if let Next::Failed = next {
            self.faults = self.faults.saturating_add(1);
        }
        next
    }

    /// Tries all addresses of the host, in their order.
    fn dial(&mut self, host: &str, port: u16) -> Result<TcpLink<N>, Failed> {
        match self.connect(host, port) {
            Some(stream) => Ok(TcpLink::new(self.system, stream, self.patience)),
            None => {
                self.dial_faults = self.dial_faults.saturating_add(1);
                Err(Failed)
            }
        }
    }

    /// Closes the connection once its peer has, without waiting for that.
    fn done(&mut self, conn: TcpLink<N>) {
        if conn.faults() > 0 {
            self.link_faults = self.link_faults.saturating_add(1);
            return;
        }
        if let Some(mut lingering) = Lingering::begin(&self.system, conn.into_stream()) {
            if lingering.is_open(&self.system) {
                self.keep(lingering);
            }
        }
    }
}
