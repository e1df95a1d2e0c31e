// How long a peer may take.

use std::time::Duration;

/// How many microseconds more a peer has for each byte that it took: it has to take 62,500 bytes a second.
pub(crate) const MICROSECONDS_A_BYTE: u64 = 16;

/// How long peers may take.
#[derive(Clone, Copy)]
pub struct Patience {
    /// until a dialled peer has taken the connection, all addresses of its name together
    pub connect: Duration,
    /// until all that is read of a connection has come
    pub read: Duration,
    /// until all that is written was taken, from the first write on, and besides 16 microseconds for each byte
    pub write: Duration,
}

impl Patience {
    /// Of a server: 30 seconds for a request, and 30 for a reply.
    pub fn of_server() -> Patience {
        Patience {
            connect: Duration::from_secs(30),
            read: Duration::from_secs(30),
            write: Duration::from_secs(30),
        }
    }

    /// Of a client: 10 seconds to connect, 30 for a request, and an hour for the reply, since a result is evaluated
    /// before its first byte comes.
    pub fn of_client() -> Patience {
        Patience {
            connect: Duration::from_secs(10),
            read: Duration::from_secs(3600),
            write: Duration::from_secs(30),
        }
    }
}
