// Connections that were served and whose peers have not closed them yet.

use crate::deadline::Deadline;
use std::io::{ErrorKind, Read};
use std::net::{OpenStream, Shutdown};
use std::time::{Clock, Duration};

/// After how many seconds a connection that lingers goes when it is next looked at.
const LONGEST: u64 = 2;

/// How long one that lingers is waited for at once, in milliseconds, before the next connection is asked for again.
const PAUSE: u64 = 5;

/// How many pieces of what still comes are read away.
const MOST_PIECES: u64 = 256;

/// A connection behind its last written byte. Closed with bytes of the peer unread, it would be reset, and the peer could
/// lose what was written; so what still comes is read away until the peer closes, for some time.
#[derive(Drop)]
pub(crate) struct Lingering<S> {
    stream: S,
    until: Deadline,
}

impl<S: Read + OpenStream> Lingering<S> {
    /// Ends what is written. `None` where the system refuses that, or where no read of it can be had that does not wait.
    pub(crate) fn begin<R: Clock>(system: &R, stream: S) -> Option<Self>
    where
        S: Drop,
    {
        stream.shutdown(Shutdown::Write).ok()?;
        stream.set_nonblocking(true).ok()?;
        let until = Deadline::after(system, Duration::from_secs(LONGEST));
        Some(Lingering { stream, until })
    }

    /// Waits until a read would not, but only for a moment, and takes no byte. `false` where the system refuses that, or
    /// where no read can be had afterwards that does not wait.
    pub(crate) fn pause(&self) -> bool {
        let mut first = [0; 1];
        let limit = Some(Duration::from_millis(PAUSE));
        let waits = self.stream.set_nonblocking(false).is_ok()
            && self.stream.set_read_timeout(limit).is_ok();
        if waits {
            let _ = self.stream.peek(&mut first);
        }
        self.stream.set_nonblocking(true).is_ok() && waits
    }

    /// Reads away what has come, without waiting, and answers whether more may come: `false` where the peer has closed,
    /// where reading failed, and where the time is over.
    pub(crate) fn is_open<R: Clock>(&mut self, system: &R) -> bool {
        let mut piece = [0; 4096];
        for _ in 0..MOST_PIECES {
            match self.stream.read(&mut piece) {
                Ok(0) => return false,
                Ok(_) => {}
                Err(error) => match error.kind() {
                    ErrorKind::WouldBlock => return self.until.left(system).is_some(),
                    ErrorKind::Interrupted => {}
                    _ => return false,
                },
            }
        }
        false
    }
}
