// A line for each request.
ghost use Rattle.std.specs.Prelude.{◌≡◌, None, IsTrue};
ghost use Rattle.oe_outside.specs.Doors.{IsNobody};

use itoa::Buffer;
use oe_outside::{Door, Failed, Link, Next, Sink};
use std::time::{Clock, Instant};

/// How many bytes of a line there are at most.
const ROOM: usize = 256;

/// How many of them the method and the target may have.
const TARGET_ROOM: usize = 200;

/// Where the status of a reply stands in its first line.
const STATUS_AT: usize = 9;

/// A door over another, which writes a line for each connection that is given back: the method and the target of its
/// request, the status of its reply, and the milliseconds in between. Fields and bodies are not told.
#[derive(Drop)]
pub struct LogDoor<D: Door, R: Clock, E: Sink> {
    door: D,
    system: R,
    log: Option<E>,
}

impl<D: Door, R: Clock, E: Sink> LogDoor<D, R, E> {
    /// A door that writes its lines to `log`, or writes none.
    pub fn new(door: D, system: R, log: Option<E>) -> Self
        ensures door { result.door ≡ door }
        ensures log { result.log ≡ log }
    {
        LogDoor { door, system, log }
    }
}

impl<D: Door, R: Clock, E: Sink> Door for LogDoor<D, R, E> {
    type Conn = LogLink<D::Conn>;

    ghost visible = { λ _. None };

    ghost faults = { λ d. D.Door.faults d.door };

    ghost dial_faults = { λ d. D.Door.dial_faults d.door };

    ghost link_faults = { λ d. D.Door.link_faults d.door };

    fn next(&mut self, busy: bool) -> Next<LogLink<D::Conn>> {
        match self.door.next(busy) {
            Next::Conn(link) => Next::Conn(LogLink::new(link, Instant::now(&self.system).ok())),
            Next::Nobody => Next::Nobody,
            Next::Closed => Next::Closed,
            Next::Failed => Next::Failed,
        }
    }

    fn dial(&mut self, host: &str, port: u16) -> Result<LogLink<D::Conn>, Failed> {
        match self.door.dial(host, port) {
            Ok(link) => Ok(LogLink::new(link, None)),
            Err(Failed) => Err(Failed),
        }
    }

    fn done(&mut self, conn: LogLink<D::Conn>) {
        let LogLink { link, mut line } = conn;
        self.door.done(link);
        if let Some(log) = &mut self.log {
            line.end(&self.system);
            // Where it can't be written, nobody is told.
            let _ = log.write(line.bytes());
        }
    }
}

/// A connection, with what is told of it.
#[derive(Drop)]
pub struct LogLink<L: Link> {
    link: L,
    line: Line,
}

impl<L: Link> LogLink<L> {
    fn new(link: L, begun: Option<Instant>) -> Self
        ensures { result.link ≡ link }
    {
        LogLink {
            link,
            line: Line::new(begun),
        }
    }
}

impl<L: Link> Link for LogLink<L> {
    ghost left = { λ l. L.Link.left l.link };

    ghost written = { λ l. L.Link.written l.link };

    ghost faults = { λ l. L.Link.faults l.link };

    fn read(&mut self, into: &mut [u8]) -> Result<usize, Failed> {
        let count = Link::read(&mut self.link, into)?;
        self.line.take_request(&into[..count]);
        Ok(count)
    }

    fn write(&mut self, piece: &[u8]) -> Result<(), Failed> {
        self.line.take_reply(piece);
        Link::write(&mut self.link, piece)
    }
}

/// The line of a connection, as far as it is known.
#[derive(Drop)]
struct Line {
    bytes: [u8; ROOM],
    count: usize,
    begun: Option<Instant>,
    has_method: bool,
    has_target: bool,
    status: Option<[u8; 3]>,
}

impl Line {
    fn new(begun: Option<Instant>) -> Line {
        Line {
            bytes: [0; ROOM],
            count: 0,
            begun,
            has_method: false,
            has_target: false,
            status: None,
        }
    }

    /// Takes the method and the target, up to the second blank or the end of the line.
    fn take_request(&mut self, piece: &[u8]) {
        if self.has_target {
            return;
        }
        for byte in piece {
            self.take(*byte);
        }
    }

    /// Takes one byte of them. One that does not print stands as a question mark.
    fn take(&mut self, byte: u8) {
        if self.has_target {
            return;
        }
        match byte {
            b'\r' | b'\n' => self.has_target = true,
            b' ' if self.has_method => self.has_target = true,
            b' ' => {
                self.has_method = true;
                self.push(b' ');
            }
            b'!'..=b'~' if self.count < TARGET_ROOM => self.push(byte),
            _ if self.count < TARGET_ROOM => self.push(b'?'),
            _ => {}
        }
    }

    /// Takes the status of the reply from its first piece.
    fn take_reply(&mut self, piece: &[u8]) {
        if self.status.is_none() && piece.len() >= STATUS_AT + 3 {
            self.status = Some([piece[STATUS_AT], piece[STATUS_AT + 1], piece[STATUS_AT + 2]]);
        }
    }

    /// Appends the status and the milliseconds. `-` stands for what did not come, and where nothing was answered.
    fn end<R: Clock>(&mut self, system: &R) {
        if self.count == 0 {
            self.push(b'-');
        }
        self.push(b' ');
        match self.status {
            Some(status) => {
                self.push(status[0]);
                self.push(status[1]);
                self.push(status[2]);
            }
            None => self.push(b'-'),
        }
        self.push(b' ');
        let took = milliseconds_since(self.begun, system);
        self.push_all(Buffer::new().format(took).as_bytes());
        self.push(b'\n');
    }

    fn push(&mut self, byte: u8) {
        if self.count < ROOM {
            self.bytes[self.count] = byte;
            self.count += 1;
        }
    }

    fn push_all(&mut self, piece: &[u8]) {
        for byte in piece {
            self.push(*byte);
        }
    }

    fn bytes(&self) -> &[u8] {
        &self.bytes[..self.count.min(ROOM)]
    }
}

/// The milliseconds from a moment to now, 0 where one of them is not known.
fn milliseconds_since<R: Clock>(begun: Option<Instant>, system: &R) -> u64 {
    let Some(begun) = begun else {
        return 0;
    };
    match Instant::now(system) {
        Ok(now) => match now.checked_duration_since(begun) {
            Some(took) => took.as_millis().min(u128::from(u64::MAX)) as u64,
            None => 0,
        },
        Err(_) => 0,
    }
}
