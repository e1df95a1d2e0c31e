// A line that tells how far a run is.
use itoa::Buffer;
use oe_outside::Gate;
use std::io::{IsTerminal, Write};
use std::sync::atomic::{AtomicU64, Ordering};

/// How many times the line is written for a run at most.
const MOST_LINES: u64 = 1000;

/// How many bytes a line has at most: its words, and two numbers of 20 digits.
const ROOM: usize = 64;

/// Returns to the beginning of the line, and clears it.
const CLEAR: &[u8] = b"\r\x1b[K";

/// A gate that keeps a line `chunk K of N` up to date on a terminal, K of which were begun, and clears it behind the run.
///
/// Where a line can't be written, nobody is told.
#[derive(Drop)]
pub struct ProgressGate<W> {
    terminal: Option<W>,
    chunks: AtomicU64,
    begun: AtomicU64,
}

impl<W: Write + IsTerminal + Copy> ProgressGate<W> {
    /// A gate that writes to a stream where it is a terminal, and else writes nothing.
    pub fn new(stream: W) -> Self {
        ProgressGate {
            terminal: if stream.is_terminal() {
                Some(stream)
            } else {
                None
            },
            chunks: AtomicU64::new(0),
            begun: AtomicU64::new(0),
        }
    }
}

impl<W: Write + Copy + Sync> Gate for ProgressGate<W> {
    fn open(&self, chunks: u64) {
        self.chunks.store(chunks, Ordering::SeqCst);
        self.begun.store(0, Ordering::SeqCst);
    }

    fn enter(&self, _chunk: u64) {
        if let Some(terminal) = self.terminal {
            let mut terminal = terminal;
            let before = self.begun.fetch_add(1, Ordering::SeqCst);
            let chunks = self.chunks.load(Ordering::SeqCst);
            if is_told(before, chunks) {
                tell(&mut terminal, before.saturating_add(1), chunks);
            }
        }
    }

    fn close(&self) {
        if let Some(terminal) = self.terminal {
            let mut terminal = terminal;
            let _ = terminal.write_all(CLEAR);
        }
    }
}

/// Whether one chunk more is told: of few chunks each, of many about each thousandth part of them.
fn is_told(before: u64, chunks: u64) -> bool {
    before % (chunks / MOST_LINES + 1) == 0
}

/// Writes the line anew.
fn tell<W: Write>(terminal: &mut W, begun: u64, chunks: u64) {
    let mut line = Line::new();
    line.push(CLEAR);
    line.push(b"chunk ");
    line.push(Buffer::new().format(begun).as_bytes());
    line.push(b" of ");
    line.push(Buffer::new().format(chunks).as_bytes());
    let _ = terminal.write_all(line.bytes());
}

/// A line that is put together, so that it is written at once.
#[derive(Drop)]
struct Line {
    bytes: [u8; ROOM],
    count: usize,
}

impl Line {
    fn new() -> Line {
        Line {
            bytes: [0; ROOM],
            count: 0,
        }
    }

    /// Appends as much of the piece as there is room for.
    fn push(&mut self, piece: &[u8]) {
        for byte in piece {
            if self.count < ROOM {
                self.bytes[self.count] = *byte;
                self.count += 1;
            }
        }
    }

    fn bytes(&self) -> &[u8] {
        &self.bytes[..self.count.min(ROOM)]
    }
}
