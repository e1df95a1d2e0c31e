// Calls of a clock and of a door.
use crate::connections::{Lines, System};
use crate::network::Network;
use oe_lines::{Answers, Fault, first_word, number_of, push, push_number};
use oe_outside::{Clock, Door, Link, Next, Sink};
use oe_sockets::{LogDoor, Patience, SystemClock, TcpDoor};
use std::alloc::Global;

/// As many bytes as a row reads or writes at most.
const MOST_BYTES: usize = 100000;

/// The port of the rows.
const PORT: u16 = 80;

pub(crate) fn answer_clock(
    alloc: Global,
    script: &str,
    row: &str,
    answers: &mut Answers,
) -> Result<(), Fault> {
    let network = Network::new(alloc, script)?;
    let mut clock = SystemClock::new(System::new(network));
    for _ in row.split("; ") {
        push_number("now ", moment(&mut clock), answers);
        network.end_line(answers);
    }
    Ok(())
}

/// The moment of a clock, through the bound.
fn moment<C: Clock>(clock: &mut C) -> i64 {
    clock.now_seconds()
}

/// Appends the answers of a door with these time limits.
pub(crate) fn answer_door(
    alloc: Global,
    patience: Patience,
    script: &str,
    row: &str,
    answers: &mut Answers,
) -> Result<(), Fault> {
    let network = Network::new(alloc, script)?;
    let system = System::new(network);
    answer_untold_calls(alloc, row, network, system, patience, answers)
}

/// Calls of a door that writes no lines.
fn answer_untold_calls<N: oe_sockets::Network>(
    alloc: Global,
    row: &str,
    network: &Network,
    system: N,
    patience: Patience,
    answers: &mut Answers,
) -> Result<(), Fault> {
    let mut door = TcpDoor::new(alloc, system, PORT, patience)?;
    answer_calls(alloc, row, network, &mut door, answers);
    Ok(())
}

pub(crate) fn answer_log(
    alloc: Global,
    script: &str,
    row: &str,
    answers: &mut Answers,
) -> Result<(), Fault> {
    let network = Network::new(alloc, script)?;
    let (system, lines) = (System::new(network), Lines::new(network));
    answer_told_calls(alloc, row, network, system, lines, answers)
}

/// Calls of a door that writes a line for each connection.
fn answer_told_calls<N: oe_sockets::Network, E: Sink + Drop>(
    alloc: Global,
    row: &str,
    network: &Network,
    system: N,
    lines: E,
    answers: &mut Answers,
) -> Result<(), Fault> {
    let door = TcpDoor::new(alloc, system, PORT, Patience::of_server())?;
    let mut door = LogDoor::new(door, system, Some(lines));
    answer_calls(alloc, row, network, &mut door, answers);
    Ok(())
}

fn answer_calls<D: Door>(
    alloc: Global,
    row: &str,
    network: &Network,
    door: &mut D,
    answers: &mut Answers,
)
where
    D::Conn: Drop,
{
    let mut conn = None;
    for call in row.split("; ") {
        conn = answer_call(alloc, call, door, conn, answers);
        network.end_line(answers);
    }
}

/// One call of a door or of its connection, through the bounds. The connection is handed on.
fn answer_call<D: Door>(
    alloc: Global,
    call: &str,
    door: &mut D,
    conn: Option<D::Conn>,
    answers: &mut Answers,
) -> Option<D::Conn>
where
    D::Conn: Drop,
{
    let (verb, operand) = first_word(call);
    match verb {
        "next" => spell_next(door.next(operand == "busy"), answers),
        "dial" => spell_dialled(door, operand, answers),
        "done" => {
            if let Some(conn) = conn {
                door.done(conn);
            }
            push("ok", answers);
            None
        }
        _ => answer_link(alloc, verb, operand, conn, answers),
    }
}

fn spell_next<C: Drop>(next: Next<C>, answers: &mut Answers) -> Option<C> {
    let (word, conn) = match next {
        Next::Conn(conn) => ("Conn", Some(conn)),
        Next::Nobody => ("Nobody", None),
        Next::Closed => ("Closed", None),
        Next::Failed => ("Failed", None),
    };
    push(word, answers);
    conn
}

fn spell_dialled<D: Door>(door: &mut D, host: &str, answers: &mut Answers) -> Option<D::Conn>
where
    D::Conn: Drop,
{
    if host.is_empty() || host.len() > 253 {
        answers.note(Fault::Line);
        return None;
    }
    match door.dial(host, PORT) {
        Ok(conn) => {
            push("Conn", answers);
            Some(conn)
        }
        Err(_) => {
            push("Failed", answers);
            None
        }
    }
}

/// One read or write of a connection, which there is.
fn answer_link<L: Link + Drop>(
    alloc: Global,
    verb: &str,
    operand: &str,
    mut conn: Option<L>,
    answers: &mut Answers,
) -> Option<L> {
    match (&mut conn, bytes_of(alloc, operand)) {
        (Some(link), Ok(mut bytes)) => call_link(verb, link, &mut bytes, answers),
        (None, _) => answers.note(Fault::Line),
        (_, Err(fault)) => answers.note(fault),
    }
    conn
}

fn call_link<L: Link>(verb: &str, link: &mut L, bytes: &mut [u8], answers: &mut Answers) {
    match verb {
        "read" => match link.read(bytes) {
            Ok(count) => push_number("ok ", count, answers),
            Err(_) => push("Failed", answers),
        },
        "write" => match link.write(bytes) {
            Ok(()) => push("ok", answers),
            Err(_) => push("Failed", answers),
        },
        _ => answers.note(Fault::Line),
    }
}

/// The text behind a `=`, or so many bytes of the letter `a`.
fn bytes_of(alloc: Global, operand: &str) -> Result<Vec<u8>, Fault> {
    match operand.strip_prefix('=') {
        Some(text) => Ok(text.as_bytes().to_vec(alloc)?),
        None => letters(alloc, number_of(operand)?),
    }
}

fn letters(alloc: Global, count: usize) -> Result<Vec<u8>, Fault> {
    Ok(vec![in alloc; b'a'; count.min(MOST_BYTES)]?)
}
