//! Lives of a server, requests over a job book, and what the program stands on outside: its adapters, its clock and its
//! connections.
//!
//! The input has parts, each of which begins with a line `== NAME`. `oe_lines` says how words are spelled.
//!
//! **`lives`**: lives of a server, whose answers were worked out by hand from the openEO API, RFC 9112 and the
//! project's own rules. The part is a list of scripts, with an empty line between two. Each has a catalogue of its own
//! and begins with an empty book. The users are `u` with the token `abc` and `v` with `xyz`, and the server stands at
//! `http://127.0.0.1:12345/`.
//!
//! | Line | What it does |
//! |---|---|
//! | `cube ID CALLS TEXT` | mounts the collection of this cube text, whose reads of these numbers fail |
//! | `file ID DIGITS` | mounts the collection of a cube file of these bytes |
//! | `gone ID` | takes out the collection of this id, which no later life has |
//! | `now SECONDS`, `now SECONDS STEP` | sets the clock, which stands at 0 without this line; each time that it is asked it goes on by the step |
//! | `spool ROOM CALLS`, `door CALLS` | of each later life the spool has this room, 65536 without this line, and these calls fail |
//! | `gate` | tells of each later life how many chunks of runs were evaluated, where some were |
//! | `keeper CALLS`, `keeper CALLS N kept`, `keeper CALLS N lost` | of each later life these calls of the keeper fail, and it stops in the call N, where it keeps or loses what is committed |
//! | `ask METHOD TARGET TOKEN BODY` | a connection to come, with this request; the token is `-` for none |
//! | `broken CALLS METHOD TARGET TOKEN BODY` | the same, and these calls of the connection fail |
//! | `link PIECE TEXT` | a connection with the bytes of a text, in which `\r\n` stands for the end of a line; one read gives so many at most |
//! | `serve CX CY CT W TURNS` | a life over the book that the last one left: so many turns over the connections since then |
//!
//! Calls are numbers with commas between them, counted from 0, or `-` for none. Of a life what was written to each
//! connection has a line, and one says how it ended and which jobs are kept.
//!
//! **`requests`**: requests over a job book, whose answers were written from the openEO API and from the project's own
//! rules, by no code of these crates.
//!
//! | Line | What it does |
//! |---|---|
//! | `clear` | takes away all that was made |
//! | `tokens JSON` | sets the file of tokens, a JSON text |
//! | `base TEXT` | sets where the service stands, until the next line of `tokens` or `clear` |
//! | `now SECONDS` | sets the moment, in seconds since 1970-01-01T00:00:00Z |
//! | `collection ID KIND EPSG T BANDS Y X` | mounts a collection of these labels, with commas between them: `-` where it has no dimension, `=` where it has no labels |
//! | `event ID start`, `event ID asset NAME TEXT`, `event ID finish`, `event ID fail CODE` | the event of a run comes to a job |
//! | `ask METHOD TARGET [AUTHORIZATION,BODY,COUNT]` | routes a request, whose authorization and body are JSON texts or null, with so many letters `a` in place of each `~` of the body, and makes its change; answers `changed` where there is one, and status, location, identifier (`-` for none) and body, or `run` where a graph is to be run, or `estimate` and the names of the assets to be estimated; `mistyped` stands in front of a reply that has a body and does not say that it is JSON, or the other way round |
//! | `rows METHOD TARGET [AUTHORIZATION,BODY,COUNT]` | answers `yes` where a request asks for the rows of the collections: it lists or shows them, or has a graph judged; else `no` |
//! | `refused CODE DETAIL`, `fault CODE DETAIL` | answers a refusal as `ask` does, with a code of requests, or of graphs |
//! | `error CODE DETAIL` | answers the body of an error |
//! | `capabilities PATH METHOD,METHOD;PATH METHOD` | answers the body of the capabilities with these paths |
//! | `logs LEVEL OFFSET LEVEL CODE MESSAGE;LEVEL CODE MESSAGE` | answers the body of these logs at a level and behind a number; `-` for no code |
//! | `query QUERY` | reads the query of a request for logs; answers the level and the offset, or the status and the code of the refusal |
//! | `users BYTES` | reads a file of tokens, whose bytes are spelled as `oe_lines` says; answers its users and tokens, or the number of the first bad line |
//!
//! Lines from `ask` on have an answer.
//!
//! **`adapters`**: calls of the program's adapters over files, streams and a network in memory, which look at what they
//! are asked for and fail or answer where a row says so. The answers were found by hand from what the adapters and
//! POSIX promise. A line has an object, with the calls on it behind semicolons. A line of the network is printed.
//! Behind it, and behind each other line, the output has a line for each call.
//!
//! | Line | What it makes or calls |
//! |---|---|
//! | `# WORDS` | is printed as it is |
//! | `words ARGUMENT ..` | the words of a process with these arguments, or with `!KIND` of one whose arguments the system refuses |
//! | `line NAME` | the fault that a file could not be set up, by its name in hexadecimal digits |
//! | `reader CALLS` | `read N`, from a stream of the letter `a` |
//! | `writer ROOM CALLS` | `write BYTES`, to a stream with ROOM; flushing it is a call too |
//! | `store BYTES CALLS` | `read AT N`, `write AT BYTES`, `length`, of a file |
//! | `names SYSTEM` | the cube files and the mosaics of the folder |
//! | `open NAME SYSTEM` | a cube file or a mosaic as a collection |
//! | `parts WORD SYSTEM` | the parts that a command needs, which is this word alone |
//! | `spool SYSTEM` | the file of a run's records |
//! | `standard SYSTEM` | the files that stand in for closed standard streams |
//! | `clock ANSWERS; now; ..` | the time of day, by a network whose clock gives seconds |
//! | `server ANSWERS; ASKED` | a door to port 80 with the time limits of a server |
//! | `client ANSWERS; ASKED` | a door with those of a client |
//! | `log ANSWERS; ASKED` | a door with those of a server, which writes a line for each connection |
//!
//! CALLS has the calls that fail, as `NUMBER:KIND` from 0 on with commas between them, and `-` stands for none, and
//! for no byte. Every other call passes two bytes at most. A KIND is `interrupted`, `missing`, `denied`, `exists`,
//! `memory`, `invalid`, `broken`, `reset`, `aborted`, `waits`, `refused` or `down`.
//!
//! SYSTEM has the calls that are expected, in their order and from the first again behind the last, each as
//! `CALL:PATH=ANSWER`; a call that is not the next one expected is refused. CALL is `about` (what the path has), `open`
//! (to read), `create` (to read and write, where there is no file), `write` (in any other way), `remove` or `list`. An
//! ANSWER is `!KIND`; of `about` `file`, `folder` or `link`; of `open` and `create` `cube`, which is the file of a
//! single null under the id `A`, `cut`, which is the same without its first byte, `mosaic`, which is the file of a
//! mosaic `M` of the files `a` and `b`, `part`, which is the part file of a run that has a single null, or `empty`, and
//! behind `@` the number of a call of that file that fails; of `list` the names that each read gives, with commas
//! between the reads and `+` between the names, where `?` stands for the byte 255. NAME is a name, and `?.cube` the byte
//! 255 before `.cube`.
//!
//! An answer is `ok` or `Failed` with the bytes of the buffer of a read, which is full of `-` before, and behind a bar
//! what the stream took, and how many calls failed; of a SYSTEM `ok`, what was found and behind a bar how many calls
//! there were. A fault of the program is its status, the number of calls, and its line.
//!
//! ASKED are `next` and `next busy`, `dial HOST`, `done`, and of the connection that came last `read N` and `write N`,
//! N bytes of the letter `a`, and `write =TEXT`. ANSWERS has the answer of each call of the network, in their order,
//! with blanks between them: `ok`, a number of bytes, or a KIND, and `-` stands for none. Of a read it may be `=TEXT`,
//! the bytes that are read, in which `_` stands for a blank and `$` for a line feed. A number behind `@` is the time in
//! milliseconds from then on. A call without an answer is refused.
//!
//! The network prints `bind PORT`, `wait` and `look` (a connection is taken, by a caller that waits and by one that
//! does not), `lookup HOST PORT`, `connect PORT SECONDS`, `by-read MS` and `by-write MS` (the time limit of the next
//! read or write), `peek N` (bytes are read and stay to be read), `read N`, `write N`, `shutdown` of what is written,
//! `drains` and `waits` (reads do not wait any more, and wait again), `close` and `line TEXT`, which a door wrote. An
//! answer of a call is `ok` with the number of bytes of a read, `Conn`, `Nobody`, `Failed`, or of the clock its seconds;
//! behind a colon stands what the network was asked for in it.
#![tactic(auto)]

mod adapters;
mod asked;
mod called;
mod clock;
mod codes;
mod connections;
mod cubes;
mod doors;
mod events;
mod failing;
mod fake_file;
mod fake_files;
mod fake_stream;
mod gate;
mod kinds;
mod known;
mod life;
mod links;
mod network;
mod requested;
mod scripts;
mod spell;
mod stores;
mod streams;
mod systems;
mod values;
mod words;

use adapters::answer_adapters;
use asked::answer_requests;
use oe_lines::{Answers, Fault};
use scripts::answer_scripts;
use std::alloc::Global;
use std::io::{Read, Write};
use std::process::ExitCode;
use std::thread::Threads;

fn main(rt: HostRuntime) -> ExitCode {
    let alloc = rt.alloc();
    let mut text = String::new(alloc);
    if rt.stdin().read_to_string(&mut text).is_err() {
        return ExitCode::from(5);
    }
    let mut answers = Answers::new(alloc);
    answer_parts(&rt, alloc, &text, &mut answers);
    if let Some(fault) = answers.fault() {
        return ExitCode::from(fault.status());
    }
    match rt.stdout().write_all(answers.bytes()) {
        Ok(()) => ExitCode::from(0),
        Err(_) => ExitCode::from(8),
    }
}

/// Appends the answers to all parts.
fn answer_parts<R: Threads + Sync>(rt: &R, alloc: Global, text: &str, answers: &mut Answers) {
    for part in text.split("== ") {
        let (name, lines) = part.split_once('\n').unwrap_or((part, ""));
        let outcome = answer_part(rt, alloc, name, lines, answers);
        answers.settle(outcome);
    }
}

/// Appends the answers to the lines of a part, of which the first has no name and no lines.
fn answer_part<R: Threads + Sync>(
    rt: &R,
    alloc: Global,
    name: &str,
    lines: &str,
    answers: &mut Answers,
) -> Result<(), Fault> {
    match name {
        "" => Ok(()),
        "lives" => answer_scripts(rt, alloc, lines, answers),
        "requests" => {
            answer_requests(alloc, lines, answers);
            Ok(())
        }
        "adapters" => {
            answer_adapters(alloc, lines, answers);
            Ok(())
        }
        _ => Err(Fault::Line),
    }
}
