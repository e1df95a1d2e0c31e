//! HTTP messages and a client's calls, the job book and its keepers, in memory and over a database, objects in memory,
//! and the command `client`.
//!
//! The input has parts, each of which begins with a line `== NAME`, and a line for each step; a line that begins with
//! `#` says what the next ones show, and has no answer. `oe_lines` says how words are spelled.
//!
//! **`messages`**: HTTP messages that are read from links in memory and written to them, whose answers were found by
//! hand from RFC 9112, RFC 9110 and the limits of this profile. Each line but those of links has lines of answers.
//!
//! | Line | What it does |
//! |---|---|
//! | `links PIECES CALLS` | says how the links of the lines behind it give their bytes: sizes with commas between them, one link for each, which gives at most so many bytes in a read; and which of their reads and writes fail, counted from 0 |
//! | `texts all` | prints the text of each refusal of a request, then of each refusal of a response, one a line |
//! | `request BYTES` | reads a request from links that give these bytes and end |
//! | `response BYTES` | reads a response from them |
//! | `reply STATUS TYPE LOCATION IDENTIFIER BODY` | writes a reply; TYPE is `json` or `-` |
//! | `head STATUS LENGTH` | writes the head of a reply whose body of so many bytes follows |
//! | `written HOST METHOD PATH QUERY AUTHORIZATION BODY` | writes a request to a host |
//! | `call FAILING VERB ARGUMENT TOKEN INPUT RESPONSE` | sends the request of a client's verb to a peer that gives this response, to an output whose writes of these numbers fail |
//! | `next LIST OFFSET BODY` | where the next page of a list begins, by the body of the page at an offset |
//!
//! Bytes are spelled as they are, with `\r` and `\n` for the bytes of a line end, `\HH` for any byte in two hexadecimal
//! digits, and bars between parts, of which one as `N*BYTES` has its bytes N times. In the lines that write, the words
//! have no blanks (a blank is `\20`), and `-` stands for none.
//!
//! An answer is a refusal, or all that was read, or the bytes that were written, behind `Failed` where a write failed;
//! then the number of the link's calls that failed, if any did. Of several links each has a line where its answer
//! differs from that of the one before it, so one line says that all agree. Over 16 equal bytes side by side are
//! spelled as `|N*B|`.
//!
//! **`jobs`**: the job book and its keepers, whose answers were written from the table of statuses of the openEO API's
//! batch jobs and from the project's own rules, by no code of these crates.
//!
//! The lines `book`, `job`, `restore`, `owned` and `set` have no answer, and every other line has one.
//!
//! | Line | What it does |
//! |---|---|
//! | `book NEXT` | begins a book without jobs and stored processes whose next number is this |
//! | `job ID USER STATUS LEVEL COUNT` | the book gets a job, created at 10 and changed at 20, with the turn 3, an entry `old` in its logs and so many assets `a.json` |
//! | `restore ID ENTRY` | the book gets the job of an id and of this entry |
//! | `owned USER ID TEXT` | the book gets the stored process of a user and an id that the text is |
//! | `set WHAT VALUE` | changes the last job: its moment `created` or `updated`; its `title`, `description` or `process` to a text of so many bytes; `asset` adds an asset of so many bytes |
//! | `set stored WHAT VALUE`, `set ran WHAT VALUE` | changes the last stored process of the book, or of what the last job runs: its `id` or `text`, its `graph` or `parameters` to those of this text; `long` to one of so many bytes |
//! | `valid` | whether the book is valid |
//! | `USER create LEVEL`, `USER create LEVEL TITLE` | the user creates a job at 50 |
//! | `USER patch ID`, with `level L`, `title T`, `description D` or `null` behind it | the user patches a job at 50; `null` takes both texts away |
//! | `USER queue ID`, `cancel`, `delete` | the user queues, cancels or deletes a job at 50 |
//! | `USER store ID`, `forget` | the user stores or deletes a process |
//! | `event ID start`, `asset NAME`, `finish`, `fail CODE` | the event comes to a job at 60, where it may come |
//! | `reopen` | the book is opened after a stop |
//! | `keeper CALLS -`, `keeper CALLS N kept`, `keeper CALLS N lost` | a keeper in memory whose calls of these numbers fail (`-` for none), and which stops in the call N, where it keeps or loses what is committed, is asked to keep two stored processes and to load the book |
//! | `running`, `next`, `busy` | the job that runs, the queued job of least turn, whether a job is queued or runs |
//! | `place USER ID` | where the user's job stands among the jobs, from 0 |
//! | `assets TEXT` | the names of the assets of the graph that the text is |
//! | `entry TEXT` | reads the text as the entry of the job j-3, and writes the entry of that job |
//!
//! An answer to a command is its outcome, then the kind of the change, then the book: its next number, its jobs and its
//! stored processes, with bars between them. An answer to an event or to `reopen` has no outcome. `keeper` is answered
//! by what the two processes and the load are answered, by how many calls failed, and by the stored processes that a
//! crash leaves; `entry` by the job that was read and, behind a bar, the entry that is written of it, or by `none`.
//!
//! **`objects`**: calls of the objects in memory, some of which fail by a script, and of small callers of them, whose
//! answers were found by hand from what the objects promise. A line has an object, and the calls on it behind
//! semicolons; the output has a line for each call: for each number of rounds of a copy, two of a clock and three of
//! the texts.
//!
//! | Line | What it makes, and its calls |
//! |---|---|
//! | `copy BYTES CALLS CAPACITY CALLS ROOM ROUNDS` | a source and a sink to which it is copied by a buffer with ROOM |
//! | `count BYTES ROOM ROUNDS` | a source and a sink that only counts, to which it is copied |
//! | `source BYTES CALLS` | `read N`, `all LIMIT` |
//! | `sink CAPACITY CALLS` | `write BYTES`, and by a buffer `send BYTES`, `long N`, which sends so many `x`, `flush` |
//! | `counter` | a sink that only counts: the calls of a sink |
//! | `bounded` | a sink with room for 1048577 bytes: the calls of a sink, and then its bytes are taken |
//! | `over N` | nothing: `over` where a text of N bytes has more than 1048576, found by such a sink, else `within` |
//! | `link BYTES PIECE CAPACITY CALLS` | `read N`, which gives PIECE bytes at most, and the calls of a sink |
//! | `store BYTES CAPACITY CALLS` | `read AT N`, `fill AT N`, `write AT BYTES`, `length` |
//! | `door CALLS LINKS DIALLED` | `next MARK`, `busy MARK`, `dial MARK`, `done` |
//! | `clock SECONDS` | a clock that stands still, which is asked twice |
//! | `texts` | nothing: the text of the fault is printed, then those of two refusals to read, and that of want of memory |
//!
//! CALLS has the numbers of the calls that fail, with commas between them. LINKS and DIALLED are `none`, or have for
//! each connection the number of its one call that fails. ROUNDS has how many rounds each copy takes at most. `-` is no
//! byte, and no number. Buffers have up to 8 bytes, and are full of `-` before a call.
//!
//! At a door a connection that comes is in hand from then on, and the mark, if there is one, is written to it; at first
//! one is in hand that the door did not give.
//!
//! An answer is what the call answered, with the buffer of one that reads: of a copy `end` where the end was reached,
//! `more` where it was not, or whose call failed; of `fill` `whole` or `short`. Behind a bar stands what the object
//! has: of a source how many calls failed; of a sink that counts how many bytes; of one with room for a text `full` or
//! `open`, and at the end how many bytes and the first of them; of any other sink, a link or a store
//! how many bytes, the first 16 of them, with `.` for a zero, and how many calls failed; of a copy the bytes, and the
//! faults of the source and of the sink; of a door the faults of `next`, of `dial` and of connections, and what was
//! written to each connection that was given back.
//!
//! **`client`**: the command `client` over a door, an input and outputs in memory, some of whose calls fail. What is
//! sent, written and said was found by hand from the table of verbs, RFC 9112 and the table of exit statuses, by no
//! code of these crates. Each line but those of commands says what the lines behind it work on, and has no answer.
//!
//! | Line | What it does |
//! |---|---|
//! | `peer BYTES` | the peer gives these bytes, and ends |
//! | `more BYTES` | so does the peer that is dialled behind those before it |
//! | `input BYTES` | the input has these bytes |
//! | `piece N` | a read of the connection gives at most so many bytes |
//! | `fails DIAL LINK INPUT OUT ERR` | which calls fail of `dial`, of a connection, of the input and of both outputs: their numbers, counted from 0 and with commas between them, `-` for none |
//! | `client WORDS`, or any other line | the command of these words |
//!
//! Bytes and words are spelled as those of messages are; a word has no blanks (a blank is `\20`). The answer is `Usage`
//! where the words spell no call. Else it is the exit status; what was sent, where a connection was given back; what
//! stands on the output and on the error output; the bytes of the input that were left, where there are any; and the
//! counters of failed dials and connections that are not 0.
//!
//! **`database`**: the keeper of a job book over a database, on disks in memory. Before each line the disks crash and
//! lose what was not synced; then the database on them is opened, and closed after the line, when its log is copied
//! into its own file. The answers were written from what each change makes of a book. Those of `fuse` are from the
//! words of SQLite on the log that is written ahead: a commit appends to the log and syncs it, and the database's own
//! file is written when it is made, and again only where a log of so many pages is copied into it. All changes of a
//! line make far fewer than 1000 pages. So a log that fails may do so after any number of changes; a file that fails
//! does so before the first change, or never, and where the log is copied after each commit after any number of them
//! too.
//!
//! | Line | What it does |
//! |---|---|
//! | `new` | puts two empty disks in place of the ones before |
//! | `keep STEPS` | has a keeper take these steps, with `; ` between them, and prints a line for each |
//! | `sql TEXT` | runs statements on the database, beneath every keeper |
//! | `ask TEXT` | runs a query on it, and prints the first value of the first row |
//! | `bytes` | prints the database's own file in hexadecimal digits; `tools/tests` has the system's SQLite read it |
//! | `fuse log PAGES STEPS`, `fuse db PAGES STEPS` | takes the steps, each change with a `load` before and after it, on new disks, whose log is copied once it has so many pages, again and again, where from the first, second, .. call on all calls of one of the two disks fail, until no change fails; prints how many changes were kept before one failed, each number once, and how many of the crashes behind them leave another book than that of these changes, or the next one after it |
//!
//! | Step | What it does |
//! |---|---|
//! | `load` | loads the book, and prints it |
//! | `put NEXT LENGTH ID ENTRY` | commits a job with this entry, with no asset where the length is 0, else with one `a.json` of so many digits 1, and the next number of the book |
//! | `asset ID LENGTH UPDATED MESSAGE` | commits that a job gets such an asset at a moment, and a log entry where there is a message |
//! | `drop ID` | commits that there is no job of this id |
//! | `store USER ID TEXT`, `forget USER ID` | commits that a user has this stored process, or none |
//!
//! A commit prints `kept`, and what is refused `failed` and how often a call of this keeper has failed. A book that is
//! printed has its next number, its jobs by id and entry with their assets, and its stored processes, with bars
//! between them.
#![tactic(auto)]

mod asked;
mod books;
mod changes;
mod client;
mod clocks;
mod commands;
mod copies;
mod counted;
mod database;
mod dialled;
mod disks;
mod doors;
mod events;
mod fuses;
mod jobs;
mod keepers;
mod keeping;
mod kept;
mod links;
mod messages;
mod objects;
mod reading;
mod setting;
mod spelling;
mod stores;
mod streams;
mod valid;
mod writing;

use books::answer_jobs;
use database::answer_database;
use dialled::answer_dialled;
use messages::answer_messages;
use objects::answer_objects;
use oe_lines::{Answers, Fault};
use std::alloc::Global;
use std::io::{Read, Write};
use std::process::ExitCode;

fn main(rt: HostRuntime) -> ExitCode {
    let alloc = rt.alloc();
    let mut text = String::new(alloc);
    if rt.stdin().read_to_string(&mut text).is_err() {
        return ExitCode::from(5);
    }
    let mut answers = Answers::new(alloc);
    answer_parts(alloc, &text, &mut answers);
    if let Some(fault) = answers.fault() {
        return ExitCode::from(fault.status());
    }
    match rt.stdout().write_all(answers.bytes()) {
        Ok(()) => ExitCode::from(0),
        Err(_) => ExitCode::from(8),
    }
}

/// Appends the answers to all parts.
fn answer_parts(alloc: Global, text: &str, answers: &mut Answers) {
    for part in text.split("== ") {
        let (name, lines) = part.split_once('\n').unwrap_or((part, ""));
        answer_part(alloc, name, lines, answers);
    }
}

/// Appends the answers to the lines of a part, of which the first has no name and no lines.
fn answer_part(alloc: Global, name: &str, lines: &str, answers: &mut Answers) {
    match name {
        "" => {}
        "messages" => answer_messages(alloc, lines, answers),
        "jobs" => answer_jobs(alloc, lines, answers),
        "objects" => answer_objects(alloc, lines, answers),
        "client" => answer_dialled(alloc, lines, answers),
        "database" => answer_database(alloc, lines, answers),
        _ => answers.note(Fault::Line),
    }
}
