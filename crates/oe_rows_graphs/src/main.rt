//! Graphs that are read, resolved, planned and run, collections that are mounted and read, calls of `openeo` over
//! objects in memory, parts of mosaics, and graphs that are translated. The answers were taken from outside: by hand,
//! from the public texts and `docs/formats.md`, or from references that share no code with these crates.
//!
//! The input has parts, each of which begins with a line `== NAME`, and a line for each step; a line that begins with
//! `#` says what the next ones show, and has no answer. `oe_lines` says how words are spelled. SIZES are the sides of
//! chunks along x, y and t and the number of workers.
//!
//! **`graphs`**: what is read.
//!
//! | Line | What it answers |
//! |---|---|
//! | `graph INPUT`, `bytes BYTES`, `padded SIZE INPUT` | the text of the graph of this input, of these bytes, or with blanks behind it up to so many bytes; or its fault |
//! | `stored INPUT` | of the stored process `p` its parameters, with `?` where one is optional and `=` where it has a default; or its fault |
//! | `process NAME` | `found` or `none`, in the catalogue |
//! | `processes` | the reply that lists them all |
//! | `kind KIND CELL` | whether a collection of this kind may hold the cell |
//! | `need labels WINDOW \| SHAPE \| ARGUMENT` | the window of the argument that has the labels of a window of the shape |
//! | `need bands WINDOW \| SHAPE \| ARGUMENT` | the same with all bands |
//! | `need BORDER WINDOW \| SHAPE` | the same with the pixels around, for a kernel of 3 × 3 ones |
//!
//! **`plans`**: resolved graphs and plans, over collections that have no cells.
//!
//! | Line | What it does |
//! |---|---|
//! | `resolve P Q R < GRAPH` | the text of a graph that is resolved beside the stored processes `p`, `q` and `r` of these texts, or its fault; `-` is the text of one load; they have no blanks |
//! | `repeated CALLS TIMES NULLS < VALUE` | `resolved`, or `out of memory` where it would hold too much, for a graph that calls `q` with this value, where `q` hands it on to so many calls of `p`, and `p` lists it so often and so many nulls; `zeros N` is a list of so many zeros, `text N` a text of so many bytes, `name N` an object with one null, whose name has so many bytes |
//! | `collection ID DATES BANDS SIDE` | has a collection of numbers with so many dates, a day apart, these bands, and so many rows, whose labels fall from 0, and columns, whose labels rise from 0; ids come in byte order |
//! | `figures SIZES < GRAPH` | how many cells a run holds, and in how many chunks it goes |
//! | `plan SIZES < GRAPH` | the plan of a graph, or how many cells are too many |
//! | `windows WINDOW < GRAPH` | the windows of all steps for a chunk |
//!
//! A plan is answered by how many chunks it has, the cells of its largest window, how many cells an evaluation needs
//! besides, its workers, and how many windows are kept at once; then by the last chunk, if there is one; and then, step
//! by step, by the node, the steps that its first four arguments are, as `takes 0=1`, and how many of the steps before
//! it have its slot. Windows are answered by how many steps there are and how many windows are kept at once, which two
//! threads read, and then step by step. Bars stand between these parts.
//!
//! **`runs`**: runs of graphs, and calls of `openeo`, while calls of objects fail.
//!
//! | Line | What it does |
//! |---|---|
//! | `catalogue` | forgets the collections before it |
//! | `cube ID TEXT` | has a collection of this cube text |
//! | `mosaic ID TEXT \| TEXT` | has the mosaic of the two collections of these cube texts, for calls of `openeo`; of its reads those of the second alone fail |
//! | `remainder ID TEXT \| TEXT` | the same, after the first was taken out again |
//! | `keep NAME WORDS < INPUT` | calls `openeo` with these words, in which nothing fails, and has what it writes as the part of this name for calls of `join` |
//! | `run SIZES < GRAPH` | evaluates a graph in chunks: the number of chunks, how many were evaluated, how often the gate was entered for each, with commas between, the text, and the bytes of the spool in hexadecimal digits |
//! | `resume SIZES < GRAPH` | evaluates it again and again, while each read of a collection, then each call of the spool, then each write of the output fails once, and the run is taken up where it stands: how many chunks were evaluated each time, and `?` behind it where the records or the text are others than without the failure |
//! | `fails OBJECT WORDS < INPUT` | calls `openeo` with these words and this input again and again, while each call of the object fails once: of the `input`, of collections (`reads`), of the `parts` once they are opened, of the `spool`, or of the output (`writes`) |
//! | `entered CHUNKS WORDS < INPUT` | calls `openeo` with these words and this input: the status, and how often the gate was entered for each of so many chunks, with commas between |
//! | `entered CHUNKS meeting WORDS < INPUT` | the same, while the first two chunks wait for each other in the gate; then `met`, or `apart` where one of them looked in vain |
//!
//! The spool begins with the bytes `front` in `run` and `resume`. How their expected lines were found:
//!
//! - A run evaluates each chunk once, and enters the gate once with its number before. The chunks of a round whose read
//!   failed are not evaluated, so a failed read adds
//!   none; those of a round whose write failed are evaluated again, so that adds the two a worker that the round takes. A
//!   call that fails while the text is written adds none.
//! - The number of workers has no effect on what a run answers. Where it has two chunks and two workers or more, each is
//!   evaluated in a thread of its own, so that they meet.
//! - The chunks of a round are dealt to the workers in pieces that stand side by side, of much the same length. Those of a
//!   piece that stand beside one another along x are read by one call for each row of the hull of their windows, another
//!   chunk by one for each plane of its window. The records of a chunk are written by one call for each of its rows. The
//!   text takes one call of the spool, since its buffer has room for all records, and two writes: when the buffer is
//!   empty, and at the end.
//! - Cells by the definitions of openEO Processes, those of the graph with every process by a short program over fractions
//!   that shares no code with these crates; records as `docs/formats.md` has them.
//!
//! `fails` is answered as a call in which nothing fails and, behind a semicolon, by the status and the line of the calls
//! that failed, which are all alike: with `nothing` written where all calls of the object come before the first write,
//! and else a `part` of the output. Nothing stands there where the command calls no such object.
//!
//! **`sources`**: collections that are mounted, replaced, detached, read and written as cube files.
//!
//! | Line | What it does |
//! |---|---|
//! | `catalogue` | begins an empty catalogue |
//! | `demo` | begins the catalogue of the demonstration of seed 0 and side 2 |
//! | `mount CELLS CALLS ID` | mounts a collection |
//! | `replace CELLS CALLS ID` | replaces the collection of an id |
//! | `detach ID` | takes the collection of an id out |
//! | `read ID` | reads all cells of a collection: its row, and the cells in row-major order or `failed` |
//! | `list` | the ids for graphs, in their order |
//! | `repack CALLS ID` | writes a collection as the cube file `Z`: how that ended, and the bytes that were written |
//!
//! One cell is a collection without dimensions, and four are one of two dates and two columns. CALLS are the numbers of
//! the calls that fail, from 0 on: reads of a collection, and writes of the file, of which half of the piece is written.
//! An id stands last, so that it may have blanks. `mount` answers `mounted`, or `invalid`, `taken` or `full` where it
//! refuses; `replace` `replaced`, `detach` `detached`, and both `none` where no collection is mounted under the id. Where
//! a box is handed back or out, the cells that are read of it stand behind the word.
//!
//! **`calls`**: calls of `openeo`. The cells of the processes of callbacks are like those of the examples in openEO
//! Processes and were reckoned by hand. The rows over the collection `WIN`, one graph each in chunks of four sizes, are
//! from a short program of the definitions of openEO Processes on whole cubes, label by label.
//!
//! | Line | What it does |
//! |---|---|
//! | `catalogue` | begins an empty catalogue |
//! | `collection ID KIND SHAPE`, and `CELLS` behind it | mounts a collection of nulls, or of these cells; a kind is `number` or `boolean` |
//! | `replace ID ..` | replaces the collection of an id by one that is given as above |
//! | `detach ID` | takes the collection of an id out |
//! | `file BYTES` | mounts a cube file under the id that it has |
//! | `WORDS < INPUT`, `WORDS` | calls `openeo` with these words and this input, or no byte of input |
//! | `padded SIZE WORDS < INPUT` | calls it with blanks behind the input up to so many bytes |
//! | `keep NAME WORDS < INPUT` | calls it, and has what it writes as the part of this name for calls of `join` that follow |
//!
//! `replace` and `detach` answer `none` where no collection is mounted under the id, and `file` answers `invalid` where
//! the bytes are no cube file and stand in the store that is handed back, and `changed` where others do; else they answer
//! nothing. The answer of a call is the status, then the bytes of the output and, behind a bar, those of the error
//! output, where there are any. Bytes are spelled as they are, with `\n` for a line feed, if each is printable, and else
//! in hexadecimal digits.
//!
//! **`parts`**: parts that are added, replaced and taken out, mosaics that are made of them and read, and the files of
//! mosaics. The cells of a label tuple are those of the first part that has it.
//!
//! | Line | What it does |
//! |---|---|
//! | `parts` | begins without a part, and without a mosaic |
//! | `push PART` | adds a part: `pushed`; or `kind`, `dimensions` or `full`, with the part that is handed back |
//! | `replace PLACE PART` | puts a part into the place of another: `replaced` with the old one, or `refused` with the given one |
//! | `remove PLACE` | takes a part out: `removed` with the part, or `none` |
//! | `count` | how many parts there are |
//! | `mosaic` | makes the mosaic of the parts: `mosaic` with what it reads as, and the parts stay; or `no parts`, or `too large` |
//! | `nest` | adds the mosaic of the parts to the mosaics: `nested`; then there is no part |
//! | `mosaics` | the same as `mosaic` of the mosaics |
//! | `file BYTES` | the id and the files that a file names, or `invalid` with the number of the first bad line |
//!
//! A PART is `CALLS KIND SHAPE CELLS`: the numbers of its reads that fail, from 0 on and `-` for none, `number` or
//! `boolean`, its shape and its cells. A part or a mosaic is spelled as its labels along t, y and x, where it has the
//! dimension, and all its cells, or `failed` where their read fails.
//!
//! **`translations`**: graphs whose calendar periods and running sums are written by other processes. Their texts were
//! written by hand from what `docs/definitions.md` says of translated graphs, and the periods from the calendar.
//!
//! | Line | What it does |
//! |---|---|
//! | `dates ID DATES` | has a collection of numbers of one pixel with these dates, a blank between two; ids come in byte order |
//! | `forget` | forgets the collections before it |
//! | `translate GRAPH` | the text of the graph, resolved and translated over the collections, or its fault |
//! | `check GRAPH` | the nodes of the checked translation, each with the count of its dates, or the fault of the graph |
#![tactic(auto)]

mod attempt;
mod calls;
mod checked;
mod cubes;
mod failures;
mod gate;
mod graphs;
mod kept;
mod mosaics;
mod needs;
mod parts;
mod plans;
mod repeated;
mod resolved;
mod runs;
mod sources;
mod translated;
mod translations;
mod windows;

use calls::answer_calls;
use graphs::answer_graphs;
use oe_lines::{Answers, Fault};
use parts::answer_mosaics;
use plans::answer_plans;
use runs::answer_runs;
use sources::answer_sources;
use std::alloc::Global;
use std::io::{Read, Write};
use std::process::ExitCode;
use std::thread::Threads;
use translations::answer_translations;

fn main(rt: HostRuntime) -> ExitCode {
    let mut text = String::new(rt.alloc());
    if rt.stdin().read_to_string(&mut text).is_err() {
        return ExitCode::from(5);
    }
    let mut answers = Answers::new(rt.alloc());
    answer_parts(&rt, rt.alloc(), &text, &mut answers);
    if let Some(fault) = answers.fault() {
        return ExitCode::from(fault.status());
    }
    match rt.stdout().write_all(answers.bytes()) {
        Ok(()) => ExitCode::from(0),
        Err(_) => ExitCode::from(8),
    }
}

/// Appends the answers to all parts.
fn answer_parts<R: Threads + Sync>(rt: &R, alloc: Global, text: &str, answers: &mut Answers) {
    for part in text.split("== ") {
        let (name, lines) = part.split_once('\n').unwrap_or((part, ""));
        let outcome = answer_part(rt, alloc, name, lines, answers);
        answers.settle(outcome);
    }
}

/// Appends the answers to the lines of a part, of which the first has no name and no lines.
fn answer_part<R: Threads + Sync>(
    rt: &R,
    alloc: Global,
    name: &str,
    lines: &str,
    answers: &mut Answers,
) -> Result<(), Fault> {
    match name {
        "" => Ok(()),
        "graphs" => {
            answer_graphs(alloc, lines, answers);
            Ok(())
        }
        "plans" => answer_plans(rt, alloc, lines, answers),
        "runs" => answer_runs(rt, alloc, lines, answers),
        "sources" => answer_sources(alloc, lines, answers),
        "calls" => answer_calls(rt, alloc, lines, answers),
        "parts" => {
            answer_mosaics(alloc, lines, answers);
            Ok(())
        }
        "translations" => answer_translations(alloc, lines, answers),
        _ => Err(Fault::Line),
    }
}
