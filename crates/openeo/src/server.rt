// The command `serve`: what it stands on, and how it ends.
ghost use Rattle.std.specs.Prelude.{◌≡◌, IfErr, IfNone, codes};
ghost use Rattle.oe_adapters.specs.Setup.{IsSetupFault};
ghost use Rattle.oe_outside.specs.Stream.{error_output};
ghost use Rattle.oe_plan.specs.Ranges.{IsWithinRanges};
ghost use Rattle.oe_serve.specs.Endings.{line_of, status_of};
ghost use Rattle.oe_serve.specs.Words.{SpellsServe};
ghost use Rattle.oe_serve.specs.declared.command.ServeCommand.{ServeCommand as Command};
ghost use Rattle.oe_top.specs.Lines.{Says};
ghost use Rattle.openeo.specs.Ends.{EndsServer};

use crate::program::end;
use itoa::Buffer;
use oe_adapters::{Fault, Writer, open_spool};
use oe_database::SqliteKeeper;
use oe_dims::Text;
use oe_jobs::Keeper;
use oe_memory::OutOfMemory;
use oe_outside::{NoGate, Sink};
use oe_routes::{Site, Tokens, TokensFail};
use oe_serve::{ServeCommand, ServeFail, Setup, read_serve, serve};
use oe_sockets::{LogDoor, Patience, SystemClock, TcpDoor};
use oe_sources::Catalogue;
use sqlite::{Connection, Error, ErrorCode, File, FileStore};
use std::alloc::Global;
use std::io::{ErrorKind, IsTerminal, Stderr};
use std::thread::Threads;
use std::{env, fs};

/// How many bytes `tokens.txt` has at most: 8 lines of a user, a blank, a token and a line feed.
const MOST_TOKENS: u64 = 8 * (64 + 1 + 128 + 1);

/// The users of the file `tokens.txt`, none where there is no such file.
///
/// Refuses: the set-up fault of the file where it could not be read or is not valid; out of memory.
pub fn read_tokens(alloc: Global, rt: &HostRuntime) -> Result<Tokens, Fault>
    ensures { IfErr result (IsSetupFault (codes "tokens.txt")) }
{
    let bytes = token_bytes(alloc, rt)?;
    match Tokens::read(alloc, &bytes) {
        Ok(tokens) => Ok(tokens),
        Err(TokensFail::Invalid(_)) => Err(Fault::setup(alloc, b"tokens.txt")),
        Err(TokensFail::OutOfMemory) => Err(Fault::OutOfMemory),
    }
}

/// The bytes of the file `tokens.txt`, none where there is no such file. What is no plain file is not opened, since a
/// pipe may never end, and neither is one that is too long.
fn token_bytes(alloc: Global, rt: &HostRuntime) -> Result<Vec<u8>, Fault>
    ensures { IfErr result (IsSetupFault (codes "tokens.txt")) }
{
    let about = match fs::metadata(rt, "tokens.txt") {
        Ok(about) => about,
        Err(error) => match error.kind() {
            ErrorKind::NotFound => return Ok(Vec::new(alloc)),
            _ => return Err(Fault::of_error(alloc, &error, b"tokens.txt")),
        },
    };
    if !about.is_file() || about.len() > MOST_TOKENS {
        return Err(Fault::setup(alloc, b"tokens.txt"));
    }
    match fs::read(rt, "tokens.txt") {
        Ok(bytes) => Ok(bytes),
        Err(error) => Err(Fault::of_error(alloc, &error, b"tokens.txt")),
    }
}

/// Serves as the words say, over the file `openeo.db`, with threads for its runs, and answers its exit status. `None`
/// only where they spell no command `serve`: then no file was opened.
pub fn serve_words<R: Threads + Sync, E: Sink>(
    alloc: Global,
    rt: &HostRuntime,
    threads: &R,
    words: &[Text],
    tokens: Tokens,
    catalogue: &mut Catalogue,
    err: &mut E,
) -> Option<u8>
    ensures { IfNone result ((command : Command) → ¬ SpellsServe words.now command) }
{
    let command = read_serve(words)?;
    let ended = served(alloc, rt, threads, command, tokens, catalogue);
    Some(end_server(ended, err))
}

/// Says why the server did not end well, or did not begin, and answers its exit status.
fn end_server<E: Sink>(ended: Result<Result<(), ServeFail>, Fault>, err: &mut E) -> u8
    ensures { EndsServer ended result (error_output E.written E.faults err.old err.new) }
{
    match ended {
        Ok(Ok(())) => 0,
        Ok(Err(fail)) => say(fail, err),
        Err(fault) => end(&fault, err),
    }
}

/// Says why the server ended, and answers its exit status.
fn say<E: Sink>(fail: ServeFail, err: &mut E) -> u8
    ensures status { result ≡ status_of fail }
    ensures line { Says (line_of fail) (error_output E.written E.faults err.old err.new) }
{
    // Where the line can't be written, the status alone tells.
    let _ = err.write(fail.line().as_bytes());
    fail.status()
}

/// Opens the database, serves over it, and closes it.
///
/// Refuses: the set-up fault of the file that could not be opened or made; out of memory.
fn served<R: Threads + Sync>(
    alloc: Global,
    rt: &HostRuntime,
    threads: &R,
    command: ServeCommand,
    tokens: Tokens,
    catalogue: &mut Catalogue,
) -> Result<Result<(), ServeFail>, Fault>
    requires { IsWithinRanges command.size command.workers }
{
    let mut keeper = open_database(alloc, rt)?;
    let ended = serve_over(alloc, rt, threads, command, tokens, catalogue, &mut keeper);
    // The log goes over into the file. Where it can't, what was committed stays in the log.
    let _ = keeper.into_connection().close();
    ended
}

/// Opens the file for the cells of runs, and serves over a keeper. It is lent, so that no end of this call drops it.
///
/// Refuses: the set-up fault of the file that could not be made; out of memory.
fn serve_over<R: Threads + Sync, K: Keeper>(
    alloc: Global,
    rt: &HostRuntime,
    threads: &R,
    command: ServeCommand,
    tokens: Tokens,
    catalogue: &mut Catalogue,
    keeper: &mut K,
) -> Result<Result<(), ServeFail>, Fault>
    requires { IsWithinRanges command.size command.workers }
{
    let mut spool = open_spool(alloc, rt)?;
    let site = site_at(alloc, command.port, tokens)?;
    let door = TcpDoor::new(alloc, *rt, command.port, Patience::of_server())?;
    let mut door = LogDoor::new(door, *rt, log_of(rt));
    let mut clock = SystemClock::new(*rt);
    let setup = Setup {
        rt: threads,
        alloc,
        site: &site,
        gate: &NoGate,
    };
    Ok(serve(
        &setup, command, catalogue, &mut spool, keeper, &mut door, &mut clock,
    ))
}

/// Standard error, where a line for each request is wanted: where it is a terminal, or `OPENEO_LOG` is 1.
fn log_of(rt: &HostRuntime) -> Option<Writer<Stderr>> {
    let err = rt.stderr();
    let is_wanted = match env::var(rt, "OPENEO_LOG") {
        Ok(value) => value.as_str() == "1",
        Err(_) => err.is_terminal(),
    };
    if is_wanted {
        Some(Writer::new(err))
    } else {
        None
    }
}

/// The keeper over the file `openeo.db`, which is made where there is none.
///
/// Refuses: the set-up fault of the file where it could not be opened; out of memory.
fn open_database(alloc: Global, rt: &HostRuntime) -> Result<SqliteKeeper<FileStore<File>>, Fault> {
    match Connection::open(rt, "openeo.db") {
        Ok(conn) => Ok(SqliteKeeper::new(alloc, conn)),
        Err(Error::SqliteFailure(ErrorCode::OutOfMemory)) => Err(Fault::OutOfMemory),
        Err(_) => Err(Fault::setup(alloc, b"openeo.db")),
    }
}

/// The site at a port of this machine. Refuses: out of memory.
fn site_at(alloc: Global, port: u16, tokens: Tokens) -> Result<Site, OutOfMemory> {
    let mut base = String::new(alloc);
    base.push_str("http://127.0.0.1:")?;
    let mut digits = Buffer::new();
    base.push_str(digits.format(port))?;
    base.push('/')?;
    Ok(Site {
        base: Text::of(alloc, base.as_str())?,
        tokens,
    })
}
