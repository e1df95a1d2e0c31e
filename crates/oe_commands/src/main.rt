//! The commands of the program `openeo` over files, as a program of their own: it stands on no server, database or client,
//! and so is built without its proofs in less than half of the time, for a first look.
//!
//! Words, files and statuses are those of `openeo`, but that `serve`, `client`, `--help` and `--version` spell no command
//! here. The boxed collections are made in `main` itself, which calls the command too, since one of its own is boxed there.
#![tactic(auto)]

use oe_adapters::{
    CubeOrMosaic, Fault, ProgressGate, Reader, Writer, collection_files, hold_standard,
    mount_outcome, open_collection, open_parts, open_spool, words_of,
};
use oe_dims::Text;
use oe_outside::Sink;
use oe_sources::Catalogue;
use oe_top::Setup;
use std::alloc::Global;
use std::env;
use std::fs::Files;
use std::process::ExitCode;

fn main(rt: HostRuntime) -> ExitCode {
    let alloc = rt.alloc();
    let mut err = Writer::new(rt.stderr());
    let start = match set_up(alloc, &rt, words_of(alloc, env::args(&rt))) {
        Ok(start) => start,
        Err(fault) => return ExitCode::from(end(&fault, &mut err)),
    };
    let mut catalogue = Catalogue::new(alloc);
    for index in 0..start.names.len() {
        let name = start.names[index].as_slice();
        let outcome = match open_collection(alloc, &rt, name, &catalogue) {
            Ok((id, source)) => match source {
                CubeOrMosaic::Cube(cube) => match Box::new(alloc, cube) {
                    Ok(cube) => mount_outcome(alloc, name, catalogue.mount(id.as_str(), cube)),
                    Err(_) => Err(Fault::OutOfMemory),
                },
                CubeOrMosaic::Mosaic(mosaic) => match Box::new(alloc, mosaic) {
                    Ok(mosaic) => mount_outcome(alloc, name, catalogue.mount(id.as_str(), mosaic)),
                    Err(_) => Err(Fault::OutOfMemory),
                },
            },
            Err(fault) => Err(fault),
        };
        if let Err(fault) = outcome {
            return ExitCode::from(end(&fault, &mut err));
        }
    }
    let mut parts = match open_parts(alloc, &rt, &start.words) {
        Ok(parts) => parts,
        Err(fault) => return ExitCode::from(end(&fault, &mut err)),
    };
    // The match is the last of all, so that what was mounted is dropped once.
    let status = match open_spool(alloc, &rt) {
        Ok(mut spool) => oe_top::openeo(
            &Setup {
                rt: &rt,
                alloc,
                gate: &ProgressGate::new(rt.stderr()),
            },
            &start.words,
            &mut Reader::new(rt.stdin()),
            &mut Writer::new(rt.stdout()),
            &mut err,
            &mut catalogue,
            &mut parts,
            &mut spool,
        ),
        Err(fault) => end(&fault, &mut err),
    };
    ExitCode::from(status)
}

/// What a command starts from: its words, the names of the files to mount, and three files that stand in for
/// standard streams that are closed.
struct Start<F: Drop> {
    words: Vec<Text>,
    names: Vec<Vec<u8>>,
    _standard: [F; 3],
}

// Written out, so that `main` does not prove at each of its ends how each part is dropped.
impl<F: Drop> Drop for Start<F> {
    fn drop(self) {
        let Start {
            words: _,
            names: _,
            _standard: _,
        } = self;
    }
}

/// Looks for what a command works on. Refuses: as the words were; as [`hold_standard`] and [`collection_files`] do.
fn set_up<R: Files>(
    alloc: Global,
    files: &R,
    words: Result<Vec<Text>, Fault>,
) -> Result<Start<R::File>, Fault> {
    let words = words?;
    let standard = hold_standard(alloc, files)?;
    Ok(Start {
        words,
        names: collection_files(alloc, files)?,
        _standard: standard,
    })
}

/// Says why the program ended before its command, and answers its exit status.
fn end<E: Sink>(fault: &Fault, err: &mut E) -> u8 {
    // Where the line can't be written, the status alone tells.
    let _ = err.write(fault.line());
    fault.status()
}
