//! The program `openeo`: an openEO back end over exact datacubes.
//!
//! `main` makes a text of each word and prints a text about the program where they ask for one. Else it sets up what a
//! command works on, the cube files and mosaics of the folder `collections`, the users of `tokens.txt` and a file for the
//! cells of runs, and calls `oe_serve` where the words are those of a server, `oe_dial` where they are those of a client,
//! and else `oe_top`, whose answer is the exit status. Only a server opens the database. The boxed collections are made in
//! `main` itself; all else runs over traits, so that it can be made to fail. The bytes that pass the adapters and the
//! database are hidden, so over them the causes by fault counters hold; what the calls write is their own contract.
#![tactic(auto)]

mod client;
mod help;
mod program;
mod server;

use client::client_words;
use oe_adapters::{
    CubeOrMosaic, Fault, ProgressGate, Reader, Writer, mount_outcome, open_collection, open_parts,
    open_spool, words_of,
};
use oe_sources::Catalogue;
use oe_top::{Setup, openeo};
use program::{end, set_up};
use server::{read_tokens, serve_words};
use std::env;
use std::process::ExitCode;

fn main(rt: HostRuntime) -> ExitCode {
    let alloc = rt.alloc();
    let mut out = Writer::new(rt.stdout());
    let mut err = Writer::new(rt.stderr());
    let start = match set_up(alloc, &rt, words_of(alloc, env::args(&rt)), &mut out) {
        Ok(Some(start)) => start,
        Ok(None) => return ExitCode::SUCCESS,
        Err(fault) => return ExitCode::from(end(&fault, &mut err)),
    };
    let mut catalogue = Catalogue::new(alloc);
    for index in 0..start.names.len() {
        let name = start.names[index].as_slice();
        let outcome = match open_collection(alloc, &rt, name, &catalogue) {
            Ok((id, source)) => match source {
                CubeOrMosaic::Cube(cube) => match Box::new(alloc, cube) {
                    Ok(cube) => mount_outcome(alloc, name, catalogue.mount(id.as_str(), cube)),
                    Err(_) => Err(Fault::OutOfMemory),
                },
                CubeOrMosaic::Mosaic(mosaic) => match Box::new(alloc, mosaic) {
                    Ok(mosaic) => mount_outcome(alloc, name, catalogue.mount(id.as_str(), mosaic)),
                    Err(_) => Err(Fault::OutOfMemory),
                },
            },
            Err(fault) => Err(fault),
        };
        if let Err(fault) = outcome {
            return ExitCode::from(end(&fault, &mut err));
        }
    }
    let tokens = match read_tokens(alloc, &rt) {
        Ok(tokens) => tokens,
        Err(fault) => return ExitCode::from(end(&fault, &mut err)),
    };
    if let Some(status) = serve_words(
        alloc,
        &rt,
        &rt,
        &start.words,
        tokens,
        &mut catalogue,
        &mut err,
    ) {
        return ExitCode::from(status);
    }
    let mut parts = match open_parts(alloc, &rt, &start.words) {
        Ok(parts) => parts,
        Err(fault) => return ExitCode::from(end(&fault, &mut err)),
    };
    let mut input = Reader::new(rt.stdin());
    let mut spool = match open_spool(alloc, &rt) {
        Ok(spool) => spool,
        Err(fault) => return ExitCode::from(end(&fault, &mut err)),
    };
    if let Some(status) = client_words(alloc, rt, &start.words, &mut input, &mut out, &mut err) {
        return ExitCode::from(status);
    }
    let setup = Setup {
        rt: &rt,
        alloc,
        gate: &ProgressGate::new(rt.stderr()),
    };
    ExitCode::from(openeo(
        &setup,
        &start.words,
        &mut input,
        &mut out,
        &mut err,
        &mut catalogue,
        &mut parts,
        &mut spool,
    ))
}
