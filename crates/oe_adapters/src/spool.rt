// The file that a run keeps its records in.
ghost use Rattle.std.specs.Prelude.{◌≡◌, IfOk, IfErr, codes};
ghost use Rattle.oe_adapters.specs.Setup.{IsSetupFault};

use crate::fault::Fault;
use crate::files::FileStore;
use std::alloc::Global;
use std::fs::{Files, OpenOptions};
use std::io::ErrorKind;
use std::os::unix::fs::FileExt;

/// The name by which the spool is made.
const NAME: &str = "openeo.spool";

/// How often it is tried.
const TRIES: u64 = 1000;

/// An empty file that is the caller's own: it is made by the name of the spool in the folder that the program runs in,
/// in place of what has that name, and has no name from then on.
///
/// Refuses: the set-up fault of the spool where its file could not be made; out of memory.
pub fn open_spool<R: Files>(alloc: Global, files: &R) -> Result<FileStore<R::File>, Fault>
where
    R::File: FileExt,
    ensures new { IfOk result (λ spool. spool.faults ≡ 0) }
    ensures refused { IfErr result (IsSetupFault (codes "openeo.spool")) }
{
    let mut options = OpenOptions::new();
    options.read(true).write(true).create_new(true);
    for _ in 0..TRIES {
        // What another run left goes, and a link is not followed.
        let _ = files.remove_file(NAME);
        match options.open(files, NAME) {
            Ok(file) => {
                // No other run finds it, and its room is free once this one ends, in whatever way.
                let _ = files.remove_file(NAME);
                return Ok(FileStore::new(file));
            }
            Err(error) => {
                // Another run made its file between the two calls.
                if error.kind() != ErrorKind::AlreadyExists {
                    return Err(Fault::of_error(alloc, &error, NAME.as_bytes()));
                }
            }
        }
    }
    Err(Fault::setup(alloc, NAME.as_bytes()))
}
