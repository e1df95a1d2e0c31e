// The parts of a run in the folder `parts`.
ghost use Rattle.std.specs.Prelude.{◌≡◌, ◌↔◌, ℕ, List, [], ◌∷◌, IfErr, IsTrue, Ok, codes};
ghost use Rattle.oe_adapters.specs.Setup.{IsSetupFault};

use crate::collections::{names_ending, open_plain, read_names};
use crate::fault::Fault;
use crate::files::FileStore;
use oe_dims::{Text, is_name};
use oe_outside::Store;
use oe_parts::{OpenFail, PushFail, RunPart, RunParts};
use std::alloc::Global;
use std::fs::Files;
use std::io::ErrorKind;
use std::os::unix::fs::FileExt;

/// The folder's name.
const FOLDER: &[u8] = b"parts";

/// The parts that words need: where they are `join` alone, the files of the folder `parts` whose names end in `.part`, in
/// byte order of their names; and else none, so that no other command looks at a part that is being written. Without that
/// folder there are none.
///
/// Refuses: the set-up fault of the first file, in that order, that is no plain file, could not be opened or read, is no
/// part file, is a 1025th one, or whose name is not 1 to 64 letters, digits, `_`, `-` and `.`; that of the folder where it
/// could not be read; out of memory.
pub fn open_parts<R: Files>(
    alloc: Global,
    files: &R,
    words: &[Text],
) -> Result<RunParts<FileStore<R::File>>, Fault>
where
    R::File: FileExt,
    ensures others { ¬ (words.now ≡ codes "join" ∷ []) → result ≡ Ok [] }
    ensures refused { IfErr result (λ fault. (name : List ℕ) × IsSetupFault name fault) }
{
    let mut parts = RunParts::new(alloc);
    if !is_join(words) {
        return Ok(parts);
    }
    let names = part_files(alloc, files)?;
    for index in 0..names.len() {
        let name = names[index].as_slice();
        let part = open_part(alloc, files, name)?;
        push_outcome(alloc, name, parts.push(part))?;
    }
    Ok(parts)
}

/// Whether the words are `join` alone.
fn is_join(words: &[Text]) -> bool
    ensures { IsTrue result ↔ words.now ≡ codes "join" ∷ [] }
{
    match words {
        [verb] => is_join_verb(verb),
        _ => false,
    }
}

fn is_join_verb(verb: &Text) -> bool
    ensures { IsTrue result ↔ verb.now ≡ codes "join" }
{
    verb.as_str() == "join"
}

/// The names in the folder that end in `.part`, in byte order; none where there is no such folder.
fn part_files<R: Files>(alloc: Global, files: &R) -> Result<Vec<Vec<u8>>, Fault>
    ensures { IfErr result (IsSetupFault (codes "parts")) }
{
    let mut folder = match files.open_dir("parts/") {
        Ok(folder) => folder,
        Err(error) => {
            if error.kind() == ErrorKind::NotFound {
                return Ok(Vec::new(alloc));
            }
            return Err(Fault::of_error(alloc, &error, FOLDER));
        }
    };
    let all = read_names(alloc, &mut folder, FOLDER)?;
    let mut names = names_ending(alloc, &all, b".part")?;
    names.sort()?;
    Ok(names)
}

/// The part that a file of the folder is.
fn open_part<R: Files>(
    alloc: Global,
    files: &R,
    name: &[u8],
) -> Result<RunPart<FileStore<R::File>>, Fault>
where
    R::File: FileExt,
    ensures { IfErr result (IsSetupFault name.now) }
{
    let text = match std::str::from_utf8(name) {
        Ok(text) => text,
        Err(_) => return Err(Fault::setup(alloc, name)),
    };
    if !is_name(text) {
        return Err(Fault::setup(alloc, name));
    }
    let file = open_in_parts(alloc, files, text)?;
    match RunPart::open(alloc, Text::of(alloc, text)?, FileStore::new(file)) {
        Ok(part) => Ok(part),
        Err(fail) => Err(part_fault(alloc, name, &fail)),
    }
}

/// What is said of a file that is no part.
fn part_fault<S: Store + Drop>(alloc: Global, name: &[u8], fail: &OpenFail<S>) -> Fault
    ensures { IsSetupFault name.now result }
{
    match fail {
        OpenFail::OutOfMemory(_) => Fault::OutOfMemory,
        OpenFail::Failed(_) | OpenFail::Invalid(_) => Fault::setup(alloc, name),
    }
}

/// A plain file of the folder, opened to be read.
fn open_in_parts<R: Files>(alloc: Global, files: &R, name: &str) -> Result<R::File, Fault>
    ensures { IfErr result (IsSetupFault name.now) }
{
    let path = format!(in alloc; "parts/{name}")?;
    match open_plain(files, path.as_str()) {
        Ok(Some(file)) => Ok(file),
        Ok(None) => Err(Fault::setup(alloc, name.as_bytes())),
        Err(error) => Err(Fault::of_error(alloc, &error, name.as_bytes())),
    }
}

/// What adding a part came to.
fn push_outcome(alloc: Global, name: &[u8], outcome: Result<(), PushFail>) -> Result<(), Fault>
    ensures { IfErr result (IsSetupFault name.now) }
{
    match outcome {
        Ok(()) => Ok(()),
        Err(PushFail::Full) => Err(Fault::setup(alloc, name)),
        Err(PushFail::OutOfMemory) => Err(Fault::OutOfMemory),
    }
}
