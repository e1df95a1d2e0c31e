// The cube files and the mosaics of the folder `collections`.
ghost use Rattle.std.specs.Prelude.{◌≡◌, ◌↔◌, ◌⊎◌, IfErr, IfOk, IsOk, codes};
ghost use Rattle.oe_adapters.specs.Opened.{GoesBy};
ghost use Rattle.oe_adapters.specs.Setup.{HasMountFault, HasOpenFault, IsSetupFault};
ghost use Rattle.oe_adapters.specs.declared.fault.Fault.TheVariants as variant;

use crate::cube_or_mosaic::CubeOrMosaic;
use crate::fault::Fault;
use crate::files::FileStore;
use crate::mosaics::open_mosaic;
use crate::streams::read_again;
use oe_dims::Text;
use oe_outside::Store;
use oe_sources::{Catalogue, FileSource, MountFail, OpenFail};
use std::alloc::Global;
use std::fs::{File, Files, metadata};
use std::io::{ErrorKind, Read, Result as IoResult, Seek};
use std::os::unix::fs::FileExt;

/// The folder's name, by which a file is named whose own name is not UTF-8.
const FOLDER: &[u8] = b"collections";

/// How the name of a mosaic's file ends.
const MOSAIC: &[u8] = b".mosaic";

/// A cube file of the system as a collection.
pub(crate) type CubeFile<F> = FileSource<FileStore<F>>;

/// The names in the folder that end in `.cube`, in byte order, and behind them those that end in `.mosaic`, in byte
/// order too; none where there is no such folder.
///
/// Refuses: the set-up fault of the folder where it could not be read; out of memory.
pub fn collection_files<R: Files>(alloc: Global, files: &R) -> Result<Vec<Vec<u8>>, Fault>
    ensures { IfErr result (IsSetupFault (codes "collections")) }
{
    let mut folder = match files.open_dir("collections/") {
        Ok(folder) => folder,
        Err(error) => {
            if error.kind() == ErrorKind::NotFound {
                return Ok(Vec::new(alloc));
            }
            return Err(Fault::of_error(alloc, &error, FOLDER));
        }
    };
    let all = read_names(alloc, &mut folder, FOLDER)?;
    let mut names = names_ending(alloc, &all, b".cube")?;
    names.sort()?;
    let mut mosaics = names_ending(alloc, &all, MOSAIC)?;
    mosaics.sort()?;
    names.append(&mut mosaics)?;
    Ok(names)
}

/// The names that a folder reads as, each ended by a zero byte.
///
/// Refuses: the set-up fault of the name that is to be said, where it could not be read; out of memory.
pub(crate) fn read_names<D: Read>(
    alloc: Global,
    folder: &mut D,
    said: &[u8],
) -> Result<Vec<u8>, Fault>
    ensures { IfErr result (IsSetupFault said.now) }
{
    let mut names = Vec::new(alloc);
    // A name has up to 255 bytes, and no read ends inside one.
    let mut buffer = [0u8; 4096];
    for _ in 0..u64::MAX {
        let Some(count) = read_again(folder, &mut buffer) else {
            return Err(Fault::setup(alloc, said));
        };
        if count == 0 {
            return Ok(names);
        }
        names.extend_from_slice(&buffer[..count])?;
    }
    Err(Fault::setup(alloc, said))
}

/// Those of the names that have this ending.
pub(crate) fn names_ending(
    alloc: Global,
    names: &[u8],
    ending: &[u8],
) -> Result<Vec<Vec<u8>>, Fault>
    ensures { IfErr result (λ fault. fault ≡ variant.OutOfMemory) }
{
    let mut found = Vec::new(alloc);
    let mut start = 0;
    for end in 0..names.len() {
        if names[end] == 0 {
            let name = &names[start..end];
            if name.ends_with(ending) {
                push(&mut found, Vec::from_slice(alloc, name)?)?;
            }
            start = end + 1;
        }
    }
    Ok(found)
}

fn push(names: &mut Vec<Vec<u8>>, name: Vec<u8>) -> Result<(), Fault>
    ensures { IfErr result (λ fault. fault ≡ variant.OutOfMemory) }
{
    match names.push(name) {
        Ok(()) => Ok(()),
        Err(_) => Err(Fault::OutOfMemory),
    }
}

/// The id that a file of the folder gives, and what it has as a collection: a mosaic of the cube files that it names
/// where its name ends in `.mosaic`, and else the cube that it is. Only a plain file is opened: opening a pipe would wait
/// for what is never written. Labels that a mounted collection has along a dimension too stand in memory once for both.
///
/// Refuses: the set-up fault of the file where it, or a file that it names, is no plain file, could not be opened or is
/// not valid, or where the files that it names are no mosaic; that of the folder where its name is not UTF-8; out of
/// memory.
pub fn open_collection<R: Files>(
    alloc: Global,
    files: &R,
    name: &[u8],
    mounted: &Catalogue,
) -> Result<(Text, CubeOrMosaic<FileSource<FileStore<R::File>>>), Fault>
where
    R::File: FileExt,
    ensures id { IfOk result (λ opened. GoesBy opened.0 opened.1) }
    ensures refused { IfErr result (λ fault. IsSetupFault name.now fault
        ⊎ IsSetupFault (codes "collections") fault) }
{
    let Ok(text) = std::str::from_utf8(name) else {
        return Err(Fault::setup(alloc, FOLDER));
    };
    let file = open_in_folder(alloc, files, text, name)?;
    if name.ends_with(MOSAIC) {
        let (id, mosaic) = open_mosaic(alloc, files, file, name, mounted)?;
        return Ok((id, CubeOrMosaic::Mosaic(mosaic)));
    }
    let mut cube = open_cube(alloc, file, name)?;
    cube.share_labels(mounted);
    Ok((
        Text::of(alloc, cube.id().as_str())?,
        CubeOrMosaic::Cube(cube),
    ))
}

/// A plain file of the folder, opened to be read.
///
/// Refuses: the set-up fault of the name that is to be said, where it is no plain file or could not be opened; out of
/// memory.
pub(crate) fn open_in_folder<R: Files>(
    alloc: Global,
    files: &R,
    name: &str,
    said: &[u8],
) -> Result<R::File, Fault>
    ensures { IfErr result (IsSetupFault said.now) }
{
    let path = format!(in alloc; "collections/{name}")?;
    match open_plain(files, path.as_str()) {
        Ok(Some(file)) => Ok(file),
        Ok(None) => Err(Fault::setup(alloc, said)),
        Err(error) => Err(Fault::of_error(alloc, &error, said)),
    }
}

/// A plain file, opened to be read; `None` where something else has the path.
pub(crate) fn open_plain<R: Files>(files: &R, path: &str) -> IoResult<Option<R::File>> {
    if metadata(files, path)?.is_file() {
        Ok(Some(File::open(files, path)?))
    } else {
        Ok(None)
    }
}

/// An opened cube file as a collection.
///
/// Refuses: the set-up fault of the name that is to be said, where it is no cube file or could not be read; out of memory.
pub(crate) fn open_cube<F: FileExt + Seek + Drop>(
    alloc: Global,
    file: F,
    said: &[u8],
) -> Result<CubeFile<F>, Fault>
    ensures { IfErr result (IsSetupFault said.now) }
{
    match FileSource::open(alloc, FileStore::new(file)) {
        Ok(source) => Ok(source),
        Err(fail) => Err(open_fault(alloc, said, &fail)),
    }
}

/// What is said of a file that is no collection.
fn open_fault<S: Store + Drop>(alloc: Global, name: &[u8], fail: &OpenFail<S>) -> Fault
    ensures { HasOpenFault name.now fail.now result }
{
    match fail {
        OpenFail::OutOfMemory(_) => Fault::OutOfMemory,
        OpenFail::Failed(_) => Fault::setup(alloc, name),
        OpenFail::Invalid(_) => Fault::setup(alloc, name),
    }
}

/// What mounting the collection of a file came to.
///
/// Refuses: the set-up fault of the file where the id was taken or 64 collections are mounted; out of memory.
pub fn mount_outcome(
    alloc: Global,
    name: &[u8],
    outcome: Result<(), MountFail>,
) -> Result<(), Fault>
    ensures mounted { IsOk result ↔ IsOk outcome }
    ensures refused { IfErr outcome (λ fail. IfErr result (HasMountFault name.now fail)) }
{
    match outcome {
        Ok(()) => Ok(()),
        Err(MountFail::OutOfMemory(_)) => Err(Fault::OutOfMemory),
        Err(_) => Err(Fault::setup(alloc, name)),
    }
}
