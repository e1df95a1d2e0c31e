// The mosaics of the folder `collections`.
ghost use Rattle.std.specs.Prelude.{◌≡◌, ◌↔◌, length, IfErr, IfOk, IsOk};
ghost use Rattle.oe_mosaic.specs.MosaicText.{names_of};
ghost use Rattle.oe_adapters.specs.Opened.{AreNamesOfText, IsMosaicBy};
ghost use Rattle.oe_adapters.specs.Setup.{HasMosaicFault, HasPartFault, HasTextFault, IsSetupFault};

use crate::collections::{CubeFile, open_cube, open_in_folder};
use crate::fault::Fault;
use crate::files::FileStore;
use oe_dims::Text;
use oe_mosaic::{Mosaic, MosaicFail, MosaicText, MosaicTextFail, PartFail, Parts, read_mosaic};
use oe_outside::Store;
use oe_sources::{Catalogue, CubeSource};
use std::alloc::Global;
use std::fs::Files;
use std::io::Seek;
use std::os::unix::fs::FileExt;

/// The most bytes of a mosaic's file: 17 lines, each of 64 bytes and a line feed.
const MOST_BYTES: usize = 1105;

/// The id that an opened file of a mosaic gives, and the mosaic of the cube files that it names.
///
/// Refuses: the set-up fault of the mosaic's file where it could not be read or is not valid, where a file that it names
/// is no plain file, could not be opened or is no cube file, or where these are no mosaic; out of memory.
pub(crate) fn open_mosaic<R: Files>(
    alloc: Global,
    files: &R,
    file: R::File,
    name: &[u8],
    mounted: &Catalogue,
) -> Result<(Text, Mosaic<CubeFile<R::File>>), Fault>
where
    R::File: FileExt,
    ensures made { IfOk result (λ made. IsMosaicBy made.0 made.1) }
    ensures refused { IfErr result (IsSetupFault name.now) }
{
    let text = read_text(alloc, file, name)?;
    mosaic_of(alloc, files, text, name, mounted)
}

/// The id that the text of a mosaic gives, and the mosaic of the cube files that it names.
///
/// Refuses: the set-up fault of the mosaic's file where a file that it names is no plain file, could not be opened or is
/// no cube file, or where these are no mosaic; out of memory.
fn mosaic_of<R: Files>(
    alloc: Global,
    files: &R,
    text: MosaicText,
    name: &[u8],
    mounted: &Catalogue,
) -> Result<(Text, Mosaic<CubeFile<R::File>>), Fault>
where
    R::File: FileExt,
    ensures id { IfOk result (λ made. made.0 ≡ text.id) }
    ensures parts { IfOk result (λ made. length made.1.parts ≡ length text.files.items) }
    ensures refused { IfErr result (IsSetupFault name.now) }
{
    let parts = open_parts(alloc, files, &text.files, name, mounted)?;
    match Mosaic::of(alloc, parts) {
        Ok(mosaic) => Ok((text.id, mosaic)),
        Err(fail) => Err(mosaic_fault(alloc, name, &fail)),
    }
}

/// What an opened file of a mosaic says.
fn read_text<F: FileExt + Seek + Drop>(
    alloc: Global,
    file: F,
    name: &[u8],
) -> Result<MosaicText, Fault>
    ensures names { IfOk result (λ text. AreNamesOfText (names_of text)) }
    ensures refused { IfErr result (IsSetupFault name.now) }
{
    // One byte more than the longest has: what is read of a longer one is not valid either.
    let mut bytes = [0u8; MOST_BYTES + 1];
    let mut store = FileStore::new(file);
    let Ok(count) = store.read_at(0, &mut bytes) else {
        return Err(Fault::setup(alloc, name));
    };
    match read_mosaic(alloc, &bytes[..count]) {
        Ok(text) => Ok(text),
        Err(fail) => Err(text_fault(alloc, name, fail)),
    }
}

/// The cube files of these names, in their order.
fn open_parts<R: Files>(
    alloc: Global,
    files: &R,
    names: &[Text],
    mosaic: &[u8],
    mounted: &Catalogue,
) -> Result<Parts<CubeFile<R::File>>, Fault>
where
    R::File: FileExt,
    ensures count { IfOk result (λ parts. length parts ≡ length names.now) }
    ensures refused { IfErr result (IsSetupFault mosaic.now) }
{
    let mut parts = Parts::new(alloc);
    for index in 0..names.len() {
        let file = open_in_folder(alloc, files, names[index].as_str(), mosaic)?;
        let mut part = open_cube(alloc, file, mosaic)?;
        part.share_labels(mounted);
        push_outcome(alloc, mosaic, parts.push(part))?;
    }
    Ok(parts)
}

/// What adding a part came to.
fn push_outcome<S: CubeSource>(
    alloc: Global,
    mosaic: &[u8],
    outcome: Result<(), PartFail<S>>,
) -> Result<(), Fault>
    ensures added { IsOk result ↔ IsOk outcome }
    ensures refused { IfErr outcome (λ fail. IfErr result (HasPartFault mosaic.now fail)) }
{
    match outcome {
        Ok(()) => Ok(()),
        Err(PartFail::OutOfMemory(_)) => Err(Fault::OutOfMemory),
        Err(_) => Err(Fault::setup(alloc, mosaic)),
    }
}

/// What is said of a mosaic's file that is not valid.
fn text_fault(alloc: Global, name: &[u8], fail: MosaicTextFail) -> Fault
    ensures { HasTextFault name.now fail result }
{
    match fail {
        MosaicTextFail::Invalid(_) => Fault::setup(alloc, name),
        MosaicTextFail::OutOfMemory => Fault::OutOfMemory,
    }
}

/// What is said of parts that are no mosaic.
fn mosaic_fault<S: CubeSource>(alloc: Global, name: &[u8], fail: &MosaicFail<S>) -> Fault
    ensures { HasMosaicFault name.now fail.now result }
{
    match fail {
        MosaicFail::NoParts(_) => Fault::setup(alloc, name),
        MosaicFail::TooLarge(_) => Fault::setup(alloc, name),
        MosaicFail::OutOfMemory(_) => Fault::OutOfMemory,
    }
}
