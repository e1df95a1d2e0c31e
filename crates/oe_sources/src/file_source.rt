// Cube files as collections.
ghost use Rattle.std.specs.Prelude.{◌≡◌, ◌≢◌, ◌↔◌, ◌+◌, ◌<◌, ◌≤◌, ◌*◌, ◌^◌, Some, None, true, false, codes, length, vec_len, IfOk, OnOk, IfErr, IfSome, MatchOption};
ghost use Rattle.std.specs.List.{list_all};
ghost use Rattle.std.specs.Option.{option_map};
ghost use Rattle.oe_cube.specs.Kinds.{is_null_or_of};
ghost use Rattle.oe_outside.specs.Faults.{HasCauseOf, NeverFalls, Rose};
ghost use Rattle.oe_outside.specs.Stored.{StoreHolds};
ghost use Rattle.oe_dims.specs.Dimensions.{cell_count};
ghost use Rattle.oe_sources.specs.CubeFile.{IsCubeFile, contents_of};
ghost use Rattle.oe_sources.specs.Head as spec;
ghost use Rattle.oe_sources.specs.Head.{Head};
ghost use Rattle.oe_sources.specs.Source.{AreCellsOf, TellsDamage, asked_after};
ghost use Rattle.oe_window.specs.Windows.{Holds, position_count, whole_window};
ghost use Rattle.oe_wide.specs.Wide.{byte_count};
ghost use Rattle.oe_sources.specs.OpenedFile.{AreOfKind, AreStoredFrom, HasRecords, IsDamageFrom, IsOpened, IsSpotOf};
ghost use Rattle.oe_sources.specs.FileState.{IsCauseOf, Opens, ReadsPacked};
ghost use Rattle.oe_sources.specs.Opening.{BeginsAlone, IsNoStart, IsStart, Starts, TellsNoFile};

use crate::head::{Head, MOST_HEADER, START, Version, read_header};
use crate::packing::{ROOM, room};
use crate::sections::{Sections, Spot};
use crate::source::{is_failed, met};
use crate::stored::read_stored;
use crate::{Catalogue, CubeSource, LookFail, Looking, ReadFault, SharedSource, SourceFail};
use oe_cell::Cell;
use oe_dims::{CellKind, Shape, Text};
use oe_outside::{SharedStore, Store, fill_at, look_whole};
use oe_window::{Window, runs, size};
use std::alloc::Global;
use std::marker::Model;

/// Why a store was not opened as a cube file. The store is handed back, its bytes unchanged.
#[derive(Drop)]
pub enum OpenFail<S: Store + Drop> {
    /// A read of the store failed, and its fault counter rose.
    Failed(S),
    /// The store holds no cube file: its version, its header or its length is not that of one.
    Invalid(S),
    /// An allocation was refused.
    OutOfMemory(S),
}

/// The same, without the store.
#[derive(Clone, Copy)]
enum Refusal {
    Failed,
    Invalid,
    OutOfMemory,
}

/// A cube file in a store, of either version.
#[derive(Drop)]
pub struct FileSource<S: Store + Drop> {
    store: S,
    file: Opened,
    buffer: Vec<u8>,
    asked: u64,
}

impl<S: Store + Drop> Model for FileSource<S> {
    ghost use Rattle.oe_sources.specs.FileState.{FileState};

    ghost Value = { FileState };

    ghost use Rattle.std.specs.Prelude.{◌≡◌, vec_len, IfSome};
    ghost use Rattle.std.specs.Option.{option_map};
    ghost use Rattle.oe_sources.specs.CubeFile.{IsCubeFile, contents_of};
    ghost use Rattle.oe_sources.specs.OpenedFile.{IsOpened};

    ghost view = { λ f. record {
      id = f.file.head.id;
      source = record {
        shape = f.file.head.shape;
        kind = f.file.head.kind;
        contents = option_map (contents_of f.file.head) (S.bytes f.store);
        faults = S.faults f.store;
        asked = f.asked;
      };
    } };

    ghost invariant = { λ f. IsOpened f.file × (vec_len f.buffer ≡ 65536)
        × IfSome (S.bytes f.store) (λ all. IsCubeFile all f.file.head) };
}

/// What is known of an opened file, whose records stand from byte `base` on.
#[derive(Drop)]
pub(crate) struct Opened {
    head: Head,
    sections: Sections,
    base: u64,
}

impl<S: Store + Drop> FileSource<S> {
    /// The cube file that a store holds, of either version: the 8 bytes `OEOCUBE1` or `OEOCUBE2`, the length of the
    /// header as 4 bytes, the highest first, the header in its one spelling, the records, and the end. Its records are
    /// not looked at yet. The store keeps its bytes, whatever it answers.
    ///
    /// Refuses: `Failed` only where the store's fault counter rose; `Invalid` exactly where the store's bytes, if they
    /// are visible, are no cube file; each hands the store back.
    pub fn open(alloc: Global, mut store: S) -> Result<FileSource<S>, OpenFail<S>>
        ensures opened { IfOk result (λ f. IfSome (S.bytes store) (λ all. Opens all f)) }
        ensures start { IfOk result (λ f. (f.source.asked ≡ 0)
            × NeverFalls (S.faults store) f.source.faults) }
        ensures hidden { IfOk result (λ f. S.bytes store ≡ None → f.source.contents ≡ None) }
        ensures refused { IfErr result (IsCauseOf S.bytes S.faults store) }
        // A packed cube is given back.
        ensures packed { IfOk result (λ f. IfSome (S.bytes store) (λ all. ReadsPacked all f)) }
    {
        match open_file(alloc, &mut store) {
            Ok((file, buffer)) => Ok(FileSource {
                store,
                file,
                buffer,
                asked: 0,
            }),
            Err(Refusal::Failed) => Err(OpenFail::Failed(store)),
            Err(Refusal::Invalid) => Err(OpenFail::Invalid(store)),
            Err(Refusal::OutOfMemory) => Err(OpenFail::OutOfMemory(store)),
        }
    }

    /// The id that the header has.
    pub fn id(&self) -> &Text
        ensures { result.now ≡ self.now.id }
    {
        &self.file.head.id
    }

    /// Keeps its labels in memory once with those of the mounted collections that have the same along a dimension, as
    /// [`Catalogue::share_labels`] does.
    pub fn share_labels(&mut self, catalogue: &Catalogue)
        ensures { self.new ≡ self.old }
    {
        self.file.head.share_labels(catalogue);
    }
}

/// The file that a store holds, and the room for its records.
fn open_file<S: Store>(alloc: Global, store: &mut S) -> Result<(Opened, Vec<u8>), Refusal>
    ensures opened { IfOk result (λ p. IsOpened p.0 × (vec_len p.1 ≡ 65536)) }
    ensures is_file { IfOk result (λ p. IfSome (S.bytes store.old) (λ all.
        IsCubeFile all p.0.head × BeginsAlone all p.0.head)) }
    ensures refused { IfErr result (TellsNoFile (S.bytes store.old)) }
    ensures cause { HasCauseOf Refusal.Failed (S.faults store.old) (S.faults store.new) result }
    ensures same { S.bytes store.new ≡ S.bytes store.old }
{
    let Ok(total) = store.length() else {
        return Err(Refusal::Failed);
    };
    let Ok(buffer) = room(alloc) else {
        return Err(Refusal::OutOfMemory);
    };
    let (head, base) = read_head(alloc, store, total)?;
    let file = open_records(alloc, head, base, total)?;
    Ok((file, buffer))
}

/// What a file says before its records, and where these begin. `total` is how many bytes the store has.
fn read_head<S: Store>(alloc: Global, store: &mut S, total: u64) -> Result<(Head, u64), Refusal>
    requires { IfSome (S.bytes store.old) (λ all. total ≡ length all) }
    ensures valid { IfOk result (λ p. spec.IsHead p.0 × (p.1 ≡ length (spec.front_bytes p.0))) }
    ensures begins { IfOk result (λ p. IfSome (S.bytes store.old) (λ all. BeginsAlone all p.0)) }
    ensures refused { IfErr result (TellsNoFile (S.bytes store.old)) }
    ensures cause { HasCauseOf Refusal.Failed (S.faults store.old) (S.faults store.new) result }
    ensures same { S.bytes store.new ≡ S.bytes store.old }
{
    let (version, count) = read_start(store, total)?;
    let header = read_bytes(alloc, store, count)?;
    let Ok(read) = read_header(alloc, version, &header) else {
        return Err(Refusal::OutOfMemory);
    };
    match read {
        Some(head) => Ok((head, (START + count) as u64)),
        None => Err(Refusal::Invalid),
    }
}

/// The version and the length of the header, which ends within the store.
fn read_start<S: Store>(store: &mut S, total: u64) -> Result<(Version, usize), Refusal>
    requires { IfSome (S.bytes store.old) (λ all. total ≡ length all) }
    ensures short { IfOk result (λ p. p.1 ≤ spec.most_header) }
    ensures starts { IfOk result (λ p. IfSome (S.bytes store.old) (λ all. Starts all p)) }
    ensures refused { IfErr result (TellsNoFile (S.bytes store.old)) }
    ensures cause { HasCauseOf Refusal.Failed (S.faults store.old) (S.faults store.new) result }
    ensures same { S.bytes store.new ≡ S.bytes store.old }
{
    let mut start = [0u8; START];
    match fill_at(store, 0, &mut start) {
        Ok(true) => {}
        Ok(false) => return Err(Refusal::Invalid),
        Err(_) => return Err(Refusal::Failed),
    }
    let Some((version, count)) = start_of(&start) else {
        return Err(Refusal::Invalid);
    };
    if (START + count) as u64 > total {
        return Err(Refusal::Invalid);
    }
    Ok((version, count))
}

/// The version and the length of the header, `None` where the bytes are no start of a file.
fn start_of(start: &[u8]) -> Option<(Version, usize)>
    requires { length start.now ≡ 12 }
    ensures { MatchOption result (IsNoStart start.now) (IsStart start.now) }
{
    let Some(version) = version_of(&start[..8]) else {
        return None;
    };
    let mut four = [0u8; 4];
    four.copy_from_slice(&start[8..]);
    let count = u32::from_be_bytes(four) as usize;
    if count > MOST_HEADER {
        return None;
    }
    Some((version, count))
}

fn version_of(bytes: &[u8]) -> Option<Version>
    ensures first { (result ≡ Some Version.First) ↔ (bytes.now ≡ codes "OEOCUBE1") }
    ensures second { (result ≡ Some Version.Second) ↔ (bytes.now ≡ codes "OEOCUBE2") }
{
    if bytes == b"OEOCUBE1".as_slice() {
        Some(Version::First)
    } else if bytes == b"OEOCUBE2".as_slice() {
        Some(Version::Second)
    } else {
        None
    }
}

/// So many bytes of the header.
fn read_bytes<S: Store>(alloc: Global, store: &mut S, count: usize) -> Result<Vec<u8>, Refusal>
    ensures long { IfOk result (λ header. vec_len header ≡ count) }
    ensures held { IfOk result (λ header. StoreHolds (S.bytes store.old) 12 header.items) }
    ensures past { IfErr result (λ e. e ≡ Refusal.Invalid →
        IfSome (S.bytes store.old) (λ all. ¬ (12 + count ≤ length all))) }
    ensures cause { HasCauseOf Refusal.Failed (S.faults store.old) (S.faults store.new) result }
    ensures same { S.bytes store.new ≡ S.bytes store.old }
{
    let mut header = match vec![in alloc; 0u8; count] {
        Ok(header) => header,
        Err(_) => return Err(Refusal::OutOfMemory),
    };
    match fill_at(store, START as u64, header.as_mut_slice()) {
        Ok(true) => Ok(header),
        Ok(false) => Err(Refusal::Invalid),
        Err(_) => Err(Refusal::Failed),
    }
}

/// The file with this head, whose records stand from a base on and reach the end of the store.
fn open_records(alloc: Global, head: Head, base: u64, total: u64) -> Result<Opened, Refusal>
    requires valid { spec.IsHead head }
    requires base { base ≡ length (spec.front_bytes head) }
    ensures opened { IfOk result (λ file. IsOpened file × (file.head ≡ head)
        × (total ≡ base + spec.record_bytes_count head)) }
    ensures refused { IfErr result (λ e. (e ≡ Refusal.Invalid →
        ¬ (total ≡ base + spec.record_bytes_count head)) × (e ≢ Refusal.Failed)) }
{
    let Ok(sections) = Sections::of(alloc, &head) else {
        return Err(Refusal::OutOfMemory);
    };
    if base + sections.bytes() != total {
        return Err(Refusal::Invalid);
    }
    Ok(Opened {
        head,
        sections,
        base,
    })
}

impl<S: SharedStore + Drop> CubeSource for FileSource<S> {
    ghost seen = { λ f. f.source };

    fn shape(&self) -> &Shape {
        &self.file.head.shape
    }

    fn kind(&self) -> CellKind {
        self.file.head.kind
    }

    fn look(
        &self,
        _looking: &Looking,
        window: &Window,
        bytes: &mut [u8],
        into: &mut [Cell],
    ) -> Result<(), LookFail> {
        met(read_window(&self.store, &self.file, bytes, window, into))
    }

    fn count(&mut self, cells: u64, fault: Option<ReadFault>) {
        count_looks(&mut self.store, &mut self.asked, cells, fault.is_some());
    }

    fn read(&mut self, window: &Window, into: &mut [Cell]) -> Result<(), SourceFail> {
        let answer = read_window(
            &self.store,
            &self.file,
            self.buffer.as_mut_slice(),
            window,
            into,
        );
        let failed = is_failed(&answer);
        count_looks(&mut self.store, &mut self.asked, size(window), failed);
        answer
    }
}

impl<S: SharedStore + Drop + Send + Sync> SharedSource for FileSource<S> {}

/// Counts looks at so many cells, and a fault of the store where one of them failed.
fn count_looks<S: SharedStore>(store: &mut S, asked: &mut u64, cells: u64, failed: bool)
    ensures asked { asked.new ≡ asked_after asked.old cells }
    ensures falls { NeverFalls (S.faults store.old) (S.faults store.new) }
    ensures rose { failed ≡ true → Rose (S.faults store.old) (S.faults store.new) }
    ensures still { failed ≡ false → S.faults store.new ≡ S.faults store.old }
    ensures same { S.bytes store.new ≡ S.bytes store.old }
{
    *asked = asked.saturating_add(cells);
    if failed {
        store.count_fault();
    }
}

/// The cells of a window, run by run. It looks at the store, as all below it do, and counts nothing.
fn read_window<S: SharedStore>(
    store: &S,
    file: &Opened,
    buffer: &mut [u8],
    window: &Window,
    into: &mut [Cell],
) -> Result<(), SourceFail>
    requires opened { IsOpened file.now }
    requires room { length buffer.old ≡ 65536 }
    requires is_file { IfSome (S.bytes store.now) (λ all. IsCubeFile all file.now.head) }
    requires inside { Holds (whole_window file.now.head.shape) window.now }
    requires counted { length into.old ≡ position_count window.now }
    ensures given { OnOk result (IfSome (S.bytes store.now) (λ all.
        AreCellsOf file.now.head.shape (contents_of file.now.head all) window.now into.new)) }
    ensures of_kind { OnOk result (list_all (is_null_or_of file.now.head.kind) into.new ≡ true) }
    ensures damage { IfErr result (TellsDamage file.now.head.shape
        (option_map (contents_of file.now.head) (S.bytes store.now)) window.now) }
{
    let mut done = 0;
    for (first, count) in runs(window, &file.head.shape) {
        let end = done + count as usize;
        match read_run(store, file, buffer, first, &mut into[done..end]) {
            Ok(()) => done = end,
            Err(fail) => return Err(fail),
        }
    }
    Ok(())
}

/// The cells with the numbers from a first one on, piece by piece.
fn read_run<S: SharedStore>(
    store: &S,
    file: &Opened,
    buffer: &mut [u8],
    first: u64,
    into: &mut [Cell],
) -> Result<(), SourceFail>
    requires opened { IsOpened file.now }
    requires room { length buffer.old ≡ 65536 }
    requires is_file { IfSome (S.bytes store.now) (λ all. IsCubeFile all file.now.head) }
    requires within { first + length into.old ≤ cell_count file.now.head.shape }
    ensures read { OnOk result (AreStoredFrom file.now.head (S.bytes store.now) first
        (length into.old) into.new) }
    ensures of_kind { OnOk result (AreOfKind file.now.head.kind (length into.old) into.new) }
    ensures damage { IfErr result (IsDamageFrom file.now.head (S.bytes store.now) first
        (length into.old)) }
{
    let mut done = 0;
    while done < into.len() {
        match read_piece(store, file, buffer, first + done as u64, &mut into[done..]) {
            Ok(count) => done += count,
            Err(fail) => return Err(fail),
        }
    }
    Ok(())
}

/// As many cells from a number on as are of one section and fit the buffer, at least one and at most as many as there
/// is room for. It answers how many.
fn read_piece<S: SharedStore>(
    store: &S,
    file: &Opened,
    buffer: &mut [u8],
    number: u64,
    into: &mut [Cell],
) -> Result<usize, SourceFail>
    requires opened { IsOpened file.now }
    requires room { length buffer.old ≡ 65536 }
    requires is_file { IfSome (S.bytes store.now) (λ all. IsCubeFile all file.now.head) }
    requires some { 0 < length into.old }
    requires within { number + length into.old ≤ cell_count file.now.head.shape }
    ensures count { IfOk result (λ n. (0 < n) × (n ≤ length into.old)) }
    ensures read { IfOk result
        (λ n. AreStoredFrom file.now.head (S.bytes store.now) number n into.new) }
    ensures of_kind { IfOk result (λ n. AreOfKind file.now.head.kind n into.new) }
    ensures damage { IfErr result (IsDamageFrom file.now.head (S.bytes store.now) number
        (length into.old)) }
{
    let spot = spot_of(file, number);
    let width = spot.width.bytes();
    let most = spot.left.min((ROOM / width) as u64) as usize;
    let count = into.len().min(most);
    match read_records(
        store,
        spot,
        number,
        &mut buffer[..width * count],
        &mut into[..count],
    ) {
        Ok(()) => Ok(count),
        Err(fail) => Err(fail),
    }
}

/// Where the record of a cell stands in the file.
fn spot_of(file: &Opened, number: u64) -> Spot
    requires opened { IsOpened file.now }
    requires number { number < cell_count file.now.head.shape }
    ensures { IsSpotOf file.now.head number result }
{
    let spot = file.sections.place_of(&file.head, number);
    Spot {
        kind: spot.kind,
        width: spot.width,
        offset: file.base + spot.offset,
        left: spot.left,
    }
}

/// The cells of one section with the numbers from a first one on, whose record stands at the spot. The bytes have room
/// for exactly their records.
fn read_records<S: SharedStore>(
    store: &S,
    spot: Spot,
    number: u64,
    bytes: &mut [u8],
    into: &mut [Cell],
) -> Result<(), SourceFail>
    requires room { length bytes.old ≡ byte_count spot.width * length into.old }
    requires some { 0 < length into.old }
    requires few { number + length into.old ≤ 2 ^ 40 }
    ensures read { OnOk result ((head : Head) → IsSpotOf head number spot →
        length into.old ≤ spot.left →
        AreStoredFrom head (S.bytes store.now) number (length into.old) into.new) }
    ensures of_kind { OnOk result (AreOfKind spot.kind (length into.old) into.new) }
    ensures damage { IfErr result (λ e. (head : Head) → IsSpotOf head number spot →
        length into.old ≤ spot.left → HasRecords head (S.bytes store.now) number (length into.old) →
        IsDamageFrom head (S.bytes store.now) number (length into.old) e) }
{
    match look_whole(store, spot.offset, bytes) {
        Ok(true) => {}
        Ok(false) => return Err(SourceFail::Damaged(number)),
        Err(_) => return Err(SourceFail::Failed),
    }
    let read = read_stored(bytes, spot.width, spot.kind, into);
    if read < into.len() {
        return Err(SourceFail::Damaged(number + read as u64));
    }
    Ok(())
}
