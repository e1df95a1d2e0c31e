// Opened parts.
ghost use Rattle.std.specs.Prelude.{◌≡◌, ◌↔◌, ◌+◌, ◌*◌, ◌≤◌, ◌<◌, true, IfOk, IfErr, IfSome, IsTrue, MatchOption, codes, length, vec_len};
ghost use Rattle.oe_outside.specs.Faults.{HasCauseOf};
ghost use Rattle.oe_outside.specs.Stored.{StoreHolds};
ghost use Rattle.oe_parts.specs.Head as spec;
ghost use Rattle.oe_parts.specs.Head.{IsPartHead, front_bytes};
ghost use Rattle.oe_parts.specs.Opening.{BeginsAlone, IsNoStart, IsStart, Starts, TellsNoFile};
ghost use Rattle.oe_parts.specs.PartFile.{part_cells};
ghost use Rattle.oe_parts.specs.Parts.{IsPartCause, IsPartFileAlone, Opens};

use crate::head::{MOST_HEADER, PartHead, START, read_header};
use oe_dims::Text;
use oe_outside::{Store, fill_at};
use oe_window::size;
use std::alloc::Global;
use std::marker::Model;

/// A part file in a store. Its records stand from byte `base` on.
#[derive(Drop)]
pub struct RunPart<S: Store + Drop> {
    name: Text,
    pub(crate) store: S,
    pub(crate) head: PartHead,
    pub(crate) base: u64,
}

impl<S: Store + Drop> Model for RunPart<S> {
    ghost use Rattle.std.specs.Prelude.{◌≡◌, ◌≤◌, length, IfSome};
    ghost use Rattle.oe_parts.specs.Head.{IsPartHead, front_bytes};
    ghost use Rattle.oe_parts.specs.PartFile.{IsPartFile};
    ghost use Rattle.oe_parts.specs.Parts.{PartState};

    ghost Value = { PartState };

    ghost view = { λ p. record {
      name = p.name;
      head = p.head;
      bytes = S.bytes p.store;
      faults = S.faults p.store;
    } };

    ghost invariant = { λ p. IsPartHead p.head × (p.base ≡ length (front_bytes p.head))
        × IfSome (S.bytes p.store) (λ all. IsPartFile all p.head) × (length p.name ≤ 64) };
}

/// Why a store was not opened as a part. The store is handed back, its bytes unchanged.
#[derive(Drop)]
pub enum OpenFail<S: Store + Drop> {
    /// A read of the store failed, and its fault counter rose.
    Failed(S),
    /// The store holds no part file: its version, its header or its length is not that of one.
    Invalid(S),
    /// An allocation was refused.
    OutOfMemory(S),
}

/// The same, without the store.
#[derive(Clone, Copy)]
enum Refusal {
    Failed,
    Invalid,
    OutOfMemory,
}

impl<S: Store + Drop> RunPart<S> {
    /// The part that a store holds, under the name of its file, which has at most 64 bytes: the 8 bytes `OEOPART1`,
    /// the length of the header as 4 bytes, the highest first, the header in its one spelling, the records, and the
    /// end. Its records are not looked at yet. The store keeps its bytes, whatever it answers.
    ///
    /// Refuses: `Failed` only where the store's fault counter rose; `Invalid` exactly where the store's bytes, if
    /// they are visible, are no part file; each hands the store back.
    pub fn open(alloc: Global, name: Text, mut store: S) -> Result<RunPart<S>, OpenFail<S>>
        requires { length name ≤ 64 }
        ensures opened { IfOk result (Opens name (S.bytes store) (S.faults store)) }
        ensures refused { IfErr result (IsPartCause S.bytes S.faults store) }
    {
        match open_file(alloc, &mut store) {
            Ok((head, base)) => Ok(RunPart {
                name,
                store,
                head,
                base,
            }),
            Err(Refusal::Failed) => Err(OpenFail::Failed(store)),
            Err(Refusal::Invalid) => Err(OpenFail::Invalid(store)),
            Err(Refusal::OutOfMemory) => Err(OpenFail::OutOfMemory(store)),
        }
    }

    /// The name of its file.
    pub fn name(&self) -> &Text
        ensures value { result.now ≡ self.now.name }
        ensures short { length result.now ≤ 64 }
    {
        &self.name
    }

    /// What it says before its records.
    pub(crate) fn head(&self) -> &PartHead
        ensures value { result.now ≡ self.now.head }
        ensures valid { IsPartHead self.now.head }
    {
        &self.head
    }
}

/// What a file says before its records, and where these begin.
fn open_file<S: Store>(alloc: Global, store: &mut S) -> Result<(PartHead, u64), Refusal>
    ensures valid { IfOk result (λ p. IsPartHead p.0 × (p.1 ≡ length (front_bytes p.0))) }
    ensures is_file { IfOk result (λ p. IfSome (S.bytes store.old) (λ all.
        IsPartFileAlone all p.0)) }
    ensures refused { IfErr result (TellsNoFile (S.bytes store.old)) }
    ensures cause { HasCauseOf Refusal.Failed (S.faults store.old) (S.faults store.new) result }
    ensures same { S.bytes store.new ≡ S.bytes store.old }
{
    let Ok(total) = store.length() else {
        return Err(Refusal::Failed);
    };
    let (head, base) = read_head(alloc, store, total)?;
    if ends_at(&head, base, total) {
        Ok((head, base))
    } else {
        Err(Refusal::Invalid)
    }
}

/// What a file says before its records, and where these begin. `total` is how many bytes the store has.
fn read_head<S: Store>(alloc: Global, store: &mut S, total: u64) -> Result<(PartHead, u64), Refusal>
    requires { IfSome (S.bytes store.old) (λ all. total ≡ length all) }
    ensures valid { IfOk result (λ p. IsPartHead p.0 × (p.1 ≡ length (front_bytes p.0))) }
    ensures begins { IfOk result (λ p. IfSome (S.bytes store.old) (λ all. BeginsAlone all p.0)) }
    ensures refused { IfErr result (TellsNoFile (S.bytes store.old)) }
    ensures cause { HasCauseOf Refusal.Failed (S.faults store.old) (S.faults store.new) result }
    ensures same { S.bytes store.new ≡ S.bytes store.old }
{
    let count = read_start(store, total)?;
    let header = read_bytes(alloc, store, count)?;
    let Ok(read) = read_header(alloc, &header) else {
        return Err(Refusal::OutOfMemory);
    };
    match read {
        Some(head) => Ok((head, (START + count) as u64)),
        None => Err(Refusal::Invalid),
    }
}

/// The length of the header, which ends within the store.
fn read_start<S: Store>(store: &mut S, total: u64) -> Result<usize, Refusal>
    requires { IfSome (S.bytes store.old) (λ all. total ≡ length all) }
    ensures short { IfOk result (λ count. count ≤ spec.most_header) }
    ensures starts { IfOk result (λ count. IfSome (S.bytes store.old) (λ all. Starts all count)) }
    ensures refused { IfErr result (TellsNoFile (S.bytes store.old)) }
    ensures cause { HasCauseOf Refusal.Failed (S.faults store.old) (S.faults store.new) result }
    ensures same { S.bytes store.new ≡ S.bytes store.old }
{
    let mut start = [0u8; START];
    match fill_at(store, 0, &mut start) {
        Ok(true) => {}
        Ok(false) => return Err(Refusal::Invalid),
        Err(_) => return Err(Refusal::Failed),
    }
    let Some(count) = count_in(&start) else {
        return Err(Refusal::Invalid);
    };
    if (START + count) as u64 > total {
        return Err(Refusal::Invalid);
    }
    Ok(count)
}

/// The length of the header, `None` where the bytes are no start of a part file.
fn count_in(start: &[u8]) -> Option<usize>
    requires { length start.now ≡ 12 }
    ensures { MatchOption result (IsNoStart start.now) (IsStart start.now) }
{
    if !is_version(&start[..8]) {
        return None;
    }
    let mut four = [0u8; 4];
    four.copy_from_slice(&start[8..]);
    let count = u32::from_be_bytes(four) as usize;
    if count > MOST_HEADER {
        return None;
    }
    Some(count)
}

fn is_version(bytes: &[u8]) -> bool
    ensures { IsTrue result ↔ (bytes.now ≡ codes "OEOPART1") }
{
    bytes == b"OEOPART1".as_slice()
}

/// So many bytes of the header.
fn read_bytes<S: Store>(alloc: Global, store: &mut S, count: usize) -> Result<Vec<u8>, Refusal>
    ensures long { IfOk result (λ header. vec_len header ≡ count) }
    ensures held { IfOk result (λ header. StoreHolds (S.bytes store.old) 12 header.items) }
    ensures past { IfErr result (λ e. e ≡ Refusal.Invalid →
        IfSome (S.bytes store.old) (λ all. ¬ (12 + count ≤ length all))) }
    ensures cause { HasCauseOf Refusal.Failed (S.faults store.old) (S.faults store.new) result }
    ensures same { S.bytes store.new ≡ S.bytes store.old }
{
    let mut header = match vec![in alloc; 0u8; count] {
        Ok(header) => header,
        Err(_) => return Err(Refusal::OutOfMemory),
    };
    match fill_at(store, START as u64, header.as_mut_slice()) {
        Ok(true) => Ok(header),
        Ok(false) => Err(Refusal::Invalid),
        Err(_) => Err(Refusal::Failed),
    }
}

/// Whether the records of the chunks of a head, which stand from a base on, end where the file does. No more chunks are
/// looked at than the file has room for: each has a cell at least.
fn ends_at(head: &PartHead, base: u64, total: u64) -> bool
    requires { IsPartHead head.now }
    ensures { IsTrue result ↔ (total ≡ base + 17 * part_cells head.now) }
{
    let grid = head.grid();
    if base > total {
        return false;
    }
    let most = (total - base) / 17;
    let mut cells = 0;
    for chunk in head.first..head.end {
        cells += size(&grid.chunk(chunk));
        if cells > most {
            return false;
        }
    }
    base + 17 * cells == total
}
