// The parts of a mosaic, before it is made.
ghost use Rattle.std.specs.Prelude.{◌≡◌, ◌≤◌, ◌<◌, ◌+◌, ◌∷◌, ◌++◌, [], true, false, length, slice_get, take, drop, Some, None, IfOk, IfErr, OnOk, OnErr, IfSome, IfNone, OnSome};
ghost use Rattle.std.specs.List.{list_all};
ghost use Rattle.oe_dims.specs.Dimensions.{label_count};
ghost use Rattle.oe_mosaic.specs.Mosaics.{part_of, parts_of};
ghost use Rattle.oe_mosaic.specs.Parts.{IsSound, fits_dimensions, fits_kind, is_alike, may_replace, same_dimensions, same_kind, same_presence};

use oe_dims::{CellKind, Kind, Shape};
use oe_sources::CubeSource;
use std::alloc::Global;
use std::marker::Model;

/// The most parts of a mosaic.
const MOST_PARTS: usize = 16;

/// Why a collection was not taken as a part. It is handed back.
#[derive(Drop)]
pub enum PartFail<S: CubeSource> {
    /// The kind of its cells is not that of the first part.
    KindDiffers(S),
    /// Its dimensions or its EPSG code are not those of the first part.
    DimensionsDiffer(S),
    /// There are 16 parts.
    Full(S),
    /// An allocation was refused.
    OutOfMemory(S),
}

/// Up to 16 collections of one kind, with the same dimensions and one reference system, in order of priority.
#[derive(Drop)]
pub struct Parts<S: CubeSource> {
    pub(crate) items: Vec<S>,
}

impl<S: CubeSource> Model for Parts<S> {
    ghost use Rattle.std.specs.Prelude.{List};
    ghost use Rattle.oe_mosaic.specs.Mosaics.{parts_of};
    ghost use Rattle.oe_mosaic.specs.Parts.{ArePartsOfOne};

    ghost Value = { List S };

    ghost view = { λ p. p.items.items };

    ghost invariant = { λ p. ArePartsOfOne (parts_of S.seen p.items.items) };
}

fn same_kind(a: CellKind, b: CellKind) -> bool
    ensures { result ≡ same_kind a b }
{
    match (a, b) {
        (CellKind::Numbers, CellKind::Numbers) => true,
        (CellKind::Flags, CellKind::Flags) => true,
        _ => false,
    }
}

/// Both shapes have the dimension, or neither has.
fn same_presence(a: &Shape, b: &Shape, kind: Kind) -> bool
    ensures { result ≡ same_presence (label_count a.now kind) (label_count b.now kind) }
{
    match (a.count(kind), b.count(kind)) {
        (Some(_), Some(_)) => true,
        (None, None) => true,
        _ => false,
    }
}

fn same_dimensions(a: &Shape, b: &Shape) -> bool
    ensures { result ≡ same_dimensions a.now b.now }
{
    a.epsg() == b.epsg()
        && same_presence(a, b, Kind::Time)
        && same_presence(a, b, Kind::Bands)
        && same_presence(a, b, Kind::Y)
        && same_presence(a, b, Kind::X)
}

/// The kind of a part is that of the first one, if there is one.
fn fits_kind<S: CubeSource>(items: &[S], part: &S) -> bool
    ensures { result ≡ fits_kind (parts_of S.seen items.now) (part_of (S.seen part.now)) }
{
    match items.first() {
        Some(first) => same_kind(first.kind(), part.kind()),
        None => true,
    }
}

/// The shape of a part, which is valid.
fn shape_of<S: CubeSource>(part: &S) -> &Shape
    ensures value { result.now ≡ (S.seen part.now).shape }
    ensures sound { IsSound (part_of (S.seen part.now)) }
{
    let shape = part.shape();
    let _epsg = shape.epsg();
    shape
}

/// The dimensions and the EPSG code of a part are those of the first one, if there is one.
fn fits_dimensions<S: CubeSource>(items: &[S], part: &S) -> bool
    ensures value { result
        ≡ fits_dimensions (parts_of S.seen items.now) (part_of (S.seen part.now)) }
    ensures sound { IsSound (part_of (S.seen part.now)) }
{
    let shape = shape_of(part);
    match items.first() {
        Some(first) => same_dimensions(first.shape(), shape),
        None => true,
    }
}

/// Two parts may stand in one mosaic.
fn is_alike<S: CubeSource>(a: &S, b: &S) -> bool
    ensures { result ≡ is_alike (part_of (S.seen a.now)) (part_of (S.seen b.now)) }
{
    same_kind(a.kind(), b.kind()) && same_dimensions(a.shape(), b.shape())
}

/// A part may stand in one mosaic with each of the others.
fn is_alike_to_all<S: CubeSource>(part: &S, others: &[S]) -> bool
    ensures { result
        ≡ list_all (is_alike (part_of (S.seen part.now))) (parts_of S.seen others.now) }
{
    for index in 0..others.len() {
        if !is_alike(part, &others[index]) {
            return false;
        }
    }
    true
}

/// Adds a part. Refuses: out of memory, with the part.
fn push_item<S: CubeSource>(items: &mut Vec<S>, part: S) -> Result<(), S>
    ensures added { OnOk result (items.new.items ≡ items.old.items ++ part ∷ []) }
    ensures kept { OnErr result (items.new.items ≡ items.old.items) }
    ensures handed { IfErr result (λ given. given ≡ part) }
{
    if items.reserve(1).is_err() {
        return Err(part);
    }
    items.push(part).unwrap();
    Ok(())
}

impl<S: CubeSource> Parts<S> {
    ghost use Rattle.oe_mosaic.specs.PartRefusals.{part_handed, refusal_of};
    ghost use Rattle.oe_mosaic.specs.Parts.{part_refusal, put_at, without};

    /// No parts. It takes no memory before the first one is pushed.
    pub fn new(alloc: Global) -> Parts<S>
        ensures { result ≡ [] }
    {
        Parts {
            items: Vec::new(alloc),
        }
    }

    /// How many parts there are, at most 16.
    pub fn count(&self) -> u32
        ensures { result ≡ length self.now }
    {
        self.items.len() as u32
    }

    /// Adds a part behind the others.
    ///
    /// Refuses: `KindDiffers` exactly where the kind of its cells is not that of the first part; else
    /// `DimensionsDiffer` exactly where its dimensions or its EPSG code are not those of the first part; else `Full`
    /// exactly where there are 16 parts; else `OutOfMemory` where an allocation was refused. Each hands the part back
    /// and leaves the others as they were.
    pub fn push(&mut self, part: S) -> Result<(), PartFail<S>>
        ensures allowed { OnOk result
            (part_refusal (parts_of S.seen self.old) (part_of (S.seen part)) ≡ None) }
        ensures refused { IfErr result (λ fail. refusal_of fail
            ≡ part_refusal (parts_of S.seen self.old) (part_of (S.seen part))) }
        ensures added { OnOk result (self.new ≡ self.old ++ part ∷ []) }
        ensures handed { IfErr result (λ fail. part_handed fail ≡ part) }
        ensures kept { OnErr result (self.new ≡ self.old) }
    {
        if !fits_kind(&self.items, &part) {
            return Err(PartFail::KindDiffers(part));
        }
        if !fits_dimensions(&self.items, &part) {
            return Err(PartFail::DimensionsDiffer(part));
        }
        if self.items.len() >= MOST_PARTS {
            return Err(PartFail::Full(part));
        }
        match push_item(&mut self.items, part) {
            Ok(()) => Ok(()),
            Err(part) => Err(PartFail::OutOfMemory(part)),
        }
    }

    /// Puts another part in the place of one, and answers the old one. It takes no memory.
    ///
    /// Refuses: exactly where the place is not below the count, or the kind of the part's cells, its dimensions or its
    /// EPSG code are not those of another part that stays, with the given part; then the parts are as they were.
    pub fn replace(&mut self, place: u32, part: S) -> Result<S, S>
        ensures allowed { OnOk result
            (may_replace (parts_of S.seen self.old) place (part_of (S.seen part)) ≡ true) }
        ensures refused { OnErr result
            (may_replace (parts_of S.seen self.old) place (part_of (S.seen part)) ≡ false) }
        ensures handed { IfOk result (λ old. slice_get self.old place ≡ Some old) }
        ensures replaced { OnOk result (self.new ≡ put_at place part self.old) }
        ensures given { IfErr result (λ given. given ≡ part) }
        ensures kept { OnErr result (self.new ≡ self.old) }
    {
        if !may_replace(&self.items, place as usize, &part) {
            return Err(part);
        }
        Ok(std::mem::replace(&mut self.items[place as usize], part))
    }

    /// Takes a part out, and answers it; the others close up. It takes no memory. `None` exactly where the place is not
    /// below the count.
    pub fn remove(&mut self, place: u32) -> Option<S>
        ensures handed { IfSome result (λ old. slice_get self.old place ≡ Some old) }
        ensures closed { OnSome result (self.new ≡ without place self.old) }
        ensures none { IfNone result (length self.old ≤ place) }
        ensures kept { IfNone result (self.new ≡ self.old) }
    {
        if place as usize >= self.items.len() {
            return None;
        }
        Some(self.items.remove(place as usize))
    }
}

/// The parts before a place.
fn items_before<S: CubeSource>(items: &[S], place: usize) -> &[S]
    requires { place ≤ length items.now }
    ensures { result.now ≡ take place items.now }
{
    let (front, _) = items.split_at(place);
    front
}

/// The parts behind a place.
fn items_behind<S: CubeSource>(items: &[S], place: usize) -> &[S]
    requires { place < length items.now }
    ensures { result.now ≡ drop (place + 1) items.now }
{
    let (_, back) = items.split_at(place + 1);
    back
}

/// A part may stand in the place of another.
#[tactic(auto, using(crate::proofs::PartLemmas::may_not, crate::proofs::PartLemmas::may_is))]
fn may_replace<S: CubeSource>(items: &[S], place: usize, part: &S) -> bool
    ensures value { result
        ≡ may_replace (parts_of S.seen items.now) place (part_of (S.seen part.now)) }
    ensures within { result ≡ true → place < length items.now }
    ensures sound { IsSound (part_of (S.seen part.now)) }
{
    let _shape = shape_of(part);
    if place >= items.len() {
        return false;
    }
    let front = is_alike_to_all(part, items_before(items, place));
    let back = is_alike_to_all(part, items_behind(items, place));
    front & back
}
