// The collections that graphs may load.
ghost use Rattle.std.specs.Prelude.{◌≡◌, ◌≤◌, ◌<◌, [], ◌∷◌, ◌++◌, length, take, drop, true, false, is_some, IfSome, IfOk, IfErr, IsErrOf, OnErr, OnOk};
ghost use Rattle.std.specs.List.{list_all};
ghost use Rattle.oe_cube.specs.Collections.{IsCollection};
ghost use Rattle.oe_dims.specs.Dimensions.{all_differ};
ghost use Rattle.oe_dims.specs.Names.{is_name, same_name};
ghost use Rattle.oe_dims.specs.declared.dims.DimsRow.{DimsRow};
ghost use Rattle.oe_sources.specs.Catalogue.{kept_source, is_boxed, mounted_ids, mounted_index};
ghost use Rattle.oe_sources.specs.CatalogueDims.{put_row};
ghost use Rattle.oe_sources.specs.Source.{CountsRead, Looks, Reads, answer_of, collection_of, fault_of};
ghost use Rattle.oe_window.specs.Windows.{Holds, position_count, whole_window};

use crate::{
    CubeSource, GeneratedCube, LookFail, Looker, Looking, Permit, ReadFault, SharedSource,
    SourceFail,
};
use oe_cell::Cell;
use oe_dims::{CellKind, Dims, DimsRow, Shape, Text, is_name, is_name_before};
use oe_memory::OutOfMemory;
use oe_window::Window;
use std::alloc::Global;

/// The most collections of a catalogue.
const MOST_COLLECTIONS: usize = 64;

/// A collection that a caller boxed.
type Boxed = Box<dyn SharedSource>;

/// Why a collection was not mounted. The box is handed back.
#[derive(Drop)]
pub enum MountFail {
    /// The id is not 1 to 64 bytes of letters, digits, `_`, `-` and `.`.
    IdInvalid(Box<dyn SharedSource>),
    /// A collection is mounted under this id.
    IdTaken(Box<dyn SharedSource>),
    /// 64 collections are mounted.
    Full(Box<dyn SharedSource>),
    /// An allocation was refused.
    OutOfMemory(Box<dyn SharedSource>),
}

/// What a row keeps: a box that a caller made, or a generated cube.
#[derive(Drop)]
pub(crate) enum Kept<B> {
    Boxed(B),
    Generated(GeneratedCube),
}

/// A collection under its id.
#[derive(Drop)]
pub(crate) struct Mounted<B> {
    id: Text,
    cube: Kept<B>,
}

fn shape_of(cube: &Kept<Boxed>) -> &Shape
    ensures value { result.now ≡ (kept_source seen cube.now).shape }
    ensures sound { IfSome (collection_of (kept_source seen cube.now)) IsCollection }
{
    match cube {
        Kept::Boxed(cube) => cube.shape(),
        Kept::Generated(cube) => cube.shape(),
    }
}

fn kind_of(cube: &Kept<Boxed>) -> CellKind
    ensures { result ≡ (kept_source seen cube.now).kind }
{
    match cube {
        Kept::Boxed(cube) => cube.kind(),
        Kept::Generated(cube) => cube.kind(),
    }
}

fn read_boxed(cube: &mut Boxed, window: &Window, into: &mut [Cell]) -> Result<(), SourceFail>
    requires inside { Holds (whole_window (seen cube.old).shape) window.now }
    requires room { length into.old ≡ position_count window.now }
    ensures { Reads (seen cube.old) window.now into.new (seen cube.new) result }
{
    let source = cube.as_mut();
    source.read(window, into)
}

fn read_kept(cube: &mut Kept<Boxed>, window: &Window, into: &mut [Cell]) -> Result<(), SourceFail>
    requires inside { Holds (whole_window (kept_source seen cube.old).shape) window.now }
    requires room { length into.old ≡ position_count window.now }
    ensures reads { Reads (kept_source seen cube.old) window.now into.new
        (kept_source seen cube.new) result }
    ensures boxed { is_boxed cube.new ≡ is_boxed cube.old }
{
    match cube {
        Kept::Boxed(cube) => read_boxed(cube, window, into),
        Kept::Generated(cube) => cube.read(window, into),
    }
}

fn look_boxed(
    cube: &Boxed,
    window: &Window,
    bytes: &mut [u8],
    into: &mut [Cell],
) -> Result<(), LookFail>
    requires inside { Holds (whole_window (seen cube.now).shape) window.now }
    requires room { length into.old ≡ position_count window.now }
    requires bytes { length bytes.old ≡ 65536 }
    ensures { Looks (seen cube.now) window.now into.new (answer_of result) }
{
    let source = cube.as_ref();
    source.look(&Looking::new(), window, bytes, into)
}

fn look_kept(
    cube: &Kept<Boxed>,
    window: &Window,
    bytes: &mut [u8],
    into: &mut [Cell],
) -> Result<(), LookFail>
    requires inside { Holds (whole_window (kept_source seen cube.now).shape) window.now }
    requires room { length into.old ≡ position_count window.now }
    requires bytes { length bytes.old ≡ 65536 }
    ensures looks { Looks (kept_source seen cube.now) window.now into.new (answer_of result) }
    ensures boxed { IsErrOf (answer_of result) SourceFail.Failed → is_boxed cube.now ≡ true }
{
    match cube {
        Kept::Boxed(cube) => look_boxed(cube, window, bytes, into),
        Kept::Generated(cube) => {
            cube.look(window, into);
            Ok(())
        }
    }
}

fn count_boxed(cube: &mut Boxed, cells: u64, fault: Option<ReadFault>)
    ensures { CountsRead (seen cube.old) cells (is_some fault) (seen cube.new) }
{
    let source = cube.as_mut();
    source.count(cells, fault);
}

fn count_kept(cube: &mut Kept<Boxed>, cells: u64, fault: Option<ReadFault>)
    requires { is_some fault ≡ true → is_boxed cube.old ≡ true }
    ensures counts { CountsRead (kept_source seen cube.old) cells (is_some fault)
        (kept_source seen cube.new) }
    ensures boxed { is_boxed cube.new ≡ is_boxed cube.old }
{
    match cube {
        Kept::Boxed(cube) => count_boxed(cube, cells, fault),
        Kept::Generated(cube) => cube.count(cells),
    }
}

/// Does nothing. Its contract says that no read of a generated cube has failed.
fn never_failed(cube: &Kept<Boxed>)
    ensures { is_boxed cube.now ≡ false → (kept_source seen cube.now).faults ≡ 0 }
{
    match cube {
        Kept::Boxed(_) => {}
        Kept::Generated(cube) => cube.never_failed(),
    }
}

fn is_boxed(cube: &Kept<Boxed>) -> bool
    ensures { result ≡ is_boxed cube.now }
{
    match cube {
        Kept::Boxed(_) => true,
        Kept::Generated(_) => false,
    }
}

/// A row has this id.
fn has_id(row: &Mounted<Boxed>, id: &str) -> bool
    ensures { result ≡ same_name row.now.id id.now }
{
    row.id.as_str() == id
}

/// The index of the row of an id.
fn index_of(rows: &[Mounted<Boxed>], id: &str) -> Option<usize>
    ensures { result ≡ mounted_index rows.now id.now }
{
    for index in 0..rows.len() {
        if has_id(&rows[index], id) {
            return Some(index);
        }
    }
    None
}

/// Adds a row of a box. Refuses: out of memory, with the box.
fn push_box(rows: &mut Vec<Mounted<Boxed>>, id: &str, cube: Boxed) -> Result<(), Boxed>
    ensures added { OnOk result (rows.new.items
        ≡ rows.old.items ++ record { id = id.now; cube = Kept.Boxed cube } ∷ []) }
    ensures kept { OnErr result (rows.new.items ≡ rows.old.items) }
    ensures handed { IfErr result (λ given. given ≡ cube) }
{
    let Ok(id) = Text::of(*rows.allocator(), id) else {
        return Err(cube);
    };
    if rows.reserve(1).is_err() {
        return Err(cube);
    }
    let cube = Kept::Boxed(cube);
    rows.push(Mounted { id, cube }).unwrap();
    Ok(())
}

/// The collections by their ids, 64 at most. Contracts see the rows in the order in which they were mounted, and a
/// seal, whose value they do not tell: what was asked of one catalogue gives no look at another, nor at a box that was
/// taken out meanwhile.
#[derive(Drop)]
pub struct Catalogue {
    rows: Vec<Mounted<Boxed>>,
    seal: u64,
    pub ghost few: { length rows.items ≤ 64 },
    pub ghost valid: { list_all is_name (mounted_ids rows.items) ≡ true },
    pub ghost different: { all_differ (mounted_ids rows.items) ≡ true },
}

impl Catalogue {
    ghost use Rattle.std.specs.Prelude.{◌≡◌, ◌<◌, ◌≤◌, ◌+◌, ◌^◌, ◌∷◌, ◌++◌, [], length, slice_get, is_some, true, false, Some, None, IfOk, IfErr, IsErrOf, OnOk, OnErr, IfSome, IfNone, OnSome, vec_len};
    ghost use Rattle.oe_cube.specs.Collections.{IsCollection};
    ghost use Rattle.oe_dims.specs.Plain.{HaveRisingIds, plain_rows};
    ghost use Rattle.oe_sources.specs.Catalogue.{CountsRow, IsFaultAt, ReadsRow, box_row, demonstration, has_box, mount_refusal, row_index, row_of, rows_replaced, rows_sealed, rows_without, source_at};
    ghost use Rattle.oe_sources.specs.CatalogueDims.{AreDimsOf, dims_of};
    ghost use Rattle.oe_sources.specs.CatalogueLaws.{NeverFailed};
    ghost use Rattle.oe_sources.specs.CatalogueRows.{box_of, refusal_of, rows_in, seal_of};
    ghost use Rattle.oe_sources.specs.Permits.{MayLook, Spends, permit_for_none, permit_raised};
    ghost use Rattle.oe_sources.specs.Source.{Looks, answer_of, collection_of, fault_of};
    ghost use Rattle.oe_window.specs.Windows.{Holds, position_count, whole_window};

    /// A catalogue without collections. It takes no memory before the first one is mounted.
    pub fn new(alloc: Global) -> Catalogue
        ensures { rows_in seen result ≡ [] }
    {
        Catalogue {
            rows: Vec::new(alloc),
            seal: 0,
        }
    }

    /// A catalogue of the one collection `demo`: the generated cube of a seed up to 1000000000 and a side of 1 to 1024
    /// pixels. Its row has no box, so it is not mounted for `detach` and `replace`. Refuses: out of memory.
    pub fn generated(alloc: Global, seed: u32, side: u32) -> Result<Catalogue, OutOfMemory>
        requires seed { seed ≤ 1000000000 }
        requires some { 1 ≤ side }
        requires most { side ≤ 1024 }
        ensures { IfOk result (λ c. rows_in seen c ≡ demonstration seed side) }
    {
        let cube = Kept::Generated(GeneratedCube::new(alloc, seed, side)?);
        let id = Text::of(alloc, "demo")?;
        let mut rows = Vec::new(alloc);
        rows.push(Mounted { id, cube })?;
        Ok(Catalogue { rows, seal: 0 })
    }

    /// Adds a collection under an id.
    ///
    /// Refuses: `IdInvalid` exactly where the id is not valid; else `IdTaken` exactly where it is mounted; else `Full`
    /// exactly where 64 collections are mounted; else `OutOfMemory` where an allocation was refused. Each hands the box
    /// back and leaves the catalogue as it was. Permits stay good.
    pub fn mount(&mut self, id: &str, cube: Box<dyn SharedSource>) -> Result<(), MountFail>
        ensures allowed { OnOk result (mount_refusal (rows_in seen self.old) id.now ≡ None) }
        ensures refused { IfErr result (λ fail.
            refusal_of fail ≡ mount_refusal (rows_in seen self.old) id.now) }
        ensures added { OnOk result (rows_in seen self.new
            ≡ rows_in seen self.old ++ box_row (seal_of self.old) id.now (seen cube) ∷ []) }
        ensures handed { IfErr result (λ fail. box_of fail ≡ cube) }
        ensures kept { OnErr result (rows_in seen self.new ≡ rows_in seen self.old) }
        ensures seal { seal_of self.new ≡ seal_of self.old }
    {
        if !is_name(id) {
            return Err(MountFail::IdInvalid(cube));
        }
        if index_of(self.rows.as_slice(), id).is_some() {
            return Err(MountFail::IdTaken(cube));
        }
        if self.rows.len() >= MOST_COLLECTIONS {
            return Err(MountFail::Full(cube));
        }
        match push_box(&mut self.rows, id, cube) {
            Ok(()) => Ok(()),
            Err(cube) => Err(MountFail::OutOfMemory(cube)),
        }
    }

    /// Takes the collection of an id out, and answers its box; all other rows stay, under another seal, so that permits
    /// and faults of before are of no use any more. It is `None` exactly where no box is mounted under the id; then the
    /// catalogue is as it was. It takes no memory.
    pub fn detach(&mut self, id: &str) -> Option<Box<dyn SharedSource>>
        ensures handed { IfSome result (λ cube.
            row_of (rows_in seen self.old) id.now
            ≡ Some (box_row (seal_of self.old) id.now (seen cube))) }
        ensures gone { OnSome result (rows_in seen self.new
            ≡ rows_sealed (seal_of self.new) (rows_without (rows_in seen self.old) id.now)) }
        ensures none { IfNone result (has_box (rows_in seen self.old) id.now ≡ false) }
        ensures kept { IfNone result (rows_in seen self.new ≡ rows_in seen self.old) }
        ensures seal { IfNone result (seal_of self.new ≡ seal_of self.old) }
    {
        let index = self.boxed_index(id)?;
        let Mounted { id: _, cube } = self.rows.remove(index);
        self.seal = self.seal.wrapping_add(1);
        match cube {
            Kept::Boxed(cube) => Some(cube),
            Kept::Generated(_) => unreachable!(),
        }
    }

    /// Puts another collection in the place of the one under this id, and answers the old box; all other rows stay,
    /// under another seal, as [`Catalogue::detach`] leaves them. It takes no memory.
    ///
    /// Refuses: exactly where no box is mounted under the id, with the given one; then the catalogue is as it was.
    pub fn replace(
        &mut self,
        id: &str,
        cube: Box<dyn SharedSource>,
    ) -> Result<Box<dyn SharedSource>, Box<dyn SharedSource>>
        ensures handed { IfOk result (λ old.
            row_of (rows_in seen self.old) id.now
            ≡ Some (box_row (seal_of self.old) id.now (seen old))) }
        ensures replaced { OnOk result (rows_in seen self.new ≡ rows_sealed (seal_of self.new)
            (rows_replaced (rows_in seen self.old) id.now (seen cube))) }
        ensures refused { OnErr result (has_box (rows_in seen self.old) id.now ≡ false) }
        ensures given { IfErr result (λ given. given ≡ cube) }
        ensures kept { OnErr result (rows_in seen self.new ≡ rows_in seen self.old) }
        ensures seal { OnErr result (seal_of self.new ≡ seal_of self.old) }
    {
        let Some(index) = self.boxed_index(id) else {
            return Err(cube);
        };
        self.seal = self.seal.wrapping_add(1);
        let row = &mut self.rows[index];
        match std::mem::replace(&mut row.cube, Kept::Boxed(cube)) {
            Kept::Boxed(old) => Ok(old),
            Kept::Generated(_) => unreachable!(),
        }
    }

    /// The index of the row of an id that has a box.
    fn boxed_index(&self, id: &str) -> Option<usize>
        ensures index { IfSome result (λ index.
            mounted_index self.now.rows.items id.now ≡ Some index) }
        ensures within { IfSome result (λ index. index < vec_len self.now.rows) }
        ensures boxed { IfSome result (λ index.
            IfSome (slice_get self.now.rows.items index) (λ m. is_boxed m.cube ≡ true)) }
        ensures none { IfNone result (has_box (rows_in seen self.now) id.now ≡ false) }
    {
        let index = index_of(self.rows.as_slice(), id)?;
        if is_boxed(&self.rows[index].cube) {
            Some(index)
        } else {
            None
        }
    }

    /// The row of the collection with this id, from 0 and `None` exactly where none is mounted under it. It takes no
    /// memory.
    pub fn place(&self, id: &str) -> Option<u32>
        ensures index { result ≡ row_index (rows_in seen self.now) id.now }
        ensures within { IfSome result (λ place. place < length (rows_in seen self.now)) }
        ensures found { IfSome result (λ place. slice_get (rows_in seen self.now) place
            ≡ row_of (rows_in seen self.now) id.now) }
        ensures none { IfNone result (row_of (rows_in seen self.now) id.now ≡ None) }
    {
        match index_of(self.rows.as_slice(), id) {
            Some(index) => Some(index as u32),
            None => None,
        }
    }

    /// Reads the cells of a window of the collection of a row, in row-major order. Whatever it answers, the number of
    /// cells asked of that collection rises by the size of the window. It takes no memory.
    ///
    /// Refuses: as [`CubeSource::read`] of that collection does.
    pub fn read(&mut self, place: u32, window: &Window, into: &mut [Cell]) -> Result<(), SourceFail>
        requires mounted { place < length (rows_in seen self.old) }
        requires inside { Holds (whole_window (source_at (rows_in seen self.old) place).shape)
            window.now }
        requires room { length into.old ≡ position_count window.now }
        ensures read { ReadsRow (rows_in seen self.old) place window.now into.new
            (rows_in seen self.new) result }
        ensures seal { seal_of self.new ≡ seal_of self.old }
    {
        let row = &mut self.rows[place as usize];
        read_kept(&mut row.cube, window, into)
    }

    /// A permit for no cell of this catalogue, which [`Catalogue::ask`] raises.
    pub fn permit(&self) -> Permit
        ensures { result ≡ permit_for_none (seal_of self.now) }
    {
        Permit::none(self.seal)
    }

    /// Asks for so many cells of the collection of a row: the number of cells asked of it rises by that many, and stays
    /// at 2^64 − 1, and so many more may be looked at with the permit, which is one of this catalogue. All else in the
    /// catalogue stays.
    pub fn ask(&mut self, place: u32, cells: u64, permit: &mut Permit)
        requires mounted { place < length (rows_in seen self.old) }
        requires own { permit.old.seal ≡ seal_of self.old }
        requires few { permit.old.left + cells < 2 ^ 64 }
        ensures asked { CountsRow (rows_in seen self.old) place cells false
            (rows_in seen self.new) }
        ensures permit { permit.new ≡ permit_raised cells permit.old }
        ensures seal { seal_of self.new ≡ seal_of self.old }
    {
        let row = &mut self.rows[place as usize];
        count_kept(&mut row.cube, cells, None);
        permit.raise(cells);
    }

    /// Looks at the cells of a window of the collection of a row, which were asked of this catalogue: gives them as
    /// [`Catalogue::read`] does, and counts nothing, so that several threads may look at once. Whatever it answers, its
    /// permit is for so many cells less then. It takes no memory.
    ///
    /// Refuses: as [`CubeSource::look`] of that collection does; a fault that it met is one of this row.
    pub fn look(
        &self,
        place: u32,
        looker: &mut Looker,
        window: &Window,
        into: &mut [Cell],
    ) -> Result<(), LookFail>
        requires mounted { place < length (rows_in seen self.now) }
        requires asked { MayLook (seal_of self.now) (position_count window.now) looker.old }
        requires inside { Holds (whole_window (source_at (rows_in seen self.now) place).shape)
            window.now }
        requires room { length into.old ≡ position_count window.now }
        ensures looks { Looks (source_at (rows_in seen self.now) place) window.now into.new
            (answer_of result) }
        ensures spent { Spends (position_count window.now) looker.old looker.new }
        ensures met { IfSome (fault_of result) (IsFaultAt (rows_in seen self.now) place) }
    {
        let _spent = looker.permit.split(into.len() as u64);
        let row = &self.rows[place as usize];
        let looked = look_kept(&row.cube, window, &mut looker.bytes, into);
        seal_fault(looked, place, self.seal)
    }

    /// Counts the fault that a look at the collection of a row met, if it met one. All else in the catalogue stays.
    pub fn count_fault(&mut self, place: u32, fault: Option<ReadFault>)
        requires mounted { place < length (rows_in seen self.old) }
        requires met { IfSome fault (IsFaultAt (rows_in seen self.old) place) }
        ensures counted { CountsRow (rows_in seen self.old) place 0 (is_some fault)
            (rows_in seen self.new) }
        ensures seal { seal_of self.new ≡ seal_of self.old }
    {
        let row = &mut self.rows[place as usize];
        count_kept(&mut row.cube, 0, fault);
    }

    /// The shape of the collection of a row.
    pub fn shape(&self, place: u32) -> &Shape
        requires mounted { place < length (rows_in seen self.now) }
        ensures value { result.now ≡ (source_at (rows_in seen self.now) place).shape }
        ensures sound { IfSome (collection_of (source_at (rows_in seen self.now) place))
            IsCollection }
    {
        shape_of(&self.rows[place as usize].cube)
    }

    /// Keeps the labels of each dimension of a shape in the memory of those of a mounted collection, where one shares the
    /// same, and shares the others, so that they stand in memory once for all collections that have them. It copies no
    /// label.
    pub fn share_labels(&self, shape: &mut Shape)
        ensures { shape.new ≡ shape.old }
    {
        for row in &self.rows {
            shape.take_labels(shape_of(&row.cube));
        }
        shape.share_labels();
    }

    /// The kind of its cells.
    pub fn kind(&self, place: u32) -> CellKind
        requires mounted { place < length (rows_in seen self.now) }
        ensures { result ≡ (source_at (rows_in seen self.now) place).kind }
    {
        kind_of(&self.rows[place as usize].cube)
    }

    /// Does nothing. Its contract says that no read of the collection of a row has failed, where it is a generated
    /// cube: its fault counter is 0.
    pub fn generated_never_failed(&self, place: u32)
        requires mounted { place < length (rows_in seen self.now) }
        ensures { NeverFailed (rows_in seen self.now) place }
    {
        never_failed(&self.rows[place as usize].cube);
    }

    /// The id, the shape and the kind of each collection, in byte order of the ids. Refuses: out of memory.
    pub fn dims(&self) -> Result<Dims, OutOfMemory>
        ensures rows { IfOk result (λ dims. plain_rows dims ≡ dims_of (rows_in seen self.now)) }
        ensures rising { IfOk result HaveRisingIds }
        ensures found { IfOk result (λ dims.
            AreDimsOf (rows_in seen self.now) (plain_rows dims)) }
    {
        let mut rows = Vec::with_capacity(*self.rows.allocator(), self.rows.len())?;
        for row in &self.rows {
            insert_by_id(&mut rows, dims_row_of(row)?)?;
        }
        Ok(Dims { rows })
    }
}

/// The answer of a look at a row of the catalogue with this seal. A fault that it met is one of that row then.
fn seal_fault(looked: Result<(), LookFail>, place: u32, seal: u64) -> Result<(), LookFail>
    ensures answer { answer_of result ≡ answer_of looked }
    ensures place { IfSome (fault_of result) (λ fault. fault.place ≡ place) }
    ensures seal { IfSome (fault_of result) (λ fault. fault.seal ≡ seal) }
{
    match looked {
        Ok(()) => Ok(()),
        Err(LookFail::Failed(fault)) => Err(LookFail::Failed(fault.at(place, seal))),
        Err(LookFail::Damaged(number)) => Err(LookFail::Damaged(number)),
    }
}

/// The shape and the kind of a collection under its id.
fn dims_row_of(row: &Mounted<Boxed>) -> Result<DimsRow, OutOfMemory>
    ensures { IfOk result (λ r. r ≡ record {
      id = row.now.id;
      shape = (kept_source seen row.now.cube).shape;
      kind = (kept_source seen row.now.cube).kind;
    }) }
{
    Ok(DimsRow {
        id: row.id.copy()?,
        shape: shape_of(&row.cube).copy()?,
        kind: kind_of(&row.cube),
    })
}

/// Puts a row before the first whose id is greater.
fn insert_by_id(rows: &mut Vec<DimsRow>, row: DimsRow) -> Result<(), OutOfMemory>
    ensures { OnOk result (rows.new.items ≡ put_row row rows.old.items) }
{
    let index = index_behind(rows.as_slice(), &row.id);
    rows.insert(index, row)?;
    Ok(())
}

/// How many rows stand before the first whose id is greater.
fn index_behind(rows: &[DimsRow], id: &Text) -> usize
    ensures within { result ≤ length rows.now }
    ensures put { (row : DimsRow) → row.id ≡ id.now → put_row row rows.now
        ≡ take result rows.now ++ row ∷ drop result rows.now }
{
    for index in 0..rows.len() {
        if is_name_before(id.as_str(), rows[index].id.as_str()) {
            return index;
        }
    }
    rows.len()
}
