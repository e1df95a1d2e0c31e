// The collection that the demonstration reads.
ghost use Rattle.std.specs.Prelude.{◌≡◌, ◌∷◌, [], codes, ◌+◌, ◌*◌, ◌%◌, ◌≤◌, ◌<◌, ℕ, false, length, map, slice_get, Some, Ok, IfOk, IsOk, IfSome};
ghost use Rattle.oe_cube.specs.Collections.{IsCollection};
ghost use Rattle.oe_sources.specs.Generated.{IsRow, falling_labels, generated_cell, generated_contents, generated_days, generated_shape, rest_cell, rising_labels};
ghost use Rattle.oe_sources.specs.Source.{CountsRead, Looks, Reads, Source, collection_with};
ghost use Rattle.oe_window.specs.Windows.{Holds, position_count, positions, whole_window};

use crate::SourceFail;
use oe_cell::{Cell, whole_cell};
use oe_dims::{CellKind, Shape, Text};
use oe_memory::OutOfMemory;
use oe_window::{Window, size};
use std::alloc::Global;
use std::marker::Model;

/// 2024-01-01T00:00:00Z.
const NEW_YEAR_2024: i64 = 1704067200;

/// The seconds of a day.
const DAY: i64 = 86400;

/// The reference system of the pixels, and how far apart they are in its unit.
const UTM_33_NORTH: u32 = 32633;

const PIXEL: u32 = 10;

/// A collection that is not kept: each cell is made from its indices when it is read. Four days from 2024-01-01, bands
/// B1 and B2, and as many pixels along `y` as along `x`. The cell at the indices t, b, y and x is
/// (SEED + 7x + 13y + 17t + 19b) mod 101, and null where that is 100. Its reads and looks always succeed, so that it
/// has no fault to count.
pub struct GeneratedCube {
    seed: u32,
    side: u32,
    shape: Shape,
    asked: u64,
}

impl Model for GeneratedCube {
    ghost use Rattle.oe_sources.specs.Source.{Source};

    ghost Value = { Source };

    ghost use Rattle.std.specs.Prelude.{◌≡◌, ◌≤◌, Some};
    ghost use Rattle.oe_dims.specs.declared.kind.CellKind.TheVariants.{Numbers};
    ghost use Rattle.oe_sources.specs.Generated.{generated_contents, generated_shape};

    ghost view = { λ g. record {
      shape = generated_shape g.side;
      kind = Numbers;
      contents = Some (generated_contents g.seed g.side);
      faults = 0;
      asked = g.asked;
    } };

    ghost invariant = { λ g. (g.shape ≡ generated_shape g.side) × (g.side ≤ 1024) };
}

/// Written out, so that a cube that ends is one call wherever it does.
impl Drop for GeneratedCube {
    fn drop(self) {
        let GeneratedCube {
            seed: _,
            side: _,
            shape: _,
            asked: _,
        } = self;
    }
}

impl GeneratedCube {
    /// The collection of a seed up to 1000000000, with 1 to 1024 pixels along `y` and as many along `x`. Refuses: out
    /// of memory.
    pub fn new(alloc: Global, seed: u32, side: u32) -> Result<GeneratedCube, OutOfMemory>
        requires seed { seed ≤ 1000000000 }
        requires some { 1 ≤ side }
        requires most { side ≤ 1024 }
        ensures { IfOk result (λ g. g ≡ record {
          shape = generated_shape side;
          kind = CellKind.Numbers;
          contents = Some (generated_contents seed side);
          faults = 0;
          asked = 0;
        }) }
    {
        let t = days(alloc)?;
        let bands = band_names(alloc)?;
        let y = labels_downward(alloc, side)?;
        let x = labels_upward(alloc, side)?;
        match Shape::new(UTM_33_NORTH, Some(t), Some(bands), Some(y), Some(x)) {
            Ok(shape) => Ok(GeneratedCube {
                seed,
                side,
                shape,
                asked: 0,
            }),
            Err(_) => unreachable!(),
        }
    }

    /// Does nothing. Its contract says that no read of the collection has failed.
    pub(crate) fn never_failed(&self)
        ensures { self.now.faults ≡ 0 }
    {
        let _side = self.side;
    }

    /// The shape, which reading does not change.
    pub fn shape(&self) -> &Shape
        ensures value { result.now ≡ self.now.shape }
        ensures sound { IfSome self.now.contents
            (λ c. IsCollection (collection_with self.now.shape self.now.kind c)) }
    {
        &self.shape
    }

    /// The kind of the cells, which reading does not change.
    pub fn kind(&self) -> CellKind
        ensures { result ≡ self.now.kind }
    {
        let _side = self.side;
        CellKind::Numbers
    }

    /// Gives the cells of a window in row-major order, and counts nothing.
    pub fn look(&self, window: &Window, into: &mut [Cell])
        requires inside { Holds (whole_window self.now.shape) window.now }
        requires room { length into.old ≡ position_count window.now }
        ensures { Looks self.now window.now into.new (Ok tt) }
    {
        make_cells(self.seed, window, into);
    }

    /// Counts looks at so many cells, as [`crate::CubeSource::count`] does.
    pub fn count(&mut self, cells: u64)
        ensures { CountsRead self.old cells false self.new }
    {
        self.asked = self.asked.saturating_add(cells);
    }

    /// Reads the cells of a window, as [`crate::CubeSource::read`] does. It never fails.
    pub fn read(&mut self, window: &Window, into: &mut [Cell]) -> Result<(), SourceFail>
        requires inside { Holds (whole_window self.old.shape) window.now }
        requires room { length into.old ≡ position_count window.now }
        ensures read { Reads self.old window.now into.new self.new result }
        ensures ok { IsOk result }
    {
        self.look(window, into);
        self.count(size(window));
        Ok(())
    }
}

fn days(alloc: Global) -> Result<Vec<i64>, OutOfMemory>
    ensures { IfOk result (λ days. days.items ≡ generated_days) }
{
    let mut days = Vec::with_capacity(alloc, 4)?;
    days.push(NEW_YEAR_2024)?;
    days.push(NEW_YEAR_2024 + DAY)?;
    days.push(NEW_YEAR_2024 + 2 * DAY)?;
    days.push(NEW_YEAR_2024 + 3 * DAY)?;
    Ok(days)
}

fn band_names(alloc: Global) -> Result<Vec<Text>, OutOfMemory>
    ensures { IfOk result (λ names. names.items ≡ codes "B1" ∷ codes "B2" ∷ []) }
{
    let mut names = Vec::with_capacity(alloc, 2)?;
    names.push(Text::of(alloc, "B1")?)?;
    names.push(Text::of(alloc, "B2")?)?;
    Ok(names)
}

/// The labels of `y`, from the greatest down to 0.
fn labels_downward(alloc: Global, side: u32) -> Result<Vec<i64>, OutOfMemory>
    requires { side ≤ 1024 }
    ensures { IfOk result (λ labels. labels.items ≡ falling_labels side) }
{
    let mut labels = Vec::with_capacity(alloc, side as usize)?;
    for index in 0..side {
        labels.push(i64::from(PIXEL * (side - 1 - index)))?;
    }
    Ok(labels)
}

/// The labels of `x`, from 0 on.
fn labels_upward(alloc: Global, side: u32) -> Result<Vec<i64>, OutOfMemory>
    requires { side ≤ 1024 }
    ensures { IfOk result (λ labels. labels.items ≡ rising_labels side) }
{
    let mut labels = Vec::with_capacity(alloc, side as usize)?;
    for index in 0..side {
        labels.push(i64::from(PIXEL * index))?;
    }
    Ok(labels)
}

/// Makes the cells of a window, row by row.
fn make_cells(seed: u32, window: &Window, into: &mut [Cell])
    requires { length into.old ≡ position_count window.now }
    ensures { into.new ≡ map (generated_cell seed) (positions window.now) }
{
    let mut done = 0;
    for number in 0..window.rows() {
        let row = window.row(number);
        let end = done + size(&row) as usize;
        make_row(seed, &row, &mut into[done..end]);
        done = end;
    }
}

/// Makes the cells of a row, which has one index along `t`, `bands` and `y`.
fn make_row(seed: u32, row: &Window, into: &mut [Cell])
    requires row { IsRow row.now }
    requires room { length into.old ≡ position_count row.now }
    ensures { into.new ≡ map (generated_cell seed) (positions row.now) }
{
    let first = sum_at(seed, row.t.from, row.bands.from, row.y.from, row.x.from);
    make_rests(first % 101, into);
}

/// The sum of which the cell at these indices is the rest by 101.
fn sum_at(seed: u32, t: u32, band: u32, y: u32, x: u32) -> u64
    ensures { result ≡ seed + 7 * x + 13 * y + 17 * t + 19 * band }
{
    u64::from(seed)
        + 7 * u64::from(x)
        + 13 * u64::from(y)
        + 17 * u64::from(t)
        + 19 * u64::from(band)
}

/// Makes cells whose rests by 101 rise by 7, from a first one on.
fn make_rests(first: u64, into: &mut [Cell])
    requires { first < 101 }
    ensures { (k : ℕ) → k < length into.old →
        slice_get into.new k ≡ Some (rest_cell ((first + 7 * k) % 101)) }
{
    let mut rest = first;
    for k in 0..into.len() {
        into[k] = cell_of(rest);
        rest = (rest + 7) % 101;
    }
}

/// The cell of a rest by 101: null where it is 100.
#[inline(always)]
fn cell_of(rest: u64) -> Cell
    requires { rest < 101 }
    ensures { result ≡ rest_cell rest }
{
    if rest == 100 {
        Cell::Empty
    } else {
        whole_cell(rest as i64)
    }
}
