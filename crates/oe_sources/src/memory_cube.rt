// Collections in memory.
ghost use Rattle.std.specs.Prelude.{◌≡◌, true, length, Some, []};
ghost use Rattle.std.specs.List.{list_all};
ghost use Rattle.oe_cube.specs.Kinds.{is_null_or_of};
ghost use Rattle.oe_dims.specs.Dimensions.{cell_count};
ghost use Rattle.oe_sources.specs.Source.{CountsRead, Looks};
ghost use Rattle.oe_window.specs.Windows.{Holds, position_count, whole_window};

use crate::source::met;
use crate::{CubeSource, LookFail, Looking, ReadFault, SharedSource, SourceFail};
use oe_cell::Cell;
use oe_dims::{CellKind, Shape};
use oe_window::{Window, copy_window};
use std::marker::Model;
use std::sync::atomic::{AtomicU64, Ordering};

/// A collection in memory without damage: its cells are visible. Its reads and looks fail by their numbers.
pub struct MemoryCube {
    shape: Shape,
    kind: CellKind,
    cells: Vec<Cell>,
    failing: Vec<u64>,
    reads: AtomicU64,
    faults: u64,
    asked: u64,
}

impl Model for MemoryCube {
    ghost use Rattle.oe_sources.specs.Source.{Source};

    ghost Value = { Source };

    ghost use Rattle.std.specs.Prelude.{Some, []};
    ghost use Rattle.oe_cube.specs.Collections.{IsCollection};

    ghost view = { λ m. record {
      shape = m.shape;
      kind = m.kind;
      contents = Some (record { cells = m.cells.items; damaged = [] });
      faults = m.faults;
      asked = m.asked;
    } };

    ghost invariant = { λ m.
        IsCollection (record { shape = m.shape; cells = m.cells.items; kind = m.kind }) };
}

/// Written out, so that a cube that ends is one call wherever it does.
impl Drop for MemoryCube {
    fn drop(self) {
        let MemoryCube {
            shape: _,
            kind: _,
            cells: _,
            failing: _,
            reads: _,
            faults: _,
            asked: _,
        } = self;
    }
}

impl MemoryCube {
    /// A collection of these cells, in row-major order. `failing` has the numbers of the reads and looks that fail,
    /// which are counted together from 0, in the order in which they begin. It takes no memory.
    pub fn new(shape: Shape, kind: CellKind, cells: Vec<Cell>, failing: Vec<u64>) -> MemoryCube
        requires counted { length cells.items ≡ cell_count shape }
        requires of_kind { list_all (is_null_or_of kind) cells.items ≡ true }
        ensures { result ≡ record {
          shape = shape;
          kind = kind;
          contents = Some (record { cells = cells.items; damaged = [] });
          faults = 0;
          asked = 0;
        } }
    {
        let _epsg = shape.epsg();
        MemoryCube {
            shape,
            kind,
            cells,
            failing,
            reads: AtomicU64::new(0),
            faults: 0,
            asked: 0,
        }
    }

    /// Takes the next number, and answers whether it is listed.
    fn is_next_listed(&self) -> bool {
        let number = self.reads.fetch_add(1, Ordering::SeqCst);
        self.failing.contains(&number)
    }

    /// Copies the cells of a window. It fails exactly where its number is listed.
    fn copy_cells(&self, window: &Window, into: &mut [Cell]) -> Result<(), SourceFail>
        requires inside { Holds (whole_window self.now.shape) window.now }
        requires room { length into.old ≡ position_count window.now }
        ensures { Looks self.now window.now into.new result }
    {
        if self.is_next_listed() {
            return Err(SourceFail::Failed);
        }
        copy_window(&self.cells, &self.shape, window, into);
        Ok(())
    }

    /// Counts looks at so many cells, and a fault where one of them failed.
    fn count_looks(&mut self, cells: u64, failed: bool)
        ensures { CountsRead self.old cells failed self.new }
    {
        self.asked = self.asked.saturating_add(cells);
        if failed {
            self.faults = self.faults.saturating_add(1);
        }
    }
}

impl CubeSource for MemoryCube {
    ghost seen = { λ s. s };

    fn shape(&self) -> &Shape {
        &self.shape
    }

    fn kind(&self) -> CellKind {
        self.kind
    }

    /// It fails exactly where its number is listed.
    fn look(
        &self,
        _looking: &Looking,
        window: &Window,
        _bytes: &mut [u8],
        into: &mut [Cell],
    ) -> Result<(), LookFail> {
        met(self.copy_cells(window, into))
    }

    fn count(&mut self, cells: u64, fault: Option<ReadFault>) {
        self.count_looks(cells, fault.is_some());
    }
}

impl SharedSource for MemoryCube {}
