// What a callback sees of its parent.
use oe_cell::Cell;
use oe_dims::{CellKind, Labels};

/// A list of a reduction, by its labels: those of the dimension from the index `from` to before the index `to`.
#[derive(Clone, Copy, PartialEq, Eq)]
pub struct ListPart {
    pub from: u32,
    pub to: u32,
}

/// What the parent of a callback gives it (openEO API, process graphs; openEO Processes).
pub enum Scope {
    /// `x` and `context`, by `apply`: the kind of the cells.
    Apply {
        x: CellKind,
    },
    /// `data` and `context`, by `reduce_dimension` and `aggregate_temporal`: the kind of the cells, the labels of the
    /// reduced dimension, and the lists that it is evaluated on.
    Reduce {
        cells: CellKind,
        labels: Labels,
        lists: Vec<ListPart>,
    },
    /// `x`, `y` and `context`, by `merge_cubes`: the kind of the cells of both cubes.
    Merge {
        cells: CellKind,
    },
}

/// Written out, so that a scope that ends is one call wherever it does.
impl Drop for Scope {
    fn drop(self) {
        match self {
            Scope::Apply { x: _ } => {}
            Scope::Reduce {
                cells: _,
                labels: _,
                lists: _,
            } => {}
            Scope::Merge { cells: _ } => {}
        }
    }
}

/// What a callback is evaluated on: `x` and `y`, or the cells of a list and the number of the list among those of the
/// scope. What the scope lacks is not looked at.
#[derive(Clone, Copy)]
pub struct Env<'a> {
    pub x: Cell,
    pub y: Cell,
    pub cells: &'a [Cell],
    pub list: u32,
}
