// The part of a plane that is loaded.
ghost use Rattle.std.specs.Prelude.{◌≡◌, ◌<◌, ◌≤◌, ◌-◌, IsTrue, length, ℕ};
ghost use Rattle.std.specs.List.{slice_index_or};
ghost use Rattle.oe_cell.specs.declared.cell.Cell.TheVariants.{Empty};
ghost use Rattle.oe_kernel.specs.Convolution.{IsPlane, cell_in, IsPositionIn};

use oe_cell::Cell;

/// The longest side of a plane.
const LONGEST_SIDE: u32 = 65536;

/// A box of a plane with the sides `side_x` and `side_y`: the cells of its rows from `from_y` to before `to_y` and of
/// its columns from `from_x` to before `to_x`, row by row.
#[derive(Clone, Copy)]
pub struct Plane<'a> {
    /// The cells of the box, row by row.
    pub cells: &'a [Cell],
    /// The first column of the box.
    pub from_x: u32,
    /// The column after its last.
    pub to_x: u32,
    /// The first row of the box.
    pub from_y: u32,
    /// The row after its last.
    pub to_y: u32,
    /// How many columns the whole plane has, 1 to 65536.
    pub side_x: u32,
    /// How many rows the whole plane has, 1 to 65536.
    pub side_y: u32,
}

impl Plane<'_> {
    /// Whether this is a box of a plane: the sides are 1 to 65536, the box lies within them, and there are as many
    /// cells as it has rows times columns.
    pub fn is_valid(&self) -> bool
        ensures valid { IsTrue result → IsPlane self.now }
        ensures exact { IsPlane self.now → IsTrue result }
    {
        if self.side_x == 0 || LONGEST_SIDE < self.side_x {
            return false;
        }
        if self.side_y == 0 || LONGEST_SIDE < self.side_y {
            return false;
        }
        if self.to_x < self.from_x || self.side_x < self.to_x {
            return false;
        }
        if self.to_y < self.from_y || self.side_y < self.to_y {
            return false;
        }
        let columns = (self.to_x - self.from_x) as usize;
        let rows = (self.to_y - self.from_y) as usize;
        self.cells.len() == rows * columns
    }
}

/// The part of a row that the box has.
pub(crate) fn box_row<'a>(plane: &Plane<'a>, row: u32) -> &'a [Cell]
    requires plane { IsPlane plane.now }
    requires row { IsPositionIn plane.now.from_y plane.now.to_y row }
    ensures len { length result.now ≡ plane.now.to_x - plane.now.from_x }
    ensures value { (column : ℕ) → IsPositionIn plane.now.from_x plane.now.to_x column
        → slice_index_or result.now (column - plane.now.from_x) Empty
        ≡ cell_in plane.now row column }
{
    let columns = (plane.to_x - plane.from_x) as usize;
    let start = (row - plane.from_y) as usize * columns;
    &plane.cells[start..start + columns]
}
