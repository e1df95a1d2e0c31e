// Widths of records.
ghost use Rattle.std.specs.Prelude.{◌≡◌, max};
ghost use Rattle.oe_wide.specs.Wide.{AllFitIn, FitsIn, IsLeastWidth, byte_count};

use oe_cell::Cell;

/// How many bytes the records of a part of a cube file have.
#[derive(Clone, Copy, PartialEq, Eq)]
pub enum Width {
    /// A tag: null, `false` and `true`.
    One,
    /// A tag and 8 bytes: whole numbers too.
    Nine,
    /// The record of any cell.
    Seventeen,
}

impl Width {
    /// How many bytes a record of this width has.
    #[inline(always)]
    pub fn bytes(self) -> usize
        ensures { result ≡ byte_count self }
    {
        match self {
            Width::One => 1,
            Width::Nine => 9,
            Width::Seventeen => 17,
        }
    }

    /// The one of both whose records have more bytes.
    #[inline(always)]
    pub fn wider(self, other: Width) -> Width
        ensures { byte_count result ≡ max (byte_count self) (byte_count other) }
    {
        match (self, other) {
            (Width::Seventeen, _) | (_, Width::Seventeen) => Width::Seventeen,
            (Width::Nine, _) | (_, Width::Nine) => Width::Nine,
            (Width::One, Width::One) => Width::One,
        }
    }
}

/// The least width in which the cell has a record: 1 for null and flags, 9 for whole numbers, 17 for fractions and
/// `Over`.
#[inline(always)]
pub fn least_width(cell: Cell) -> Width
    ensures { IsLeastWidth (λ width. FitsIn width cell) result }
{
    match cell {
        Cell::Empty | Cell::Flag(_) => Width::One,
        Cell::Number(number) => {
            if number.den() == 1 {
                Width::Nine
            } else {
                Width::Seventeen
            }
        }
        Cell::Over => Width::Seventeen,
    }
}

/// The least width in which each of the cells has a record: 1 where there is none.
pub fn common_width(cells: &[Cell]) -> Width
    ensures { IsLeastWidth (λ width. AllFitIn width cells.now) result }
{
    let mut width = Width::One;
    for cell in cells {
        width = width.wider(least_width(*cell));
    }
    width
}
