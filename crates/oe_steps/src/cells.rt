// Cells that are looked at.
ghost use Rattle.std.specs.List.{All};
ghost use Rattle.oe_cell.specs.Cells.{IsCell};

use oe_cell::Cell;

/// Looks at each cell. Its contract says that every number among them is one, as the type of numbers keeps it.
pub fn recall_numbers(cells: &[Cell])
    ensures { All IsCell cells.now }
{
    for cell in cells {
        look_at(cell);
    }
}

fn look_at(cell: &Cell)
    ensures { IsCell cell.now }
{
    if let Cell::Number(number) = cell {
        let _num = number.num();
    }
}
