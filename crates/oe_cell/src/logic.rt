// Logic of three values on cells: and, or, xor, not, and the choice of openEO's `if`.
ghost use Rattle.std.specs.Prelude.{◌≡◌};
ghost use Rattle.oe_cell.specs.Kinds.{IsNumeric, IsLogical, HasCommonFacts};
ghost use Rattle.oe_cell.specs.Operations.{and_of, or_of, xor_of, not_of, choose_of};

use crate::Cell;

/// `and` of openEO Processes: `false` beside null is `false`, any other case with a null is null. Over in an operand
/// gives Over; otherwise a number gives null.
pub fn and(x: Cell, y: Cell) -> Cell
    ensures value { result ≡ and_of x y }
    ensures kind { IsLogical result }
{
    match (x, y) {
        (Cell::Over, _) => Cell::Over,
        (_, Cell::Over) => Cell::Over,
        (Cell::Number(_), _) => Cell::Empty,
        (_, Cell::Number(_)) => Cell::Empty,
        (Cell::Flag(false), _) => Cell::Flag(false),
        (_, Cell::Flag(false)) => Cell::Flag(false),
        (Cell::Flag(true), Cell::Flag(true)) => Cell::Flag(true),
        _ => Cell::Empty,
    }
}

/// `or` of openEO Processes: `true` beside null is `true`, any other case with a null is null. Over in an operand
/// gives Over; otherwise a number gives null.
pub fn or(x: Cell, y: Cell) -> Cell
    ensures value { result ≡ or_of x y }
    ensures kind { IsLogical result }
{
    match (x, y) {
        (Cell::Over, _) => Cell::Over,
        (_, Cell::Over) => Cell::Over,
        (Cell::Number(_), _) => Cell::Empty,
        (_, Cell::Number(_)) => Cell::Empty,
        (Cell::Flag(true), _) => Cell::Flag(true),
        (_, Cell::Flag(true)) => Cell::Flag(true),
        (Cell::Flag(false), Cell::Flag(false)) => Cell::Flag(false),
        _ => Cell::Empty,
    }
}

/// `xor` of openEO Processes: true where exactly one operand is, and null where one is null. Over in an operand gives
/// Over; otherwise a number gives null.
pub fn xor(x: Cell, y: Cell) -> Cell
    ensures value { result ≡ xor_of x y }
    ensures kind { IsLogical result }
{
    match (x, y) {
        (Cell::Over, _) | (_, Cell::Over) => Cell::Over,
        (Cell::Flag(a), Cell::Flag(b)) => Cell::Flag(a != b),
        _ => Cell::Empty,
    }
}

/// `not` of openEO Processes: the opposite of a flag. Over gives Over, null and a number give null.
pub fn not(x: Cell) -> Cell
    ensures value { result ≡ not_of x }
    ensures kind { IsLogical result }
{
    match x {
        Cell::Over => Cell::Over,
        Cell::Flag(b) => Cell::Flag(!b),
        _ => Cell::Empty,
    }
}

/// `if` of openEO Processes: `accept` where the value is `true`, `reject` where it is `false` or null. An Over value
/// gives Over, a number gives null. The branch that is not chosen does not count.
pub fn choose(value: Cell, accept: Cell, reject: Cell) -> Cell
    ensures value { result ≡ choose_of value accept reject }
    ensures keeps { HasCommonFacts accept reject result }
    ensures numeric { IsNumeric accept → IsNumeric reject → IsNumeric result }
    ensures logical { IsLogical accept → IsLogical reject → IsLogical result }
{
    match value {
        Cell::Over => Cell::Over,
        Cell::Number(_) => Cell::Empty,
        Cell::Flag(true) => accept,
        Cell::Flag(false) => reject,
        Cell::Empty => reject,
    }
}
