//! Cells of a datacube: null, truth values and exact fractions, with every operation on them.
//!
//! A [`Cell`] is null, a flag, a number or `Over`, the mark of an exact value that no number of a cell equals. A
//! [`Frac`] is a fraction in lowest terms whose parts fit 63 bits; contracts see it as the pair of its numerator and
//! denominator, of which each rational number has at most one. Nothing here takes memory, and every call is total.
//!
//! The layers above use that each operation equals its definition and keeps its kind (arithmetic gives no flag,
//! comparisons and logic no number), that [`read_records`] undoes [`write_records`], and that [`print_cell`] gives
//! exactly the spelling of a cell, which no other cell has.
#![tactic(auto)]

mod arith;
mod cell;
mod frac;
mod gcd;
mod logic;
mod operands;
mod order;
mod print;
mod records;
mod whole;
mod wide;

pub use arith::{add, divide, modulo, multiply, subtract};
pub use cell::Cell;
pub use frac::{Frac, whole_cell};
pub use logic::{and, choose, not, or, xor};
pub use order::{compare, eq, gt, gte, lt, lte, neq};
pub use print::{TextBuf, print_cell};
pub use records::{read_record, read_records, write_record, write_records};
pub use whole::{absolute, ceil, floor, int, sgn};
