//! Lines of the programs of worked values: what they spell, and how answers to them are spelled.
//!
//! A program of worked values has a row a line of its standard input, and the answers stand in its standard output. The
//! words that several programs read or write stand here once: numbers, hexadecimal digits, labels and shapes, cells,
//! windows, and the numbers of the calls of an object that fail. A line that is none of those that are understood is
//! refused as [`Fault::Line`], the one fault besides out of memory. Nothing but these programs stands on this crate.
//!
//! | Word | What it spells |
//! |---|---|
//! | numbers | `-` for none, or numbers with commas between them |
//! | bytes | `-` for none, or two hexadecimal digits for each |
//! | escaped bytes | parts with bars between them, of which one as `N*BYTES` has its bytes N times; a byte stands as it is, `\r` and `\n` for those of a line end, and `\HH` for any one in two hexadecimal digits |
//! | labels | `-` for no such dimension, `=` for one without labels, or items with commas between them: a number, or `A..B` for those from A on and before B, upwards or downwards |
//! | names | likewise; an item is a name, `A..B` for as many names that differ and stand in no order, or `b*N` for `b0` to the name before `bN` |
//! | a shape | the five words `EPSG T BANDS Y X`: the code of its reference system, labels, names, labels and labels |
//! | a cell | `null`, `true`, `false`, `over`, `7`, or `-3/2` in lowest terms |
//! | cells | `-` for none, or items with commas between them: a cell, `N*X` for a cell so many times, or `A..B` for whole numbers as labels |
//! | a window | the four words `T BANDS Y X`, each from an index to before another as `0..2` |
#![tactic(auto)]

mod answers;
mod bytes;
mod cells;
mod fault;
mod labels;
mod line;
mod windows;
mod words;

pub use answers::{
    Answers, end_line, last_other, push, push_all, push_cell, push_cells, push_digits, push_flag,
    push_number, push_word,
};
pub use bytes::{escaped_bytes, escaped_text, push_quoted};
pub use cells::{cell_of, cells_of, cells_of_kind, frac_of, fraction_of};
pub use fault::Fault;
pub use labels::{labels_of, names_of, shape_of, valid_shape_of};
pub use line::Line;
pub use windows::push_window;
pub use words::{bytes_of, first_word, number_of, numbers_of, parts_of, words_of};
