//! Records of three widths, in which a cube file keeps its cells.
//!
//! A record of [`Width::One`] holds null or a flag, one of [`Width::Nine`] a whole number too, and one of
//! [`Width::Seventeen`] is the record of any cell, as `oe_cell` writes it. Nothing here takes memory. The layers above
//! use that each cell has at most one record in a width, that [`read_wide`] undoes [`write_wide`] and answers `None`
//! exactly where bytes are no record, and that both do so with rows of records too. [`read_numbers`] reads nulls and
//! whole numbers alone, with less work for each.
#![tactic(auto)]

mod narrow;
mod records;
mod width;

pub use records::{read_numbers, read_row, read_wide, write_row, write_wide};
pub use width::{Width, common_width, least_width};
