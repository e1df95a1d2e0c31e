//! The records of a cube's cells in a store, written window by window.
//!
//! The record of a cell has 17 bytes and stands at the cell's row-major number from an offset on. [`write_window`]
//! writes those of the cells on one window, in pieces of many records, and leaves all other bytes as they were;
//! [`least_over`] finds the least number of a cell that is `Over`. Nothing here takes memory.
//!
//! The layers above use that what one window wrote stays while others are written ([`records_stay`]), that the records
//! of all cells of a cube stand in the store once each chunk of a grid is written ([`windows_make_cubes`]), and that
//! the least number over parts is that of the cube ([`least_of_parts`]).
#![tactic(auto)]

mod laws;
mod least;
mod window;

pub use laws::{changes_add_up, least_of_parts, records_stay, windows_make_cubes};
pub use least::{least_over, lesser};
pub use window::write_window;
