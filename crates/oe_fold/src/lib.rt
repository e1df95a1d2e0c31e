//! The reducers of openEO Processes over lists of cells.
//!
//! [`fold`] reduces a list of cells in label order by one of the twelve [`Reducer`]s, [`Pass`] does so cell by cell,
//! and [`fold_columns`] reduces each column of a part of a cube. They take no memory and leave the cells as they were.
//! All but the median go once over the cells; the median puts those that count in order in a slice that the caller
//! lends. The layers above use that the result is the one cell that the definition of the reducer allows, and of which
//! kind it is.
#![tactic(auto)]

mod columns;
mod median;
mod order;
mod pass;
mod reduce;
mod reducer;
mod tally;

pub use columns::fold_columns;
pub use pass::Pass;
pub use reduce::fold;
pub use reducer::Reducer;
