//! Boxes of positions of a datacube: windows, the chunks of a grid, and the runs of numbers that a window takes up.
//!
//! A [`Window`] is read as the set of positions that lie in its four spans. A [`Grid`] parts a shape into chunks, of
//! which each position lies in exactly one. A [`RunList`] gives the row-major numbers of a window as its longest runs.
//! Nothing here takes memory. The layers above use that the chunks part the shape, and that the runs of a window laid
//! end to end are exactly its numbers, so that reading them run by run gives the cells of a cube on the window.
#![tactic(auto)]

mod cells;
mod grid;
mod layout;
mod parts;
mod run_list;
mod window;

pub use cells::{copy_window, plane_cells, row_cells, whole_cells};
pub use grid::{ChunkSize, Grid};
pub use run_list::{RunList, runs};
pub use window::{Span, Window, extent_of, holds, hull, meet, size, whole};
