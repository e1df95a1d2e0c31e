//! The dimensions of a datacube: texts, labels, instants and shapes, and the definition of a cube.
//!
//! A [`Shape`] has at most one dimension each of time, bands, `y` and `x`, each with its labels in order, and every
//! shape that exists is valid. Contracts see it as its [`Dimensions`](specs) record. The definition of a cube over any
//! type of cell stands here too: its shape and one cell for each tuple of labels, found by the labels and never by
//! position. The layers above use that the readers of a shape are exact, that positions, tuples and row-major numbers
//! correspond one to one, and that a cube is what it is at each tuple.
#![tactic(auto)]

mod bands;
mod bytes;
mod copies;
mod dims;
mod distinct;
mod instant;
mod kind;
mod label_list;
mod lists;
mod name;
mod order;
mod search;
mod shape;
mod text;

pub use bands::BandIndex;
pub use bytes::{bytes_behind, index_of_byte};
pub use copies::{copy_bands, copy_numbers, copy_text, copy_texts, text_of};
pub use dims::{Dims, DimsRow};
pub use instant::{InstantFault, date_after, is_instant, print_instant, read_instant};
pub use kind::{CellKind, Kind, Labels};
pub use name::is_name;
pub use order::{is_name_before, rises, same_name, same_text};
pub use shape::{Shape, ShapeFault};
pub use text::Text;
