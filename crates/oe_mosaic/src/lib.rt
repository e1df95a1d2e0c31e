//! Mosaics: one collection of up to 16 collections, in order of priority.
//!
//! [`Parts`] are the collections, all of one kind, with the same dimensions and one reference system. A [`Mosaic`] of
//! them is a collection again: it has all labels of its parts, and the cell of a label tuple is that of the first part
//! that has the tuple, null or not. It asks a part only for windows that the part has. [`read_mosaic`] reads the file
//! that names a mosaic's id and its files. The layers above use that the collection of a mosaic is the one that its
//! definition makes of the collections of its parts.
#![tactic(auto)]

mod halves;
mod labels;
mod laws;
mod mosaic;
mod parts;
mod place;
mod reading;
mod seam;
mod text;

pub use laws::mosaics_have_all_labels;
pub use mosaic::{Mosaic, MosaicFail};
pub use parts::{PartFail, Parts};
pub use text::{MosaicText, MosaicTextFail, read_mosaic};
