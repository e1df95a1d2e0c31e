//! The result text of a cube, both ways.
//!
//! [`render`] writes the text of the cube whose records stand in a store, and [`write_text`] that of a cube in memory;
//! both go through a buffer of bytes that the caller lends, into any sink. The text of a cube is one definition, which
//! the layers above cite: what was written is that text, or a prefix of it where a call refused.
//!
//! Laws say that such a text is UTF-8, how long it may be, and that it is counted exactly: [`texts_are_utf8`],
//! [`texts_are_short`], [`counts_are_exact`].
//!
//! [`read_cube_text`] reads it again, and any other JSON that says the same. [`send_dimensions`] and [`read_shape`] do
//! both with the dimensions alone, for other texts that have them.
#![tactic(auto)]

mod batch;
mod cells;
mod dimensions;
mod laws;
mod members;
mod reading;
mod rendering;
mod spelling;
mod text;

pub use dimensions::read_shape;
pub use laws::{counts_are_exact, texts_are_short, texts_are_utf8};
pub use members::{kind_word, list_in, read_dimensions, read_kind, text_in};
pub use reading::{CubeText, CubeTextFail, read_cube_text};
pub use rendering::{RenderFail, render};
pub use text::{send_dimensions, write_text};
