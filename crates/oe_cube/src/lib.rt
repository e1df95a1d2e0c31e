//! Datacubes with the kind of their cells.
//!
//! The cells of a cube are numbers or flags, null among them, and each process says which it takes and gives. The
//! layers above use one word for a cell of a kind, whether it may be Over or not, and one for a collection, which is a
//! cube as it is kept before any process has run.
#![tactic(auto)]

mod kind;

pub use kind::is_null_or_of;
