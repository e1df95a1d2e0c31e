//! What the program stands on outside: its words, its standard streams, files as stores, cube files and mosaics as
//! collections, the file that a run keeps its records in, a line that tells how far a run is, and why one of these could
//! not be had.
//!
//! All of it runs over any files and streams, so that they can be made to fail. The bytes that pass are hidden, so
//! contracts say when a call may fail and which fault is said of it; which file a call opens, and what it hands on, is
//! shown by worked values.
#![tactic(auto)]

mod collections;
mod cube_or_mosaic;
mod fault;
mod files;
mod mosaics;
mod parts;
mod progress;
mod spool;
mod streams;
mod words;

pub use collections::{collection_files, mount_outcome, open_collection};
pub use cube_or_mosaic::CubeOrMosaic;
pub use fault::Fault;
pub use files::FileStore;
pub use parts::open_parts;
pub use progress::ProgressGate;
pub use spool::open_spool;
pub use streams::{Reader, Writer, hold_standard};
pub use words::words_of;
