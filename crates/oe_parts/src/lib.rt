//! Parts of runs: the records of some chunks of a result in a file, and how such files are put together.
//!
//! A part file tells in its header of which run it is a part: the text of the process graph, the sides of the chunks,
//! the range of its chunks, and the kind and the dimensions of the result. [`write_part`] writes one from the records
//! in a spool. [`RunPart::open`] judges one in any store, and [`RunParts`] are several, whose [`fit`](RunParts::fit)
//! looks whether they are all the chunks of one run, each once. [`lay`] then lays their records into a spool, each at
//! its number in the whole result, through buffers of fixed size: of visible parts of one cube the records of that
//! cube stand in the spool then, whatever their ranges are and however they are ordered.
#![tactic(auto)]

mod head;
mod laws;
mod laying;
mod part;
mod parts;
mod read;
mod rows;
mod whole;
mod write;

pub use head::PartHead;
pub use laws::{headers_show_changes, parts_are_files};
pub use laying::{LayFail, lay};
pub use part::{OpenFail, RunPart};
pub use parts::{MOST_PARTS, PushFail, RunParts};
pub use whole::Misfit;
pub use write::write_part;
