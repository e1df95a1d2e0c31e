//! Keepers of a job book.
//!
//! A [`MemoryKeeper`] keeps the book in memory, all of it visible. Its calls fail by a script, and it can stop in any
//! call, so that tests see what a crash leaves. [`job_text`] and [`read_job`] write and read the entry of a job, the
//! JSON text that a keeper on a disk keeps of it.
#![tactic(auto)]

mod change;
mod entry;
mod laws;
mod members;
mod memory;
mod reading;
mod script;

pub use entry::job_text;
pub use laws::jobs_are_restorable;
pub use memory::MemoryKeeper;
pub use reading::read_job;
