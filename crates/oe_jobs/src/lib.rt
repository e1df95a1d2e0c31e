//! The job book of a batch-job server: jobs, stored processes and the status machine.
//!
//! A [`Book`] holds the [`Job`]s and stored processes of all users. [`decide`] says what a [`Command`] of a user
//! changes and is answered, [`step`] what an event of a run changes, and [`reopen`] what the opening of a book after a
//! stop changes; each gives a [`Change`] and touches no book. [`Book::ready`] makes the room for a change and
//! [`Book::install`] then makes it without memory; in between a [`Keeper`] commits it. The layers above use that these
//! calls are the functions of `specs/`, whose one table `step_of` is the status machine, and that every change that
//! they give of a valid book makes a valid one.
#![tactic(auto)]

mod book;
mod change;
mod command;
mod copy;
mod event;
mod find;
mod install;
mod job;
mod keeper;
mod level;
mod log;
mod number;
mod status;
mod verdict;

pub use book::{Book, Owned};
pub use change::Change;
pub use command::{Command, JobFault, Outcome, Verdict};
pub use event::{JobEvent, reopen, step};
pub use find::{count_jobs, count_processes};
pub use job::{Asset, Job, LogEntry, Ran};
pub use keeper::{Keeper, KeeperFail};
pub use level::Level;
pub use number::{job_id, number_of, read_number};
pub use status::Status;
pub use verdict::decide;
