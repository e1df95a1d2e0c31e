//! The top call of the program.
//!
//! [`openeo`] takes the words of a command, the bytes of its input and a catalogue of collections, and writes what the
//! command gives: of `run` the text of what a process graph means. It answers a status, and says on `err` in one line
//! why a command did not finish. The table of statuses with the cause of each is the contract of [`openeo`] itself: a
//! record for each command.
#![tactic(auto)]

mod check;
mod command;
mod demo;
mod describe;
mod endings;
mod evaluation;
mod explain;
mod input;
mod join;
mod judge;
mod laws;
mod line;
mod pack;
mod part;
mod plan;
mod refusal;
mod repack;
mod run;
mod say;
mod setup;
mod short_name;
mod slab;
mod slab_evaluation;
mod slab_plan;
mod words;

pub use command::openeo;
pub use join::joined_is_run;
pub use setup::Setup;
