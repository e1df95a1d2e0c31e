//! Calls of stored processes, in process graphs.
//!
//! What a node calls and what its calls reach, how many nodes they bring and how much their arguments hold; and the
//! rounds, in each of which every call is replaced by the graph of its process.
#![tactic(auto)]

mod calls;
mod count;
mod find;
mod inline;
mod names;
mod reach;
mod rounds;
mod sizes;
mod values;

pub use calls::{callee, is_call, means_catalogue};
pub use count::is_too_large;
pub use names::{is_among, join_names};
pub use reach::{CallGraph, call_fault, has_call, read_calls};
pub use rounds::round;
pub use sizes::{keep_limits, keep_limits_in_round};
pub use values::default_of;
