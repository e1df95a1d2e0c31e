//! Graphs judged: the least fault of what a graph calls and names, of its arguments and of its cubes.
//!
//! A graph comes here as it was read, with the stored processes that it may call, and leaves resolved and checked over
//! collections, or with its least fault (openEO API, process graphs and errors). Whoever is to judge a graph, a command or
//! a request, does so by [`judge`], so that one definition says for all of them where a fault stands. [`with_result`] takes
//! another node for the result, [`fault_text`] is what a user is told of a fault, and [`with_detail`] the one
//! place where a code and its detail are put together.
#![tactic(auto)]

mod chosen;
mod judged;
mod texts;

pub use chosen::with_result;
pub use judged::judge;
pub use texts::{fault_text, with_detail};
