//! Graphs without calendar periods and running sums.
//!
//! [`translate`] writes `aggregate_temporal_period` and `apply_dimension` by `aggregate_temporal` and `merge_cubes`
//! (openEO Processes). `specs/` says what the graph then is, and the laws that each node means what it meant: so both
//! processes say nothing that the others could not say. [`check_all`] answers the checked graph of the translation, or
//! the fault of the graph as it was sent: no other fault stands in the translation. Only its rows stand on this crate,
//! for a run works on the graph as it was sent.
#![tactic(auto)]

mod graph;
mod laws;
mod order;
mod rewrite;
mod written;

pub use graph::{check_all, translate};
pub use laws::{
    meanings_are_kept, names_leave_room, translations_are_acyclic, translations_are_faultless,
    translations_are_small,
};
