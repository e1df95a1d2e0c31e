//! Graphs without a fault.
//!
//! A resolved graph is judged node by node over the shapes and kinds of collections, and is handed on with what was
//! found: for each node its operation, the shape and the kind of its cube.
#![tactic(auto)]

mod checked;
mod faults_early;
mod faults_of_kinds;
mod faults_of_labels;
mod graph_check;
mod input;
mod judge;
mod judge_inputs;
mod laws;
mod links;
mod reach;
mod shape_shared;
mod walk;

pub use checked::Checked;
pub use graph_check::check;
pub use laws::{
    arguments_are_held, faults_stand_lowest, folds_are_reductions, graphs_cross_threads,
    nodes_give_cubes, references_are_cubes, resolvers_are_needed, tables_are_tied,
};
