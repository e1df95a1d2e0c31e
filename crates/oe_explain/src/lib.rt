//! Faults of graphs explained for people.
//!
//! A fault is a code and a node. [`explain`] finds the argument that it is of, by the graph and the table of processes,
//! and writes what that argument must hold and what to do. The tests of arguments are those of the definition by which a
//! graph is judged (`may_hold` of `oe_check`), so that what is said to be wrong is what was refused.
#![tactic(auto)]

mod asked;
mod at_fault;
mod held;
mod lines;
mod words;

pub use lines::explain;
