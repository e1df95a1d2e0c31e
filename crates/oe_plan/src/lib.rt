//! Plans of runs: the order in which the nodes of a checked graph are worked off, the windows that each chunk of the
//! result needs of them, and the most cells that a run holds at once.
//!
//! [`figures`] tells how many cells a run would hold and in how many chunks it goes. [`Plan::new`] refuses a graph
//! whose run would hold too many, and else keeps what a run asks for again and again: the node and the slot of each
//! step, the steps that it takes, and the chunks. [`Plan::windows_of`] finds the windows of all steps for a chunk. A
//! [`Schedule`] is an order to evaluate nodes by: that of a plan, or of a part of a run, up to another last node or
//! from a node whose cube is given. The layers above use that the plan is that of the definitions, that its buffers
//! have at most as many cells as its bound, and that each window is the least that has what later steps need and fits
//! its buffer.
#![tactic(auto)]

mod bound;
mod laws;
mod plan;
mod schedule;
mod turns;
mod widths;
mod windows;
mod words;

pub use bound::{
    PlanFigures, Sides, figures, most_along, order_of, order_to, scratch_of, sides_of,
};
pub use laws::{plans_cross_threads, plans_fit, schedules_serve};
pub use plan::{Plan, PlanFail};
pub use schedule::Schedule;
pub use windows::{argument_count, argument_of, windows_of};
pub use words::{read_number, read_sides, spells_number};
