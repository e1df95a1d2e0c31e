//! The steps of a schedule over windows: the cells of collections are loaded into buffers, and those of the other nodes
//! are evaluated from them, step by step.
//!
//! A caller has a buffer for each slot of a schedule and a window for each of its steps. [`load_slot`] reads the cells
//! of one step that loads a collection; [`look_slot`] does so by looks, so that several threads may load at once: their
//! cells are asked for before by [`ask`], and [`settle`] counts a fault that they met afterwards. The cells of a node
//! whose cube is given are put into its slot by the caller. [`evaluate_steps`] evaluates all others, in order, and
//! takes no memory. The layers above use that after it the buffers hold the cells of the last node's cube on its
//! window, where before it they held those of each node that is loaded or given.
#![tactic(auto)]

mod buffers;
mod cells;
mod fail;
mod laws;
mod loading;
mod run;
mod step;
mod strips;

pub use buffers::{buffers_of, empty_window};
pub use cells::recall_numbers;
pub use fail::RunFail;
pub use laws::loads_are_mounted;
pub use loading::{ask, load_slot, look_front, look_slot, place_of, settle};
pub use run::{evaluate_steps, loads, step_of_last};
pub use step::{evaluate_step, front};
pub use strips::{is_strip, take_part};
