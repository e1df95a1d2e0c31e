//! One window of a node's cube, from windows of the cubes of its arguments.
//!
//! A [`Slice`] is the cells of a cube on a window. For each process there is the least window of an argument that a
//! window of the result needs, and the cells of the result on the window from slices that hold what it needs. The
//! layers above use that these are the cells of the process on whole cubes. Nothing here takes memory.
#![tactic(auto)]

mod accumulate;
mod aggregate;
mod apply;
mod convolve;
mod cover;
mod give_back;
mod keep;
mod list;
mod merge;
mod needs;
mod node;
mod reduce;
mod rows;
mod run;
mod slice;
mod source;

pub use accumulate::eval_accumulate;
pub use aggregate::eval_aggregate;
pub use apply::eval_apply;
pub use convolve::eval_convolve;
pub use cover::eval_cover;
pub use give_back::eval_give_back;
pub use keep::eval_keep;
pub use merge::{Input, eval_merge};
pub use needs::{need_beside, need_labels, need_pixels, source_window};
pub use node::{eval_node, need};
pub use reduce::eval_reduce;
pub use slice::Slice;
