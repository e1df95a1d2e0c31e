//! What the arguments of a node ask for.
//!
//! The requests stand in `specs/`: what each process reads from its arguments, and the operation that this is on cubes
//! of known shapes and kinds.
#![tactic(auto)]

mod extent;
mod intervals;
mod operation;
mod parameter;
mod parameter_box;
mod parameter_list;
mod process;
mod request;
mod running_sums;

pub use extent::{BoundingBox, Interval, TemporalExtent};
pub use intervals::Intervals;
pub use operation::{Operation, Restriction};
pub use parameter::{
    is_empty_list, is_empty_object, is_null, is_null_or_empty_object, is_time_name,
};
pub use request::{Called, KernelRows, Request, read_request};
pub use running_sums::{is_data, running_sum_in};
