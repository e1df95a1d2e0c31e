//! Calendar periods and running sums.
//!
//! [`Periods`] are the calendar days, months or years in universal time from the one of a first instant to the one of
//! a last (openEO Processes, `aggregate_temporal_period`): where each begins and where it ends. [`begin_sums`],
//! [`add_cells`] and [`write_sums`] make the running sums of a row of pixels, date by date (openEO Processes, `cumsum`).
//! The layers above use that an instant lies in exactly one period, whose start is not after it and whose end is, and
//! that the sum after some cells is the one that the list of these cells has. Nothing here takes memory.
#![tactic(auto)]

mod calendar;
mod periods;
mod sums;

pub use calendar::{Period, calendar_parts_time, period_named};
pub use periods::Periods;
pub use sums::{add_cells, begin_sums, write_sums};
