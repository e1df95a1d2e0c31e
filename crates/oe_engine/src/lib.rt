//! Runs of plans: chunks of the result are evaluated in benches, each by itself.
//!
//! A [`Bench`] holds the windows of one chunk for all steps of a plan, a buffer for each slot, and cells to work with.
//! It is loaded with the cells of the collections and evaluated, which takes no memory. The layers above use that a
//! bench that was loaded over some collections is done over the same ones afterwards: it holds the cells of the
//! result's cube on the chunk.
#![tactic(auto)]

mod asking;
mod bench;
mod chunks;
mod evaluation;
mod hands;
mod hulls;
mod laws;
mod lead;
mod loading;
mod making;
mod part_run;
mod round;
mod round_table;
mod run;
mod steps;
mod table;
mod work;
mod workspace;

pub use bench::{Bench, State};
pub use evaluation::evaluate;
pub use laws::{
    collections_are_mounted, collections_are_shown, collections_are_valid, over_is_of_the_result,
    reads_change_nothing, runs_go_on, runs_stay_apart,
};
pub use oe_steps::RunFail;
pub use part_run::PartRun;
pub use run::{Progress, Run};
pub use workspace::Workspace;
