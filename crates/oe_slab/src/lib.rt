//! Long time series folded slab by slab.
//!
//! A reduction of t needs all dates of a pixel at once where the graph is evaluated in chunks. Where it reduces them date
//! by date, and no other node needs all dates, the run can be cut there: slabs of some dates are evaluated and folded one
//! after the other, and the part behind the cut is evaluated on what the fold gives. [`slab_figures`] finds the cut, and
//! tells how many cells such a run holds; [`SlabPlan::new`] refuses a run that would hold too many.
#![tactic(auto)]

mod chunk;
mod cut;
mod evaluate;
mod figures;
mod fold;
mod laws;
mod links;
mod parts;
mod plan;
mod records;
mod schedules;
mod slab_run;
mod workspace;

pub use figures::{SlabNumbers, SlabNumbersFail, slab_figures};
pub use laws::{cuts_fold_by_date, cuts_part_their_runs, slab_over_is_of_the_result};
pub use oe_steps::RunFail;
pub use plan::{SlabPlan, SlabPlanFail};
pub use slab_run::{SlabProgress, SlabRun};
pub use workspace::SlabWorkspace;
