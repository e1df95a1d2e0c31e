//! The service: a job book, and the run of its running job, tick by tick.
//!
//! [`open_book`] opens the book that a keeper has, and [`tick`] does the next thing that is due: it starts a job, plans
//! one of its assets, does a round of its chunks, stores its text, or finishes the job. Each change of the book is
//! committed by the keeper before it is made in memory, and one call begins at most one commit. So a crash in a call, or
//! between two, leaves the book from before that call or the one that its event makes, and the service goes on from it.
//! What a tick and a command promise is one record, `GoesByEvent`, over a machine of states and events. The calls of `laws.rt` do
//! nothing: their contracts are laws of all lives of a service, as [`nothing_is_lost`] and [`jobs_finish_in_time`].
#![tactic(auto)]

mod answer;
mod asset;
mod due;
mod laws;
mod open;
mod refusal;
mod service;
mod text;
mod ticks;

pub use answer::Ticked;
pub use laws::{
    calls_lead_on, crashes_leave_one, finished_jobs_have_texts, jobs_finish_in_time,
    nothing_is_lost, running_is_queued, statuses_move_along, ticks_bring_texts,
};
pub use open::{OpenBookFail, open_book};
pub use refusal::RunRefusal;
pub use service::{Service, commit_change};
pub use ticks::tick;
