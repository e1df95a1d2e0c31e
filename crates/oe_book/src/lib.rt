//! What is read off a job book: the assets of a job, the text of a process as a book holds it, and what a valid book
//! gives to those who use it.
//!
//! [`assets_of`] finds the nodes of a job's graph that make an asset, [`asset_ids`] their ids and [`asset_name`] the
//! name of an asset. [`process_text`] makes the text of a process, and [`is_book`] tells whether a book is valid.
//! [`keeps_running`], [`idle_without_busy`], [`stored_is_valid`] and [`id_leaves_faults`] do nothing: their contracts
//! are laws, which the layers above use.
#![tactic(auto)]

mod assets;
mod floats;
mod job;
mod laws;
mod leaves;
mod numbers;
mod pairs;
mod process;
mod same;
mod stored;
mod valid;

pub use assets::{asset_ids, asset_name, assets_of};
pub use laws::{id_leaves_faults, idle_without_busy, keeps_running, stored_is_valid};
pub use process::{ProcessRefusal, is_process_text, json_text, process_text};
pub use valid::is_book;
