//! The server: connections answered one by one, and ticks between them.
//!
//! [`serve_one`] reads one request from a connection and answers it: with what the request asks for, after the change
//! that it makes was committed and is in the book; or with the result of a graph, which is run whole. [`serve`] opens
//! the book and takes turns: each asks the door once, serves at most one connection, and does one tick. The layers
//! above use that each turn is the event of its request, or none, and then that of its tick.
#![tactic(auto)]

mod actions;
mod command;
mod connections;
mod estimate;
mod evaluation;
mod laws;
mod links;
mod no_result;
mod refusal;
mod results;
mod rows;
mod served;
mod setup;
mod turns;

pub use command::{ServeCommand, read_serve};
pub use connections::serve_one;
pub use laws::serving_is_complete;
pub use served::Served;
pub use setup::Setup;
pub use turns::{ServeFail, serve};
