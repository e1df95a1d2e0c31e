//! The client's calls: one request to a back end, and what becomes of its response.
//!
//! A verb says what is asked for, as one row of [`VERBS`]: its method, its path and whether the input is its body.
//! [`client_command`] makes the request of a verb, and [`client_call`] sends it and reads the response: the body of one
//! that succeeded goes to the output, and any other is handed back with its status (openEO API, RFC 9112). Of a list that
//! is asked for by pages [`page_command`] makes the request for each, and [`next_offset`] reads where the next one begins.
#![tactic(auto)]

mod argument;
mod call;
mod command;
mod laws;
mod pages;
mod verbs;

pub use argument::is_argument_of;
pub use call::{ClientFail, client_call};
pub use command::{ClientCommand, client_command, page_command};
pub use laws::pages_are_followed;
pub use pages::{PageFail, next_offset};
pub use verbs::{Argument, VERBS, VerbEntry, VerbMethod, find_verb};
