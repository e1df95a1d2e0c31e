//! The command `client`: calls of a back end, each over a connection that is dialled.
//!
//! [`read_call`] reads the words `client HOST PORT TOKEN VERB [ARG]`, and [`call_back_end`] makes the call that they
//! spell: it reads the input where the verb sends it, dials once, sends the request, and writes the body of a response
//! that succeeded (openEO API, RFC 9112). [`client`] does so, or asks for all pages of a list, one call a page; it answers
//! the exit status of the program and says in one line why a call did not succeed. The contract of each is one record,
//! with the cause of each ending.
#![tactic(auto)]

mod body;
mod call;
mod command;
mod input;
mod lists;
mod refusal;
mod words;

pub use call::call_back_end;
pub use command::client;
pub use refusal::CallRefusal;
pub use words::{ClientCall, read_call};
