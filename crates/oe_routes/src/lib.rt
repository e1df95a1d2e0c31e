//! What a service answers to a request, and what it changes in its job book.
//!
//! [`route`] gives the whole answer: by the path, the method and the user of a request, the form of its body or its
//! query, the thing that it names, and the command. [`ROUTES`] is the one table of paths and methods, which the
//! capabilities print as it stands. Each step gives what a definition of `specs/` says, or refuses with the code of the
//! first rule that the request breaks.
#![tactic(auto)]

mod action;
mod asks;
mod code;
mod command;
mod estimate;
mod fields;
mod form;
mod judged;
mod laws;
mod lists;
mod named;
mod path;
mod perform;
mod query;
mod refusal;
mod results;
mod sent;
mod shown;
mod site;
mod stored;
mod table;
mod tokens;
mod user;

pub use action::{Action, EstimateGraph, route};
pub use asks::asks_for_rows;
pub use code::{code_of_fault, code_of_refusal};
pub use fields::{Fields, fields_in, level_in, words_in};
pub use form::{Changes, NewJob, job_changes, new_job, object_in, object_where, read_json};
pub use laws::{answers_without_rows, lists_by_pages};
pub use path::{id_in, name_in};
pub use query::logs_asked;
pub use refusal::{Refusal, Rejection};
pub use site::Site;
pub use table::{MethodEntry, Operation, ROUTES, RouteEntry, endpoints, find_method, find_path};
pub use tokens::{Tokens, TokensFail};
pub use user::user_of;
