//! What the service answers: the bodies of replies as JSON texts, and the codes of refused requests.
//!
//! Each body is the compact text of a JSON value that stands in `specs/` as a definition over plain values: of the
//! service itself ([`capabilities_body`], [`versions_body`], [`conformance_body`], [`file_formats_body`]), of
//! collections, of jobs with their logs and results, and of stored processes. [`ReplyCode`] is the one table of codes
//! with their HTTP statuses. Nothing here looks at a request or chooses a reply. The layers above use that the bytes
//! of a body are exactly those of its definition.
#![tactic(auto)]

mod code;
mod collection;
mod job;
mod laws;
mod logs;
mod moment;
mod processes;
mod refused;
mod reply;
mod results;
mod root;
mod values;

pub use code::ReplyCode;
pub use collection::{collection_body, collections_body, collections_list};
pub use job::{job_body, jobs_list};
pub use laws::errors_are_plain;
pub use logs::logs_body;
pub use processes::{processes_list, stored_list};
pub use refused::{error_body, validation_body};
pub use reply::{
    created_reply, empty_reply, failed_reply, json_reply, refused_reply, stored_reply,
};
pub use results::results_body;
pub use root::{Endpoint, capabilities_body, conformance_body, file_formats_body, versions_body};
