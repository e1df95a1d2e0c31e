//! HTTP messages, both ways, over a link that gives its bytes in any pieces (RFC 9112, with a profile of its own).
//!
//! A head ends at the first CR LF CR LF of the first 16384 bytes, and is a head of HTTP/1.0 or 1.1 with at most 64
//! fields and 66 line ends. What stands behind the body is not looked at. All clauses speak of the bytes up to the end
//! of the link, and of none of the pieces in which they come.
#![tactic(auto)]

mod body;
mod fields;
mod front;
mod head;
mod laws;
mod reply;
mod request;
mod response;
mod write;
mod written;

pub use laws::head_and_body_are_reply;
pub use reply::{ResponseRefusal, read_response};
pub use request::{Request, RequestRefusal, read_request};
pub use response::{Response, write_head, write_response};
pub use written::write_request;
