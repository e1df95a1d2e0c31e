// Replies: a status, fields and a body.
ghost use Rattle.std.specs.Prelude.{◌≡◌, ◌⊎◌, IfOk};
ghost use Rattle.oe_http.specs.Laws as laws;
ghost use Rattle.oe_http.specs.Replies.{plain_response};
ghost use Rattle.oe_replies.specs.Answers as spec;

use crate::code::ReplyCode;
use crate::refused::error_body;
use crate::results::job_url;
use oe_dims::Text;
use oe_http::Response;
use oe_memory::OutOfMemory;
use std::alloc::Global;

/// A reply whose body is this JSON text. Takes no memory.
pub fn json_reply(status: u16, body: Vec<u8>) -> Response
    ensures { plain_response result ≡ laws.json_reply status body.items }
{
    Response {
        status,
        location: None,
        identifier: None,
        json: true,
        body,
    }
}

/// A reply without a body: 202 for what was queued, and 204 for what was done. Takes no memory.
pub fn empty_reply(alloc: Global, status: u16) -> Response
    requires { (status ≡ 202) ⊎ (status ≡ 204) }
    ensures { plain_response result ≡ spec.empty_reply status }
{
    Response {
        status,
        location: None,
        identifier: None,
        json: false,
        body: Vec::new(alloc),
    }
}

/// The reply to what created a job: status 201, where the job is found under the base of the service, and its id
/// (openEO API, batch jobs).
///
/// Refuses: out of memory.
pub fn created_reply(alloc: Global, base: &str, id: &str) -> Result<Response, OutOfMemory>
    ensures { IfOk result (λ r. plain_response r ≡ spec.created_reply base.now id.now) }
{
    let location = job_url(alloc, base, id)?;
    Ok(Response {
        status: 201,
        location: Some(Text::of(alloc, location.as_str())?),
        identifier: Some(Text::of(alloc, id)?),
        json: false,
        body: Vec::new(alloc),
    })
}

/// The reply to a request that stored a process: status 200, and an object without members (openEO API, user-defined
/// processes).
///
/// Refuses: out of memory.
pub fn stored_reply(alloc: Global) -> Result<Response, OutOfMemory>
    ensures { IfOk result (λ r. plain_response r ≡ spec.stored_reply) }
{
    Ok(json_reply(200, Vec::from_slice(alloc, b"{}")?))
}

/// The reply to a refused request: the status of its code, and an error body with the detail, where the message of the
/// code has one.
///
/// Refuses: out of memory.
pub fn refused_reply(alloc: Global, code: ReplyCode, detail: &str) -> Result<Response, OutOfMemory>
    ensures { IfOk result (λ r. plain_response r ≡ spec.refused_reply code detail.now) }
{
    let told = if code.has_detail() { detail } else { "" };
    let body = error_body(alloc, code.as_str(), told)?;
    Ok(json_reply(code.status(), body))
}

/// The reply to a request for the results of a job that failed with this code: status 424.
///
/// Refuses: out of memory.
pub fn failed_reply(alloc: Global, code: &str) -> Result<Response, OutOfMemory>
    ensures { IfOk result (λ r. plain_response r ≡ spec.failed_reply code.now) }
{
    let body = error_body(alloc, code, "")?;
    Ok(json_reply(424, body))
}
