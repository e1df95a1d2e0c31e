// Requests.
ghost use Rattle.std.specs.Prelude.{◌≡◌, ◌==◌, ◌+◌, ◌<◌, ◌≤◌, length, take, IfOk, IfErr, IfSome};
ghost use Rattle.std.specs.List.{before_first, after_first};
ghost use Rattle.oe_outside.specs.Faults.{HasCauseOf};
ghost use Rattle.oe_outside.specs.Input.{TakesAtMost};
ghost use Rattle.oe_http.specs.Front.{most_head};
ghost use Rattle.oe_http.specs.Again.{ReadsWritten};
ghost use Rattle.oe_http.specs.Parts.{HasParts, RefusesHead};
ghost use Rattle.oe_http.specs.Plain.{plain_request};
ghost use Rattle.oe_http.specs.Requests.{IsRequestOf, Refuses, IsOfBytes, most_body, question_mark, request_of};
ghost use Rattle.oe_http.specs.Refused.{of_reading, RefusesHeadless};
ghost use Rattle.oe_http.specs.Steps.{IsCutOrOutOfMemory, IsHeadIn, IsHeadRead, IsMadeOf, IsRefusedAfter, IsRefusedOf, IsRequestRead};
ghost use Rattle.oe_http.specs.declared.request.RequestRefusal.TheVariants as refusal;

use crate::body::read_body;
use crate::front::{MOST_HEAD, PIECE, read_front};
use crate::head::{HeadParts, head_parts};
use http::Method;
use oe_dims::Text;
use oe_memory::OutOfMemory;
use oe_outside::{Link, ReadRefusal};
use std::alloc::{AllocError, Global};
use std::error::Error;
use std::{fmt, str};

/// A request. The query is what follows the first `?` of the target, and empty where there is none.
pub struct Request {
    pub method: Method,
    pub path: Text,
    pub query: Text,
    pub authorization: Option<Text>,
    pub body: Vec<u8>,
}

/// Written out, so that a request that ends is one call wherever it does.
impl Drop for Request {
    fn drop(self) {
        let Request {
            method: _,
            path: _,
            query: _,
            authorization: _,
            body: _,
        } = self;
    }
}

/// Why no request was read.
#[derive(Clone, Copy, Debug, PartialEq, Eq)]
pub enum RequestRefusal {
    /// There is a head of at most 66 line ends, and it is not valid.
    Malformed,
    /// The first 16384 bytes have no head, or the head has over 66 line ends.
    HeadTooLong,
    /// The body is over 1048576 bytes.
    BodyTooLong,
    /// The body is coded.
    CodingUnsupported,
    /// The link ended before the head or the body did.
    Truncated,
    /// A read failed, and the link's fault counter rose.
    LinkFailed,
    /// An allocation was refused.
    OutOfMemory,
}

impl fmt::Display for RequestRefusal {
    fn fmt<W: fmt::Write>(&self, f: &mut fmt::Formatter<W>) -> fmt::Result {
        f.write_str(match self {
            RequestRefusal::Malformed => "the head is not valid",
            RequestRefusal::HeadTooLong => "the head is too long",
            RequestRefusal::BodyTooLong => "the body is too long",
            RequestRefusal::CodingUnsupported => "the body is coded",
            RequestRefusal::Truncated => "the link ended too early",
            RequestRefusal::LinkFailed => "the link failed",
            RequestRefusal::OutOfMemory => "out of memory",
        })
    }
}

impl Error for RequestRefusal {}

impl From<AllocError> for RequestRefusal {
    ghost from_gives = { λ _ e. e ≡ refusal.OutOfMemory };

    fn from(_error: AllocError) -> RequestRefusal {
        RequestRefusal::OutOfMemory
    }
}

impl From<OutOfMemory> for RequestRefusal {
    ghost from_gives = { λ _ e. e ≡ refusal.OutOfMemory };

    fn from(_error: OutOfMemory) -> RequestRefusal {
        RequestRefusal::OutOfMemory
    }
}

impl From<ReadRefusal> for RequestRefusal {
    ghost from_gives = { λ read e. e ≡ of_reading read };

    fn from(error: ReadRefusal) -> RequestRefusal {
        match error {
            ReadRefusal::Failed => RequestRefusal::LinkFailed,
            ReadRefusal::OutOfMemory => RequestRefusal::OutOfMemory,
        }
    }
}

/// Reads the request that stands at the front of what a link gives (RFC 9112). Bytes behind its body may be taken too,
/// but no more in all than a head and a body may have, 16384 and 1048576. A request that `write_request` wrote is read
/// as it was.
///
/// Refuses: with the first of these that stands. `HeadTooLong` where the first 16384 bytes have no CR LF CR LF, or
/// there are over 66 line ends up to the first. `Malformed` where these bytes are not as a whole a request head of
/// HTTP/1.0 or 1.1 with at most 64 fields, a target that begins with `/`, at most one `Content-Length`, of 1 to 19
/// digits, and at most one `Authorization`, in UTF-8. `CodingUnsupported` with a `Transfer-Encoding`, or a
/// `Content-Encoding` other than `identity`. `BodyTooLong` with a length over 1048576. `Truncated` where the link ends
/// before the head or the body does. `LinkFailed` only where the link's fault counter rose; out of memory.
pub fn read_request<L: Link>(alloc: Global, link: &mut L) -> Result<Request, RequestRefusal>
    // where the bytes are visible: the request at their front, or the first refusal that stands
    ensures request { IfOk result (λ request. IfSome (L.left link.old)
        (λ bytes. IsRequestOf bytes (plain_request request))) }
    ensures refused { IfErr result (λ refusal. IsOfBytes refusal → IfSome (L.left link.old)
        (λ bytes. Refuses bytes refusal)) }
    // a written request is read again, whatever follows it
    ensures again { IfSome (L.left link.old) (λ bytes. ReadsWritten bytes result) }
    // over every link
    ensures taken { TakesAtMost (L.left link.old) (most_head + most_body) (L.left link.new) }
    ensures same { L.written link.new ≡ L.written link.old }
    ensures cause { HasCauseOf RequestRefusal.LinkFailed (L.faults link.old) (L.faults link.new)
        result }
{
    let mut piece = vec![in alloc; 0; PIECE]?;
    match read_head(alloc, link, piece.as_mut_slice()) {
        Ok(head) => read_whole(alloc, link, piece.as_mut_slice(), &head),
        Err(refusal) => Err(refusal),
    }
}

/// A head that was read: the bytes that were read for it, where it ends in them, and its parts.
struct HeadRead {
    bytes: Vec<u8>,
    end: usize,
    parts: HeadParts,
}

/// Written out, so that such a value that ends is one call wherever it does.
impl Drop for HeadRead {
    fn drop(self) {
        let HeadRead {
            bytes: _,
            end: _,
            parts: _,
        } = self;
    }
}

/// Reads a head.
fn read_head<L: Link>(
    alloc: Global,
    link: &mut L,
    piece: &mut [u8],
) -> Result<HeadRead, RequestRefusal>
    requires some { 0 < length piece.old }
    ensures read { IfOk result (λ head. IsHeadRead (L.left link.old) head (L.left link.new)) }
    ensures refused { IfErr result (IsRefusedOf (L.left link.old)) }
    ensures taken { TakesAtMost (L.left link.old) most_head (L.left link.new) }
    ensures same { L.written link.new ≡ L.written link.old }
    ensures cause { HasCauseOf RequestRefusal.LinkFailed (L.faults link.old) (L.faults link.new)
        result }
{
    let mut bytes = Vec::new(alloc);
    match read_front(link, piece, &mut bytes) {
        Ok(Some(end)) => with_parts(bytes, end),
        Ok(None) => Err(headless(bytes.len())),
        Err(refusal) => Err(RequestRefusal::from(refusal)),
    }
}

/// The head that ends in these bytes, with its parts.
fn with_parts(bytes: Vec<u8>, end: usize) -> Result<HeadRead, RequestRefusal>
    requires { end ≤ length bytes.items }
    ensures read { IfOk result (λ head. IsHeadIn bytes.items end head) }
    ensures refused { IfErr result (RefusesHead (take end bytes.items)) }
{
    let parts = head_parts(&bytes[..end])?;
    Ok(HeadRead { bytes, end, parts })
}

/// Reads what is left of the body, and makes the request.
fn read_whole<L: Link>(
    alloc: Global,
    link: &mut L,
    piece: &mut [u8],
    head: &HeadRead,
) -> Result<Request, RequestRefusal>
    requires some { 0 < length piece.old }
    requires end { head.now.end ≤ length head.now.bytes.items }
    requires parts { HasParts (take head.now.end head.now.bytes.items) head.now.parts }
    ensures request { IfOk result (λ request. IsRequestRead head.now request (L.left link.old)) }
    ensures refused { IfErr result (λ refusal. IsRefusedAfter head.now refusal (L.left link.old)) }
    ensures taken { TakesAtMost (L.left link.old) most_body (L.left link.new) }
    ensures same { L.written link.new ≡ L.written link.old }
    ensures cause { HasCauseOf RequestRefusal.LinkFailed (L.faults link.old) (L.faults link.new)
        result }
{
    let held = &head.bytes[head.end..];
    match read_body(alloc, link, piece, held, head.parts.length) {
        Ok(body) => with_body(alloc, head, body),
        Err(refusal) => Err(RequestRefusal::from(refusal)),
    }
}

/// The request of a head and as much of its body as the link gave.
fn with_body(alloc: Global, head: &HeadRead, body: Vec<u8>) -> Result<Request, RequestRefusal>
    requires end { head.now.end ≤ length head.now.bytes.items }
    requires parts { HasParts (take head.now.end head.now.bytes.items) head.now.parts }
    ensures whole { IfOk result (λ request. IsMadeOf head.now body.items request) }
    ensures refused { IfErr result (IsCutOrOutOfMemory head.now body.items) }
{
    if body.len() < head.parts.length {
        return Err(RequestRefusal::Truncated);
    }
    Ok(make_request(alloc, &head.bytes[..head.end], head.parts, body)?)
}

/// Why so many bytes have no head.
fn headless(count: usize) -> RequestRefusal
    ensures { RefusesHeadless count result }
{
    if count < MOST_HEAD {
        RequestRefusal::Truncated
    } else {
        RequestRefusal::HeadTooLong
    }
}

/// The request of these parts of a head.
fn make_request(
    alloc: Global,
    head: &[u8],
    parts: HeadParts,
    body: Vec<u8>,
) -> Result<Request, OutOfMemory>
    requires { HasParts head.now parts }
    ensures { IfOk result (λ request. (found : HasParts head.now parts)
        → plain_request request ≡ request_of found.parts body.items) }
{
    // the method is a token, so only memory is refused
    let Ok(method) = Method::from_bytes(alloc, parts.method.of(head)) else {
        return Err(OutOfMemory);
    };
    let target = text_of(alloc, parts.target.of(head))?;
    let (path, query) = split_target(target.as_str());
    let authorization = match parts.authorization {
        None => None,
        Some(value) => Some(text_of(alloc, value.of(head))?),
    };
    Ok(Request {
        method,
        path: Text::of(alloc, path)?,
        query: Text::of(alloc, query)?,
        authorization,
        body,
    })
}

/// What stands before the first `?` of a target, and what follows it.
fn split_target(target: &str) -> (&str, &str)
    ensures path { result.0.now ≡ before_first (λ b. b == question_mark) target.now }
    ensures query { result.1.now ≡ after_first (λ b. b == question_mark) target.now }
{
    match target.split_once('?') {
        Some((path, query)) => (path, query),
        None => (target, ""),
    }
}

/// The text of these bytes. They are UTF-8, so only memory is refused.
fn text_of(alloc: Global, bytes: &[u8]) -> Result<Text, OutOfMemory>
    ensures { IfOk result (λ text. text ≡ bytes.now) }
{
    match str::from_utf8(bytes) {
        Ok(text) => Text::of(alloc, text),
        Err(_) => Err(OutOfMemory),
    }
}
