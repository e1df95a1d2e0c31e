// Responses as a client reads them.
ghost use Rattle.std.specs.Prelude.{◌≡◌, ◌+◌, ◌<◌, ◌≤◌, length, take, All, IfOk, IfErr, IfSome, IfNone};
ghost use Rattle.httparse.specs.Grammar.{ResponseHead};
ghost use Rattle.httparse.specs.Spans.{IsHeaderWithin, IsResponseAt, IsResponseWithin};
ghost use Rattle.oe_outside.specs.Faults.{HasCauseOf};
ghost use Rattle.oe_outside.specs.Input.{TakesAtMost};
ghost use Rattle.oe_http.specs.Again.{ReadsReply};
ghost use Rattle.oe_http.specs.Fields.{values_of, content_length, said_length};
ghost use Rattle.oe_http.specs.Front.{line_ends, most_head, most_line_ends};
ghost use Rattle.oe_http.specs.Heads.{most_fields};
ghost use Rattle.oe_http.specs.Parts.{texts_of};
ghost use Rattle.oe_http.specs.Replies.{plain_response};
ghost use Rattle.oe_http.specs.ReplyParts.{HasReplySpans, HasReplyParts, RefusesReplyFields, RefusesReplyHead, RefusesReplyHeadless, IsOfReplyBytes, reply_refusal};
ghost use Rattle.oe_http.specs.ReplySteps.{IsCutOrBinary, IsReplyHeadIn, IsReplyHeadRead, IsReplyMadeOf, IsReplyRefusedAfter, IsReplyRefusedOf, IsResponseRead};
ghost use Rattle.oe_http.specs.Responses.{IsWholeReply, HasResponseForm, IsResponseOf, RefusesResponse, SaysOneLength, most_response_body};
ghost use Rattle.oe_http.specs.declared.reply.ResponseRefusal.TheVariants as refusal;

use crate::Response;
use crate::body::read_body;
use crate::fields::{length_of, only_value};
use crate::front::{MOST_HEAD, PIECE, line_ends, read_front};
use crate::head::{MOST_FIELDS, MOST_LINE_ENDS, is_utf8};
use httparse::Status;
use httparse::spans::{EMPTY_HEADER_SPAN, HeaderSpan, ResponseSpans, parse_response};
use oe_outside::{Link, ReadRefusal};
use std::alloc::{AllocError, Global};
use std::error::Error;
use std::fmt;

/// Most bytes of the body of a response.
const MOST_RESPONSE_BODY: u64 = 16777216;

/// Why no response was read.
#[derive(Clone, Copy, Debug, PartialEq, Eq)]
pub enum ResponseRefusal {
    /// The bytes are not the front of a response.
    Malformed,
    /// The head or the body passes its limit.
    TooLong,
    /// The link ended before the head or the body did.
    Truncated,
    /// A read failed, and the link's fault counter rose.
    LinkFailed,
    /// An allocation was refused.
    OutOfMemory,
}

impl fmt::Display for ResponseRefusal {
    fn fmt<W: fmt::Write>(&self, f: &mut fmt::Formatter<W>) -> fmt::Result {
        f.write_str(match self {
            ResponseRefusal::Malformed => "the bytes are no response",
            ResponseRefusal::TooLong => "the response is too long",
            ResponseRefusal::Truncated => "the link ended too early",
            ResponseRefusal::LinkFailed => "the link failed",
            ResponseRefusal::OutOfMemory => "out of memory",
        })
    }
}

impl Error for ResponseRefusal {}

impl From<AllocError> for ResponseRefusal {
    ghost from_gives = { λ _ e. e ≡ refusal.OutOfMemory };

    fn from(_error: AllocError) -> ResponseRefusal {
        ResponseRefusal::OutOfMemory
    }
}

impl From<ReadRefusal> for ResponseRefusal {
    ghost from_gives = { λ read e. e ≡ reply_refusal read };

    fn from(error: ReadRefusal) -> ResponseRefusal {
        match error {
            ReadRefusal::Failed => ResponseRefusal::LinkFailed,
            ReadRefusal::OutOfMemory => ResponseRefusal::OutOfMemory,
        }
    }
}

/// The status and the length that a head says.
#[derive(Clone, Copy)]
pub(crate) struct ReplyParts {
    pub(crate) status: u16,
    pub(crate) length: usize,
}

/// Reads the response that stands at the front of what a link gives (RFC 9112). Its status and its body are read, and
/// no other field than its length is looked at. Bytes behind its body may be taken too, but no more in all than a head
/// and a body may have, 16384 and 16777216. Of a reply that `write_response` wrote, the status and the body are read as
/// they were.
///
/// Refuses: `TooLong` where the head passes the limits of a request's head, or the body 16777216 bytes. `Malformed`
/// where the head is not as a whole a response head of HTTP/1.0 or 1.1 with at most 64 fields, a status from 100 on and
/// one `Content-Length`, of 1 to 19 digits, which only a 204 may leave out, or where the body is not UTF-8. `Truncated`
/// where the link ends before the head or the body does. `LinkFailed` only where the link's fault counter rose; out of
/// memory.
pub fn read_response<L: Link>(alloc: Global, link: &mut L) -> Result<Response, ResponseRefusal>
    // where the bytes are visible: the response at their front, or a refusal that stands
    ensures response { IfOk result (λ response. IfSome (L.left link.old)
        (λ bytes. IsResponseOf bytes (plain_response response))) }
    // whatever the link shows of its bytes
    ensures form { IfOk result (λ response. HasResponseForm (plain_response response)) }
    ensures refused { IfErr result (λ refusal. IsOfReplyBytes refusal → IfSome (L.left link.old)
        (λ bytes. RefusesResponse bytes refusal)) }
    // a reply of the service is read again, whatever follows it
    ensures again { IfSome (L.left link.old) (λ bytes. ReadsReply bytes result) }
    // over every link
    ensures taken { TakesAtMost (L.left link.old) (most_head + most_response_body)
        (L.left link.new) }
    ensures same { L.written link.new ≡ L.written link.old }
    ensures cause { HasCauseOf ResponseRefusal.LinkFailed (L.faults link.old)
        (L.faults link.new) result }
{
    let mut piece = vec![in alloc; 0; PIECE]?;
    match read_head(alloc, link, piece.as_mut_slice()) {
        Ok(head) => read_whole(alloc, link, piece.as_mut_slice(), &head),
        Err(refusal) => Err(refusal),
    }
}

/// A head that was read: the bytes that were read for it, where it ends in them, and its parts.
struct ReplyHead {
    bytes: Vec<u8>,
    end: usize,
    parts: ReplyParts,
}

/// Written out, so that such a value that ends is one call wherever it does.
impl Drop for ReplyHead {
    fn drop(self) {
        let ReplyHead {
            bytes: _,
            end: _,
            parts: _,
        } = self;
    }
}

/// Reads a head.
fn read_head<L: Link>(
    alloc: Global,
    link: &mut L,
    piece: &mut [u8],
) -> Result<ReplyHead, ResponseRefusal>
    requires some { 0 < length piece.old }
    ensures read { IfOk result (λ head. IsReplyHeadRead (L.left link.old) head (L.left link.new)) }
    ensures refused { IfErr result (IsReplyRefusedOf (L.left link.old)) }
    ensures taken { TakesAtMost (L.left link.old) most_head (L.left link.new) }
    ensures same { L.written link.new ≡ L.written link.old }
    ensures cause { HasCauseOf ResponseRefusal.LinkFailed (L.faults link.old)
        (L.faults link.new) result }
{
    let mut bytes = Vec::new(alloc);
    match read_front(link, piece, &mut bytes) {
        Ok(Some(end)) => with_parts(bytes, end),
        Ok(None) => Err(headless(bytes.len())),
        Err(refusal) => Err(ResponseRefusal::from(refusal)),
    }
}

/// The head that ends in these bytes, with its parts.
fn with_parts(bytes: Vec<u8>, end: usize) -> Result<ReplyHead, ResponseRefusal>
    requires { end ≤ length bytes.items }
    ensures read { IfOk result (λ head. IsReplyHeadIn bytes.items end head) }
    ensures refused { IfErr result (RefusesReplyHead (take end bytes.items)) }
{
    let parts = reply_parts(&bytes[..end])?;
    Ok(ReplyHead { bytes, end, parts })
}

/// Reads what is left of the body, and makes the response.
fn read_whole<L: Link>(
    alloc: Global,
    link: &mut L,
    piece: &mut [u8],
    head: &ReplyHead,
) -> Result<Response, ResponseRefusal>
    requires some { 0 < length piece.old }
    requires end { head.now.end ≤ length head.now.bytes.items }
    requires parts { HasReplyParts (take head.now.end head.now.bytes.items) head.now.parts }
    ensures response { IfOk result
        (λ response. IsResponseRead head.now response (L.left link.old)) }
    ensures form { IfOk result (λ response. HasResponseForm (plain_response response)) }
    ensures refused { IfErr result
        (λ refusal. IsReplyRefusedAfter head.now refusal (L.left link.old)) }
    ensures taken { TakesAtMost (L.left link.old) most_response_body (L.left link.new) }
    ensures same { L.written link.new ≡ L.written link.old }
    ensures cause { HasCauseOf ResponseRefusal.LinkFailed (L.faults link.old)
        (L.faults link.new) result }
{
    let held = &head.bytes[head.end..];
    match read_body(alloc, link, piece, held, head.parts.length) {
        Ok(body) => with_body(head, body),
        Err(refusal) => Err(ResponseRefusal::from(refusal)),
    }
}

/// The response of a head and as much of its body as the link gave.
fn with_body(head: &ReplyHead, body: Vec<u8>) -> Result<Response, ResponseRefusal>
    requires parts { HasReplyParts (take head.now.end head.now.bytes.items) head.now.parts }
    requires most { length body.items ≤ head.now.parts.length }
    ensures form { IfOk result (λ response. HasResponseForm (plain_response response)) }
    ensures whole { IfOk result (λ response. IsReplyMadeOf head.now body.items response) }
    ensures refused { IfErr result (IsCutOrBinary head.now body.items) }
{
    if body.len() < head.parts.length {
        return Err(ResponseRefusal::Truncated);
    }
    if !is_utf8(&body) {
        return Err(ResponseRefusal::Malformed);
    }
    Ok(Response {
        status: head.parts.status,
        location: None,
        identifier: None,
        json: false,
        body,
    })
}

/// Why so many bytes have no head.
fn headless(count: usize) -> ResponseRefusal
    ensures { RefusesReplyHeadless count result }
{
    if count < MOST_HEAD {
        ResponseRefusal::Truncated
    } else {
        ResponseRefusal::TooLong
    }
}

/// The parts of a head.
fn reply_parts(head: &[u8]) -> Result<ReplyParts, ResponseRefusal>
    ensures parts { IfOk result (λ parts. HasReplyParts head.now parts) }
    ensures few { IfOk result (λ _. line_ends head.now ≤ most_line_ends) }
    ensures refused { IfErr result (λ refusal. RefusesReplyHead head.now refusal) }
{
    if line_ends(head) > MOST_LINE_ENDS {
        return Err(ResponseRefusal::TooLong);
    }
    let mut fields = [EMPTY_HEADER_SPAN; MOST_FIELDS];
    let Some(spans) = whole_reply(head, &mut fields) else {
        return Err(ResponseRefusal::Malformed);
    };
    valid_reply(head, spans.code, &fields[..spans.headers])
}

/// The parts of a head that is whole.
fn valid_reply(
    head: &[u8],
    status: u16,
    fields: &[HeaderSpan],
) -> Result<ReplyParts, ResponseRefusal>
    requires fields { All (IsHeaderWithin (length head.now)) fields.now }
    requires spans { HasReplySpans head.now status fields.now }
    requires three_digits { status < 1000 }
    ensures parts { IfOk result (λ parts. HasReplyParts head.now parts) }
    ensures refused { IfErr result (λ refusal. RefusesReplyFields head.now refusal) }
{
    let Some(length) = reply_length(head, fields, status) else {
        return Err(ResponseRefusal::Malformed);
    };
    if status < 100 {
        return Err(ResponseRefusal::Malformed);
    }
    if length > MOST_RESPONSE_BODY {
        return Err(ResponseRefusal::TooLong);
    }
    Ok(ReplyParts {
        status,
        length: length as usize,
    })
}

/// The length that the fields of a reply say, where they say one or may say none.
fn reply_length(head: &[u8], fields: &[HeaderSpan], status: u16) -> Option<u64>
    requires { All (IsHeaderWithin (length head.now)) fields.now }
    ensures one { let values = values_of content_length (texts_of head.now fields.now) in
        IfSome result (λ _. SaysOneLength status values) }
    ensures is { IfSome result (λ n. n ≡ said_length (texts_of head.now fields.now)) }
    ensures none { let values = values_of content_length (texts_of head.now fields.now) in
        IfNone result (¬ (SaysOneLength status values)) }
{
    match only_value(head, fields, b"content-length") {
        Ok(None) => { if status == 204 { Some(0) } else { None } }
        Ok(Some(value)) => length_of(value.of(head)),
        Err(_) => None,
    }
}

/// The spans of a head that is as a whole one of the grammar.
fn whole_reply(head: &[u8], fields: &mut [HeaderSpan]) -> Option<ResponseSpans>
    requires { length fields.old ≡ most_fields }
    ensures whole { IfSome result
        (λ r. (h : ResponseHead) × IsWholeReply head.now h × IsResponseAt head.now fields.new r h) }
    ensures within { IfSome result (IsResponseWithin head.now fields.new) }
    ensures none { IfNone result ((h : ResponseHead) → ¬ (IsWholeReply head.now h)) }
{
    match parse_response(head, fields) {
        Ok(Status::Complete(spans)) => {
            if spans.len == head.len() {
                Some(spans)
            } else {
                None
            }
        }
        _ => None,
    }
}
