// The head of a request.
ghost use Rattle.std.specs.Prelude.{◌≡◌, ◌≤◌, length, All, IfOk, IfErr, IfSome, IfNone, IsTrue, ◌↔◌, IsUtf8, slice_index};
ghost use Rattle.httparse.specs.Grammar.{RequestHead};
ghost use Rattle.httparse.specs.Spans.{IsHeaderWithin, IsWithin, IsRequestAt, IsRequestWithin};
ghost use Rattle.oe_http.specs.Fields.{values_of, AtMostOne, IsLengthText, said_length, content_length, authorization};
ghost use Rattle.oe_http.specs.Found.{found_values};
ghost use Rattle.oe_http.specs.Front.{line_ends, most_line_ends};
ghost use Rattle.oe_http.specs.Heads.{IsWhole, most_fields, slash};
ghost use Rattle.oe_http.specs.Parts.{HasParts, HasSpans, RefusesFields, RefusesHead, texts_of};

use crate::RequestRefusal;
use crate::fields::{is_coded, length_of, only_value};
use crate::front::line_ends;
use httparse::Status;
use httparse::spans::{EMPTY_HEADER_SPAN, HeaderSpan, RequestSpans, Span, parse_request};
use std::str;

/// Most fields of a head.
pub(crate) const MOST_FIELDS: usize = 64;

/// Most line ends in a head.
pub(crate) const MOST_LINE_ENDS: usize = 66;

/// Most bytes of the body of a request.
pub(crate) const MOST_BODY: u64 = 1048576;

/// Where the parts of a head stand in it, and how long the body is.
#[derive(Clone, Copy)]
pub(crate) struct HeadParts {
    pub(crate) method: Span,
    pub(crate) target: Span,
    pub(crate) authorization: Option<Span>,
    pub(crate) length: usize,
}

/// The parts of a head.
///
/// Refuses: by the head alone, in the order of the refusals.
pub(crate) fn head_parts(head: &[u8]) -> Result<HeadParts, RequestRefusal>
    ensures parts { IfOk result (λ parts. HasParts head.now parts) }
    ensures few { IfOk result (λ _. line_ends head.now ≤ most_line_ends) }
    ensures refused { IfErr result (λ refusal. RefusesHead head.now refusal) }
{
    if line_ends(head) > MOST_LINE_ENDS {
        return Err(RequestRefusal::HeadTooLong);
    }
    let mut fields = [EMPTY_HEADER_SPAN; MOST_FIELDS];
    let Some(spans) = whole_head(head, &mut fields) else {
        return Err(RequestRefusal::Malformed);
    };
    valid_parts(head, spans.method, spans.path, &fields[..spans.headers])
}

/// The parts of a head that is whole.
fn valid_parts(
    head: &[u8],
    method: Span,
    target: Span,
    fields: &[HeaderSpan],
) -> Result<HeadParts, RequestRefusal>
    requires method { IsWithin (length head.now) method }
    requires target { IsWithin (length head.now) target }
    requires fields { All (IsHeaderWithin (length head.now)) fields.now }
    requires spans { HasSpans head.now method target fields.now }
    ensures parts { IfOk result (λ parts. HasParts head.now parts) }
    ensures refused { IfErr result (λ refusal. RefusesFields head.now refusal) }
{
    let Some(length) = said_length(head, fields) else {
        return Err(RequestRefusal::Malformed);
    };
    let Some(authorization) = said_authorization(head, fields) else {
        return Err(RequestRefusal::Malformed);
    };
    if !begins_with_slash(target.of(head)) {
        return Err(RequestRefusal::Malformed);
    }
    if is_coded(head, fields) {
        return Err(RequestRefusal::CodingUnsupported);
    }
    if length > MOST_BODY {
        return Err(RequestRefusal::BodyTooLong);
    }
    Ok(HeadParts {
        method,
        target,
        authorization,
        length: length as usize,
    })
}

/// Whether a target begins with a slash.
fn begins_with_slash(target: &[u8]) -> bool
    ensures { IsTrue result ↔ (slice_index target.now 0 ≡ slash) }
{
    !target.is_empty() && target[0] == b'/'
}

/// The spans of a head that is as a whole one of the grammar.
fn whole_head(head: &[u8], fields: &mut [HeaderSpan]) -> Option<RequestSpans>
    requires { length fields.old ≡ most_fields }
    ensures whole { IfSome result
        (λ r. (h : RequestHead) × IsWhole head.now h × IsRequestAt head.now fields.new r h) }
    ensures within { IfSome result (IsRequestWithin head.now fields.new) }
    ensures none { IfNone result ((h : RequestHead) → ¬ (IsWhole head.now h)) }
{
    match parse_request(head, fields) {
        Ok(Status::Complete(spans)) => {
            if spans.len == head.len() {
                Some(spans)
            } else {
                None
            }
        }
        _ => None,
    }
}

/// The length that the fields say, where they say at most one.
fn said_length(head: &[u8], fields: &[HeaderSpan]) -> Option<u64>
    requires { All (IsHeaderWithin (length head.now)) fields.now }
    ensures one { let values = values_of content_length (texts_of head.now fields.now) in
        IfSome result (λ _. AtMostOne values IsLengthText) }
    ensures is { IfSome result (λ n. n ≡ said_length (texts_of head.now fields.now)) }
    ensures none { let values = values_of content_length (texts_of head.now fields.now) in
        IfNone result (¬ (AtMostOne values IsLengthText)) }
{
    match only_value(head, fields, b"content-length") {
        Ok(None) => Some(0),
        Ok(Some(value)) => length_of(value.of(head)),
        Err(_) => None,
    }
}

/// The authorization that the fields say, where they say at most one and it is UTF-8.
fn said_authorization(head: &[u8], fields: &[HeaderSpan]) -> Option<Option<Span>>
    requires { All (IsHeaderWithin (length head.now)) fields.now }
    ensures one { let values = values_of authorization (texts_of head.now fields.now) in
        IfSome result (λ _. AtMostOne values IsUtf8) }
    ensures is { let values = values_of authorization (texts_of head.now fields.now) in
        IfSome result (λ found. values ≡ found_values head.now found) }
    ensures within { IfSome result (λ found. IfSome found (IsWithin (length head.now))) }
    ensures none { let values = values_of authorization (texts_of head.now fields.now) in
        IfNone result (¬ (AtMostOne values IsUtf8)) }
{
    match only_value(head, fields, b"authorization") {
        Ok(None) => Some(None),
        Ok(Some(value)) => {
            if is_utf8(value.of(head)) {
                Some(Some(value))
            } else {
                None
            }
        }
        Err(_) => None,
    }
}

/// Whether the bytes are UTF-8.
pub(crate) fn is_utf8(bytes: &[u8]) -> bool
    ensures { IsTrue result ↔ IsUtf8 bytes.now }
{
    str::from_utf8(bytes).is_ok()
}
