// Replies that are written to a connection.
ghost use Rattle.std.specs.Prelude.{◌≡◌, [], IsSome, OnErr, OnOk, true};
ghost use Rattle.http.specs.StatusCode.{reason_phrase};
ghost use Rattle.oe_http.specs.Laws.{json_reply};
ghost use Rattle.oe_http.specs.Replies.{has_body, plain_response, reply_bytes};
ghost use Rattle.oe_outside.specs.Faults.{HasCause};
ghost use Rattle.oe_outside.specs.Visible.{Appends, AppendsPrefix};
ghost use Rattle.oe_replies.specs.Answers.{refused_reply as refused};
ghost use Rattle.oe_replies.specs.declared.code.ReplyCode.TheVariants as codes;
ghost use Rattle.oe_serve.specs.Links.{SendsCode, SendsReply, link_of};

use crate::served::Served;
use oe_http::{Response, head_and_body_are_reply, write_head, write_response};
use oe_memory::OutOfMemory;
use oe_outside::{Failed, Link};
use oe_replies::{ReplyCode, errors_are_plain, refused_reply};
use std::alloc::Global;

/// Writes a reply.
pub(crate) fn answer<L: Link>(link: &mut L, response: &Response) -> Served
    requires { IsSome (reason_phrase response.now.status) }
    ensures { let of = link_of L.left L.written L.faults in
        SendsReply response.now.status (reply_bytes (plain_response response.now)) (of link.old)
        (of link.new) result }
{
    match write_response(link, response) {
        Ok(()) => Served::Answered(response.status),
        Err(_) => Served::LinkFailed,
    }
}

/// Writes a reply of a status whose body is this JSON text. Takes no memory.
pub(crate) fn answer_text<L: Link>(link: &mut L, status: u16, body: &[u8]) -> Served
    requires phrase { IsSome (reason_phrase status) }
    requires body { has_body status ≡ true }
    ensures { let of = link_of L.left L.written L.faults in
        SendsReply status (reply_bytes (json_reply status body.now)) (of link.old) (of link.new)
        result }
{
    match write_text(link, status, body) {
        Ok(()) => Served::Answered(status),
        Err(_) => Served::LinkFailed,
    }
}

fn write_text<L: Link>(link: &mut L, status: u16, body: &[u8]) -> Result<(), Failed>
    requires phrase { IsSome (reason_phrase status) }
    requires body { has_body status ≡ true }
    ensures appended { OnOk result (Appends (L.written link.old)
        (reply_bytes (json_reply status body.now)) (L.written link.new)) }
    ensures prefix { OnErr result (AppendsPrefix (L.written link.old)
        (reply_bytes (json_reply status body.now)) (L.written link.new)) }
    ensures same { L.left link.new ≡ L.left link.old }
    ensures cause { HasCause (L.faults link.old) (L.faults link.new) result }
{
    // A law that the proof rests on; it does nothing.
    head_and_body_are_reply();
    match write_head(link, status, body.len() as u64) {
        Ok(()) => link.write(body),
        Err(fail) => Err(fail),
    }
}

/// Answers that an allocation was refused. Takes no memory.
pub(crate) fn answer_out_of_memory<L: Link>(link: &mut L) -> Served
    ensures { let of = link_of L.left L.written L.faults in
        SendsReply 503 (reply_bytes (refused codes.OutOfMemory [])) (of link.old) (of link.new)
        result }
{
    // A law that the proof rests on; it does nothing.
    errors_are_plain();
    answer_text(
        link,
        503,
        b"{\"code\":\"OutOfMemory\",\"message\":\"OutOfMemory\"}",
    )
}

/// Answers that the keeper failed. Takes no memory.
pub(crate) fn answer_store_fault<L: Link>(link: &mut L) -> Served
    ensures { let of = link_of L.left L.written L.faults in
        SendsReply 500 (reply_bytes (refused codes.StoreFault [])) (of link.old) (of link.new)
        result }
{
    // A law that the proof rests on; it does nothing.
    errors_are_plain();
    answer_text(
        link,
        500,
        b"{\"code\":\"StoreFault\",\"message\":\"StoreFault\"}",
    )
}

/// Answers with a code and its detail.
pub(crate) fn answer_code<L: Link>(
    alloc: Global,
    link: &mut L,
    code: ReplyCode,
    detail: &str,
) -> Served
    ensures { let of = link_of L.left L.written L.faults in
        SendsCode code detail.now (of link.old) (of link.new) result }
{
    match refused_reply(alloc, code, detail) {
        Ok(response) => answer(link, &response),
        Err(OutOfMemory) => answer_out_of_memory(link),
    }
}
