// One connection.
ghost use Rattle.std.specs.Prelude.{IfOk};
ghost use Rattle.oe_dims.specs.Instant.{IsInstant};
ghost use Rattle.oe_http.specs.Plain.{plain_request};
ghost use Rattle.oe_jobs.specs.Plain.{plain_book};
ghost use Rattle.oe_jobs.specs.Valid.{IsBook};
ghost use Rattle.oe_service.specs.Causes.{outside_of};
ghost use Rattle.oe_service.specs.Steps.{IsServiceOver};
ghost use Rattle.oe_sources.specs.CatalogueDims.{dims_of};
ghost use Rattle.oe_sources.specs.CatalogueRows.{rows_of};
ghost use Rattle.oe_serve.specs.Answers.{AsksAction, DecidesChange};
ghost use Rattle.oe_serve.specs.Links.{AnswersRefusal, link_of};
ghost use Rattle.oe_serve.specs.Serves.{MayAct, ServesOver};

use crate::actions::act;
use crate::links::{answer_code, answer_out_of_memory};
use crate::rows::rows_for;
use crate::served::Served;
use crate::setup::Setup;
use oe_http::{Request, RequestRefusal, read_request};
use oe_jobs::Keeper;
use oe_memory::OutOfMemory;
use oe_outside::{Gate, Link, Store};
use oe_routes::{Action, answers_without_rows, code_of_refusal, route};
use oe_service::Service;
use oe_sources::Catalogue;
use std::alloc::Global;
use std::thread::Threads;

/// Reads one request from a connection and answers it at a moment, in seconds since 1970-01-01T00:00:00Z (openEO API).
/// What it changes is committed by the keeper and made in the book, and then it is answered.
///
/// A keeper that fails is answered with status 500 and `StoreFault`, and out of memory with 503 and `OutOfMemory`,
/// which is written without memory; the book is then as before. `Cut` comes only where the spool broke behind the head
/// of a result, and `LinkFailed` only where the connection's fault counter rose.
pub fn serve_one<R: Threads + Sync, L: Link, P: Store, K: Keeper, G: Gate>(
    setup: &Setup<'_, R, G>,
    service: &mut Service,
    link: &mut L,
    catalogue: &mut Catalogue,
    spool: &mut P,
    keeper: &mut K,
    now: i64,
) -> Served
    requires moment { IsInstant now }
    requires service { IsServiceOver service.old (outside_of P.bytes P.faults K.kept K.faults
        (rows_of seen catalogue.old) spool.old keeper.old) }
    // Whatever it answers, this holds again; and the connection is the event of its request, or none.
    ensures { ServesOver L.left L.written L.faults P.bytes P.faults K.kept K.faults K.has_failed
        setup.now.site.now now service.old service.new (rows_of seen catalogue.old) spool.old
        keeper.old link.old (rows_of seen catalogue.new) spool.new keeper.new link.new result }
{
    match read_request(setup.alloc, link) {
        Ok(request) => match action_for(setup, &request, service, catalogue, now) {
            Ok(action) => act(setup, action, service, link, catalogue, spool, keeper),
            Err(OutOfMemory) => answer_out_of_memory(link),
        },
        Err(refusal) => answer_refusal(setup.alloc, link, refusal),
    }
}

/// What is to be done for a request.
fn action_for<R: Threads + Sync, G: Gate>(
    setup: &Setup<'_, R, G>,
    request: &Request,
    service: &Service,
    catalogue: &Catalogue,
    now: i64,
) -> Result<Action, OutOfMemory>
    requires book { IsBook (plain_book service.now.book) }
    requires moment { IsInstant now }
    ensures asks { IfOk result (AsksAction (record {
      base = setup.now.site.now.base;
      tokens = setup.now.site.now.tokens;
      rows = dims_of (rows_of seen catalogue.now);
      book = plain_book service.now.book;
      moment = now;
    }) (plain_request request.now)) }
    ensures may { IfOk result (MayAct (plain_book service.now.book) (rows_of seen catalogue.now)) }
    ensures decided { IfOk result (DecidesChange (plain_book service.now.book) now) }
{
    // A law that the proof rests on.
    answers_without_rows();
    let rows = rows_for(setup.alloc, request, catalogue)?;
    route(setup.alloc, request, service.book(), &rows, setup.site, now)
}

/// Answers bytes that are no request. Over a connection that failed nothing is answered.
fn answer_refusal<L: Link>(alloc: Global, link: &mut L, refusal: RequestRefusal) -> Served
    ensures { let of = link_of L.left L.written L.faults in
        AnswersRefusal refusal (of link.old) (of link.new) result }
{
    match code_of_refusal(refusal) {
        Some(code) => answer_code(alloc, link, code, ""),
        None => Served::LinkFailed,
    }
}
