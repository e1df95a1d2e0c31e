// What a request asks for, done and answered.
ghost use Rattle.std.specs.Prelude.{◌≡◌, IsSome, Some};
ghost use Rattle.http.specs.StatusCode.{reason_phrase};
ghost use Rattle.oe_http.specs.Replies.{plain_response};
ghost use Rattle.oe_jobs.specs.Changes.{changed};
ghost use Rattle.oe_jobs.specs.Plain.{plain_book, plain_change};
ghost use Rattle.oe_jobs.specs.Valid.{IsBook};
ghost use Rattle.oe_routes.specs.Actions.{text_at};
ghost use Rattle.oe_service.specs.Calls.{IsDecided, IsKept};
ghost use Rattle.oe_service.specs.Causes.{outside_of};
ghost use Rattle.oe_service.specs.GoesOn.{IsService};
ghost use Rattle.oe_service.specs.Steps.{IsServiceOver};
ghost use Rattle.oe_sources.specs.CatalogueRows.{rows_of};
ghost use Rattle.oe_serve.specs.Serves.{ActsOver, CommitsOver, MayAct};

use crate::estimate::answer_estimate;
use crate::links::{answer, answer_out_of_memory, answer_store_fault, answer_text};
use crate::results::answer_result;
use crate::served::Served;
use crate::setup::Setup;
use oe_dims::Text;
use oe_http::Response;
use oe_jobs::{Book, Change, Keeper, KeeperFail};
use oe_outside::{Gate, Link, Store};
use oe_routes::Action;
use oe_service::{Service, commit_change};
use oe_sources::Catalogue;
use std::thread::Threads;

/// Does what a request asks for, and answers it.
pub(crate) fn act<R: Threads + Sync, L: Link, P: Store, K: Keeper, G: Gate>(
    setup: &Setup<'_, R, G>,
    action: Action,
    service: &mut Service,
    link: &mut L,
    catalogue: &mut Catalogue,
    spool: &mut P,
    keeper: &mut K,
) -> Served
    requires service { IsServiceOver service.old (outside_of P.bytes P.faults K.kept K.faults
        (rows_of seen catalogue.old) spool.old keeper.old) }
    requires may { MayAct (plain_book service.old.book) (rows_of seen catalogue.old) action }
    ensures { ActsOver L.left L.written L.faults P.bytes P.faults K.kept K.faults K.has_failed
        action service.old service.new (rows_of seen catalogue.old) spool.old keeper.old link.old
        (rows_of seen catalogue.new) spool.new keeper.new link.new result }
{
    match action {
        Action::Answer(response) => answer(link, &response),
        Action::Commit { change, response } => obey(service, change, &response, link, keeper),
        Action::RunNow(checked) => answer_result(setup, checked, service, link, catalogue, spool),
        Action::SendAsset { job, asset } => {
            let text = text_of(service.book(), job, asset);
            answer_text(link, 200, text.as_str().as_bytes())
        }
        Action::Estimate(graphs) => answer_estimate(setup.alloc, link, &graphs, service.sizes()),
    }
}

/// The text of an asset, by the indices of its job in a book and of the asset in the job.
fn text_of(book: &Book, job: usize, asset: usize) -> &Text
    requires { IsSome (text_at (plain_book book.now) job asset) }
    ensures { text_at (plain_book book.now) job asset ≡ Some result.now }
{
    &book.jobs[job].assets[asset].text
}

/// Commits a change, has it in the book, and then writes the reply.
fn obey<L: Link, K: Keeper>(
    service: &mut Service,
    change: Change,
    response: &Response,
    link: &mut L,
    keeper: &mut K,
) -> Served
    requires service { IsService service.old }
    requires kept { IsKept (K.kept keeper.old) (plain_book service.old.book) }
    requires phrase { IsSome (reason_phrase response.now.status) }
    requires valid { IsBook (changed (plain_book service.old.book) (plain_change change)) }
    requires decided { IsDecided (plain_book service.old.book)
        (changed (plain_book service.old.book) (plain_change change)) }
    ensures { CommitsOver L.left L.written L.faults K.kept K.faults K.has_failed
        (plain_change change) (plain_response response.now) service.old service.new
        keeper.old link.old keeper.new link.new result }
{
    match commit_change(service, change, keeper) {
        Ok(()) => answer(link, response),
        Err(KeeperFail::Failed) => answer_store_fault(link),
        Err(KeeperFail::OutOfMemory) => answer_out_of_memory(link),
    }
}
