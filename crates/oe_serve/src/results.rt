// A graph that is run at once, and answered with its result.
ghost use Rattle.std.specs.Prelude.{◌≡◌, [], None};
ghost use Rattle.oe_steps.specs.Collections.{AreRead};
ghost use Rattle.oe_engine.specs.Going.{ChangesOwnRecords, IsGoing};
ghost use Rattle.oe_engine.specs.Laws.{IsCheckedOver};
ghost use Rattle.oe_engine.specs.Runs.{HasRunRecords, chunk_total};
ghost use Rattle.oe_engine.specs.Evaluations.{IsFirst};
ghost use Rattle.oe_outside.specs.Faults.{NeverFalls};
ghost use Rattle.oe_plan.specs.Plans.{IsPlan};
ghost use Rattle.oe_service.specs.GoesOn.{GoesOn, IsService};
ghost use Rattle.oe_sources.specs.CatalogueRows.{rows_of};
ghost use Rattle.oe_serve.specs.Evaluations.{SendsRunText, served_of};
ghost use Rattle.oe_serve.specs.Links.{link_of};
ghost use Rattle.oe_serve.specs.Results as spec;
ghost use Rattle.oe_serve.specs.Serves.{RunsOver};

use crate::evaluation::{begin, complete};
use crate::links::answer_out_of_memory;
use crate::no_result::{answer_number, answer_refusal};
use crate::served::Served;
use crate::setup::Setup;
use oe_check::Checked;
use oe_engine::Run;
use oe_http::write_head;
use oe_outside::{Gate, Link, Pending, Store};
use oe_plan::PlanFail;
use oe_render::RenderFail;
use oe_replies::ReplyCode;
use oe_service::Service;
use oe_sources::Catalogue;
use std::thread::Threads;

/// Runs a graph whole, and answers with the text of its result. Its records stand in the spool behind those of the
/// service's run. The head is written when the text is known to stand there, and how long it is.
pub(crate) fn answer_result<R: Threads + Sync, L: Link, P: Store, G: Gate>(
    setup: &Setup<'_, R, G>,
    checked: Checked,
    service: &Service,
    link: &mut L,
    catalogue: &mut Catalogue,
    spool: &mut P,
) -> Served
    requires service { IsService service.now }
    requires going { GoesOn service.now.run (rows_of seen catalogue.old) (P.bytes spool.old) }
    requires runnable { IsCheckedOver (rows_of seen catalogue.old) checked }
    ensures { RunsOver L.left L.written L.faults P.bytes P.faults checked service.now
        (rows_of seen catalogue.old) spool.old link.old
        (rows_of seen catalogue.new) spool.new link.new result }
{
    match begin(
        setup.rt,
        setup.alloc,
        checked,
        service.sizes(),
        service.records_end(),
    ) {
        Ok((mut run, mut pending)) => {
            answer_run(setup, &mut run, &mut pending, link, catalogue, spool)
        }
        Err(PlanFail::TooLarge(cells)) => {
            answer_number(setup.alloc, ReplyCode::PlanTooLarge, cells, link)
        }
        Err(PlanFail::OutOfMemory) => answer_out_of_memory(link),
    }
}

/// Makes all rounds of a run, and answers with the text of its result.
fn answer_run<R: Threads + Sync, L: Link, P: Store, G: Gate>(
    setup: &Setup<'_, R, G>,
    run: &mut Run,
    pending: &mut Pending,
    link: &mut L,
    catalogue: &mut Catalogue,
    spool: &mut P,
) -> Served
    requires first { IsFirst run.old }
    requires going { IsGoing run.old (rows_of seen catalogue.old) (P.bytes spool.old) }
    ensures answers { spec.AnswersRun L.left L.written L.faults P.bytes P.faults run.old.plan
        (rows_of seen catalogue.old) spool.old link.old
        (rows_of seen catalogue.new) spool.new link.new result }
    ensures changes { ChangesOwnRecords run.old (P.bytes spool.old) (P.bytes spool.new) }
    ensures read { AreRead (rows_of seen catalogue.old) (rows_of seen catalogue.new) }
    ensures count { NeverFalls (P.faults spool.old) (P.faults spool.new) }
{
    match complete(setup.rt, run, pending, catalogue, spool, setup.gate) {
        Ok(count) => send(run, pending, count, link, spool),
        Err(refusal) => answer_refusal(setup.alloc, run.checked(), refusal, link),
    }
}

/// Writes the head of a reply, and the text of a run's result, which has so many bytes.
fn send<L: Link, P: Store>(
    run: &mut Run,
    pending: &mut Pending,
    count: u64,
    link: &mut L,
    spool: &mut P,
) -> Served
    requires planned { IsPlan run.old.plan }
    requires complete { run.old.done ≡ chunk_total run.old.plan }
    requires numbers { run.old.over ≡ None }
    requires records { HasRunRecords run.old (P.bytes spool.old) }
    ensures sends { let of = link_of L.left L.written L.faults in
        SendsRunText run.old (P.bytes spool.old) (P.faults spool.old) (P.faults spool.new)
        (spec.result_head count) (of link.old) (of link.new) result }
    ensures run { run.new ≡ run.old }
    ensures same { P.bytes spool.new ≡ P.bytes spool.old }
    ensures count { NeverFalls (P.faults spool.old) (P.faults spool.new) }
{
    match write_head(link, 200, count) {
        Ok(()) => send_text(run, pending, link, spool),
        Err(_) => Served::LinkFailed,
    }
}

/// Writes the text of a run's result.
fn send_text<L: Link, P: Store>(
    run: &mut Run,
    pending: &mut Pending,
    link: &mut L,
    spool: &mut P,
) -> Served
    requires planned { IsPlan run.old.plan }
    requires complete { run.old.done ≡ chunk_total run.old.plan }
    requires numbers { run.old.over ≡ None }
    requires records { HasRunRecords run.old (P.bytes spool.old) }
    ensures sends { let of = link_of L.left L.written L.faults in
        SendsRunText run.old (P.bytes spool.old) (P.faults spool.old) (P.faults spool.new) []
        (of link.old) (of link.new) result }
    ensures run { run.new ≡ run.old }
    ensures same { P.bytes spool.new ≡ P.bytes spool.old }
    ensures count { NeverFalls (P.faults spool.old) (P.faults spool.new) }
{
    match run.render(spool, link, pending) {
        Ok(()) => Served::Answered(200),
        Err(fail) => served_by(fail),
    }
}

/// What becomes of a connection to which a text was not written whole.
fn served_by(fail: RenderFail) -> Served
    ensures { result ≡ served_of fail }
{
    match fail {
        RenderFail::SinkFailed => Served::LinkFailed,
        RenderFail::SpoolFailed | RenderFail::SpoolDamaged(_) => Served::Cut,
    }
}
