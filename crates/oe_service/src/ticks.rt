// One tick of a service.
ghost use Rattle.oe_dims.specs.Instant.{IsInstant};
ghost use Rattle.oe_service.specs.Causes.{outside_of};
ghost use Rattle.oe_service.specs.Steps.{IsServiceOver, TicksOver};
ghost use Rattle.oe_sources.specs.CatalogueRows.{rows_of};

use crate::answer::Ticked;
use crate::due::{finish, misses_asset, plan, round, start, store};
use crate::service::Service;
use oe_jobs::Keeper;
use oe_outside::{Gate, Store};
use oe_sources::Catalogue;
use std::alloc::Global;
use std::thread::Threads;

/// Does the first of these that is due at a moment, in seconds since 1970-01-01T00:00:00Z: where no job runs, the queued
/// job of least turn starts; else the next asset of the running job is planned, a round of its chunks is done, its text
/// is stored, or, where none is missing, the job is finished. A run that is refused fails the job with its code.
///
/// `Idle` comes exactly where no job is queued or runs. `KeeperFailed` comes only where the keeper's fault counter rose,
/// and then, as after `OutOfMemory`, the book and the run stand as before. A tick that answers `Idle`, plans an asset or
/// does a round leaves what the keeper has, and its fault counter, as they were. One that is out of memory begins no
/// commit.
pub fn tick<R: Threads + Sync, P: Store, K: Keeper, G: Gate>(
    rt: &R,
    alloc: Global,
    service: &mut Service,
    catalogue: &mut Catalogue,
    spool: &mut P,
    keeper: &mut K,
    now: i64,
    gate: &G,
) -> Ticked
    requires moment { IsInstant now }
    requires service { IsServiceOver service.old (outside_of P.bytes P.faults K.kept K.faults
        (rows_of seen catalogue.old) spool.old keeper.old) }
    // Whatever it answers, this holds again; and the tick is an event, or none.
    ensures { TicksOver (outside_of P.bytes P.faults K.kept K.faults) K.has_failed now
        service.old service.new (rows_of seen catalogue.old) spool.old keeper.old
        (rows_of seen catalogue.new) spool.new keeper.new result }
{
    if service.book.running().is_none() {
        return start(alloc, service, keeper, now);
    }
    match &service.run {
        None => {
            if misses_asset(service) {
                plan(rt, alloc, service, catalogue, keeper, now)
            } else {
                finish(alloc, service, keeper, now)
            }
        }
        Some(run) => {
            if run.done() < run.chunks() {
                round(rt, alloc, service, catalogue, spool, keeper, now, gate)
            } else {
                store(alloc, service, spool, keeper, now)
            }
        }
    }
}
