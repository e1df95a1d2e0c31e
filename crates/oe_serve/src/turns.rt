// Turns of a server.
ghost use Rattle.std.specs.Prelude.{◌≡◌};
ghost use Rattle.oe_dims.specs.Instant.{IsInstant};
ghost use Rattle.oe_plan.specs.Ranges.{IsWithinRanges};
ghost use Rattle.oe_service.specs.Causes.{outside_of};
ghost use Rattle.oe_service.specs.Steps.{IsServiceOver};
ghost use Rattle.oe_sources.specs.CatalogueRows.{rows_of};
ghost use Rattle.oe_serve.specs.Endings as endings;
ghost use Rattle.oe_serve.specs.Links.{link_of};
ghost use Rattle.oe_serve.specs.Server.{IsKeeperFaultOver, MakesTurnsOver, ServerEndsOver};
ghost use Rattle.oe_serve.specs.Steps.{MeetsOneOver, TicksOnceOver, TurnsOnceOver};
ghost use Rattle.oe_serve.specs.Turns.{door_of};

use crate::command::ServeCommand;
use crate::connections::serve_one;
use crate::setup::Setup;
use oe_jobs::Keeper;
use oe_outside::{Clock, Door, Gate, Next, Store};
use oe_service::{OpenBookFail, Service, Ticked, open_book, tick};
use oe_sources::Catalogue;
use std::thread::Threads;

/// Why a server ended before its turns were done.
#[derive(Clone, Copy, PartialEq, Eq)]
pub enum ServeFail {
    /// The keeper failed at the opening of the book or in a tick.
    KeeperFault,
    /// The door failed.
    LinkFault,
    /// An allocation was refused at the opening of the book or in a tick.
    OutOfMemory,
}

impl ServeFail {
    /// The exit status of a server that ends so: 9, 10 or 11.
    pub fn status(self) -> u8
        ensures { result ≡ endings.status_of self }
    {
        match self {
            ServeFail::KeeperFault => 10,
            ServeFail::LinkFault => 11,
            ServeFail::OutOfMemory => 9,
        }
    }

    /// The line that says so on the error output: its code, and a line feed.
    pub fn line(self) -> &'static str
        ensures { result.now ≡ endings.line_of self }
    {
        match self {
            ServeFail::KeeperFault => "openeo: KeeperFault\n",
            ServeFail::LinkFault => "openeo: LinkFault\n",
            ServeFail::OutOfMemory => "openeo: OutOfMemory\n",
        }
    }
}

impl From<OpenBookFail> for ServeFail {
    ghost use Rattle.std.specs.Prelude.{◌≡◌};
    ghost use Rattle.oe_serve.specs.Server.{of_opening};

    ghost from_gives = { λ fail e. e ≡ of_opening fail };

    fn from(fail: OpenBookFail) -> ServeFail {
        match fail {
            OpenBookFail::KeeperFailed => ServeFail::KeeperFault,
            OpenBookFail::OutOfMemory => ServeFail::OutOfMemory,
        }
    }
}

/// Opens the book that the keeper has, and takes turns: a turn asks the door for the next connection, serves it and
/// gives it back, and then does one tick. It ends after so many turns, or where the door is closed.
///
/// Refuses: `KeeperFault` only where the keeper's fault counter rose in its last call, at the opening of the book or in
/// a tick; `LinkFault` only where the door's fault counter rose; out of memory at the opening or in a tick. What
/// becomes of a connection ends that connection alone.
pub fn serve<R: Threads + Sync, P: Store, K: Keeper, D: Door, C: Clock, G: Gate>(
    setup: &Setup<'_, R, G>,
    command: ServeCommand,
    catalogue: &mut Catalogue,
    spool: &mut P,
    keeper: &mut K,
    door: &mut D,
    clock: &mut C,
) -> Result<(), ServeFail>
    requires { IsWithinRanges command.size command.workers }
    ensures ends { ServerEndsOver (link_of D.Conn.left D.Conn.written D.Conn.faults)
        (door_of D.visible D.faults D.dial_faults) (outside_of P.bytes P.faults K.kept K.faults)
        K.has_failed setup.now.site.now command (C.moment clock.old)
        (rows_of seen catalogue.old) spool.old keeper.old door.old
        (rows_of seen catalogue.new) spool.new keeper.new door.new result }
    ensures keeper { IsKeeperFaultOver (outside_of P.bytes P.faults K.kept K.faults) K.has_failed
        setup.now.site.now command (rows_of seen catalogue.old) spool.old keeper.old
        (rows_of seen catalogue.new) spool.new keeper.new result }
{
    match open_book(setup.alloc, keeper, command.size, command.workers) {
        Ok(mut service) => take_turns(
            setup,
            command.turns,
            &mut service,
            catalogue,
            spool,
            keeper,
            door,
            clock,
        ),
        Err(fail) => Err(ServeFail::from(fail)),
    }
}

/// Takes so many turns, or fewer where the door is closed.
fn take_turns<R: Threads + Sync, P: Store, K: Keeper, D: Door, C: Clock, G: Gate>(
    setup: &Setup<'_, R, G>,
    turns: u32,
    service: &mut Service,
    catalogue: &mut Catalogue,
    spool: &mut P,
    keeper: &mut K,
    door: &mut D,
    clock: &mut C,
) -> Result<(), ServeFail>
    requires service { IsServiceOver service.old (outside_of P.bytes P.faults K.kept K.faults
        (rows_of seen catalogue.old) spool.old keeper.old) }
    ensures { MakesTurnsOver (link_of D.Conn.left D.Conn.written D.Conn.faults)
        (door_of D.visible D.faults D.dial_faults) (outside_of P.bytes P.faults K.kept K.faults)
        K.has_failed setup.now.site.now turns (C.moment clock.old) service.old service.new
        (rows_of seen catalogue.old) spool.old keeper.old door.old
        (rows_of seen catalogue.new) spool.new keeper.new door.new result }
{
    for _ in 0..turns {
        match turn(setup, service, catalogue, spool, keeper, door, clock) {
            Ok(true) => {}
            Ok(false) => return Ok(()),
            Err(fail) => return Err(fail),
        }
    }
    Ok(())
}

/// One turn. Answers whether the door is asked again.
fn turn<R: Threads + Sync, P: Store, K: Keeper, D: Door, C: Clock, G: Gate>(
    setup: &Setup<'_, R, G>,
    service: &mut Service,
    catalogue: &mut Catalogue,
    spool: &mut P,
    keeper: &mut K,
    door: &mut D,
    clock: &mut C,
) -> Result<bool, ServeFail>
    requires service { IsServiceOver service.old (outside_of P.bytes P.faults K.kept K.faults
        (rows_of seen catalogue.old) spool.old keeper.old) }
    ensures turns { TurnsOnceOver (link_of D.Conn.left D.Conn.written D.Conn.faults)
        (door_of D.visible D.faults D.dial_faults) (outside_of P.bytes P.faults K.kept K.faults)
        K.has_failed setup.now.site.now (C.moment clock.old) service.old service.new
        (rows_of seen catalogue.old) spool.old keeper.old door.old
        (rows_of seen catalogue.new) spool.new keeper.new door.new result }
    ensures clock { C.moment clock.new ≡ C.moment clock.old }
{
    match door.next(service.is_busy()) {
        Next::Conn(conn) => {
            let now = clock.now_seconds();
            meet(setup, service, conn, catalogue, spool, keeper, door, now);
            end_turn(setup, service, catalogue, spool, keeper, now)
        }
        Next::Nobody => {
            let now = clock.now_seconds();
            end_turn(setup, service, catalogue, spool, keeper, now)
        }
        Next::Closed => Ok(false),
        Next::Failed => Err(ServeFail::LinkFault),
    }
}

/// Serves a connection and gives it back.
fn meet<R: Threads + Sync, P: Store, K: Keeper, D: Door, G: Gate>(
    setup: &Setup<'_, R, G>,
    service: &mut Service,
    mut conn: D::Conn,
    catalogue: &mut Catalogue,
    spool: &mut P,
    keeper: &mut K,
    door: &mut D,
    now: i64,
)
    requires moment { IsInstant now }
    requires service { IsServiceOver service.old (outside_of P.bytes P.faults K.kept K.faults
        (rows_of seen catalogue.old) spool.old keeper.old) }
    ensures { MeetsOneOver (link_of D.Conn.left D.Conn.written D.Conn.faults)
        (door_of D.visible D.faults D.dial_faults) (outside_of P.bytes P.faults K.kept K.faults)
        K.has_failed setup.now.site.now now conn service.old service.new
        (rows_of seen catalogue.old) spool.old keeper.old door.old
        (rows_of seen catalogue.new) spool.new keeper.new door.new }
{
    serve_one(setup, service, &mut conn, catalogue, spool, keeper, now);
    door.done(conn);
}

/// The tick of a turn. Answers whether the door is asked again.
fn end_turn<R: Threads + Sync, P: Store, K: Keeper, G: Gate>(
    setup: &Setup<'_, R, G>,
    service: &mut Service,
    catalogue: &mut Catalogue,
    spool: &mut P,
    keeper: &mut K,
    now: i64,
) -> Result<bool, ServeFail>
    requires moment { IsInstant now }
    requires service { IsServiceOver service.old (outside_of P.bytes P.faults K.kept K.faults
        (rows_of seen catalogue.old) spool.old keeper.old) }
    ensures { TicksOnceOver (outside_of P.bytes P.faults K.kept K.faults) K.has_failed now
        service.old service.new (rows_of seen catalogue.old) spool.old keeper.old
        (rows_of seen catalogue.new) spool.new keeper.new result }
{
    let alloc = setup.alloc;
    match tick(
        setup.rt, alloc, service, catalogue, spool, keeper, now, setup.gate,
    ) {
        Ticked::Idle | Ticked::Moved => Ok(true),
        Ticked::KeeperFailed => Err(ServeFail::KeeperFault),
        Ticked::OutOfMemory => Err(ServeFail::OutOfMemory),
    }
}
