// The service: its book, and the run of its running job.
ghost use Rattle.std.specs.Prelude.{◌≡◌, ◌≤◌, ◌^◌, IfSome, None, []};
ghost use Rattle.oe_jobs.specs.Changes.{changed};
ghost use Rattle.oe_jobs.specs.Events.{has_busy_job};
ghost use Rattle.oe_jobs.specs.Plain.{plain_book, plain_change};
ghost use Rattle.oe_jobs.specs.Valid.{IsBook};
ghost use Rattle.oe_service.specs.Calls.{Installs, IsDecided, IsKept, Obeys, is_done, GoesByCommands};
ghost use Rattle.oe_service.specs.GoesOn.{HasSizesOf, IsService, records_end_of, state_of};

use oe_book::keeps_running;
use oe_dims::Text;
use oe_engine::Run;
use oe_jobs::{Book, Change, Keeper, KeeperFail};
use oe_window::ChunkSize;

/// A job book, and the run of the job that runs.
pub struct Service {
    pub(crate) book: Book,
    /// The sides of the chunks in which assets are made.
    pub(crate) size: ChunkSize,
    /// How many workers make them, 1 to 64.
    pub(crate) workers: u32,
    /// The ids of the nodes that make an asset of the running job each; none where no job runs.
    pub(crate) ids: Vec<Text>,
    /// The run of its next asset, from its plan on until its text is stored.
    pub(crate) run: Option<Run>,
}

/// Written out, so that a service that ends is one call wherever it does.
impl Drop for Service {
    fn drop(self) {
        let Service {
            book: _,
            size: _,
            workers: _,
            ids: _,
            run: _,
        } = self;
    }
}

impl Service {
    /// The book.
    pub fn book(&self) -> &Book
        ensures { result.now ≡ self.now.book }
    {
        &self.book
    }

    /// The sides of the chunks in which assets are made, and how many workers make them, 1 to 64.
    pub fn sizes(&self) -> (ChunkSize, u32)
        ensures { result ≡ (self.now.size, self.now.workers) }
    {
        (self.size, self.workers)
    }

    /// The byte of the spool at which the records of its run end, 0 where none is under way: those of another run may
    /// stand from there on.
    pub fn records_end(&self) -> u64
        requires { IsService self.now }
        ensures value { result ≡ records_end_of self.now.run }
        ensures most { result ≤ 2 ^ 45 }
    {
        match &self.run {
            Some(run) => run.records_end(),
            None => 0,
        }
    }

    /// Whether a job is queued or runs.
    pub fn is_busy(&self) -> bool
        ensures { result ≡ has_busy_job (plain_book self.now.book) }
    {
        self.book.is_busy()
    }

    /// No job runs any more.
    pub(crate) fn end(&mut self)
        ensures same { self.new ≡ record self.old { ids = self.new.ids; run = None } }
        ensures none { self.new.ids.items ≡ [] }
    {
        self.ids.clear();
        self.run = None;
    }
}

/// Commits a change, and then has it in the book. After a refusal the book is as before.
///
/// Refuses: `Failed` only where the keeper's fault counter rose; out of memory.
pub(crate) fn install<K: Keeper>(
    book: &mut Book,
    change: Change,
    keeper: &mut K,
) -> Result<(), KeeperFail>
    requires valid { IsBook (changed (plain_book book.old) (plain_change change)) }
    requires kept { IsKept (K.kept keeper.old) (plain_book book.old) }
    ensures { Installs (plain_book book.old) (changed (plain_book book.old) (plain_change change))
        (plain_book book.new) (K.kept keeper.old) (K.kept keeper.new) (K.faults keeper.old)
        (K.faults keeper.new) (K.has_failed keeper.new) result }
{
    if book.ready(&change).is_err() {
        return Err(KeeperFail::OutOfMemory);
    }
    match keeper.commit(&change) {
        Ok(()) => {
            book.install(change);
            Ok(())
        }
        Err(fail) => Err(fail),
    }
}

/// Commits what a command of a user changes, and then has it in the book. The run ends where its job runs no more. After
/// a refusal all is as before. A call is the event of its command, or none.
///
/// Refuses: `Failed` only where the keeper's fault counter rose; out of memory.
pub fn commit_change<K: Keeper>(
    service: &mut Service,
    change: Change,
    keeper: &mut K,
) -> Result<(), KeeperFail>
    requires service { IsService service.old }
    requires valid { IsBook (changed (plain_book service.old.book) (plain_change change)) }
    requires decided { IsDecided (plain_book service.old.book)
        (changed (plain_book service.old.book) (plain_change change)) }
    requires kept { IsKept (K.kept keeper.old) (plain_book service.old.book) }
    ensures service { IsService service.new }
    ensures sizes { HasSizesOf service.old service.new }
    ensures kept { IsKept (K.kept keeper.new) (plain_book service.new.book) }
    ensures goes { GoesByCommands (changed (plain_book service.old.book) (plain_change change))
        (is_done result) (state_of service.old) (state_of service.new)
        (K.kept keeper.old) (K.kept keeper.new) }
    ensures obeys { Obeys (changed (plain_book service.old.book) (plain_change change))
        (state_of service.old) (state_of service.new) (K.kept keeper.old) (K.kept keeper.new)
        (K.faults keeper.old) (K.faults keeper.new) (K.has_failed keeper.new) result }
    ensures run { IfSome service.new.run (λ _. service.new.run ≡ service.old.run) }
{
    keeps_running();
    install(&mut service.book, change, keeper)?;
    if service.book.running().is_none() {
        service.end();
    }
    Ok(())
}
