// A run: rounds of chunks, from collections to the records of a spool.
use crate::part_run::PartRun;
use crate::workspace::Workspace;
use oe_check::Checked;
use oe_dims::Shape;
use oe_outside::{Gate, Pending, Sink, Store};
use oe_plan::Plan;
use oe_render::RenderFail;
use oe_sources::Catalogue;
use oe_steps::RunFail;
use std::marker::Model;
use std::thread::Threads;

/// How far a run is after a round.
#[derive(Clone, Copy, PartialEq, Eq)]
pub enum Progress {
    /// Chunks are left.
    More,
    /// None is left.
    Complete,
}

/// A plan that is carried out in a workspace: the part of its run that has all chunks. From its start on nothing takes
/// memory, but for what the system takes for a thread.
pub struct Run {
    part: PartRun,
}

impl Model for Run {
    ghost use Rattle.oe_engine.specs.Parts.{IsWhole, run_of};
    ghost use Rattle.oe_engine.specs.Runs.{RunOf};
    ghost use Rattle.oe_expr.specs.Codes.{nodes_code};
    ghost use Rattle.std.specs.Coded.{codes};

    ghost Value = { RunOf };

    ghost coded = { Prim.hlevel (codes, nodes_code (Prim.hlevel codes)) };

    ghost view = { λ r. run_of r.part };

    ghost invariant = { λ r. IsWhole r.part };
}

/// Written out, so that a run that ends is one call wherever it does.
impl Drop for Run {
    fn drop(self) {
        let Run { part: _ } = self;
    }
}

impl Run {
    ghost use Rattle.std.specs.Prelude.{◌≡◌, ◌≤◌, ◌+◌, ◌^◌, None, IfErr};
    ghost use Rattle.oe_plan.specs.Figures.{shape_of_node};
    ghost use Rattle.oe_render.specs.Rendered.{HasSinkCause, HasSpoolCause};
    ghost use Rattle.oe_sources.specs.CatalogueRows.{rows_of};
    ghost use Rattle.oe_steps.specs.Collections.{HasCollections};
    ghost use Rattle.oe_steps.specs.Refusals.{overflow_of};
    ghost use Rattle.oe_engine.specs.Going as spec;
    ghost use Rattle.oe_engine.specs.Rendered.{BeginsRun, BeginsStored, CountsRun, CountsRunPrefix, IsRefusalOf, WritesRun, WritesStored};
    ghost use Rattle.oe_engine.specs.Rounds.{Advances, HasCauses, ReadsChunks, WritesChunks};
    ghost use Rattle.oe_engine.specs.Runs.{HasRunRecords, chunk_total};
    ghost use Rattle.oe_engine.specs.Workspaces.{AreBenchesFor};

    /// A run of a plan at its first chunk, whose records are to stand in a spool from byte `base` on.
    pub fn start(plan: Plan, workspace: Workspace, base: u64) -> Run
        requires made { AreBenchesFor plan workspace }
        requires base { base ≤ 2 ^ 62 }
        ensures { result
            ≡ record { plan = plan; base = base; done = 0; evaluations = 0; over = None } }
    {
        let chunks = plan.chunks();
        Run {
            part: PartRun::start(plan, workspace, base, 0, chunks),
        }
    }

    /// Takes the next chunks, two for each worker or those that are left: has the workers load them, and then evaluate
    /// each once behind the gate, both at once in threads of their own, and writes their records. Where a thread cannot
    /// be had, the caller's does its work.
    ///
    /// Refuses: `SourceFailed` and `SpoolFailed` only where the fault counter of a collection that is loaded, or of the
    /// spool, rose; `SourceDamaged` only with a damaged position that a load keeps. Then the run stands at the same
    /// chunks.
    pub fn round<R: Threads + Sync, P: Store, G: Gate>(
        &mut self,
        rt: &R,
        catalogue: &mut Catalogue,
        spool: &mut P,
        gate: &G,
    ) -> Result<Progress, RunFail>
        requires mounted { HasCollections self.old.plan.graph (rows_of seen catalogue.old) }
        ensures advances { Advances self.old self.new result }
        ensures writes { WritesChunks self.old (rows_of seen catalogue.old) (P.bytes spool.old)
            self.new (P.bytes spool.new) }
        ensures reads { ReadsChunks self.old (rows_of seen catalogue.old)
            (rows_of seen catalogue.new) }
        ensures causes { HasCauses self.old (rows_of seen catalogue.old)
            (rows_of seen catalogue.new) (P.faults spool.old) (P.faults spool.new) result }
    {
        self.part.round(rt, catalogue, spool, gate)
    }

    /// Whether no cell of the result is out of the range of numbers.
    ///
    /// Refuses: `Overflow` exactly where one is, with the least row-major number of such a cell.
    pub fn finish(&self) -> Result<(), RunFail>
        requires { self.now.done ≡ chunk_total self.now.plan }
        ensures { result ≡ overflow_of self.now.over }
    {
        match self.part.over() {
            Some(number) => Err(RunFail::Overflow(number)),
            None => Ok(()),
        }
    }

    /// Writes the result text from the records in the spool, of which it changes none. Over a spool whose bytes are
    /// visible it is the text of the cube whose records the rounds wrote.
    ///
    /// Refuses: as [`oe_render::render`] does. Then a prefix of the text was written.
    pub fn render<P: Store, O: Sink>(
        &mut self,
        spool: &mut P,
        out: &mut O,
        pending: &mut Pending,
    ) -> Result<(), RenderFail>
        requires complete { self.old.done ≡ chunk_total self.old.plan }
        requires numbers { self.old.over ≡ None }
        requires records { HasRunRecords self.old (P.bytes spool.old) }
        ensures text { WritesRun O.written out.old out.new self.old P.bytes spool.old result }
        ensures prefix { BeginsRun O.written out.old out.new self.old P.bytes spool.old result }
        ensures cells { WritesStored O.written out.old out.new self.old P.bytes spool.old result }
        ensures cells_prefix { BeginsStored O.written out.old out.new self.old
            P.bytes spool.old result }
        ensures counted { CountsRun O.size out.old out.new self.old P.bytes spool.old result }
        ensures counted_prefix { CountsRunPrefix O.size out.old out.new self.old
            P.bytes spool.old result }
        ensures spool_cause { HasSpoolCause P.faults spool.old spool.new result }
        ensures sink_cause { HasSinkCause O.faults out.old out.new result }
        ensures damage { IfErr result (IsRefusalOf self.old.plan (P.bytes spool.old)) }
        ensures same { P.bytes spool.new ≡ P.bytes spool.old }
        ensures run { self.new ≡ self.old }
    {
        // A plan is valid.
        let _workers = self.part.plan().workers();
        self.part.render(spool, out, pending)
    }

    /// How many chunks it has, up to 2^48.
    pub fn chunks(&self) -> u64
        ensures value { result ≡ chunk_total self.now.plan }
        ensures most { result ≤ 2 ^ 48 }
    {
        self.part.plan().chunks()
    }

    /// How many of them are done.
    pub fn done(&self) -> u64
        ensures value { result ≡ self.now.done }
        ensures most { result ≤ chunk_total self.now.plan }
    {
        self.part.done()
    }

    /// The byte of the spool at which its records end, one of 17 bytes for each cell of the result: those of another
    /// run may begin there.
    pub fn records_end(&self) -> u64
        ensures value { result ≡ spec.records_end self.now }
        ensures most { result ≤ self.now.base + 2 ^ 45 }
    {
        self.part.base() + 17 * self.part.plan().shape().cells()
    }

    /// How many chunks were evaluated, up to 2^64 − 1.
    pub fn evaluations(&self) -> u64
        ensures { result ≡ self.now.evaluations }
    {
        self.part.evaluations()
    }

    /// The shape of the result.
    pub fn shape(&self) -> &Shape
        ensures { result.now ≡ shape_of_node self.now.plan.graph self.now.plan.graph.result }
    {
        self.part.plan().shape()
    }

    /// The graph.
    pub fn checked(&self) -> &Checked
        ensures { result.now ≡ self.now.plan.graph }
    {
        self.part.plan().checked()
    }
}
