// A run that is folded slab by slab: rounds of one chunk each, from collections to the records of a spool.
ghost use Rattle.std.specs.Prelude.{◌≡◌, ◌↔◌};
ghost use Rattle.oe_slab.specs.declared.slab_run.SlabProgress.TheVariants.{Complete};

use crate::plan::SlabPlan;
use crate::records::write_chunk;
use crate::workspace::SlabWorkspace;
use oe_check::Checked;
use oe_dims::Shape;
use oe_outside::{Pending, Sink, Store};
use oe_render::RenderFail;
use oe_sources::Catalogue;
use oe_spool::lesser;
use oe_steps::RunFail;
use std::marker::Model;

/// How far a run is after a round.
#[derive(Clone, Copy, PartialEq, Eq)]
pub enum SlabProgress {
    /// Chunks are left.
    More,
    /// None is left.
    Complete,
}

/// A plan that is carried out in a workspace. From its start on nothing takes memory.
pub struct SlabRun {
    plan: SlabPlan,
    workspace: SlabWorkspace,
    base: u64,
    done: u64,
    over: Option<u64>,
}

impl Model for SlabRun {
    ghost use Rattle.std.specs.Prelude.{◌≤◌, ◌^◌};
    ghost use Rattle.oe_expr.specs.Codes.{nodes_code};
    ghost use Rattle.oe_slab.specs.Runs.{SlabRunOf, chunk_total};
    ghost use Rattle.oe_slab.specs.Workspaces.{IsWorkspaceFor};
    ghost use Rattle.std.specs.Coded.{codes};

    ghost Value = { SlabRunOf };

    ghost coded = { Prim.hlevel (codes, nodes_code (Prim.hlevel codes)) };

    ghost view = { λ r. record { plan = r.plan; base = r.base; done = r.done; over = r.over } };

    ghost invariant = { λ r. (r.base ≤ 2 ^ 62) × (r.done ≤ chunk_total r.plan)
        × IsWorkspaceFor r.plan r.workspace };
}

/// Written out, so that a run that ends is one call wherever it does.
impl Drop for SlabRun {
    fn drop(self) {
        let SlabRun {
            plan: _,
            workspace: _,
            base: _,
            done: _,
            over: _,
        } = self;
    }
}

/// How far a run is once the next of so many chunks that were left is done.
fn progress_before(left: u64) -> SlabProgress
    ensures { (result ≡ Complete) ↔ (left ≡ 1) }
{
    if left == 1 {
        SlabProgress::Complete
    } else {
        SlabProgress::More
    }
}

impl SlabRun {
    ghost use Rattle.std.specs.Prelude.{◌≡◌, ◌≤◌, ◌^◌, None, IfErr};
    ghost use Rattle.oe_render.specs.Rendered.{HasSinkCause, HasSpoolCause};
    ghost use Rattle.oe_sources.specs.CatalogueRows.{rows_of};
    ghost use Rattle.oe_steps.specs.Collections.{HasCollections};
    ghost use Rattle.oe_steps.specs.Refusals.{overflow_of};
    ghost use Rattle.oe_slab.specs.Figures.{slab_bound};
    ghost use Rattle.oe_slab.specs.Rendered.{BeginsRun, BeginsStored, CountsRun, CountsRunPrefix, IsRefusalOf, WritesRun, WritesStored};
    ghost use Rattle.oe_slab.specs.Rounds.{Advances, HasCauses, ReadsChunk, WritesChunk};
    ghost use Rattle.oe_slab.specs.Runs.{HasRunRecords, chunk_total, result_shape};
    ghost use Rattle.oe_slab.specs.Workspaces.{IsWorkspaceFor};

    /// A run of a plan at its first chunk, whose records are to stand in a spool from byte `base` on.
    pub fn start(plan: SlabPlan, workspace: SlabWorkspace, base: u64) -> SlabRun
        requires made { IsWorkspaceFor plan workspace }
        requires base { base ≤ 2 ^ 62 }
        ensures { result ≡ record { plan = plan; base = base; done = 0; over = None } }
    {
        SlabRun {
            plan,
            workspace,
            base,
            done: 0,
            over: None,
        }
    }

    /// Takes the next chunk, if one is left: evaluates the part before the cut slab by slab and folds each, then the
    /// part behind it, and writes the chunk's records.
    ///
    /// Refuses: `SourceFailed` and `SpoolFailed` only where the fault counter of a collection that is loaded, or of the
    /// spool, rose; `SourceDamaged` only with a damaged position that a load keeps. Then the run stands at the same
    /// chunk.
    pub fn round<P: Store>(
        &mut self,
        catalogue: &mut Catalogue,
        spool: &mut P,
    ) -> Result<SlabProgress, RunFail>
        requires mounted { HasCollections self.old.plan.graph (rows_of seen catalogue.old) }
        ensures advances { Advances self.old self.new result }
        ensures writes { WritesChunk self.old (rows_of seen catalogue.old) (P.bytes spool.old)
            self.new (P.bytes spool.new) }
        ensures reads { ReadsChunk self.old (rows_of seen catalogue.old)
            (rows_of seen catalogue.new) }
        ensures causes { HasCauses self.old (rows_of seen catalogue.old)
            (rows_of seen catalogue.new) (P.faults spool.old) (P.faults spool.new) result }
    {
        let left = self.plan.chunks() - self.done;
        if left == 0 {
            return Ok(SlabProgress::Complete);
        }
        let chunk = self.plan.chunk(self.done);
        self.workspace.evaluate(&self.plan, catalogue, &chunk)?;
        let cells = self.workspace.result_cells(&self.plan);
        let least = write_chunk(self.plan.shape(), spool, self.base, &chunk, cells)?;
        self.over = lesser(self.over, least);
        self.done += 1;
        Ok(progress_before(left))
    }

    /// Whether no cell of the result is out of the range of numbers.
    ///
    /// Refuses: `Overflow` exactly where one is, with the least row-major number of such a cell.
    pub fn finish(&self) -> Result<(), RunFail>
        requires { self.now.done ≡ chunk_total self.now.plan }
        ensures { result ≡ overflow_of self.now.over }
    {
        match self.over {
            Some(number) => Err(RunFail::Overflow(number)),
            None => Ok(()),
        }
    }

    /// Writes the result text from the records in the spool, of which it changes none. Over a spool whose bytes are
    /// visible it is the text of the cube whose records the rounds wrote.
    ///
    /// Refuses: as [`oe_render::render`] does. Then a prefix of the text was written.
    pub fn render<P: Store, O: Sink>(
        &mut self,
        spool: &mut P,
        out: &mut O,
        pending: &mut Pending,
    ) -> Result<(), RenderFail>
        requires complete { self.old.done ≡ chunk_total self.old.plan }
        requires numbers { self.old.over ≡ None }
        requires records { HasRunRecords self.old (P.bytes spool.old) }
        ensures text { WritesRun O.written out.old out.new self.old P.bytes spool.old result }
        ensures prefix { BeginsRun O.written out.old out.new self.old P.bytes spool.old result }
        ensures cells { WritesStored O.written out.old out.new self.old P.bytes spool.old result }
        ensures cells_prefix { BeginsStored O.written out.old out.new self.old
            P.bytes spool.old result }
        ensures counted { CountsRun O.size out.old out.new self.old P.bytes spool.old result }
        ensures counted_prefix { CountsRunPrefix O.size out.old out.new self.old
            P.bytes spool.old result }
        ensures spool_cause { HasSpoolCause P.faults spool.old spool.new result }
        ensures sink_cause { HasSinkCause O.faults out.old out.new result }
        ensures damage { IfErr result (IsRefusalOf self.old.plan (P.bytes spool.old)) }
        ensures same { P.bytes spool.new ≡ P.bytes spool.old }
        ensures run { self.new ≡ self.old }
    {
        // That its plan is one, as the bound says, has that the chunks part the result.
        let _bound = self.plan.bound();
        self.workspace
            .render(&self.plan, spool, self.base, out, pending)
    }

    /// The shape of the result.
    pub fn shape(&self) -> &Shape
        ensures { result.now ≡ result_shape self.now.plan }
    {
        self.plan.shape()
    }

    /// The graph.
    pub fn checked(&self) -> &Checked
        ensures { result.now ≡ self.now.plan.graph }
    {
        self.plan.checked()
    }

    /// How many chunks it has, up to 2^48.
    pub fn chunks(&self) -> u64
        ensures value { result ≡ chunk_total self.now.plan }
        ensures most { result ≤ 2 ^ 48 }
    {
        self.plan.chunks()
    }

    /// How many of them are done.
    pub fn done(&self) -> u64
        ensures value { result ≡ self.now.done }
        ensures most { result ≤ chunk_total self.now.plan }
    {
        self.done
    }

    /// How many cells it holds, at any time: as many as the bound of its plan.
    pub fn cells(&self) -> u64
        ensures { result ≡ slab_bound self.now.plan.graph self.now.plan.size self.now.plan.fold }
    {
        self.workspace.cells()
    }
}
