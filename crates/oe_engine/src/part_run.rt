// A part of a run: rounds of some of its chunks, from collections to the records of a spool.
use crate::bench::Bench;
use crate::chunks::{least_of_chunks, write_chunks};
use crate::round::{evaluate_taken, load_taken};
use crate::round_table::Crew;
use crate::run::Progress;
use crate::workspace::Workspace;
use oe_outside::{Gate, Pending, Sink, Store};
use oe_plan::Plan;
use oe_render::RenderFail;
use oe_sources::Catalogue;
use oe_spool::lesser;
use oe_steps::RunFail;
use std::marker::Model;
use std::thread::Threads;

/// Some chunks of a plan, one behind the other in number, that are carried out in a workspace. From its start on nothing
/// takes memory, but for what the system takes for a thread.
pub struct PartRun {
    plan: Plan,
    benches: Vec<Bench>,
    crew: Crew,
    base: u64,
    first: u64,
    count: u64,
    done: u64,
    evaluations: u64,
    over: Option<u64>,
}

impl Model for PartRun {
    ghost use Rattle.std.specs.Prelude.{◌≡◌, ◌+◌, ◌≤◌, ◌^◌};
    ghost use Rattle.oe_engine.specs.Runs.{PartRunOf, chunk_total};
    ghost use Rattle.oe_engine.specs.Workspaces.{AreBenchesFor};
    ghost use Rattle.oe_expr.specs.Codes.{nodes_code};
    ghost use Rattle.std.specs.Coded.{codes};

    ghost Value = { PartRunOf };

    ghost coded = { Prim.hlevel (codes, nodes_code (Prim.hlevel codes)) };

    ghost view = { λ r. record {
      plan = r.plan;
      base = r.base;
      first = r.first;
      count = r.count;
      done = r.done;
      evaluations = r.evaluations;
      over = r.over;
    } };

    ghost invariant = { λ r. (r.base ≤ 2 ^ 62) × (r.first + r.count ≤ chunk_total r.plan)
        × (r.done ≤ r.count) × AreBenchesFor r.plan r.benches.items
        × (r.crew ≡ r.plan.workers) };
}

/// Written out, so that a run that ends is one call wherever it does.
impl Drop for PartRun {
    fn drop(self) {
        let PartRun {
            plan: _,
            benches: _,
            crew: _,
            base: _,
            first: _,
            count: _,
            done: _,
            evaluations: _,
            over: _,
        } = self;
    }
}

impl PartRun {
    ghost use Rattle.std.specs.Prelude.{◌≡◌, ◌≤◌, ◌+◌, ◌^◌, None, IfErr};
    ghost use Rattle.oe_dims.specs.Dimensions.{cell_count};
    ghost use Rattle.oe_render.specs.Rendered.{HasSinkCause, HasSpoolCause, RendersCube};
    ghost use Rattle.oe_render.specs.Stored.{HasCells};
    ghost use Rattle.oe_sources.specs.CatalogueRows.{rows_of};
    ghost use Rattle.oe_steps.specs.Collections.{HasCollections};
    ghost use Rattle.oe_engine.specs.Parts.{AdvancesPart, HasPartCauses, ReadsPart, WritesPart};
    ghost use Rattle.oe_engine.specs.Rendered.{IsRefusalOf};
    ghost use Rattle.oe_engine.specs.Runs.{chunk_total, result_shape};
    ghost use Rattle.oe_engine.specs.Workspaces.{AreBenchesFor};

    /// A part of a run at its first chunk: so many chunks from one on, whose records are to stand in a spool from byte
    /// `base` on, each at its number in the whole result.
    pub fn start(plan: Plan, workspace: Workspace, base: u64, first: u64, count: u64) -> PartRun
        requires made { AreBenchesFor plan workspace }
        requires base { base ≤ 2 ^ 62 }
        requires chunks { first + count ≤ chunk_total plan }
        ensures { result ≡ record {
          plan = plan;
          base = base;
          first = first;
          count = count;
          done = 0;
          evaluations = 0;
          over = None;
        } }
    {
        let (benches, crew) = workspace.into_parts();
        PartRun {
            plan,
            benches,
            crew,
            base,
            first,
            count,
            done: 0,
            evaluations: 0,
            over: None,
        }
    }

    /// Takes the next chunks, two for each worker or those that are left: has the workers load them, and then evaluate
    /// each once behind the gate, both at once in threads of their own, and writes their records. Where a thread cannot
    /// be had, the caller's does its work.
    ///
    /// Refuses: `SourceFailed` and `SpoolFailed` only where the fault counter of a collection that is loaded, or of the
    /// spool, rose; `SourceDamaged` only with a damaged position that a load keeps. Then it stands at the same chunks.
    pub fn round<R: Threads + Sync, P: Store, G: Gate>(
        &mut self,
        rt: &R,
        catalogue: &mut Catalogue,
        spool: &mut P,
        gate: &G,
    ) -> Result<Progress, RunFail>
        requires mounted { HasCollections self.old.plan.graph (rows_of seen catalogue.old) }
        ensures advances { AdvancesPart self.old self.new result }
        ensures writes { WritesPart self.old (rows_of seen catalogue.old) (P.bytes spool.old)
            self.new (P.bytes spool.new) }
        ensures reads { ReadsPart self.old (rows_of seen catalogue.old)
            (rows_of seen catalogue.new) }
        ensures causes { HasPartCauses self.old (rows_of seen catalogue.old)
            (rows_of seen catalogue.new) (P.faults spool.old) (P.faults spool.new) result }
    {
        // A plan has at most 2^48 chunks, so that their numbers fit 64 bits.
        let _chunks = self.plan.chunks();
        let left = self.count - self.done;
        let count = left.min(self.benches.len() as u64);
        let end = count as usize;
        let first = self.first + self.done;
        load_taken(rt, &self.plan, &mut self.benches, end, catalogue, first)?;
        self.evaluations = evaluate_taken(
            rt,
            &mut self.crew,
            &self.plan,
            &mut self.benches,
            end,
            gate,
            first,
            self.evaluations,
        );
        let benches = &self.benches[..end];
        write_chunks(&self.plan, benches, spool, self.base, first)?;
        self.over = lesser(self.over, least_of_chunks(&self.plan, benches, first));
        self.done += count;
        if count == left {
            Ok(Progress::Complete)
        } else {
            Ok(Progress::More)
        }
    }

    /// Writes the result text from records in a spool, with the cells of a bench as its buffer.
    ///
    /// Refuses: as [`oe_render::render`] does. Then a prefix of the text was written.
    pub(crate) fn render<P: Store, O: Sink>(
        &mut self,
        spool: &mut P,
        out: &mut O,
        pending: &mut Pending,
    ) -> Result<(), RenderFail>
        requires stored { HasCells (P.bytes spool.old) self.old.base
            (cell_count (result_shape self.old.plan)) }
        ensures rendered { RendersCube self.old.base (result_shape self.old.plan) O.written O.size
            out.old out.new P.bytes spool.old result }
        ensures spool_cause { HasSpoolCause P.faults spool.old spool.new result }
        ensures sink_cause { HasSinkCause O.faults out.old out.new result }
        ensures damage { IfErr result (IsRefusalOf self.old.plan (P.bytes spool.old)) }
        ensures same { P.bytes spool.new ≡ P.bytes spool.old }
        ensures run { self.new ≡ self.old }
    {
        // A plan has a worker at least, so that there is a bench.
        let _workers = self.plan.workers();
        self.benches[0].render(&self.plan, spool, self.base, out, pending)
    }

    /// How many chunks it has.
    pub fn count(&self) -> u64
        ensures { result ≡ self.now.count }
    {
        self.count
    }

    /// How many of its chunks are done.
    pub fn done(&self) -> u64
        ensures value { result ≡ self.now.done }
        ensures most { result ≤ self.now.count }
    {
        self.done
    }

    /// How many chunks were evaluated, up to 2^64 − 1.
    pub fn evaluations(&self) -> u64
        ensures { result ≡ self.now.evaluations }
    {
        self.evaluations
    }

    /// The byte of the spool from which on its records stand.
    pub(crate) fn base(&self) -> u64
        ensures value { result ≡ self.now.base }
        ensures most { result ≤ 2 ^ 62 }
    {
        self.base
    }

    /// The least number of a cell that is `Over`, among those that are done.
    pub fn over(&self) -> Option<u64>
        ensures { result ≡ self.now.over }
    {
        self.over
    }

    /// The plan.
    pub fn plan(&self) -> &Plan
        ensures { result.now ≡ self.now.plan }
    {
        &self.plan
    }
}
