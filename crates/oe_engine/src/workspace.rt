// All the cells of a run.
ghost use Rattle.std.specs.Prelude.{◌≡◌, ◌*◌, IfOk, length};
ghost use Rattle.std.specs.List.{All};
ghost use Rattle.oe_plan.specs.Figures.{bound_of};
ghost use Rattle.oe_engine.specs.Workspaces.{AreBenchesFor, AreIdle, IsPlaceFor, cells_of_benches};

use crate::bench::Bench;
use crate::making::{make_benches, take_bench};
use crate::round_table::Crew;
use oe_memory::OutOfMemory;
use oe_plan::Plan;
use std::alloc::Global;
use std::marker::Model;
use std::thread::Threads;

/// The benches of a run, two for each worker, and the workers with the table over which they are handed benches. The
/// benches hold all its cells.
pub struct Workspace {
    benches: Vec<Bench>,
    cells: u64,
    crew: Crew,
}

impl Model for Workspace {
    ghost use Rattle.std.specs.Prelude.{◌≡◌, ◌*◌, List, length};
    ghost use Rattle.oe_engine.specs.Benches.{BenchOf};
    ghost use Rattle.oe_engine.specs.Workspaces.{cells_of_benches};

    ghost Value = { List BenchOf };

    ghost view = { λ w. w.benches.items };

    ghost invariant = { λ w. (w.cells ≡ cells_of_benches w.benches.items)
        × (length w.benches.items ≡ 2 * w.crew) };
}

/// Written out, so that a workspace that ends is one call wherever it does.
impl Drop for Workspace {
    fn drop(self) {
        let Workspace {
            benches: _,
            cells: _,
            crew: _,
        } = self;
    }
}

impl Workspace {
    /// Idle benches for a plan, two for each worker, made at once in a thread for each worker. Where a thread cannot be
    /// had, the caller's does its work. All memory of a run is taken here. Refuses: out of memory.
    pub fn new<R: Threads + Sync>(
        rt: &R,
        alloc: Global,
        plan: &Plan,
    ) -> Result<Workspace, OutOfMemory>
        ensures benches { IfOk result (AreBenchesFor plan.now) }
        ensures idle { IfOk result AreIdle }
        // They hold as many cells as the bound of the plan.
        ensures cells { IfOk result (λ benches. cells_of_benches benches
            ≡ bound_of plan.now.graph plan.now.size plan.now.workers) }
    {
        let workers = plan.workers();
        let count = 2 * workers;
        let mut places = make_benches(rt, alloc, plan, count as usize, workers as usize)?;
        Workspace::from_places(alloc, plan, &mut places)
    }

    /// The workspace of the benches in these places. Refuses: out of memory, also where a bench could not be made.
    #[tactic(auto, using(crate::proofs::WorkspaceLemmas::none_yet, crate::proofs::WorkspaceLemmas::one_more))]
    fn from_places(
        alloc: Global,
        plan: &Plan,
        places: &mut Vec<Option<Bench>>,
    ) -> Result<Workspace, OutOfMemory>
        requires many { length places.old.items ≡ 2 * plan.now.workers }
        requires made { All (IsPlaceFor plan.now) places.old.items }
        ensures benches { IfOk result (AreBenchesFor plan.now) }
        ensures idle { IfOk result AreIdle }
        ensures cells { IfOk result (λ benches. cells_of_benches benches
            ≡ bound_of plan.now.graph plan.now.size plan.now.workers) }
    {
        let workers = plan.workers();
        let crew = Crew::new(alloc, workers)?;
        let count = 2 * workers;
        let mut benches = Vec::with_capacity(alloc, count as usize)?;
        let mut cells = 0;
        for _ in 0..count {
            let bench = take_bench(places)?;
            cells += bench.cells(plan);
            benches.push(bench)?;
        }
        Ok(Workspace {
            benches,
            cells,
            crew,
        })
    }

    /// How many cells it holds.
    pub fn cells(&self) -> u64
        ensures { result ≡ cells_of_benches self.now }
    {
        self.cells
    }

    /// The benches, and the workers.
    pub(crate) fn into_parts(self) -> (Vec<Bench>, Crew)
        ensures benches { result.0.items ≡ self }
        ensures crew { length self ≡ 2 * result.1 }
    {
        let Workspace {
            benches,
            cells: _,
            crew,
        } = self;
        (benches, crew)
    }
}
