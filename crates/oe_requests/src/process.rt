// The processes that stand in the main graph.
ghost use Rattle.std.specs.Prelude.{◌≡◌, map};
ghost use Rattle.oe_requests.specs.Requests as spec;

/// A process on cubes (openEO Processes).
#[derive(Clone, Copy, PartialEq, Eq)]
pub enum CubeProcess {
    AggregateTemporal,
    AggregateTemporalPeriod,
    Apply,
    ApplyDimension,
    ApplyKernel,
    FilterBands,
    FilterBbox,
    FilterTemporal,
    LoadCollection,
    Mask,
    MergeCubes,
    ReduceDimension,
    SaveResult,
}

/// The number of processes that stand in the main graph.
const PROCESS_COUNT: usize = 13;

/// A process by its id.
type ProcessEntry = (&'static str, CubeProcess);

/// The processes, by their ids.
static PROCESSES: [ProcessEntry; PROCESS_COUNT] = [
    ("aggregate_temporal", CubeProcess::AggregateTemporal),
    (
        "aggregate_temporal_period",
        CubeProcess::AggregateTemporalPeriod,
    ),
    ("apply", CubeProcess::Apply),
    ("apply_dimension", CubeProcess::ApplyDimension),
    ("apply_kernel", CubeProcess::ApplyKernel),
    ("filter_bands", CubeProcess::FilterBands),
    ("filter_bbox", CubeProcess::FilterBbox),
    ("filter_temporal", CubeProcess::FilterTemporal),
    ("load_collection", CubeProcess::LoadCollection),
    ("mask", CubeProcess::Mask),
    ("merge_cubes", CubeProcess::MergeCubes),
    ("reduce_dimension", CubeProcess::ReduceDimension),
    ("save_result", CubeProcess::SaveResult),
];

/// The process of an id, where it stands in the main graph.
pub(crate) fn process_of(id: &str) -> Option<CubeProcess>
    ensures { result ≡ spec.cube_process_named id.now }
{
    process_in(&PROCESSES, id)
}

/// The process of the first entry with this id.
fn process_in(entries: &[ProcessEntry], id: &str) -> Option<CubeProcess>
    ensures { result ≡ spec.process_among id.now (map (λ e. (e.0.now, e.1)) entries.now) }
{
    for entry in entries {
        if entry.0 == id {
            return Some(entry.1);
        }
    }
    None
}
