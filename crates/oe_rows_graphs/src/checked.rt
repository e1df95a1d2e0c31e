// A graph and the sizes of its plan, from a line.
ghost use Rattle.std.specs.Prelude.{◌≡◌, IfOk};
ghost use Rattle.oe_dims.specs.Plain.{plain_rows};
ghost use Rattle.oe_plan.specs.Ranges.{IsWithinRanges};

use oe_check::{Checked, check};
use oe_dims::Dims;
use oe_graph::read_graph;
use oe_lines::{Fault, number_of, words_of};
use oe_resolve::resolve;
use oe_window::ChunkSize;
use std::alloc::Global;

/// The size of chunks, and how many workers there are.
pub(crate) type Sizes = (ChunkSize, u32);

/// The graph of a text, checked over the collections.
pub(crate) fn checked_of(alloc: Global, graph: &str, dims: &Dims) -> Result<Checked, Fault>
    ensures { IfOk result (λ checked. checked.rows ≡ plain_rows dims.now) }
{
    let Ok(graph) = read_graph(alloc, graph.as_bytes()) else {
        return Err(Fault::Line);
    };
    let Ok(resolved) = resolve(alloc, &graph, &[]) else {
        return Err(Fault::Line);
    };
    match check(alloc, &resolved, dims) {
        Ok(checked) => Ok(checked),
        Err(_) => Err(Fault::Line),
    }
}

/// The sides of chunks along x, y and t, 1 to 4096, and the number of workers, 1 to 64.
pub(crate) fn sizes_of(words: &str) -> Result<Sizes, Fault>
    ensures { IfOk result (λ sizes. IsWithinRanges sizes.0 sizes.1) }
{
    let [x, y, t, workers, ..] = words_of(words);
    let size = ChunkSize {
        x: number_of(x)?,
        y: number_of(y)?,
        t: number_of(t)?,
    };
    within_ranges(size, number_of(workers)?)
}

fn within_ranges(size: ChunkSize, workers: u32) -> Result<Sizes, Fault>
    ensures { IfOk result (λ sizes. IsWithinRanges sizes.0 sizes.1) }
{
    let ChunkSize { x, y, t } = size;
    if x < 1 || x > 4096 || y < 1 || y > 4096 || t < 1 || t > 4096 || workers < 1 || workers > 64 {
        return Err(Fault::Line);
    }
    Ok((ChunkSize { x, y, t }, workers))
}
