// What the assets of a job need, answered.
ghost use Rattle.std.specs.Prelude.{◌≡◌, IfOk, map};
ghost use Rattle.oe_plan.specs.Ranges.{IsWithinRanges};
ghost use Rattle.oe_serve.specs.Answers as spec;
ghost use Rattle.oe_serve.specs.Links.{link_of};

use crate::links::{answer_out_of_memory, answer_text};
use crate::served::Served;
use oe_memory::OutOfMemory;
use oe_outside::Link;
use oe_pages::{EstimateRow, estimate_body};
use oe_plan::figures;
use oe_routes::EstimateGraph;
use oe_window::ChunkSize;
use std::alloc::Global;

/// Answers with what these assets need in runs with chunks of a size and so many workers.
pub(crate) fn answer_estimate<L: Link>(
    alloc: Global,
    link: &mut L,
    graphs: &[EstimateGraph],
    sizes: (ChunkSize, u32),
) -> Served
    requires { IsWithinRanges sizes.0 sizes.1 }
    ensures { let of = link_of L.left L.written L.faults in
        spec.SendsEstimate sizes.0 sizes.1 graphs.now (of link.old) (of link.new) result }
{
    match estimate_text(alloc, graphs, sizes) {
        Ok(text) => answer_text(link, 200, &text),
        Err(OutOfMemory) => answer_out_of_memory(link),
    }
}

fn estimate_text(
    alloc: Global,
    graphs: &[EstimateGraph],
    sizes: (ChunkSize, u32),
) -> Result<Vec<u8>, OutOfMemory>
    requires { IsWithinRanges sizes.0 sizes.1 }
    ensures { IfOk result
        (λ text. text.items ≡ spec.estimate_text sizes.0 sizes.1 graphs.now) }
{
    let rows = estimate_rows(alloc, graphs, sizes)?;
    estimate_body(alloc, &rows)
}

fn estimate_rows(
    alloc: Global,
    graphs: &[EstimateGraph],
    sizes: (ChunkSize, u32),
) -> Result<Vec<EstimateRow>, OutOfMemory>
    requires { IsWithinRanges sizes.0 sizes.1 }
    ensures { IfOk result
        (λ rows. rows.items ≡ map (spec.row_of sizes.0 sizes.1) graphs.now) }
{
    let mut rows = Vec::with_capacity(alloc, graphs.len())?;
    for graph in graphs {
        rows.push(row_of(alloc, graph, sizes)?)?;
    }
    Ok(rows)
}

fn row_of(
    alloc: Global,
    graph: &EstimateGraph,
    sizes: (ChunkSize, u32),
) -> Result<EstimateRow, OutOfMemory>
    requires { IsWithinRanges sizes.0 sizes.1 }
    ensures { IfOk result (λ row. row ≡ spec.row_of sizes.0 sizes.1 graph.now) }
{
    let figures = figures(alloc, &graph.checked, sizes.0, sizes.1)?;
    Ok(EstimateRow {
        name: graph.name.copy()?,
        bound: figures.bound,
        chunks: figures.chunks,
    })
}
