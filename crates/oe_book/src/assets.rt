// The assets of a job.
ghost use Rattle.std.specs.Prelude.{◌≡◌, ◌+◌, IfOk, codes, map, true};
ghost use Rattle.oe_dims.specs.Names.{names_rise, same_name};
ghost use Rattle.oe_graph.specs.Plain.{plain_graph, plain_node};
ghost use Rattle.oe_graph.specs.Valid.{IsValidGraph};
ghost use Rattle.oe_book.specs.Assets as spec;

use oe_dims::Text;
use oe_graph::{Graph, Node};
use oe_memory::OutOfMemory;
use std::alloc::Global;

/// The indices of the nodes of a graph that make an asset each: of the calls of `save_result`, as sent, and of the
/// result node (openEO API, batch jobs). They rise. Refuses: out of memory.
pub fn assets_of(alloc: Global, graph: &Graph) -> Result<Vec<u32>, OutOfMemory>
    ensures nodes { IfOk result (λ v. v.items ≡ spec.asset_nodes (plain_graph graph.now)) }
    ensures ids { IfOk result (λ v. map (spec.id_at (plain_graph graph.now).nodes) v.items
        ≡ spec.asset_ids (plain_graph graph.now)) }
{
    find_assets(alloc, graph)
}

fn find_assets(alloc: Global, graph: &Graph) -> Result<Vec<u32>, OutOfMemory>
    ensures { IfOk result (λ v. v.items ≡ spec.asset_nodes (plain_graph graph.now)) }
{
    let mut nodes = Vec::new(alloc);
    let mut index: u32 = 0;
    for node in &graph.nodes {
        if makes_asset(graph, index, node) {
            nodes.push(index)?;
        }
        index = after(index)?;
    }
    Ok(nodes)
}

/// The ids of these nodes. They rise in byte order where the graph was read. Refuses: out of memory.
pub fn asset_ids(alloc: Global, graph: &Graph) -> Result<Vec<Text>, OutOfMemory>
    ensures ids { IfOk result (λ v. v.items ≡ spec.asset_ids (plain_graph graph.now)) }
    ensures rise { IfOk result (λ v. IsValidGraph (plain_graph graph.now)
        → names_rise v.items ≡ true) }
{
    copy_ids(alloc, graph)
}

fn copy_ids(alloc: Global, graph: &Graph) -> Result<Vec<Text>, OutOfMemory>
    ensures { IfOk result (λ v. v.items ≡ spec.asset_ids (plain_graph graph.now)) }
{
    let mut ids = Vec::new(alloc);
    let mut index: u32 = 0;
    for node in &graph.nodes {
        if makes_asset(graph, index, node) {
            ids.push(node.id.copy()?)?;
        }
        index = after(index)?;
    }
    Ok(ids)
}

fn makes_asset(graph: &Graph, index: u32, node: &Node) -> bool
    ensures { result ≡ spec.makes_asset (plain_graph graph.now).result index
        (plain_node node.now).process_id }
{
    index == graph.result || is_save_result(node.process_id.as_str())
}

fn is_save_result(process_id: &str) -> bool
    ensures { result ≡ same_name process_id.now (codes "save_result") }
{
    process_id == "save_result"
}

/// The next index. As many nodes as do not fit this type do not fit the memory either.
fn after(index: u32) -> Result<u32, OutOfMemory>
    ensures { IfOk result (λ i. i ≡ index + 1) }
{
    if index == u32::MAX {
        return Err(OutOfMemory);
    }
    Ok(index + 1)
}

/// The name of the asset of a node: its id with `.json`. Refuses: out of memory.
pub fn asset_name(alloc: Global, id: &Text) -> Result<Text, OutOfMemory>
    ensures { IfOk result (λ name. name ≡ spec.asset_name id.now) }
{
    let mut name = String::from_str(alloc, id.as_str())?;
    name.push_str(".json")?;
    Text::of(alloc, name.as_str())
}
