// The check of a graph over collections.
ghost use Rattle.std.specs.Prelude.{◌≡◌, IfOk, IfErr};
ghost use Rattle.oe_dims.specs.Plain.{plain_rows};
ghost use Rattle.oe_graph.specs.Plain.{plain_graph, plain_nodes};
ghost use Rattle.oe_graph.specs.Printed.{ids_of};
ghost use Rattle.oe_graph.specs.Read.{IsFault, IsFaultless};
ghost use Rattle.oe_graph.specs.Resolved.{IsResolved};
ghost use Rattle.oe_check.specs.Checked.{AreFaultless};
ghost use Rattle.oe_meanings.specs.Stands.{StandsInGraph};

use crate::checked::Checked;
use crate::links::links_between;
use crate::walk::{Walk, walk_nodes};
use oe_dims::{Dims, Text};
use oe_graph::{Graph, Node, Refusal, sort_nodes};
use oe_memory::OutOfMemory;
use std::alloc::Global;

/// The graph with the operation of each node and the shape and kind of its cube, over the collections of these rows:
/// what each process asks of its arguments and of its cubes holds at every node (openEO Processes). Looks at no cell.
///
/// Refuses: with the least fault, exactly where a fault of arguments, of a callback or of cubes stands at a node; out
/// of memory.
pub fn check(alloc: Global, graph: &Graph, dims: &Dims) -> Result<Checked, Refusal>
    requires resolved { IsResolved (plain_graph graph.now) }
    ensures checked { IfOk result (λ checked. checked ≡ record {
      nodes = (plain_graph graph.now).nodes;
      result = (plain_graph graph.now).result;
      rows = plain_rows dims.now;
    }) }
    ensures faultless { IfOk result AreFaultless }
    ensures none { IfOk result (λ checked. IsFaultless (StandsInGraph checked.rows checked.nodes)) }
    ensures refused { IfErr result
        (IsFault (StandsInGraph (plain_rows dims.now) (plain_graph graph.now).nodes)) }
{
    let sorted = sort_nodes(alloc, &graph.nodes)?;
    let indices = sorted.indices.as_slice();
    let Walk { states, found } = walk_nodes(alloc, &graph.nodes, &sorted.links, indices, dims)?;
    match found {
        Some(fault) => Err(Refusal::Fault(fault)),
        None => {
            let ids = copy_ids(alloc, &graph.nodes)?;
            let links = links_between(alloc, &graph.nodes, &sorted.links)?;
            Ok(Checked::of(graph, dims, ids, states, links))
        }
    }
}

/// The ids of nodes.
fn copy_ids(alloc: Global, nodes: &Vec<Node>) -> Result<Vec<Text>, OutOfMemory>
    ensures { IfOk result (λ ids. ids.items ≡ ids_of (plain_nodes nodes.now.items)) }
{
    let mut ids = Vec::with_capacity(alloc, nodes.len())?;
    for node in nodes {
        ids.push(node.id.copy()?)?;
    }
    Ok(ids)
}
