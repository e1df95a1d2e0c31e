// Which callbacks are one node that reduces the list of the scope cell by cell.
ghost use Rattle.std.specs.Prelude.{◌≡◌, IfOk};
ghost use Rattle.std.specs.Option.{option_and_then};
ghost use Rattle.oe_graph.specs.Plain.{plain_node, plain_nodes};
ghost use Rattle.oe_expr.specs.Folds as spec;
ghost use Rattle.oe_expr.specs.PlainRequests.{plain_cell_request};
ghost use Rattle.oe_expr.specs.Requests.{cell_request_at};

use crate::request::{Items, Request, request_at};
use oe_fold::Reducer;
use oe_graph::Node;
use oe_memory::OutOfMemory;
use std::alloc::Global;

/// The reducer is the median.
fn is_median(reducer: Reducer) -> bool
    ensures { result ≡ spec.is_median reducer }
{
    match reducer {
        Reducer::Median => true,
        _ => false,
    }
}

/// The reducer of a request that reduces the list of the scope cell by cell, and whether it ignores nulls.
fn cell_by_cell(request: &Request<'_>) -> Option<(Reducer, bool)>
    ensures { result ≡ spec.cell_by_cell (plain_cell_request request.now) }
{
    match request {
        Request::Reduction(reducer, ignore, Items::Data) => {
            if is_median(*reducer) {
                None
            } else {
                Some((*reducer, *ignore))
            }
        }
        _ => None,
    }
}

/// The reducer of a node that reduces the list of the scope cell by cell, and whether it ignores nulls.
fn node_reducer(alloc: Global, node: &Node) -> Result<Option<(Reducer, bool)>, OutOfMemory>
    ensures { IfOk result (λ found. found
        ≡ option_and_then spec.cell_by_cell (cell_request_at (plain_node node.now))) }
{
    match request_at(alloc, node)? {
        Some(request) => Ok(cell_by_cell(&request)),
        None => Ok(None),
    }
}

/// That of the node of a graph that has no other.
pub(crate) fn single_reducer(
    alloc: Global,
    nodes: &Vec<Node>,
) -> Result<Option<(Reducer, bool)>, OutOfMemory>
    ensures { IfOk result (λ found. found ≡ spec.single_reducer (plain_nodes nodes.now.items)) }
{
    if nodes.len() == 1 {
        node_reducer(alloc, &nodes[0])
    } else {
        Ok(None)
    }
}
