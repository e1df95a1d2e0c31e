// Another node of a graph as its result.
ghost use Rattle.std.specs.Prelude.{◌≡◌, ◌<◌};
ghost use Rattle.oe_graph.specs.Plain.{plain_graph};
ghost use Rattle.oe_graph.specs.Printed.{node_count};
ghost use Rattle.oe_graph.specs.Valid.{IsValidGraph};
ghost use Rattle.oe_judge.specs.Judged.{having_result};

use oe_graph::Graph;

/// The graph with the node of this index as its result.
pub fn with_result(graph: Graph, node: u32) -> Graph
    requires { node < node_count (plain_graph graph).nodes }
    ensures result { plain_graph result ≡ having_result node (plain_graph graph) }
    ensures valid { IsValidGraph (plain_graph graph) → IsValidGraph (plain_graph result) }
{
    Graph {
        nodes: graph.nodes,
        result: node,
    }
}
