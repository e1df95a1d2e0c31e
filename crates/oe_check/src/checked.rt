// A graph that was checked.
ghost use Rattle.std.specs.Prelude.{◌≡◌, ◌<◌, true, length};
ghost use Rattle.oe_dims.specs.Indices.{index_where};
ghost use Rattle.oe_dims.specs.Names.{same_name, names_rise};

use crate::reach::{differ_along, is_spatial, is_wrap, same_kind, time_fold};
use oe_dims::{CellKind, Dims, Kind, Shape, Text};
use oe_fold::Reducer;
use oe_graph::{Graph, NodeState};
use oe_order::Links;
use oe_requests::Operation;
use std::marker::Model;
use std::snapshot::Snapshot;
use std::sync::Arc;

/// What is kept of a node without a fault at or below it.
pub(crate) struct CheckedNode {
    pub operation: Operation,
    /// The collection that it loads.
    pub collection: Option<Text>,
    /// One for all nodes whose cubes have equal shapes.
    pub shape: Arc<Shape>,
    pub kind: CellKind,
}

/// Written out, so that what is kept of a node ends by one call wherever it does.
impl Drop for CheckedNode {
    fn drop(self) {
        let CheckedNode {
            operation: _,
            collection: _,
            shape: _,
            kind: _,
        } = self;
    }
}

/// What is known of a node.
pub(crate) type State = NodeState<CheckedNode>;

/// A graph without a fault over the collections of a catalogue, as [`check`](crate::check) gives it: for each node its
/// operation, and the shape and the kind of its cube (openEO API, process graphs). Nodes are named by their indices in
/// byte order of their ids, from 0.
pub struct Checked {
    graph: Snapshot<Graph>,
    dims: Snapshot<Dims>,
    result: u32,
    ids: Vec<Text>,
    states: Vec<State>,
    links: Vec<Links>,
}

impl Model for Checked {
    ghost use Rattle.oe_dims.specs.Plain.{plain_rows};
    ghost use Rattle.oe_graph.specs.Plain.{plain_graph};
    ghost use Rattle.oe_check.specs.Checked.{CheckedGraph, IsKept};
    ghost use Rattle.std.specs.Coded.{codes};
    ghost use Rattle.oe_expr.specs.Codes.{nodes_code};

    ghost Value = { CheckedGraph };

    ghost coded = { Prim.hlevel (codes, nodes_code (Prim.hlevel codes)) };

    ghost view = { λ s. record {
      nodes = (plain_graph s.graph.value).nodes;
      result = s.result;
      rows = plain_rows s.dims.value;
    } };

    ghost invariant = { λ s. IsKept
        (record {
          nodes = (plain_graph s.graph.value).nodes;
          result = s.result;
          rows = plain_rows s.dims.value;
        }) s.ids.items s.states.items s.links.items };
}

/// Written out, so that a checked graph that ends is one call wherever it does.
impl Drop for Checked {
    fn drop(self) {
        let Checked {
            graph: _,
            dims: _,
            result: _,
            ids: _,
            states: _,
            links: _,
        } = self;
    }
}

impl Checked {
    ghost use Rattle.oe_dims.specs.Plain.{plain_rows};
    ghost use Rattle.oe_graph.specs.Plain.{plain_graph};
    ghost use Rattle.std.specs.Prelude.{◌≡◌, ◌<◌, Some, length, option_map};
    ghost use Rattle.std.specs.Arc.{arc_value};
    ghost use Rattle.oe_graph.specs.Printed.{node_count};
    ghost use Rattle.oe_expr.specs.Nodes.{id_at};
    ghost use Rattle.oe_order.specs.Graph.{graph_of, RefersWithin, IsAcyclic};
    ghost use Rattle.oe_check.specs.Checked.{AreFaultless, IsKept, outline_of_node, operation_of_node, collection_of_node};
    ghost use Rattle.oe_check.specs.Links.{index_named, links_of};
    ghost use Rattle.oe_requests.specs.PlainRequests.{plain_operation};
    ghost use Rattle.oe_check.specs.Reach.{IsMerge, whole_of_node, halo_of_node, time_fold_of_node};
    ghost use Rattle.oe_dims.specs.declared.kind.Kind.TheVariants.{Y, X};

    pub(crate) fn of(
        graph: &Graph,
        dims: &Dims,
        ids: Vec<Text>,
        states: Vec<State>,
        links: Vec<Links>,
    ) -> Checked
        requires kept { IsKept
            (record {
              nodes = (plain_graph graph.now).nodes;
              result = (plain_graph graph.now).result;
              rows = plain_rows dims.now;
            }) ids.items states.items links.items }
        ensures { result ≡ record {
          nodes = (plain_graph graph.now).nodes;
          result = (plain_graph graph.now).result;
          rows = plain_rows dims.now;
        } }
    {
        Checked {
            graph: Snapshot::of(graph),
            dims: Snapshot::of(dims),
            result: graph.result,
            ids,
            states,
            links,
        }
    }

    /// How many nodes the graph has, 1 to 2^32 − 1.
    pub fn nodes(&self) -> u32
        ensures value { result ≡ node_count self.now.nodes }
        ensures faultless { AreFaultless self.now }
    {
        self.states.len() as u32
    }

    /// The index of the result node.
    pub fn result(&self) -> u32
        ensures value { result ≡ self.now.result }
        ensures within { result < node_count self.now.nodes }
        ensures faultless { AreFaultless self.now }
    {
        self.result
    }

    /// The index of the node of an id, `None` exactly where no node has it.
    pub fn find(&self, id: &str) -> Option<u32>
        ensures { result ≡ index_named self.now.nodes id.now }
    {
        index_among(&self.ids, id)
    }

    /// The id of a node.
    pub fn id(&self, node: u32) -> &str
        requires { node < node_count self.now.nodes }
        ensures { result.now ≡ id_at node self.now.nodes }
    {
        self.ids[node as usize].as_str()
    }

    /// The same graph with another result node, as for one asset of a job that has several. Takes no memory.
    pub fn with_result(self, node: u32) -> Checked
        requires { node < node_count self.nodes }
        ensures { result ≡ record self { result = node } }
    {
        let mut checked = self;
        checked.result = node;
        checked
    }

    /// What is kept of a node.
    fn node(&self, node: u32) -> &CheckedNode
        requires { node < node_count self.now.nodes }
        ensures shape { arc_value result.now.shape ≡ (outline_of_node self.now node).shape }
        ensures kind { result.now.kind ≡ (outline_of_node self.now node).kind }
        ensures operation { operation_of_node self.now node
            ≡ Some (plain_operation result.now.operation) }
        ensures collection { result.now.collection ≡ collection_of_node self.now node }
    {
        match &self.states[node as usize] {
            NodeState::Sound(node) => node,
            _ => unreachable!(),
        }
    }

    /// The shape of the cube of a node, found without its cells.
    pub fn shape(&self, node: u32) -> &Shape
        requires { node < node_count self.now.nodes }
        ensures { result.now ≡ (outline_of_node self.now node).shape }
    {
        &self.node(node).shape
    }

    /// The kind of the cells of a node's cube: each is null, Over or of it.
    pub fn kind(&self, node: u32) -> CellKind
        requires { node < node_count self.now.nodes }
        ensures { result ≡ (outline_of_node self.now node).kind }
    {
        self.node(node).kind
    }

    /// The operation of a node, on the cubes of the nodes that it refers to, or on the collection that it loads.
    pub fn operation(&self, node: u32) -> &Operation
        requires { node < node_count self.now.nodes }
        ensures { operation_of_node self.now node ≡ Some (plain_operation result.now) }
    {
        &self.node(node).operation
    }

    /// The id of the collection that a node loads, `None` exactly where it is no `load_collection`.
    pub fn collection(&self, node: u32) -> Option<&Text>
        requires { node < node_count self.now.nodes }
        ensures { option_map (λ id. id.now) result ≡ collection_of_node self.now node }
    {
        self.node(node).collection.as_ref()
    }

    /// Whether a node needs the whole side of its inputs along a dimension for each part of its cube: a reduction along
    /// the dimension, an aggregation along t, a kernel whose border wraps along x and y, and a merge along a dimension
    /// that both cubes have with other label sets. Takes no memory.
    pub fn whole(&self, node: u32, along: Kind) -> bool
        requires { node < node_count self.now.nodes }
        ensures { whole_of_node self.now node along ≡ Some result }
    {
        match self.operation(node) {
            Operation::Convolve { border, .. } => is_wrap(*border) && is_spatial(along),
            Operation::Reduce(kind, _) => same_kind(*kind, along),
            Operation::Aggregate(..) => same_kind(Kind::Time, along),
            Operation::Accumulate(_) => same_kind(Kind::Time, along),
            Operation::Merge(_) => self.merge_differs(node, along),
            Operation::Keep(_) => false,
            Operation::EachCell(_) => false,
            Operation::Cover(_) => false,
            Operation::GiveBack => false,
        }
    }

    /// The label sets of the cubes that a node merges differ along a dimension that both have.
    fn merge_differs(&self, node: u32, along: Kind) -> bool
        requires within { node < node_count self.now.nodes }
        requires merges { IsMerge self.now node }
        ensures { whole_of_node self.now node along ≡ Some result }
    {
        let inputs = &self.links[node as usize].arguments;
        let one = self.shape(inputs[0]);
        let two = self.shape(inputs[1]);
        differ_along(along, one, two, self.shape(node))
    }

    /// By how many pixels the operation of a node reaches to each side along x and along y, 0 to 15: as far as the
    /// kernel of `apply_kernel` does, and 0 for each other process.
    pub fn halo(&self, node: u32) -> (u32, u32)
        requires { node < node_count self.now.nodes }
        ensures x { halo_of_node self.now node X ≡ Some result.0 }
        ensures y { halo_of_node self.now node Y ≡ Some result.1 }
    {
        match self.operation(node) {
            Operation::Convolve { kernel, .. } => (kernel.radius_x(), kernel.radius_y()),
            _ => (0, 0),
        }
    }

    /// The reducer of a node that reduces t date by date, and whether it ignores nulls: of a `reduce_dimension` along t
    /// whose callback is one node that reduces the list cell by cell. `None` of every other node.
    pub fn time_fold(&self, node: u32) -> Option<(Reducer, bool)>
        requires { node < node_count self.now.nodes }
        ensures { result ≡ time_fold_of_node self.now node }
    {
        time_fold(self.operation(node))
    }

    /// For each node whether it loads a collection, and the nodes whose cubes it works on, in the order in which its
    /// operation takes them: what the order of a run is made of. No references lead from a node back to itself.
    pub fn links(&self) -> &[Links]
        ensures links { graph_of result.now ≡ links_of self.now.nodes }
        ensures count { length result.now ≡ node_count self.now.nodes }
        ensures named { RefersWithin (graph_of result.now) }
        ensures acyclic { IsAcyclic (graph_of result.now) }
    {
        &self.links
    }
}

/// The index of an id among ids in byte order.
fn index_among(ids: &[Text], id: &str) -> Option<u32>
    requires rising { names_rise ids.now ≡ true }
    requires few { length ids.now < 4294967296 }
    ensures { result ≡ index_where (λ name. same_name name id.now) ids.now }
{
    match ids.binary_search_by(|name| name.as_str().cmp(id)) {
        Ok(found) => Some(found as u32),
        Err(_) => None,
    }
}
