// Nodes that are written by other processes.
ghost use Rattle.std.specs.Prelude.{◌≡◌, ◌++◌, ◌∷◌, [], true, Some, IfOk, OnOk, All, codes, map, option_map, slice_get};
ghost use Rattle.oe_dims.specs.Dimensions.{number_labels};
ghost use Rattle.oe_dims.specs.Instant.{IsInstant};
ghost use Rattle.oe_dims.specs.Names.{same_name};
ghost use Rattle.oe_dims.specs.declared.kind.Kind.TheVariants.{Time};
ghost use Rattle.oe_graph.specs.Plain.{plain_named, plain_node, plain_nodes, plain_pair};
ghost use Rattle.oe_graph.specs.References.{each_node};
ghost use Rattle.oe_graph.specs.Tree as tree;
ghost use Rattle.oe_expr.specs.Requests.{read};
ghost use Rattle.oe_check.specs.Checked.{AreFaultless};
ghost use Rattle.oe_requests.specs.Parameters.{cube_in};
ghost use Rattle.oe_translate.specs.Translated as spec;
ghost use Rattle.oe_translate.specs.Written as written;
ghost use Rattle.oe_translate.specs.Written.{IsWritable};

use crate::order::put_node;
use crate::written::{
    extents_arg, growing_intervals, labels_arg, push_argument, push_given, sum_callback,
    sum_where_number,
};
use oe_check::Checked;
use oe_dims::{Kind, Shape, Text, copy_text};
use oe_graph::{Arg, Node, argument_named, copy_arg};
use oe_memory::OutOfMemory;
use oe_requests::{Interval, Operation};
use std::alloc::Global;

/// A node of calendar periods.
pub(crate) fn is_of_periods(node: &Node) -> bool
    ensures { result ≡ spec.is_of_periods (plain_node node.now) }
{
    is_named(node.process_id.as_str(), "aggregate_temporal_period")
}

/// A node of running sums.
pub(crate) fn is_of_sums(node: &Node) -> bool
    ensures { result ≡ spec.is_of_sums (plain_node node.now) }
{
    is_named(node.process_id.as_str(), "apply_dimension")
}

fn is_named(id: &str, name: &str) -> bool
    ensures { result ≡ same_name id.now name.now }
{
    id == name
}

// ---- what was found for a node

/// The name of the node whose cube a node works on.
fn data_of(node: &Node) -> Option<&str>
    ensures { option_map (λ s. s.now) result
        ≡ read cube_in (codes "data") (plain_node node.now).arguments }
{
    match argument_named(&node.arguments, "data")? {
        Arg::FromNode(id) => Some(id.as_str()),
        _ => None,
    }
}

/// The shape of that cube.
fn data_shape<'a>(checked: &'a Checked, index: u32, node: &Node) -> &'a Shape
    requires faultless { AreFaultless checked.now }
    requires there { slice_get (each_node checked.now.nodes) index
        ≡ Some (plain_node node.now) }
    requires either { spec.is_of_either (plain_node node.now) ≡ true }
    ensures value { number_labels result.now Time
        ≡ spec.labels_at checked.now.rows checked.now.nodes (plain_node node.now) }
{
    match data_of(node) {
        Some(id) => match checked.find(id) {
            Some(data) => checked.shape(data),
            None => unreachable!(),
        },
        None => unreachable!(),
    }
}

/// The labels of t of that cube.
fn labels_at<'a>(checked: &'a Checked, index: u32, node: &Node) -> &'a [i64]
    requires faultless { AreFaultless checked.now }
    requires there { slice_get (each_node checked.now.nodes) index
        ≡ Some (plain_node node.now) }
    requires either { spec.is_of_either (plain_node node.now) ≡ true }
    ensures value { result.now
        ≡ spec.labels_at checked.now.rows checked.now.nodes (plain_node node.now) }
    ensures instants { All IsInstant result.now }
{
    data_shape(checked, index, node).labels(Kind::Time)
}

/// The calendar periods of a node as intervals.
fn periods_at<'a>(checked: &'a Checked, index: u32, node: &Node) -> &'a [Interval]
    requires faultless { AreFaultless checked.now }
    requires there { slice_get (each_node checked.now.nodes) index
        ≡ Some (plain_node node.now) }
    requires periods { spec.is_of_periods (plain_node node.now) ≡ true }
    ensures value { result.now
        ≡ spec.periods_at checked.now.rows checked.now.nodes (plain_node node.now) }
{
    match checked.operation(index) {
        Operation::Aggregate(intervals, _) => intervals.as_slice(),
        _ => unreachable!(),
    }
}

/// Whether the running sums of a node ignore nulls.
fn ignores_at(checked: &Checked, index: u32, node: &Node) -> bool
    requires faultless { AreFaultless checked.now }
    requires there { slice_get (each_node checked.now.nodes) index
        ≡ Some (plain_node node.now) }
    requires sums { spec.is_of_sums (plain_node node.now) ≡ true }
    ensures { result ≡ spec.ignores_at (plain_node node.now) }
{
    match checked.operation(index) {
        Operation::Accumulate(ignore) => *ignore,
        _ => unreachable!(),
    }
}

// ---- the nodes

/// Puts the intervals of `aggregate_temporal` and their labels behind its other arguments.
fn push_intervals(
    arguments: &mut Vec<(Text, Arg)>,
    alloc: Global,
    intervals: &[Interval],
) -> Result<(), OutOfMemory>
    requires { All IsWritable intervals.now }
    ensures { OnOk result (map plain_pair arguments.new.items
        ≡ (map plain_pair arguments.old.items
        ++ (codes "intervals", written.list_of written.extent_argument intervals.now) ∷ [])
        ++ (codes "labels", written.list_of written.label_argument intervals.now) ∷ []) }
{
    push_argument(
        arguments,
        alloc,
        "intervals",
        extents_arg(alloc, intervals)?,
    )?;
    push_argument(arguments, alloc, "labels", labels_arg(alloc, intervals)?)?;
    Ok(())
}

/// A node in the namespace of another.
fn node_beside(
    alloc: Global,
    id: Text,
    process_id: &str,
    node: &Node,
    arguments: Vec<(Text, Arg)>,
) -> Result<Node, OutOfMemory>
    ensures { IfOk result (λ n. plain_node n ≡ record {
      id = id;
      process_id = process_id.now;
      namespace = (plain_node node.now).namespace;
      arguments = plain_named arguments.items;
    }) }
{
    Ok(Node {
        id,
        process_id: Text::of(alloc, process_id)?,
        namespace: copy_text(&node.namespace)?,
        arguments,
    })
}

/// The arguments of a node of calendar periods with these as its intervals.
fn period_arguments(
    alloc: Global,
    intervals: &[Interval],
    arguments: &Vec<(Text, Arg)>,
) -> Result<Vec<(Text, Arg)>, OutOfMemory>
    requires { All IsWritable intervals.now }
    ensures { IfOk result (λ v. plain_named v.items
        ≡ written.period_arguments intervals.now (plain_named arguments.now.items)) }
{
    let mut found = Vec::with_capacity(alloc, 6)?;
    push_given(&mut found, alloc, "context", arguments, "context")?;
    push_given(&mut found, alloc, "data", arguments, "data")?;
    push_given(&mut found, alloc, "dimension", arguments, "dimension")?;
    push_intervals(&mut found, alloc, intervals)?;
    push_given(&mut found, alloc, "reducer", arguments, "reducer")?;
    Ok(found)
}

/// A node of calendar periods as the aggregation over these intervals.
fn aggregated_node(alloc: Global, intervals: &[Interval], node: &Node) -> Result<Node, OutOfMemory>
    requires { All IsWritable intervals.now }
    ensures { IfOk result
        (λ n. plain_node n ≡ written.aggregated_node intervals.now (plain_node node.now)) }
{
    let arguments = period_arguments(alloc, intervals, &node.arguments)?;
    let id = node.id.copy()?;
    node_beside(alloc, id, "aggregate_temporal", node, arguments)
}

/// A node of calendar periods as the aggregation over them.
fn periods_node(
    alloc: Global,
    checked: &Checked,
    index: u32,
    node: &Node,
) -> Result<Node, OutOfMemory>
    requires faultless { AreFaultless checked.now }
    requires there { slice_get (each_node checked.now.nodes) index
        ≡ Some (plain_node node.now) }
    requires periods { spec.is_of_periods (plain_node node.now) ≡ true }
    ensures { IfOk result (λ n. plain_node n ≡ written.aggregated_node
        (spec.periods_at checked.now.rows checked.now.nodes (plain_node node.now))
        (plain_node node.now)) }
{
    // The labels are those of a shape, so the periods over them can be written.
    let _labels = labels_at(checked, index, node);
    let intervals = periods_at(checked, index, node);
    aggregated_node(alloc, intervals, node)
}

/// The name of the aggregation of a node of running sums.
fn sum_name(alloc: Global, id: &Text) -> Result<Text, OutOfMemory>
    ensures { IfOk result (λ text. text ≡ written.sum_name id.now) }
{
    let mut name = String::from_str(alloc, id.as_str())?;
    name.push_str("/sum")?;
    Text::of(alloc, name.as_str())
}

/// The aggregation of a node of running sums.
fn sums_node(alloc: Global, ignore: bool, labels: &[i64], node: &Node) -> Result<Node, OutOfMemory>
    requires { All IsInstant labels.now }
    ensures { IfOk result
        (λ n. plain_node n ≡ written.sums_node ignore labels.now (plain_node node.now)) }
{
    let arguments = sums_arguments(alloc, ignore, labels, &node.arguments)?;
    node_beside(
        alloc,
        sum_name(alloc, &node.id)?,
        "aggregate_temporal",
        node,
        arguments,
    )
}

/// The arguments of the aggregation that running sums are, of the arguments of their node.
fn sums_arguments(
    alloc: Global,
    ignore: bool,
    labels: &[i64],
    arguments: &Vec<(Text, Arg)>,
) -> Result<Vec<(Text, Arg)>, OutOfMemory>
    requires { All IsInstant labels.now }
    ensures { IfOk result (λ v. plain_named v.items ≡ written.aggregate_arguments tree.null
        (written.given (codes "data") (plain_named arguments.now.items)) tree.null
        (written.growing_intervals labels.now) (written.sum_callback ignore)) }
{
    let intervals = growing_intervals(alloc, labels)?;
    let mut found = Vec::with_capacity(alloc, 6)?;
    push_argument(&mut found, alloc, "context", Arg::Null)?;
    push_given(&mut found, alloc, "data", arguments, "data")?;
    push_argument(&mut found, alloc, "dimension", Arg::Null)?;
    push_intervals(&mut found, alloc, &intervals)?;
    push_argument(&mut found, alloc, "reducer", sum_callback(alloc, ignore)?)?;
    Ok(found)
}

/// A node of running sums as the merge of its aggregation with its data.
fn merged_node(alloc: Global, node: &Node) -> Result<Node, OutOfMemory>
    ensures { IfOk result (λ n. plain_node n ≡ written.merged_node (plain_node node.now)) }
{
    let mut arguments = Vec::with_capacity(alloc, 4)?;
    push_argument(&mut arguments, alloc, "context", Arg::Null)?;
    push_argument(
        &mut arguments,
        alloc,
        "cube1",
        Arg::FromNode(sum_name(alloc, &node.id)?),
    )?;
    push_given(&mut arguments, alloc, "cube2", &node.arguments, "data")?;
    push_argument(
        &mut arguments,
        alloc,
        "overlap_resolver",
        sum_where_number(alloc)?,
    )?;
    node_beside(alloc, node.id.copy()?, "merge_cubes", node, arguments)
}

/// A copy of a node.
fn copy_node(alloc: Global, node: &Node) -> Result<Node, OutOfMemory>
    ensures { IfOk result (λ n. plain_node n ≡ plain_node node.now) }
{
    let arguments = copy_arguments(alloc, &node.arguments)?;
    node_beside(
        alloc,
        node.id.copy()?,
        node.process_id.as_str(),
        node,
        arguments,
    )
}

fn copy_arguments(
    alloc: Global,
    arguments: &Vec<(Text, Arg)>,
) -> Result<Vec<(Text, Arg)>, OutOfMemory>
    ensures { IfOk result (λ v. plain_named v.items ≡ plain_named arguments.now.items) }
{
    let mut copy = Vec::with_capacity(alloc, arguments.len())?;
    for argument in arguments {
        let name = argument.0.copy()?;
        copy.push((name, copy_arg(alloc, &argument.1)?))?;
    }
    Ok(copy)
}

/// Puts what a node becomes at the indices that the ids have in byte order.
pub(crate) fn put_translated(
    alloc: Global,
    checked: &Checked,
    index: u32,
    node: &Node,
    found: &mut Vec<Node>,
) -> Result<(), OutOfMemory>
    requires faultless { AreFaultless checked.now }
    requires there { slice_get (each_node checked.now.nodes) index
        ≡ Some (plain_node node.now) }
    ensures { OnOk result (plain_nodes found.new.items
        ≡ spec.put_translated checked.now.rows checked.now.nodes (plain_node node.now)
        (plain_nodes found.old.items)) }
{
    if is_of_periods(node) {
        put_node(found, periods_node(alloc, checked, index, node)?)
    } else if is_of_sums(node) {
        put_sums(alloc, checked, index, node, found)
    } else {
        put_node(found, copy_node(alloc, node)?)
    }
}

/// Puts both nodes that a node of running sums becomes.
fn put_sums(
    alloc: Global,
    checked: &Checked,
    index: u32,
    node: &Node,
    found: &mut Vec<Node>,
) -> Result<(), OutOfMemory>
    requires faultless { AreFaultless checked.now }
    requires there { slice_get (each_node checked.now.nodes) index
        ≡ Some (plain_node node.now) }
    requires sums { spec.is_of_sums (plain_node node.now) ≡ true }
    ensures { OnOk result (plain_nodes found.new.items
        ≡ spec.put_sums checked.now.rows checked.now.nodes (plain_node node.now)
        (plain_nodes found.old.items)) }
{
    let ignore = ignores_at(checked, index, node);
    let labels = labels_at(checked, index, node);
    let sums = sums_node(alloc, ignore, labels, node)?;
    put_node(found, sums)?;
    let merged = merged_node(alloc, node)?;
    put_node(found, merged)
}
