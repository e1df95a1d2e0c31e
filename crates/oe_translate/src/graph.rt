// A graph whose calendar periods and running sums are written by other processes.
ghost use Rattle.std.specs.Prelude.{◌≡◌, ◌<◌, ◌+◌, false, IfErr, IfOk, OnOk};
ghost use Rattle.std.specs.List.{list_any};
ghost use Rattle.oe_dims.specs.Dimensions.{IsShape};
ghost use Rattle.oe_dims.specs.Plain.{plain_rows};
ghost use Rattle.oe_graph.specs.Plain.{plain_graph, plain_nodes};
ghost use Rattle.oe_graph.specs.Printed.{node_count};
ghost use Rattle.oe_graph.specs.Read.{IsFault, IsFaultless};
ghost use Rattle.oe_graph.specs.References.{each_node};
ghost use Rattle.oe_graph.specs.Resolved.{IsResolved};
ghost use Rattle.oe_check.specs.Checked.{AreFaultless};
ghost use Rattle.oe_meanings.specs.Stands.{StandsInGraph};
ghost use Rattle.oe_translate.specs.Laws.{HasFewNodes, HasRoomForSums, HaveValidShapes};
ghost use Rattle.oe_translate.specs.Translated as spec;

use crate::order::index_of;
use crate::rewrite::{is_of_periods, is_of_sums, put_translated};
use oe_check::{Checked, check};
use oe_dims::{Dims, DimsRow, Kind};
use oe_graph::{Graph, Node, Refusal};
use oe_memory::OutOfMemory;
use std::alloc::Global;

/// The graph over the collections of these rows in which each `aggregate_temporal_period` is an `aggregate_temporal`
/// over its periods, and each `apply_dimension` of running sums, n, the merge of an `aggregate_temporal`, `n/sum`, with
/// its data (openEO Processes). All other nodes stay as they are. Looks at no cell.
///
/// Refuses: out of memory.
pub fn translate(alloc: Global, graph: &Graph, dims: &Dims) -> Result<Graph, OutOfMemory>
    requires resolved { IsResolved (plain_graph graph.now) }
    requires faultless { IsFaultless
        (StandsInGraph (plain_rows dims.now) (plain_graph graph.now).nodes) }
    ensures value { IfOk result
        (λ g. plain_graph g ≡ spec.translated (plain_rows dims.now) (plain_graph graph.now)) }
    ensures neither { IfOk result (λ g. spec.has_either (plain_graph g) ≡ false) }
{
    match check(alloc, graph, dims) {
        Ok(checked) => translate_checked(alloc, graph, &checked),
        Err(Refusal::OutOfMemory) => Err(OutOfMemory),
        Err(Refusal::Fault(_)) => unreachable!(),
    }
}

fn translate_checked(alloc: Global, graph: &Graph, checked: &Checked) -> Result<Graph, OutOfMemory>
    requires nodes { checked.now.nodes ≡ (plain_graph graph.now).nodes }
    requires result_node { checked.now.result ≡ (plain_graph graph.now).result }
    ensures { IfOk result
        (λ g. plain_graph g ≡ spec.translated checked.now.rows (plain_graph graph.now)) }
{
    let nodes = translated_nodes(alloc, &graph.nodes, checked)?;
    let result = index_of(&nodes, checked.id(checked.result()));
    // As many nodes as do not fit this type do not fit the memory either.
    match u32::try_from(result) {
        Ok(result) => Ok(graph_of(nodes, result)),
        Err(_) => Err(OutOfMemory),
    }
}

fn graph_of(nodes: Vec<Node>, result_index: u32) -> Graph
    ensures { plain_graph result
        ≡ record { nodes = plain_nodes nodes.items; result = result_index } }
{
    Graph {
        nodes,
        result: result_index,
    }
}

fn translated_nodes(
    alloc: Global,
    nodes: &Vec<Node>,
    checked: &Checked,
) -> Result<Vec<Node>, OutOfMemory>
    requires { checked.now.nodes ≡ plain_nodes nodes.now.items }
    ensures { IfOk result
        (λ v. plain_nodes v.items ≡ spec.translated_nodes checked.now.rows checked.now.nodes) }
{
    let mut found = Vec::with_capacity(alloc, nodes.len())?;
    let mut index = checked.nodes();
    while index > 0 {
        index -= 1;
        put_at(alloc, checked, index, nodes, &mut found)?;
    }
    Ok(found)
}

/// Puts what the node at an index becomes, where what those behind it become is put.
fn put_at(
    alloc: Global,
    checked: &Checked,
    index: u32,
    nodes: &Vec<Node>,
    found: &mut Vec<Node>,
) -> Result<(), OutOfMemory>
    requires faultless { AreFaultless checked.now }
    requires same { checked.now.nodes ≡ plain_nodes nodes.now.items }
    requires below { index < node_count checked.now.nodes }
    ensures { let from = spec.translations_from checked.now.rows checked.now.nodes in
        OnOk result (plain_nodes found.old.items ≡ from (index + 1)
        → plain_nodes found.new.items ≡ from index) }
{
    put_translated(alloc, checked, index, &nodes[index as usize], found)?;
    Ok(())
}

// ---- checks of the translated graph

/// The checked graph of the translation of a graph over the collections of these rows ([`translate`]), where no fault
/// stands in the graph as it was sent (openEO Processes). A graph with neither process is its own translation, and is
/// checked once. Looks at no cell.
///
/// Refuses: with the least fault of the graph as it was sent, exactly where one stands; out of memory.
pub fn check_all(alloc: Global, graph: &Graph, dims: &Dims) -> Result<Checked, Refusal>
    requires resolved { IsResolved (plain_graph graph.now) }
    requires room { HasRoomForSums (plain_graph graph.now).nodes }
    requires few { HasFewNodes (plain_rows dims.now) (plain_graph graph.now).nodes }
    ensures checked { IfOk result (λ checked. checked ≡ record {
      nodes = (spec.translated (plain_rows dims.now) (plain_graph graph.now)).nodes;
      result = (spec.translated (plain_rows dims.now) (plain_graph graph.now)).result;
      rows = plain_rows dims.now;
    }) }
    ensures faultless { IfOk result AreFaultless }
    // no fault stands in the graph as it was sent
    ensures none { IfOk result (λ checked. IsFaultless
        (StandsInGraph (plain_rows dims.now) (plain_graph graph.now).nodes)) }
    ensures refused { IfErr result
        (IsFault (StandsInGraph (plain_rows dims.now) (plain_graph graph.now).nodes)) }
{
    let checked = check(alloc, graph, dims)?;
    if has_either(&graph.nodes) {
        Ok(check_translated(alloc, graph, &checked, dims)?)
    } else {
        Ok(checked)
    }
}

/// A node is one of calendar periods or of running sums.
fn has_either(nodes: &Vec<Node>) -> bool
    ensures { result ≡ list_any spec.is_of_either (each_node (plain_nodes nodes.now.items)) }
{
    for index in 0..nodes.len() {
        if is_of_periods(&nodes[index]) || is_of_sums(&nodes[index]) {
            return true;
        }
    }
    false
}

/// The check of the translation of a graph that was checked, in which no fault stands.
fn check_translated(
    alloc: Global,
    graph: &Graph,
    checked: &Checked,
    dims: &Dims,
) -> Result<Checked, OutOfMemory>
    requires same { checked.now ≡ record {
      nodes = (plain_graph graph.now).nodes;
      result = (plain_graph graph.now).result;
      rows = plain_rows dims.now;
    } }
    requires faultless { AreFaultless checked.now }
    requires room { HasRoomForSums (plain_graph graph.now).nodes }
    requires few { HasFewNodes (plain_rows dims.now) (plain_graph graph.now).nodes }
    ensures checked { IfOk result (λ other. other ≡ record {
      nodes = (spec.translated (plain_rows dims.now) (plain_graph graph.now)).nodes;
      result = (spec.translated (plain_rows dims.now) (plain_graph graph.now)).result;
      rows = plain_rows dims.now;
    }) }
    ensures faultless { IfOk result AreFaultless }
{
    look_at_shapes(dims);
    let translated = translate_checked(alloc, graph, checked)?;
    match check(alloc, &translated, dims) {
        Ok(other) => Ok(other),
        Err(Refusal::OutOfMemory) => Err(OutOfMemory),
        Err(Refusal::Fault(_)) => unreachable!(),
    }
}

/// Looks at the shape of each collection. Its contract says that all are valid, as their type keeps it.
fn look_at_shapes(dims: &Dims)
    ensures { HaveValidShapes (plain_rows dims.now) }
{
    for row in &dims.rows {
        look_at_row(row);
    }
}

fn look_at_row(row: &DimsRow)
    ensures { IsShape row.now.shape }
{
    let _count = row.shape.count(Kind::Time);
}
