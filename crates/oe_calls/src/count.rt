// How many nodes graphs have after expansion, counted before anything is built.
ghost use Rattle.std.specs.Prelude.{◌≡◌, ◌↔◌, ◌+◌, ℕ, true, [], IfOk, length, map, min};
ghost use Rattle.std.specs.Option.{option_map_or};
ghost use Rattle.oe_graph.specs.Plain.{plain_arg, plain_args, plain_graph, plain_named, plain_node, plain_nodes, plain_stored};
ghost use Rattle.oe_graph.specs.Tree.{PlainStored};
ghost use Rattle.oe_graph.specs.declared.code.Code.TheVariants.{GraphTooLarge};
ghost use Rattle.oe_order.specs.Graph.{graph_of};
ghost use Rattle.oe_calls.specs.Calls.{callee};
ghost use Rattle.oe_calls.specs.NodeCounts as spec;
ghost use Rattle.oe_calls.specs.Faults.{StandsWithStored};
ghost use Rattle.oe_calls.specs.Reached.{IsCallGraph};
ghost use Rattle.oe_graph.specs.Valid.{AreValidStored};

use crate::calls::callee_index;
use crate::reach::{CallGraph, reach};
use oe_dims::Text;
use oe_graph::{Arg, Graph, Node, StoredProcess};
use oe_memory::OutOfMemory;
use std::alloc::Global;

/// Most nodes of the main graph, and one more than a count is ever told apart.
const MOST_NODES: u32 = 256;

const MOST_CALLBACK_NODES: u32 = 64;

const ENOUGH: u32 = 257;

/// How many nodes each stored process gives, or 257 where these are more.
fn counts(alloc: Global, stored: &[StoredProcess]) -> Result<Vec<u32>, OutOfMemory>
    ensures len { IfOk result (λ v. length v.items ≡ length stored.now) }
    ensures sizes { IfOk result (λ v. v.items
        ≡ map (spec.size_by (map plain_stored stored.now) (length stored.now))
        (map plain_stored stored.now)) }
{
    let mut counts = vec![in alloc; 1; stored.len()]?;
    for _round in 0..stored.len() {
        counts = more_counts(alloc, stored, counts.as_slice())?;
    }
    Ok(counts)
}

fn more_counts(
    alloc: Global,
    stored: &[StoredProcess],
    counts: &[u32],
) -> Result<Vec<u32>, OutOfMemory>
    requires each { length counts.now ≡ length stored.now }
    ensures len { IfOk result (λ v. length v.items ≡ length stored.now) }
    ensures sizes { let all = map plain_stored stored.now in
        IfOk result (λ v. (size : PlainStored → ℕ) → counts.now ≡ map size all
        → v.items ≡ map (λ s. spec.total all size s.graph.nodes) all) }
{
    let mut more = Vec::with_capacity(alloc, stored.len())?;
    for process in stored {
        more.push(total(stored, counts, &process.graph.nodes))?;
    }
    Ok(more)
}

/// How many nodes a graph object has where each call counts so many.
fn total(stored: &[StoredProcess], counts: &[u32], nodes: &Vec<Node>) -> u32
    requires each { length counts.now ≡ length stored.now }
    ensures { (size : PlainStored → ℕ) → counts.now ≡ map size (map plain_stored stored.now)
        → result ≡ spec.total (map plain_stored stored.now) size (plain_nodes nodes.now.items) }
{
    let mut total = 0;
    for node in nodes {
        total = cut_sum(total, count_of(stored, counts, node));
    }
    total
}

/// How many nodes a node gives.
fn count_of(stored: &[StoredProcess], counts: &[u32], node: &Node) -> u32
    requires each { length counts.now ≡ length stored.now }
    ensures { (size : PlainStored → ℕ) → counts.now ≡ map size (map plain_stored stored.now)
        → result ≡ option_map_or size (callee (map plain_stored stored.now) node.now.namespace
        node.now.process_id) 1 }
{
    match callee_index(stored, node) {
        Some(index) => counts[index],
        None => 1,
    }
}

/// A sum, or 257 where it is more.
fn cut_sum(total: u32, more: u32) -> u32
    ensures { result ≡ min spec.enough (total + more) }
{
    if total >= ENOUGH || more >= ENOUGH - total {
        ENOUGH
    } else {
        total + more
    }
}

/// Whether the main graph or a callback, as it is written in the graph or in a process that calls reach, has more nodes
/// after expansion than it may.
///
/// Refuses: out of memory.
pub fn is_too_large(
    alloc: Global,
    stored: &[StoredProcess],
    calls: &CallGraph,
    graph: &Graph,
) -> Result<bool, OutOfMemory>
    requires stored_valid { AreValidStored (map plain_stored stored.now) }
    requires calls { IsCallGraph (map plain_stored stored.now) (graph_of calls.now.links.items)
        calls.now.supported.items }
    ensures { IfOk result (λ b. b ≡ true
        ↔ StandsWithStored (map plain_stored stored.now) (plain_graph graph.now) GraphTooLarge []) }
{
    let counts = counts(alloc, stored)?;
    if total(stored, counts.as_slice(), &graph.nodes) > MOST_NODES {
        return Ok(true);
    }
    if !fit_nodes(stored, counts.as_slice(), &graph.nodes) {
        return Ok(true);
    }
    for node in &graph.nodes {
        let found = reach(alloc, stored, calls, node)?;
        for index in &found {
            let process = &stored[(*index / 2) as usize];
            if !fit_nodes(stored, counts.as_slice(), &process.graph.nodes) {
                return Ok(true);
            }
        }
    }
    Ok(false)
}

/// Whether the callbacks in these nodes have no more nodes than they may.
#[cycle(fits)]
fn fit_nodes(stored: &[StoredProcess], counts: &[u32], nodes: &Vec<Node>) -> bool
    requires each { length counts.now ≡ length stored.now }
    ensures { (size : PlainStored → ℕ) → counts.now ≡ map size (map plain_stored stored.now)
        → result ≡ spec.fit_nodes (map plain_stored stored.now) size (plain_nodes nodes.now.items) }
{
    for node in nodes {
        if !node_fits(stored, counts, node) {
            return false;
        }
    }
    true
}

#[cycle(fits)]
fn node_fits(stored: &[StoredProcess], counts: &[u32], node: &Node) -> bool
    requires each { length counts.now ≡ length stored.now }
    ensures { (size : PlainStored → ℕ) → counts.now ≡ map size (map plain_stored stored.now)
        → result
        ≡ spec.fit_named (map plain_stored stored.now) size (plain_node node.now).arguments }
{
    fit_named(stored, counts, &node.arguments)
}

#[cycle(fits)]
fn fit_named(stored: &[StoredProcess], counts: &[u32], members: &Vec<(Text, Arg)>) -> bool
    requires each { length counts.now ≡ length stored.now }
    ensures { (size : PlainStored → ℕ) → counts.now ≡ map size (map plain_stored stored.now)
        → result ≡ spec.fit_named (map plain_stored stored.now) size
        (plain_named members.now.items) }
{
    for member in members {
        if !fits_arg(stored, counts, &member.1) {
            return false;
        }
    }
    true
}

#[cycle(fits)]
fn fit_args(stored: &[StoredProcess], counts: &[u32], items: &Vec<Arg>) -> bool
    requires each { length counts.now ≡ length stored.now }
    ensures { (size : PlainStored → ℕ) → counts.now ≡ map size (map plain_stored stored.now)
        → result ≡ spec.fit_each (map plain_stored stored.now) size (plain_args items.now.items) }
{
    for item in items {
        if !fits_arg(stored, counts, item) {
            return false;
        }
    }
    true
}

#[cycle(fits)]
fn fits_arg(stored: &[StoredProcess], counts: &[u32], arg: &Arg) -> bool
    requires each { length counts.now ≡ length stored.now }
    ensures { (size : PlainStored → ℕ) → counts.now ≡ map size (map plain_stored stored.now)
        → result ≡ spec.fits (map plain_stored stored.now) size (plain_arg arg.now) }
{
    match arg {
        Arg::List(items) => fit_args(stored, counts, items),
        Arg::Object(members) => fit_named(stored, counts, members),
        Arg::Callback(graph) => {
            total(stored, counts, &graph.nodes) <= MOST_CALLBACK_NODES
                && fit_nodes(stored, counts, &graph.nodes)
        }
        _ => true,
    }
}
