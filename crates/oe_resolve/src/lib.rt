//! Process graphs resolved: calls of stored processes replaced by their graphs, and all names made to lead somewhere.
#![tactic(auto)]

mod cycle;
mod dangling;
mod defaults;
mod faults_of_names;

ghost use Rattle.std.specs.Prelude.{◌≡◌, ℕ, true, List, [], None, IfOk, IfErr, Contains, map};
ghost use Rattle.oe_graph.specs.Faults.{IsLeastFault};
ghost use Rattle.oe_graph.specs.declared.code.Code.{Code};
ghost use Rattle.oe_graph.specs.Plain.{plain_graph, plain_stored};
ghost use Rattle.oe_graph.specs.Read.{IsFault};
ghost use Rattle.oe_graph.specs.References.{each_node};
ghost use Rattle.oe_graph.specs.Resolved.{IsResolved};
ghost use Rattle.oe_graph.specs.Tree.{PlainGraph, PlainNode, PlainStored};
ghost use Rattle.oe_calls.specs.Calls.{Calls};
ghost use Rattle.oe_calls.specs.Faults.{StandsWithStored};
ghost use Rattle.oe_calls.specs.HasCall.{nodes_call};
ghost use Rattle.oe_resolve.specs.Expansion.{IsExpansion, IsSettled};
ghost use Rattle.oe_resolve.specs.Defaults as spec;
ghost use Rattle.oe_resolve.specs.NameFaults.{IdsRise, OfObject};
ghost use Rattle.oe_calls.specs.Rounds as rounds;
ghost use Rattle.oe_calls.specs.Sizes.{IsWithinLimits};
ghost use Rattle.oe_graph.specs.Valid.{IsValidGraph, AreValidStored};

use oe_calls::{
    call_fault, has_call, is_too_large, keep_limits, keep_limits_in_round, read_calls, round,
};
use oe_dims::Text;
use oe_graph::{Code, Fault, Graph, Refusal, StoredProcess, least};
use oe_memory::OutOfMemory;
use std::alloc::Global;

/// Most rounds, after which calls that are left are out of memory.
const MOST_ROUNDS: usize = 1048576;

/// The graph with each call of a stored process replaced by its graph and with all defaults (openEO API, process graphs
/// and user-defined processes).
///
/// Refuses: the least fault of the processes that it calls, of its size and of its names, exactly where one stands; out
/// of memory, also where the graph or an expansion of it would hold over 1,048,576 values in its arguments, of which a
/// node of a callback is one, over 16,777,216 bytes of texts among them, or as many of names in them.
pub fn resolve(alloc: Global, graph: &Graph, stored: &[StoredProcess]) -> Result<Graph, Refusal>
    requires graph_valid { IsValidGraph (plain_graph graph.now) }
    requires stored_valid { AreValidStored (map plain_stored stored.now) }
    // What Ok gives: the expanded graph, in which all names lead somewhere.
    ensures graph { IfOk result (λ g. plain_graph g
        ≡ spec.resolved (map plain_stored stored.now) (plain_graph graph.now)) }
    ensures resolved { IfOk result (λ g. IsResolved (plain_graph g)) }
    // It calls no stored process, at any depth of callbacks.
    ensures calls_none { IfOk result (λ g. (n : PlainNode) (s : PlainStored)
        → Contains (each_node (plain_graph g).nodes) n
        → ¬ Calls (map plain_stored stored.now) n s) }
    // Before its defaults it holds no more than it may.
    ensures within { IfOk result (λ g. IsWithinLimits
        (rounds.expanded (map plain_stored stored.now) (plain_graph graph.now))) }
    // Ok comes exactly where no fault stands, else the least one.
    ensures without_fault { IfOk result (λ g. (code : Code) (node : List ℕ)
        → ¬ StandsWithStored (map plain_stored stored.now) (plain_graph graph.now) code node) }
    ensures refused { IfErr result
        (IsFault (StandsWithStored (map plain_stored stored.now) (plain_graph graph.now))) }
{
    let calls = read_calls(alloc, stored)?;
    if let Some(fault) = call_fault(alloc, stored, &calls, graph)? {
        return Err(Refusal::Fault(fault));
    }
    if is_too_large(alloc, stored, &calls, graph)? {
        return Err(Refusal::Fault(Fault {
            code: Code::GraphTooLarge,
            node: Text::of(alloc, "")?,
        }));
    }
    keep_limits(graph)?;
    if is_expanded(alloc, stored, graph)? {
        return Ok(defaults::graph_with_defaults(alloc, graph)?);
    }
    let (expanded, fault) = expand(alloc, stored, graph)?;
    if let Some(fault) = fault {
        return Err(Refusal::Fault(fault));
    }
    Ok(defaults::graph_with_defaults(alloc, &expanded)?)
}

/// Whether a graph is its own expansion: it calls no stored process, and no fault of names stands in it. Then no
/// reference of it dangles, and it need not be copied to be judged.
fn is_expanded(alloc: Global, stored: &[StoredProcess], graph: &Graph) -> Result<bool, OutOfMemory>
    requires graph_valid { IsValidGraph (plain_graph graph.now) }
    requires stored_valid { AreValidStored (map plain_stored stored.now) }
    requires within { IsWithinLimits (plain_graph graph.now) }
    ensures { IfOk result (λ is. is ≡ true
        → IsExpansion (map plain_stored stored.now) (plain_graph graph.now) (graph.now, None)) }
{
    if has_call(stored, graph) {
        return Ok(false);
    }
    let fault = names_fault(alloc, stored, true, graph)?;
    Ok(fault.is_none())
}

/// The graph after all rounds, and the least fault of names in any.
fn expand(
    alloc: Global,
    stored: &[StoredProcess],
    graph: &Graph,
) -> Result<(Graph, Option<Fault>), OutOfMemory>
    requires graph_valid { IsValidGraph (plain_graph graph.now) }
    requires stored_valid { AreValidStored (map plain_stored stored.now) }
    requires within { IsWithinLimits (plain_graph graph.now) }
    ensures { IfOk result
        (IsExpansion (map plain_stored stored.now) (plain_graph graph.now)) }
{
    let first = dangling::clear_graph(alloc, graph)?;
    let cleared = clear_where_called(alloc, stored, &first)?;
    let mut expanded = first;
    let mut fault = None;
    let mut times: usize = 0;
    while times < MOST_ROUNDS && has_call(stored, &expanded) {
        let found = names_fault(alloc, stored, false, &expanded)?;
        fault = least(fault, found);
        expanded = next_round(alloc, cleared.as_slice(), &expanded)?;
        times += 1;
    }
    if has_call(stored, &expanded) {
        return Err(OutOfMemory);
    }
    judge_last(alloc, stored, expanded, fault)
}

/// The graph after all rounds with the least fault of names, where this was the least before the last round.
fn judge_last(
    alloc: Global,
    stored: &[StoredProcess],
    expanded: Graph,
    fault: Option<Fault>,
) -> Result<(Graph, Option<Fault>), OutOfMemory>
    requires rise { IdsRise (plain_graph expanded).nodes }
    ensures { IfOk result (λ r. (graph : PlainGraph)
        → IsSettled (map plain_stored stored.now) graph (plain_graph expanded) fault
        → IsExpansion (map plain_stored stored.now) graph r) }
{
    let found = names_fault(alloc, stored, true, &expanded)?;
    Ok((expanded, least(fault, found)))
}

fn names_fault(
    alloc: Global,
    stored: &[StoredProcess],
    last: bool,
    graph: &Graph,
) -> Result<Option<Fault>, OutOfMemory>
    requires rise { IdsRise (plain_graph graph.now).nodes }
    ensures { IfOk result (IsLeastFault (λ f. OfObject (map plain_stored stored.now) last f [] []
        (plain_graph graph.now).nodes)) }
{
    let judge = faults_of_names::Judge { stored, last };
    faults_of_names::names_fault(alloc, &judge, graph)
}

/// The graph after a round. Refuses: out of memory, also where it would hold more than a graph may, which is known before
/// anything is built.
fn next_round(alloc: Global, stored: &[StoredProcess], graph: &Graph) -> Result<Graph, OutOfMemory>
    ensures graph { IfOk result (λ g. plain_graph g
        ≡ rounds.round (map plain_stored stored.now) (plain_graph graph.now)) }
    ensures within { IfOk result (λ g. IsWithinLimits (plain_graph g)) }
{
    keep_limits_in_round(alloc, stored, graph)?;
    round(alloc, stored, graph)
}

/// The stored processes where a graph calls one; else they are not asked for.
fn clear_where_called(
    alloc: Global,
    stored: &[StoredProcess],
    graph: &Graph,
) -> Result<Vec<StoredProcess>, OutOfMemory>
    ensures { IfOk result (λ v.
        nodes_call (map plain_stored stored.now) (plain_graph graph.now).nodes ≡ true
        → map plain_stored v.items ≡ map rounds.cleared_stored (map plain_stored stored.now)) }
{
    if has_call(stored, graph) {
        clear_stored(alloc, stored)
    } else {
        Ok(Vec::new(alloc))
    }
}

/// The stored processes, in whose graphs the references that dangle have the empty id.
fn clear_stored(alloc: Global, stored: &[StoredProcess]) -> Result<Vec<StoredProcess>, OutOfMemory>
    ensures { IfOk result (λ v. map plain_stored v.items
        ≡ map rounds.cleared_stored (map plain_stored stored.now)) }
{
    let mut cleared = Vec::with_capacity(alloc, stored.len())?;
    for process in stored {
        cleared.push(clear_process(alloc, process)?)?;
    }
    Ok(cleared)
}

fn clear_process(alloc: Global, process: &StoredProcess) -> Result<StoredProcess, OutOfMemory>
    ensures { IfOk result
        (λ s. plain_stored s ≡ rounds.cleared_stored (plain_stored process.now)) }
{
    let mut copy = process.copy()?;
    copy.graph = dangling::clear_graph(alloc, &process.graph)?;
    Ok(copy)
}
