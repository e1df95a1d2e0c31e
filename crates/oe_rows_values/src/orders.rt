// The order of a run.
use crate::windows::push_list;
use oe_lines::{Answers, Fault, Line, numbers_of, push, push_number};
use oe_order::{Links, NodeOrder, is_ranked, leads_back, order as order_of};
use std::alloc::Global;

/// Appends the order of the nodes that a result needs, how many slots it takes, and the step of each node. The ranks
/// show that there is no cycle: they fall along each reference.
pub(crate) fn order(line: &mut Line, answers: &mut Answers) {
    let last = line.number();
    let nodes = nodes_of(line.alloc(), line.word());
    let nodes = line.value_or(nodes, Vec::new(line.alloc()));
    let ranks = line.numbers::<u32>();
    match order_ranked(line.alloc(), &nodes, &ranks, last) {
        Ok(Some(found)) => spell(&found, nodes.len(), answers),
        Ok(None) => push("refused", answers),
        Err(fault) => line.note(fault),
    }
}

/// The order of a graph whose ranks show that it has no cycle.
fn order_ranked(
    alloc: Global,
    nodes: &[Links],
    ranks: &[u32],
    last: u32,
) -> Result<Option<NodeOrder>, Fault> {
    if nodes.len() >= 1000 || last as usize >= nodes.len() || !is_ranked(nodes, ranks) {
        return Ok(None);
    }
    if leads_back(alloc, nodes, last)? {
        return Ok(None);
    }
    Ok(Some(order_of(alloc, nodes, last)?))
}

fn spell(found: &NodeOrder, count: usize, answers: &mut Answers) {
    push_list(found.steps(), answers);
    push_number(" ", found.width(), answers);
    push_number(" ", found.slots(), answers);
    push(" |", answers);
    for node in 0..u32::try_from(count).unwrap_or(0) {
        push_step(found.step_of(node), answers);
    }
}

fn push_step(step: Option<u32>, answers: &mut Answers) {
    match step {
        Some(step) => push_number(" ", step, answers),
        None => push(" none", answers),
    }
}

/// The nodes of a graph, with `;` between them.
fn nodes_of(alloc: Global, word: &str) -> Result<Vec<Links>, Fault> {
    let mut nodes = Vec::new(alloc);
    for node in word.split(';') {
        nodes.push(node_of(alloc, node)?)?;
    }
    Ok(nodes)
}

fn node_of(alloc: Global, word: &str) -> Result<Links, Fault> {
    let load = word == "load";
    let arguments = numbers_of(alloc, if load { "-" } else { word })?;
    Ok(Links { load, arguments })
}
