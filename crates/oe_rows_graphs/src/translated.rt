// The answers to lines about translated graphs.
ghost use Rattle.std.specs.Prelude.{OnOk};
ghost use Rattle.oe_dims.specs.Plain.{plain_rows};
ghost use Rattle.oe_graph.specs.Plain.{plain_graph};
ghost use Rattle.oe_graph.specs.Read.{IsFaultless};
ghost use Rattle.oe_graph.specs.Resolved.{IsResolved};
ghost use Rattle.oe_graph.specs.Valid.{IsValidGraph};
ghost use Rattle.oe_meanings.specs.Stands.{StandsInGraph};

use oe_check::{Checked, check};
use oe_dims::{Dims, Kind, Shape};
use oe_graph::{Graph, Refusal, print_graph, read_graph};
use oe_lines::{Answers, Fault, end_line, push, push_number};
use oe_resolve::resolve;
use oe_translate::{check_all, names_leave_room, translate, translations_are_small};
use std::alloc::Global;

/// Spells the text of a graph that was resolved and translated, or its fault.
pub(crate) fn spell_translated(
    alloc: Global,
    graph: &str,
    dims: &Dims,
    answers: &mut Answers,
) -> Result<(), Fault> {
    let Ok(graph) = read_graph(alloc, graph.as_bytes()) else {
        return Err(Fault::Line);
    };
    let Ok(resolved) = resolve(alloc, &graph, &[]) else {
        return Err(Fault::Line);
    };
    match judge_resolved(alloc, &resolved, dims) {
        Ok(()) => {
            let translated = translate(alloc, &resolved, dims)?;
            push(print_graph(alloc, &translated)?.as_str(), answers);
        }
        Err(Refusal::Fault(fault)) => spell_fault(&fault, answers),
        Err(Refusal::OutOfMemory) => return Err(Fault::OutOfMemory),
    }
    end_line(answers);
    Ok(())
}

/// Whether a graph has no fault, or its least one.
fn judge_resolved(alloc: Global, graph: &Graph, dims: &Dims) -> Result<(), Refusal>
    requires { IsResolved (plain_graph graph.now) }
    ensures { OnOk result (IsFaultless
        (StandsInGraph (plain_rows dims.now) (plain_graph graph.now).nodes)) }
{
    match check(alloc, graph, dims) {
        Ok(_) => Ok(()),
        Err(refusal) => Err(refusal),
    }
}

fn spell_fault(fault: &oe_graph::Fault, answers: &mut Answers) {
    push(fault.code.as_str(), answers);
    push(" ", answers);
    push(fault.node.as_str(), answers);
}

/// Spells the nodes of the checked graph of the translation, or the fault of the graph as it was sent.
pub(crate) fn spell_checked(
    alloc: Global,
    graph: &str,
    dims: &Dims,
    answers: &mut Answers,
) -> Result<(), Fault> {
    let Ok(graph) = read_graph(alloc, graph.as_bytes()) else {
        return Err(Fault::Line);
    };
    match checked_translation(alloc, &graph, dims) {
        Ok(checked) => spell_nodes(&checked, answers),
        Err(Refusal::Fault(fault)) => spell_fault(&fault, answers),
        Err(Refusal::OutOfMemory) => return Err(Fault::OutOfMemory),
    }
    end_line(answers);
    Ok(())
}

/// The checked graph of the translation of a graph that is resolved first.
fn checked_translation(alloc: Global, graph: &Graph, dims: &Dims) -> Result<Checked, Refusal>
    requires { IsValidGraph (plain_graph graph.now) }
{
    let resolved = resolve(alloc, graph, &[])?;
    names_leave_room();
    translations_are_small();
    check_all(alloc, &resolved, dims)
}

/// Spells each node by its id and the number of its dates.
fn spell_nodes(checked: &Checked, answers: &mut Answers) {
    for index in 0..checked.nodes() {
        if index > 0 {
            push("; ", answers);
        }
        push(checked.id(index), answers);
        spell_dates(checked.shape(index), answers);
        if index == checked.result() {
            push(" result", answers);
        }
    }
}

fn spell_dates(shape: &Shape, answers: &mut Answers) {
    match shape.count(Kind::Time) {
        Some(count) => push_number(" ", count, answers),
        None => push(" -", answers),
    }
}
