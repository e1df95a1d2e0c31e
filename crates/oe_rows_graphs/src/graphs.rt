// Graphs and stored processes that are read, the catalogue of processes, and what cells and windows processes need.
use crate::calls::padded_bytes;
use crate::cubes::kind_of;
use crate::needs::answer_need;
use crate::resolved::spell_refusal;
use oe_cube::is_null_or_of;
use oe_dims::CellKind;
use oe_graph::{
    Graph, StoredProcess, print_graph, process, processes_text, read_graph, read_stored,
};
use oe_lines::{Answers, Fault, Line, end_line, push};
use std::alloc::Global;

/// Appends the answers to lines about graphs.
pub(crate) fn answer_graphs(alloc: Global, text: &str, answers: &mut Answers) {
    for line in text.lines() {
        let mut line = Line::new(alloc, line);
        answer_line(&mut line, answers);
        line.report(answers);
    }
}

fn answer_line(line: &mut Line, answers: &mut Answers) {
    match line.word() {
        "#" => return,
        "graph" => read(line.alloc(), line.rest().as_bytes(), answers),
        "padded" => read_padded(line, answers),
        "bytes" => read(line.alloc(), &line.bytes(), answers),
        "stored" => read_process(line, answers),
        "process" => find(line, answers),
        "processes" => list(line.alloc(), answers),
        "kind" => is_of_kind(line, answers),
        "need" => answer_need(line, answers),
        _ => line.note(Fault::Line),
    }
    end_line(answers);
}

/// Appends the text of a copy of the graph of an input, which workers may share, or its fault.
fn read(alloc: Global, input: &[u8], answers: &mut Answers) {
    match read_graph(alloc, input) {
        Ok(graph) => {
            let outcome = spell_copy(alloc, &graph, answers);
            answers.settle(outcome);
        }
        Err(refusal) => spell_refusal(&refusal, answers),
    }
}

fn spell_copy(alloc: Global, graph: &Graph, answers: &mut Answers) -> Result<(), Fault> {
    let text = print_graph(alloc, shared(&graph.copy()?))?;
    push(text.as_str(), answers);
    Ok(())
}

/// What workers share.
fn shared<T: Send + Sync>(value: &T) -> &T {
    value
}

fn read_padded(line: &mut Line, answers: &mut Answers) {
    let size = line.number();
    match padded_bytes(line.alloc(), line.rest(), size) {
        Ok(bytes) => read(line.alloc(), &bytes, answers),
        Err(fault) => line.note(fault),
    }
}

/// Appends the parameters of a copy of the stored process of the id `p`, or its fault.
fn read_process(line: &mut Line, answers: &mut Answers) {
    match read_stored(line.alloc(), "p", line.rest().as_bytes()) {
        Ok(process) => spell_process(&process, answers),
        Err(refusal) => spell_refusal(&refusal, answers),
    }
}

fn spell_process(process: &StoredProcess, answers: &mut Answers) {
    match process.copy() {
        Ok(copy) => spell_parameters(shared(&copy), answers),
        Err(_) => answers.note(Fault::OutOfMemory),
    }
}

fn spell_parameters(process: &StoredProcess, answers: &mut Answers) {
    for parameter in &process.parameters {
        push(parameter.name.as_str(), answers);
        push(if parameter.optional { "? " } else { " " }, answers);
        push(default_word(&parameter.default), answers);
    }
}

fn default_word<T>(default: &Option<T>) -> &'static str {
    if default.is_some() { "= " } else { "" }
}

/// Appends whether there is a process of an id.
fn find(line: &mut Line, answers: &mut Answers) {
    match process(line.alloc(), line.rest()) {
        Ok(Some(_)) => push("found", answers),
        Ok(None) => push("none", answers),
        Err(_) => line.note(Fault::OutOfMemory),
    }
}

/// Appends the text of the catalogue of processes.
fn list(alloc: Global, answers: &mut Answers) {
    match processes_text(alloc) {
        Ok(text) => push(text.as_str(), answers),
        Err(_) => answers.note(Fault::OutOfMemory),
    }
}

/// Appends whether a collection of a kind may hold a cell.
fn is_of_kind(line: &mut Line, answers: &mut Answers) {
    let kind = kind_of(line.word());
    let kind = line.value_or(kind, CellKind::Numbers);
    let may = is_null_or_of(kind, line.cell());
    push(if may { "true" } else { "false" }, answers);
}
