// Graphs that hold a value many times, made here since they are long.
ghost use Rattle.std.specs.Prelude.{IfOk};
ghost use Rattle.oe_graph.specs.Plain.{plain_graph};
ghost use Rattle.oe_graph.specs.Valid.{IsValidGraph};

use crate::resolved::{spell_refusal, stored_of};
use oe_graph::{Graph, Refusal, read_graph};
use oe_lines::{Answers, Fault, end_line, first_word, number_of, push, push_number, words_of};
use oe_resolve::resolve;
use std::alloc::Global;
use std::str::from_utf8;

/// Spells whether a graph resolves, or would hold too much. It calls `q` with this value, `q` hands it on to so many calls
/// of `p`, and `p` has a list of it so many times and of so many nulls. The words are `CALLS TIMES NULLS`.
pub(crate) fn spell_repeated(
    alloc: Global,
    words: &str,
    value: &str,
    answers: &mut Answers,
) -> Result<(), Fault> {
    let [calls, times, nulls, ..] = words_of(words);
    let text = processes_text(
        alloc,
        number_of(calls)?,
        number_of(times)?,
        number_of(nulls)?,
    )?;
    let Ok(processes) = from_utf8(&text) else {
        return Err(Fault::Line);
    };
    let stored = stored_of(alloc, processes)?;
    let graph = graph_of(alloc, value)?;
    let outcome = resolve(alloc, &graph, stored.as_slice());
    spell_outcome(&outcome, answers);
    end_line(answers);
    Ok(())
}

fn spell_outcome(outcome: &Result<Graph, Refusal>, answers: &mut Answers) {
    match outcome {
        Ok(_) => push("resolved", answers),
        Err(Refusal::OutOfMemory) => push("out of memory", answers),
        Err(refusal) => spell_refusal(refusal, answers),
    }
}

/// The texts of the stored processes, as words.
fn processes_text(alloc: Global, calls: u32, times: u32, nulls: u32) -> Result<Vec<u8>, Fault> {
    let mut text = Answers::new(alloc);
    push_listing(times, nulls, &mut text);
    push(" ", &mut text);
    push_calling(calls, &mut text);
    push(" -", &mut text);
    text.into_bytes()
}

/// The text of a process that loads a collection, whose id is a list.
fn push_listing(times: u32, nulls: u32, text: &mut Answers) {
    push(
        r#"{"parameters":[{"name":"v"}],"process_graph":{"n":{"process_id":"load_collection","arguments":{"id":["#,
        text,
    );
    push_times(r#"{"from_parameter":"v"}"#, ",", times, text);
    push(if times > 0 && nulls > 0 { "," } else { "" }, text);
    push_times("null", ",", nulls, text);
    push(
        r#"],"spatial_extent":null,"temporal_extent":null},"result":true}}}"#,
        text,
    );
}

/// The text of a process that calls `p` so often, of which the first call is the result.
fn push_calling(calls: u32, text: &mut Answers) {
    push(r#"{"parameters":[{"name":"v"}],"process_graph":{"#, text);
    for index in 0..calls {
        push_number(if index > 0 { ",\"c" } else { "\"c" }, index, text);
        push(
            r#"":{"process_id":"p","arguments":{"v":{"from_parameter":"v"}}"#,
            text,
        );
        push(if index > 0 { "}" } else { r#","result":true}"# }, text);
    }
    push("}}", text);
}

/// The graph that calls `q` with a value.
fn graph_of(alloc: Global, value: &str) -> Result<Graph, Fault>
    ensures { IfOk result (λ g. IsValidGraph (plain_graph g)) }
{
    let text = graph_text(alloc, value)?;
    match read_graph(alloc, &text) {
        Ok(graph) => Ok(graph),
        Err(_) => Err(Fault::Line),
    }
}

fn graph_text(alloc: Global, value: &str) -> Result<Vec<u8>, Fault> {
    let (kind, count) = first_word(value);
    let mut text = Answers::new(alloc);
    push(
        r#"{"process_graph":{"c":{"process_id":"q","arguments":{"v":"#,
        &mut text,
    );
    push_value(kind, number_of(count)?, &mut text);
    push(r#"},"result":true}}}"#, &mut text);
    text.into_bytes()
}

/// The text of a value: `zeros N` is a list of so many zeros, `text N` a text of so many bytes, and `name N` an object
/// with one null, whose name has so many bytes.
fn push_value(kind: &str, count: u32, text: &mut Answers) {
    match kind {
        "zeros" => push_many("[", "0", ",", count, "]", text),
        "text" => push_many("\"", "x", "", count, "\"", text),
        "name" => push_many("{\"", "x", "", count, "\":null}", text),
        _ => text.note(Fault::Line),
    }
}

/// So many elements with a separator between them, and what stands before and behind them.
fn push_many(
    before: &str,
    element: &str,
    separator: &str,
    count: u32,
    behind: &str,
    text: &mut Answers,
) {
    push(before, text);
    push_times(element, separator, count, text);
    push(behind, text);
}

/// The text of an element so many times, with a separator between.
fn push_times(element: &str, separator: &str, times: u32, text: &mut Answers) {
    for index in 0..times {
        push(if index > 0 { separator } else { "" }, text);
        push(element, text);
    }
}
