// What people are told of a fault.
ghost use Rattle.std.specs.Prelude.{◌≡◌, ◌++◌, None, Some, IfOk, IsSome, OnOk, option_map};
ghost use Rattle.oe_graph.specs.Plain.{plain_graph};
ghost use Rattle.oe_explain.specs.AtFault.{at_fault as argument_of, plain_at_fault};
ghost use Rattle.oe_explain.specs.Explanation as spec;

use crate::at_fault::{AtFault, at_fault};
use crate::words::{hint_words, kind_words};
use itoa::Buffer;
use oe_graph::{ArgumentKind, Code, Fault, Graph, Refusal, read_graph};
use oe_memory::OutOfMemory;
use serde_json::Value;
use std::alloc::Global;

/// Where reading stopped: the number of the line, from 1, and how many bytes of it were read.
type Place = (usize, usize);

/// The lines that explain a fault of the bytes: its code; its node, where it is not of the graph as a whole; the argument
/// that it is of, if it is of one, and what that must hold; where reading stopped, if it did; and what to do. Each ends
/// with a line feed.
///
/// Refuses: out of memory.
pub fn explain(alloc: Global, bytes: &[u8], fault: &Fault) -> Result<Vec<u8>, OutOfMemory>
    ensures { IfOk result (λ text. spec.Explains bytes.now fault.now text.items) }
{
    match read_graph(alloc, bytes) {
        Ok(graph) => explain_graph(alloc, &graph, fault),
        Err(Refusal::Fault(_)) => explain_form(alloc, bytes, fault),
        Err(Refusal::OutOfMemory) => Err(OutOfMemory),
    }
}

/// The lines of a fault of a graph.
fn explain_graph(alloc: Global, graph: &Graph, fault: &Fault) -> Result<Vec<u8>, OutOfMemory>
    ensures { IfOk result (λ text. text.items
        ≡ spec.explanation fault.now (argument_of (plain_graph graph.now) fault.now) None) }
{
    let argument = at_fault(alloc, graph, fault)?;
    lines_of(alloc, fault, argument, None)
}

/// The lines of a fault of the form.
fn explain_form(alloc: Global, bytes: &[u8], fault: &Fault) -> Result<Vec<u8>, OutOfMemory>
    ensures { IfOk result (λ text. spec.IsOfForm fault.now text.items) }
{
    let place = place_of(alloc, fault.code, bytes)?;
    lines_of(alloc, fault, None, place)
}

/// Where the reader of JSON stopped, where the bytes could not be read.
fn place_of(alloc: Global, code: Code, bytes: &[u8]) -> Result<Option<Place>, OutOfMemory>
    ensures { IfOk result (λ place. IsSome place → code ≡ Code.GraphUnreadable) }
{
    match code {
        Code::GraphUnreadable => match Value::from_slice(alloc, bytes) {
            Ok(_) => Ok(None),
            Err(error) if error.is_memory() => Err(OutOfMemory),
            Err(error) => Ok(Some((error.line(), error.column()))),
        },
        _ => Ok(None),
    }
}

/// All lines.
fn lines_of(
    alloc: Global,
    fault: &Fault,
    argument: Option<AtFault<'_>>,
    place: Option<Place>,
) -> Result<Vec<u8>, OutOfMemory>
    ensures { IfOk result (λ text. text.items
        ≡ spec.explanation fault.now (option_map plain_at_fault argument.entry) place) }
{
    let mut text = Vec::with_capacity(alloc, 512)?;
    push_line(&mut text, "code", fault.code.as_str())?;
    push_node(&mut text, fault.node.as_str())?;
    push_argument(&mut text, argument)?;
    push_place(alloc, &mut text, place)?;
    push_line(&mut text, "hint", hint_words(fault.code))?;
    Ok(text)
}

/// Appends a line.
fn push_line(text: &mut Vec<u8>, of: &str, said: &str) -> Result<(), OutOfMemory>
    ensures { OnOk result (text.new.items ≡ text.old.items ++ spec.line of.now said.now) }
{
    text.extend_from_slice(of.as_bytes())?;
    text.extend_from_slice(b": ")?;
    text.extend_from_slice(said.as_bytes())?;
    text.push(b'\n')?;
    Ok(())
}

/// Appends the line of a node, and none for the graph as a whole.
fn push_node(text: &mut Vec<u8>, node: &str) -> Result<(), OutOfMemory>
    ensures { OnOk result (text.new.items ≡ text.old.items ++ spec.node_line node.now) }
{
    if node.is_empty() {
        Ok(())
    } else {
        push_line(text, "node", node)
    }
}

/// Appends the lines of an argument.
fn push_argument(text: &mut Vec<u8>, argument: Option<AtFault<'_>>) -> Result<(), OutOfMemory>
    ensures { OnOk result (text.new.items
        ≡ text.old.items ++ spec.argument_lines (option_map plain_at_fault argument.entry)) }
{
    match argument {
        Some((name, kind)) => {
            push_line(text, "argument", name)?;
            push_must_hold(text, kind)
        }
        None => Ok(()),
    }
}

/// Appends the line of what an argument must hold.
fn push_must_hold(text: &mut Vec<u8>, kind: Option<ArgumentKind>) -> Result<(), OutOfMemory>
    ensures { OnOk result (text.new.items ≡ text.old.items ++ spec.must_hold_line kind) }
{
    match kind {
        Some(kind) => push_line(text, "must hold", kind_words(kind)),
        None => Ok(()),
    }
}

/// Appends where reading stopped.
fn push_place(alloc: Global, text: &mut Vec<u8>, place: Option<Place>) -> Result<(), OutOfMemory>
    ensures { OnOk result (text.new.items ≡ text.old.items ++ spec.place_line place) }
{
    match place {
        Some((line, column)) => push_numbers(alloc, text, line, column),
        None => Ok(()),
    }
}

/// Appends the line of a place.
fn push_numbers(
    alloc: Global,
    text: &mut Vec<u8>,
    line: usize,
    column: usize,
) -> Result<(), OutOfMemory>
    ensures { OnOk result
        (text.new.items ≡ text.old.items ++ spec.place_line (Some (line, column))) }
{
    let said = spell_place(alloc, line, column)?;
    text.extend_from_slice(&said)?;
    Ok(())
}

/// The line of a place.
fn spell_place(alloc: Global, line: usize, column: usize) -> Result<Vec<u8>, OutOfMemory>
    ensures { IfOk result (λ said. said.items ≡ spec.place_line (Some (line, column))) }
{
    let mut said = Vec::with_capacity(alloc, 64)?;
    said.extend_from_slice(b"stopped: line ")?;
    said.extend_from_slice(Buffer::new().format(line).as_bytes())?;
    said.extend_from_slice(b" column ")?;
    said.extend_from_slice(Buffer::new().format(column).as_bytes())?;
    said.push(b'\n')?;
    Ok(said)
}
