// Graphs and stored processes, read whole.
ghost use Rattle.std.specs.Prelude.{◌≡◌, ◌≤◌, length, IfOk, IfErr, OnOk, Some, true};
ghost use Rattle.serde_json.specs.View.{view, members_view};
ghost use Rattle.oe_graph.specs.AsRead.{is_as_read};
ghost use Rattle.oe_graph.specs.Form.{IsReading, Stands, StandsIn, most_input, nodes_in};
ghost use Rattle.oe_graph.specs.Parameters.{StandsStored};
ghost use Rattle.oe_graph.specs.Plain.{plain_graph, plain_stored};
ghost use Rattle.oe_graph.specs.Printed.{IsPrintable};
ghost use Rattle.oe_graph.specs.Valid.{IsValidGraph, IsValidStored};
ghost use Rattle.oe_graph.specs.Walked as spec;
ghost use Rattle.oe_graph.specs.Read.{IsFault, IsFaultless, IsGraphOf, PrecedesParameters, Reads, ReadsStored};

use crate::build::build_graph;
use crate::code::Code;
use crate::fault::{Fault, Refusal, least};
use crate::form::nodes_in;
use crate::stored::{StoredProcess, build_parameters, fits_parameters};
use crate::tree::Graph;
use crate::walk::{fault_at, graph_fault};
use oe_dims::{Text, text_of};
use oe_memory::OutOfMemory;
use serde_json::{Map, Value};
use std::alloc::Global;

/// Most bytes of an input.
const MOST_INPUT: usize = 1048576;

/// The graph that the bytes are: the JSON text of an object whose member `process_graph` is an object of nodes
/// (openEO API, process graphs).
///
/// Refuses: the least fault of the form, exactly where one stands.
pub fn read_graph(alloc: Global, bytes: &[u8]) -> Result<Graph, Refusal>
    ensures graph { IfOk result (λ graph. Reads bytes.now (plain_graph graph)) }
    ensures valid { IfOk result (λ graph. IsValidGraph (plain_graph graph)) }
    ensures printable { IfOk result (λ graph. IsPrintable (plain_graph graph)) }
    ensures refused { IfErr result (IsFault (Stands bytes.now)) }
{
    let value = read_json(alloc, bytes)?;
    read_value(alloc, &value)
}

/// The graph that a JSON value is.
///
/// Refuses: the least fault of the form, exactly where one stands.
pub fn read_value(alloc: Global, value: &Value) -> Result<Graph, Refusal>
    ensures graph { IfOk result (λ graph. IsGraphOf (view value.now) (plain_graph graph)) }
    ensures valid { OnOk result (IsFaultless (StandsIn (view value.now))) }
    ensures printable { IfOk result
        (λ graph. is_as_read (view value.now) ≡ true → IsPrintable (plain_graph graph)) }
    ensures refused { IfErr result (IsFault (StandsIn (view value.now))) }
{
    let nodes = main_nodes(alloc, value)?;
    match graph_fault(alloc, "", nodes)? {
        Some(fault) => Err(Refusal::Fault(fault)),
        None => Ok(build_graph(alloc, nodes)?),
    }
}

/// The process that the bytes are under an id: a graph as for [`read_graph`], whose member `parameters` is absent, null
/// or a list of parameters (openEO API, user-defined processes).
///
/// Refuses: the least fault, exactly where one stands.
pub fn read_stored(alloc: Global, id: &str, bytes: &[u8]) -> Result<StoredProcess, Refusal>
    ensures process { IfOk result
        (λ process. ReadsStored id.now bytes.now (plain_stored process)) }
    ensures valid { IfOk result (λ process. IsValidStored (plain_stored process)) }
    ensures printable { IfOk result (λ process. IsPrintable (plain_graph process.graph)) }
    ensures refused { IfErr result (IsFault (StandsStored bytes.now)) }
{
    let value = read_json(alloc, bytes)?;
    let nodes = main_nodes(alloc, &value)?;
    let of_graph = graph_fault(alloc, "", nodes)?;
    let of_parameters = parameters_fault(alloc, &value)?;
    if let Some(fault) = least(of_graph, of_parameters) {
        return Err(Refusal::Fault(fault));
    }
    Ok(StoredProcess {
        id: Text::of(alloc, id)?,
        parameters: build_parameters(alloc, &value)?,
        graph: build_graph(alloc, nodes)?,
        text: text_of(alloc, bytes)?,
    })
}

/// The JSON value of the bytes.
fn read_json(alloc: Global, bytes: &[u8]) -> Result<Value, Refusal>
    ensures value { IfOk result (λ value. IsReading bytes.now (view value)) }
    ensures within { OnOk result (length bytes.now ≤ most_input) }
    ensures refused { IfErr result (IsFault (Stands bytes.now)) }
    ensures precedes { IfErr result PrecedesParameters }
{
    if bytes.len() > MOST_INPUT {
        return Err(Refusal::Fault(fault_at(alloc, Code::InputTooLong, "")?));
    }
    match Value::from_slice(alloc, bytes) {
        Ok(value) => Ok(value),
        Err(error) if error.is_memory() => Err(Refusal::OutOfMemory),
        Err(_) => Err(Refusal::Fault(fault_at(alloc, Code::GraphUnreadable, "")?)),
    }
}

/// The nodes of the main graph.
fn main_nodes(alloc: Global, value: &Value) -> Result<&Map<String, Value>, Refusal>
    ensures nodes { IfOk result
        (λ m. nodes_in (view value.now) ≡ Some (members_view m.now.entries)) }
    ensures refused { IfErr result (IsFault (StandsIn (view value.now))) }
    ensures precedes { IfErr result PrecedesParameters }
{
    match nodes_in(value) {
        Some(nodes) => Ok(nodes),
        None if value.is_object() => {
            Err(Refusal::Fault(fault_at(alloc, Code::ProcessGraphMissing, "")?))
        }
        None => Err(Refusal::Fault(fault_at(alloc, Code::GraphUnreadable, "")?)),
    }
}

/// The fault of the member `parameters` of a process that is not in form.
fn parameters_fault(alloc: Global, process: &Value) -> Result<Option<Fault>, OutOfMemory>
    ensures { IfOk result (λ f. f ≡ spec.parameters_fault (view process.now)) }
{
    if fits_parameters(alloc, process)? {
        Ok(None)
    } else {
        Ok(Some(fault_at(alloc, Code::ParametersInvalid, "")?))
    }
}
