// The catalogue of processes: its rows, and its text.
ghost use Rattle.std.specs.Prelude.{◌≡◌, ◌++◌, IfOk, codes, map, option_map, true};
ghost use Rattle.serde_json.specs.Data.{boolean, object, string, put as with_member};
ghost use Rattle.serde_json.specs.View.{view, items_view, members_view};
ghost use Rattle.serde_json.specs.Written.{compact_text};
ghost use Rattle.oe_graph.specs.Catalogue as spec;
ghost use Rattle.oe_graph.specs.Plain.{plain_arg, plain_parameter, plain_process};

use crate::table::{Literal, PROCESSES, ParameterEntry, ProcessEntry};
use crate::texts::put_str;
use crate::tree::Arg;
use oe_dims::Text;
use oe_memory::OutOfMemory;
use serde_json::{Map, Value, put};
use std::alloc::Global;

/// A parameter of a process. The default counts where the argument is not given; without one that of an optional
/// parameter is null.
pub struct ParameterRow {
    pub name: Text,
    pub optional: bool,
    pub default: Option<Arg>,
}

/// Written out, so that a row that ends is one call wherever it does.
impl Drop for ParameterRow {
    fn drop(self) {
        let ParameterRow {
            name: _,
            optional: _,
            default: _,
        } = self;
    }
}

/// A process of the catalogue: it stands in callbacks, or else in the main graph.
pub struct ProcessRow {
    pub id: Text,
    pub parameters: Vec<ParameterRow>,
    pub in_callback: bool,
}

/// Written out, so that a row that ends is one call wherever it does.
impl Drop for ProcessRow {
    fn drop(self) {
        let ProcessRow {
            id: _,
            parameters: _,
            in_callback: _,
        } = self;
    }
}

/// All entries. Both that read them do so by this call, so that the table stands in one proof alone.
fn entries() -> &'static [ProcessEntry]
    ensures { map spec.process_of result.now ≡ spec.catalogue }
{
    &PROCESSES
}

/// The entry of a process, where the catalogue has it. Takes no memory.
pub fn process_entry(id: &str) -> Option<&'static ProcessEntry>
    ensures { option_map (λ e. spec.process_of e.now) result ≡ spec.process_named id.now }
{
    entry_of(entries(), id)
}

/// The first entry with this id.
fn entry_of<'a>(entries: &'a [ProcessEntry], id: &str) -> Option<&'a ProcessEntry>
    ensures { option_map (λ e. spec.process_of e.now) result
        ≡ spec.first_named id.now (map spec.process_of entries.now) }
{
    for entry in entries {
        if entry.0 == id {
            return Some(entry);
        }
    }
    None
}

/// The row of a process, where the catalogue has it (openEO Processes).
pub fn process(alloc: Global, id: &str) -> Result<Option<ProcessRow>, OutOfMemory>
    ensures { IfOk result (λ row. option_map plain_process row
        ≡ option_map spec.plain_row (spec.process_named id.now)) }
{
    match process_entry(id) {
        Some(entry) => Ok(Some(process_row(alloc, entry)?)),
        None => Ok(None),
    }
}

fn process_row(alloc: Global, entry: &ProcessEntry) -> Result<ProcessRow, OutOfMemory>
    ensures { IfOk result (λ row. plain_process row ≡ spec.plain_row (spec.process_of entry.now)) }
{
    let (id, in_callback, parameters, _) = *entry;
    Ok(ProcessRow {
        id: Text::of(alloc, id)?,
        parameters: parameter_rows(alloc, parameters)?,
        in_callback,
    })
}

fn parameter_rows(
    alloc: Global,
    entries: &[ParameterEntry],
) -> Result<Vec<ParameterRow>, OutOfMemory>
    ensures { IfOk result (λ rows. map plain_parameter rows.items
        ≡ map spec.plain_parameter (map spec.parameter_of entries.now)) }
{
    let mut rows = Vec::with_capacity(alloc, entries.len())?;
    for entry in entries {
        rows.push(parameter_row(alloc, entry)?)?;
    }
    Ok(rows)
}

fn parameter_row(alloc: Global, entry: &ParameterEntry) -> Result<ParameterRow, OutOfMemory>
    ensures { IfOk result
        (λ row. plain_parameter row ≡ spec.plain_parameter (spec.parameter_of entry.now)) }
{
    let (name, _, default) = *entry;
    Ok(ParameterRow {
        name: Text::of(alloc, name)?,
        optional: default.is_some(),
        default: match default {
            Some(literal) => Some(literal_arg(alloc, literal)),
            None => None,
        },
    })
}

/// The value of a literal.
fn literal_arg(alloc: Global, literal: Literal) -> Arg
    ensures { plain_arg result ≡ spec.literal_value literal }
{
    match literal {
        Literal::Null => Arg::Null,
        Literal::Flag(flag) => Arg::Flag(flag),
        Literal::Whole(whole) => Arg::Whole(whole),
        Literal::EmptyList => Arg::List(Vec::new(alloc)),
        Literal::EmptyObject => Arg::Object(Vec::new(alloc)),
    }
}

/// The catalogue as the reply to a request for the processes has it: compact JSON, processes in byte order of their ids
/// (openEO API, processes).
pub fn processes_text(alloc: Global) -> Result<Text, OutOfMemory>
    ensures { IfOk result (λ text. text ≡ compact_text spec.processes_data) }
{
    let processes = process_values(alloc, entries())?;
    let text = reply_json(alloc, processes)?.to_string(alloc)?;
    Text::of(alloc, text.as_str())
}

fn reply_json(alloc: Global, processes: Vec<Value>) -> Result<Value, OutOfMemory>
    ensures { IfOk result (λ v. view v ≡ spec.reply_data (items_view processes.items)) }
{
    let mut reply = Map::new(alloc);
    put(&mut reply, alloc, "links", Value::Array(Vec::new(alloc)))?;
    put(&mut reply, alloc, "processes", Value::Array(processes))?;
    Ok(Value::Object(reply))
}

fn process_values(alloc: Global, entries: &[ProcessEntry]) -> Result<Vec<Value>, OutOfMemory>
    ensures { IfOk result (λ v. items_view v.items
        ≡ spec.each_process_data (map spec.process_of entries.now)) }
{
    let mut values = Vec::with_capacity(alloc, entries.len())?;
    for entry in entries {
        values.push(process_json(alloc, entry)?)?;
    }
    Ok(values)
}

fn process_json(alloc: Global, entry: &ProcessEntry) -> Result<Value, OutOfMemory>
    ensures { IfOk result (λ v. view v ≡ spec.process_data (spec.process_of entry.now)) }
{
    let (id, _, entries, _) = *entry;
    let parameters = parameter_values(alloc, entries)?;
    let mut row = Map::new(alloc);
    put(&mut row, alloc, "description", description_json(alloc, id)?)?;
    put_str(&mut row, alloc, "id", id)?;
    put(&mut row, alloc, "parameters", Value::Array(parameters))?;
    put(&mut row, alloc, "returns", returns_json(alloc)?)?;
    Ok(Value::Object(row))
}

fn description_json(alloc: Global, id: &str) -> Result<Value, OutOfMemory>
    ensures { IfOk result (λ v. view v ≡ string (codes "openEO process " ++ id.now)) }
{
    let mut description = String::from_str(alloc, "openEO process ")?;
    description.push_str(id)?;
    Ok(Value::String(description))
}

fn returns_json(alloc: Global) -> Result<Value, OutOfMemory>
    ensures { IfOk result (λ v. view v ≡ spec.returns_data) }
{
    let mut returns = Map::new(alloc);
    put_str(&mut returns, alloc, "description", "result")?;
    put(
        &mut returns,
        alloc,
        "schema",
        Value::Object(Map::new(alloc)),
    )?;
    Ok(Value::Object(returns))
}

fn parameter_values(alloc: Global, entries: &[ParameterEntry]) -> Result<Vec<Value>, OutOfMemory>
    ensures { IfOk result (λ v. items_view v.items
        ≡ spec.each_parameter_data (map spec.parameter_of entries.now)) }
{
    let mut values = Vec::with_capacity(alloc, entries.len())?;
    for entry in entries {
        values.push(parameter_json(alloc, entry)?)?;
    }
    Ok(values)
}

fn parameter_json(alloc: Global, entry: &ParameterEntry) -> Result<Value, OutOfMemory>
    ensures { IfOk result (λ v. view v ≡ spec.parameter_data (spec.parameter_of entry.now)) }
{
    let (name, _, default) = *entry;
    let mut row = Map::new(alloc);
    put_str(&mut row, alloc, "description", name)?;
    put_str(&mut row, alloc, "name", name)?;
    put(&mut row, alloc, "schema", Value::Object(Map::new(alloc)))?;
    match default {
        Some(literal) => with_default(alloc, row, literal),
        None => Ok(Value::Object(row)),
    }
}

/// The text of an optional parameter, from that of a required one.
fn with_default(
    alloc: Global,
    row: Map<String, Value>,
    literal: Literal,
) -> Result<Value, OutOfMemory>
    ensures { IfOk result (λ v. view v ≡ object (with_member (codes "optional") (boolean true)
        (with_member (codes "default") (spec.literal_data literal) (members_view row.entries)))) }
{
    let mut row = row;
    put(&mut row, alloc, "default", literal_json(alloc, literal))?;
    put(&mut row, alloc, "optional", Value::Bool(true))?;
    Ok(Value::Object(row))
}

fn literal_json(alloc: Global, literal: Literal) -> Value
    ensures { view result ≡ spec.literal_data literal }
{
    match literal {
        Literal::Null => Value::Null,
        Literal::Flag(flag) => Value::Bool(flag),
        Literal::Whole(whole) => Value::from(whole),
        Literal::EmptyList => Value::Array(Vec::new(alloc)),
        Literal::EmptyObject => Value::Object(Map::new(alloc)),
    }
}
