// Stored processes: a graph and its parameters.
ghost use Rattle.std.specs.Prelude.{◌≡◌, IfOk, false, codes, map, option_and_then, unwrap_or};
ghost use Rattle.serde_json.specs.Find.{get, as_bool};
ghost use Rattle.serde_json.specs.View.{view, items_view};
ghost use Rattle.oe_graph.specs.Form.{is_absent_or, is_flag};
ghost use Rattle.oe_graph.specs.Parameters as spec;
ghost use Rattle.oe_graph.specs.Plain.{plain_parameter};

use crate::build::{build_value, text_at};
use crate::catalogue::ParameterRow;
use crate::tree::Graph;
use oe_dims::Text;
use oe_memory::OutOfMemory;
use serde_json::Value;
use std::alloc::Global;
use std::collections::BTreeSet;

/// A process that a user has stored (openEO API, user-defined processes), with the text that it was read from.
pub struct StoredProcess {
    pub id: Text,
    pub parameters: Vec<ParameterRow>,
    pub graph: Graph,
    pub text: Text,
}

/// Written out, so that a stored process that ends is one call wherever it does.
impl Drop for StoredProcess {
    fn drop(self) {
        let StoredProcess {
            id: _,
            parameters: _,
            graph: _,
            text: _,
        } = self;
    }
}

/// Whether the member `parameters` of a process is absent, null or a list of parameters with distinct names.
pub(crate) fn fits_parameters(alloc: Global, process: &Value) -> Result<bool, OutOfMemory>
    ensures { IfOk result (λ fits. fits
        ≡ is_absent_or spec.are_parameters (codes "parameters") (view process.now)) }
{
    match process.get("parameters") {
        None | Some(Value::Null) => Ok(true),
        Some(Value::Array(items)) => Ok(are_all_parameters(items) && are_distinct(alloc, items)?),
        Some(_) => Ok(false),
    }
}

fn are_all_parameters(items: &Vec<Value>) -> bool
    ensures { result ≡ spec.are_all_parameters (items_view items.now.items) }
{
    for item in items {
        if !is_parameter(item) {
            return false;
        }
    }
    true
}

/// An object with a text `name`, whose `optional` is absent or a flag.
fn is_parameter(value: &Value) -> bool
    ensures { result ≡ spec.is_parameter (view value.now) }
{
    text_at(value, "name").is_some() && fits_optional(value)
}

fn fits_optional(value: &Value) -> bool
    ensures { result ≡ is_absent_or is_flag (codes "optional") (view value.now) }
{
    match value.get("optional") {
        Some(member) => member.is_boolean(),
        None => true,
    }
}

/// Whether no two parameters have one name.
fn are_distinct(alloc: Global, items: &Vec<Value>) -> Result<bool, OutOfMemory>
    ensures { IfOk result (λ distinct. distinct
        ≡ spec.are_distinct (spec.parameter_names (items_view items.now.items))) }
{
    let mut names = BTreeSet::new(alloc);
    for item in items {
        if !names.insert(parameter_name(item))? {
            return Ok(false);
        }
    }
    Ok(true)
}

fn parameter_name(value: &Value) -> &str
    ensures { result.now ≡ spec.parameter_name (view value.now) }
{
    text_at(value, "name").unwrap_or("")
}

/// The parameters of a process.
pub(crate) fn build_parameters(
    alloc: Global,
    process: &Value,
) -> Result<Vec<ParameterRow>, OutOfMemory>
    ensures { IfOk result
        (λ v. map plain_parameter v.items ≡ spec.parameters_of (view process.now)) }
{
    match process.get("parameters") {
        Some(Value::Array(items)) => build_rows(alloc, items),
        _ => Ok(Vec::new(alloc)),
    }
}

fn build_rows(alloc: Global, items: &Vec<Value>) -> Result<Vec<ParameterRow>, OutOfMemory>
    ensures { IfOk result
        (λ v. map plain_parameter v.items ≡ spec.each_parameter (items_view items.now.items)) }
{
    let mut rows = Vec::with_capacity(alloc, items.len())?;
    for item in items {
        rows.push(build_row(alloc, item)?)?;
    }
    Ok(rows)
}

fn build_row(alloc: Global, value: &Value) -> Result<ParameterRow, OutOfMemory>
    ensures { IfOk result (λ row. plain_parameter row ≡ spec.parameter_of (view value.now)) }
{
    Ok(ParameterRow {
        name: Text::of(alloc, parameter_name(value))?,
        optional: is_optional(value),
        default: match value.get("default") {
            Some(default) => Some(build_value(alloc, default, true)?),
            None => None,
        },
    })
}

fn is_optional(value: &Value) -> bool
    ensures { result
        ≡ unwrap_or (option_and_then as_bool (get (codes "optional") (view value.now))) false }
{
    match value.get("optional") {
        Some(member) => member.as_bool().unwrap_or(false),
        None => false,
    }
}
