// The form of a node, over the JSON value that was read (openEO API, process graphs).
ghost use Rattle.std.specs.Prelude.{◌≡◌, false, option_map, codes};
ghost use Rattle.std.specs.Option.{option_map_or};
ghost use Rattle.serde_json.specs.Find.{get};
ghost use Rattle.serde_json.specs.View.{view, members_view};
ghost use Rattle.oe_graph.specs.Form as spec;

use serde_json::{Map, Value};

/// The nodes of an object whose member `process_graph` is an object: of an input, or of an argument that is a callback.
pub(crate) fn nodes_in(value: &Value) -> Option<&Map<String, Value>>
    ensures { option_map (λ m. members_view m.now.entries) result ≡ spec.nodes_in (view value.now) }
{
    value.get("process_graph")?.as_object()
}

/// The arguments of a node, where it has some.
pub(crate) fn arguments_in(node: &Value) -> Option<&Map<String, Value>>
    ensures { option_map (λ m. members_view m.now.entries) result
        ≡ spec.arguments_in (view node.now) }
{
    node.get("arguments")?.as_object()
}

/// Whether a value is a node, whatever its id.
pub(crate) fn is_node(node: &Value) -> bool
    ensures { result ≡ spec.is_node (view node.now) }
{
    has_process_id(node)
        && arguments_in(node).is_some()
        && fits_namespace(node)
        && fits_result(node)
        && fits_description(node)
}

/// Whether a node is marked as the result.
pub(crate) fn is_result(node: &Value) -> bool
    ensures { result ≡ spec.is_result (view node.now) }
{
    match node.get("result") {
        Some(member) => member.as_bool().unwrap_or(false),
        None => false,
    }
}

/// A text of 1 to 64 bytes.
fn has_process_id(node: &Value) -> bool
    ensures { result
        ≡ option_map_or spec.is_process_id (get (codes "process_id") (view node.now)) false }
{
    match node.get("process_id") {
        Some(member) => is_process_id(member),
        None => false,
    }
}

fn is_process_id(value: &Value) -> bool
    ensures { result ≡ spec.is_process_id (view value.now) }
{
    match value.as_str() {
        Some(text) => !text.is_empty() && text.len() <= 64,
        None => false,
    }
}

/// Absent, null, `user` or `backend`.
fn fits_namespace(node: &Value) -> bool
    ensures { result
        ≡ spec.is_absent_or spec.is_namespace (codes "namespace") (view node.now) }
{
    match node.get("namespace") {
        Some(member) => is_namespace(member),
        None => true,
    }
}

fn is_namespace(value: &Value) -> bool
    ensures { result ≡ spec.is_namespace (view value.now) }
{
    match value.as_str() {
        Some(text) => text == "user" || text == "backend",
        None => value.is_null(),
    }
}

/// Absent or a flag.
fn fits_result(node: &Value) -> bool
    ensures { result ≡ spec.is_absent_or spec.is_flag (codes "result") (view node.now) }
{
    match node.get("result") {
        Some(member) => member.is_boolean(),
        None => true,
    }
}

/// Absent, null or a text.
fn fits_description(node: &Value) -> bool
    ensures { result
        ≡ spec.is_absent_or spec.is_description (codes "description") (view node.now) }
{
    match node.get("description") {
        Some(member) => member.is_string() || member.is_null(),
        None => true,
    }
}
