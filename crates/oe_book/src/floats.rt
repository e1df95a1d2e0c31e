// Whether the numbers of a JSON value are whole.
ghost use Rattle.std.specs.Prelude.{◌≡◌};
ghost use Rattle.serde_json.specs.View.{items_view, members_view, view};
ghost use Rattle.serde_json.specs.Written as spec;

use serde_json::{Map, Value};

/// Whether a number in the value, at any depth, is read with a point or an exponent.
#[cycle(floats)]
pub(crate) fn has_float(value: &Value) -> bool
    ensures { result ≡ spec.has_float (view value.now) }
{
    match value {
        Value::Null | Value::Bool(_) | Value::String(_) => false,
        Value::Number(number) => number.is_f64(),
        Value::Array(items) => has_float_item(items),
        Value::Object(members) => has_float_member(members),
    }
}

#[cycle(floats)]
fn has_float_item(items: &Vec<Value>) -> bool
    ensures { result ≡ spec.items_have_float (items_view items.now.items) }
{
    for item in items {
        if has_float(item) {
            return true;
        }
    }
    false
}

#[cycle(floats)]
fn has_float_member(members: &Map<String, Value>) -> bool
    ensures { result ≡ spec.members_have_float (members_view members.now.entries) }
{
    for (_, member) in members.iter() {
        if has_float(member) {
            return true;
        }
    }
    false
}
