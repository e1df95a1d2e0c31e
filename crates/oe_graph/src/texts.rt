// Texts as values of JSON.
ghost use Rattle.std.specs.Prelude.{◌≡◌, IfOk, OnOk};
ghost use Rattle.serde_json.specs.Data.{string, put as with_member};
ghost use Rattle.serde_json.specs.View.{members_view, view};

use oe_memory::OutOfMemory;
use serde_json::{Map, Value, put};
use std::alloc::Global;

/// A text as a value of JSON. Refuses: out of memory.
pub fn str_json(alloc: Global, text: &str) -> Result<Value, OutOfMemory>
    ensures { IfOk result (λ v. view v ≡ string text.now) }
{
    Ok(Value::String(String::from_str(alloc, text)?))
}

/// Puts a text under a name into an object. Refuses: out of memory.
pub fn put_str(
    object: &mut Map<String, Value>,
    alloc: Global,
    name: &str,
    text: &str,
) -> Result<(), OutOfMemory>
    ensures { OnOk result (members_view object.new.entries
        ≡ with_member name.now (string text.now) (members_view object.old.entries)) }
{
    let value = str_json(alloc, text)?;
    Ok(put(object, alloc, name, value)?)
}
