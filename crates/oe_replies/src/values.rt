// Values of JSON, and the bytes of a body.
ghost use Rattle.std.specs.Prelude.{◌≡◌, IfOk, OnOk, codes, false};
ghost use Rattle.std.specs.Option.{option_map};
ghost use Rattle.serde_json.specs.Data.{array, object, string, no_items, no_members, member, put as with_member};
ghost use Rattle.serde_json.specs.View.{items_view, members_view, view};
ghost use Rattle.serde_json.specs.Written.{compact_text, has_float};
ghost use Rattle.oe_replies.specs.Json as spec;

use oe_dims::Text;
use oe_graph::put_str;
use oe_memory::OutOfMemory;
use serde_json::{Map, Value, put};
use std::alloc::Global;

/// The compact text of a value without fractions.
pub(crate) fn compact_body(alloc: Global, value: &Value) -> Result<Vec<u8>, OutOfMemory>
    requires { has_float (view value.now) ≡ false }
    ensures { IfOk result (λ body. body.items ≡ compact_text (view value.now)) }
{
    let text = value.to_string(alloc)?;
    Ok(text.into_bytes())
}

/// A list without items.
pub(crate) fn empty_list(alloc: Global) -> Value
    ensures { view result ≡ spec.no_links }
{
    Value::Array(Vec::new(alloc))
}

/// An object of one member.
pub(crate) fn single(alloc: Global, name: &str, value: Value) -> Result<Value, OutOfMemory>
    ensures { IfOk result (λ v. view v ≡ object (member name.now (view value) no_members)) }
{
    let mut entry = Map::new(alloc);
    put(&mut entry, alloc, name, value)?;
    Ok(Value::Object(entry))
}

/// An object of a list under its name and of no links.
pub(crate) fn listing_json(
    alloc: Global,
    name: &str,
    values: Vec<Value>,
) -> Result<Value, OutOfMemory>
    ensures { IfOk result (λ v. view v ≡ object (with_member name.now
        (array (items_view values.items))
        (member (codes "links") spec.no_links no_members))) }
{
    let mut entry = Map::new(alloc);
    put(&mut entry, alloc, "links", empty_list(alloc))?;
    put(&mut entry, alloc, name, Value::Array(values))?;
    Ok(Value::Object(entry))
}

/// Puts a member where it has a value.
pub(crate) fn put_where(
    entry: &mut Map<String, Value>,
    alloc: Global,
    name: &str,
    value: Option<Value>,
) -> Result<(), OutOfMemory>
    ensures { OnOk result (members_view entry.new.entries
        ≡ spec.put_where name.now (option_map view value) (members_view entry.old.entries)) }
{
    if let Some(value) = value {
        put(entry, alloc, name, value)?;
    }
    Ok(())
}

/// Puts a text where there is one.
pub(crate) fn put_words(
    entry: &mut Map<String, Value>,
    alloc: Global,
    name: &str,
    words: &Option<Text>,
) -> Result<(), OutOfMemory>
    ensures { OnOk result (members_view entry.new.entries
        ≡ spec.put_where name.now (option_map string words.now) (members_view entry.old.entries)) }
{
    if let Some(text) = words {
        put_str(entry, alloc, name, text.as_str())?;
    }
    Ok(())
}
