// Members of a JSON value.
ghost use Rattle.std.specs.Prelude.{◌≡◌, IfOk, MatchOption, option_map};
ghost use Rattle.serde_json.specs.View.{view, items_view};
ghost use Rattle.oe_dims.specs.Dimensions.{Dimensions, IsShape};
ghost use Rattle.oe_dims.specs.declared.kind.CellKind.{CellKind};
ghost use Rattle.oe_render.specs.CubeText as spec;
ghost use Rattle.oe_render.specs.Members.{SaysKind, SaysShape, kind_word, text_in};

use crate::dimensions::read_shape;
use oe_dims::{CellKind, Shape};
use oe_memory::OutOfMemory;
use serde_json::Value;
use std::alloc::Global;

/// Whether the member of this name is this text.
pub(crate) fn has_text(value: &Value, name: &str, text: &str) -> bool
    ensures { result ≡ spec.has_text name.now text.now (view value.now) }
{
    match value.get(name) {
        Some(member) => is_text(member, text),
        None => false,
    }
}

fn is_text(value: &Value, text: &str) -> bool
    ensures { result ≡ spec.is_text text.now (view value.now) }
{
    match value.as_str() {
        Some(found) => text == found,
        None => false,
    }
}

/// The values of the member of this name, where it is a list.
pub fn list_in<'a>(value: &'a Value, name: &str) -> Option<&'a [Value]>
    ensures { option_map (λ list. items_view list.now) result
        ≡ spec.list_in name.now (view value.now) }
{
    let list = value.get(name)?.as_array()?;
    Some(list.as_slice())
}

/// The text of the member of this name, where it is one.
pub fn text_in<'a>(value: &'a Value, name: &str) -> Option<&'a str>
    ensures { option_map (λ text. text.now) result ≡ text_in name.now (view value.now) }
{
    value.get(name)?.as_str()
}

/// The word for cells of a kind.
pub fn kind_word(kind: CellKind) -> &'static str
    ensures { result.now ≡ kind_word kind }
{
    match kind {
        CellKind::Numbers => "number",
        CellKind::Flags => "boolean",
    }
}

/// The kind that the member `cells` says, `None` exactly where it says none.
pub fn read_kind(value: &Value) -> Option<CellKind>
    ensures { MatchOption result ((kind : CellKind) → ¬ SaysKind (view value.now) kind)
        (SaysKind (view value.now)) }
{
    let word = text_in(value, "cells")?;
    if word == "number" {
        Some(CellKind::Numbers)
    } else if word == "boolean" {
        Some(CellKind::Flags)
    } else {
        None
    }
}

/// The shape that the member `dimensions` says, `None` exactly where it says no valid one. Refuses: out of memory.
pub fn read_dimensions(alloc: Global, value: &Value) -> Result<Option<Shape>, OutOfMemory>
    ensures { IfOk result (λ read. MatchOption read
        ((shape : Dimensions) → IsShape shape → ¬ SaysShape (view value.now) shape)
        (SaysShape (view value.now))) }
{
    match list_in(value, "dimensions") {
        Some(values) => read_shape(alloc, values),
        None => Ok(None),
    }
}
