// Copies of texts and of labels.
ghost use Rattle.std.specs.Prelude.{◌≡◌, IfOk, IsUtf8};
ghost use Rattle.std.specs.Option.{option_map};
ghost use Rattle.oe_dims.specs.Dimensions.{numbers_along};
ghost use Rattle.oe_dims.specs.Lists.{items_of};

use crate::{Kind, Shape, Text};
use oe_memory::OutOfMemory;
use std::alloc::Global;

/// A copy of a text, if there is one. Refuses: out of memory.
pub fn copy_text(text: &Option<Text>) -> Result<Option<Text>, OutOfMemory>
    ensures { IfOk result (λ copy. copy ≡ text.now) }
{
    match text {
        Some(text) => Ok(Some(text.copy()?)),
        None => Ok(None),
    }
}

/// The text of bytes that are UTF-8. Refuses: out of memory.
pub fn text_of(alloc: Global, bytes: &[u8]) -> Result<Text, OutOfMemory>
    requires { IsUtf8 bytes.now }
    ensures { IfOk result (λ text. text ≡ bytes.now) }
{
    match std::str::from_utf8(bytes) {
        Ok(text) => Text::of(alloc, text),
        Err(_) => unreachable!(),
    }
}

/// A copy of names. Refuses: out of memory.
pub fn copy_texts(alloc: Global, names: &[Text]) -> Result<Vec<Text>, OutOfMemory>
    ensures { IfOk result (λ copies. copies.items ≡ names.now) }
{
    let mut copies = Vec::with_capacity(alloc, names.len())?;
    for name in names {
        copies.push(name.copy()?)?;
    }
    Ok(copies)
}

/// A copy of the names of the bands, `None` where the shape has no bands. Refuses: out of memory.
pub fn copy_bands(alloc: Global, shape: &Shape) -> Result<Option<Vec<Text>>, OutOfMemory>
    ensures { IfOk result (λ copy. option_map items_of copy ≡ shape.now.bands) }
{
    match shape.count(Kind::Bands) {
        None => Ok(None),
        Some(_) => Ok(Some(copy_texts(alloc, shape.bands())?)),
    }
}

/// A copy of the labels along t, y or x, `None` where the shape lacks the dimension, and along bands. Refuses: out of
/// memory.
pub fn copy_numbers(
    alloc: Global,
    shape: &Shape,
    kind: Kind,
) -> Result<Option<Vec<i64>>, OutOfMemory>
    ensures { IfOk result (λ copy. option_map items_of copy ≡ numbers_along kind shape.now) }
{
    match kind {
        Kind::Bands => Ok(None),
        _ => match shape.count(kind) {
            None => Ok(None),
            Some(_) => Ok(Some(Vec::from_slice(alloc, shape.labels(kind))?)),
        },
    }
}
