// Labels, names and shapes.
use crate::words::{number_of, parts_of, words_of};
use crate::{Answers, Fault, push_number};
use oe_dims::{Shape, ShapeFault, Text};
use std::alloc::Global;

/// The shape that the words `EPSG T BANDS Y X` spell, or its fault.
pub fn shape_of(alloc: Global, line: &str) -> Result<Result<Shape, ShapeFault>, Fault> {
    let [epsg, t, bands, y, x, ..] = words_of(line);
    Ok(Shape::new(
        number_of(epsg)?,
        labels_of(alloc, t)?,
        names_of(alloc, bands)?,
        labels_of(alloc, y)?,
        labels_of(alloc, x)?,
    ))
}

/// The same. Refuses: words of a shape with a fault.
pub fn valid_shape_of(alloc: Global, line: &str) -> Result<Shape, Fault> {
    match shape_of(alloc, line)? {
        Ok(shape) => Ok(shape),
        Err(_) => Err(Fault::Line),
    }
}

/// The labels along a dimension of numbers, `None` for no such dimension.
pub fn labels_of(alloc: Global, word: &str) -> Result<Option<Vec<i64>>, Fault> {
    if word == "-" {
        return Ok(None);
    }
    let mut labels = Vec::new(alloc);
    if word != "=" {
        push_items(word, &mut labels)?;
    }
    Ok(Some(labels))
}

/// Appends the numbers of items with commas between them.
fn push_items(word: &str, labels: &mut Vec<i64>) -> Result<(), Fault> {
    for item in word.split(',') {
        match item.split_once("..") {
            Some((from, to)) => push_range(number_of(from)?, number_of(to)?, labels)?,
            None => labels.push(number_of(item)?)?,
        }
    }
    Ok(())
}

/// Appends the numbers from one on to before another, upwards, or downwards where that is less.
fn push_range(from: i64, to: i64, labels: &mut Vec<i64>) -> Result<(), Fault> {
    let step = if from < to { 1 } else { -1 };
    let mut label = from;
    for _index in 0..from.abs_diff(to) {
        labels.push(label)?;
        label = label.wrapping_add(step);
    }
    Ok(())
}

/// The names of bands, `None` for no such dimension.
pub fn names_of(alloc: Global, word: &str) -> Result<Option<Vec<Text>>, Fault> {
    if word == "-" {
        return Ok(None);
    }
    let mut names = Vec::new(alloc);
    if word != "=" {
        for item in word.split(',') {
            push_names(alloc, item, &mut names)?;
        }
    }
    Ok(Some(names))
}

/// Appends the names of an item.
fn push_names(alloc: Global, item: &str, names: &mut Vec<Text>) -> Result<(), Fault> {
    if item.contains("..") {
        return push_unordered(alloc, item, names);
    }
    if item.contains('*') {
        return push_numbered(alloc, item, names);
    }
    names.push(Text::of(alloc, item)?)?;
    Ok(())
}

/// Appends the names of `A..B`, which are unlike those of any other numbers: up to 65536 the multiples of an odd number
/// differ.
fn push_unordered(alloc: Global, item: &str, names: &mut Vec<Text>) -> Result<(), Fault> {
    let (from, to) = parts_of(item, "..")?;
    for number in number_of::<u32>(from)?..number_of::<u32>(to)? {
        let (word, number) = if number < 65536 {
            ("band_", number.wrapping_mul(40503) % 65536)
        } else {
            ("more_", number)
        };
        names.push(name_of(alloc, word, number)?)?;
    }
    Ok(())
}

/// Appends the names of `b*N`.
fn push_numbered(alloc: Global, item: &str, names: &mut Vec<Text>) -> Result<(), Fault> {
    let (word, count) = parts_of(item, "*")?;
    for number in 0..number_of::<u32>(count)? {
        names.push(name_of(alloc, word, number)?)?;
    }
    Ok(())
}

/// A word with a number behind it.
fn name_of(alloc: Global, word: &str, number: u32) -> Result<Text, Fault> {
    let mut name = Answers::new(alloc);
    push_number(word, number, &mut name);
    name.into_text(alloc)
}
