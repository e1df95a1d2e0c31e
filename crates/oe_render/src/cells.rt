// The cells of a cube text.
ghost use Rattle.std.specs.Prelude.{◌≡◌, ◌≢◌, ◌<◌, ◌≤◌, ◌^◌, ◌↔◌, ℕ, ℤ, IfOk, IsTrue, MatchOption, List, decimal, unsigned_abs};
ghost use Rattle.std.specs.Fmt.{signed_decimal};
ghost use Rattle.std.specs.List.{list_any};
ghost use Rattle.serde_json.specs.View.{view, items_view};
ghost use Rattle.oe_cell.specs.Fraction.{Fraction, IsNumber};
ghost use Rattle.oe_cell.specs.Kinds as kinds;
ghost use Rattle.oe_cell.specs.declared.cell.Cell.{Cell};
ghost use Rattle.oe_dims.specs.declared.kind.CellKind.{CellKind};
ghost use Rattle.oe_render.specs.CubeText.{Each, IsFraction, SpellsCell};
ghost use Rattle.oe_render.specs.CubeText as spec;

use itoa::Buffer;
use oe_cell::{Cell, Frac};
use oe_dims::CellKind;
use oe_memory::OutOfMemory;
use serde_json::Value;
use std::alloc::Global;

/// The cells that the values spell, none where one spells no cell.
pub(crate) fn read_cells(alloc: Global, values: &[Value]) -> Result<Option<Vec<Cell>>, OutOfMemory>
    ensures { IfOk result (λ read. MatchOption read
        ((cells : List Cell) → ¬ Each SpellsCell (items_view values.now) cells)
        (λ cells. Each SpellsCell (items_view values.now) cells.items)) }
{
    let mut cells = Vec::with_capacity(alloc, values.len())?;
    for value in values.iter() {
        match read_cell(value) {
            Some(cell) => cells.push(cell)?,
            None => return Ok(None),
        }
    }
    Ok(Some(cells))
}

/// The cell that a value spells.
fn read_cell(value: &Value) -> Option<Cell>
    ensures { MatchOption result ((cell : Cell) → ¬ SpellsCell (view value.now) cell)
        (SpellsCell (view value.now)) }
{
    match value {
        Value::Null => Some(Cell::Empty),
        Value::Bool(flag) => Some(Cell::Flag(*flag)),
        Value::Number(number) => Some(Cell::Number(Frac::new(number.as_i64()?, 1)?)),
        Value::String(text) => Some(Cell::Number(read_fraction(text.as_str())?)),
        Value::Array(_) | Value::Object(_) => None,
    }
}

/// The number that a text n/d spells.
fn read_fraction(text: &str) -> Option<Frac>
    ensures { MatchOption result ((q : Fraction) → ¬ IsFraction text.now q)
        (IsFraction text.now) }
{
    let Some((num, den)) = text.split_once('/') else {
        return None;
    };
    let Some(num) = read_numerator(num) else {
        return None;
    };
    let Some(den) = read_denominator(den) else {
        return None;
    };
    fraction_of(num, den)
}

/// The number with another denominator than 1.
fn fraction_of(num: i64, den: u64) -> Option<Frac>
    ensures { MatchOption result (¬ (IsNumber (record { num = num; den = den }) × (2 ≤ den)))
        (λ q. (q ≡ record { num = num; den = den })
        × IsNumber (record { num = num; den = den }) × (2 ≤ den)) }
{
    if den < 2 { None } else { Frac::new(num, den) }
}

/// The number that a text spells in decimal, with a sign where it is below 0.
fn read_numerator(text: &str) -> Option<i64>
    ensures { MatchOption result ((z : ℤ) → unsigned_abs z < 2 ^ 63 → text.now ≢ signed_decimal z)
        (λ z. (text.now ≡ signed_decimal z)
        × ((y : ℤ) → unsigned_abs y < 2 ^ 63 → text.now ≡ signed_decimal y → z ≡ y)) }
{
    match text.parse::<i64>() {
        Ok(number) => {
            if is_signed_decimal(text, number) {
                Some(number)
            } else {
                None
            }
        }
        Err(_) => None,
    }
}

fn is_signed_decimal(text: &str, number: i64) -> bool
    ensures { IsTrue result ↔ text.now ≡ signed_decimal number }
{
    Buffer::new().format(number) == text
}

/// The number that a text spells in decimal.
fn read_denominator(text: &str) -> Option<u64>
    ensures { MatchOption result ((n : ℕ) → n < 2 ^ 63 → text.now ≢ decimal n)
        (λ n. (text.now ≡ decimal n)
        × ((m : ℕ) → m < 2 ^ 63 → text.now ≡ decimal m → n ≡ m)) }
{
    match text.parse::<u64>() {
        Ok(number) => {
            if is_decimal(text, number) {
                Some(number)
            } else {
                None
            }
        }
        Err(_) => None,
    }
}

fn is_decimal(text: &str, number: u64) -> bool
    ensures { IsTrue result ↔ text.now ≡ decimal number }
{
    Buffer::new().format(number) == text
}

/// What the cells are: flags where one occurs, else numbers. None where both occur.
pub(crate) fn kind_of(cells: &[Cell]) -> Option<CellKind>
    ensures { result ≡ spec.kind_of cells.now }
{
    if !has_flag(cells) {
        Some(CellKind::Numbers)
    } else if has_number(cells) {
        None
    } else {
        Some(CellKind::Flags)
    }
}

fn has_flag(cells: &[Cell]) -> bool
    ensures { result ≡ list_any spec.is_flag cells.now }
{
    for cell in cells.iter() {
        if is_flag(cell) {
            return true;
        }
    }
    false
}

fn is_flag(cell: &Cell) -> bool
    ensures { result ≡ spec.is_flag cell.now }
{
    matches!(cell, Cell::Flag(_))
}

fn has_number(cells: &[Cell]) -> bool
    ensures { result ≡ list_any kinds.is_number cells.now }
{
    for cell in cells.iter() {
        if cell.is_number() {
            return true;
        }
    }
    false
}
