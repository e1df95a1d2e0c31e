// Reading cube texts.
ghost use Rattle.std.specs.Prelude.{◌≡◌, ◌≤◌, IfErr, IfOk, IsErrOf, List, MatchOption, length};
ghost use Rattle.serde_json.specs.Data.{Data};
ghost use Rattle.serde_json.specs.View.{view};
ghost use Rattle.oe_cell.specs.declared.cell.Cell.{Cell};
ghost use Rattle.oe_dims.specs.Cube.{Cube};
ghost use Rattle.oe_dims.specs.Dimensions.{Dimensions};
ghost use Rattle.oe_dims.specs.declared.kind.CellKind.{CellKind};
ghost use Rattle.oe_render.specs.CubeText.{IsCubeText, IsCubeValue, IsNoCubeValue, IsReadable, IsValueText, most_text};
ghost use Rattle.oe_render.specs.Text.{cube_text};

use crate::cells::{kind_of, read_cells};
use crate::dimensions::read_shape;
use crate::members::{has_text, list_in};
use oe_cell::Cell;
use oe_dims::{CellKind, Shape};
use oe_memory::OutOfMemory;
use serde_json::Value;
use std::alloc::Global;

/// The most bytes of a cube text.
const MOST_TEXT: usize = 1048576;

/// The cube that a text says: its shape, the kind of its cells, and the cells in row-major order.
#[derive(Drop)]
pub struct CubeText {
    pub shape: Shape,
    pub kind: CellKind,
    pub cells: Vec<Cell>,
}

/// Why bytes were not read as a cube text.
#[derive(Clone, Copy, PartialEq, Eq)]
pub enum CubeTextFail {
    /// The bytes are no cube text.
    Invalid,
    /// An allocation was refused.
    OutOfMemory,
}

/// The cube that the bytes are the text of: JSON of at most 1048576 bytes in the reading of `serde_json`, whose members
/// `type`, `dimensions` and `data` say what a result text says, with members and blanks in any order. Other members are
/// ignored, and instants have either spelling.
///
/// Refuses: `Invalid` exactly where the bytes are no cube text; `OutOfMemory` where an allocation was refused.
pub fn read_cube_text(alloc: Global, bytes: &[u8]) -> Result<CubeText, CubeTextFail>
    ensures text { IfOk result (λ c. IsCubeText bytes.now c.shape c.kind c.cells.items) }
    ensures invalid { IsErrOf result CubeTextFail.Invalid →
        (shape : Dimensions) (kind : CellKind) (cells : List Cell)
        → ¬ IsCubeText bytes.now shape kind cells }
    // the text of a cube of one kind is read as that cube
    ensures reads_back { (cube : Cube Cell) → IsReadable cube → bytes.now ≡ cube_text cube
        → length bytes.now ≤ most_text → IfErr result (λ e. e ≡ CubeTextFail.OutOfMemory)
        × IfOk result (λ c. (c.shape ≡ cube.shape) × (c.cells.items ≡ cube.cells)) }
{
    read_text(alloc, bytes)
}

fn read_text(alloc: Global, bytes: &[u8]) -> Result<CubeText, CubeTextFail>
    ensures text { IfOk result (λ c. IsCubeText bytes.now c.shape c.kind c.cells.items) }
    ensures invalid { IsErrOf result CubeTextFail.Invalid →
        (shape : Dimensions) (kind : CellKind) (cells : List Cell)
        → ¬ IsCubeText bytes.now shape kind cells }
{
    match read_json(alloc, bytes) {
        Ok(Some(value)) => match read_value(alloc, &value) {
            Ok(Some(cube)) => Ok(cube),
            Ok(None) => Err(CubeTextFail::Invalid),
            Err(_) => Err(CubeTextFail::OutOfMemory),
        },
        Ok(None) => Err(CubeTextFail::Invalid),
        Err(_) => Err(CubeTextFail::OutOfMemory),
    }
}

/// The value whose JSON text the bytes are, none where they are not.
fn read_json(alloc: Global, bytes: &[u8]) -> Result<Option<Value>, OutOfMemory>
    ensures { IfOk result (λ read. MatchOption read ((d : Data) → ¬ IsValueText bytes.now d)
        (λ value. IsValueText bytes.now (view value))) }
{
    if bytes.len() > MOST_TEXT {
        return Ok(None);
    }
    match Value::from_slice(alloc, bytes) {
        Ok(value) => Ok(Some(value)),
        Err(error) if error.is_memory() => Err(OutOfMemory),
        Err(_) => Ok(None),
    }
}

/// The cube that a value says, none where it says none.
fn read_value(alloc: Global, value: &Value) -> Result<Option<CubeText>, OutOfMemory>
    ensures { IfOk result (λ read. MatchOption read (IsNoCubeValue (view value.now))
        (λ c. IsCubeValue (view value.now) c.shape c.kind c.cells.items)) }
{
    if !has_text(value, "type", "FractionCube") {
        return Ok(None);
    }
    let Some(dimensions) = list_in(value, "dimensions") else {
        return Ok(None);
    };
    let Some(data) = list_in(value, "data") else {
        return Ok(None);
    };
    let Some(shape) = read_shape(alloc, dimensions)? else {
        return Ok(None);
    };
    let Some(cells) = read_cells(alloc, data)? else {
        return Ok(None);
    };
    if !shape.is_cube(&cells) {
        return Ok(None);
    }
    match kind_of(&cells) {
        Some(kind) => Ok(Some(CubeText { shape, kind, cells })),
        None => Ok(None),
    }
}
