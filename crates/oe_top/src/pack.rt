// The command `pack`: from a result text to a cube file.
ghost use Rattle.std.specs.Prelude.{◌≡◌, ◌⊎◌, true, length, IfErr, OnOk};
ghost use Rattle.std.specs.List.{list_all};
ghost use Rattle.oe_cube.specs.Kinds.{is_null_or_of};
ghost use Rattle.oe_dims.specs.Dimensions.{cell_count};
ghost use Rattle.oe_dims.specs.Names.{is_name};
ghost use Rattle.oe_outside.specs.Faults.{HasCauseOf};
ghost use Rattle.oe_sources.specs.Packed.{AppendsPacked, AppendsPartOfPacked};
ghost use Rattle.oe_top.specs.Objects.{ForEachSpoolAndRows};
ghost use Rattle.oe_top.specs.PackAnswer.{PackAnswers};

use crate::input::read_input;
use oe_dims::Text;
use oe_outside::{ReadRefusal, Sink, Source};
use oe_render::{CubeText, CubeTextFail, read_cube_text};
use oe_sources::PackFail;
use std::alloc::Global;

/// Why `pack` did not finish.
#[derive(Clone, Copy, PartialEq, Eq)]
pub enum PackRefusal {
    /// The input is no result text.
    NoCubeText,
    /// The input could not be read.
    ReadFault,
    /// The output could not be written.
    WriteFault,
    /// An allocation was refused.
    OutOfMemory,
}

/// Writes the cube file of the result text of the input, under an id.
pub(crate) fn pack<I: Source, O: Sink>(
    alloc: Global,
    id: &Text,
    input: &mut I,
    out: &mut O,
) -> Result<(), PackRefusal>
    requires { is_name id.now ≡ true }
    ensures { ForEachSpoolAndRows I.left I.faults O.written O.faults input.old out.old input.new
        out.new (λ before after. PackAnswers id.now before after result) }
{
    let bytes = match read_input(alloc, input) {
        Ok(bytes) => bytes,
        Err(ReadRefusal::Failed) => return Err(PackRefusal::ReadFault),
        Err(ReadRefusal::OutOfMemory) => return Err(PackRefusal::OutOfMemory),
    };
    match read_cube_text(alloc, &bytes) {
        Ok(cube) => write_file(alloc, id, &cube, out),
        Err(CubeTextFail::Invalid) => Err(PackRefusal::NoCubeText),
        Err(CubeTextFail::OutOfMemory) => Err(PackRefusal::OutOfMemory),
    }
}

/// Writes the cube file of a cube.
fn write_file<O: Sink>(
    alloc: Global,
    id: &Text,
    cube: &CubeText,
    out: &mut O,
) -> Result<(), PackRefusal>
    requires id { is_name id.now ≡ true }
    requires counted { length cube.now.cells.items ≡ cell_count cube.now.shape }
    requires of_kind { list_all (is_null_or_of cube.now.kind) cube.now.cells.items ≡ true }
    ensures packed { OnOk result (AppendsPacked id.now cube.now.shape cube.now.kind
        cube.now.cells.items (O.written out.old) (O.written out.new)) }
    ensures prefix { IfErr result (λ e. e ≡ PackRefusal.WriteFault →
        AppendsPartOfPacked id.now cube.now.shape cube.now.kind cube.now.cells.items
        (O.written out.old) (O.written out.new)) }
    ensures cause { HasCauseOf PackRefusal.WriteFault (O.faults out.old)
        (O.faults out.new) result }
    ensures nothing { IfErr result (λ e. e ≡ PackRefusal.OutOfMemory →
        (O.written out.new ≡ O.written out.old) × (O.faults out.new ≡ O.faults out.old)) }
    ensures only { IfErr result (λ e. (e ≡ PackRefusal.WriteFault) ⊎ (e ≡ PackRefusal.OutOfMemory)) }
{
    match oe_sources::pack(alloc, id, cube, out) {
        Ok(()) => Ok(()),
        Err(PackFail::SinkFailed) => Err(PackRefusal::WriteFault),
        Err(PackFail::OutOfMemory) => Err(PackRefusal::OutOfMemory),
    }
}
