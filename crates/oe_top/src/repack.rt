// The command `repack`: a mounted collection as a cube file in least widths.
ghost use Rattle.std.specs.Prelude.{◌≡◌, ◌<◌, Some, length, slice_get, true};
ghost use Rattle.oe_dims.specs.Names.{is_name};
ghost use Rattle.oe_sources.specs.Catalogue.{row_index, row_of};
ghost use Rattle.oe_sources.specs.CatalogueRows.{rows_of};
ghost use Rattle.oe_top.specs.Objects.{ForEachInputAndSpool};
ghost use Rattle.oe_top.specs.RepackAnswer.{RepackAnswers};

use crate::short_name::ShortName;
use oe_dims::{Kind, Text};
use oe_outside::{Gate, Sink};
use oe_sources::{Catalogue, RepackFail};
use std::alloc::Global;

/// Why `repack` did not finish.
#[derive(Drop)]
pub enum RepackRefusal {
    /// No collection is mounted under the id.
    NotMounted,
    /// The collection could not be read.
    ReadFault,
    /// This position of the collection, by its row-major number, is damaged.
    Damaged { id: ShortName, number: u64 },
    /// The output could not be written.
    WriteFault,
    /// An allocation was refused.
    OutOfMemory,
}

/// Writes the cube file of the collection that is mounted under an id, at a gate that is entered before each read of a
/// date.
pub(crate) fn repack<O: Sink, G: Gate>(
    alloc: Global,
    id: &Text,
    out: &mut O,
    catalogue: &mut Catalogue,
    gate: &G,
) -> Result<(), RepackRefusal>
    requires { is_name id.now ≡ true }
    ensures { ForEachInputAndSpool O.written O.faults out.old out.new (rows_of seen catalogue.old)
        (rows_of seen catalogue.new) (λ before after. RepackAnswers id.now before after result) }
{
    let Some(place) = catalogue.place(id.as_str()) else {
        return Err(RepackRefusal::NotMounted);
    };
    // Each date is read twice, and so is a collection without t.
    let dates = catalogue.shape(place).count(Kind::Time).unwrap_or(1);
    gate.open(2 * u64::from(dates));
    let end = write_anew(alloc, id, place, out, catalogue, gate);
    gate.close();
    end
}

/// Writes the cube file of the collection at a place, which is mounted under an id, at a gate that is open.
fn write_anew<O: Sink, G: Gate>(
    alloc: Global,
    id: &Text,
    place: u32,
    out: &mut O,
    catalogue: &mut Catalogue,
    gate: &G,
) -> Result<(), RepackRefusal>
    requires id { is_name id.now ≡ true }
    requires index { Some place ≡ row_index (rows_of seen catalogue.old) id.now }
    requires within { place < length (rows_of seen catalogue.old) }
    requires found { slice_get (rows_of seen catalogue.old) place
        ≡ row_of (rows_of seen catalogue.old) id.now }
    ensures { ForEachInputAndSpool O.written O.faults out.old out.new (rows_of seen catalogue.old)
        (rows_of seen catalogue.new) (λ before after. RepackAnswers id.now before after result) }
{
    match oe_sources::repack(alloc, catalogue, place, id, out, gate) {
        Ok(()) => Ok(()),
        Err(RepackFail::SourceFailed) => Err(RepackRefusal::ReadFault),
        Err(RepackFail::SourceDamaged(number)) => Err(RepackRefusal::Damaged {
            id: ShortName::of(id),
            number,
        }),
        Err(RepackFail::SinkFailed) => Err(RepackRefusal::WriteFault),
        Err(RepackFail::OutOfMemory) => Err(RepackRefusal::OutOfMemory),
    }
}
