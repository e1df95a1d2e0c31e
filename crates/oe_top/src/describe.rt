// The command `describe`: the mounted collections, or one of them, as the service describes them.
ghost use Rattle.std.specs.Prelude.{◌≡◌, ◌++◌, IfOk, IfSome, IsSome, codes};
ghost use Rattle.oe_dims.specs.Names.{same_name};
ghost use Rattle.oe_sources.specs.Catalogue.{row_of};
ghost use Rattle.oe_sources.specs.CatalogueRows.{rows_of};
ghost use Rattle.oe_top.specs.DescribeAnswer.{DescribeAnswers, IsRowAt, ListingAnswers, collection_text, collections_text};
ghost use Rattle.oe_top.specs.Objects.{ForEachInputAndSpool};

use oe_dims::{DimsRow, Text};
use oe_memory::OutOfMemory;
use oe_outside::Sink;
use oe_replies::{collection_body, collections_body};
use oe_sources::Catalogue;
use std::alloc::Global;

/// Why a text was not written.
#[derive(Clone, Copy, PartialEq, Eq)]
pub enum UnwrittenCause {
    /// The output could not be written.
    WriteFault,
    /// An allocation was refused.
    OutOfMemory,
}

/// Why a collection was not described.
#[derive(Clone, Copy, PartialEq, Eq)]
pub enum DescribeRefusal {
    /// No collection is mounted under the id.
    NotMounted,
    /// Its text was not written.
    Unwritten(UnwrittenCause),
}

/// Writes the mounted collections, by rising ids and without their dimensions. No collection is read.
pub(crate) fn describe_all<O: Sink>(
    alloc: Global,
    out: &mut O,
    catalogue: &Catalogue,
) -> Result<(), UnwrittenCause>
    ensures { ForEachInputAndSpool O.written O.faults out.old out.new (rows_of seen catalogue.now)
        (rows_of seen catalogue.now) (λ before after. ListingAnswers before after result) }
{
    match text_of_all(alloc, catalogue) {
        Ok(text) => match out.write(&text) {
            Ok(()) => Ok(()),
            Err(_) => Err(UnwrittenCause::WriteFault),
        },
        Err(_) => Err(UnwrittenCause::OutOfMemory),
    }
}

/// Writes the collection that is mounted under an id, with its dimensions. It is not read.
pub(crate) fn describe<O: Sink>(
    alloc: Global,
    id: &Text,
    out: &mut O,
    catalogue: &Catalogue,
) -> Result<(), DescribeRefusal>
    ensures { ForEachInputAndSpool O.written O.faults out.old out.new (rows_of seen catalogue.now)
        (rows_of seen catalogue.now) (λ before after. DescribeAnswers id.now before after result) }
{
    if catalogue.place(id.as_str()).is_none() {
        return Err(DescribeRefusal::NotMounted);
    }
    match text_of_mounted(alloc, id, catalogue) {
        Ok(text) => match out.write(&text) {
            Ok(()) => Ok(()),
            Err(_) => Err(DescribeRefusal::Unwritten(UnwrittenCause::WriteFault)),
        },
        Err(_) => Err(DescribeRefusal::Unwritten(UnwrittenCause::OutOfMemory)),
    }
}

/// The text of all mounted collections.
fn text_of_all(alloc: Global, catalogue: &Catalogue) -> Result<Vec<u8>, OutOfMemory>
    ensures { IfOk result (λ text. text.items ≡ collections_text (rows_of seen catalogue.now)) }
{
    let dims = catalogue.dims()?;
    end_line(collections_body(alloc, &dims)?)
}

/// The text of the collection that is mounted under an id.
fn text_of_mounted(alloc: Global, id: &Text, catalogue: &Catalogue) -> Result<Vec<u8>, OutOfMemory>
    requires { IsSome (row_of (rows_of seen catalogue.now) id.now) }
    ensures { IfOk result (λ text. IfSome (row_of (rows_of seen catalogue.now) id.now)
        (λ row. text.items ≡ collection_text row)) }
{
    let dims = catalogue.dims()?;
    let index = index_of(&dims.rows, id.as_str());
    end_line(collection_body(alloc, &dims.rows[index])?)
}

/// The index of the first row with an id; how many rows there are, where none has it.
fn index_of(rows: &[DimsRow], id: &str) -> usize
    ensures { IsRowAt rows.now id.now result }
{
    for index in 0..rows.len() {
        if has_id(&rows[index], id) {
            return index;
        }
    }
    rows.len()
}

/// A row has this id.
fn has_id(row: &DimsRow, id: &str) -> bool
    ensures { result ≡ same_name row.now.id id.now }
{
    row.id.as_str() == id
}

/// A text with a line feed behind it.
fn end_line(text: Vec<u8>) -> Result<Vec<u8>, OutOfMemory>
    ensures { IfOk result (λ line. line.items ≡ text.items ++ codes "\n") }
{
    let mut line = text;
    line.push(b'\n')?;
    Ok(line)
}
