// The file of a mosaic.
ghost use Rattle.std.specs.Prelude.{◌≡◌, ◌≤◌, IfOk, length};
ghost use Rattle.std.specs.List.{list_all};
ghost use Rattle.oe_dims.specs.Names.{is_byte_in, is_name, is_name_byte};
ghost use Rattle.oe_mosaic.specs.MosaicText as spec;

use oe_dims::{Text, bytes_behind, index_of_byte, text_of};
use oe_memory::OutOfMemory;
use std::alloc::Global;

/// The most lines: that of the id, and those of 16 files.
const MOST_LINES: usize = 17;

/// The id of a mosaic, and the names of its files in order of priority.
#[derive(Drop)]
pub struct MosaicText {
    /// The id of the collection.
    pub id: Text,
    /// The names of the files of its parts, the first of which has priority.
    pub files: Vec<Text>,
}

/// Why the file of a mosaic was not read.
#[derive(Clone, Copy, PartialEq, Eq)]
pub enum MosaicTextFail {
    /// The number of the first bad line, from 1, or of the line that is missing behind the last one.
    Invalid(u32),
    /// An allocation was refused.
    OutOfMemory,
}

impl From<OutOfMemory> for MosaicTextFail {
    ghost use Rattle.std.specs.Prelude.{◌≡◌};
    ghost use Rattle.oe_mosaic.specs.declared.text.MosaicTextFail.TheVariants.{OutOfMemory as out_of_memory};

    ghost from_gives = { λ _ e. e ≡ out_of_memory };

    fn from(_error: OutOfMemory) -> MosaicTextFail {
        MosaicTextFail::OutOfMemory
    }
}

/// The id and the files that the bytes of a file name: lines, each with a line feed, of which the first is the id and
/// the 1 to 16 others are the files; each has 1 to 64 letters, digits, `_`, `-` and `.`.
///
/// Refuses: `Invalid` with the number of the first line that is none of these, or that is missing; out of memory.
pub fn read_mosaic(alloc: Global, bytes: &[u8]) -> Result<MosaicText, MosaicTextFail>
    ensures { spec.Reads spec.names_of (spec.names_in bytes.now) result }
{
    let mut names = read_names(alloc, bytes)?;
    let id = names.remove(0);
    Ok(MosaicText { id, files: names })
}

/// The names of the lines, at least two.
#[tactic(auto, using(crate::proofs::TextLemmas::no_more, crate::proofs::TextLemmas::cut_off, crate::proofs::TextLemmas::one_more, crate::proofs::TextLemmas::may_be_few))]
fn read_names(alloc: Global, bytes: &[u8]) -> Result<Vec<Text>, MosaicTextFail>
    ensures names { spec.Reads (λ names. names.items) (spec.names_in bytes.now) result }
    ensures some { IfOk result (λ names. 2 ≤ length names.items) }
{
    let mut names = Vec::new(alloc);
    let mut rest = bytes;
    let mut number: u32 = 1;
    while !rest.is_empty() {
        let end = index_of_byte(rest, b'\n');
        if end == rest.len() {
            return Err(MosaicTextFail::Invalid(number));
        }
        let (line, _) = rest.split_at(end);
        if !add_line(alloc, line, &mut names)? {
            return Err(MosaicTextFail::Invalid(number));
        }
        number += 1;
        rest = bytes_behind(rest, end);
    }
    if number < 3 {
        return Err(MosaicTextFail::Invalid(number));
    }
    Ok(names)
}

/// Adds the name of a line, where it may stand behind those before it. Answers whether it may.
#[tactic(auto, using(crate::proofs::TextLemmas::name_is_utf8))]
fn add_line(alloc: Global, line: &[u8], names: &mut Vec<Text>) -> Result<bool, OutOfMemory>
    ensures answer { IfOk result (λ added. added ≡ spec.may_follow names.old.items line.now) }
    ensures names { IfOk result (λ added. names.new.items
        ≡ spec.names_with names.old.items line.now added) }
{
    if !may_follow(names, line) {
        return Ok(false);
    }
    names.push(text_of(alloc, line)?)?;
    Ok(true)
}

/// Whether a line may stand behind the names before it.
fn may_follow(before: &[Text], line: &[u8]) -> bool
    ensures { result ≡ spec.may_follow before.now line.now }
{
    is_name(line) && before.len() < MOST_LINES
}

fn is_name(line: &[u8]) -> bool
    ensures { result ≡ is_name line.now }
{
    1 <= line.len() && line.len() <= 64 && are_name_bytes(line)
}

fn are_name_bytes(bytes: &[u8]) -> bool
    ensures { result ≡ list_all is_name_byte bytes.now }
{
    bytes.iter().all(|byte| is_name_byte(*byte))
}

fn is_name_byte(byte: u8) -> bool
    ensures { result ≡ is_name_byte byte }
{
    byte.is_ascii_uppercase()
        || byte.is_ascii_lowercase()
        || byte.is_ascii_digit()
        || byte == b'_'
        || byte == b'-'
        || byte == b'.'
}
