// The line on the error output that says why a command did not finish. It is written piece by piece, since writing it
// takes no memory.
ghost use Rattle.std.specs.Prelude.{◌++◌, codes};
ghost use Rattle.oe_outside.specs.Stream.{error_output};
ghost use Rattle.oe_judge.specs.Texts.{behind_blank};
ghost use Rattle.oe_top.specs.Lines.{Says, detail_of, line_of, number_said, status_and_code};
ghost use Rattle.oe_top.specs.Written.{Writes};

use crate::refusal::Refusal;
use crate::short_name::ShortName;
use itoa::Buffer;
use oe_outside::{Failed, Sink};

/// Says why a command did not finish, in one line.
pub(crate) fn say<E: Sink>(refusal: &Refusal, err: &mut E)
    ensures { Says (line_of refusal.now) (error_output E.written E.faults err.old err.new) }
{
    // What became of the line changes nothing.
    let _ = write_line(refusal, err);
}

/// Writes the line of a refusal, up to the first write that fails.
fn write_line<E: Sink>(refusal: &Refusal, err: &mut E) -> Result<(), Failed>
    ensures { Writes (line_of refusal.now) (E.written err.old) (E.faults err.old)
        (E.written err.new) (E.faults err.new) result }
{
    match write_code(refusal, err) {
        Ok(()) => err.write(b"\n"),
        Err(failed) => Err(failed),
    }
}

/// Writes a line without its line feed.
fn write_code<E: Sink>(refusal: &Refusal, err: &mut E) -> Result<(), Failed>
    ensures { Writes (codes "openeo: " ++ (status_and_code refusal.now).1 ++ detail_of refusal.now)
        (E.written err.old) (E.faults err.old) (E.written err.new) (E.faults err.new) result }
{
    match write_both(b"openeo: ", refusal.code().as_bytes(), err) {
        Ok(()) => write_detail(refusal, err),
        Err(failed) => Err(failed),
    }
}

/// Writes what stands behind the code.
fn write_detail<E: Sink>(refusal: &Refusal, err: &mut E) -> Result<(), Failed>
    ensures { Writes (detail_of refusal.now) (E.written err.old) (E.faults err.old)
        (E.written err.new) (E.faults err.new) result }
{
    match refusal {
        Refusal::Graph(fault) => write_node(fault.node.as_str(), err),
        Refusal::TooLarge(cells) => write_number(*cells, err),
        Refusal::Overflow(number) => write_number(u128::from(*number), err),
        Refusal::Damaged { id, number } => write_damage(id, *number, err),
        Refusal::PartDamaged { name, number } => write_damage(name, *number, err),
        Refusal::PartGraph(name)
        | Refusal::PartShape(name)
        | Refusal::PartSides(name)
        | Refusal::PartOverlap(name) => write_both(b" ", name.as_slice(), err),
        Refusal::ChunkMissing(chunk) => write_number(u128::from(*chunk), err),
        Refusal::SpoolDamaged(number) => write_number(u128::from(*number), err),
        Refusal::Usage
        | Refusal::NoCubeText
        | Refusal::NotMounted
        | Refusal::NoTimeFold
        | Refusal::ChunkRange
        | Refusal::ReadFault
        | Refusal::SpoolFault
        | Refusal::WriteFault
        | Refusal::OutOfMemory => Ok(()),
    }
}

/// Writes a node behind a blank, and nothing for the graph as a whole.
fn write_node<E: Sink>(node: &str, err: &mut E) -> Result<(), Failed>
    ensures { Writes (behind_blank node.now) (E.written err.old) (E.faults err.old)
        (E.written err.new) (E.faults err.new) result }
{
    if node.is_empty() {
        Ok(())
    } else {
        write_both(b" ", node.as_bytes(), err)
    }
}

/// Writes a number behind a blank.
fn write_number<E: Sink>(number: u128, err: &mut E) -> Result<(), Failed>
    ensures { Writes (number_said number) (E.written err.old) (E.faults err.old)
        (E.written err.new) (E.faults err.new) result }
{
    write_both(b" ", Buffer::new().format(number).as_bytes(), err)
}

/// Writes the name of a collection or a part and the number of a cell, each behind a blank.
fn write_damage<E: Sink>(id: &ShortName, number: u64, err: &mut E) -> Result<(), Failed>
    ensures { Writes (codes " " ++ id.now ++ number_said number) (E.written err.old)
        (E.faults err.old) (E.written err.new) (E.faults err.new) result }
{
    match write_both(b" ", id.as_slice(), err) {
        Ok(()) => write_number(u128::from(number), err),
        Err(failed) => Err(failed),
    }
}

/// Writes two pieces, the second where the first was written.
fn write_both<E: Sink>(first: &[u8], second: &[u8], err: &mut E) -> Result<(), Failed>
    ensures { Writes (first.now ++ second.now) (E.written err.old) (E.faults err.old)
        (E.written err.new) (E.faults err.new) result }
{
    match err.write(first) {
        Ok(()) => err.write(second),
        Err(failed) => Err(failed),
    }
}
