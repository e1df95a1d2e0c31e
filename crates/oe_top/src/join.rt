// The command `join`: from the parts of a run to the text of what its graph means.
ghost use Rattle.std.specs.Prelude.{◌≡◌, ◌<◌, length};
ghost use Rattle.oe_outside.specs.Faults.{NeverFalls};
ghost use Rattle.oe_parts.specs.Parts.{ArePartsRead, heads_of};
ghost use Rattle.oe_parts.specs.Whole.{AreWhole, RunOutline, SaysMisfit};
ghost use Rattle.oe_sources.specs.CatalogueRows.{rows_of};
ghost use Rattle.oe_top.specs.JoinAnswer.{IsMisfitNamed, JoinAnswers, JoiningEnds, OfNameAt};
ghost use Rattle.oe_top.specs.Joined.{JoinedIsRun};
ghost use Rattle.oe_top.specs.Objects.{ForEachInputOverRows, lends};

use crate::evaluation::{EvaluationFail, fail_of_text};
use crate::judge::{InputRefusal, judge_and_keep};
use crate::short_name::ShortName;
use oe_cell::Cell;
use oe_dims::Shape;
use oe_memory::OutOfMemory;
use oe_outside::{Pending, Sink, Source, Store};
use oe_parts::{LayFail, Misfit, RunParts, lay};
use oe_render::render;
use oe_sources::Catalogue;
use std::alloc::Global;

/// How many cells are held at once.
const CELLS: usize = 4096;

/// Why `join` did not finish.
#[derive(Drop)]
pub enum JoinRefusal {
    /// The input is no graph without a fault.
    Input(InputRefusal),
    /// The part with this name is of another graph.
    Graph(ShortName),
    /// The part with this name is of another result.
    Shape(ShortName),
    /// The part with this name has chunks of other sides than the first part.
    Sides(ShortName),
    /// The part with this name has a chunk that one before it has.
    Overlap(ShortName),
    /// No part has the chunk of this number.
    Missing(u64),
    /// An allocation was refused.
    OutOfMemory,
    /// The part with this name has no record for this position of the result, by its row-major number.
    Damaged { name: ShortName, number: u64 },
    /// The joining stopped as an evaluation does.
    Stopped(EvaluationFail),
}

impl From<OutOfMemory> for JoinRefusal {
    ghost use Rattle.std.specs.Prelude.{◌≡◌};
    ghost use Rattle.oe_top.specs.declared.join.JoinRefusal.TheVariants.{OutOfMemory as no_memory};

    ghost from_gives = { λ _ e. e ≡ no_memory };

    fn from(_error: OutOfMemory) -> JoinRefusal {
        JoinRefusal::OutOfMemory
    }
}

/// Writes the text of what the graph of the input means, from the parts of its run. No cell of a collection is read.
pub(crate) fn join<I: Source, O: Sink, P: Store, S: Store + Drop>(
    alloc: Global,
    input: &mut I,
    out: &mut O,
    catalogue: &Catalogue,
    parts: &mut RunParts<S>,
    spool: &mut P,
) -> Result<(), JoinRefusal>
    ensures { let lent = lends I.left I.faults O.written O.faults P.bytes P.faults in JoinAnswers
        parts.old parts.new (lent input.old out.old spool.old (rows_of seen catalogue.now))
        (lent input.new out.new spool.new (rows_of seen catalogue.now)) result }
{
    let (checked, graph) = match judge_and_keep(alloc, input, catalogue) {
        Ok(judged) => judged,
        Err(refusal) => return Err(JoinRefusal::Input(refusal)),
    };
    let node = checked.result();
    let shape = checked.shape(node);
    match parts.fit(&graph, checked.kind(node), shape) {
        Ok(()) => {}
        Err(misfit) => return Err(refusal_of_misfit(parts, misfit)),
    }
    let mut pending = Pending::new(alloc)?;
    write_joined(shape, parts, &mut pending, out, spool)
}

/// Lays the records of parts that are a whole into a spool, and writes the text of their result.
fn write_joined<O: Sink, P: Store, S: Store + Drop>(
    shape: &Shape,
    parts: &mut RunParts<S>,
    pending: &mut Pending,
    out: &mut O,
    spool: &mut P,
) -> Result<(), JoinRefusal>
    requires { (run : RunOutline) × (run.shape ≡ shape.now) × AreWhole run (heads_of parts.old) }
    ensures ends { ForEachInputOverRows O.written O.faults P.bytes P.faults out.old spool.old
        out.new spool.new (λ before after. JoiningEnds shape.now parts.old parts.new
        before after result) }
    ensures read { ArePartsRead parts.old parts.new }
    ensures out_count { NeverFalls (O.faults out.old) (O.faults out.new) }
    ensures spool_count { NeverFalls (P.faults spool.old) (P.faults spool.new) }
{
    match lay(parts, shape, spool, 0) {
        Ok(None) => {
            let mut cells = [Cell::Empty; CELLS];
            match render(shape, spool, 0, out, &mut cells, pending) {
                Ok(()) => Ok(()),
                Err(fail) => Err(JoinRefusal::Stopped(fail_of_text(fail))),
            }
        }
        Ok(Some(number)) => Err(JoinRefusal::Stopped(EvaluationFail::Overflow(number))),
        Err(LayFail::PartFailed(_)) => Err(JoinRefusal::Stopped(EvaluationFail::ReadFault)),
        Err(LayFail::PartDamaged { part, number }) => Err(JoinRefusal::Damaged {
            name: name_of(parts, part),
            number,
        }),
        Err(LayFail::SpoolFailed) => Err(JoinRefusal::Stopped(EvaluationFail::SpoolFault)),
    }
}

/// Why parts make no whole, by the name of the part to blame.
fn refusal_of_misfit<S: Store + Drop>(parts: &RunParts<S>, misfit: Misfit) -> JoinRefusal
    requires { (run : RunOutline) × SaysMisfit run (heads_of parts.now) misfit }
    ensures { IsMisfitNamed parts.now misfit result }
{
    match misfit {
        Misfit::Graph(index) => JoinRefusal::Graph(name_of(parts, index)),
        Misfit::Shape(index) => JoinRefusal::Shape(name_of(parts, index)),
        Misfit::Sides(index) => JoinRefusal::Sides(name_of(parts, index)),
        Misfit::Overlap(index) => JoinRefusal::Overlap(name_of(parts, index)),
        Misfit::Missing(chunk) => JoinRefusal::Missing(chunk),
    }
}

/// A copy of the name of the part at an index.
fn name_of<S: Store + Drop>(parts: &RunParts<S>, index: usize) -> ShortName
    requires { index < length parts.now }
    ensures { OfNameAt parts.now index (λ name. result ≡ name) }
{
    ShortName::of(parts.name(index))
}

/// Does nothing. Its contract says that parts of what a graph means, whose ranges have each chunk of its run once,
/// are a whole, in whatever order they are and by however many workers each was made; and that what is joined of them
/// is the text of that meaning, as a run writes it.
pub fn joined_is_run()
    ensures { JoinedIsRun }
{}
