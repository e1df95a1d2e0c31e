// The top call: from the words of a command to its status and its line.
ghost use Rattle.oe_sources.specs.CatalogueRows.{rows_of};
ghost use Rattle.oe_top.specs.Answer.{AnswersOver, Ends};
ghost use Rattle.oe_top.specs.Objects.{lends};

use crate::check::check;
use crate::demo::demo;
use crate::describe::{describe, describe_all};
use crate::endings::{
    ending_of_check, ending_of_demo, ending_of_describe, ending_of_join, ending_of_listing,
    ending_of_pack, ending_of_part, ending_of_repack, ending_of_run, ending_of_slab,
    ending_of_slab_plan,
};
use crate::explain::explain;
use crate::join::join;
use crate::pack::pack;
use crate::part::part;
use crate::plan::plan;
use crate::refusal::Refusal;
use crate::repack::repack;
use crate::run::run;
use crate::say::say;
use crate::setup::Setup;
use crate::slab::slab;
use crate::slab_plan::slab_plan;
use crate::words::{Command, read_command};
use oe_dims::Text;
use oe_outside::{Gate, Sink, Source, Store};
use oe_parts::RunParts;
use oe_sources::Catalogue;
use std::thread::Threads;

/// Carries out the command that the words spell, and answers its exit status.
///
/// | Words | What it does |
/// |---|---|
/// | `run CX CY CT W` | evaluates the process graph of `input` and writes its result text |
/// | `part CX CY CT W FIRST END` | evaluates the chunks FIRST to END − 1 of that run, and writes a part file |
/// | `join` | writes the result text of the process graph of `input` from the parts of its run |
/// | `check` | writes `valid` where no fault stands in the process graph of `input` |
/// | `explain` | the same, and of a fault the lines that explain it |
/// | `plan CX CY CT W` | writes `bound B chunks N`: how many cells such a run holds at most, and its chunks |
/// | `slab CX CY CT` | as `run`, where slabs of CT dates at most are folded one after the other |
/// | `slabplan CX CY CT` | as `plan`, of such a run |
/// | `demo SEED SIDE CX CY CT W` | evaluates a graph over a generated collection: `cells N first A last B` |
/// | `pack ID` | writes the cube file of the result text of `input` under the id |
/// | `repack ID` | writes the cube file of the mounted collection of the id, in least widths |
/// | `describe` | writes the mounted collections as a JSON text, without their dimensions |
/// | `describe ID` | writes the mounted collection of the id as a JSON text, with its dimensions |
///
/// A graph is evaluated in chunks of CX × CY × CT labels with W workers. A line ends with a line feed.
///
/// Of a command that did not finish a line stands on `err`: `openeo: `, the code of the refusal, what it carries and
/// a line feed. `docs/formats.md` has the table of statuses with the line and the cause of each; of the commands here
/// they are 0 to 9 and 15. 1 comes exactly where the words spell no command, and each of 5, 7 and 8 only where a
/// fault counter rose.
///
/// A fault of `err` changes nothing. In statuses 1 to 6 and 9 of `run` nothing is written to `out`, and in 7, 8 and
/// 15 a prefix of the text stands there.
pub fn openeo<R: Threads + Sync, I: Source, O: Sink, E: Sink, P: Store, G: Gate, S: Store + Drop>(
    setup: &Setup<'_, R, G>,
    words: &[Text],
    input: &mut I,
    out: &mut O,
    err: &mut E,
    catalogue: &mut Catalogue,
    parts: &mut RunParts<S>,
    spool: &mut P,
) -> u8
    ensures { AnswersOver I.left I.faults O.written O.faults P.bytes P.faults E.written E.faults
        words.now parts.old input.old out.old spool.old (rows_of seen catalogue.old) err.old
        parts.new input.new out.new spool.new (rows_of seen catalogue.new) err.new result }
{
    match obey(setup, words, input, out, catalogue, parts, spool) {
        Ok(()) => 0,
        Err(refusal) => {
            say(&refusal, err);
            refusal.status()
        }
    }
}

fn obey<R: Threads + Sync, I: Source, O: Sink, P: Store, G: Gate, S: Store + Drop>(
    setup: &Setup<'_, R, G>,
    words: &[Text],
    input: &mut I,
    out: &mut O,
    catalogue: &mut Catalogue,
    parts: &mut RunParts<S>,
    spool: &mut P,
) -> Result<(), Refusal>
    ensures { let lent = lends I.left I.faults O.written O.faults P.bytes P.faults in Ends words.now
        parts.old parts.new (lent input.old out.old spool.old (rows_of seen catalogue.old))
        (lent input.new out.new spool.new (rows_of seen catalogue.new)) result }
{
    let alloc = setup.alloc;
    match read_command(words) {
        Some(Command::Run { size, workers }) => {
            ending_of_run(run(setup, (size, workers), input, out, catalogue, spool))
        }
        Some(
            Command::Part {
                size,
                workers,
                first,
                end,
            },
        ) => {
            let chunks = (first, end);
            ending_of_part(part(setup, (size, workers), chunks, input, out, catalogue, spool))
        }
        Some(Command::Join) => ending_of_join(join(alloc, input, out, catalogue, parts, spool)),
        Some(Command::Slab { size }) => {
            ending_of_slab(slab(setup, size, input, out, catalogue, spool))
        }
        Some(Command::Plan { size, workers }) => {
            ending_of_check(plan(alloc, size, workers, input, out, catalogue))
        }
        Some(Command::SlabPlan { size }) => {
            ending_of_slab_plan(slab_plan(alloc, size, input, out, catalogue))
        }
        Some(
            Command::Demo {
                seed,
                side,
                size,
                workers,
            },
        ) => ending_of_demo(demo(setup, (seed, side), (size, workers), out, spool)),
        Some(Command::Check) => ending_of_check(check(alloc, input, out, catalogue)),
        Some(Command::Explain) => ending_of_check(explain(alloc, input, out, catalogue)),
        Some(Command::Pack) => ending_of_pack(pack(alloc, &words[1], input, out)),
        Some(Command::Repack) => {
            ending_of_repack(repack(alloc, &words[1], out, catalogue, setup.gate))
        }
        Some(Command::DescribeAll) => ending_of_listing(describe_all(alloc, out, catalogue)),
        Some(Command::Describe) => ending_of_describe(describe(alloc, &words[1], out, catalogue)),
        None => Err(Refusal::Usage),
    }
}
