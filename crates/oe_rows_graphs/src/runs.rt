// Runs of graphs, in which calls of objects fail.
ghost use Rattle.oe_plan.specs.Ranges.{IsWithinRanges};

use crate::attempt::{Counts, Failing, attempt};
use crate::checked::{Sizes, sizes_of};
use crate::failures::{spell_entered, spell_failures};
use crate::gate::CountGate;
use oe_lines::{Answers, Fault, end_line, first_word, parts_of, push, push_number};
use std::alloc::Global;
use std::thread::Threads;

/// No call of an object has this number.
pub(crate) const MOST_CALLS: u64 = 1000;

/// What a run is carried out over.
#[derive(Clone, Copy)]
pub(crate) enum Object {
    Input,
    Collections,
    Spool,
    Output,
    Parts,
}

/// Appends the answers to lines about runs.
pub(crate) fn answer_runs<R: Threads + Sync>(
    rt: &R,
    alloc: Global,
    text: &str,
    answers: &mut Answers,
) -> Result<(), Fault> {
    let mut cubes = Vec::new(alloc);
    for line in text.lines() {
        let (word, rest) = first_word(line);
        match word {
            "#" => {}
            "catalogue" => cubes.clear(),
            "cube" | "mosaic" | "remainder" | "keep" => cubes.push(line)?,
            _ => answer_run(rt, alloc, word, rest, &cubes, answers)?,
        }
    }
    Ok(())
}

/// Appends the answer of a line that evaluates a graph or calls `openeo`.
fn answer_run<'a, R: Threads + Sync>(
    rt: &R,
    alloc: Global,
    word: &str,
    rest: &'a str,
    cubes: &[&'a str],
    answers: &mut Answers,
) -> Result<(), Fault> {
    match word {
        "fails" => spell_failures(rt, alloc, cubes, rest, answers),
        "entered" => spell_entered(rt, alloc, cubes, rest, answers),
        _ => answer_graph(rt, alloc, word, rest, cubes, answers),
    }
}

/// Appends the answer of a line that evaluates a graph.
fn answer_graph<R: Threads + Sync>(
    rt: &R,
    alloc: Global,
    word: &str,
    rest: &str,
    cubes: &[&str],
    answers: &mut Answers,
) -> Result<(), Fault> {
    let (words, graph) = parts_of(rest, " < ")?;
    let sizes = sizes_of(words)?;
    match word {
        "run" => spell_run(rt, alloc, cubes, sizes, graph, answers),
        "resume" => spell_resumed(rt, alloc, cubes, sizes, graph, answers),
        _ => Err(Fault::Line),
    }
}

/// Spells the number of chunks, the number of evaluations, how often the gate was entered for each chunk, the text and
/// the bytes of the spool of a run in which no call fails.
fn spell_run<R: Threads + Sync>(
    rt: &R,
    alloc: Global,
    cubes: &[&str],
    sizes: Sizes,
    graph: &str,
    answers: &mut Answers,
) -> Result<(), Fault>
    requires { IsWithinRanges sizes.0 sizes.1 }
{
    let gate = CountGate::new(alloc)?;
    let mut left = Answers::new(alloc);
    let counts = attempt(
        rt,
        alloc,
        cubes,
        sizes,
        graph,
        none_failing(),
        &gate,
        &mut left,
    )?;
    push_number("", counts.chunks, answers);
    push_number(" ", counts.evaluations, answers);
    spell_entries(&gate, counts.chunks, answers);
    push(" ", answers);
    answers.extend(left.bytes());
    end_line(answers);
    Ok(())
}

/// Spells behind a blank how often a gate was entered for each of so many chunks, with commas between the numbers.
pub(crate) fn spell_entries(gate: &CountGate, chunks: u64, answers: &mut Answers) {
    for chunk in 0..chunks {
        let Some(count) = gate.entered(chunk) else {
            return answers.note(Fault::Line);
        };
        push_number(if chunk == 0 { " " } else { "," }, count, answers);
    }
}

/// Spells of each object, for each of its calls in turn, the number of evaluations of the run in which that call failed.
fn spell_resumed<R: Threads + Sync>(
    rt: &R,
    alloc: Global,
    cubes: &[&str],
    sizes: Sizes,
    graph: &str,
    answers: &mut Answers,
) -> Result<(), Fault>
    requires { IsWithinRanges sizes.0 sizes.1 }
{
    let mut whole = Answers::new(alloc);
    let gate = CountGate::new(alloc)?;
    attempt(
        rt,
        alloc,
        cubes,
        sizes,
        graph,
        none_failing(),
        &gate,
        &mut whole,
    )?;
    for object in [Object::Collections, Object::Spool, Object::Output] {
        spell_calls(
            rt,
            alloc,
            cubes,
            sizes,
            graph,
            object,
            whole.bytes(),
            answers,
        )?;
    }
    end_line(answers);
    Ok(())
}

/// Spells the same of one object. `whole` is what a run leaves in which no call fails.
fn spell_calls<R: Threads + Sync>(
    rt: &R,
    alloc: Global,
    cubes: &[&str],
    sizes: Sizes,
    graph: &str,
    object: Object,
    whole: &[u8],
    answers: &mut Answers,
) -> Result<(), Fault>
    requires { IsWithinRanges sizes.0 sizes.1 }
{
    push(object_word(object), answers);
    for number in 0..MOST_CALLS {
        let calls = [number];
        let failing = failing_of(object, &calls);
        let gate = CountGate::new(alloc)?;
        let mut left = Answers::new(alloc);
        let counts = attempt(rt, alloc, cubes, sizes, graph, failing, &gate, &mut left)?;
        if counts.refusals == 0 {
            break;
        }
        spell_resumption(counts, left.bytes(), whole, answers);
    }
    Ok(())
}

fn object_word(object: Object) -> &'static str {
    match object {
        Object::Input => "input",
        Object::Collections => "reads",
        Object::Spool => " spool",
        Object::Output => " writes",
        Object::Parts => " parts",
    }
}

/// Spells the number of evaluations, and `?` where a run left others records or another text.
fn spell_resumption(counts: Counts, left: &[u8], whole: &[u8], answers: &mut Answers) {
    push_number(" ", counts.evaluations, answers);
    if left != whole {
        answers.extend(&[b'?']);
    }
}

pub(crate) fn none_failing<'a>() -> Failing<'a> {
    Failing {
        input: &[],
        reads: &[],
        spool: &[],
        writes: &[],
        parts: &[],
    }
}

/// These calls of an object.
pub(crate) fn failing_of(object: Object, calls: &[u64]) -> Failing<'_> {
    match object {
        Object::Input => Failing {
            input: calls,
            ..none_failing()
        },
        Object::Collections => Failing {
            reads: calls,
            ..none_failing()
        },
        Object::Spool => Failing {
            spool: calls,
            ..none_failing()
        },
        Object::Output => Failing {
            writes: calls,
            ..none_failing()
        },
        Object::Parts => Failing {
            parts: calls,
            ..none_failing()
        },
    }
}
