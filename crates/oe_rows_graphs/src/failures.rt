// Calls of `openeo`, while each call of one of its objects fails in turn.
use crate::attempt::Failing;
use crate::calls::{Answer, Called, answers_of, spell, spell_ending};
use crate::runs::{MOST_CALLS, Object, failing_of, none_failing, spell_entries};
use oe_lines::{Answers, Fault, end_line, first_word, last_other, number_of, push, push_number};
use std::alloc::Global;
use std::thread::Threads;

/// Spells what a call leaves in which nothing fails and, behind a semicolon, what each call leaves in which one call of
/// the object failed, where that differs from the one before it.
pub(crate) fn spell_failures<'a, R: Threads + Sync>(
    rt: &R,
    alloc: Global,
    cubes: &[&'a str],
    line: &'a str,
    answers: &mut Answers,
) -> Result<(), Fault> {
    let (object, line) = first_word(line);
    let object = object_of(object)?;
    let whole = call_over(rt, alloc, cubes, line, none_failing())?;
    spell_ending(alloc, &whole, answers);
    push(" ;", answers);
    spell_each(rt, alloc, cubes, line, object, &whole, answers)?;
    end_line(answers);
    Ok(())
}

/// Spells the status of a call in which nothing fails, and how often it entered the gate for each of so many chunks.
/// Where the first two were to wait for each other there, it says whether they met.
pub(crate) fn spell_entered<'a, R: Threads + Sync>(
    rt: &R,
    alloc: Global,
    cubes: &[&'a str],
    line: &'a str,
    answers: &mut Answers,
) -> Result<(), Fault> {
    let (chunks, line) = first_word(line);
    let chunks = number_of(chunks)?;
    let called = call_over(rt, alloc, cubes, line, none_failing())?;
    push_number("", called.status, answers);
    spell_entries(&called.gate, chunks, answers);
    match called.gate.have_met() {
        Some(true) => push(" met", answers),
        Some(false) => push(" apart", answers),
        None => {}
    }
    end_line(answers);
    Ok(())
}

/// What the call of a line leaves over the collections of these lines, while these calls of each object fail.
fn call_over<'a, R: Threads + Sync>(
    rt: &R,
    alloc: Global,
    cubes: &[&'a str],
    line: &'a str,
    failing: Failing<'_>,
) -> Result<Called, Fault> {
    let mut lines = cubes.to_vec(alloc)?;
    lines.push(line)?;
    let mut answers = answers_of(rt, alloc, &lines, failing)?;
    match answers.pop() {
        Some(answer) => called_by(answer),
        None => Err(Fault::Line),
    }
}

fn called_by(answer: Answer) -> Result<Called, Fault> {
    match answer.into_call() {
        Some(called) => Ok(called),
        None => Err(Fault::Line),
    }
}

fn object_of(word: &str) -> Result<Object, Fault> {
    match word {
        "input" => Ok(Object::Input),
        "reads" => Ok(Object::Collections),
        "spool" => Ok(Object::Spool),
        "writes" => Ok(Object::Output),
        "parts" => Ok(Object::Parts),
        _ => Err(Fault::Line),
    }
}

/// Spells the calls of which one of the object failed, until the command has no call of that number.
fn spell_each<'a, R: Threads + Sync>(
    rt: &R,
    alloc: Global,
    cubes: &[&'a str],
    line: &'a str,
    object: Object,
    whole: &Called,
    answers: &mut Answers,
) -> Result<(), Fault> {
    let mut before = answers.bytes().len();
    for number in 0..MOST_CALLS {
        let calls = [number];
        let one = call_over(rt, alloc, cubes, line, failing_of(object, &calls))?;
        if one.status == 0 {
            spell_end(&one, whole, answers);
            return Ok(());
        }
        let from = answers.bytes().len();
        push_number(" ", one.status, answers);
        spell(alloc, " ", one.err.bytes(), answers);
        push(part_word(&one, whole, is_read_first(object, line)), answers);
        before = last_other(before, from, answers);
    }
    Err(Fault::Line)
}

/// Whether all calls of the object come before the first write of the output.
fn is_read_first(object: Object, line: &str) -> bool {
    match object {
        Object::Input | Object::Parts => true,
        Object::Collections => ["run ", "slab ", "part "]
            .iter()
            .any(|verb| line.starts_with(verb)),
        Object::Spool | Object::Output => false,
    }
}

fn spell_end(one: &Called, whole: &Called, answers: &mut Answers) {
    if one.out.bytes() != whole.out.bytes() || !one.err.bytes().is_empty() {
        push(" another output", answers);
    }
}

/// How much of the whole output stands there: nothing, where all is read first, or a part.
fn part_word(one: &Called, whole: &Called, read_first: bool) -> &'static str {
    let out = one.out.bytes();
    if read_first && out.is_empty() {
        " nothing"
    } else if whole.out.bytes().starts_with(out) {
        " part"
    } else {
        " another output"
    }
}
