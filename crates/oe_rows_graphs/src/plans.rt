// Resolved graphs, and the figures and plans of graphs.
ghost use Rattle.std.specs.Prelude.{◌<◌, length};
ghost use Rattle.oe_plan.specs.Ranges.{IsWithinRanges};

use crate::checked::{Sizes, checked_of, sizes_of};
use crate::repeated::spell_repeated;
use crate::resolved::spell_resolved;
use crate::windows::spell_windows;
use oe_check::Checked;
use oe_dims::{CellKind, Dims, DimsRow, Shape, Text};
use oe_lines::{Answers, Fault, Line, end_line, names_of, push, push_number, push_window};
use oe_plan::{Plan, PlanFail, figures};
use oe_slab::{SlabNumbersFail, slab_figures};
use std::alloc::Global;
use std::thread::Threads;

/// The most arguments of a step that are looked for.
const MOST_ARGUMENTS: u32 = 4;

/// 2024-01-01 in seconds, and a day.
const FIRST_DATE: i64 = 1704067200;

const DAY: i64 = 86400;

/// Appends the answers to lines about plans.
pub(crate) fn answer_plans(
    rt: &impl Threads,
    alloc: Global,
    text: &str,
    answers: &mut Answers,
) -> Result<(), Fault> {
    let mut dims = Dims {
        rows: Vec::new(alloc),
    };
    for line in text.lines() {
        let mut line = Line::new(alloc, line);
        match line.word() {
            "#" => {}
            "collection" => dims.rows.push(row_of(&mut line)?)?,
            verb => answer_to(rt, verb, &mut line, &dims, answers)?,
        }
        line.report(answers);
    }
    Ok(())
}

/// The row of the words `ID DATES BANDS SIDE`.
fn row_of(line: &mut Line) -> Result<DimsRow, Fault> {
    let id = Text::of(line.alloc(), line.word())?;
    let dates = line.number();
    let bands = line.word();
    let shape = shape_of_sides(line.alloc(), dates, bands, line.number())?;
    Ok(DimsRow {
        id,
        shape,
        kind: CellKind::Numbers,
    })
}

fn shape_of_sides(alloc: Global, dates: u32, bands: &str, side: u32) -> Result<Shape, Fault> {
    let t = steps(alloc, FIRST_DATE, DAY, dates)?;
    let bands = names_of(alloc, bands)?;
    let y = steps(alloc, 0, -1, side)?;
    let x = steps(alloc, 0, 1, side)?;
    match Shape::new(4326, Some(t), bands, Some(y), Some(x)) {
        Ok(shape) => Ok(shape),
        Err(_) => Err(Fault::Line),
    }
}

/// So many labels in steps from a first one on.
fn steps(alloc: Global, first: i64, step: i64, count: u32) -> Result<Vec<i64>, Fault> {
    let mut labels = Vec::new(alloc);
    let mut label = first;
    for _index in 0..count {
        labels.push(label)?;
        label = label.wrapping_add(step);
    }
    Ok(labels)
}

fn answer_to(
    rt: &impl Threads,
    verb: &str,
    line: &mut Line,
    dims: &Dims,
    answers: &mut Answers,
) -> Result<(), Fault> {
    let alloc = line.alloc();
    let words = line.before(" < ");
    let graph = line.rest();
    match verb {
        "resolve" => return spell_resolved(alloc, words, graph, answers),
        "repeated" => return spell_repeated(alloc, words, graph, answers),
        _ => {}
    }
    let checked = checked_of(alloc, graph, dims)?;
    match verb {
        "figures" => spell_figures(alloc, checked, sizes_of(words)?, answers)?,
        "slab" => spell_slab(alloc, checked, sizes_of(words)?, answers)?,
        "plan" => spell_planned(alloc, checked, sizes_of(words)?, answers),
        "windows" => spell_windows(rt, alloc, checked, words, answers)?,
        _ => return Err(Fault::Line),
    }
    end_line(answers);
    Ok(())
}

fn spell_figures(
    alloc: Global,
    checked: Checked,
    sizes: Sizes,
    answers: &mut Answers,
) -> Result<(), Fault>
    requires { IsWithinRanges sizes.0 sizes.1 }
{
    let found = figures(alloc, &checked, sizes.0, sizes.1)?;
    push_number("bound ", found.bound, answers);
    push_number(" chunks ", found.chunks, answers);
    Ok(())
}

fn spell_slab(
    alloc: Global,
    checked: Checked,
    sizes: Sizes,
    answers: &mut Answers,
) -> Result<(), Fault>
    requires { IsWithinRanges sizes.0 sizes.1 }
{
    match slab_figures(alloc, &checked, sizes.0) {
        Ok(found) => {
            push_number("bound ", found.bound, answers);
            push_number(" chunks ", found.chunks, answers);
            Ok(())
        }
        Err(SlabNumbersFail::NoTimeFold) => {
            push("no time fold", answers);
            Ok(())
        }
        Err(SlabNumbersFail::OutOfMemory) => Err(Fault::OutOfMemory),
    }
}

fn spell_planned(alloc: Global, checked: Checked, sizes: Sizes, answers: &mut Answers)
    requires { IsWithinRanges sizes.0 sizes.1 }
{
    match Plan::new(alloc, checked, sizes.0, sizes.1) {
        Ok(plan) => spell_plan(&plan, answers),
        Err(PlanFail::TooLarge(cells)) => push_number("too large ", cells, answers),
        Err(PlanFail::OutOfMemory) => answers.note(Fault::OutOfMemory),
    }
}

fn spell_plan(plan: &Plan, answers: &mut Answers) {
    let count = plan.chunks();
    push_number("chunks ", count, answers);
    push_number(" largest ", plan.largest(), answers);
    push_number(" scratch ", plan.scratch(), answers);
    push_number(" workers ", plan.workers(), answers);
    push_number(" width ", plan.width(), answers);
    if count > 0 {
        push_window(" | ", &plan.chunk(count - 1), answers);
    }
    for step in 0..u32::try_from(plan.steps().len()).unwrap_or(0) {
        spell_step(plan, step, answers);
    }
}

/// Spells the node of a step, each of its arguments with the step that it is, and how many of the steps before it have
/// its slot.
fn spell_step(plan: &Plan, step: u32, answers: &mut Answers) {
    if step as usize >= plan.steps().len() {
        return answers.note(Fault::Line);
    }
    push_number(" | node ", plan.node(step), answers);
    for number in 0..MOST_ARGUMENTS {
        if let Some(taken) = plan.argument(step, number) {
            push_number(" takes ", number, answers);
            push_number("=", taken, answers);
        }
    }
    push_number(" shares ", shares(plan, step), answers);
}

/// How many of the steps before one have its slot.
fn shares(plan: &Plan, step: u32) -> u32
    requires { step < length plan.now.order.steps }
{
    let slot = plan.slot(step);
    let mut count: u32 = 0;
    for earlier in 0..step {
        if plan.slot(earlier) == slot {
            count = count.saturating_add(1);
        }
    }
    count
}
