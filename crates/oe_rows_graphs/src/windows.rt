// The answers to lines about the windows of steps.
use oe_check::Checked;
use oe_lines::{Answers, Fault, Line, push_number, push_window};
use oe_plan::{Schedule, order_of, windows_of};
use oe_window::{Window, holds, whole};
use std::alloc::Global;
use std::thread::{self, Threads};

/// Spells the windows of all steps for a chunk.
pub(crate) fn spell_windows(
    rt: &impl Threads,
    alloc: Global,
    checked: Checked,
    words: &str,
    answers: &mut Answers,
) -> Result<(), Fault> {
    let mut line = Line::new(alloc, words);
    let chunk = line.window();
    line.report(answers);
    let windows = windows_for(rt, alloc, &checked, &chunk, answers)?;
    for window in &windows {
        push_window(" | ", window, answers);
    }
    Ok(())
}

/// The windows of the steps for a chunk that lies in the result and is not empty.
fn windows_for(
    rt: &impl Threads,
    alloc: Global,
    checked: &Checked,
    chunk: &Window,
    answers: &mut Answers,
) -> Result<Vec<Window>, Fault> {
    let steps = order_of(alloc, checked)?;
    let (count, width) = thread::join(rt, || steps.steps().len(), || steps.width());
    push_number("steps ", count, answers);
    push_number(" width ", width, answers);
    if chunk.is_empty() || !holds(&whole(checked.shape(checked.result())), chunk) {
        return Err(Fault::Line);
    }
    let mut windows = vec![in alloc; *chunk; steps.steps().len()]?;
    let schedule = Schedule::new(steps, checked.result(), None, 0);
    windows_of(checked, &schedule, chunk, &mut windows);
    Ok(windows)
}
