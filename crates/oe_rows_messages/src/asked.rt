// What is asked of a book, and of the graph of a job.
use oe_book::{asset_ids, asset_name};
use oe_dims::Text;
use oe_graph::read_graph;
use oe_jobs::{Book, Job};
use oe_lines::{Answers, Fault, Line, end_line, push, push_number};
use std::alloc::Global;

/// Appends the id of a job, or `none`.
pub(crate) fn answer_job(job: Option<&Job>, answers: &mut Answers) {
    match job {
        Some(job) => push(job.id.as_str(), answers),
        None => push("none", answers),
    }
    end_line(answers);
}

/// Appends whether a job is queued or runs.
pub(crate) fn answer_busy(book: &Book, answers: &mut Answers) {
    push(if book.is_busy() { "yes\n" } else { "no\n" }, answers);
}

/// Appends where the user's job of an id stands, or `none`.
pub(crate) fn answer_place(
    line: &mut Line,
    book: &Book,
    answers: &mut Answers,
) -> Result<(), Fault> {
    let user = Text::of(line.alloc(), line.word())?;
    let id = Text::of(line.alloc(), line.rest())?;
    match book.find(&user, &id) {
        Some(index) => push_number("", index, answers),
        None => push("none", answers),
    }
    end_line(answers);
    Ok(())
}

/// Appends the names of the assets of a graph, each behind a blank, or `none` where the text is no graph.
pub(crate) fn answer_assets(alloc: Global, text: &str, answers: &mut Answers) -> Result<(), Fault> {
    match read_graph(alloc, text.as_bytes()) {
        Ok(graph) => push_names(alloc, &asset_ids(alloc, &graph)?, answers)?,
        Err(_) => push(" none", answers),
    }
    end_line(answers);
    Ok(())
}

fn push_names(alloc: Global, ids: &[Text], answers: &mut Answers) -> Result<(), Fault> {
    for id in ids {
        let name = asset_name(alloc, id)?;
        push(" ", answers);
        push(name.as_str(), answers);
    }
    Ok(())
}
