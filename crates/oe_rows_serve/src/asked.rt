// Requests, and what they are answered.
use crate::known::{
    Known, add_collection, add_event, clear, make, nothing, set_base, set_now, set_tokens,
};
use crate::requested::request_of;
use crate::values::answer_value;
use oe_book::is_book;
use oe_dims::{Text, is_instant};
use oe_http::{Request, Response};
use oe_jobs::{Book, Job};
use oe_lines::{Answers, Fault, end_line, first_word, push, push_number};
use oe_routes::{Action, EstimateGraph, route};
use std::alloc::Global;

/// Appends the answers of lines about requests.
pub(crate) fn answer_requests(alloc: Global, text: &str, answers: &mut Answers) {
    match nothing(alloc) {
        Ok(mut known) => answer_lines(alloc, text, &mut known, answers),
        Err(fault) => answers.note(fault),
    }
}

fn answer_lines(alloc: Global, text: &str, known: &mut Known, answers: &mut Answers) {
    for line in text.lines() {
        let (word, rest) = first_word(line);
        if word == "ask" {
            ask(alloc, rest, known, answers);
        } else {
            let outcome = answer_line(alloc, word, rest, known, answers);
            answers.settle(outcome);
        }
    }
}

/// Makes known what a line that begins with this word says, or appends its answer.
fn answer_line(
    alloc: Global,
    word: &str,
    rest: &str,
    known: &mut Known,
    answers: &mut Answers,
) -> Result<(), Fault> {
    match word {
        "clear" => clear(alloc, known),
        "tokens" => set_tokens(alloc, rest, known),
        "base" => set_base(alloc, rest, known),
        "now" => set_now(rest, known),
        "collection" => add_collection(alloc, rest, known),
        "event" => add_event(alloc, rest, known),
        _ => {
            answer_value(alloc, word, rest, answers);
            Ok(())
        }
    }
}

/// Appends what a request is answered: `METHOD TARGET [AUTHORIZATION,BODY,COUNT]`.
fn ask(alloc: Global, line: &str, known: &mut Known, answers: &mut Answers) {
    match asked_action(alloc, line, known) {
        Ok(action) => carry_out(action, known, answers),
        Err(fault) => answers.note(fault),
    }
    end_line(answers);
}

fn asked_action(alloc: Global, line: &str, known: &Known) -> Result<Action, Fault> {
    let request = request_of(alloc, line)?;
    action_of(alloc, &request, known)
}

/// What is to be done for a request. Refuses: a book that is not valid, and a moment that is none.
fn action_of(alloc: Global, request: &Request, known: &Known) -> Result<Action, Fault> {
    if !is_instant(known.now) || !is_book(alloc, &known.book)? {
        return Err(Fault::Line);
    }
    let (book, dims, site) = (&known.book, &known.dims, &known.site);
    Ok(route(alloc, request, book, dims, site, known.now)?)
}

/// Appends what is to be done, and makes its change.
fn carry_out(action: Action, known: &mut Known, answers: &mut Answers) {
    match action {
        Action::Answer(response) => push_response(&response, answers),
        Action::Commit { change, response } => {
            push("changed ", answers);
            push_response(&response, answers);
            let made = make(known, change);
            answers.settle(made);
        }
        Action::RunNow(_) => push("run", answers),
        Action::SendAsset { job, asset } => push_asset(&known.book, job, asset, answers),
        Action::Estimate(graphs) => push_graphs(&graphs, answers),
    }
}

/// Appends the names of the assets of a job, in their order.
fn push_graphs(graphs: &[EstimateGraph], answers: &mut Answers) {
    push("estimate", answers);
    for graph in graphs {
        push(" ", answers);
        push(graph.name.as_str(), answers);
    }
}

/// Appends the text of an asset of a job.
fn push_asset(book: &Book, job: usize, asset: usize, answers: &mut Answers) {
    push("200 - - ", answers);
    match book.jobs.get(job) {
        Some(job) => push_text_of(job, asset, answers),
        None => answers.note(Fault::Line),
    }
}

fn push_text_of(job: &Job, asset: usize, answers: &mut Answers) {
    match job.assets.get(asset) {
        Some(asset) => push(asset.text.as_str(), answers),
        None => answers.note(Fault::Line),
    }
}

/// Appends a status, a location and an identifier, `-` for none, and a body.
pub(crate) fn push_response(response: &Response, answers: &mut Answers) {
    if response.json == response.body.is_empty() {
        push("mistyped ", answers);
    }
    push_number("", response.status, answers);
    push(" ", answers);
    push_field(&response.location, answers);
    push_field(&response.identifier, answers);
    answers.extend(&response.body);
}

fn push_field(field: &Option<Text>, answers: &mut Answers) {
    match field {
        Some(text) => push(text.as_str(), answers),
        None => push("-", answers),
    }
    push(" ", answers);
}
