// Lines over an open database.
use crate::changes::change_of;
use crate::kept::spell_book;
use oe_database::SqliteKeeper;
use oe_jobs::{Keeper, KeeperFail};
use oe_lines::{Answers, Fault, Line, end_line, first_word, push, push_number};
use sqlite::{Alter, Connection, Row};
use std::alloc::Global;

/// The connection after a line, whose answers are appended.
pub(crate) fn take<S: Alter>(
    alloc: Global,
    mut conn: Connection<S>,
    line: &str,
    answers: &mut Answers,
) -> Connection<S> {
    let (word, rest) = first_word(line);
    match word {
        "sql" => {
            run(&mut conn, rest, answers);
            conn
        }
        "ask" => {
            ask(&mut conn, rest, answers);
            conn
        }
        _ => keep(alloc, conn, line, answers),
    }
}

/// Runs statements.
fn run<S: Alter>(conn: &mut Connection<S>, text: &str, answers: &mut Answers) {
    if conn.execute_batch(text).is_err() {
        answers.note(Fault::Line);
    }
}

/// Appends the first value of the first row of a query.
fn ask<S: Alter>(conn: &mut Connection<S>, text: &str, answers: &mut Answers) {
    match conn.query_row(text, &[]) {
        Ok(row) => spell_value(&row, answers),
        Err(_) => answers.note(Fault::Line),
    }
    end_line(answers);
}

/// Appends the first value of a row: a whole number, or the text that its bytes are.
fn spell_value(row: &Row, answers: &mut Answers) {
    match row.get::<i64>(0) {
        Ok(number) => push_number("", number, answers),
        Err(_) => spell_bytes(row, answers),
    }
}

fn spell_bytes(row: &Row, answers: &mut Answers) {
    match row.get::<Vec<u8>>(0) {
        Ok(bytes) => answers.extend(&bytes),
        Err(_) => answers.note(Fault::Line),
    }
}

/// The connection after a keeper over it has taken these steps.
fn keep<S: Alter>(
    alloc: Global,
    conn: Connection<S>,
    steps: &str,
    answers: &mut Answers,
) -> Connection<S> {
    let mut keeper = SqliteKeeper::new(alloc, conn);
    for step in steps.split("; ") {
        answer_step(alloc, &mut keeper, step, answers);
        end_line(answers);
    }
    keeper.into_connection()
}

fn answer_step<S: Alter>(
    alloc: Global,
    keeper: &mut SqliteKeeper<S>,
    step: &str,
    answers: &mut Answers,
) {
    let outcome = if step == "load" {
        answer_load(alloc, keeper, answers)
    } else {
        answer_commit(alloc, keeper, step, answers)
    };
    answers.settle(outcome);
}

fn answer_load<S: Alter>(
    alloc: Global,
    keeper: &mut SqliteKeeper<S>,
    answers: &mut Answers,
) -> Result<(), Fault> {
    match keeper.load() {
        Ok(book) => spell_book(alloc, &book, answers),
        Err(fail) => {
            spell_fail(fail, keeper.faults(), answers);
            Ok(())
        }
    }
}

fn answer_commit<S: Alter>(
    alloc: Global,
    keeper: &mut SqliteKeeper<S>,
    step: &str,
    answers: &mut Answers,
) -> Result<(), Fault> {
    let mut line = Line::new(alloc, step);
    let change = change_of(&mut line)?;
    line.report(answers);
    match keeper.commit(&change) {
        Ok(()) => push("kept", answers),
        Err(fail) => spell_fail(fail, keeper.faults(), answers),
    }
    Ok(())
}

fn spell_fail(fail: KeeperFail, faults: u64, answers: &mut Answers) {
    match fail {
        KeeperFail::Failed => push_number("failed ", faults, answers),
        KeeperFail::OutOfMemory => push_number("out of memory ", faults, answers),
    }
}
