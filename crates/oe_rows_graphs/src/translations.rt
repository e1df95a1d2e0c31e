// Graphs whose calendar periods and running sums are written by other processes.
use crate::translated::{spell_checked, spell_translated};
use oe_dims::{CellKind, Dims, DimsRow, Shape, Text, read_instant};
use oe_lines::{Answers, Fault, Line};
use std::alloc::Global;

/// Appends the answers to the lines of the part `translations`.
pub(crate) fn answer_translations(
    alloc: Global,
    lines: &str,
    answers: &mut Answers,
) -> Result<(), Fault> {
    let mut dims = Dims {
        rows: Vec::new(alloc),
    };
    for line in lines.lines() {
        let mut line = Line::new(alloc, line);
        match line.word() {
            "#" => {}
            "forget" => dims.rows = Vec::new(alloc),
            "dates" => dims.rows.push(row_of(&mut line)?)?,
            "translate" => spell_translated(alloc, line.rest(), &dims, answers)?,
            "check" => spell_checked(alloc, line.rest(), &dims, answers)?,
            _ => return Err(Fault::Line),
        }
        line.report(answers);
    }
    Ok(())
}

/// The row of the words `ID DATES`.
fn row_of(line: &mut Line) -> Result<DimsRow, Fault> {
    let id = Text::of(line.alloc(), line.word())?;
    let dates = dates_of(line.alloc(), line.rest())?;
    match Shape::new(0, Some(dates), None, None, None) {
        Ok(shape) => Ok(DimsRow {
            id,
            shape,
            kind: CellKind::Numbers,
        }),
        Err(_) => Err(Fault::Line),
    }
}

/// The instants that stand in a text, a blank between two.
fn dates_of(alloc: Global, text: &str) -> Result<Vec<i64>, Fault> {
    let mut dates = Vec::new(alloc);
    for word in text.split_whitespace() {
        match read_instant(word) {
            Ok(seconds) => dates.push(seconds)?,
            Err(_) => return Err(Fault::Line),
        }
    }
    Ok(dates)
}
