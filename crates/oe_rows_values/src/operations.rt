// Operations on cells: each answers the cells that all operations of its kind give.
use oe_cell::{
    Cell, Frac, absolute, add, and, ceil, choose, compare, divide, eq, floor, gt, gte, int, lt,
    lte, modulo, multiply, neq, not, or, sgn, subtract, whole_cell, xor,
};
use oe_lines::{Answers, Fault, Line, push_cell, push_cells, push_flag, push_word};
use std::cmp::Ordering;

pub(crate) fn kinds(line: &mut Line, answers: &mut Answers) {
    let cell = line.cell();
    push_flag(cell.is_empty(), answers);
    push_flag(cell.is_number(), answers);
    push_flag(cell.is_over(), answers);
    push_cell(cell, answers);
}

pub(crate) fn arithmetic(line: &mut Line, answers: &mut Answers) {
    let x = &line.cell();
    let y = &line.cell();
    push_cells(
        &[
            add(*x, *y),
            subtract(*x, *y),
            multiply(*x, *y),
            divide(*x, *y),
            modulo(*x, *y),
        ],
        answers,
    );
}

pub(crate) fn rounding(line: &mut Line, answers: &mut Answers) {
    let x = &line.cell();
    push_cells(
        &[floor(*x), ceil(*x), int(*x), absolute(*x), sgn(*x)],
        answers,
    );
}

pub(crate) fn comparison(line: &mut Line, answers: &mut Answers) {
    let x = &line.cell();
    let y = &line.cell();
    push_cells(
        &[
            eq(*x, *y),
            neq(*x, *y),
            gt(*x, *y),
            gte(*x, *y),
            lt(*x, *y),
            lte(*x, *y),
        ],
        answers,
    );
}

pub(crate) fn logic(line: &mut Line, answers: &mut Answers) {
    let x = &line.cell();
    let y = &line.cell();
    push_cells(&[and(*x, *y), or(*x, *y), xor(*x, *y), not(*x)], answers);
}

pub(crate) fn choice(line: &mut Line, answers: &mut Answers) {
    let value = line.cell();
    let accept = line.cell();
    let reject = line.cell();
    push_cell(choose(value, accept, reject), answers);
}

/// How two numbers stand to one another.
pub(crate) fn order(line: &mut Line, answers: &mut Answers) {
    let x = line.frac();
    let y = line.frac();
    push_word(order_word(compare(x, y)), answers);
}

fn order_word(order: Ordering) -> &'static str {
    match order {
        Ordering::Less => "less",
        Ordering::Equal => "equal",
        Ordering::Greater => "greater",
    }
}

pub(crate) fn fraction(line: &mut Line, answers: &mut Answers) {
    match line.fraction() {
        Some(number) => push_cell(Cell::Number(number), answers),
        None => push_word("none", answers),
    }
}

/// A whole number as a number and as a cell.
pub(crate) fn whole(line: &mut Line, answers: &mut Answers) {
    let num = line.number::<i64>();
    if num == i64::MIN {
        return line.note(Fault::Line);
    }
    push_cells(&[Cell::Number(Frac::whole(num)), whole_cell(num)], answers);
}
