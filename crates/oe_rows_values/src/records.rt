// Cells as records, in hexadecimal digits.
use oe_cell::{Cell, read_record, read_records, write_record, write_records};
use oe_lines::{Answers, Fault, Line, push_cell, push_cells, push_digits, push_number, push_word};

pub(crate) fn write_one(line: &mut Line, answers: &mut Answers) {
    let bytes = write_record(line.cell());
    push_digits(line.alloc(), "", &bytes, answers);
}

/// The records of three cells.
pub(crate) fn write_three(line: &mut Line, answers: &mut Answers) {
    let cells = line.cells();
    if cells.len() != 3 {
        return line.note(Fault::Line);
    }
    let mut bytes = [9; 51];
    write_records(&cells, &mut bytes);
    push_digits(line.alloc(), "", &bytes, answers);
}

pub(crate) fn read_one(line: &mut Line, answers: &mut Answers) {
    let mut bytes = [0; 17];
    if hex::decode_to_slice(line.word(), &mut bytes).is_err() {
        return line.note(Fault::Line);
    }
    match read_record(&bytes) {
        Some(cell) => push_cell(cell, answers),
        None => push_word("none", answers),
    }
}

/// Reads records into three cells, which are Over before.
pub(crate) fn read_three(line: &mut Line, answers: &mut Answers) {
    let mut cells = [Cell::Over; 3];
    let count = read_records(&line.bytes(), &mut cells);
    push_number("", count, answers);
    push_cells(&cells, answers);
}
