// Reductions of lists and of columns.
ghost use Rattle.std.specs.Prelude.{◌≢◌};
ghost use Rattle.oe_fold.specs.declared.reducer.Reducer.{Reducer};

use oe_cell::Cell;
use oe_fold::{Pass, Reducer, fold, fold_columns};
use oe_lines::{Answers, Fault, Line, push_cell, push_cells};
use std::alloc::Global;

/// The words of reducers.
static REDUCERS: [(&str, Reducer); 12] = [
    ("sum", Reducer::Sum),
    ("product", Reducer::Product),
    ("mean", Reducer::Mean),
    ("min", Reducer::Min),
    ("max", Reducer::Max),
    ("median", Reducer::Median),
    ("first", Reducer::First),
    ("last", Reducer::Last),
    ("any", Reducer::Any),
    ("all", Reducer::All),
    ("count", Reducer::Count),
    ("count_all", Reducer::CountAll),
];

fn reducer_of(line: &mut Line) -> Reducer {
    let word = line.word();
    for (name, reducer) in &REDUCERS {
        if *name == word {
            return *reducer;
        }
    }
    line.note(Fault::Line);
    Reducer::Sum
}

/// Whether nulls are left out: `ignore` or `keep`.
fn ignore_of(line: &mut Line) -> bool {
    let ignore = line.takes("ignore");
    if !ignore && !line.takes("keep") {
        line.note(Fault::Line);
    }
    ignore
}

/// The reduction of a list, of the middle one of three columns, and cell by cell.
pub(crate) fn list(line: &mut Line, answers: &mut Answers) {
    let reducer = &reducer_of(line);
    let ignore = ignore_of(line);
    let cells = line.cells();
    let outcome = push_three(line.alloc(), *reducer, ignore, &cells, answers);
    line.settle(outcome);
}

fn push_three(
    alloc: Global,
    reducer: Reducer,
    ignore: bool,
    cells: &[Cell],
    answers: &mut Answers,
) -> Result<(), Fault> {
    push_list(alloc, reducer, ignore, cells, answers)?;
    push_column(alloc, reducer, ignore, cells, answers)?;
    match reducer {
        Reducer::Median => {}
        _ => push_cell(cell_by_cell(reducer, ignore, cells), answers),
    }
    Ok(())
}

fn push_list(
    alloc: Global,
    reducer: Reducer,
    ignore: bool,
    cells: &[Cell],
    answers: &mut Answers,
) -> Result<(), Fault> {
    // It holds none of the cells, and one more than they are.
    let mut scratch = vec![in alloc; Cell::Empty; cells.len()]?;
    scratch.push(Cell::Empty)?;
    push_cell(fold(reducer, ignore, cells, &mut scratch), answers);
    Ok(())
}

/// Appends the reduction of a column between two of false.
fn push_column(
    alloc: Global,
    reducer: Reducer,
    ignore: bool,
    cells: &[Cell],
    answers: &mut Answers,
) -> Result<(), Fault> {
    let mut rows = Vec::new(alloc);
    for cell in cells {
        rows.extend_from_slice(&[Cell::Flag(false), *cell, Cell::Flag(false)])?;
    }
    let mut out = [Cell::Over; 3];
    let mut scratch = vec![in alloc; Cell::Empty; rows.len()]?;
    reduce_columns(
        reducer,
        ignore,
        &rows,
        3,
        cells.len(),
        &mut out,
        &mut scratch,
    )?;
    push_cell(out[1], answers);
    Ok(())
}

fn cell_by_cell(reducer: Reducer, ignore: bool, cells: &[Cell]) -> Cell
    requires { reducer ≢ Reducer.Median }
{
    let mut pass = Pass::start(reducer, ignore);
    for cell in cells {
        pass.push(*cell);
    }
    pass.value()
}

/// The reductions of columns of `count` cells, each of which stands `stride` cells behind the one before it.
fn reduce_columns(
    reducer: Reducer,
    ignore: bool,
    cells: &[Cell],
    stride: usize,
    count: usize,
    out: &mut [Cell],
    scratch: &mut [Cell],
) -> Result<(), Fault> {
    let Some(all) = count.checked_mul(stride) else {
        return Err(Fault::Line);
    };
    if stride == 0 || cells.len() < all || stride < out.len() || scratch.len() / 2 < count {
        return Err(Fault::Line);
    }
    fold_columns(reducer, ignore, cells, stride, count, out, scratch);
    Ok(())
}

/// The reductions of columns, by the sizes `STRIDE,ROWS,COLUMNS`.
pub(crate) fn columns(line: &mut Line, answers: &mut Answers) {
    let reducer = &reducer_of(line);
    let ignore = ignore_of(line);
    let stride = line.number_before::<u32>(",");
    let count = line.number_before::<u32>(",");
    let columns = line.number::<u32>();
    let cells = line.cells();
    let sizes = [stride, count, columns];
    let outcome = push_columns(line.alloc(), *reducer, ignore, &cells, sizes, answers);
    line.settle(outcome);
}

/// Appends the reductions of so many columns of `count` cells each.
fn push_columns(
    alloc: Global,
    reducer: Reducer,
    ignore: bool,
    cells: &[Cell],
    [stride, count, columns]: [u32; 3],
    answers: &mut Answers,
) -> Result<(), Fault> {
    let (stride, count) = (stride as usize, count as usize);
    let mut out = vec![in alloc; Cell::Over; columns as usize]?;
    let mut scratch = vec![in alloc; Cell::Empty; 2 * count]?;
    reduce_columns(
        reducer,
        ignore,
        cells,
        stride,
        count,
        &mut out,
        &mut scratch,
    )?;
    push_cells(&out, answers);
    Ok(())
}
