// The values of a callback in a row of environments, one dispatch a step and strip.
ghost use Rattle.std.specs.Prelude.{◌≡◌, ◌+◌, ◌-◌, ◌*◌, ◌<◌, ◌≤◌, ℕ, length, map, take};
ghost use Rattle.std.specs.List.{All, slice_index_or};
ghost use Rattle.oe_cell.specs.declared.cell.Cell.TheVariants.{Empty};
ghost use Rattle.oe_expr.specs.Callback.{callback_value, callback_kind};
ghost use Rattle.oe_cube.specs.Kinds.{IsOfKind};
ghost use Rattle.oe_expr.specs.EnvRows.{AreEnvironments, environment_at, list_at};
ghost use Rattle.oe_expr.specs.Operations.{unary_of, binary_of};
ghost use Rattle.oe_expr.specs.Programs.{operand_value, step_value, result_value, register_of};
ghost use Rattle.oe_expr.specs.Strips.{CanRun, HasLists, HasOperand, HasStep, IsAsLong, is_last_register, register_at, row_inputs, strip_cell_at};
ghost use Rattle.oe_cell.specs.Operations.{choose_of};
ghost use Rattle.oe_fold.specs.Value.{reduction_of};

use crate::evaluate::{element, list_start};
use crate::expr::Expr;
use crate::operation::{Binary, Unary};
use crate::operators::{
    Absolute, Add, And, Ceil, Divide, Equal, Floor, Greater, GreaterOrEqual, Int, Less,
    LessOrEqual, Modulo, Multiply, Not, NotEqual, OnOne, OnTwo, Or, Sgn, Subtract, Xor, store,
};
use crate::program::{Operand, Program, Step};
use crate::request::MOST_ELEMENTS;
use oe_cell::{Cell, choose};
use oe_fold::{Reducer, fold, fold_columns};

/// A row of environments. Environment k has the cells k of `x` and `y`, and the list of the `count` cells `cells[k]`,
/// `cells[k + stride]`, `cells[k + 2 * stride]` and so on, which is the list of the number `list` of the scope. What
/// the scope lacks is not looked at.
#[derive(Clone, Copy)]
pub struct EnvRow<'a> {
    pub x: &'a [Cell],
    pub y: &'a [Cell],
    pub cells: &'a [Cell],
    pub stride: usize,
    pub count: usize,
    pub list: u32,
}

/// The values of a callback in a row of environments of its scope: each cell of `out` is what [`eval`](crate::eval)
/// gives in the environment of its index.
///
/// `scratch` has at least [`SCRATCH`] cells and twice as many as a list besides; with more of them more is done at
/// once. Takes no memory.
pub fn eval_row(expr: &Expr, row: &EnvRow<'_>, out: &mut [Cell], scratch: &mut [Cell])
    requires environments { AreEnvironments expr.now row.now (length out.old) }
    requires room { 192 + 2 * row.now.count ≤ length scratch.old }
    ensures value { (k : ℕ) → k < length out.old → slice_index_or out.new k Empty
        ≡ callback_value expr.now (environment_at expr.now row.now k) }
    ensures kind { (k : ℕ) → k < length out.old
        → IsOfKind (callback_kind expr.now) (slice_index_or out.new k Empty) }
{
    let program = expr.program();
    let start = list_start(&program.starts, row.list);
    let (lists, registers) = scratch.split_at_mut(2 * MOST_ELEMENTS + 2 * row.count);
    run_row(program, row, start, out, registers, lists);
}

/// What a program gives in each environment, strip by strip.
fn run_row(
    program: &Program,
    row: &EnvRow<'_>,
    start: u32,
    out: &mut [Cell],
    registers: &mut [Cell],
    lists: &mut [Cell],
)
    requires runs { CanRun program.now row.now (length out.old) }
    requires room { 64 ≤ length registers.old }
    requires lists { 128 + 2 * row.now.count ≤ length lists.old }
    ensures { (k : ℕ) → k < length out.old → slice_index_or out.new k Empty
        ≡ result_value program.now (row_inputs row.now start k) }
{
    let strip = strip_length(program.steps.len(), registers.len(), out.len());
    let mut from = 0;
    while from < out.len() {
        let n = strip.min(out.len() - from);
        let part = &mut out[from..from + n];
        eval_strip(program, row, start, from, part, registers, lists);
        from += n;
    }
}

/// How many environments have room at once, one register a step but the last, which writes to the result.
fn strip_length(steps: usize, room: usize, wanted: usize) -> usize
    requires few { steps ≤ 64 }
    requires room { 64 ≤ room }
    ensures some { 0 < wanted → 0 < result }
    ensures room { (steps - 1) * result ≤ room }
{
    if steps <= 1 {
        wanted
    } else {
        room / (steps - 1)
    }
}

/// The cells of an operand along a strip: one for all, or one each.
#[derive(Drop)]
enum Source<'a> {
    All(Cell),
    Each(&'a [Cell]),
}

impl Source<'_> {
    ghost use Rattle.std.specs.Prelude.{◌≡◌};
    ghost use Rattle.oe_expr.specs.Strips.{strip_cell_at};

    #[inline(always)]
    fn at(&self, k: usize) -> Cell
        ensures { result ≡ strip_cell_at self.now k }
    {
        match self {
            Source::All(cell) => *cell,
            Source::Each(cells) => element(cells, k),
        }
    }
}

/// The values in the environments from one on, as many as `out` has cells. Registers stand one behind the other.
fn eval_strip(
    program: &Program,
    row: &EnvRow<'_>,
    start: u32,
    from: usize,
    out: &mut [Cell],
    registers: &mut [Cell],
    lists: &mut [Cell],
)
    requires runs { CanRun program.now row.now (from + length out.old) }
    requires room { (length program.now.steps.items - 1) * length out.old ≤ length registers.old }
    requires lists { 128 + 2 * row.now.count ≤ length lists.old }
    ensures { (j : ℕ) → j < length out.old → slice_index_or out.new j Empty
        ≡ result_value program.now (row_inputs row.now start (from + j)) }
{
    let n = out.len();
    let count = program.steps.len();
    for number in 0..count {
        let step = program.steps[number];
        if number + 1 == count {
            step_row(program, step, row, start, from, registers, out, lists);
        } else {
            step_within(program, step, row, start, from, number, n, registers, lists);
        }
    }
    if !is_last(program.result, count) {
        copy_row(
            &cells_of(program.result, row, start, from, n, registers),
            out,
        );
    }
}

/// Whether an operand is what the last of so many steps gives.
fn is_last(operand: Operand, count: usize) -> bool
    ensures { result ≡ is_last_register count operand }
{
    match operand {
        Operand::Register(register) => register as usize + 1 == count,
        _ => false,
    }
}

/// A step whose cells go behind those of the steps before it.
fn step_within(
    program: &Program,
    step: Step,
    row: &EnvRow<'_>,
    start: u32,
    from: usize,
    number: usize,
    n: usize,
    registers: &mut [Cell],
    lists: &mut [Cell],
)
    requires step { HasStep row.now from n (number * n) program.now.elements.items step }
    requires room { number * n + n ≤ length registers.old }
    requires lists { 128 + 2 * row.now.count ≤ length lists.old }
    ensures value { (j : ℕ) → j < n → register_at registers.new n j number
        ≡ step_value program.now.elements.items (row_inputs row.now start (from + j))
        (register_at (take (number * n) registers.old) n j) step }
    ensures before { (k : ℕ) → k < number * n
        → slice_index_or registers.new k Empty ≡ slice_index_or registers.old k Empty }
{
    let (done, free) = registers.split_at_mut(number * n);
    step_row(program, step, row, start, from, done, &mut free[..n], lists);
}

/// The cells of an operand in the environments from one on.
fn cells_of<'a>(
    operand: Operand,
    row: &'a EnvRow<'_>,
    start: u32,
    from: usize,
    n: usize,
    registers: &'a [Cell],
) -> Source<'a>
    requires { HasOperand row.now from n (length registers.now) operand }
    ensures each { IsAsLong result n }
    ensures value { (j : ℕ) → j < n → strip_cell_at result j
        ≡ operand_value (row_inputs row.now start (from + j))
        (register_at registers.now n j) operand }
{
    match operand {
        Operand::Constant(cell) => Source::All(cell),
        Operand::X => Source::Each(&row.x[from..from + n]),
        Operand::Y => Source::Each(&row.y[from..from + n]),
        Operand::At(index) => element_row(row, index as usize, from, n),
        Operand::Labelled(index) => {
            if index < start {
                Source::All(Cell::Empty)
            } else {
                element_row(row, (index - start) as usize, from, n)
            }
        }
        Operand::Register(register) => register_row(registers, register as usize, n),
    }
}

/// The cells of a register.
fn register_row(registers: &[Cell], register: usize, n: usize) -> Source<'_>
    requires { register * n + n ≤ length registers.now }
    ensures each { IsAsLong result n }
    ensures value { (j : ℕ) → j < n → strip_cell_at result j
        ≡ register_at registers.now n j register }
{
    let first = register * n;
    Source::Each(&registers[first..first + n])
}

/// The elements of an index of the lists; null where the lists end before it.
fn element_row<'a>(row: &'a EnvRow<'_>, index: usize, from: usize, n: usize) -> Source<'a>
    requires { HasLists row.now (from + n) }
    ensures each { IsAsLong result n }
    ensures value { (j : ℕ) → j < n → strip_cell_at result j
        ≡ slice_index_or (list_at row.now (from + j)) index Empty }
{
    if index < row.count {
        let first = index * row.stride + from;
        Source::Each(&row.cells[first..first + n])
    } else {
        Source::All(Cell::Empty)
    }
}

/// Copies the cells of an operand.
fn copy_row(cells: &Source<'_>, out: &mut [Cell])
    requires { IsAsLong cells.now (length out.old) }
    ensures { (j : ℕ) → j < length out.old
        → slice_index_or out.new j Empty ≡ strip_cell_at cells.now j }
{
    match cells {
        Source::All(cell) => fill(cell, out),
        Source::Each(cells) => copy_cells(cells, out),
    }
}

fn fill(cell: &Cell, out: &mut [Cell])
    ensures { (j : ℕ) → j < length out.old → slice_index_or out.new j Empty ≡ cell.now }
{
    for k in 0..out.len() {
        out[k] = *cell;
    }
}

fn copy_cells(cells: &[Cell], out: &mut [Cell])
    requires { length out.old ≤ length cells.now }
    ensures { (j : ℕ) → j < length out.old
        → slice_index_or out.new j Empty ≡ slice_index_or cells.now j Empty }
{
    for k in 0..out.len() {
        out[k] = cells[k];
    }
}

/// What a step gives in the environments from one on, as many as `out` has cells.
fn step_row(
    program: &Program,
    step: Step,
    row: &EnvRow<'_>,
    start: u32,
    from: usize,
    registers: &[Cell],
    out: &mut [Cell],
    lists: &mut [Cell],
)
    requires step { HasStep row.now from (length out.old) (length registers.now)
        program.now.elements.items step }
    requires lists { 128 + 2 * row.now.count ≤ length lists.old }
    ensures { (j : ℕ) → j < length out.old → slice_index_or out.new j Empty
        ≡ step_value program.now.elements.items (row_inputs row.now start (from + j))
        (register_at registers.now (length out.old) j) step }
{
    let n = out.len();
    match step {
        Step::Unary(f, x) => unary_row(f, &cells_of(x, row, start, from, n, registers), out),
        Step::Binary(f, x, y) => {
            let x = cells_of(x, row, start, from, n, registers);
            let y = cells_of(y, row, start, from, n, registers);
            binary_row(f, &x, &y, out);
        }
        Step::Choice(value, accept, reject) => {
            let value = cells_of(value, row, start, from, n, registers);
            let accept = cells_of(accept, row, start, from, n, registers);
            let reject = cells_of(reject, row, start, from, n, registers);
            choice_row(&value, &accept, &reject, out);
        }
        Step::Reduction(reducer, ignore) => reduction_row(reducer, ignore, row, from, out, lists),
        Step::Written(reducer, ignore, first, end) => {
            let elements = &program.elements[first..end];
            written_row(
                reducer, ignore, elements, row, start, from, registers, out, lists,
            );
        }
    }
}

/// The reductions of the lists.
fn reduction_row(
    reducer: Reducer,
    ignore: bool,
    row: &EnvRow<'_>,
    from: usize,
    out: &mut [Cell],
    lists: &mut [Cell],
)
    requires row { HasLists row.now (from + length out.old) }
    requires lists { 2 * row.now.count ≤ length lists.old }
    ensures { (j : ℕ) → j < length out.old → slice_index_or out.new j Empty
        ≡ reduction_of reducer ignore (list_at row.now (from + j)) }
{
    let cells = &row.cells[from.min(row.cells.len())..];
    fold_columns(reducer, ignore, cells, row.stride, row.count, out, lists);
}

/// A reduction of a list that is written, one environment after the other.
fn written_row(
    reducer: Reducer,
    ignore: bool,
    elements: &[Operand],
    row: &EnvRow<'_>,
    start: u32,
    from: usize,
    registers: &[Cell],
    out: &mut [Cell],
    lists: &mut [Cell],
)
    requires few { length elements.now ≤ 64 }
    requires each { All (HasOperand row.now from (length out.old) (length registers.now))
        elements.now }
    requires lists { 128 ≤ length lists.old }
    ensures { (j : ℕ) → j < length out.old → slice_index_or out.new j Empty
        ≡ reduction_of reducer ignore (map (operand_value (row_inputs row.now start (from + j))
        (register_at registers.now (length out.old) j)) elements.now) }
{
    let n = out.len();
    let (list, rest) = lists.split_at_mut(elements.len());
    for k in 0..n {
        gather_at(elements, row, start, from, n, k, registers, list);
        out[k] = fold(reducer, ignore, list, rest);
    }
}

/// The cells of the elements in one environment of a strip.
fn gather_at(
    elements: &[Operand],
    row: &EnvRow<'_>,
    start: u32,
    from: usize,
    n: usize,
    k: usize,
    registers: &[Cell],
    list: &mut [Cell],
)
    requires within { k < n }
    requires each { All (HasOperand row.now from n (length registers.now)) elements.now }
    requires room { length list.old ≡ length elements.now }
    ensures { list.new ≡ map (operand_value (row_inputs row.now start (from + k))
        (register_at registers.now n k)) elements.now }
{
    for index in 0..elements.len() {
        list[index] = cell_at(elements[index], row, start, from, n, k, registers);
    }
}

/// The cell of an operand in one environment of a strip.
#[inline(always)]
fn cell_at(
    operand: Operand,
    row: &EnvRow<'_>,
    start: u32,
    from: usize,
    n: usize,
    k: usize,
    registers: &[Cell],
) -> Cell
    requires within { k < n }
    requires each { HasOperand row.now from n (length registers.now) operand }
    ensures { result ≡ operand_value (row_inputs row.now start (from + k))
        (register_at registers.now n k) operand }
{
    cells_of(operand, row, start, from, n, registers).at(k)
}

/// One of two cells along a strip.
fn choice_row(value: &Source<'_>, accept: &Source<'_>, reject: &Source<'_>, out: &mut [Cell])
    requires value { IsAsLong value.now (length out.old) }
    requires accept { IsAsLong accept.now (length out.old) }
    requires reject { IsAsLong reject.now (length out.old) }
    ensures { (j : ℕ) → j < length out.old → slice_index_or out.new j Empty
        ≡ choose_of (strip_cell_at value.now j) (strip_cell_at accept.now j)
        (strip_cell_at reject.now j) }
{
    match value {
        Source::All(value) => choice_by_one(value, accept, reject, out),
        Source::Each(values) => {
            copy_row(reject, out);
            match accept {
                Source::All(accept) => accept_one(values, accept, out),
                Source::Each(accepts) => accept_each(values, accepts, out),
            }
        }
    }
}

/// One of two cells by the same cell for all.
fn choice_by_one(value: &Cell, accept: &Source<'_>, reject: &Source<'_>, out: &mut [Cell])
    requires accept { IsAsLong accept.now (length out.old) }
    requires reject { IsAsLong reject.now (length out.old) }
    ensures { (j : ℕ) → j < length out.old → slice_index_or out.new j Empty
        ≡ choose_of value.now (strip_cell_at accept.now j) (strip_cell_at reject.now j) }
{
    match value {
        Cell::Over => fill(&Cell::Over, out),
        Cell::Number(_) => fill(&Cell::Empty, out),
        Cell::Flag(true) => copy_row(accept, out),
        Cell::Flag(false) => copy_row(reject, out),
        Cell::Empty => copy_row(reject, out),
    }
}

/// The same cell for all, or else what is there.
fn accept_one(values: &[Cell], accept: &Cell, out: &mut [Cell])
    requires { length out.old ≤ length values.now }
    ensures { (j : ℕ) → j < length out.old → slice_index_or out.new j Empty
        ≡ choose_of (slice_index_or values.now j Empty) accept.now
        (slice_index_or out.old j Empty) }
{
    for k in 0..out.len() {
        out[k] = choose(values[k], *accept, out[k]);
    }
}

/// Each cell, or else what is there.
fn accept_each(values: &[Cell], accepts: &[Cell], out: &mut [Cell])
    requires values { length out.old ≤ length values.now }
    requires accepts { length out.old ≤ length accepts.now }
    ensures { (j : ℕ) → j < length out.old → slice_index_or out.new j Empty
        ≡ choose_of (slice_index_or values.now j Empty)
        (slice_index_or accepts.now j Empty) (slice_index_or out.old j Empty) }
{
    for k in 0..out.len() {
        out[k] = choose(values[k], accepts[k], out[k]);
    }
}

/// An operation on one cell along a strip.
fn unary_row(f: Unary, x: &Source<'_>, out: &mut [Cell])
    requires { IsAsLong x.now (length out.old) }
    ensures { (j : ℕ) → j < length out.old
        → slice_index_or out.new j Empty ≡ unary_of f (strip_cell_at x.now j) }
{
    match f {
        Unary::Absolute => unary_with::<Absolute>(x, out),
        Unary::Sgn => unary_with::<Sgn>(x, out),
        Unary::Floor => unary_with::<Floor>(x, out),
        Unary::Ceil => unary_with::<Ceil>(x, out),
        Unary::Int => unary_with::<Int>(x, out),
        Unary::Not => unary_with::<Not>(x, out),
    }
}

fn unary_with<O: OnOne>(x: &Source<'_>, out: &mut [Cell])
    requires { IsAsLong x.now (length out.old) }
    ensures { (j : ℕ) → j < length out.old
        → slice_index_or out.new j Empty ≡ unary_of O.operation (strip_cell_at x.now j) }
{
    match x {
        Source::All(x) => fill(&O::on(*x), out),
        Source::Each(xs) => unary_each::<O>(xs, out),
    }
}

fn unary_each<O: OnOne>(xs: &[Cell], out: &mut [Cell])
    requires { length out.old ≤ length xs.now }
    ensures { (j : ℕ) → j < length out.old → slice_index_or out.new j Empty
        ≡ unary_of O.operation (slice_index_or xs.now j Empty) }
{
    for k in 0..out.len() {
        let x = xs[k];
        let cell = O::on(x);
        store(&cell, &mut out[k]);
    }
}

/// An operation on two cells along a strip.
fn binary_row(f: Binary, x: &Source<'_>, y: &Source<'_>, out: &mut [Cell])
    requires x { IsAsLong x.now (length out.old) }
    requires y { IsAsLong y.now (length out.old) }
    ensures { (j : ℕ) → j < length out.old → slice_index_or out.new j Empty
        ≡ binary_of f (strip_cell_at x.now j) (strip_cell_at y.now j) }
{
    match f {
        Binary::Add => binary_with::<Add>(x, y, out),
        Binary::Subtract => binary_with::<Subtract>(x, y, out),
        Binary::Multiply => binary_with::<Multiply>(x, y, out),
        Binary::Divide => binary_with::<Divide>(x, y, out),
        Binary::Modulo => binary_with::<Modulo>(x, y, out),
        Binary::Equal => binary_with::<Equal>(x, y, out),
        Binary::NotEqual => binary_with::<NotEqual>(x, y, out),
        Binary::Greater => binary_with::<Greater>(x, y, out),
        Binary::GreaterOrEqual => binary_with::<GreaterOrEqual>(x, y, out),
        Binary::Less => binary_with::<Less>(x, y, out),
        Binary::LessOrEqual => binary_with::<LessOrEqual>(x, y, out),
        Binary::And => binary_with::<And>(x, y, out),
        Binary::Or => binary_with::<Or>(x, y, out),
        Binary::Xor => binary_with::<Xor>(x, y, out),
    }
}

fn binary_with<O: OnTwo>(x: &Source<'_>, y: &Source<'_>, out: &mut [Cell])
    requires x { IsAsLong x.now (length out.old) }
    requires y { IsAsLong y.now (length out.old) }
    ensures { (j : ℕ) → j < length out.old → slice_index_or out.new j Empty
        ≡ binary_of O.operation (strip_cell_at x.now j) (strip_cell_at y.now j) }
{
    match x {
        Source::All(x) => one_with::<O>(x, y, out),
        Source::Each(xs) => each_with::<O>(xs, y, out),
    }
}

fn one_with<O: OnTwo>(x: &Cell, y: &Source<'_>, out: &mut [Cell])
    requires { IsAsLong y.now (length out.old) }
    ensures { (j : ℕ) → j < length out.old → slice_index_or out.new j Empty
        ≡ binary_of O.operation x.now (strip_cell_at y.now j) }
{
    match y {
        Source::All(y) => fill(&O::on(*x, *y), out),
        Source::Each(ys) => one_with_each::<O>(x, ys, out),
    }
}

fn each_with<O: OnTwo>(xs: &[Cell], y: &Source<'_>, out: &mut [Cell])
    requires x { length out.old ≤ length xs.now }
    requires y { IsAsLong y.now (length out.old) }
    ensures { (j : ℕ) → j < length out.old → slice_index_or out.new j Empty
        ≡ binary_of O.operation (slice_index_or xs.now j Empty) (strip_cell_at y.now j) }
{
    match y {
        Source::All(y) => each_with_one::<O>(xs, y, out),
        Source::Each(ys) => each_with_each::<O>(xs, ys, out),
    }
}

fn one_with_each<O: OnTwo>(x: &Cell, ys: &[Cell], out: &mut [Cell])
    requires { length out.old ≤ length ys.now }
    ensures { (j : ℕ) → j < length out.old → slice_index_or out.new j Empty
        ≡ binary_of O.operation x.now (slice_index_or ys.now j Empty) }
{
    for k in 0..out.len() {
        let y = ys[k];
        let cell = O::on(*x, y);
        store(&cell, &mut out[k]);
    }
}

fn each_with_one<O: OnTwo>(xs: &[Cell], y: &Cell, out: &mut [Cell])
    requires { length out.old ≤ length xs.now }
    ensures { (j : ℕ) → j < length out.old → slice_index_or out.new j Empty
        ≡ binary_of O.operation (slice_index_or xs.now j Empty) y.now }
{
    for k in 0..out.len() {
        let x = xs[k];
        let cell = O::on(x, *y);
        store(&cell, &mut out[k]);
    }
}

fn each_with_each<O: OnTwo>(xs: &[Cell], ys: &[Cell], out: &mut [Cell])
    requires xs { length out.old ≤ length xs.now }
    requires ys { length out.old ≤ length ys.now }
    ensures { (j : ℕ) → j < length out.old → slice_index_or out.new j Empty
        ≡ binary_of O.operation (slice_index_or xs.now j Empty) (slice_index_or ys.now j Empty) }
{
    for k in 0..out.len() {
        let x = xs[k];
        let y = ys[k];
        let cell = O::on(x, y);
        store(&cell, &mut out[k]);
    }
}
