// The value of a callback in one environment.
ghost use Rattle.std.specs.Prelude.{◌≡◌, ◌+◌, ◌≤◌, ℕ, length, map};
ghost use Rattle.std.specs.List.{slice_index_or};
ghost use Rattle.oe_cell.specs.declared.cell.Cell.TheVariants.{Empty};
ghost use Rattle.oe_cube.specs.Kinds.{IsOfKind};
ghost use Rattle.oe_expr.specs.Callback.{IsEnvironment, callback_kind, callback_value, environment};
ghost use Rattle.oe_expr.specs.Programs as spec;
ghost use Rattle.oe_expr.specs.Scope.{PlainScope};
ghost use Rattle.oe_fold.specs.Value.{reduction_of};

use crate::expr::Expr;
use crate::operation::{on_one, on_two};
use crate::program::{MOST_STEPS, Operand, Program, Step};
use crate::request::MOST_ELEMENTS;
use crate::scope::Env;
use oe_cell::{Cell, choose};
use oe_fold::{Reducer, fold};

/// The cells that are used beside those of a list: a register a step, a list that is written, and a median of it.
pub const SCRATCH: usize = MOST_STEPS + 2 * MOST_ELEMENTS;

/// The value of a callback in an environment of its scope (openEO API, process graphs).
///
/// `scratch` has at least [`SCRATCH`] cells and as many as the list besides. Takes no memory.
pub fn eval(expr: &Expr, env: &Env<'_>, scratch: &mut [Cell]) -> Cell
    requires environment { IsEnvironment expr.now env.now.x env.now.y env.now.cells.now
        env.now.list }
    requires room { 192 + length env.now.cells.now ≤ length scratch.old }
    ensures value { result ≡ callback_value expr.now
        (environment expr.now env.now.x env.now.y env.now.cells.now env.now.list) }
    ensures kind { IsOfKind (callback_kind expr.now) result }
{
    let program = expr.program();
    run(program, env, list_start(&program.starts, env.list), scratch)
}

/// What a program gives where the list begins at this label.
fn run(program: &Program, env: &Env<'_>, start: u32, scratch: &mut [Cell]) -> Cell
    requires program { (scope : PlainScope) × spec.IsProgram scope program.now }
    requires room { 192 + length env.now.cells.now ≤ length scratch.old }
    ensures { result ≡ spec.result_value program.now (spec.env_inputs env.now start) }
{
    let (registers, rest) = scratch.split_at_mut(MOST_STEPS);
    for number in 0..program.steps.len() {
        let value = step_value(program, program.steps[number], env, start, registers, rest);
        registers[number] = value;
    }
    operand_value(program.result, env, start, registers)
}

/// Where a list begins among the labels.
pub(crate) fn list_start(starts: &Vec<u32>, list: u32) -> u32
    ensures { result ≡ slice_index_or starts.now.items list 0 }
{
    let list = list as usize;
    if list < starts.len() { starts[list] } else { 0 }
}

/// The cell at an index; null where the list ends before it.
#[inline(always)]
pub(crate) fn element(cells: &[Cell], index: usize) -> Cell
    ensures { result ≡ slice_index_or cells.now index Empty }
{
    if index < cells.len() {
        cells[index]
    } else {
        Cell::Empty
    }
}

/// The cell of an operand.
#[inline(always)]
fn operand_value(operand: Operand, env: &Env<'_>, start: u32, registers: &[Cell]) -> Cell
    ensures { result ≡ spec.operand_value (spec.env_inputs env.now start)
        (λ r. slice_index_or registers.now r Empty) operand }
{
    match operand {
        Operand::Constant(cell) => cell,
        Operand::X => env.x,
        Operand::Y => env.y,
        Operand::At(index) => element(env.cells, index as usize),
        Operand::Labelled(index) => {
            if index < start {
                Cell::Empty
            } else {
                element(env.cells, (index - start) as usize)
            }
        }
        Operand::Register(register) => element(registers, register as usize),
    }
}

/// What a step gives.
#[inline(always)]
fn step_value(
    program: &Program,
    step: Step,
    env: &Env<'_>,
    start: u32,
    registers: &[Cell],
    rest: &mut [Cell],
) -> Cell
    requires step { (scope : PlainScope) × (number : ℕ)
        × spec.IsProgramStep scope program.now.elements.items number step }
    requires room { 128 + length env.now.cells.now ≤ length rest.old }
    ensures { result ≡ spec.step_value program.now.elements.items (spec.env_inputs env.now start)
        (λ r. slice_index_or registers.now r Empty) step }
{
    match step {
        Step::Unary(f, x) => on_one(f, operand_value(x, env, start, registers)),
        Step::Binary(f, x, y) => {
            let x = operand_value(x, env, start, registers);
            let y = operand_value(y, env, start, registers);
            on_two(f, x, y)
        }
        Step::Choice(value, accept, reject) => {
            let value = operand_value(value, env, start, registers);
            let accept = operand_value(accept, env, start, registers);
            let reject = operand_value(reject, env, start, registers);
            choose(value, accept, reject)
        }
        Step::Reduction(reducer, ignore) => fold(reducer, ignore, env.cells, rest),
        Step::Written(reducer, ignore, from, to) => {
            let elements = &program.elements[from..to];
            written_value(reducer, ignore, elements, env, start, registers, rest)
        }
    }
}

/// The reduction of a list that is written.
fn written_value(
    reducer: Reducer,
    ignore: bool,
    elements: &[Operand],
    env: &Env<'_>,
    start: u32,
    registers: &[Cell],
    rest: &mut [Cell],
) -> Cell
    requires few { length elements.now ≤ 64 }
    requires room { 128 ≤ length rest.old }
    ensures { result ≡ reduction_of reducer ignore
        (map (spec.operand_value (spec.env_inputs env.now start)
        (λ r. slice_index_or registers.now r Empty)) elements.now) }
{
    let (list, rest) = rest.split_at_mut(elements.len());
    gather(elements, env, start, registers, list);
    fold(reducer, ignore, list, rest)
}

/// The cells of the elements of a list that is written.
fn gather(elements: &[Operand], env: &Env<'_>, start: u32, registers: &[Cell], list: &mut [Cell])
    requires { length list.old ≡ length elements.now }
    ensures { list.new ≡ map (spec.operand_value (spec.env_inputs env.now start)
        (λ r. slice_index_or registers.now r Empty)) elements.now }
{
    for index in 0..elements.len() {
        list[index] = operand_value(elements[index], env, start, registers);
    }
}
