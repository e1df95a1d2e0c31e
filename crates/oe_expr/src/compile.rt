// From the nodes of a checked callback to its steps.
ghost use Rattle.std.specs.Prelude.{◌≡◌, ◌+◌, ◌<◌, ◌≤◌, ◌++◌, ◌∷◌, [], ℕ, List, length, map, slice_index_or, true, false, IfOk, OnOk, Some};
ghost use Rattle.oe_graph.specs.Plain.{plain_nodes};
ghost use Rattle.oe_graph.specs.Resolved.{IsResolvedUnder};
ghost use Rattle.oe_expr.specs.Callback.{callback_of};
ghost use Rattle.oe_expr.specs.Compiled.{IsProgramOf};
ghost use Rattle.oe_expr.specs.Orders.{IsWalkOrder};
ghost use Rattle.oe_expr.specs.PlainRequests.{plain_items, plain_label, plain_cell_request, plain_scalar, plain_scalars};
ghost use Rattle.oe_expr.specs.Places as spec;
ghost use Rattle.oe_expr.specs.Placed.{AreCompiled, AreMarked, AreNeededMarks, IsNeeded, IsUncompiled};
ghost use Rattle.oe_expr.specs.Walked.{AreResolved};
ghost use Rattle.oe_expr.specs.Requests as requests;
ghost use Rattle.oe_expr.specs.Scope.{IsScope, PlainScope, scope_parameters, plain_scope};
ghost use Rattle.std.specs.Option.{option_map};

use crate::labels::label_index;
use crate::program::{Operand, Program, Step};
use crate::request::{Items, Label, Request, Scalar, literal_cell};
use crate::scope::{ListPart, Scope};
use crate::state::node_index;
use crate::walk::Judged;
use oe_cell::Cell;
use oe_fold::Reducer;
use oe_graph::Node;
use oe_memory::OutOfMemory;
use std::alloc::Global;

/// Null as an operand.
const NULL: Operand = Operand::Constant(Cell::Empty);

/// The program of the node at an index.
pub(crate) fn compile(
    alloc: Global,
    scope: &Scope,
    context: &Cell,
    nodes: &Vec<Node>,
    order: &Vec<Judged<'_>>,
    last: usize,
) -> Result<Program, OutOfMemory>
    requires resolved { IsResolvedUnder true (scope_parameters (plain_scope scope.now))
        (record { nodes = plain_nodes nodes.now.items; result = last }) }
    requires scope { IsScope (plain_scope scope.now) }
    requires order { IsWalkOrder (plain_nodes nodes.now.items) order.now.items }
    ensures { IfOk result (IsProgramOf
        (callback_of (record { nodes = plain_nodes nodes.now.items; result = last })
        (plain_scope scope.now) context.now)) }
{
    let needed = needed_nodes(alloc, nodes, order, last)?;
    let mut program = empty_program(alloc, scope)?;
    let mut places = null_places(alloc, nodes.len())?;
    compile_nodes(
        scope,
        context,
        nodes,
        order,
        &needed,
        &mut places,
        &mut program,
    )?;
    program.result = places[last];
    Ok(program)
}

/// A program without a step.
fn empty_program(alloc: Global, scope: &Scope) -> Result<Program, OutOfMemory>
    ensures steps { IfOk result (λ program. program.steps.items ≡ []) }
    ensures elements { IfOk result (λ program. program.elements.items ≡ []) }
    ensures starts { IfOk result
        (λ program. program.starts.items ≡ spec.starts_in (plain_scope scope.now)) }
{
    Ok(Program {
        steps: Vec::new(alloc),
        elements: Vec::new(alloc),
        starts: list_starts(alloc, scope)?,
        result: NULL,
    })
}

/// Where each list of the scope begins among the labels.
fn list_starts(alloc: Global, scope: &Scope) -> Result<Vec<u32>, OutOfMemory>
    ensures { IfOk result (λ starts. starts.items ≡ spec.starts_in (plain_scope scope.now)) }
{
    match scope {
        Scope::Reduce { lists, .. } => part_starts(alloc, lists),
        _ => Ok(Vec::new(alloc)),
    }
}

fn part_starts(alloc: Global, lists: &Vec<ListPart>) -> Result<Vec<u32>, OutOfMemory>
    ensures { IfOk result (λ starts. starts.items ≡ map (λ part. part.from) lists.now.items) }
{
    let mut starts = Vec::with_capacity(alloc, lists.len())?;
    for part in lists {
        starts.push(part.from)?;
    }
    Ok(starts)
}

/// No place of so many nodes yet.
fn null_places(alloc: Global, count: usize) -> Result<Vec<Operand>, OutOfMemory>
    ensures { IfOk result (λ places. length places.items ≡ count) }
{
    let mut places = Vec::with_capacity(alloc, count)?;
    for _index in 0..count {
        places.push(NULL)?;
    }
    Ok(places)
}

// ---- the nodes that the result needs

/// Which nodes the one at an index needs, itself too.
fn needed_nodes(
    alloc: Global,
    nodes: &Vec<Node>,
    order: &Vec<Judged<'_>>,
    last: usize,
) -> Result<Vec<bool>, OutOfMemory>
    requires resolved { (scope : PlainScope) × AreResolved scope nodes.now.items }
    requires order { IsWalkOrder (plain_nodes nodes.now.items) order.now.items }
    requires last { last < length nodes.now.items }
    ensures long { IfOk result (λ needed. length needed.items ≡ length nodes.now.items) }
    ensures last { IfOk result (λ needed. IsNeeded needed.items last) }
    ensures marked { IfOk result
        (λ needed. AreMarked nodes.now.items order.now.items needed.items 0) }
{
    let mut needed = only(alloc, nodes.len(), last)?;
    let mut left = order.len();
    while left > 0 {
        left -= 1;
        let judged = &order[left];
        if needed[judged.node] {
            mark_request(nodes, &judged.request, &mut needed);
        }
    }
    Ok(needed)
}

/// The one of so many nodes that stands at an index.
fn only(alloc: Global, count: usize, index: usize) -> Result<Vec<bool>, OutOfMemory>
    ensures long { IfOk result (λ needed. length needed.items ≡ count) }
    ensures there { index < count
        → IfOk result (λ needed. slice_index_or needed.items index false ≡ true) }
{
    let mut needed = Vec::with_capacity(alloc, count)?;
    for k in 0..count {
        needed.push(k == index)?;
    }
    Ok(needed)
}

/// Marks the nodes that a request names.
fn mark_request(nodes: &Vec<Node>, request: &Request<'_>, needed: &mut Vec<bool>)
    ensures { needed.new.items ≡ spec.mark_names nodes.now.items needed.old.items
        (spec.request_names (plain_cell_request request.now)) }
{
    match request {
        Request::Unary(_, x) => mark(nodes, *x, needed),
        Request::Binary(_, x, y) => {
            mark(nodes, *x, needed);
            mark(nodes, *y, needed);
        }
        Request::Choice(value, accept, reject) => {
            mark(nodes, *value, needed);
            mark(nodes, *accept, needed);
            mark(nodes, *reject, needed);
        }
        Request::Reduction(_, _, items) => mark_items(nodes, items, needed),
        Request::Element(items, _, _, _) => mark_items(nodes, items, needed),
    }
}

fn mark_items(nodes: &Vec<Node>, items: &Items<'_>, needed: &mut Vec<bool>)
    ensures { needed.new.items ≡ spec.mark_names nodes.now.items needed.old.items
        (spec.items_names (plain_items items.now)) }
{
    match items {
        Items::Data => (),
        Items::Written(scalars) => mark_each(nodes, scalars, needed),
    }
}

fn mark_each(nodes: &Vec<Node>, scalars: &Vec<Scalar<'_>>, needed: &mut Vec<bool>)
    ensures { needed.new.items ≡ spec.mark_names nodes.now.items needed.old.items
        (spec.items_names (requests.written (plain_scalars scalars.now.items))) }
{
    for scalar in scalars {
        mark(nodes, *scalar, needed);
    }
}

fn mark(nodes: &Vec<Node>, scalar: Scalar<'_>, needed: &mut Vec<bool>)
    ensures { needed.new.items ≡ spec.mark_names nodes.now.items needed.old.items
        (spec.scalar_names (plain_scalar scalar.entry)) }
{
    match scalar {
        Scalar::Node(id) => mark_node(nodes, id, needed),
        _ => (),
    }
}

fn mark_node(nodes: &Vec<Node>, id: &str, needed: &mut Vec<bool>)
    ensures { needed.new.items ≡ spec.mark_name nodes.now.items needed.old.items id.now }
{
    if let Some(index) = node_index(nodes, id) {
        if index < needed.len() {
            needed[index] = true;
        }
    }
}

// ---- steps

/// Compiles the nodes that are needed, in their order.
fn compile_nodes(
    scope: &Scope,
    context: &Cell,
    nodes: &Vec<Node>,
    order: &Vec<Judged<'_>>,
    needed: &Vec<bool>,
    places: &mut Vec<Operand>,
    program: &mut Program,
) -> Result<(), OutOfMemory>
    requires resolved { AreResolved (plain_scope scope.now) nodes.now.items }
    requires scope { IsScope (plain_scope scope.now) }
    requires order { IsWalkOrder (plain_nodes nodes.now.items) order.now.items }
    requires needed { AreNeededMarks nodes.now.items order.now.items needed.now.items }
    requires none { IsUncompiled (plain_scope scope.now) nodes.now.items places.old.items
        program.old }
    ensures { OnOk result (AreCompiled (plain_scope scope.now) context.now nodes.now.items
        order.now.items needed.now.items places.new.items program.new) }
{
    for k in 0..order.len() {
        let judged = &order[k];
        if needed[judged.node] {
            let place = place_of(scope, context, nodes, places, &judged.request, program)?;
            places[judged.node] = place;
        }
    }
    Ok(())
}

/// Where a scalar is taken from.
fn operand(context: &Cell, nodes: &Vec<Node>, places: &Vec<Operand>, scalar: Scalar<'_>) -> Operand
    ensures { result ≡ spec.operand_of context.now nodes.now.items places.now.items
        (plain_scalar scalar.entry) }
{
    match scalar {
        Scalar::Null => NULL,
        Scalar::Flag(flag) => Operand::Constant(Cell::Flag(flag)),
        Scalar::Whole(whole) => Operand::Constant(literal_cell(whole)),
        Scalar::X => Operand::X,
        Scalar::Y => Operand::Y,
        Scalar::Context => Operand::Constant(*context),
        Scalar::Node(id) => node_place(nodes, places, id),
    }
}

/// Where the value of the node of an id is.
fn node_place(nodes: &Vec<Node>, places: &Vec<Operand>, id: &str) -> Operand
    ensures { result ≡ spec.operand_of Cell.Empty nodes.now.items places.now.items
        (requests.of_node id.now) }
{
    match node_index(nodes, id) {
        Some(index) if index < places.len() => places[index],
        _ => NULL,
    }
}

/// Where the value of a node is, after the step that it needs, if it needs one.
fn place_of(
    scope: &Scope,
    context: &Cell,
    nodes: &Vec<Node>,
    places: &Vec<Operand>,
    request: &Request<'_>,
    program: &mut Program,
) -> Result<Operand, OutOfMemory>
    requires few { length program.old.steps.items < 64 }
    requires scope { IsScope (plain_scope scope.now) }
    ensures place { IfOk result (λ place. place ≡ (spec.addition_to (plain_scope scope.now)
        context.now nodes.now.items places.now.items program.old
        (plain_cell_request request.now)).place) }
    ensures follows { OnOk result (spec.Follows program.old program.new (spec.addition_to
        (plain_scope scope.now) context.now nodes.now.items places.now.items program.old
        (plain_cell_request request.now))) }
{
    match request {
        Request::Unary(f, x) => {
            let x = operand(context, nodes, places, *x);
            push_step(program, Step::Unary(*f, x))
        }
        Request::Binary(f, x, y) => {
            let x = operand(context, nodes, places, *x);
            let y = operand(context, nodes, places, *y);
            push_step(program, Step::Binary(*f, x, y))
        }
        Request::Choice(value, accept, reject) => {
            let value = operand(context, nodes, places, *value);
            let accept = operand(context, nodes, places, *accept);
            let reject = operand(context, nodes, places, *reject);
            push_step(program, Step::Choice(value, accept, reject))
        }
        Request::Reduction(reducer, ignore, items) => {
            reduction_place(context, nodes, places, *reducer, *ignore, items, program)
        }
        Request::Element(items, index, label, _) => {
            Ok(items_place(scope, context, nodes, places, items, *index, *label))
        }
    }
}

/// The place of a reduction, after its step.
fn reduction_place(
    context: &Cell,
    nodes: &Vec<Node>,
    places: &Vec<Operand>,
    reducer: Reducer,
    ignore: bool,
    items: &Items<'_>,
    program: &mut Program,
) -> Result<Operand, OutOfMemory>
    requires few { length program.old.steps.items < 64 }
    ensures place { IfOk result (λ place. place ≡ (spec.reduction_addition context.now
        nodes.now.items places.now.items (length program.old.steps.items)
        (length program.old.elements.items) reducer ignore (plain_items items.now)).place) }
    ensures follows { OnOk result (spec.Follows program.old program.new (spec.reduction_addition
        context.now nodes.now.items places.now.items (length program.old.steps.items)
        (length program.old.elements.items) reducer ignore (plain_items items.now))) }
{
    match items {
        Items::Data => push_step(program, Step::Reduction(reducer, ignore)),
        Items::Written(scalars) => {
            let from = program.elements.len();
            push_elements(context, nodes, places, scalars, &mut program.elements)?;
            let to = program.elements.len();
            push_step(program, Step::Written(reducer, ignore, from, to))
        }
    }
}

fn push_step(program: &mut Program, step: Step) -> Result<Operand, OutOfMemory>
    requires few { length program.old.steps.items < 64 }
    ensures place { IfOk result
        (λ place. place ≡ Operand.Register (length program.old.steps.items)) }
    ensures steps { OnOk result (program.new.steps.items ≡ program.old.steps.items ++ step ∷ []) }
    ensures elements { program.new.elements.items ≡ program.old.elements.items }
    ensures starts { program.new.starts.items ≡ program.old.starts.items }
{
    let register = program.steps.len();
    program.steps.push(step)?;
    Ok(Operand::Register(register as u32))
}

fn push_elements(
    context: &Cell,
    nodes: &Vec<Node>,
    places: &Vec<Operand>,
    scalars: &Vec<Scalar<'_>>,
    elements: &mut Vec<Operand>,
) -> Result<(), OutOfMemory>
    ensures { OnOk result (elements.new.items ≡ elements.old.items
        ++ map (spec.operand_of context.now nodes.now.items places.now.items)
        (plain_scalars scalars.now.items)) }
{
    for scalar in scalars {
        elements.push(operand(context, nodes, places, *scalar))?;
    }
    Ok(())
}

/// Where an element of a list is.
fn items_place(
    scope: &Scope,
    context: &Cell,
    nodes: &Vec<Node>,
    places: &Vec<Operand>,
    items: &Items<'_>,
    index: Option<u64>,
    label: Option<Label<'_>>,
) -> Operand
    requires { IsScope (plain_scope scope.now) }
    ensures { result ≡ spec.items_place (plain_scope scope.now) context.now nodes.now.items
        places.now.items (plain_items items.now) index (option_map plain_label label.entry) }
{
    match items {
        Items::Data => element_place(scope, index, label),
        Items::Written(scalars) => written_place(context, nodes, places, scalars, index),
    }
}

fn written_place(
    context: &Cell,
    nodes: &Vec<Node>,
    places: &Vec<Operand>,
    scalars: &Vec<Scalar<'_>>,
    index: Option<u64>,
) -> Operand
    ensures { result ≡ spec.written_place (map (spec.operand_of context.now nodes.now.items
        places.now.items) (plain_scalars scalars.now.items)) index }
{
    match index {
        Some(index) if index < scalars.len() as u64 => {
            operand(context, nodes, places, scalars[index as usize])
        }
        _ => NULL,
    }
}

/// Where an element of the scope's list is. An index that no list reaches, and a label that is none, give null.
fn element_place(scope: &Scope, index: Option<u64>, label: Option<Label<'_>>) -> Operand
    requires { IsScope (plain_scope scope.now) }
    ensures { result ≡ spec.element_place (plain_scope scope.now) index
        (option_map plain_label label.entry) }
{
    match index {
        Some(index) => indexed_place(index),
        None => match label {
            Some(label) => labelled_place(scope, label),
            None => NULL,
        },
    }
}

fn indexed_place(index: u64) -> Operand
    ensures { result ≡ spec.indexed_place index }
{
    if index <= u32::MAX as u64 {
        Operand::At(index as u32)
    } else {
        NULL
    }
}

fn labelled_place(scope: &Scope, label: Label<'_>) -> Operand
    requires { IsScope (plain_scope scope.now) }
    ensures { result ≡ spec.labelled_place (plain_scope scope.now) (plain_label label.entry) }
{
    match scope {
        Scope::Reduce { labels, .. } => match label_index(labels, label) {
            Some(index) => Operand::Labelled(index as u32),
            None => NULL,
        },
        _ => NULL,
    }
}
