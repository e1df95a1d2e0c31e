// The fault of one node, or what it is without one.
ghost use Rattle.std.specs.Prelude.{◌≡◌, List, ℕ, IfOk, ◌&&◌};
ghost use Rattle.std.specs.Prelude.{IsTrue, ◌↔◌, is_none, length};
ghost use Rattle.std.specs.Arc.{arc_value};
ghost use Rattle.std.specs.Option.{option_map};
ghost use Rattle.oe_dims.specs.Plain.{plain_rows};
ghost use Rattle.oe_graph.specs.Faults.{IsLeast};
ghost use Rattle.oe_graph.specs.Plain.{plain_node, plain_nodes};
ghost use Rattle.oe_meanings.specs.Callbacks.{IsBuildable, StandsInCallback};
ghost use Rattle.oe_check.specs.Inputs.{HasFewIntervals, outline_in};
ghost use Rattle.oe_check.specs.Judged.{IsBuiltFor, IsVerdictOn, TellsIfTooLarge};
ghost use Rattle.oe_check.specs.Links.{loaded_by};
ghost use Rattle.oe_requests.specs.Operations.{Outline};
ghost use Rattle.oe_requests.specs.PlainRequests.{plain_operation, plain_cube_request};
ghost use Rattle.oe_requests.specs.Requests.{CubeRequest};
ghost use Rattle.oe_meanings.specs.Results as results;
ghost use Rattle.oe_meanings.specs.Results.{HasValidLabels};
ghost use Rattle.oe_check.specs.Walked.{AreKnown, IsVerdict, AreResolved, IsNodeOf};
ghost use Rattle.oe_check.specs.declared.walk.Verdict.TheVariants as verdicts;

use crate::checked::{CheckedNode, State};
use crate::faults_early::early_fault;
use crate::faults_of_kinds::{kind_given, takes_other_kinds};
use crate::input::Input;
use crate::judge_inputs::inputs_of;
use crate::shape_shared::shape_shared;
use crate::walk::Verdict;
use oe_dims::{Dims, Shape, Text};
use oe_graph::{Code, Fault, Node, Refusal, is_before};
use oe_meanings::{operation_for, recall_rules};
use oe_memory::OutOfMemory;
use oe_requests::{Operation, Request, read_request};
use std::alloc::Global;
use std::sync::Arc;

/// The least fault at a node or in its callback, or what is kept of it, where the nodes that it refers to are sound.
pub(crate) fn judge_node(
    alloc: Global,
    nodes: &[Node],
    states: &[State],
    dims: &Dims,
    node: &Node,
) -> Result<Verdict, OutOfMemory>
    requires resolved { AreResolved (plain_nodes nodes.now) }
    requires states { length states.now ≡ length nodes.now }
    requires node { IsNodeOf (plain_nodes nodes.now) (plain_node node.now) }
    ensures { IfOk result (λ verdict. (at : List ℕ → Outline)
        → AreKnown (plain_nodes nodes.now) states.now at (plain_node node.now)
        → IsVerdict (plain_rows dims.now) at (plain_node node.now) verdict) }
{
    let Some(request) = read_request(alloc, node)? else {
        return stands(Code::ProcessParameterInvalid, node);
    };
    let Some((one, two)) = inputs_of(nodes, states, dims, &request) else {
        return stands(Code::CollectionNotFound, node);
    };
    match early_fault(alloc, &request, one.shape, two.shape)? {
        Some(code) => stands(code, node),
        // so many could not be counted in the scope of a callback
        None if !has_few_intervals(&request) => Err(OutOfMemory),
        None => judge_request(alloc, node, states, &request, one, two),
    }
}

/// The intervals of a request can be counted.
fn has_few_intervals(request: &Request<'_>) -> bool
    ensures { IsTrue result ↔ HasFewIntervals (plain_cube_request request.now) }
{
    match request {
        Request::AggregateTemporal { intervals, .. } => intervals.len() <= u32::MAX as usize,
        _ => true,
    }
}

/// A fault at the node itself.
fn stands(code: Code, node: &Node) -> Result<Verdict, OutOfMemory>
    ensures { IfOk result (λ verdict. verdict
        ≡ verdicts.Stands (record { code = code; node = (plain_node node.now).id })) }
{
    Ok(Verdict::Stands(Fault {
        code,
        node: node.id.copy()?,
    }))
}

/// The node's fault among those of its callback, of kinds and of sizes, or what is kept of it.
fn judge_request(
    alloc: Global,
    node: &Node,
    states: &[State],
    request: &Request<'_>,
    one: Input<'_>,
    two: Input<'_>,
) -> Result<Verdict, OutOfMemory>
    requires buildable { IsBuildable (plain_cube_request request.now) }
    requires labels { HasValidLabels (plain_cube_request request.now) }
    ensures { IfOk result (IsVerdictOn (plain_node node.now) (plain_cube_request request.now)
        (outline_in one.entry) (outline_in two.entry)) }
{
    let shape = shape_shared(alloc, states, request, one, two)?;
    // so many periods are not made: their fault comes before every one of the callback
    if are_too_many_periods(request, &shape) {
        return stands(Code::CubeTooLarge, node);
    }
    match operation_for(alloc, request, one.shape, one.kind, node.id.as_str()) {
        Ok(Some(operation)) => judge_operation(alloc, node, request, operation, shape, one, two),
        // the name of the dimension is one of the four, or it would have been refused before
        Ok(None) => stands(Code::DimensionNotAvailable, node),
        Err(Refusal::Fault(fault)) => least_with_size(node, shape.is_none(), fault),
        Err(Refusal::OutOfMemory) => Err(OutOfMemory),
    }
}

/// Calendar periods that are too many for a cube.
fn are_too_many_periods(request: &Request<'_>, shape: &Option<Arc<Shape>>) -> bool
    ensures { result
        ≡ (is_none shape.now && results.is_by_period (plain_cube_request request.now)) }
{
    shape.is_none() && is_by_period(request)
}

/// A request for calendar periods.
fn is_by_period(request: &Request<'_>) -> bool
    ensures { result ≡ results.is_by_period (plain_cube_request request.now) }
{
    match request {
        Request::AggregateTemporalPeriod { .. } => true,
        _ => false,
    }
}

/// The least of a callback's fault and that of a cube that is too large, which does not wait for the callback.
fn least_with_size(node: &Node, is_too_large: bool, fault: Fault) -> Result<Verdict, OutOfMemory>
    ensures { (request : CubeRequest) (one two : Outline) → TellsIfTooLarge request one two
        is_too_large → IsLeast (StandsInCallback (plain_node node.now).id request one) fault
        → IfOk result (IsVerdictOn (plain_node node.now) request one two) }
{
    if !is_too_large {
        return Ok(Verdict::Stands(fault));
    }
    let size = Fault {
        code: Code::CubeTooLarge,
        node: node.id.copy()?,
    };
    Ok(Verdict::Stands(if is_before(&fault, &size) {
        fault
    } else {
        size
    }))
}

/// The fault of kinds or of sizes where the callback has none, or what is kept of the node.
fn judge_operation(
    alloc: Global,
    node: &Node,
    request: &Request<'_>,
    operation: Operation,
    shape: Option<Arc<Shape>>,
    one: Input<'_>,
    two: Input<'_>,
) -> Result<Verdict, OutOfMemory>
    requires { IsBuiltFor (plain_cube_request request.now) (outline_in one) (outline_in two)
        (option_map arc_value shape) (plain_operation operation) }
    ensures { IfOk result (IsVerdictOn (plain_node node.now) (plain_cube_request request.now)
        (outline_in one.entry) (outline_in two.entry)) }
{
    if takes_other_kinds(&operation, one.kind, two.kind) {
        return stands(Code::CellKindInvalid, node);
    }
    let Some(shape) = shape else {
        return stands(Code::CubeTooLarge, node);
    };
    recall_rules(one.shape);
    let kind = kind_given(&operation, one.kind);
    Ok(Verdict::Sound(CheckedNode {
        operation,
        collection: collection_of(alloc, request)?,
        shape,
        kind,
    }))
}

/// The collection that a request loads.
fn collection_of(alloc: Global, request: &Request<'_>) -> Result<Option<Text>, OutOfMemory>
    ensures { IfOk result (λ id. id ≡ loaded_by (plain_cube_request request.now)) }
{
    match request {
        Request::LoadCollection { id, .. } => Ok(Some(Text::of(alloc, id)?)),
        _ => Ok(None),
    }
}
