// The fault of one node, and its kind.
ghost use Rattle.std.specs.Prelude.{◌≡◌, ◌++◌, [], ◌∷◌, ◌&&◌, ◌||◌, List, Option, length, is_none, is_some, option_map};
ghost use Rattle.oe_dims.specs.declared.kind.CellKind.{CellKind};
ghost use Rattle.oe_expr.specs.KindCounts.{AreKindsOf};
ghost use Rattle.oe_expr.specs.Kinds as spec_kinds;
ghost use Rattle.oe_expr.specs.Kinds.{are_mixed, kind_among};
ghost use Rattle.oe_expr.specs.NodeKinds as spec;
ghost use Rattle.oe_expr.specs.Operations as spec_of;
ghost use Rattle.oe_expr.specs.PlainRequests.{literal_cell, plain_scalar, plain_items, plain_label, plain_cell_request};
ghost use Rattle.oe_expr.specs.Scope.{IsScope, plain_scope};
ghost use Rattle.oe_expr.specs.States.{kind_named, judged_reduction, judged_request, kind_unless};

use crate::kinds::{Kinds, literal_kind};
use crate::labels::lacks_element;
use crate::operation::{
    Binary, Unary, binary_gives, binary_takes, reducer_gives, reducer_takes, unary_gives,
    unary_takes,
};
use crate::request::{Items, Label, Request, Scalar};
use crate::scope::Scope;
use crate::state::{State, kind_of};
use oe_cell::Cell;
use oe_dims::CellKind;
use oe_fold::Reducer;
use oe_graph::{Code, Node};

/// The kind of a scalar.
fn scalar_kind(
    scope: &Scope,
    context: &Cell,
    nodes: &[Node],
    states: &[State],
    scalar: Scalar<'_>,
) -> Option<CellKind>
    requires { length states.now ≡ length nodes.now }
    ensures { result ≡ spec.scalar_kind (plain_scope scope.now) context.now
        (kind_named nodes.now states.now) (plain_scalar scalar.entry) }
{
    match scalar {
        Scalar::Null => None,
        Scalar::Flag(_) => Some(CellKind::Flags),
        Scalar::Whole(whole) => whole_kind(whole),
        Scalar::Node(id) => kind_of(nodes, states, id),
        Scalar::X => x_kind(scope),
        Scalar::Y => y_kind(scope),
        Scalar::Context => literal_kind(context),
    }
}

/// The kind of a whole number that is a literal; −2^63 is none.
fn whole_kind(whole: i64) -> Option<CellKind>
    ensures { result ≡ spec_kinds.literal_kind (literal_cell whole) }
{
    if whole == i64::MIN {
        return None;
    }
    Some(CellKind::Numbers)
}

fn x_kind(scope: &Scope) -> Option<CellKind>
    ensures { result ≡ spec.x_kind (plain_scope scope.now) }
{
    match scope {
        Scope::Apply { x } => Some(*x),
        Scope::Merge { cells } => Some(*cells),
        Scope::Reduce { .. } => None,
    }
}

fn y_kind(scope: &Scope) -> Option<CellKind>
    ensures { result ≡ spec.y_kind (plain_scope scope.now) }
{
    match scope {
        Scope::Merge { cells } => Some(*cells),
        _ => None,
    }
}

fn data_kind(scope: &Scope) -> Option<CellKind>
    ensures { result ≡ spec.data_kind (plain_scope scope.now) }
{
    match scope {
        Scope::Reduce { cells, .. } => Some(*cells),
        _ => None,
    }
}

/// The kinds of a list's elements, after others.
fn with_items(
    scope: &Scope,
    context: &Cell,
    nodes: &[Node],
    states: &[State],
    before: Kinds,
    items: &Items<'_>,
) -> Kinds
    requires { length states.now ≡ length nodes.now }
    ensures { (kinds : List (Option CellKind)) → AreKindsOf kinds before
        → AreKindsOf (kinds ++ spec.items_kinds (plain_scope scope.now) context.now
        (kind_named nodes.now states.now) (plain_items items.now)) result }
{
    match items {
        Items::Data => before.with(data_kind(scope)),
        Items::Written(scalars) => {
            let mut kinds = before;
            for scalar in scalars {
                kinds = kinds.with(scalar_kind(scope, context, nodes, states, *scalar));
            }
            kinds
        }
    }
}

/// The first row of the table that holds at a node whose references have no fault, and else the kind that it gives.
pub(crate) fn judge(
    scope: &Scope,
    context: &Cell,
    nodes: &[Node],
    states: &[State],
    request: &Request<'_>,
) -> Result<Option<CellKind>, Code>
    requires scope { IsScope (plain_scope scope.now) }
    requires states { length states.now ≡ length nodes.now }
    ensures { result ≡ judged_request (plain_scope scope.now) context.now
        (kind_named nodes.now states.now) (plain_cell_request request.now) }
{
    match request {
        Request::Unary(f, x) => {
            let x = scalar_kind(scope, context, nodes, states, *x);
            judge_unary(*f, x)
        }
        Request::Binary(f, x, y) => {
            let x = scalar_kind(scope, context, nodes, states, *x);
            let y = scalar_kind(scope, context, nodes, states, *y);
            judge_binary(*f, x, y)
        }
        Request::Choice(value, accept, reject) => {
            let value = scalar_kind(scope, context, nodes, states, *value);
            let accept = scalar_kind(scope, context, nodes, states, *accept);
            let reject = scalar_kind(scope, context, nodes, states, *reject);
            judge_choice(value, accept, reject)
        }
        Request::Reduction(reducer, _, items) => {
            judge_reduction(scope, context, nodes, states, *reducer, items)
        }
        Request::Element(items, index, label, return_nodata) => {
            let (none, both) = presence_of(*index, *label);
            if none {
                return Err(Code::ArrayElementParameterMissing);
            }
            if both {
                return Err(Code::ArrayElementParameterConflict);
            }
            if !*return_nodata && lacks_element(scope, items, *index, *label) {
                return Err(Code::ArrayElementNotAvailable);
            }
            judge_elements(scope, context, nodes, states, items)
        }
    }
}

/// Whether neither an index nor a label is given, and whether both are.
fn presence_of(index: Option<u64>, label: Option<Label<'_>>) -> (bool, bool)
    ensures none { result.0 ≡ (is_none index && is_none (option_map plain_label label.entry)) }
    ensures both { result.1 ≡ (is_some index && is_some (option_map plain_label label.entry)) }
{
    (
        index.is_none() && label.is_none(),
        index.is_some() && label.is_some(),
    )
}

fn judge_unary(f: Unary, x: Option<CellKind>) -> Result<Option<CellKind>, Code>
    ensures { result ≡ kind_unless (are_mixed (spec_of.unary_takes f ∷ x ∷ []))
        (Some (spec_of.unary_gives f)) }
{
    let taken = Kinds::of(unary_takes(f)).with(x);
    unless_mixed(taken, Some(unary_gives(f)))
}

fn judge_binary(
    f: Binary,
    x: Option<CellKind>,
    y: Option<CellKind>,
) -> Result<Option<CellKind>, Code>
    ensures { result ≡ kind_unless (are_mixed (spec_of.binary_takes f ∷ x ∷ y ∷ []))
        (Some (spec_of.binary_gives f)) }
{
    let taken = Kinds::of(binary_takes(f)).with(x).with(y);
    unless_mixed(taken, Some(binary_gives(f)))
}

fn judge_choice(
    value: Option<CellKind>,
    accept: Option<CellKind>,
    reject: Option<CellKind>,
) -> Result<Option<CellKind>, Code>
    ensures { result ≡ kind_unless
        (are_mixed (Some CellKind.Flags ∷ value ∷ []) || are_mixed (accept ∷ reject ∷ []))
        (kind_among (accept ∷ reject ∷ [])) }
{
    if Kinds::of(Some(CellKind::Flags)).with(value).are_mixed() {
        return Err(Code::CellKindInvalid);
    }
    let branches = Kinds::of(accept).with(reject);
    unless_mixed(branches, branches.first)
}

fn judge_reduction(
    scope: &Scope,
    context: &Cell,
    nodes: &[Node],
    states: &[State],
    reducer: Reducer,
    items: &Items<'_>,
) -> Result<Option<CellKind>, Code>
    requires { length states.now ≡ length nodes.now }
    ensures { result ≡ judged_reduction reducer (spec.items_kinds (plain_scope scope.now)
        context.now (kind_named nodes.now states.now) (plain_items items.now)) }
{
    let taken = Kinds::of(reducer_takes(reducer));
    let taken = with_items(scope, context, nodes, states, taken, items);
    let given = Kinds::of(reducer_gives(reducer));
    let given = with_items(scope, context, nodes, states, given, items);
    unless_mixed(taken, given.first)
}

fn judge_elements(
    scope: &Scope,
    context: &Cell,
    nodes: &[Node],
    states: &[State],
    items: &Items<'_>,
) -> Result<Option<CellKind>, Code>
    requires { length states.now ≡ length nodes.now }
    ensures { let kinds = spec.items_kinds (plain_scope scope.now) context.now
        (kind_named nodes.now states.now) (plain_items items.now) in
        result ≡ kind_unless (are_mixed kinds) (kind_among kinds) }
{
    let kinds = with_items(scope, context, nodes, states, Kinds::of(None), items);
    unless_mixed(kinds, kinds.first)
}

/// The kind that is given, unless the cells that are to be of one kind are of both.
fn unless_mixed(taken: Kinds, given: Option<CellKind>) -> Result<Option<CellKind>, Code>
    ensures { (kinds : List (Option CellKind)) → AreKindsOf kinds taken
        → result ≡ kind_unless (are_mixed kinds) given }
{
    if taken.are_mixed() {
        Err(Code::CellKindInvalid)
    } else {
        Ok(given)
    }
}
