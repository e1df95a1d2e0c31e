// A checked callback.
ghost use Rattle.std.specs.Prelude.{◌≡◌, true, false, IfOk, IfErr, unwrap_or};
ghost use Rattle.oe_cell.specs.Kinds.{is_over};
ghost use Rattle.oe_graph.specs.Plain.{plain_graph};
ghost use Rattle.oe_graph.specs.Read.{IsFault};
ghost use Rattle.oe_graph.specs.Resolved.{IsResolvedUnder};
ghost use Rattle.oe_expr.specs.Callback.{IsFaultlessCallback, KeepsKind, StandsInCallbackAt, callback_of};
ghost use Rattle.oe_expr.specs.Scope.{IsScope, scope_parameters, plain_scope};
ghost use Rattle.oe_expr.specs.States.{kept_kind};
ghost use Rattle.oe_expr.specs.Walked.{AreSound};
ghost use Rattle.oe_dims.specs.declared.kind.CellKind.TheVariants.{Numbers};
ghost use Rattle.oe_graph.specs.declared.tree.Graph.{out-Graph};

use crate::compile::compile;
use crate::fold::single_reducer;
use crate::program::Program;
use crate::scope::Scope;
use crate::state::State;
use crate::walk::{Judged, Walk, walk_nodes};
use oe_cell::Cell;
use oe_dims::CellKind;
use oe_fold::Reducer;
use oe_graph::{Graph, NodeState, Refusal};
use oe_memory::OutOfMemory;
use std::alloc::Global;
use std::marker::Model;
use std::snapshot::Snapshot;

/// A callback that was checked, ready to be evaluated.
pub struct Expr {
    graph: Snapshot<Graph>,
    scope: Snapshot<Scope>,
    context: Cell,
    kind: CellKind,
    reducer: Option<(Reducer, bool)>,
    program: Program,
}

impl Model for Expr {
    ghost use Rattle.oe_graph.specs.Plain.{plain_graph};
    ghost use Rattle.oe_expr.specs.Callback.{Callback};
    ghost use Rattle.oe_expr.specs.Scope.{plain_scope};
    ghost use Rattle.oe_expr.specs.Compiled.{IsCompiled};
    ghost use Rattle.std.specs.Coded.{codes};
    ghost use Rattle.oe_expr.specs.Codes.{nodes_code};

    ghost Value = { Callback };

    ghost coded = { Prim.hlevel (codes, nodes_code (Prim.hlevel codes)) };

    ghost view = { λ s. record {
      graph = plain_graph s.graph.value;
      scope = plain_scope s.scope.value;
      context = s.context;
    } };

    ghost invariant = { λ s. IsCompiled
        (record {
          graph = plain_graph s.graph.value;
          scope = plain_scope s.scope.value;
          context = s.context;
        }) s.kind s.reducer s.program };
}

/// Written out, so that a callback that ends is one call wherever it does.
impl Drop for Expr {
    fn drop(self) {
        let Expr {
            graph: _,
            scope: _,
            context: _,
            kind: _,
            reducer: _,
            program: _,
        } = self;
    }
}

impl Expr {
    ghost use Rattle.std.specs.Prelude.{◌≡◌};
    ghost use Rattle.oe_expr.specs.Callback.{KeepsKind, callback_kind};
    ghost use Rattle.oe_expr.specs.Compiled.{IsProgramOf};
    ghost use Rattle.oe_expr.specs.Folds.{callback_reducer};

    /// The kind of the values; numbers where it is open.
    pub fn kind(&self) -> CellKind
        ensures { result ≡ callback_kind self.now }
    {
        self.kind
    }

    /// The reducer of a callback whose only node reduces the list of the scope cell by cell, and whether it ignores
    /// nulls; `None` of every other callback, and of the median.
    pub fn reducer(&self) -> Option<(Reducer, bool)>
        ensures { result ≡ callback_reducer self.now }
    {
        self.reducer
    }

    /// The program that computes the value.
    pub(crate) fn program(&self) -> &Program
        ensures program { IsProgramOf self.now result.now }
        ensures keeps { KeepsKind self.now }
    {
        &self.program
    }
}

/// The callback of a graph, checked under what its parent gives it: its scope, and `context`, a literal.
///
/// `path` is the name of the callback: `p/a` for the argument `a` of the node `p`. Refuses: the least fault of the
/// callback's nodes, exactly where one stands; out of memory.
pub fn build(
    alloc: Global,
    graph: &Graph,
    scope: &Scope,
    context: Cell,
    path: &str,
) -> Result<Expr, Refusal>
    requires resolved { IsResolvedUnder true (scope_parameters (plain_scope scope.now))
        (plain_graph graph.now) }
    requires scope { IsScope (plain_scope scope.now) }
    requires context { is_over context ≡ false }
    // the callback, in which no fault stands, and which gives cells of its kind alone
    ensures built { IfOk result
        (λ expr. expr ≡ callback_of (plain_graph graph.now) (plain_scope scope.now) context) }
    ensures valid { IfOk result IsFaultlessCallback }
    ensures keeps_kind { IfOk result KeepsKind }
    // or the least of those that stand
    ensures refused { IfErr result (IsFault
        (StandsInCallbackAt (callback_of (plain_graph graph.now)
        (plain_scope scope.now) context) path.now)) }
{
    let walk = walk_nodes(alloc, scope, &context, &graph.nodes, path)?;
    let Walk {
        states,
        order,
        found,
    } = walk;
    match found {
        Some(fault) => Err(Refusal::Fault(fault)),
        None => Ok(sound_expr(alloc, graph, scope, &context, &states, &order)?),
    }
}

/// The callback in which no fault stands.
fn sound_expr(
    alloc: Global,
    graph: &Graph,
    scope: &Scope,
    context: &Cell,
    states: &Vec<State>,
    order: &Vec<Judged<'_>>,
) -> Result<Expr, OutOfMemory>
    requires resolved { IsResolvedUnder true (scope_parameters (plain_scope scope.now))
        (plain_graph graph.now) }
    requires scope { IsScope (plain_scope scope.now) }
    requires sound { AreSound (plain_scope scope.now) context.now (out-Graph graph.now).nodes.items
        states.now.items order.now.items }
    ensures built { IfOk result (λ expr. expr
        ≡ callback_of (plain_graph graph.now) (plain_scope scope.now) context.now) }
{
    let last = graph.result as usize;
    let reducer = single_reducer(alloc, &graph.nodes)?;
    let program = compile(alloc, scope, context, &graph.nodes, order, last)?;
    let kind = known_kind(states[last]);
    let expr = Expr {
        graph: Snapshot::of(graph),
        scope: Snapshot::of(scope),
        context: *context,
        kind,
        reducer,
        program,
    };
    Ok(expr)
}

/// The kind that is known of a node; numbers where it is open.
fn known_kind(state: State) -> CellKind
    ensures { result ≡ unwrap_or (kept_kind state) Numbers }
{
    match state {
        NodeState::Sound(Some(kind)) => kind,
        _ => CellKind::Numbers,
    }
}
