// Faults of the names of arguments, parameters and nodes.
ghost use Rattle.std.specs.Prelude.{◌≡◌, ◌<◌, ◌^◌, true, false, length, IfOk, [], map, option_map};
ghost use Rattle.std.specs.List.{list_any};
ghost use Rattle.oe_dims.specs.Names.{same_name, names_rise};
ghost use Rattle.oe_graph.specs.Faults.{IsLeastFault};
ghost use Rattle.oe_graph.specs.Catalogue.{parameter_of, plain_parameter as plain_of};
ghost use Rattle.oe_graph.specs.Indices.{reference_graph};
ghost use Rattle.oe_graph.specs.Plain.{plain_arg, plain_args, plain_graph, plain_named, plain_node, plain_nodes, plain_parameter, plain_stored};
ghost use Rattle.oe_graph.specs.Printed.{ids_of};
ghost use Rattle.oe_graph.specs.References.{callbacks_in, callbacks_named};
ghost use Rattle.oe_graph.specs.Resolved as resolved;
ghost use Rattle.oe_graph.specs.Tree as tree;
ghost use Rattle.oe_order.specs.Graph.{graph_of};
ghost use Rattle.oe_calls.specs.Calls.{parameters_of, row_meant};
ghost use Rattle.oe_calls.specs.Faults.{names_among};
ghost use Rattle.oe_resolve.specs.NameFaults as spec;
ghost use Rattle.oe_resolve.specs.NameFaults.{AreMarks, IdsRise, IdsRiseIn, IsLeastOfArgument, IsLeastOfNode, OfArguments, OfObject};
ghost use Rattle.oe_calls.specs.PlainValues.{names_behind};

use crate::cycle::cyclic_marks;
use oe_calls::{callee, is_among, is_call, join_names, means_catalogue};
use oe_dims::Text;
use oe_graph::{
    Arg, Code, Fault, Graph, Node, ParameterEntry, ParameterRow, StoredProcess, argument_named,
    callback_name, least, node_name, process_entry, read_references,
};
use oe_memory::OutOfMemory;
use oe_order::Links;
use std::alloc::Global;

/// What judging looks at: the stored processes, and whether parameters and cycles are judged, which is done in the last
/// round alone.
#[derive(Clone, Copy)]
pub struct Judge<'a> {
    pub stored: &'a [StoredProcess],
    pub last: bool,
}

/// The least fault of the main graph and its callbacks.
pub fn names_fault(
    alloc: Global,
    judge: &Judge,
    graph: &Graph,
) -> Result<Option<Fault>, OutOfMemory>
    requires rise { IdsRise (plain_graph graph.now).nodes }
    ensures { IfOk result (IsLeastFault
        (λ f. OfObject (map plain_stored judge.now.stored.now) judge.now.last f [] []
        (plain_graph graph.now).nodes)) }
{
    object_fault(alloc, judge, "", &[], &graph.nodes)
}

/// The least fault of a graph object of this name and scope, and of the callbacks in it.
#[cycle(judge)]
fn object_fault(
    alloc: Global,
    judge: &Judge,
    name: &str,
    scope: &[&'static str],
    nodes: &Vec<Node>,
) -> Result<Option<Fault>, OutOfMemory>
    ensures { IfOk result (λ o. IdsRise (plain_nodes nodes.now.items) → IsLeastFault
        (λ f. OfObject (map plain_stored judge.now.stored.now) judge.now.last f name.now
        (names_behind scope.now) (plain_nodes nodes.now.items)) o) }
{
    let references = read_references(alloc, nodes)?;
    let cyclic = marks_of(alloc, judge.last, nodes, references.links.as_slice())?;
    let mut fault = None;
    for index in 0..nodes.len() {
        let found = node_faults(
            alloc,
            judge,
            name,
            scope,
            &nodes[index],
            references.known[index],
            cyclic[index],
        )?;
        fault = least(fault, found);
    }
    Ok(fault)
}

/// For each node, whether references lead from it back to itself; in no round but the last is it asked.
fn marks_of(
    alloc: Global,
    last: bool,
    nodes: &Vec<Node>,
    links: &[Links],
) -> Result<Vec<bool>, OutOfMemory>
    requires few { length nodes.now.items < 2 ^ 32 }
    requires graph { graph_of links.now ≡ reference_graph (plain_nodes nodes.now.items) }
    ensures len { IfOk result (λ marks. length marks.items ≡ length nodes.now.items) }
    ensures exact { IfOk result (λ marks. names_rise (ids_of (plain_nodes nodes.now.items)) ≡ true
        → AreMarks last (plain_nodes nodes.now.items) marks.items) }
{
    if last {
        return cyclic_marks(alloc, nodes, links);
    }
    Ok(vec![in alloc; false; nodes.len()]?)
}

/// The least fault of a node and of the callbacks in its arguments; those of a call wait.
#[cycle(judge)]
fn node_faults(
    alloc: Global,
    judge: &Judge,
    name: &str,
    scope: &[&'static str],
    node: &Node,
    is_known: bool,
    is_cyclic: bool,
) -> Result<Option<Fault>, OutOfMemory>
    ensures { IfOk result (IsLeastOfNode (map plain_stored judge.now.stored.now) judge.now.last
        name.now (names_behind scope.now) (plain_node node.now) is_known is_cyclic) }
{
    let name = node_name(alloc, name, node.id.as_str())?;
    let own = node_fault(
        alloc,
        judge,
        name.as_str(),
        scope,
        node,
        is_known,
        is_cyclic,
    )?;
    if is_call(judge.stored, node) {
        return Ok(own);
    }
    let scope = scope_inside(alloc, node, scope)?;
    let inner = named_fault(
        alloc,
        judge,
        name.as_str(),
        scope.as_slice(),
        &node.arguments,
    )?;
    Ok(least(own, inner))
}

/// The least fault of the callbacks in the arguments of a node, at any depth.
#[cycle(judge)]
fn named_fault(
    alloc: Global,
    judge: &Judge,
    node_name: &str,
    scope: &[&'static str],
    arguments: &Vec<(Text, Arg)>,
) -> Result<Option<Fault>, OutOfMemory>
    ensures { IfOk result (λ o. IdsRiseIn (callbacks_named (plain_named arguments.now.items))
        → IsLeastFault (OfArguments (map plain_stored judge.now.stored.now) judge.now.last
        node_name.now (names_behind scope.now) (plain_named arguments.now.items)) o) }
{
    let mut fault = None;
    for argument in arguments {
        let found = argument_fault(
            alloc,
            judge,
            node_name,
            argument.0.as_str(),
            scope,
            &argument.1,
        )?;
        fault = least(fault, found);
    }
    Ok(fault)
}

/// The least fault of the callbacks in an argument.
#[cycle(judge)]
fn argument_fault(
    alloc: Global,
    judge: &Judge,
    node_name: &str,
    argument: &str,
    scope: &[&'static str],
    arg: &Arg,
) -> Result<Option<Fault>, OutOfMemory>
    ensures { IfOk result (IsLeastOfArgument (map plain_stored judge.now.stored.now)
        judge.now.last node_name.now argument.now (names_behind scope.now) (plain_arg arg.now)) }
{
    match arg {
        Arg::List(items) => items_fault(alloc, judge, node_name, argument, scope, items),
        Arg::Object(members) => members_fault(alloc, judge, node_name, argument, scope, members),
        Arg::Callback(graph) => {
            let name = callback_name(alloc, node_name, argument)?;
            object_fault(alloc, judge, name.as_str(), scope, &graph.nodes)
        }
        _ => Ok(None),
    }
}

/// Whether an argument may hold a callback. Of the many that do not, as references, no fault is made and compared.
fn may_hold_callback(arg: &Arg) -> bool
    ensures { result ≡ false → callbacks_in (plain_arg arg.now) ≡ [] }
{
    match arg {
        Arg::List(_) => true,
        Arg::Object(_) => true,
        Arg::Callback(_) => true,
        _ => false,
    }
}

#[cycle(judge)]
fn items_fault(
    alloc: Global,
    judge: &Judge,
    node_name: &str,
    argument: &str,
    scope: &[&'static str],
    items: &Vec<Arg>,
) -> Result<Option<Fault>, OutOfMemory>
    ensures { IfOk result (IsLeastOfArgument (map plain_stored judge.now.stored.now)
        judge.now.last node_name.now argument.now (names_behind scope.now)
        (tree.list (plain_args items.now.items))) }
{
    let mut fault = None;
    for item in items {
        if may_hold_callback(item) {
            let found = argument_fault(alloc, judge, node_name, argument, scope, item)?;
            fault = least(fault, found);
        }
    }
    Ok(fault)
}

#[cycle(judge)]
fn members_fault(
    alloc: Global,
    judge: &Judge,
    node_name: &str,
    argument: &str,
    scope: &[&'static str],
    members: &Vec<(Text, Arg)>,
) -> Result<Option<Fault>, OutOfMemory>
    ensures { IfOk result (IsLeastOfArgument (map plain_stored judge.now.stored.now)
        judge.now.last node_name.now argument.now (names_behind scope.now)
        (tree.object (plain_named members.now.items))) }
{
    let mut fault = None;
    for member in members {
        if may_hold_callback(&member.1) {
            let found = argument_fault(alloc, judge, node_name, argument, scope, &member.1)?;
            fault = least(fault, found);
        }
    }
    Ok(fault)
}

/// The parameters that the callbacks of a node see, those of its process first.
fn scope_inside(
    alloc: Global,
    node: &Node,
    scope: &[&'static str],
) -> Result<Vec<&'static str>, OutOfMemory>
    ensures { IfOk result (λ v. names_behind v.items
        ≡ resolved.scope_inside (plain_node node.now) (names_behind scope.now)) }
{
    match process_entry(node.process_id.as_str()) {
        Some(entry) => join_names(alloc, entry.3, scope),
        None => join_names(alloc, &[], scope),
    }
}

/// The least fault of a node by itself.
fn node_fault(
    alloc: Global,
    judge: &Judge,
    name: &str,
    scope: &[&'static str],
    node: &Node,
    is_known: bool,
    is_cyclic: bool,
) -> Result<Option<Fault>, OutOfMemory>
    ensures { IfOk result (λ f. f ≡ option_map (λ code. record { code = code; node = name.now })
        (spec.node_code (map plain_stored judge.now.stored.now) judge.now.last
        (names_behind scope.now) (plain_node node.now) is_known is_cyclic)) }
{
    match node_code(judge, scope, node, is_known, is_cyclic) {
        Some(code) => Ok(Some(Fault {
            code,
            node: Text::of(alloc, name)?,
        })),
        None => Ok(None),
    }
}

/// The first fault of a node, by number.
fn node_code(
    judge: &Judge,
    scope: &[&'static str],
    node: &Node,
    is_known: bool,
    is_cyclic: bool,
) -> Option<Code>
    ensures { result ≡ spec.node_code (map plain_stored judge.now.stored.now) judge.now.last
        (names_behind scope.now) (plain_node node.now) is_known is_cyclic }
{
    if has_unknown_argument(judge.stored, node) {
        Some(Code::ArgumentUnknown)
    } else if lacks_parameter(judge.stored, node) {
        Some(Code::ProcessParameterMissing)
    } else if judge.last && !sees_named(scope, &node.arguments) {
        Some(Code::ParameterUnknown)
    } else if !is_known {
        Some(Code::NodeUnknown)
    } else if is_cyclic {
        Some(Code::GraphCycle)
    } else {
        None
    }
}

/// The parameters of the row of the catalogue that a node means where it calls no stored process.
fn catalogue_parameters(node: &Node) -> Option<&'static [ParameterEntry]>
    ensures { option_map (λ ps. map plain_of (map parameter_of ps.now)) result
        ≡ option_map (λ p. map plain_of p.parameters)
        (row_meant node.now.namespace node.now.process_id) }
{
    if !means_catalogue(&node.namespace) {
        return None;
    }
    match process_entry(node.process_id.as_str()) {
        Some(entry) => Some(entry.2),
        None => None,
    }
}

fn has_unknown_argument(stored: &[StoredProcess], node: &Node) -> bool
    ensures { result ≡ spec.has_unknown_argument
        (parameters_of (map plain_stored stored.now) (plain_node node.now))
        (plain_node node.now).arguments }
{
    if let Some(process) = callee(stored, node) {
        return lack_row(&process.parameters, &node.arguments);
    }
    match catalogue_parameters(node) {
        Some(parameters) => lack_entry(parameters, &node.arguments),
        None => false,
    }
}

/// Whether an argument has a name that no parameter has.
fn lack_row(parameters: &Vec<ParameterRow>, arguments: &Vec<(Text, Arg)>) -> bool
    ensures { result ≡ spec.has_unknown (names_among (map plain_parameter parameters.now.items))
        (plain_named arguments.now.items) }
{
    for argument in arguments {
        if !has_row(parameters, argument.0.as_str()) {
            return true;
        }
    }
    false
}

fn lack_entry(parameters: &[ParameterEntry], arguments: &Vec<(Text, Arg)>) -> bool
    ensures { result
        ≡ spec.has_unknown (names_among (map plain_of (map parameter_of parameters.now)))
        (plain_named arguments.now.items) }
{
    for argument in arguments {
        if !has_entry(parameters, argument.0.as_str()) {
            return true;
        }
    }
    false
}

fn has_row(parameters: &Vec<ParameterRow>, name: &str) -> bool
    ensures { result ≡ list_any (λ other. same_name other name.now)
        (names_among (map plain_parameter parameters.now.items)) }
{
    for parameter in parameters {
        if parameter.name.as_str() == name {
            return true;
        }
    }
    false
}

fn has_entry(parameters: &[ParameterEntry], name: &str) -> bool
    ensures { result ≡ list_any (λ other. same_name other name.now)
        (names_among (map plain_of (map parameter_of parameters.now))) }
{
    for parameter in parameters {
        if parameter.0 == name {
            return true;
        }
    }
    false
}

fn lacks_parameter(stored: &[StoredProcess], node: &Node) -> bool
    ensures { result ≡ spec.lacks_parameter
        (parameters_of (map plain_stored stored.now) (plain_node node.now))
        (plain_node node.now).arguments }
{
    if let Some(process) = callee(stored, node) {
        return misses_row(&process.parameters, &node.arguments);
    }
    match catalogue_parameters(node) {
        Some(parameters) => misses_entry(parameters, &node.arguments),
        None => false,
    }
}

/// Whether a parameter needs an argument, and none is given.
fn misses_row(parameters: &Vec<ParameterRow>, arguments: &Vec<(Text, Arg)>) -> bool
    ensures { result ≡ list_any (spec.is_missing (plain_named arguments.now.items))
        (map plain_parameter parameters.now.items) }
{
    for parameter in parameters {
        if parameter.default.is_none()
            && !parameter.optional
            && argument_named(arguments, parameter.name.as_str()).is_none()
        {
            return true;
        }
    }
    false
}

fn misses_entry(parameters: &[ParameterEntry], arguments: &Vec<(Text, Arg)>) -> bool
    ensures { result ≡ list_any (spec.is_missing (plain_named arguments.now.items))
        (map plain_of (map parameter_of parameters.now)) }
{
    for parameter in parameters {
        if parameter.2.is_none() && argument_named(arguments, parameter.0).is_none() {
            return true;
        }
    }
    false
}

/// Whether the scope has each parameter that these refer to.
#[cycle(sees)]
fn sees_named(scope: &[&'static str], members: &Vec<(Text, Arg)>) -> bool
    ensures { result ≡ spec.see_named (names_behind scope.now) (plain_named members.now.items) }
{
    for member in members {
        if !sees_arg(scope, &member.1) {
            return false;
        }
    }
    true
}

#[cycle(sees)]
fn sees_args(scope: &[&'static str], items: &Vec<Arg>) -> bool
    ensures { result ≡ spec.see_each (names_behind scope.now) (plain_args items.now.items) }
{
    for item in items {
        if !sees_arg(scope, item) {
            return false;
        }
    }
    true
}

#[cycle(sees)]
fn sees_arg(scope: &[&'static str], arg: &Arg) -> bool
    ensures { result ≡ spec.sees (names_behind scope.now) (plain_arg arg.now) }
{
    match arg {
        Arg::List(items) => sees_args(scope, items),
        Arg::Object(members) => sees_named(scope, members),
        Arg::FromParameter(name) => is_among(scope, name.as_str()),
        _ => true,
    }
}
