// The values of parameters.
ghost use Rattle.std.specs.Prelude.{◌≡◌, ◌++◌, [], true, IfOk, if◌then◌else◌, map, option_map, unwrap_or};
ghost use Rattle.std.specs.Option.{option_or};
ghost use Rattle.oe_graph.specs.Plain.{plain_arg, plain_args, plain_named, plain_parameter};
ghost use Rattle.oe_graph.specs.References.{argument_named};
ghost use Rattle.oe_graph.specs.Tree.{from_parameter};
ghost use Rattle.oe_calls.specs.Renamed.{dangling, renamed, renamed_each, renamed_named};
ghost use Rattle.oe_calls.specs.Substituted as spec;
ghost use Rattle.oe_calls.specs.PlainValues.{names_behind, seen, seen_inside};

use crate::names::{is_among, join_names};
use oe_dims::Text;
use oe_graph::{Arg, ParameterRow, argument_named, copy_arg};
use oe_memory::OutOfMemory;
use std::alloc::Global;

/// What stands for parameters: the values of a call, and in a callback those that are not hidden, whose references
/// dangle there.
#[derive(Drop)]
pub struct Values<'a> {
    /// The id of the node that calls.
    pub call: &'a str,
    pub given: &'a Vec<(Text, Arg)>,
    /// Names that are hidden in a callback.
    pub hidden: Vec<&'static str>,
    pub in_callback: bool,
}

/// The value of each parameter of a process that is called with these arguments.
pub fn values_given(
    alloc: Global,
    parameters: &Vec<ParameterRow>,
    arguments: &Vec<(Text, Arg)>,
) -> Result<Vec<(Text, Arg)>, OutOfMemory>
    ensures { IfOk result (λ v. plain_named v.items
        ≡ spec.values_given (map plain_parameter parameters.now.items)
        (plain_named arguments.now.items)) }
{
    let mut values = Vec::new(alloc);
    for parameter in parameters {
        if let Some(value) = value_of(alloc, parameter, arguments)? {
            values.push((parameter.name.copy()?, value))?;
        }
    }
    Ok(values)
}

fn value_of(
    alloc: Global,
    parameter: &ParameterRow,
    arguments: &Vec<(Text, Arg)>,
) -> Result<Option<Arg>, OutOfMemory>
    ensures { IfOk result (λ a. option_map plain_arg a
        ≡ option_or (argument_named parameter.now.name (plain_named arguments.now.items))
        (spec.default_of (plain_parameter parameter.now))) }
{
    match argument_named(arguments, parameter.name.as_str()) {
        Some(argument) => Ok(Some(copy_arg(alloc, argument)?)),
        None => default_of(alloc, parameter),
    }
}

/// What a parameter has where no argument is given. Refuses: out of memory.
pub fn default_of(alloc: Global, parameter: &ParameterRow) -> Result<Option<Arg>, OutOfMemory>
    ensures { IfOk result
        (λ a. option_map plain_arg a ≡ spec.default_of (plain_parameter parameter.now)) }
{
    match &parameter.default {
        Some(default) => Ok(Some(copy_arg(alloc, default)?)),
        None if parameter.optional => Ok(Some(Arg::Null)),
        None => Ok(None),
    }
}

/// The values that a callback sees, where its node gives it these parameters.
pub fn inside<'a>(
    alloc: Global,
    own: &[&'static str],
    values: &Values<'a>,
) -> Result<Values<'a>, OutOfMemory>
    ensures seen { IfOk result
        (λ v. seen v ≡ spec.inside (names_behind own.now) (seen values.now)) }
    ensures in_callback { IfOk result (λ v. v.in_callback ≡ true) }
{
    let hidden = hidden_inside(alloc, own, values)?;
    Ok(Values {
        call: values.call,
        given: values.given,
        hidden,
        in_callback: true,
    })
}

/// The names that are hidden in a callback: those that its node gives it, and those that were hidden before.
fn hidden_inside(
    alloc: Global,
    own: &[&'static str],
    values: &Values,
) -> Result<Vec<&'static str>, OutOfMemory>
    ensures { IfOk result (λ names. names.items
        ≡ own.now ++ (if values.now.in_callback then values.now.hidden.items else [])) }
{
    if values.in_callback {
        join_names(alloc, own, values.hidden.as_slice())
    } else {
        join_names(alloc, own, &[])
    }
}

/// The value of a parameter where a reference to it stands.
pub fn value_named(alloc: Global, values: &Values, name: &Text) -> Result<Arg, OutOfMemory>
    ensures { IfOk result (λ a. plain_arg a
        ≡ unwrap_or (argument_named name.now (seen values.now)) (from_parameter name.now)) }
{
    if values.in_callback {
        return value_in_callback(alloc, values, name);
    }
    match argument_named(values.given, name.as_str()) {
        Some(value) => copy_arg(alloc, value),
        None => Ok(Arg::FromParameter(name.copy()?)),
    }
}

/// The value of a parameter in a callback.
fn value_in_callback(alloc: Global, values: &Values, name: &Text) -> Result<Arg, OutOfMemory>
    ensures { IfOk result (λ a. plain_arg a
        ≡ unwrap_or (argument_named name.now (seen_inside values.now)) (from_parameter name.now)) }
{
    if is_among(values.hidden.as_slice(), name.as_str()) {
        return Ok(Arg::FromParameter(name.copy()?));
    }
    match argument_named(values.given, name.as_str()) {
        Some(value) => dangling_arg(alloc, value),
        None => Ok(Arg::FromParameter(name.copy()?)),
    }
}

/// A copy whose references dangle, as it is put into another graph object.
#[cycle(dangling)]
fn dangling_arg(alloc: Global, arg: &Arg) -> Result<Arg, OutOfMemory>
    ensures { IfOk result (λ a. plain_arg a ≡ renamed dangling (plain_arg arg.now)) }
{
    match arg {
        Arg::List(items) => Ok(Arg::List(dangling_args(alloc, items)?)),
        Arg::Object(members) => Ok(Arg::Object(dangling_named(alloc, members)?)),
        Arg::FromNode(_) => Ok(Arg::FromNode(Text::of(alloc, "")?)),
        _ => copy_arg(alloc, arg),
    }
}

#[cycle(dangling)]
fn dangling_args(alloc: Global, items: &Vec<Arg>) -> Result<Vec<Arg>, OutOfMemory>
    ensures { IfOk result
        (λ v. plain_args v.items ≡ renamed_each dangling (plain_args items.now.items)) }
{
    let mut copy = Vec::with_capacity(alloc, items.len())?;
    for item in items {
        copy.push(dangling_arg(alloc, item)?)?;
    }
    Ok(copy)
}

#[cycle(dangling)]
fn dangling_named(
    alloc: Global,
    members: &Vec<(Text, Arg)>,
) -> Result<Vec<(Text, Arg)>, OutOfMemory>
    ensures { IfOk result
        (λ v. plain_named v.items ≡ renamed_named dangling (plain_named members.now.items)) }
{
    let mut copy = Vec::with_capacity(alloc, members.len())?;
    for member in members {
        let name = member.0.copy()?;
        copy.push((name, dangling_arg(alloc, &member.1)?))?;
    }
    Ok(copy)
}
