// Boxes, bands and kernels, which are read as the processes that take them read them.
ghost use Rattle.std.specs.Prelude.{◌≡◌, [], IfOk, codes, is_some};
ghost use Rattle.oe_graph.specs.Plain.{plain_arg, plain_named, plain_node};
ghost use Rattle.oe_graph.specs.Tree.{from_node, list, no_arguments};
ghost use Rattle.oe_requests.specs.Parameters.{bands_in, box_in, kernel_in};
ghost use Rattle.oe_requests.specs.Requests.{cube_request_at};
ghost use Rattle.oe_explain.specs.Asked.{node_with, on_cube as cube_with, with_argument};

use oe_dims::Text;
use oe_graph::{Arg, Node, copy_arg};
use oe_memory::OutOfMemory;
use oe_requests::read_request;
use std::alloc::Global;

/// A node of a process with these arguments.
fn made_up(alloc: Global, process: &str, arguments: Vec<(Text, Arg)>) -> Result<Node, OutOfMemory>
    ensures { IfOk result
        (λ n. plain_node n ≡ node_with process.now (plain_named arguments.items)) }
{
    Ok(Node {
        id: Text::of(alloc, "")?,
        process_id: Text::of(alloc, process)?,
        namespace: None,
        arguments,
    })
}

/// Whether a node of a process with these arguments asks for something.
fn asks(alloc: Global, process: &str, arguments: Vec<(Text, Arg)>) -> Result<bool, OutOfMemory>
    ensures { IfOk result (λ b. b
        ≡ is_some (cube_request_at (node_with process.now (plain_named arguments.items)))) }
{
    let node = made_up(alloc, process, arguments)?;
    let request = read_request(alloc, &node)?;
    Ok(request.is_some())
}

/// The arguments with one more.
#[tactic(auto, using(crate::proofs::AskedLemmas::one_more))]
fn with(
    alloc: Global,
    arguments: Vec<(Text, Arg)>,
    name: &str,
    arg: Arg,
) -> Result<Vec<(Text, Arg)>, OutOfMemory>
    ensures { IfOk result (λ v. plain_named v.items
        ≡ with_argument (plain_named arguments.items) name.now (plain_arg arg)) }
{
    let mut arguments = arguments;
    arguments.push((Text::of(alloc, name)?, arg))?;
    Ok(arguments)
}

/// Some node as a cube.
fn some_cube(alloc: Global) -> Result<Arg, OutOfMemory>
    ensures { IfOk result (λ a. plain_arg a ≡ from_node []) }
{
    Ok(Arg::FromNode(Text::of(alloc, "")?))
}

/// The empty list.
fn empty_list(alloc: Global) -> Arg
    ensures { plain_arg result ≡ list no_arguments }
{
    Arg::List(Vec::new(alloc))
}

/// The arguments of a process on one cube: some node as `data`, and a copy of this one.
fn on_cube(alloc: Global, name: &str, arg: &Arg) -> Result<Vec<(Text, Arg)>, OutOfMemory>
    ensures { IfOk result (λ v. plain_named v.items ≡ cube_with name.now (plain_arg arg.now)) }
{
    let arguments = with(alloc, Vec::new(alloc), "data", some_cube(alloc)?)?;
    with(alloc, arguments, name, copy_arg(alloc, arg)?)
}

/// A box.
#[tactic(auto, using(crate::proofs::AskedLemmas::box_asked))]
pub(crate) fn is_box(alloc: Global, arg: &Arg) -> Result<bool, OutOfMemory>
    ensures { IfOk result (λ b. b ≡ is_some (box_in (plain_arg arg.now))) }
{
    let arguments = on_cube(alloc, "extent", arg)?;
    asks(alloc, "filter_bbox", arguments)
}

/// A list of names, none of them twice.
#[tactic(auto, using(crate::proofs::AskedLemmas::bands_asked))]
pub(crate) fn are_bands(alloc: Global, arg: &Arg) -> Result<bool, OutOfMemory>
    ensures { IfOk result (λ b. b ≡ is_some (bands_in (plain_arg arg.now))) }
{
    let arguments = on_cube(alloc, "bands", arg)?;
    let arguments = with(alloc, arguments, "wavelengths", empty_list(alloc))?;
    asks(alloc, "filter_bands", arguments)
}

/// A kernel.
#[tactic(auto, using(crate::proofs::AskedLemmas::kernel_asked))]
pub(crate) fn is_kernel(alloc: Global, arg: &Arg) -> Result<bool, OutOfMemory>
    ensures { IfOk result (λ b. b ≡ is_some (kernel_in (plain_arg arg.now))) }
{
    let arguments = on_cube(alloc, "kernel", arg)?;
    let arguments = with(alloc, arguments, "factor", Arg::Whole(1))?;
    let arguments = with(alloc, arguments, "border", Arg::Whole(0))?;
    let arguments = with(alloc, arguments, "replace_invalid", Arg::Whole(0))?;
    asks(alloc, "apply_kernel", arguments)
}
