// In which order nodes come to be worked off that are ready.
ghost use Rattle.std.specs.Prelude.{◌≡◌, ◌<◌, ◌≤◌, ◌++◌, IfOk, codes, count_by, length};
ghost use Rattle.oe_dims.specs.Names.{is_name_before};
ghost use Rattle.oe_graph.specs.Printed.{node_count};
ghost use Rattle.oe_order.specs.Turns.{AreTurns};
ghost use Rattle.oe_plan.specs.Turns as spec;

use oe_check::Checked;
use oe_dims::{Text, is_name_before};
use oe_memory::OutOfMemory;
use oe_requests::Operation;
use std::alloc::Global;

/// Whether a node takes running sums.
pub(crate) fn takes_sums(checked: &Checked, node: u32) -> bool
    requires { node < node_count checked.now.nodes }
    ensures { result ≡ spec.takes_sums checked.now node }
{
    match checked.operation(node) {
        Operation::Accumulate(_) => true,
        _ => false,
    }
}

/// The name of the sums of a node of this id.
fn name_of_sums(alloc: Global, id: &str) -> Result<Text, OutOfMemory>
    ensures { IfOk result (λ name. name ≡ id.now ++ codes "/sum") }
{
    let mut name = String::from_str(alloc, id)?;
    name.push_str("/sum")?;
    Text::of(alloc, name.as_str())
}

/// The name by which a node has its turn: its id, or that of its sums where it takes running sums.
fn turn_name(alloc: Global, checked: &Checked, node: u32) -> Result<Text, OutOfMemory>
    requires { node < node_count checked.now.nodes }
    ensures { IfOk result (λ name. name ≡ spec.turn_name checked.now node) }
{
    let id = checked.id(node);
    if takes_sums(checked, node) {
        name_of_sums(alloc, id)
    } else {
        Text::of(alloc, id)
    }
}

/// How many of these names come before a name.
fn count_before(names: &[Text], name: &Text) -> usize
    ensures value { result ≡ count_by (λ other. is_name_before other name.now) names.now }
    ensures most { result ≤ length names.now }
{
    let mut count: usize = 0;
    for other in names {
        if is_name_before(other.as_str(), name.as_str()) {
            count += 1;
        }
    }
    count
}

/// All nodes in the byte order of the names by which they have their turns.
///
/// Refuses: where an allocation was refused, and nowhere else.
pub(crate) fn turns_of(alloc: Global, checked: &Checked) -> Result<Vec<u32>, OutOfMemory>
    ensures turns { IfOk result (λ turns. turns.items ≡ spec.turns_of checked.now) }
    ensures each { IfOk result (λ turns. AreTurns (node_count checked.now.nodes) turns.items) }
{
    let mut turns = Vec::with_capacity(alloc, checked.nodes() as usize)?;
    // The names of the nodes so far, in the same order.
    let mut names = Vec::with_capacity(alloc, checked.nodes() as usize)?;
    for node in 0..checked.nodes() {
        let name = turn_name(alloc, checked, node)?;
        let place = count_before(names.as_slice(), &name);
        turns.insert(place, node)?;
        names.insert(place, name)?;
    }
    Ok(turns)
}
