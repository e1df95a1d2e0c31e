// The links of the part of a run behind a node.
ghost use Rattle.std.specs.Prelude.{◌≡◌, ◌<◌, IfOk, length};
ghost use Rattle.oe_order.specs.Graph.{graph_of};
ghost use Rattle.oe_plan.specs.Schedules.{as_load};

use oe_memory::OutOfMemory;
use oe_order::Links;
use std::alloc::Global;

/// The same links, where the node counts as one that loads, and takes nothing.
///
/// Refuses: where an allocation was refused, and nowhere else.
pub(crate) fn with_load_at(
    alloc: Global,
    links: &[Links],
    node: u32,
) -> Result<Vec<Links>, OutOfMemory>
    requires { node < length links.now }
    ensures graph { IfOk result (λ r. graph_of r.items ≡ as_load (graph_of links.now) node) }
    ensures count { IfOk result (λ r. length r.items ≡ length links.now) }
{
    let mut copies = copy_all(alloc, links)?;
    copies[node as usize] = Links {
        load: true,
        arguments: Vec::new(alloc),
    };
    Ok(copies)
}

/// The links of all nodes.
fn copy_all(alloc: Global, links: &[Links]) -> Result<Vec<Links>, OutOfMemory>
    ensures graph { IfOk result (λ r. graph_of r.items ≡ graph_of links.now) }
    ensures count { IfOk result (λ r. length r.items ≡ length links.now) }
{
    let mut copies = Vec::with_capacity(alloc, links.len())?;
    for link in links {
        let copied = copy_one(alloc, link)?;
        copies.push(copied)?;
    }
    Ok(copies)
}

/// The links of one node.
fn copy_one(alloc: Global, link: &Links) -> Result<Links, OutOfMemory>
    ensures load { IfOk result (λ r. r.load ≡ link.now.load) }
    ensures arguments { IfOk result (λ r. r.arguments.items ≡ link.now.arguments.items) }
{
    let mut arguments = Vec::with_capacity(alloc, link.arguments.len())?;
    arguments.extend_from_slice(link.arguments.as_slice())?;
    Ok(Links {
        load: link.load,
        arguments,
    })
}
