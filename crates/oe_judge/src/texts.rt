// What a user is told of a refusal.
ghost use Rattle.std.specs.Prelude.{◌≡◌, IfOk, string_bytes};
ghost use Rattle.oe_judge.specs.Texts as spec;

use oe_dims::Text;
use oe_graph::Fault;
use oe_memory::OutOfMemory;
use std::alloc::Global;

/// A code, and behind a blank its detail, where there is one.
///
/// Refuses: out of memory.
pub fn with_detail(alloc: Global, code: &str, detail: &str) -> Result<String, OutOfMemory>
    ensures { IfOk result (λ text. string_bytes text ≡ spec.with_detail code.now detail.now) }
{
    let mut text = String::from_str(alloc, code)?;
    if !detail.is_empty() {
        text.push_str(" ")?;
        text.push_str(detail)?;
    }
    Ok(text)
}

/// The code of a fault, and behind a blank the node at which it stands; of the graph as a whole the code alone.
///
/// Refuses: out of memory.
pub fn fault_text(alloc: Global, fault: &Fault) -> Result<Text, OutOfMemory>
    ensures { IfOk result (λ text. text ≡ spec.fault_text fault.now) }
{
    let text = with_detail(alloc, fault.code.as_str(), fault.node.as_str())?;
    Text::of(alloc, text.as_str())
}
