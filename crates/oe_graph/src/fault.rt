// A fault of a graph, and the order in which faults are reported.
ghost use Rattle.std.specs.Prelude.{◌≡◌, Some};
ghost use Rattle.oe_graph.specs.Faults as spec;

use crate::code::Code;
use oe_dims::Text;
use oe_memory::OutOfMemory;

/// What is wrong with a graph, and the node at which it is: `n` in the main graph, `p/a/n` in the callback `a` of
/// the node `p`, empty for the graph as a whole.
#[derive(Drop)]
pub struct Fault {
    pub code: Code,
    pub node: Text,
}

/// Why a graph was not taken.
#[derive(Drop)]
pub enum Refusal {
    /// The least fault of the graph.
    Fault(Fault),
    OutOfMemory,
}

impl From<OutOfMemory> for Refusal {
    ghost use Rattle.std.specs.Prelude.{◌≡◌};
    ghost use Rattle.oe_graph.specs.declared.fault.Refusal.TheVariants.{OutOfMemory as out_of_memory};

    ghost from_gives = { λ _ r. r ≡ out_of_memory };

    fn from(_refused: OutOfMemory) -> Refusal {
        Refusal::OutOfMemory
    }
}

/// Whether `a` is reported rather than `b`: by phase, then by node in byte order, then by number.
pub fn is_before(a: &Fault, b: &Fault) -> bool
    ensures { result ≡ spec.is_before a.now b.now }
{
    let nodes = a.node.as_str().cmp(b.node.as_str());
    let numbers = a.code.number().cmp(&b.code.number());
    let phases = a.code.phase().cmp(&b.code.phase());
    phases.then(nodes.then(numbers)).is_lt()
}

/// The one of two faults that is reported; the first of two equal ones.
pub fn least(a: Option<Fault>, b: Option<Fault>) -> Option<Fault>
    ensures { result ≡ spec.least a b }
{
    match (a, b) {
        (Some(a), Some(b)) => Some(if is_before(&b, &a) { b } else { a }),
        (Some(a), None) => Some(a),
        (None, b) => b,
    }
}

/// Keeps the one of the fault that was found and another that is reported.
pub fn note_fault(found: &mut Option<Fault>, fault: Fault)
    ensures { found.new ≡ spec.least found.old (Some fault) }
{
    let kept = least(found.take(), Some(fault));
    *found = kept;
}
