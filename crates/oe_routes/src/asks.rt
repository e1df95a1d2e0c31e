// What requests ask for.
ghost use Rattle.std.specs.Prelude.{◌≡◌, IfOk};
ghost use Rattle.oe_http.specs.Plain.{plain_request};
ghost use Rattle.oe_routes.specs.Asks as spec;
ghost use Rattle.oe_routes.specs.Steps.{Gives};
ghost use Rattle.oe_routes.specs.Table.{method_of};

use crate::refusal::Refusal;
use crate::table::{MethodEntry, Operation, find_method, find_path};
use oe_http::Request;
use oe_memory::OutOfMemory;
use std::alloc::Global;

/// Whether a request asks for the rows of the mounted collections: its path and its method are those of an operation
/// that shows collections or judges a graph. Every other request is answered alike whatever the rows are. Refuses: out
/// of memory.
pub fn asks_for_rows(alloc: Global, request: &Request) -> Result<bool, OutOfMemory>
    ensures { IfOk result (λ asks. asks ≡ spec.asks_for_rows (plain_request request.now)) }
{
    match asked_method(alloc, request) {
        Ok(method) => Ok(needs_rows(method.1)),
        Err(Refusal::Code(_)) => Ok(false),
        Err(Refusal::OutOfMemory) => Err(OutOfMemory),
    }
}

/// The row of the table for the path and the method of a request.
///
/// Refuses: `NotFound`, `MethodUnsupported`; out of memory.
pub(crate) fn asked_method(
    alloc: Global,
    request: &Request,
) -> Result<&'static MethodEntry, Refusal>
    ensures { Gives (λ m. method_of m.now) result (spec.asked_method (plain_request request.now)) }
{
    let methods = find_path(alloc, request.path.as_str())?;
    find_method(methods, request.method.as_str())
}

/// Whether an operation shows collections or judges a graph.
fn needs_rows(operation: Operation) -> bool
    ensures { result ≡ spec.needs_rows operation }
{
    match operation {
        Operation::ListCollections
        | Operation::ShowCollection
        | Operation::Validate
        | Operation::RunNow
        | Operation::EstimateJob
        | Operation::QueueJob => true,
        _ => false,
    }
}
