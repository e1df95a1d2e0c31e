// A graph with the stored processes that it may call, over collections.
ghost use Rattle.std.specs.Prelude.{◌≡◌, map, IfErr, IfOk, OnOk};
ghost use Rattle.oe_dims.specs.Plain.{plain_rows};
ghost use Rattle.oe_graph.specs.Plain.{plain_graph, plain_stored};
ghost use Rattle.oe_graph.specs.Read.{IsFault, IsFaultless};
ghost use Rattle.oe_graph.specs.Valid.{AreValidStored, IsValidGraph};
ghost use Rattle.oe_judge.specs.Judged.{StandsWithCollections, checked_over};

use oe_check::{Checked, check};
use oe_dims::Dims;
use oe_graph::{Graph, Refusal, StoredProcess};
use oe_resolve::resolve;
use std::alloc::Global;

/// The graph with each call of a stored process replaced, with all defaults, and with the operation, shape and kind of
/// each node over collections of these rows. No cell of them is read.
///
/// Refuses: the least fault of what the graph calls and names, of its arguments and of its cubes, exactly where one
/// stands; out of memory.
pub fn judge(
    alloc: Global,
    graph: &Graph,
    stored: &[StoredProcess],
    dims: &Dims,
) -> Result<Checked, Refusal>
    requires graph_valid { IsValidGraph (plain_graph graph.now) }
    requires stored_valid { AreValidStored (map plain_stored stored.now) }
    ensures checked { IfOk result (λ checked. checked
        ≡ checked_over (plain_rows dims.now) (map plain_stored stored.now) (plain_graph graph.now)) }
    // Ok comes exactly where no fault stands, else the least one.
    ensures none { OnOk result (IsFaultless (StandsWithCollections (plain_rows dims.now)
        (map plain_stored stored.now) (plain_graph graph.now))) }
    ensures refused { IfErr result (IsFault (StandsWithCollections (plain_rows dims.now)
        (map plain_stored stored.now) (plain_graph graph.now))) }
{
    match resolve(alloc, graph, stored) {
        Ok(resolved) => check(alloc, &resolved, dims),
        Err(refusal) => Err(refusal),
    }
}
