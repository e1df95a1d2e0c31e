// The collections that a request is answered over.
ghost use Rattle.std.specs.Prelude.{◌≡◌, IfOk, true};
ghost use Rattle.oe_dims.specs.Plain.{plain_rows};
ghost use Rattle.oe_http.specs.Plain.{plain_request};
ghost use Rattle.oe_engine.specs.Laws.{GivesCollections};
ghost use Rattle.oe_routes.specs.Asks.{asks_for_rows as is_asked};
ghost use Rattle.oe_sources.specs.CatalogueDims.{AreDimsOf, dims_of};
ghost use Rattle.oe_sources.specs.CatalogueRows.{rows_of};
ghost use Rattle.oe_serve.specs.Rows as spec;

use oe_dims::Dims;
use oe_engine::collections_are_valid;
use oe_http::Request;
use oe_memory::OutOfMemory;
use oe_routes::asks_for_rows;
use oe_sources::Catalogue;
use std::alloc::Global;

/// The rows of the mounted collections, where a request asks for them, and none for all others: the labels of all
/// collections may be many. Refuses: out of memory.
pub(crate) fn rows_for(
    alloc: Global,
    request: &Request,
    catalogue: &Catalogue,
) -> Result<Dims, OutOfMemory>
    ensures rows { IfOk result (λ dims. plain_rows dims
        ≡ spec.rows_asked (plain_request request.now) (dims_of (rows_of seen catalogue.now))) }
    ensures given { IfOk result (λ _. is_asked (plain_request request.now) ≡ true
        → GivesCollections (rows_of seen catalogue.now)) }
    ensures found { IfOk result (λ _. is_asked (plain_request request.now) ≡ true
        → AreDimsOf (rows_of seen catalogue.now) (dims_of (rows_of seen catalogue.now))) }
{
    if asks_for_rows(alloc, request)? {
        all_rows(catalogue)
    } else {
        Ok(Dims {
            rows: Vec::new(alloc),
        })
    }
}

/// The rows of all mounted collections. Refuses: out of memory.
fn all_rows(catalogue: &Catalogue) -> Result<Dims, OutOfMemory>
    ensures rows { IfOk result (λ dims. plain_rows dims ≡ dims_of (rows_of seen catalogue.now)) }
    ensures given { IfOk result (λ _. GivesCollections (rows_of seen catalogue.now)) }
    ensures found { IfOk result (λ _. AreDimsOf (rows_of seen catalogue.now)
        (dims_of (rows_of seen catalogue.now))) }
{
    let dims = catalogue.dims()?;
    // A law that the proof rests on: its loop only looks.
    collections_are_valid(catalogue, &dims);
    Ok(dims)
}
