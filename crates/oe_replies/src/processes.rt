// Processes: those of the catalogue, and those that a user has stored.
ghost use Rattle.std.specs.Prelude.{◌≡◌, IfOk, false, map};
ghost use Rattle.serde_json.specs.View.{view};
ghost use Rattle.serde_json.specs.Written.{has_float};
ghost use Rattle.oe_graph.specs.Catalogue.{processes_data};
ghost use Rattle.oe_jobs.specs.Plain.{plain_book};
ghost use Rattle.oe_jobs.specs.Verdicts.{stored_of};
ghost use Rattle.oe_replies.specs.Jobs as spec;

use crate::values::{listing_json, single};
use oe_dims::same_text;
use oe_graph::{processes_text, str_json};
use oe_jobs::Book;
use oe_memory::OutOfMemory;
use serde_json::Value;
use std::alloc::Global;

/// The processes of the catalogue, in byte order of their ids (openEO API, processes): a value of which a page may be taken.
/// The text of the catalogue is read again.
///
/// Refuses: out of memory.
#[tactic(auto, using(crate::proofs::Catalogue::catalogue_whole, crate::proofs::Catalogue::is_catalogue, crate::proofs::Catalogue::is_read))]
pub fn processes_list(alloc: Global) -> Result<Value, OutOfMemory>
    ensures list { IfOk result (λ v. view v ≡ processes_data) }
    ensures whole { IfOk result (λ v. has_float (view v) ≡ false) }
{
    let text = processes_text(alloc)?;
    match Value::from_str(alloc, text.as_str()) {
        Ok(value) => Ok(value),
        Err(error) if error.is_memory() => Err(OutOfMemory),
        Err(_) => unreachable!(),
    }
}

/// The ids of the processes that a user has stored, in byte order (openEO API, user-defined processes): a value of which a
/// page may be taken.
///
/// Refuses: out of memory.
#[tactic(auto, using(crate::proofs::Floats::stored_whole))]
pub fn stored_list(alloc: Global, book: &Book, user: &str) -> Result<Value, OutOfMemory>
    ensures list { IfOk result
        (λ v. view v ≡ spec.stored_list_data (plain_book book.now) user.now) }
    ensures whole { IfOk result (λ v. has_float (view v) ≡ false) }
{
    stored_list_json(alloc, book, user)
}

fn stored_list_json(alloc: Global, book: &Book, user: &str) -> Result<Value, OutOfMemory>
    ensures { IfOk result
        (λ v. view v ≡ spec.stored_list_data (plain_book book.now) user.now) }
{
    listing_json(alloc, "processes", stored_values(alloc, book, user)?)
}

fn stored_values(alloc: Global, book: &Book, user: &str) -> Result<Vec<Value>, OutOfMemory>
    ensures { IfOk result (λ values. map view values.items
        ≡ map spec.stored_row_data (stored_of user.now (plain_book book.now))) }
{
    let mut values = Vec::new(alloc);
    for owned in &book.processes {
        if same_text(owned.user.as_str(), user) {
            values.push(single(alloc, "id", str_json(alloc, owned.process.id.as_str())?)?)?;
        }
    }
    Ok(values)
}
