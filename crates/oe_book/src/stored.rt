// Whether stored processes may stand in a valid book.
ghost use Rattle.std.specs.Prelude.{◌≡◌, ◌≤◌, ◌↔◌, IfOk, IsTrue, length, map};
ghost use Rattle.std.specs.List.{AllByRecursion};
ghost use Rattle.oe_graph.specs.Plain.{plain_stored};
ghost use Rattle.oe_graph.specs.Read.{ReadsStored};
ghost use Rattle.oe_jobs.specs.Plain.{PlainOwned, plain_owned, plain_ran};
ghost use Rattle.oe_jobs.specs.Valid.{IsRan, IsStored, most_process};
ghost use Rattle.oe_book.specs.Parts.{HasFew, IsRead};

use crate::pairs::have_distinct_ids;
use crate::process::is_process_text;
use crate::same::is_same_process;
use oe_graph::{Refusal, StoredProcess, read_stored};
use oe_jobs::{Owned, Ran};
use oe_memory::OutOfMemory;
use std::alloc::Global;

/// Most bytes of a process.
const MOST_PROCESS: usize = 65536;

/// Most stored processes of a user.
const MOST_PROCESSES: usize = 16;

/// Whether what a job runs may stand in a valid book.
pub(crate) fn is_ran(alloc: Global, ran: &Ran) -> Result<bool, OutOfMemory>
    ensures { IfOk result (λ yes. IsTrue yes ↔ IsRan (plain_ran ran.now)) }
{
    if !has_few(&ran.stored) {
        return Ok(false);
    }
    is_read(alloc, ran)
}

/// Whether a job may run with so many stored processes of these ids.
fn has_few(stored: &[StoredProcess]) -> bool
    ensures { IsTrue result ↔ HasFew (map plain_stored stored.now) }
{
    stored.len() <= MOST_PROCESSES && have_distinct_ids(stored)
}

/// Whether what a job runs is as it was read.
fn is_read(alloc: Global, ran: &Ran) -> Result<bool, OutOfMemory>
    ensures { IfOk result (λ yes. IsTrue yes ↔ IsRead (plain_ran ran.now)) }
{
    Ok(is_process_text(alloc, &ran.process)? && are_stored(alloc, &ran.stored)?)
}

fn are_stored(alloc: Global, stored: &[StoredProcess]) -> Result<bool, OutOfMemory>
    ensures { IfOk result
        (λ yes. IsTrue yes ↔ AllByRecursion IsStored (map plain_stored stored.now)) }
{
    for process in stored.iter() {
        if !is_stored(alloc, process)? {
            return Ok(false);
        }
    }
    Ok(true)
}

/// Whether each stored process of a book is what its text is under its id.
pub(crate) fn are_owned_stored(alloc: Global, processes: &[Owned]) -> Result<bool, OutOfMemory>
    ensures { IfOk result (λ yes. IsTrue yes
        ↔ AllByRecursion (λ (owned : PlainOwned). IsStored owned.process)
        (map plain_owned processes.now)) }
{
    for owned in processes.iter() {
        if !is_stored(alloc, &owned.process)? {
            return Ok(false);
        }
    }
    Ok(true)
}

/// Whether a stored process is what its text is under its id, and its text is not too long.
fn is_stored(alloc: Global, process: &StoredProcess) -> Result<bool, OutOfMemory>
    ensures { IfOk result (λ yes. IsTrue yes ↔ IsStored (plain_stored process.now)) }
{
    if !is_short(process) {
        return Ok(false);
    }
    reads_back(alloc, process)
}

fn is_short(process: &StoredProcess) -> bool
    ensures { IsTrue result ↔ length process.now.text ≤ most_process }
{
    process.text.as_str().len() <= MOST_PROCESS
}

fn reads_back(alloc: Global, process: &StoredProcess) -> Result<bool, OutOfMemory>
    ensures { IfOk result (λ yes. IsTrue yes
        ↔ ReadsStored process.now.id process.now.text (plain_stored process.now)) }
{
    match read_stored(alloc, process.id.as_str(), process.text.as_str().as_bytes()) {
        Ok(read) => Ok(is_same_process(&read, process)),
        Err(Refusal::Fault(_)) => Ok(false),
        Err(Refusal::OutOfMemory) => Err(OutOfMemory),
    }
}
