// Whether a book is valid.
ghost use Rattle.std.specs.Prelude.{◌↔◌, IfOk, IsTrue};
ghost use Rattle.oe_jobs.specs.Plain.{plain_book};
ghost use Rattle.oe_jobs.specs.Valid.{IsBook};
ghost use Rattle.oe_book.specs.Parts.{HasRecords, IsNext, JobsCompare, JobsFit, NumbersFit, ProcessesFit};

use crate::job::are_jobs;
use crate::numbers::{are_numbered, has_few_jobs, has_few_processes};
use crate::pairs::{all_differ, are_all_apart};
use crate::stored::are_owned_stored;
use oe_jobs::Book;
use oe_memory::OutOfMemory;
use std::alloc::Global;

/// Whether a book is valid, that is, keeps each rule of `IsBook`: those of the numbers, turns and statuses of its jobs, of
/// each text, moment, log, asset and process by itself, and of how many jobs and processes a user has.
///
/// Refuses: out of memory.
pub fn is_book(alloc: Global, book: &Book) -> Result<bool, OutOfMemory>
    ensures { IfOk result (λ yes. IsTrue yes ↔ IsBook (plain_book book.now)) }
{
    if !is_apart(book) {
        return Ok(false);
    }
    has_records(alloc, book)
}

/// The rules that compare the records of a book.
fn is_apart(book: &Book) -> bool
    ensures { IsTrue result ↔ JobsFit (plain_book book.now) × ProcessesFit (plain_book book.now) }
{
    are_jobs_apart(book) && are_processes_apart(book)
}

/// The rules that compare the jobs of a book.
fn are_jobs_apart(book: &Book) -> bool
    ensures { IsTrue result ↔ JobsFit (plain_book book.now) }
{
    has_numbers(book) && are_jobs_compared(book)
}

/// The rules of the numbers of a book.
fn has_numbers(book: &Book) -> bool
    ensures { IsTrue result ↔ NumbersFit (plain_book book.now) }
{
    is_next(book.next) && are_numbered(&book.jobs, book.next)
}

/// Whether a book may have this next number.
fn is_next(next: u64) -> bool
    ensures { IsTrue result ↔ IsNext next }
{
    next >= 1
}

/// The rules of two jobs, and of all jobs of a user.
fn are_jobs_compared(book: &Book) -> bool
    ensures { IsTrue result ↔ JobsCompare (plain_book book.now) }
{
    are_all_apart(&book.jobs) && has_few_jobs(book)
}

/// The rules that compare the stored processes of a book.
fn are_processes_apart(book: &Book) -> bool
    ensures { IsTrue result ↔ ProcessesFit (plain_book book.now) }
{
    all_differ(&book.processes) && has_few_processes(book)
}

/// The rules of each record by itself.
fn has_records(alloc: Global, book: &Book) -> Result<bool, OutOfMemory>
    ensures { IfOk result (λ yes. IsTrue yes ↔ HasRecords (plain_book book.now)) }
{
    Ok(are_jobs(alloc, &book.jobs, book.next)? && are_owned_stored(alloc, &book.processes)?)
}
