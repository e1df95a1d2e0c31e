// Changes that are made of a book, or of a copy of it.
ghost use Rattle.std.specs.Prelude.{◌≡◌, IfOk, OnErr, OnOk, None, Some, if◌then◌else◌};
ghost use Rattle.std.specs.Option.{option_map};
ghost use Rattle.oe_jobs.specs.Changes.{changed};
ghost use Rattle.oe_jobs.specs.Plain.{plain_book, plain_change};

use oe_jobs::{Book, Change};
use oe_memory::OutOfMemory;

/// Makes the change of the book. Refuses: out of memory; the book's contents stay then.
pub(crate) fn make(book: &mut Book, change: &Change) -> Result<(), OutOfMemory>
    ensures made { OnOk result (plain_book book.new
        ≡ changed (plain_book book.old) (plain_change change.now)) }
    ensures same { OnErr result (plain_book book.new ≡ plain_book book.old) }
{
    let copy = change.copy()?;
    book.ready(&copy)?;
    book.install(copy);
    Ok(())
}

/// A copy of the book with the change, and a second one where it is asked for.
pub(crate) fn changed_copies(
    book: &Book,
    change: &Change,
    twice: bool,
) -> Result<(Book, Option<Book>), OutOfMemory>
    ensures first { IfOk result (λ copies. plain_book copies.0
        ≡ changed (plain_book book.now) (plain_change change.now)) }
    ensures second { IfOk result (λ copies. option_map plain_book copies.1
        ≡ (if twice then Some (changed (plain_book book.now) (plain_change change.now))
        else None)) }
{
    let copy = changed_copy(book, change)?;
    if twice {
        let second = copy.copy()?;
        Ok((copy, Some(second)))
    } else {
        Ok((copy, None))
    }
}

fn changed_copy(book: &Book, change: &Change) -> Result<Book, OutOfMemory>
    ensures { IfOk result (λ copy. plain_book copy
        ≡ changed (plain_book book.now) (plain_change change.now)) }
{
    let mut copy = book.copy()?;
    make(&mut copy, change)?;
    Ok(copy)
}
