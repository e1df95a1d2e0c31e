// Numbers of jobs, as texts.
ghost use Rattle.std.specs.Prelude.{◌≡◌, ◌↔◌, IfOk, IsTrue, decimal};
ghost use Rattle.oe_jobs.specs.Texts.{Finds, NamesNumber, SpellsNumber};
ghost use Rattle.oe_jobs.specs.Verdicts as spec;

use crate::job::Job;
use itoa::Buffer;
use oe_dims::Text;
use oe_memory::OutOfMemory;
use std::alloc::Global;

impl Job {
    /// The number that the job drew: N of the id `j-N`. None exactly where its id is no such text, which is never so in
    /// a valid book.
    pub fn number(&self) -> Option<u64>
        ensures { Finds (NamesNumber self.now.id) result }
    {
        number_of(self.id.as_str())
    }
}

/// The id of the job of a number. Refuses: out of memory.
pub fn job_id(alloc: Global, number: u64) -> Result<Text, OutOfMemory>
    ensures { IfOk result (λ id. id ≡ spec.job_id number) }
{
    let id = format!(in alloc; "j-{number}")?;
    Text::of(alloc, id.as_str())
}

/// The number of the job of an id. None exactly where the id is that of no number.
pub fn number_of(id: &str) -> Option<u64>
    ensures { Finds (NamesNumber id.now) result }
{
    match id.split_once('-') {
        Some((head, digits)) => {
            if head == "j" {
                read_number(digits)
            } else {
                None
            }
        }
        None => None,
    }
}

/// The number that a text spells in decimal without leading zeros. None exactly where it spells none of 64 bits.
pub fn read_number(text: &str) -> Option<u64>
    ensures { Finds (SpellsNumber text.now) result }
{
    match text.parse::<u64>() {
        Ok(number) => {
            if is_decimal(text, number) {
                Some(number)
            } else {
                None
            }
        }
        Err(_) => None,
    }
}

fn is_decimal(text: &str, number: u64) -> bool
    ensures { IsTrue result ↔ text.now ≡ decimal number }
{
    Buffer::new().format(number) == text
}
