// Why a result is not sent.
ghost use Rattle.std.specs.Prelude.{◌≡◌};
ghost use Rattle.oe_serve.specs.Results as spec;

use oe_engine::RunFail;

/// Why the run of a graph has no result.
#[derive(Clone, Copy, PartialEq, Eq)]
pub enum ResultRefusal {
    /// It would hold so many cells, which are more than are allowed.
    PlanTooLarge(u128),
    /// A read of a collection failed.
    ReadFault,
    /// The node `load` keeps this position of its collection, by its row-major number, which is damaged.
    SourceDamaged { load: u32, number: u64 },
    /// A call of the spool failed.
    SpoolFault,
    /// The cell of this row-major number, the first one, is no number in range.
    NumberOverflow(u64),
    /// What was read back from the spool for the cell of this row-major number is no record.
    SpoolDamaged(u64),
}

impl ResultRefusal {
    /// Why a round was refused, or what was found after the last one.
    pub(crate) fn of_run(fail: RunFail) -> ResultRefusal
        ensures { result ≡ spec.of_run fail }
    {
        match fail {
            RunFail::SourceFailed => ResultRefusal::ReadFault,
            RunFail::SourceDamaged { load, number } => ResultRefusal::SourceDamaged {
                load,
                number,
            },
            RunFail::SpoolFailed => ResultRefusal::SpoolFault,
            RunFail::Overflow(number) => ResultRefusal::NumberOverflow(number),
        }
    }
}
