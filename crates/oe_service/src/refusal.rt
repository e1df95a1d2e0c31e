// Why the run of a job is refused.
ghost use Rattle.std.specs.Prelude.{◌≡◌};
ghost use Rattle.oe_service.specs.Refusals as spec;

use oe_engine::RunFail;
use oe_graph::Code;
use oe_memory::OutOfMemory;
use oe_plan::PlanFail;
use oe_render::RenderFail;

/// Why the run of a job is refused. Its code is that of the failed job.
#[derive(Clone, Copy, PartialEq, Eq)]
pub enum RunRefusal {
    /// A fault stands in the graph of the asset.
    Graph(Code),
    /// The run of the asset would hold more cells than are allowed.
    PlanTooLarge,
    /// A read of a collection failed.
    ReadFault,
    /// A position of a collection that is kept is damaged.
    SourceDamaged,
    /// A call of the spool failed.
    SpoolFault,
    /// What was read back from the spool is no text.
    SpoolDamaged,
    /// A cell of the result is no number in range.
    NumberOverflow,
    /// The text is longer than an asset may be, which has at most 1048576 bytes.
    AssetTooLarge,
    OutOfMemory,
}

impl RunRefusal {
    /// The code of the refusal.
    pub fn as_str(self) -> &'static str
        ensures { result.now ≡ spec.code_of self }
    {
        match self {
            RunRefusal::Graph(code) => code.as_str(),
            RunRefusal::PlanTooLarge => "PlanTooLarge",
            RunRefusal::ReadFault => "ReadFault",
            RunRefusal::SourceDamaged => "SourceDamaged",
            RunRefusal::SpoolFault => "SpoolFault",
            RunRefusal::SpoolDamaged => "SpoolDamaged",
            RunRefusal::NumberOverflow => "NumberOverflow",
            RunRefusal::AssetTooLarge => "AssetTooLarge",
            RunRefusal::OutOfMemory => "OutOfMemory",
        }
    }

    /// Why a round of the run was refused.
    pub(crate) fn of_round(fail: RunFail) -> RunRefusal
        ensures { result ≡ spec.of_round fail }
    {
        match fail {
            RunFail::SourceFailed => RunRefusal::ReadFault,
            RunFail::SourceDamaged { .. } => RunRefusal::SourceDamaged,
            RunFail::SpoolFailed => RunRefusal::SpoolFault,
            RunFail::Overflow(_) => RunRefusal::NumberOverflow,
        }
    }

    /// Why the text of the run was not written. A sink that is bounded fails where the text passes its room.
    pub(crate) fn of_text(fail: RenderFail) -> RunRefusal
        ensures { result ≡ spec.of_text fail }
    {
        match fail {
            RenderFail::SpoolFailed => RunRefusal::SpoolFault,
            RenderFail::SpoolDamaged(_) => RunRefusal::SpoolDamaged,
            RenderFail::SinkFailed => RunRefusal::AssetTooLarge,
        }
    }
}

impl From<OutOfMemory> for RunRefusal {
    ghost use Rattle.std.specs.Prelude.{◌≡◌};
    ghost use Rattle.oe_service.specs.declared.refusal.RunRefusal.TheVariants.{OutOfMemory as out_of_memory};

    ghost from_gives = { λ _ r. r ≡ out_of_memory };

    fn from(_refused: OutOfMemory) -> RunRefusal {
        RunRefusal::OutOfMemory
    }
}

impl From<PlanFail> for RunRefusal {
    ghost use Rattle.std.specs.Prelude.{◌≡◌};
    ghost use Rattle.oe_service.specs.Refusals.{of_plan};

    ghost from_gives = { λ fail r. r ≡ of_plan fail };

    fn from(fail: PlanFail) -> RunRefusal {
        match fail {
            PlanFail::TooLarge(_) => RunRefusal::PlanTooLarge,
            PlanFail::OutOfMemory => RunRefusal::OutOfMemory,
        }
    }
}
