// Why a command did not finish.
use crate::short_name::ShortName;
use oe_graph::Fault;

/// The endings of a command other than success, each with its status and its code.
#[derive(Drop)]
pub enum Refusal {
    /// The words spell no command.
    Usage,
    /// The graph of the input has faults, of which this is the least one.
    Graph(Fault),
    /// The input is no result text.
    NoCubeText,
    /// No collection is mounted under the id.
    NotMounted,
    /// The run has no reduction of t at which it can be cut.
    NoTimeFold,
    /// The chunks that are asked for are none of those that the run has.
    ChunkRange,
    /// The part with this name is of another graph.
    PartGraph(ShortName),
    /// The part with this name is of another result.
    PartShape(ShortName),
    /// The part with this name has chunks of other sides.
    PartSides(ShortName),
    /// The part with this name has a chunk that one before it has.
    PartOverlap(ShortName),
    /// No part has the chunk of this number.
    ChunkMissing(u64),
    /// The run would hold so many cells, which are more than are allowed.
    TooLarge(u128),
    /// A cell of the result is out of the range of numbers, at this row-major number at first.
    Overflow(u64),
    /// The input or a collection could not be read.
    ReadFault,
    /// This position of a collection, by its row-major number, is damaged and kept.
    Damaged { id: ShortName, number: u64 },
    /// The part with this name has no record for this position of the result, by its row-major number.
    PartDamaged { name: ShortName, number: u64 },
    /// The spool could not be read or written.
    SpoolFault,
    /// The output could not be written.
    WriteFault,
    /// An allocation was refused.
    OutOfMemory,
    /// What the spool gave back for this position of the result, by its row-major number, is no record.
    SpoolDamaged(u64),
}

impl Refusal {
    ghost use Rattle.std.specs.Prelude.{◌≡◌};
    ghost use Rattle.oe_top.specs.Lines.{status_and_code};

    /// The exit status: 1 to 9 or 15.
    pub fn status(&self) -> u8
        ensures { result ≡ (status_and_code self.now).0 }
    {
        match self {
            Refusal::Usage => 1,
            Refusal::Graph(_)
            | Refusal::NoCubeText
            | Refusal::NotMounted
            | Refusal::NoTimeFold
            | Refusal::ChunkRange
            | Refusal::PartGraph(_)
            | Refusal::PartShape(_)
            | Refusal::PartSides(_)
            | Refusal::PartOverlap(_)
            | Refusal::ChunkMissing(_) => 2,
            Refusal::TooLarge(_) => 3,
            Refusal::Overflow(_) => 4,
            Refusal::ReadFault => 5,
            Refusal::Damaged { .. } | Refusal::PartDamaged { .. } => 6,
            Refusal::SpoolFault => 7,
            Refusal::WriteFault => 8,
            Refusal::OutOfMemory => 9,
            Refusal::SpoolDamaged(_) => 15,
        }
    }

    /// The code, which is the first word of its line.
    pub fn code(&self) -> &'static str
        ensures { result.now ≡ (status_and_code self.now).1 }
    {
        match self {
            Refusal::Usage => "Usage",
            Refusal::Graph(fault) => fault.code.as_str(),
            Refusal::NoCubeText => "CubeTextInvalid",
            Refusal::NotMounted => "CollectionNotFound",
            Refusal::NoTimeFold => "NoTimeFold",
            Refusal::ChunkRange => "ChunkRange",
            Refusal::PartGraph(_) => "PartGraphDiffers",
            Refusal::PartShape(_) => "PartShapeDiffers",
            Refusal::PartSides(_) => "PartSidesDiffer",
            Refusal::PartOverlap(_) => "PartOverlaps",
            Refusal::ChunkMissing(_) => "ChunkMissing",
            Refusal::TooLarge(_) => "PlanTooLarge",
            Refusal::Overflow(_) => "NumberOverflow",
            Refusal::ReadFault => "ReadFault",
            Refusal::Damaged { .. } => "SourceDamaged",
            Refusal::PartDamaged { .. } => "PartDamaged",
            Refusal::SpoolFault => "SpoolFault",
            Refusal::WriteFault => "WriteFault",
            Refusal::OutOfMemory => "OutOfMemory",
            Refusal::SpoolDamaged(_) => "SpoolDamaged",
        }
    }
}
