// The codes of the faults of a graph, in the order of their table.
ghost use Rattle.std.specs.Prelude.{◌≡◌};
ghost use Rattle.oe_graph.specs.Codes.{phase_of, number_in_phase, name_of};

/// What is wrong with a graph. The table of faults has one code a row, in this order.
#[derive(Clone, Copy, PartialEq, Eq)]
pub enum Code {
    // The form of the graph.
    InputTooLong,
    GraphUnreadable,
    ProcessGraphMissing,
    NodeInvalid,
    ResultNodeCount,
    ParametersInvalid,
    // The processes that it calls.
    ProcessUnsupported,
    ProcessRecursive,
    // Its size.
    GraphTooLarge,
    // Names of arguments, parameters and nodes.
    ArgumentUnknown,
    ProcessParameterMissing,
    ParameterUnknown,
    NodeUnknown,
    GraphCycle,
    // The values of arguments and the cubes of nodes.
    ProcessParameterInvalid,
    CollectionNotFound,
    CrsUnsupported,
    FormatUnsupported,
    DimensionNotAvailable,
    TemporalExtentEmpty,
    BandFilterParameterMissing,
    BandNotAvailable,
    KernelDimensionsUneven,
    KernelTooLarge,
    DistinctDimensionLabelsRequired,
    MergeDimensionsDiffer,
    OverlapResolverMissing,
    MaskDimensionsDiffer,
    ArrayElementParameterMissing,
    ArrayElementParameterConflict,
    ArrayElementNotAvailable,
    CellKindInvalid,
    CubeTooLarge,
}

impl Code {
    /// The phase in which the fault is looked for, from 1 to 5.
    pub fn phase(self) -> u8
        ensures { result ≡ phase_of self }
    {
        match self {
            Code::InputTooLong
            | Code::GraphUnreadable
            | Code::ProcessGraphMissing
            | Code::NodeInvalid
            | Code::ResultNodeCount
            | Code::ParametersInvalid => 1,
            Code::ProcessUnsupported | Code::ProcessRecursive => 2,
            Code::GraphTooLarge => 3,
            Code::ArgumentUnknown
            | Code::ProcessParameterMissing
            | Code::ParameterUnknown
            | Code::NodeUnknown
            | Code::GraphCycle => 4,
            Code::ProcessParameterInvalid
            | Code::CollectionNotFound
            | Code::CrsUnsupported
            | Code::FormatUnsupported
            | Code::DimensionNotAvailable
            | Code::TemporalExtentEmpty
            | Code::BandFilterParameterMissing
            | Code::BandNotAvailable
            | Code::KernelDimensionsUneven
            | Code::KernelTooLarge
            | Code::DistinctDimensionLabelsRequired
            | Code::MergeDimensionsDiffer
            | Code::OverlapResolverMissing
            | Code::MaskDimensionsDiffer
            | Code::ArrayElementParameterMissing
            | Code::ArrayElementParameterConflict
            | Code::ArrayElementNotAvailable
            | Code::CellKindInvalid
            | Code::CubeTooLarge => 5,
        }
    }

    /// The number of the fault in its phase, from 1.
    pub fn number(self) -> u8
        ensures { result ≡ number_in_phase self }
    {
        match self {
            Code::InputTooLong => 1,
            Code::GraphUnreadable => 2,
            Code::ProcessGraphMissing => 3,
            Code::NodeInvalid => 4,
            Code::ResultNodeCount => 5,
            Code::ParametersInvalid => 6,
            Code::ProcessUnsupported => 1,
            Code::ProcessRecursive => 2,
            Code::GraphTooLarge => 1,
            Code::ArgumentUnknown => 1,
            Code::ProcessParameterMissing => 2,
            Code::ParameterUnknown => 3,
            Code::NodeUnknown => 4,
            Code::GraphCycle => 5,
            Code::ProcessParameterInvalid => 1,
            Code::CollectionNotFound => 2,
            Code::CrsUnsupported => 3,
            Code::FormatUnsupported => 4,
            Code::DimensionNotAvailable => 5,
            Code::TemporalExtentEmpty => 6,
            Code::BandFilterParameterMissing => 7,
            Code::BandNotAvailable => 8,
            Code::KernelDimensionsUneven => 9,
            Code::KernelTooLarge => 10,
            Code::DistinctDimensionLabelsRequired => 11,
            Code::MergeDimensionsDiffer => 12,
            Code::OverlapResolverMissing => 13,
            Code::MaskDimensionsDiffer => 14,
            Code::ArrayElementParameterMissing => 15,
            Code::ArrayElementParameterConflict => 16,
            Code::ArrayElementNotAvailable => 17,
            Code::CellKindInvalid => 18,
            Code::CubeTooLarge => 19,
        }
    }

    /// The code as lines and replies spell it.
    pub fn as_str(self) -> &'static str
        ensures { result.now ≡ name_of self }
    {
        match self {
            Code::InputTooLong => "InputTooLong",
            Code::GraphUnreadable => "GraphUnreadable",
            Code::ProcessGraphMissing => "ProcessGraphMissing",
            Code::NodeInvalid => "NodeInvalid",
            Code::ResultNodeCount => "ResultNodeCount",
            Code::ParametersInvalid => "ParametersInvalid",
            Code::ProcessUnsupported => "ProcessUnsupported",
            Code::ProcessRecursive => "ProcessRecursive",
            Code::GraphTooLarge => "GraphTooLarge",
            Code::ArgumentUnknown => "ArgumentUnknown",
            Code::ProcessParameterMissing => "ProcessParameterMissing",
            Code::ParameterUnknown => "ParameterUnknown",
            Code::NodeUnknown => "NodeUnknown",
            Code::GraphCycle => "GraphCycle",
            Code::ProcessParameterInvalid => "ProcessParameterInvalid",
            Code::CollectionNotFound => "CollectionNotFound",
            Code::CrsUnsupported => "CrsUnsupported",
            Code::FormatUnsupported => "FormatUnsupported",
            Code::DimensionNotAvailable => "DimensionNotAvailable",
            Code::TemporalExtentEmpty => "TemporalExtentEmpty",
            Code::BandFilterParameterMissing => "BandFilterParameterMissing",
            Code::BandNotAvailable => "BandNotAvailable",
            Code::KernelDimensionsUneven => "KernelDimensionsUneven",
            Code::KernelTooLarge => "KernelTooLarge",
            Code::DistinctDimensionLabelsRequired => "DistinctDimensionLabelsRequired",
            Code::MergeDimensionsDiffer => "MergeDimensionsDiffer",
            Code::OverlapResolverMissing => "OverlapResolverMissing",
            Code::MaskDimensionsDiffer => "MaskDimensionsDiffer",
            Code::ArrayElementParameterMissing => "ArrayElementParameterMissing",
            Code::ArrayElementParameterConflict => "ArrayElementParameterConflict",
            Code::ArrayElementNotAvailable => "ArrayElementNotAvailable",
            Code::CellKindInvalid => "CellKindInvalid",
            Code::CubeTooLarge => "CubeTooLarge",
        }
    }
}
