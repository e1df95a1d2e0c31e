// The words of an explanation: one row for each kind of parameter, and one for each code of a fault.
ghost use Rattle.std.specs.Prelude.{◌≡◌};
ghost use Rattle.oe_explain.specs.Words as spec;

use oe_graph::{ArgumentKind, Code};

/// What a parameter of a kind may hold.
pub(crate) fn kind_words(kind: ArgumentKind) -> &'static str
    ensures { result.now ≡ spec.kind_words kind }
{
    match kind {
        ArgumentKind::Cube => "a reference to a node of the main graph, as {\"from_node\":\"n\"}",
        ArgumentKind::Callback => "a callback, as {\"process_graph\":{..}}",
        ArgumentKind::CallbackOrNull => "null, or a callback, as {\"process_graph\":{..}}",
        ArgumentKind::Text => "a text",
        ArgumentKind::TextOrNull => "null or a text",
        ArgumentKind::SpatialExtent => {
            "a box: an object of whole numbers west, south, east and north, and perhaps crs"
        }
        ArgumentKind::SpatialExtentOrNull => {
            "null, or a box: an object of whole numbers west, south, east and north, and perhaps crs"
        }
        ArgumentKind::TemporalExtent => "a list of two instants, of which one may be null",
        ArgumentKind::TemporalExtentOrNull => {
            "null, or a list of two instants, of which one may be null"
        }
        ArgumentKind::Intervals => "a list of lists of two instants, of which one may be null",
        ArgumentKind::IntervalLabels => {
            "a list of instants, as many as there are intervals; or [], where each interval has a start"
        }
        ArgumentKind::Bands => "a list of names, none twice",
        ArgumentKind::BandsOrNull => "null, or a list of names, one at least and none twice",
        ArgumentKind::KernelRows => {
            "a list of rows, each a list of as many whole numbers as the first, one at least"
        }
        ArgumentKind::Whole => "a whole number",
        ArgumentKind::Border => {
            "a whole number, or \"replicate\", \"reflect\", \"reflect_pixel\" or \"wrap\""
        }
        ArgumentKind::ScalarLiteral => "null, true, false or a whole number",
        ArgumentKind::EmptyList => "[]",
        ArgumentKind::EmptyObject => "{}",
        ArgumentKind::EmptyObjectOrNull => "null or {}",
        ArgumentKind::Number => {
            "a number: null, a whole number, or a reference to a node or to x, y or context"
        }
        ArgumentKind::Flag => {
            "a flag: null, true, false, or a reference to a node or to x, y or context"
        }
        ArgumentKind::Cell => {
            "a cell: null, true, false, a whole number, or a reference to a node or to x, y or context"
        }
        ArgumentKind::Numbers => "a list of numbers: a reference to data, or at most 64 numbers",
        ArgumentKind::Flags => "a list of flags: a reference to data, or at most 64 flags",
        ArgumentKind::Cells => "a list of cells: a reference to data, or at most 64 cells",
        ArgumentKind::FlagLiteral => "true or false",
        ArgumentKind::Null => "null",
        ArgumentKind::TrueOrNull => "null or true",
        ArgumentKind::IndexOrNull => "null, or a whole number not below 0",
        ArgumentKind::LabelOrNull => "null, a text or a whole number",
        ArgumentKind::Period => "\"day\", \"month\" or \"year\"",
        ArgumentKind::TimeName => "\"t\"",
        ArgumentKind::Data => "a reference to data, as {\"from_parameter\":\"data\"}",
    }
}

/// What to do about a fault of a code.
pub(crate) fn hint_words(code: Code) -> &'static str
    ensures { result.now ≡ spec.hint_words code }
{
    match code {
        Code::InputTooLong => {
            "An input has at most 1048576 bytes: leave out blanks and descriptions, or split the graph."
        }
        Code::GraphUnreadable => {
            "The input is to be a JSON object: see whether it is empty or cut, is UTF-8 and has no comma too many."
        }
        Code::ProcessGraphMissing => {
            "Put the nodes under process_graph; the body of a batch job has it one level deeper, in process."
        }
        Code::NodeInvalid => {
            "A node has an id of letters, digits, '_', '-' and '.', a text process_id and an object arguments."
        }
        Code::ResultNodeCount => {
            "Mark exactly one node by a member result that is true, in each callback too."
        }
        Code::ParametersInvalid => {
            "Give parameters as a list of objects, each with a name of its own."
        }
        Code::ProcessUnsupported => {
            "Take a process that there is: some stand in the main graph alone, others in callbacks alone."
        }
        Code::ProcessRecursive => {
            "Break the cycle of calls: a stored process must not reach itself."
        }
        Code::GraphTooLarge => {
            "Split the graph: the main graph has at most 256 nodes, and a callback 64."
        }
        Code::ArgumentUnknown => {
            "The process has no parameter of this name: correct it or leave the argument out."
        }
        Code::ProcessParameterMissing => "Give the argument: the process has no default for it.",
        Code::ParameterUnknown => {
            "Refer to a parameter that is seen here: in a callback those of its process, in the main graph none."
        }
        Code::NodeUnknown => {
            "Refer to a node of the same graph: a callback sees its own nodes, and none of the main graph."
        }
        Code::GraphCycle => "Break the cycle: the references of the node lead back to itself.",
        Code::ProcessParameterInvalid => {
            "Give the argument what it must hold: a number has no point, and null stands only where it is named."
        }
        Code::CollectionNotFound => {
            "Mount the file of the collection, or take the id of one that is: 'openeo describe' lists them."
        }
        Code::CrsUnsupported => {
            "Give the box the EPSG code of the cube as its crs: without one it is 4326."
        }
        Code::FormatUnsupported => "Give FJSON as the format, in any letter case.",
        Code::DimensionNotAvailable => {
            "Keep the dimension until here, or name one that the cube has; instants are on t alone."
        }
        Code::TemporalExtentEmpty => {
            "Exchange the instants: the end is later than the start, and is left out."
        }
        Code::BandFilterParameterMissing => "List the bands to be kept.",
        Code::BandNotAvailable => "Take bands that the cube has; letter case counts.",
        Code::KernelDimensionsUneven => {
            "Add a row or a column of zeros: the kernel has an odd number of each."
        }
        Code::KernelTooLarge => "Take a smaller kernel: it has at most 31 rows and 31 columns.",
        Code::DistinctDimensionLabelsRequired => "Give labels of which no two are one instant.",
        Code::MergeDimensionsDiffer => {
            "Filter or reduce one cube first: only one dimension may differ, and only one cube may lack any."
        }
        Code::OverlapResolverMissing => "Give overlap_resolver: a position is in both cubes.",
        Code::MaskDimensionsDiffer => {
            "Filter or reduce the mask first: the data have each of its dimensions, with the same labels."
        }
        Code::ArrayElementParameterMissing => "Give index or label.",
        Code::ArrayElementParameterConflict => "Leave out index or label.",
        Code::ArrayElementNotAvailable => {
            "Take an element that each list has, or give return_nodata as true to get null."
        }
        Code::CellKindInvalid => {
            "Do not mix numbers and flags: compare numbers to get flags, and take 'if' to get numbers."
        }
        Code::CubeTooLarge => {
            "Load less: a cube has at most 65536 labels in a dimension, and 2^40 cells."
        }
    }
}
