// The catalogue of processes, one row per process (openEO Processes; the parameters and defaults are this profile's).

/// What a parameter may hold.
#[derive(Clone, Copy, PartialEq, Eq)]
pub enum ArgumentKind {
    /// A reference to a node of the main graph.
    Cube,
    /// A callback.
    Callback,
    /// Null or a callback.
    CallbackOrNull,
    /// A text.
    Text,
    /// Null or a text.
    TextOrNull,
    /// A box of `west`, `south`, `east`, `north` and perhaps `crs`.
    SpatialExtent,
    /// Null or a box.
    SpatialExtentOrNull,
    /// A list of two, each an instant or null, not both null.
    TemporalExtent,
    /// Null or a temporal extent.
    TemporalExtentOrNull,
    /// A list of temporal extents.
    Intervals,
    /// A list of instants, empty or as many as intervals.
    IntervalLabels,
    /// A list of distinct names.
    Bands,
    /// Null or a list of distinct names, not empty.
    BandsOrNull,
    /// A list of equally long lists of whole numbers, none empty.
    KernelRows,
    /// A whole number.
    Whole,
    /// A whole number or the name of a border rule.
    Border,
    /// Null, a flag or a whole number.
    ScalarLiteral,
    /// The empty list.
    EmptyList,
    /// The empty object.
    EmptyObject,
    /// Null or the empty object.
    EmptyObjectOrNull,
    /// In a callback: a scalar that is a number or null.
    Number,
    /// In a callback: a scalar that is a flag or null.
    Flag,
    /// In a callback: a scalar of either kind.
    Cell,
    /// In a callback: a list of numbers.
    Numbers,
    /// In a callback: a list of flags.
    Flags,
    /// In a callback: a list of cells of one kind.
    Cells,
    /// A flag that is written as such.
    FlagLiteral,
    /// Null alone.
    Null,
    /// Null or true.
    TrueOrNull,
    /// Null or a whole number not below 0.
    IndexOrNull,
    /// Null, a text or a whole number.
    LabelOrNull,
    /// The name of a calendar period: `day`, `month` or `year`.
    Period,
    /// The name of the dimension of time alone, `t`.
    TimeName,
    /// In a callback: a reference to the list `data` alone.
    Data,
}

/// The default of a parameter.
#[derive(Clone, Copy, PartialEq, Eq)]
pub enum Literal {
    Null,
    Flag(bool),
    Whole(i64),
    EmptyList,
    EmptyObject,
}

/// A parameter: its name, what it may hold, and its default, where it is optional.
pub type ParameterEntry = (&'static str, ArgumentKind, Option<Literal>);

/// A process: its id, whether it stands in callbacks (or in the main graph), its parameters in order, and the
/// parameters that its callbacks see.
pub type ProcessEntry = (
    &'static str,
    bool,
    &'static [ParameterEntry],
    &'static [&'static str],
);

/// The number of processes.
pub const PROCESS_COUNT: usize = 47;

// Null as a default, and the parameter without effect that callbacks see.
const NULL: Option<Literal> = Some(Literal::Null);

const CONTEXT: ParameterEntry = ("context", ArgumentKind::ScalarLiteral, NULL);

const DATA: ParameterEntry = ("data", ArgumentKind::Cube, None);

const DIMENSION: ParameterEntry = ("dimension", ArgumentKind::TextOrNull, NULL);

const IGNORE: ParameterEntry = (
    "ignore_nodata",
    ArgumentKind::FlagLiteral,
    Some(Literal::Flag(true)),
);

// The parameters that several processes share.
const NUMBER: &[ParameterEntry] = &[("x", ArgumentKind::Number, None)];

const TWO_NUMBERS: &[ParameterEntry] = &[
    ("x", ArgumentKind::Number, None),
    ("y", ArgumentKind::Number, None),
];

const FLAG: &[ParameterEntry] = &[("x", ArgumentKind::Flag, None)];

const TWO_FLAGS: &[ParameterEntry] = &[
    ("x", ArgumentKind::Flag, None),
    ("y", ArgumentKind::Flag, None),
];

const TWO_CELLS: &[ParameterEntry] = &[
    ("x", ArgumentKind::Cell, None),
    ("y", ArgumentKind::Cell, None),
    ("delta", ArgumentKind::Null, NULL),
    (
        "case_sensitive",
        ArgumentKind::FlagLiteral,
        Some(Literal::Flag(true)),
    ),
];

const NUMBERS: &[ParameterEntry] = &[("data", ArgumentKind::Numbers, None), IGNORE];

const FLAGS: &[ParameterEntry] = &[("data", ArgumentKind::Flags, None), IGNORE];

const CELLS: &[ParameterEntry] = &[("data", ArgumentKind::Cells, None), IGNORE];

/// All processes, their ids in byte order.
pub static PROCESSES: [ProcessEntry; PROCESS_COUNT] = [
    ("absolute", true, NUMBER, &[]),
    ("add", true, TWO_NUMBERS, &[]),
    (
        "aggregate_temporal",
        false,
        &[
            DATA,
            ("intervals", ArgumentKind::Intervals, None),
            ("reducer", ArgumentKind::Callback, None),
            (
                "labels",
                ArgumentKind::IntervalLabels,
                Some(Literal::EmptyList),
            ),
            DIMENSION,
            CONTEXT,
        ],
        &["data", "context"],
    ),
    (
        "aggregate_temporal_period",
        false,
        &[
            DATA,
            ("period", ArgumentKind::Period, None),
            ("reducer", ArgumentKind::Callback, None),
            DIMENSION,
            CONTEXT,
        ],
        &["data", "context"],
    ),
    ("all", true, FLAGS, &[]),
    ("and", true, TWO_FLAGS, &[]),
    ("any", true, FLAGS, &[]),
    (
        "apply",
        false,
        &[DATA, ("process", ArgumentKind::Callback, None), CONTEXT],
        &["x", "context"],
    ),
    (
        "apply_dimension",
        false,
        &[
            DATA,
            ("process", ArgumentKind::Callback, None),
            ("dimension", ArgumentKind::TimeName, None),
            ("target_dimension", ArgumentKind::Null, NULL),
            CONTEXT,
        ],
        &["data", "context"],
    ),
    (
        "apply_kernel",
        false,
        &[
            DATA,
            ("kernel", ArgumentKind::KernelRows, None),
            ("factor", ArgumentKind::Whole, Some(Literal::Whole(1))),
            ("border", ArgumentKind::Border, Some(Literal::Whole(0))),
            (
                "replace_invalid",
                ArgumentKind::Whole,
                Some(Literal::Whole(0)),
            ),
        ],
        &[],
    ),
    (
        "array_element",
        true,
        &[
            ("data", ArgumentKind::Cells, None),
            ("index", ArgumentKind::IndexOrNull, NULL),
            ("label", ArgumentKind::LabelOrNull, NULL),
            (
                "return_nodata",
                ArgumentKind::FlagLiteral,
                Some(Literal::Flag(false)),
            ),
        ],
        &[],
    ),
    ("ceil", true, NUMBER, &[]),
    (
        "count",
        true,
        &[
            ("data", ArgumentKind::Cells, None),
            ("condition", ArgumentKind::TrueOrNull, NULL),
            CONTEXT,
        ],
        &[],
    ),
    (
        "cumsum",
        true,
        &[("data", ArgumentKind::Data, None), IGNORE],
        &[],
    ),
    ("divide", true, TWO_NUMBERS, &[]),
    ("eq", true, TWO_CELLS, &[]),
    (
        "filter_bands",
        false,
        &[
            DATA,
            ("bands", ArgumentKind::Bands, Some(Literal::EmptyList)),
            (
                "wavelengths",
                ArgumentKind::EmptyList,
                Some(Literal::EmptyList),
            ),
        ],
        &[],
    ),
    (
        "filter_bbox",
        false,
        &[DATA, ("extent", ArgumentKind::SpatialExtent, None)],
        &[],
    ),
    (
        "filter_temporal",
        false,
        &[
            DATA,
            ("extent", ArgumentKind::TemporalExtent, None),
            DIMENSION,
        ],
        &[],
    ),
    ("first", true, CELLS, &[]),
    ("floor", true, NUMBER, &[]),
    ("gt", true, TWO_NUMBERS, &[]),
    ("gte", true, TWO_NUMBERS, &[]),
    (
        "if",
        true,
        &[
            ("value", ArgumentKind::Flag, None),
            ("accept", ArgumentKind::Cell, None),
            ("reject", ArgumentKind::Cell, NULL),
        ],
        &[],
    ),
    ("int", true, NUMBER, &[]),
    ("last", true, CELLS, &[]),
    (
        "load_collection",
        false,
        &[
            ("id", ArgumentKind::Text, None),
            ("spatial_extent", ArgumentKind::SpatialExtentOrNull, None),
            ("temporal_extent", ArgumentKind::TemporalExtentOrNull, None),
            ("bands", ArgumentKind::BandsOrNull, NULL),
            ("properties", ArgumentKind::EmptyObjectOrNull, NULL),
        ],
        &[],
    ),
    ("lt", true, TWO_NUMBERS, &[]),
    ("lte", true, TWO_NUMBERS, &[]),
    (
        "mask",
        false,
        &[
            DATA,
            ("mask", ArgumentKind::Cube, None),
            ("replacement", ArgumentKind::ScalarLiteral, NULL),
        ],
        &[],
    ),
    ("max", true, NUMBERS, &[]),
    ("mean", true, NUMBERS, &[]),
    ("median", true, NUMBERS, &[]),
    (
        "merge_cubes",
        false,
        &[
            ("cube1", ArgumentKind::Cube, None),
            ("cube2", ArgumentKind::Cube, None),
            ("overlap_resolver", ArgumentKind::CallbackOrNull, NULL),
            CONTEXT,
        ],
        &["x", "y", "context"],
    ),
    ("min", true, NUMBERS, &[]),
    ("mod", true, TWO_NUMBERS, &[]),
    ("multiply", true, TWO_NUMBERS, &[]),
    ("neq", true, TWO_CELLS, &[]),
    ("not", true, FLAG, &[]),
    ("or", true, TWO_FLAGS, &[]),
    ("product", true, NUMBERS, &[]),
    (
        "reduce_dimension",
        false,
        &[
            DATA,
            ("reducer", ArgumentKind::Callback, None),
            ("dimension", ArgumentKind::Text, None),
            CONTEXT,
        ],
        &["data", "context"],
    ),
    (
        "save_result",
        false,
        &[
            DATA,
            ("format", ArgumentKind::Text, None),
            (
                "options",
                ArgumentKind::EmptyObject,
                Some(Literal::EmptyObject),
            ),
        ],
        &[],
    ),
    ("sgn", true, NUMBER, &[]),
    ("subtract", true, TWO_NUMBERS, &[]),
    ("sum", true, NUMBERS, &[]),
    ("xor", true, TWO_FLAGS, &[]),
];
