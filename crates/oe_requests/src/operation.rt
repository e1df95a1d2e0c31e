// The operation that a request asks for on cubes of known shapes and kinds.
use crate::extent::{BoundingBox, TemporalExtent};
use crate::intervals::Intervals;
use oe_cell::{Cell, Frac};
use oe_dims::{Kind, Text};
use oe_expr::Expr;
use oe_kernel::{Border, Kernel};

/// What is kept of a cube: the labels inside a box and inside a temporal extent, and the given bands in their order.
/// What is not restricted is kept whole.
pub struct Restriction {
    pub area: Option<BoundingBox>,
    pub time: Option<TemporalExtent>,
    pub bands: Option<Vec<Text>>,
}

/// Written out, so that a restriction that ends is one call wherever it does.
impl Drop for Restriction {
    fn drop(self) {
        let Restriction {
            area: _,
            time: _,
            bands: _,
        } = self;
    }
}

/// An operation on cubes (openEO Processes).
pub enum Operation {
    /// Of a collection or of a cube, what is kept.
    Keep(Restriction),
    /// Each cell by a callback: `apply`.
    EachCell(Expr),
    /// `apply_kernel`. A pixel that is null counts for `replace_invalid`.
    Convolve {
        kernel: Kernel,
        factor: Frac,
        border: Border,
        replace_invalid: Frac,
    },
    /// The lists of cells along a dimension by a callback: `reduce_dimension`.
    Reduce(Kind, Expr),
    /// The lists of cells inside each interval by a callback: `aggregate_temporal`, `aggregate_temporal_period`.
    Aggregate(Intervals, Expr),
    /// The running sums along t, with nulls ignored or not: `apply_dimension` by `cumsum`.
    Accumulate(bool),
    /// Two cubes, by a resolver where a label tuple is in both: `merge_cubes`.
    Merge(Option<Expr>),
    /// A cube under a mask, with a replacement: `mask`.
    Cover(Cell),
    /// The cube as it is: `save_result`.
    GiveBack,
}

/// Written out, so that an operation that ends is one call wherever it does.
impl Drop for Operation {
    fn drop(self) {
        match self {
            Operation::Keep(_) => {}
            Operation::EachCell(_) => {}
            Operation::Convolve {
                kernel: _,
                factor: _,
                border: _,
                replace_invalid: _,
            } => {}
            Operation::Reduce(_, _) => {}
            Operation::Aggregate(_, _) => {}
            Operation::Accumulate(_) => {}
            Operation::Merge(_) => {}
            Operation::Cover(_) => {}
            Operation::GiveBack => {}
        }
    }
}
