// Kinds of cells and of dimensions, and lists of labels.
use crate::Text;

/// What the cells of a cube are, besides null.
#[derive(Clone, Copy, PartialEq, Eq)]
pub enum CellKind {
    /// Exact numbers.
    Numbers,
    /// Truth values.
    Flags,
}

/// The dimensions that a cube may have, in their order.
#[derive(Clone, Copy, PartialEq, Eq)]
pub enum Kind {
    /// `t`, whose labels are instants.
    Time,
    /// `bands`, whose labels are names.
    Bands,
    /// `y`, whose labels are coordinates that fall.
    Y,
    /// `x`, whose labels are coordinates that rise.
    X,
}

/// The labels of one dimension.
pub enum Labels {
    /// Whole seconds since 1970-01-01T00:00:00Z.
    Instants(Vec<i64>),
    /// Names of bands.
    Names(Vec<Text>),
    /// Coordinates, whole numbers in the unit of the reference system.
    Places(Vec<i64>),
}

/// Written out, so that a list of labels that ends is one call wherever it does.
impl Drop for Labels {
    fn drop(self) {
        match self {
            Labels::Instants(_) => {}
            Labels::Names(_) => {}
            Labels::Places(_) => {}
        }
    }
}
