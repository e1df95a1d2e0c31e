// The names of the reducers.

/// A reducer of openEO Processes: `sum`, `product`, `mean`, `min`, `max`, `median`, `first`, `last`, `any`, `all`, and
/// `count` without and with nulls.
#[derive(Clone, Copy, PartialEq, Eq)]
pub enum Reducer {
    /// The cells added up from the first on.
    Sum,
    /// The cells multiplied from the first on.
    Product,
    /// The sum divided by the number of cells.
    Mean,
    /// The least cell.
    Min,
    /// The greatest cell.
    Max,
    /// The middle cell in order, or the two middle ones added and divided by 2.
    Median,
    /// The first cell.
    First,
    /// The last cell.
    Last,
    /// The three-valued `or` of the cells.
    Any,
    /// The three-valued `and` of the cells.
    All,
    /// The number of cells that are not null.
    Count,
    /// The number of all cells, nulls too.
    CountAll,
}
