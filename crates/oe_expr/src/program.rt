// A callback as a flat list of steps over numbered registers.
use crate::operation::{Binary, Unary};
use oe_cell::Cell;
use oe_fold::Reducer;

/// Where a cell is taken from.
#[derive(Clone, Copy)]
pub(crate) enum Operand {
    Constant(Cell),
    X,
    Y,
    /// The element of an index of the list; null where the list ends before it.
    At(u32),
    /// The element whose label has this index among the labels of the dimension; null where it is not in the list.
    Labelled(u32),
    /// What the step of this number gave.
    Register(u32),
}

/// One operation. Its result goes to the register of its own number.
#[derive(Clone, Copy)]
pub(crate) enum Step {
    Unary(Unary, Operand),
    Binary(Binary, Operand, Operand),
    Choice(Operand, Operand, Operand),
    /// The list of the scope.
    Reduction(Reducer, bool),
    /// A list that is written, by its elements from one to before another.
    Written(Reducer, bool, usize, usize),
}

/// Most steps, as a callback has at most as many nodes.
pub(crate) const MOST_STEPS: usize = 64;

/// The steps in their order, the elements of the lists that are written, where each list of the scope begins among the
/// labels, and where the result is.
pub(crate) struct Program {
    pub steps: Vec<Step>,
    pub elements: Vec<Operand>,
    pub starts: Vec<u32>,
    pub result: Operand,
}

/// Written out, so that a program that ends is one call wherever it does.
impl Drop for Program {
    fn drop(self) {
        let Program {
            steps: _,
            elements: _,
            starts: _,
            result: _,
        } = self;
    }
}
