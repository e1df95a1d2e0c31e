//! Callbacks of process graphs, checked and evaluated.
//!
//! [`build`] checks a resolved callback under the [`Scope`] that its parent gives it, and answers an [`Expr`] or the
//! least fault of the callback. An `Expr` is seen by contracts as the callback, its scope and its context. [`eval`] is
//! its value on one environment, and [`eval_row`] on a row of them. The value is defined on the graph itself, by the
//! names of its nodes; the layers above use that `eval` equals it, that a fault is answered exactly where one stands,
//! and that the value is null, Over or of the kind that [`Expr::kind`] answers.
#![tactic(auto)]

mod compile;
mod evaluate;
mod expr;
mod fold;
mod judge;
mod kinds;
mod labels;
mod laws;
mod operation;
mod operators;
mod program;
mod request;
mod row;
mod scope;
mod state;
mod walk;

pub use evaluate::{SCRATCH, eval};
pub use expr::{Expr, build};
pub use laws::values_unfold;
pub use request::flag_at;
pub use row::{EnvRow, eval_row};
pub use scope::{Env, ListPart, Scope};
