//! Laws of cells, reducers, kernels, shapes, windows, grids and callbacks that serve a caller.
//!
//! Nothing stands on this crate. The contracts of [`laws`], [`laws_of_cells`] and [`laws_of_graphs`] follow from those of
//! the calls in their bodies. Worked values stand in the programs beside this one: `oe_rows_values` has those of cells,
//! reducers, kernels, dimensions, windows and orders, and what threads share of them, `oe_rows_messages` those of objects
//! in memory.
#![tactic(auto)]

pub mod laws;
pub mod laws_of_cells;
pub mod laws_of_graphs;
