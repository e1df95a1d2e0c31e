//! What every process means on whole cubes.
//!
//! The definitions stand in `specs/`: the cube that an operation gives, its shape and kind, the faults that stand at a
//! node, and the meaning of a resolved graph over collections. The layers above are proved against them; chunks and
//! windows do not occur in them.
#![tactic(auto)]

mod extents;
mod laws;
mod operation_request;
mod operation_scope;
mod shape_aggregation;
mod shape_labels;
mod shape_merge;
mod shape_parts;
mod shape_periods;
mod shape_restriction;
mod shape_result;
mod shape_without;
mod words;

pub use extents::{has_empty_interval, is_empty_extent, is_in_another};
pub use laws::{
    callbacks_have_scopes, cells_are_of_their_kind, labels_are_kept, meanings_are_sound,
    periods_are_aggregations, shapes_are_valid, shapes_need_no_cells,
};
pub use operation_request::operation_for;
pub use operation_scope::part_in_time;
pub use shape_aggregation::interval_labels;
pub use shape_labels::{has_band, has_number};
pub use shape_merge::adds_nothing;
pub use shape_parts::recall_rules;
pub use shape_result::result_shape;
pub use words::{
    codes_differ, has_another, lacks, lacks_named, lacks_plane, names_other, same_cell_kind,
};
