// Laws of the crates below, under one name, so that a call of one is seen to be one: it leaves all as it is, and tells
// the proof what always holds.
pub(crate) use oe_engine::{collections_are_mounted, collections_are_valid, reads_change_nothing};
pub(crate) use oe_slab::slab_over_is_of_the_result;
pub(crate) use oe_sources::ids_are_valid;
pub(crate) use oe_steps::loads_are_mounted;
