//! The outside of the program: where bytes come from and go to, and how often that failed.
//!
//! Each object of the outside, as a [`Source`] or a [`Sink`], has a fault counter that never falls, and a call answers
//! [`Failed`] only where the counter rose in that call; but a look at a [`SharedStore`], which counts nothing, has its
//! fault counted afterwards. What an object has left or holds may be visible to contracts or hidden: all bytes of an
//! object in memory are visible, those of a real file or terminal are hidden, and the same clauses serve both. The
//! layers above use these clauses alone, so what they prove over visible objects is what their bodies do over real ones.
//! [`Pending`] gathers what goes to a sink, and [`read_up_to`] takes what a source has.
#![tactic(auto)]

mod bounded;
mod clock;
mod count_sink;
mod door;
mod failed;
mod fixed_clock;
mod gate;
mod input;
mod last_dial;
mod link;
mod memory_link;
mod memory_sink;
mod memory_source;
mod memory_store;
mod pieces;
mod script;
mod script_door;
mod sink;
mod source;
mod store;
mod stream;

pub use bounded::BoundedSink;
pub use clock::Clock;
pub use count_sink::CountSink;
pub use door::{Door, Next};
pub use failed::Failed;
pub use fixed_clock::FixedClock;
pub use gate::{Gate, NoGate};
pub use input::{ReadRefusal, read_up_to};
pub use link::Link;
pub use memory_link::MemoryLink;
pub use memory_sink::MemorySink;
pub use memory_source::MemorySource;
pub use memory_store::MemoryStore;
pub use script_door::ScriptDoor;
pub use sink::Sink;
pub use source::Source;
pub use store::{SharedStore, Store, fill_at, look_whole};
pub use stream::{Pending, flush, send};
