//! Process graphs as the openEO API sends them, and the catalogue of processes.
//!
//! [`read_graph`] and [`read_stored`] read a graph whole: they answer the tree that the bytes are, or the least fault
//! of their form. A [`Graph`] holds [`Node`]s with [`Arg`]uments, and a callback is a graph inside an argument.
//! [`Code`] has the faults of all phases, and `IsLeast` of `specs/Faults.antt` is the one order in which they are
//! reported. [`PROCESSES`] is the catalogue: the one table that code, texts and definitions read. The layers above use
//! that the readers refuse exactly where a fault stands, that what they read from bytes has the form that resolving
//! rests on (`IsValidGraph`, `IsValidStored`), that [`process`] is none exactly for an id without a row, and the word
//! `IsResolved` for a graph whose names all lead somewhere. [`read_references`] is the one reader of what nodes refer to
//! by index, [`sort_nodes`] puts each behind those that it refers to, and [`find_index`] searches a node by its id.
//! A [`NodeState`] is what a walk over sorted nodes knows of one.
#![tactic(auto)]

mod build;
mod catalogue;
mod code;
mod copy;
mod fault;
mod form;
mod named;
mod node_state;
mod print;
mod read;
mod references;
mod search;
mod stored;
mod table;
mod texts;
mod tree;
mod walk;

pub use catalogue::{ParameterRow, ProcessRow, process, process_entry, processes_text};
pub use code::Code;
pub use copy::copy_arg;
pub use fault::{Fault, Refusal, is_before, least, note_fault};
pub use named::argument_named;
pub use node_state::{NodeState, are_sound, unseen_states};
pub use oe_dims::is_name_before;
pub use print::print_graph;
pub use read::{read_graph, read_stored, read_value};
pub use references::{References, SortedNodes, read_references, sort_nodes};
pub use search::{Beside, Guesses, find_index, guesses_of, index_in};
pub use stored::StoredProcess;
pub use table::{ArgumentKind, Literal, PROCESS_COUNT, PROCESSES, ParameterEntry, ProcessEntry};
pub use texts::{put_str, str_json};
pub use tree::{Arg, Graph, Node};
pub use walk::{callback_name, fault_at_node, node_name};
