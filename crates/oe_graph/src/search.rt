// The nodes of a graph object, looked for by their ids.
ghost use Rattle.std.specs.Prelude.{◌≡◌, ◌≢◌, ℕ, true, false, IsTrue, IfOk, Some, slice_get};
ghost use Rattle.oe_dims.specs.Names.{is_name_before, names_rise};
ghost use Rattle.oe_graph.specs.Indices.{AreGuessesOf, NotesRise, index_named};
ghost use Rattle.oe_graph.specs.Plain.{plain_nodes};
ghost use Rattle.oe_graph.specs.Printed.{ids_of};

use crate::tree::Node;
use oe_dims::{is_name_before, same_text};
use oe_memory::OutOfMemory;
use std::alloc::Global;

/// So many hashes make two of the same rare, at 32 to 64 bytes a node.
const HASHES_PER_NODE: usize = 4;

/// Bytes at the end of an id by which it is hashed.
const HASHED_BYTES: usize = 8;

/// Of ids that end in a number, hashes by this factor mostly differ.
const HASH_FACTOR: usize = 37;

/// Where the nodes of a graph object are looked for by their ids.
#[derive(Drop)]
pub struct Guesses {
    /// Whether the ids rise, as they mostly do.
    rising: bool,
    /// For each hash the index of a node whose id has it, if one has.
    indices: Vec<usize>,
}

/// The nodes of a graph object, and where they are looked for.
#[derive(Clone, Copy)]
pub struct Beside<'a> {
    pub nodes: &'a Vec<Node>,
    pub guesses: &'a Guesses,
}

/// The index of the node of an id, of several the first; `None` exactly where no node has it. Where ids rise, it is
/// guessed by its hash, or found by halves where another id has the same hash.
pub fn find_index(beside: &Beside, id: &str) -> Option<usize>
    requires rise { NotesRise beside.now }
    ensures { result ≡ index_named (plain_nodes beside.now.nodes.now.items) id.now }
{
    if !beside.guesses.rising {
        return index_in(beside.nodes, id);
    }
    let guess = guess_index(beside.guesses.indices.as_slice(), id);
    if is_id_at(beside.nodes, guess, id) {
        return Some(guess);
    }
    let index = index_by_halves(beside.nodes, id);
    if is_id_at(beside.nodes, index, id) {
        return Some(index);
    }
    None
}

/// The same where nothing is known of the ids: one by one from the front.
pub fn index_in(nodes: &Vec<Node>, id: &str) -> Option<usize>
    ensures { result ≡ index_named (plain_nodes nodes.now.items) id.now }
{
    for index in 0..nodes.len() {
        if same_text(nodes[index].id.as_str(), id) {
            return Some(index);
        }
    }
    None
}

/// Where the node of an id stands, if ids rise and a node has it.
fn index_by_halves(nodes: &Vec<Node>, id: &str) -> usize
    ensures { names_rise (ids_of (plain_nodes nodes.now.items)) ≡ true → (index : ℕ)
        → slice_get (ids_of (plain_nodes nodes.now.items)) index ≡ Some id.now → result ≡ index }
{
    let mut low = 0;
    let mut high = nodes.len();
    while low < high {
        let middle = low + (high - low) / 2;
        if is_name_before(nodes[middle].id.as_str(), id) {
            low = middle + 1;
        } else {
            high = middle;
        }
    }
    low
}

fn is_id_at(nodes: &Vec<Node>, index: usize, id: &str) -> bool
    ensures found { IsTrue result
        → slice_get (ids_of (plain_nodes nodes.now.items)) index ≡ Some id.now }
    ensures missed { result ≡ false
        → slice_get (ids_of (plain_nodes nodes.now.items)) index ≢ Some id.now }
{
    index < nodes.len() && same_text(nodes[index].id.as_str(), id)
}

/// Where to look for nodes. A caller sees there whether it is the node that it asks for.
pub fn guesses_of(alloc: Global, nodes: &Vec<Node>) -> Result<Guesses, OutOfMemory>
    ensures { IfOk result (AreGuessesOf (plain_nodes nodes.now.items)) }
{
    Ok(Guesses {
        rising: ids_rise(nodes),
        indices: hashed_indices(alloc, nodes)?,
    })
}

fn hashed_indices(alloc: Global, nodes: &Vec<Node>) -> Result<Vec<usize>, OutOfMemory> {
    let Some(size) = nodes
        .len()
        .saturating_mul(HASHES_PER_NODE)
        .checked_next_power_of_two()
    else {
        return Err(OutOfMemory);
    };
    let mut indices = vec![in alloc; nodes.len(); size]?;
    for index in 0..nodes.len() {
        let hash = hash_below(nodes[index].id.as_str(), indices.len());
        if hash < indices.len() {
            indices[hash] = index;
        }
    }
    Ok(indices)
}

fn guess_index(indices: &[usize], id: &str) -> usize {
    match indices.get(hash_below(id, indices.len())) {
        Some(index) => *index,
        None => 0,
    }
}

/// A number below a power of two, by the length of a text and its last bytes.
fn hash_below(text: &str, power: usize) -> usize {
    let bytes = text.as_bytes();
    let mut hash = bytes.len();
    for byte in &bytes[bytes.len().saturating_sub(HASHED_BYTES)..] {
        hash = hash.wrapping_mul(HASH_FACTOR).wrapping_add(*byte as usize);
    }
    hash & power.wrapping_sub(1)
}

/// Whether ids rise in byte order.
fn ids_rise(nodes: &Vec<Node>) -> bool
    ensures { result ≡ names_rise (ids_of (plain_nodes nodes.now.items)) }
{
    for index in 1..nodes.len() {
        if !is_name_before(nodes[index - 1].id.as_str(), nodes[index].id.as_str()) {
            return false;
        }
    }
    true
}
