// The words of a command.
ghost use Rattle.std.specs.Prelude.{ℕ, ◌≡◌, ◌↔◌, ◌∷◌, [], IsTrue, IfSome, IfNone, codes};
ghost use Rattle.oe_plan.specs.Words.{IsNumberWord};
ghost use Rattle.oe_window.specs.declared.grid.ChunkSize.{ChunkSize as Size};
ghost use Rattle.oe_top.specs.Words.{AreRunNumbers, SpellsCommand, Spells, most_chunks};

use oe_dims::{Text, is_name};
use oe_plan::{read_number, read_sides, spells_number};
use oe_window::ChunkSize;

/// No run has more chunks.
const MOST_CHUNKS: u64 = 281474976710656;

/// What the words ask for: one variant a command.
#[derive(Clone, Copy, PartialEq, Eq)]
pub enum Command {
    /// To evaluate the graph of the input, in chunks of this size, with 1 to 64 workers.
    Run {
        size: ChunkSize,
        workers: u32,
    },
    /// To evaluate the chunks from `first` on and before `end` of such a run.
    Part {
        size: ChunkSize,
        workers: u32,
        first: u64,
        end: u64,
    },
    /// To put the parts of a run together.
    Join,
    /// To say how many cells such a run holds at most, and how many chunks it has.
    Plan {
        size: ChunkSize,
        workers: u32,
    },
    /// To evaluate the graph of the input, in chunks of which slabs of so many dates are folded one after the other.
    Slab {
        size: ChunkSize,
    },
    /// To say how many cells such a run holds at most, and how many chunks it has.
    SlabPlan {
        size: ChunkSize,
    },
    /// To evaluate a graph over the generated collection of a seed and a side in pixels.
    Demo {
        seed: u32,
        side: u32,
        size: ChunkSize,
        workers: u32,
    },
    /// To look for a fault of the graph of the input.
    Check,
    /// To look for a fault of the graph of the input, and to explain it.
    Explain,
    /// To write the cube file of the result text of the input, under the id of the second word.
    Pack,
    /// To write the cube file of the mounted collection of the id of the second word.
    Repack,
    /// To write what collections are mounted.
    DescribeAll,
    /// To write the dimensions of the mounted collection of the id of the second word.
    Describe,
}

/// The command that the words spell, `None` exactly where they spell none.
pub fn read_command(words: &[Text]) -> Option<Command>
    ensures some { IfSome result (Spells words.now) }
    ensures none { IfNone result (¬ SpellsCommand words.now) }
{
    match words {
        [verb] => read_alone(verb),
        [verb, id] => read_with_id(verb, id),
        [verb, cx, cy, ct] => read_sized(verb, cx, cy, ct),
        [verb, cx, cy, ct, workers] => read_numbered(verb, cx, cy, ct, workers),
        [verb, a, b, c, d, e, f] => read_seven(verb, a, b, c, d, e, f),
        _ => None,
    }
}

/// The command of one word.
fn read_alone(verb: &Text) -> Option<Command>
    ensures some { IfSome result (Spells (verb.now ∷ [])) }
    ensures none { IfNone result (¬ SpellsCommand (verb.now ∷ [])) }
{
    if is_word(verb, "check") {
        Some(Command::Check)
    } else if is_word(verb, "explain") {
        Some(Command::Explain)
    } else if is_word(verb, "describe") {
        Some(Command::DescribeAll)
    } else if is_word(verb, "join") {
        Some(Command::Join)
    } else {
        None
    }
}

/// The command of a verb and an id.
fn read_with_id(verb: &Text, id: &Text) -> Option<Command>
    ensures some { IfSome result (Spells (verb.now ∷ id.now ∷ [])) }
    ensures none { IfNone result (¬ SpellsCommand (verb.now ∷ id.now ∷ [])) }
{
    if !is_name(id.as_str()) {
        return None;
    }
    if is_word(verb, "pack") {
        return Some(Command::Pack);
    }
    if is_word(verb, "repack") {
        return Some(Command::Repack);
    }
    if is_word(verb, "describe") {
        return Some(Command::Describe);
    }
    None
}

/// The command of a verb and the sides of a chunk, `None` exactly where they spell none.
fn read_sized(verb: &Text, cx: &Text, cy: &Text, ct: &Text) -> Option<Command>
    ensures some { IfSome result (Spells (verb.now ∷ cx.now ∷ cy.now ∷ ct.now ∷ [])) }
    ensures none { IfNone result (¬ SpellsCommand (verb.now ∷ cx.now ∷ cy.now ∷ ct.now ∷ [])) }
{
    let size = read_sides(cx, cy, ct)?;
    if is_word(verb, "slab") {
        return Some(Command::Slab { size });
    }
    if is_word(verb, "slabplan") {
        return Some(Command::SlabPlan { size });
    }
    None
}

/// The command of a verb and six numbers.
fn read_seven(
    verb: &Text,
    a: &Text,
    b: &Text,
    c: &Text,
    d: &Text,
    e: &Text,
    f: &Text,
) -> Option<Command>
    ensures some { IfSome result (Spells (verb.now ∷ a.now ∷ b.now ∷ c.now ∷ d.now
        ∷ e.now ∷ f.now ∷ [])) }
    ensures none { IfNone result (¬ SpellsCommand (verb.now ∷ a.now ∷ b.now ∷ c.now ∷ d.now
        ∷ e.now ∷ f.now ∷ [])) }
{
    if is_word(verb, "part") {
        return read_part(a, b, c, d, e, f);
    }
    if is_word(verb, "demo") {
        return read_demo(a, b, c, d, e, f);
    }
    None
}

/// The command `part` with its numbers.
fn read_part(
    cx: &Text,
    cy: &Text,
    ct: &Text,
    workers: &Text,
    first: &Text,
    end: &Text,
) -> Option<Command>
    ensures some { IfSome result (Spells (codes "part" ∷ cx.now ∷ cy.now ∷ ct.now
        ∷ workers.now ∷ first.now ∷ end.now ∷ [])) }
    ensures none { IfNone result (¬ SpellsCommand (codes "part" ∷ cx.now ∷ cy.now ∷ ct.now
        ∷ workers.now ∷ first.now ∷ end.now ∷ [])) }
{
    let (size, workers) = read_numbers(cx, cy, ct, workers)?;
    let first = read_chunk_number(first)?;
    let end = read_chunk_number(end)?;
    Some(Command::Part {
        size,
        workers,
        first,
        end,
    })
}

/// The number of a chunk, or how many there are, which is 2^48 at most. `None` exactly where the word spells none.
fn read_chunk_number(word: &Text) -> Option<u64>
    ensures some { IfSome result (IsNumberWord 0 most_chunks word.now) }
    ensures none { IfNone result ((number : ℕ) → ¬ IsNumberWord 0 most_chunks word.now number) }
{
    match word.as_str().parse::<u64>() {
        Ok(number) => {
            if is_chunk_number(word, number) {
                Some(number)
            } else {
                None
            }
        }
        Err(_) => None,
    }
}

fn is_chunk_number(word: &Text, number: u64) -> bool
    ensures { IsTrue result ↔ IsNumberWord 0 most_chunks word.now number }
{
    number <= MOST_CHUNKS && spells_number(word, number)
}

/// The command `demo` with its numbers.
fn read_demo(
    seed: &Text,
    side: &Text,
    cx: &Text,
    cy: &Text,
    ct: &Text,
    workers: &Text,
) -> Option<Command>
    ensures some { IfSome result (Spells (codes "demo" ∷ seed.now ∷ side.now ∷ cx.now ∷ cy.now
        ∷ ct.now ∷ workers.now ∷ [])) }
    ensures none { IfNone result (¬ SpellsCommand (codes "demo" ∷ seed.now ∷ side.now ∷ cx.now
        ∷ cy.now ∷ ct.now ∷ workers.now ∷ [])) }
{
    let seed = read_number(seed, 0, 1000000000)?;
    let side = read_number(side, 1, 1024)?;
    let (size, workers) = read_numbers(cx, cy, ct, workers)?;
    Some(Command::Demo {
        seed,
        side,
        size,
        workers,
    })
}

/// The word is these letters.
fn is_word(word: &Text, letters: &str) -> bool
    ensures { IsTrue result ↔ word.now ≡ letters.now }
{
    word.as_str() == letters
}

/// The command of a verb, the sides of a chunk and a number of workers, `None` exactly where they spell none.
fn read_numbered(verb: &Text, cx: &Text, cy: &Text, ct: &Text, workers: &Text) -> Option<Command>
    ensures some { IfSome result
        (Spells (verb.now ∷ cx.now ∷ cy.now ∷ ct.now ∷ workers.now ∷ [])) }
    ensures none { IfNone result
        (¬ SpellsCommand (verb.now ∷ cx.now ∷ cy.now ∷ ct.now ∷ workers.now ∷ [])) }
{
    let (size, workers) = read_numbers(cx, cy, ct, workers)?;
    if is_word(verb, "run") {
        return Some(Command::Run { size, workers });
    }
    if is_word(verb, "plan") {
        return Some(Command::Plan { size, workers });
    }
    None
}

/// These chunk sides and this number of workers, `None` exactly where a word is no such number.
fn read_numbers(cx: &Text, cy: &Text, ct: &Text, workers: &Text) -> Option<(ChunkSize, u32)>
    ensures some { IfSome result (λ r. AreRunNumbers cx.now cy.now ct.now workers.now r.0 r.1) }
    ensures none { IfNone result ((size : Size) (number : ℕ) →
        ¬ AreRunNumbers cx.now cy.now ct.now workers.now size number) }
{
    let size = read_sides(cx, cy, ct)?;
    let workers = read_number(workers, 1, 64)?;
    Some((size, workers))
}
