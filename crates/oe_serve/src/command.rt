// The words of the command `serve`.
ghost use Rattle.std.specs.Prelude.{◌≡◌, ◌↔◌, ◌∷◌, [], ℕ, IfNone, IfSome, IsTrue, codes};
ghost use Rattle.oe_plan.specs.Words.{IsNumberWord};
ghost use Rattle.oe_serve.specs.Words.{SpellsServe};
ghost use Rattle.oe_serve.specs.declared.command.ServeCommand.{ServeCommand as Command};

use oe_dims::Text;
use oe_plan::{read_number, read_sides};
use oe_window::ChunkSize;

/// What the words `serve PORT CX CY CT W TURNS` ask for.
#[derive(Clone, Copy, PartialEq, Eq)]
pub struct ServeCommand {
    /// The port at which connections are taken, 1 to 65535.
    pub port: u16,
    /// The sides of the chunks of runs.
    pub size: ChunkSize,
    /// How many workers a run has, 1 to 64.
    pub workers: u32,
    /// How many turns the server takes.
    pub turns: u32,
}

/// The command `serve` that these words spell, `None` exactly where they spell none. Takes no memory.
pub fn read_serve(words: &[Text]) -> Option<ServeCommand>
    ensures some { IfSome result (SpellsServe words.now) }
    ensures none { IfNone result ((command : Command) → ¬ SpellsServe words.now command) }
{
    match words {
        [verb, port, cx, cy, ct, workers, turns] => {
            read_parts(verb, port, cx, cy, ct, workers, turns)
        }
        _ => None,
    }
}

/// The command of a verb and six numbers.
fn read_parts(
    verb: &Text,
    port: &Text,
    cx: &Text,
    cy: &Text,
    ct: &Text,
    workers: &Text,
    turns: &Text,
) -> Option<ServeCommand>
    ensures some { IfSome result (SpellsServe (verb.now ∷ port.now ∷ cx.now ∷ cy.now ∷ ct.now
        ∷ workers.now ∷ turns.now ∷ [])) }
    ensures none { IfNone result ((command : Command) → ¬ SpellsServe (verb.now ∷ port.now
        ∷ cx.now ∷ cy.now ∷ ct.now ∷ workers.now ∷ turns.now ∷ []) command) }
{
    if !is_serve(verb) {
        return None;
    }
    let port = read_port(port)?;
    let size = read_sides(cx, cy, ct)?;
    let workers = read_number(workers, 1, 64)?;
    let turns = read_number(turns, 0, u32::MAX)?;
    Some(ServeCommand {
        port,
        size,
        workers,
        turns,
    })
}

/// The word of the command.
fn is_serve(word: &Text) -> bool
    ensures { IsTrue result ↔ word.now ≡ codes "serve" }
{
    word.as_str() == "serve"
}

/// The port that a word spells, `None` exactly where it spells none.
fn read_port(word: &Text) -> Option<u16>
    ensures some { IfSome result (IsNumberWord 1 65535 word.now) }
    ensures none { IfNone result ((number : ℕ) → ¬ IsNumberWord 1 65535 word.now number) }
{
    match read_number(word, 1, 65535) {
        Some(port) => Some(port as u16),
        None => None,
    }
}
