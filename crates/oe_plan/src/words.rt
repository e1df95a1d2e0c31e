// The words that spell what a run is planned with.
ghost use Rattle.std.specs.Prelude.{ℕ, ◌≡◌, ◌≤◌, ◌↔◌, IsTrue, IfSome, IfNone, decimal};
ghost use Rattle.oe_window.specs.declared.grid.ChunkSize.{ChunkSize as Size};
ghost use Rattle.oe_plan.specs.Words.{AreSides, IsNumberWord};

use itoa::Buffer;
use oe_dims::Text;
use oe_window::ChunkSize;

/// A chunk with these sides along x, y and t, each 1 to 4096; `None` exactly where a word spells no side.
pub fn read_sides(cx: &Text, cy: &Text, ct: &Text) -> Option<ChunkSize>
    ensures some { IfSome result (AreSides cx.now cy.now ct.now) }
    ensures none { IfNone result ((size : Size) → ¬ AreSides cx.now cy.now ct.now size) }
{
    let x = read_number(cx, 1, 4096)?;
    let y = read_number(cy, 1, 4096)?;
    let t = read_number(ct, 1, 4096)?;
    Some(ChunkSize { x, y, t })
}

/// The number from `low` to `high` that the word spells in decimal, with no sign and no leading zero. `None` exactly
/// where it spells none.
pub fn read_number(word: &Text, low: u32, high: u32) -> Option<u32>
    ensures some { IfSome result (IsNumberWord low high word.now) }
    ensures none { IfNone result ((number : ℕ) → ¬ IsNumberWord low high word.now number) }
{
    match word.as_str().parse::<u32>() {
        Ok(number) => {
            if is_number(word, number, low, high) {
                Some(number)
            } else {
                None
            }
        }
        Err(_) => None,
    }
}

fn is_number(word: &Text, number: u32, low: u32, high: u32) -> bool
    ensures { IsTrue result ↔ IsNumberWord low high word.now number }
{
    is_within(number, low, high) && spells_number(word, u64::from(number))
}

fn is_within(number: u32, low: u32, high: u32) -> bool
    ensures { IsTrue result ↔ (low ≤ number) × (number ≤ high) }
{
    low <= number && number <= high
}

/// Whether the word is the decimal spelling of the number.
pub fn spells_number(word: &Text, number: u64) -> bool
    ensures { IsTrue result ↔ word.now ≡ decimal number }
{
    Buffer::new().format(number) == word.as_str()
}
