// How far windows reach along a side.
ghost use Rattle.std.specs.Prelude.{◌≡◌, ◌<◌, ◌≤◌, ◌+◌, ◌-◌, ◌%◌, ℕ, min};
ghost use Rattle.oe_kernel.specs.Borders.{IsNear, IsWrap};
ghost use Rattle.oe_kernel.specs.Convolution.{CoversWindow, IsPositionIn, longest_side};
ghost use Rattle.oe_kernel.specs.Kernels.{radius_of, largest_size};

use crate::Border;

/// What windows of an odd size read along a side, where their middles are the positions from `from` to before `to`: the
/// first position and the one after the last.
pub(crate) fn with_halo(border: Border, size: u32, side: u32, from: u32, to: u32) -> (u32, u32)
    requires odd { size % 2 ≡ 1 }
    requires size_most { size ≤ largest_size }
    requires side_most { side ≤ longest_side }
    requires order { from < to }
    requires within { to ≤ side }
    // a box that has them has each position that the rule gives, also where a window passes both ends of the side
    ensures covers { (at first end : ℕ) → IsPositionIn from to at
        → first ≤ result.0 → result.1 ≤ end → CoversWindow border at size side first end }
    // they are positions of the side, and the middles are among them
    ensures before { result.0 ≤ from }
    ensures after { to ≤ result.1 }
    ensures on_side { result.1 ≤ side }
    // and no more of the side than that
    ensures first { IsNear border → result.0 ≡ from - radius_of size }
    ensures end { IsNear border → result.1 ≡ min side (to + radius_of size) }
    ensures whole { IsWrap border → (result.0 ≡ 0) × (result.1 ≡ side) }
{
    match border {
        Border::Wrap => (0, side),
        _ => {
            let radius = (size - 1) / 2;
            (from.saturating_sub(radius), side.min(to + radius))
        }
    }
}
