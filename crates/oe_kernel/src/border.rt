// What stands for pixels outside a plane.
ghost use Rattle.std.specs.Prelude.{◌≡◌, ◌↔◌, ◌<◌, ◌≤◌, ◌+◌, ◌*◌, ◌^◌, pos, ◌+ℤ◌, ◌-ℤ◌, ◌≤ℤ◌, ◌<ℤ◌, IfSome, IsNone, IsFalse, unsigned_abs};
ghost use Rattle.oe_kernel.specs.Borders.{border_position, period_of, is_on, outside, nearest, reflected_at_pixel, modulo, folded, IsNumberBorder};

use oe_cell::Frac;

/// What stands for a pixel outside a side of n positions, which are 0 to n−1.
#[derive(Clone, Copy, PartialEq, Eq)]
pub enum Border {
    /// This number, for every such pixel.
    Value(Frac),
    /// The pixel at the nearest position.
    Replicate,
    /// The mirror image beyond the edge, which repeats every 2n positions: the pixel at the edge comes twice.
    Reflect,
    /// The mirror image at the pixel at the edge, which repeats every 2n−2 positions: that pixel comes once.
    ReflectPixel,
    /// The other end of the side, which repeats every n positions.
    Wrap,
}

/// The position on a side that stands for a position from −2^20 to 2^20. None comes exactly where the border is a
/// number and the position is outside.
pub fn border_index(border: Border, at: i64, side: u32) -> Option<u32>
    requires some { 0 < side }
    requires low { pos 0 ≤ℤ (at +ℤ pos 1048576) }
    requires high { at ≤ℤ pos 1048576 }
    ensures value { result ≡ border_position border at side }
    ensures within { IfSome result (λ position. position < side) }
    ensures inside { pos 0 ≤ℤ at → at <ℤ pos side → result ≡ Some (unsigned_abs at) }
    ensures repeats { border_position border (at +ℤ pos (period_of border side)) side ≡ result }
    ensures none { IsNone result ↔ (IsNumberBorder border × IsFalse (is_on at side)) }
{
    index_of(&border, at, side)
}

/// The position on a side that stands for any position.
pub(crate) fn index_of(border: &Border, at: i64, side: u32) -> Option<u32>
    requires some { 0 < side }
    requires low { pos 0 ≤ℤ (at +ℤ pos 1048576) }
    requires high { at ≤ℤ pos 1048576 }
    ensures value { result ≡ border_position border.now at side }
    ensures within { IfSome result (λ position. position < side) }
{
    if 0 <= at && at < i64::from(side) {
        return Some(at as u32);
    }
    outside_index(border, at, side)
}

/// The position that the rule puts in place of one outside the side.
fn outside_index(border: &Border, at: i64, side: u32) -> Option<u32>
    requires { 0 < side }
    ensures value { result ≡ outside border.now at side }
    ensures within { IfSome result (λ position. position < side) }
{
    let length = u64::from(side);
    match border {
        Border::Value(_) => None,
        Border::Replicate => Some(nearest_index(at, side)),
        Border::Reflect => Some(folded_index(at, side, 2 * length - 1, 2 * length)),
        Border::ReflectPixel => Some(reflected_at_pixel(at, side)),
        Border::Wrap => Some(modulo_index(at, length) as u32),
    }
}

/// The position of the side that is nearest.
fn nearest_index(at: i64, side: u32) -> u32
    requires { 0 < side }
    ensures value { result ≡ nearest at side }
    ensures within { result < side }
{
    if at < 0 {
        0
    } else {
        let last = side - 1;
        if at < i64::from(last) {
            at as u32
        } else {
            last
        }
    }
}

/// The position in the mirror images whose pixel at the edge comes once.
fn reflected_at_pixel(at: i64, side: u32) -> u32
    requires { 0 < side }
    ensures value { result ≡ reflected_at_pixel at side }
    ensures within { result < side }
{
    if side == 1 {
        return 0;
    }
    let turn = 2 * u64::from(side) - 2;
    folded_index(at, side, turn, turn)
}

/// Up the side and back again, within a period.
fn folded_index(at: i64, side: u32, turn: u64, period: u64) -> u32
    requires some { 0 < period }
    requires back { period ≤ turn + 1 }
    requires there { turn < 2 * side }
    ensures value { result ≡ folded side turn (modulo at period) }
    ensures within { result < side }
{
    let index = modulo_index(at, period);
    if index < u64::from(side) {
        index as u32
    } else {
        (turn - index) as u32
    }
}

/// The position modulo the period, which is never negative.
fn modulo_index(at: i64, period: u64) -> u64
    requires some { 0 < period }
    requires most { period < 2 ^ 63 }
    ensures value { result ≡ modulo at period }
    ensures within { result < period }
{
    at.rem_euclid(period as i64).unsigned_abs()
}
