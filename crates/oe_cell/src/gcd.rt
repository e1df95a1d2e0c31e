// The greatest common divisor, by halving and subtraction, and what is left after a division by it.
ghost use Rattle.std.specs.Prelude.{◌≡◌, ◌<◌, ◌≤◌, ◌^◌, ◌*◌, ◌%◌, ℕ, pos, neg_ℤ, ◌≤ℤ◌, ◌<ℤ◌, unsigned_abs};
ghost use Rattle.std.specs.Int.{IsGcd};
ghost use Rattle.oe_cell.specs.LowestTerms.{Expands};

/// The other number where one is 0.
#[inline(never)]
pub(crate) fn gcd(a: u64, b: u64) -> u64
    ensures gcd { IsGcd a b result }
    ensures some { 0 < b → 0 < result }
{
    if a == 0 {
        return b;
    }
    if b == 0 {
        return a;
    }
    let (x, i) = split(a);
    let (y, j) = split(b);
    odd_gcd(x, y) << i.min(j)
}

/// A number's odd part, and how often it can be halved.
fn split(n: u64) -> (u64, u32)
    requires { 0 < n }
    ensures odd { result.0 % 2 ≡ 1 }
    ensures value { n ≡ result.0 * 2 ^ result.1 }
    ensures short { result.1 < 64 }
{
    (n >> n.trailing_zeros(), n.trailing_zeros())
}

/// Of two odd numbers: the lesser one and their difference, which is even and is halved until it is odd.
fn odd_gcd(a: u64, b: u64) -> u64
    requires a_odd { a % 2 ≡ 1 }
    requires b_odd { b % 2 ≡ 1 }
    ensures { IsGcd a b result }
{
    let mut x = a;
    let mut y = b;
    while x != y {
        let least = x.min(y);
        x = odd_part(x.abs_diff(y));
        y = least;
    }
    x
}

/// A number without its factors of 2.
fn odd_part(n: u64) -> u64
    requires { 0 < n }
    ensures odd { result % 2 ≡ 1 }
    ensures power { (k : ℕ) × (n ≡ result * 2 ^ k) }
    ensures within { result ≤ n }
{
    n >> n.trailing_zeros()
}

/// Two numbers as coprime multiples of their common part.
#[derive(Clone, Copy)]
pub(crate) struct Shared {
    pub(crate) common: u64,
    pub(crate) left: u64,
    pub(crate) right: u64,
}

/// Where one is 1, no divisor is looked for.
#[inline(always)]
pub(crate) fn share(b: u64, d: u64) -> Shared
    requires { 0 < d }
    ensures parts { Expands (pos b) d (pos result.left) result.right result.common }
    ensures left { result.left ≤ b }
    ensures right { result.right ≤ d }
    ensures common { result.common ≤ d }
{
    if b == 1 || d == 1 {
        return Shared {
            common: 1,
            left: b,
            right: d,
        };
    }
    let common = gcd(b, d);
    Shared {
        common,
        left: b / common,
        right: d / common,
    }
}

/// A numerator and a denominator after a division by their greatest common divisor.
#[derive(Clone, Copy)]
pub(crate) struct Cancelled {
    pub(crate) num: i64,
    pub(crate) den: u64,
    pub(crate) common: u64,
}

#[inline(always)]
pub(crate) fn cancel(num: i64, den: u64) -> Cancelled
    requires some { 0 < den }
    requires fits { unsigned_abs num < 2 ^ 63 }
    ensures parts { Expands num den result.num result.den result.common }
    ensures num { unsigned_abs result.num ≤ unsigned_abs num }
    ensures den { result.den ≤ den }
{
    let shared = share(num.unsigned_abs(), den);
    Cancelled {
        num: with_sign(shared.left, num),
        den: shared.right,
        common: shared.common,
    }
}

/// A number by its size, with the sign of another.
#[inline(always)]
fn with_sign(size: u64, of: i64) -> i64
    requires { size < 2 ^ 63 }
    ensures up { pos 0 ≤ℤ of → result ≡ pos size }
    ensures down { of <ℤ pos 0 → result ≡ neg_ℤ (pos size) }
    ensures size { unsigned_abs result ≡ size }
{
    if of < 0 { -(size as i64) } else { size as i64 }
}
